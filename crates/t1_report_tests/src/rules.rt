//! The rule book, and the rules on fonts: t1_rules, by its public items alone. Rules on charstrings need a whole glyph, and
//! are in the modules beside this one.
//!
//! | module | tests of |
//! |---|---|
//! | `book`, `keys`, `mask` | rules and keys by their numbers, and sets of rules |
//! | `file` | rules on the file |
//! | `entries`, `encoding`, `ids`, `glyphs`, `subrs` | rules on entries of the font, and on what they hold |
//! | `zones`, `stems`, `hints` | rules on the numbers of the Private dictionary |
//!
//! `faults` is what they share.

mod book;
mod encoding;
mod entries;
mod faults;
mod file;
mod glyphs;
mod hints;
mod ids;
mod keys;
mod mask;
mod stems;
mod subrs;
mod zones;
