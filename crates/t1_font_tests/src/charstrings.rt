//! Charstrings: Type 1 Font Format 1.1, chapters 6 and 8. They are given as bytes, and what is returned is compared as
//! text.
//!
//! | module | tests of |
//! |---|---|
//! | `tokens` | the tokens of a charstring |
//! | `effects`, `arguments` | what a token does, and the arguments of commands and OtherSubrs |
//! | `steps`, `limits` | the steps of a glyph, and how many an edition looks at |
//! | `machines` | the same steps one a call |
//!
//! `traces` is what they share.

mod arguments;
mod effects;
mod limits;
mod machines;
mod steps;
mod tokens;
mod traces;
