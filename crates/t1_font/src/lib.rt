//! Reads a Type 1 font: what its clear text and its private text state, or the one reason why they
//! can't be read. Adobe Type 1 Font Format 1.1, chapters 2, 5, 6 and 7.
//!
//! [`OpenFont`] is the way in: `open` joins the bytes of a file, and `font` returns the [`Font`], which
//! borrows from it. Below it, [`read_clear`] reads joined bytes up to the word `eexec`, and [`read_font`]
//! reads the decrypted private text over that. A charstring is a slice of the private text: none is copied.
//! Which tokens are read, the limits and the refusals are this program's own.
//!
//! What is promised, for all bytes:
//!
//! - A text is read exactly where the definitions in `specs/` read it, and else refused for the first thing
//!   that they name. Running out of memory alone says nothing of the bytes.
//! - Each reader of [`Font`] returns what was stated last: the last value of a key, the last charstring of
//!   a glyph or a Subr, the codes of the last Encoding. Glyphs are in the order of their first appearance.
//! - No index, sum or cast goes wrong, and each call returns.
//!
//! ```
//! let mut file = t1_font::OpenFont::open(alloc, bytes)?;
//! let font = file.font(alloc)?;
//! ```
#![tactic(auto)]

mod bounds;
mod clear;
mod clear_text;
mod copies;
mod encoding;
mod entry;
mod font;
mod key;
mod laws;
mod limit_laws;
mod mode;
mod open_font;
mod plain_values;
mod private_text;
mod refusal_laws;
mod row;
mod statement;
mod texts;
mod tokens;
mod unread;
mod value_laws;

pub use bounds::{CODES, KEPT_NUMBERS, LONGEST_CHARSTRING, MOST_GLYPHS, MOST_SUBRS};
pub use clear::{Clear, read_clear, read_font};
pub use copies::copy_of;
pub use encoding::Encoding;
pub use entry::Entry;
pub use font::Font;
pub use key::Key;
pub use laws::{
    blanks_between_entries, blanks_of_sections_and_tokens, different_keys, idle_additions,
    keys_stand_once, noted_keys_change_nothing_else, one_more_statement, reading_by_statements,
    repeated_keys, rows_of_texts, small_usual_font, usual_clear_texts, usual_fonts,
    usual_private_texts, words_between_entries,
};
pub use limit_laws::limits_of_fonts;
pub use open_font::OpenFont;
pub use refusal_laws::{
    each_part_has_its_refusals, early_ends, long_charstrings, refusals_of_texts,
    small_broken_texts, unclosed_tokens,
};
pub use row::{Entry as RowEntry, Part, Role, Row, TokenInRow};
pub use tokens::BILLION;
pub use unread::{RefusalCode, Unread, refusal_text};
pub use value_laws::lists_by_tokens;
