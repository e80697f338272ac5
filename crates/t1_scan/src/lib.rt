//! Tokens of Type 1 font text.
//!
//! [`Scanner`] reads a font's clear text, or its decrypted private text, one token after another:
//! names, words, numbers with their values, strings, procedures and arrays. Nothing is allocated: a
//! token's text is a slice of what is read. The lexical rules are PostScript's, as Adobe Type 1
//! Font Format 1.1 uses them (chapters 2 and 10). The choice of tokens, each procedure and each
//! array being one, the limits and the unit of numbers are this program's own: procedures and
//! arrays nest at most 32 deep, and a number is below a billion and counted in units of 10^-9.
//!
//! Promised for any bytes:
//!
//! - Each call returns, and none reads past the text.
//! - `next` returns a token in its plain form, after blanks and comments alone; None exactly where blanks
//!   and comments alone are left; and [`ScanError`] exactly where more is left and no such token follows.
//! - After a [`ScanError`] each later `next` returns it again, `raw` returns None, and the place stays.
//! - Tokens follow one another: each begins at or after the end of the one before, and takes a byte or more.
//!
//! ```
//! let mut scanner = Scanner::new(b"/BlueScale .0375 def");
//! scanner.next()?; // the name /BlueScale
//! scanner.next()?; // Kind::Number(37_500_000)
//! scanner.next()?; // the word def
//! scanner.next()?; // None
//! ```
#![tactic(auto)]

mod bytes;
mod digits;
mod error;
mod forms;
mod laws;
mod nesting;
mod numbers;
mod runs;
mod scanner;
mod strings;
mod token;

pub use bytes::is_regular;
pub use digits::BILLION;
pub use error::ScanError;
pub use laws::{
    deep_tokens_are_refused, nine_digits_are_below_a_billion, nothing_else_is_read,
    numbers_have_their_values, plain_tokens_are_read, tokens_cover_the_text, tokens_take_bytes,
    written_tokens_are_read,
};
pub use runs::run_len;
pub use scanner::Scanner;
pub use strings::part_len;
pub use token::{Kind, Token};
