//! What a font's texts state, one turn of reading after another: Type 1 Font Format 1.1, chapter 2.

ghost use Rattle.std.specs.Prelude.{◌≡◌};
ghost use Rattle.t1_font.specs.Notes.{noted};
ghost use Rattle.t1_font.specs.Private.Statements.{view_if_any};

use crate::encoding::Encoding;
use crate::key::Key;
use crate::tokens::token_ahead;
use t1_scan::Token;

/// What a text states.
#[derive(Clone, Copy)]
pub enum Statement<'a> {
    /// A plain key and its value.
    Plain(Key, Token<'a>),
    /// An Encoding of this form begins.
    Encoding(Encoding),
    /// A custom encoding's code has this name.
    Code(u32, &'a [u8]),
    /// A custom encoding has a code that isn't whole from 0 to 255.
    BadCode,
    /// How many Subrs there are to be.
    Size(u32),
    /// A Subr's number and charstring.
    Subr(u32, &'a [u8]),
    /// A glyph's name and charstring.
    Glyph(&'a [u8], &'a [u8]),
}

/// One turn of reading, `M` the modes of the text.
pub enum Turn<'a, M> {
    /// The text is over, and this is left.
    Over(&'a [u8]),
    /// Reading goes on at what is left, after a statement or none.
    Goes(Option<Statement<'a>>, M, &'a [u8]),
}

/// What a noted key states: the token behind its name, which isn't taken.
#[tactic(auto, unfolding(crate::specs::Notes::noted))]
pub(crate) fn noted<'a>(key: Option<Key>, text: &'a [u8]) -> Option<Statement<'a>>
    ensures { view_if_any result ≡ noted key text.now }
{
    let key = key?;
    let (token, _) = token_ahead(text)?;
    Some(Statement::Plain(key, token))
}
