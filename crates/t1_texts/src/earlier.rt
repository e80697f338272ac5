//! The tokens before one: they are walked again where a word is looked up.

ghost use Rattle.std.specs.Prelude.{◌≡◌, if◌then◌else◌};
ghost use Rattle.t1_texts.specs.Given.{is_given, is_this, names};
ghost use Rattle.t1_texts.specs.Private.Watching.{tokens_before};
ghost use Rattle.t1_texts.specs.Readers.{is_reader, reads};
ghost use Rattle.t1_font.specs.Rows.{token_in_row};
ghost use Rattle.t1_font.specs.Views.{bytes_of};

use t1_font::{Row, TokenInRow};
use t1_words::reads_charstrings;

/// The first tokens of a row.
#[derive(Clone, Copy)]
pub(crate) struct Earlier<'a> {
    /// The row, from its first token on.
    pub row: Row<'a>,
    /// How many of its tokens.
    pub count: usize,
}

/// Whether a name, if there is one, is this one.
pub(crate) fn is_this(word: &[u8], name: Option<&[u8]>) -> bool
    ensures { result ≡ is_this word.now (bytes_of name.entry) }
{
    match name {
        Some(name) => name == word,
        None => false,
    }
}

/// Whether a token is the name of this spelling.
pub(crate) fn names(word: &[u8], token: &TokenInRow<'_>) -> bool
    ensures { result ≡ names word.now (token_in_row token.now) }
{
    is_this(word, token.name())
}

/// Whether charstrings are read, by what is known so far and the next token, which may be behind the name.
fn reads_on(is_behind: bool, known: bool, token: &TokenInRow<'_>) -> bool
    ensures { result ≡ (if is_behind then reads (token_in_row token.now) else known) }
{
    if is_behind {
        reads_charstrings(&token.token)
    } else {
        known
    }
}

impl<'a> Earlier<'a> {
    /// Whether a name is given by these tokens.
    pub(crate) fn is_given(self, word: &[u8]) -> bool
        ensures { result ≡ is_given word.now (tokens_before self.entry) }
    {
        let mut row = self.row;
        let mut left = self.count;
        'tokens: while left > 0 {
            let Some(token) = row.next() else {
                return false;
            };
            if names(word, &token) {
                return true;
            }
            left -= 1;
        }
        false
    }

    /// Whether these tokens define a word as a reader of charstrings.
    pub(crate) fn is_reader(self, word: &[u8]) -> bool
        ensures { result ≡ is_reader word.now (tokens_before self.entry) }
    {
        let mut row = self.row;
        let mut left = self.count;
        let mut is_behind = false;
        let mut reads = false;
        'tokens: while left > 0 {
            let Some(token) = row.next() else {
                return reads;
            };
            let is_name = names(word, &token);
            reads = !is_name & reads_on(is_behind, reads, &token);
            is_behind = is_name;
            left -= 1;
        }
        reads
    }
}
