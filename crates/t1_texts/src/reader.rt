//! A word that is found to read charstrings, so that it isn't looked up again.

ghost use Rattle.std.specs.Prelude.{◌≡◌, ◌&&◌, ◌++◌, ◌∷◌, [], List, not};
ghost use Rattle.t1_font.specs.Rows.{RowToken, token_in_row};
ghost use Rattle.t1_font.specs.Views.{bytes_of};
ghost use Rattle.t1_texts.specs.Given.{is_this};
ghost use Rattle.t1_texts.specs.Private.Watching.{Reads, tokens_before};
ghost use Rattle.t1_texts.specs.Readers.{comes_before_charstring, is_reader, is_unread};

use crate::earlier::{Earlier, is_this, names};
use t1_font::{Role, TokenInRow};

/// The word that read charstrings last, if no name of its spelling came since.
#[derive(Drop)]
pub(crate) struct KnownReader<'a> {
    pub word: Option<&'a [u8]>,
}

/// Whether a word comes before a charstring.
fn comes_before_charstring(role: Role) -> bool
    ensures { result ≡ comes_before_charstring role }
{
    matches!(role, Role::Reader)
}

impl<'a> KnownReader<'a> {
    /// Whether it is this word.
    fn has(&self, word: &[u8]) -> bool
        ensures { result ≡ is_this word.now (bytes_of self.now.word) }
    {
        is_this(word, self.word)
    }

    /// Whether a word reads charstrings, by the tokens before it.
    pub(crate) fn is_reader(&mut self, earlier: Earlier<'a>, word: &'a [u8]) -> bool
        requires { Reads self.old.word (tokens_before earlier) }
        ensures is { result ≡ is_reader word.now (tokens_before earlier.entry) }
        ensures stay { Reads self.new.word (tokens_before earlier.entry) }
    {
        if self.has(word) {
            return true;
        }
        let is_reader = earlier.is_reader(word);
        if is_reader {
            self.word = Some(word);
        }
        is_reader
    }

    /// Whether a token is a word before a charstring that doesn't read it, where none is found yet.
    pub(crate) fn is_unread(
        &mut self,
        is_found: bool,
        earlier: Earlier<'a>,
        token: &TokenInRow<'a>,
    ) -> bool
        requires { Reads self.old.word (tokens_before earlier) }
        ensures is { result ≡ (not is_found && is_unread (tokens_before earlier.entry) (token_in_row token.now)) }
        ensures stay { Reads self.new.word (tokens_before earlier.entry) }
    {
        if is_found || !comes_before_charstring(token.role) {
            return false;
        }
        !self.is_reader(earlier, token.token.text)
    }

    /// Goes past a token.
    pub(crate) fn pass(&mut self, token: &TokenInRow<'_>)
        ensures { (before : List RowToken) → Reads self.old.word before → Reads self.new.word (before ++ token_in_row token.now ∷ []) }
    {
        if let Some(word) = self.word {
            if names(word, token) {
                self.word = None;
            }
        }
    }
}
