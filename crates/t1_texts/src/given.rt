//! Words that are found to be given, so that they aren't looked up again.

ghost use Rattle.std.specs.Prelude.{◌≡◌, ◌&&◌, List, not, true};
ghost use Rattle.std.specs.List.{list_any};
ghost use Rattle.std.specs.Str.{bytes_eq};
ghost use Rattle.t1_font.specs.Rows.{RowToken, token_in_row};
ghost use Rattle.t1_texts.specs.Given.{is_given, is_unknown};
ghost use Rattle.t1_texts.specs.Private.Watching.{AreGiven, tokens_before};

use crate::earlier::Earlier;
use arrayvec::ArrayVec;
use t1_font::TokenInRow;
use t1_words::wants_definition;

/// How many words are kept: a font has three as a rule, RD, ND and NP.
const KEPT: usize = 4;

/// Some of the words that were given so far.
#[derive(Drop)]
pub(crate) struct GivenWords<'a> {
    words: ArrayVec<&'a [u8], KEPT>,
}

impl<'a> GivenWords<'a> {
    /// No word.
    pub(crate) fn new() -> GivenWords<'a>
        ensures { (before : List RowToken) → AreGiven result.words.items before }
    {
        GivenWords {
            words: ArrayVec::new(),
        }
    }

    /// Whether a word is kept.
    fn has(&self, word: &[u8]) -> bool
        ensures { result ≡ list_any (λ kept. bytes_eq kept.now word.now) self.now.words.items }
    {
        self.words.iter().any(|kept| *kept == word)
    }

    /// Keeps a word.
    fn keep(&mut self, word: &'a [u8])
        ensures { (before : List RowToken) → AreGiven self.old.words.items before → is_given word.now before ≡ true → AreGiven self.new.words.items before }
    {
        if self.words.is_full() {
            self.words.clear();
        }
        self.words.push(word);
    }

    /// Whether a word is given by the tokens before it.
    pub(crate) fn is_given(&mut self, earlier: Earlier<'a>, word: &'a [u8]) -> bool
        requires { AreGiven self.old.words.items (tokens_before earlier) }
        ensures is { result ≡ is_given word.now (tokens_before earlier.entry) }
        ensures stay { AreGiven self.new.words.items (tokens_before earlier.entry) }
    {
        if self.has(word) {
            return true;
        }
        let is_given = earlier.is_given(word);
        if is_given {
            self.keep(word);
        }
        is_given
    }

    /// Whether a token is a word that is neither known nor given, where none is found yet.
    pub(crate) fn is_unknown(
        &mut self,
        is_found: bool,
        earlier: Earlier<'a>,
        token: &TokenInRow<'a>,
    ) -> bool
        requires { AreGiven self.old.words.items (tokens_before earlier) }
        ensures is { result ≡ (not is_found && is_unknown (tokens_before earlier.entry) (token_in_row token.now)) }
        ensures stay { AreGiven self.new.words.items (tokens_before earlier.entry) }
    {
        if is_found {
            return false;
        }
        let word = token.token.text;
        if self.has(word) {
            return false;
        }
        wants_definition(&token.token) && !self.is_given(earlier, word)
    }
}
