//! The procedure that reads a charstring: Type 1 Font Format 1.1, chapters 2 and 10.

ghost use Rattle.std.specs.Prelude.{◌≡◌, true, false};
ghost use Rattle.std.specs.Bool.{then_some};
ghost use Rattle.t1_scan.specs.State.{has_failed, left_of};
ghost use Rattle.t1_scan.specs.Tokens.{token_of};
ghost use Rattle.t1_words.specs.Readers.{after_word, are_words, inside, is_end, reader_words, reads_charstrings};

use t1_scan::{Kind, Scanner, Token};

/// Between the first brace and the last.
fn inside(text: &[u8]) -> &[u8]
    ensures { result.now ≡ inside text.now }
{
    match text {
        [_, inside @ .., _] => inside,
        _ => &[],
    }
}

/// Reads a token; false where it isn't this word.
fn reads_word(scanner: &mut Scanner<'_>, word: &[u8]) -> bool
    requires { has_failed scanner.old ≡ false }
    ensures left { then_some result (left_of scanner.new) ≡ after_word word.now (token_of (left_of scanner.old)) }
    ensures live { result ≡ true → has_failed scanner.new ≡ false }
{
    match scanner.next() {
        Ok(Some(token)) => token.kind == Kind::Word && token.text == word,
        _ => false,
    }
}

/// Whether no token is left.
fn is_at_end(scanner: &mut Scanner<'_>) -> bool
    requires { has_failed scanner.old ≡ false }
    ensures { result ≡ is_end (token_of (left_of scanner.old)) }
{
    matches!(scanner.next(), Ok(None))
}

/// Whether a text is read as `string currentfile exch readstring pop`.
fn are_reader_words(text: &[u8]) -> bool
    ensures { result ≡ are_words reader_words text.now }
{
    let mut scanner = Scanner::new(text);
    reads_word(&mut scanner, b"string")
        && reads_word(&mut scanner, b"currentfile")
        && reads_word(&mut scanner, b"exch")
        && reads_word(&mut scanner, b"readstring")
        && reads_word(&mut scanner, b"pop")
        && is_at_end(&mut scanner)
}

/// Whether a token is the procedure `{string currentfile exch readstring pop}`, with any blanks and comments.
pub fn reads_charstrings(token: &Token<'_>) -> bool
    ensures { result ≡ reads_charstrings token.now.kind token.now.text.now }
{
    token.kind == Kind::Proc && are_reader_words(inside(token.text))
}
