//! The Private dictionary, which an interpreter needs before the Subrs and the CharStrings.

ghost use Rattle.std.specs.Prelude.{◌≡◌};
ghost use Rattle.t1_font.specs.Rows.{after_first, row_left, token_in_row};
ghost use Rattle.t1_texts.specs.Given.{names};
ghost use Rattle.t1_texts.specs.PrivateDictionary.{begins_list, begins_private, has_private, is_count, is_word, next_is};

use crate::earlier::names;
use t1_font::{BILLION, Role, Row, TokenInRow};
use t1_scan::Kind;

/// Whether a token is this word.
fn is_word(word: &[u8], token: &TokenInRow<'_>) -> bool
    ensures { result ≡ is_word word.now (token_in_row token.now) }
{
    matches!(token.token.kind, Kind::Word) && token.token.text == word
}

/// Whether a token is a whole number of 1 or more.
#[tactic(auto, unfolding(t1_font::specs::Tokens::whole))]
fn is_count(token: &TokenInRow<'_>) -> bool
    ensures { result ≡ is_count (token_in_row token.now) }
{
    match token.token.kind {
        Kind::Number(value) => value >= BILLION && value % BILLION == 0,
        _ => false,
    }
}

/// Takes the next token, and says whether it is this word.
fn takes_word(row: &mut Row<'_>, word: &[u8]) -> bool
    ensures is { result ≡ next_is (is_word word.now) (row_left row.old) }
    ensures rest { row_left row.new ≡ after_first (row_left row.old) }
{
    match row.next() {
        Some(token) => is_word(word, &token),
        None => false,
    }
}

/// Takes the next token, and says whether it is this name.
fn takes_name(row: &mut Row<'_>, name: &[u8]) -> bool
    ensures is { result ≡ next_is (names name.now) (row_left row.old) }
    ensures rest { row_left row.new ≡ after_first (row_left row.old) }
{
    match row.next() {
        Some(token) => names(name, &token),
        None => false,
    }
}

/// Takes the next token, and says whether it is a whole number of 1 or more.
fn takes_count(row: &mut Row<'_>) -> bool
    ensures is { result ≡ next_is is_count (row_left row.old) }
    ensures rest { row_left row.new ≡ after_first (row_left row.old) }
{
    match row.next() {
        Some(token) => is_count(&token),
        None => false,
    }
}

/// Whether the dictionary begins here.
fn begins_private(row: Row<'_>) -> bool
    ensures { result ≡ begins_private (row_left row.entry) }
{
    let mut row = row;
    takes_name(&mut row, b"Private")
        && takes_count(&mut row)
        && takes_word(&mut row, b"dict")
        && takes_word(&mut row, b"dup")
        && takes_word(&mut row, b"begin")
}

/// Whether a list begins at a token.
fn begins_list(role: Role) -> bool
    ensures { result ≡ begins_list role }
{
    matches!(role, Role::List)
}

/// Whether a row of a private text has its Private dictionary, ahead of its lists.
pub fn has_private_dictionary(row: Row<'_>) -> bool
    ensures { result ≡ has_private (row_left row.entry) }
{
    let mut left = row;
    'tokens: loop {
        let here = left;
        let Some(token) = left.next() else {
            return false;
        };
        if begins_list(token.role) {
            return false;
        }
        if begins_private(here) {
            return true;
        }
    }
}
