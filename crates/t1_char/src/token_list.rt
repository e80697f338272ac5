//! All tokens of a charstring: Type 1 Font Format 1.1, chapters 6 and 7.

ghost use Rattle.std.specs.List.{list_any};
ghost use Rattle.std.specs.Prelude.{◌≡◌, IfOk, negsuc, pos, ◌≤ℤ◌};
ghost use Rattle.t1_font.specs.Bounds.{greatest_len_iv};
ghost use Rattle.t1_char.specs.Charstrings.{tokens_in};
ghost use Rattle.t1_char.specs.Endings.{last_token};
ghost use Rattle.t1_char.specs.Steps.{is_return};
ghost use Rattle.t1_char.specs.Tokens.{charstring_tokens};

use crate::charstrings::cursor_at;
use crate::cursor::Cursor;
use crate::token::{CharToken, is_end, is_return};
use std::alloc::{AllocError, Global};
use t1_font::Font;

/// The tokens of a charstring as it is in the font, by lenIV: -1 for charstrings that aren't
/// encrypted, else how many random bytes come first, at most 64.
pub fn tokens(alloc: Global, code: &[u8], len_iv: i8) -> Result<Vec<CharToken>, AllocError>
    requires least { negsuc 0 ≤ℤ len_iv }
    requires greatest { len_iv ≤ℤ pos greatest_len_iv }
    ensures { IfOk result (λ tokens. tokens.items ≡ charstring_tokens len_iv code.now) }
{
    let mut tokens = Vec::new(alloc);
    let mut cursor = Cursor::start(code, len_iv);
    loop {
        let token = cursor.next_token();
        tokens.push(token)?;
        if matches!(token, CharToken::End) {
            return Ok(tokens);
        }
    }
}

/// Whether one of the tokens of a charstring of a font is the command return. No memory is taken.
pub fn has_return(font: &Font<'_>, code: &[u8]) -> bool
    ensures { result ≡ list_any is_return (tokens_in font.now code.now) }
{
    let mut cursor = cursor_at(font, code);
    loop {
        let token = cursor.next_token();
        if is_return(token) {
            return true;
        }
        if matches!(token, CharToken::End) {
            return false;
        }
    }
}

/// Returns the last token of a charstring of a font before its end, or None where it has none. No memory is taken.
pub fn last_token(font: &Font<'_>, code: &[u8]) -> Option<CharToken>
    ensures { result ≡ last_token (tokens_in font.now code.now) }
{
    let mut cursor = cursor_at(font, code);
    let mut last = None;
    loop {
        let token = cursor.next_token();
        if is_end(token) {
            return last;
        }
        last = Some(token);
    }
}
