//! What comes behind the end of a glyph in a charstring: Type 1 Font Format 1.1, chapter 6.

ghost use Rattle.std.specs.Prelude.{◌≡◌, slice_get};
ghost use Rattle.t1_char.specs.Charstrings.{tokens_in};
ghost use Rattle.t1_char.specs.Endings.{behind_end};

use crate::cursor::Cursor;
use crate::token::{CharToken, is_end, is_finishing};
use t1_font::Font;

/// Returns what follows the first endchar or seac of one of the font's charstrings, or None where it has neither. In the
/// charstring in which a glyph ends, no token before that one ended it.
pub fn token_behind_end(font: &Font<'_>, code: &[u8]) -> Option<CharToken>
    ensures { result ≡ slice_get (behind_end (tokens_in font.now code.now)) 0 }
{
    let mut cursor = Cursor::start(code, font.len_iv());
    loop {
        let token = cursor.next_token();
        if is_end(token) {
            return None;
        }
        if is_finishing(token) {
            return Some(cursor.next_token());
        }
    }
}
