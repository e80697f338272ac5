//! Whether charstrings of a font have a seac, by their bytes: Type 1 Font Format 1.1, chapter 6.

ghost use Rattle.std.specs.List.{list_any};
ghost use Rattle.std.specs.Prelude.{◌≡◌, true, false};
ghost use Rattle.t1_char.specs.Seacs.{step_is_seac, subrs_have_seac};
ghost use Rattle.t1_char.specs.Steps.{steps_of};

use crate::charstrings::{code_at, cursor_at};
use crate::cursor::Cursor;
use t1_font::Font;

/// Whether surely none of the Subrs has a seac.
pub fn subrs_lack_seac(font: &Font<'_>) -> bool
    ensures { result ≡ true → subrs_have_seac font.now ≡ false }
{
    for (_, code) in font.subrs() {
        if Cursor::start(code, font.len_iv()).may_have_seac() {
            return false;
        }
    }
    true
}

/// Whether surely no step of a glyph is a seac, given whether surely none of the Subrs has one.
pub fn steps_lack_seac<'a>(font: &'a Font<'a>, glyph: usize, plain_subrs: bool) -> bool
    requires { plain_subrs ≡ true → subrs_have_seac font.now ≡ false }
    ensures { result ≡ true → list_any step_is_seac (steps_of font.now glyph) ≡ false }
{
    plain_subrs && !cursor_at(font, code_at(font, glyph)).may_have_seac()
}
