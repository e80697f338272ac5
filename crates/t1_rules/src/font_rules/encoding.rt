//! The rules on the Encoding: Type 1 Font Format 1.1, chapter 2.

ghost use Rattle.std.specs.Prelude.{◌≡◌, ℕ};
ghost use Rattle.t1_font.specs.Views.{bytes_of};
ghost use Rattle.t1_rules.specs.FontRules.{first_font_rules, violated};
ghost use Rattle.t1_rules.specs.FontRules.Encoding.{encodes_missing, is_custom, is_missing, is_no_form};
ghost use Rattle.t1_rules.specs.Keys.{encoding_key};
ghost use Rattle.t1_rules.specs.Mask.{has};

use crate::font_rules::glyphs::{NOT_DEFINED, has_glyph};
use crate::mask::Mask;
use crate::rule::Rule;
use t1_font::{CODES, Encoding, Font};

/// Whether an Encoding isn't there, or of another form.
fn is_no_form(encoding: Encoding) -> bool
    ensures { result ≡ is_no_form encoding }
{
    match encoding {
        Encoding::Absent | Encoding::Other => true,
        Encoding::Standard | Encoding::Custom => false,
    }
}

/// Whether an Encoding is a custom one.
fn is_custom(encoding: Encoding) -> bool
    ensures { result ≡ is_custom encoding }
{
    match encoding {
        Encoding::Custom => true,
        Encoding::Absent | Encoding::Standard | Encoding::Other => false,
    }
}

/// Whether it is a name other than `.notdef` that no glyph has.
fn is_missing(font: &Font<'_>, name: Option<&[u8]>) -> bool
    ensures { result ≡ is_missing font.now (bytes_of name.entry) }
{
    match name {
        Some(name) => name != NOT_DEFINED && !has_glyph(font, name),
        None => false,
    }
}

/// Whether a custom encoding names a glyph for this code that isn't there.
pub fn encodes_missing(font: &Font<'_>, code: u32) -> bool
    ensures { result ≡ encodes_missing font.now code }
{
    code < CODES && is_custom(font.encoding()) && is_missing(font, font.encoded(code))
}

/// What the Encoding breaks at an index.
#[tactic(auto, unfolding(crate::specs::FontRules::first_font_rules))]
pub(crate) fn encoding_faults(font: &Font<'_>, index: u32) -> Mask
    ensures { (n : ℕ) → has result n ≡ violated first_font_rules n font.now encoding_key index }
{
    Mask::empty()
        .with(Rule::F13, encodes_missing(font, index))
        .with(Rule::F12, (index == 0) & font.bad_code())
        .with(Rule::F11, (index == 0) & is_no_form(font.encoding()))
}
