//! The rules on the CharStrings: Type 1 Font Format 1.1, chapter 2.

ghost use Rattle.std.specs.Prelude.{◌≡◌, ℕ, ◌==◌, ◌&&◌, not};
ghost use Rattle.t1_rules.specs.FontRules.{first_font_rules, violated};
ghost use Rattle.t1_rules.specs.FontRules.Glyphs.{has_glyph, is_glyph_given_twice, not_defined};
ghost use Rattle.t1_rules.specs.Keys.{glyphs_key};
ghost use Rattle.t1_rules.specs.Mask.{has};

use crate::keys::INDEXES;
use crate::mask::Mask;
use crate::rule::Rule;
use t1_font::Font;

/// The glyph that is drawn for all that are missing.
pub(crate) const NOT_DEFINED: &[u8] = b".notdef";

/// Whether a glyph has this name.
pub(crate) fn has_glyph(font: &Font<'_>, name: &[u8]) -> bool
    ensures { result ≡ has_glyph font.now name.now }
{
    font.glyphs().contains_key(&name)
}

/// Whether no glyph is `.notdef`, which is said at index 0 and looked up there alone.
fn lacks_not_defined(font: &Font<'_>, index: u32) -> bool
    ensures { result ≡ (index == 0 && not (has_glyph font.now not_defined)) }
{
    index == 0 && !has_glyph(font, NOT_DEFINED)
}

/// Whether the glyph of this number is given twice.
fn is_glyph_given_twice(font: &Font<'_>, glyph: u32) -> bool
    ensures { result ≡ is_glyph_given_twice font.now glyph }
{
    glyph < INDEXES && (glyph as usize) < font.glyphs().len() && font.glyph_twice(glyph as usize)
}

/// What the CharStrings break at an index.
#[tactic(auto, unfolding(crate::specs::FontRules::first_font_rules))]
pub(crate) fn glyph_faults(font: &Font<'_>, index: u32) -> Mask
    ensures { (n : ℕ) → has result n ≡ violated first_font_rules n font.now glyphs_key index }
{
    Mask::empty()
        .with(Rule::F10, is_glyph_given_twice(font, index))
        .with(Rule::F09, lacks_not_defined(font, index))
}
