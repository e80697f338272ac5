//! The rules on the two texts of a font, as an interpreter of PostScript meets them. Type 1 Font Format 1.1, chapter 2.

ghost use Rattle.std.specs.Prelude.{◌≡◌, ℕ, is_some};
ghost use Rattle.std.specs.Option.{option_map};
ghost use Rattle.t1_rules.specs.FontRules.{latest_font_rules, violated};
ghost use Rattle.t1_rules.specs.Keys.{encoding_key, file_key, key_number};
ghost use Rattle.t1_rules.specs.Mask.{has};
ghost use Rattle.t1_texts.specs.RowFaults.{placed_view};

use crate::font_rules::dictionaries::is_singular;
use crate::mask::Mask;
use crate::rule::Rule;
use t1_font::{Font, Key, Row};
use t1_texts::{Placed, has_private_dictionary, row_faults};
use t1_words::{begins_as_type1, has_high_byte};

/// What the texts as a whole break at an index.
#[tactic(auto, unfolding(crate::specs::FontRules::latest_font_rules))]
pub(crate) fn text_faults(font: &Font<'_>, index: u32) -> Mask
    ensures { (n : ℕ) → has result n ≡ violated latest_font_rules n font.now file_key index }
{
    if index == 0 {
        all_text_faults(font)
    } else {
        Mask::empty()
    }
}

/// Whether there is such a fault.
fn is_found(fault: Option<Placed<'_>>) -> bool
    ensures { result ≡ is_some (option_map placed_view fault.entry) }
{
    fault.is_some()
}

/// What the texts as a whole break.
fn all_text_faults(font: &Font<'_>) -> Mask
    ensures { (n : ℕ) → has result n ≡ violated latest_font_rules n font.now file_key 0 }
{
    let clear = row_faults(Row::clear(font));
    let private = row_faults(Row::private(font));
    let is_unpaired = is_found(clear.unpaired) | is_found(private.unpaired);
    let is_unknown = is_found(clear.unknown) | is_found(private.unknown);
    Mask::empty()
        .with(Rule::F29, !begins_as_type1(font.clear_text()))
        .with(Rule::F28, !has_private_dictionary(Row::private(font)))
        .with(Rule::F26, is_unknown)
        .with(Rule::F25, is_unpaired)
        .with(Rule::F24, is_found(private.unread))
        .with(Rule::F22, has_high_byte(font.clear_text()))
}

/// What a plain key breaks at an index, by how often it is given, and FontMatrix by its value.
#[tactic(auto, using(crate::proofs::Lemmas::Texts::repeated_told))]
pub(crate) fn repeated_faults(font: &Font<'_>, key: Key, index: u32) -> Mask
    ensures { (n : ℕ) → has result n ≡ violated latest_font_rules n font.now (key_number key) index }
{
    let is_flat = matches!(key, Key::FontMatrix) && (index == 0 && is_singular(font.value(key)));
    Mask::empty()
        .with(Rule::F27, is_flat)
        .with(Rule::F23, (index == 0) & font.is_key_twice(key))
}

/// What the Encoding breaks at an index, by how often it is given.
#[tactic(auto, unfolding(crate::specs::FontRules::latest_font_rules))]
pub(crate) fn encoding_repeated_faults(font: &Font<'_>, index: u32) -> Mask
    ensures { (n : ℕ) → has result n ≡ violated latest_font_rules n font.now encoding_key index }
{
    Mask::empty().with(Rule::F23, (index == 0) & font.is_encoding_twice())
}
