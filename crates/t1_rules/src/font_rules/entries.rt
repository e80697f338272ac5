//! The rules on entries that have one value, or two: Type 1 Font Format 1.1, chapters 2 and 5.

ghost use Rattle.std.specs.Prelude.{◌≡◌, ℕ};
ghost use Rattle.t1_font.specs.declared.key.Key.TheVariants as keys;
ghost use Rattle.t1_rules.specs.FontRules.{first_font_rules, violated};
ghost use Rattle.t1_rules.specs.Keys.{key_number};
ghost use Rattle.t1_rules.specs.Mask.{has};

use crate::font_rules::values::{is_sixteen_twice, is_the_number};
use crate::mask::Mask;
use crate::rule::Rule;
use t1_font::{Font, Key};

/// What FontType breaks at an index.
#[tactic(auto, unfolding(crate::specs::FontRules::first_font_rules))]
pub(crate) fn font_type_faults(font: &Font<'_>, index: u32) -> Mask
    ensures { (n : ℕ) → has result n ≡ violated first_font_rules n font.now (key_number keys.FontType) index }
{
    let is_one = is_the_number(1, font.value(Key::FontType));
    Mask::empty().with(Rule::F03, (index == 0) & !is_one)
}

/// What PaintType breaks at an index.
#[tactic(auto, unfolding(crate::specs::FontRules::first_font_rules))]
pub(crate) fn paint_type_faults(font: &Font<'_>, index: u32) -> Mask
    ensures { (n : ℕ) → has result n ≡ violated first_font_rules n font.now (key_number keys.PaintType) index }
{
    let paint_type = font.value(Key::PaintType);
    let is_fill_or_stroke = is_the_number(0, paint_type) | is_the_number(2, paint_type);
    Mask::empty().with(Rule::F04, (index == 0) & !is_fill_or_stroke)
}

/// What the password breaks at an index.
#[tactic(auto, unfolding(crate::specs::FontRules::first_font_rules))]
pub(crate) fn password_faults(font: &Font<'_>, index: u32) -> Mask
    ensures { (n : ℕ) → has result n ≡ violated first_font_rules n font.now (key_number keys.Password) index }
{
    let is_usual = is_the_number(5839, font.value(Key::Password));
    Mask::empty().with(Rule::F07, (index == 0) & !is_usual)
}

/// What MinFeature breaks at an index.
#[tactic(auto, unfolding(crate::specs::FontRules::first_font_rules))]
pub(crate) fn min_feature_faults(font: &Font<'_>, index: u32) -> Mask
    ensures { (n : ℕ) → has result n ≡ violated first_font_rules n font.now (key_number keys.MinFeature) index }
{
    let is_usual = is_sixteen_twice(font.value(Key::MinFeature));
    Mask::empty().with(Rule::F08, (index == 0) & !is_usual)
}
