//! The rules on the Subrs: Type 1 Font Format 1.1, chapters 6 and 8.

ghost use Rattle.std.specs.Prelude.{◌≡◌, ℕ};
ghost use Rattle.t1_rules.specs.FontRules.{first_font_rules, later_font_rules, violated};
ghost use Rattle.t1_rules.specs.FontRules.Subrs.{is_wrong_subr, lacks_return};
ghost use Rattle.t1_rules.specs.Keys.{subrs_key};
ghost use Rattle.t1_rules.specs.Mask.{has};

use crate::keys::INDEXES;
use crate::mask::Mask;
use crate::rule::Rule;
use t1_char::has_return;
use t1_font::Font;

/// Whether the Subr of this number is given twice, or not below the size of the array.
pub fn is_wrong_subr(font: &Font<'_>, number: u32) -> bool
    ensures { result ≡ is_wrong_subr font.now number }
{
    number < INDEXES
        && font.subr(number).is_some()
        && (font.subr_twice(number) || number >= font.subr_size())
}

/// What the Subrs break at an index.
#[tactic(auto, unfolding(crate::specs::FontRules::first_font_rules))]
pub(crate) fn subr_faults(font: &Font<'_>, index: u32) -> Mask
    ensures { (n : ℕ) → has result n ≡ violated first_font_rules n font.now subrs_key index }
{
    Mask::empty().with(Rule::F14, is_wrong_subr(font, index))
}

/// Whether the Subr of this number has no return.
fn lacks_return(font: &Font<'_>, number: u32) -> bool
    ensures { result ≡ lacks_return font.now number }
{
    if number >= INDEXES {
        return false;
    }
    match font.subr(number) {
        Some(code) => !has_return(font, code),
        None => false,
    }
}

/// What the Subrs break of the later rules at an index.
#[tactic(auto, unfolding(crate::specs::FontRules::later_font_rules))]
pub(crate) fn return_faults(font: &Font<'_>, index: u32) -> Mask
    ensures { (n : ℕ) → has result n ≡ violated later_font_rules n font.now subrs_key index }
{
    Mask::empty().with(Rule::F21, lacks_return(font, index))
}
