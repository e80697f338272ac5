//! The rules on the file: Technical Note 5040, section 3.3.

ghost use Rattle.std.specs.Prelude.{◌≡◌, ℕ};
ghost use Rattle.t1_rules.specs.FontRules.{first_font_rules, violated};
ghost use Rattle.t1_rules.specs.Keys.{file_key};
ghost use Rattle.t1_rules.specs.Mask.{has};

use crate::mask::Mask;
use crate::rule::Rule;
use t1_font::Font;

/// What the file breaks at an index.
#[tactic(auto, unfolding(crate::specs::FontRules::first_font_rules))]
pub(crate) fn file_faults(font: &Font<'_>, index: u32) -> Mask
    ensures { (n : ℕ) → has result n ≡ violated first_font_rules n font.now file_key index }
{
    Mask::empty()
        .with(Rule::F02, (index == 0) & font.extra())
        .with(Rule::F01, (index == 0) & font.no_end())
}
