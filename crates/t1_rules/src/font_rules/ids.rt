//! The rules on UniqueIDs: Type 1 Font Format 1.1, chapters 2 and 5.

ghost use Rattle.std.specs.Prelude.{◌≡◌, ℕ};
ghost use Rattle.t1_font.specs.Entries.{entry_view};
ghost use Rattle.t1_font.specs.declared.key.Key.TheVariants as keys;
ghost use Rattle.t1_rules.specs.FontRules.{first_font_rules, violated};
ghost use Rattle.t1_rules.specs.FontRules.Ids.{differ, is_past_range, is_whole_to};
ghost use Rattle.t1_rules.specs.Keys.{key_number};
ghost use Rattle.t1_rules.specs.Mask.{has};

use crate::mask::Mask;
use crate::rule::Rule;
use t1_font::{BILLION, Entry, Font, Key};

/// The greatest UniqueID.
const LAST_ID: i64 = 16_777_215;

/// Whether a number in units of 10^-9 is whole, from 0 to the greatest UniqueID.
pub fn is_id(number: i64) -> bool
    ensures { result ≡ is_whole_to 16777215 number }
{
    number >= 0 && number % BILLION == 0 && number <= LAST_ID * BILLION
}

/// Whether a UniqueID is there, and no whole number in its range.
pub fn is_past_range(value: &Entry) -> bool
    ensures { result ≡ is_past_range (entry_view value.now) }
{
    match value {
        Entry::Absent => false,
        Entry::Number(number) => !is_id(*number),
        Entry::Numbers { .. } | Entry::Other => true,
    }
}

/// Whether two values are numbers that differ.
fn differ(one: &Entry, other: &Entry) -> bool
    ensures { result ≡ differ (entry_view one.now) (entry_view other.now) }
{
    match (one, other) {
        (Entry::Number(one), Entry::Number(other)) => one != other,
        _ => false,
    }
}

/// What the UniqueID of the clear text breaks at an index.
#[tactic(auto, unfolding(crate::specs::FontRules::first_font_rules))]
pub(crate) fn unique_id_faults(font: &Font<'_>, index: u32) -> Mask
    ensures { (n : ℕ) → has result n ≡ violated first_font_rules n font.now (key_number keys.UniqueId) index }
{
    let is_past_range = is_past_range(font.value(Key::UniqueId));
    Mask::empty().with(Rule::F05, (index == 0) & is_past_range)
}

/// What the UniqueID of the Private dictionary breaks at an index.
#[tactic(auto, unfolding(crate::specs::FontRules::first_font_rules))]
pub(crate) fn private_unique_id_faults(font: &Font<'_>, index: u32) -> Mask
    ensures { (n : ℕ) → has result n ≡ violated first_font_rules n font.now (key_number keys.PrivateUniqueId) index }
{
    let id = font.value(Key::PrivateUniqueId);
    let other = font.value(Key::UniqueId);
    Mask::empty()
        .with(Rule::F06, (index == 0) & differ(other, id))
        .with(Rule::F05, (index == 0) & is_past_range(id))
}
