//! Reasons of the rules that speak of an entry alone: what the entry is.

ghost use Rattle.std.specs.Prelude.{◌≡◌};
ghost use Rattle.std.specs.List.{find};
ghost use Rattle.t1_font.specs.Entries.{entry_view};
ghost use Rattle.t1_reasons.specs.FontReasons.{entries_at, found_in, is_wrong_entry, is_wrong_found};

use crate::reason::{Found, Reason};
use t1_font::{Entry, Font, Key};
use t1_rules::{
    Rule, is_malformed, is_no_group, is_not_one_width, is_past_fuzzes, is_past_range,
    is_past_scales, is_past_shifts, is_so_many, is_the_number,
};

/// Why an entry breaks a rule on it alone at an index.
pub(crate) fn entry_reason(rule: Rule, font: &Font<'_>, key: Key, index: u32) -> Option<Reason>
    ensures { result ≡ find (is_wrong_entry rule) (entries_at font.now key index) }
{
    let value = font.value(key);
    (index == 0 && is_wrong(rule, value)).then_some(Reason::Entry {
        found: found_in(value),
    })
}

/// What an entry is.
pub(crate) fn found_in(value: &Entry) -> Found
    ensures { result ≡ found_in (entry_view value.now) }
{
    match value {
        Entry::Absent => Found::Absent,
        Entry::Number(number) => Found::One { number: *number },
        Entry::Numbers { count, .. } => Found::Several { count: *count },
        Entry::Other => Found::Other,
    }
}

/// Whether an entry breaks a rule on it alone.
fn is_wrong(rule: Rule, value: &Entry) -> bool
    ensures { result ≡ is_wrong_found rule (found_in (entry_view value.now)) }
{
    match rule {
        Rule::F03 => !is_the_number(1, value),
        Rule::F04 => !(is_the_number(0, value) | is_the_number(2, value)),
        Rule::F05 => is_past_range(value),
        Rule::F07 => !is_the_number(5839, value),
        Rule::F15 => !is_so_many(6, value),
        Rule::F16 => !is_so_many(4, value),
        Rule::F18 => is_malformed(value),
        Rule::F20 => is_no_group(value),
        Rule::Z08 => is_not_one_width(value),
        Rule::Z12 => matches!(value, Entry::Absent),
        Rule::Z17 => is_past_scales(value),
        Rule::Z18 => is_past_shifts(value),
        Rule::Z19 => is_past_fuzzes(value),
        _ => false,
    }
}
