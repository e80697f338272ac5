//! The order of the rules in a summary.

ghost use Rattle.std.specs.Prelude.{◌≡◌};
ghost use Rattle.t1_summary.specs.Rankings.{rank_cmp, ranking};

use crate::tally::Tally;
use std::cmp::Ordering;
use t1_rules::{RULE_COUNT, Rule, all_rules, rule_code};

/// The rules, those with the most lines first, and those with equally many by their codes.
pub(crate) fn ranking(tally: &Tally) -> [Rule; RULE_COUNT]
    ensures { result ≡ ranking tally.now }
{
    let mut order = *all_rules();
    order.sort_unstable_by(|first, second| rank(tally, *first, *second));
    order
}

/// Which of two rules comes first.
fn rank(tally: &Tally, first: Rule, second: Rule) -> Ordering
    ensures { result ≡ rank_cmp tally.now first second }
{
    let lines = tally.lines_of(second).cmp(&tally.lines_of(first));
    lines.then(rule_code(first).cmp(rule_code(second)))
}
