//! Stems that share an edge, H09, and stems of negative width, H10: Type 1 Font Format 1.1, chapters 5 and 6.

ghost use Rattle.std.specs.Prelude.{◌≡◌, ◌&&◌, ◌||◌, List};
ghost use Rattle.std.specs.List.{list_any};
ghost use Rattle.std.specs.Ordering.{int_eq};
ghost use Rattle.t1_char.specs.Steps.{StepView};
ghost use Rattle.t1_char.specs.StepValues.{step_view};
ghost use Rattle.t1_drawing.specs.StemEdges.{are_adjacent, has_negative_width, has_two_edges, sets_adjacent, sets_negative_width};
ghost use Rattle.t1_rules.specs.StepRules.Stems.{has_no_width, hint_set, lies_across, lower, one_overlaps, stands_upright, stems_meet, stems_of, two_overlap, upper};
ghost use Rattle.t1_rules.specs.StepRules.Tokens.{is_command};

use t1_char::Step;
use t1_rules::{Stem, is_stem, is_triple, lies_across, stands_upright, stem_at, three_stems};

fn has_no_width(stem: Stem) -> bool
    ensures { result ≡ has_no_width stem }
{
    stem.width == 0
}

/// Whether it has another width than 0, -20 and -21.
fn has_two_edges(stem: Stem) -> bool
    ensures { result ≡ has_two_edges stem }
{
    !(has_no_width(stem) | stem.has_one_edge())
}

/// Whether the upper or right edge of one stem is the lower or left one of another.
fn ends_at(one: Stem, other: Stem) -> bool
    ensures { result ≡ int_eq (upper one) (lower other) }
{
    one.upper() == other.lower()
}

/// Whether one of two stems ends where the other begins, as H09 asks: both have two edges, so their widths aren't 0, -20 or -21.
pub fn are_adjacent(one: Stem, other: Stem) -> bool
    ensures { result ≡ are_adjacent one other }
{
    (has_two_edges(one) & has_two_edges(other)) & (ends_at(one, other) | ends_at(other, one))
}

/// Whether a stem is adjacent to one of these.
fn is_adjacent_to_any(stem: Stem, others: &[Stem]) -> bool
    ensures { result ≡ list_any (are_adjacent stem) others.now }
{
    others.iter().any(|other| are_adjacent(stem, *other))
}

/// Whether two of the stems are adjacent.
fn two_are_adjacent(stems: &[Stem]) -> bool
    ensures { result ≡ two_overlap are_adjacent stems.now }
{
    let mut rest = stems;
    while let [stem, others @ ..] = rest {
        if is_adjacent_to_any(*stem, others) {
            return true;
        }
        rest = others;
    }
    false
}

/// Whether one of the stems is adjacent to one of the hint set.
fn one_is_adjacent(stems: &[Stem], set: &[Stem]) -> bool
    ensures { result ≡ one_overlaps are_adjacent stems.now set.now }
{
    stems.iter().any(|stem| is_adjacent_to_any(*stem, set))
}

/// Whether one of the stems is adjacent to one of the hint set, or two of them are.
pub(crate) fn are_some_adjacent(stems: &[Stem], set: &[Stem]) -> bool
    ensures { result ≡ stems_meet are_adjacent stems.now set.now }
{
    one_is_adjacent(stems, set) || two_are_adjacent(stems)
}

/// The same of the stems that a step sets.
fn own_are_adjacent(step: &Step, set: &[Stem]) -> bool
    ensures { result ≡ stems_meet are_adjacent (stems_of (step_view step.now)) set.now }
{
    if is_triple(step.token) {
        are_some_adjacent(&three_stems(step), set)
    } else {
        are_some_adjacent(&[stem_at(step, 0)], set)
    }
}

/// Whether a step breaks H09, given the hint sets before it: those of hstem and hstem3, and those of vstem and vstem3.
pub(crate) fn sets_adjacent(step: &Step, across: &[Stem], upright: &[Stem]) -> bool
    ensures { (before : List StepView) → across.now ≡ hint_set lies_across before → upright.now ≡ hint_set stands_upright before →
        result ≡ sets_adjacent before (step_view step.now) }
{
    (lies_across(step.token) && own_are_adjacent(step, across))
        || (stands_upright(step.token) && own_are_adjacent(step, upright))
}

/// Whether a stem has a width below 0 that isn't -20 or -21, as H10 asks.
pub fn has_negative_width(stem: Stem) -> bool
    ensures { result ≡ has_negative_width stem }
{
    (stem.width < 0) & !stem.has_one_edge()
}

pub(crate) fn one_is_negative(stems: &[Stem]) -> bool
    ensures { result ≡ list_any has_negative_width stems.now }
{
    stems.iter().any(|stem| has_negative_width(*stem))
}

/// Whether one of the stems that a step sets is of negative width.
fn own_are_negative(step: &Step) -> bool
    ensures { result ≡ list_any has_negative_width (stems_of (step_view step.now)) }
{
    if is_triple(step.token) {
        one_is_negative(&three_stems(step))
    } else {
        one_is_negative(&[stem_at(step, 0)])
    }
}

/// Whether a step breaks H10.
pub(crate) fn sets_negative_width(step: &Step) -> bool
    ensures { result ≡ sets_negative_width (step_view step.now) }
{
    is_stem(step.token) && own_are_negative(step)
}
