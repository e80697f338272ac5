//! What a step of a glyph breaks.

ghost use Rattle.std.specs.Prelude.{◌≡◌, ℕ, List, Option, [], ◌∷◌, ◌++◌, length, nat_lt};
ghost use Rattle.t1_char.specs.Editions.{has_latest_rules, limit_of};
ghost use Rattle.t1_char.specs.Steps.{StepView};
ghost use Rattle.t1_char.specs.StepValues.{step_view};
ghost use Rattle.t1_drawing.specs.declared.font_box.FontBox.{FontBox};
ghost use Rattle.t1_report.specs.Reports.{rules_with, step_breaks};
ghost use Rattle.t1_report.specs.Private.Reporting.{HaveDrawn, HaveSeen, IsNextStep};
ghost use Rattle.t1_rules.specs.Mask.{has};

use t1_char::Step;
use t1_drawing::DrawingWatcher;
use t1_rules::{Mask, Rule, Sidebearings, Watches};

/// The rules that the next step of a glyph breaks: the first step past the limit of the edition breaks the
/// rule on the limit, and no other. `is_past` says that it is this step, and `draws` that the edition has rules on the
/// drawing.
#[inline(always)]
pub(crate) fn broken_at(
    watches: &mut Watches,
    drawing: &mut DrawingWatcher,
    sidebearings: &Sidebearings,
    draws: bool,
    is_past: bool,
    step: &Step,
) -> Mask
    requires draws { draws ≡ has_latest_rules sidebearings.now.edition }
    requires past { is_past ≡ nat_lt (limit_of sidebearings.now.edition) step.now.number }
    requires next { (box : Option FontBox) × ((before : List StepView) × IsNextStep sidebearings.now.edition box watches.old drawing.old before step.now) }
    ensures broken { (box : Option FontBox) (before : List StepView) →
        IsNextStep sidebearings.now.edition box watches.old drawing.old before step.now →
        (n : ℕ) → has result n
        ≡ step_breaks (limit_of sidebearings.now.edition)
        (rules_with sidebearings.now.edition sidebearings.now.components box) n
        (before ++ step_view step.now ∷ []) (length before) }
    ensures seen { (box : Option FontBox) (before : List StepView) →
        IsNextStep sidebearings.now.edition box watches.old drawing.old before step.now →
        HaveSeen sidebearings.now.edition watches.new (before ++ step_view step.now ∷ []) }
    ensures drawn { (box : Option FontBox) (before : List StepView) →
        IsNextStep sidebearings.now.edition box watches.old drawing.old before step.now →
        HaveDrawn sidebearings.now.edition box drawing.new (before ++ step_view step.now ∷ []) }
{
    if is_past {
        return Mask::empty().with(Rule::L01, true);
    }
    drawing
        .see_where(draws, watches, step)
        .join(sidebearings.see_as(step.token, step))
}
