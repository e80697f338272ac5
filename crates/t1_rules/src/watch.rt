//! Watchers: each sees the steps of a glyph one after another, and returns which of its rules a step breaks.

ghost use Rattle.std.specs.Prelude.{◌≡◌, ℕ, ◌<◌, List, [], ◌∷◌, ◌++◌, length};
ghost use Rattle.t1_char.specs.declared.edition.Edition.{Edition as Editions};
ghost use Rattle.t1_char.specs.Arguments.{othersubr_call};
ghost use Rattle.t1_char.specs.Steps.{StepView};
ghost use Rattle.t1_char.specs.StepValues.{step_view};
ghost use Rattle.t1_rules.specs.Mask.{has};
ghost use Rattle.t1_rules.specs.StepRules.{StepRule, breaks};
ghost use Rattle.t1_rules.specs.Watches.{most_steps};

use crate::mask::Mask;
use t1_char::{CharToken, Edition, OthersubrCall, Step};

/// Sees the steps of a glyph in their order, from the first on, and returns of each which of its rules the
/// step breaks. What it keeps of the steps before is of a fixed size.
pub trait Watch {
    // In an edition: the watcher has seen these steps, and no others.
    ghost stands_for: { Editions → Self → List StepView → Type 0 };

    // The rules that it reports in an edition.
    ghost rules: { Editions → List StepRule };

    /// A watcher that has seen no step.
    fn start(edition: Edition) -> Self
        ensures { stands_for edition result [] };

    /// The same as [`Watch::see`], where the step's token is known, and which OtherSubr of flex and hint
    /// replacement it calls. Of what is known when the program is built, no test is left.
    fn see_known(&mut self, token: CharToken, call: OthersubrCall, step: &Step) -> Mask
        requires token { step.now.token ≡ token }
        requires call { call ≡ othersubr_call (step_view step.now) }
        requires steps { (edition : Editions) × ((before : List StepView) ×
            (stands_for edition self.old before × (length before < most_steps))) }
        ensures stands { (edition : Editions) (before : List StepView) →
            stands_for edition self.old before → length before < most_steps →
            stands_for edition self.new (before ++ step_view step.now ∷ []) }
        ensures answer { (edition : Editions) (before : List StepView) →
            stands_for edition self.old before → length before < most_steps →
            (n : ℕ) → has result n ≡ breaks (rules edition) n before (step_view step.now) };

    /// The rules that the step breaks, given the steps that were seen before.
    fn see(&mut self, step: &Step) -> Mask
        requires { (edition : Editions) × ((before : List StepView) ×
            (stands_for edition self.old before × (length before < most_steps))) }
        ensures stands { (edition : Editions) (before : List StepView) →
            stands_for edition self.old before → length before < most_steps →
            stands_for edition self.new (before ++ step_view step.now ∷ []) }
        ensures answer { (edition : Editions) (before : List StepView) →
            stands_for edition self.old before → length before < most_steps →
            (n : ℕ) → has result n ≡ breaks (rules edition) n before (step_view step.now) };
}
