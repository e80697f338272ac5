//! Hint sets, each stem with the step that set it: Type 1 Font Format 1.1, chapters 6 and 8.

ghost use Rattle.std.specs.Prelude.{◌≡◌, ◌<◌, ◌+◌, ◌++◌, List, [], ◌∷◌, length};
ghost use Rattle.t1_char.specs.Stacks.{most_numbers};
ghost use Rattle.t1_char.specs.Steps.{StepView};
ghost use Rattle.t1_char.specs.StepValues.{step_view};
ghost use Rattle.t1_reasons.specs.HintSets.{all_set_at, set_at, stems_set};
ghost use Rattle.t1_reasons.specs.Standing.{HintsStandFor, kept_along};
ghost use Rattle.t1_rules.specs.StepRules.Stems.{is_triple, lies_across, stands_upright, stem_at, stems_of};
ghost use Rattle.t1_rules.specs.Watches.{most_steps};

use crate::reason::SetStem;
use arrayvec::ArrayVec;
use t1_char::Step;
use t1_rules::{MOST_STEMS, is_triple, keep, lies_across, stands_upright, stem_at};

/// Stems of one direction.
pub(crate) type SetStems = ArrayVec<SetStem, MOST_STEMS>;

/// The hint sets after some steps.
#[derive(Drop)]
pub(crate) struct HintSets {
    /// The stems of hstem and hstem3.
    pub(crate) across: SetStems,
    /// Those of vstem and vstem3.
    pub(crate) upright: SetStems,
    /// How many steps there were.
    pub(crate) seen: u32,
}

impl HintSets {
    /// Before the first step.
    pub(crate) fn start() -> HintSets
        ensures { HintsStandFor result [] }
    {
        HintSets {
            across: ArrayVec::new(),
            upright: ArrayVec::new(),
            seen: 0,
        }
    }

    /// The hint set of hstem and hstem3.
    pub(crate) fn across(&self) -> &[SetStem]
        ensures { (before : List StepView) → HintsStandFor self.now before → result.now ≡ stems_set lies_across before }
    {
        self.across.as_slice()
    }

    /// The hint set of vstem and vstem3.
    pub(crate) fn upright(&self) -> &[SetStem]
        ensures { (before : List StepView) → HintsStandFor self.now before → result.now ≡ stems_set stands_upright before }
    {
        self.upright.as_slice()
    }

    /// Goes past a step.
    pub(crate) fn see(&mut self, step: &Step)
        requires { (before : List StepView) × (HintsStandFor self.old before × (length before < most_steps)) }
        ensures { (before : List StepView) → HintsStandFor self.old before → length before < most_steps →
            HintsStandFor self.new (before ++ step_view step.now ∷ []) }
    {
        self.seen += 1;
        let number = self.seen;
        keep_along(&mut self.across, lies_across(step.token), step, number);
        keep_along(&mut self.upright, stands_upright(step.token), step, number);
    }
}

/// Keeps the stems of a step, if it sets some in this direction, or none after a hint replacement.
fn keep_along(kept: &mut SetStems, sets: bool, step: &Step, number: u32)
    ensures { kept.new.items ≡ kept_along sets number kept.old.items (step_view step.now) }
{
    if step.replaces_hints() {
        kept.clear();
    } else if sets {
        keep(kept, own_stems(step, number).as_slice());
    }
}

/// The stem of the arguments at a place and the next, set by the step of this number.
pub(crate) fn set_stem(step: &Step, place: usize, number: u32) -> SetStem
    requires { place < most_numbers }
    ensures { result ≡ set_at number (stem_at step.now.stack place) }
{
    SetStem {
        stem: stem_at(step, place),
        step: number,
    }
}

/// The stems of a step that sets some, by its number.
pub(crate) fn own_stems(step: &Step, number: u32) -> ArrayVec<SetStem, 3>
    ensures { result.items ≡ all_set_at number (stems_of (step_view step.now)) }
{
    let mut stems = ArrayVec::new();
    stems.push(set_stem(step, 0, number));
    if is_triple(step.token) {
        stems.push(set_stem(step, 2, number));
        stems.push(set_stem(step, 4, number));
    }
    stems
}
