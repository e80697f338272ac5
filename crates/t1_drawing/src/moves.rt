//! Moves right behind moves, P11: Type 1 Font Format 1.1, chapter 3.

ghost use Rattle.std.specs.Prelude.{◌≡◌, Bool, List, [], ◌∷◌, ◌++◌};
ghost use Rattle.t1_char.specs.Steps.{StepView};
ghost use Rattle.t1_char.specs.StepValues.{step_view};
ghost use Rattle.t1_drawing.specs.Moves.{moves_again};
ghost use Rattle.t1_drawing.specs.Private.Standing.{MovesStandFor};
ghost use Rattle.t1_rules.specs.StepRules.Paths.{in_flex};

use t1_char::Step;
use t1_rules::{closes, is_line, is_move};

/// Watches for P11.
#[derive(Clone, Copy, Debug, PartialEq, Eq)]
pub(crate) struct MoveWatcher {
    /// Whether a move outside flex came, and since then nothing was drawn and no closepath came.
    moved: bool,
}

impl MoveWatcher {
    /// Before the first step.
    pub(crate) fn start() -> MoveWatcher
        ensures { MovesStandFor result [] }
    {
        MoveWatcher { moved: false }
    }

    /// Whether the next step breaks P11, given whether a flex was started before it and not ended.
    pub(crate) fn see(&mut self, step: &Step, is_in_flex: bool) -> bool
        ensures answer { (before : List StepView) → MovesStandFor self.old before → is_in_flex ≡ in_flex before →
            result ≡ moves_again before (step_view step.now) }
        ensures stands { (before : List StepView) → MovesStandFor self.old before → is_in_flex ≡ in_flex before →
            MovesStandFor self.new (before ++ step_view step.now ∷ []) }
    {
        let moves = is_move(step.token) & !is_in_flex;
        let again = moves & self.moved;
        let draws = is_line(step.token) | (step.ends_flex() & is_in_flex);
        self.moved = moves | (self.moved & !(draws | closes(step.token)));
        again
    }
}
