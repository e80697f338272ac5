//! The rules on widths and paths, W01, W02 and P01 to P03: Type 1 Font Format 1.1, chapters 6 and 8.

ghost use Rattle.std.specs.Prelude.{◌≡◌, ◌&&◌, ◌||◌, not, ℕ, List, [], ◌∷◌, ◌++◌, true, false};
ghost use Rattle.t1_char.specs.Arguments.{is_flex_end, othersubr_call};
ghost use Rattle.t1_char.specs.Steps.{StepView};
ghost use Rattle.t1_char.specs.StepValues.{step_view};
ghost use Rattle.t1_rules.specs.Mask.{has};
ghost use Rattle.t1_rules.specs.StepRules.{breaks, path_rules};
ghost use Rattle.t1_rules.specs.StepRules.Paths.{is_open};
ghost use Rattle.t1_rules.specs.StepRules.Tokens.{is_line, is_move};
ghost use Rattle.t1_rules.specs.Private.Standing.{PathsStandFor};
ghost use Rattle.t1_rules.specs.Private.Quiet.{IsQuietForPaths};

use crate::mask::Mask;
use crate::rule::Rule;
use crate::step_rules::calls::ends_in_glyph;
use crate::step_rules::tokens::{
    clears, closes, ends_flex, is_line, is_move, sets_width, starts_flex,
};
use crate::watch::Watch;
use t1_char::{CharToken, Edition, OthersubrCall, Step, is_callothersubr, is_end, is_finishing};

/// Watches for W01, W02 and P01 to P03.
#[derive(Clone, Copy, Debug, PartialEq, Eq)]
pub struct PathWatcher {
    /// Whether a command came that takes arguments from the bottom of the stack.
    begun: bool,
    /// Whether a flex was started, and not ended since.
    in_flex: bool,
    /// Whether there was a move outside flex, and no closepath since.
    moved: bool,
    /// Whether something was drawn, and no closepath came since.
    drawn: bool,
}

impl Watch for PathWatcher {
    ghost use Rattle.t1_rules.specs.StepRules.{path_rules};
    ghost use Rattle.t1_rules.specs.Private.Standing.{PathsStandFor};

    ghost stands_for = { λ edition. PathsStandFor };

    ghost rules = { λ edition. path_rules };

    fn start(_edition: Edition) -> PathWatcher {
        PathWatcher {
            begun: false,
            in_flex: false,
            moved: false,
            drawn: false,
        }
    }

    #[inline(always)]
    fn see_known(&mut self, token: CharToken, call: OthersubrCall, step: &Step) -> Mask {
        if is_quiet(token) {
            return Mask::empty();
        }
        let broken = self.faults(token, call, step);
        self.go_on(token, call, step);
        broken
    }

    fn see(&mut self, step: &Step) -> Mask {
        self.see_known(step.token, step.othersubr_call(), step)
    }
}

impl PathWatcher {
    /// Whether something was drawn, and no closepath came since: what P02 and P03 ask.
    #[inline(always)]
    pub fn is_open(&self) -> bool
        ensures { (before : List StepView) → PathsStandFor self.now before → result ≡ is_open before }
    {
        self.drawn
    }

    /// Whether a path is begun by a move, outside flex.
    #[inline(always)]
    pub(crate) fn is_steady(&self) -> bool
        ensures begun { result ≡ true → self.now.begun ≡ true }
        ensures in_flex { result ≡ true → self.now.in_flex ≡ false }
        ensures moved { result ≡ true → self.now.moved ≡ true }
    {
        self.moved & self.begun & !self.in_flex
    }

    /// Whether nothing is drawn.
    #[inline(always)]
    pub(crate) fn is_undrawn(&self) -> bool
        ensures { result ≡ true → self.now.drawn ≡ false }
    {
        !self.drawn
    }

    /// Notes a line.
    #[inline(always)]
    pub(crate) fn draw(&mut self)
        ensures { self.new ≡ record self.old { drawn = true } }
    {
        self.drawn = true;
    }

    /// Notes a closepath.
    #[inline(always)]
    pub(crate) fn close(&mut self)
        ensures { self.new ≡ record self.old { drawn = false; moved = false } }
    {
        self.drawn = false;
        self.moved = false;
    }

    /// What a step breaks.
    #[inline(always)]
    #[tactic(auto, unfolding(crate::specs::StepRules::path_rules))]
    fn faults(&self, token: CharToken, call: OthersubrCall, step: &Step) -> Mask
        requires token { step.now.token ≡ token }
        requires call { call ≡ othersubr_call (step_view step.now) }
        ensures { (before : List StepView) → PathsStandFor self.now before →
            (n : ℕ) → has result n ≡ breaks path_rules n before (step_view step.now) }
    {
        let finishes = is_finishing(token) | ends_in_glyph(token, step);
        Mask::empty()
            .with(Rule::P03, closes(token) & !self.drawn)
            .with(Rule::P02, (self.moves(token) | finishes) & self.drawn)
            .with(
                Rule::P01,
                draws(token, call, step, self.in_flex) & !self.moved,
            )
            .with(Rule::W02, sets_width(token) & self.begun)
            .with(Rule::W01, clears(token) & !sets_width(token) & !self.begun)
    }

    /// Keeps what the step changes.
    #[inline(always)]
    fn go_on(&mut self, token: CharToken, call: OthersubrCall, step: &Step)
        requires token { step.now.token ≡ token }
        requires call { call ≡ othersubr_call (step_view step.now) }
        ensures { (before : List StepView) → PathsStandFor self.old before →
            PathsStandFor self.new (before ++ step_view step.now ∷ []) }
    {
        let stays = !closes(token);
        self.drawn = draws(token, call, step, self.in_flex) | (self.drawn & stays);
        self.moved = self.moves(token) | (self.moved & stays);
        self.begun = self.begun | clears(token);
        self.in_flex = starts_flex(call, step) | (self.in_flex & !ends_flex(call, step));
    }

    /// Whether it is a move outside flex.
    fn moves(&self, token: CharToken) -> bool
        ensures { result ≡ (is_move token && not self.now.in_flex) }
    {
        is_move(token) & !self.in_flex
    }
}

/// Whether the step draws a line, a curve, or the curves of a flex, being in it.
#[inline(always)]
pub(crate) fn draws(token: CharToken, call: OthersubrCall, step: &Step, in_flex: bool) -> bool
    requires token { step.now.token ≡ token }
    requires call { call ≡ othersubr_call (step_view step.now) }
    ensures { result ≡ (is_line step.now.token || (is_flex_end (step_view step.now) && in_flex)) }
{
    is_line(token) | (ends_flex(call, step) & in_flex)
}

/// Whether none of these rules speaks of a token, and it changes nothing that is kept.
#[inline(always)]
fn is_quiet(token: CharToken) -> bool
    ensures { result ≡ true → IsQuietForPaths token }
{
    !(clears(token) | is_callothersubr(token) | is_end(token))
}
