//! The rules on counter control and on calls of OtherSubrs before the width, O05 to O08 and W03: Adobe Technical Note
//! 5015, and Type 1 Font Format 1.1, chapter 6.

ghost use Rattle.std.specs.Prelude.{◌≡◌, ◌≤◌, ◌-◌, true, false, ℕ, List, [], ◌∷◌, ◌++◌, length};
ghost use Rattle.t1_char.specs.declared.edition.Edition.{Edition as Editions};
ghost use Rattle.t1_char.specs.declared.command.Command.TheVariants.{Callothersubr};
ghost use Rattle.t1_char.specs.Editions.{has_later_rules};
ghost use Rattle.t1_char.specs.Numbers.{natural};
ghost use Rattle.t1_char.specs.Stacks.{from_top};
ghost use Rattle.t1_char.specs.Steps.{StepView};
ghost use Rattle.t1_char.specs.StepValues.{step_view};
ghost use Rattle.t1_rules.specs.Mask.{has};
ghost use Rattle.t1_rules.specs.StepRules.{breaks, counter_rules};
ghost use Rattle.t1_rules.specs.StepRules.Counters.{ends_counting, goes_on_counting, is_below};
ghost use Rattle.t1_rules.specs.StepRules.Tokens.{IsCommand};
ghost use Rattle.t1_rules.specs.Private.Standing.{CountersKeep};

use crate::mask::Mask;
use crate::rule::Rule;
use crate::step_rules::othersubrs::has_good_count;
use crate::step_rules::tokens::{clears, sets_width};
use crate::watch::Watch;
use t1_char::{CharToken, Edition, OthersubrCall, Step, UNIT, is_callothersubr, natural};

/// Watches for O05 to O08 and W03, in an edition that has them.
#[derive(Clone, Copy)]
pub struct CounterWatcher {
    /// Whether the edition has these rules.
    is_on: bool,
    /// Whether a command came that empties the stack.
    begun: bool,
    /// Whether counter control can come: the last step that tells something is the width, or counter control.
    opened: bool,
    /// Whether that step is counter control that goes on.
    going_on: bool,
    /// Whether counter control was ended.
    ended: bool,
}

impl Watch for CounterWatcher {
    ghost use Rattle.t1_rules.specs.StepRules.{counter_rules};
    ghost use Rattle.t1_rules.specs.Private.Standing.{CountersStandFor};

    ghost stands_for = { CountersStandFor };

    ghost rules = { counter_rules };

    fn start(edition: Edition) -> CounterWatcher {
        CounterWatcher {
            is_on: edition.has_later_rules(),
            begun: false,
            opened: false,
            going_on: false,
            ended: false,
        }
    }

    #[inline(always)]
    fn see_known(&mut self, token: CharToken, _call: OthersubrCall, step: &Step) -> Mask {
        if !self.is_on {
            return Mask::empty();
        }
        let broken = self.faults(token, step);
        self.go_on(token, step);
        broken
    }

    fn see(&mut self, step: &Step) -> Mask {
        self.see_known(step.token, step.othersubr_call(), step)
    }
}

impl CounterWatcher {
    /// Whether the edition has these rules, and those of stems beside three.
    #[inline(always)]
    pub(crate) fn is_on(&self) -> bool
        ensures { result ≡ self.now.is_on }
    {
        self.is_on
    }

    /// Whether the last step that tells something is neither the width nor counter control, so that no rule speaks of
    /// a line or a move, and nothing changes at these.
    #[inline(always)]
    pub(crate) fn is_steady(&self) -> bool
        ensures opened { result ≡ true → self.now.opened ≡ false }
        ensures going_on { result ≡ true → self.now.going_on ≡ false }
    {
        !(self.opened | self.going_on)
    }

    /// What a step breaks in an edition that has these rules.
    #[inline(always)]
    fn faults(&self, token: CharToken, step: &Step) -> Mask
        requires token { step.now.token ≡ token }
        ensures { (edition : Editions) (before : List StepView) → has_later_rules edition ≡ true →
            CountersKeep self.now before →
            (n : ℕ) → has result n ≡ breaks (counter_rules edition) n before (step_view step.now) }
    {
        if is_callothersubr(token) {
            self.call_faults(step)
        } else {
            Mask::empty().with(Rule::O08, clears(token) & self.going_on)
        }
    }

    /// What a call of an OtherSubr breaks.
    #[inline(never)]
    fn call_faults(&self, step: &Step) -> Mask
        requires token { IsCommand (step_view step.now) Callothersubr }
        ensures { (edition : Editions) (before : List StepView) → has_later_rules edition ≡ true →
            CountersKeep self.now before →
            (n : ℕ) → has result n ≡ breaks (counter_rules edition) n before (step_view step.now) }
    {
        if step.stack.len() < 2 {
            Mask::empty()
        } else if goes_on_counting(step) | ends_counting(step) {
            Mask::empty()
                .with(Rule::O07, leaves_numbers(step))
                .with(Rule::O06, self.ended)
                .with(Rule::O05, !self.opened)
        } else {
            Mask::empty()
                .with(Rule::W03, !self.begun)
                .with(Rule::O08, self.going_on)
        }
    }

    /// Keeps what the step changes.
    #[inline(always)]
    fn go_on(&mut self, token: CharToken, step: &Step)
        requires token { step.now.token ≡ token }
        ensures is_on { self.new.is_on ≡ self.old.is_on }
        ensures kept { (before : List StepView) → CountersKeep self.old before →
            CountersKeep self.new (before ++ step_view step.now ∷ []) }
    {
        if is_callothersubr(token) {
            self.go_on_by_call(step);
        } else if clears(token) {
            self.begun = true;
            self.opened = sets_width(token);
            self.going_on = false;
        }
    }

    /// The same of a call of an OtherSubr.
    #[inline(always)]
    fn go_on_by_call(&mut self, step: &Step)
        requires token { IsCommand (step_view step.now) Callothersubr }
        ensures is_on { self.new.is_on ≡ self.old.is_on }
        ensures kept { (before : List StepView) → CountersKeep self.old before →
            CountersKeep self.new (before ++ step_view step.now ∷ []) }
    {
        if step.stack.len() >= 2 {
            self.going_on = goes_on_counting(step);
            let ends = ends_counting(step);
            self.opened = self.going_on | ends;
            self.ended = self.ended | ends;
        }
    }
}

/// Whether a call is that of counter control that goes on.
fn goes_on_counting(step: &Step) -> bool
    requires token { IsCommand (step_view step.now) Callothersubr }
    requires two { 2 ≤ length step.now.stack }
    ensures { result ≡ goes_on_counting (step_view step.now) }
{
    step.stack.from_top(0) == 12 * UNIT && has_good_count(step)
}

/// Whether a call of an OtherSubr is that which ends counter control.
pub fn ends_counting(step: &Step) -> bool
    requires token { IsCommand (step_view step.now) Callothersubr }
    requires two { 2 ≤ length step.now.stack }
    ensures { result ≡ ends_counting (step_view step.now) }
{
    step.stack.from_top(0) == 13 * UNIT && has_good_count(step)
}

/// Whether the count of a call is less than the numbers below it.
fn leaves_numbers(step: &Step) -> bool
    requires two { 2 ≤ length step.now.stack }
    ensures { result ≡ is_below (length step.now.stack - 2) (natural (from_top step.now.stack 1)) }
{
    match natural(step.stack.from_top(1)) {
        Some(count) => (count as usize) < step.stack.len() - 2,
        None => false,
    }
}
