//! The rules on calls of OtherSubrs, O01 to O04: Type 1 Font Format 1.1, chapters 6 and 8.

ghost use Rattle.std.specs.Prelude.{◌≡◌, ◌≤◌, ℕ, List, length};
ghost use Rattle.t1_char.specs.declared.command.Command.TheVariants.{Callothersubr};
ghost use Rattle.t1_char.specs.Arguments.{othersubr_call};
ghost use Rattle.t1_char.specs.Steps.{StepView};
ghost use Rattle.t1_char.specs.StepValues.{step_view};
ghost use Rattle.t1_rules.specs.Mask.{has};
ghost use Rattle.t1_rules.specs.StepRules.{breaks, othersubr_rules};
ghost use Rattle.t1_rules.specs.StepRules.Othersubrs.{has_good_count, is_counter_control, is_effective, is_flex_or_hints, is_good_count};
ghost use Rattle.t1_rules.specs.StepRules.Tokens.{IsCommand};
ghost use Rattle.t1_rules.specs.Private.StepTests.{breaks_by_call};

use crate::mask::Mask;
use crate::rule::Rule;
use crate::step_rules::tokens::{ends_flex, gives_flex_point, replaces_hints, starts_flex};
use crate::watch::Watch;
use t1_char::{CharToken, Command, Edition, OthersubrCall, Step, UNIT, natural};

/// Watches for O01 to O04, which a step alone decides.
#[derive(Clone, Copy, Debug, PartialEq, Eq)]
pub struct OthersubrWatcher;

impl Watch for OthersubrWatcher {
    ghost use Rattle.t1_rules.specs.StepRules.{othersubr_rules};
    ghost use Rattle.t1_rules.specs.Private.Standing.{StandsForAny};

    ghost stands_for = { λ edition. StandsForAny };

    ghost rules = { λ edition. othersubr_rules };

    fn start(_edition: Edition) -> OthersubrWatcher {
        OthersubrWatcher
    }

    #[inline(always)]
    fn see_known(&mut self, token: CharToken, call: OthersubrCall, step: &Step) -> Mask {
        faults(token, call, step)
    }

    fn see(&mut self, step: &Step) -> Mask {
        self.see_known(step.token, step.othersubr_call(), step)
    }
}

/// What a step breaks.
#[inline(always)]
#[tactic(auto, unfolding(crate::specs::StepRules::othersubr_rules))]
fn faults(token: CharToken, call: OthersubrCall, step: &Step) -> Mask
    requires token { step.now.token ≡ token }
    requires call { call ≡ othersubr_call (step_view step.now) }
    ensures { (before : List StepView) → (n : ℕ) →
        has result n ≡ breaks othersubr_rules n before (step_view step.now) }
{
    match token {
        CharToken::Command(Command::Callothersubr) => call_faults(call, step),
        CharToken::Command(Command::Pop) => Mask::empty().with(Rule::O04, step.waiting == 0),
        _ => Mask::empty(),
    }
}

/// What a call of an OtherSubr breaks.
#[inline(never)]
#[tactic(auto, using(crate::proofs::Lemmas::Othersubrs::of_call, crate::proofs::Lemmas::Othersubrs::of_few))]
fn call_faults(call: OthersubrCall, step: &Step) -> Mask
    requires token { IsCommand (step_view step.now) Callothersubr }
    requires call { call ≡ othersubr_call (step_view step.now) }
    ensures { (before : List StepView) → (n : ℕ) →
        has result n ≡ breaks othersubr_rules n before (step_view step.now) }
{
    if step.stack.len() < 2 {
        return Mask::empty();
    }
    number_faults(
        has_good_count(step),
        is_effective(call, step),
        step.stack.from_top(0),
    )
}

/// Whether the count of a call is that of arguments on the stack.
pub(crate) fn has_good_count(step: &Step) -> bool
    requires { 2 ≤ length step.now.stack }
    ensures { result ≡ has_good_count (step_view step.now) }
{
    is_good_count(step.stack.len() - 2, step.stack.from_top(1))
}

/// What a call of this OtherSubr breaks, by its count.
fn number_faults(is_good: bool, is_effective: bool, number: i64) -> Mask
    ensures { (n : ℕ) → has result n ≡ breaks_by_call is_good is_effective number n }
{
    let is_own = is_flex_or_hints(number);
    Mask::empty()
        .with(Rule::O03, is_good & is_own & !is_effective)
        .with(Rule::O02, !is_good)
        .with(Rule::O01, is_good & !(is_own | is_counter_control(number)))
}

/// Whether a number, in units of 1/65536, is a count of so many at most: whole, and not negative.
pub fn is_good_count(most: usize, count: i64) -> bool
    ensures { result ≡ is_good_count most count }
{
    match natural(count) {
        Some(count) => count as usize <= most,
        None => false,
    }
}

/// Whether the step calls an OtherSubr of flex or hint replacement with the count that it needs.
fn is_effective(call: OthersubrCall, step: &Step) -> bool
    requires call { call ≡ othersubr_call (step_view step.now) }
    ensures { result ≡ is_effective (step_view step.now) }
{
    ends_flex(call, step)
        | (starts_flex(call, step) | (gives_flex_point(call, step) | replaces_hints(call, step)))
}

/// Whether it is the number of an OtherSubr of flex or hint replacement, in units of 1/65536.
pub fn is_flex_or_hints(number: i64) -> bool
    ensures { result ≡ is_flex_or_hints number }
{
    (number == 0) | ((number == UNIT) | ((number == 2 * UNIT) | (number == 3 * UNIT)))
}

/// Whether it is the number of an OtherSubr of counter control, in units of 1/65536.
pub fn is_counter_control(number: i64) -> bool
    ensures { result ≡ is_counter_control number }
{
    (number == 12 * UNIT) | (number == 13 * UNIT)
}
