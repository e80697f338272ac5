//! The rules on tokens, arguments and numbers, C01 to C09: Type 1 Font Format 1.1, chapters 6 and 7.

ghost use Rattle.std.specs.Prelude.{◌≡◌, true, false, ℕ, Some, List, length};
ghost use Rattle.std.specs.List.{list_any};
ghost use Rattle.t1_char.specs.declared.command.Command.TheVariants.{Div};
ghost use Rattle.t1_char.specs.Commands.{arguments_of};
ghost use Rattle.t1_char.specs.Steps.{StepView};
ghost use Rattle.t1_char.specs.StepValues.{step_view};
ghost use Rattle.t1_rules.specs.Mask.{has};
ghost use Rattle.t1_rules.specs.StepRules.{argument_rules, breaks};
ghost use Rattle.t1_rules.specs.StepRules.Arguments.{is_past, one_is_past, quotient_is_past};
ghost use Rattle.t1_rules.specs.StepRules.Tokens.{IsCommand};
ghost use Rattle.t1_rules.specs.Private.StepTests.{breaks_by_count, breaks_by_quotient};

use crate::mask::Mask;
use crate::rule::Rule;
use crate::watch::Watch;
use t1_char::{
    CharToken, Command, Edition, GREATEST, MOST_NUMBERS, OthersubrCall, Step, cut_quotient,
};

/// Watches for C01 to C09, which a step alone decides.
#[derive(Clone, Copy, Debug, PartialEq, Eq)]
pub struct ArgumentWatcher;

impl Watch for ArgumentWatcher {
    ghost use Rattle.t1_rules.specs.StepRules.{argument_rules};
    ghost use Rattle.t1_rules.specs.Private.Standing.{StandsForAny};

    ghost stands_for = { λ edition. StandsForAny };

    ghost rules = { λ edition. argument_rules };

    fn start(_edition: Edition) -> ArgumentWatcher {
        ArgumentWatcher
    }

    #[inline(always)]
    fn see_known(&mut self, token: CharToken, _call: OthersubrCall, step: &Step) -> Mask {
        faults(token, step)
    }

    fn see(&mut self, step: &Step) -> Mask {
        self.see_known(step.token, step.othersubr_call(), step)
    }
}

/// What a step breaks. Numbers, which most steps are, need one test.
#[inline(always)]
#[tactic(auto, unfolding(crate::specs::StepRules::argument_rules))]
fn faults(token: CharToken, step: &Step) -> Mask
    requires token { step.now.token ≡ token }
    ensures { (before : List StepView) → (n : ℕ) →
        has result n ≡ breaks argument_rules n before (step_view step.now) }
{
    match token {
        CharToken::Number(_) => Mask::empty().with(Rule::C06, step.stack.len() == MOST_NUMBERS),
        CharToken::Command(command) => command_faults(command, step),
        CharToken::Unknown(_) | CharToken::Unknown12(_) => Mask::empty().with(Rule::C03, true),
        CharToken::Cut => Mask::empty().with(Rule::C02, true),
        CharToken::Short => Mask::empty().with(Rule::C01, true),
        CharToken::End => Mask::empty(),
    }
}

/// What a step of this command breaks.
#[inline(always)]
#[tactic(auto, unfolding(crate::specs::StepRules::argument_rules))]
fn command_faults(command: Command, step: &Step) -> Mask
    requires { IsCommand (step_view step.now) command }
    ensures { (before : List StepView) → (n : ℕ) →
        has result n ≡ breaks argument_rules n before (step_view step.now) }
{
    match command {
        Command::Div => division_faults(step),
        Command::Pop => Mask::empty().with(
            Rule::C06,
            (0 < step.waiting) & (step.stack.len() == MOST_NUMBERS),
        ),
        Command::Callothersubr => Mask::empty().with(Rule::C04, step.stack.len() < 2),
        Command::Callsubr => Mask::empty().with(Rule::C04, step.stack.len() < 1),
        _ => count_faults(command, step.stack.as_slice()),
    }
}

/// What a division breaks.
#[inline(never)]
#[tactic(auto, using(crate::proofs::Lemmas::Divisions::of_two), unfolding(crate::specs::StepRules::argument_rules))]
fn division_faults(step: &Step) -> Mask
    requires { IsCommand (step_view step.now) Div }
    ensures { (before : List StepView) → (n : ℕ) →
        has result n ≡ breaks argument_rules n before (step_view step.now) }
{
    if step.stack.len() < 2 {
        return Mask::empty().with(Rule::C04, true);
    }
    quotient_faults(step.stack.from_top(1), step.stack.from_top(0))
}

/// What a division of two numbers breaks.
fn quotient_faults(dividend: i64, divisor: i64) -> Mask
    ensures { (n : ℕ) → has result n ≡ breaks_by_quotient dividend divisor n }
{
    Mask::empty()
        .with(Rule::C09, divisor == 0)
        .with(Rule::C08, quotient_is_past(dividend, divisor))
}

/// What a command breaks by how many numbers there are for its arguments, and by how great they are.
#[inline(always)]
fn count_faults(command: Command, numbers: &[i64]) -> Mask
    ensures { (n : ℕ) → has result n ≡ breaks_by_count (arguments_of command) numbers.now n }
{
    match command.arguments() {
        Some(count) => {
            let count = usize::from(count);
            Mask::empty()
                .with(Rule::C07, one_is_past(count, numbers))
                .with(Rule::C05, count < numbers.len())
                .with(Rule::C04, numbers.len() < count)
        },
        None => Mask::empty(),
    }
}

/// Whether a number is past 32000 in absolute value, in units of 1/65536.
pub fn is_past(number: i64) -> bool
    ensures { result ≡ is_past number }
{
    (GREATEST < number) | (number < -GREATEST)
}

/// Whether one of the numbers is.
#[inline(always)]
fn any_is_past(numbers: &[i64]) -> bool
    ensures { result ≡ list_any is_past numbers.now }
{
    numbers.iter().any(|number| is_past(*number))
}

/// Whether one of the first numbers is, of so many that a command takes.
#[inline(always)]
fn one_is_past(count: usize, numbers: &[i64]) -> bool
    ensures { result ≡ one_is_past (Some count) numbers.now }
{
    if count == numbers.len() {
        any_is_past(numbers)
    } else if count < numbers.len() {
        any_is_past(&numbers[..count])
    } else {
        any_is_past(numbers)
    }
}

/// Whether these are exactly the numbers that a command takes, and none is past 32000.
#[inline(always)]
pub(crate) fn has_its_arguments(command: Command, numbers: &[i64]) -> bool
    ensures count { result ≡ true → arguments_of command ≡ Some (length numbers.now) }
    ensures near { result ≡ true → list_any is_past numbers.now ≡ false }
{
    match command.arguments() {
        Some(count) => usize::from(count) == numbers.len() && !any_is_past(numbers),
        None => false,
    }
}

/// Whether the divisor isn't 0, and the quotient is past 32000 in absolute value.
pub fn quotient_is_past(dividend: i64, divisor: i64) -> bool
    ensures { result ≡ quotient_is_past dividend divisor }
{
    if divisor == 0 {
        return false;
    }
    let quotient = cut_quotient(dividend, divisor);
    (i128::from(GREATEST) < quotient) | (quotient < -i128::from(GREATEST))
}
