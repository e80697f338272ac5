//! The effect of a token on the stack, on the results that wait, and on the run: Type 1 Font Format
//! 1.1, chapters 6 and 8.

ghost use Rattle.std.specs.Prelude.{◌≡◌, ◌≤◌, false, length, true};
ghost use Rattle.t1_char.specs.Effects.{after_othersubr, call_of, divided, effect, effect_of, most_results, popped, results, work_of, working, state_of};
ghost use Rattle.t1_char.specs.Stacks.{topmost, without};
ghost use Rattle.t1_char.specs.Private.Actions.{IsNested, action_of, named_of, work_view};
ghost use Rattle.t1_char.specs.Private.Plain.{IsPlainEffect, is_clearing};

use crate::action::{Action, Work, work_of};
use crate::command::Command;
use crate::numbers::{natural, quotient, units};
use crate::stack::{MOST_NUMBERS, Stack};
use crate::step::MOST_CALLS;
use crate::subr::Subr;
use crate::token::CharToken;
use arrayvec::ArrayVec;

/// An OtherSubr has at most so many results: a full stack but for its count and number.
const MOST_RESULTS: usize = MOST_NUMBERS - 2;

/// The results of the last call of an OtherSubr that wait for pop, first result first.
pub(crate) type Waiting = ArrayVec<i64, MOST_RESULTS>;

/// Executes a token, where `named` is the Subr that the top of the stack names, and `depth` is how many
/// calls are open.
pub(crate) fn apply<'a>(
    stack: &mut Stack,
    waiting: &mut Waiting,
    token: CharToken,
    named: Option<Subr<'a>>,
    depth: usize,
) -> Action<'a>
    ensures nested { IsNested depth (action_of result) }
    ensures effect { effect (state_of stack.new waiting.new.items) (action_of result)
        ≡ effect_of token (named_of named.entry) depth (state_of stack.old waiting.old.items) }
{
    match token {
        CharToken::Number(number) => {
            stack.put(units(number));
            Action::Goes
        }
        CharToken::Command(command) => work(stack, waiting, work_of(command), named, depth),
        CharToken::Unknown(_) | CharToken::Unknown12(_) => {
            stack.clear();
            Action::Goes
        }
        CharToken::Cut | CharToken::Short => Action::Goes,
        CharToken::End => {
            if depth > 0 {
                Action::Returns
            } else {
                Action::Finishes
            }
        }
    }
}

/// Executes a number or a command that empties the stack and does no more; returns whether it did.
#[inline(always)]
pub(crate) fn apply_plain(stack: &mut Stack, token: CharToken) -> bool
    ensures plain { result ≡ true → IsPlainEffect token stack.old stack.new }
    ensures stays { result ≡ false → stack.new ≡ stack.old }
{
    match token {
        CharToken::Number(number) => {
            stack.put(units(number));
            true
        }
        CharToken::Command(command) => {
            if !only_clears(command) {
                return false;
            }
            stack.clear();
            true
        }
        _ => false,
    }
}

/// Whether a command empties the stack and does no more.
#[inline(always)]
fn only_clears(command: Command) -> bool
    ensures { result ≡ is_clearing (work_of command) }
{
    matches!(work_of(command), Work::Clears)
}

/// Executes a command.
fn work<'a>(
    stack: &mut Stack,
    waiting: &mut Waiting,
    work: Work,
    named: Option<Subr<'a>>,
    depth: usize,
) -> Action<'a>
    ensures nested { IsNested depth (action_of result) }
    ensures effect { effect (state_of stack.new waiting.new.items) (action_of result)
        ≡ working (work_view work) (named_of named.entry) depth (state_of stack.old waiting.old.items) }
{
    match work {
        Work::Clears => {
            stack.clear();
            Action::Goes
        }
        Work::FinishesGlyph => {
            stack.clear();
            Action::Finishes
        }
        Work::Divides => {
            divide(stack);
            Action::Goes
        }
        Work::CallsSubr => call(stack, named, depth),
        Work::ReturnsBack => {
            if depth > 0 {
                Action::Returns
            } else {
                Action::Goes
            }
        }
        Work::CallsOthersubr => {
            call_othersubr(stack, waiting);
            Action::Goes
        }
        Work::Pops => {
            pop(stack, waiting);
            Action::Goes
        }
    }
}

#[inline(never)]
fn divide(stack: &mut Stack)
    ensures { stack.new ≡ divided stack.old }
{
    if stack.len() < 2 {
        return;
    }
    let quotient = quotient(stack.from_top(1), stack.from_top(0));
    stack.take_off(2);
    stack.put(quotient);
}

/// Takes the top; the Subr that it names is called, unless ten calls are open.
fn call<'a>(stack: &mut Stack, named: Option<Subr<'a>>, depth: usize) -> Action<'a>
    ensures nested { IsNested depth (action_of result) }
    ensures stack { stack.new ≡ without 1 stack.old }
    ensures action { action_of result ≡ call_of (named_of named.entry) depth }
{
    if stack.len() > 0 {
        stack.take_off(1);
    }
    match named {
        Some(subr) if depth < MOST_CALLS => Action::Calls(subr),
        _ => Action::Goes,
    }
}

#[inline(never)]
fn call_othersubr(stack: &mut Stack, waiting: &mut Waiting)
    ensures { state_of stack.new waiting.new.items ≡ after_othersubr (state_of stack.old waiting.old.items) }
{
    if stack.len() < 2 {
        return;
    }
    let number = natural(stack.from_top(0));
    let count = natural(stack.from_top(1));
    stack.take_off(2);
    if let Some(count) = count {
        if count as usize <= stack.len() {
            hand_over(stack, waiting, number, count as usize);
        }
    }
}

/// Passes so many arguments to an OtherSubr, and keeps its results.
fn hand_over(stack: &mut Stack, waiting: &mut Waiting, number: Option<u32>, count: usize)
    requires there { count ≤ length stack.old }
    requires room { length stack.old ≤ most_results }
    ensures stack { stack.new ≡ without count stack.old }
    ensures waiting { waiting.new.items ≡ results number (topmost count stack.old) }
{
    waiting.clear();
    let numbers = stack.as_slice();
    let results = results(number, &numbers[numbers.len() - count..]);
    // This can't fail: the stack held no more, but for the count and the number.
    let _fits = waiting.try_extend_from_slice(results);
    stack.take_off(count);
}

/// The results of an OtherSubr.
fn results(number: Option<u32>, arguments: &[i64]) -> &[i64]
    ensures results { result.now ≡ results number arguments.now }
    ensures most { length result.now ≤ length arguments.now }
{
    match number {
        Some(12 | 13) => &[],
        Some(0) if arguments.len() == 3 => &arguments[1..],
        _ => arguments,
    }
}

#[inline(never)]
fn pop(stack: &mut Stack, waiting: &mut Waiting)
    ensures { state_of stack.new waiting.new.items ≡ popped stack.old waiting.old.items }
{
    if !waiting.is_empty() {
        stack.put(waiting.remove(0));
    }
}
