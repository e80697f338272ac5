//! What commands and OtherSubrs take: Type 1 Font Format 1.1, chapters 6 and 8.

ghost use Rattle.std.specs.Prelude.{◌≡◌};
ghost use Rattle.t1_char.specs.Arguments.{argument, calls_othersubr, is_flex_end, is_flex_point, is_flex_start, is_hint_replacement, is_whole, othersubr_call};
ghost use Rattle.t1_char.specs.Numbers.{clamped};
ghost use Rattle.t1_char.specs.StepValues.{step_view};

use crate::numbers::{GREATEST, UNIT};
use crate::step::Step;
use crate::token::is_callothersubr;

/// Which of the OtherSubrs of flex and hint replacement a step calls, with the count that it needs.
#[derive(Clone, Copy, Debug, PartialEq, Eq)]
pub enum OthersubrCall {
    /// 0 with three arguments: a flex ends.
    FlexEnd,
    /// 1 with none: a flex starts.
    FlexStart,
    /// 2 with none: a flex gets its next point.
    FlexPoint,
    /// 3 with one: the hints are replaced.
    HintReplacement,
    /// None of these.
    Other,
}

impl Step {
    /// The argument at a place from the bottom of the stack, in units of 1/65536, kept within -32000 to
    /// 32000; 0 where there is none.
    pub fn argument(&self, place: usize) -> i32
        ensures { result ≡ argument self.now.stack place }
    {
        match self.stack.as_slice().get(place) {
            Some(number) => clamped(*number),
            None => 0,
        }
    }

    /// Whether the step calls the OtherSubr of this number with so many arguments, which are there.
    pub fn calls_othersubr(&self, number: u16, count: u16) -> bool
        ensures { result ≡ calls_othersubr number count (step_view self.now) }
    {
        if !is_callothersubr(self.token) || self.stack.len() < usize::from(count) + 2 {
            return false;
        }
        is_whole(number, self.stack.from_top(0)) & is_whole(count, self.stack.from_top(1))
    }

    /// Whether the step starts a flex.
    pub fn starts_flex(&self) -> bool
        ensures { result ≡ is_flex_start (step_view self.now) }
    {
        self.calls_othersubr(1, 0)
    }

    /// Whether the step adds the next point to a flex.
    pub fn gives_flex_point(&self) -> bool
        ensures { result ≡ is_flex_point (step_view self.now) }
    {
        self.calls_othersubr(2, 0)
    }

    /// Whether the step ends a flex.
    pub fn ends_flex(&self) -> bool
        ensures { result ≡ is_flex_end (step_view self.now) }
    {
        self.calls_othersubr(0, 3)
    }

    /// Whether the step replaces hints.
    pub fn replaces_hints(&self) -> bool
        ensures { result ≡ is_hint_replacement (step_view self.now) }
    {
        self.calls_othersubr(3, 1)
    }

    /// Which of these calls it is.
    pub fn othersubr_call(&self) -> OthersubrCall
        ensures { result ≡ othersubr_call (step_view self.now) }
    {
        if self.ends_flex() {
            OthersubrCall::FlexEnd
        } else if self.starts_flex() {
            OthersubrCall::FlexStart
        } else if self.gives_flex_point() {
            OthersubrCall::FlexPoint
        } else if self.replaces_hints() {
            OthersubrCall::HintReplacement
        } else {
            OthersubrCall::Other
        }
    }
}

/// The number from -32000 to 32000 that is nearest.
fn clamped(number: i64) -> i32
    ensures { result ≡ clamped number }
{
    number.clamp(-GREATEST, GREATEST) as i32
}

/// Whether a number on the stack is that whole number.
fn is_whole(whole: u16, number: i64) -> bool
    ensures { result ≡ is_whole whole number }
{
    number == i64::from(whole) * UNIT
}
