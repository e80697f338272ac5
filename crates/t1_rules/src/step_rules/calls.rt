//! The rules on calls of Subrs and the ends of charstrings, S01 to S04, GE01 and GE02: Type 1 Font Format
//! 1.1, chapters 6 and 8.

ghost use Rattle.std.specs.Prelude.{◌≡◌, ℕ, List, true, false};
ghost use Rattle.t1_char.specs.Effects.{is_finishing};
ghost use Rattle.t1_char.specs.Steps.{StepView, is_callsubr, is_end, is_return};
ghost use Rattle.t1_char.specs.StepValues.{step_view};
ghost use Rattle.t1_rules.specs.Mask.{has};
ghost use Rattle.t1_rules.specs.StepRules.{breaks, call_rules};
ghost use Rattle.t1_rules.specs.StepRules.Calls.{calls_by_number, calls_missing, calls_too_deep, ends_in_glyph, ends_in_subr, goes_on_past_end, is_in_glyph, returns_from_glyph};

use crate::mask::Mask;
use crate::rule::Rule;
use crate::watch::Watch;
use t1_char::{
    CharToken, Edition, MOST_CALLS, OthersubrCall, Step, is_callsubr, is_end, is_finishing,
    is_return,
};

/// Watches for S01 to S04, GE01 and GE02, which a step alone decides.
#[derive(Clone, Copy, Debug, PartialEq, Eq)]
pub struct CallWatcher;

impl Watch for CallWatcher {
    ghost use Rattle.t1_rules.specs.StepRules.{call_rules};
    ghost use Rattle.t1_rules.specs.Private.Standing.{StandsForAny};

    ghost stands_for = { λ edition. StandsForAny };

    ghost rules = { λ edition. call_rules };

    fn start(_edition: Edition) -> CallWatcher {
        CallWatcher
    }

    #[inline(always)]
    fn see_known(&mut self, token: CharToken, _call: OthersubrCall, step: &Step) -> Mask {
        faults(token, step)
    }

    fn see(&mut self, step: &Step) -> Mask {
        self.see_known(step.token, step.othersubr_call(), step)
    }
}

/// What a step breaks.
#[inline(always)]
#[tactic(auto, unfolding(crate::specs::StepRules::call_rules))]
fn faults(token: CharToken, step: &Step) -> Mask
    requires token { step.now.token ≡ token }
    ensures { (before : List StepView) → (n : ℕ) →
        has result n ≡ breaks call_rules n before (step_view step.now) }
{
    if is_quiet(token) {
        return Mask::empty();
    }
    Mask::empty()
        .with(Rule::GE02, is_finishing(token) & !step.last)
        .with(Rule::GE01, ends_in_glyph(token, step))
        .with(Rule::S04, is_end(token) & !is_in_glyph(step))
        .with(Rule::S03, is_return(token) & is_in_glyph(step))
        .with(
            Rule::S02,
            calls_by_number(token, step) & (step.path.len() == MOST_CALLS),
        )
        .with(Rule::S01, calls_by_number(token, step) & !step.found)
}

/// Whether none of these rules speaks of a token.
#[inline(always)]
fn is_quiet(token: CharToken) -> bool
    ensures call { result ≡ true → is_callsubr token ≡ false }
    ensures back { result ≡ true → is_return token ≡ false }
    ensures finish { result ≡ true → is_finishing token ≡ false }
    ensures end { result ≡ true → is_end token ≡ false }
{
    !(is_callsubr(token) | is_return(token) | is_finishing(token) | is_end(token))
}

/// Whether the step calls by a number.
fn calls_by_number(token: CharToken, step: &Step) -> bool
    requires token { step.now.token ≡ token }
    ensures { result ≡ calls_by_number (step_view step.now) }
{
    is_callsubr(token) & (0 < step.stack.len())
}

/// Whether the step is in the glyph's own charstring.
pub(crate) fn is_in_glyph(step: &Step) -> bool
    ensures { result ≡ is_in_glyph (step_view step.now) }
{
    step.path.len() == 0
}

/// Whether the glyph ends with its bytes.
pub(crate) fn ends_in_glyph(token: CharToken, step: &Step) -> bool
    requires token { step.now.token ≡ token }
    ensures { result ≡ ends_in_glyph (step_view step.now) }
{
    is_end(token) & is_in_glyph(step)
}
