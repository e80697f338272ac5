//! The rules on accented characters that a glyph's own steps decide, K01, K02 and K06: Type 1 Font Format
//! 1.1, chapter 6 (seac).

ghost use Rattle.std.specs.Prelude.{◌≡◌, ◌&&◌, ◌||◌, is_none, not, ℕ, List, [], ◌∷◌, ◌++◌, true, false};
ghost use Rattle.t1_char.specs.Arguments.{is_flex_end, othersubr_call};
ghost use Rattle.t1_char.specs.Steps.{StepView};
ghost use Rattle.t1_char.specs.StepValues.{step_view};
ghost use Rattle.t1_rules.specs.Mask.{has};
ghost use Rattle.t1_rules.specs.StepRules.{breaks, seac_rules};
ghost use Rattle.t1_rules.specs.StepRules.Seac.{accent_code, base_code, has_no_code, has_unnamed_code, is_unnamed, seac_code};
ghost use Rattle.t1_rules.specs.StepRules.Stems.{is_stem};
ghost use Rattle.t1_rules.specs.StepRules.Tokens.{closes, is_line, is_move};
ghost use Rattle.t1_rules.specs.Private.Standing.{SeacStandsFor};

use crate::mask::Mask;
use crate::rule::Rule;
use crate::standard_encoding::standard_name;
use crate::step_rules::paths::draws;
use crate::step_rules::stems::is_stem;
use crate::step_rules::tokens::{closes, ends_flex, is_command, is_move, is_seac, starts_flex};
use crate::watch::Watch;
use t1_char::{CharToken, Edition, OthersubrCall, Step, natural};
use t1_font::CODES;

/// Watches for K01, K02 and K06.
#[derive(Clone, Copy, Debug, PartialEq, Eq)]
pub struct SeacWatcher {
    /// Whether a flex was started, and not ended since.
    in_flex: bool,
    /// Whether there was a move, a drawing, a stem or a closepath.
    outlined: bool,
}

impl Watch for SeacWatcher {
    ghost use Rattle.t1_rules.specs.StepRules.{seac_rules};
    ghost use Rattle.t1_rules.specs.Private.Standing.{SeacStandsFor};

    ghost stands_for = { λ edition. SeacStandsFor };

    ghost rules = { λ edition. seac_rules };

    fn start(_edition: Edition) -> SeacWatcher {
        SeacWatcher {
            in_flex: false,
            outlined: false,
        }
    }

    #[inline(always)]
    fn see_known(&mut self, token: CharToken, call: OthersubrCall, step: &Step) -> Mask {
        let broken = self.faults(token, step);
        self.go_on(token, call, step);
        broken
    }

    fn see(&mut self, step: &Step) -> Mask {
        self.see_known(step.token, step.othersubr_call(), step)
    }
}

impl SeacWatcher {
    /// Whether no flex was started, or it was ended since.
    #[inline(always)]
    pub(crate) fn is_steady(&self) -> bool
        ensures { result ≡ true → self.now.in_flex ≡ false }
    {
        !self.in_flex
    }

    /// Whether there was a move, a drawing, a stem or a closepath.
    #[inline(always)]
    pub(crate) fn is_outlined(&self) -> bool
        ensures { result ≡ self.now.outlined }
    {
        self.outlined
    }

    /// Notes a line.
    #[inline(always)]
    pub(crate) fn draw(&mut self)
        ensures { self.new ≡ record self.old { outlined = true } }
    {
        self.outlined = true;
    }

    /// What a step breaks.
    #[inline(always)]
    #[tactic(auto, unfolding(crate::specs::StepRules::seac_rules))]
    fn faults(&self, token: CharToken, step: &Step) -> Mask
        requires token { step.now.token ≡ token }
        ensures { (before : List StepView) → SeacStandsFor self.now before →
            (n : ℕ) → has result n ≡ breaks seac_rules n before (step_view step.now) }
    {
        if !is_seac(token) {
            return Mask::empty();
        }
        Mask::empty()
            .with(Rule::K06, self.outlined)
            .with(Rule::K02, has_unnamed_code(step))
            .with(Rule::K01, has_no_code(step))
    }

    /// Keeps what the step changes.
    #[inline(always)]
    fn go_on(&mut self, token: CharToken, call: OthersubrCall, step: &Step)
        requires token { step.now.token ≡ token }
        requires call { call ≡ othersubr_call (step_view step.now) }
        ensures { (before : List StepView) → SeacStandsFor self.old before →
            SeacStandsFor self.new (before ++ step_view step.now ∷ []) }
    {
        if !is_command(token) {
            return;
        }
        self.outlined = self.outlined | makes_outline(token, call, step, self.in_flex);
        self.in_flex = starts_flex(call, step) | (self.in_flex & !ends_flex(call, step));
    }
}

/// Whether the step makes a part of an outline, being in flex or not.
#[inline(always)]
fn makes_outline(token: CharToken, call: OthersubrCall, step: &Step, in_flex: bool) -> bool
    requires token { step.now.token ≡ token }
    requires call { call ≡ othersubr_call (step_view step.now) }
    ensures { result ≡ (is_move step.now.token
        || ((is_line step.now.token || (is_flex_end (step_view step.now) && in_flex))
        || (is_stem step.now.token || closes step.now.token))) }
{
    is_move(token) | (draws(token, call, step, in_flex) | (is_stem(token) | closes(token)))
}

/// Whether a code of seac isn't whole from 0 to 255.
#[inline(never)]
fn has_no_code(step: &Step) -> bool
    ensures { result ≡ has_no_code (step_view step.now) }
{
    is_seac(step.token) && (base_code(step).is_none() || accent_code(step).is_none())
}

/// Whether a code of seac has no name in StandardEncoding.
#[inline(never)]
fn has_unnamed_code(step: &Step) -> bool
    ensures { result ≡ has_unnamed_code (step_view step.now) }
{
    is_seac(step.token) && (is_unnamed(base_code(step)) || is_unnamed(accent_code(step)))
}

/// Whether it is a code without a name in StandardEncoding.
pub fn is_unnamed(code: Option<u8>) -> bool
    ensures { result ≡ is_unnamed code }
{
    match code {
        Some(code) => standard_name(code).is_empty(),
        None => false,
    }
}

/// The code of the base.
pub fn base_code(step: &Step) -> Option<u8>
    ensures { result ≡ base_code (step_view step.now) }
{
    seac_code(step.argument(3))
}

/// The code of the accent.
pub fn accent_code(step: &Step) -> Option<u8>
    ensures { result ≡ accent_code (step_view step.now) }
{
    seac_code(step.argument(4))
}

/// A number as a code, where it is whole from 0 to 255.
fn seac_code(number: i32) -> Option<u8>
    ensures { result ≡ seac_code number }
{
    match natural(i64::from(number)) {
        Some(code) if code < CODES => Some(code as u8),
        _ => None,
    }
}
