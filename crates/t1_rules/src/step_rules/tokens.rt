//! The kinds of tokens that charstring rules speak of: Type 1 Font Format 1.1, chapter 6.

ghost use Rattle.std.specs.Prelude.{◌≡◌, true};
ghost use Rattle.t1_char.specs.Arguments.{is_flex_end, is_flex_point, is_flex_start, is_hint_replacement, othersubr_call};
ghost use Rattle.t1_char.specs.StepValues.{step_view};
ghost use Rattle.t1_rules.specs.StepRules.Tokens.{clears, closes, is_command, is_hsbw, is_line, is_move, is_pop, is_setcurrentpoint, sets_point, sets_width};
ghost use Rattle.t1_char.specs.Seacs.{is_seac};

use t1_char::{CharToken, Command, OthersubrCall, Step, is_callothersubr};

/// Whether it is a command. Most tokens are numbers, at which little changes.
#[inline(always)]
pub(crate) fn is_command(token: CharToken) -> bool
    ensures { result ≡ is_command (λ command. true) token }
{
    matches!(token, CharToken::Command(_))
}

/// Whether it takes arguments from the bottom of the stack, which it then empties.
pub fn clears(token: CharToken) -> bool
    ensures { result ≡ clears token }
{
    match token {
        CharToken::Command(command) => command.arguments().is_some(),
        _ => false,
    }
}

/// Whether it sets sidebearing and width.
pub fn sets_width(token: CharToken) -> bool
    ensures { result ≡ sets_width token }
{
    matches!(token, CharToken::Command(Command::Hsbw | Command::Sbw))
}

/// Whether it is a move.
pub fn is_move(token: CharToken) -> bool
    ensures { result ≡ is_move token }
{
    matches!(
        token,
        CharToken::Command(Command::Rmoveto | Command::Hmoveto | Command::Vmoveto)
    )
}

/// Whether it is a line or a curve.
pub fn is_line(token: CharToken) -> bool
    ensures { result ≡ is_line token }
{
    matches!(
        token,
        CharToken::Command(
            Command::Rlineto
                | Command::Hlineto
                | Command::Vlineto
                | Command::Rrcurveto
                | Command::Vhcurveto
                | Command::Hvcurveto
        )
    )
}

/// Whether it closes a path.
pub fn closes(token: CharToken) -> bool
    ensures { result ≡ closes token }
{
    matches!(token, CharToken::Command(Command::Closepath))
}

/// Whether it takes a number from PostScript's stack.
pub fn is_pop(token: CharToken) -> bool
    ensures { result ≡ is_pop token }
{
    matches!(token, CharToken::Command(Command::Pop))
}

pub(crate) fn is_hsbw(token: CharToken) -> bool
    ensures { result ≡ is_hsbw token }
{
    matches!(token, CharToken::Command(Command::Hsbw))
}

pub(crate) fn is_setcurrentpoint(token: CharToken) -> bool
    ensures { result ≡ is_setcurrentpoint token }
{
    matches!(token, CharToken::Command(Command::Setcurrentpoint))
}

/// Whether it says where the current point is.
pub(crate) fn sets_point(token: CharToken) -> bool
    ensures { result ≡ sets_point token }
{
    sets_width(token) | is_setcurrentpoint(token)
}

/// Whether it makes an accented character.
pub fn is_seac(token: CharToken) -> bool
    ensures { result ≡ is_seac token }
{
    matches!(token, CharToken::Command(Command::Seac))
}

/// Which OtherSubr of flex and hint replacement a step of this token calls.
#[inline(always)]
pub(crate) fn call_of(token: CharToken, step: &Step) -> OthersubrCall
    requires token { step.now.token ≡ token }
    ensures { result ≡ othersubr_call (step_view step.now) }
{
    if is_callothersubr(token) {
        step.othersubr_call()
    } else {
        OthersubrCall::Other
    }
}

/// Whether the step of this call starts a flex.
#[inline(always)]
#[tactic(auto, using(crate::proofs::Lemmas::KnownCalls::starts, crate::proofs::Lemmas::KnownCalls::starts_none))]
pub(crate) fn starts_flex(call: OthersubrCall, _step: &Step) -> bool
    requires call { call ≡ othersubr_call (step_view _step.now) }
    ensures { result ≡ is_flex_start (step_view _step.now) }
{
    matches!(call, OthersubrCall::FlexStart)
}

/// Whether the step of this call adds the next point to a flex.
#[inline(always)]
#[tactic(auto, using(crate::proofs::Lemmas::KnownCalls::gives_point, crate::proofs::Lemmas::KnownCalls::gives_no_point))]
pub(crate) fn gives_flex_point(call: OthersubrCall, _step: &Step) -> bool
    requires call { call ≡ othersubr_call (step_view _step.now) }
    ensures { result ≡ is_flex_point (step_view _step.now) }
{
    matches!(call, OthersubrCall::FlexPoint)
}

/// Whether the step of this call ends a flex.
#[inline(always)]
#[tactic(auto, using(crate::proofs::Lemmas::KnownCalls::ends, crate::proofs::Lemmas::KnownCalls::ends_none))]
pub(crate) fn ends_flex(call: OthersubrCall, _step: &Step) -> bool
    requires call { call ≡ othersubr_call (step_view _step.now) }
    ensures { result ≡ is_flex_end (step_view _step.now) }
{
    matches!(call, OthersubrCall::FlexEnd)
}

/// Whether the step of this call replaces hints.
#[inline(always)]
#[tactic(auto, using(crate::proofs::Lemmas::KnownCalls::replaces, crate::proofs::Lemmas::KnownCalls::replaces_none))]
pub(crate) fn replaces_hints(call: OthersubrCall, _step: &Step) -> bool
    requires call { call ≡ othersubr_call (step_view _step.now) }
    ensures { result ≡ is_hint_replacement (step_view _step.now) }
{
    matches!(call, OthersubrCall::HintReplacement)
}
