//! Reasons that the charstring in which a step is tells: its length, and what comes behind the end of the glyph.

ghost use Rattle.std.specs.Prelude.{◌≡◌, ◌-◌, length, option_map, slice_get};
ghost use Rattle.t1_char.specs.StepValues.{step_view};
ghost use Rattle.t1_reasons.specs.CharstringReasons.{behind_of, charstring_at, told_of, told_of_step};

use crate::reason::Reason;
use t1_char::{CharToken, Step, token_behind_end};
use t1_font::Font;
use t1_rules::Rule;

/// A reason with what the charstring of its step tells.
pub(crate) fn told_of_step(
    font: &Font<'_>,
    glyph: usize,
    rule: Rule,
    step: &Step,
    reason: Option<Reason>,
) -> Option<Reason>
    ensures { result ≡ option_map (told_of_step font.now glyph rule (step_view step.now)) reason }
{
    match reason {
        Some(reason) => {
            let code = charstring_at(font, glyph, step.path.as_slice());
            Some(told_of(font, code, rule, reason))
        }
        None => None,
    }
}

/// What is told of a charstring.
fn told_of(font: &Font<'_>, code: &[u8], rule: Rule, reason: Reason) -> Reason
    ensures { result ≡ told_of font.now code.now rule reason }
{
    match rule {
        Rule::C01 => Reason::Length {
            bytes: code.len(),
            len_iv: font.len_iv(),
        },
        Rule::GE02 => behind_of(token_behind_end(font, code)),
        _ => reason,
    }
}

fn behind_of(next: Option<CharToken>) -> Reason
    ensures { result ≡ behind_of next }
{
    match next {
        Some(next) => Reason::Behind { next },
        None => Reason::Nothing,
    }
}

/// The charstring of the innermost of the Subrs that are being executed, or the glyph's own.
fn charstring_at<'a>(font: &Font<'a>, glyph: usize, path: &[u32]) -> &'a [u8]
    ensures { result.now ≡ charstring_at font.now glyph path.now }
{
    match path.last() {
        Some(subr) => match font.subr(*subr) {
            Some(code) => code,
            None => &[],
        },
        None => match font.glyphs().get_index(glyph) {
            Some((_, code)) => *code,
            None => &[],
        },
    }
}
