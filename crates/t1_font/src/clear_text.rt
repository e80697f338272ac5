//! Turns of the clear text: Type 1 Font Format 1.1, chapter 2.

ghost use Rattle.std.specs.Prelude.{◌≡◌};
ghost use Rattle.t1_font.specs.ClearText.{array_at, clear_outside, clear_turn, clear_value, code_at, code_statement, code_token, code_turn, encoding_at, encoding_turn, is_code_count};
ghost use Rattle.t1_font.specs.Fonts.{FontValue};
ghost use Rattle.t1_font.specs.Private.Readings.{Is};
ghost use Rattle.t1_font.specs.Private.Statements.{statement_view, turn_view};
ghost use Rattle.t1_font.specs.Private.Tokens.{Sees};
ghost use Rattle.t1_font.specs.Keys.{all_notes, clear_key};

use crate::bounds::CODES;
use crate::encoding::Encoding;
use crate::key::{clear_key, clear_note};
use crate::mode::ClearMode;
use crate::statement::{Statement, Turn, noted};
use crate::tokens::{BILLION, is_name, is_number, is_word, name, token_ahead, wanted, whole_up_to};
use crate::unread::Unread;
use t1_scan::Kind;

/// Takes a plain key's value, whatever it is, and looks at a noted key's.
#[tactic(auto, unfolding(crate::specs::ClearText::clear_value))]
fn clear_value<'a>(name: &[u8], text: &'a [u8]) -> Result<Turn<'a, ClearMode>, Unread>
    ensures { Is turn_view result (clear_value all_notes (clear_key name.now) name.now text.now) }
{
    let Some(key) = clear_key(name) else {
        let value = noted(clear_note(name), text);
        return Ok(Turn::Goes(value, ClearMode::Outside, text));
    };
    let (value, rest) = wanted(text, Unread::NoEexec)?;
    Ok(Turn::Goes(Some(Statement::Plain(key, value)), ClearMode::Outside, rest))
}

/// Whether a token is the number 256.
fn is_code_count(kind: Kind) -> bool
    ensures { result ≡ is_code_count kind }
{
    match kind {
        Kind::Number(value) => value == i64::from(CODES) * BILLION,
        _ => false,
    }
}

/// What is left after the word `array`, if it is here.
#[tactic(auto, unfolding(crate::specs::ClearText::array_at))]
fn past_array(text: &[u8]) -> Option<&[u8]>
    ensures { Sees (λ rest. rest.now) result (array_at text.now) }
{
    let (token, rest) = token_ahead(text)?;
    if is_word(b"array", token.kind, token.text) {
        Some(rest)
    } else {
        None
    }
}

/// A standard or a custom encoding, if one is here.
#[tactic(auto, unfolding(crate::specs::ClearText::encoding_at))]
fn encoding_at<'a>(text: &'a [u8]) -> Option<Turn<'a, ClearMode>>
    ensures { Sees turn_view result (encoding_at text.now) }
{
    let (token, rest) = token_ahead(text)?;
    if is_word(b"StandardEncoding", token.kind, token.text) {
        return Some(Turn::Goes(
            Some(Statement::Encoding(Encoding::Standard)),
            ClearMode::Outside,
            rest,
        ));
    }
    if !is_code_count(token.kind) {
        return None;
    }
    let rest = past_array(rest)?;
    Some(Turn::Goes(
        Some(Statement::Encoding(Encoding::Custom)),
        ClearMode::Codes,
        rest,
    ))
}

/// What follows `/Encoding`; a token that doesn't fit isn't taken.
#[tactic(auto, unfolding(crate::specs::ClearText::encoding_turn))]
fn encoding_turn<'a>(text: &'a [u8]) -> Turn<'a, ClearMode>
    ensures { turn_view result ≡ encoding_turn text.now }
{
    match encoding_at(text) {
        Some(turn) => turn,
        None => Turn::Goes(
            Some(Statement::Encoding(Encoding::Other)),
            ClearMode::Outside,
            text,
        ),
    }
}

/// A token outside a custom encoding.
#[tactic(auto, unfolding(crate::specs::ClearText::clear_outside_by))]
fn clear_outside<'a>(
    kind: Kind,
    text: &'a [u8],
    rest: &'a [u8],
) -> Result<Turn<'a, ClearMode>, Unread>
    ensures { Is turn_view result (clear_outside kind text.now rest.now) }
{
    if is_word(b"eexec", kind, text) {
        return Ok(Turn::Over(rest));
    }
    if !is_name(kind) {
        return Ok(Turn::Goes(None, ClearMode::Outside, rest));
    }
    if text == b"/WeightVector".as_slice() {
        return Err(Unread::MultipleMaster);
    }
    if text == b"/Encoding".as_slice() {
        return Ok(encoding_turn(rest));
    }
    clear_value(text, rest)
}

/// What a custom encoding's code and name say.
#[tactic(auto, unfolding(crate::specs::ClearText::code_statement))]
fn code_statement<'a>(kind: Kind, text: &'a [u8]) -> Statement<'a>
    ensures { statement_view result ≡ code_statement kind text.now }
{
    match whole_up_to(CODES - 1, kind) {
        Some(code) => Statement::Code(code, name(text)),
        None => Statement::BadCode,
    }
}

/// A group of a custom encoding after its `dup`, if one is here.
#[tactic(auto, unfolding(crate::specs::ClearText::code_at))]
fn code_at<'a>(text: &'a [u8]) -> Option<Turn<'a, ClearMode>>
    ensures { Sees turn_view result (code_at text.now) }
{
    let (number, rest) = token_ahead(text)?;
    if !is_number(number.kind) {
        return None;
    }
    let (name, rest) = token_ahead(rest)?;
    if !is_name(name.kind) {
        return None;
    }
    let (last, rest) = token_ahead(rest)?;
    if !is_word(b"put", last.kind, last.text) {
        return None;
    }
    let code = code_statement(number.kind, name.text);
    Some(Turn::Goes(Some(code), ClearMode::Codes, rest))
}

/// What follows a `dup` of a custom encoding; one that begins no group is skipped alone.
#[tactic(auto, unfolding(crate::specs::ClearText::code_turn))]
fn code_turn<'a>(text: &'a [u8]) -> Turn<'a, ClearMode>
    ensures { turn_view result ≡ code_turn text.now }
{
    match code_at(text) {
        Some(turn) => turn,
        None => Turn::Goes(None, ClearMode::Codes, text),
    }
}

/// A token of a custom encoding.
#[tactic(auto, unfolding(crate::specs::ClearText::code_token))]
fn code_token<'a>(kind: Kind, text: &'a [u8], rest: &'a [u8]) -> Turn<'a, ClearMode>
    ensures { turn_view result ≡ code_token kind text.now rest.now }
{
    if is_word(b"eexec", kind, text) {
        return Turn::Over(rest);
    }
    if is_word(b"def", kind, text) {
        return Turn::Goes(None, ClearMode::Outside, rest);
    }
    if is_word(b"dup", kind, text) {
        return code_turn(rest);
    }
    Turn::Goes(None, ClearMode::Codes, rest)
}

/// One turn of the clear text.
#[tactic(auto, unfolding(crate::specs::ClearText::clear_turn_by))]
pub(crate) fn clear_turn<'a>(mode: ClearMode, text: &'a [u8]) -> Result<Turn<'a, ClearMode>, Unread>
    ensures { (v : FontValue) → Is turn_view result (clear_turn v mode text.now) }
{
    let (token, rest) = wanted(text, Unread::NoEexec)?;
    match mode {
        ClearMode::Outside => clear_outside(token.kind, token.text, rest),
        ClearMode::Codes => Ok(code_token(token.kind, token.text, rest)),
    }
}
