//! Turns of the private text: Type 1 Font Format 1.1, chapters 2, 5 and 6.

ghost use Rattle.std.specs.Prelude.{◌≡◌, ◌&&◌, length, nat_le, not};
ghost use Rattle.t1_font.specs.Bounds.{most_glyphs};
ghost use Rattle.t1_font.specs.PrivateText.{dup_turn, glyph_turn, glyphs_at, glyphs_token, has_key, is_blank_text, is_len_iv, is_len_iv_key, is_minus_one, private_outside, private_token, private_turn, private_value, subr_at, subrs_at, subrs_token, subrs_turn};
ghost use Rattle.t1_font.specs.Private.Readings.{Is};
ghost use Rattle.t1_font.specs.Private.StatedSoFar.{stated_in};
ghost use Rattle.t1_font.specs.Private.Statements.{turn_view};
ghost use Rattle.t1_font.specs.Keys.{all_notes, private_key, same_name};

use crate::bounds::{GREATEST_LEN_IV, MOST_GLYPHS, MOST_SUBRS};
use crate::font::Font;
use crate::key::{Key, private_key, private_note};
use crate::mode::PrivateMode;
use crate::statement::{Statement, Turn, noted};
use crate::tokens::{
    BILLION, charstring, first, inside, is_any_word, is_array, is_name, is_number, is_word, name,
    natural, past_word, wanted, whole_up_to,
};
use crate::unread::Unread;
use t1_scan::Kind;

/// The greatest number of a Subr.
pub(crate) const LAST_SUBR: u32 = MOST_SUBRS - 1;

/// Whether a number is the least lenIV, which says that charstrings aren't encrypted.
fn is_minus_one(kind: Kind) -> bool
    ensures { result ≡ is_minus_one kind }
{
    match kind {
        Kind::Number(value) => value == -BILLION,
        _ => false,
    }
}

/// Whether a token is a whole number from -1 to 64.
#[tactic(auto, unfolding(crate::specs::PrivateText::is_len_iv))]
fn is_len_iv(kind: Kind) -> bool
    ensures { result ≡ is_len_iv kind }
{
    is_minus_one(kind) || whole_up_to(GREATEST_LEN_IV, kind).is_some()
}

/// Whether a key is `/lenIV`.
fn is_len_iv_key(key: Key) -> bool
    ensures { result ≡ is_len_iv_key key }
{
    matches!(key, Key::LenIv)
}

/// Takes a plain key's value, and looks at a noted key's.
#[tactic(auto, unfolding(crate::specs::PrivateText::private_value))]
fn private_value<'a>(name: &[u8], text: &'a [u8]) -> Result<Turn<'a, PrivateMode>, Unread>
    ensures { Is turn_view result (private_value all_notes (private_key name.now) name.now text.now) }
{
    let Some(key) = private_key(name) else {
        let value = noted(private_note(name), text);
        return Ok(Turn::Goes(value, PrivateMode::Outside, text));
    };
    let ended = if is_len_iv_key(key) {
        Unread::BadLenIv
    } else {
        Unread::BadCharStrings
    };
    let (value, rest) = wanted(text, ended)?;
    if is_len_iv_key(key) && !is_len_iv(value.kind) {
        return Err(Unread::BadLenIv);
    }
    Ok(Turn::Goes(
        Some(Statement::Plain(key, value)),
        PrivateMode::Outside,
        rest,
    ))
}

/// Whether a text is blanks and comments alone.
#[tactic(auto, unfolding(crate::specs::PrivateText::is_blank_text))]
fn is_blank_text(text: &[u8]) -> bool
    ensures { result ≡ is_blank_text text.now }
{
    match first(text) {
        Ok(None) => true,
        Ok(Some(_)) => false,
        Err(_) => false,
    }
}

/// The head of the Subrs: an array with nothing in it, or a count and the word `array`.
#[tactic(auto, unfolding(crate::specs::PrivateText::subrs_at))]
fn subrs_at<'a>(text: &'a [u8]) -> Result<Turn<'a, PrivateMode>, Unread>
    ensures { Is turn_view result (subrs_at text.now) }
{
    let (token, rest) = wanted(text, Unread::BadSubrs)?;
    if is_array(token.kind) {
        if !is_blank_text(inside(token.text)) {
            return Err(Unread::BadSubrs);
        }
        return Ok(Turn::Goes(Some(Statement::Size(0)), PrivateMode::Outside, rest));
    }
    let size = natural(Unread::BadSubrs, MOST_SUBRS, token.kind)?;
    let rest = past_word(rest, Unread::BadSubrs, b"array")?;
    Ok(Turn::Goes(Some(Statement::Size(size)), PrivateMode::Subrs, rest))
}

/// What follows `/Subrs`, which may be there once.
#[tactic(auto, unfolding(crate::specs::PrivateText::subrs_turn, crate::specs::Fonts::value_of))]
fn subrs_turn<'a>(font: Option<&Font<'a>>, text: &'a [u8]) -> Result<Turn<'a, PrivateMode>, Unread>
    ensures { Is turn_view result (subrs_turn (stated_in font.entry) text.now) }
{
    match font {
        Some(font) if font.has_size() => Err(Unread::SecondSubrs),
        _ => subrs_at(text),
    }
}

/// The head of the CharStrings.
#[tactic(auto, unfolding(crate::specs::PrivateText::glyphs_at))]
fn glyphs_at<'a>(text: &'a [u8]) -> Result<Turn<'a, PrivateMode>, Unread>
    ensures { Is turn_view result (glyphs_at text.now) }
{
    let (count, rest) = wanted(text, Unread::BadCharStrings)?;
    natural(Unread::BadCharStrings, MOST_GLYPHS, count.kind)?;
    let rest = past_word(rest, Unread::BadCharStrings, b"dict")?;
    let rest = past_word(rest, Unread::BadCharStrings, b"dup")?;
    let rest = past_word(rest, Unread::BadCharStrings, b"begin")?;
    Ok(Turn::Goes(None, PrivateMode::Glyphs, rest))
}

/// A token outside the Subrs and the CharStrings.
#[tactic(auto, unfolding(crate::specs::PrivateText::private_outside_by))]
fn private_outside<'a>(
    font: Option<&Font<'a>>,
    kind: Kind,
    text: &'a [u8],
    rest: &'a [u8],
) -> Result<Turn<'a, PrivateMode>, Unread>
    ensures { Is turn_view result (private_outside (stated_in font.entry) kind text.now rest.now) }
{
    if !is_name(kind) {
        return Ok(Turn::Goes(None, PrivateMode::Outside, rest));
    }
    if text == b"/Subrs".as_slice() {
        return subrs_turn(font, rest);
    }
    if text == b"/CharStrings".as_slice() {
        return glyphs_at(rest);
    }
    private_value(text, rest)
}

/// A Subr, after its `dup` and its number.
#[tactic(auto, unfolding(crate::specs::PrivateText::subr_at))]
fn subr_at<'a>(kind: Kind, text: &'a [u8]) -> Result<Turn<'a, PrivateMode>, Unread>
    ensures { Is turn_view result (subr_at kind text.now) }
{
    let number = natural(Unread::BadSubrs, LAST_SUBR, kind)?;
    let (bytes, rest) = charstring(text, Unread::BadSubrs)?;
    Ok(Turn::Goes(
        Some(Statement::Subr(number, bytes)),
        PrivateMode::Subrs,
        rest,
    ))
}

/// What follows a `dup` of the Subrs: one without a number ends them.
#[tactic(auto, unfolding(crate::specs::PrivateText::dup_turn, crate::specs::Tokens::token_ahead))]
fn dup_turn<'a>(text: &'a [u8]) -> Result<Turn<'a, PrivateMode>, Unread>
    ensures { Is turn_view result (dup_turn text.now) }
{
    let Ok(Some((token, rest))) = first(text) else {
        return Ok(Turn::Goes(None, PrivateMode::Outside, text));
    };
    if !is_number(token.kind) {
        return Ok(Turn::Goes(None, PrivateMode::Outside, text));
    }
    subr_at(token.kind, rest)
}

/// A token among the Subrs.
#[tactic(auto, unfolding(crate::specs::PrivateText::subrs_token_by))]
fn subrs_token<'a>(
    font: Option<&Font<'a>>,
    kind: Kind,
    text: &'a [u8],
    rest: &'a [u8],
) -> Result<Turn<'a, PrivateMode>, Unread>
    ensures { Is turn_view result (subrs_token (stated_in font.entry) kind text.now rest.now) }
{
    if is_word(b"dup", kind, text) {
        return dup_turn(rest);
    }
    if is_any_word(kind) {
        return Ok(Turn::Goes(None, PrivateMode::Subrs, rest));
    }
    private_outside(font, kind, text, rest)
}

/// Whether a glyph of this name would be one too many.
#[tactic(auto, unfolding(crate::specs::Fonts::value_of))]
fn has_no_room(font: Option<&Font<'_>>, name: &[u8]) -> bool
    ensures { result ≡ (nat_le most_glyphs (length (stated_in font.entry).glyphs) && not (has_key same_name (stated_in font.entry).glyphs name.now)) }
{
    match font {
        Some(font) => font.glyph_count() >= MOST_GLYPHS as usize && !font.has_glyph(name),
        None => false,
    }
}

/// A glyph, after its name.
#[tactic(auto, unfolding(crate::specs::PrivateText::glyph_turn))]
fn glyph_turn<'a>(
    font: Option<&Font<'a>>,
    name: &'a [u8],
    text: &'a [u8],
) -> Result<Turn<'a, PrivateMode>, Unread>
    ensures { Is turn_view result (glyph_turn (stated_in font.entry) name.now text.now) }
{
    if has_no_room(font, name) {
        return Err(Unread::PastLimit);
    }
    let (bytes, rest) = charstring(text, Unread::BadCharStrings)?;
    Ok(Turn::Goes(
        Some(Statement::Glyph(name, bytes)),
        PrivateMode::Glyphs,
        rest,
    ))
}

/// A token among the glyphs.
#[tactic(auto, unfolding(crate::specs::PrivateText::glyphs_token))]
fn glyphs_token<'a>(
    font: Option<&Font<'a>>,
    kind: Kind,
    text: &'a [u8],
    rest: &'a [u8],
) -> Result<Turn<'a, PrivateMode>, Unread>
    ensures { Is turn_view result (glyphs_token (stated_in font.entry) kind text.now rest.now) }
{
    if is_word(b"end", kind, text) {
        return Ok(Turn::Over(rest));
    }
    if is_any_word(kind) {
        return Ok(Turn::Goes(None, PrivateMode::Glyphs, rest));
    }
    if is_name(kind) {
        return glyph_turn(font, name(text), rest);
    }
    Err(Unread::BadCharStrings)
}

/// What a token begins, after what is stated so far, if anything is.
#[inline(always)]
pub(crate) fn private_token<'a>(
    font: Option<&Font<'a>>,
    mode: PrivateMode,
    kind: Kind,
    text: &'a [u8],
    rest: &'a [u8],
) -> Result<Turn<'a, PrivateMode>, Unread>
    ensures { Is turn_view result (private_token (stated_in font.entry) mode kind text.now rest.now) }
{
    match mode {
        PrivateMode::Outside => private_outside(font, kind, text, rest),
        PrivateMode::Subrs => subrs_token(font, kind, text, rest),
        PrivateMode::Glyphs => glyphs_token(font, kind, text, rest),
    }
}

/// One turn of the private text.
#[tactic(auto, unfolding(crate::specs::PrivateText::private_turn_by))]
pub(crate) fn private_turn<'a>(
    font: Option<&Font<'a>>,
    mode: PrivateMode,
    text: &'a [u8],
) -> Result<Turn<'a, PrivateMode>, Unread>
    ensures { Is turn_view result (private_turn (stated_in font.entry) mode text.now) }
{
    let (token, rest) = wanted(text, Unread::BadCharStrings)?;
    private_token(font, mode, token.kind, token.text, rest)
}
