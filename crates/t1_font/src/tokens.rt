//! Tokens and raw bytes, as the texts of a font are read by them: Type 1 Font Format 1.1, chapter 2. Each
//! reader takes what is left of a text, and returns what it reads and what is left after that.

ghost use Rattle.std.specs.Prelude.{◌≡◌, IfOk};
ghost use Rattle.t1_font.specs.Private.Entries.{IsWordBefore};
ghost use Rattle.t1_font.specs.Private.Readings.{Is};
ghost use Rattle.t1_font.specs.Tokens.{charstring_at, inside_of, is_array_kind, is_name_kind, is_number_kind, is_word_kind, name_of, natural, past_word, raw_of, some_raw, spells, token_ahead, wanted, whole, whole_up_to};
ghost use Rattle.t1_font.specs.Private.Tokens.{IsFirst, Sees, found_of};

use crate::bounds::LONGEST_CHARSTRING;
use crate::unread::Unread;
use t1_scan::{Kind, ScanError, Scanner, Token};

/// A number's value is counted in billionths.
pub const BILLION: i64 = t1_scan::BILLION as i64;

/// The first token, if one is left.
#[inline(always)]
pub(crate) fn first<'a>(text: &'a [u8]) -> Result<Option<(Token<'a>, &'a [u8])>, ScanError>
    ensures { IsFirst text.now result }
{
    let mut scanner = Scanner::new(text);
    match scanner.next() {
        Ok(Some(token)) => {
            let (_, rest) = text.split_at(token.to);
            Ok(Some((token, rest)))
        }
        Ok(None) => Ok(None),
        Err(error) => Err(error),
    }
}

/// The token that has to follow; where the text is over, the refusal is `ended`.
#[tactic(auto, unfolding(crate::specs::Tokens::wanted))]
#[inline(always)]
pub(crate) fn wanted<'a>(text: &'a [u8], ended: Unread) -> Result<(Token<'a>, &'a [u8]), Unread>
    ensures { Is (λ p. found_of p.0 p.1.now) result (wanted ended text.now) }
{
    match first(text) {
        Ok(Some(found)) => Ok(found),
        Ok(None) => Err(ended),
        Err(ScanError::Unclosed) => Err(Unread::Unclosed),
    }
}

/// The token that follows, if there is one that is closed.
#[tactic(auto, unfolding(crate::specs::Tokens::token_ahead))]
#[inline(never)]
pub(crate) fn token_ahead<'a>(text: &'a [u8]) -> Option<(Token<'a>, &'a [u8])>
    ensures { Sees (λ p. found_of p.0 p.1.now) result (token_ahead text.now) }
{
    match first(text) {
        Ok(found) => found,
        Err(ScanError::Unclosed) => None,
    }
}

/// Whether a token is a word.
pub(crate) fn is_any_word(kind: Kind) -> bool
    ensures { result ≡ is_word_kind kind }
{
    matches!(kind, Kind::Word)
}

/// Whether a token is a name.
pub(crate) fn is_name(kind: Kind) -> bool
    ensures { result ≡ is_name_kind kind }
{
    matches!(kind, Kind::Name)
}

/// Whether a token is a number.
pub(crate) fn is_number(kind: Kind) -> bool
    ensures { result ≡ is_number_kind kind }
{
    matches!(kind, Kind::Number(_))
}

/// Whether a token is an array.
pub(crate) fn is_array(kind: Kind) -> bool
    ensures { result ≡ is_array_kind kind }
{
    matches!(kind, Kind::Array)
}

/// Whether a token of this kind and text is this word.
pub(crate) fn is_word(word: &[u8], kind: Kind, text: &[u8]) -> bool
    ensures { result ≡ spells word.now kind text.now }
{
    is_any_word(kind) && text == word
}

/// The whole number of 0 or more that a token is.
#[tactic(auto, unfolding(crate::specs::Tokens::whole))]
fn whole(kind: Kind) -> Option<u64>
    ensures { result ≡ whole kind }
{
    let Kind::Number(value) = kind else {
        return None;
    };
    if value < 0 || value % BILLION != 0 {
        return None;
    }
    Some((value / BILLION) as u64)
}

/// The whole number from 0 to a limit that a token is.
#[tactic(auto, unfolding(crate::specs::Tokens::whole_up_to))]
pub(crate) fn whole_up_to(limit: u32, kind: Kind) -> Option<u32>
    ensures { result ≡ whole_up_to limit kind }
{
    let whole = whole(kind)?;
    if whole > u64::from(limit) {
        return None;
    }
    Some(whole as u32)
}

/// The whole number of 0 or more, at most the limit, that must be here.
#[tactic(auto, unfolding(crate::specs::Tokens::natural))]
pub(crate) fn natural(bad: Unread, limit: u32, kind: Kind) -> Result<u32, Unread>
    ensures { Is (λ n. n) result (natural bad limit kind) }
{
    let Some(whole) = whole(kind) else {
        return Err(bad);
    };
    if whole > u64::from(limit) {
        return Err(Unread::PastLimit);
    }
    Ok(whole as u32)
}

/// Skips one byte of any value, and returns so many that follow it, and what is left.
#[tactic(auto, unfolding(crate::specs::Tokens::raw_of))]
fn raw<'a>(text: &'a [u8], bad: Unread, len: u32) -> Result<(&'a [u8], &'a [u8]), Unread>
    ensures { Is (λ p. (p.0.now, p.1.now)) result (some_raw bad (raw_of len text.now)) }
{
    let len = len as usize;
    if len >= text.len() {
        return Err(bad);
    }
    Ok(text[1..].split_at(len))
}

/// Returns what is left after a word that must be here.
#[tactic(auto, unfolding(crate::specs::Tokens::past_word))]
pub(crate) fn past_word<'a>(text: &'a [u8], bad: Unread, word: &[u8]) -> Result<&'a [u8], Unread>
    ensures { Is (λ rest. rest.now) result (past_word bad word.now text.now) }
{
    let (token, rest) = wanted(text, bad)?;
    if is_word(word, token.kind, token.text) {
        Ok(rest)
    } else {
        Err(bad)
    }
}

/// The word before the bytes of a charstring, which comes after their count; the bytes, which come after one byte; and what is left.
#[tactic(auto, unfolding(crate::specs::Tokens::charstring_at))]
#[inline(always)]
pub(crate) fn charstring_with_word<'a>(
    text: &'a [u8],
    bad: Unread,
) -> Result<(Token<'a>, &'a [u8], &'a [u8]), Unread>
    ensures read { Is (λ p. (p.1.now, p.2.now)) result (charstring_at bad text.now) }
    ensures word { IfOk result (λ p. IsWordBefore text.now p.0 p.1.now p.2.now) }
{
    let (count, rest) = wanted(text, bad)?;
    let len = natural(bad, LONGEST_CHARSTRING, count.kind)?;
    let (word, rest) = wanted(rest, bad)?;
    if !is_any_word(word.kind) {
        return Err(bad);
    }
    let (bytes, left) = raw(rest, bad, len)?;
    Ok((word, bytes, left))
}

/// The bytes of a charstring, after their count, any word and one byte; and what is left.
pub(crate) fn charstring<'a>(text: &'a [u8], bad: Unread) -> Result<(&'a [u8], &'a [u8]), Unread>
    ensures { Is (λ p. (p.0.now, p.1.now)) result (charstring_at bad text.now) }
{
    let (_, bytes, left) = charstring_with_word(text, bad)?;
    Ok((bytes, left))
}

/// What is between the brackets of an array or a procedure.
pub(crate) fn inside(text: &[u8]) -> &[u8]
    ensures { result.now ≡ inside_of text.now }
{
    match text {
        [_, inside @ .., _] => inside,
        _ => &[],
    }
}

/// A name without its slash.
pub(crate) fn name(text: &[u8]) -> &[u8]
    ensures { result.now ≡ name_of text.now }
{
    match text {
        [_, name @ ..] => name,
        [] => text,
    }
}
