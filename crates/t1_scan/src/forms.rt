//! The forms of tokens, by their first byte: Type 1 Font Format 1.1, chapters 2 and 10.

ghost use Rattle.std.specs.Prelude.{◌≡◌, ◌+◌, ◌≤◌, ◌∷◌, length, IfSome, Some};
ghost use Rattle.t1_scan.specs.Lengths.{run_len, token_len};
ghost use Rattle.t1_scan.specs.Private.Forms.{begun};
ghost use Rattle.t1_scan.specs.Tokens.{first_of, kind_of};

use crate::bytes::{is_decimal_digit, is_regular};
use crate::digits::{billionths_in, digits_alone};
use crate::nesting::inside_len;
use crate::numbers::{begins_digits, begins_number, number};
use crate::runs::run_len;
use crate::strings::part_len;
use crate::token::Kind;

/// How many bytes the token takes with which a text begins, and what it is; None where it isn't closed.
#[inline(always)]
pub fn token_at(text: &[u8]) -> Option<(usize, Kind)>
    requires { 1 ≤ length text.now }
    ensures found { first_of text.now ≡ begun text.now result }
    ensures some { IfSome result (λ p. 1 ≤ p.0) }
    ensures bound { IfSome result (λ p. p.0 ≤ length text.now) }
{
    match plain_token(text) {
        Some(found) => Some(found),
        None => any_token(text),
    }
}

/// The same, if it is a name, a word that begins as no number does, or digits alone: most are, and need few looks at a byte.
#[inline(always)]
fn plain_token(text: &[u8]) -> Option<(usize, Kind)>
    ensures found { IfSome result (λ p. first_of text.now ≡ begun text.now (Some p)) }
    ensures some { IfSome result (λ p. 1 ≤ p.0) }
    ensures bound { IfSome result (λ p. p.0 ≤ length text.now) }
{
    let [first, rest @ ..] = text else {
        return None;
    };
    if is_decimal_digit(*first) {
        let (len, value) = digits_alone(text)?;
        return Some((len, Kind::Number(billionths_in(value))));
    }
    let kind = run_kind(*first, rest)?;
    Some((1 + run_len(rest), kind))
}

/// What a run is that begins with these, if its first bytes decide: a name or a word.
#[inline(always)]
#[tactic(auto, using(crate::proofs::PlainTokens::name_begun, crate::proofs::PlainTokens::word_begun, crate::proofs::PlainTokens::dash_begun))]
fn run_kind(first: u8, rest: &[u8]) -> Option<Kind>
    ensures { IfSome result (λ kind. first_of (first ∷ rest.now) ≡ begun (first ∷ rest.now) (Some (1 + run_len rest.now, kind))) }
{
    if first == b'/' {
        return Some(Kind::Name);
    }
    if first == b'-' {
        if begins_digits(rest) {
            return None;
        }
        return Some(Kind::Word);
    }
    if is_regular(first) && !begins_number(first) {
        return Some(Kind::Word);
    }
    None
}

/// The same of any token.
#[inline(never)]
fn any_token(text: &[u8]) -> Option<(usize, Kind)>
    requires { 1 ≤ length text.now }
    ensures found { first_of text.now ≡ begun text.now result }
    ensures some { IfSome result (λ p. 1 ≤ p.0) }
    ensures bound { IfSome result (λ p. p.0 ≤ length text.now) }
{
    let [first, rest @ ..] = text else {
        return None;
    };
    let len = token_len(*first, rest)?;
    Some((len, kind_of(&text[..len])))
}

/// How many bytes the token takes that begins with these.
#[tactic(auto, unfolding(crate::specs::Lengths::token_len))]
fn token_len(first: u8, rest: &[u8]) -> Option<usize>
    ensures value { result ≡ token_len first rest.now }
    ensures some { IfSome result (λ n. 1 ≤ n) }
    ensures bound { IfSome result (λ n. n ≤ length rest.now + 1) }
{
    match first {
        b'/' => Some(1 + run_len(rest)),
        b'[' => Some(1 + inside_len(rest, 1, 0)?),
        b'{' => Some(1 + inside_len(rest, 0, 1)?),
        b'>' => Some(1 + if let [b'>', ..] = rest { 1 } else { 0 }),
        _ if is_regular(first) => Some(1 + run_len(rest)),
        _ => part_len(first, rest),
    }
}

/// What a token is, by its text.
#[tactic(auto, unfolding(crate::specs::Tokens::kind_of))]
fn kind_of(text: &[u8]) -> Kind
    ensures { result ≡ kind_of text.now }
{
    match text {
        [] => Kind::Word,
        [b'/', ..] => Kind::Name,
        [b'<', b'<', ..] => Kind::Word,
        [b'(' | b'<', ..] => Kind::Text,
        [b'{', ..] => Kind::Proc,
        [b'[', ..] => Kind::Array,
        _ => match number(text) {
            Some(value) => Kind::Number(value),
            None => Kind::Word,
        },
    }
}
