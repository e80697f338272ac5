//! Strings in parentheses and in angle brackets: Type 1 Font Format 1.1, chapters 2 and 10.

ghost use Rattle.std.specs.Prelude.{◌≡◌, ◌+◌, ◌<◌, ◌≤◌, ◌^◌, length, false, IfSome};
ghost use Rattle.t1_scan.specs.Lengths.{depth_after, string_len, close_len, angle_len, part_len};

use crate::runs::comment_len;

/// How many parentheses are open after a byte.
fn depth_after(escaped: bool, b: u8, depth: usize) -> usize
    requires low { 1 ≤ depth }
    requires high { depth < 2 ^ 63 }
    ensures { result ≡ depth_after escaped b depth }
{
    match b {
        b'(' if !escaped => depth + 1,
        b')' if !escaped => depth - 1,
        _ => depth,
    }
}

/// A string, after its first parenthesis, to its last.
#[tactic(auto, using(crate::proofs::Steps::string_more, crate::proofs::Steps::string_end))]
fn string_len(text: &[u8]) -> Option<usize>
    ensures value { result ≡ string_len false 1 text.now }
    ensures bound { IfSome result (λ n. n ≤ length text.now) }
{
    let mut depth = 1;
    let mut escaped = false;
    for (at, b) in text.iter().enumerate() {
        depth = depth_after(escaped, *b, depth);
        if depth == 0 {
            return Some(at + 1);
        }
        escaped = !escaped & (*b == b'\\');
    }
    None
}

/// To the first `>`, with it.
#[tactic(auto, using(crate::proofs::Steps::close_more, crate::proofs::Steps::close_end))]
fn close_len(text: &[u8]) -> Option<usize>
    ensures value { result ≡ close_len text.now }
    ensures bound { IfSome result (λ n. n ≤ length text.now) }
{
    for (at, b) in text.iter().enumerate() {
        if *b == b'>' {
            return Some(at + 1);
        }
    }
    None
}

/// What follows a `<`: the second byte of `<<`, or a hexadecimal string to its end.
#[tactic(auto, unfolding(crate::specs::Lengths::angle_len))]
fn angle_len(text: &[u8]) -> Option<usize>
    ensures value { result ≡ angle_len text.now }
    ensures bound { IfSome result (λ n. n ≤ length text.now) }
{
    match text {
        [] => None,
        [b'<', ..] => Some(1),
        _ => close_len(text),
    }
}

/// How many bytes are skipped whole in a procedure or an array, from this first byte on: a comment, to before the end of its
/// line; a string; `<<`; or else one byte. None where a string isn't closed.
#[tactic(auto, unfolding(crate::specs::Lengths::part_len))]
pub fn part_len(first: u8, rest: &[u8]) -> Option<usize>
    ensures value { result ≡ part_len first rest.now }
    ensures some { IfSome result (λ n. 1 ≤ n) }
    ensures bound { IfSome result (λ n. n ≤ length rest.now + 1) }
{
    match first {
        b'%' => Some(1 + comment_len(rest)),
        b'(' => Some(1 + string_len(rest)?),
        b'<' => Some(1 + angle_len(rest)?),
        _ => Some(1),
    }
}
