//! Blanks with comments, and runs of regular bytes: Type 1 Font Format 1.1, chapters 2 and 10.

ghost use Rattle.std.specs.Prelude.{◌≡◌, ◌≤◌, length, false};
ghost use Rattle.std.specs.List.{prefix_len};
ghost use Rattle.t1_scan.specs.Bytes.{is_decimal_digit};
ghost use Rattle.t1_scan.specs.Lengths.{blank_len, run_len, comment_len};

use crate::bytes::{is_blank, is_decimal_digit, is_line_end, is_regular};

/// The length of the leading blanks and comments. Most tokens begin with a byte above `%`, which no blank is.
#[inline(always)]
#[tactic(auto, using(crate::proofs::Steps::blank_more))]
pub fn blank_len(text: &[u8]) -> usize
    ensures value { result ≡ blank_len false text.now }
    ensures bound { result ≤ length text.now }
{
    let mut in_comment = false;
    for (at, b) in text.iter().enumerate() {
        if in_comment {
            in_comment = !is_line_end(*b);
        } else if *b > b'%' {
            return at;
        } else if *b == b'%' {
            in_comment = true;
        } else if !is_blank(*b) {
            return at;
        }
    }
    text.len()
}

/// The longest run of regular bytes.
#[inline(always)]
pub fn run_len(text: &[u8]) -> usize
    ensures value { result ≡ run_len text.now }
    ensures bound { result ≤ length text.now }
{
    for (at, b) in text.iter().enumerate() {
        if !is_regular(*b) {
            return at;
        }
    }
    text.len()
}

/// A comment, after its `%`, to before the end of the line.
pub fn comment_len(text: &[u8]) -> usize
    ensures value { result ≡ comment_len text.now }
    ensures bound { result ≤ length text.now }
{
    for (at, b) in text.iter().enumerate() {
        if is_line_end(*b) {
            return at;
        }
    }
    text.len()
}

/// The longest run of decimal digits.
pub fn digits_len(text: &[u8]) -> usize
    ensures value { result ≡ prefix_len is_decimal_digit text.now }
    ensures bound { result ≤ length text.now }
{
    for (at, b) in text.iter().enumerate() {
        if !is_decimal_digit(*b) {
            return at;
        }
    }
    text.len()
}
