//! A text is cut in two.

ghost use Rattle.std.specs.Prelude.{◌≡◌, ◌≤◌, length, option_map};
ghost use Rattle.std.specs.List.{prefix_len};
ghost use Rattle.t1_lines.specs.Cutting.{cut};
ghost use Rattle.t1_lines.specs.Private.Bytes.{differs};

/// How many bytes are before the first such byte, all where there is none.
fn front_len(byte: u8, text: &[u8]) -> usize
    ensures value { result ≡ prefix_len (differs byte) text.now }
    ensures bound { result ≤ length text.now }
{
    for (at, b) in text.iter().enumerate() {
        if *b == byte {
            return at;
        }
    }
    text.len()
}

/// What is before the first such byte, and after it.
pub fn cut(byte: u8, text: &[u8]) -> Option<(&[u8], &[u8])>
    ensures { option_map (λ p. (p.0.now, p.1.now)) result ≡ cut byte text.now }
{
    let (front, rest) = text.split_at(front_len(byte, text));
    match rest.split_first() {
        Some((_, rest)) => Some((front, rest)),
        None => None,
    }
}
