//! How a file of a Type 1 font begins, and which bytes are past printable ASCII: Type 1 Font Format 1.1, chapter 2.

ghost use Rattle.std.specs.Prelude.{◌≡◌};
ghost use Rattle.t1_words.specs.Headers.{begins_as_type1, has_high_byte};

/// Whether some byte is 127 or more: DEL, or past ASCII.
pub fn has_high_byte(text: &[u8]) -> bool
    ensures { result ≡ has_high_byte text.now }
{
    text.iter().any(|b| *b >= 127)
}

/// Whether a file says in its first line that it is a Type 1 font: it begins with `%!PS-AdobeFont` or `%!FontType`.
pub fn begins_as_type1(text: &[u8]) -> bool
    ensures { result ≡ begins_as_type1 text.now }
{
    text.starts_with(b"%!PS-AdobeFont") || text.starts_with(b"%!FontType")
}
