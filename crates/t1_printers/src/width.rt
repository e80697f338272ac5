//! How wide a text is.

ghost use Rattle.std.specs.Prelude.{◌≡◌};
ghost use Rattle.t1_printers.specs.Widths.{begins_character, width_of};

/// Whether a character begins with the byte.
fn begins_character(byte: u8) -> bool
    ensures { result ≡ begins_character byte }
{
    byte < 128 || byte >= 192
}

/// The characters of a text.
pub(crate) fn width(text: &[u8]) -> usize
    ensures { result ≡ width_of text.now }
{
    let mut width = 0;
    for byte in text {
        if begins_character(*byte) {
            width += 1;
        }
    }
    width
}
