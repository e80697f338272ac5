//! Kinds of bytes: Type 1 Font Format 1.1, chapters 2 and 10.

ghost use Rattle.std.specs.Prelude.{◌≡◌};
ghost use Rattle.t1_scan.specs.Bytes.{is_line_end, is_blank, is_regular, is_decimal_digit};

/// Whether a comment ends before this byte.
pub fn is_line_end(b: u8) -> bool
    ensures { result ≡ is_line_end b }
{
    matches!(b, b'\n' | b'\r')
}

/// Whether a byte parts tokens: null, tab, line feed, form feed, carriage return, space.
pub fn is_blank(b: u8) -> bool
    ensures { result ≡ is_blank b }
{
    matches!(b, 0 | b'\t' | b'\n' | 12 | b'\r' | b' ')
}

/// Whether a byte is neither a blank nor a delimiter. Most are letters, and then digits: these are tested first.
#[inline(always)]
pub fn is_regular(b: u8) -> bool
    ensures { result ≡ is_regular b }
{
    b.is_ascii_alphabetic()
        || b.is_ascii_digit()
        || !matches!(
            b,
            0 | b'\t'
                | b'\n'
                | 12
                | b'\r'
                | b' '
                | b'('
                | b')'
                | b'<'
                | b'>'
                | b'['
                | b']'
                | b'{'
                | b'}'
                | b'/'
                | b'%'
        )
}

/// Whether a byte is one of 0 to 9.
pub fn is_decimal_digit(b: u8) -> bool
    ensures { result ≡ is_decimal_digit b }
{
    b.is_ascii_digit()
}
