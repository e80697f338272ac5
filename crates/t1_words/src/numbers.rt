//! Words that PostScript takes for numbers.

ghost use Rattle.std.specs.Prelude.{◌≡◌, ◌≤◌, length};
ghost use Rattle.std.specs.List.{list_all, prefix_len};
ghost use Rattle.t1_scan.specs.Bytes.{is_decimal_digit};
ghost use Rattle.t1_words.specs.Numbers.{after_decimals, are_digits, are_radix_digits, decimals_of, is_after_base, is_exponent, is_number, is_radix_digit, is_radix_number, is_unsigned_number, unsigned};

/// How many digits a text begins with.
fn digits_len(text: &[u8]) -> usize
    ensures value { result ≡ prefix_len is_decimal_digit text.now }
    ensures bound { result ≤ length text.now }
{
    for (at, b) in text.iter().enumerate() {
        if !is_decimal_digit(*b) {
            return at;
        }
    }
    text.len()
}

fn is_decimal_digit(b: u8) -> bool
    ensures { result ≡ is_decimal_digit b }
{
    b.is_ascii_digit()
}

/// Without a sign that it begins with.
fn unsigned(text: &[u8]) -> &[u8]
    ensures { result.now ≡ unsigned text.now }
{
    match text {
        [b'+' | b'-', rest @ ..] => rest,
        _ => text,
    }
}

fn has_digits_alone(text: &[u8]) -> bool
    ensures { result ≡ list_all is_decimal_digit text.now }
{
    text.iter().all(|b| is_decimal_digit(*b))
}

/// One digit or more.
fn are_digits(text: &[u8]) -> bool
    ensures { result ≡ are_digits text.now }
{
    !text.is_empty() && has_digits_alone(text)
}

/// Nothing; or `e` or `E`, and a whole number.
fn is_exponent(text: &[u8]) -> bool
    ensures { result ≡ is_exponent text.now }
{
    match text {
        [] => true,
        [b'e' | b'E', exponent @ ..] => are_digits(unsigned(exponent)),
        _ => false,
    }
}

/// The digits behind a point, if one is here, and what follows these.
fn decimals(text: &[u8]) -> (&[u8], &[u8])
    ensures decimals { result.0.now ≡ decimals_of text.now }
    ensures after { result.1.now ≡ after_decimals text.now }
{
    match text {
        [b'.', digits @ ..] => digits.split_at(digits_len(digits)),
        _ => text.split_at(0),
    }
}

/// Digits with at most one point and at least one digit, and an exponent or none.
fn is_unsigned_number(text: &[u8]) -> bool
    ensures { result ≡ is_unsigned_number text.now }
{
    let (whole, rest) = text.split_at(digits_len(text));
    let (decimals, rest) = decimals(rest);
    (!whole.is_empty() | !decimals.is_empty()) && is_exponent(rest)
}

/// A letter or a digit.
fn is_radix_digit(b: u8) -> bool
    ensures { result ≡ is_radix_digit b }
{
    b.is_ascii_alphanumeric()
}

fn has_radix_digits_alone(text: &[u8]) -> bool
    ensures { result ≡ list_all is_radix_digit text.now }
{
    text.iter().all(|b| is_radix_digit(*b))
}

/// One letter or digit or more.
fn are_radix_digits(text: &[u8]) -> bool
    ensures { result ≡ are_radix_digits text.now }
{
    !text.is_empty() && has_radix_digits_alone(text)
}

/// `#`, and letters and digits.
fn is_after_base(text: &[u8]) -> bool
    ensures { result ≡ is_after_base text.now }
{
    match text {
        [b'#', digits @ ..] => are_radix_digits(digits),
        _ => false,
    }
}

/// Digits, `#`, and letters and digits.
fn is_radix_number(text: &[u8]) -> bool
    ensures { result ≡ is_radix_number text.now }
{
    let (base, rest) = text.split_at(digits_len(text));
    !base.is_empty() && is_after_base(rest)
}

/// Whether PostScript takes a word for a number: an integer, a real, or one with a base, of any size.
pub fn is_number(word: &[u8]) -> bool
    ensures { result ≡ is_number word.now }
{
    is_unsigned_number(unsigned(word)) || is_radix_number(word)
}
