//! Texts and their tokens, written by hand: Type 1 Font Format 1.1, chapters 2 and 10.

use std::test::Fail;
use t1_scan::{Kind, ScanError, Scanner};

/// Whether the next token has this kind and these bytes.
fn has_next(scanner: &mut Scanner<'_>, kind: Kind, bytes: &str) -> bool {
    match scanner.next() {
        Ok(Some(token)) => token.kind == kind && token.text == bytes.as_bytes(),
        _ => false,
    }
}

/// Whether a text is read as just these tokens.
fn is_read_as(text: &[u8], expected: &[(Kind, &str)]) -> bool {
    let mut scanner = Scanner::new(text);
    for (kind, bytes) in expected {
        if !has_next(&mut scanner, *kind, bytes) {
            return false;
        }
    }
    matches!(scanner.next(), Ok(None)) && scanner.place() == text.len()
}

/// Whether a text is not read at all, now and later, and the scanner stays before it.
fn is_unclosed(text: &[u8]) -> bool {
    let mut scanner = Scanner::new(text);
    matches!(scanner.next(), Err(ScanError::Unclosed))
        && matches!(scanner.next(), Err(ScanError::Unclosed))
        && scanner.raw(0).is_none()
        && scanner.place() == 0
}

/// Texts, and the tokens of each.
const TOKENS: &[(&[u8], &[(Kind, &str)])] = &[
    (b"{[}]", &[(Kind::Proc, "{[}"), (Kind::Word, "]")]),
    (b"[}]", &[(Kind::Array, "[}]")]),
    (b"[{]}]", &[(Kind::Array, "[{]}]")]),
    (
        b"(a\\)b)<41><<//x",
        &[
            (Kind::Text, "(a\\)b)"),
            (Kind::Text, "<41>"),
            (Kind::Word, "<<"),
            (Kind::Name, "/"),
            (Kind::Name, "/x"),
        ],
    ),
    (
        b"<<<41>>>>)>}",
        &[
            (Kind::Word, "<<"),
            (Kind::Text, "<41>"),
            (Kind::Word, ">>"),
            (Kind::Word, ">"),
            (Kind::Word, ")"),
            (Kind::Word, ">"),
            (Kind::Word, "}"),
        ],
    ),
    (b"%x", &[]),
    (
        b"5839.%c\rdef%\ndup{%}\n}((()))",
        &[
            (Kind::Number(5_839_000_000_000), "5839."),
            (Kind::Word, "def"),
            (Kind::Word, "dup"),
            (Kind::Proc, "{%}\n}"),
            (Kind::Text, "((()))"),
        ],
    ),
];

#[test]
fn tokens(rt: HostRuntime) {
    for (text, expected) in TOKENS {
        assert!(rt; is_read_as(text, expected), "{text:?}");
    }
}

/// Texts that are one token each, and its kind.
const SINGLE: &[(&str, Kind)] = &[
    ("16#FF", Kind::Number(255_000_000_000)),
    ("-.5", Kind::Number(-500_000_000)),
    ("0001", Kind::Number(1_000_000_000)),
    ("36#ZZ", Kind::Number(1_295_000_000_000)),
    ("36#zz", Kind::Number(1_295_000_000_000)),
    ("036#Z", Kind::Number(35_000_000_000)),
    ("016#FF", Kind::Number(255_000_000_000)),
    ("-0.0000000019", Kind::Number(-1)),
    ("-1.0000000009", Kind::Number(-1_000_000_000)),
    ("-0.0000000001", Kind::Number(0)),
    ("-0", Kind::Number(0)),
    ("1.", Kind::Number(1_000_000_000)),
    ("+.5", Kind::Number(500_000_000)),
    ("-5.", Kind::Number(-5_000_000_000)),
    ("00000000001", Kind::Number(1_000_000_000)),
    ("000000000000.5", Kind::Number(500_000_000)),
    ("256.0000000001", Kind::Number(256_000_000_000)),
    ("999999999.999999999", Kind::Number(999_999_999_999_999_999)),
    ("10#999999999", Kind::Number(999_999_999_000_000_000)),
    ("1e3", Kind::Word),
    ("1234567890", Kind::Word),
    ("0001234567890.5", Kind::Word),
    ("1#0", Kind::Word),
    ("2#2", Kind::Word),
    ("37#0", Kind::Word),
    ("16#", Kind::Word),
    ("10#1000000000", Kind::Word),
    ("-16#FF", Kind::Word),
    ("+16#FF", Kind::Word),
    (".", Kind::Word),
    ("+.", Kind::Word),
    ("-", Kind::Word),
    ("+", Kind::Word),
    ("1.2.3", Kind::Word),
    // Thirty-two nested arrays, and brackets in a procedure, which aren't counted.
    (
        "[[[[[[[[[[[[[[[[[[[[[[[[[[[[[[[[]]]]]]]]]]]]]]]]]]]]]]]]]]]]]]]]",
        Kind::Array,
    ),
    ("{[[[[[[[[[[[[[[[[[[[[[[[[[[[[[[[[[[[[[[[[}", Kind::Proc),
];

#[test]
fn single_tokens(rt: HostRuntime) {
    for (text, kind) in SINGLE {
        assert!(rt; is_read_as(text.as_bytes(), &[(*kind, *text)]), "{text}");
    }
}

/// Texts that don't close, and one that nests 33 deep.
const UNCLOSED: &[&str] = &[
    "(a",
    "(a\\",
    "(a\\)",
    "<41",
    "[",
    "[1 {",
    "{(}",
    "{%}",
    "[[[[[[[[[[[[[[[[[[[[[[[[[[[[[[[[[]]]]]]]]]]]]]]]]]]]]]]]]]]]]]]]]]",
];

#[test]
fn unclosed_tokens(rt: HostRuntime) {
    for text in UNCLOSED {
        assert!(rt; is_unclosed(text.as_bytes()), "{text}");
    }
}

/// How many raw bytes are requested, what is returned, and the place after them.
type Raw = (usize, Option<&'static [u8]>, usize);

/// What is requested after the first token of `RD ab(` and a zero byte, one after another.
const RAW: &[&[Raw]] = &[
    &[(5, None, 2), (4, Some(b"ab(\x00"), 7), (0, None, 7)],
    &[(0, Some(b""), 3)],
];

/// Whether the bytes after the first token of that text are returned as these calls say.
fn returns_raw(calls: &[Raw]) -> bool {
    let mut scanner = Scanner::new(b"RD ab(\x00");
    if scanner.next().is_err() {
        return false;
    }
    for (count, bytes, place) in calls {
        if scanner.raw(*count) != *bytes || scanner.place() != *place {
            return false;
        }
    }
    true
}

#[test]
fn raw_bytes(rt: HostRuntime) {
    for calls in RAW {
        assert!(rt; returns_raw(calls), "{calls:?}");
    }
}

/// Where each token of a text begins and ends.
const SPANS: &[(usize, usize)] = &[
    (1, 3),
    (4, 5),
    (6, 9),
    (9, 12),
    (12, 16),
    (17, 20),
    (23, 26),
    (26, 28),
];

/// The span of the next token, if there is one.
fn next_span(scanner: &mut Scanner<'_>) -> Option<(usize, usize)> {
    match scanner.next() {
        Ok(Some(token)) => Some((token.from, token.to)),
        _ => None,
    }
}

#[test]
fn spans(rt: HostRuntime) {
    let mut scanner = Scanner::new(b" /A 1 add(b)<63>\n{d}%[\r[2]>>");
    for (from, to) in SPANS {
        assert_eq!(rt; next_span(&mut scanner), Some((*from, *to)));
        assert_eq!(rt; scanner.place(), *to);
    }
}

#[test]
fn the_words_of_the_refusal(rt: HostRuntime) -> Result<(), Fail> {
    let words = format!(in rt.alloc(); "{}", ScanError::Unclosed)?;
    assert_eq!(rt; words.as_str(), "unclosed or too deeply nested token");
    Ok(())
}
