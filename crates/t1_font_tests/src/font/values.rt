//! Plain values: Type 1 Font Format 1.1, chapters 2 and 5.

use super::{Fact, Part, Value, holds_with};
use std::alloc::Global;
use std::process::Abort;
use std::test::Fail;
use t1_font::Key;

/// The value of `/BlueValues`.
const BLUE_VALUES: Part = Part::Private("/BlueValues ", " def /CharStrings 0 dict dup begin end");

/// Each text, as the value of `/BlueValues`, has the value beside it.
fn assert_values(rt: &impl Abort, alloc: Global, cases: &[(&str, Value)]) -> Result<(), Fail> {
    for (text, value) in cases {
        let fact = Fact::Value(Key::BlueValues, *value);
        assert!(rt; holds_with(alloc, BLUE_VALUES, text, fact)?, "{text}");
    }
    Ok(())
}

/// Numbers and what is no number, and the value of each.
const NUMBERS: &[(&str, Value)] = &[
    ("5839", Value::Number(5_839_000_000_000)),
    ("5839.%c\n", Value::Number(5_839_000_000_000)),
    ("1.", Value::Number(1_000_000_000)),
    (".5", Value::Number(500_000_000)),
    ("+.5", Value::Number(500_000_000)),
    ("-5.", Value::Number(-5_000_000_000)),
    ("0.039625", Value::Number(39_625_000)),
    ("-0.0000000019", Value::Number(-1)),
    ("-1.0000000009", Value::Number(-1_000_000_000)),
    ("-0", Value::Number(0)),
    ("00000000001", Value::Number(1_000_000_000)),
    ("000000000000.5", Value::Number(500_000_000)),
    ("999999999", Value::Number(999_999_999_000_000_000)),
    ("036#Z", Value::Number(35_000_000_000)),
    ("016#FF", Value::Number(255_000_000_000)),
    ("1234567890", Value::Other),
    ("0001234567890.5", Value::Other),
    ("-16#FF", Value::Other),
    ("+16#FF", Value::Other),
    ("36#ZZZZZZ", Value::Other),
    ("1#0", Value::Other),
    ("1e3", Value::Other),
    ("1.2.3", Value::Other),
    (".", Value::Other),
    ("-", Value::Other),
    ("+.", Value::Other),
];

/// Numbers are cut toward zero at nine decimals; a base is written in decimal, without a sign.
#[test]
fn numbers_are_read(rt: HostRuntime) -> Result<(), Fail> {
    assert_values(&rt, rt.alloc(), NUMBERS)
}

const TWO: Value = Value::Numbers(2, &[16_000_000_000, 16_000_000_000]);

const NONE: Value = Value::Numbers(0, &[]);

/// The numbers 1 to 16, as they are kept of a longer list.
const SIXTEEN: &[i64] = &[
    1_000_000_000,
    2_000_000_000,
    3_000_000_000,
    4_000_000_000,
    5_000_000_000,
    6_000_000_000,
    7_000_000_000,
    8_000_000_000,
    9_000_000_000,
    10_000_000_000,
    11_000_000_000,
    12_000_000_000,
    13_000_000_000,
    14_000_000_000,
    15_000_000_000,
    16_000_000_000,
];

/// Lists and what is no list, and the value of each.
const LISTS: &[(&str, Value)] = &[
    ("{16 16}", TWO),
    ("[16 16]", TWO),
    ("[16. 16#10]", TWO),
    ("[ 16%]\n16 ]", TWO),
    ("{16 % }\r 16}", TWO),
    ("[]", NONE),
    ("{}", NONE),
    ("[ %x\n]", NONE),
    (
        "[1 2 3 4 5 6 7 8 9 10 11 12 13 14 15 16]",
        Value::Numbers(16, SIXTEEN),
    ),
    (
        "[1 2 3 4 5 6 7 8 9 10 11 12 13 14 15 16 17]",
        Value::Numbers(17, SIXTEEN),
    ),
    ("[1 2 3 4 5 6 7 8 9 10 11 12 13 14 15 16 x]", Value::Other),
    ("[30} ]", Value::Other),
    ("{30 ] }", Value::Other),
    ("[{]}]", Value::Other),
    ("{[30]}", Value::Other),
    ("[[30]]", Value::Other),
    ("[30 /x]", Value::Other),
    ("[30 (x)]", Value::Other),
    ("(30)", Value::Other),
    ("<30>", Value::Other),
    ("/x", Value::Other),
    ("x", Value::Other),
    ("<<", Value::Other),
];

/// A list holds numbers alone, in an array or a procedure; comments are blanks in it.
#[test]
fn lists_are_read(rt: HostRuntime) -> Result<(), Fail> {
    assert_values(&rt, rt.alloc(), LISTS)
}

/// Nested tokens, and the value of each.
const NESTED: &[(&str, Value)] = &[
    (
        "[[[[[[[[[[[[[[[[[[[[[[[[[[[[[[[[]]]]]]]]]]]]]]]]]]]]]]]]]]]]]]]]",
        Value::Other,
    ),
    ("{[[[[[[[[[[[[[[[[[[[[[[[[[[[[[[[[[[[[[[[[}", Value::Other),
    (
        "((((((((((((((((((((((((((((((((((((((((x))))))))))))))))))))))))))))))))))))))))",
        Value::Other,
    ),
    ("(a\\)b)", Value::Other),
];

/// Thirty-two are nested and read; brackets in a procedure aren't counted, nor parentheses.
#[test]
fn nested_tokens_are_values(rt: HostRuntime) -> Result<(), Fail> {
    assert_values(&rt, rt.alloc(), NESTED)
}
