//! Texts of reasons of the rules that the third edition adds.

use super::rows::{Row, assert_texts};
use std::test::Fail;
use t1_char::{CharToken, Command};
use t1_reasons::{Found, Reason, SetStem};
use t1_rules::{Rule, Stem};

/// One, of a number of a dictionary.
const ONE: i64 = 1_000_000_000;

/// One, of a number of a charstring, in 32 bits and in 64.
const UNIT: i32 = 65_536;

const LONG: i64 = 65_536;

const ENTRIES: &[Row] = &[
    (
        Rule::F15,
        Reason::Entry {
            found: Found::Absent,
        },
        "FontMatrix is not there",
    ),
    (
        Rule::F15,
        Reason::Entry {
            found: Found::One { number: ONE },
        },
        "FontMatrix is 1; 6 numbers are needed",
    ),
    (
        Rule::F15,
        Reason::Entry {
            found: Found::Several { count: 5 },
        },
        "FontMatrix has 5 numbers; 6 are needed",
    ),
    (
        Rule::F15,
        Reason::Entry {
            found: Found::Other,
        },
        "FontMatrix is no list of numbers",
    ),
    (
        Rule::F16,
        Reason::Entry {
            found: Found::Absent,
        },
        "FontBBox is not there",
    ),
    (
        Rule::F16,
        Reason::Entry {
            found: Found::One { number: 0 },
        },
        "FontBBox is 0; 4 numbers are needed",
    ),
    (
        Rule::F16,
        Reason::Entry {
            found: Found::Several { count: 1 },
        },
        "FontBBox has 1 number; 4 are needed",
    ),
    (
        Rule::F16,
        Reason::Entry {
            found: Found::Other,
        },
        "FontBBox is no list of numbers",
    ),
    (
        Rule::F18,
        Reason::Entry {
            found: Found::Several { count: 0 },
        },
        "XUID has no numbers",
    ),
    (
        Rule::F18,
        Reason::Entry {
            found: Found::One { number: 1000 * ONE },
        },
        "XUID is 1000; a list of numbers is needed",
    ),
    (
        Rule::F18,
        Reason::Entry {
            found: Found::Other,
        },
        "XUID is no list of numbers",
    ),
    (
        Rule::F20,
        Reason::Entry {
            found: Found::One { number: 2 * ONE },
        },
        "LanguageGroup is 2; 0 or 1 is needed",
    ),
    (
        Rule::F20,
        Reason::Entry {
            found: Found::Several { count: 2 },
        },
        "LanguageGroup is no number",
    ),
    (
        Rule::F20,
        Reason::Entry {
            found: Found::Other,
        },
        "LanguageGroup is no number",
    ),
    (
        Rule::Z12,
        Reason::Entry {
            found: Found::Absent,
        },
        "BlueValues is not there; [] would do",
    ),
    (
        Rule::Z17,
        Reason::Entry {
            found: Found::One {
                number: 600_000_000,
            },
        },
        "BlueScale is 0.6; more than 0 and at most 0.5 is needed",
    ),
    (
        Rule::Z18,
        Reason::Entry {
            found: Found::One { number: -ONE },
        },
        "BlueShift is -1; a whole number from 0 on is needed",
    ),
    (
        Rule::Z19,
        Reason::Entry {
            found: Found::One { number: 11 * ONE },
        },
        "BlueFuzz is 11; a whole number from 0 to 10 is needed",
    ),
];

const NUMBERS: &[Row] = &[
    (
        Rule::F17,
        Reason::Corners {
            first: 10 * ONE,
            last: 5 * ONE,
        },
        "10 is above 5",
    ),
    (
        Rule::F19,
        Reason::Number {
            number: 2_500_000_000,
        },
        "2.5; a whole number from 0 to 16777215 is needed",
    ),
    (Rule::F21, Reason::LastToken { token: None }, "it is empty"),
    (
        Rule::F21,
        Reason::LastToken {
            token: Some(CharToken::Command(Command::Endchar)),
        },
        "it ends with endchar",
    ),
    (
        Rule::F21,
        Reason::LastToken {
            token: Some(CharToken::Number(5)),
        },
        "it ends with the number 5",
    ),
    (
        Rule::F21,
        Reason::LastToken {
            token: Some(CharToken::Unknown12(32)),
        },
        "it ends with bytes 12 32",
    ),
    (
        Rule::F21,
        Reason::LastToken {
            token: Some(CharToken::Cut),
        },
        "it ends with a token that breaks off",
    ),
    (
        Rule::F21,
        Reason::LastToken {
            token: Some(CharToken::Short),
        },
        "it is shorter than lenIV",
    ),
    (
        Rule::Z13,
        Reason::Number { number: 0 },
        "the width is 0; more than 0 is needed",
    ),
    (
        Rule::Z14,
        Reason::Number {
            number: -10_500_000_000,
        },
        "-10.5 is not whole",
    ),
    (
        Rule::Z15,
        Reason::Following {
            before: 20 * ONE,
            number: 20 * ONE,
        },
        "20 comes twice",
    ),
    (
        Rule::Z10,
        Reason::Following {
            before: 20 * ONE,
            number: 19 * ONE,
        },
        "19 comes after 20",
    ),
    (
        Rule::Z16,
        Reason::Number { number: 31 * ONE },
        "the standard width is 31; [31] would do",
    ),
    (
        Rule::Z16,
        Reason::Number { number: 1 },
        "the standard width is 0.000000001; [0.000000001] would do",
    ),
    // It is no width, so it doesn't do.
    (
        Rule::Z16,
        Reason::Number { number: 0 },
        "the standard width is 0",
    ),
    (
        Rule::Z16,
        Reason::Number { number: -ONE },
        "the standard width is -1",
    ),
];

const STEMS: &[Row] = &[
    (
        Rule::H05,
        Reason::Stem {
            stem: Stem {
                position: 0,
                width: 21_845,
            },
        },
        "the stem from 0 to 0.3333282470703125 is 0.3333282470703125 wide",
    ),
    // A negative width: the position is the upper edge.
    (
        Rule::H05,
        Reason::Stem {
            stem: Stem {
                position: 100 * UNIT,
                width: -16_384,
            },
        },
        "the stem from 99.75 to 100 is 0.25 wide",
    ),
    (
        Rule::H03,
        Reason::Stem {
            stem: Stem {
                position: 100 * UNIT,
                width: 0,
            },
        },
        "the stem is at 100",
    ),
    (
        Rule::H06,
        Reason::Stems {
            own: Stem {
                position: 100 * UNIT,
                width: 20 * UNIT,
            },
            other: SetStem {
                stem: Stem {
                    position: 0,
                    width: 20 * UNIT,
                },
                step: 6,
            },
        },
        "100 to 120 beside 0 to 20, set at step 6",
    ),
    (
        Rule::H07,
        Reason::Stems {
            own: Stem {
                position: 60 * UNIT,
                width: 20 * UNIT,
            },
            other: SetStem {
                stem: Stem {
                    position: 50 * UNIT,
                    width: 20 * UNIT,
                },
                step: 10,
            },
        },
        "60 to 80 in place of 50 to 70, set at step 10",
    ),
    // The same two stems overlap.
    (
        Rule::H02,
        Reason::Stems {
            own: Stem {
                position: 60 * UNIT,
                width: 20 * UNIT,
            },
            other: SetStem {
                stem: Stem {
                    position: 50 * UNIT,
                    width: 20 * UNIT,
                },
                step: 10,
            },
        },
        "60 to 80 and 50 to 70, set at step 10, share 10",
    ),
];

const CALLS: &[Row] = &[
    (
        Rule::O05,
        Reason::Since { step: Some(5) },
        "step 5 comes before it",
    ),
    (
        Rule::O05,
        Reason::Since { step: None },
        "no hsbw or sbw so far",
    ),
    (
        Rule::O06,
        Reason::Since { step: Some(7) },
        "step 7 ended counter control",
    ),
    (
        Rule::O07,
        Reason::Arguments {
            count: LONG,
            there: 2,
        },
        "the count is 1, 2 are there",
    ),
    (
        Rule::O08,
        Reason::Since { step: Some(9) },
        "OtherSubr 12 at step 9, not ended by a 13",
    ),
    (
        Rule::W03,
        Reason::Since { step: Some(4) },
        "step 4 calls an OtherSubr too",
    ),
    (
        Rule::W03,
        Reason::Since { step: None },
        "no hsbw or sbw so far",
    ),
];

#[test]
fn texts_of_the_third_edition(rt: HostRuntime) -> Result<(), Fail> {
    for rows in [ENTRIES, NUMBERS, STEMS, CALLS] {
        assert_texts(&rt, rt.alloc(), rows)?;
    }
    Ok(())
}
