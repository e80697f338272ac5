//! Texts of reasons that steps have. Numbers of charstrings are in units of 1/65536.

use super::rows::{Row, assert_texts};
use std::test::Fail;
use t1_char::{CharToken, Command};
use t1_reasons::{Reason, SetStem};
use t1_rules::{Point, Rule, Stem};

/// One unit, in 32 bits and in 64.
const UNIT: i32 = 65_536;

const LONG: i64 = 65_536;

const ROWS: &[Row] = &[
    (Rule::C02, Reason::Nothing, ""),
    (
        Rule::C01,
        Reason::Length {
            bytes: 3,
            len_iv: 4,
        },
        "3 bytes, lenIV is 4",
    ),
    (
        Rule::C01,
        Reason::Length {
            bytes: 1,
            len_iv: 64,
        },
        "1 byte, lenIV is 64",
    ),
    (
        Rule::C01,
        Reason::Length {
            bytes: 0,
            len_iv: 4,
        },
        "no bytes, lenIV is 4",
    ),
    (
        Rule::C04,
        Reason::Count {
            command: Command::Rlineto,
            taken: 2,
            there: 1,
        },
        "rlineto takes 2 numbers, 1 is on the stack",
    ),
    (
        Rule::C04,
        Reason::Count {
            command: Command::Callothersubr,
            taken: 2,
            there: 0,
        },
        "callothersubr takes 2 numbers or more, none is on the stack",
    ),
    (
        Rule::C05,
        Reason::Count {
            command: Command::Hmoveto,
            taken: 1,
            there: 2,
        },
        "hmoveto takes 1 number, 2 are on the stack",
    ),
    (
        Rule::C05,
        Reason::Count {
            command: Command::Endchar,
            taken: 0,
            there: 3,
        },
        "endchar takes no numbers, 3 are on the stack",
    ),
    (
        Rule::C06,
        Reason::Full {
            token: CharToken::Number(20),
            there: 24,
        },
        "the number 20 after 24 numbers, 24 at most",
    ),
    (
        Rule::C06,
        Reason::Full {
            token: CharToken::Command(Command::Pop),
            there: 24,
        },
        "pop after 24 numbers, 24 at most",
    ),
    (Rule::S04, Reason::Ending { subr: 812 }, "Subr 812 ends"),
    (
        Rule::GE02,
        Reason::Behind {
            next: CharToken::Command(Command::Return),
        },
        "return comes next",
    ),
    (
        Rule::GE02,
        Reason::Behind {
            next: CharToken::Number(-5),
        },
        "the number -5 comes next",
    ),
    (
        Rule::GE02,
        Reason::Behind {
            next: CharToken::Unknown12(99),
        },
        "bytes 12 99 come next",
    ),
    (
        Rule::X02,
        Reason::Othersubr {
            number: 2 * LONG,
            count: 0,
        },
        "OtherSubr 2 with no arguments, a point of a flex",
    ),
    (
        Rule::X02,
        Reason::Othersubr {
            number: 0,
            count: 3 * LONG,
        },
        "OtherSubr 0 with 3 arguments, the end of a flex",
    ),
    (
        Rule::X04,
        Reason::Pairs {
            moves: 6,
            points: 7,
            ends: true,
        },
        "6 moves and 7 points; 7 of each are needed",
    ),
    (
        Rule::X04,
        Reason::Pairs {
            moves: 1,
            points: 1,
            ends: false,
        },
        "1 move and 1 point before this point; it needs a move of its own",
    ),
    (
        Rule::X04,
        Reason::Pairs {
            moves: 3,
            points: 1,
            ends: false,
        },
        "3 moves and 1 point before this point; each move needs a point of its own",
    ),
    (
        Rule::X04,
        Reason::Pairs {
            moves: 0,
            points: 0,
            ends: true,
        },
        "no moves and no points; 7 of each are needed",
    ),
    (
        Rule::C07,
        Reason::Argument {
            place: 3,
            number: 40_000 * LONG,
        },
        "argument 3 is 40000, 32000 at most",
    ),
    (
        Rule::C07,
        Reason::Argument {
            place: 1,
            number: -32_000 * LONG - 32_768,
        },
        "argument 1 is -32000.5, -32000 at least",
    ),
    (
        Rule::C08,
        Reason::Quotient {
            dividend: 64_000 * LONG,
            divisor: LONG,
        },
        "64000 divided by 1",
    ),
    (
        Rule::C09,
        Reason::Quotient {
            dividend: 5 * LONG,
            divisor: 0,
        },
        "5 divided by 0",
    ),
    (
        Rule::S01,
        Reason::Subr {
            number: 17 * LONG,
            found: false,
        },
        "there is no Subr 17",
    ),
    (
        Rule::S01,
        Reason::Subr {
            number: -32_768,
            found: false,
        },
        "there is no Subr -0.5",
    ),
    (
        Rule::S02,
        Reason::Depth { calls: 10 },
        "10 Subrs are being executed",
    ),
    (
        Rule::S03,
        Reason::Depth { calls: 0 },
        "no Subr is being executed",
    ),
    (
        Rule::C03,
        Reason::Token {
            token: CharToken::Unknown(15),
        },
        "byte 15",
    ),
    (
        Rule::C03,
        Reason::Token {
            token: CharToken::Unknown12(32),
        },
        "bytes 12 32",
    ),
    (
        Rule::W01,
        Reason::Token {
            token: CharToken::Command(Command::Rmoveto),
        },
        "rmoveto is there",
    ),
    (
        Rule::R01,
        Reason::Token {
            token: CharToken::Number(-5),
        },
        "the number -5 is there",
    ),
    (
        Rule::R01,
        Reason::Token {
            token: CharToken::End,
        },
        "the end of the charstring is there",
    ),
    (
        Rule::R02,
        Reason::Token {
            token: CharToken::Unknown12(99),
        },
        "bytes 12 99 are there",
    ),
    (
        Rule::W02,
        Reason::Since { step: Some(3) },
        "step 3 set the width",
    ),
    (
        Rule::W02,
        Reason::Since { step: None },
        "another command came first",
    ),
    (
        Rule::P01,
        Reason::Since { step: Some(40) },
        "no move since step 40",
    ),
    (Rule::P01, Reason::Since { step: None }, "no move so far"),
    (
        Rule::P03,
        Reason::Since { step: Some(40) },
        "nothing is drawn since step 40",
    ),
    (
        Rule::P03,
        Reason::Since { step: None },
        "nothing is drawn so far",
    ),
    (
        Rule::H01,
        Reason::Since { step: Some(14) },
        "drawn at step 14",
    ),
    (
        Rule::X01,
        Reason::Since { step: Some(9) },
        "the flex began at step 9",
    ),
    (
        Rule::X03,
        Reason::Since { step: Some(9) },
        "the flex began at step 9",
    ),
    (
        Rule::K06,
        Reason::Since { step: Some(14) },
        "an outline or a stem at step 14",
    ),
    (
        Rule::P02,
        Reason::Open {
            start: Point {
                x: 352 * LONG,
                y: 246 * LONG,
            },
            pen: Point {
                x: 353 * LONG,
                y: 251 * LONG,
            },
        },
        "from 352 246 to 353 251",
    ),
    (
        Rule::P02,
        Reason::Open {
            start: Point {
                x: 352 * LONG,
                y: 0,
            },
            pen: Point {
                x: 352 * LONG,
                y: 0,
            },
        },
        "ends where it began, without closepath",
    ),
    (
        Rule::H02,
        Reason::Stems {
            own: Stem {
                position: 132 * UNIT,
                width: 67 * UNIT,
            },
            other: SetStem {
                stem: Stem {
                    position: 175 * UNIT,
                    width: -67 * UNIT,
                },
                step: 21,
            },
        },
        "132 to 199 and 108 to 175, set at step 21, share 43",
    ),
    (
        Rule::H02,
        Reason::Stems {
            own: Stem {
                position: 0,
                width: 20 * UNIT,
            },
            other: SetStem {
                stem: Stem {
                    position: -32_768,
                    width: UNIT,
                },
                step: 7,
            },
        },
        "0 to 20 and -0.5 to 0.5, set at step 7, share 0.5",
    ),
    (
        Rule::H02,
        Reason::Stems {
            own: Stem {
                position: 235 * UNIT,
                width: 8 * UNIT,
            },
            other: SetStem {
                stem: Stem {
                    position: 243 * UNIT,
                    width: -8 * UNIT,
                },
                step: 12,
            },
        },
        "235 to 243, the same stem is set at step 12",
    ),
    (
        Rule::H03,
        Reason::Stem {
            stem: Stem {
                position: -15 * UNIT,
                width: 0,
            },
        },
        "the stem is at -15",
    ),
    (
        Rule::H04,
        Reason::Triple {
            one: Stem {
                position: -69 * UNIT,
                width: 63 * UNIT,
            },
            two: Stem {
                position: 284 * UNIT,
                width: 126 * UNIT,
            },
            three: Stem {
                position: 701 * UNIT,
                width: 63 * UNIT,
            },
        },
        "widths 63 126 63, middles -37.5 347 732.5, half a unit off; middle 347.5 would do",
    ),
    (
        Rule::H04,
        Reason::Triple {
            one: Stem {
                position: 0,
                width: 10 * UNIT,
            },
            two: Stem {
                position: 20 * UNIT,
                width: 10 * UNIT,
            },
            three: Stem {
                position: 40 * UNIT,
                width: 14 * UNIT,
            },
        },
        "widths 10 10 14, middles 5 25 47",
    ),
    (
        Rule::X05,
        Reason::Miss {
            named: Point {
                x: 17 * LONG,
                y: 752 * LONG,
            },
            pen: Point {
                x: 16 * LONG,
                y: 752 * LONG,
            },
        },
        "the pen is at 16 752, the end names 17 752",
    ),
    (
        Rule::O01,
        Reason::Othersubr {
            number: 4 * LONG,
            count: LONG,
        },
        "OtherSubr 4 with 1 argument",
    ),
    (
        Rule::O03,
        Reason::Othersubr {
            number: 0,
            count: 2 * LONG,
        },
        "OtherSubr 0 with 2 arguments; it takes 3",
    ),
    (
        Rule::O03,
        Reason::Othersubr {
            number: 3 * LONG,
            count: 0,
        },
        "OtherSubr 3 with no arguments; it takes 1",
    ),
    (
        Rule::O03,
        Reason::Othersubr {
            number: LONG,
            count: 3 * LONG,
        },
        "OtherSubr 1 with 3 arguments; it takes none",
    ),
    (
        Rule::O02,
        Reason::Arguments {
            count: 5 * LONG,
            there: 3,
        },
        "the count is 5, 3 are there",
    ),
    (
        Rule::O02,
        Reason::Arguments {
            count: 32_768,
            there: 1,
        },
        "the count is 0.5, 1 is there",
    ),
    (
        Rule::K01,
        Reason::Codes {
            base: 300 * UNIT,
            accent: 194 * UNIT,
        },
        "the base's code is 300",
    ),
    (
        Rule::K01,
        Reason::Codes {
            base: 65 * UNIT,
            accent: 32_768,
        },
        "the accent's code is 0.5",
    ),
    (
        Rule::K01,
        Reason::Codes {
            base: -UNIT,
            accent: 256 * UNIT,
        },
        "the base's code is -1 and the accent's code is 256",
    ),
    (
        Rule::K02,
        Reason::Codes {
            base: 65 * UNIT,
            accent: 160 * UNIT,
        },
        "the accent's code 160 has no name",
    ),
    (
        Rule::K03,
        Reason::Codes {
            base: 65 * UNIT,
            accent: 194 * UNIT,
        },
        "the accent's code 194 is acute, which is no glyph",
    ),
    (
        Rule::K04,
        Reason::Codes {
            base: 65 * UNIT,
            accent: 194 * UNIT,
        },
        "the base's code 65 is A and the accent's code 194 is acute",
    ),
    (
        Rule::K05,
        Reason::Sidebearings {
            told: 40 * UNIT,
            own: 38 * UNIT + 32_768,
        },
        "seac says 40, the accent's sidebearing is 38.5",
    ),
    (
        Rule::L01,
        Reason::Limit { steps: 100_000 },
        "more than 100000 steps",
    ),
];

#[test]
fn steps_have_texts(rt: HostRuntime) -> Result<(), Fail> {
    assert_texts(&rt, rt.alloc(), ROWS)
}
