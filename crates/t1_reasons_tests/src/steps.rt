//! Reasons at the steps of a glyph: Type 1 Font Format 1.1, chapters 6 and 8.

use crate::places::step_reason;
use std::alloc::Global;
use std::test::Fail;
use t1_char::{CharToken, Command, Edition};
use t1_reasons::{Reason, SetStem};
use t1_rules::{Point, Rule, Stem};
use t1_samples::{Sample, assembled};

/// One, in units of 1/65536.
const ONE: i64 = 65_536;

/// The same for the numbers of stems and arguments, which have 32 bits.
const UNIT: i32 = 65_536;

/// Glyphs, each a name, a colon and words, with a bar before the next; the step and the rule that the last of them is asked for;
/// and the reason.
type Row = (&'static str, u32, Rule, Option<Reason>);

/// Subr 2 ends the glyph, and numbers come behind; Subr 3 ends without return; Subr 4 gives seven points of a flex, each after a move
/// by 1 to the right; Subr 5 returns; Subr 1 calls itself; Subr 0 sets nineteen stems of one place.
const SUBRS: [(u32, &str); 6] = [
    (
        0,
        "1000 10 hstem 1000 10 hstem 1000 10 hstem 1000 10 hstem 1000 10 hstem 1000 10 hstem 1000 10 hstem \
         1000 10 hstem 1000 10 hstem 1000 10 hstem 1000 10 hstem 1000 10 hstem 1000 10 hstem 1000 10 hstem \
         1000 10 hstem 1000 10 hstem 1000 10 hstem 1000 10 hstem 1000 10 hstem return",
    ),
    (1, "1 callsubr"),
    (2, "endchar 50 60 70"),
    (3, "1 hmoveto"),
    (
        4,
        "1 hmoveto 0 2 callothersubr 1 hmoveto 0 2 callothersubr 1 hmoveto 0 2 callothersubr \
         1 hmoveto 0 2 callothersubr 1 hmoveto 0 2 callothersubr 1 hmoveto 0 2 callothersubr \
         1 hmoveto 0 2 callothersubr return",
    ),
    (5, "return"),
];

/// Arguments, tokens and calls.
const TOKENS: &[Row] = &[
    (
        "T: 500 hsbw endchar",
        2,
        Rule::C04,
        Some(Reason::Count {
            command: Command::Hsbw,
            taken: 2,
            there: 1,
        }),
    ),
    ("T: 0 500 hsbw endchar", 3, Rule::C04, None),
    ("T: 0 500 hsbw endchar", 3, Rule::C05, None),
    (
        "T: 0 0 500 hsbw endchar",
        4,
        Rule::C05,
        Some(Reason::Count {
            command: Command::Hsbw,
            taken: 2,
            there: 3,
        }),
    ),
    (
        "T: 0 500 hsbw 1 -32001 rmoveto endchar",
        6,
        Rule::C07,
        Some(Reason::Argument {
            place: 2,
            number: -32001 * ONE,
        }),
    ),
    ("T: 0 500 hsbw 1 -32000 rmoveto endchar", 6, Rule::C07, None),
    (
        "T: 0 500 hsbw 32001 1 div hmoveto endchar",
        6,
        Rule::C08,
        Some(Reason::Quotient {
            dividend: 32001 * ONE,
            divisor: ONE,
        }),
    ),
    (
        "T: 0 500 hsbw 32001 2 div hmoveto endchar",
        6,
        Rule::C08,
        None,
    ),
    // Half a unit past 32000, and 32000.
    (
        "T: 0 500 hsbw 64001 2 div hmoveto endchar",
        6,
        Rule::C08,
        Some(Reason::Quotient {
            dividend: 64001 * ONE,
            divisor: 2 * ONE,
        }),
    ),
    (
        "T: 0 500 hsbw 64000 2 div hmoveto endchar",
        6,
        Rule::C08,
        None,
    ),
    ("T: 0 500 hsbw 5 1 div hmoveto endchar", 6, Rule::C09, None),
    // A number of five bytes that has one.
    ("T: 0 500 hsbw #255 #1", 4, Rule::C02, Some(Reason::Nothing)),
    ("T: 0 500 hsbw 1", 4, Rule::C02, None),
    ("T: 0 500 hsbw", 4, Rule::GE01, Some(Reason::Nothing)),
    ("T: 0 500 hsbw endchar", 4, Rule::GE01, None),
    // The eleventh call, and the tenth.
    (
        "T: 0 500 hsbw 1 callsubr endchar",
        25,
        Rule::S02,
        Some(Reason::Depth { calls: 10 }),
    ),
    ("T: 0 500 hsbw 1 callsubr endchar", 23, Rule::S02, None),
    ("T: 0 500 hsbw 5 callsubr endchar", 6, Rule::S03, None),
    ("T: 0 500 hsbw endchar", 3, Rule::C03, None),
    ("T: 0 500 hsbw endchar", 3, Rule::W01, None),
    ("T: 0 500 hsbw endchar", 3, Rule::W02, None),
    (
        "T: 0 500 hsbw 5 0 div hmoveto endchar",
        6,
        Rule::C09,
        Some(Reason::Quotient {
            dividend: 5 * ONE,
            divisor: 0,
        }),
    ),
    (
        "T: 0 500 hsbw 17 callsubr endchar",
        5,
        Rule::S01,
        Some(Reason::Subr {
            number: 17 * ONE,
            found: false,
        }),
    ),
    ("T: 0 500 hsbw 5 callsubr endchar", 5, Rule::S01, None),
    (
        "T: 0 500 hsbw return endchar",
        4,
        Rule::S03,
        Some(Reason::Depth { calls: 0 }),
    ),
    (
        "T: 0 500 hsbw #2 endchar",
        4,
        Rule::C03,
        Some(Reason::Token {
            token: CharToken::Unknown(2),
        }),
    ),
    (
        "T: 0 hmoveto closepath endchar",
        2,
        Rule::W01,
        Some(Reason::Token {
            token: CharToken::Command(Command::Hmoveto),
        }),
    ),
    (
        "T: 0 500 hsbw 0 500 hsbw endchar",
        6,
        Rule::W02,
        Some(Reason::Since { step: Some(3) }),
    ),
    // The stack has room for 24 numbers.
    (
        "T: 0 500 hsbw 1 1 1 1 1 1 1 1 1 1 1 1 1 1 1 1 1 1 1 1 1 1 1 1 77 hmoveto endchar",
        28,
        Rule::C06,
        Some(Reason::Full {
            token: CharToken::Number(77),
            there: 24,
        }),
    ),
    (
        "T: 0 500 hsbw 1 1 1 1 1 1 1 1 1 1 1 1 1 1 1 1 1 1 1 1 1 1 1 77 hmoveto endchar",
        27,
        Rule::C06,
        None,
    ),
    // Subr 3 ends without return. Subr 5 returns.
    (
        "T: 0 500 hsbw 3 callsubr endchar",
        8,
        Rule::S04,
        Some(Reason::Ending { subr: 3 }),
    ),
    ("T: 0 500 hsbw 5 callsubr endchar", 6, Rule::S04, None),
    (
        "T: 0 500 hsbw endchar closepath",
        4,
        Rule::GE02,
        Some(Reason::Behind {
            next: CharToken::Command(Command::Closepath),
        }),
    ),
    // Subr 2 ends the glyph, and three numbers come behind.
    (
        "T: 0 500 hsbw 2 callsubr",
        6,
        Rule::GE02,
        Some(Reason::Behind {
            next: CharToken::Number(50),
        }),
    ),
    ("T: 0 500 hsbw endchar", 4, Rule::GE02, None),
    ("T: 0 500 hsbw endchar", 9, Rule::GE02, None),
    ("T: 0 500 hsbw endchar", 0, Rule::GE02, None),
];

/// Paths, stems and flex.
const OUTLINES: &[Row] = &[
    (
        "T: 0 500 hsbw 10 20 rmoveto 5 hlineto endchar",
        9,
        Rule::P02,
        Some(Reason::Open {
            start: Point {
                x: 10 * ONE,
                y: 20 * ONE,
            },
            pen: Point {
                x: 15 * ONE,
                y: 20 * ONE,
            },
        }),
    ),
    (
        "T: 0 500 hsbw 10 hmoveto 5 hlineto closepath closepath endchar",
        9,
        Rule::P03,
        Some(Reason::Since { step: Some(8) }),
    ),
    (
        "T: 0 500 hsbw closepath endchar",
        4,
        Rule::P03,
        Some(Reason::Since { step: None }),
    ),
    (
        "T: 0 500 hsbw 0 hmoveto 5 hlineto 1 2 hstem closepath endchar",
        10,
        Rule::H01,
        Some(Reason::Since { step: Some(7) }),
    ),
    (
        "T: 0 500 hsbw 10 20 hstem 29 20 hstem endchar",
        9,
        Rule::H02,
        Some(Reason::Stems {
            own: Stem {
                position: 29 * UNIT,
                width: 20 * UNIT,
            },
            other: SetStem {
                stem: Stem {
                    position: 10 * UNIT,
                    width: 20 * UNIT,
                },
                step: 6,
            },
        }),
    ),
    (
        "T: 0 500 hsbw 10 20 hstem 30 20 hstem endchar",
        9,
        Rule::H02,
        None,
    ),
    (
        "T: 0 500 hsbw 10 20 vstem 29 20 hstem endchar",
        9,
        Rule::H02,
        None,
    ),
    (
        "T: 0 500 hsbw 0 40 hstem 10 20 hstem 15 2 hstem endchar",
        12,
        Rule::H02,
        Some(Reason::Stems {
            own: Stem {
                position: 15 * UNIT,
                width: 2 * UNIT,
            },
            other: SetStem {
                stem: Stem {
                    position: 0 * UNIT,
                    width: 40 * UNIT,
                },
                step: 6,
            },
        }),
    ),
    (
        "T: 0 500 hsbw 10 20 hstem 5 1 3 callothersubr pop callsubr 29 20 hstem endchar",
        15,
        Rule::H02,
        None,
    ),
    (
        "T: 0 500 hsbw 0 -20 hstem -10 5 hstem endchar",
        9,
        Rule::H02,
        Some(Reason::Stems {
            own: Stem {
                position: -10 * UNIT,
                width: 5 * UNIT,
            },
            other: SetStem {
                stem: Stem {
                    position: 0 * UNIT,
                    width: -20 * UNIT,
                },
                step: 6,
            },
        }),
    ),
    (
        "T: 0 500 hsbw 7 0 hstem endchar",
        6,
        Rule::H03,
        Some(Reason::Stem {
            stem: Stem {
                position: 7 * UNIT,
                width: 0 * UNIT,
            },
        }),
    ),
    (
        "T: 0 500 hsbw 0 10 20 10 41 10 hstem3 endchar",
        10,
        Rule::H04,
        Some(Reason::Triple {
            one: Stem {
                position: 0 * UNIT,
                width: 10 * UNIT,
            },
            two: Stem {
                position: 20 * UNIT,
                width: 10 * UNIT,
            },
            three: Stem {
                position: 41 * UNIT,
                width: 10 * UNIT,
            },
        }),
    ),
    (
        "T: 0 500 hsbw 0 10 20 10 40 10 hstem3 endchar",
        10,
        Rule::H04,
        None,
    ),
    (
        "T: 0 500 hsbw 0 hmoveto 0 1 callothersubr 4 callsubr 50 8 0 3 0 callothersubr \
         pop pop setcurrentpoint closepath endchar",
        52,
        Rule::X05,
        Some(Reason::Miss {
            named: Point {
                x: 8 * ONE,
                y: 0 * ONE,
            },
            pen: Point {
                x: 7 * ONE,
                y: 0 * ONE,
            },
        }),
    ),
    (
        "T: 0 500 hsbw 0 hmoveto 0 1 callothersubr 4 callsubr 50 7 0 3 0 callothersubr \
         pop pop setcurrentpoint closepath endchar",
        52,
        Rule::X05,
        None,
    ),
    // A position and a width of half a unit: 10 to 30.5 and 30 to 50, then 30.5 to 50.5.
    (
        "T: 0 500 hsbw 10 41 2 div hstem 30 20 hstem endchar",
        11,
        Rule::H02,
        Some(Reason::Stems {
            own: Stem {
                position: 30 * UNIT,
                width: 20 * UNIT,
            },
            other: SetStem {
                stem: Stem {
                    position: 10 * UNIT,
                    width: 20 * UNIT + UNIT / 2,
                },
                step: 8,
            },
        }),
    ),
    (
        "T: 0 500 hsbw 10 41 2 div hstem 61 2 div 20 hstem endchar",
        13,
        Rule::H02,
        None,
    ),
    // A stem of width -19 reaches down to -19, and another one only to it.
    (
        "T: 0 500 hsbw 0 -19 hstem -20 2 hstem endchar",
        9,
        Rule::H02,
        Some(Reason::Stems {
            own: Stem {
                position: -20 * UNIT,
                width: 2 * UNIT,
            },
            other: SetStem {
                stem: Stem {
                    position: 0 * UNIT,
                    width: -19 * UNIT,
                },
                step: 6,
            },
        }),
    ),
    (
        "T: 0 500 hsbw 0 -19 hstem -21 2 hstem endchar",
        9,
        Rule::H02,
        None,
    ),
    // After 95 stems one more is compared, after 96 no more.
    (
        "T: 0 500 hsbw 0 callsubr 0 callsubr 0 callsubr 0 callsubr 0 callsubr 0 20 hstem 5 2 hstem endchar",
        309,
        Rule::H02,
        Some(Reason::Stems {
            own: Stem {
                position: 5 * UNIT,
                width: 2 * UNIT,
            },
            other: SetStem {
                stem: Stem {
                    position: 0 * UNIT,
                    width: 20 * UNIT,
                },
                step: 306,
            },
        }),
    ),
    (
        "T: 0 500 hsbw 0 callsubr 0 callsubr 0 callsubr 0 callsubr 0 callsubr 1000 10 hstem 0 20 hstem 5 2 hstem endchar",
        312,
        Rule::H02,
        None,
    ),
    ("T: 0 500 hsbw 7 1 hstem endchar", 6, Rule::H03, None),
    // The third stem is half a unit off.
    (
        "T: 0 500 hsbw 0 10 20 10 81 2 div 10 hstem3 endchar",
        12,
        Rule::H04,
        Some(Reason::Triple {
            one: Stem {
                position: 0 * UNIT,
                width: 10 * UNIT,
            },
            two: Stem {
                position: 20 * UNIT,
                width: 10 * UNIT,
            },
            three: Stem {
                position: 40 * UNIT + UNIT / 2,
                width: 10 * UNIT,
            },
        }),
    ),
    (
        "T: 0 500 hsbw 5 hlineto endchar",
        5,
        Rule::P01,
        Some(Reason::Since { step: None }),
    ),
    (
        "T: 0 500 hsbw 0 hmoveto 5 hlineto closepath 7 hlineto endchar",
        10,
        Rule::P01,
        Some(Reason::Since { step: Some(8) }),
    ),
    (
        "T: 0 500 hsbw 0 hmoveto 5 hlineto closepath endchar",
        7,
        Rule::P01,
        None,
    ),
    (
        "T: 0 500 hsbw 0 hmoveto 5 hlineto closepath endchar",
        9,
        Rule::P02,
        None,
    ),
    (
        "T: 0 500 hsbw 0 hmoveto 5 hlineto closepath endchar",
        8,
        Rule::P03,
        None,
    ),
    (
        "T: 0 500 hsbw 0 hmoveto 1 2 hstem 5 hlineto closepath endchar",
        8,
        Rule::H01,
        None,
    ),
    (
        "T: 0 500 hsbw 5 1 3 callothersubr endchar",
        8,
        Rule::R01,
        Some(Reason::Token {
            token: CharToken::Command(Command::Endchar),
        }),
    ),
    (
        "T: 0 500 hsbw 5 1 3 callothersubr pop hmoveto endchar",
        9,
        Rule::R02,
        Some(Reason::Token {
            token: CharToken::Command(Command::Hmoveto),
        }),
    ),
    (
        "T: 0 500 hsbw 5 1 3 callothersubr pop callsubr endchar",
        8,
        Rule::R01,
        None,
    ),
    (
        "T: 0 500 hsbw 5 1 3 callothersubr pop callsubr endchar",
        9,
        Rule::R02,
        None,
    ),
    (
        "T: 0 500 hsbw 0 1 callothersubr 1 2 hstem endchar",
        9,
        Rule::X03,
        Some(Reason::Since { step: Some(6) }),
    ),
    (
        "T: 0 500 hsbw 0 1 callothersubr 1 hmoveto endchar",
        8,
        Rule::X03,
        None,
    ),
    (
        "T: 0 500 hsbw 1 2 setcurrentpoint endchar",
        6,
        Rule::X06,
        Some(Reason::Nothing),
    ),
    // Three moves before the first point.
    (
        "T: 0 500 hsbw 0 1 callothersubr 1 hmoveto 1 hmoveto 1 hmoveto 0 2 callothersubr endchar",
        15,
        Rule::X04,
        Some(Reason::Pairs {
            moves: 3,
            points: 0,
            ends: false,
        }),
    ),
    // A point and an end outside flex.
    (
        "T: 0 500 hsbw 0 hmoveto 0 2 callothersubr endchar",
        8,
        Rule::X02,
        Some(Reason::Othersubr {
            number: 2 * ONE,
            count: 0,
        }),
    ),
    // A point without a move of its own, and an end after six of both.
    (
        "T: 0 500 hsbw 0 1 callothersubr 1 hmoveto 0 2 callothersubr 0 2 callothersubr endchar",
        14,
        Rule::X04,
        Some(Reason::Pairs {
            moves: 1,
            points: 1,
            ends: false,
        }),
    ),
    (
        "T: 0 500 hsbw 0 1 callothersubr 1 hmoveto 0 2 callothersubr 1 hmoveto 0 2 callothersubr endchar",
        16,
        Rule::X04,
        None,
    ),
    (
        "T: 0 500 hsbw 0 1 callothersubr 1 hmoveto 0 2 callothersubr 50 1 0 3 0 callothersubr endchar",
        17,
        Rule::X04,
        Some(Reason::Pairs {
            moves: 1,
            points: 1,
            ends: true,
        }),
    ),
    (
        "T: 0 500 hsbw 0 1 callothersubr 4 callsubr 50 7 0 3 0 callothersubr endchar",
        50,
        Rule::X04,
        None,
    ),
    (
        "T: 0 500 hsbw 0 hmoveto 0 1 callothersubr 0 1 callothersubr endchar",
        11,
        Rule::X01,
        Some(Reason::Since { step: Some(8) }),
    ),
];

/// Open paths, where each begins and ends.
const PATHS: &[Row] = &[
    // A path after its move, and one after a closepath, without a move.
    (
        "T: 0 500 hsbw 10 20 rmoveto 5 hlineto 3 vlineto endchar",
        11,
        Rule::P02,
        Some(Reason::Open {
            start: Point {
                x: 10 * ONE,
                y: 20 * ONE,
            },
            pen: Point {
                x: 15 * ONE,
                y: 23 * ONE,
            },
        }),
    ),
    (
        "T: 0 500 hsbw 10 20 rmoveto 5 hlineto 3 vlineto closepath 7 hlineto 1 vlineto endchar",
        16,
        Rule::P02,
        Some(Reason::Open {
            start: Point {
                x: 15 * ONE,
                y: 23 * ONE,
            },
            pen: Point {
                x: 22 * ONE,
                y: 24 * ONE,
            },
        }),
    ),
    // A path at the beginning of the glyph, from the sidebearing.
    (
        "T: 30 500 hsbw 5 hlineto 6 vlineto endchar",
        8,
        Rule::P02,
        Some(Reason::Open {
            start: Point {
                x: 30 * ONE,
                y: 0 * ONE,
            },
            pen: Point {
                x: 35 * ONE,
                y: 6 * ONE,
            },
        }),
    ),
    // Two moves after an open path: both name that path. What is drawn then begins at the second.
    (
        "T: 0 500 hsbw 10 20 rmoveto 5 hlineto 100 hmoveto 200 vmoveto 1 hlineto endchar",
        10,
        Rule::P02,
        Some(Reason::Open {
            start: Point {
                x: 10 * ONE,
                y: 20 * ONE,
            },
            pen: Point {
                x: 15 * ONE,
                y: 20 * ONE,
            },
        }),
    ),
    (
        "T: 0 500 hsbw 10 20 rmoveto 5 hlineto 100 hmoveto 200 vmoveto 1 hlineto endchar",
        12,
        Rule::P02,
        Some(Reason::Open {
            start: Point {
                x: 10 * ONE,
                y: 20 * ONE,
            },
            pen: Point {
                x: 15 * ONE,
                y: 20 * ONE,
            },
        }),
    ),
    (
        "T: 0 500 hsbw 10 20 rmoveto 5 hlineto 100 hmoveto 200 vmoveto 1 hlineto endchar",
        15,
        Rule::P02,
        Some(Reason::Open {
            start: Point {
                x: 115 * ONE,
                y: 220 * ONE,
            },
            pen: Point {
                x: 116 * ONE,
                y: 220 * ONE,
            },
        }),
    ),
    // A flex that begins a path, after a move and without one.
    (
        "T: 0 500 hsbw 10 20 rmoveto 0 1 callothersubr 4 callsubr 50 17 20 3 0 callothersubr \
         pop pop setcurrentpoint endchar",
        57,
        Rule::P02,
        Some(Reason::Open {
            start: Point {
                x: 10 * ONE,
                y: 20 * ONE,
            },
            pen: Point {
                x: 17 * ONE,
                y: 20 * ONE,
            },
        }),
    ),
    (
        "T: 30 500 hsbw 0 1 callothersubr 4 callsubr 50 37 0 3 0 callothersubr \
         pop pop setcurrentpoint endchar",
        54,
        Rule::P02,
        Some(Reason::Open {
            start: Point {
                x: 30 * ONE,
                y: 0 * ONE,
            },
            pen: Point {
                x: 37 * ONE,
                y: 0 * ONE,
            },
        }),
    ),
];

/// OtherSubrs and accented characters. 65 is A, 193 the grave accent, and 160 has no name.
const CALLS: &[Row] = &[
    (
        "T: 0 500 hsbw 0 99 callothersubr endchar",
        6,
        Rule::O01,
        Some(Reason::Othersubr {
            number: 99 * ONE,
            count: 0,
        }),
    ),
    (
        "T: 0 500 hsbw 1 5 12 callothersubr endchar",
        7,
        Rule::O02,
        Some(Reason::Arguments {
            count: 5 * ONE,
            there: 1,
        }),
    ),
    (
        "T: 0 500 hsbw 1 1 12 callothersubr endchar",
        7,
        Rule::O02,
        None,
    ),
    (
        "T: 0 500 hsbw 1 2 2 3 callothersubr endchar",
        8,
        Rule::O03,
        Some(Reason::Othersubr {
            number: 3 * ONE,
            count: 2 * ONE,
        }),
    ),
    (
        "T: 0 500 hsbw 0 12 callothersubr endchar",
        6,
        Rule::O01,
        None,
    ),
    (
        "T: 0 500 hsbw 1 1 3 callothersubr pop callsubr endchar",
        7,
        Rule::O03,
        None,
    ),
    (
        "T: 0 500 hsbw pop endchar",
        4,
        Rule::O04,
        Some(Reason::Nothing),
    ),
    (
        "T: 0 500 hsbw 1 1 3 callothersubr pop callsubr endchar",
        8,
        Rule::O04,
        None,
    ),
    ("T: 0 500 hsbw 0 0 0 65 255 seac", 9, Rule::K01, None),
    ("T: 0 500 hsbw 0 0 0 65 193 seac", 9, Rule::K02, None),
    (
        "A: 0 500 hsbw endchar | T: 0 500 hsbw 0 0 0 65 193 seac",
        9,
        Rule::K03,
        Some(Reason::Codes {
            base: 65 * UNIT,
            accent: 193 * UNIT,
        }),
    ),
    (
        "A: 0 500 hsbw endchar | grave: 0 300 hsbw endchar | T: 0 500 hsbw 0 0 0 65 193 seac",
        9,
        Rule::K03,
        None,
    ),
    (
        "A: 0 500 hsbw 0 0 0 66 193 seac | grave: 0 300 hsbw endchar | T: 0 500 hsbw 0 0 0 65 193 seac",
        9,
        Rule::K04,
        Some(Reason::Codes {
            base: 65 * UNIT,
            accent: 193 * UNIT,
        }),
    ),
    (
        "A: 0 500 hsbw endchar | grave: 0 300 hsbw endchar | T: 0 500 hsbw 0 0 0 65 193 seac",
        9,
        Rule::K04,
        None,
    ),
    (
        "T: 0 500 hsbw 5 hmoveto 0 0 0 65 193 seac",
        11,
        Rule::K06,
        Some(Reason::Since { step: Some(5) }),
    ),
    ("T: 0 500 hsbw 0 0 0 65 193 seac", 9, Rule::K06, None),
    (
        "A: endchar | grave: 0 300 hsbw endchar | T: 0 500 hsbw 0 0 0 65 193 seac",
        9,
        Rule::K07,
        Some(Reason::Codes {
            base: 65 * UNIT,
            accent: 193 * UNIT,
        }),
    ),
    (
        "A: 0 500 hsbw endchar | grave: 0 300 hsbw endchar | T: 0 500 hsbw 0 0 0 65 193 seac",
        9,
        Rule::K07,
        None,
    ),
    (
        "T: 0 500 hsbw 0 0 0 65 256 seac",
        9,
        Rule::K01,
        Some(Reason::Codes {
            base: 65 * UNIT,
            accent: 256 * UNIT,
        }),
    ),
    (
        "T: 0 500 hsbw 0 0 0 65 160 seac",
        9,
        Rule::K02,
        Some(Reason::Codes {
            base: 65 * UNIT,
            accent: 160 * UNIT,
        }),
    ),
    (
        "A: 0 500 hsbw endchar | grave: 38 300 hsbw endchar | T: 0 500 hsbw 40 0 0 65 193 seac",
        9,
        Rule::K05,
        Some(Reason::Sidebearings {
            told: 40 * UNIT,
            own: 38 * UNIT,
        }),
    ),
    (
        "A: 0 500 hsbw endchar | grave: 38 300 hsbw endchar | T: 0 500 hsbw 38 0 0 65 193 seac",
        9,
        Rule::K05,
        None,
    ),
];

/// A sound font with the Subrs and with these glyphs.
fn sample_of(alloc: Global, glyphs: &str) -> Result<Sample, Fail> {
    let mut sample = Sample::new(alloc)?;
    for (number, words) in SUBRS {
        sample = sample.subr(number, assembled(alloc, words)?.as_slice())?;
    }
    for glyph in glyphs.split('|') {
        if let Some((name, words)) = glyph.split_once(':') {
            sample = sample.glyph(name.trim().as_bytes(), assembled(alloc, words)?.as_slice())?;
        }
    }
    Ok(sample)
}

/// The reason at a step of the last of these glyphs.
fn reason_of(
    alloc: Global,
    glyphs: &str,
    edition: Edition,
    step: u32,
    rule: Rule,
) -> Result<Option<Reason>, Fail> {
    let sample = sample_of(alloc, glyphs)?;
    step_reason(alloc, &sample, step, rule, edition)
}

#[test]
fn reasons_at_steps(rt: HostRuntime) -> Result<(), Fail> {
    for rows in [TOKENS, OUTLINES, PATHS, CALLS] {
        for (glyphs, step, rule, reason) in rows {
            let found = reason_of(rt.alloc(), glyphs, Edition::One, *step, *rule)?;
            assert!(rt; found == *reason, "{glyphs}");
        }
    }
    Ok(())
}

/// By the second edition a stem of width -20 is one edge, and overlaps nothing.
#[test]
fn reasons_by_the_second_edition(rt: HostRuntime) -> Result<(), Fail> {
    let glyphs = "T: 0 500 hsbw 0 -20 hstem -10 5 hstem endchar";
    let found = reason_of(rt.alloc(), glyphs, Edition::Two, 9, Rule::H02)?;
    assert!(rt; found == None);
    Ok(())
}
