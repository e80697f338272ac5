//! Texts of reasons that fonts have. Numbers of dictionaries are in units of 10^-9.

use super::rows::{Row, assert_texts};
use std::test::Fail;
use t1_font::Encoding;
use t1_reasons::{EntryKind, Found, Reason};
use t1_rules::{Edges, Rule};

/// One unit.
const ONE: i64 = 1_000_000_000;

const ROWS: &[Row] = &[
    (
        Rule::F03,
        Reason::Entry {
            found: Found::One { number: 3 * ONE },
        },
        "FontType is 3; 1 is needed",
    ),
    (
        Rule::F04,
        Reason::Entry {
            found: Found::One { number: ONE },
        },
        "PaintType is 1; 0 or 2 is needed",
    ),
    (
        Rule::F04,
        Reason::Entry {
            found: Found::Absent,
        },
        "PaintType is not there",
    ),
    (
        Rule::F05,
        Reason::Entry {
            found: Found::One {
                number: 16_777_216 * ONE,
            },
        },
        "UniqueID is 16777216; 0 to 16777215 is needed",
    ),
    (
        Rule::F05,
        Reason::Entry {
            found: Found::Other,
        },
        "UniqueID is no number",
    ),
    (
        Rule::F07,
        Reason::Entry {
            found: Found::One {
                number: 5_840_500_000_000,
            },
        },
        "password is 5840.5; 5839 is needed",
    ),
    (
        Rule::F07,
        Reason::Entry {
            found: Found::Several { count: 2 },
        },
        "password is no number",
    ),
    (
        Rule::Z08,
        Reason::Entry {
            found: Found::Several { count: 2 },
        },
        "2 numbers; 1 is needed",
    ),
    (
        Rule::Z08,
        Reason::Entry {
            found: Found::Several { count: 0 },
        },
        "no numbers; 1 is needed",
    ),
    (
        Rule::F06,
        Reason::Ids {
            clear: 4_711 * ONE,
            private: 4_712 * ONE,
        },
        "4711 in the clear text, 4712 in Private",
    ),
    (
        Rule::F08,
        Reason::Features {
            found: Found::Several { count: 2 },
            one: 16 * ONE,
            two: 17 * ONE,
        },
        "it is {16 17}",
    ),
    (
        Rule::F08,
        Reason::Features {
            found: Found::Several { count: 3 },
            one: 0,
            two: 0,
        },
        "it is a list of 3 numbers",
    ),
    (
        Rule::F08,
        Reason::Features {
            found: Found::One { number: 16 * ONE },
            one: 0,
            two: 0,
        },
        "it is the number 16",
    ),
    (
        Rule::F08,
        Reason::Features {
            found: Found::Absent,
            one: 0,
            two: 0,
        },
        "it is not there",
    ),
    (
        Rule::F09,
        Reason::Glyphs { count: 228 },
        "none of 228 glyphs",
    ),
    (
        Rule::F09,
        Reason::Glyphs { count: 1 },
        "the only glyph has another name",
    ),
    (Rule::F09, Reason::Glyphs { count: 0 }, "there is no glyph"),
    (
        Rule::F11,
        Reason::Form {
            encoding: Encoding::Absent,
        },
        "it is not there",
    ),
    (
        Rule::F11,
        Reason::Form {
            encoding: Encoding::Other,
        },
        "it is neither StandardEncoding nor an array of 256 names",
    ),
    (
        Rule::F14,
        Reason::SubrEntry {
            number: 7,
            twice: true,
            size: 10,
        },
        "Subr 7 is given twice",
    ),
    (
        Rule::F14,
        Reason::SubrEntry {
            number: 812,
            twice: false,
            size: 812,
        },
        "Subr 812 is past the size 812",
    ),
    (
        Rule::F14,
        Reason::SubrEntry {
            number: 900,
            twice: true,
            size: 812,
        },
        "Subr 900 is given twice, and is past the size 812",
    ),
    (
        Rule::Z01,
        Reason::Kind {
            found: Found::One { number: 30 * ONE },
            wanted: EntryKind::Numbers,
        },
        "it is the number 30; a list of numbers is needed",
    ),
    (
        Rule::Z01,
        Reason::Kind {
            found: Found::Several { count: 2 },
            wanted: EntryKind::Number,
        },
        "it is a list of 2 numbers; a number is needed",
    ),
    (
        Rule::Z01,
        Reason::Kind {
            found: Found::Other,
            wanted: EntryKind::Number,
        },
        "it is neither a number nor a list of numbers; a number is needed",
    ),
    (
        Rule::Z02,
        Reason::TooMany {
            count: 16,
            most: 14,
        },
        "16 numbers, 14 at most",
    ),
    (Rule::Z03, Reason::Numbers { count: 3 }, "3 numbers"),
    (
        Rule::Z04,
        Reason::Following {
            before: 705 * ONE,
            number: 521 * ONE,
        },
        "521 comes after 705",
    ),
    (
        Rule::Z05,
        Reason::Gap {
            upper: 705 * ONE,
            lower: 707 * ONE,
            distance: 3_000_000_000,
        },
        "from 705 to 707 is 2; 3 is needed; BlueFuzz 1 would do",
    ),
    (
        Rule::Z05,
        Reason::Gap {
            upper: 705 * ONE,
            lower: 521 * ONE,
            distance: 3_000_000_000,
        },
        "from 705 to 521 is -184; 3 is needed; BlueFuzz 1 would do",
    ),
    (
        Rule::Z06,
        Reason::Zones {
            own: Edges {
                lower: -22 * ONE,
                upper: -3 * ONE,
            },
            other: Edges {
                lower: -ONE,
                upper: 9 * ONE,
            },
            distance: 3_000_000_000,
        },
        "zone -22 to -3 lies 2 below zone -1 to 9; 3 is needed; BlueFuzz 0.5 would do",
    ),
    (
        Rule::Z06,
        Reason::Zones {
            own: Edges {
                lower: 10 * ONE,
                upper: 20 * ONE,
            },
            other: Edges {
                lower: 0,
                upper: 9_500_000_000,
            },
            distance: 1_000_000_002,
        },
        "zone 10 to 20 lies 0.5 above zone 0 to 9.5; 1.000000002 is needed; BlueFuzz 0.5 would do",
    ),
    (
        Rule::Z06,
        Reason::Zones {
            own: Edges {
                lower: -8 * ONE,
                upper: 2 * ONE,
            },
            other: Edges {
                lower: -ONE,
                upper: 9 * ONE,
            },
            distance: 3_000_000_000,
        },
        "zone -8 to 2 overlaps zone -1 to 9; 3 is needed; BlueFuzz 0.5 would do",
    ),
    (
        Rule::Z07,
        Reason::Zone {
            lower: -22 * ONE,
            upper: 0,
            scale: 45_460_000,
        },
        "zone -22 to 0, height 22 times BlueScale 0.04546 is 1.00012; less than 1 is needed; BlueScale 0.052631578 would do",
    ),
    (
        Rule::Z07,
        Reason::Zone {
            lower: 0,
            upper: 25_300_000_001,
            scale: 39_625_000,
        },
        "zone 0 to 25.300000001, height 25.300000001 times BlueScale 0.039625 is 1.002512500039625; less than 1 is needed; BlueScale 0.052631578 would do",
    ),
    (
        Rule::Z11,
        Reason::Width {
            width: 31 * ONE,
            nearest: 30 * ONE,
        },
        "31 is none of the snaps; 30 is nearest",
    ),
];

/// A name is whole up to 60 characters, and then cut.
const NAMES: &[Row] = &[
    (Rule::F10, Reason::Glyph { glyph: 4 }, "the glyph is Utilde"),
    (
        Rule::F10,
        Reason::Glyph { glyph: 2 },
        "the glyph is abcdefghijklmnopqrstuvwxyzabcdefghijklmnopqrstuvwxyz12345678",
    ),
    (
        Rule::F10,
        Reason::Glyph { glyph: 3 },
        "the glyph is abcdefghijklmnopqrstuvwxyzabcdefghijklmnopqrstuvwxyz12345678…",
    ),
    (
        Rule::F10,
        Reason::Glyph { glyph: 5 },
        "the glyph is (empty)",
    ),
    (Rule::F13, Reason::Code { code: 65 }, "code 65 names Aacute"),
    (
        Rule::F13,
        Reason::Code { code: 66 },
        "code 66 names C\\x3A\\x5Cdef",
    ),
    (
        Rule::F13,
        Reason::Code { code: 67 },
        "code 67 names (empty)",
    ),
];

#[test]
fn fonts_have_texts(rt: HostRuntime) -> Result<(), Fail> {
    assert_texts(&rt, rt.alloc(), ROWS)?;
    assert_texts(&rt, rt.alloc(), NAMES)
}
