//! Files that are read.

use std::process::Abort;
use t1_known::{KnownFaults, NotKnown, count_rows};

/// Lines that begin with `#` are skipped, names can have blanks, and the last line has no end.
const FILE: &[u8] = b"\
# Known faults: count, rule, unit, font.
3 H02 glyph A fonts/a.pfb
012 Z04 font BlueValues my fonts/b c.pfa
#1 P01 glyph B fonts/a.pfb
18446744073709551615 C07 glyph A fonts/a.pfb
18446744073709551616 C05 glyph A fonts/a.pfb
99999999999999999999999 P03 glyph A fonts/a.pfb
0 W01 glyph A fonts/a.pfb
1 U01 waiver A P01 fonts/a.pfb";

/// Keys, and how often they are known.
const COUNTS: &[(&[u8], u64)] = &[
    (b"H02 glyph A fonts/a.pfb", 3),
    (b"Z04 font BlueValues my fonts/b c.pfa", 12),
    (b"C07 glyph A fonts/a.pfb", 18_446_744_073_709_551_615),
    (b"C05 glyph A fonts/a.pfb", 18_446_744_073_709_551_615),
    (b"P03 glyph A fonts/a.pfb", 18_446_744_073_709_551_615),
    (b"W01 glyph A fonts/a.pfb", 0),
    (b"U01 waiver A P01 fonts/a.pfb", 1),
    (b"P01 glyph B fonts/a.pfb", 0),
    (b"H02 glyph A fonts/a.pf", 0),
    (b"H02 glyph A", 0),
    (b"", 0),
];

#[test]
fn counts_are_those_of_rows(rt: HostRuntime) {
    let Ok(known) = KnownFaults::read(rt.alloc(), FILE) else {
        panic!(rt; "the file isn't read");
    };
    assert!(rt; count_rows(FILE) == 7);
    for (key, count) in COUNTS {
        assert!(rt; known.count_of(key) == *count, "{key:?}");
    }
}

#[test]
fn files_without_rows_are_read(rt: HostRuntime) {
    for text in [b"".as_slice(), b"#", b"#\n", b"# a\n# b\n"] {
        let Ok(known) = KnownFaults::read(rt.alloc(), text) else {
            panic!(rt; "{text:?}");
        };
        assert!(rt; known.count_of(b"H02 glyph A a.pfb") == 0);
    }
}

/// Texts, and the first line of each that is no row, with its number.
const NO_ROWS: &[(&[u8], usize, &[u8])] = &[
    (b"\n", 1, b""),
    (b"1 H02 glyph A a.pfb\n\n", 2, b""),
    (
        b"1 H02 glyph A a.pfb\n H02 glyph A a.pfb\nx\n",
        2,
        b" H02 glyph A a.pfb",
    ),
    (b"1 H02 glyph A", 1, b"1 H02 glyph A"),
    (
        b"1 H02 glyph A a.pfb\n1 H02 glyph\n1 H02 glyph A a.pfb",
        2,
        b"1 H02 glyph",
    ),
    (b" # a\n", 1, b" # a"),
    (b"# a\n#\n1 H02 glyph A a.pfb\n# b\nx", 5, b"x"),
    (b"+1 H02 glyph A a.pfb", 1, b"+1 H02 glyph A a.pfb"),
];

#[test]
fn the_first_line_that_is_no_row_is_named(rt: HostRuntime) {
    for (text, number, line) in NO_ROWS {
        match KnownFaults::read(rt.alloc(), text) {
            Err(NotKnown::NoRow(found)) => {
                assert!(rt; found.number == *number && found.text == *line, "{text:?}");
            }
            _ => panic!(rt; "{text:?}"),
        }
    }
}

/// Texts, and the first line of each whose key is in an earlier one, with its number.
const TWICE: &[(&[u8], usize, &[u8])] = &[
    (
        b"1 H02 glyph A a.pfb\n1 H02 glyph B a.pfb\n2 H02 glyph A a.pfb\nx",
        3,
        b"2 H02 glyph A a.pfb",
    ),
    (
        b"# a\n1 H02 glyph A a b\n1 H02 glyph A a.b\n01 H02 glyph A a b",
        4,
        b"01 H02 glyph A a b",
    ),
];

#[test]
fn the_first_key_that_is_there_twice_is_named(rt: HostRuntime) {
    for (text, number, line) in TWICE {
        match KnownFaults::read(rt.alloc(), text) {
            Err(NotKnown::Twice(found)) => {
                assert!(rt; found.number == *number && found.text == *line, "{text:?}");
            }
            _ => panic!(rt; "{text:?}"),
        }
    }
}
