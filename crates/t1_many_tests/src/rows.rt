//! Rows of known faults.

use std::process::Abort;
use t1_many::read_row;

/// A line, and the count, the kind and the font's name that it has.
type Case<'a> = (&'a [u8], &'a [u8], &'a [u8], &'a [u8]);

/// Names can have blanks, and a glyph's name can be empty.
const ROWS: &[Case<'static>] = &[
    (b"3 H02 glyph A a.pfb", b"3", b"H02 glyph A", b"a.pfb"),
    (
        b"012 Z04 font BlueValues my fonts/b c.pfa",
        b"012",
        b"Z04 font BlueValues",
        b"my fonts/b c.pfa",
    ),
    (
        b"1 U01 waiver A P01 c.t1",
        b"1",
        b"U01 waiver A P01",
        b"c.t1",
    ),
    (b"7 GE01 glyph  d.pfb", b"7", b"GE01 glyph ", b"d.pfb"),
    (b"1 F01 font file  ", b"1", b"F01 font file", b" "),
];

/// Whether a line is read as this row.
fn is_read((line, count, kind, font): Case<'_>) -> bool {
    match read_row(line) {
        Some(row) => row.count == count && row.kind == kind && row.font == font,
        None => false,
    }
}

#[test]
fn reads_rows(rt: HostRuntime) {
    for case in ROWS {
        assert!(rt; is_read(*case), "{:?}", case.0);
    }
}

/// Lines that are no rows.
const OTHERS: &[&[u8]] = &[
    b"",
    b"3",
    b" H02 glyph A a.pfb",
    b"x H02 glyph A a.pfb",
    b"-3 H02 glyph A a.pfb",
    b"3 H02 glyf A a.pfb",
    b"3 H02 glyph A",
    b"3 H02 glyph A ",
    b"1 U01 waiver A P01",
    b"# Known faults: count, rule, unit, font.",
];

#[test]
fn reads_nothing_else(rt: HostRuntime) {
    for line in OTHERS {
        assert!(rt; read_row(line).is_none(), "{line:?}");
    }
}
