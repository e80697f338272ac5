//! Summaries as they are printed.

use std::alloc::Global;
use std::test::Fail;
use t1_io::{Broken, Out};
use t1_rules::Rule;
use t1_samples::{Fuse, Limit};
use t1_summary::{FontClass, Tally, summary};

/// The tally of fonts and lines.
fn tally_of(founds: &[FontClass], lines: &[Rule]) -> Tally {
    let mut tally = Tally::new();
    for found in founds {
        tally.add(*found);
    }
    for rule in lines {
        tally.add_line(*rule);
    }
    tally
}

/// The summary of a tally.
fn printed(
    alloc: Global,
    tally: &Tally,
    rows: Option<u64>,
    has_known: bool,
) -> Result<Vec<u8>, Broken> {
    let mut text = Vec::new(alloc);
    summary(tally, rows, has_known, &mut Out::new(&mut text))?;
    Ok(text)
}

#[test]
fn prints_one_font(rt: HostRuntime) -> Result<(), Fail> {
    let tally = tally_of(&[FontClass::Clean], &[]);
    let text = printed(rt.alloc(), &tally, None, false)?;
    assert!(rt;
        text.as_slice() == b"1 font: 1 clean, 0 with faults, 0 refused, 0 not checked\n".as_slice()
    );
    Ok(())
}

#[test]
fn prints_no_font(rt: HostRuntime) -> Result<(), Fail> {
    let text = printed(rt.alloc(), &Tally::default(), None, false)?;
    assert!(rt;
        text.as_slice() == b"0 fonts: 0 clean, 0 with faults, 0 refused, 0 not checked\n".as_slice()
    );
    Ok(())
}

/// F01 is before C05 and GE01 in the book, and between them by its code.
#[test]
fn prints_rules_by_lines_and_code(rt: HostRuntime) -> Result<(), Fail> {
    let tally = tally_of(
        &[
            FontClass::Faulty,
            FontClass::Clean,
            FontClass::Unchecked,
            FontClass::Refused,
            FontClass::Faulty,
        ],
        &[
            Rule::H02,
            Rule::F01,
            Rule::GE01,
            Rule::C05,
            Rule::H02,
            Rule::C05,
            Rule::U01,
            Rule::H02,
            Rule::F01,
            Rule::GE01,
        ],
    );
    let text = printed(rt.alloc(), &tally, None, false)?;
    let lines = b"\
5 fonts: 1 clean, 2 with faults, 1 refused, 1 not checked
      3 H02 stems overlap (should)
      2 C05 too many arguments (must)
      2 F01 no end segment (should)
      2 GE01 no endchar (must)
      1 U01 waiver not used (should)
";
    assert!(rt; text.as_slice() == lines.as_slice());
    Ok(())
}

#[test]
fn prints_known_faults(rt: HostRuntime) -> Result<(), Fail> {
    let tally = tally_of(
        &[FontClass::Known, FontClass::Known, FontClass::Faulty],
        &[Rule::Z04],
    );
    let text = printed(rt.alloc(), &tally, None, true)?;
    let lines = b"\
3 fonts: 0 clean, 2 with known faults alone, 1 with faults, 0 refused, 0 not checked
      1 Z04 zone numbers fall (should)
";
    assert!(rt; text.as_slice() == lines.as_slice());
    Ok(())
}

#[test]
fn prints_rows_of_known_faults(rt: HostRuntime) -> Result<(), Fail> {
    let tally = tally_of(&[FontClass::Clean, FontClass::Clean], &[]);
    for (rows, line) in [
        (0, b"known faults: 0 rows\n".as_slice()),
        (1, b"known faults: 1 row\n"),
        (31, b"known faults: 31 rows\n"),
    ] {
        let text = printed(rt.alloc(), &tally, Some(rows), false)?;
        let mut lines = Vec::from_slice(
            rt.alloc(),
            b"2 fonts: 2 clean, 0 with faults, 0 refused, 0 not checked\n",
        )?;
        lines.extend_from_slice(line)?;
        assert!(rt; text.as_slice() == lines.as_slice(), "{rows}");
    }
    Ok(())
}

/// A number of seven digits fills its columns, and one of eight is wider.
#[test]
fn prints_large_numbers(rt: HostRuntime) -> Result<(), Fail> {
    let mut tally = tally_of(&[FontClass::Faulty], &[]);
    for (rule, count) in [
        (Rule::F01, 1_234_567),
        (Rule::F02, 12_345_678),
        (Rule::F03, 123_456),
    ] {
        for _line in 0..count {
            tally.add_line(rule);
        }
    }
    let text = printed(rt.alloc(), &tally, None, false)?;
    let lines = b"\
1 font: 0 clean, 1 with faults, 0 refused, 0 not checked
12345678 F02 bytes after the end segment (tidy)
1234567 F01 no end segment (should)
 123456 F03 FontType is not 1 (must)
";
    assert!(rt; text.as_slice() == lines.as_slice());
    Ok(())
}

/// Where a write fails, a prefix went out.
#[test]
fn stops_where_a_write_fails(rt: HostRuntime) {
    let tally = tally_of(&[FontClass::Clean], &[Rule::F01]);
    let mut text = Vec::new(rt.alloc());
    let mut sink = Fuse::sink(Out::new(&mut text), Limit::Bytes(64));
    let failed = summary(&tally, None, false, &mut sink).is_err();
    assert!(rt; failed);
    assert!(rt;
        text.as_slice()
            == b"1 font: 1 clean, 0 with faults, 0 refused, 0 not checked\n      1".as_slice()
    );
}
