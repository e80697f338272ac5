//! Waivers: what is written with them, when they are read, and readers of them that fail.

ghost use Rattle.std.specs.Prelude.{◌≡◌, true};
ghost use Rattle.t1_samples.specs.Limits.{lets_some_through};

use crate::devices::FAR;
use crate::files::{Made, file_of};
use crate::runs::options_of;
use crate::shared::{Answer, answer_over};
use std::alloc::{AllocError, Global};
use std::test::Fail;
use t1_io::In;
use t1_run::Status;
use t1_samples::{Fuse, Limit, NOTDEF};

/// How the waivers are read.
#[derive(Clone, Copy, Debug)]
enum Pace {
    /// Whole.
    Whole,
    /// A byte a read.
    ByteARead,
    /// The read after so many fails.
    Fails(usize),
}

fn limit_of(pace: Pace) -> Limit
    ensures { lets_some_through result ≡ true }
{
    match pace {
        Pace::Whole => FAR,
        Pace::ByteARead => Limit::BytesPerCall(1),
        Pace::Fails(calls) => Limit::Calls(calls),
    }
}

/// What the program returns for a file and waivers, of the whole report or of the trace of glyph A.
fn answer_with(
    alloc: Global,
    file: &[u8],
    traced: bool,
    waivers: &[u8],
    pace: Pace,
) -> Result<Answer, AllocError> {
    let options = options_of(alloc, traced, true)?;
    let mut reader = Fuse::source(In::new(waivers), limit_of(pace));
    Ok(answer_over(alloc, &mut In::new(file), &mut reader, &options))
}

/// A file, whether glyph A is traced, waivers, how they are read, the status, the output, and standard error.
struct Row {
    made: Made,
    traced: bool,
    waivers: &'static [u8],
    pace: Pace,
    status: Status,
    output: &'static str,
    told: &'static str,
}

/// A row of a report.
const REPORT: Row = Row {
    made: Made::Glyph(b""),
    traced: false,
    waivers: b"",
    pace: Pace::Whole,
    status: Status::Clean,
    output: "",
    told: "",
};

const ROWS: &[Row] = &[
    Row {
        waivers: b"A GE01\n",
        ..REPORT
    },
    Row {
        waivers: b"A GE01\n",
        pace: Pace::ByteARead,
        ..REPORT
    },
    Row {
        waivers: b"A GE01\nA C05\nB C05\nA C05\n",
        status: Status::Faults,
        output: "1: waiver A C05 U01 waiver not used\n2: waiver B C05 U01 waiver not used\n",
        ..REPORT
    },
    Row {
        waivers: b"A GE01\nA C05\nB C05\nA C05\n",
        pace: Pace::ByteARead,
        status: Status::Faults,
        output: "1: waiver A C05 U01 waiver not used\n2: waiver B C05 U01 waiver not used\n",
        ..REPORT
    },
    Row {
        made: Made::Glyph(b"\xff\x00\x00\x7d\x01\x8b\x16\x09\x0e"),
        waivers: b"A C05",
        status: Status::Faults,
        output: "1: glyph A - 3 C07 number out of range\n\
2: glyph A - 3 W01 hsbw or sbw not first\n\
3: glyph A - 4 P03 closepath without a path\n",
        ..REPORT
    },
    Row {
        made: Made::Glyph(b"\xff\x00\x00\x7d\x01\x8b\x16\x09\x0e"),
        waivers: b"A C05",
        pace: Pace::ByteARead,
        status: Status::Faults,
        output: "1: glyph A - 3 C07 number out of range\n\
2: glyph A - 3 W01 hsbw or sbw not first\n\
3: glyph A - 4 P03 closepath without a path\n",
        ..REPORT
    },
    Row {
        waivers: b"A",
        status: Status::Refused,
        told: "refused: E14 waivers malformed\n",
        ..REPORT
    },
    Row {
        waivers: b"A",
        pace: Pace::ByteARead,
        status: Status::Refused,
        told: "refused: E14 waivers malformed\n",
        ..REPORT
    },
    Row {
        waivers: b"A F01",
        status: Status::Refused,
        told: "refused: E14 waivers malformed\n",
        ..REPORT
    },
    Row {
        waivers: b"A F01",
        pace: Pace::ByteARead,
        status: Status::Refused,
        told: "refused: E14 waivers malformed\n",
        ..REPORT
    },
    // The first read fails, and the one that would have found their end.
    Row {
        waivers: b"A GE01",
        pace: Pace::Fails(0),
        status: Status::Failed,
        told: "t1check: read failed\n",
        ..REPORT
    },
    Row {
        waivers: b"A GE01",
        pace: Pace::Fails(1),
        status: Status::Failed,
        told: "t1check: read failed\n",
        ..REPORT
    },
    // They are left alone where the font is refused, and where a trace is requested.
    Row {
        made: Made::Bytes(&[0x80, 1, 5, 0, 0, 0, 0x25, 0x21, 0x0a, 0x0a]),
        waivers: b"A",
        pace: Pace::Fails(0),
        status: Status::Refused,
        told: "refused: E03 segment cut short\n",
        ..REPORT
    },
    Row {
        made: Made::Glyph(NOTDEF),
        traced: true,
        waivers: b"A",
        pace: Pace::Fails(0),
        output: "1 - 0\n2 - 500\n3 - hsbw\n4 - endchar\n",
        ..REPORT
    },
];

/// Whether a row's answer is returned.
fn is_answered(alloc: Global, row: &Row) -> Result<bool, AllocError> {
    let file = file_of(alloc, row.made)?;
    let answer = answer_with(alloc, file.as_slice(), row.traced, row.waivers, row.pace)?;
    Ok(answer.is(row.status, row.output.as_bytes(), row.told.as_bytes()))
}

#[test]
fn reports_with_waivers(rt: HostRuntime) -> Result<(), Fail> {
    for row in ROWS {
        assert!(rt;
            is_answered(rt.alloc(), row)?,
            "{:?}, {:?}",
            row.waivers,
            row.pace
        );
    }
    Ok(())
}

/// How many empty lines, the status, the output, and standard error.
const AT_THE_LIMIT: &[(usize, Status, &str, &str)] = &[
    (
        1_048_576,
        Status::Faults,
        "1: glyph A - 1 GE01 no endchar\n",
        "",
    ),
    (
        1_048_577,
        Status::Refused,
        "",
        "refused: E15 waivers past their limit\n",
    ),
];

/// What the program returns for so many empty lines of waivers, where glyph A is empty.
fn answer_to_lines(alloc: Global, count: usize, pace: Pace) -> Result<Answer, AllocError> {
    let file = file_of(alloc, Made::Glyph(b""))?;
    let text = vec![in alloc; b'\n'; count]?;
    answer_with(alloc, file.as_slice(), false, text.as_slice(), pace)
}

/// Empty lines to the limit, and one more, a byte a read too.
#[test]
fn takes_waivers_to_their_limit(rt: HostRuntime) -> Result<(), Fail> {
    for (count, status, output, told) in AT_THE_LIMIT {
        for pace in [Pace::Whole, Pace::ByteARead] {
            let answer = answer_to_lines(rt.alloc(), *count, pace)?;
            assert!(rt;
                answer.is(*status, output.as_bytes(), told.as_bytes()),
                "{count}"
            );
        }
    }
    Ok(())
}
