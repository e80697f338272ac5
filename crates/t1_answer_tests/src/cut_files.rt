//! Each prefix of two sound files, the shortest first. The numbers come from the places of the segments,
//! the word `eexec`, the digits and the tokens, counted by hand and by another program.

use crate::files::{Made, file_of};
use crate::shared::{NO_END_REPORT, answer_to};
use std::alloc::Global;
use std::process::Abort;
use std::test::Fail;
use t1_run::Status;
use t1_samples::END_SEGMENT;

/// What the program returns for a file that is cut.
#[derive(Clone, Copy, Debug)]
enum Cut {
    /// Nothing: the font is whole.
    Clean,
    /// The line on the end segment: the font is whole, and its file isn't.
    NoEnd,
    /// This line, and no font.
    Refused(&'static str),
}

const E01: Cut = Cut::Refused("refused: E01 not a PFA or PFB\n");

const E03: Cut = Cut::Refused("refused: E03 segment cut short\n");

const E04: Cut = Cut::Refused("refused: E04 no eexec\n");

const E06: Cut = Cut::Refused("refused: E06 encrypted part too short\n");

const E07: Cut = Cut::Refused("refused: E07 unclosed or too deeply nested token\n");

const E08: Cut = Cut::Refused("refused: E08 Subrs malformed\n");

const E09: Cut = Cut::Refused("refused: E09 CharStrings malformed or absent\n");

const E10: Cut = Cut::Refused("refused: E10 lenIV out of range\n");

/// Whether the program returns this for a file's prefix of so many bytes.
fn is_answered(alloc: Global, file: &[u8], len: usize, cut: Cut) -> bool {
    let Some(front) = file.get(..len) else {
        return false;
    };
    let answer = answer_to(alloc, front);
    match cut {
        Cut::Clean => answer.is(Status::Clean, b"", b""),
        Cut::NoEnd => answer.is(Status::Faults, NO_END_REPORT.as_bytes(), b""),
        Cut::Refused(line) => answer.is(Status::Refused, b"", line.as_bytes()),
    }
}

/// The program returns this for the prefixes of a file. It is the same for so many in a row, each a byte longer
/// than the one before.
fn assert_cuts(rt: &impl Abort, alloc: Global, file: &[u8], rows: &[(usize, Cut)]) {
    let mut len = 0usize;
    for (count, cut) in rows {
        for _front in 0..*count {
            assert!(rt; is_answered(alloc, file, len, *cut), "{len} bytes: {cut:?}");
            len = len.saturating_add(1);
        }
    }
    assert_eq!(rt; len, file.len() + 1, "the whole file is the last prefix");
}

/// The prefixes of the PFB file, whose segments end at 110, 293, 831 and 833 bytes. 829 prefixes end inside a
/// segment. Of the four that end with one, the first has no byte of the section.
const PFB: &[(usize, Cut)] = &[
    (1, E01),
    (109, E03),
    (1, E06),
    (182, E03),
    (1, Cut::NoEnd),
    (537, E03),
    (1, Cut::NoEnd),
    (1, E03),
    (1, Cut::Clean),
];

/// The prefixes of the PFA file, whose section is hexadecimal. In all: E01 2, E04 101, E06 10, E07 15, E08 19,
/// E09 385, E10 5. The last 538 have the last `end` of the private text.
const PFA: &[(usize, Cut)] = &[
    (2, E01),
    // No whole word `eexec`.
    (101, E04),
    // Less than eight digits.
    (10, E06),
    (154, E09),
    // Inside `{16 16}`.
    (15, E07),
    (26, E09),
    // From `/lenIV` to its value.
    (5, E10),
    (28, E09),
    // From `/Subrs` to `array`.
    (19, E08),
    (177, E09),
    (538, Cut::Clean),
];

/// Wherever a PFB file is cut, the cut is reported, and no private text is read that breaks off before its last `end`.
const FILES: &[(Made, &[(usize, Cut)])] = &[
    (Made::Ended(END_SEGMENT), PFB),
    (Made::Hexadecimal, PFA),
];

#[test]
fn reports_where_files_are_cut(rt: HostRuntime) -> Result<(), Fail> {
    for (made, rows) in FILES {
        let file = file_of(rt.alloc(), *made)?;
        assert_cuts(&rt, rt.alloc(), file.as_slice(), rows);
    }
    Ok(())
}
