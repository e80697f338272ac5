//! How often fonts and their waivers are read.

use crate::fonts::{FOUR_FAULTS, font_with, names_of, only};
use std::alloc::{AllocError, Global};
use std::cell::Cell;
use std::io;
use std::io::{ErrorKind, Read};
use std::test::Fail;
use t1_char::Edition;
use t1_io::{In, Out};
use t1_many::{FontFiles, Plain, ReportAll, WaiverFiles, check_all};
use t1_rules::all_rules;
use t1_run::Streams;

/// A reader that returns up to so many bytes a read, and counts both. After its last byte is the end.
#[derive(Drop)]
struct Slow<'a> {
    left: &'a [u8],
    bytes_per_read: usize,
    count: &'a Cell<Reads>,
}

/// How often a file was read, and how many bytes were.
#[derive(Clone, Copy, Debug, PartialEq, Eq)]
struct Reads {
    reads: u64,
    bytes: u64,
}

/// Nothing was read.
const NO_READS: Reads = Reads { reads: 0, bytes: 0 };

impl Read for Slow<'_> {
    fn read(&mut self, buffer: &mut [u8]) -> io::Result<usize> {
        let room = buffer.len().min(self.bytes_per_read);
        let bytes = self.left.read(&mut buffer[..room])?;
        let count = self.count.get();
        self.count.set(Reads {
            reads: count.reads.saturating_add(1),
            bytes: count.bytes.saturating_add(bytes as u64),
        });
        Ok(bytes)
    }
}

/// One font with waivers.
#[derive(Drop)]
struct OneFont<'a> {
    font: &'a [u8],
    waivers: &'a [u8],
    /// Whether the waivers can't be opened.
    is_locked: bool,
    bytes_per_read: usize,
    font_reads: &'a Cell<Reads>,
    waiver_reads: &'a Cell<Reads>,
    /// What was read of the font until its waivers were opened.
    early: Reads,
}

impl<'a> FontFiles for OneFont<'a> {
    type Font = In<Slow<'a>>;

    type Waivers = In<Slow<'a>>;

    ghost calls = { record {
      Opens = λ _ _ _ _. Unit {0};
      OpensWaivers = λ _ _ _ _. Unit {0};
      Leaves = λ _ _ _ _. Unit {0};
      LeavesWaivers = λ _ _ _ _. Unit {0};
    } };

    fn open_font(&mut self, _name: &str) -> io::Result<In<Slow<'a>>> {
        Ok(In::new(Slow {
            left: self.font,
            bytes_per_read: self.bytes_per_read,
            count: self.font_reads,
        }))
    }

    fn open_waivers(&mut self, _name: &str) -> Option<io::Result<In<Slow<'a>>>> {
        self.early = self.font_reads.get();
        if self.is_locked {
            return Some(Err(io::Error::from(ErrorKind::PermissionDenied)));
        }
        Some(Ok(In::new(Slow {
            left: self.waivers,
            bytes_per_read: self.bytes_per_read,
            count: self.waiver_reads,
        })))
    }

    fn leave_font(&mut self, _name: &str, _file: In<Slow<'a>>) {}

    fn leave_waivers(&mut self, _name: &str, _file: In<Slow<'a>>) {}
}

/// A font with waivers, of which a read returns up to so many bytes, and what is read of both.
#[derive(Clone, Copy)]
struct Case<'a> {
    font: &'a [u8],
    waivers: &'a [u8],
    is_locked: bool,
    bytes_per_read: usize,
    font_reads: Reads,
    waiver_reads: Reads,
}

/// Whether so much is read of a font and its waivers, and nothing until both are open.
fn is_read_so(alloc: Global, case: &Case<'_>) -> Result<bool, AllocError> {
    let (font_reads, waiver_reads) = (Cell::new(NO_READS), Cell::new(NO_READS));
    let mut files = OneFont {
        font: case.font,
        waivers: case.waivers,
        is_locked: case.is_locked,
        bytes_per_read: case.bytes_per_read,
        font_reads: &font_reads,
        waiver_reads: &waiver_reads,
        early: NO_READS,
    };
    let names = names_of(alloc, &["a.pfb"])?;
    let (mut text, mut told) = (Vec::new(alloc), Vec::new(alloc));
    let mut telling = ReportAll {
        rules: only(all_rules()),
        printer: Plain {
            reasons: false,
            streams: Streams {
                out: Out::new(&mut text),
                errors: Out::new(&mut told),
            },
        },
    };
    let _ = check_all(
        alloc,
        names.as_slice(),
        WaiverFiles::Read,
        &mut files,
        Edition::One,
        &mut telling,
    );
    drop(telling);
    Ok(
        files.early == NO_READS
            && font_reads.get() == case.font_reads
            && waiver_reads.get() == case.waiver_reads,
    )
}

/// All bytes of a file by a byte a read, and its end by one read more: no read follows the end.
fn to_the_end(bytes: usize) -> Reads {
    Reads {
        reads: (bytes as u64).saturating_add(1),
        bytes: bytes as u64,
    }
}

#[test]
fn reads_to_the_end_and_no_further(rt: HostRuntime) -> Result<(), Fail> {
    let font = font_with(rt.alloc(), FOUR_FAULTS)?;
    let font = font.as_slice();
    let waivers = b"A H02\n".as_slice();
    // A file of 16,777,216 bytes is read, and waivers of 1,048,576 are. Of what is longer one byte more is read.
    let mut large = Vec::new(rt.alloc());
    large.resize(16_777_300, b'%')?;
    let large = large.as_slice();
    assert!(rt; 1_048_600 <= large.len());
    let many = &large[..1_048_600];
    let cases = [
        Case {
            font,
            waivers,
            is_locked: false,
            bytes_per_read: 1,
            font_reads: to_the_end(font.len()),
            waiver_reads: to_the_end(6),
        },
        // Waivers that can't be opened: the font is left unread.
        Case {
            font,
            waivers,
            is_locked: true,
            bytes_per_read: 1,
            font_reads: NO_READS,
            waiver_reads: NO_READS,
        },
        // A font that is refused, of which 4,096 reads of 4,096 bytes and one of one byte are made: its waivers are left unread.
        Case {
            font: large,
            waivers,
            is_locked: false,
            bytes_per_read: 4_096,
            font_reads: Reads {
                reads: 4_097,
                bytes: 16_777_217,
            },
            waiver_reads: NO_READS,
        },
        // Waivers that are refused: 256 reads of 4,096 bytes, and one of one byte. The font is read by a read, and one more at its end.
        Case {
            font,
            waivers: many,
            is_locked: false,
            bytes_per_read: 4_096,
            font_reads: Reads {
                reads: 2,
                bytes: font.len() as u64,
            },
            waiver_reads: Reads {
                reads: 257,
                bytes: 1_048_577,
            },
        },
    ];
    for case in &cases {
        assert!(rt;
            is_read_so(rt.alloc(), case)?,
            "{} bytes by {}",
            case.font.len(),
            case.bytes_per_read
        );
    }
    Ok(())
}
