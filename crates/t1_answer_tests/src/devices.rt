//! Devices that fail at each place of a run.

ghost use Rattle.std.specs.Prelude.{◌≡◌, true};
ghost use Rattle.t1_samples.specs.Limits.{lets_some_through};

use crate::files::{Made, file_of};
use crate::runs::{RUNS, Run, run_of};
use crate::shared::{ALL, Answer, answer_over};
use std::alloc::Global;
use std::io;
use std::io::Read;
use std::process::Abort;
use std::test::Fail;
use t1_answer::CheckOptions;
use t1_io::{In, Out};
use t1_run::{Status, Streams, run};
use t1_samples::{END_SEGMENT, Fuse, Limit};

/// A reader that returns a byte a read, without end.
#[derive(Drop)]
struct Endless {
    reads: u64,
}

impl Read for Endless {
    fn read(&mut self, buffer: &mut [u8]) -> io::Result<usize> {
        self.reads = self.reads.saturating_add(1);
        if buffer.is_empty() {
            return Ok(0);
        }
        buffer[0] = 0x25;
        Ok(1)
    }
}

/// Runs the program on a file, over devices with these limits.
fn answer_within(
    alloc: Global,
    file: &[u8],
    options: &CheckOptions,
    input: Limit,
    output: Limit,
    errors: Limit,
) -> Answer
    requires input { lets_some_through input ≡ true }
    requires output { lets_some_through output ≡ true }
    requires errors { lets_some_through errors ≡ true }
{
    let mut text = Vec::new(alloc);
    let mut told = Vec::new(alloc);
    let mut streams = Streams {
        out: Fuse::sink(Out::new(&mut text), output),
        errors: Fuse::sink(Out::new(&mut told), errors),
    };
    let status = run(
        alloc,
        options,
        &mut Fuse::source(In::new(file), input),
        &mut In::new(io::empty()),
        &mut streams,
    );
    Answer {
        status,
        output: text,
        told,
    }
}

/// A limit that no run of a test reaches.
pub(crate) const FAR: Limit = Limit::Bytes(2_000_000);

/// Makes a run over devices with these limits.
fn answer_of(alloc: Global, run: &Run, input: Limit, output: Limit) -> Answer
    requires input { lets_some_through input ≡ true }
    requires output { lets_some_through output ≡ true }
{
    answer_within(alloc, run.file.as_slice(), &run.options, input, output, FAR)
}

#[test]
fn stops_at_the_limit_of_reads(rt: HostRuntime) {
    let mut reader = Endless { reads: 0 };
    let answer = answer_over(
        rt.alloc(),
        &mut In::new(&mut reader),
        &mut In::new(io::empty()),
        &ALL,
    );
    assert!(rt; answer.is(Status::Refused, b"", b"refused: E05 file too large\n"));
    assert_eq!(rt; reader.reads, 16_777_217);
}

/// Whether a run whose output fails after so many bytes reports the failed write.
fn reports_failed_write(alloc: Global, run: &Run, room: usize) -> bool {
    let answer = answer_of(alloc, run, FAR, Limit::Bytes(room));
    match run.text.as_bytes().get(..room) {
        Some(front) => answer.is(Status::Failed, front, b"t1check: write failed\n"),
        None => false,
    }
}

/// The output of a run fails after each count of bytes, the last time at the flush.
fn assert_failed_writes(rt: &impl Abort, alloc: Global, run: &Run) {
    for room in 0..run.text.len() + 1 {
        assert!(rt;
            reports_failed_write(alloc, run, room),
            "{room} bytes of {:?}",
            run.text
        );
    }
}

/// Whether a run whose input fails after so many reads reports the failed read.
fn reports_failed_read(alloc: Global, run: &Run, calls: usize) -> bool {
    let answer = answer_of(alloc, run, Limit::Calls(calls), FAR);
    answer.is(Status::Failed, b"", b"t1check: read failed\n")
}

/// A byte a read and a byte a write give the same text. The input fails at its first read, and at the one that would have
/// found its end; the output after each count of bytes.
fn assert_devices(rt: &impl Abort, alloc: Global, run: &Run) {
    let one = Limit::BytesPerCall(1);
    let answer = answer_of(alloc, run, one, one);
    assert!(rt;
        answer.is(run.status, run.text.as_bytes(), b""),
        "{:?}",
        run.text
    );
    for calls in 0..2usize {
        assert!(rt;
            reports_failed_read(alloc, run, calls),
            "{calls} reads for {:?}",
            run.text
        );
    }
    assert_failed_writes(rt, alloc, run);
}

#[test]
fn reports_devices_that_fail(rt: HostRuntime) -> Result<(), Fail> {
    for row in RUNS {
        let run = run_of(rt.alloc(), row)?;
        assert_devices(&rt, rt.alloc(), &run);
    }
    Ok(())
}

/// Files that are refused at different places, and the line of each.
const REFUSED: &[(Made, &str)] = &[
    (
        Made::Bytes(&[0x80, 1, 5, 0, 0, 0, 0x25, 0x21, 0x0a, 0x0a]),
        "refused: E03 segment cut short\n",
    ),
    (
        Made::Key(b"/lenIV 65 def"),
        "refused: E10 lenIV out of range\n",
    ),
    (Made::Key(b"/Subrs 0 array"), "refused: E12 second Subrs\n"),
    (
        Made::Cut(END_SEGMENT),
        "refused: E09 CharStrings malformed or absent\n",
    ),
];

/// Whether a refusal is printed as far as so many bytes go: where that isn't all, the run has failed.
fn prints_prefix(alloc: Global, file: &[u8], line: &str, room: usize) -> bool {
    let answer = answer_within(alloc, file, &ALL, FAR, FAR, Limit::Bytes(room));
    let line = line.as_bytes();
    match line.get(..room) {
        Some(told) if room == line.len() => answer.is(Status::Refused, b"", told),
        Some(told) => answer.is(Status::Failed, b"", told),
        None => false,
    }
}

/// Standard error fails after each count of a refusal's bytes.
fn assert_failed_refusals(rt: &impl Abort, alloc: Global, file: &[u8], line: &str) {
    for room in 0..line.len() + 1 {
        assert!(rt;
            prints_prefix(alloc, file, line, room),
            "{room} bytes of {line}"
        );
    }
}

#[test]
fn fails_where_nothing_can_be_printed(rt: HostRuntime) -> Result<(), Fail> {
    for (made, line) in REFUSED {
        let file = file_of(rt.alloc(), *made)?;
        assert_failed_refusals(&rt, rt.alloc(), file.as_slice(), line);
    }
    Ok(())
}
