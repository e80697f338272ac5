//! Readers and writers of std of which one call fails, and each later one works again.

use crate::runs::{RUNS, Run, run_of};
use crate::shared::{ALL, answer_over, run_over};
use std::alloc::Global;
use std::io;
use std::io::{Read, Write};
use std::process::Abort;
use std::test::Fail;
use t1_answer::CheckOptions;
use t1_io::{In, Out};
use t1_run::Status;

/// How many bytes a read returns at most.
const BYTES_PER_READ: usize = 100;

/// A reader of bytes that counts its reads, and fails at one of them.
#[derive(Drop)]
struct Reads<'a> {
    left: &'a [u8],
    count: u64,
    fails_at: u64,
}

impl Read for Reads<'_> {
    fn read(&mut self, buffer: &mut [u8]) -> io::Result<usize> {
        self.count = self.count.saturating_add(1);
        if self.count == self.fails_at {
            return Err(io::Error::from(io::ErrorKind::Other));
        }
        let room = buffer.len().min(BYTES_PER_READ);
        self.left.read(&mut buffer[..room])
    }
}

/// The call of a writer that fails, the first being 1.
#[derive(Clone, Copy, Debug, PartialEq, Eq)]
enum Failing {
    /// No call.
    None,
    /// This write.
    Write(u64),
    /// This write, which takes no byte and returns no error.
    TakesNone(u64),
    /// This flush.
    Flush(u64),
}

/// A writer that keeps what is written and counts its calls, and fails at one of them.
#[derive(Drop)]
struct Writes {
    text: Vec<u8>,
    writes: u64,
    flushes: u64,
    failing: Failing,
}

impl Write for Writes {
    fn write(&mut self, bytes: &[u8]) -> io::Result<usize> {
        self.writes = self.writes.saturating_add(1);
        if self.failing == Failing::Write(self.writes) {
            return Err(io::Error::from(io::ErrorKind::Other));
        }
        if self.failing == Failing::TakesNone(self.writes) {
            return Ok(0);
        }
        self.text.write(bytes)
    }

    fn flush(&mut self) -> io::Result<()> {
        self.flushes = self.flushes.saturating_add(1);
        if self.failing == Failing::Flush(self.flushes) {
            return Err(io::Error::from(io::ErrorKind::Other));
        }
        Ok(())
    }
}

/// A writer that fails at this call.
fn writer(alloc: Global, failing: Failing) -> Writes {
    Writes {
        text: Vec::new(alloc),
        writes: 0,
        flushes: 0,
        failing,
    }
}

/// Runs the program on a file and this writer, and returns the status and what was printed on standard error.
fn run_into(
    alloc: Global,
    file: &[u8],
    options: &CheckOptions,
    writer: &mut Writes,
) -> (Status, Vec<u8>) {
    run_over(
        alloc,
        &mut In::new(file),
        &mut In::new(io::empty()),
        options,
        Out::new(writer),
    )
}

/// Whether a run of `whole` reads ends at the read that fails, or at the end of the file.
fn ends_at_read(alloc: Global, run: &Run, whole: u64, fails_at: u64) -> bool {
    let mut reader = Reads {
        left: run.file.as_slice(),
        count: 0,
        fails_at,
    };
    let answer = answer_over(
        alloc,
        &mut In::new(&mut reader),
        &mut In::new(io::empty()),
        &run.options,
    );
    let is_answered = if fails_at > whole {
        answer.is(run.status, run.text.as_bytes(), b"")
    } else {
        answer.is(Status::Failed, b"", b"t1check: read failed\n")
    };
    is_answered && reader.count == fails_at.min(whole)
}

/// The file is read part by part, and the last read finds its end; where read k fails, k are made.
fn assert_failed_reads(rt: &impl Abort, alloc: Global, run: &Run) {
    let whole = (run.file.len() / BYTES_PER_READ + 2) as u64;
    for fails_at in 1..whole + 2 {
        assert!(rt;
            ends_at_read(alloc, run, whole, fails_at),
            "at {fails_at} for {:?}",
            run.text
        );
    }
}

/// How many writes a run makes, if it writes its whole text.
fn count_writes(alloc: Global, run: &Run) -> Option<u64> {
    let mut output = writer(alloc, Failing::None);
    let (status, told) = run_into(alloc, run.file.as_slice(), &run.options, &mut output);
    let is_whole = output.text.as_slice() == run.text.as_bytes() && told.is_empty();
    (status == run.status && is_whole).then_some(output.writes)
}

/// Whether a write that fails ends the run with a prefix of the text, and nothing is flushed.
fn ends_at_write(alloc: Global, run: &Run, failing: Failing, place: u64) -> bool {
    let text = run.text.as_bytes();
    let mut output = writer(alloc, failing);
    let (status, told) = run_into(alloc, run.file.as_slice(), &run.options, &mut output);
    let is_told = told.as_slice() == b"t1check: write failed\n".as_slice();
    let is_front = text.starts_with(output.text.as_slice()) && output.text.len() < text.len();
    let is_last = output.writes == place && output.flushes == 0;
    status == Status::Failed && is_told && is_front && is_last
}

/// Each write of a run fails in turn, with an error and by taking no byte.
fn assert_failed_writes(rt: &impl Abort, alloc: Global, run: &Run, writes: u64) {
    for place in 1..writes.saturating_add(1) {
        for failing in [Failing::Write(place), Failing::TakesNone(place)] {
            assert!(rt;
                ends_at_write(alloc, run, failing, place),
                "{failing:?} for {:?}",
                run.text
            );
        }
    }
}

/// Whether the whole text is written and flushed once, and a first flush that fails is reported.
fn is_flushed_once(alloc: Global, run: &Run, place: u64) -> bool {
    let mut output = writer(alloc, Failing::Flush(place));
    let (status, told) = run_into(alloc, run.file.as_slice(), &run.options, &mut output);
    let is_whole = output.text.as_slice() == run.text.as_bytes();
    let is_answered = if place == 1 {
        status == Status::Failed && told.as_slice() == b"t1check: write failed\n".as_slice()
    } else {
        status == run.status && told.is_empty()
    };
    is_answered && is_whole && output.flushes == 1
}

/// The flush reaches the writer, once; where it fails the whole text was written, and the failure is reported.
fn assert_flushed_once(rt: &impl Abort, alloc: Global, run: &Run) {
    for place in 0..3u64 {
        assert!(rt;
            is_flushed_once(alloc, run, place),
            "at {place} for {:?}",
            run.text
        );
    }
}

/// Each read and each write fails in turn, and a flush: what was written before it reached the writer.
fn assert_ended(rt: &impl Abort, alloc: Global, run: &Run) -> Result<(), Fail> {
    assert_failed_reads(rt, alloc, run);
    let writes = count_writes(alloc, run).ok_or("the whole text")?;
    assert_failed_writes(rt, alloc, run, writes);
    assert_flushed_once(rt, alloc, run);
    Ok(())
}

#[test]
fn a_call_that_fails_once_ends_the_run(rt: HostRuntime) -> Result<(), Fail> {
    for row in RUNS {
        let run = run_of(rt.alloc(), row)?;
        assert_ended(&rt, rt.alloc(), &run)?;
    }
    Ok(())
}

/// A refusal leaves the output alone; standard error isn't flushed, as nothing of it waits.
#[test]
fn a_refusal_flushes_nothing(rt: HostRuntime) {
    let mut output = writer(rt.alloc(), Failing::None);
    let (status, _told) = run_into(rt.alloc(), b"", &ALL, &mut output);
    assert_eq!(rt; status, Status::Refused);
    assert_eq!(rt; (output.writes, output.flushes), (0, 0));
}
