//! What the tests share: runs over devices in memory, and their answers.

ghost use Rattle.std.specs.Prelude.{◌≡◌, false};

use std::alloc::Global;
use std::io;
use t1_answer::CheckOptions;
use t1_char::Edition;
use t1_io::{In, Out, Sink, Source};
use t1_run::{Status, Streams, run};

/// What the program returns and prints.
#[derive(Drop)]
pub(crate) struct Answer {
    pub(crate) status: Status,
    pub(crate) output: Vec<u8>,
    pub(crate) told: Vec<u8>,
}

impl Answer {
    /// Whether this is the answer: the status, the whole output, and the whole of standard error.
    pub(crate) fn is(&self, status: Status, output: &[u8], told: &[u8]) -> bool {
        self.status == status && self.output.as_slice() == output && self.told.as_slice() == told
    }
}

/// The report of a PFB file without an end segment.
pub(crate) const NO_END_REPORT: &str = "1: font file 0 F01 no end segment\n";

/// The whole report, of standard input.
pub(crate) const ALL: CheckOptions = CheckOptions {
    after: 0,
    max: None,
    trace: None,
    waive: None,
    edition: Edition::One,
    file: None,
};

/// Runs the program on a font and on waivers, over a standard error that doesn't fail, and returns the status and what
/// was printed there.
pub(crate) fn run_over<R: Source, V: Source, W: Sink + Drop>(
    alloc: Global,
    font: &mut R,
    waivers: &mut V,
    options: &CheckOptions,
    out: W,
) -> (Status, Vec<u8>)
    requires { (R.state font.old).failed ≡ false }
{
    let mut told = Vec::new(alloc);
    let errors = Out::new(&mut told);
    let status = run(alloc, options, font, waivers, &mut Streams { out, errors });
    (status, told)
}

/// The same, and what was written on an output that doesn't fail.
pub(crate) fn answer_over<R: Source, V: Source>(
    alloc: Global,
    font: &mut R,
    waivers: &mut V,
    options: &CheckOptions,
) -> Answer
    requires { (R.state font.old).failed ≡ false }
{
    let mut output = Vec::new(alloc);
    let (status, told) = run_over(alloc, font, waivers, options, Out::new(&mut output));
    Answer {
        status,
        output,
        told,
    }
}

/// Runs the program on bytes, over devices that don't fail, for the whole report.
pub(crate) fn answer_to(alloc: Global, bytes: &[u8]) -> Answer {
    answer_over(alloc, &mut In::new(bytes), &mut In::new(io::empty()), &ALL)
}

/// Whether the program finds nothing to report of a file.
pub(crate) fn is_clean(alloc: Global, file: &[u8]) -> bool {
    answer_to(alloc, file).is(Status::Clean, b"", b"")
}

/// Whether the program refuses a file with this line alone.
pub(crate) fn is_refused(alloc: Global, file: &[u8], line: &str) -> bool {
    answer_to(alloc, file).is(Status::Refused, b"", line.as_bytes())
}
