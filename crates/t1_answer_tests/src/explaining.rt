//! What is printed for words that parse to no options.

ghost use Rattle.std.specs.Prelude.{◌≡◌, true};
ghost use Rattle.t1_samples.specs.Limits.{lets_some_through};

use crate::command_line::{HELP, help_of};
use crate::devices::FAR;
use crate::shared::Answer;
use std::alloc::Global;
use std::test::Fail;
use t1_io::Out;
use t1_run::{Status, Streams, UsageError, explain};
use t1_samples::{Fuse, Limit};

/// What is printed for words that parse to no options, over an output with this limit.
fn explained(alloc: Global, error: &UsageError, output: Limit) -> Answer
    requires { lets_some_through output ≡ true }
{
    let mut text = Vec::new(alloc);
    let mut told = Vec::new(alloc);
    let mut streams = Streams {
        out: Fuse::sink(Out::new(&mut text), output),
        errors: Out::new(&mut told),
    };
    let status = explain("t1check", error, &mut streams);
    Answer {
        status,
        output: text,
        told,
    }
}

/// Words that parse to no options, by their kind.
#[derive(Clone, Copy)]
enum Kind {
    Usage,
    Memory,
    Help,
}

fn error_of(alloc: Global, kind: Kind) -> Result<UsageError, Fail> {
    match kind {
        Kind::Usage => Ok(UsageError::Usage(String::from_str(alloc, "usage\n")?)),
        Kind::Memory => Ok(UsageError::Memory),
        Kind::Help => help(alloc),
    }
}

fn help(alloc: Global) -> Result<UsageError, Fail> {
    Ok(UsageError::Help(help_of(alloc, &["t1check", "--help"])?))
}

/// The kind, the status, the output, and standard error.
const ROWS: &[(Kind, Status, &str, &str)] = &[
    (Kind::Usage, Status::Failed, "", "usage\n"),
    (Kind::Memory, Status::Failed, "", "t1check: out of memory\n"),
    (Kind::Help, Status::Clean, HELP, ""),
];

/// The same is printed a byte a write.
#[test]
fn explains_on_the_right_device(rt: HostRuntime) -> Result<(), Fail> {
    for (kind, status, output, told) in ROWS {
        let error = error_of(rt.alloc(), *kind)?;
        for limit in [FAR, Limit::BytesPerCall(1)] {
            let answer = explained(rt.alloc(), &error, limit);
            assert!(rt;
                answer.is(*status, output.as_bytes(), told.as_bytes()),
                "{output}{told}"
            );
        }
    }
    Ok(())
}

/// Whether help that fails after so many bytes reports the failed write.
fn reports_failed_help(alloc: Global, help: &UsageError, room: usize) -> bool {
    let answer = explained(alloc, help, Limit::Bytes(room));
    match HELP.as_bytes().get(..room) {
        Some(front) => answer.is(Status::Failed, front, b"t1check: write failed\n"),
        None => false,
    }
}

/// The output fails after each count of bytes of the help, the last time at the flush.
#[test]
fn reports_help_that_fails(rt: HostRuntime) -> Result<(), Fail> {
    let help = help(rt.alloc())?;
    for room in 0..HELP.len() + 1 {
        assert!(rt; reports_failed_help(rt.alloc(), &help, room), "{room}");
    }
    Ok(())
}
