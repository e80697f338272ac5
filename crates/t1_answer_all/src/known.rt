//! The file of known faults.

ghost use Rattle.std.specs.Prelude.{◌≡◌, IfErr, IfOk};
ghost use Rattle.t1_answer_all.specs.Known.{IsKnownText, IsNotKnownText, IsWrong, file_of};
ghost use Rattle.t1_options.specs.Settings.Finding.{system_by};
ghost use Rattle.t1_answer_all.specs.Usage.{IsToldSo};
ghost use Rattle.t1_known.specs.Reads.{IsReadAs};

use crate::usage::{no_row, two_rows, unreadable};
use std::alloc::Global;
use t1_known::{KnownFaults, NotKnown};
use t1_names::{Cause, FileSystem};
use t1_options::Baseline;
use t1_run::UsageError;

/// The text of the file of known faults: empty where none is named, or where one is made that isn't there yet.
pub(crate) fn text_of_known<F: FileSystem>(
    alloc: Global,
    file: &Baseline,
    system: &mut F,
) -> Result<Vec<u8>, UsageError>
    ensures text { IfOk result (λ bytes. IsKnownText (system_by F.asks system.old system.new) file.now bytes.items) }
    ensures none { IfErr result (IsToldSo (IsNotKnownText (system_by F.asks system.old system.new) file.now)) }
{
    match file {
        Baseline::Unnamed => Ok(Vec::new(alloc)),
        Baseline::Compared(name) => match system.text(name.as_str()) {
            Some(Ok(text)) => Ok(text),
            Some(Err(error)) => Err(unreadable(alloc, name.as_str(), Cause::of(&error))),
            None => Err(unreadable(alloc, name.as_str(), Cause::NoFile)),
        },
        Baseline::Updated(name) => match system.text(name.as_str()) {
            Some(Ok(text)) => Ok(text),
            Some(Err(error)) => Err(unreadable(alloc, name.as_str(), Cause::of(&error))),
            None => Ok(Vec::new(alloc)),
        },
    }
}

/// The name of the file of known faults: empty where none is named.
pub(crate) fn file_of(file: &Baseline) -> &str
    ensures { result.now ≡ file_of file.now }
{
    match file {
        Baseline::Unnamed => "",
        Baseline::Compared(name) | Baseline::Updated(name) => name.as_str(),
    }
}

/// The known faults of the text of a file.
pub(crate) fn read_known<'a>(
    alloc: Global,
    file: &str,
    text: &'a [u8],
) -> Result<KnownFaults<'a>, UsageError>
    ensures rows { IfOk result (λ rows. IsReadAs text.now (Ok rows)) }
    ensures wrong { IfErr result (IsToldSo (IsWrong file.now text.now)) }
{
    match KnownFaults::read(alloc, text) {
        Ok(known) => Ok(known),
        Err(NotKnown::NoRow(line)) => Err(no_row(alloc, file, line)),
        Err(NotKnown::Twice(line)) => Err(two_rows(alloc, file, line)),
        Err(NotKnown::Memory) => Err(UsageError::Memory),
    }
}
