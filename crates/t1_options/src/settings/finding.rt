//! Where a settings file is looked for.

ghost use Rattle.std.specs.Prelude.{◌≡◌, ◌<◌, IfErr, IfOk, IfSome, length, option_map, string_bytes};
ghost use Rattle.t1_options.specs.Settings.Finding.{AreNearest, AreSettled, AreUnsettled, BeginsAt, IsWrongAt, above, dot_is_empty, system_by, unread_text};
ghost use Rattle.t1_options.specs.Settings.Reading.{file_in, settings_value};
ghost use Rattle.t1_options.specs.Words.{IsUsageOr};

use super::paths::below;
use super::reading::{Settings, read_settings};
use std::alloc::{AllocError, Global};
use std::path::Path;
use t1_names::{Cause, FileSystem, is_input, trim_word};
use t1_run::UsageError;

/// Reads the nearest settings file at or above this path, the first of a command line. None where there is no such file.
pub fn settings_for<F: FileSystem>(
    alloc: Global,
    path: Option<&str>,
    files: &mut F,
) -> Result<Option<Settings>, UsageError>
    ensures settled { IfOk result (λ settings. AreSettled (system_by F.asks files.old files.new) (option_map (λ s. s.now) path.entry)
        (option_map settings_value settings)) }
    ensures unsettled { IfErr result (IsUsageOr (AreUnsettled (system_by F.asks files.old files.new) (option_map (λ s. s.now) path.entry))) }
{
    let start = start_of(path, files);
    nearest(alloc, start, files)
}

/// The settings of the nearest file, in this folder or above it.
fn nearest<F: FileSystem>(
    alloc: Global,
    start: &str,
    files: &mut F,
) -> Result<Option<Settings>, UsageError>
    ensures nearest { IfOk result (λ settings. AreNearest F.asks files.old files.new start.now (option_map settings_value settings)) }
    ensures wrong { IfErr result (IsUsageOr (IsWrongAt F.asks files.old files.new start.now)) }
{
    let mut folder = start;
    loop {
        let file = file_in(alloc, folder)?;
        match files.text(file.as_str()) {
            Some(Ok(text)) => {
                let settings = read_settings(alloc, folder, file, text.as_slice())?;
                return Ok(Some(settings));
            }
            Some(Err(error)) => {
                let text = unread_text(alloc, file.as_str(), Cause::of(&error))?;
                return Err(UsageError::Usage(text));
            }
            None => {}
        }
        match above(folder) {
            Some(next) => folder = next,
            None => return Ok(None),
        }
    }
}

/// What is printed of a file that can't be read, for this cause.
pub fn unread_text(alloc: Global, file: &str, cause: Cause) -> Result<String, AllocError>
    ensures { IfOk result (λ text. string_bytes text ≡ unread_text file.now cause) }
{
    let mut text = String::from_str(alloc, "t1check-all: ")?;
    text.push_str(file)?;
    text.push_str(" can't be read")?;
    text.push_str(cause.text())?;
    text.push_str("\n")?;
    Ok(text)
}

/// The name of a folder's settings file.
fn file_in(alloc: Global, folder: &str) -> Result<String, AllocError>
    ensures { IfOk result (λ name. string_bytes name ≡ file_in folder.now) }
{
    below(alloc, folder, ".t1check.toml")
}

/// The folder above a folder, by its name.
fn above(folder: &str) -> Option<&str>
    ensures value { option_map (λ s. s.now) result ≡ above folder.now }
    ensures shorter { IfSome result (λ next. length next.now < length folder.now) }
{
    let path = Path::new(folder);
    if path.file_name().is_none() {
        return None;
    }
    match path.parent() {
        Some(parent) => Some(parent.as_str()),
        None => None,
    }
}

/// Where the search begins for this first path.
fn start_of<'a, F: FileSystem>(path: Option<&'a str>, files: &mut F) -> &'a str
    ensures { BeginsAt F.asks files.old files.new (option_map (λ s. s.now) path.entry) result.now }
{
    match path {
        Some(path) => start_at(path, files),
        None => "",
    }
}

/// Where the search begins for this path.
fn start_at<'a, F: FileSystem>(path: &'a str, files: &mut F) -> &'a str
    ensures { BeginsAt F.asks files.old files.new (Some path.now) result.now }
{
    if is_input(path) {
        return "";
    }
    without_dot(trim_word(path, files))
}

/// `.` is the working folder, whose name is empty here.
fn without_dot(folder: &str) -> &str
    ensures { result.now ≡ dot_is_empty folder.now }
{
    if folder == "." { "" } else { folder }
}
