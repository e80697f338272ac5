//! Files that are replaced once all was printed.

ghost use Rattle.std.specs.Prelude.{◌≡◌, IfOk, map, option_map, string_bytes};
ghost use Rattle.t1_answer_all.specs.Replacing.{IsKeptBack, PutsEach, PutsFile, PutsKnownFaults, PutsWaivers, PutsWaiversOf, Replaces, TriesToPut, overwrites, status_if, unwritten_text, waivers_name};
ghost use Rattle.t1_answer_all.specs.Endings.{left_value};
ghost use Rattle.t1_run.specs.Telling.{Tells};
ghost use Rattle.t1_waiving.specs.FontTexts.{font_text};

use crate::ending::Left;
use crate::running::PROGRAM;
use std::alloc::{AllocError, Global};
use t1_io::Sink;
use t1_names::{Cause, FileStore};
use t1_options::{Baseline, Options, Waivers};
use t1_run::{Failure, Status, tell_failure, tell_parts};
use t1_waiving::{FontWaivers, Kept};

/// Replaces the files that a run by these options left to be replaced, and returns the status. A file that can't be replaced is reported; so are
/// waivers that are there already, unless they are overwritten. Then the status is that of a failure, and the rest is done all the same.
pub fn replace_files<F: FileStore, E: Sink>(
    alloc: Global,
    options: &Options,
    left: &Left,
    files: &mut F,
    errors: &mut E,
) -> Status
    ensures { Replaces (record { Puts = F.puts; Has = F.has }) options.now (left_value left.now)
        (record { files = files.old; files' = files.new; errors = E.state errors.old; errors' = E.state errors.new }) result }
{
    let known_faults = put_known_faults(&options.known_faults, &left.known_faults, files, errors);
    let overwrites = overwrites(options.waivers);
    let waivers = put_waivers(alloc, &left.waivers, overwrites, files, errors);
    status_if(known_faults & waivers, left.status)
}

/// Whether waivers are written over those that are there.
fn overwrites(waivers: Waivers) -> bool
    ensures { result ≡ overwrites waivers }
{
    match waivers {
        Waivers::Overwritten => true,
        Waivers::Read | Waivers::LeftAside | Waivers::Written => false,
    }
}

/// The status, unless something failed.
fn status_if(done: bool, status: Status) -> Status
    ensures { result ≡ status_if done status }
{
    if done { status } else { Status::Failed }
}

/// Replaces the file of known faults, if it is made anew and there is a text for it. Whether nothing failed.
fn put_known_faults<F: FileStore, E: Sink>(
    file: &Baseline,
    text: &Option<Vec<u8>>,
    files: &mut F,
    errors: &mut E,
) -> bool
    ensures { PutsKnownFaults (record { Puts = F.puts; Has = F.has }) file.now (option_map (λ t. t.items) text.now)
        (record { files = files.old; files' = files.new; errors = E.state errors.old; errors' = E.state errors.new }) result }
{
    match (file, text) {
        (Baseline::Updated(name), Some(text)) => put_file(
            name.as_str(),
            text.as_slice(),
            files,
            errors,
        ),
        _ => true,
    }
}

/// Writes waivers beside their fonts, if some are to be written. Whether nothing failed.
fn put_waivers<F: FileStore, E: Sink>(
    alloc: Global,
    waivers: &Option<Kept>,
    overwrites: bool,
    files: &mut F,
    errors: &mut E,
) -> bool
    ensures { PutsWaivers (record { Puts = F.puts; Has = F.has }) overwrites waivers.now
        (record { files = files.old; files' = files.new; errors = E.state errors.old; errors' = E.state errors.new }) result }
{
    match waivers {
        Some(waivers) => put_each(alloc, waivers.fonts(), overwrites, files, errors),
        None => true,
    }
}

/// Writes the waivers of these fonts. Whether nothing failed.
fn put_each<F: FileStore, E: Sink>(
    alloc: Global,
    fonts: &[FontWaivers],
    overwrites: bool,
    files: &mut F,
    errors: &mut E,
) -> bool
    ensures { PutsEach (record { Puts = F.puts; Has = F.has }) overwrites (map font_text fonts.now)
        (record { files = files.old; files' = files.new; errors = E.state errors.old; errors' = E.state errors.new }) result }
{
    let mut done = true;
    for font in fonts {
        let one = put_font(alloc, font, overwrites, files, errors);
        done = done & one;
    }
    done
}

/// Writes the waivers of a font, if they have a text, and there are none already or they are overwritten. Whether nothing failed.
fn put_font<F: FileStore, E: Sink>(
    alloc: Global,
    font: &FontWaivers,
    overwrites: bool,
    files: &mut F,
    errors: &mut E,
) -> bool
    ensures { PutsWaiversOf (record { Puts = F.puts; Has = F.has }) overwrites (font_text font.now)
        (record { files = files.old; files' = files.new; errors = E.state errors.old; errors' = E.state errors.new }) result }
{
    match &font.text {
        Some(text) => put_text(
            alloc,
            font.name.as_str(),
            text.as_slice(),
            overwrites,
            files,
            errors,
        ),
        None => true,
    }
}

/// Writes the waivers of the font of this name. Whether nothing failed.
fn put_text<F: FileStore, E: Sink>(
    alloc: Global,
    font: &str,
    text: &[u8],
    overwrites: bool,
    files: &mut F,
    errors: &mut E,
) -> bool
    ensures { TriesToPut (record { Puts = F.puts; Has = F.has }) overwrites font.now text.now
        (record { files = files.old; files' = files.new; errors = E.state errors.old; errors' = E.state errors.new }) result }
{
    let Ok(name) = waivers_name(alloc, font) else {
        tell_failure(PROGRAM, Failure::Memory, errors);
        return false;
    };
    if is_kept_back(overwrites, name.as_str(), files) {
        tell_parts(
            errors,
            &[
                font.as_bytes(),
                b": waivers are there already; --force overwrites them\n",
            ],
            Status::Failed,
        );
        return false;
    }
    put_file(name.as_str(), text, files, errors)
}

/// Whether waivers are kept back, since there are some already.
fn is_kept_back<F: FileStore>(overwrites: bool, name: &str, files: &mut F) -> bool
    ensures { IsKeptBack F.has overwrites files.old files.new name.now result }
{
    if overwrites {
        return false;
    }
    files.is_there(name)
}

/// The name of a font's file of waivers.
pub fn waivers_name(alloc: Global, font: &str) -> Result<String, AllocError>
    ensures { IfOk result (λ name. string_bytes name ≡ waivers_name font.now) }
{
    let mut name = String::from_str(alloc, font)?;
    name.push_str(".waivers")?;
    Ok(name)
}

/// Puts a text in the place of a file, and prints a failure. Whether it succeeded.
fn put_file<F: FileStore, E: Sink>(name: &str, text: &[u8], files: &mut F, errors: &mut E) -> bool
    ensures { PutsFile (record { Puts = F.puts; Has = F.has }) name.now text.now
        (record { files = files.old; files' = files.new; errors = E.state errors.old; errors' = E.state errors.new }) result }
{
    match files.replace(name, text) {
        Ok(()) => true,
        Err(error) => {
            tell_unwritten(name, Cause::of(&error).text(), errors);
            false
        }
    }
}

/// Prints that a file can't be written, and why.
fn tell_unwritten<'a, E: Sink>(name: &'a str, cause: &'a str, errors: &mut E) -> Status
    ensures { Tells (unwritten_text name.now cause.now) Status.Failed (E.state errors.old) (E.state errors.new) result }
{
    tell_parts(
        errors,
        &[
            PROGRAM.as_bytes(),
            b": ",
            name.as_bytes(),
            b" can't be written",
            cause.as_bytes(),
            b"\n",
        ],
        Status::Failed,
    )
}
