//! Checks fonts one after another.

ghost use Rattle.std.specs.Prelude.{◌≡◌, IfOk, IfSome, false, map, option_map, string_bytes};
ghost use Rattle.t1_io.specs.Devices.{is_over};
ghost use Rattle.t1_many.specs.Calls.{opened_in};
ghost use Rattle.t1_many.specs.Ends.{Ends};
ghost use Rattle.t1_many.specs.Files.{files_by};
ghost use Rattle.t1_many.specs.FontFiles.{asks};
ghost use Rattle.t1_many.specs.Handing.{lost_of};
ghost use Rattle.t1_many.specs.Private.Checking.{AsksWaivers, ChecksNamed, TakesOne, or_error};
ghost use Rattle.t1_many.specs.Recipients.{recipient_by};

use crate::font_error::{FontError, Obstacle};
use crate::font_files::{FontFiles, WaiverFiles};
use crate::one_font::check_opened;
use crate::policy::{Policy, Taken};
use crate::unchecked::has_line_end;
use std::alloc::Global;
use std::io;
use t1_char::Edition;
use t1_io::In;
use t1_names::Cause;
use t1_run::Failure;

/// Checks the fonts of these names in order, with their waivers where these are read and a font has some. The policy takes how each check
/// ended. A font that can't be read stops no other one.
pub fn check_all<F: FontFiles, T: Policy>(
    alloc: Global,
    names: &[String],
    beside: WaiverFiles,
    files: &mut F,
    edition: Edition,
    policy: &mut T,
) -> Taken
    ensures { Ends (recipient_by T.takes policy.old policy.new) (files_by F.calls beside files.old files.new) edition
        (map string_bytes names.now) (lost_of result) }
{
    for name in names {
        check_one(alloc, name.as_str(), beside, files, edition, policy)?;
    }
    Ok(())
}

/// Checks the font of a name, and hands on how the check ended.
fn check_one<F: FontFiles, T: Policy>(
    alloc: Global,
    name: &str,
    beside: WaiverFiles,
    files: &mut F,
    edition: Edition,
    policy: &mut T,
) -> Taken
    ensures { TakesOne (recipient_by T.takes policy.old policy.new) (files_by F.calls beside files.old files.new) edition name.now
        (lost_of result) }
{
    match check_named(alloc, name, beside, files, edition, policy) {
        Ok(taken) => taken,
        Err(error) => policy.failure(name, error),
    }
}

/// Opens the font of a name and its waivers, both before any is read, checks it, and leaves both. A font whose name has a line end isn't opened.
fn check_named<F: FontFiles, T: Policy>(
    alloc: Global,
    name: &str,
    beside: WaiverFiles,
    files: &mut F,
    edition: Edition,
    policy: &mut T,
) -> Result<Taken, FontError>
    ensures { ChecksNamed (recipient_by T.takes policy.old policy.new) (files_by F.calls beside files.old files.new) edition
        name.now result }
{
    if has_line_end(name) {
        return Err(FontError::Unchecked(Obstacle::LineEnd));
    }
    let mut font = match files.open_font(name) {
        Ok(font) => font,
        Err(error) => return Err(FontError::Unchecked(Obstacle::Unread(Cause::of(&error)))),
    };
    match open_asked(name, beside.asks(name), files) {
        None => {
            let mut none = In::new(io::empty());
            let taken = check_opened(alloc, name, &mut font, &mut none, false, edition, policy);
            files.leave_font(name, font);
            or_error(taken)
        }
        Some(Ok(mut waivers)) => {
            let taken = check_opened(alloc, name, &mut font, &mut waivers, true, edition, policy);
            files.leave_font(name, font);
            files.leave_waivers(name, waivers);
            or_error(taken)
        }
        Some(Err(error)) => {
            files.leave_font(name, font);
            Err(FontError::Unchecked(Obstacle::WaiversUnread(Cause::of(&error))))
        }
    }
}

/// What a check gave, or why there is no report.
fn or_error(taken: Result<Taken, Failure>) -> Result<Taken, FontError>
    ensures { result ≡ or_error taken }
{
    match taken {
        Ok(taken) => Ok(taken),
        Err(failure) => Err(FontError::from(failure)),
    }
}

/// Opens the waivers of a font, if they are asked for and it has some.
fn open_asked<F: FontFiles>(
    name: &str,
    are_asked: bool,
    files: &mut F,
) -> Option<io::Result<F::Waivers>>
    ensures asks { AsksWaivers (recipient_by F.calls.OpensWaivers files.old files.new) are_asked name.now
        (option_map (opened_in F.Waivers.state) result) }
    ensures unread { IfSome result (λ opened. IfOk opened (λ file. is_over (F.Waivers.state file) ≡ false)) }
{
    if are_asked {
        files.open_waivers(name)
    } else {
        None
    }
}
