//! Files, read to their end within a limit.

ghost use Rattle.std.specs.Prelude.{◌≡◌, ◌≤◌, ◌+◌, false, MatchResult};
ghost use Rattle.t1_font.specs.declared.unread.RefusalCode.TheVariants.{E05};
ghost use Rattle.t1_io.specs.Devices.{is_over};
ghost use Rattle.t1_report.specs.Waivers.{largest_waivers};
ghost use Rattle.t1_run.specs.FontFiles.{largest_file};
ghost use Rattle.t1_run.specs.Input.{AreAll, AreUnread, ReadsAtMost, TakesAtMost};
ghost use Rattle.t1_run.specs.WaiverFiles.{IsNoWaiverText, IsWaiverText};

use crate::failure::Failure;
use std::alloc::Global;
use t1_font::RefusalCode;
use t1_io::Source;
use t1_report::LARGEST_WAIVERS;

/// The greatest size of a font's file, in bytes.
pub const LARGEST_FILE: usize = 16_777_216;

/// How many bytes are requested at once.
const ROOM: usize = 16_384;

/// How many bytes there is room for from the start: most files of fonts have fewer, and so no byte is moved while they are read.
const USUAL_FILE: usize = 131_072;

/// Reads the bytes of a font's file: all of a source until its end. More than 16,777,216 are refused, by E05.
pub fn read_font_file<R: Source>(alloc: Global, source: &mut R) -> Result<Vec<u8>, Failure>
    ensures gathers { MatchResult result (λ bytes. AreAll largest_file (R.state source.old) (R.state source.new) bytes.items)
        (AreUnread largest_file E05 (R.state source.old) (R.state source.new)) }
    ensures takes { (R.state source.new).takes ≤ (R.state source.old).takes + (largest_file + 1) }
    ensures taken { TakesAtMost (largest_file + 1) (R.state source.old) (R.state source.new) }
    ensures stops { is_over (R.state source.old) ≡ false
        → (R.state source.new).late_takes ≡ (R.state source.old).late_takes }
{
    read_all(alloc, source, LARGEST_FILE, RefusalCode::E05)
}

/// Reads a text of waivers if they are requested. Else the source is left alone, and the text is empty. More than
/// 1,048,576 bytes are refused, by E15.
pub fn read_waivers<R: Source>(
    alloc: Global,
    source: &mut R,
    asked: bool,
) -> Result<Vec<u8>, Failure>
    ensures text { MatchResult result (λ text. IsWaiverText asked (R.state source.old) (R.state source.new) text.items)
        (IsNoWaiverText asked (R.state source.old) (R.state source.new)) }
    ensures reads { ReadsAtMost (largest_waivers + 1) (R.state source.old) (R.state source.new) }
{
    if asked {
        read_all(alloc, source, LARGEST_WAIVERS, RefusalCode::E15)
    } else {
        Ok(Vec::new(alloc))
    }
}

/// Reads to the end of a source, in as few calls as it allows. It reads no further than one byte past `most`, and fails
/// by the number `past` then.
fn read_all<R: Source>(
    alloc: Global,
    source: &mut R,
    most: usize,
    past: RefusalCode,
) -> Result<Vec<u8>, Failure>
    requires most { most ≤ largest_file }
    ensures gathers { MatchResult result (λ bytes. AreAll most (R.state source.old) (R.state source.new) bytes.items)
        (AreUnread most past (R.state source.old) (R.state source.new)) }
    ensures takes { (R.state source.new).takes ≤ (R.state source.old).takes + (most + 1) }
    ensures taken { TakesAtMost (most + 1) (R.state source.old) (R.state source.new) }
    ensures stops { is_over (R.state source.old) ≡ false
        → (R.state source.new).late_takes ≡ (R.state source.old).late_takes }
{
    let mut bytes = Vec::with_capacity(alloc, USUAL_FILE)?;
    let mut buffer = [0u8; ROOM];
    for _turn in 0..most + 1 {
        let room = (most + 1 - bytes.len()).min(ROOM);
        match source.take(&mut buffer[..room]) {
            Err(_) => return Err(Failure::Broken),
            Ok(0) => return Ok(bytes),
            Ok(count) => {
                if bytes.extend_from_slice(&buffer[..count]).is_err() {
                    return Err(Failure::Memory);
                }
                if bytes.len() > most {
                    return Err(Failure::Refused(past));
                }
            }
        }
    }
    // It isn't reached: each turn that isn't the last brings a byte, and after so many there are more than the most.
    unreachable!()
}
