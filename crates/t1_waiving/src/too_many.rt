//! Fonts with more waivers than are read.

ghost use Rattle.std.specs.Prelude.{◌≡◌, IfOk};
ghost use Rattle.std.specs.List.{flat_map};
ghost use Rattle.t1_io.specs.Devices.{Writes};
ghost use Rattle.t1_waiving.specs.TooMany.{status_of_texts, too_many_line};

use crate::kept::Kept;
use t1_io::{Broken, Sink, put_parts};
use t1_run::Status;

/// Names the fonts that have more waivers than are read, a line `NAME: too many waivers` each, and returns the status:
/// failed where there is one.
pub fn tell_too_many<W: Sink>(errors: &mut W, kept: &Kept) -> Result<Status, Broken>
    ensures told { Writes (W.state errors.old) (W.state errors.new) (flat_map too_many_line kept.now) result }
    ensures status { IfOk result (λ status. status ≡ status_of_texts kept.now) }
{
    let fonts = kept.fonts();
    let mut status = Status::Clean;
    for font in fonts {
        if font.text.is_none() {
            put_parts(errors, &[font.name.as_bytes(), b": too many waivers\n"])?;
            status = Status::Failed;
        }
    }
    Ok(status)
}
