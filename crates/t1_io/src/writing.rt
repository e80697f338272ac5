//! Writing a whole text, part after part, to a device that takes as much at once as it likes.

ghost use Rattle.t1_io.specs.Devices.{Delivers, Writes, whole_of};

use crate::{Broken, Sink};

/// Writes all of `bytes`, in one call of `put` or more. After a failure, a prefix of `bytes` was written.
pub fn put_all<W: Sink>(sink: &mut W, bytes: &[u8]) -> Result<(), Broken>
    ensures { Writes (W.state sink.old) (W.state sink.new) bytes.now result }
{
    let mut at = 0;
    while at < bytes.len() {
        at += sink.put(&bytes[at..])?;
    }
    Ok(())
}

/// Writes the parts of a text one after another, as [`put_all`] writes each. After a failure, a
/// prefix of the text was written.
pub fn put_parts<W: Sink>(sink: &mut W, parts: &[&[u8]]) -> Result<(), Broken>
    ensures { Writes (W.state sink.old) (W.state sink.new) (whole_of parts.now) result }
{
    for part in parts {
        put_all(sink, part)?;
    }
    Ok(())
}

/// Writes all of `bytes` and flushes them.
pub fn deliver<W: Sink>(sink: &mut W, bytes: &[u8]) -> Result<(), Broken>
    ensures { Delivers (W.state sink.old) (W.state sink.new) bytes.now result }
{
    put_all(sink, bytes)?;
    sink.flush()
}
