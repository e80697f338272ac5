//! Fonts that aren't checked, as they are reported on standard error.

ghost use Rattle.std.specs.Prelude.{◌≡◌, [], if◌then◌else◌};
ghost use Rattle.t1_io.specs.Devices.{Writes};
ghost use Rattle.t1_many.specs.Unchecked.{has_line_end, in_one_line, shown_byte, unchecked_line};

use t1_io::{Broken, Sink, put_all, put_parts};

/// Whether a name has a line end, and so can't be in a line.
pub(crate) fn has_line_end(name: &str) -> bool
    ensures { result ≡ has_line_end name.now }
{
    name.as_bytes().contains(&b'\n')
}

/// Reports that the font of a name isn't checked, as `NAME: t1check: REASON`, in one line.
pub fn tell_unchecked<W: Sink>(sink: &mut W, name: &str, reason: &str) -> Result<(), Broken>
    ensures { Writes (W.state sink.old) (W.state sink.new) (unchecked_line name.now reason.now) result }
{
    put_in_one_line(sink, name)?;
    put_parts(sink, &[b": t1check: ", reason.as_bytes(), b"\n"])
}

/// Puts a name, with `\n` in the place of each line end.
pub fn put_in_one_line<W: Sink>(sink: &mut W, name: &str) -> Result<(), Broken>
    ensures { Writes (W.state sink.old) (W.state sink.new) (in_one_line name.now) result }
{
    for byte in name.as_bytes() {
        put_shown(sink, *byte)?;
    }
    Ok(())
}

/// Puts a byte of a name.
fn put_shown<W: Sink>(sink: &mut W, byte: u8) -> Result<(), Broken>
    ensures { Writes (W.state sink.old) (W.state sink.new) (shown_byte byte) result }
{
    if byte == b'\n' {
        put_all(sink, b"\\n")
    } else {
        put_all(sink, &[byte])
    }
}
