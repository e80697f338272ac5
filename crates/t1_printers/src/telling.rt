//! What is told of a font.

ghost use Rattle.std.specs.Prelude.{◌≡◌, Some, option_map, true};
ghost use Rattle.t1_forms.specs.Tellings.{reason_value, what_spelled, what_value};
ghost use Rattle.t1_many.specs.Handing.{lost_of};

use crate::formatter::Formatter;
use std::alloc::Global;
use t1_forms::{Told, ToldReason, What};
use t1_io::Sink;
use t1_many::Lost;

/// Gives a formatter what is told of the font of a name, with its line where it shows lines, and perhaps its reason.
pub fn give<'a, T: Formatter, W: Sink>(
    alloc: Global,
    formatter: &mut T,
    out: &mut W,
    font: &'a [u8],
    what: What<'a>,
    line: &'a [u8],
    reason: Option<ToldReason<'a>>,
) -> Result<(), Lost>
    requires { T.has_lines ≡ true → line.now ≡ what_spelled (what_value what) }
    ensures { T.writes (record { formatter = formatter.old; out = W.state out.old }) (record { formatter = formatter.new; out = W.state out.new })
        (record { font = Some font.now; what = what_value what.entry; reason = option_map reason_value reason.entry }) (lost_of result) }
{
    let told = Told {
        font: Some(font),
        what,
        line,
        reason,
    };
    formatter.write(alloc, out, &told)
}
