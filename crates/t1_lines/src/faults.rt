//! What the line of a fault says.

ghost use Rattle.std.specs.Prelude.{◌≡◌, slice_get};
ghost use Rattle.t1_lines.specs.Lines.{fault_line_value, line_in, place_in, place_value, waiver_in};
ghost use Rattle.t1_report.specs.Faults.{fault_value};
ghost use Rattle.t1_report.specs.Lines.{IsInFont};

use crate::line::{FaultLine, Place};
use t1_font::{Font, copy_of};
use t1_report::{Fault, FaultPlace, Waivers};
use t1_rules::Rule;

/// What the line of a fault says.
pub fn fault_line<'a>(font: &'a Font<'_>, waivers: &'a Waivers<'_>, fault: &Fault) -> FaultLine<'a>
    requires { IsInFont font.now waivers.now (fault_value fault.now) }
    ensures { fault_line_value result ≡ line_in font.now waivers.now (fault_value fault.now) }
{
    FaultLine {
        number: fault.number,
        place: place_of(font, waivers, fault),
        rule: fault.rule,
    }
}

/// Where a fault is.
pub fn place_of<'a>(font: &'a Font<'_>, waivers: &'a Waivers<'_>, fault: &Fault) -> Place<'a>
    requires { IsInFont font.now waivers.now (fault_value fault.now) }
    ensures { place_value result ≡ place_in font.now waivers.now (fault_value fault.now) }
{
    match fault.place(font) {
        FaultPlace::Key { key, index } => Place::Key { key, index },
        FaultPlace::Glyph(glyph) => Place::Step {
            name: font.glyph_name(glyph),
            path: copy_of(&fault.path),
            step: fault.step,
        },
        FaultPlace::Waiver(number) => waiver_place(waivers, number),
    }
}

/// The waiver of a number.
fn waiver_place<'a>(waivers: &'a Waivers<'_>, number: usize) -> Place<'a>
    ensures { place_value result ≡ waiver_in (slice_get waivers.now number) }
{
    match waivers.pair(number) {
        Some((name, rule)) => Place::Waiver { name, rule },
        None => Place::Waiver {
            name: &[],
            rule: Rule::U01,
        },
    }
}
