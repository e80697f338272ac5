//! The report of a font, as a walk returns it.

ghost use Rattle.std.specs.Prelude.{◌≤◌, IfOk, IfSome, length, option_map};
ghost use Rattle.std.specs.List.{All};
ghost use Rattle.t1_report.specs.Checked.{checked};
ghost use Rattle.t1_report.specs.Faults.{fault_value, faults_of};
ghost use Rattle.t1_report.specs.Lines.{IsInFont};
ghost use Rattle.t1_report.specs.Numbered.{IsNumbered};
ghost use Rattle.t1_report.specs.Reports.{IsReport};
ghost use Rattle.t1_report.specs.Waivers.{largest_waivers};
ghost use Rattle.t1_rules.specs.Components.{AreOf};
ghost use Rattle.t1_font.specs.Bounds.{most_glyphs};

use crate::faults::Fault;
use crate::waivers::Waivers;
use crate::walk::Walk;
use std::alloc::{AllocError, Global};
use t1_char::Edition;
use t1_font::Font;
use t1_rules::Sidebearings;

/// All violations in a font and its glyphs that aren't waived, in the order of their places, and after them the
/// waivers that aren't used.
pub fn report(
    alloc: Global,
    font: &Font<'_>,
    waivers: &Waivers<'_>,
    edition: Edition,
) -> Result<Vec<Fault>, AllocError>
    ensures exact { IfOk result (λ faults. IsReport (checked font.now edition) waivers.now (faults_of faults.items)) }
    ensures in_font { IfOk result
        (λ faults. All (λ fault. IsInFont font.now waivers.now (fault_value fault)) faults.items) }
{
    let sidebearings = Sidebearings::prepare(alloc, font, edition)?;
    report_with(alloc, font, &sidebearings, waivers)
}

/// The same, where the components of the font's accented characters are there already.
pub fn report_with(
    alloc: Global,
    font: &Font<'_>,
    sidebearings: &Sidebearings,
    waivers: &Waivers<'_>,
) -> Result<Vec<Fault>, AllocError>
    requires { AreOf font.now sidebearings.now }
    ensures exact { IfOk result
        (λ faults. IsReport (checked font.now sidebearings.now.edition) waivers.now (faults_of faults.items)) }
    ensures in_font { IfOk result
        (λ faults. All (λ fault. IsInFont font.now waivers.now (fault_value fault)) faults.items) }
{
    // The call does nothing: the proof cites what it ensures.
    are_few(font, waivers);
    let mut walk = Walk::begin(font, sidebearings, waivers);
    let mut faults = Vec::new(alloc);
    while let Some(fault) = walk.next() {
        faults.push(fault)?;
    }
    Ok(faults)
}

/// Returns the fault of a number in the report, which counts from 1; None where the report has none of this number.
pub fn fault_numbered(
    font: &Font<'_>,
    sidebearings: &Sidebearings,
    waivers: &Waivers<'_>,
    number: u64,
) -> Option<Fault>
    requires { AreOf font.now sidebearings.now }
    ensures fault { IsNumbered (checked font.now sidebearings.now.edition) waivers.now number (option_map fault_value result) }
    ensures in_font { IfSome result (λ fault. IsInFont font.now waivers.now (fault_value fault)) }
{
    // The call does nothing: the proof cites what it ensures.
    are_few(font, waivers);
    let mut walk = Walk::begin(font, sidebearings, waivers);
    let mut fault = None;
    for _count in 0..number {
        fault = Some(walk.next()?);
    }
    fault
}

/// Neither a font's glyphs nor waivers are so many that the numbers of faults could overflow.
fn are_few(font: &Font<'_>, waivers: &Waivers<'_>)
    ensures glyphs { length font.now.glyphs ≤ most_glyphs }
    ensures waivers { length waivers.now ≤ largest_waivers }
{
    font.glyphs();
    waivers.len();
}
