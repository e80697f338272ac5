//! How much of a glyph is requested, and what is shown of it then.

ghost use Rattle.std.specs.Prelude.{◌≡◌, IfErr, IfOk, IfSome, None, Some};
ghost use Rattle.t1_report.specs.Checked.{checked};
ghost use Rattle.t1_report.specs.Faults.{fault_value};
ghost use Rattle.t1_rules.specs.Components.{AreOf};
ghost use Rattle.t1_picture.specs.Extents.{CanBeShown, IsShown, is_with};
ghost use Rattle.t1_picture.specs.Subjects.{fault_in, shown_value};

use crate::view::Shown;
use t1_font::Font;
use t1_report::{Fault, Waivers, fault_numbered};
use t1_rules::Sidebearings;

/// How much of a glyph is drawn, and which faults.
#[derive(Clone, Copy, Debug, PartialEq, Eq, Drop)]
pub enum Extent {
    /// All steps, and all faults of the glyph.
    All,
    /// The steps up to this number, and the faults up to it.
    UpTo(u64),
    /// The fault of this number in the font's report, by the edition and the waivers that count: one of the glyph, with the
    /// steps up to its own, or one of the font, with all steps.
    Fault(u64),
}

/// The report has no fault of a number, or another glyph has it.
#[derive(Clone, Copy, Debug, PartialEq, Eq, Drop)]
pub struct NoFault {
    /// The number.
    pub number: u64,
}

/// What an extent shows of a glyph.
pub fn shown_by(
    font: &Font<'_>,
    sidebearings: &Sidebearings,
    waivers: &Waivers<'_>,
    glyph: usize,
    extent: Extent,
) -> Result<Shown, NoFault>
    requires { AreOf font.now sidebearings.now }
    ensures shown { IfOk result (λ shown. IsShown extent (checked font.now sidebearings.now.edition) waivers.now glyph (Some (shown_value shown))) }
    ensures fault { IfOk result (λ shown. IfSome (fault_in (shown_value shown)) (CanBeShown font.now waivers.now glyph)) }
    ensures none { IfErr result (λ none. (extent ≡ Extent.Fault none.number)
        × IsShown extent (checked font.now sidebearings.now.edition) waivers.now glyph None) }
{
    match extent {
        Extent::All => Ok(Shown::All),
        Extent::UpTo(step) => Ok(Shown::UpTo(step)),
        Extent::Fault(number) => {
            let Some(fault) = fault_numbered(font, sidebearings, waivers, number) else {
                return Err(NoFault { number });
            };
            if is_with(&fault, glyph) {
                Ok(Shown::Fault(fault))
            } else {
                Err(NoFault { number })
            }
        }
    }
}

/// Whether a fault can be shown with a glyph: it is one of the font, or of this glyph.
fn is_with(fault: &Fault, glyph: usize) -> bool
    ensures { result ≡ is_with glyph (fault_value fault.now) }
{
    fault.unit == 0 || fault.unit as usize - 1 == glyph
}
