//! What prints lines in a form.

ghost use Rattle.std.specs.Prelude.{◌≡◌, Option};
ghost use Rattle.t1_many.specs.Handing.{Handed, done, failure, line, lost_of};
ghost use Rattle.t1_report.specs.Faults.{fault_value};
ghost use Rattle.t1_report.specs.Lines.{IsInFont};

use crate::font_error::FontError;
use crate::policy::Lost;
use t1_font::Font;
use t1_reasons::ReportReasons;
use t1_report::{Fault, Waivers};
use t1_summary::FontClass;

/// What prints, in a form of its own, what is handed on: one thing after another.
pub trait Printer {
    ghost use Rattle.t1_many.specs.declared.policy.Lost.{Lost};

    // It took one thing that was handed on, or stopped there for a reason.
    ghost takes: { Self → Self → Handed → Option Lost → Type 0 };

    /// Takes the line of a fault of a font's report. Why it is there can be asked of `reasons`, which are the font's.
    fn line(
        &mut self,
        name: &str,
        font: &Font<'_>,
        waivers: &Waivers<'_>,
        fault: &Fault,
        reasons: &mut ReportReasons<'_>,
    ) -> Result<(), Lost>
        requires in_font { IsInFont font.now waivers.now (fault_value fault.now) }
        requires font { reasons.old.value ≡ font.now }
        ensures took { takes self.old self.new (line name.now reasons.old waivers.now (fault_value fault.now)) (lost_of result) }
        ensures same { reasons.new ≡ reasons.old };

    /// Takes why there is no report of a font.
    fn failure(&mut self, name: &str, reason: FontError) -> Result<(), Lost>
        ensures { takes self.old self.new (failure name.now reason) (lost_of result) };

    /// Takes how a font was found, once all else of it was handed on.
    fn done(&mut self, name: &str, found: FontClass) -> Result<(), Lost>
        ensures { takes self.old self.new (done name.now found) (lost_of result) };
}
