//! What is done with a line of a report.

ghost use Rattle.std.specs.Prelude.{◌≡◌, List, if◌then◌else◌};
ghost use Rattle.t1_font.specs.Fonts.{FontValue};
ghost use Rattle.t1_many.specs.Handing.{found_with, is_told};
ghost use Rattle.t1_summary.specs.declared.found.FontClass.{FontClass as FoundValue};
ghost use Rattle.t1_report.specs.Faults.{FaultValue, fault_value};
ghost use Rattle.t1_report.specs.Lines.{IsInFont};
ghost use Rattle.t1_report.specs.Waivers.{Waiver};
ghost use Rattle.t1_rules.specs.Book.{number_of};
ghost use Rattle.t1_rules.specs.Mask.{has};

use t1_font::Font;
use t1_report::{Fault, Waivers};
use t1_rules::Mask;
use t1_summary::FontClass;

/// What is done with a line of a report.
#[derive(Clone, Copy, Debug, PartialEq, Eq)]
pub enum Verdict {
    /// It is handed on.
    Reported,
    /// It is omitted as a known fault.
    Known,
    /// It is omitted as what isn't requested.
    Skipped,
}

impl Verdict {
    /// Whether the line is handed on.
    pub(crate) fn is_told(self) -> bool
        ensures { result ≡ is_told self }
    {
        self == Verdict::Reported
    }

    /// How a font is found that has one such line more.
    pub(crate) fn found_with(self, found: FontClass) -> FontClass
        ensures { result ≡ found_with self found }
    {
        match (self, found) {
            (Verdict::Reported, _) => FontClass::Faulty,
            (Verdict::Known, FontClass::Clean) => FontClass::Known,
            (_, found) => found,
        }
    }
}

/// How the faults of a font are judged.
pub trait Judge {
    ghost use Rattle.t1_many.specs.declared.verdict.Verdict.{Verdict};

    ghost judges: { Self → FontValue → List Waiver → FaultValue → Verdict };

    /// What is done with the line of a fault.
    fn judge(&self, font: &Font<'_>, waivers: &Waivers<'_>, fault: &Fault) -> Verdict
        requires { IsInFont font.now waivers.now (fault_value fault.now) }
        ensures { result ≡ judges self.now font.now waivers.now (fault_value fault.now) };
}

/// The faults of these rules are reported.
impl Judge for Mask {
    ghost use Rattle.t1_many.specs.declared.verdict.Verdict.{Verdict};

    ghost judges = { λ rules _ _ fault. if has rules (number_of fault.rule) then Verdict.Reported else Verdict.Skipped };

    fn judge(&self, _font: &Font<'_>, _waivers: &Waivers<'_>, fault: &Fault) -> Verdict {
        if self.has(fault.rule) {
            Verdict::Reported
        } else {
            Verdict::Skipped
        }
    }
}
