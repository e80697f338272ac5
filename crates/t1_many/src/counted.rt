//! What counts the lines and the fonts that are printed.

ghost use Rattle.std.specs.Prelude.{◌≡◌, List, Option};
ghost use Rattle.t1_many.specs.Counting.{Counts};
ghost use Rattle.t1_many.specs.Handing.{Handed};

use crate::font_error::FontError;
use crate::policy::Lost;
use crate::printer::Printer;
use t1_font::Font;
use t1_reasons::ReportReasons;
use t1_report::{Fault, Waivers};
use t1_summary::{FontClass, Tally};

/// Hands on to a printer, and counts the lines that it took, by their rules, and the fonts, by how they were found.
#[derive(Drop)]
pub struct Counted<F: Printer> {
    /// What was counted.
    pub tally: Tally,
    /// The printer that takes what is handed on.
    pub printer: F,
}

impl<F: Printer> Printer for Counted<F> {
    ghost use Rattle.t1_many.specs.declared.policy.Lost.{Lost};

    ghost takes = { λ old new handed lost. F.takes old.printer new.printer handed lost × Counts old.tally new.tally handed lost };

    fn line(
        &mut self,
        name: &str,
        font: &Font<'_>,
        waivers: &Waivers<'_>,
        fault: &Fault,
        reasons: &mut ReportReasons<'_>,
    ) -> Result<(), Lost> {
        self.printer.line(name, font, waivers, fault, reasons)?;
        self.tally.add_line(fault.rule);
        Ok(())
    }

    fn failure(&mut self, name: &str, reason: FontError) -> Result<(), Lost> {
        self.printer.failure(name, reason)
    }

    fn done(&mut self, name: &str, found: FontClass) -> Result<(), Lost> {
        self.printer.done(name, found)?;
        self.tally.add(found);
        Ok(())
    }
}
