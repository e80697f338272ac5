//! The forms that other programs read.

ghost use Rattle.std.specs.Prelude.{◌≡◌, Option};
ghost use Rattle.t1_many.specs.Handing.{Handed, failure, lost_of};
ghost use Rattle.t1_many.specs.declared.font_error.FontError.TheVariants.{Refused};
ghost use Rattle.t1_printers.specs.Formatting.{FormattedTakes, GivesUnchecked};
ghost use Rattle.t1_printers.specs.Printing.{formatting_by};

use crate::formatter::Formatter;
use crate::line_text::{set_fault, set_refusal, set_unchecked};
use crate::telling::give;
use std::alloc::Global;
use t1_font::{Font, RefusalCode};
use t1_forms::{OwnReason, Text, What, as_told};
use t1_io::Sink;
use t1_lines::{Line, fault_line};
use t1_many::{FontError, Lost, Printer, tell_unchecked, told_reason};
use t1_reasons::ReportReasons;
use t1_report::{Fault, Waivers};
use t1_run::Streams;
use t1_summary::FontClass;

/// Lines, refusals, fonts that weren't checked, and how each font was found are given to a formatter, which writes them on the output. A font
/// that wasn't checked is printed on standard error too, first. After each font the output is flushed.
#[derive(Drop)]
pub struct Formatted<T: Formatter, W: Sink, E: Sink> {
    /// What writes them.
    pub formatter: T,
    /// The output and standard error.
    pub streams: Streams<W, E>,
    /// Whether reasons are reported.
    pub reasons: bool,
    alloc: Global,
    text: Text,
}

impl<T: Formatter, W: Sink, E: Sink> Formatted<T, W, E> {
    /// A form that was given nothing yet. The formatter has written what is before all else.
    pub fn new(
        alloc: Global,
        formatter: T,
        streams: Streams<W, E>,
        reasons: bool,
    ) -> Formatted<T, W, E>
        ensures formatter { result.formatter ≡ formatter }
        ensures streams { result.streams ≡ streams }
        ensures reasons { result.reasons ≡ reasons }
    {
        Formatted {
            formatter,
            streams,
            reasons,
            alloc,
            text: Text::new(alloc),
        }
    }

    /// Prints on standard error that what has this name wasn't checked, as `NAME: t1check: REASON`, and then gives it to the formatter.
    pub fn unchecked(&mut self, name: &str, reason: &str) -> Result<(), Lost>
        ensures given { GivesUnchecked T.writes
            (formatting_by W.state E.state self.old) (formatting_by W.state E.state self.new)
            name.now reason.now (lost_of result) }
        ensures reasons { self.new.reasons ≡ self.old.reasons }
    {
        tell_unchecked(&mut self.streams.errors, name, reason)?;
        if T::shows_lines() {
            set_unchecked(&mut self.text, reason)?;
        }
        give(
            self.alloc,
            &mut self.formatter,
            &mut self.streams.out,
            name.as_bytes(),
            What::Unchecked(reason.as_bytes()),
            self.text.as_bytes(),
            None,
        )
    }

    /// Gives a refusal to the formatter.
    fn refused(&mut self, name: &str, code: RefusalCode) -> Result<(), Lost>
        ensures given { FormattedTakes (record { reasons = self.old.reasons; writes = T.writes; ends = T.ends })
            (formatting_by W.state E.state self.old) (formatting_by W.state E.state self.new)
            (failure name.now (Refused code)) (lost_of result) }
        ensures reasons { self.new.reasons ≡ self.old.reasons }
    {
        if T::shows_lines() {
            set_refusal(&mut self.text, code)?;
        }
        give(
            self.alloc,
            &mut self.formatter,
            &mut self.streams.out,
            name.as_bytes(),
            What::Line(Line::Refusal(code)),
            self.text.as_bytes(),
            None,
        )
    }
}

impl<T: Formatter, W: Sink, E: Sink> Printer for Formatted<T, W, E> {
    ghost use Rattle.t1_many.specs.declared.policy.Lost.{Lost};

    ghost takes = { λ old new handed lost. (new.reasons ≡ old.reasons) × FormattedTakes (record { reasons = old.reasons; writes = T.writes; ends = T.ends })
        (formatting_by W.state E.state old) (formatting_by W.state E.state new) handed lost };

    fn line(
        &mut self,
        name: &str,
        font: &Font<'_>,
        waivers: &Waivers<'_>,
        fault: &Fault,
        reasons: &mut ReportReasons<'_>,
    ) -> Result<(), Lost> {
        let reason = told_reason(self.reasons, waivers, fault, reasons);
        let Ok(reason) = OwnReason::of(font, fault.rule, reason) else {
            return Err(Lost::Memory);
        };
        if T::shows_lines() {
            set_fault(&mut self.text, font, waivers, fault)?;
        }
        give(
            self.alloc,
            &mut self.formatter,
            &mut self.streams.out,
            name.as_bytes(),
            What::Line(Line::Fault(fault_line(font, waivers, fault))),
            self.text.as_bytes(),
            as_told(font, &reason),
        )
    }

    fn failure(&mut self, name: &str, reason: FontError) -> Result<(), Lost> {
        match reason {
            FontError::Refused(code) => self.refused(name, code),
            FontError::Unchecked(why) => self.unchecked(name, why.text().as_str()),
        }
    }

    fn done(&mut self, name: &str, found: FontClass) -> Result<(), Lost> {
        self.formatter
            .end_font(self.alloc, &mut self.streams.out, name, found)?;
        self.streams.out.flush()?;
        Ok(())
    }
}
