//! Writes lines in a form.

ghost use Rattle.std.specs.Prelude.{◌≡◌, IfOk, true};
ghost use Rattle.t1_report.specs.Checked.{checked};
ghost use Rattle.t1_report.specs.Faults.{fault_value};
ghost use Rattle.t1_report.specs.Lines.{IsInFont};
ghost use Rattle.t1_rules.specs.Components.{AreOf};
ghost use Rattle.t1_pieces.specs.Forms.{line_as};

use crate::form::Form;
use std::alloc::{AllocError, Global};
use t1_font::Font;
use t1_forms::Text;
use t1_many::Printer;
use t1_printers::{Formatted, JsonLines};
use t1_reasons::ReportReasons;
use t1_report::{Fault, Waivers, write_fault};
use t1_rules::Sidebearings;
use t1_run::Streams;

/// Writes one line after another, each in the place of the one before.
#[derive(Drop)]
pub(crate) struct LineWriter<'a> {
    form: Form<'a>,
    /// Writes objects. Its output has the line in each form.
    objects: Formatted<JsonLines, Text, Text>,
    reasons: ReportReasons<'a>,
    ghost has_reasons: { objects.reasons ≡ true },
}

impl<'a> LineWriter<'a> {
    /// Nothing is written.
    pub(crate) fn new(
        alloc: Global,
        form: Form<'a>,
        font: &'a Font<'a>,
        sidebearings: &'a Sidebearings,
    ) -> LineWriter<'a>
        requires { AreOf font.now sidebearings.now }
        ensures form { result.form ≡ form.entry }
        ensures reasons { result.reasons ≡ checked font.now sidebearings.now.edition }
    {
        let streams = Streams {
            out: Text::new(alloc),
            errors: Text::new(alloc),
        };
        LineWriter {
            form,
            objects: Formatted::new(alloc, JsonLines { clean: false }, streams, true),
            reasons: ReportReasons::new(font, sidebearings),
        }
    }

    /// Writes the line of a fault of the font.
    pub(crate) fn set_line(
        &mut self,
        font: &Font<'_>,
        waivers: &Waivers<'_>,
        fault: &Fault,
    ) -> Result<(), AllocError>
        requires in_font { IsInFont font.now waivers.now (fault_value fault.now) }
        requires font { self.old.reasons.value ≡ font.now }
        ensures line { IfOk result (λ _. self.new.objects.streams.out.bytes.items
            ≡ line_as self.old.form self.old.reasons waivers.now (fault_value fault.now)) }
        ensures form { self.new.form ≡ self.old.form }
        ensures reasons { self.new.reasons ≡ self.old.reasons }
    {
        self.objects.streams.out.clear();
        let is_written = match self.form {
            Form::Text => write_fault(&mut self.objects.streams.out, font, waivers, fault).is_ok(),
            Form::Object(name) => self
                .objects
                .line(name, font, waivers, fault, &mut self.reasons)
                .is_ok(),
        };
        if is_written { Ok(()) } else { Err(AllocError) }
    }

    /// What is written.
    pub(crate) fn as_bytes(&self) -> &[u8]
        ensures { result.now ≡ self.now.objects.streams.out.bytes.items }
    {
        self.objects.streams.out.as_bytes()
    }
}
