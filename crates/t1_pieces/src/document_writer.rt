//! Writes the results of a document.

ghost use Rattle.std.specs.Prelude.{◌≡◌, IfOk, Some, true};
ghost use Rattle.t1_forms.specs.PageValues.{pages_value};
ghost use Rattle.t1_forms.specs.Sarif.{begun, closing, opening, resumed, sarif_state};
ghost use Rattle.t1_forms.specs.SarifDocuments.{after_one};
ghost use Rattle.t1_forms.specs.SarifObjects.{unit_of};
ghost use Rattle.t1_lines.specs.Lines.{line_in, of_fault};
ghost use Rattle.t1_report.specs.Faults.{fault_value};
ghost use Rattle.t1_report.specs.Lines.{IsInFont};
ghost use Rattle.t1_pieces.specs.Documents.{result_of, subject_for, told_of};

use crate::documents::DocumentRequest;
use std::alloc::{AllocError, Global};
use t1_font::Font;
use t1_forms::{RESULT_COUNTS, Sarif, Text};
use t1_lines::{Line, fault_line};
use t1_many::Printer;
use t1_printers::Formatted;
use t1_reasons::ReportReasons;
use t1_report::{Fault, Waivers};
use t1_run::Streams;

/// Writes one part of a document after another, each in the place of the one before.
#[derive(Drop)]
pub(crate) struct DocumentWriter<'a> {
    alloc: Global,
    request: &'a DocumentRequest<'a>,
    /// Writes results.
    results: Formatted<Sarif<'a>, Text, Text>,
    reasons: ReportReasons<'a>,
    ghost has_reasons: { results.reasons ≡ true },
}

impl<'a> DocumentWriter<'a> {
    /// What is before all results is written.
    pub(crate) fn begin(
        alloc: Global,
        request: &'a DocumentRequest<'a>,
        reasons: ReportReasons<'a>,
    ) -> Result<DocumentWriter<'a>, AllocError>
        ensures text { IfOk result (λ writer. writer.results.streams.out.bytes.items ≡ opening (pages_value request.now.pages)) }
        ensures state { IfOk result (λ writer. sarif_state writer.results.formatter ≡ begun (pages_value request.now.pages)) }
        ensures request { IfOk result (λ writer. writer.request.now ≡ request.now) }
        ensures reasons { IfOk result (λ writer. writer.reasons ≡ reasons.entry) }
    {
        let mut out = Text::new(alloc);
        let Ok(sarif) = Sarif::begin(alloc, &mut out, request.pages) else {
            return Err(AllocError);
        };
        let errors = Text::new(alloc);
        Ok(DocumentWriter {
            alloc,
            request,
            results: Formatted::new(alloc, sarif, Streams { out, errors }, true),
            reasons,
        })
    }

    /// The result of a fault was the last that was written, and these are the counts after it.
    pub(crate) fn resume(
        alloc: Global,
        request: &'a DocumentRequest<'a>,
        reasons: ReportReasons<'a>,
        counts: &[u64; RESULT_COUNTS],
        font: &Font<'_>,
        waivers: &Waivers<'_>,
        fault: &Fault,
    ) -> Result<DocumentWriter<'a>, AllocError>
        requires { IsInFont font.now waivers.now (fault_value fault.now) }
        ensures state { IfOk result (λ writer. sarif_state writer.results.formatter ≡ resumed (pages_value request.now.pages)
            (unit_of (Some request.now.name.now) (of_fault (line_in font.now waivers.now (fault_value fault.now)))) counts.now) }
        ensures request { IfOk result (λ writer. writer.request.now ≡ request.now) }
        ensures reasons { IfOk result (λ writer. writer.reasons ≡ reasons.entry) }
    {
        let line = Line::Fault(fault_line(font, waivers, fault));
        let sarif = Sarif::resume(
            alloc,
            request.pages,
            counts,
            Some(request.name.as_bytes()),
            &line,
        )?;
        let out = Text::new(alloc);
        let errors = Text::new(alloc);
        Ok(DocumentWriter {
            alloc,
            request,
            results: Formatted::new(alloc, sarif, Streams { out, errors }, true),
            reasons,
        })
    }

    /// Writes the result of a fault of the font.
    pub(crate) fn set_result(
        &mut self,
        font: &Font<'_>,
        waivers: &Waivers<'_>,
        fault: &Fault,
    ) -> Result<(), AllocError>
        requires in_font { IsInFont font.now waivers.now (fault_value fault.now) }
        requires font { self.old.reasons.value ≡ font.now }
        ensures text { IfOk result (λ _. self.new.results.streams.out.bytes.items
            ≡ result_of (subject_for self.old.request.now self.old.reasons waivers.now)
            (sarif_state self.old.results.formatter) (fault_value fault.now)) }
        ensures state { IfOk result (λ _. sarif_state self.new.results.formatter
            ≡ after_one (sarif_state self.old.results.formatter)
            (told_of (subject_for self.old.request.now self.old.reasons waivers.now) (fault_value fault.now))) }
        ensures request { self.new.request.now ≡ self.old.request.now }
        ensures reasons { self.new.reasons ≡ self.old.reasons }
    {
        self.results.streams.out.clear();
        match self
            .results
            .line(self.request.name, font, waivers, fault, &mut self.reasons)
        {
            Ok(()) => Ok(()),
            Err(_) => Err(AllocError),
        }
    }

    /// What is after all results.
    pub(crate) fn end(self) -> Result<Text, AllocError>
        ensures { IfOk result (λ text. text.bytes.items ≡ closing (sarif_state self.entry.results.formatter)) }
    {
        let alloc = self.alloc;
        let results = self.results;
        let mut text = Text::new(alloc);
        match results.formatter.end(alloc, &mut text) {
            Ok(()) => Ok(text),
            Err(_) => Err(AllocError),
        }
    }

    /// What is written.
    pub(crate) fn as_bytes(&self) -> &[u8]
        ensures { result.now ≡ self.now.results.streams.out.bytes.items }
    {
        self.results.streams.out.as_bytes()
    }

    /// How many results there were of each code since the unit of the last one began.
    pub(crate) fn counts(&self) -> &[u64; RESULT_COUNTS]
        ensures { result.now ≡ (sarif_state self.now.results.formatter).counts }
    {
        self.results.formatter.counts()
    }
}
