//! The plain form: `NAME: LINE`.

ghost use Rattle.std.specs.Prelude.{◌≡◌, option_map};
ghost use Rattle.t1_many.specs.FontErrors.{reason_of};
ghost use Rattle.t1_many.specs.Plain.{IsPut, PlainTakes, PutsFailure, named};
ghost use Rattle.t1_many.specs.Unchecked.{unchecked_line};
ghost use Rattle.t1_reason_texts.specs.Texts.{line_behind};
ghost use Rattle.t1_report.specs.Faults.{fault_value};
ghost use Rattle.t1_report.specs.Lines.{IsInFont, line_of};
ghost use Rattle.t1_run.specs.Failures.{refusal_line};
ghost use Rattle.t1_run.specs.Opening.{sinks_by};
ghost use Rattle.t1_many.specs.Handing.{lost_of};

use crate::font_error::{FontError, Obstacle};
use crate::policy::Lost;
use crate::printer::Printer;
use crate::reasons::told_text;
use crate::unchecked::tell_unchecked;
use t1_font::{Font, RefusalCode, refusal_text};
use t1_io::{Sink, put_parts};
use t1_reason_texts::ShortText;
use t1_reasons::ReportReasons;
use t1_report::{Fault, Waivers, write_fault};
use t1_run::Streams;
use t1_summary::FontClass;

/// Lines and refusals on the output, all else on standard error, each after the font's name. Where reasons are reported, each
/// stands behind its line. After each font the output is flushed.
#[derive(Drop)]
pub struct Plain<W: Sink, E: Sink> {
    /// Whether reasons are reported.
    pub reasons: bool,
    /// Where they are put.
    pub streams: Streams<W, E>,
}

impl<W: Sink, E: Sink> Printer for Plain<W, E> {
    ghost takes = { λ old new handed lost. (new.reasons ≡ old.reasons) × PlainTakes old.reasons
        (sinks_by W.state E.state old.streams) (sinks_by W.state E.state new.streams) handed lost };

    fn line(
        &mut self,
        name: &str,
        font: &Font<'_>,
        waivers: &Waivers<'_>,
        fault: &Fault,
        reasons: &mut ReportReasons<'_>,
    ) -> Result<(), Lost> {
        let text = told_text(self.reasons, font, waivers, fault, reasons)?;
        put_line(&mut self.streams.out, name, font, waivers, fault)?;
        put_behind(&mut self.streams.out, text)
    }

    fn failure(&mut self, name: &str, reason: FontError) -> Result<(), Lost> {
        match reason {
            FontError::Refused(code) => put_refusal(&mut self.streams.out, name, code),
            FontError::Unchecked(why) => put_unchecked(&mut self.streams.errors, name, why),
        }
    }

    fn done(&mut self, _name: &str, _found: FontClass) -> Result<(), Lost> {
        self.streams.out.flush()?;
        Ok(())
    }
}

/// Puts the line of a fault, after the font's name.
fn put_line<W: Sink>(
    sink: &mut W,
    name: &str,
    font: &Font<'_>,
    waivers: &Waivers<'_>,
    fault: &Fault,
) -> Result<(), Lost>
    requires { IsInFont font.now waivers.now (fault_value fault.now) }
    ensures { IsPut (W.state sink.old) (W.state sink.new)
        (named name.now (line_of font.now waivers.now (fault_value fault.now))) (lost_of result) }
{
    put_parts(sink, &[name.as_bytes(), b": "])?;
    write_fault(sink, font, waivers, fault)?;
    Ok(())
}

/// Puts the line of a reason's text, if there is one.
fn put_behind<W: Sink>(sink: &mut W, text: Option<ShortText>) -> Result<(), Lost>
    ensures { IsPut (W.state sink.old) (W.state sink.new) (line_behind (option_map (λ t. t.bytes) text)) (lost_of result) }
{
    let Some(text) = text else {
        return Ok(());
    };
    put_parts(sink, &[b"   ", text.as_str().as_bytes(), b"\n"])?;
    Ok(())
}

/// Puts why a font isn't checked.
fn put_unchecked<W: Sink>(sink: &mut W, name: &str, why: Obstacle) -> Result<(), Lost>
    ensures { IsPut (W.state sink.old) (W.state sink.new) (unchecked_line name.now (reason_of why)) (lost_of result) }
{
    tell_unchecked(sink, name, why.text().as_str())?;
    Ok(())
}

/// Puts that a font is refused.
fn put_refusal<W: Sink>(sink: &mut W, name: &str, code: RefusalCode) -> Result<(), Lost>
    ensures { IsPut (W.state sink.old) (W.state sink.new) (named name.now (refusal_line code)) (lost_of result) }
{
    put_parts(sink, &[name.as_bytes(), b": "])?;
    put_parts(sink, &[b"refused: ", refusal_text(code).as_bytes(), b"\n"])?;
    Ok(())
}
