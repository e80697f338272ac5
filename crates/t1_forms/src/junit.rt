//! A document of JUnit's form, which Jenkins and GitLab read: a suite, with a case for each font.

ghost use Rattle.std.specs.Prelude.{◌≡◌, ◌++◌, IfOk, OnOk, option_map, string_bytes};
ghost use Rattle.t1_forms.specs.JUnit.{after_what, begun, case_name, case_text, closing, error_text, first_failure, found_text, found_with, junit_state, line_text, opening, problem, reason_text, text_of_what};
ghost use Rattle.t1_forms.specs.Tellings.{reason_value, what_value};
ghost use Rattle.t1_forms.specs.Writing.{WritesLine};
ghost use Rattle.t1_forms.specs.Xml.{xml_name};
ghost use Rattle.t1_rules.specs.Book.{number_of};
ghost use Rattle.t1_rules.specs.Mask.{has};

use crate::xml::xml_name;
use crate::{FormatError, Told, ToldReason, What};
use std::alloc::{AllocError, Global};
use t1_io::{Sink, put_all};
use t1_lines::Line;
use t1_rules::{Mask, Rule};

/// What is before all cases.
const OPENING: &str =
    "<?xml version=\"1.0\" encoding=\"UTF-8\"?>\n<testsuites>\n<testsuite name=\"t1check-all\">\n";

/// What is after them.
const CLOSING: &str = "</testsuite>\n</testsuites>\n";

/// A document that is being written.
///
/// A case is a failure where a line of the font fails, which is known after its last line. So the lines of a font are kept until it is done:
/// memory grows with the lines of one font.
#[derive(Drop)]
pub struct JUnit {
    /// The rules whose lines fail.
    failing: Mask,
    /// The lines of the font that isn't done yet, as text of XML.
    lines: String,
    /// The first of them that fails.
    failure: Option<String>,
}

/// The attributes that name the case of a font.
fn case_name(alloc: Global, font: Option<&[u8]>) -> Result<String, AllocError>
    ensures { IfOk result (λ s. string_bytes s ≡ case_name (option_map (λ name. name.now) font.entry)) }
{
    let Some(font) = font else {
        return String::from_str(alloc, "(no name)");
    };
    let name = xml_name(alloc, font)?;
    format!(in alloc; "{name}\" file=\"{name}")
}

/// The case of a font, with an element in it.
fn case_text(alloc: Global, font: Option<&[u8]>, element: &str) -> Result<String, AllocError>
    ensures { IfOk result (λ s. string_bytes s ≡ case_text (option_map (λ name. name.now) font.entry) element.now) }
{
    let name = case_name(alloc, font)?;
    format!(in alloc; "<testcase classname=\"t1check-all\" name=\"{name}\">{element}</testcase>\n")
}

/// Why a case isn't passed.
fn problem(alloc: Global, kind: &str, message: &str, lines: &str) -> Result<String, AllocError>
    ensures { IfOk result (λ s. string_bytes s ≡ problem kind.now message.now lines.now) }
{
    format!(in alloc; "<{kind} message=\"{message}\">{lines}</{kind}>")
}

/// What a font was found with.
fn found_with(alloc: Global, failure: &Option<String>, lines: &str) -> Result<String, AllocError>
    ensures { IfOk result (λ s. string_bytes s ≡ found_with (option_map string_bytes failure.now) lines.now) }
{
    match failure {
        Some(message) => problem(alloc, "failure", message.as_str(), lines),
        None if lines.is_empty() => Ok(String::new(alloc)),
        None => format!(in alloc; "<system-out>{lines}</system-out>"),
    }
}

/// The text of a reason, on a line of its own.
fn reason_text(alloc: Global, reason: Option<&ToldReason<'_>>) -> Result<String, AllocError>
    ensures { IfOk result (λ s. string_bytes s ≡ reason_text (option_map (λ reason. reason_value reason.now) reason.entry)) }
{
    let Some(reason) = reason else {
        return Ok(String::new(alloc));
    };
    let text = xml_name(alloc, reason.text)?;
    format!(in alloc; "   {text}\n")
}

/// The case of a font that was refused, or wasn't checked.
fn error_text(alloc: Global, font: Option<&[u8]>, line: &[u8]) -> Result<String, AllocError>
    ensures { IfOk result (λ s. string_bytes s ≡ error_text (option_map (λ name. name.now) font.entry) line.now) }
{
    let message = xml_name(alloc, line)?;
    let lines = format!(in alloc; "{message}\n")?;
    let element = problem(alloc, "error", message.as_str(), lines.as_str())?;
    case_text(alloc, font, element.as_str())
}

impl JUnit {
    /// Begins a document in which the lines of these rules fail.
    pub fn begin<W: Sink>(alloc: Global, sink: &mut W, failing: Mask) -> Result<JUnit, FormatError>
        ensures text { WritesLine (W.state sink.old) (W.state sink.new) opening result }
        ensures state { IfOk result (λ j. junit_state j ≡ begun failing) }
    {
        put_all(sink, OPENING.as_bytes())?;
        Ok(JUnit {
            failing,
            lines: String::new(alloc),
            failure: None,
        })
    }

    /// Keeps a line as the first that fails, if it fails and none did before.
    fn keep_failure(&mut self, rule: Rule, line: String)
        ensures { junit_state self.new ≡ record (junit_state self.old) {
          failure = first_failure (junit_state self.old).failure (has self.old.failing (number_of rule)) (string_bytes line);
        } }
    {
        match self.failure {
            Some(_) => {}
            None => {
                if self.failing.has(rule) {
                    self.failure = Some(line);
                }
            }
        }
    }

    /// Keeps the line of a fault, with its reason, where there is one.
    fn keep(
        &mut self,
        alloc: Global,
        rule: Rule,
        line: &[u8],
        reason: Option<&ToldReason<'_>>,
    ) -> Result<(), AllocError>
        ensures { OnOk result (junit_state self.new ≡ record (junit_state self.old) {
          lines = (junit_state self.old).lines ++ line_text line.now (option_map (λ reason. reason_value reason.now) reason.entry);
          failure = first_failure (junit_state self.old).failure (has self.old.failing (number_of rule)) (xml_name line.now);
        }) }
    {
        let reason = reason_text(alloc, reason)?;
        let line = xml_name(alloc, line)?;
        self.lines.push_str(line.as_str())?;
        self.lines.push_str("\n")?;
        self.lines.push_str(reason.as_str())?;
        self.keep_failure(rule, line);
        Ok(())
    }

    /// The text that is written of what is reported.
    fn telling(&mut self, alloc: Global, told: &Told<'_>) -> Result<String, AllocError>
        ensures text { IfOk result (λ s. string_bytes s
            ≡ text_of_what (option_map (λ name. name.now) told.now.font) (what_value told.now.what) told.now.line.now) }
        ensures state { OnOk result (junit_state self.new
            ≡ after_what (junit_state self.old) (what_value told.now.what) told.now.line.now (option_map reason_value told.now.reason)) }
    {
        match &told.what {
            What::Line(Line::Fault(fault)) => {
                self.keep(alloc, fault.rule, told.line, told.reason.as_ref())?;
                Ok(String::new(alloc))
            }
            What::Line(Line::Refusal(_)) | What::Unchecked(_) => {
                error_text(alloc, told.font, told.line)
            }
        }
    }

    /// Keeps the line of a fault, or writes the case of a font that was refused or wasn't checked.
    pub fn put<W: Sink>(
        &mut self,
        alloc: Global,
        sink: &mut W,
        told: &Told<'_>,
    ) -> Result<(), FormatError>
        ensures text { WritesLine (W.state sink.old) (W.state sink.new)
            (text_of_what (option_map (λ name. name.now) told.now.font) (what_value told.now.what) told.now.line.now) result }
        ensures state { OnOk result (junit_state self.new
            ≡ after_what (junit_state self.old) (what_value told.now.what) told.now.line.now (option_map reason_value told.now.reason)) }
    {
        let text = self.telling(alloc, told)?;
        put_all(sink, text.as_bytes())?;
        Ok(())
    }

    /// The case of a font that is done, and was neither refused nor left unchecked.
    fn found(&self, alloc: Global, name: &[u8]) -> Result<String, AllocError>
        ensures { IfOk result (λ s. string_bytes s ≡ found_text (junit_state self.now) name.now) }
    {
        let element = found_with(alloc, &self.failure, self.lines.as_str())?;
        case_text(alloc, Some(name), element.as_str())
    }

    /// Writes the case of a font that is done, and was neither refused nor left unchecked: its lines are kept no more.
    pub fn put_case<W: Sink>(
        &mut self,
        alloc: Global,
        sink: &mut W,
        name: &[u8],
    ) -> Result<(), FormatError>
        ensures text { WritesLine (W.state sink.old) (W.state sink.new) (found_text (junit_state self.old) name.now) result }
        ensures state { OnOk result (junit_state self.new ≡ begun self.old.failing) }
    {
        let text = self.found(alloc, name)?;
        put_all(sink, text.as_bytes())?;
        self.lines = String::new(alloc);
        self.failure = None;
        Ok(())
    }

    /// Ends the document.
    pub fn end<W: Sink>(self, sink: &mut W) -> Result<(), FormatError>
        ensures { WritesLine (W.state sink.old) (W.state sink.new) closing result }
    {
        put_all(sink, CLOSING.as_bytes())?;
        Ok(())
    }
}
