//! A document of SARIF 2.1.0: the rules with their pages, a result for each line, and what couldn't be checked.

ghost use Rattle.std.specs.Prelude.{◌≡◌, ◌++◌, ◌<◌, ◌∷◌, IfOk, OnOk, option_map, string_bytes};
ghost use Rattle.serde_json.specs.Written.{comma_if, compact_text};
ghost use Rattle.t1_lines.specs.Lines.{line_value};
ghost use Rattle.t1_forms.specs.PageValues.{pages_value};
ghost use Rattle.t1_forms.specs.Sarif.{after_result, after_telling, begun, closing, code_number, counts_in, no_counts, opening, refusal_number, result_text, resumed, room_text, run_begin, run_end, sarif_state, telling_text, with_failure, with_room};
ghost use Rattle.t1_forms.specs.SarifObjects.{notification_object, unit_of};
ghost use Rattle.t1_forms.specs.Tellings.{reason_value, told_value};
ghost use Rattle.t1_forms.specs.Writing.{WritesLine};

use crate::sarif_objects::{fingerprint, notification_text, result_text, tool_text, unit_of};
use crate::{FormatError, Pages, Told, ToldReason, What};
use std::alloc::{AllocError, Global};
use t1_font::RefusalCode;
use t1_io::{Sink, put_all};
use t1_lines::Line;
use t1_rules::RULE_COUNT;

/// How many fonts that weren't checked one run of the document reports. After them the next run begins.
const MOST_FAILURES: usize = 1000;

/// How many refusals there are.
const REFUSAL_COUNT: usize = 15;

/// How many codes there are, of rules and of refusals. Counts are by the code and not by its page, so that a host can keep them in a
/// place of a fixed size, whatever pages there are.
pub const RESULT_COUNTS: usize = RULE_COUNT + REFUSAL_COUNT;

/// A document that is being written.
///
/// A result is written as soon as its line is read. What couldn't be checked is after the results in SARIF, so it is kept
/// until there; after a thousand of these a run is closed and another one begun.
#[derive(Drop)]
pub struct Sarif<'a> {
    /// The pages of rules and refusals.
    pages: Pages<'a>,
    /// Whether the run has a result.
    has_results: bool,
    /// The unit of the last result.
    unit: String,
    /// How many results there were of each code since the unit began.
    counts: [u64; RESULT_COUNTS],
    /// Why fonts weren't checked, as text.
    failures: String,
    failure_count: usize,
}

/// What is before the results of a run.
#[tactic(auto, unfolding(crate::specs::Sarif::run_begin))]
fn run_begin(alloc: Global, pages: Pages<'_>) -> Result<String, AllocError>
    ensures { IfOk result (λ s. string_bytes s ≡ run_begin (pages_value pages.entry)) }
{
    let tool = tool_text(alloc, pages)?;
    let mut text = String::from_str(alloc, "{\"tool\":")?;
    text.push_str(tool.as_str())?;
    text.push_str(",\"results\":[")?;
    Ok(text)
}

/// What is after the results of a run.
fn run_end(alloc: Global, successful: bool, failures: &str) -> Result<String, AllocError>
    ensures { IfOk result (λ s. string_bytes s ≡ run_end successful failures.now) }
{
    let mut text = String::from_str(alloc, "],\"invocations\":[{\"executionSuccessful\":")?;
    text.push_str(if successful { "true" } else { "false" })?;
    text.push_str(",\"toolExecutionNotifications\":[")?;
    text.push_str(failures)?;
    text.push_str("]}]}")?;
    Ok(text)
}

/// What is before all lines.
fn opening(alloc: Global, pages: Pages<'_>) -> Result<String, AllocError>
    ensures { IfOk result (λ s. string_bytes s ≡ opening (pages_value pages.entry)) }
{
    let run = run_begin(alloc, pages)?;
    let mut text = String::from_str(
        alloc,
        "{\"$schema\":\"https://json.schemastore.org/sarif-2.1.0.json\",\"version\":\"2.1.0\",\"runs\":[",
    )?;
    text.push_str(run.as_str())?;
    Ok(text)
}

/// A text, with a comma before it where something precedes it.
fn separated(alloc: Global, later: bool, text: &str) -> Result<String, AllocError>
    ensures { IfOk result (λ s. string_bytes s ≡ comma_if later ++ text.now) }
{
    let mut separated = String::from_str(alloc, if later { "," } else { "" })?;
    separated.push_str(text)?;
    Ok(separated)
}

/// The number of a line's code, from 0 on: first the rules', then the refusals'.
fn code_number(line: &Line<'_>) -> usize
    ensures number { result ≡ code_number (line_value line.now) }
    ensures bound { result < RESULT_COUNTS }
{
    match line {
        Line::Fault(fault) => usize::from(fault.rule.number() - 1),
        Line::Refusal(code) => RULE_COUNT + refusal_number(*code),
    }
}

/// The number of a refusal, from 0 on.
fn refusal_number(code: RefusalCode) -> usize
    ensures number { result ≡ refusal_number code }
    ensures bound { result < REFUSAL_COUNT }
{
    code as usize
}

impl<'a> Sarif<'a> {
    /// Begins a document that has these pages.
    pub fn begin<W: Sink>(
        alloc: Global,
        sink: &mut W,
        pages: Pages<'a>,
    ) -> Result<Sarif<'a>, FormatError>
        ensures text { WritesLine (W.state sink.old) (W.state sink.new) (opening (pages_value pages.entry)) result }
        ensures state { IfOk result (λ s. sarif_state s ≡ begun (pages_value pages.entry)) }
    {
        let text = opening(alloc, pages)?;
        put_all(sink, text.as_bytes())?;
        Ok(Sarif {
            pages,
            has_results: false,
            unit: String::new(alloc),
            counts: [0; RESULT_COUNTS],
            failures: String::new(alloc),
            failure_count: 0,
        })
    }

    /// Goes on with a document whose last result is that of this line, where each font was checked. `counts` are those
    /// [after it](Sarif::counts).
    pub fn resume(
        alloc: Global,
        pages: Pages<'a>,
        counts: &[u64; RESULT_COUNTS],
        font: Option<&[u8]>,
        line: &Line<'_>,
    ) -> Result<Sarif<'a>, AllocError>
        ensures { IfOk result (λ s. sarif_state s
            ≡ resumed (pages_value pages.entry) (unit_of (option_map (λ name. name.now) font.entry) (line_value line.now)) counts.now) }
    {
        let unit = unit_of(alloc, font, line)?;
        Ok(Sarif {
            pages,
            has_results: true,
            unit,
            counts: *counts,
            failures: String::new(alloc),
            failure_count: 0,
        })
    }

    /// How many results there were of each code since the unit of the last one began: the rules, then the
    /// refusals.
    pub fn counts(&self) -> &[u64; RESULT_COUNTS]
        ensures { result.now ≡ (sarif_state self.now).counts }
    {
        &self.counts
    }

    /// Goes on to a unit: in another one each code is counted anew.
    fn enter(&mut self, unit: String)
        ensures { sarif_state self.new
            ≡ record (sarif_state self.old) { unit = string_bytes unit; counts = counts_in (sarif_state self.old) (string_bytes unit) } }
    {
        if unit.as_str() != self.unit.as_str() {
            self.unit = unit;
            self.counts = [0; RESULT_COUNTS];
        }
    }

    /// The text of a line's result.
    fn result(
        &mut self,
        alloc: Global,
        font: Option<&[u8]>,
        line: &Line<'_>,
        text: &[u8],
        reason: Option<&ToldReason<'_>>,
    ) -> Result<String, AllocError>
        ensures text { IfOk result (λ s. string_bytes s
            ≡ result_text (sarif_state self.old) (option_map (λ name. name.now) font.entry) (line_value line.now) text.now
            (option_map (λ reason. reason_value reason.now) reason.entry)) }
        ensures state { OnOk result (sarif_state self.new
            ≡ after_result (sarif_state self.old) (option_map (λ name. name.now) font.entry) (line_value line.now)) }
    {
        let unit = unit_of(alloc, font, line)?;
        self.enter(unit);
        let number = code_number(line);
        let count = self.counts[number].saturating_add(1);
        self.counts[number] = count;
        let print = fingerprint(alloc, self.unit.as_str(), line, count)?;
        let result = result_text(
            alloc,
            self.pages.list,
            font,
            line,
            text,
            reason,
            print.as_str(),
        )?;
        let later = self.has_results;
        self.has_results = true;
        separated(alloc, later, result.as_str())
    }

    /// Where the run reports as many fonts as it may, the text that ends it and begins the next one.
    fn make_room(&mut self, alloc: Global) -> Result<String, AllocError>
        ensures text { IfOk result (λ s. string_bytes s ≡ room_text (sarif_state self.old)) }
        ensures state { OnOk result (sarif_state self.new ≡ with_room (sarif_state self.old)) }
        ensures room { OnOk result (self.new.failure_count < 1000) }
    {
        if self.failure_count < MOST_FAILURES {
            return Ok(String::new(alloc));
        }
        let next = run_begin(alloc, self.pages)?;
        let mut text = run_end(alloc, self.failure_count == 0, self.failures.as_str())?;
        text.push_str(",")?;
        text.push_str(next.as_str())?;
        self.has_results = false;
        self.failures = String::new(alloc);
        self.failure_count = 0;
        Ok(text)
    }

    /// Keeps why a font wasn't checked.
    fn keep(&mut self, alloc: Global, text: &str) -> Result<(), AllocError>
        requires { self.old.failure_count < 1000 }
        ensures { OnOk result (sarif_state self.new ≡ with_failure (sarif_state self.old) text.now) }
    {
        let text = separated(alloc, self.failure_count > 0, text)?;
        self.failures.push_str(text.as_str())?;
        self.failure_count += 1;
        Ok(())
    }

    /// The text that is written of a font that wasn't checked.
    fn failure(
        &mut self,
        alloc: Global,
        font: Option<&[u8]>,
        line: &[u8],
    ) -> Result<String, AllocError>
        ensures text { IfOk result (λ s. string_bytes s ≡ room_text (sarif_state self.old)) }
        ensures state { OnOk result (sarif_state self.new ≡ with_failure (with_room (sarif_state self.old))
            (compact_text (notification_object (option_map (λ name. name.now) font.entry) line.now))) }
    {
        let notification = notification_text(alloc, font, line)?;
        let text = self.make_room(alloc)?;
        self.keep(alloc, notification.as_str())?;
        Ok(text)
    }

    /// The text that is written of what is reported.
    fn telling(&mut self, alloc: Global, told: &Told<'_>) -> Result<String, AllocError>
        ensures text { IfOk result (λ s. string_bytes s ≡ telling_text (sarif_state self.old) (told_value told.now) told.now.line.now) }
        ensures state { OnOk result (sarif_state self.new ≡ after_telling (sarif_state self.old) (told_value told.now) told.now.line.now) }
    {
        match &told.what {
            What::Line(line) => self.result(
                alloc,
                told.font,
                line,
                told.line,
                told.reason.as_ref(),
            ),
            What::Unchecked(_) => self.failure(alloc, told.font, told.line),
        }
    }

    /// Writes the result of a line, or keeps why a font wasn't checked.
    pub fn put<W: Sink>(
        &mut self,
        alloc: Global,
        sink: &mut W,
        told: &Told<'_>,
    ) -> Result<(), FormatError>
        ensures text { WritesLine (W.state sink.old) (W.state sink.new)
            (telling_text (sarif_state self.old) (told_value told.now) told.now.line.now) result }
        ensures state { OnOk result (sarif_state self.new ≡ after_telling (sarif_state self.old) (told_value told.now) told.now.line.now) }
    {
        let text = self.telling(alloc, told)?;
        put_all(sink, text.as_bytes())?;
        Ok(())
    }

    /// The text that ends the document.
    fn closing(&self, alloc: Global) -> Result<String, AllocError>
        ensures { IfOk result (λ s. string_bytes s ≡ closing (sarif_state self.now)) }
    {
        let mut text = run_end(alloc, self.failure_count == 0, self.failures.as_str())?;
        text.push_str("]}\n")?;
        Ok(text)
    }

    /// Ends the document.
    pub fn end<W: Sink>(self, alloc: Global, sink: &mut W) -> Result<(), FormatError>
        ensures { WritesLine (W.state sink.old) (W.state sink.new) (closing (sarif_state self.entry)) result }
    {
        let text = self.closing(alloc)?;
        put_all(sink, text.as_bytes())?;
        Ok(())
    }
}
