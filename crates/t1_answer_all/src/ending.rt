//! What is printed once all fonts were checked, and what is left to do.

ghost use Rattle.std.specs.Prelude.{◌≡◌, IfOk, List, if◌then◌else◌, option_map};
ghost use Rattle.t1_answer_all.specs.Endings.{AreFoundBy, Ends, any_failing, edition_text, has_failing, has_known, mismatches_text, rest_text, rows_in, status_in, status_of, summary_text, unwaived_text};
ghost use Rattle.t1_answer_all.specs.Modes.{mode_value};
ghost use Rattle.t1_answer_all.specs.Plans.{plan_value};
ghost use Rattle.t1_answer_all.specs.Private.Updates.{IsUpdated};
ghost use Rattle.t1_io.specs.Devices.{Writes};
ghost use Rattle.t1_known.specs.Writes.{WritesAll};
ghost use Rattle.t1_many.specs.Choice.{choice_of};
ghost use Rattle.t1_many.specs.KnownFaults.{Reading as ReadingValue};

use crate::findings::Findings;
use crate::mode::Mode;
use crate::plan::Plan;
use std::alloc::Global;
use t1_forms::Text;
use t1_io::{Broken, Sink, put_all};
use t1_known::{count_rows, write_mismatches, write_updated};
use t1_many::{Choice, Lost, Reading};
use t1_rules::{Mask, Rule, all_rules};
use t1_run::Status;
use t1_summary::{FontClass, Tally, summary};
use t1_waiving::{Kept, tell_too_many};

/// What is left to do after a run.
#[derive(Drop)]
pub struct Left {
    /// The status so far.
    pub status: Status,
    /// The text with which the file of known faults is to be replaced, if it is.
    pub known_faults: Option<Vec<u8>>,
    /// The waivers that are to be written, if all fonts were checked.
    pub waivers: Option<Kept>,
}

/// Prints what comes after all fonts, in this order:
///
/// - the rows of known faults of which more or fewer were found;
/// - the summary, unless it is omitted;
/// - by which edition fonts were checked, below a summary on a terminal where none was named;
/// - where waivers are to be written, that lines of a font itself can't be waived, if there are some;
/// - which fonts have too many waivers.
///
/// Where memory runs out nothing is printed.
pub fn end<E: Sink>(
    alloc: Global,
    plan: Plan<'_>,
    found: Findings,
    errors: &mut E,
) -> Result<Left, Lost>
    ensures { (all : List ReadingValue) → AreFoundBy (mode_value plan.entry.mode) found.readings.items all
        → Ends (plan_value plan.entry) found all (E.state errors.old) (E.state errors.new) result }
{
    let readings = found.readings.as_slice();
    let known_faults = known_faults_anew(alloc, plan.mode, readings, plan.choice)?;
    tell_mismatches(alloc, plan.mode, readings, plan.choice, errors)?;
    let status = tell_rest(plan, &found, rows_in(&known_faults), errors)?;
    Ok(Left {
        status: status_of_list(plan.unlisted.is_empty(), status),
        known_faults,
        waivers: Some(found.kept),
    })
}

/// The status of the fonts, unless not all could be listed.
fn status_of_list(whole: bool, status: Status) -> Status
    ensures { result ≡ (if whole then status else Status.Failed) }
{
    if whole { status } else { Status::Failed }
}

/// How many rows a file of known faults has that was made.
fn rows_in(text: &Option<Vec<u8>>) -> Option<u64>
    ensures { result ≡ rows_in (option_map (λ text. text.items) text.now) }
{
    match text {
        Some(text) => Some(count_rows(text.as_slice()) as u64),
        None => None,
    }
}

/// The text of the file of known faults from now on, where it is made anew.
fn known_faults_anew(
    alloc: Global,
    mode: Mode<'_>,
    readings: &[Reading],
    choice: Choice<'_>,
) -> Result<Option<Vec<u8>>, Lost>
    ensures { IsUpdated (mode_value mode.entry) (choice_of choice.entry) readings.now result }
{
    let Mode::UpdateBaseline(known) = mode else {
        return Ok(None);
    };
    let mut text = Text::new(alloc);
    match write_updated(alloc, &mut text, known, readings, choice) {
        Ok(()) => Ok(Some(text.into_bytes())),
        Err(_) => Err(Lost::Memory),
    }
}

/// Prints the rows of known faults of which more or fewer were found, where lines beyond them are reported.
fn tell_mismatches<E: Sink>(
    alloc: Global,
    mode: Mode<'_>,
    readings: &[Reading],
    choice: Choice<'_>,
    errors: &mut E,
) -> Result<(), Lost>
    ensures { (all : List ReadingValue) → AreFoundBy (mode_value mode.entry) readings.now all → WritesAll (E.state errors.old) (E.state errors.new)
        (mismatches_text (mode_value mode.entry) (choice_of choice.entry) all) result }
{
    match mode {
        Mode::ReportNew(known) => write_mismatches(alloc, errors, known, readings, choice),
        Mode::ReportAll | Mode::UpdateBaseline(_) | Mode::WriteWaivers => Ok(()),
    }
}

/// Prints what comes after that, and returns the status.
fn tell_rest<E: Sink>(
    plan: Plan<'_>,
    found: &Findings,
    rows: Option<u64>,
    errors: &mut E,
) -> Result<Status, Broken>
    ensures told { Writes (E.state errors.old) (E.state errors.new) (rest_text (plan_value plan.entry) found.now rows) result }
    ensures status { IfOk result (λ status. status ≡ status_in plan.entry.failing found.now) }
{
    tell_summary(plan, &found.tally, rows, errors)?;
    tell_edition(plan, errors)?;
    tell_unwaived(plan.mode, &found.tally, errors)?;
    match tell_too_many(errors, &found.kept)? {
        Status::Failed => Ok(Status::Failed),
        _ => Ok(status_of(plan.failing, &found.tally)),
    }
}

/// Prints the summary, unless it is omitted.
fn tell_summary<E: Sink>(
    plan: Plan<'_>,
    tally: &Tally,
    rows: Option<u64>,
    errors: &mut E,
) -> Result<(), Broken>
    ensures { Writes (E.state errors.old) (E.state errors.new) (summary_text (plan_value plan.entry) tally.now rows) result }
{
    if plan.quiet {
        return Ok(());
    }
    summary(tally, rows, has_known(plan.mode), errors)
}

/// Prints by which edition fonts were checked, and which one has more rules, where that is to be told.
fn tell_edition<E: Sink>(plan: Plan<'_>, errors: &mut E) -> Result<(), Broken>
    ensures { Writes (E.state errors.old) (E.state errors.new) (edition_text (plan_value plan.entry)) result }
{
    if !plan.quiet && plan.tells_edition {
        put_all(errors, b"by edition 1 of the rules; --edition 4 has more\n")
    } else {
        Ok(())
    }
}

/// Whether lines are compared with known faults.
fn has_known(mode: Mode<'_>) -> bool
    ensures { result ≡ has_known (mode_value mode.entry) }
{
    match mode {
        Mode::ReportNew(_) | Mode::UpdateBaseline(_) => true,
        Mode::ReportAll | Mode::WriteWaivers => false,
    }
}

/// Prints that lines of a font itself can't be waived, where waivers are to be written and a line was reported.
fn tell_unwaived<E: Sink>(mode: Mode<'_>, tally: &Tally, errors: &mut E) -> Result<(), Broken>
    ensures { Writes (E.state errors.old) (E.state errors.new) (unwaived_text (mode_value mode.entry) tally.now) result }
{
    match mode {
        Mode::WriteWaivers if 0 < tally.fonts_found(FontClass::Faulty) => put_all(
            errors,
            b"t1check-all: lines of a font itself can not be waived\n",
        ),
        _ => Ok(()),
    }
}

/// The status of fonts that were found so: that of faults where a line of a rule was handed on that makes it so.
pub fn status_of(failing: Mask, tally: &Tally) -> Status
    ensures { result ≡ status_of failing tally.now }
{
    if 0 < tally.fonts_found(FontClass::Unchecked) {
        Status::Failed
    } else if 0 < tally.fonts_found(FontClass::Refused) {
        Status::Refused
    } else if has_failing(failing, tally) {
        Status::Faults
    } else {
        Status::Clean
    }
}

/// Whether a line of a failing rule was handed on.
fn has_failing(failing: Mask, tally: &Tally) -> bool
    ensures { result ≡ has_failing failing tally.now }
{
    any_failing(all_rules(), failing, tally)
}

/// Whether a line was handed on of one of the failing rules among these.
fn any_failing(rules: &[Rule], failing: Mask, tally: &Tally) -> bool
    ensures { result ≡ any_failing failing tally.now rules.now }
{
    rules
        .iter()
        .any(|rule| failing.has(*rule) && 0 < tally.lines_of(*rule))
}
