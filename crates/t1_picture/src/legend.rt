//! The lines below the drawing.

ghost use Rattle.std.specs.Prelude.{◌≡◌, ◌++◌, IfOk, OnOk, codes, nat_lt, not, option_map, string_bytes};
ghost use Rattle.t1_picture.specs.Drawings.{drawing_view, texts_of};
ghost use Rattle.t1_picture.specs.Legends.{heading_of, is_empty, legend_of, lines_or_none, no_fault, step_line, step_lines, title_line, title_of, waived_line};
ghost use Rattle.t1_picture.specs.Marks.{faults_view};
ghost use Rattle.t1_picture.specs.Parts.{note_if};
ghost use Rattle.t1_picture.specs.Subjects.{shown_value, subject_of};

use crate::arrows::has_turns;
use crate::drawing::Drawing;
use crate::faults::Faults;
use crate::texts::add_line;
use crate::view::{Shown, View};
use std::alloc::{AllocError, Global};
use t1_char::Edition;

/// What is above the lines of faults.
const IN_GLYPH: &str = "faults, by numbers that count in this glyph:";

const IN_REPORT: &str = "fault, by its number in the report:";

/// The lines of the legend: what is drawn, what isn't, and the faults. Notes and faults give theirs away.
pub(crate) fn legend(
    alloc: Global,
    view: &View<'_>,
    title: &str,
    drawing: &mut Drawing,
    faults: &mut Faults,
) -> Result<Vec<String>, AllocError>
    requires { title.now ≡ title_of (subject_of view.now) }
    ensures lines { IfOk result (λ lines. texts_of lines.items
        ≡ legend_of (subject_of view.now) (drawing_view drawing.old) (faults_view faults.old)) }
    ensures layers { drawing.new.layers ≡ drawing.old.layers }
    ensures composition { drawing.new.composition ≡ drawing.old.composition }
    ensures marks { faults.new.marks ≡ faults.old.marks }
    ensures causes { faults.new.causes ≡ faults.old.causes }
{
    let mut lines = Vec::new(alloc);
    lines.push(title_line(alloc, view.edition(), title)?)?;
    add_step(alloc, view.step(), &drawing.last_step, &mut lines)?;
    lines.append(&mut drawing.notes)?;
    add_dashed(alloc, drawing.layers.unclosed.as_str(), &mut lines)?;
    add_arrows(alloc, has_turns(faults.causes.as_slice()), &mut lines)?;
    add_waived(alloc, faults.waived, &mut lines)?;
    let heading = heading(&view.shown);
    add_faults(alloc, heading, faults.waived, &mut faults.lines, &mut lines)?;
    Ok(lines)
}

/// Which glyph it is, by which edition.
fn title_line(alloc: Global, edition: Edition, title: &str) -> Result<String, AllocError>
    ensures { IfOk result (λ line. string_bytes line ≡ title_line edition title.now) }
{
    match edition {
        Edition::One => String::from_str(alloc, title),
        Edition::Two | Edition::Three | Edition::Four => {
            let digit = edition.digit();
            format!(in alloc; "{title}, edition {digit}")
        }
    }
}

/// Adds the last step that was requested, if one was.
fn add_step(
    alloc: Global,
    step: Option<u64>,
    last_step: &Option<String>,
    lines: &mut Vec<String>,
) -> Result<(), AllocError>
    ensures { OnOk result (texts_of lines.new.items ≡ texts_of lines.old.items
        ++ step_lines step (option_map string_bytes last_step.now)) }
{
    if let Some(step) = step {
        lines.push(step_line(alloc, step, last_step)?)?;
    }
    Ok(())
}

/// The last step that was requested, by its number.
fn step_line(alloc: Global, step: u64, last_step: &Option<String>) -> Result<String, AllocError>
    ensures { IfOk result (λ line. string_bytes line ≡ step_line step (option_map string_bytes last_step.now)) }
{
    match last_step {
        Some(line) => format!(in alloc; "up to step {line}"),
        None => format!(in alloc; "up to step {step}, which isn't reached"),
    }
}

/// Adds that something is dashed, where it is.
fn add_dashed(alloc: Global, unclosed: &str, lines: &mut Vec<String>) -> Result<(), AllocError>
    ensures { OnOk result (texts_of lines.new.items ≡ texts_of lines.old.items
        ++ note_if (not (is_empty unclosed.now)) (codes "dashed: a path that isn't closed")) }
{
    if unclosed.is_empty() {
        return Ok(());
    }
    lines.push(String::from_str(alloc, "dashed: a path that isn't closed")?)?;
    Ok(())
}

/// Adds what arrows show, if they are meant.
fn add_arrows(alloc: Global, are_meant: bool, lines: &mut Vec<String>) -> Result<(), AllocError>
    ensures { OnOk result (texts_of lines.new.items ≡ texts_of lines.old.items
        ++ note_if are_meant (codes "arrows: which way each path runs")) }
{
    if !are_meant {
        return Ok(());
    }
    lines.push(String::from_str(alloc, "arrows: which way each path runs")?)?;
    Ok(())
}

/// Adds how many faults are waived, if some are.
fn add_waived(alloc: Global, waived: u64, lines: &mut Vec<String>) -> Result<(), AllocError>
    ensures { OnOk result (texts_of lines.new.items ≡ texts_of lines.old.items ++ note_if (nat_lt 0 waived) (waived_line waived)) }
{
    if waived == 0 {
        return Ok(());
    }
    lines.push(waived_line(alloc, waived)?)?;
    Ok(())
}

/// Adds the faults, whose lines are given away, or that there is none, beside those that are waived.
fn add_faults(
    alloc: Global,
    heading: &str,
    waived: u64,
    faults: &mut Vec<String>,
    lines: &mut Vec<String>,
) -> Result<(), AllocError>
    ensures { OnOk result (texts_of lines.new.items ≡ texts_of lines.old.items ++ lines_or_none heading.now waived (texts_of faults.old.items)) }
{
    if faults.len() == 0 {
        return add_line(lines, String::from_str(alloc, no_fault(waived))?);
    }
    add_line(lines, String::from_str(alloc, heading)?)?;
    lines.append(faults)?;
    Ok(())
}

/// What is above the lines of faults: what their numbers count.
fn heading(shown: &Shown) -> &'static str
    ensures { result.now ≡ heading_of (shown_value shown.now) }
{
    match shown {
        Shown::Fault(_) => IN_REPORT,
        Shown::All | Shown::UpTo(_) => IN_GLYPH,
    }
}

/// That there is no fault, or no other one.
fn no_fault(waived: u64) -> &'static str
    ensures { result.now ≡ no_fault waived }
{
    if waived > 0 {
        "no other fault"
    } else {
        "no fault"
    }
}

/// How many faults are waived.
fn waived_line(alloc: Global, waived: u64) -> Result<String, AllocError>
    ensures { IfOk result (λ line. string_bytes line ≡ waived_line waived) }
{
    if waived == 1 {
        String::from_str(alloc, "1 waived fault isn't shown")
    } else {
        format!(in alloc; "{waived} waived faults aren't shown")
    }
}
