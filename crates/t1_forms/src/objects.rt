//! A line as an object of JSON.

ghost use Rattle.std.specs.Prelude.{◌≡◌, IfOk, option_map, string_bytes};
ghost use Rattle.serde_json.specs.Data.{string};
ghost use Rattle.serde_json.specs.View.{members_view, view};
ghost use Rattle.t1_lines.specs.Lines.{at_key, at_step, at_waiver, place_value};
ghost use Rattle.t1_forms.specs.Objects.{fault_members, font_line, font_object, list_of, members_of_all, object_line, object_of, reason_object, refusal_code_of, refusal_reason_of, what_members, with_font};
ghost use Rattle.t1_forms.specs.Shown.{shown};
ghost use Rattle.t1_forms.specs.Tellings.{reason_value, told_value, what_value};
ghost use Rattle.t1_forms.specs.Writing.{WritesLine};

use crate::members::{put_text, reason_members};
use crate::{FormatError, Told, ToldReason, What, shown};
use serde_json::{Map, Value, json, put};
use std::alloc::{AllocError, Global};
use t1_font::{RefusalCode, refusal_text};
use t1_io::{Sink, put_all};
use t1_lines::{FaultLine, Line, Place};
use t1_rules::{Level, Rule, key_text, rule_code, rule_level, rule_text};

/// The code of a refusal: `E03`.
pub(crate) fn refusal_code(code: RefusalCode) -> &'static [u8]
    ensures { result.now ≡ refusal_code_of code }
{
    &refusal_text(code).as_bytes()[..3]
}

/// What is reported of a refusal after its code.
pub(crate) fn refusal_reason(code: RefusalCode) -> &'static [u8]
    ensures { result.now ≡ refusal_reason_of code }
{
    &refusal_text(code).as_bytes()[4..]
}

/// Numbers of Subrs as a list.
fn list(alloc: Global, numbers: &[u32]) -> Result<Value, AllocError>
    ensures { IfOk result (λ v. view v ≡ list_of numbers.now) }
{
    let mut items = Vec::new(alloc);
    for number in numbers {
        items.push(Value::from(*number))?;
    }
    Ok(Value::Array(items))
}

/// A text as a value.
fn text(alloc: Global, text: &[u8]) -> Result<Value, AllocError>
    ensures { IfOk result (λ v. view v ≡ string (shown text.now)) }
{
    Ok(Value::String(shown(alloc, text)?))
}

/// The members that each fault has.
fn members_of_all(
    alloc: Global,
    fault: &FaultLine<'_>,
    unit: &str,
) -> Result<Map<String, Value>, AllocError>
    ensures { IfOk result (λ m. members_view m.entries ≡ members_of_all fault.now.number fault.now.rule unit.now) }
{
    let mut members = Map::new(alloc);
    put_text(&mut members, alloc, "code", rule_code(fault.rule))?;
    put_text(&mut members, alloc, "level", rule_level(fault.rule).text())?;
    put(&mut members, alloc, "number", Value::from(fault.number))?;
    put_text(&mut members, alloc, "text", rule_text(fault.rule))?;
    put_text(&mut members, alloc, "unit", unit)?;
    Ok(members)
}

/// The members of a fault of the font.
fn key_members(
    alloc: Global,
    fault: &FaultLine<'_>,
    key: u8,
    index: u16,
) -> Result<Map<String, Value>, AllocError>
    ensures { IfOk result (λ m. members_view m.entries ≡ fault_members fault.now.number (at_key key index) fault.now.rule) }
{
    let mut members = members_of_all(alloc, fault, "font")?;
    put_text(&mut members, alloc, "key", key_text(key))?;
    put(&mut members, alloc, "index", Value::from(index))?;
    Ok(members)
}

/// The members of a fault of a glyph.
fn step_members(
    alloc: Global,
    fault: &FaultLine<'_>,
    name: &[u8],
    path: &[u32],
    step: u32,
) -> Result<Map<String, Value>, AllocError>
    ensures { IfOk result (λ m. members_view m.entries ≡ fault_members fault.now.number (at_step name.now path.now step) fault.now.rule) }
{
    let mut members = members_of_all(alloc, fault, "glyph")?;
    put(&mut members, alloc, "name", text(alloc, name)?)?;
    put(&mut members, alloc, "path", list(alloc, path)?)?;
    put(&mut members, alloc, "step", Value::from(step))?;
    Ok(members)
}

/// The members of a waiver that isn't used.
fn waiver_members(
    alloc: Global,
    fault: &FaultLine<'_>,
    name: &[u8],
    waived: Rule,
) -> Result<Map<String, Value>, AllocError>
    ensures { IfOk result (λ m. members_view m.entries ≡ fault_members fault.now.number (at_waiver name.now waived) fault.now.rule) }
{
    let mut members = members_of_all(alloc, fault, "waiver")?;
    put(&mut members, alloc, "name", text(alloc, name)?)?;
    put_text(&mut members, alloc, "waived", rule_code(waived))?;
    Ok(members)
}

/// The members of a fault of the font or of a glyph, or of a waiver that isn't used.
fn fault_members(alloc: Global, fault: &FaultLine<'_>) -> Result<Map<String, Value>, AllocError>
    ensures { IfOk result (λ m. members_view m.entries
        ≡ fault_members fault.now.number (place_value fault.now.place) fault.now.rule) }
{
    match &fault.place {
        Place::Key { key, index } => key_members(alloc, fault, *key, *index),
        Place::Step { name, path, step } => {
            step_members(alloc, fault, name, path.as_slice(), *step)
        }
        Place::Waiver { name, rule } => waiver_members(alloc, fault, name, *rule),
    }
}

/// The members of what is reported, without the font's name.
fn what_members(alloc: Global, what: &What<'_>) -> Result<Map<String, Value>, AllocError>
    ensures { IfOk result (λ m. members_view m.entries ≡ what_members (what_value what.now)) }
{
    let mut members = Map::new(alloc);
    match what {
        What::Line(Line::Fault(fault)) => return fault_members(alloc, fault),
        What::Line(Line::Refusal(refusal)) => {
            put_text(&mut members, alloc, "unit", "refused")?;
            let code = text(alloc, refusal_code(*refusal))?;
            put(&mut members, alloc, "code", code)?;
            put_text(&mut members, alloc, "level", Level::Must.text())?;
            let reason = text(alloc, refusal_reason(*refusal))?;
            put(&mut members, alloc, "text", reason)?;
        }
        What::Unchecked(reason) => {
            put_text(&mut members, alloc, "unit", "unchecked")?;
            put(&mut members, alloc, "text", text(alloc, reason)?)?;
        }
    }
    Ok(members)
}

/// The object of a reason: its numbers and its text.
fn reason_object(alloc: Global, reason: &ToldReason<'_>) -> Result<Value, AllocError>
    ensures { IfOk result (λ v. view v ≡ reason_object (reason_value reason.now)) }
{
    let mut members = reason_members(alloc, reason.font, reason.reason)?;
    put(&mut members, alloc, "text", text(alloc, reason.text)?)?;
    Ok(Value::Object(members))
}

/// The members of what is reported, with the font's name, where there is one.
fn line_members(alloc: Global, told: &Told<'_>) -> Result<Map<String, Value>, AllocError>
    ensures { IfOk result (λ m. members_view m.entries
        ≡ with_font (option_map (λ name. name.now) told.now.font) (what_members (what_value told.now.what))) }
{
    let mut members = what_members(alloc, &told.what)?;
    if let Some(font) = told.font {
        put(&mut members, alloc, "file", text(alloc, font)?)?;
    }
    Ok(members)
}

/// The object that a line means.
///
/// Its members: `unit` (`font`, `glyph`, `waiver`, `refused`, `unchecked`) and `text`; `file`, the font's name, where there is
/// one; of a fault `number`, `code` and `level`, of a refusal `code` and `level`; in the font `key` and `index`, in a glyph `name`,
/// `path` and `step`, of a waiver `name` and `waived`; `reason`, an object of the reason's numbers and its `text`, where there is
/// one.
pub fn object(alloc: Global, told: &Told<'_>) -> Result<Value, AllocError>
    ensures { IfOk result (λ v. view v ≡ object_of (told_value told.now)) }
{
    let mut members = line_members(alloc, told)?;
    if let Some(reason) = &told.reason {
        put(&mut members, alloc, "reason", reason_object(alloc, reason)?)?;
    }
    Ok(Value::Object(members))
}

/// The line that is written of it.
fn object_line(alloc: Global, told: &Told<'_>) -> Result<String, AllocError>
    ensures { IfOk result (λ s. string_bytes s ≡ object_line (told_value told.now)) }
{
    let mut text = object(alloc, told)?.to_string(alloc)?;
    text.push_str("\n")?;
    Ok(text)
}

/// Writes the object that a line means, without blanks, and byte 10.
pub fn write_object<W: Sink>(
    alloc: Global,
    sink: &mut W,
    told: &Told<'_>,
) -> Result<(), FormatError>
    ensures { WritesLine (W.state sink.old) (W.state sink.new) (object_line (told_value told.now)) result }
{
    let line = object_line(alloc, told)?;
    put_all(sink, line.as_bytes())?;
    Ok(())
}

/// The object of a font of which no line is reported.
fn font_object(
    alloc: Global,
    font: &[u8],
    unit: &str,
    description: &str,
) -> Result<Value, AllocError>
    ensures { IfOk result (λ v. view v ≡ font_object font.now unit.now description.now) }
{
    let file = text(alloc, font)?;
    json!(in alloc; {"file": file, "text": description, "unit": unit})
}

/// The line that is written of it.
fn font_line(
    alloc: Global,
    font: &[u8],
    unit: &str,
    description: &str,
) -> Result<String, AllocError>
    ensures { IfOk result (λ s. string_bytes s ≡ font_line font.now unit.now description.now) }
{
    let object = font_object(alloc, font, unit, description)?;
    let mut text = object.to_string(alloc)?;
    text.push_str("\n")?;
    Ok(text)
}

/// Writes an object of a font of which no line is reported, without blanks, and byte 10. Its members: `file`, `text` and `unit`.
pub fn write_font<W: Sink>(
    alloc: Global,
    sink: &mut W,
    font: &[u8],
    unit: &str,
    description: &str,
) -> Result<(), FormatError>
    ensures { WritesLine (W.state sink.old) (W.state sink.new) (font_line font.now unit.now description.now) result }
{
    let line = font_line(alloc, font, unit, description)?;
    put_all(sink, line.as_bytes())?;
    Ok(())
}
