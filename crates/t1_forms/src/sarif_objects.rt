//! What a document of SARIF says of rules, of lines and of fonts that weren't checked, as objects of JSON.

ghost use Rattle.std.specs.Prelude.{◌≡◌, ◌≤◌, ◌++◌, ◌∷◌, IfOk, OnOk, decimal, length, map, option_map, string_bytes, unwrap_or};
ghost use Rattle.std.specs.List.{flat_map};
ghost use Rattle.serde_json.specs.Data.{string};
ghost use Rattle.serde_json.specs.View.{members_view, view};
ghost use Rattle.serde_json.specs.Written.{compact_text};
ghost use Rattle.t1_lines.specs.Lines.{at_step, line_value, place_value};
ghost use Rattle.t1_forms.specs.PageValues.{page_value, pages_value, place_among};
ghost use Rattle.t1_forms.specs.Shown.{shown};
ghost use Rattle.t1_forms.specs.Tellings.{reason_value};
ghost use Rattle.t1_forms.specs.SarifObjects.{and_reason, behind_colon, fault_locations, fingerprint, font_locations, help_object, is_plain_in_uri, level_coded, line_code, level_object, line_id, line_level, line_locations, line_message, line_unit, logical_location, logical_locations, notification_object, page_members, page_object, physical_location, place_unit, result_object, sarif_level, text_object, tool_object, unit_of, uri_byte};

use crate::members::put_text;
use crate::objects::refusal_code;
use crate::{Page, Pages, ToldReason, VERSION, shown};
use serde_json::{Map, Value, json, put};
use std::alloc::{AllocError, Global};
use t1_lines::{Line, Place};
use t1_reason_texts::hexadecimal_digit;
use t1_rules::{Level, Rule, key_text, rule_code, rule_level};

/// An object with a text.
fn text_object(alloc: Global, text: &str) -> Result<Value, AllocError>
    ensures { IfOk result (λ v. view v ≡ text_object text.now) }
{
    json!(in alloc; {"text": text})
}

/// The word of SARIF for a level.
fn sarif_level(level: Level) -> &'static str
    ensures { result.now ≡ sarif_level level }
{
    match level {
        Level::Must => "error",
        Level::Should => "warning",
        Level::Tidy => "note",
    }
}

/// The level of a page's code.
fn level_coded(code: &str) -> &'static str
    ensures { result.now ≡ level_coded code.now }
{
    match Rule::from_code(code.as_bytes()) {
        Some(rule) => sarif_level(rule_level(rule)),
        None => "error",
    }
}

/// A page as text and as Markdown.
fn help_object(alloc: Global, text: &str) -> Result<Value, AllocError>
    ensures { IfOk result (λ v. view v ≡ help_object text.now) }
{
    json!(in alloc; {"text": text, "markdown": text})
}

/// An object with a level.
fn level_object(alloc: Global, level: &str) -> Result<Value, AllocError>
    ensures { IfOk result (λ v. view v ≡ level_object level.now) }
{
    json!(in alloc; {"level": level})
}

/// What is said of a rule or a refusal, but for its address.
fn page_members(alloc: Global, page: &Page) -> Result<Map<String, Value>, AllocError>
    ensures { IfOk result (λ m. members_view m.entries ≡ page_members (page_value page.now)) }
{
    let mut members = Map::new(alloc);
    put_text(&mut members, alloc, "id", page.code)?;
    let title = text_object(alloc, page.title)?;
    put(&mut members, alloc, "shortDescription", title)?;
    put(&mut members, alloc, "help", help_object(alloc, page.text)?)?;
    let level = level_object(alloc, level_coded(page.code))?;
    put(&mut members, alloc, "defaultConfiguration", level)?;
    Ok(members)
}

/// The address of a page.
fn help_uri(alloc: Global, docs: &str, anchor: &str) -> Result<Value, AllocError>
    ensures { IfOk result (λ v. view v ≡ string (docs.now ++ (35 ∷ anchor.now))) }
{
    Ok(Value::String(format!(in alloc; "{docs}#{anchor}")?))
}

/// What is said of a rule or a refusal.
fn page_object(alloc: Global, page: &Page, docs: Option<&str>) -> Result<Value, AllocError>
    ensures { IfOk result (λ v. view v ≡ page_object (option_map (λ docs. docs.now) docs.entry) (page_value page.now)) }
{
    let mut members = page_members(alloc, page)?;
    if let Some(docs) = docs {
        let uri = help_uri(alloc, docs, page.anchor)?;
        put(&mut members, alloc, "helpUri", uri)?;
    }
    Ok(Value::Object(members))
}

/// What is said of all rules and refusals.
fn page_objects(alloc: Global, pages: &[Page], docs: Option<&str>) -> Result<Vec<Value>, AllocError>
    ensures { IfOk result (λ vs. map view vs.items ≡ map (page_object (option_map (λ docs. docs.now) docs.entry)) (map page_value pages.now)) }
{
    let mut objects = Vec::new(alloc);
    for page in pages {
        objects.push(page_object(alloc, page, docs)?)?;
    }
    Ok(objects)
}

/// The program, its rules and its version.
fn tool_object(alloc: Global, pages: Pages<'_>) -> Result<Value, AllocError>
    ensures { IfOk result (λ v. view v ≡ tool_object (pages_value pages.entry)) }
{
    let rules = Value::Array(page_objects(alloc, pages.list, pages.docs)?);
    json!(in alloc; {"driver": {"name": "t1check", "rules": rules, "version": VERSION}})
}

/// Its text.
pub(crate) fn tool_text(alloc: Global, pages: Pages<'_>) -> Result<String, AllocError>
    ensures { IfOk result (λ s. string_bytes s ≡ compact_text (tool_object (pages_value pages.entry))) }
{
    let text = tool_object(alloc, pages)?.to_string(alloc)?;
    Ok(text)
}

/// The place of a code among pages; after them all where it has none.
fn place_among(pages: &[Page], code: &[u8]) -> usize
    ensures { result ≡ place_among (map page_value pages.now) code.now }
{
    let mut place = 0;
    for page in pages {
        if page.code.as_bytes() == code {
            return place;
        }
        place += 1;
    }
    place
}

/// Whether a byte of a path is in a URI as it is: Uniform Resource Identifiers, RFC 3986, 2.3 and 3.3.
fn is_plain_in_uri(byte: u8) -> bool
    ensures { result ≡ is_plain_in_uri byte }
{
    byte.is_ascii_alphanumeric() || matches!(byte, b'-' | b'.' | b'_' | b'~' | b'/')
}

/// A byte of a path as it is in a URI: Uniform Resource Identifiers, RFC 3986, 2.1.
fn push_uri_byte(uri: &mut String, byte: u8) -> Result<(), AllocError>
    ensures { OnOk result (string_bytes uri.new ≡ string_bytes uri.old ++ uri_byte byte) }
{
    if is_plain_in_uri(byte) {
        return uri.push(char::from(byte));
    }
    uri.push('%')?;
    uri.push(hexadecimal_digit(byte / 16))?;
    uri.push(hexadecimal_digit(byte % 16))
}

/// A path as a URI.
fn uri(alloc: Global, path: &[u8]) -> Result<String, AllocError>
    ensures { IfOk result (λ s. string_bytes s ≡ flat_map uri_byte path.now) }
{
    let mut uri = String::new(alloc);
    for byte in path {
        push_uri_byte(&mut uri, *byte)?;
    }
    Ok(uri)
}

/// Where a font is: its path, and line 1, since what shows results needs a line.
fn physical_location(alloc: Global, font: &[u8]) -> Result<Value, AllocError>
    ensures { IfOk result (λ v. view v ≡ physical_location font.now) }
{
    let uri = Value::String(uri(alloc, font)?);
    json!(in alloc; {"artifactLocation": {"uri": uri}, "region": {"startLine": 1u8}})
}

/// A place within a font.
fn logical_location(alloc: Global, kind: &str, name: &str) -> Result<Value, AllocError>
    ensures { IfOk result (λ v. view v ≡ logical_location kind.now name.now) }
{
    json!(in alloc; {"kind": kind, "name": name})
}

/// Such a place that has a number.
fn numbered(alloc: Global, kind: &str, number: u32) -> Result<Value, AllocError>
    ensures { IfOk result (λ v. view v ≡ logical_location kind.now (decimal number)) }
{
    let number = number.to_string(alloc)?;
    logical_location(alloc, kind, number.as_str())
}

/// Such a place that has a name of bytes.
fn named(alloc: Global, kind: &str, name: &[u8]) -> Result<Value, AllocError>
    ensures { IfOk result (λ v. view v ≡ logical_location kind.now (shown name.now)) }
{
    let name = shown(alloc, name)?;
    logical_location(alloc, kind, name.as_str())
}

/// A glyph, the Subrs that are being executed, and the step.
fn step_locations(
    alloc: Global,
    name: &[u8],
    path: &[u32],
    step: u32,
) -> Result<Vec<Value>, AllocError>
    ensures { IfOk result (λ vs. map view vs.items ≡ logical_locations (at_step name.now path.now step)) }
{
    let mut places = Vec::new(alloc);
    places.push(named(alloc, "glyph", name)?)?;
    for number in path {
        places.push(numbered(alloc, "subr", *number)?)?;
    }
    places.push(numbered(alloc, "step", step)?)?;
    Ok(places)
}

/// The places of a fault, the outermost first: a key and an index; a glyph, the Subrs that are being executed, and the step;
/// or a waiver's glyph and rule.
fn logical_locations(alloc: Global, place: &Place<'_>) -> Result<Vec<Value>, AllocError>
    ensures { IfOk result (λ vs. map view vs.items ≡ logical_locations (place_value place.now)) }
{
    let mut places = Vec::new(alloc);
    match place {
        Place::Key { key, index } => {
            places.push(logical_location(alloc, "key", key_text(*key))?)?;
            places.push(numbered(alloc, "index", u32::from(*index))?)?;
        }
        Place::Step { name, path, step } => {
            return step_locations(alloc, name, path.as_slice(), *step);
        }
        Place::Waiver { name, rule } => {
            places.push(named(alloc, "waiver", name)?)?;
            places.push(logical_location(alloc, "rule", rule_code(*rule))?)?;
        }
    }
    Ok(places)
}

/// A font, where one is named, as a list of one place at most.
fn font_locations(alloc: Global, font: Option<&[u8]>) -> Result<Value, AllocError>
    ensures { IfOk result (λ v. view v ≡ font_locations (option_map (λ name. name.now) font.entry)) }
{
    let Some(font) = font else {
        return Ok(Value::Array(Vec::new(alloc)));
    };
    json!(in alloc; [{"physicalLocation": physical_location(alloc, font)?}])
}

/// The place of a fault, in the font where one is named, as a list.
fn fault_locations(
    alloc: Global,
    font: Option<&[u8]>,
    place: &Place<'_>,
) -> Result<Value, AllocError>
    ensures { IfOk result (λ v. view v ≡ fault_locations (option_map (λ name. name.now) font.entry) (place_value place.now)) }
{
    let places = Value::Array(logical_locations(alloc, place)?);
    match font {
        Some(font) => {
            let font = physical_location(alloc, font)?;
            json!(in alloc; [{"logicalLocations": places, "physicalLocation": font}])
        }
        None => json!(in alloc; [{"logicalLocations": places}]),
    }
}

/// What a line speaks of, as a list of one place at most.
fn line_locations(alloc: Global, font: Option<&[u8]>, line: &Line<'_>) -> Result<Value, AllocError>
    ensures { IfOk result (λ v. view v ≡ line_locations (option_map (λ name. name.now) font.entry) (line_value line.now)) }
{
    match line {
        Line::Fault(fault) => fault_locations(alloc, font, &fault.place),
        Line::Refusal(_) => font_locations(alloc, font),
    }
}

/// The code of a rule or a refusal.
fn line_code(line: &Line<'_>) -> &'static [u8]
    ensures { result.now ≡ line_code (line_value line.now) }
{
    match line {
        Line::Fault(fault) => rule_code(fault.rule).as_bytes(),
        Line::Refusal(code) => refusal_code(*code),
    }
}

/// The code as text.
fn line_id(alloc: Global, line: &Line<'_>) -> Result<String, AllocError>
    ensures { IfOk result (λ s. string_bytes s ≡ line_id (line_value line.now)) }
{
    shown(alloc, line_code(line))
}

/// The level of a line.
fn line_level(line: &Line<'_>) -> &'static str
    ensures { result.now ≡ line_level (line_value line.now) }
{
    match line {
        Line::Fault(fault) => sarif_level(rule_level(fault.rule)),
        Line::Refusal(_) => "error",
    }
}

/// What is after the first colon and one byte more.
fn behind_colon(line: &[u8]) -> &[u8]
    ensures { result.now ≡ behind_colon line.now }
{
    let mut rest = line;
    while let [byte, behind @ ..] = rest {
        if *byte == b':' {
            return match behind {
                [_, text @ ..] => text,
                [] => behind,
            };
        }
        rest = behind;
    }
    rest
}

/// What is shown of a line: without its number, which changes where other lines come or go.
fn line_message(alloc: Global, line: &Line<'_>, text: &[u8]) -> Result<String, AllocError>
    ensures { IfOk result (λ s. string_bytes s ≡ line_message (line_value line.now) text.now) }
{
    match line {
        Line::Fault(_) => shown(alloc, behind_colon(text)),
        Line::Refusal(_) => shown(alloc, text),
    }
}

/// A message with the reason after it, where there is one.
fn and_reason(
    alloc: Global,
    message: String,
    reason: Option<&ToldReason<'_>>,
) -> Result<String, AllocError>
    ensures { IfOk result (λ s. string_bytes s
        ≡ and_reason (string_bytes message) (option_map (λ reason. reason_value reason.now) reason.entry)) }
{
    let Some(reason) = reason else {
        return Ok(message);
    };
    let text = shown(alloc, reason.text)?;
    format!(in alloc; "{message}: {text}")
}

/// What is shown of a line and its reason.
fn message(
    alloc: Global,
    line: &Line<'_>,
    text: &[u8],
    reason: Option<&ToldReason<'_>>,
) -> Result<String, AllocError>
    ensures { IfOk result (λ s. string_bytes s
        ≡ and_reason (line_message (line_value line.now) text.now) (option_map (λ reason. reason_value reason.now) reason.entry)) }
{
    let message = line_message(alloc, line, text)?;
    and_reason(alloc, message, reason)
}

/// The unit of a fault, after the font's name.
fn place_unit(alloc: Global, place: &Place<'_>) -> Result<String, AllocError>
    ensures { IfOk result (λ s. string_bytes s ≡ place_unit (place_value place.now)) }
{
    match place {
        Place::Key { key, .. } => format!(in alloc; " font {}", key_text(*key)),
        Place::Step { name, .. } => {
            let name = shown(alloc, name)?;
            format!(in alloc; " glyph {name}")
        }
        Place::Waiver { name, rule } => {
            let name = shown(alloc, name)?;
            format!(in alloc; " waiver {name} {}", rule_code(*rule))
        }
    }
}

/// The unit of a line, after the font's name.
fn line_unit(alloc: Global, line: &Line<'_>) -> Result<String, AllocError>
    ensures { IfOk result (λ s. string_bytes s ≡ line_unit (line_value line.now)) }
{
    match line {
        Line::Fault(fault) => place_unit(alloc, &fault.place),
        Line::Refusal(_) => String::from_str(alloc, " refused"),
    }
}

/// The unit that a line speaks of, with the font's name: what its results are counted by.
pub(crate) fn unit_of(
    alloc: Global,
    font: Option<&[u8]>,
    line: &Line<'_>,
) -> Result<String, AllocError>
    ensures { IfOk result (λ s. string_bytes s ≡ unit_of (option_map (λ name. name.now) font.entry) (line_value line.now)) }
{
    let font = shown(alloc, font.unwrap_or(b""))?;
    let unit = line_unit(alloc, line)?;
    format!(in alloc; "{font}{unit}")
}

/// What a line is known by when other lines come or go: the unit, the code, and its ordinal among these.
pub(crate) fn fingerprint(
    alloc: Global,
    unit: &str,
    line: &Line<'_>,
    count: u64,
) -> Result<String, AllocError>
    ensures { IfOk result (λ s. string_bytes s ≡ fingerprint unit.now (line_value line.now) count) }
{
    let code = line_id(alloc, line)?;
    format!(in alloc; "{unit} {code} {count}")
}

/// The result of a line.
fn result_object(
    alloc: Global,
    pages: &[Page],
    font: Option<&[u8]>,
    line: &Line<'_>,
    text: &[u8],
    reason: Option<&ToldReason<'_>>,
    print: &str,
) -> Result<Value, AllocError>
    ensures { IfOk result (λ v. view v
        ≡ result_object (map page_value pages.now) (option_map (λ name. name.now) font.entry) (line_value line.now) text.now
        (option_map (λ reason. reason_value reason.now) reason.entry) print.now) }
{
    let message = message(alloc, line, text, reason)?;
    json!(in alloc; {
        "ruleId": line_id(alloc, line)?,
        "ruleIndex": place_among(pages, line_code(line)),
        "level": line_level(line),
        "message": {"text": message},
        "locations": line_locations(alloc, font, line)?,
        "partialFingerprints": {"t1check/v1": print},
    })
}

/// Its text.
pub(crate) fn result_text(
    alloc: Global,
    pages: &[Page],
    font: Option<&[u8]>,
    line: &Line<'_>,
    text: &[u8],
    reason: Option<&ToldReason<'_>>,
    print: &str,
) -> Result<String, AllocError>
    ensures { IfOk result (λ s. string_bytes s
        ≡ compact_text (result_object (map page_value pages.now) (option_map (λ name. name.now) font.entry) (line_value line.now) text.now
        (option_map (λ reason. reason_value reason.now) reason.entry) print.now)) }
{
    let text = result_object(alloc, pages, font, line, text, reason, print)?.to_string(alloc)?;
    Ok(text)
}

/// Why a font wasn't checked.
fn notification_object(alloc: Global, font: Option<&[u8]>, line: &[u8]) -> Result<Value, AllocError>
    ensures { IfOk result (λ v. view v ≡ notification_object (option_map (λ name. name.now) font.entry) line.now) }
{
    let message = shown(alloc, line)?;
    let locations = font_locations(alloc, font)?;
    json!(in alloc; {"level": "error", "message": {"text": message}, "locations": locations})
}

/// Its text.
pub(crate) fn notification_text(
    alloc: Global,
    font: Option<&[u8]>,
    line: &[u8],
) -> Result<String, AllocError>
    ensures { IfOk result (λ s. string_bytes s ≡ compact_text (notification_object (option_map (λ name. name.now) font.entry) line.now)) }
{
    let text = notification_object(alloc, font, line)?.to_string(alloc)?;
    Ok(text)
}
