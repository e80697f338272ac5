//! The index of a folder's pictures: a text of HTML.

ghost use Rattle.std.specs.Prelude.{◌≡◌, ◌++◌, IfOk, None, OnOk, Some, option_map, string_bytes};
ghost use Rattle.std.specs.List.{All};
ghost use Rattle.t1_forms.specs.Xml.{xml_text};
ghost use Rattle.t1_report.specs.Faults.{fault_value, faults_of};
ghost use Rattle.t1_report.specs.Lines.{IsInFont, line_of};
ghost use Rattle.t1draw.specs.Folders.{end_of, font_part, glyph_part, glyph_part_of, index_end, index_start, index_text, is_in_part, line_text, no_faults, part_end, part_start, parts_from, parts_or_none, shown_line, turn_to, waivers_part};
ghost use Rattle.t1_forms.specs.Shown.{shown};
ghost use Rattle.t1draw.specs.Private.Sheets.{font_of, waivers_of};

use crate::sheet::Sheet;
use crate::spelling::picture_name;
use std::alloc::{AllocError, Global};
use t1_forms::{Text, push_xml, shown};
use t1_report::{Fault, write_fault};

const START: &str = "\
<!DOCTYPE html>
<html lang=\"en\">
<head>
<meta charset=\"utf-8\">
<meta name=\"viewport\" content=\"width=device-width\">
<title>Faults</title>
<style>img { max-width: 100%; height: auto } pre { white-space: pre-wrap }</style>
</head>
<body>
<h1>Faults</h1>
";

const END: &str = "</body>\n</html>\n";

const NO_FAULTS: &str = "<p>No fault.</p>\n";

const FONT_PART: &str = "<h2>Font</h2>\n<pre>\n";

const WAIVERS_PART: &str = "<h2>Waivers</h2>\n<pre>\n";

const PART_END: &str = "</pre>\n";

/// The index of these faults: a part for the font, one for each glyph, with its picture, and one for the waivers.
pub(crate) fn index_text(
    alloc: Global,
    sheet: &Sheet<'_>,
    faults: &[Fault],
) -> Result<String, AllocError>
    requires { All (λ fault. IsInFont (font_of sheet.now) (waivers_of sheet.now) (fault_value fault)) faults.now }
    ensures { IfOk result (λ html. string_bytes html ≡ index_text (font_of sheet.now) (waivers_of sheet.now) (faults_of faults.now)) }
{
    let mut html = String::new(alloc);
    push_start(&mut html)?;
    push_parts_or_none(alloc, &mut html, sheet, faults)?;
    push_end(&mut html)?;
    Ok(html)
}

#[tactic(auto, unfolding(crate::specs::Folders::index_start))]
fn push_start(html: &mut String) -> Result<(), AllocError>
    ensures { OnOk result (string_bytes html.new ≡ string_bytes html.old ++ index_start) }
{
    html.push_str(START)
}

#[tactic(auto, unfolding(crate::specs::Folders::index_end))]
fn push_end(html: &mut String) -> Result<(), AllocError>
    ensures { OnOk result (string_bytes html.new ≡ string_bytes html.old ++ index_end) }
{
    html.push_str(END)
}

#[tactic(auto, unfolding(crate::specs::Folders::no_faults))]
fn push_no_faults(html: &mut String) -> Result<(), AllocError>
    ensures { OnOk result (string_bytes html.new ≡ string_bytes html.old ++ no_faults) }
{
    html.push_str(NO_FAULTS)
}

fn push_parts_or_none(
    alloc: Global,
    html: &mut String,
    sheet: &Sheet<'_>,
    faults: &[Fault],
) -> Result<(), AllocError>
    requires { All (λ fault. IsInFont (font_of sheet.now) (waivers_of sheet.now) (fault_value fault)) faults.now }
    ensures { OnOk result (string_bytes html.new
        ≡ string_bytes html.old ++ parts_or_none (font_of sheet.now) (waivers_of sheet.now) (faults_of faults.now)) }
{
    match faults {
        [] => push_no_faults(html),
        _ => push_parts(alloc, html, sheet, faults),
    }
}

/// Writes the parts, each with its heading and the lines of its faults.
fn push_parts(
    alloc: Global,
    html: &mut String,
    sheet: &Sheet<'_>,
    faults: &[Fault],
) -> Result<(), AllocError>
    requires { All (λ fault. IsInFont (font_of sheet.now) (waivers_of sheet.now) (fault_value fault)) faults.now }
    ensures { OnOk result (string_bytes html.new
        ≡ string_bytes html.old ++ parts_from (font_of sheet.now) (waivers_of sheet.now) None (faults_of faults.now)) }
{
    let mut begun = None;
    let mut rest = faults;
    while let [fault, others @ ..] = rest {
        turn_to(alloc, html, sheet, begun, fault.unit)?;
        push_line(alloc, html, sheet, fault)?;
        begun = Some(fault.unit);
        rest = others;
    }
    push_end_of(html, begun)?;
    Ok(())
}

/// Ends the part that was begun, and begins that of a unit, where it is another one.
fn turn_to(
    alloc: Global,
    html: &mut String,
    sheet: &Sheet<'_>,
    begun: Option<u32>,
    unit: u32,
) -> Result<(), AllocError>
    ensures { OnOk result (string_bytes html.new ≡ string_bytes html.old ++ turn_to (font_of sheet.now) begun unit) }
{
    if is_in_part(begun, unit) {
        return Ok(());
    }
    push_end_of(html, begun)?;
    push_part_start(alloc, html, sheet, unit)
}

fn is_in_part(begun: Option<u32>, unit: u32) -> bool
    ensures { result ≡ is_in_part begun unit }
{
    match begun {
        Some(begun) => begun == unit,
        None => false,
    }
}

fn push_end_of(html: &mut String, begun: Option<u32>) -> Result<(), AllocError>
    ensures { OnOk result (string_bytes html.new ≡ string_bytes html.old ++ end_of begun) }
{
    match begun {
        Some(_) => push_part_end(html),
        None => Ok(()),
    }
}

#[tactic(auto, unfolding(crate::specs::Folders::part_end))]
fn push_part_end(html: &mut String) -> Result<(), AllocError>
    ensures { OnOk result (string_bytes html.new ≡ string_bytes html.old ++ part_end) }
{
    html.push_str(PART_END)
}

/// Begins the part of a unit.
fn push_part_start(
    alloc: Global,
    html: &mut String,
    sheet: &Sheet<'_>,
    unit: u32,
) -> Result<(), AllocError>
    ensures { OnOk result (string_bytes html.new ≡ string_bytes html.old ++ part_start (font_of sheet.now) unit) }
{
    if unit == 0 {
        push_font_part(html)
    } else if unit as usize <= sheet.font.glyphs().len() {
        push_glyph_part(alloc, html, sheet, unit as usize - 1)
    } else {
        push_waivers_part(html)
    }
}

#[tactic(auto, unfolding(crate::specs::Folders::font_part))]
fn push_font_part(html: &mut String) -> Result<(), AllocError>
    ensures { OnOk result (string_bytes html.new ≡ string_bytes html.old ++ font_part) }
{
    html.push_str(FONT_PART)
}

#[tactic(auto, unfolding(crate::specs::Folders::waivers_part))]
fn push_waivers_part(html: &mut String) -> Result<(), AllocError>
    ensures { OnOk result (string_bytes html.new ≡ string_bytes html.old ++ waivers_part) }
{
    html.push_str(WAIVERS_PART)
}

/// Begins the part of a glyph, with its picture.
fn push_glyph_part(
    alloc: Global,
    html: &mut String,
    sheet: &Sheet<'_>,
    glyph: usize,
) -> Result<(), AllocError>
    ensures { OnOk result (string_bytes html.new ≡ string_bytes html.old ++ glyph_part (font_of sheet.now) glyph) }
{
    let bytes = sheet.font.glyph_name(glyph);
    let name = escaped(alloc, bytes)?;
    let file = picture_name(alloc, glyph, bytes)?;
    push_glyph_part_of(html, name.as_str(), file.as_str())
}

#[tactic(auto, unfolding(crate::specs::Folders::glyph_part_of))]
fn push_glyph_part_of(html: &mut String, name: &str, file: &str) -> Result<(), AllocError>
    ensures { OnOk result (string_bytes html.new ≡ string_bytes html.old ++ glyph_part_of name.now file.now) }
{
    write!(
        html,
        "<h2>{name}</h2>\n<p><a href=\"{file}\"><img src=\"{file}\" alt=\"\"></a></p>\n<pre>\n"
    )
}

/// Writes the line of a fault.
fn push_line(
    alloc: Global,
    html: &mut String,
    sheet: &Sheet<'_>,
    fault: &Fault,
) -> Result<(), AllocError>
    requires { IsInFont (font_of sheet.now) (waivers_of sheet.now) (fault_value fault.now) }
    ensures { OnOk result (string_bytes html.new
        ≡ string_bytes html.old ++ line_text (font_of sheet.now) (waivers_of sheet.now) (fault_value fault.now)) }
{
    let line = line_of(alloc, sheet, fault)?;
    push_xml(html, line.as_str())?;
    html.push_str("\n")
}

/// The line of a fault, without its end.
fn line_of(alloc: Global, sheet: &Sheet<'_>, fault: &Fault) -> Result<String, AllocError>
    requires { IsInFont (font_of sheet.now) (waivers_of sheet.now) (fault_value fault.now) }
    ensures { IfOk result (λ line. string_bytes line ≡ shown_line (line_of (font_of sheet.now) (waivers_of sheet.now) (fault_value fault.now))) }
{
    let mut line = Text::new(alloc);
    if write_fault(&mut line, sheet.font, sheet.waivers, fault).is_err() {
        return Err(AllocError);
    }
    shown_line(alloc, line.into_bytes())
}

/// A line that was written, as text without its end.
fn shown_line(alloc: Global, mut line: Vec<u8>) -> Result<String, AllocError>
    ensures { IfOk result (λ text. string_bytes text ≡ shown_line line.items) }
{
    line.pop();
    shown(alloc, line.as_slice())
}

/// A name, as a text of HTML.
fn escaped(alloc: Global, name: &[u8]) -> Result<String, AllocError>
    ensures { IfOk result (λ text. string_bytes text ≡ xml_text (shown name.now)) }
{
    let name = shown(alloc, name)?;
    let mut text = String::new(alloc);
    push_xml(&mut text, name.as_str())?;
    Ok(text)
}
