//! The files of a folder, one after another: a picture of each glyph that has faults, and an index.

ghost use Rattle.std.specs.Prelude.{◌≡◌, ◌<◌, ◌++◌, IfOk, List, OnOk, ◌∷◌, [], length, string_bytes};
ghost use Rattle.std.specs.List.{All};
ghost use Rattle.t1_report.specs.Faults.{faults_of};
ghost use Rattle.t1draw.specs.Draws.{AreFiles};
ghost use Rattle.t1draw.specs.Folders.{FolderFile, faulty_glyphs, file_text, folder_text, glyphs_at_turn, glyphs_of_unit};
ghost use Rattle.t1draw.specs.Private.Sheets.{AddsPictures, IsSound, edition_of, font_of, waivers_of};

use crate::drawing::drawn;
use crate::index::index_text;
use crate::sheet::Sheet;
use crate::spelling::picture_name;
use std::alloc::{AllocError, Global};
use t1_picture::Shown;
use t1_report::{Fault, report_with};

/// The name of the index.
const INDEX: &str = "index.html";

/// The files, each as [`push_file`] writes it.
pub(crate) fn folder_text(alloc: Global, sheet: &Sheet<'_>) -> Result<String, AllocError>
    requires { IsSound sheet.now }
    ensures { IfOk result (λ text. (files : List FolderFile)
        × (AreFiles (font_of sheet.now) (edition_of sheet.now) (waivers_of sheet.now) files × (string_bytes text ≡ folder_text files))) }
{
    let faults = report_with(alloc, sheet.font, sheet.sidebearings, sheet.waivers)?;
    let index = index_text(alloc, sheet, faults.as_slice())?;
    let mut text = String::new(alloc);
    push_pictures(alloc, &mut text, sheet, faults.as_slice())?;
    push_file(&mut text, INDEX, index.as_str())?;
    Ok(text)
}

/// Appends a file: its name, how many bytes it has, each with a line end, and these.
fn push_file(text: &mut String, name: &str, file: &str) -> Result<(), AllocError>
    ensures { OnOk result (string_bytes text.new ≡ string_bytes text.old ++ file_text (record { name = name.now; text = file.now })) }
{
    let length = file.len();
    write!(text, "{name}\n{length}\n{file}")
}

/// Appends a picture of each glyph that has one of these faults.
fn push_pictures(
    alloc: Global,
    text: &mut String,
    sheet: &Sheet<'_>,
    faults: &[Fault],
) -> Result<(), AllocError>
    requires { IsSound sheet.now }
    ensures { OnOk result (AddsPictures sheet.now (faulty_glyphs (font_of sheet.now) (faults_of faults.now)) (string_bytes text.old) (string_bytes text.new)) }
{
    let mut unit = 0;
    let mut rest = faults;
    while let [fault, others @ ..] = rest {
        push_turn(alloc, text, sheet, unit, fault.unit)?;
        unit = fault.unit;
        rest = others;
    }
    Ok(())
}

/// Appends the picture of a unit's glyph where the unit follows another one.
fn push_turn(
    alloc: Global,
    text: &mut String,
    sheet: &Sheet<'_>,
    unit: u32,
    next: u32,
) -> Result<(), AllocError>
    requires { IsSound sheet.now }
    ensures { OnOk result (AddsPictures sheet.now (glyphs_at_turn (font_of sheet.now) unit next) (string_bytes text.old) (string_bytes text.new)) }
{
    if next == unit {
        Ok(())
    } else {
        push_unit(alloc, text, sheet, next)
    }
}

/// Appends the picture of a unit's glyph, if it is that of a glyph.
fn push_unit(
    alloc: Global,
    text: &mut String,
    sheet: &Sheet<'_>,
    unit: u32,
) -> Result<(), AllocError>
    requires { IsSound sheet.now }
    ensures { OnOk result (AddsPictures sheet.now (glyphs_of_unit (font_of sheet.now) unit) (string_bytes text.old) (string_bytes text.new)) }
{
    if 0 < unit && unit as usize <= sheet.font.glyphs().len() {
        push_picture(alloc, text, sheet, unit as usize - 1)
    } else {
        Ok(())
    }
}

/// Appends the picture of a glyph.
fn push_picture(
    alloc: Global,
    text: &mut String,
    sheet: &Sheet<'_>,
    glyph: usize,
) -> Result<(), AllocError>
    requires sound { IsSound sheet.now }
    requires glyph { glyph < length sheet.now.font.now.glyphs }
    ensures { OnOk result (AddsPictures sheet.now (glyph ∷ []) (string_bytes text.old) (string_bytes text.new)) }
{
    let name = picture_name(alloc, glyph, sheet.font.glyph_name(glyph))?;
    let picture = drawn(alloc, sheet, glyph, Shown::All)?;
    push_file(text, name.as_str(), picture.as_str())?;
    Ok(())
}
