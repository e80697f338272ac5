//! The outlines of the components that reasons name.

ghost use Rattle.std.specs.Prelude.{◌≡◌, ◌<◌, ◌++◌, IfOk, OnOk, [], length, string_bytes};
ghost use Rattle.std.specs.List.{list_any};
ghost use Rattle.t1_outline.specs.Parts.{IsIn};
ghost use Rattle.t1_picture.specs.Causes.{is_accent, is_base};
ghost use Rattle.t1_picture.specs.Drawings.{component_part, components_of, own_composition};
ghost use Rattle.t1_picture.specs.Marks.{component_outline, outline_if, outlines_among};
ghost use Rattle.t1_picture.specs.Parts.{part_outline};
ghost use Rattle.t1_picture.specs.Subjects.{subject_of};
ghost use Rattle.t1_picture.specs.Views.{CanBeDrawn};

use crate::causes::Cause;
use crate::layers::Layers;
use crate::parts::DrawnPart;
use crate::texts::push;
use crate::view::View;
use std::alloc::{AllocError, Global};
use t1_outline::{Composition, Part, SeacPart};

/// The outlines of the components that are among some causes, as data of a path, given what the glyph's steps say of its parts.
pub(crate) fn component_outlines(
    alloc: Global,
    view: &View<'_>,
    composition: &Composition,
    causes: &[Cause],
) -> Result<String, AllocError>
    requires view { CanBeDrawn view.now }
    requires composition { composition.now ≡ own_composition (subject_of view.now) }
    ensures { IfOk result (λ text. string_bytes text
        ≡ outlines_among (subject_of view.now) causes.now (components_of (subject_of view.now))) }
{
    let mut text = String::new(alloc);
    let Some(both) = composition.seac_parts(view.font) else {
        return Ok(text);
    };
    write_outline_if(has_base(causes), alloc, view, both.base, &mut text)?;
    write_outline_if(has_accent(causes), alloc, view, both.accent, &mut text)?;
    Ok(text)
}

fn has_base(causes: &[Cause]) -> bool
    ensures { result ≡ list_any is_base causes.now }
{
    causes.iter().any(|cause| is_base(*cause))
}

fn has_accent(causes: &[Cause]) -> bool
    ensures { result ≡ list_any is_accent causes.now }
{
    causes.iter().any(|cause| is_accent(*cause))
}

fn is_base(cause: Cause) -> bool
    ensures { result ≡ is_base cause }
{
    matches!(cause, Cause::Base)
}

fn is_accent(cause: Cause) -> bool
    ensures { result ≡ is_accent cause }
{
    matches!(cause, Cause::Accent)
}

/// Writes the outline of a component, if it is meant.
fn write_outline_if(
    is_meant: bool,
    alloc: Global,
    view: &View<'_>,
    component: SeacPart,
    text: &mut String,
) -> Result<(), AllocError>
    requires { IsIn view.now.font.now component }
    ensures { OnOk result (string_bytes text.new ≡ string_bytes text.old ++ outline_if is_meant (subject_of view.now) component) }
{
    if is_meant {
        write_component(alloc, view, component, text)
    } else {
        Ok(())
    }
}

/// Writes the outline of a component that is there.
fn write_component(
    alloc: Global,
    view: &View<'_>,
    component: SeacPart,
    text: &mut String,
) -> Result<(), AllocError>
    requires { IsIn view.now.font.now component }
    ensures { OnOk result (string_bytes text.new ≡ string_bytes text.old ++ component_outline (subject_of view.now) component) }
{
    match component {
        SeacPart::There(part) => write_outline(alloc, view, part, text),
        SeacPart::NoCode | SeacPart::NoName(_) | SeacPart::NoGlyph(_) => Ok(()),
    }
}

/// Draws a component by itself, and takes its outline.
fn write_outline(
    alloc: Global,
    view: &View<'_>,
    part: Part,
    text: &mut String,
) -> Result<(), AllocError>
    requires { part.glyph < length view.now.font.now.glyphs }
    ensures { OnOk result (string_bytes text.new ≡ string_bytes text.old
        ++ part_outline (component_part (subject_of view.now) [] part)) }
{
    let mut layers = Layers::new(alloc);
    let mut notes = Vec::new(alloc);
    let drawn = DrawnPart {
        font: view.font,
        edition: view.edition(),
        part,
        last: u64::MAX,
        thick: None,
        label: "",
    };
    drawn.draw(alloc, &mut layers, &mut notes)?;
    push(text, layers.outline.as_str())
}
