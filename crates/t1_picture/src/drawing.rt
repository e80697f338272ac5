//! The glyphs that are drawn: the one that was requested, and the components of its seac.

ghost use Rattle.std.specs.Prelude.{◌≡◌, ◌<◌, ◌++◌, IfOk, IfSome, OnOk, length, string_bytes};
ghost use Rattle.t1_outline.specs.Parts.{IsIn, sidebearing_by};
ghost use Rattle.t1_picture.specs.Drawings.{component_notes, component_part, drawing_of, drawing_view, label_of, missing_note, notes_of_components, notes_of_part, own_part, seac_note, texts_of, with_component, with_components};
ghost use Rattle.t1_picture.specs.Layers.{layers_view};
ghost use Rattle.t1_picture.specs.Private.PartViews.{part_view};
ghost use Rattle.t1_picture.specs.Parts.{note_if, with_part};
ghost use Rattle.t1_picture.specs.Subjects.{subject_of};
ghost use Rattle.t1_picture.specs.Subpaths.{behind};
ghost use Rattle.t1_picture.specs.Views.{CanBeDrawn};
ghost use Rattle.t1_rules.specs.StepRules.Flex.{origin};

use crate::layers::Layers;
use crate::parts::DrawnPart;
use crate::subpath::behind;
use crate::texts::add_line;
use crate::view::View;
use std::alloc::{AllocError, Global};
use t1_font::Font;
use t1_forms::legible;
use t1_outline::{Composition, ORIGIN, Part, SeacPart, SeacParts};
use t1_rules::{Point, standard_name};

/// What was drawn, and what there is to say of it.
#[derive(Drop)]
pub(crate) struct Drawing {
    pub(crate) layers: Layers,
    /// What isn't drawn, and why.
    pub(crate) notes: Vec<String>,
    /// What the steps of the glyph itself say of its parts.
    pub(crate) composition: Composition,
    /// The last step that was requested, as a trace has it, without its end; none where it isn't there.
    pub(crate) last_step: Option<String>,
}

impl Drawing {
    /// Draws a glyph, and the components of its seac where that is among the steps that are drawn.
    pub(crate) fn of(alloc: Global, view: &View<'_>) -> Result<Drawing, AllocError>
        requires { CanBeDrawn view.now }
        ensures { IfOk result (λ drawing. drawing_view drawing ≡ drawing_of (subject_of view.now)) }
    {
        let mut layers = Layers::new(alloc);
        let mut notes = Vec::new(alloc);
        let end = own_part(view).draw(alloc, &mut layers, &mut notes)?;
        let components = end.composition.seac_parts(view.font);
        draw_components(alloc, view, components, &mut layers, &mut notes)?;
        Ok(Drawing {
            layers,
            notes,
            composition: end.composition,
            last_step: end.last_step,
        })
    }

    /// What the positions of the glyph's stems count from.
    pub(crate) fn start(&self) -> Point
        ensures { result ≡ behind origin (sidebearing_by self.now.composition.metrics) }
    {
        behind(ORIGIN, self.composition.sidebearing())
    }
}

/// The glyph itself.
fn own_part<'a>(view: &View<'a>) -> DrawnPart<'a>
    ensures part { part_view result ≡ own_part (subject_of view.now) }
    ensures font { result.font.now ≡ view.now.font.now }
    ensures glyph { result.part.glyph ≡ view.now.glyph }
{
    DrawnPart {
        font: view.font,
        edition: view.edition(),
        part: Part {
            glyph: view.glyph,
            origin: ORIGIN,
        },
        last: view.last(),
        thick: view.step(),
        label: "",
    }
}

/// Draws base and accent of a seac.
fn draw_components(
    alloc: Global,
    view: &View<'_>,
    components: Option<SeacParts>,
    layers: &mut Layers,
    notes: &mut Vec<String>,
) -> Result<(), AllocError>
    requires base { IfSome components (λ both. IsIn view.now.font.now both.base) }
    requires accent { IfSome components (λ both. IsIn view.now.font.now both.accent) }
    ensures layers { OnOk result (layers_view layers.new
        ≡ with_components (subject_of view.now) components (layers_view layers.old)) }
    ensures notes { OnOk result (texts_of notes.new.items
        ≡ texts_of notes.old.items ++ notes_of_components (subject_of view.now) components) }
{
    let Some(both) = components else {
        return Ok(());
    };
    draw_component(alloc, view, "base", both.base, layers, notes)?;
    draw_component(alloc, view, "accent", both.accent, layers, notes)
}

/// Draws a component, by what it is called, or notes that it isn't there.
fn draw_component(
    alloc: Global,
    view: &View<'_>,
    called: &str,
    component: SeacPart,
    layers: &mut Layers,
    notes: &mut Vec<String>,
) -> Result<(), AllocError>
    requires { IsIn view.now.font.now component }
    ensures layers { OnOk result (layers_view layers.new
        ≡ with_component (subject_of view.now) called.now component (layers_view layers.old)) }
    ensures notes { OnOk result (texts_of notes.new.items
        ≡ texts_of notes.old.items ++ component_notes (subject_of view.now) called.now component) }
{
    match component {
        SeacPart::There(part) => {
            let label = label_of(alloc, view.font, called, part.glyph)?;
            draw_labelled(alloc, view, label.as_str(), part, layers, notes)
        }
        missing => add_line(notes, missing_note(alloc, called, missing)?),
    }
}

/// What is before the notes on a component.
fn label_of(
    alloc: Global,
    font: &Font<'_>,
    called: &str,
    glyph: usize,
) -> Result<String, AllocError>
    ensures { IfOk result (λ label. string_bytes label ≡ label_of font.now called.now glyph) }
{
    let name = legible(alloc, font.glyph_name(glyph))?;
    format!(in alloc; "{called} {name}: ")
}

/// Draws a component, and notes that its own seac draws nothing.
fn draw_labelled(
    alloc: Global,
    view: &View<'_>,
    label: &str,
    part: Part,
    layers: &mut Layers,
    notes: &mut Vec<String>,
) -> Result<(), AllocError>
    requires { part.glyph < length view.now.font.now.glyphs }
    ensures layers { OnOk result (layers_view layers.new
        ≡ with_part (component_part (subject_of view.now) label.now part) (layers_view layers.old)) }
    ensures notes { OnOk result (texts_of notes.new.items
        ≡ texts_of notes.old.items ++ notes_of_part (component_part (subject_of view.now) label.now part)) }
{
    let drawn = DrawnPart {
        font: view.font,
        edition: view.edition(),
        part,
        last: u64::MAX,
        thick: None,
        label,
    };
    let end = drawn.draw(alloc, layers, notes)?;
    note_seac(alloc, end.composition.seac.is_some(), label, notes)
}

/// Notes that a component's own seac draws nothing, where it has one.
fn note_seac(
    alloc: Global,
    has_seac: bool,
    label: &str,
    notes: &mut Vec<String>,
) -> Result<(), AllocError>
    ensures { OnOk result (texts_of notes.new.items ≡ texts_of notes.old.items ++ note_if has_seac (seac_note label.now)) }
{
    if !has_seac {
        return Ok(());
    }
    add_line(notes, seac_note(alloc, label)?)
}

fn seac_note(alloc: Global, label: &str) -> Result<String, AllocError>
    ensures { IfOk result (λ note. string_bytes note ≡ seac_note label.now) }
{
    format!(in alloc; "{label}its own seac draws nothing")
}

/// That a component isn't there.
fn missing_note(alloc: Global, called: &str, missing: SeacPart) -> Result<String, AllocError>
    ensures { IfOk result (λ note. string_bytes note ≡ missing_note called.now missing) }
{
    match missing {
        SeacPart::There(_) => Ok(String::new(alloc)),
        SeacPart::NoCode => format!(in alloc; "{called} isn't drawn: its code is not 0 to 255"),
        SeacPart::NoName(code) => {
            format!(in alloc; "{called} {code} isn't drawn: not in StandardEncoding")
        }
        SeacPart::NoGlyph(code) => {
            let name = standard_name(code);
            format!(in alloc; "{called} {name} isn't drawn: no such glyph")
        }
    }
}
