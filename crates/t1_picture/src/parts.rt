//! What the steps of a part draw.

ghost use Rattle.std.specs.Prelude.{◌≡◌, ◌<◌, ◌++◌, IfOk, OnOk, [], length, option_map, string_bytes};
ghost use Rattle.t1_char.specs.Editions.{limit_of};
ghost use Rattle.t1_char.specs.StepValues.{step_value, step_view};
ghost use Rattle.t1_outline.specs.Outlines.{drawn};
ghost use Rattle.t1_outline.specs.Parts.{composition_of, sidebearing_by};
ghost use Rattle.t1_picture.specs.Drawings.{texts_of};
ghost use Rattle.t1_picture.specs.Layers.{begun, layers_view, with_bands};
ghost use Rattle.t1_picture.specs.Private.PartViews.{DrawsSteps, IsRunOf, is_limit, is_reached, part_view, so_far, stop_of};
ghost use Rattle.t1_picture.specs.Parts.{drawn_steps, end_notes, flex_note, is_step, last_step_of, limit_note, note_if, part_notes, unended_note, with_part, with_stems, with_step};
ghost use Rattle.t1_picture.specs.Private.Runs.{seen_steps};
ghost use Rattle.t1_picture.specs.Subpaths.{behind};
ghost use Rattle.t1_picture.specs.Texts.{legible_line};
ghost use Rattle.t1_report.specs.Traces.{step_line};
ghost use Rattle.t1_rules.specs.StepRules.Paths.{in_flex};
ghost use Rattle.t1_rules.specs.StepRules.Stems.{hint_set, lies_across, stands_upright};

use crate::layers::Layers;
use crate::run::{Next, Run};
use crate::subpath::behind;
use crate::texts::{add_line, written_line};
use std::alloc::{AllocError, Global};
use t1_char::{Edition, Step};
use t1_drawing::Direction;
use t1_font::Font;
use t1_forms::Text;
use t1_outline::{Composition, DrawnStep, Part};
use t1_report::write_step;

/// A part that is drawn.
#[derive(Clone, Copy)]
pub(crate) struct DrawnPart<'a> {
    pub(crate) font: &'a Font<'a>,
    pub(crate) edition: Edition,
    pub(crate) part: Part,
    /// How many of its steps are drawn at most.
    pub(crate) last: u64,
    /// The step whose stretch is thick.
    pub(crate) thick: Option<u64>,
    /// What is before each note on it.
    pub(crate) label: &'a str,
}

/// Why no further step is drawn.
#[derive(Clone, Copy, Debug, PartialEq, Eq)]
pub(crate) enum Stop {
    /// As many were drawn as were requested.
    Reached,
    /// The glyph has no further step.
    Ended,
    /// The next one is past the limit of the edition.
    Limit,
}

/// What is known of a part that was drawn.
#[derive(Drop)]
pub(crate) struct PartEnd {
    /// What its steps say of the parts of their glyph.
    pub(crate) composition: Composition,
    /// The last step that was requested, as a trace has it, without its end; none where it isn't there.
    pub(crate) last_step: Option<String>,
}

impl<'a> DrawnPart<'a> {
    /// Draws the steps, and notes what isn't drawn.
    pub(crate) fn draw(
        &self,
        alloc: Global,
        layers: &mut Layers,
        notes: &mut Vec<String>,
    ) -> Result<PartEnd, AllocError>
        requires { self.now.part.glyph < length self.now.font.now.glyphs }
        ensures layers { OnOk result (layers_view layers.new ≡ with_part (part_view self.now) (layers_view layers.old)) }
        ensures notes { OnOk result (texts_of notes.new.items ≡ texts_of notes.old.items ++ part_notes (part_view self.now)) }
        ensures composition { IfOk result (λ end. end.composition ≡ composition_of (drawn_steps (part_view self.now))) }
        ensures last_step { IfOk result (λ end. option_map string_bytes end.last_step ≡ last_step_of (part_view self.now)) }
    {
        layers.begin();
        let mut run = Run::start(self.font, self.part.glyph, self.edition);
        let mut composition = Composition::start();
        let stop = self.draw_steps(alloc, &mut run, layers, notes, &mut composition)?;
        self.note_end(alloc, &run, stop, notes)?;
        self.add_stems(&run, &composition, layers)?;
        let last_step = self.last_step(alloc, &run, stop)?;
        Ok(PartEnd {
            composition,
            last_step,
        })
    }

    /// Draws the steps of a run that is before the first.
    fn draw_steps(
        &self,
        alloc: Global,
        run: &mut Run<'a>,
        layers: &mut Layers,
        notes: &mut Vec<String>,
        composition: &mut Composition,
    ) -> Result<Stop, AllocError>
        requires run { IsRunOf (part_view self.now) run.old }
        requires first { run.old.counted ≡ 0 }
        requires composition { composition.old ≡ composition_of [] }
        ensures { IfOk result (DrawsSteps (part_view self.now) (so_far layers.old notes.old.items)
            (so_far layers.new notes.new.items) composition.new run.new) }
    {
        for _step in 0..self.last {
            match run.next() {
                Next::Step(drawn) => {
                    self.draw_step(layers, run.step(), &drawn)?;
                    self.note_flex(alloc, notes, run.step(), &drawn)?;
                    composition.see(run.step());
                }
                Next::Ended => return Ok(Stop::Ended),
                Next::Limit => return Ok(Stop::Limit),
            }
        }
        Ok(Stop::Reached)
    }

    /// Draws what a step draws.
    fn draw_step(
        &self,
        layers: &mut Layers,
        step: &Step,
        drawn: &DrawnStep,
    ) -> Result<(), AllocError>
        ensures { OnOk result (layers_view layers.new ≡ with_step (part_view self.now) step.now.number drawn.now.leaves_open
            drawn.now.segments.items (layers_view layers.old)) }
    {
        if drawn.leaves_open & layers.subpath.is_drawn {
            layers.leave_open()?;
        }
        let is_thick = is_step(self.thick, step.number);
        layers.draw_all(self.part.origin, drawn.segments.as_slice(), is_thick)
    }

    /// Notes a flex that ends and isn't drawn.
    fn note_flex(
        &self,
        alloc: Global,
        notes: &mut Vec<String>,
        step: &Step,
        drawn: &DrawnStep,
    ) -> Result<(), AllocError>
        ensures { OnOk result (texts_of notes.new.items ≡ texts_of notes.old.items
            ++ flex_note self.now.label.now step.now.number (step_view step.now) drawn.now.segments.items) }
    {
        if !(step.ends_flex() & drawn.segments.is_empty()) {
            return Ok(());
        }
        let label = self.label;
        let number = step.number;
        notes.push(format!(in alloc; "{label}flex that ends at step {number} isn't drawn")?)?;
        Ok(())
    }

    /// Notes what is where the steps end that are drawn.
    fn note_end(
        &self,
        alloc: Global,
        run: &Run<'_>,
        stop: Stop,
        notes: &mut Vec<String>,
    ) -> Result<(), AllocError>
        requires seen { seen_steps run.now ≡ drawn_steps (part_view self.now) }
        requires stop { stop ≡ stop_of (part_view self.now) }
        ensures { OnOk result (texts_of notes.new.items ≡ texts_of notes.old.items ++ end_notes (part_view self.now)) }
    {
        self.note_unended(alloc, run.is_in_flex(), notes)?;
        self.note_limit(alloc, stop, notes)
    }

    /// Notes a flex without an end, where the run is in flex.
    fn note_unended(
        &self,
        alloc: Global,
        in_flex: bool,
        notes: &mut Vec<String>,
    ) -> Result<(), AllocError>
        ensures { OnOk result (texts_of notes.new.items ≡ texts_of notes.old.items
            ++ note_if in_flex (unended_note self.now.label.now)) }
    {
        if !in_flex {
            return Ok(());
        }
        add_line(notes, unended_note(alloc, self.label)?)
    }

    /// Notes the limit, where it is why no further step is drawn.
    fn note_limit(
        &self,
        alloc: Global,
        stop: Stop,
        notes: &mut Vec<String>,
    ) -> Result<(), AllocError>
        ensures { OnOk result (texts_of notes.new.items ≡ texts_of notes.old.items
            ++ note_if (is_limit stop) (limit_note self.now.label.now (limit_of self.now.edition))) }
    {
        if !is_limit(stop) {
            return Ok(());
        }
        add_line(
            notes,
            limit_note(alloc, self.label, self.edition.step_limit())?,
        )
    }

    /// Adds the stems that are in force.
    fn add_stems(
        &self,
        run: &Run<'_>,
        composition: &Composition,
        layers: &mut Layers,
    ) -> Result<(), AllocError>
        requires seen { seen_steps run.now ≡ drawn_steps (part_view self.now) }
        requires composition { composition.now ≡ composition_of (drawn_steps (part_view self.now)) }
        ensures { OnOk result (layers_view layers.new ≡ with_stems (part_view self.now) (layers_view layers.old)) }
    {
        let start = behind(self.part.origin, composition.sidebearing());
        layers.add_stems(run.across(), Direction::Across, start.y, self.edition)?;
        layers.add_stems(run.upright(), Direction::Upright, start.x, self.edition)
    }

    /// The line of the last step that was requested.
    fn last_step(
        &self,
        alloc: Global,
        run: &Run<'_>,
        stop: Stop,
    ) -> Result<Option<String>, AllocError>
        requires run { IsRunOf (part_view self.now) run.now }
        requires stop { stop ≡ stop_of (part_view self.now) }
        requires counted { stop ≡ Stop.Reached → run.now.counted ≡ self.now.last }
        ensures { IfOk result (λ line. option_map string_bytes line ≡ last_step_of (part_view self.now)) }
    {
        if self.last == 0 {
            return Ok(None);
        }
        if !is_reached(stop) {
            return Ok(None);
        }
        Ok(Some(step_line(alloc, run.step())?))
    }
}

/// Whether a step that is sought, if one is, has the number.
fn is_step(sought: Option<u64>, number: u32) -> bool
    ensures { result ≡ is_step sought number }
{
    match sought {
        Some(step) => step == u64::from(number),
        None => false,
    }
}

/// That a flex without an end isn't drawn.
fn unended_note(alloc: Global, label: &str) -> Result<String, AllocError>
    ensures { IfOk result (λ note. string_bytes note ≡ unended_note label.now) }
{
    format!(in alloc; "{label}flex without an end isn't drawn")
}

/// That nothing is drawn after the limit.
fn limit_note(alloc: Global, label: &str, limit: u32) -> Result<String, AllocError>
    ensures { IfOk result (λ note. string_bytes note ≡ limit_note label.now limit) }
{
    format!(in alloc; "{label}step limit: nothing behind step {limit} is drawn")
}

fn is_limit(stop: Stop) -> bool
    ensures { result ≡ is_limit stop }
{
    matches!(stop, Stop::Limit)
}

fn is_reached(stop: Stop) -> bool
    ensures { result ≡ is_reached stop }
{
    matches!(stop, Stop::Reached)
}

/// The line of a step, as a trace has it, without its end.
fn step_line(alloc: Global, step: &Step) -> Result<String, AllocError>
    ensures { IfOk result (λ line. string_bytes line ≡ legible_line (step_line (step_value step.now))) }
{
    let mut line = Text::new(alloc);
    if write_step(&mut line, step).is_err() {
        return Err(AllocError);
    }
    written_line(alloc, line.into_bytes())
}
