//! A glyph that is executed, with what its steps draw.

ghost use Rattle.std.specs.Prelude.{◌≡◌, ◌<◌, ◌≤◌, length};
ghost use Rattle.t1_char.specs.StepValues.{step_value};
ghost use Rattle.t1_picture.specs.Private.Runs.{GivesNext, GoesTo, IsInHand, IsOfSameGlyph, seen_steps};
ghost use Rattle.t1_rules.specs.StepRules.Flex.{current_point};
ghost use Rattle.t1_rules.specs.StepRules.Paths.{in_flex};
ghost use Rattle.t1_rules.specs.StepRules.Stems.{hint_set, lies_across, stands_upright};

use std::marker::Model;
use t1_char::{Answer, Edition, Machine, Numbers, Step};
use t1_font::Font;
use t1_outline::{DrawnStep, Pen};
use t1_rules::{Point, Stem};

/// What a run gives next.
#[derive(Drop)]
pub(crate) enum Next {
    /// A step was executed; this is drawn.
    Step(DrawnStep),
    /// The glyph has no further step.
    Ended,
    /// The next step is past the limit of the edition.
    Limit,
}

/// A glyph that is executed step by step, up to the limit of the edition.
#[derive(Drop)]
pub(crate) struct Run<'a> {
    machine: Machine<'a>,
    pen: Pen,
}

impl<'a> Model for Run<'a> {
    ghost use Rattle.t1_char.specs.Turns.{MachineView};
    ghost use Rattle.t1_outline.specs.Private.Outlining.{IsOutlining};
    ghost use Rattle.t1_picture.specs.Private.Runs.{IsInHand};

    ghost Value = { MachineView };

    ghost view = { λ r. r.machine };

    ghost invariant = { λ r. IsOutlining r.machine r.pen × IsInHand r.machine };
}

impl<'a> Run<'a> {
    /// Before the first step of a glyph, by its place.
    pub(crate) fn start(font: &'a Font<'a>, glyph: usize, edition: Edition) -> Run<'a>
        requires { glyph < length font.now.glyphs }
        ensures font { result.font ≡ font.now }
        ensures glyph { result.glyph ≡ glyph }
        ensures edition { result.edition ≡ edition }
        ensures counted { result.counted ≡ 0 }
    {
        Run {
            machine: Machine::start(font, glyph, edition),
            pen: Pen::start(edition),
        }
    }

    /// What the next step draws.
    pub(crate) fn next(&mut self) -> Next
        ensures same { IsOfSameGlyph self.old self.new }
        ensures gives { GivesNext self.old self.new result }
    {
        match self.machine.go_on(Numbers::Returned) {
            Answer::Step => Next::Step(self.pen.draw(self.machine.current())),
            Answer::Ended => Next::Ended,
            Answer::Limit => Next::Limit,
        }
    }

    /// Goes on until so many steps were executed, or all.
    pub(crate) fn go_to(&mut self, count: u32)
        ensures same { IsOfSameGlyph self.old self.new }
        ensures goes { self.old.counted ≤ count → GoesTo self.old self.new count }
    {
        for _step in self.machine.counted()..count {
            let Next::Step(_) = self.next() else {
                return;
            };
        }
    }

    /// How many steps were requested.
    pub(crate) fn counted(&self) -> u32
        ensures { result ≡ self.now.counted }
    {
        self.machine.counted()
    }

    /// The step that was executed last.
    pub(crate) fn step(&self) -> &Step
        ensures value { step_value result.now ≡ self.now.step }
        ensures in_hand { IsInHand self.now }
    {
        self.machine.current()
    }

    /// The current point, before the next step.
    pub(crate) fn point(&self) -> Point
        ensures { result ≡ current_point (seen_steps self.now) }
    {
        self.pen.point()
    }

    /// Whether a flex was started, and not ended since.
    pub(crate) fn is_in_flex(&self) -> bool
        ensures { result ≡ in_flex (seen_steps self.now) }
    {
        self.pen.is_in_flex()
    }

    /// The stems of hstem and hstem3 that are in force.
    pub(crate) fn across(&self) -> &[Stem]
        ensures { result.now ≡ hint_set lies_across (seen_steps self.now) }
    {
        self.pen.across()
    }

    /// Those of vstem and vstem3.
    pub(crate) fn upright(&self) -> &[Stem]
        ensures { result.now ≡ hint_set stands_upright (seen_steps self.now) }
    {
        self.pen.upright()
    }
}
