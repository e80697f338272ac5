//! The outline of a glyph, one segment at a time.

ghost use Rattle.std.specs.Prelude.{◌≡◌, ◌<◌, MatchOption, [], ◌∷◌, length};
ghost use Rattle.t1_outline.specs.Outlines.{outline_of};
ghost use Rattle.t1_outline.specs.DrawnValues.{drawn_value};

use crate::pen::Pen;
use crate::segment::{Segment, Segments};
use arrayvec::ArrayVec;
use std::marker::Model;
use t1_char::{Answer, Edition, Machine, Numbers, Path};
use t1_font::{Font, copy_of};

/// A segment, and where it was drawn.
#[derive(Debug, PartialEq, Eq, Drop)]
pub struct DrawnSegment {
    pub segment: Segment,
    /// The number of the step that draws it.
    pub step: u32,
    /// The Subrs that are being executed at the step, the outermost first.
    pub path: Path,
}

/// A glyph that is executed step by step, up to the limit of the edition: what its steps draw. Its model is what it has
/// still to return.
#[derive(Drop)]
pub struct Outline<'a> {
    machine: Machine<'a>,
    pen: Pen,
    /// What the step that was executed last draws, and how much of that was returned.
    drawn: Segments,
    given: usize,
}

impl<'a> Model for Outline<'a> {
    ghost use Rattle.std.specs.Prelude.{List};
    ghost use Rattle.t1_outline.specs.Outlines.{DrawnView};
    ghost use Rattle.t1_outline.specs.Private.Outlining.{IsOutlining, left_in};

    ghost Value = { List DrawnView };

    ghost view = { λ o. left_in o.machine o.drawn.items o.given };

    ghost invariant = { λ o. IsOutlining o.machine o.pen };
}

impl<'a> Outline<'a> {
    /// Before the first step of a glyph, by its place.
    pub fn start(font: &'a Font<'a>, glyph: usize, edition: Edition) -> Outline<'a>
        requires { glyph < length font.now.glyphs }
        ensures { result ≡ outline_of edition font.now glyph }
    {
        Outline {
            machine: Machine::start(font, glyph, edition),
            pen: Pen::start(edition),
            drawn: ArrayVec::new(),
            given: 0,
        }
    }

    /// The next segment.
    pub fn next(&mut self) -> Option<DrawnSegment>
        ensures { MatchOption result ((self.old ≡ []) × (self.new ≡ [])) (λ drawn. self.old ≡ drawn_value drawn ∷ self.new) }
    {
        loop {
            if let Some(segment) = self.drawn.as_slice().get(self.given) {
                let step = self.machine.current();
                let drawn = DrawnSegment {
                    segment: *segment,
                    step: step.number,
                    path: copy_of(&step.path),
                };
                self.given += 1;
                return Some(drawn);
            }
            match self.machine.go_on(Numbers::Returned) {
                Answer::Step => self.drawn = self.pen.draw(self.machine.current()).segments,
                _ => return None,
            }
            self.given = 0;
        }
    }
}
