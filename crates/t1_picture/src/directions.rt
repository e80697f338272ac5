//! The directions of the stems that the steps of a glyph set.

ghost use Rattle.std.specs.Prelude.{◌≡◌, ◌<◌, ◌≤◌, ◌+◌, true, false, length};
ghost use Rattle.t1_outline.specs.Private.Outlining.{steps_in};
ghost use Rattle.t1_picture.specs.Causes.{direction_among};
ghost use Rattle.t1_picture.specs.Private.Runs.{IsOfSameGlyph};

use crate::causes::direction_of;
use crate::run::{Next, Run};
use std::marker::Model;
use t1_char::Edition;
use t1_drawing::Direction;
use t1_font::Font;

/// The directions of a glyph's steps, in the order of the steps. It executes the glyph once.
#[derive(Drop)]
pub(crate) struct Directions<'a> {
    run: Run<'a>,
    /// That of the step that was executed last.
    direction: Option<Direction>,
}

impl<'a> Model for Directions<'a> {
    ghost use Rattle.std.specs.Prelude.{◌≡◌};
    ghost use Rattle.t1_char.specs.Turns.{MachineView};
    ghost use Rattle.t1_outline.specs.Private.Outlining.{steps_in};
    ghost use Rattle.t1_picture.specs.Causes.{direction_among};

    ghost Value = { MachineView };

    ghost view = { λ d. d.run };

    ghost invariant = { λ d. d.direction ≡ direction_among (steps_in d.run) d.run.counted };
}

impl<'a> Directions<'a> {
    /// Before the first step of a glyph, by its place.
    pub(crate) fn start(font: &'a Font<'a>, glyph: usize, edition: Edition) -> Directions<'a>
        requires { glyph < length font.now.glyphs }
        ensures font { result.font ≡ font.now }
        ensures glyph { result.glyph ≡ glyph }
        ensures edition { result.edition ≡ edition }
        ensures counted { result.counted ≡ 0 }
    {
        Directions {
            run: Run::start(font, glyph, edition),
            direction: None,
        }
    }

    /// The direction of the stems that the step of a number sets; None where it sets none, or isn't there.
    pub(crate) fn at(&mut self, number: u32) -> Option<Direction>
        requires { self.old.counted ≤ number }
        ensures same { IsOfSameGlyph self.old self.new }
        ensures direction { result ≡ direction_among (steps_in self.new) number }
        ensures most { self.new.counted ≤ number }
    {
        for _step in self.run.counted()..number {
            if !self.next() {
                return None;
            }
        }
        self.direction
    }

    /// Executes the next step, and returns whether there is one.
    fn next(&mut self) -> bool
        ensures same { IsOfSameGlyph self.old self.new }
        ensures stepped { result ≡ true → self.new.counted ≡ self.old.counted + 1 }
        ensures over { result ≡ false → length (steps_in self.old) ≤ self.old.counted }
        ensures most { self.new.counted ≤ self.old.counted + 1 }
    {
        match self.run.next() {
            Next::Step(_) => {
                self.direction = direction_of(self.run.step().token);
                true
            }
            Next::Ended => {
                self.direction = None;
                false
            }
            Next::Limit => {
                self.direction = None;
                false
            }
        }
    }
}
