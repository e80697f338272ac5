//! The steps of a glyph one at a time: Type 1 Font Format 1.1, chapters 6 and 8.

ghost use Rattle.std.specs.Prelude.{◌≡◌, ◌<◌, ◌≤◌, ◌+◌, length};
ghost use Rattle.t1_char.specs.Editions.{limit_of};
ghost use Rattle.t1_char.specs.Asking.{IsAsked};
ghost use Rattle.t1_char.specs.Lines.{IsAskedFar, leads};
ghost use Rattle.t1_char.specs.declared.machine.Numbers.TheVariants.{Returned};
ghost use Rattle.t1_char.specs.declared.lines.Passing.TheVariants as passing;
ghost use Rattle.std.specs.Prelude.{false};
ghost use Rattle.t1_char.specs.Steps.{steps_of};
ghost use Rattle.t1_char.specs.StepValues.{step_value};
ghost use Rattle.t1_char.specs.Turns.{counted_after, turn_at};
ghost use Rattle.t1_char.specs.AnswerViews.{answer_view, is_limit, is_over};
ghost use Rattle.t1_char.specs.TurnViews.{turn_value};

use crate::edition::Edition;
use crate::frames::Frames;
use crate::lines::{Passing, Way};
use crate::step::Step;
use std::marker::Model;
use t1_font::Font;

/// What a machine returns.
#[derive(Clone, Copy)]
pub enum Turn<'m> {
    /// The next step; it is executed by the next call.
    Step(&'m Step),
    /// The glyph has no further step.
    Ended,
    /// The first step past the limit; it isn't executed.
    Limit(&'m Step),
}

/// The same without the step, to which [`Machine::current`] has a reference.
#[derive(Clone, Copy)]
pub enum Answer {
    /// There is a next step.
    Step,
    /// The glyph has no further step.
    Ended,
    /// It is the first step past the limit.
    Limit,
}

impl Answer {
    /// Whether the glyph has no further step.
    #[inline(always)]
    pub fn is_over(self) -> bool
        ensures { result ≡ is_over self }
    {
        matches!(self, Answer::Ended)
    }

    /// Whether the step is the first past the limit.
    #[inline(always)]
    pub fn is_limit(self) -> bool
        ensures { result ≡ is_limit self }
    {
        matches!(self, Answer::Limit)
    }
}

/// What becomes of the numbers that come next and that the stack has room for.
#[derive(Clone, Copy)]
pub enum Numbers {
    /// Each is returned as a step.
    Returned,
    /// The machine passes them, and each counts as a requested step.
    Passed,
}

/// What a machine returns after it passed steps, and the way of these.
#[derive(Clone, Copy)]
pub struct Far {
    pub answer: Answer,
    pub way: Way,
}

/// A glyph that is executed step by step: no list is made, and no memory is taken.
///
/// ```
/// let mut machine = Machine::start(font, 0, Edition::One);
/// while let Turn::Step(step) = machine.step() {
///     println!(rt; "{} {:?}", step.number, step.token)?;
/// }
/// ```
#[derive(Drop)]
pub struct Machine<'a> {
    font: &'a Font<'a>,
    glyph: usize,
    edition: Edition,
    /// How many steps the edition looks at.
    limit: u32,
    counted: u32,
    answer: Answer,
    frames: Frames<'a>,
}

/// The same without lines.
#[inline(always)]
fn passing_of(numbers: Numbers) -> Passing
    ensures leads { leads result ≡ false }
    ensures returned { numbers ≡ Returned → result ≡ passing.Returned }
{
    match numbers {
        Numbers::Returned => Passing::Returned,
        Numbers::Passed => Passing::Numbers,
    }
}

impl<'a> Model for Machine<'a> {
    ghost use Rattle.std.specs.Prelude.{◌≡◌};
    ghost use Rattle.t1_char.specs.StepValues.{step_value};
    ghost use Rattle.t1_char.specs.Turns.{MachineView};
    ghost use Rattle.t1_char.specs.Private.Machines.{IsAt};
    ghost use Rattle.t1_char.specs.Steps.{steps_of};
    ghost use Rattle.t1_char.specs.Editions.{limit_of};

    ghost Value = { MachineView };

    ghost view = { λ m. record {
      font = m.font.now;
      glyph = m.glyph;
      edition = m.edition;
      counted = m.counted;
      step = step_value m.frames.step;
    } };

    ghost invariant = { λ m. IsAt (limit_of m.edition) (steps_of m.font.now m.glyph) m.font.now m.counted m.answer m.frames
        × (m.limit ≡ limit_of m.edition) };
}

impl<'a> Machine<'a> {
    ghost use Rattle.std.specs.Borrow.{sem};
    ghost use Rattle.t1_char.specs.Lending.{MovesOn};

    /// A machine before the first step of a glyph, by its place.
    #[inline(always)]
    pub fn start(font: &'a Font<'a>, glyph: usize, edition: Edition) -> Machine<'a>
        requires { glyph < length font.now.glyphs }
        ensures font { result.font ≡ font.now }
        ensures glyph { result.glyph ≡ glyph }
        ensures edition { result.edition ≡ edition }
        ensures counted { result.counted ≡ 0 }
    {
        Machine {
            font,
            glyph,
            edition,
            limit: edition.step_limit(),
            counted: 0,
            answer: Answer::Step,
            frames: Frames::start(font, glyph),
        }
    }

    /// Goes before the first step of another glyph of the font: [`Machine::start`] in place.
    pub fn start_again(&mut self, glyph: usize, edition: Edition)
        requires { glyph < length self.old.font.glyphs }
        ensures font { self.new.font ≡ self.old.font }
        ensures glyph { self.new.glyph ≡ glyph }
        ensures edition { self.new.edition ≡ edition }
        ensures counted { self.new.counted ≡ 0 }
    {
        self.glyph = glyph;
        self.edition = edition;
        self.limit = edition.step_limit();
        self.counted = 0;
        self.answer = Answer::Step;
        self.frames.start_again(self.font, glyph);
    }

    /// The next step, up to the limit of the edition; the end and the limit are returned again.
    #[inline(always)]
    pub fn step(&mut self) -> Turn<'_>
        ensures* moves_on { sem 𝓛 (MovesOn self.entry) }
        ensures turn { turn_value result
            ≡ turn_at (limit_of self.old.edition) (steps_of self.old.font self.old.glyph) self.old.counted }
    {
        match self.tell() {
            Answer::Step => Turn::Step(self.current()),
            Answer::Ended => Turn::Ended,
            Answer::Limit => Turn::Limit(self.current()),
        }
    }

    /// The same of each step, without the step.
    #[inline(always)]
    fn tell(&mut self) -> Answer
        ensures answer { answer_view result self.new.step
            ≡ turn_at (limit_of self.old.edition) (steps_of self.old.font self.old.glyph) self.old.counted }
        ensures counted { self.new.counted
            ≡ counted_after (limit_of self.old.edition) (steps_of self.old.font self.old.glyph) self.old.counted }
        ensures font { self.new.font ≡ self.old.font }
        ensures glyph { self.new.glyph ≡ self.old.glyph }
        ensures edition { self.new.edition ≡ self.old.edition }
    {
        self.go_on(Numbers::Returned)
    }

    /// Executes the step that was returned last, passes the numbers after it where it may, and reads the next step, up to
    /// the limit of the edition; the end and the limit are returned again.
    #[inline(always)]
    pub fn go_on(&mut self, numbers: Numbers) -> Answer
        ensures asked { IsAsked numbers self.old self.new (answer_view result self.new.step) }
        ensures font { self.new.font ≡ self.old.font }
        ensures glyph { self.new.glyph ≡ self.old.glyph }
        ensures edition { self.new.edition ≡ self.old.edition }
    {
        let far = self.go_far(passing_of(numbers));
        far.answer
    }

    /// The same with lines, or with moves and lines after these, and the way of the passed ones. Where moves are passed it is slower
    /// if none comes next.
    #[inline(always)]
    pub fn go_far(&mut self, passing: Passing) -> Far
        ensures asked { IsAskedFar passing self.old self.new (answer_view result.answer self.new.step) result.way }
        ensures font { self.new.font ≡ self.old.font }
        ensures glyph { self.new.glyph ≡ self.old.glyph }
        ensures edition { self.new.edition ≡ self.old.edition }
    {
        match self.answer {
            Answer::Step => {
                if !self.frames.execute(self.font) {
                    self.counted += 1;
                    self.answer = Answer::Ended;
                    return Far {
                        answer: Answer::Ended,
                        way: Way::NONE,
                    };
                }
                let gone = self
                    .frames
                    .advance(passing, self.font, self.counted, self.limit);
                self.counted = gone.before + 1;
                if self.counted > self.limit {
                    self.answer = Answer::Limit;
                    return Far {
                        answer: Answer::Limit,
                        way: gone.way,
                    };
                }
                Far {
                    answer: Answer::Step,
                    way: gone.way,
                }
            }
            other => Far {
                answer: other,
                way: Way::NONE,
            },
        }
    }

    /// The step that was returned last; before the first call a step that does nothing.
    #[inline(always)]
    pub fn current(&self) -> &Step
        ensures { step_value result.now ≡ self.now.step }
    {
        &self.frames.step
    }

    /// How many steps were requested, up to the first end or limit; a passed number counts as requested.
    pub fn counted(&self) -> u32
        ensures counted { result ≡ self.now.counted }
        ensures most { result ≤ limit_of self.now.edition + 1 }
    {
        self.counted
    }
}
