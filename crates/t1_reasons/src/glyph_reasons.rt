//! The reasons of a glyph's faults, in their order.

ghost use Rattle.std.specs.Prelude.{◌≡◌, ◌<◌, ◌≤◌, ◌+◌, ◌-◌, true, false, length, take};
ghost use Rattle.t1_char.specs.Editions.{has_latest_rules, limit_of};
ghost use Rattle.t1_char.specs.StepValues.{step_view};
ghost use Rattle.t1_drawing.specs.declared.touching.UntouchedStem.{UntouchedStem as Stems};
ghost use Rattle.t1_drawing.specs.DrawingRules.{box_of};
ghost use Rattle.t1_drawing.specs.Touching.{first_untouched};
ghost use Rattle.t1_reasons.specs.DrawingReasons.{drawing_reason, stem_left, told_on_drawing};
ghost use Rattle.t1_reasons.specs.GlyphReasons.{GoesTo, IsInHand, IsOfSameGlyph, is_step, limit_reason, reason_at, steps_in};
ghost use Rattle.t1_reasons.specs.Private.Searching.{StemSearched, TurnsSearched};
ghost use Rattle.t1_reasons.specs.Standing.{StepsStandFor};
ghost use Rattle.t1_reasons.specs.SubpathTurns.{turns_of};
ghost use Rattle.t1_rules.specs.Book.{last_number_of_third, number_of};
ghost use Rattle.t1_rules.specs.Components.{AreOf};
ghost use Rattle.t1_rules.specs.Private.Standing.{WatchesStandFor};

use crate::charstring_reasons::told_of_step;
use crate::drawing_reasons::{area_of_drawing, told_of_segments};
use crate::reason::{Reason, SubpathTurns};
use crate::stem_search::StemSearch;
use crate::steps_before::StepsBefore;
use crate::subpath_turns::TurnSearch;
use std::marker::Model;
use t1_char::{Answer, Edition, Machine, Numbers, Step};
use t1_drawing::{DrawingWatcher, FontBox, TracedSegments, UntouchedStem};
use t1_font::Font;
use t1_rules::{Mask, Rule, Sidebearings, Watch, Watches};

/// The number of the last rule of the third edition: of the rules on glyphs those after it are on the drawing.
const LAST_OF_THIRD: u8 = 93;

/// The reasons of a glyph's faults. It executes the glyph once where it is asked in the order of the steps, and once more where it is
/// asked for an earlier step, or for P05 or H08 where they are broken. It takes no memory and can't fail.
#[derive(Drop)]
pub struct GlyphReasons<'a> {
    font: &'a Font<'a>,
    glyph: usize,
    edition: Edition,
    machine: Machine<'a>,
    /// The steps before the step in hand.
    before: StepsBefore,
    /// The watchers that have seen the step in hand too, and that of the drawing where the edition has its rules.
    watches: Watches,
    drawing: DrawingWatcher,
    /// What the step in hand breaks of the rules on its glyph's own steps and on the drawing.
    broken: Mask,
    /// What it draws, where the edition has rules on the drawing.
    segments: TracedSegments,
    /// What the machine answered last.
    answer: Answer,
}

impl<'a> Model for GlyphReasons<'a> {
    ghost use Rattle.t1_char.specs.Turns.{MachineView};
    ghost use Rattle.t1_reasons.specs.GlyphReasons.{IsBegun, IsWatched};

    ghost Value = { MachineView };

    ghost view = { λ r. r.machine };

    ghost invariant = { λ r. IsWatched r.machine r.before r.watches r.drawing r.broken r.segments.items r.answer
        × IsBegun r.machine r.font.now r.glyph r.edition };
}

impl<'a> GlyphReasons<'a> {
    /// Before the first step of a glyph, by its place.
    pub fn start(font: &'a Font<'a>, glyph: usize, edition: Edition) -> GlyphReasons<'a>
        requires { glyph < length font.now.glyphs }
        ensures font { result.font ≡ font.now }
        ensures glyph { result.glyph ≡ glyph }
        ensures edition { result.edition ≡ edition }
        ensures counted { result.counted ≡ 0 }
    {
        GlyphReasons {
            font,
            glyph,
            edition,
            machine: Machine::start(font, glyph, edition),
            before: StepsBefore::start(edition),
            watches: Watches::start(edition),
            drawing: DrawingWatcher::start(FontBox::of_font(font)),
            broken: Mask::empty(),
            segments: TracedSegments::new(),
            answer: Answer::Step,
        }
    }

    /// Returns the place of the glyph.
    pub fn glyph(&self) -> usize
        ensures { result ≡ self.now.glyph }
    {
        self.glyph
    }

    /// Returns why the step of a number, from 1 on, breaks a rule, or None where it doesn't, or there is no such step.
    pub fn reason(&mut self, sidebearings: &Sidebearings, number: u32, rule: Rule) -> Option<Reason>
        requires sidebearings { AreOf self.old.font sidebearings.now }
        requires edition { sidebearings.now.edition ≡ self.old.edition }
        ensures reason { result ≡ reason_at self.old rule number }
        ensures same { IsOfSameGlyph self.old self.new }
    {
        if number < self.machine.counted() {
            self.start_again();
        }
        self.go_to(number);
        if self.machine.counted() != number {
            return None;
        }
        self.reason_here(sidebearings, rule)
    }

    /// Why the step in hand breaks a rule.
    fn reason_here(&self, sidebearings: &Sidebearings, rule: Rule) -> Option<Reason>
        requires sidebearings { AreOf self.now.font sidebearings.now }
        requires edition { sidebearings.now.edition ≡ self.now.edition }
        ensures { result ≡ reason_at self.now rule self.now.counted }
    {
        if self.machine.counted() == 0 {
            return None;
        }
        match self.answer {
            Answer::Step => {
                let step = self.machine.current();
                if rule.number() > LAST_OF_THIRD {
                    return self.drawing_reason(rule, step);
                }
                let broken = self.broken.join(sidebearings.see(step));
                let reason = self.before.reason(rule, step, sidebearings, broken);
                told_of_step(self.font, self.glyph, rule, step, reason)
            }
            Answer::Ended => None,
            Answer::Limit => limit_reason(sidebearings.edition(), rule),
        }
    }

    /// Why the step in hand breaks a rule on the drawing.
    fn drawing_reason(&self, rule: Rule, step: &Step) -> Option<Reason>
        requires past { last_number_of_third < number_of rule }
        requires some { 0 < self.now.counted }
        requires few { self.now.counted ≤ length (steps_in self.now) }
        requires step { step_view step.now ≡ self.now.step.step }
        ensures { result ≡ drawing_reason self.now.edition (box_of self.now.font) rule (take (self.now.counted - 1) (steps_in self.now)) self.now.step.step }
    {
        if self.broken.has(rule) {
            Some(self.told_on_drawing(rule, step))
        } else {
            None
        }
    }

    /// What a rule on the drawing tells of the step in hand.
    fn told_on_drawing(&self, rule: Rule, step: &Step) -> Reason
        requires latest { has_latest_rules self.now.edition ≡ true }
        requires some { 0 < self.now.counted }
        requires few { self.now.counted ≤ length (steps_in self.now) }
        requires step { step_view step.now ≡ self.now.step.step }
        ensures { result ≡ told_on_drawing (box_of self.now.font) rule (take (self.now.counted - 1) (steps_in self.now)) self.now.step.step }
    {
        match rule {
            Rule::P05 => area_of_drawing(self.drawing.area(), self.search_turns()),
            Rule::H08 => self.stem_left(),
            Rule::P11 | Rule::H09 | Rule::H10 => self.before.told_of(rule, step),
            _ => told_of_segments(FontBox::of_font(self.font), rule, self.segments.as_slice()),
        }
    }

    /// A stem that nothing touches, if there is one.
    fn stem_left(&self) -> Reason
        requires latest { has_latest_rules self.now.edition ≡ true }
        requires few { self.now.counted ≤ length (steps_in self.now) }
        ensures { result ≡ stem_left (first_untouched (take self.now.counted (steps_in self.now))) (take self.now.counted (steps_in self.now)) }
    {
        match self.drawing.untouched() {
            Some(stem) => self.search_stem(stem).told(),
            None => Reason::Nothing,
        }
    }

    /// Looks for the subpaths that run clockwise: it executes the glyph once more, up to the step in hand.
    #[inline(never)]
    fn search_turns(&self) -> SubpathTurns
        requires latest { has_latest_rules self.now.edition ≡ true }
        requires few { self.now.counted ≤ length (steps_in self.now) }
        ensures { result ≡ turns_of (take self.now.counted (steps_in self.now)) }
    {
        let mut run = GlyphReasons::start(self.font, self.glyph, self.edition);
        let mut search = TurnSearch::start();
        for seen in 0..self.machine.counted() {
            run.go_to(seen + 1);
            run.show_turn(&mut search);
        }
        search.turns()
    }

    /// Shows the step in hand to a search for the subpaths that run clockwise.
    fn show_turn(&self, search: &mut TurnSearch)
        requires latest { has_latest_rules self.now.edition ≡ true }
        requires some { 0 < self.now.counted }
        requires few { self.now.counted ≤ length (steps_in self.now) }
        requires seen { TurnsSearched search.old (take (self.now.counted - 1) (steps_in self.now)) }
        ensures { TurnsSearched search.new (take self.now.counted (steps_in self.now)) }
    {
        search.see(
            self.machine.counted(),
            self.segments.as_slice(),
            self.drawing.area(),
        );
    }

    /// Looks for the step that sets a stem, and for what is drawn nearest to it: it executes the glyph once more, up to the step in hand.
    #[inline(never)]
    fn search_stem(&self, stem: UntouchedStem) -> StemSearch
        requires latest { has_latest_rules self.now.edition ≡ true }
        requires few { self.now.counted ≤ length (steps_in self.now) }
        ensures { StemSearched stem result (take self.now.counted (steps_in self.now)) }
    {
        let mut run = GlyphReasons::start(self.font, self.glyph, self.edition);
        let mut search = StemSearch::start(stem);
        for seen in 0..self.machine.counted() {
            run.go_to(seen + 1);
            run.show_stem(&mut search);
        }
        search
    }

    /// Shows the step in hand to a search for a stem.
    fn show_stem(&self, search: &mut StemSearch)
        requires latest { has_latest_rules self.now.edition ≡ true }
        requires some { 0 < self.now.counted }
        requires few { self.now.counted ≤ length (steps_in self.now) }
        ensures { (stem : Stems) → StemSearched stem search.old (take (self.now.counted - 1) (steps_in self.now)) →
            StemSearched stem search.new (take self.now.counted (steps_in self.now)) }
    {
        search.see(
            self.machine.counted(),
            self.machine.current(),
            self.segments.as_slice(),
        );
    }

    /// Goes back before the first step.
    fn start_again(&mut self)
        ensures same { IsOfSameGlyph self.old self.new }
        ensures counted { self.new.counted ≡ 0 }
    {
        self.machine.start_again(self.glyph, self.edition);
        self.before = StepsBefore::start(self.edition);
        self.watches.start_again(self.edition);
        self.drawing.start_again(FontBox::of_font(self.font));
        self.broken = Mask::empty();
        self.answer = Answer::Step;
    }

    /// Goes on to the step of a number, or past all steps.
    fn go_to(&mut self, number: u32)
        requires { self.old.counted ≤ number }
        ensures { GoesTo self.old self.new number }
    {
        for _step in self.machine.counted()..number {
            if !self.next() {
                return;
            }
        }
    }

    /// Goes on by one step, and returns whether there is one.
    fn next(&mut self) -> bool
        ensures same { IsOfSameGlyph self.old self.new }
        ensures stepped { result ≡ true → self.new.counted ≡ self.old.counted + 1 }
        ensures over { result ≡ false → self.new.counted ≡ length (steps_in self.old) + 1 }
        ensures all { result ≡ false → length (steps_in self.old) ≤ self.old.counted }
    {
        if !is_step(self.answer) {
            return false;
        }
        see_in_hand(&mut self.before, &self.machine);
        self.answer = self.machine.go_on(Numbers::Returned);
        if is_step(self.answer) {
            let draws = self.edition.has_latest_rules();
            let traced = self
                .drawing
                .trace_where(draws, &mut self.watches, self.machine.current());
            self.broken = traced.broken;
            self.segments = traced.segments;
            true
        } else {
            false
        }
    }
}

/// Whether a machine answered a step.
fn is_step(answer: Answer) -> bool
    ensures { result ≡ is_step answer }
{
    matches!(answer, Answer::Step)
}

/// Goes past the step in hand, if there is one.
fn see_in_hand(before: &mut StepsBefore, machine: &Machine<'_>)
    requires in_hand { IsInHand machine.now }
    requires stands { StepsStandFor machine.now.edition before.old (take (machine.now.counted - 1) (steps_in machine.now)) }
    requires there { machine.now.counted ≤ length (steps_in machine.now) }
    ensures { StepsStandFor machine.now.edition before.new (take machine.now.counted (steps_in machine.now)) }
{
    if machine.counted() > 0 {
        before.see(machine.current());
    }
}

/// Why the first step past the limit of an edition breaks a rule.
fn limit_reason(edition: Edition, rule: Rule) -> Option<Reason>
    ensures { result ≡ limit_reason (limit_of edition) rule }
{
    match rule {
        Rule::L01 => Some(Reason::Limit {
            steps: edition.step_limit(),
        }),
        _ => None,
    }
}
