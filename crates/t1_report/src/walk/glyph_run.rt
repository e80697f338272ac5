//! A glyph, executed up to the next step that breaks a rule.

ghost use Rattle.std.specs.Prelude.{◌≡◌, ◌<◌, ◌≤◌, ◌+◌, true, false, MatchOption, length};
ghost use Rattle.t1_report.specs.Checked.{checked, step_limit};
ghost use Rattle.t1_report.specs.Private.Units.{IsDrawn, IsFirst, IsQuietFrom, IsRun, executed};
ghost use Rattle.t1_report.specs.Walks.{turns_of_glyph};
ghost use Rattle.t1_rules.specs.Components.{AreOf};
ghost use Rattle.t1_rules.specs.Mask.{HasNoneAbove};
ghost use Rattle.t1_report.specs.Private.Fitting.{IsFit};
ghost use Rattle.t1_report.specs.Private.Going.{HasGone};
ghost use Rattle.t1_char.specs.AnswerViews.{answer_view};
ghost use Rattle.t1_char.specs.declared.lines.Passing.TheVariants.{Moves};
ghost use Rattle.t1_char.specs.Editions.{has_latest_rules, limit_of};
ghost use Rattle.t1_char.specs.declared.edition.Edition.{Edition as Editions};
ghost use Rattle.t1_char.specs.declared.edition.Edition.TheVariants.{Two};

use crate::violations::broken_at;
use crate::walk::found::Found;
use t1_char::{Answer, Edition, Machine, Passing};
use t1_drawing::{DrawingWatcher, FontBox};
use t1_font::{Font, copy_of};
use t1_rules::{Mask, Sidebearings, Watch, Watches};

/// The machine of a glyph, and the watchers that saw its steps: that of the drawing where the edition has its rules.
#[derive(Drop)]
pub(crate) struct GlyphRun<'a> {
    machine: Machine<'a>,
    watches: Watches,
    drawing: DrawingWatcher,
}

impl<'a> GlyphRun<'a> {
    /// A glyph before its first step.
    pub(crate) fn start(font: &'a Font<'a>, glyph: usize, edition: Edition) -> GlyphRun<'a>
        requires { glyph < length font.now.glyphs }
        ensures run { IsRun result.machine result.watches }
        ensures font { executed result.machine ≡ checked font.now edition }
        ensures glyph { result.machine.glyph ≡ glyph }
        ensures counted { result.machine.counted ≡ 0 }
        ensures drawn { IsDrawn result.machine result.drawing }
    {
        GlyphRun {
            machine: Machine::start(font, glyph, edition),
            watches: Watches::start(edition),
            drawing: DrawingWatcher::start(FontBox::of_font(font)),
        }
    }

    /// The same of another glyph of the font, in place.
    pub(crate) fn start_again(&mut self, font: &Font<'_>, glyph: usize, edition: Edition)
        requires font { self.old.machine.font ≡ font.now }
        requires glyph { glyph < length self.old.machine.font.glyphs }
        ensures run { IsRun self.new.machine self.new.watches }
        ensures font { executed self.new.machine ≡ checked self.old.machine.font edition }
        ensures glyph { self.new.machine.glyph ≡ glyph }
        ensures counted { self.new.machine.counted ≡ 0 }
        ensures drawn { IsDrawn self.new.machine self.new.drawing }
    {
        self.machine.start_again(glyph, edition);
        self.watches.start_again(edition);
        if edition.has_latest_rules() {
            self.drawing.start_again(FontBox::of_font(font));
        }
    }

    /// How many steps were requested.
    pub(crate) fn counted(&self) -> u32
        ensures counted { result ≡ self.now.machine.counted }
        ensures most { result ≤ limit_of Two + 1 }
    {
        self.machine.counted()
    }

    /// The next step that breaks a rule; the rest of the glyph breaks none where there is none.
    pub(crate) fn next(&mut self, sidebearings: &Sidebearings, unit: u32) -> Option<Found>
        requires run { IsRun self.old.machine self.old.watches }
        requires drawn { IsDrawn self.old.machine self.old.drawing }
        requires sidebearings { AreOf self.old.machine.font sidebearings.now }
        requires edition { sidebearings.now.edition ≡ self.old.machine.edition }
        requires unit { unit ≡ self.old.machine.glyph + 1 }
        ensures found { MatchOption result
            (IsQuietFrom (executed self.old.machine) unit (self.old.machine.counted + 1))
            (λ found. IsFirst (executed self.old.machine) unit (self.old.machine.counted + 1) found) }
        ensures counted { MatchOption result
            (self.new.machine.counted ≡ turns_of_glyph (executed self.old.machine) self.old.machine.glyph)
            (λ found. self.new.machine.counted ≡ found.step) }
        ensures run { IsRun self.new.machine self.new.watches }
        ensures drawn { IsDrawn self.new.machine self.new.drawing }
        ensures font { executed self.new.machine ≡ executed self.old.machine }
        ensures glyph { self.new.machine.glyph ≡ self.old.machine.glyph }
    {
        if sidebearings.edition().has_latest_rules() {
            next_drawing(
                &mut self.machine,
                &mut self.watches,
                &mut self.drawing,
                sidebearings,
                unit,
            )
        } else {
            next_broken(
                &mut self.machine,
                &mut self.watches,
                &mut self.drawing,
                sidebearings,
                false,
                unit,
            )
        }
    }
}

/// The next step of a machine that breaks a rule, in an edition that has rules on the drawing. Its loop is in a function of its own, so that
/// the other one's is small enough to have all of its calls inlined.
#[inline(never)]
fn next_drawing(
    machine: &mut Machine<'_>,
    watches: &mut Watches,
    drawing: &mut DrawingWatcher,
    sidebearings: &Sidebearings,
    unit: u32,
) -> Option<Found>
    requires draws { has_latest_rules machine.old.edition ≡ true }
    requires run { IsRun machine.old watches.old }
    requires drawn { IsDrawn machine.old drawing.old }
    requires sidebearings { AreOf machine.old.font sidebearings.now }
    requires edition { sidebearings.now.edition ≡ machine.old.edition }
    requires unit { unit ≡ machine.old.glyph + 1 }
    ensures found { MatchOption result
        (IsQuietFrom (executed machine.old) unit (machine.old.counted + 1))
        (λ found. IsFirst (executed machine.old) unit (machine.old.counted + 1) found) }
    ensures counted { MatchOption result
        (machine.new.counted ≡ turns_of_glyph (executed machine.old) machine.old.glyph)
        (λ found. machine.new.counted ≡ found.step) }
    ensures run { IsRun machine.new watches.new }
    ensures drawn { IsDrawn machine.new drawing.new }
    ensures font { executed machine.new ≡ executed machine.old }
    ensures glyph { machine.new.glyph ≡ machine.old.glyph }
{
    next_broken(machine, watches, drawing, sidebearings, true, unit)
}

/// The next step of a machine that breaks a rule; `draws` says that the edition has rules on the drawing.
#[inline(always)]
fn next_broken(
    machine: &mut Machine<'_>,
    watches: &mut Watches,
    drawing: &mut DrawingWatcher,
    sidebearings: &Sidebearings,
    draws: bool,
    unit: u32,
) -> Option<Found>
    requires draws { draws ≡ has_latest_rules machine.old.edition }
    requires run { IsRun machine.old watches.old }
    requires drawn { IsDrawn machine.old drawing.old }
    requires sidebearings { AreOf machine.old.font sidebearings.now }
    requires edition { sidebearings.now.edition ≡ machine.old.edition }
    requires unit { unit ≡ machine.old.glyph + 1 }
    ensures found { MatchOption result
        (IsQuietFrom (executed machine.old) unit (machine.old.counted + 1))
        (λ found. IsFirst (executed machine.old) unit (machine.old.counted + 1) found) }
    ensures counted { MatchOption result
        (machine.new.counted ≡ turns_of_glyph (executed machine.old) machine.old.glyph)
        (λ found. machine.new.counted ≡ found.step) }
    ensures run { IsRun machine.new watches.new }
    ensures drawn { IsDrawn machine.new drawing.new }
    ensures font { executed machine.new ≡ executed machine.old }
    ensures glyph { machine.new.glyph ≡ machine.old.glyph }
{
    let mut on = machine.counted() <= sidebearings.edition().step_limit();
    while on {
        let answer = go_on(machine, watches, draws);
        if answer.is_over() {
            return None;
        }
        let step = machine.current();
        let is_past = answer.is_limit();
        let rules = broken_at(watches, drawing, sidebearings, draws, is_past, step);
        if has_rules(rules) {
            return Some(Found {
                unit,
                step: step.number,
                path: copy_of(&step.path),
                rules,
            });
        }
        on = !is_past;
    }
    None
}

/// The machine's next step that isn't passed; the watchers have seen those before it.
#[inline(always)]
fn go_on(machine: &mut Machine<'_>, watches: &mut Watches, draws: bool) -> Answer
    requires draws { draws ≡ has_latest_rules machine.old.edition }
    requires run { IsRun machine.old watches.old }
    requires near { machine.old.counted ≤ step_limit (executed machine.old) }
    ensures asked { HasGone machine.old watches.old machine.new watches.new (answer_view result machine.new.step) }
    ensures font { executed machine.new ≡ executed machine.old }
    ensures glyph { machine.new.glyph ≡ machine.old.glyph }
{
    if draws {
        return go_on_by_numbers(machine, watches);
    }
    // Each arm has a machine of its own, which tests no more what it passes.
    match passing_by(watches, machine.counted()) {
        Passing::Returned => machine.go_far(Passing::Returned).answer,
        Passing::Numbers => machine.go_far(Passing::Numbers).answer,
        Passing::Lines => {
            let far = machine.go_far(Passing::Lines);
            watches.go(far.way);
            far.answer
        }
        Passing::Moves => go_on_by_moves(machine, watches),
    }
}

/// The same where lines and moves are told too.
#[inline(never)]
fn go_on_by_numbers(machine: &mut Machine<'_>, watches: &Watches) -> Answer
    requires run { IsRun machine.old watches.now }
    requires near { machine.old.counted ≤ step_limit (executed machine.old) }
    ensures asked { HasGone machine.old watches.now machine.new watches.now (answer_view result machine.new.step) }
    ensures font { executed machine.new ≡ executed machine.old }
    ensures glyph { machine.new.glyph ≡ machine.old.glyph }
{
    if watches.is_calm() {
        machine.go_far(Passing::Numbers).answer
    } else {
        machine.go_far(Passing::Returned).answer
    }
}

/// The same where moves come that draw nothing.
#[inline(never)]
fn go_on_by_moves(machine: &mut Machine<'_>, watches: &mut Watches) -> Answer
    requires run { IsRun machine.old watches.old }
    requires near { machine.old.counted ≤ step_limit (executed machine.old) }
    requires fit { IsFit machine.old.edition Moves watches.old }
    ensures asked { HasGone machine.old watches.old machine.new watches.new (answer_view result machine.new.step) }
    ensures font { executed machine.new ≡ executed machine.old }
    ensures glyph { machine.new.glyph ≡ machine.old.glyph }
{
    let far = machine.go_far(Passing::Moves);
    watches.go_by_moves(far.way);
    far.answer
}

/// What becomes of the steps that come after the one of this number, where no rule speaks of what is drawn: numbers are passed, unless a
/// rule speaks of them, also lines in the midst of a path, and moves where they come one after another.
#[inline(always)]
fn passing_by(watches: &Watches, step: u32) -> Passing
    ensures { (edition : Editions) → has_latest_rules edition ≡ false → IsFit edition result watches.now }
{
    if !watches.is_calm() {
        Passing::Returned
    } else if !watches.is_steady() {
        Passing::Numbers
    } else if watches.is_idle(step) {
        Passing::Moves
    } else {
        Passing::Lines
    }
}

/// Whether a set has a rule.
#[inline(always)]
pub(crate) fn has_rules(rules: Mask) -> bool
    ensures { result ≡ false → HasNoneAbove rules 0 }
{
    !rules.is_empty()
}
