//! The report one fault at a time, from any mark on.

pub(crate) mod course;
mod font_places;
mod found;
pub(crate) mod glyph_run;
mod search;

ghost use Rattle.std.specs.Prelude.{◌≡◌, ◌≤◌, ◌*◌, ◌+◌, IfSome, MatchOption, length};
ghost use Rattle.t1_report.specs.Faults.{fault_value};
ghost use Rattle.t1_report.specs.Checked.{checked, step_limit};
ghost use Rattle.t1_report.specs.Lines.{IsInFont};
ghost use Rattle.t1_report.specs.Walks.{HasNoneLater, IsNext, first_mark};
ghost use Rattle.t1_report.specs.WalkViews.{WalkView, walked};
ghost use Rattle.t1_rules.specs.Components.{AreOf};

use crate::faults::Fault;
use crate::marks::Mark;
use crate::waivers::Waivers;
use course::Course;
use std::marker::Model;
use t1_font::Font;
use t1_rules::Sidebearings;

/// A report, one fault at a time. It takes no memory and can't fail. [`Walk::turns`] counts the requested steps: those of
/// each glyph up to the limit and one more for the end, and for each waiver those of its glyph once more, up to the first
/// that breaks the waiver's rule.
///
/// ```
/// let sidebearings = Sidebearings::prepare(alloc, &font, Edition::One)?;
/// let mut walk = Walk::begin(&font, &sidebearings, &waivers);
/// let first = walk.next();
/// let mark = walk.mark();
/// let rest = Walk::resume(&font, &sidebearings, &waivers, mark);
/// ```
#[derive(Drop)]
pub struct Walk<'a> {
    course: Course<'a>,
}

impl<'a> Model for Walk<'a> {
    ghost use Rattle.t1_report.specs.Private.Courses.{IsCourse, turns_so_far};
    ghost use Rattle.t1_report.specs.Private.Searches.{checked_in};
    ghost use Rattle.t1_report.specs.WalkViews.{WalkView};

    ghost Value = { WalkView };

    ghost view = { λ w. record {
      font = checked_in w.course.search;
      waivers = w.course.search.waivers.now;
      from = w.course.search.from;
      first = w.course.search.first;
      mark = w.course.mark;
      turns = turns_so_far w.course.search;
    } };

    ghost invariant = { λ w. IsCourse w.course };
}

impl<'a> Walk<'a> {
    /// From before the first fault on.
    pub fn begin(
        font: &'a Font<'a>,
        sidebearings: &'a Sidebearings,
        waivers: &'a Waivers<'a>,
    ) -> Walk<'a>
        requires { AreOf font.now sidebearings.now }
        ensures font { result.font ≡ checked font.now sidebearings.now.edition }
        ensures waivers { result.waivers ≡ waivers.now }
        ensures from { result.from ≡ 0 }
        ensures first { result.first ≡ 0 }
        ensures mark { result.mark ≡ first_mark }
        ensures turns { result.turns ≡ 0 }
    {
        Walk::resume(
            font,
            sidebearings,
            waivers,
            Mark {
                number: 0,
                unit: 0,
                step: 0,
                rule: 0,
            },
        )
    }

    /// From after a mark on, whatever it is; it needs the font's `Sidebearings`.
    pub fn resume(
        font: &'a Font<'a>,
        sidebearings: &'a Sidebearings,
        waivers: &'a Waivers<'a>,
        mark: Mark,
    ) -> Walk<'a>
        requires { AreOf font.now sidebearings.now }
        ensures font { result.font ≡ checked font.now sidebearings.now.edition }
        ensures waivers { result.waivers ≡ waivers.now }
        ensures from { result.from ≡ mark.unit }
        ensures first { result.first ≡ mark.step }
        ensures mark { result.mark ≡ mark }
        ensures turns { result.turns ≡ 0 }
    {
        Walk {
            course: Course::from(font, sidebearings, waivers, mark),
        }
    }

    /// The least fault of the report after the mark, with the number after the mark's; then it is the mark. It is in the font,
    /// as [`write_fault`](crate::write_fault) needs.
    pub fn next(&mut self) -> Option<Fault>
        ensures next { MatchOption result (HasNoneLater self.old.font self.old.waivers self.old.mark)
            (λ fault. IsNext self.old.font self.old.waivers self.old.mark (fault_value fault)) }
        ensures state { self.new ≡ walked self.old result }
        ensures in_font { IfSome result
            (λ fault. IsInFont self.old.font.value self.old.waivers (fault_value fault)) }
    {
        self.course.next()
    }

    /// The mark of the fault that was returned last, or the one that it began with.
    pub fn mark(&self) -> Mark
        ensures { result ≡ self.now.mark }
    {
        self.course.mark()
    }

    /// How many steps it has requested: of each glyph, and for each waiver, at most one more than the limit. A number that a
    /// machine passes counts as a requested step.
    pub fn turns(&self) -> u64
        ensures turns { result ≡ self.now.turns }
        ensures few { result ≤ (step_limit self.now.font + 1) * (length self.now.font.value.glyphs + length self.now.waivers) }
    {
        self.course.turns()
    }
}
