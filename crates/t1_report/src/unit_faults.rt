//! The faults of one unit, one at a time.

ghost use Rattle.std.specs.Prelude.{◌≡◌, IfSome, MatchOption};
ghost use Rattle.t1_report.specs.Checked.{checked};
ghost use Rattle.t1_report.specs.Faults.{fault_value};
ghost use Rattle.t1_report.specs.Lines.{IsInFont};
ghost use Rattle.t1_report.specs.UnitFaults.{HasNoneLaterInUnit, IsNextInUnit, first_mark_of, unit_walked};
ghost use Rattle.t1_rules.specs.Components.{AreOf};

use crate::faults::Fault;
use crate::marks::Mark;
use crate::waivers::Waivers;
use crate::walk::course::Course;
use std::marker::Model;
use t1_font::Font;
use t1_rules::Sidebearings;

/// The faults of one unit, one at a time, numbered from 1 in the unit. Unit 0 is the font, g + 1 is glyph g, and the
/// unit after the last glyph's is the waivers'; further units have none. It ends with its unit and executes no other
/// glyph than the unit's, or those of the waivers; [`UnitFaults::turns`] counts their steps. It doesn't allocate and
/// can't fail.
///
/// ```
/// let sidebearings = Sidebearings::prepare(alloc, &font, Edition::One)?;
/// let mut faults = UnitFaults::of(&font, &sidebearings, &waivers, glyph + 1);
/// let first = faults.next();
/// ```
#[derive(Drop)]
pub struct UnitFaults<'a> {
    course: Course<'a>,
}

impl<'a> Model for UnitFaults<'a> {
    ghost use Rattle.t1_report.specs.Private.Courses.{IsUnitCourse, turns_so_far};
    ghost use Rattle.t1_report.specs.Private.Searches.{checked_in};
    ghost use Rattle.t1_report.specs.UnitFaults.{UnitView};

    ghost Value = { UnitView };

    ghost view = { λ u. record {
      font = checked_in u.course.search;
      waivers = u.course.search.waivers.now;
      unit = u.course.search.unit;
      mark = u.course.mark;
      turns = turns_so_far u.course.search;
    } };

    ghost invariant = { λ u. IsUnitCourse u.course };
}

impl<'a> UnitFaults<'a> {
    /// Starts before the unit's first fault; the `Sidebearings` are those of the font.
    pub fn of(
        font: &'a Font<'a>,
        sidebearings: &'a Sidebearings,
        waivers: &'a Waivers<'a>,
        unit: u32,
    ) -> UnitFaults<'a>
        requires { AreOf font.now sidebearings.now }
        ensures font { result.font ≡ checked font.now sidebearings.now.edition }
        ensures waivers { result.waivers ≡ waivers.now }
        ensures unit { result.unit ≡ unit }
        ensures mark { result.mark ≡ first_mark_of unit }
        ensures turns { result.turns ≡ 0 }
    {
        let mark = Mark {
            number: 0,
            unit,
            step: 0,
            rule: 0,
        };
        UnitFaults {
            course: Course::from(font, sidebearings, waivers, mark),
        }
    }

    /// Returns the least fault of the unit after the mark, numbered one more than the mark; then the fault is the mark.
    /// It is in the font, as [`write_fault`](crate::write_fault) requires.
    pub fn next(&mut self) -> Option<Fault>
        ensures next { MatchOption result (HasNoneLaterInUnit self.old.font self.old.waivers self.old.unit self.old.mark)
            (λ fault. IsNextInUnit self.old.font self.old.waivers self.old.unit self.old.mark (fault_value fault)) }
        ensures state { self.new ≡ unit_walked self.old result }
        ensures in_font { IfSome result
            (λ fault. IsInFont self.old.font.value self.old.waivers (fault_value fault)) }
    {
        self.course.next_in_unit()
    }

    /// Returns how many steps it has requested of machines: none for the font, those of the glyph of its unit and of no
    /// other, and for the waivers those of a [`Walk`](crate::Walk).
    pub fn turns(&self) -> u64
        ensures { result ≡ self.now.turns }
    {
        self.course.turns()
    }
}
