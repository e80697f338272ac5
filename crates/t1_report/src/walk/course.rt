//! How a walk goes on from its mark: the rules of the place in hand, and then the next place.

ghost use Rattle.std.specs.Prelude.{◌≡◌, ◌≤◌, ◌*◌, ◌+◌, IfSome, MatchOption, length};
ghost use Rattle.t1_io.specs.Devices.{one_more};
ghost use Rattle.t1_report.specs.Courses.{mark_after, turns_after};
ghost use Rattle.t1_report.specs.Private.Courses.{AreToBeFound, IsCourse, IsFloor, IsUnitCourse, turns_so_far};
ghost use Rattle.t1_report.specs.Faults.{fault_value};
ghost use Rattle.t1_report.specs.Checked.{checked, step_limit};
ghost use Rattle.t1_report.specs.Private.Searches.{aim_of, checked_in};
ghost use Rattle.t1_report.specs.UnitFaults.{HasNoneLaterInUnit, IsNextInUnit, turns_after_in};
ghost use Rattle.t1_report.specs.Walks.{HasNoneLater, IsNext, mark_of, turns_at};
ghost use Rattle.t1_rules.specs.Components.{AreOf};

use crate::faults::Fault;
use crate::marks::Mark;
use crate::waivers::Waivers;
use crate::walk::found::Found;
use crate::walk::search::Search;
use arrayvec::ArrayVec;
use t1_font::{Font, copy_of};
use t1_rules::{Mask, Rule, Sidebearings};

/// A search, the place that it found last, and the mark.
#[derive(Drop)]
pub(crate) struct Course<'a> {
    search: Search<'a>,
    found: Found,
    mark: Mark,
}

impl<'a> Course<'a> {
    /// From after a mark on.
    pub(crate) fn from(
        font: &'a Font<'a>,
        sidebearings: &'a Sidebearings,
        waivers: &'a Waivers<'a>,
        mark: Mark,
    ) -> Course<'a>
        requires { AreOf font.now sidebearings.now }
        ensures course { IsCourse result }
        ensures aim { aim_of result.search ≡ record {
          font = checked font.now sidebearings.now.edition;
          waivers = waivers.now;
          from = mark.unit;
          first = mark.step;
        } }
        ensures unit { result.search.unit ≡ mark.unit }
        ensures mark { result.mark ≡ mark }
        ensures turns { turns_so_far result.search ≡ 0 }
    {
        Course {
            search: Search::from(font, sidebearings, waivers, mark.unit, mark.step),
            found: Found {
                unit: mark.unit,
                step: mark.step,
                path: ArrayVec::new(),
                rules: Mask::empty(),
            },
            mark,
        }
    }

    pub(crate) fn mark(&self) -> Mark
        ensures { result ≡ self.now.mark }
    {
        self.mark
    }

    /// How many steps of machines were requested.
    pub(crate) fn turns(&self) -> u64
        requires { IsCourse self.now }
        ensures turns { result ≡ turns_so_far self.now.search }
        ensures few { result ≤ (step_limit (checked_in self.now.search) + 1)
            * (length self.now.search.font.now.glyphs + length self.now.search.waivers.now) }
    {
        self.search.turns()
    }

    /// The next fault after the mark.
    pub(crate) fn next(&mut self) -> Option<Fault>
        requires { IsCourse self.old }
        ensures next { MatchOption result (HasNoneLater (checked_in self.old.search) self.old.search.waivers.now self.old.mark)
            (λ fault. IsNext (checked_in self.old.search) self.old.search.waivers.now self.old.mark (fault_value fault)) }
        ensures mark { self.new.mark ≡ mark_after self.old.mark result }
        ensures turns { turns_so_far self.new.search ≡ turns_after (checked_in self.old.search) self.old.search.waivers.now
            self.old.search.from self.old.search.first result }
        ensures course { IsCourse self.new }
        ensures aim { aim_of self.new.search ≡ aim_of self.old.search }
    {
        loop {
            if let Some(fault) = self.next_in_hand() {
                return Some(fault);
            }
            match self.search.next() {
                Some(found) => self.found = found,
                None => {
                    self.found.rules = Mask::empty();
                    return None;
                }
            }
        }
    }

    /// The next fault after the mark in the unit that is searched.
    pub(crate) fn next_in_unit(&mut self) -> Option<Fault>
        requires { IsUnitCourse self.old }
        ensures next { MatchOption result
            (HasNoneLaterInUnit (checked_in self.old.search) self.old.search.waivers.now self.old.search.unit self.old.mark)
            (λ fault. IsNextInUnit (checked_in self.old.search) self.old.search.waivers.now self.old.search.unit self.old.mark
            (fault_value fault)) }
        ensures mark { self.new.mark ≡ mark_after self.old.mark result }
        ensures turns { turns_so_far self.new.search ≡ turns_after_in (checked_in self.old.search) self.old.search.waivers.now
            self.old.search.unit result }
        ensures course { IsUnitCourse self.new }
        ensures unit { self.new.search.unit ≡ self.old.search.unit }
        ensures aim { aim_of self.new.search ≡ aim_of self.old.search }
    {
        loop {
            if let Some(fault) = self.next_in_hand() {
                return Some(fault);
            }
            match self.search.next_in_unit() {
                Some(found) => self.found = found,
                None => {
                    self.found.rules = Mask::empty();
                    return None;
                }
            }
        }
    }

    /// The next fault after the mark of those in hand; then it is the mark.
    fn next_in_hand(&mut self) -> Option<Fault>
        requires { IsCourse self.old }
        ensures next { MatchOption result (AreToBeFound self.new.search self.new.mark)
            (λ fault. IsNext (checked_in self.old.search) self.old.search.waivers.now self.old.mark (fault_value fault)) }
        ensures turns { IfSome result (λ fault. turns_so_far self.old.search ≡ turns_at (checked_in self.old.search)
            self.old.search.waivers.now self.old.search.from self.old.search.first fault.unit fault.step) }
        ensures unit { IfSome result (λ fault. fault.unit ≡ self.old.search.unit) }
        ensures mark { self.new.mark ≡ mark_after self.old.mark result }
        ensures course { IsCourse self.new }
        ensures search { self.new.search ≡ self.old.search }
    {
        let floor = floor(self.mark, self.found.unit, self.found.step);
        if let Some(rule) = self.found.rules.above(floor) {
            let fault = fault_in(&self.found, rule, self.mark.number);
            self.mark = mark_at(&fault);
            Some(fault)
        } else {
            None
        }
    }
}

/// A number of a rule: of the rules of a place those above it come after the mark.
fn floor(mark: Mark, unit: u32, step: u32) -> u8
    ensures { IsFloor mark unit step result }
{
    if unit < mark.unit || unit == mark.unit && step < mark.step {
        u8::MAX
    } else if unit == mark.unit && step == mark.step {
        mark.rule
    } else {
        0
    }
}

/// The fault of one of the rules in hand, after the fault of a number.
fn fault_in(found: &Found, rule: Rule, number: u64) -> Fault
    ensures number { result.number ≡ one_more number }
    ensures unit { result.unit ≡ found.now.unit }
    ensures step { result.step ≡ found.now.step }
    ensures rule { result.rule ≡ rule }
    ensures path { result.path.items ≡ found.now.path.items }
{
    Fault {
        number: number.saturating_add(1),
        unit: found.unit,
        step: found.step,
        rule,
        path: copy_of(&found.path),
    }
}

/// The mark of a fault.
fn mark_at(fault: &Fault) -> Mark
    ensures { result ≡ mark_of (fault_value fault.now) }
{
    Mark {
        number: fault.number,
        unit: fault.unit,
        step: fault.step,
        rule: fault.rule.number(),
    }
}
