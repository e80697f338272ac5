//! A fault that is shown alone.

ghost use Rattle.std.specs.Prelude.{◌≡◌, ◌++◌, ◌==◌, IfOk, OnOk, [], if◌then◌else◌};
ghost use Rattle.std.specs.Option.{option_to_list};
ghost use Rattle.t1_picture.specs.Causes.{zone_at};
ghost use Rattle.t1_picture.specs.Drawings.{own_part};
ghost use Rattle.t1_picture.specs.Extents.{CanBeShown};
ghost use Rattle.t1_picture.specs.Marks.{causes_of, direction_at, fault_alone, faults_view, mark_alone, pen_at, place_of_stems, reason_of};
ghost use Rattle.t1_picture.specs.Parts.{start_of};
ghost use Rattle.t1_picture.specs.Subjects.{subject_of};
ghost use Rattle.t1_picture.specs.Views.{CanBeDrawn};
ghost use Rattle.t1_report.specs.Faults.{fault_value};

use crate::causes::{Cause, StemPlace, add_cause, add_causes, zone_at};
use crate::directions::Directions;
use crate::faults::{Faults, add_lines};
use crate::marks::{FaultMark, Marks};
use crate::run::Run;
use crate::view::View;
use std::alloc::{AllocError, Global};
use t1_drawing::Direction;
use t1_font::Font;
use t1_reasons::{Reason, ReportReasons};
use t1_report::Fault;
use t1_rules::Point;

/// A fault alone, given what the positions of the glyph's stems count from.
pub(crate) fn fault_alone(
    alloc: Global,
    view: &View<'_>,
    start: Point,
    fault: &Fault,
) -> Result<Faults, AllocError>
    requires view { CanBeDrawn view.now }
    requires fault { CanBeShown view.now.font.now view.now.waivers.now view.now.glyph (fault_value fault.now) }
    requires start { start ≡ start_of (own_part (subject_of view.now)) }
    ensures { IfOk result (λ faults. faults_view faults ≡ fault_alone (subject_of view.now) (fault_value fault.now)) }
{
    let reason = reason_of(view, fault);
    let mut causes = Vec::new(alloc);
    add_all_causes(view, start, fault, reason, &mut causes)?;
    let mut lines = Vec::new(alloc);
    add_lines(alloc, view, fault, reason, &mut lines)?;
    let mut marks = Vec::new(alloc);
    add_mark(view, fault, &mut marks)?;
    Ok(Faults {
        marks,
        causes,
        lines,
        waived: 0,
    })
}

/// Why the fault is there.
fn reason_of(view: &View<'_>, fault: &Fault) -> Option<Reason>
    requires view { CanBeDrawn view.now }
    requires fault { CanBeShown view.now.font.now view.now.waivers.now view.now.glyph (fault_value fault.now) }
    ensures { result ≡ reason_of (subject_of view.now) (fault_value fault.now) }
{
    ReportReasons::new(view.font, view.sidebearings).reason(view.waivers, fault)
}

/// Adds the zone of a fault of the font, and what its reason names.
fn add_all_causes(
    view: &View<'_>,
    start: Point,
    fault: &Fault,
    reason: Option<Reason>,
    causes: &mut Vec<Cause>,
) -> Result<(), AllocError>
    requires view { CanBeDrawn view.now }
    requires start { start ≡ start_of (own_part (subject_of view.now)) }
    requires reason { reason ≡ reason_of (subject_of view.now) (fault_value fault.now) }
    ensures { OnOk result (causes.new.items ≡ causes.old.items ++ causes_of (subject_of view.now) (fault_value fault.now)) }
{
    add_zone(view.font, fault, causes)?;
    let place = place_of_stems(view, start, fault);
    add_causes(place, fault.rule, reason, causes)
}

/// Adds the zone that a fault of the font is at.
fn add_zone(font: &Font<'_>, fault: &Fault, causes: &mut Vec<Cause>) -> Result<(), AllocError>
    ensures { OnOk result (causes.new.items ≡ causes.old.items
        ++ (if fault.now.unit == 0 then option_to_list (zone_at font.now fault.now.step) else [])) }
{
    if fault.unit == 0 {
        add_cause(causes, zone_at(font, fault.step))
    } else {
        Ok(())
    }
}

/// Where the stems of its step are.
fn place_of_stems(view: &View<'_>, start: Point, fault: &Fault) -> StemPlace
    requires view { CanBeDrawn view.now }
    requires start { start ≡ start_of (own_part (subject_of view.now)) }
    ensures { result ≡ place_of_stems (subject_of view.now) (fault_value fault.now) }
{
    StemPlace::of(view, start, direction_at(view, fault))
}

/// The direction of the stems that its step sets; None of a fault of the font.
fn direction_at(view: &View<'_>, fault: &Fault) -> Option<Direction>
    requires { CanBeDrawn view.now }
    ensures { result ≡ direction_at (subject_of view.now) (fault_value fault.now) }
{
    if fault.unit == 0 {
        return None;
    }
    Directions::start(view.font, view.glyph, view.edition()).at(fault.step)
}

/// Adds its mark; a fault of the font has none.
fn add_mark(view: &View<'_>, fault: &Fault, marks: &mut Vec<FaultMark>) -> Result<(), AllocError>
    requires { CanBeDrawn view.now }
    ensures { OnOk result (marks.new.items ≡ marks.old.items ++ mark_alone (subject_of view.now) (fault_value fault.now)) }
{
    if fault.unit == 0 {
        return Ok(());
    }
    marks.push(FaultMark {
        point: pen_at(view, fault.step),
        first: fault.number,
        last: fault.number,
    })?;
    Ok(())
}

/// Where the pen is before a step.
fn pen_at(view: &View<'_>, step: u32) -> Point
    requires { CanBeDrawn view.now }
    ensures { result ≡ pen_at (subject_of view.now) step }
{
    let mut run = Run::start(view.font, view.glyph, view.edition());
    run.go_to(step.saturating_sub(1));
    run.point()
}
