//! The faults that are shown: where their marks are, what their reasons name, and their lines.

ghost use Rattle.std.specs.Prelude.{◌≡◌, ◌+◌, ◌++◌, IfOk, None, OnOk, List, [], nat_le, string_bytes};
ghost use Rattle.t1_picture.specs.Drawings.{own_part, texts_of};
ghost use Rattle.t1_picture.specs.Private.FaultViews.{AreAdded, counted};
ghost use Rattle.t1_picture.specs.Marks.{AreFaultsOf, AreGlyphFaults, AreShownOf, fault_layers_view, fault_lines, faults_view, reason_line, reason_lines, reason_of, waived_of};
ghost use Rattle.t1_picture.specs.Parts.{start_of};
ghost use Rattle.t1_picture.specs.Subjects.{subject_of};
ghost use Rattle.t1_picture.specs.Texts.{legible_line};
ghost use Rattle.t1_picture.specs.Views.{CanBeDrawn};
ghost use Rattle.t1_report.specs.Faults.{FaultValue, fault_value};
ghost use Rattle.t1_report.specs.Lines.{IsInFont, line_of};

use crate::causes::{Cause, StemPlace, add_causes};
use crate::directions::Directions;
use crate::marks::{FaultMark, Marks};
use crate::one_fault::fault_alone;
use crate::run::Run;
use crate::texts::{add_line, written_line};
use crate::view::{Shown, View};
use std::alloc::{AllocError, Global};
use t1_font::Font;
use t1_forms::Text;
use t1_reason_texts::{ReasonText, says_more};
use t1_reasons::{GlyphReasons, Reason};
use t1_report::{Fault, UnitFaults, Waivers, write_fault};
use t1_rules::{Point, Rule};

/// The faults that are shown.
#[derive(Drop)]
pub(crate) struct Faults {
    pub(crate) marks: Vec<FaultMark>,
    /// What their reasons name.
    pub(crate) causes: Vec<Cause>,
    /// Their lines, as t1check writes them, without ends; after each why its rule is broken, if that says more.
    pub(crate) lines: Vec<String>,
    /// How many faults aren't marked, since they are waived.
    pub(crate) waived: u64,
}

/// What faults draw.
#[derive(Clone, Copy)]
pub(crate) struct FaultLayers<'a> {
    pub(crate) marks: &'a [FaultMark],
    /// What their reasons name.
    pub(crate) causes: &'a [Cause],
    /// The outlines of the components among that, as data of a path.
    pub(crate) components: &'a str,
}

impl Faults {
    /// Those that a view shows, given what the positions of its glyph's stems count from.
    pub(crate) fn of(alloc: Global, view: &View<'_>, start: Point) -> Result<Faults, AllocError>
        requires view { CanBeDrawn view.now }
        requires start { start ≡ start_of (own_part (subject_of view.now)) }
        ensures { IfOk result (λ faults. AreFaultsOf (subject_of view.now) (faults_view faults)) }
    {
        match &view.shown {
            Shown::Fault(fault) => fault_alone(alloc, view, start, fault),
            Shown::All | Shown::UpTo(_) => Faults::of_glyph(alloc, view, start),
        }
    }

    /// What they draw, with the outlines of the components among what their reasons name.
    pub(crate) fn layers<'a>(&'a self, components: &'a str) -> FaultLayers<'a>
        ensures { fault_layers_view result
            ≡ record { marks = self.now.marks.items; causes = self.now.causes.items; components = components.now } }
    {
        FaultLayers {
            marks: self.marks.as_slice(),
            causes: self.causes.as_slice(),
            components,
        }
    }

    /// Those of a glyph, up to the last step that is drawn.
    fn of_glyph(alloc: Global, view: &View<'_>, start: Point) -> Result<Faults, AllocError>
        requires view { CanBeDrawn view.now }
        requires start { start ≡ start_of (own_part (subject_of view.now)) }
        ensures { IfOk result (λ faults. AreGlyphFaults (subject_of view.now) (faults_view faults)) }
    {
        let unit = unit_of(view);
        let mut marks = Marks::new(alloc);
        let mut causes = Vec::new(alloc);
        let mut lines = Vec::new(alloc);
        add_faults(alloc, view, start, &mut marks, &mut causes, &mut lines)?;
        Ok(Faults {
            marks: marks.finish()?,
            causes,
            lines,
            waived: waived_faults(view, unit),
        })
    }
}

/// Adds the marks of the faults of a glyph, what their reasons name, and their lines, up to the last step that is drawn.
fn add_faults(
    alloc: Global,
    view: &View<'_>,
    start: Point,
    marks: &mut Marks,
    causes: &mut Vec<Cause>,
    lines: &mut Vec<String>,
) -> Result<(), AllocError>
    requires view { CanBeDrawn view.now }
    requires start { start ≡ start_of (own_part (subject_of view.now)) }
    requires marks { marks.old.done.items ≡ [] }
    requires last { marks.old.last ≡ None }
    requires causes { causes.old.items ≡ [] }
    requires lines { lines.old.items ≡ [] }
    ensures { OnOk result (AreAdded (subject_of view.now) marks.new causes.new.items (texts_of lines.new.items)) }
{
    let unit = unit_of(view);
    let mut course = UnitFaults::of(view.font, view.sidebearings, view.waivers, unit);
    let mut run = Run::start(view.font, view.glyph, view.edition());
    let mut reasons = GlyphReasons::start(view.font, view.glyph, view.edition());
    let mut directions = Directions::start(view.font, view.glyph, view.edition());
    for _fault in 0..u64::MAX {
        let Some(fault) = course.next() else {
            return Ok(());
        };
        if !is_drawn(fault.step, view.last()) {
            return Ok(());
        }
        run.go_to(fault.step.saturating_sub(1));
        marks.mark(run.point(), fault.number)?;
        let reason = reasons.reason(view.sidebearings, fault.step, fault.rule);
        let place = StemPlace::of(view, start, directions.at(fault.step));
        add_causes(place, fault.rule, reason, causes)?;
        add_lines(alloc, view, &fault, reason, lines)?;
    }
    Ok(())
}

/// Whether a step is drawn, given the last one that is.
fn is_drawn(step: u32, last: u64) -> bool
    ensures { result ≡ nat_le step last }
{
    u64::from(step) <= last
}

/// Adds the line of a fault, and why its rule is broken.
pub(crate) fn add_lines(
    alloc: Global,
    view: &View<'_>,
    fault: &Fault,
    reason: Option<Reason>,
    lines: &mut Vec<String>,
) -> Result<(), AllocError>
    requires in_font { IsInFont view.now.font.now view.now.waivers.now (fault_value fault.now) }
    requires reason { reason ≡ reason_of (subject_of view.now) (fault_value fault.now) }
    ensures { OnOk result (texts_of lines.new.items
        ≡ texts_of lines.old.items ++ fault_lines (subject_of view.now) (fault_value fault.now)) }
{
    add_line(lines, line_of(alloc, view, fault)?)?;
    add_reason(alloc, view.font, fault.rule, reason, lines)
}

/// Adds why a rule is broken, if that says more than the line.
fn add_reason(
    alloc: Global,
    font: &Font<'_>,
    rule: Rule,
    reason: Option<Reason>,
    lines: &mut Vec<String>,
) -> Result<(), AllocError>
    ensures { OnOk result (texts_of lines.new.items ≡ texts_of lines.old.items ++ reason_lines font.now rule reason) }
{
    let Some(reason) = reason else {
        return Ok(());
    };
    if !says_more(reason) {
        return Ok(());
    }
    add_line(lines, reason_line(alloc, font, rule, reason)?)
}

/// Why a rule is broken, set off by three blanks.
fn reason_line(
    alloc: Global,
    font: &Font<'_>,
    rule: Rule,
    reason: Reason,
) -> Result<String, AllocError>
    ensures { IfOk result (λ line. string_bytes line ≡ reason_line font.now rule reason) }
{
    let text = ReasonText { font, rule, reason };
    format!(in alloc; "   {text}")
}

/// The unit of the glyph.
fn unit_of(view: &View<'_>) -> u32
    requires { CanBeDrawn view.now }
    ensures { result ≡ view.now.glyph + 1 }
{
    // This can't fail: a font has at most 65,535 glyphs.
    let _few = view.font.glyphs().len();
    view.glyph as u32 + 1
}

/// How many of a unit's faults are waived, up to the last step that is drawn. They are sought only where there are waivers.
fn waived_faults(view: &View<'_>, unit: u32) -> u64
    requires view { CanBeDrawn view.now }
    requires unit { unit ≡ view.now.glyph + 1 }
    ensures { (all : List FaultValue) → AreShownOf (subject_of view.now) [] all → result ≡ waived_of (subject_of view.now) all }
{
    if view.waivers.len() == 0 {
        return 0;
    }
    count_waived(view, unit)
}

fn count_waived(view: &View<'_>, unit: u32) -> u64
    requires view { CanBeDrawn view.now }
    requires unit { unit ≡ view.now.glyph + 1 }
    ensures { (all : List FaultValue) → AreShownOf (subject_of view.now) [] all → result ≡ waived_of (subject_of view.now) all }
{
    let mut waived = 0u64;
    let none = Waivers::none();
    let mut course = UnitFaults::of(&*view.font, &*view.sidebearings, &none, unit);
    for _fault in 0..u64::MAX {
        let Some(fault) = course.next() else {
            return waived;
        };
        if !is_drawn(fault.step, view.last()) {
            return waived;
        }
        waived = counted(waived, view.waivers.waives(view.name(), fault.rule));
    }
    waived
}

/// A count, with one more if it is waived.
fn counted(count: u64, is_waived: bool) -> u64
    ensures { result ≡ counted count is_waived }
{
    if is_waived {
        count.saturating_add(1)
    } else {
        count
    }
}

/// The line of a fault, without its end.
fn line_of(alloc: Global, view: &View<'_>, fault: &Fault) -> Result<String, AllocError>
    requires { IsInFont view.now.font.now view.now.waivers.now (fault_value fault.now) }
    ensures { IfOk result (λ line. string_bytes line
        ≡ legible_line (line_of view.now.font.now view.now.waivers.now (fault_value fault.now))) }
{
    let mut line = Text::new(alloc);
    if write_fault(&mut line, view.font, view.waivers, fault).is_err() {
        return Err(AllocError);
    }
    written_line(alloc, line.into_bytes())
}
