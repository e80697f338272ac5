//! Lines that are kept until their font is done, and then written by groups.

ghost use Rattle.std.specs.Prelude.{◌≡◌, ◌++◌, ◌==◌, ◌&&◌, IfOk, None};
ghost use Rattle.t1_printers.specs.Grouping.{GroupedTakes, TellsUnchecked, WritesGroups};
ghost use Rattle.t1_printers.specs.GroupLines.{group_lines};
ghost use Rattle.t1_printers.specs.Held.{held_line};
ghost use Rattle.t1_printers.specs.Printing.{grouping_by};
ghost use Rattle.t1_printers.specs.RuleGroups.{group_of, group_values, values_of, with_line};
ghost use Rattle.t1_many.specs.Handing.{lost_of};
ghost use Rattle.t1_report.specs.Faults.{fault_value};
ghost use Rattle.t1_report.specs.Lines.{IsInFont};

use crate::form::GroupForm;
use crate::groups::Groups;
use crate::lines::group_lines;
use std::alloc::{AllocError, Global};
use t1_font::Font;
use t1_io::{Sink, deliver};
use t1_many::{FontError, Lost, Printer, tell_unchecked, told_text};
use t1_reasons::ReportReasons;
use t1_report::{Fault, Waivers};
use t1_rules::Rule;
use t1_run::Streams;
use t1_summary::FontClass;

/// Keeps the lines of a font in groups, and writes these once the font is done. A refusal is written, and why a font wasn't checked is also
/// printed on standard error, first. After each font the output is flushed.
#[derive(Drop)]
pub struct Grouped<T: GroupForm, W: Sink, E: Sink> {
    /// How groups are written.
    pub form: T,
    /// The output and standard error.
    pub streams: Streams<W, E>,
    alloc: Global,
    groups: Option<Groups>,
}

impl<T: GroupForm, W: Sink, E: Sink> Grouped<T, W, E> {
    /// A form that was given nothing yet.
    pub fn new(alloc: Global, form: T, streams: Streams<W, E>) -> Grouped<T, W, E>
        ensures form { result.form ≡ form }
        ensures streams { result.streams ≡ streams }
        ensures groups { result.groups ≡ None }
    {
        Grouped {
            form,
            streams,
            alloc,
            groups: None,
        }
    }

    /// Prints on standard error that what has this name wasn't checked, as `NAME: t1check: REASON`, and then writes what the form writes of
    /// it.
    pub fn unchecked(&mut self, name: &str, reason: &str) -> Result<(), Lost>
        ensures told { TellsUnchecked (T.writing self.old.form)
            (grouping_by W.state E.state (T.writing self.old.form).room self.old) (grouping_by W.state E.state (T.writing self.old.form).room self.new)
            name.now reason.now (lost_of result) }
        ensures form { self.new.form ≡ self.old.form }
        ensures groups { self.new.groups ≡ self.old.groups }
    {
        tell_unchecked(&mut self.streams.errors, name, reason)?;
        self.form
            .put_unchecked(self.alloc, &mut self.streams.out, name, reason)
    }

    /// Writes the groups of a font, and empties them.
    fn write_groups(&mut self, name: &str) -> Result<(), Lost>
        ensures form { self.new.form ≡ self.old.form }
        ensures written { WritesGroups (T.writing self.old.form)
            (grouping_by W.state E.state (T.writing self.old.form).room self.old) (grouping_by W.state E.state (T.writing self.old.form).room self.new)
            name.now (lost_of result) }
    {
        let groups = self.groups.take();
        let Ok(text) = lines_of(self.alloc, &self.form, groups, name) else {
            return Err(Lost::Memory);
        };
        deliver(&mut self.streams.out, text.as_slice())?;
        Ok(())
    }
}

impl<T: GroupForm, W: Sink, E: Sink> Printer for Grouped<T, W, E> {
    ghost use Rattle.t1_many.specs.declared.policy.Lost.{Lost};

    ghost takes = { λ old new handed lost. (new.form ≡ old.form) × GroupedTakes (T.writing old.form)
        (grouping_by W.state E.state (T.writing old.form).room old) (grouping_by W.state E.state (T.writing old.form).room new) handed lost };

    fn line(
        &mut self,
        _name: &str,
        font: &Font<'_>,
        waivers: &Waivers<'_>,
        fault: &Fault,
        reasons: &mut ReportReasons<'_>,
    ) -> Result<(), Lost> {
        let groups = self.groups.take();
        match with_fault(
            self.alloc, &self.form, groups, font, waivers, fault, reasons,
        ) {
            Ok(groups) => {
                self.groups = Some(groups);
                Ok(())
            }
            Err(_) => Err(Lost::Memory),
        }
    }

    fn failure(&mut self, name: &str, reason: FontError) -> Result<(), Lost> {
        match reason {
            FontError::Refused(code) => {
                self.form
                    .put_refusal(self.alloc, &mut self.streams.out, name, code)
            }
            FontError::Unchecked(why) => self.unchecked(name, why.text().as_str()),
        }
    }

    fn done(&mut self, name: &str, _found: FontClass) -> Result<(), Lost> {
        self.write_groups(name)
    }
}

/// The groups with the line of a fault, in new groups if there are none yet. Only the reason of a rule's first line is requested.
fn with_fault<T: GroupForm>(
    alloc: Global,
    form: &T,
    groups: Option<Groups>,
    font: &Font<'_>,
    waivers: &Waivers<'_>,
    fault: &Fault,
    reasons: &mut ReportReasons<'_>,
) -> Result<Groups, AllocError>
    requires in_font { IsInFont font.now waivers.now (fault_value fault.now) }
    requires font { reasons.old.value ≡ font.now }
    ensures added { IfOk result (λ g. group_values g ≡ with_line (values_of (T.writing form.now).room groups)
        (held_line (T.writing form.now).reasons reasons.old waivers.now (fault_value fault.now))) }
    ensures same { reasons.new ≡ reasons.old }
{
    let mut groups = groups_of(alloc, form.room(), groups)?;
    let is_told = requests_reason(form, &groups, fault.rule);
    let Ok(reason) = told_text(is_told, font, waivers, fault, reasons) else {
        return Err(AllocError);
    };
    groups.add_fault(alloc, font, waivers, fault, &reason)?;
    Ok(groups)
}

/// Whether the reason of a line is requested: it is the first of its rule, and reasons are written.
fn requests_reason<T: GroupForm>(form: &T, groups: &Groups, rule: Rule) -> bool
    ensures { result ≡ ((group_of (group_values groups.now) rule).count == 0 && (T.writing form.now).reasons) }
{
    groups.group(rule).is_empty() && form.reasons()
}

/// The groups, or new ones.
fn groups_of(alloc: Global, room: usize, groups: Option<Groups>) -> Result<Groups, AllocError>
    ensures { IfOk result (λ g. group_values g ≡ values_of room groups) }
{
    match groups {
        Some(groups) => Ok(groups),
        None => Groups::new(alloc, room),
    }
}

/// The lines of the groups, if there are some.
fn lines_of<T: GroupForm>(
    alloc: Global,
    form: &T,
    groups: Option<Groups>,
    name: &str,
) -> Result<Vec<u8>, AllocError>
    ensures { IfOk result (λ t. t.items ≡ group_lines ((T.writing form.now).line name.now) (values_of (T.writing form.now).room groups)) }
{
    match groups {
        Some(groups) => group_lines(alloc, form, &groups, name),
        None => Ok(Vec::new(alloc)),
    }
}
