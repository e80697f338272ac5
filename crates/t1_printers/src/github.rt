//! Commands of a workflow of GitHub: one for a font and a rule, and one for what is reported by itself.

ghost use Rattle.std.specs.Prelude.{◌≡◌, ◌++◌, IfOk, None, OnOk, Some, option_map, true};
ghost use Rattle.t1_forms.specs.Commands.{command_of};
ghost use Rattle.t1_forms.specs.Tellings.{what_value};
ghost use Rattle.t1_printers.specs.Commands.{command_writing, command_written, group_message, message_reason, message_room};
ghost use Rattle.t1_printers.specs.Formatting.{nothing_ends};
ghost use Rattle.t1_printers.specs.GroupLines.{rule_tail};
ghost use Rattle.t1_many.specs.Plain.{IsLinePut};
ghost use Rattle.t1_printers.specs.Groups.{group_value};
ghost use Rattle.t1_many.specs.Handing.{lost_of};

use crate::form::GroupForm;
use crate::formatter::Formatter;
use crate::group::Group;
use crate::rule_parts::{push_head, tail};
use std::alloc::{AllocError, Global};
use t1_font::{RefusalCode, refusal_text};
use t1_forms::{Text, Told, What, write_command, write_rule_command};
use t1_io::Sink;
use t1_lines::Line;
use t1_many::Lost;
use t1_rules::Rule;
use t1_summary::FontClass;

/// The width of a message.
const ROOM: usize = 120;

/// A command for each font and rule, and one for each font that was refused or wasn't checked. GitHub shows ten commands of a step.
#[derive(Clone, Copy, Debug)]
pub struct GitHubGroups {
    /// Whether the reason of the first fault is in the command, on a line of its own.
    pub reasons: bool,
}

/// Writes each as a command that shows it at the font. Nothing is before or after all commands.
#[derive(Clone, Copy, Debug)]
pub struct GitHubCommands;

impl Formatter for GitHubCommands {
    ghost has_lines = { true };

    ghost writes = { command_written };

    ghost ends = { nothing_ends };

    ghost finishes = { λ _ old new lost. (new ≡ old) × (lost ≡ None) };

    fn shows_lines() -> bool {
        true
    }

    fn write<W: Sink>(
        &mut self,
        _alloc: Global,
        sink: &mut W,
        told: &Told<'_>,
    ) -> Result<(), Lost> {
        Ok(write_command(sink, told)?)
    }

    fn end_font<W: Sink>(
        &mut self,
        _alloc: Global,
        _sink: &mut W,
        _name: &str,
        _found: FontClass,
    ) -> Result<(), Lost> {
        Ok(())
    }

    fn finish<W: Sink>(self, _alloc: Global, _sink: &mut W) -> Result<(), Lost> {
        Ok(())
    }
}

impl GroupForm for GitHubGroups {
    ghost writing = { λ commands. command_writing commands.reasons };

    fn room(&self) -> usize {
        ROOM
    }

    fn reasons(&self) -> bool {
        self.reasons
    }

    fn push_line(
        &self,
        alloc: Global,
        text: &mut Vec<u8>,
        name: &str,
        rule: Rule,
        group: &Group,
    ) -> Result<(), AllocError> {
        let message = message_of(alloc, rule, group)?;
        let mut command = Text::new(alloc);
        if write_rule_command(
            &mut command,
            Some(name.as_bytes()),
            rule,
            message.as_slice(),
        )
        .is_err()
        {
            return Err(AllocError);
        }
        let command = command.into_bytes();
        text.extend_from_slice(command.as_slice())
    }

    fn put_refusal<W: Sink>(
        &self,
        alloc: Global,
        sink: &mut W,
        name: &str,
        code: RefusalCode,
    ) -> Result<(), Lost> {
        let Ok(line) = line_of(alloc, b"refused: ", refusal_text(code).as_bytes()) else {
            return Err(Lost::Memory);
        };
        put_told(sink, name, What::Line(Line::Refusal(code)), line.as_slice())
    }

    fn put_unchecked<W: Sink>(
        &self,
        alloc: Global,
        sink: &mut W,
        name: &str,
        reason: &str,
    ) -> Result<(), Lost> {
        let Ok(line) = line_of(alloc, b"t1check: ", reason.as_bytes()) else {
            return Err(Lost::Memory);
        };
        let what = What::Unchecked(reason.as_bytes());
        put_told(sink, name, what, line.as_slice())
    }
}

/// Writes the command of what is reported of a font in a line.
fn put_told<'a, W: Sink>(
    sink: &mut W,
    name: &'a str,
    what: What<'a>,
    line: &'a [u8],
) -> Result<(), Lost>
    ensures { IsLinePut (W.state sink.old) (W.state sink.new)
        (command_of (record { font = Some name.now; what = what_value what.entry; reason = None }) line.now) (lost_of result) }
{
    let told = Told {
        font: Some(name.as_bytes()),
        what,
        line,
        reason: None,
    };
    Ok(write_command(sink, &told)?)
}

/// What the command of a rule shows.
fn message_of(alloc: Global, rule: Rule, group: &Group) -> Result<Vec<u8>, AllocError>
    ensures { IfOk result (λ t. t.items
        ≡ group_message rule (rule_tail message_room rule (group_value group.now)) (group_value group.now).reason) }
{
    let mut text = Vec::new(alloc);
    push_head(&mut text, rule)?;
    let tail = tail(alloc, ROOM, rule, group)?;
    text.extend_from_slice(tail.as_slice())?;
    push_reason(&mut text, group.reason())?;
    Ok(text)
}

/// Appends the text of a reason, if there is one, on a line of its own.
fn push_reason(text: &mut Vec<u8>, reason: Option<&str>) -> Result<(), AllocError>
    ensures { OnOk result (text.new.items ≡ text.old.items ++ message_reason (option_map (λ t. t.now) reason.entry)) }
{
    let Some(reason) = reason else {
        return Ok(());
    };
    text.extend_from_slice(b"\n")?;
    text.extend_from_slice(reason.as_bytes())
}

/// The line that a command shows.
fn line_of(alloc: Global, word: &[u8], rest: &[u8]) -> Result<Vec<u8>, AllocError>
    ensures { IfOk result (λ t. t.items ≡ word.now ++ rest.now) }
{
    let mut text = Vec::from_slice(alloc, word)?;
    text.extend_from_slice(rest)?;
    Ok(text)
}
