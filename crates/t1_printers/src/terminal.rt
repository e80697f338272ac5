//! Lines on a terminal.

ghost use Rattle.std.specs.Prelude.{◌≡◌, ◌++◌, IfOk, OnOk, string_bytes};
ghost use Rattle.t1_printers.specs.Groups.{group_value};
ghost use Rattle.t1_printers.specs.Terminals.{colour_of, coloured, name_part, terminal_refusal, terminal_writing};

use crate::form::GroupForm;
use crate::group::Group;
use crate::names::terminal_name;
use crate::rule_parts::{push_head, tail};
use crate::width::width;
use crate::wrapped::push_reason;
use std::alloc::{AllocError, Global};
use t1_font::{RefusalCode, refusal_text};
use t1_io::{Sink, put_all};
use t1_many::Lost;
use t1_rules::{Level, Rule, rule_level};

/// A line for each font and rule: `NAME: RULE TEXT × COUNT: NAMES`, and the reason of the first fault below it. Names have bytes that a terminal
/// can't show as `\xNN`.
#[derive(Clone, Copy, Debug)]
pub struct Terminal {
    /// The characters that a line has at most, unless those before the names are more.
    pub width: usize,
    /// Whether the level of a rule is shown by a colour.
    pub has_colours: bool,
    /// Whether the reason of the first fault is below its line, in as many lines as its words need, each after three blanks.
    pub reasons: bool,
}

impl GroupForm for Terminal {
    ghost writing = { λ terminal. terminal_writing terminal.width terminal.has_colours terminal.reasons };

    fn room(&self) -> usize {
        self.width
    }

    fn reasons(&self) -> bool {
        self.reasons
    }

    fn push_line(
        &self,
        alloc: Global,
        text: &mut Vec<u8>,
        name: &str,
        rule: Rule,
        group: &Group,
    ) -> Result<(), AllocError> {
        let name = name_part(alloc, name)?;
        let room = self.width.saturating_sub(width(name.as_bytes()));
        let tail = tail(alloc, room, rule, group)?;
        let mut head = Vec::new(alloc);
        push_head(&mut head, rule)?;
        text.extend_from_slice(name.as_bytes())?;
        push_coloured(text, self.has_colours, rule_level(rule), head.as_slice())?;
        text.extend_from_slice(tail.as_slice())?;
        push_reason(alloc, text, self.width, group.reason())?;
        text.extend_from_slice(b"\n")
    }

    fn put_refusal<W: Sink>(
        &self,
        alloc: Global,
        sink: &mut W,
        name: &str,
        code: RefusalCode,
    ) -> Result<(), Lost> {
        let Ok(line) = refusal_line(alloc, self.has_colours, name, code) else {
            return Err(Lost::Memory);
        };
        Ok(put_all(sink, line.as_slice())?)
    }

    fn put_unchecked<W: Sink>(
        &self,
        _alloc: Global,
        _sink: &mut W,
        _name: &str,
        _reason: &str,
    ) -> Result<(), Lost> {
        Ok(())
    }
}

/// `NAME: `.
fn name_part(alloc: Global, name: &str) -> Result<String, AllocError>
    ensures { IfOk result (λ t. string_bytes t ≡ name_part name.now) }
{
    let mut text = terminal_name(alloc, name.as_bytes())?;
    text.push_str(": ")?;
    Ok(text)
}

/// The sequence that switches to the colour of a level.
fn colour(level: Level) -> &'static [u8]
    ensures { result.now ≡ colour_of level }
{
    match level {
        Level::Must => b"\x1b[31m",
        Level::Should => b"\x1b[33m",
        Level::Tidy => b"\x1b[36m",
    }
}

/// Appends a text, in the colour of a level if there are colours.
fn push_coloured(
    text: &mut Vec<u8>,
    has_colours: bool,
    level: Level,
    part: &[u8],
) -> Result<(), AllocError>
    ensures { OnOk result (text.new.items ≡ text.old.items ++ coloured has_colours level part.now) }
{
    if !has_colours {
        return text.extend_from_slice(part);
    }
    text.extend_from_slice(colour(level))?;
    text.extend_from_slice(part)?;
    text.extend_from_slice(b"\x1b[0m")
}

/// `NAME: refused: CODE TEXT`.
fn refusal_line(
    alloc: Global,
    has_colours: bool,
    name: &str,
    code: RefusalCode,
) -> Result<Vec<u8>, AllocError>
    ensures { IfOk result (λ t. t.items ≡ terminal_refusal has_colours name.now code) }
{
    let mut refusal = Vec::from_slice(alloc, b"refused: ")?;
    refusal.extend_from_slice(refusal_text(code).as_bytes())?;
    let name = name_part(alloc, name)?;
    let mut text = Vec::from_slice(alloc, name.as_bytes())?;
    push_coloured(&mut text, has_colours, Level::Must, refusal.as_slice())?;
    text.extend_from_slice(b"\n")?;
    Ok(text)
}
