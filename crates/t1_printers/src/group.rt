//! The lines of a font that break one rule.

ghost use Rattle.std.specs.Prelude.{◌≡◌, ◌++◌, ◌-◌, ◌==◌, ◌≤◌, IfOk, OnOk, length, map, option_map, string_bytes, take};
ghost use Rattle.t1_printers.specs.Groups.{added, empty_group, group_value, tail_at, tail_of, with_kept, with_run};
ghost use Rattle.t1_printers.specs.TerminalNames.{terminal_name};
ghost use Rattle.t1_printers.specs.Tails.{count_text, more_text, names_text};

use crate::names::terminal_name;
use crate::unit::{UnitNumber, begins_run};
use crate::width::width;
use itoa::Buffer;
use std::alloc::{AllocError, Global};
use t1_reason_texts::ShortText;

/// The lines of a font that break one rule: how many there are, the names of the first units, and the reason of the first line.
#[derive(Drop)]
pub struct Group {
    count: u64,
    runs: u64,
    last: Option<UnitNumber>,
    names: Vec<String>,
    left: usize,
    reason: Option<ShortText>,
}

impl Group {
    /// A group of no line, with room for names.
    pub(crate) fn new(alloc: Global, room: usize) -> Group
        ensures { group_value result ≡ empty_group room }
    {
        Group {
            count: 0,
            runs: 0,
            last: None,
            names: Vec::new(alloc),
            left: room,
            reason: None,
        }
    }

    /// Whether there is no line.
    pub(crate) fn is_empty(&self) -> bool
        ensures { result ≡ (self.now.count == 0) }
    {
        self.count == 0
    }

    /// Adds a line at a unit of this name, and keeps its reason if it is the first. It fails where memory runs out, and after 2^64 - 1 lines.
    pub(crate) fn add(
        &mut self,
        alloc: Global,
        number: UnitNumber,
        name: &[u8],
        reason: &Option<ShortText>,
    ) -> Result<(), AllocError>
        ensures { OnOk result (group_value self.new
            ≡ added (group_value self.old) number (terminal_name name.now) (option_map (λ t. t.bytes) reason.now)) }
    {
        let Some(count) = self.count.checked_add(1) else {
            return Err(AllocError);
        };
        if begins_run(self.last, number) {
            self.add_run(alloc, name)?;
        }
        if self.count == 0 {
            self.reason = *reason;
        }
        self.count = count;
        self.last = Some(number);
        Ok(())
    }

    /// Adds a run of lines.
    fn add_run(&mut self, alloc: Global, name: &[u8]) -> Result<(), AllocError>
        ensures { OnOk result (group_value self.new ≡ with_run (group_value self.old) (terminal_name name.now)) }
    {
        let Some(runs) = self.runs.checked_add(1) else {
            return Err(AllocError);
        };
        if self.names.len() as u64 == self.runs {
            self.keep(terminal_name(alloc, name)?)?;
        }
        self.runs = runs;
        Ok(())
    }

    /// Keeps a name, if there is room for it.
    fn keep(&mut self, name: String) -> Result<(), AllocError>
        ensures { OnOk result (group_value self.new ≡ with_kept (group_value self.old) (string_bytes name)) }
    {
        let width = width(name.as_bytes());
        if width < self.left.saturating_sub(1) {
            self.names.push(name)?;
            self.left -= width + 2;
        }
        Ok(())
    }

    /// The text of the first line's reason, if it has one.
    pub(crate) fn reason(&self) -> Option<&str>
        ensures { option_map (λ t. t.now) result ≡ (group_value self.now).reason }
    {
        match &self.reason {
            Some(text) => Some(text.as_str()),
            None => None,
        }
    }

    /// The count and as many names as the room has, and how many more there are.
    pub(crate) fn tail(&self, alloc: Global, room: usize) -> Result<Vec<u8>, AllocError>
        ensures { IfOk result (λ t. t.items ≡ tail_of room (group_value self.now)) }
    {
        let mut text = Vec::new(alloc);
        let mut shown = self.names.len();
        self.push_tail(&mut text, shown)?;
        while shown > 0 && width(text.as_slice()) > room {
            shown -= 1;
            text.clear();
            self.push_tail(&mut text, shown)?;
        }
        Ok(text)
    }

    /// Appends the count and so many names, and how many more there are.
    fn push_tail(&self, text: &mut Vec<u8>, shown: usize) -> Result<(), AllocError>
        requires { shown ≤ length self.now.names.items }
        ensures { OnOk result (text.new.items ≡ text.old.items ++ tail_at (group_value self.now) shown) }
    {
        push_count(text, self.count)?;
        push_names(text, &self.names.as_slice()[..shown])?;
        push_more(text, self.runs.saturating_sub(shown as u64))
    }
}

/// Appends how many lines there are.
fn push_count(text: &mut Vec<u8>, count: u64) -> Result<(), AllocError>
    ensures { OnOk result (text.new.items ≡ text.old.items ++ count_text count) }
{
    text.extend_from_slice(b" \xc3\x97 ")?;
    text.extend_from_slice(Buffer::new().format(count).as_bytes())?;
    text.extend_from_slice(b":")
}

/// Appends names.
fn push_names(text: &mut Vec<u8>, names: &[String]) -> Result<(), AllocError>
    ensures { OnOk result (text.new.items ≡ text.old.items ++ names_text (map string_bytes names.now)) }
{
    let mut separator = b" ".as_slice();
    for name in names {
        text.extend_from_slice(separator)?;
        text.extend_from_slice(name.as_bytes())?;
        separator = b", ";
    }
    Ok(())
}

/// Appends how many more there are.
fn push_more(text: &mut Vec<u8>, more: u64) -> Result<(), AllocError>
    ensures { OnOk result (text.new.items ≡ text.old.items ++ more_text more) }
{
    if more == 0 {
        return Ok(());
    }
    text.extend_from_slice(b" \xe2\x80\xa6 and ")?;
    text.extend_from_slice(Buffer::new().format(more).as_bytes())?;
    text.extend_from_slice(b" more")
}
