//! How the groups of a font are written.

ghost use Rattle.std.specs.Prelude.{◌≡◌, ◌++◌, OnOk};
ghost use Rattle.t1_printers.specs.GroupLines.{Writing};
ghost use Rattle.t1_many.specs.Plain.{IsLinePut};
ghost use Rattle.t1_printers.specs.Groups.{group_value};
ghost use Rattle.t1_many.specs.Handing.{lost_of};

use crate::group::Group;
use std::alloc::{AllocError, Global};
use t1_font::RefusalCode;
use t1_io::Sink;
use t1_many::Lost;
use t1_rules::Rule;

/// How the groups of a font are written, and why there are none.
pub trait GroupForm {
    ghost use Rattle.t1_printers.specs.GroupLines.{Writing};

    // What it writes.
    ghost writing: { Self → Writing };

    /// The room for the names of a group, in characters.
    fn room(&self) -> usize
        ensures { result ≡ (writing self.now).room };

    /// Whether the reason of a group's first line is written.
    fn reasons(&self) -> bool
        ensures { result ≡ (writing self.now).reasons };

    /// Appends the line of a group of the font of this name, and the reason of its first line.
    fn push_line(
        &self,
        alloc: Global,
        text: &mut Vec<u8>,
        name: &str,
        rule: Rule,
        group: &Group,
    ) -> Result<(), AllocError>
        ensures { OnOk result (text.new.items ≡ text.old.items ++ (writing self.now).line name.now rule (group_value group.now)) };

    /// Writes that the font of this name is refused.
    fn put_refusal<W: Sink>(
        &self,
        alloc: Global,
        sink: &mut W,
        name: &str,
        code: RefusalCode,
    ) -> Result<(), Lost>
        ensures { IsLinePut (W.state sink.old) (W.state sink.new) ((writing self.now).refusal name.now code) (lost_of result) };

    /// Writes why the font of this name wasn't checked, which was printed on standard error.
    fn put_unchecked<W: Sink>(
        &self,
        alloc: Global,
        sink: &mut W,
        name: &str,
        reason: &str,
    ) -> Result<(), Lost>
        ensures { IsLinePut (W.state sink.old) (W.state sink.new) ((writing self.now).unchecked name.now reason.now) (lost_of result) };
}
