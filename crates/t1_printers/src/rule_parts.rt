//! The parts of a line of a group that all forms have.

ghost use Rattle.std.specs.Prelude.{◌≡◌, ◌++◌, OnOk, IfOk};
ghost use Rattle.t1_printers.specs.GroupLines.{rule_head, rule_tail};
ghost use Rattle.t1_printers.specs.Groups.{group_value};

use crate::group::Group;
use crate::width::width;
use std::alloc::{AllocError, Global};
use t1_rules::{Rule, rule_code, rule_text};

/// Appends `RULE TEXT`.
pub(crate) fn push_head(text: &mut Vec<u8>, rule: Rule) -> Result<(), AllocError>
    ensures { OnOk result (text.new.items ≡ text.old.items ++ rule_head rule) }
{
    text.extend_from_slice(rule_code(rule).as_bytes())?;
    text.extend_from_slice(b" ")?;
    text.extend_from_slice(rule_text(rule).as_bytes())
}

/// What is after `RULE TEXT`, in a room for both.
pub(crate) fn tail(
    alloc: Global,
    room: usize,
    rule: Rule,
    group: &Group,
) -> Result<Vec<u8>, AllocError>
    ensures { IfOk result (λ t. t.items ≡ rule_tail room rule (group_value group.now)) }
{
    let mut head = Vec::new(alloc);
    push_head(&mut head, rule)?;
    group.tail(alloc, room.saturating_sub(width(head.as_slice())))
}
