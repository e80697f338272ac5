//! The lines of a font's groups.

ghost use Rattle.std.specs.Prelude.{◌≡◌, ◌++◌, IfOk, OnOk};
ghost use Rattle.t1_printers.specs.GroupLines.{group_line, group_lines};
ghost use Rattle.t1_printers.specs.Held.{is_same_level, level_line, of_level};
ghost use Rattle.t1_printers.specs.RuleGroups.{group_values};

use crate::form::GroupForm;
use crate::groups::Groups;
use std::alloc::{AllocError, Global};
use t1_rules::{Level, Rule, all_rules, rule_level};

/// The lines of the groups of the font of this name.
pub(crate) fn group_lines<T: GroupForm>(
    alloc: Global,
    form: &T,
    groups: &Groups,
    name: &str,
) -> Result<Vec<u8>, AllocError>
    ensures { IfOk result (λ t. t.items ≡ group_lines ((T.writing form.now).line name.now) (group_values groups.now)) }
{
    let mut text = Vec::new(alloc);
    push_level(alloc, form, groups, &mut text, name, Level::Must)?;
    push_level(alloc, form, groups, &mut text, name, Level::Should)?;
    push_level(alloc, form, groups, &mut text, name, Level::Tidy)?;
    Ok(text)
}

/// Appends the lines of the rules of a level.
fn push_level<T: GroupForm>(
    alloc: Global,
    form: &T,
    groups: &Groups,
    text: &mut Vec<u8>,
    name: &str,
    level: Level,
) -> Result<(), AllocError>
    ensures { OnOk result (text.new.items
        ≡ text.old.items ++ of_level (group_line ((T.writing form.now).line name.now) (group_values groups.now)) level) }
{
    let rules = all_rules();
    for rule in rules {
        push_rule(alloc, form, groups, text, name, level, *rule)?;
    }
    Ok(())
}

/// Appends the line of a rule, if it is of the level and has lines.
fn push_rule<T: GroupForm>(
    alloc: Global,
    form: &T,
    groups: &Groups,
    text: &mut Vec<u8>,
    name: &str,
    level: Level,
    rule: Rule,
) -> Result<(), AllocError>
    ensures { OnOk result (text.new.items ≡ text.old.items
        ++ level_line (group_line ((T.writing form.now).line name.now) (group_values groups.now)) level rule) }
{
    if !is_same_level(rule_level(rule), level) {
        return Ok(());
    }
    let group = groups.group(rule);
    if group.is_empty() {
        return Ok(());
    }
    form.push_line(alloc, text, name, rule, group)
}

/// Whether two levels are one.
fn is_same_level(level: Level, other: Level) -> bool
    ensures { result ≡ is_same_level level other }
{
    match level {
        Level::Must => matches!(other, Level::Must),
        Level::Should => matches!(other, Level::Should),
        Level::Tidy => matches!(other, Level::Tidy),
    }
}
