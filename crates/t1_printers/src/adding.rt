//! Lines that are added to the groups of a font.

ghost use Rattle.std.specs.Prelude.{◌≡◌, IfOk, OnOk, option_map};
ghost use Rattle.t1_printers.specs.Groups.{group_value};
ghost use Rattle.t1_printers.specs.TerminalNames.{terminal_name};
ghost use Rattle.t1_printers.specs.RuleGroups.{group_of, group_values, no_groups, with_line};
ghost use Rattle.t1_printers.specs.Held.{line_with};
ghost use Rattle.t1_report.specs.Faults.{fault_value};
ghost use Rattle.t1_report.specs.Lines.{IsInFont};

use crate::group::Group;
use crate::groups::Groups;
use crate::unit::{UnitNumber, waiver_name};
use std::alloc::{AllocError, Global};
use t1_font::Font;
use t1_lines::{Place, place_of};
use t1_reason_texts::ShortText;
use t1_report::{Fault, Waivers};
use t1_rules::{Rule, all_rules, key_text};

impl Groups {
    /// Groups of no line, with room for names in each.
    pub(crate) fn new(alloc: Global, room: usize) -> Result<Groups, AllocError>
        ensures { IfOk result (λ g. group_values g ≡ no_groups room) }
    {
        let mut groups = Vec::new(alloc);
        for _rule in 0..all_rules().len() {
            groups.push(Group::new(alloc, room))?;
        }
        Ok(Groups { groups })
    }

    /// The group of a rule.
    pub(crate) fn group(&self, rule: Rule) -> &Group
        ensures { group_value result.now ≡ group_of (group_values self.now) rule }
    {
        &self.groups[usize::from(rule.number() - 1)]
    }

    /// Adds the line of a fault of a font, with its reason.
    pub(crate) fn add_fault(
        &mut self,
        alloc: Global,
        font: &Font<'_>,
        waivers: &Waivers<'_>,
        fault: &Fault,
        reason: &Option<ShortText>,
    ) -> Result<(), AllocError>
        requires { IsInFont font.now waivers.now (fault_value fault.now) }
        ensures { OnOk result (group_values self.new ≡ with_line (group_values self.old)
            (line_with font.now waivers.now (fault_value fault.now) (option_map (λ t. t.bytes) reason.now))) }
    {
        match place_of(font, waivers, fault) {
            Place::Key { key, .. } => {
                let number = UnitNumber {
                    unit: 0,
                    part: u32::from(key),
                };
                self.add(alloc, fault.rule, number, key_text(key).as_bytes(), reason)
            }
            Place::Step { name, .. } => {
                let number = UnitNumber {
                    unit: fault.unit,
                    part: 0,
                };
                self.add(alloc, fault.rule, number, name, reason)
            }
            Place::Waiver { name, rule } => {
                let number = UnitNumber {
                    unit: fault.unit,
                    part: fault.step,
                };
                let name = waiver_name(alloc, name, rule)?;
                self.add(alloc, fault.rule, number, name.as_slice(), reason)
            }
        }
    }

    /// Adds a line of a rule at a unit of this name, with its reason.
    fn add(
        &mut self,
        alloc: Global,
        rule: Rule,
        number: UnitNumber,
        name: &[u8],
        reason: &Option<ShortText>,
    ) -> Result<(), AllocError>
        ensures { OnOk result (group_values self.new ≡ with_line (group_values self.old) (record {
          rule = rule;
          unit = record { number = number; name = terminal_name name.now };
          reason = option_map (λ t. t.bytes) reason.now;
        })) }
    {
        self.groups[usize::from(rule.number() - 1)].add(alloc, number, name, reason)
    }
}
