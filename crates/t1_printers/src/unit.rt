//! Units of a font that lines are at.

ghost use Rattle.std.specs.Prelude.{◌≡◌, IfOk};
ghost use Rattle.t1_printers.specs.FaultUnits.{waiver_name};
ghost use Rattle.t1_printers.specs.Units.{begins_run};

use std::alloc::{AllocError, Global};
use t1_rules::{Rule, rule_code};

/// The numbers of a unit of a font that lines are at.
#[derive(Clone, Copy, Debug)]
pub struct UnitNumber {
    /// 0 for the font's keys, then a number for each glyph, and one for the waivers.
    pub unit: u32,
    /// The key or the waiver; 0 for a glyph.
    pub part: u32,
}

/// Whether a line at a unit begins a run of lines there, after the last line.
pub(crate) fn begins_run(last: Option<UnitNumber>, number: UnitNumber) -> bool
    ensures { result ≡ begins_run last number }
{
    match last {
        None => true,
        Some(last) => !(last.unit == number.unit && last.part == number.part),
    }
}

/// The name of a waiver: the glyph's and the rule.
pub(crate) fn waiver_name(alloc: Global, name: &[u8], rule: Rule) -> Result<Vec<u8>, AllocError>
    ensures { IfOk result (λ text. text.items ≡ waiver_name name.now rule) }
{
    let mut text = Vec::new(alloc);
    text.extend_from_slice(name)?;
    text.extend_from_slice(b" ")?;
    text.extend_from_slice(rule_code(rule).as_bytes())?;
    Ok(text)
}
