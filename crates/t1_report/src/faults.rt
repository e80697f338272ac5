//! Faults: a rule that a font breaks, and where.

use t1_char::Path;
use t1_rules::Rule;

/// A rule that a font breaks, and where.
#[derive(Debug, PartialEq, Eq, Drop)]
pub struct Fault {
    /// Its number in the whole report, from 1; [`UnitFaults`](crate::UnitFaults) counts in its unit.
    pub number: u64,
    /// 0 is the font; g + 1 is glyph g.
    pub unit: u32,
    /// In the font 65,536 times the key's number plus the index; in a glyph the step, from 1.
    pub step: u32,
    /// The rule that is broken there.
    pub rule: Rule,
    /// The numbers of the Subrs that are being executed at the step, the outermost first; none in the
    /// font.
    pub path: Path,
}
