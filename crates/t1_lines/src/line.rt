//! What a line says.

use t1_char::Path;
use t1_font::RefusalCode;
use t1_rules::Rule;

/// What a line says.
#[derive(Debug, PartialEq, Eq, Drop)]
pub enum Line<'a> {
    /// A line of a report: `1: font file 0 F01 no end segment`.
    Fault(FaultLine<'a>),
    /// Why there is no report: `refused: E04 no eexec`.
    Refusal(RefusalCode),
}

/// What a line of a report says. Its text is that of its rule: `t1_rules::rule_text`.
#[derive(Debug, PartialEq, Eq, Drop)]
pub struct FaultLine<'a> {
    /// The line's number in the whole report.
    pub number: u64,
    /// Where the rule is broken.
    pub place: Place<'a>,
    /// The rule that is broken there; of a waiver U01.
    pub rule: Rule,
}

/// Where a fault is.
#[derive(Debug, PartialEq, Eq, Drop)]
pub enum Place<'a> {
    /// A key of the font, by its number, which `t1_rules::key_text` names, and an index.
    Key {
        key: u8,
        index: u16,
    },
    /// A step of a glyph, by the glyph's name, and the Subrs that are being executed.
    Step {
        name: &'a [u8],
        path: Path,
        step: u32,
    },
    /// A waiver that isn't used, by the glyph's name, and the rule that it waives.
    Waiver {
        name: &'a [u8],
        rule: Rule,
    },
}
