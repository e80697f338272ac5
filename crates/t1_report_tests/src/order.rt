//! The order of lines: the font, then glyph by glyph, step by step, rule by rule. No chapter of the standard has it, nor
//! counts places of the font.

use crate::answers::{Asked, Case, assert_cases};
use std::test::Fail;

/// A font with faults of two keys, and of three glyphs.
const THREE_GLYPHS: &str = "\
5: | B: 0 500 hsbw 5 callsubr 0 0 0 65 65 seac endchar | A: 0 500 hsbw 1 endchar endchar | : | \
key: /StdHW 30 def /BlueValues [0 26] def";

/// A font whose key has four faults. A step is 65,536 times the key's number, 9, and the index.
const ZONES: &str = "key: /BlueValues [0 26 40 50 60 55 70 80 90 100 110 120 130 140 150] def";

/// Reports and their lines.
const LINES: &[Case] = &[
    (
        ZONES,
        "",
        Asked::Faults,
        "BlueValues 0 Z03, BlueValues 1 Z07, BlueValues 5 Z04, BlueValues 14 Z02",
    ),
    (
        ZONES,
        "",
        Asked::Marks(0, (0, 0, 0), 5),
        "Z03 1 0 589824 17, Z07 2 0 589825 21, Z04 3 0 589829 18, Z02 4 0 589838 16, none 4 0 589838 16, ",
    ),
    (
        THREE_GLYPHS,
        "",
        Asked::Faults,
        "BlueValues 1 Z07, StdHW 0 Z01, B 5 6 S04, B 12 GE02, A 5 C05, A 5 GE02,  1 GE01",
    ),
    (
        THREE_GLYPHS,
        "",
        Asked::Lines,
        "1: font BlueValues 1 Z07 zone too high for BlueScale\n\
2: font StdHW 0 Z01 value of another kind\n\
3: glyph B 5 6 S04 Subr without return\n\
4: glyph B - 12 GE02 tokens after the end\n\
5: glyph A - 5 C05 too many arguments\n\
6: glyph A - 5 GE02 tokens after the end\n\
7: glyph  - 1 GE01 no endchar\n",
    ),
];

#[test]
fn lines_rise_by_unit_step_and_rule(rt: HostRuntime) -> Result<(), Fail> {
    assert_cases(&rt, rt.alloc(), LINES)
}
