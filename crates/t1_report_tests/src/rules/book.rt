//! The book of rules: numbers, codes, levels and texts, which no chapter of the standard has.

use t1_rules::{Level, Rule, rule_level, rule_text};

/// Rules, and the number and the text of each.
const TEXTS: &[(Rule, u8, &str)] = &[
    (Rule::F01, 1, "no end segment"),
    (Rule::F14, 14, "Subr given twice or past the array"),
    (Rule::Z01, 15, "value of another kind"),
    (Rule::Z11, 25, "standard width not among the snaps"),
    (Rule::C01, 26, "shorter than lenIV"),
    (Rule::GE02, 40, "tokens after the end"),
    (Rule::X06, 57, "setcurrentpoint outside flex"),
    (Rule::L01, 69, "step limit"),
    (Rule::F15, 71, "FontMatrix is not six numbers"),
    (Rule::Z19, 85, "BlueFuzz out of range"),
    (Rule::H05, 86, "stem below half a unit"),
    (Rule::W03, 93, "OtherSubr before hsbw or sbw"),
    (Rule::F22, 94, "byte above 126 in the clear text"),
    (Rule::F23, 95, "key given twice"),
    (Rule::F24, 96, "charstring word not defined"),
    (Rule::F25, 97, "brace or bracket without a partner"),
    (Rule::F26, 98, "unknown word"),
    (Rule::F27, 99, "FontMatrix can't be inverted"),
    (Rule::F28, 100, "no Private dictionary"),
    (Rule::F29, 101, "unusual first line"),
    (Rule::P04, 102, "point outside FontBBox"),
    (Rule::P05, 103, "outline runs clockwise"),
    (Rule::P06, 104, "segment of no length"),
    (Rule::P07, 105, "line turns back"),
    (Rule::P08, 106, "line goes straight on"),
    (Rule::P09, 107, "flat curve"),
    (Rule::P10, 108, "no point at an extreme"),
    (Rule::P11, 109, "move right behind a move"),
    (Rule::H08, 110, "stem that nothing touches"),
    (Rule::H09, 111, "stems share an edge"),
    (Rule::H10, 112, "stem of negative width"),
];

#[test]
fn texts_of_rules(rt: HostRuntime) {
    for (rule, number, text) in TEXTS {
        assert_eq!(rt; (rule.number(), rule_text(*rule)), (*number, *text));
    }
}

/// Rules of the fourth edition, and the level of each.
const LEVELS: &[(Rule, Level)] = &[
    (Rule::F22, Level::Should),
    (Rule::F23, Level::Should),
    (Rule::F24, Level::Must),
    (Rule::F25, Level::Must),
    (Rule::F26, Level::Must),
    (Rule::F27, Level::Must),
    (Rule::F28, Level::Must),
    (Rule::F29, Level::Must),
    (Rule::P04, Level::Should),
    (Rule::P05, Level::Should),
    (Rule::P06, Level::Tidy),
    (Rule::P07, Level::Tidy),
    (Rule::P08, Level::Tidy),
    (Rule::P09, Level::Tidy),
    (Rule::P10, Level::Tidy),
    (Rule::P11, Level::Tidy),
    (Rule::H08, Level::Should),
    (Rule::H09, Level::Tidy),
    (Rule::H10, Level::Tidy),
];

#[test]
fn levels_of_rules(rt: HostRuntime) {
    for (rule, level) in LEVELS {
        assert_eq!(rt; rule_level(*rule), *level);
    }
}
