//! Sets of rules, which no chapter of the standard has.

use t1_rules::{Mask, Rule, rule_code};

/// The code of the next rule of a set, or nothing.
fn code_above(mask: Mask, floor: u8) -> &'static str {
    match mask.above(floor) {
        Some(rule) => rule_code(rule),
        None => "",
    }
}

/// Numbers, and the code of the next rule above each.
const CODES: &[(u8, &str)] = &[
    (0, "F09"),
    (8, "F09"),
    (9, "F10"),
    (10, "L01"),
    (69, ""),
    (255, ""),
];

#[test]
fn rules_of_a_set(rt: HostRuntime) {
    let font = Mask::empty().with(Rule::F10, true).with(Rule::F09, true);
    let mask = font.join(Mask::empty().with(Rule::L01, true).with(Rule::C01, false));
    for (floor, code) in CODES {
        assert_eq!(rt; code_above(mask, *floor), *code, "above {floor}");
    }
}
