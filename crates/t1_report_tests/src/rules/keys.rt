//! What the keys of a report are called: Type 1 Font Format 1.1, chapters 2 and 5.

use t1_rules::key_text;

/// Keys, and the text of each.
const TEXTS: &[(u8, &str)] = &[
    (0, "file"),
    (3, "UniqueID"),
    (5, "PrivateUniqueID"),
    (12, "FamilyOtherBlues"),
    (16, "StdHW"),
    (21, "CharStrings"),
    (22, "FontMatrix"),
    (24, "XUID"),
    (25, "LanguageGroup"),
    (26, ""),
    (255, ""),
];

#[test]
fn texts_of_keys(rt: HostRuntime) {
    for (key, text) in TEXTS {
        assert_eq!(rt; key_text(*key), *text);
    }
}
