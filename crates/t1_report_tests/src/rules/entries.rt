//! Rules on required and optional entries: Type 1 Font Format 1.1, chapters 2 and 5.

use super::faults::{CLEAR, CLEAR_TEXT, ENTRIES, assert_faults, faults_of_texts};
use std::test::Fail;

/// Clear texts, and the faults of a font with each.
const CLEAR_TEXTS: &[(&str, &str)] = &[
    (
        "%!\n/FontType 1. def /PaintType 2 def /Encoding StandardEncoding def eexec",
        "",
    ),
    (
        "%!\neexec",
        "FontType 0 F03, PaintType 0 F04, Encoding 0 F11",
    ),
    (
        "%!\n/FontType 2 def /PaintType 1 def /Encoding 5 def eexec",
        "FontType 0 F03, PaintType 0 F04, Encoding 0 F11",
    ),
];

#[test]
fn entries_of_the_clear_text(rt: HostRuntime) -> Result<(), Fail> {
    assert_faults(&rt, rt.alloc(), CLEAR_TEXT, CLEAR_TEXTS)
}

/// Entries of the Private dictionary, and the faults of a font with them.
const PRIVATE_ENTRIES: &[(&str, &str)] = &[
    (
        "/password 5838 def /MinFeature {16} def",
        "password 0 F07, MinFeature 0 F08",
    ),
    ("/password 5839. def /MinFeature [16. 16#10] def", ""),
    ("/MinFeature {} def", "MinFeature 0 F08"),
    ("/MinFeature {16 16 16} def", "MinFeature 0 F08"),
    ("/MinFeature {16 15} def", "MinFeature 0 F08"),
];

#[test]
fn entries_of_the_private_dictionary(rt: HostRuntime) -> Result<(), Fail> {
    assert_faults(&rt, rt.alloc(), ENTRIES, PRIVATE_ENTRIES)
}

#[test]
fn absent_entries_of_the_private_dictionary(rt: HostRuntime) -> Result<(), Fail> {
    let found = faults_of_texts(rt.alloc(), CLEAR, "/CharStrings 0 dict dup begin end")?;
    assert_eq!(rt;
        found.as_str(),
        "password 0 F07, MinFeature 0 F08, CharStrings 0 F09"
    );
    Ok(())
}
