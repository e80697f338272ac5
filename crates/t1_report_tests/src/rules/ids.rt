//! Rules on UniqueID and XUID: Type 1 Font Format 1.1, chapter 2.

use super::faults::{CLEAR_TEXT, ENTRIES, PRIVATE, assert_faults, faults_of_texts};
use std::alloc::Global;
use std::test::Fail;
use t1_font::Unread;

/// Clear texts with an id, and the faults of a font with each.
const CLEAR_TEXTS: &[(&str, &str)] = &[
    (
        "%!\n/FontType 1 def /PaintType 0 def /Encoding 256 array def /UniqueID (1) def eexec",
        "UniqueID 0 F05",
    ),
    (
        "%!\n/FontType 1 def /PaintType 0 def /Encoding 256 array def /UniqueID 16777215 def eexec",
        "",
    ),
    (
        "%!\n/FontType 1 def /PaintType 0 def /Encoding 256 array def /UniqueID 16777216 def eexec",
        "UniqueID 0 F05",
    ),
];

#[test]
fn id_of_the_clear_text(rt: HostRuntime) -> Result<(), Fail> {
    assert_faults(&rt, rt.alloc(), CLEAR_TEXT, CLEAR_TEXTS)
}

/// Ids of the Private dictionary, and the faults of a font with each.
const PRIVATE_IDS: &[(&str, &str)] = &[
    ("/UniqueID 0 def", ""),
    ("/UniqueID -1 def", "PrivateUniqueID 0 F05"),
    ("/UniqueID 1.5 def", "PrivateUniqueID 0 F05"),
    ("/UniqueID [1] def", "PrivateUniqueID 0 F05"),
];

#[test]
fn id_of_the_private_dictionary(rt: HostRuntime) -> Result<(), Fail> {
    assert_faults(&rt, rt.alloc(), ENTRIES, PRIVATE_IDS)
}

/// The faults of a font with an id in each text.
fn faults_of_ids(alloc: Global, id: &str, other: &str) -> Result<String, Unread> {
    let clear = format!(in alloc;
        "%!\n/FontType 1 def /PaintType 0 def /Encoding StandardEncoding def /UniqueID {id} def eexec\n"
    )?;
    let private = format!(in alloc; "/UniqueID {other} def {PRIVATE}")?;
    faults_of_texts(alloc, clear.as_str(), private.as_str())
}

/// The ids of both texts, and the faults of a font with them.
const BOTH_IDS: &[(&str, &str, &str)] = &[
    ("5", "5", ""),
    ("5", "6", "PrivateUniqueID 0 F06"),
    ("5", "5.5", "PrivateUniqueID 0 F05, PrivateUniqueID 0 F06"),
    ("5", "(5)", "PrivateUniqueID 0 F05"),
];

/// Two numbers that differ are reported, in range or not, and nothing else is.
#[test]
fn both_unique_ids(rt: HostRuntime) -> Result<(), Fail> {
    for (id, other, faults) in BOTH_IDS {
        let found = faults_of_ids(rt.alloc(), id, other)?;
        assert_eq!(rt; found.as_str(), *faults, "{id} {other}");
    }
    Ok(())
}
