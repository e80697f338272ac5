//! Rules on the Encoding: Type 1 Font Format 1.1, chapter 2.

use super::faults::{Part, assert_faults};
use std::test::Fail;

/// The codes of a custom Encoding.
const CUSTOM: Part = Part::Clear(
    "%!\n/FontType 1 def /PaintType 0 def /Encoding 256 array ",
    " def eexec\n",
);

/// Codes of a custom Encoding, and the faults of a font with them.
const CODES: &[(&str, &str)] = &[
    ("dup 255 /A put dup 0 /.notdef put", ""),
    ("dup 65 /B put", "Encoding 65 F13"),
    ("dup 255 /B put", "Encoding 255 F13"),
    ("dup 65 /B put dup 65 /A put", ""),
    ("dup 65 /A put dup 65 /B put", "Encoding 65 F13"),
    ("dup 0 / put", "Encoding 0 F13"),
    ("dup 256 /A put", "Encoding 0 F12"),
    (
        "dup 0 /B put dup 1.5 /A put",
        "Encoding 0 F12, Encoding 0 F13",
    ),
];

/// The later name of a code counts.
#[test]
fn codes_of_a_custom_encoding(rt: HostRuntime) -> Result<(), Fail> {
    assert_faults(&rt, rt.alloc(), CUSTOM, CODES)
}
