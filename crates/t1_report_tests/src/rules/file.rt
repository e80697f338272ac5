//! Rules on the file: Technical Note 5040.

use super::faults::faults_in;
use std::alloc::Global;
use std::test::Fail;
use t1_font::{OpenFont, Unread};
use t1_samples::{CLEAR, FontFile, Sample};

/// The faults of the sample in a PFB file with these bytes after its last segment, or in a PFA file.
fn faults_of_file(alloc: Global, end: Option<&[u8]>) -> Result<String, Unread> {
    let private = Sample::new(alloc)?.private()?;
    let file = FontFile::of(CLEAR, private.as_slice());
    let bytes = match end {
        Some(end) => FontFile { end, ..file }.pfb(alloc)?,
        None => file.pfa(alloc)?,
    };
    faults_in(alloc, &mut OpenFont::open(alloc, bytes.as_slice())?)
}

/// What a PFB file ends with, and the faults of its font; first of a PFA file.
const FILES: &[(Option<&[u8]>, &str)] = &[
    (None, ""),
    (Some(b""), "file 0 F01"),
    (Some(b"\x80\x03"), ""),
    (Some(b"\x80\x03\x00"), "file 0 F02"),
];

/// A PFA file has no segments, so it lacks none.
#[test]
fn marks_of_the_file(rt: HostRuntime) -> Result<(), Fail> {
    for (end, faults) in FILES {
        let found = faults_of_file(rt.alloc(), *end)?;
        assert_eq!(rt; found.as_str(), *faults, "{end:?}");
    }
    Ok(())
}
