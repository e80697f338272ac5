//! A glyph of many steps.

use crate::sample::Sample;
use std::alloc::{AllocError, Global};

/// `0 500 hsbw`.
const HSBW: &[u8] = b"\x8b\xf8\x88\x0d";

/// A font whose Subr 5, 8,330 times dotsection and return, takes 8,333 steps with its call. The glyph A is
/// `0 500 hsbw`, so many calls of it, so many times dotsection, and endchar.
pub fn long_glyph(alloc: Global, calls: usize, more: usize) -> Result<Sample, AllocError> {
    let mut subr = Vec::new(alloc);
    add_times(&mut subr, b"\x0c\x00", 8_330)?;
    subr.push(0x0b)?;
    let mut glyph = Vec::from_slice(alloc, HSBW)?;
    add_times(&mut glyph, b"\x90\x0a", calls)?;
    add_times(&mut glyph, b"\x0c\x00", more)?;
    glyph.push(0x0e)?;
    Sample::new(alloc)?
        .subr(5, subr.as_slice())?
        .glyph(b"A", glyph.as_slice())
}

/// Adds the same bytes so many times.
pub fn add_times(bytes: &mut Vec<u8>, same: &[u8], times: usize) -> Result<(), AllocError> {
    for _ in 0..times {
        bytes.extend_from_slice(same)?;
    }
    Ok(())
}
