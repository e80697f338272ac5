//! Fonts, lists of their names, and rules.

use std::alloc::{AllocError, Global};
use t1_rules::{Mask, Rule};
use t1_samples::Sample;

/// The glyph of the number 32001, 0, hmoveto, closepath, endchar: a C05, a C07, a W01 and a P03 in this order.
pub(crate) const FOUR_FAULTS: &[u8] = b"\xff\x00\x00\x7d\x01\x8b\x16\x09\x0e";

/// The file of a font with this glyph A.
pub(crate) fn font_with(alloc: Global, glyph: &[u8]) -> Result<Vec<u8>, AllocError> {
    Sample::new(alloc)?.glyph(b"A", glyph)?.pfb()
}

/// Names as they are kept.
pub(crate) fn names_of(alloc: Global, names: &[&str]) -> Result<Vec<String>, AllocError> {
    let mut kept = Vec::new(alloc);
    for name in names {
        kept.push(String::from_str(alloc, name)?)?;
    }
    Ok(kept)
}

/// These rules alone.
pub(crate) fn only(rules: &[Rule]) -> Mask {
    let mut mask = Mask::empty();
    for rule in rules {
        mask = mask.with(*rule, true);
    }
    mask
}
