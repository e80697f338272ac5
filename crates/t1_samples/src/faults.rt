//! The rules that a font breaks, as tables of tests list them.

use std::alloc::AllocError;

/// Adds a fault to a list: its place and its rule's code, after a comma unless it is the first. `A 12 K06` is
/// rule K06 at step 12 of glyph A. `A 5>6 8 P01` is rule P01 at step 8 of glyph A, in Subr 6, which Subr 5
/// called. `BlueValues 1 Z07` is rule Z07 at index 1 of that key.
pub fn add_fault(faults: &mut String, fault: &str) -> Result<(), AllocError> {
    if !faults.is_empty() {
        faults.push_str(", ")?;
    }
    faults.push_str(fault)
}
