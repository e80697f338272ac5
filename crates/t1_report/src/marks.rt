//! Marks: how far a report was returned.

/// The last fault that was returned: its number, its place, and the number of its rule. Any four numbers are a
/// mark; that of four zeros is before all faults.
#[derive(Clone, Copy, Debug, PartialEq, Eq, Default)]
pub struct Mark {
    /// How many faults were returned up to it, if it comes from a walk that began at the first mark, or at such a one.
    pub number: u64,
    pub unit: u32,
    pub step: u32,
    pub rule: u8,
}
