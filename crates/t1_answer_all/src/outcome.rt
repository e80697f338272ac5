//! What comes of a run.

/// What came of a run, and what it was printed on: a printer, or the output and standard error.
#[derive(Drop)]
pub struct Outcome<T, O> {
    /// What came of it.
    pub value: T,
    /// What it was printed on.
    pub output: O,
}
