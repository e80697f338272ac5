//! How far a document was handed over.

use t1_forms::RESULT_COUNTS;
use t1_report::Mark;

/// What of a document was handed over already.
#[derive(Clone, Copy, Debug, PartialEq, Eq)]
pub enum Stage {
    /// Nothing.
    Nothing,
    /// What is before all results.
    Beginning,
    /// Some results too.
    Results,
}

/// How far a document was handed over.
#[derive(Clone, Copy)]
pub struct Reached {
    pub stage: Stage,
    /// The mark before the last result that was handed over, or before the first one.
    pub mark: Mark,
    /// How many results there were of each code since the unit of the last one began.
    pub counts: [u64; RESULT_COUNTS],
}
