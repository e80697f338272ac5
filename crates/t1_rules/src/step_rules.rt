//! The charstring rules, by subject: each has a watcher. Type 1 Font Format 1.1, chapters 6 to 8.

pub(crate) mod arguments;
pub(crate) mod calls;
pub(crate) mod counters;
pub(crate) mod flex;
mod numbers;
pub(crate) mod othersubrs;
pub(crate) mod paths;
pub(crate) mod seac;
pub(crate) mod stems;
pub(crate) mod tokens;
pub(crate) mod triples;
