//! Why no token is read.

use thiserror::Error;

/// Why no token could be read.
#[derive(Clone, Copy, Debug, PartialEq, Eq, Error)]
pub enum ScanError {
    /// A string, a procedure or an array that isn't closed, as `(a`, or that nests deeper than 32.
    #[error("unclosed or too deeply nested token")]
    Unclosed,
}
