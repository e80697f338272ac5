//! The version of t1check and its tools.

/// What each of them says of itself, and a document of SARIF of the program.
pub const VERSION: &str = "1.0.0";
