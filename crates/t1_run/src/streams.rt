//! Where a program prints.

use t1_io::Sink;

/// The output and standard error.
#[derive(Drop)]
pub struct Streams<W: Sink, E: Sink> {
    /// Standard output.
    pub out: W,
    /// Standard error.
    pub errors: E,
}
