//! Devices that may fail: a [`Source`] to read bytes from and a [`Sink`] to write them to. Both
//! know whether a call of theirs has failed.
//!
//! [`In`] and [`Out`] wrap std's readers and writers. [`put_all`] is the loop that writes a whole slice.
//!
//! Promised of every device:
//!
//! - A call that fails moves no byte, and `has_failed` remembers it.
//! - A call that succeeds leaves `has_failed` as it was. It moves a byte or more, unless there is
//!   no room or no byte for it, or the source is at its end.
//! - Contracts say which bytes are left in a source or were written to a sink, where the device knows them.
//! - They also say how many takes there were, how many after a failed one, and whether all that was
//!   put has been flushed.
//!
//! Nothing here allocates.
//!
//! ```text
//! let mut text = Vec::new(alloc);
//! put_all(&mut Out::new(&mut text), b"1: font file 0 F01 no end segment\n")?;
//! ```
#![tactic(auto)]

mod broken;
mod counts;
mod sink;
mod source;
mod writing;

pub use broken::Broken;
pub use sink::{Out, Sink};
pub use source::{In, Source};
pub use writing::{deliver, put_all, put_parts};
