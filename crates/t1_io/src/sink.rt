//! Devices that take bytes, over std's writers.

ghost use Rattle.std.specs.Prelude.{◌≡◌, true, false};
ghost use Rattle.t1_io.specs.Devices.{Flushes, Puts, SinkState};

use crate::Broken;
use crate::counts::PutCounts;
use std::io::Write;

/// A device that takes bytes.
pub trait Sink {
    // What is known of the sink.
    ghost state: { Self → SinkState };

    /// Writes a prefix of `bytes` and returns its length: a byte at least, unless `bytes` is empty.
    fn put(&mut self, bytes: &[u8]) -> Result<usize, Broken>
        ensures puts { Puts (state self.old) (state self.new) bytes.now result };

    /// Flushes all that was put.
    fn flush(&mut self) -> Result<(), Broken>
        ensures flushes { Flushes (state self.old) (state self.new) result };

    /// Whether a call of [`put`](Sink::put) or [`flush`](Sink::flush) has failed.
    fn has_failed(&self) -> bool
        ensures { result ≡ (state self.now).failed };
}

/// One of std's writers as a [`Sink`]. A write that takes none of a nonempty slice has failed.
#[derive(Drop)]
pub struct Out<W: Write> {
    writer: W,
    flushed: bool,
    flushes: u64,
    counts: PutCounts,
}

impl<W: Write> Out<W> {
    /// A sink over a writer, with nothing put that waits to be flushed, and no call that has failed.
    pub fn new(writer: W) -> Out<W>
        ensures { ⟦<Out<W> as Sink>⟧.state result ≡
            record {
              written = W.contents writer;
              flushed = true;
              flushes = 0;
              failed_puts = 0;
              failed = false;
            } }
    {
        Out {
            writer,
            flushed: true,
            flushes: 0,
            counts: PutCounts {
                failed_puts: 0,
                failed: false,
            },
        }
    }
}

impl<W: Write> Sink for Out<W> {
    ghost state = { λ sink. record {
      written = W.contents sink.writer;
      flushed = sink.flushed;
      flushes = sink.flushes;
      failed_puts = sink.counts.failed_puts;
      failed = sink.counts.failed;
    } };

    fn put(&mut self, bytes: &[u8]) -> Result<usize, Broken> {
        match self.writer.write(bytes) {
            Ok(0) if bytes.is_empty() => Ok(0),
            Ok(count) if count > 0 => {
                self.flushed = false;
                Ok(count)
            }
            _ => {
                self.counts.fail();
                Err(Broken)
            }
        }
    }

    fn flush(&mut self) -> Result<(), Broken> {
        match self.writer.flush() {
            Ok(()) => {
                self.flushed = true;
                self.flushes = self.flushes.saturating_add(1);
                Ok(())
            }
            Err(_) => {
                self.counts.failed = true;
                Err(Broken)
            }
        }
    }

    fn has_failed(&self) -> bool {
        self.counts.failed
    }
}
