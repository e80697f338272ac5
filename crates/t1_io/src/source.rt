//! Devices that bytes are read from, over std's readers.

ghost use Rattle.std.specs.Prelude.{◌≡◌, false};
ghost use Rattle.t1_io.specs.Devices.{SourceState, Takes};

use crate::Broken;
use crate::counts::TakeCounts;
use std::io::Read;

/// A device that bytes are read from, until its end.
pub trait Source {
    // What is known of the source.
    ghost state: { Self → SourceState };

    /// Puts the next bytes at the beginning of `buffer` and returns how many: 0 only at the end, or
    /// where `buffer` is empty. The bytes of `buffer` after them mean nothing.
    fn take(&mut self, buffer: &mut [u8]) -> Result<usize, Broken>
        ensures takes { Takes (state self.old) (state self.new) buffer.new result };

    /// Whether a call of [`take`](Source::take) has failed.
    fn has_failed(&self) -> bool
        ensures { result ≡ (state self.now).failed };
}

/// One of std's readers as a [`Source`].
#[derive(Drop)]
pub struct In<R: Read> {
    reader: R,
    counts: TakeCounts,
}

impl<R: Read> In<R> {
    /// A source over a reader of which no byte was taken.
    pub fn new(reader: R) -> In<R>
        ensures { ⟦<In<R> as Source>⟧.state result ≡ record {
          left = R.remaining reader;
          takes = 0;
          late_takes = 0;
          failed = false;
          ended = false;
        } }
    {
        In {
            reader,
            counts: TakeCounts {
                takes: 0,
                late_takes: 0,
                failed: false,
                ended: false,
            },
        }
    }
}

impl<R: Read> Source for In<R> {
    ghost state = { λ source. record {
      left = R.remaining source.reader;
      takes = source.counts.takes;
      late_takes = source.counts.late_takes;
      failed = source.counts.failed;
      ended = source.counts.ended;
    } };

    fn take(&mut self, buffer: &mut [u8]) -> Result<usize, Broken> {
        self.counts.count();
        match self.reader.read(buffer) {
            Ok(count) => {
                self.counts.bring(count, buffer.len());
                Ok(count)
            }
            Err(_) => {
                self.counts.failed = true;
                Err(Broken)
            }
        }
    }

    fn has_failed(&self) -> bool {
        self.counts.failed
    }
}
