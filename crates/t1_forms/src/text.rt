//! A text in memory, as a device: what is written is appended, and a put fails where memory runs out.

ghost use Rattle.std.specs.Prelude.{◌≡◌, ◌∷◌, ◌++◌, ℕ, List, [], Some, false, true};
ghost use Rattle.t1_forms.specs.Writing.{with_text};
ghost use Rattle.t1_io.specs.Devices.{SinkState};

use std::alloc::Global;
use std::io::Write;
use t1_io::{Broken, Sink};

/// A text in memory. A put fails where memory runs out.
#[derive(Debug, Drop)]
pub struct Text {
    bytes: Vec<u8>,
    flushed: bool,
    flushes: u64,
    failed_puts: u64,
    failed: bool,
}

impl Text {
    /// Nothing is written.
    pub fn new(alloc: Global) -> Text
        ensures { ⟦<Text as Sink>⟧.state result ≡
            record { written = Some []; flushed = true; flushes = 0; failed_puts = 0; failed = false } }
    {
        Text {
            bytes: Vec::new(alloc),
            flushed: true,
            flushes: 0,
            failed_puts: 0,
            failed: false,
        }
    }

    /// Nothing is written any more. All else is as it was.
    pub fn clear(&mut self)
        ensures { ⟦<Text as Sink>⟧.state self.new ≡ with_text (⟦<Text as Sink>⟧.state self.old) [] }
    {
        self.bytes.clear();
    }

    /// Takes the last byte away. All else is as it was.
    pub fn pop(&mut self)
        ensures { (text : List ℕ) (last : ℕ) → (⟦<Text as Sink>⟧.state self.old).written ≡ Some (text ++ last ∷ [])
            → ⟦<Text as Sink>⟧.state self.new ≡ with_text (⟦<Text as Sink>⟧.state self.old) text }
    {
        self.bytes.pop();
    }

    /// The bytes that were written.
    pub fn as_bytes(&self) -> &[u8]
        ensures { (⟦<Text as Sink>⟧.state self.now).written ≡ Some result.now }
    {
        self.bytes.as_slice()
    }

    /// The same, as a vector.
    pub fn into_bytes(self) -> Vec<u8>
        ensures { (⟦<Text as Sink>⟧.state self).written ≡ Some result.items }
    {
        self.bytes
    }
}

impl Sink for Text {
    ghost state = { λ text. record {
      written = Some text.bytes.items;
      flushed = text.flushed;
      flushes = text.flushes;
      failed_puts = text.failed_puts;
      failed = text.failed;
    } };

    fn put(&mut self, bytes: &[u8]) -> Result<usize, Broken> {
        match self.bytes.write(bytes) {
            Ok(0) if bytes.is_empty() => Ok(0),
            Ok(count) if count > 0 => {
                self.flushed = false;
                Ok(count)
            }
            _ => {
                self.failed_puts = self.failed_puts.saturating_add(1);
                self.failed = true;
                Err(Broken)
            }
        }
    }

    fn flush(&mut self) -> Result<(), Broken> {
        self.flushed = true;
        self.flushes = self.flushes.saturating_add(1);
        Ok(())
    }

    fn has_failed(&self) -> bool {
        self.failed
    }
}
