//! Devices that fail on purpose.

ghost use Rattle.std.specs.Prelude.{◌≡◌, ◌≤◌, false, true, length, IfOk};
ghost use Rattle.t1_io.specs.Devices.{Flushes, Puts, Takes};
ghost use Rattle.t1_samples.specs.Limits.{Burns, count_of, held, let_through, lets_some_through};

use crate::Limit;
use t1_io::{Broken, Sink, Source};

/// A device over another one that fails at a chosen place, or moves few bytes a call.
///
/// A fuse that has blown fails every call, a flush too, and leaves the device as it is.
#[derive(Drop)]
pub struct Fuse<D> {
    /// The device that moves the bytes.
    pub device: D,
    /// What is left of the fuse.
    pub limit: Limit,
    takes: u64,
    late_takes: u64,
    failed_puts: u64,
    failed: bool,
    ended: bool,
    ghost moves: { lets_some_through limit ≡ true },
}

impl<D: Source> Fuse<D> {
    /// A source of the bytes of `device`, until the fuse has blown.
    pub fn source(device: D, limit: Limit) -> Fuse<D>
        requires { lets_some_through limit ≡ true }
        ensures device { result.device ≡ device }
        ensures limit { result.limit ≡ limit }
        ensures state { ⟦<Fuse<D> as Source>⟧.state result ≡ record (D.state device) {
          takes = 0;
          late_takes = 0;
          ended = false;
        } }
    {
        let read_failed = device.has_failed();
        Fuse::over(device, limit, read_failed)
    }
}

impl<D: Sink> Fuse<D> {
    /// A sink that writes to `device` until the fuse has blown.
    pub fn sink(device: D, limit: Limit) -> Fuse<D>
        requires { lets_some_through limit ≡ true }
        ensures device { result.device ≡ device }
        ensures limit { result.limit ≡ limit }
        ensures state { ⟦<Fuse<D> as Sink>⟧.state result ≡ record (D.state device) { failed_puts = 0 } }
    {
        let write_failed = device.has_failed();
        Fuse::over(device, limit, write_failed)
    }
}

impl<D> Fuse<D> {
    /// A fuse that moved nothing yet, over a device of which a call has failed or hasn't.
    fn over(device: D, limit: Limit, failed: bool) -> Fuse<D>
        requires { lets_some_through limit ≡ true }
        ensures device { result.device ≡ device }
        ensures limit { result.limit ≡ limit }
        ensures takes { result.takes ≡ 0 }
        ensures late_takes { result.late_takes ≡ 0 }
        ensures failed_puts { result.failed_puts ≡ 0 }
        ensures failed { result.failed ≡ failed }
        ensures ended { result.ended ≡ false }
    {
        Fuse {
            device,
            limit,
            takes: 0,
            late_takes: 0,
            failed_puts: 0,
            failed,
            ended: false,
        }
    }
}

impl<D: Source> Source for Fuse<D> {
    ghost state = { λ fuse. record (D.state fuse.device) {
      takes = fuse.takes;
      late_takes = fuse.late_takes;
      failed = fuse.failed;
      ended = fuse.ended;
    } };

    fn take(&mut self, buffer: &mut [u8]) -> Result<usize, Broken>
        ensures takes { Takes (⟦<Fuse<D> as Source>⟧.state self.old)
            (⟦<Fuse<D> as Source>⟧.state self.new) buffer.new result }

        ensures burns { Burns (held self.old.limit self.old.device (D.state self.old.device).failed)
            (held self.new.limit self.new.device (D.state self.new.device).failed) (count_of result) result }
        ensures moved { IfOk result (λ n. n ≤ let_through self.old.limit (length buffer.new)) }
    {
        self.takes = self.takes.saturating_add(1);
        if self.failed || self.ended {
            self.late_takes = self.late_takes.saturating_add(1);
        }
        if self.limit.has_blown() {
            self.limit = self.limit.burnt(0);
            self.failed = true;
            return Err(Broken);
        }
        let room = self.limit.let_through(buffer.len());
        match self.device.take(&mut buffer[..room]) {
            Ok(count) => {
                self.limit = self.limit.burnt(count);
                self.ended = self.ended || (count == 0 && !buffer.is_empty());
                Ok(count)
            }
            Err(broken) => {
                self.limit = self.limit.burnt(0);
                self.failed = true;
                Err(broken)
            }
        }
    }

    fn has_failed(&self) -> bool {
        self.failed
    }
}

impl<D: Sink> Sink for Fuse<D> {
    ghost state = { λ fuse. record (D.state fuse.device) {
      failed_puts = fuse.failed_puts;
      failed = fuse.failed;
    } };

    fn put(&mut self, bytes: &[u8]) -> Result<usize, Broken>
        ensures puts { Puts (⟦<Fuse<D> as Sink>⟧.state self.old)
            (⟦<Fuse<D> as Sink>⟧.state self.new) bytes.now result }

        ensures burns { Burns (held self.old.limit self.old.device (D.state self.old.device).failed)
            (held self.new.limit self.new.device (D.state self.new.device).failed) (count_of result) result }
        ensures moved { IfOk result (λ n. n ≤ let_through self.old.limit (length bytes.now)) }
    {
        if self.limit.has_blown() {
            self.limit = self.limit.burnt(0);
            self.failed_puts = self.failed_puts.saturating_add(1);
            self.failed = true;
            return Err(Broken);
        }
        let room = self.limit.let_through(bytes.len());
        match self.device.put(&bytes[..room]) {
            Ok(count) => {
                self.limit = self.limit.burnt(count);
                Ok(count)
            }
            Err(broken) => {
                self.limit = self.limit.burnt(0);
                self.failed_puts = self.failed_puts.saturating_add(1);
                self.failed = true;
                Err(broken)
            }
        }
    }

    fn flush(&mut self) -> Result<(), Broken>
        ensures flushes { Flushes (⟦<Fuse<D> as Sink>⟧.state self.old)
            (⟦<Fuse<D> as Sink>⟧.state self.new) result }

        ensures burns { Burns (held self.old.limit self.old.device (D.state self.old.device).failed)
            (held self.new.limit self.new.device (D.state self.new.device).failed) 0 result }
    {
        let blown = self.limit.has_blown();
        self.limit = self.limit.burnt(0);
        if blown {
            self.failed = true;
            return Err(Broken);
        }
        let flushed = self.device.flush();
        if flushed.is_err() {
            self.failed = true;
        }
        flushed
    }

    fn has_failed(&self) -> bool {
        self.failed
    }
}
