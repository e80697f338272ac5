//! What a device counts of its calls.

ghost use Rattle.std.specs.Prelude.{◌≡◌, true};
ghost use Rattle.t1_io.specs.Devices.{one_more};
ghost use Rattle.t1_io.specs.Private.Counts.{take_brought, take_counted};

/// The calls of take, and whether one has failed or found the end.
#[derive(Clone, Copy)]
pub(crate) struct TakeCounts {
    pub(crate) takes: u64,
    /// Those after one that failed or found the end.
    pub(crate) late_takes: u64,
    pub(crate) failed: bool,
    pub(crate) ended: bool,
}

impl TakeCounts {
    /// One call more, before it is known whether it fails.
    pub(crate) fn count(&mut self)
        ensures { self.new ≡ take_counted self.old }
    {
        self.takes = self.takes.saturating_add(1);
        if self.failed || self.ended {
            self.late_takes = self.late_takes.saturating_add(1);
        }
    }

    /// It brought so many bytes into a buffer of this length. None although there is room is the end.
    pub(crate) fn bring(&mut self, count: usize, room: usize)
        ensures { self.new ≡ take_brought self.old count room }
    {
        self.ended = self.ended || (count == 0 && room != 0);
    }
}

/// The calls of put that failed, and whether a call, a flush too, has failed.
#[derive(Clone, Copy)]
pub(crate) struct PutCounts {
    pub(crate) failed_puts: u64,
    pub(crate) failed: bool,
}

impl PutCounts {
    /// A call of put failed.
    pub(crate) fn fail(&mut self)
        ensures { self.new ≡ record { failed_puts = one_more self.old.failed_puts; failed = true } }
    {
        self.failed_puts = self.failed_puts.saturating_add(1);
        self.failed = true;
    }
}
