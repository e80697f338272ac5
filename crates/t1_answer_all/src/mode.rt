//! Which lines of fonts are chosen.

ghost use Rattle.std.specs.Prelude.{◌≡◌, ◌-◌, ◌^◌, min};
ghost use Rattle.t1_known.specs.Keys.{count_at};

use t1_known::KnownFaults;
use t1_many::Known;

/// Which of the lines of fonts whose rules are reported are chosen.
#[derive(Clone, Copy)]
pub enum Mode<'a> {
    /// All of them.
    ReportAll,
    /// Those that go beyond known faults.
    ReportNew(&'a KnownFaults<'a>),
    /// None: what is found becomes known, in the place of these known faults.
    UpdateBaseline(&'a KnownFaults<'a>),
    /// Those outside glyphs: of the others waivers are kept.
    WriteWaivers,
}

/// Known faults that belong to somebody else.
#[derive(Clone, Copy)]
pub(crate) struct Borrowed<'a> {
    pub(crate) known: &'a KnownFaults<'a>,
}

impl<'a> Known for Borrowed<'a> {
    ghost counts = { λ b key. min (count_at b.known.now key) (2 ^ 64 - 1) };

    fn count_of(&self, key: &[u8]) -> u64 {
        KnownFaults::count_of(self.known, key)
    }
}
