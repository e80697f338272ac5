//! Known faults as what the lines of fonts are compared with.

ghost use Rattle.std.specs.Prelude.{◌-◌, ◌^◌, min};
ghost use Rattle.t1_known.specs.Keys.{count_at};

use crate::known::KnownFaults;
use t1_many::Known;

impl<'a> Known for KnownFaults<'a> {
    ghost counts = { λ rows key. min (count_at rows key) (2 ^ 64 - 1) };

    fn count_of(&self, key: &[u8]) -> u64 {
        KnownFaults::count_of(self, key)
    }
}
