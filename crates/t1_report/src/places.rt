//! Where faults are.

ghost use Rattle.std.specs.Prelude.{◌≡◌, ◌<◌, ◌/◌};
ghost use Rattle.t1_report.specs.Faults.{fault_value};
ghost use Rattle.t1_report.specs.Places.{fault_place};
ghost use Rattle.t1_rules.specs.Keys.{index_count, key_count};

use crate::faults::Fault;
use t1_font::Font;
use t1_rules::INDEXES;

/// Where a fault is.
#[derive(Clone, Copy, Debug, PartialEq, Eq)]
pub enum FaultPlace {
    /// At a key of the font, by its number, and an index.
    Key { key: u8, index: u16 },
    /// In the glyph of this number.
    Glyph(usize),
    /// At the waiver of this number.
    Waiver(usize),
}

impl Fault {
    /// Where it is in its font.
    pub fn place(&self, font: &Font<'_>) -> FaultPlace
        requires key { self.now.unit ≡ 0 → self.now.step / index_count < key_count }
        ensures { result ≡ fault_place font.now (fault_value self.now) }
    {
        if self.unit == 0 {
            FaultPlace::Key {
                key: (self.step / INDEXES) as u8,
                index: (self.step % INDEXES) as u16,
            }
        } else if self.unit as usize == font.glyphs().len() + 1 {
            FaultPlace::Waiver((self.step as usize).saturating_sub(1))
        } else {
            FaultPlace::Glyph(self.unit as usize - 1)
        }
    }
}
