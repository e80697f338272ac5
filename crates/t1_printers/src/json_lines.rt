//! Lines of JSON.

ghost use Rattle.std.specs.Prelude.{◌≡◌, None, false};
ghost use Rattle.t1_printers.specs.JsonLines.{clean_written, object_written};

use crate::formatter::{Formatter, written};
use std::alloc::Global;
use t1_forms::{Told, write_font, write_object};
use t1_io::Sink;
use t1_many::Lost;
use t1_summary::FontClass;

/// Writes each as an object in a line of its own. Nothing is before or after all lines.
#[derive(Clone, Copy, Debug)]
pub struct JsonLines {
    /// Whether a font of which no line is reported has an object too.
    pub clean: bool,
}

impl Formatter for JsonLines {
    ghost has_lines = { false };

    ghost writes = { object_written };

    ghost ends = { clean_written };

    ghost finishes = { λ _ old new lost. (new ≡ old) × (lost ≡ None) };

    fn shows_lines() -> bool {
        false
    }

    fn write<W: Sink>(&mut self, alloc: Global, sink: &mut W, told: &Told<'_>) -> Result<(), Lost> {
        written(write_object(alloc, sink, told))
    }

    fn end_font<W: Sink>(
        &mut self,
        alloc: Global,
        sink: &mut W,
        name: &str,
        found: FontClass,
    ) -> Result<(), Lost> {
        let font = name.as_bytes();
        match found {
            FontClass::Clean if self.clean => {
                written(write_font(alloc, sink, font, "clean", "clean"))
            }
            FontClass::Known if self.clean => {
                written(write_font(alloc, sink, font, "known", "known faults alone"))
            }
            _ => Ok(()),
        }
    }

    fn finish<W: Sink>(self, _alloc: Global, _sink: &mut W) -> Result<(), Lost> {
        Ok(())
    }
}
