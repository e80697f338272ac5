//! A document of SARIF.

ghost use Rattle.std.specs.Prelude.{◌≡◌, true};
ghost use Rattle.t1_printers.specs.Documents.{end_written, telling_written};
ghost use Rattle.t1_printers.specs.Formatting.{nothing_ends};

use crate::formatter::{Formatter, written};
use std::alloc::Global;
use t1_forms::{Sarif, Told};
use t1_io::Sink;
use t1_many::Lost;
use t1_summary::FontClass;

/// A document that was begun by [`Sarif::begin`].
impl<'a> Formatter for Sarif<'a> {
    ghost has_lines = { true };

    ghost writes = { telling_written };

    ghost ends = { nothing_ends };

    ghost finishes = { end_written };

    fn shows_lines() -> bool
        ensures { result ≡ true }
    {
        true
    }

    fn write<W: Sink>(&mut self, alloc: Global, sink: &mut W, told: &Told<'_>) -> Result<(), Lost> {
        written(self.put(alloc, sink, told))
    }

    fn end_font<W: Sink>(
        &mut self,
        _alloc: Global,
        _sink: &mut W,
        _name: &str,
        _found: FontClass,
    ) -> Result<(), Lost> {
        Ok(())
    }

    fn finish<W: Sink>(self, alloc: Global, sink: &mut W) -> Result<(), Lost> {
        written(self.end(alloc, sink))
    }
}
