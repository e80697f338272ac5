//! A document of JUnit's form.

ghost use Rattle.std.specs.Prelude.{◌≡◌, true};
ghost use Rattle.t1_many.specs.Handing.{lost_of};
ghost use Rattle.t1_printers.specs.Cases.{case_telling_written, case_written, cases_ended, found_written, is_checked};

use crate::formatter::{Formatter, written};
use std::alloc::Global;
use t1_forms::{JUnit, Told};
use t1_io::Sink;
use t1_many::Lost;
use t1_summary::FontClass;

/// A document that was begun by [`JUnit::begin`].
impl Formatter for JUnit {
    ghost has_lines = { true };

    ghost writes = { case_telling_written };

    ghost ends = { case_written };

    ghost finishes = { cases_ended };

    fn shows_lines() -> bool
        ensures { result ≡ true }
    {
        true
    }

    fn write<W: Sink>(&mut self, alloc: Global, sink: &mut W, told: &Told<'_>) -> Result<(), Lost> {
        written(self.put(alloc, sink, told))
    }

    fn end_font<W: Sink>(
        &mut self,
        alloc: Global,
        sink: &mut W,
        name: &str,
        found: FontClass,
    ) -> Result<(), Lost> {
        if is_checked(found) {
            put_case(self, alloc, sink, name)
        } else {
            Ok(())
        }
    }

    fn finish<W: Sink>(self, _alloc: Global, sink: &mut W) -> Result<(), Lost> {
        written(self.end(sink))
    }
}

/// Whether a font was checked, and so has no case before it is done.
fn is_checked(found: FontClass) -> bool
    ensures { result ≡ is_checked found }
{
    match found {
        FontClass::Clean | FontClass::Known | FontClass::Faulty => true,
        FontClass::Refused | FontClass::Unchecked => false,
    }
}

/// Writes the case of a font that was checked.
fn put_case<W: Sink>(
    document: &mut JUnit,
    alloc: Global,
    sink: &mut W,
    name: &str,
) -> Result<(), Lost>
    ensures { found_written (record { formatter = document.old; out = W.state sink.old })
        (record { formatter = document.new; out = W.state sink.new }) name.now (lost_of result) }
{
    written(document.put_case(alloc, sink, name.as_bytes()))
}
