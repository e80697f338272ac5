//! What writes what is reported of fonts.

ghost use Rattle.std.specs.Prelude.{◌≡◌, ℕ, Bool, List, Option, Result};
ghost use Rattle.t1_forms.specs.Tellings.{ToldValue, told_value};
ghost use Rattle.t1_io.specs.Devices.{SinkState};
ghost use Rattle.t1_many.specs.Handing.{lost_of};
ghost use Rattle.t1_many.specs.declared.policy.Lost.{Lost};
ghost use Rattle.t1_printers.specs.Formatting.{HasItsLine, Output};
ghost use Rattle.t1_printers.specs.Private.Errors.{lost_by};
ghost use Rattle.t1_summary.specs.declared.found.FontClass.{FontClass};

use std::alloc::Global;
use t1_forms::{FormatError, Told};
use t1_io::Sink;
use t1_many::Lost;
use t1_summary::FontClass;

/// Writes what is reported of fonts, one after another.
pub trait Formatter {
    // The line of what is reported is a part of what it writes.
    ghost has_lines: { Bool };

    // It wrote on a device what is reported, or stopped for a reason.
    ghost writes: { Output Self → Output Self → ToldValue → Option Lost → Type 0 };

    // It wrote on a device what is after all that is reported of a font, which was found so, or stopped.
    ghost ends: { Output Self → Output Self → List ℕ → FontClass → Option Lost → Type 0 };

    // It wrote what is after all else, or stopped.
    ghost finishes: { Self → SinkState → SinkState → Option Lost → Type 0 };

    /// Whether it writes lines. Only then the line of what is reported has to be made.
    fn shows_lines() -> bool
        ensures { result ≡ has_lines };

    /// Writes what is reported of a font.
    fn write<W: Sink>(&mut self, alloc: Global, sink: &mut W, told: &Told<'_>) -> Result<(), Lost>
        requires { HasItsLine has_lines told.now }
        ensures { writes (record { formatter = self.old; out = W.state sink.old }) (record { formatter = self.new; out = W.state sink.new })
            (told_value told.now) (lost_of result) };

    /// Writes what is after all that is reported of a font, which was found so.
    fn end_font<W: Sink>(
        &mut self,
        alloc: Global,
        sink: &mut W,
        name: &str,
        found: FontClass,
    ) -> Result<(), Lost>
        ensures { ends (record { formatter = self.old; out = W.state sink.old }) (record { formatter = self.new; out = W.state sink.new })
            name.now found (lost_of result) };

    /// Writes what is after all else, as the end of a document.
    fn finish<W: Sink>(self, alloc: Global, sink: &mut W) -> Result<(), Lost>
        ensures { finishes self (W.state sink.old) (W.state sink.new) (lost_of result) };
}

/// What was written or not, as a run over many fonts says it.
pub(crate) fn written(written: Result<(), FormatError>) -> Result<(), Lost>
    ensures { lost_of result ≡ lost_by written }
{
    match written {
        Ok(()) => Ok(()),
        Err(FormatError::Memory) => Err(Lost::Memory),
        Err(FormatError::Broken) => Err(Lost::Device),
    }
}
