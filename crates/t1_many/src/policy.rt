//! What is done with each font that was checked.

ghost use Rattle.std.specs.Prelude.{◌≡◌, Option};
ghost use Rattle.t1_many.specs.Ends.{TakesReport};
ghost use Rattle.t1_many.specs.Handing.{lost_of};
ghost use Rattle.t1_many.specs.Outcomes.{Entry, IsRead, failed};
ghost use Rattle.t1_many.specs.Recipients.{recipient_by};
ghost use Rattle.t1_many.specs.declared.policy.Lost.TheVariants.{Device};
ghost use Rattle.t1_report.specs.Checked.{checked};
ghost use Rattle.t1_rules.specs.Components.{AreOf};

use crate::font_error::FontError;
use std::alloc::{AllocError, Global};
use t1_font::Font;
use t1_io::Broken;
use t1_report::Waivers;
use t1_rules::Sidebearings;

/// Why a run over many fonts stops.
#[derive(Clone, Copy, Debug, PartialEq, Eq)]
pub enum Lost {
    /// A write or a flush failed.
    Device,
    /// Memory ran out while a line was written.
    Memory,
}

impl From<Broken> for Lost {
    ghost from_gives = { λ _ lost. lost ≡ Device };

    fn from(_error: Broken) -> Lost {
        Lost::Device
    }
}

/// Whether a font was taken, or why the run stops there.
pub type Taken = Result<(), Lost>;

/// What takes how the checks of fonts ended, one after another.
pub trait Policy {
    ghost use Rattle.t1_many.specs.declared.policy.Lost.{Lost};

    // It took how the check of a font ended, or stopped there for a reason.
    ghost takes: { Self → Self → Entry → Option Lost → Type 0 };

    /// Takes the report of a font. Where memory ran out before a line was written nothing was done.
    fn report<'a>(
        &mut self,
        alloc: Global,
        name: &str,
        font: &'a Font<'a>,
        sidebearings: &'a Sidebearings,
        waivers: &'a Waivers<'a>,
    ) -> Result<Taken, AllocError>
        requires read { IsRead font.now waivers.now }
        requires sidebearings { AreOf font.now sidebearings.now }
        ensures { TakesReport (recipient_by takes self.old self.new) name.now (checked font.now sidebearings.now.edition) waivers.now result };

    /// Takes why there is none.
    fn failure(&mut self, name: &str, error: FontError) -> Taken
        ensures { takes self.old self.new (record { name = name.now; outcome = failed error }) (lost_of result) };
}
