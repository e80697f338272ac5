//! Reports the lines of some rules of many fonts.

ghost use Rattle.std.specs.Prelude.{◌≡◌};
ghost use Rattle.t1_many.specs.Handing.{HandsFont};
ghost use Rattle.t1_many.specs.Recipients.{recipient_by};
ghost use Rattle.t1_many.specs.Verdicts.{of_rules};

use crate::font_error::FontError;
use crate::handing::{hand_failure, hand_report};
use crate::policy::{Policy, Taken};
use crate::printer::Printer;
use std::alloc::{AllocError, Global};
use t1_font::Font;
use t1_report::Waivers;
use t1_rules::{Mask, Sidebearings};

/// Reports the lines of these rules, in a form.
#[derive(Drop)]
pub struct ReportAll<F: Printer> {
    /// Of which rules lines are reported.
    pub rules: Mask,
    /// The printer that takes them.
    pub printer: F,
}

impl<F: Printer> Policy for ReportAll<F> {
    ghost takes = { λ old new entry lost. (new.rules ≡ old.rules)
        × HandsFont (recipient_by F.takes old.printer new.printer) (of_rules old.rules) entry lost };

    fn report<'a>(
        &mut self,
        _alloc: Global,
        name: &str,
        font: &'a Font<'a>,
        sidebearings: &'a Sidebearings,
        waivers: &'a Waivers<'a>,
    ) -> Result<Taken, AllocError> {
        Ok(hand_report(
            &mut self.printer,
            name,
            font,
            sidebearings,
            waivers,
            &self.rules,
        ))
    }

    fn failure(&mut self, name: &str, error: FontError) -> Taken {
        hand_failure(&mut self.printer, name, error)
    }
}
