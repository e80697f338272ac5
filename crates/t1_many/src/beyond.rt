//! Faults that go beyond what is known, and those that don't.

ghost use Rattle.t1_many.specs.Beyond.{verdict_beyond};
ghost use Rattle.t1_many.specs.Counts.{kind_counts};
ghost use Rattle.t1_many.specs.Kinds.{counted_in};

use crate::counts::{Kinds, count_of};
use crate::kinds::kind_of;
use crate::verdict::{Judge, Verdict};
use t1_font::Font;
use t1_report::{Fault, Waivers};
use t1_rules::Mask;

/// The faults whose rules are in a set are reported where their kinds were found more often than they are known: all of
/// a kind. The others of these rules are known faults.
#[derive(Clone, Copy)]
pub(crate) struct BeyondKnown<'a> {
    pub(crate) rules: Mask,
    pub(crate) known: &'a Kinds<'a>,
    pub(crate) found: &'a Kinds<'a>,
}

impl<'a> Judge for BeyondKnown<'a> {
    ghost judges = { λ b font waivers fault. verdict_beyond b.rules (kind_counts b.known.now.entries)
        (kind_counts b.found.now.entries) (counted_in font waivers fault) };

    fn judge(&self, font: &Font<'_>, waivers: &Waivers<'_>, fault: &Fault) -> Verdict {
        if !self.rules.has(fault.rule) {
            return Verdict::Skipped;
        }
        let kind = kind_of(font, waivers, fault);
        if count_of(self.known, &kind) < count_of(self.found, &kind) {
            Verdict::Reported
        } else {
            Verdict::Known
        }
    }
}
