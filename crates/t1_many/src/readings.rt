//! Fonts whose lines are reported by known faults, and what is found in them.

ghost use Rattle.std.specs.Prelude.{◌≡◌, ℕ, IfOk, List, false};
ghost use Rattle.t1_many.specs.Beyond.{verdict_of};
ghost use Rattle.t1_many.specs.Counts.{kind_counts, text_counts};
ghost use Rattle.t1_many.specs.Handing.{lost_of};
ghost use Rattle.t1_many.specs.KnownFaults.{counts_of};
ghost use Rattle.t1_many.specs.Private.Counts.{AreKnown};
ghost use Rattle.t1_many.specs.Readings.{IsReadingOf, Keeps, TakesKnown, as_known, by_known};
ghost use Rattle.t1_many.specs.Recipients.{recipient_by};
ghost use Rattle.t1_rules.specs.Book.{number_of};
ghost use Rattle.t1_rules.specs.Mask.{has};

use crate::beyond::BeyondKnown;
use crate::counts::{Counts, Kinds, count_kinds, count_texts};
use crate::font_error::FontError;
use crate::handing::{hand_failure, hand_report};
use crate::known::{Known, known_counts};
use crate::policy::{Lost, Policy, Taken};
use crate::printer::Printer;
use crate::verdict::{Judge, Verdict};
use std::alloc::{AllocError, Global};
use t1_font::Font;
use t1_report::{Fault, Waivers, a_font_has_one_report};
use t1_rules::{Mask, Sidebearings};

/// A font whose report was made.
#[derive(Debug, Drop)]
pub struct Reading {
    /// The font's name.
    pub font: String,
    /// How often each kind of its faults was found.
    pub counts: Counts,
}

/// Reports the lines of fonts that go beyond known faults, in a form, and keeps what was found.
#[derive(Drop)]
pub struct ReportNew<K: Known + Drop, F: Printer + Drop> {
    /// Of which rules lines are reported.
    pub rules: Mask,
    /// What is known.
    pub known: K,
    /// The printer that takes the lines.
    pub printer: F,
    /// The fonts whose reports were made, in order.
    pub readings: Vec<Reading>,
}

impl<K: Known + Drop, F: Printer + Drop> Policy for ReportNew<K, F> {
    ghost takes = { λ old new entry lost. (new.rules ≡ old.rules) × (new.known ≡ old.known)
        × TakesKnown (record { printer = recipient_by F.takes old.printer new.printer; old = old.readings.items; new = new.readings.items })
        (by_known (K.counts old.known) old.rules entry.name) old.rules entry lost };

    fn report<'a>(
        &mut self,
        alloc: Global,
        name: &str,
        font: &'a Font<'a>,
        sidebearings: &'a Sidebearings,
        waivers: &'a Waivers<'a>,
    ) -> Result<Taken, AllocError> {
        // The call of a law does nothing: the proof cites what it ensures.
        a_font_has_one_report();
        let found = count_kinds(alloc, font, sidebearings, waivers, self.rules)?;
        let both = known_and_found(alloc, name, &self.known, &found)?;
        let judge = BeyondKnown {
            rules: self.rules,
            known: &both.known,
            found: &found,
        };
        let taken = hand_report(&mut self.printer, name, font, sidebearings, waivers, &judge);
        Ok(keep(&mut self.readings, both.reading, taken))
    }

    fn failure(&mut self, name: &str, error: FontError) -> Taken {
        hand_failure(&mut self.printer, name, error)
    }
}

/// Reports no line of a report, and keeps what was found: it is to be known.
#[derive(Drop)]
pub struct UpdateBaseline<F: Printer + Drop> {
    /// Of which rules faults become known.
    pub rules: Mask,
    /// The printer that takes what is reported besides lines.
    pub printer: F,
    /// The fonts whose reports were made, in order.
    pub readings: Vec<Reading>,
}

impl<F: Printer + Drop> Policy for UpdateBaseline<F> {
    ghost takes = { λ old new entry lost. (new.rules ≡ old.rules)
        × TakesKnown (record { printer = recipient_by F.takes old.printer new.printer; old = old.readings.items; new = new.readings.items })
        (as_known old.rules) old.rules entry lost };

    fn report<'a>(
        &mut self,
        alloc: Global,
        name: &str,
        font: &'a Font<'a>,
        sidebearings: &'a Sidebearings,
        waivers: &'a Waivers<'a>,
    ) -> Result<Taken, AllocError> {
        // The call of a law does nothing: the proof cites what it ensures.
        a_font_has_one_report();
        let found = count_kinds(alloc, font, sidebearings, waivers, self.rules)?;
        let reading = read_kinds(alloc, name, &found)?;
        let judge = AsKnown { rules: self.rules };
        let taken = hand_report(&mut self.printer, name, font, sidebearings, waivers, &judge);
        Ok(keep(&mut self.readings, reading, taken))
    }

    fn failure(&mut self, name: &str, error: FontError) -> Taken {
        hand_failure(&mut self.printer, name, error)
    }
}

/// The faults of these rules become known.
#[derive(Clone, Copy)]
struct AsKnown {
    rules: Mask,
}

impl Judge for AsKnown {
    ghost judges = { λ j _ _ fault. verdict_of (has j.rules (number_of fault.rule)) false };

    fn judge(&self, _font: &Font<'_>, _waivers: &Waivers<'_>, fault: &Fault) -> Verdict {
        if self.rules.has(fault.rule) {
            Verdict::Known
        } else {
            Verdict::Skipped
        }
    }
}

/// What is known of a font, and what was found.
#[derive(Drop)]
struct KnownAndFound<'a> {
    /// How often the kinds that were found are known.
    known: Kinds<'a>,
    /// What was found, as it is kept.
    reading: Reading,
}

/// What is known of the font of a name, and what was found in it.
fn known_and_found<'a, K: Known>(
    alloc: Global,
    name: &str,
    known: &K,
    found: &Kinds<'a>,
) -> Result<KnownAndFound<'a>, AllocError>
    ensures known { IfOk result (λ both. AreKnown (K.counts known.now) name.now (kind_counts found.now.entries) (kind_counts both.known.entries)) }
    ensures reading { IfOk result (λ both. (kinds : List (List ℕ)) → text_counts (kind_counts found.now.entries) ≡ counts_of kinds
        → IsReadingOf both.reading (record { font = name.now; kinds = kinds })) }
{
    let known = known_counts(alloc, known, name, found)?;
    let reading = read_kinds(alloc, name, found)?;
    Ok(KnownAndFound { known, reading })
}

/// What was found in the font of a name, by its kinds.
fn read_kinds(alloc: Global, name: &str, found: &Kinds<'_>) -> Result<Reading, AllocError>
    ensures { IfOk result (λ reading. (kinds : List (List ℕ)) → text_counts (kind_counts found.now.entries) ≡ counts_of kinds
        → IsReadingOf reading (record { font = name.now; kinds = kinds })) }
{
    let counts = count_texts(alloc, found)?;
    let font = String::from_str(alloc, name)?;
    Ok(Reading { font, counts })
}

/// Keeps what was found in a font after what was found in others, unless the run stops there.
fn keep(readings: &mut Vec<Reading>, reading: Reading, taken: Taken) -> Taken
    ensures { Keeps readings.old.items readings.new.items reading (lost_of taken) (lost_of result) }
{
    taken?;
    match readings.push(reading) {
        Ok(()) => Ok(()),
        Err(_) => Err(Lost::Memory),
    }
}
