//! Checks fonts, and keeps what is to be kept of them.

ghost use Rattle.std.specs.Prelude.{◌≡◌, IfOk};
ghost use Rattle.t1_answer_all.specs.Checks.{ChecksFonts};
ghost use Rattle.t1_answer_all.specs.Plans.{run_of};
ghost use Rattle.t1_many.specs.Handing.{lost_of};

use crate::mode::{Borrowed, Mode};
use crate::outcome::Outcome;
use crate::plan::Plan;
use std::alloc::Global;
use t1_many::{
    Counted, FontFiles, Lost, Printer, Reading, ReportAll, ReportNew, Taken, UpdateBaseline,
    check_all,
};
use t1_summary::Tally;
use t1_waiving::{Kept, WriteWaivers};

/// What was found in fonts, besides what was written of them.
#[derive(Drop)]
pub struct Findings {
    /// How the fonts were found, and how many lines of each rule were reported.
    pub tally: Tally,
    /// The fonts whose reports were made, in order.
    pub readings: Vec<Reading>,
    /// The waivers of the fonts that have some.
    pub kept: Kept,
}

/// Checks fonts in order. The printer takes the lines that are chosen, why there is no report of a font, and how each font was found.
pub fn check_fonts<S: FontFiles, F: Printer + Drop>(
    alloc: Global,
    plan: Plan<'_>,
    files: &mut S,
    printer: F,
) -> Outcome<Result<Findings, Lost>, F>
    ensures { ChecksFonts F.takes (run_of plan.entry S.calls files.old files.new) printer result.output result.value }
{
    let (names, beside) = (plan.names, plan.beside);
    let (edition, rules) = (plan.edition, plan.rules);
    let printer = Counted {
        tally: Tally::new(),
        printer,
    };
    let readings = Vec::new(alloc);
    let kept = Kept::new(alloc);
    match plan.mode {
        Mode::ReportAll => {
            let mut all = ReportAll { rules, printer };
            let ended = check_all(alloc, names, beside, files, edition, &mut all);
            findings_of(ended, all.printer, readings, kept)
        }
        Mode::ReportNew(known) => {
            let mut beyond = ReportNew {
                rules,
                known: Borrowed { known },
                printer,
                readings,
            };
            let ended = check_all(alloc, names, beside, files, edition, &mut beyond);
            findings_of(ended, beyond.printer, beyond.readings, kept)
        }
        Mode::UpdateBaseline(_) => {
            let mut anew = UpdateBaseline {
                rules,
                printer,
                readings,
            };
            let ended = check_all(alloc, names, beside, files, edition, &mut anew);
            findings_of(ended, anew.printer, anew.readings, kept)
        }
        Mode::WriteWaivers => {
            let mut waiving = WriteWaivers {
                rules,
                printer,
                kept,
            };
            let ended = check_all(alloc, names, beside, files, edition, &mut waiving);
            findings_of(ended, waiving.printer, readings, waiving.kept)
        }
    }
}

/// What was found in fonts, unless their check stopped.
fn findings_of<F: Printer + Drop>(
    ended: Taken,
    counted: Counted<F>,
    readings: Vec<Reading>,
    kept: Kept,
) -> Outcome<Result<Findings, Lost>, F>
    ensures printer { result.output ≡ counted.printer }
    ensures lost { lost_of result.value ≡ lost_of ended }
    ensures tally { IfOk result.value (λ found. found.tally ≡ counted.tally) }
    ensures readings { IfOk result.value (λ found. found.readings.items ≡ readings.items) }
    ensures kept { IfOk result.value (λ found. found.kept ≡ kept) }
{
    let Counted { tally, printer } = counted;
    match ended {
        Ok(()) => Outcome {
            value: Ok(Findings {
                tally,
                readings,
                kept,
            }),
            output: printer,
        },
        Err(lost) => Outcome {
            value: Err(lost),
            output: printer,
        },
    }
}
