//! Laws above the definitions: each is the contract of a function that does nothing, but for calling the laws on which
//! it rests.

ghost use Rattle.t1_answer.specs.Laws.Answers.{HasAnAnswer, HasNoOtherAnswer};
ghost use Rattle.t1_answer.specs.Laws.Runs.{RunsKeepPromises};

use t1_report::{a_font_has_one_report, each_font_has_a_report};

/// The options, the bytes of a file and those of the waivers decide the answer.
pub fn a_file_has_one_answer()
    ensures some { HasAnAnswer }
    ensures no_other { HasNoOtherAnswer }
{
    each_font_has_a_report();
    a_font_has_one_report();
}

/// What the ways in which a run ends say of the status, the output and standard error.
pub fn runs_keep_promises()
    ensures { RunsKeepPromises }
{}
