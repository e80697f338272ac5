//! Laws above the definitions: each is the contract of a function that does nothing, but for calling the laws on which it rests.

ghost use Rattle.t1_answer_all.specs.Laws.{AnUpdateIsQuietNextTime, AnUpdateOfFilesIsQuietNextTime, StatusesAreByLines};

use t1_known::updates_are_read_back;
use t1_many::a_text_is_one_row;

/// After an update of the known faults, the next check of the same fonts, by the same rules and with what the update wrote, hands on no line of any
/// report. No row is reported as no longer reached, and no font as one with faults. Refusals stay, and fonts that aren't checked.
pub fn an_update_is_quiet_next_time()
    ensures { AnUpdateIsQuietNextTime }
{
    updates_are_read_back();
    a_text_is_one_row();
}

/// The same over files: after an update of known faults by the fonts of a list, another check of the same files is quiet. Both checks ended below
/// status 3: no read failed, and memory didn't run out.
pub fn an_update_of_files_is_quiet_next_time()
    ensures { AnUpdateOfFilesIsQuietNextTime }
{
    updates_are_read_back();
    a_text_is_one_row();
}

/// The status is that of faults exactly where a line was handed on whose rule makes it so.
#[tactic(auto, using(crate::proofs::FailingLines::statuses_are_by_lines))]
pub fn statuses_are_by_lines()
    ensures { StatusesAreByLines }
{}
