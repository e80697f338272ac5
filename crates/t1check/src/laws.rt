//! The law above the contracts: that of a function that does nothing, but for calling the law on which it rests.

ghost use Rattle.t1check.specs.Laws.{WordsAndFilesAreAnswered};

use t1_answer::runs_keep_promises;

/// Unless the status is 3, requested help was printed. Or the words of the command line, the bytes of the font that
/// they name, and those of the waivers have their one answer: this was printed, with this status.
pub fn words_and_files_are_answered()
    ensures { WordsAndFilesAreAnswered }
{
    runs_keep_promises();
}
