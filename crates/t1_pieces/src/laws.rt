//! Laws above the definitions: each is the contract of a function that does nothing, but for calling the laws on which
//! it rests.

ghost use Rattle.t1_pieces.specs.DocumentLaws.{DocumentCallsEnd, JoinedAreTheDocument, PartsFit};
ghost use Rattle.t1_pieces.specs.Laws.{CallsEnd, JoinedAreTheReport, LinesFit};
ghost use Rattle.t1_pieces.specs.T1check.{T1checkRefusesThem, T1checkTakesWaivers, T1checkWritesThem};

use t1_report::{a_font_has_one_report, marks_count_the_faults_given};

/// What is handed over from the mark of four zeros on, until no line is left, is the report. A room that holds each line
/// of the report is never too small. There is at most one call more than the report has faults.
pub fn pieces_are_the_report()
    ensures joined { JoinedAreTheReport }
    ensures fit { LinesFit }
    ensures end { CallsEnd }
{
    marks_count_the_faults_given();
}

/// The same of documents: what is handed over, until no result is left, is the document that t1check-all writes of the font.
/// A room that holds each of its parts is never too small.
pub fn pieces_are_the_document()
    ensures joined { JoinedAreTheDocument }
    ensures fit { PartsFit }
    ensures end { DocumentCallsEnd }
{
    marks_count_the_faults_given();
}

/// Of the same bytes t1check writes the lines that are handed over, or refuses them by the same code and text. The status says which, with
/// `--waive` and without.
pub fn t1check_writes_the_same()
    ensures lines { T1checkWritesThem }
    ensures waivers { T1checkTakesWaivers }
    ensures refusals { T1checkRefusesThem }
{
    a_font_has_one_report();
}
