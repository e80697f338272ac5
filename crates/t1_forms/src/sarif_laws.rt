//! Laws of documents of SARIF: each is the contract of a function that does nothing.

ghost use Rattle.t1_forms.specs.SarifDocuments.{AllIsTold, CountsAreOfTheirUnits, DocumentsAreOfTheirRuns, MessagesHaveNoNumber, ReasonsLeaveNoTrace, UrisAreReadBack};

/// What `Sarif` writes from its beginning to its end is one document: runs with commas between them, each with its tool, its rules, the
/// results of its lines and the fonts that weren't checked.
pub fn documents_are_of_their_runs()
    ensures { DocumentsAreOfTheirRuns }
{}

/// All runs have as many results as lines were reported, and report as many fonts as weren't checked; each run of a thousand at most.
pub fn all_is_told_in_documents()
    ensures { AllIsTold }
{}

/// A result shows the line of a fault without its number, and names the font's path by a URI from which it is read back.
pub fn results_are_read_back()
    ensures messages { MessagesHaveNoNumber }
    ensures uris { UrisAreReadBack }
{}

/// What a line is known by stays where lines of other codes, or of other units, come or go, and where reasons are reported or not.
pub fn fingerprints_stay()
    ensures counts { CountsAreOfTheirUnits }
    ensures reasons { ReasonsLeaveNoTrace }
{}
