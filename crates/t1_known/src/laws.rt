//! Laws above the definitions: each is the contract of a function that does nothing.

ghost use Rattle.t1_known.specs.Laws.{ATextIsReadOneWay, LinesAreReadable, ReportsAreReadable, RowsAreReadBack, UpdatesAreReached, UpdatesAreReadBack};

/// Rows that were written are read back, unless memory runs out: where no kind and no font has a line end, and no key
/// occurs twice.
pub fn rows_are_read_back()
    ensures { RowsAreReadBack }
{}

/// What `write_updated` writes is read as the updated rows, unless memory runs out. No line of a font with a reading
/// goes beyond them, and no row differs from what was found.
///
/// The old rows are those of a text that was read. Each kind of a reading is of a rule that is reported, and no kind
/// and no font has a line end.
pub fn updates_are_read_back()
    ensures read { UpdatesAreReadBack }
    ensures reached { UpdatesAreReached }
{}

/// What is found in a font can be read of its rows, where the font's name can be in a row.
pub fn lines_are_readable()
    ensures { LinesAreReadable }
{}

/// What the report of a font that was read says can be read of its rows, where the font's name can be in a row.
pub fn reports_are_readable()
    ensures { ReportsAreReadable }
{}

/// A text has one reading: its rows, or its first fault.
pub fn a_text_is_read_one_way()
    ensures { ATextIsReadOneWay }
{}
