//! Laws above the definitions: each is the contract of a function that does nothing.

ghost use Rattle.t1_reason_texts.specs.Decimals.{PlacesAreExact};
ghost use Rattle.t1_reason_texts.specs.Laws.{AreOneLine};

/// No text has a byte below 32, so none has a line end, and none has a colon, whatever names the font has.
pub fn reason_texts_are_one_line()
    ensures { AreOneLine }
{}

/// Coordinates, in units of 1/65536, numbers of a dictionary, in units of 10^-9, and their differences, middles and products are
/// written exactly: their decimal places are the part after the point, neither rounded nor cut.
pub fn numbers_are_written_exactly()
    ensures { PlacesAreExact }
{}
