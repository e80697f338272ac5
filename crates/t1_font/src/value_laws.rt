//! Laws of the values of arrays and procedures, on a call that does nothing: Type 1 Font Format 1.1,
//! chapters 2 and 5.

ghost use Rattle.t1_font.specs.Laws.Lists.{CountsNumbers, InsideDecides, MatrixIsList, NumbersAlone, NumbersAreLists, OtherElse, OtherToken, WrittenNumbers, WrittenOthers};

/// The tokens between the brackets of an array or a procedure decide its value: numbers alone are
/// counted, and the first 16 of their values are kept; anything else is another kind. Blanks and
/// comments between change nothing, and numbers with a blank between are such an array.
pub fn lists_by_tokens()
    ensures counts { CountsNumbers }
    ensures alone { NumbersAlone }
    ensures exactly { OtherElse }
    ensures token { OtherToken }
    ensures inside { InsideDecides }
    ensures written { WrittenNumbers }
    ensures others { WrittenOthers }
    ensures lists { NumbersAreLists }
    ensures example { MatrixIsList }
{}
