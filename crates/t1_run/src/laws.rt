//! Laws above the definitions: each is the contract of a function that does nothing, but for calling the law on which
//! it rests.

ghost use Rattle.t1_run.specs.Laws.{NeverForMemory, RefusedByPart};

/// A file is refused for its size by E05; for its segments by E01, E02 or E03; for its clear text by E04, E07 or E13;
/// for its encrypted section by E06; for its private text by E07 to E12. So no bytes are refused as out of memory. All
/// but the size is t1_font's law.
pub fn each_part_has_its_refusals()
    ensures parts { RefusedByPart }
    ensures memory { NeverForMemory }
{
    t1_font::each_part_has_its_refusals();
}
