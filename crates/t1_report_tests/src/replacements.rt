//! Hint replacement, R01 and R02, and stems after it: Type 1 Font Format 1.1, chapter 8. Each rule is broken, and
//! then just isn't.

use crate::answers::{Rows, Table, assert_tables};
use std::test::Fail;

/// A replacement begins the stems of both directions anew, and stems may be after drawing again. An
/// OtherSubr 3 with two arguments replaces nothing. Subr 4 is the usual one, whose argument is a Subr's number.
const REPLACED_STEMS: Rows = "\
5: 10 20 hstem return | A: 0 500 hsbw 0 20 hstem 0 hmoveto 5 hlineto 5 vlineto closepath 5 1 3 callothersubr pop callsubr endchar =>
5: 10 20 hstem return | A: 0 500 hsbw 0 20 hstem 0 hmoveto 5 hlineto 5 vlineto closepath 5 callsubr endchar => A 5 18 H01, A 5 18 H02
5: 10 20 hstem return | A: 0 500 hsbw 0 20 hstem 0 hmoveto 5 hlineto 5 1 3 callothersubr pop callsubr 5 vlineto closepath endchar =>
5: return | A: 0 500 hsbw 0 20 hstem 0 20 vstem 5 1 3 callothersubr pop callsubr 10 20 hstem 10 20 vstem endchar =>
5: return | A: 0 500 hsbw 0 20 hstem 5 1 3 callothersubr pop callsubr 10 20 hstem 10 20 hstem endchar => A 19 H02
5: return | A: 0 500 hsbw 0 hmoveto 5 hlineto closepath 5 1 3 callothersubr pop callsubr 0 20 hstem 0 hmoveto 5 hlineto closepath 40 \
    20 hstem endchar => A 26 H01
5: return | A: 0 500 hsbw 0 20 hstem 0 hmoveto 5 hlineto closepath 5 5 2 3 callothersubr pop callsubr 10 20 hstem endchar => A 16 \
    O03, A 22 H01, A 22 H02
4: 1 3 callothersubr pop callsubr return | 5: 10 20 hstem return | A: 0 500 hsbw 0 20 hstem 0 hmoveto 5 hlineto closepath 5 4 \
    callsubr 0 hmoveto 5 hlineto closepath endchar =>";

/// What is executed next counts, also across the end of a Subr, or at the end of a glyph.
const STEPS_BEHIND_A_REPLACEMENT: Rows = "\
5: return | A: 0 500 hsbw 5 1 3 callothersubr endchar => A 8 R01
5: return | A: 0 500 hsbw 5 1 3 callothersubr pop callsubr endchar =>
5: return | A: 0 500 hsbw 5 1 3 callothersubr 5 callsubr endchar => A 8 R01
5: return | A: 0 500 hsbw 5 1 3 callothersubr callsubr endchar => A 8 C04, A 8 R01
A: 0 500 hsbw 5 1 3 callothersubr => A 8 GE01, A 8 R01
4: 5 1 3 callothersubr return | 5: return | A: 0 500 hsbw 4 callsubr pop callsubr endchar => A 4 10 R01
4: 5 1 3 callothersubr | 5: return | A: 0 500 hsbw 4 callsubr pop callsubr endchar => A 4 10 S04, A 4 10 R01
A: 0 500 hsbw 5 5 2 3 callothersubr endchar => A 8 O03
A: 0 500 hsbw 5 1 3 callothersubr pop hmoveto endchar => A 9 R02
5: return | A: 0 500 hsbw 5 1 3 callothersubr pop 5 callsubr hmoveto endchar => A 9 R02
5: return | A: 0 500 hsbw 5 1 3 callothersubr pop pop callsubr endchar => A 9 R02, A 9 O04
A: 0 500 hsbw 5 1 3 callothersubr pop callsubr endchar => A 9 S01
A: 0 500 hsbw 5 1 3 callothersubr pop => A 9 GE01, A 9 R02
4: 5 1 3 callothersubr pop return | 5: return | A: 0 500 hsbw 4 callsubr callsubr endchar => A 4 11 R02";

const TABLES: &[Table] = &[("", REPLACED_STEMS), ("", STEPS_BEHIND_A_REPLACEMENT)];

#[test]
fn hint_replacements(rt: HostRuntime) -> Result<(), Fail> {
    assert_tables(&rt, rt.alloc(), TABLES)
}
