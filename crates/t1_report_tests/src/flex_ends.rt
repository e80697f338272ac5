//! Points and ends of flexes, and setcurrentpoint after them, X04 to X06: Type 1 Font Format 1.1, chapters 6 and 8.
//! Each rule is broken, and then just isn't.

use crate::answers::{Rows, Table, assert_tables};
use crate::fonts::WITH_POINTS;
use std::test::Fail;

/// One move is before each point. Where one is missing or too many, each later point is faulted as
/// well, and the end.
const PAIRS: Rows = "\
0 500 hsbw 0 hmoveto 0 1 callothersubr 5 callsubr 5 callsubr 5 callsubr 5 callsubr 5 callsubr 5 callsubr 50 6 0 3 0 callothersubr \
    closepath endchar => A 62 X04
0 500 hsbw 0 hmoveto 0 1 callothersubr 4 callsubr 5 callsubr 50 8 0 3 0 callothersubr closepath endchar => A 60 X04
0 500 hsbw 0 hmoveto 0 1 callothersubr 50 0 0 3 0 callothersubr closepath endchar => A 14 X04
0 500 hsbw 0 hmoveto 0 1 callothersubr 5 callsubr 5 callsubr 5 callsubr 5 callsubr 5 callsubr 5 callsubr 1 hmoveto 1 hmoveto 0 2 \
    callothersubr 50 8 0 3 0 callothersubr closepath endchar => A 63 X04, A 69 X04
0 500 hsbw 0 hmoveto 0 1 callothersubr 1 hmoveto 4 callsubr 50 8 0 3 0 callothersubr closepath endchar => A 4 17 X04, A 4 22 X04, A 4 \
    27 X04, A 4 32 X04, A 4 37 X04, A 4 42 X04, A 4 47 X04, A 54 X04
0 500 hsbw 0 hmoveto 0 1 callothersubr 0 2 callothersubr 5 callsubr 5 callsubr 5 callsubr 5 callsubr 5 callsubr 5 callsubr 50 6 0 3 0 \
    callothersubr closepath endchar => A 11 X04, A 5 18 X04, A 5 26 X04, A 5 34 X04, A 5 42 X04, A 5 50 X04, A 5 58 X04, A 65 X04
0 500 hsbw 0 hmoveto 0 1 callothersubr 4 callsubr 1 hmoveto 50 8 0 3 0 callothersubr closepath endchar => A 54 X04
0 500 hsbw 0 hmoveto 0 1 callothersubr 4 callsubr 0 2 callothersubr 50 7 0 3 0 callothersubr closepath endchar => A 49 X04, A 55 X04
0 500 hsbw 0 hmoveto 0 1 callothersubr 5 callsubr 5 callsubr 5 callsubr 5 callsubr 5 callsubr 5 callsubr 1 hmoveto 50 7 0 3 0 \
    callothersubr closepath endchar => A 64 X04
0 500 hsbw 0 hmoveto 1 hmoveto 1 hmoveto 0 1 callothersubr 4 callsubr 50 9 0 3 0 callothersubr closepath 1 hmoveto endchar =>
0 500 hsbw 0 hmoveto 0 1 callothersubr 5 callsubr 5 callsubr 5 callsubr 5 callsubr 5 callsubr 5 callsubr 50 6 0 3 0 callothersubr 0 1 \
    callothersubr 4 callsubr 50 13 0 3 0 callothersubr closepath endchar => A 62 X04";

/// The end of a flex names the current point by its second and third arguments, exactly, and its first may
/// be anything. They aren't kept within 32000, and neither is the point.
const ENDS_OF_FLEX: Rows = "\
0 500 hsbw 0 hmoveto 0 1 callothersubr 4 callsubr 50 8 0 3 0 callothersubr closepath endchar => A 52 X05
0 500 hsbw 0 hmoveto 0 1 callothersubr 4 callsubr 50 7 1 3 0 callothersubr closepath endchar => A 52 X05
0 500 hsbw 0 hmoveto 0 1 callothersubr 4 callsubr -1 7 0 3 0 callothersubr closepath endchar =>
0 500 hsbw 0 hmoveto 0 1 callothersubr 4 callsubr 50 458753 65536 div 0 3 0 callothersubr closepath endchar => A 54 X05
0 500 hsbw 31993 hmoveto 0 1 callothersubr 4 callsubr 50 32001 0 3 0 callothersubr closepath endchar => A 52 X05
0 500 hsbw 31993 hmoveto 0 1 callothersubr 4 callsubr 50 32000 0 3 0 callothersubr closepath endchar =>
0 500 hsbw 32000 hmoveto 0 1 callothersubr 4 callsubr 50 32007 0 3 0 callothersubr closepath endchar =>
0 500 hsbw 32000 hmoveto 0 1 callothersubr 4 callsubr 50 32000 0 3 0 callothersubr closepath endchar => A 52 X05";

/// Two pops, right after the end of a flex, are right before setcurrentpoint.
const SETTINGS_OF_THE_POINT: Rows = "\
0 500 hsbw 0 hmoveto 0 1 callothersubr 4 callsubr 50 7 0 3 0 callothersubr pop pop setcurrentpoint closepath endchar =>
0 500 hsbw 0 hmoveto 0 1 callothersubr 4 callsubr 50 7 0 3 0 callothersubr pop setcurrentpoint closepath endchar => A 54 C04, A 54 X06
0 500 hsbw 0 hmoveto 0 1 callothersubr 4 callsubr 50 7 0 3 0 callothersubr pop 0 setcurrentpoint closepath endchar => A 55 X06
0 500 hsbw 0 hmoveto 0 1 callothersubr 4 callsubr 50 7 0 3 0 callothersubr pop pop pop setcurrentpoint closepath endchar => A 55 O04, \
    A 56 X06
0 500 hsbw 0 hmoveto 0 1 callothersubr 4 callsubr 50 7 0 3 0 callothersubr 9 pop pop setcurrentpoint closepath endchar => A 56 C05, A 56 X06
0 500 hsbw 0 hmoveto 0 1 callothersubr 4 callsubr 50 7 0 3 0 callothersubr pop pop 0 12 callothersubr setcurrentpoint closepath \
    endchar => A 58 X06
0 500 hsbw 0 hmoveto 0 1 callothersubr 4 callsubr 50 7 0 3 0 callothersubr pop pop setcurrentpoint 7 0 setcurrentpoint closepath \
    endchar => A 58 X06";

/// An end outside a flex serves as well, and has X02 already.
const SETTINGS_OUTSIDE_A_FLEX: Rows = "\
A: 0 500 hsbw 0 0 setcurrentpoint endchar => A 6 X06
A: 0 500 hsbw 7 0 2 14 callothersubr pop pop setcurrentpoint endchar => A 8 O01, A 11 X06
A: 0 500 hsbw 7 0 2 0 callothersubr pop pop setcurrentpoint endchar => A 8 O03, A 11 X06
A: 0 500 hsbw 50 0 0 3 0 callothersubr pop pop setcurrentpoint endchar => A 9 X02
0: 3 0 callothersubr pop pop return | A: 0 500 hsbw 50 0 0 0 callsubr setcurrentpoint endchar => A 0 11 X02, A 15 X06";

/// The usual Subrs 0 to 3 of flex, the usual Subr 4 of hint replacement, one with other stems, and a glyph A that calls them.
const WITH_USUAL_SUBRS: &str = "\
0: 3 0 callothersubr pop pop setcurrentpoint return |\
1: 0 1 callothersubr return |\
2: 0 2 callothersubr return |\
3: return |\
4: 1 3 callothersubr pop callsubr return |\
5: 10 20 hstem return |\
A: ";

/// A serif with a flex, drawn as real fonts do it, and hint replacement before a second path.
const USUAL_GLYPHS: Rows = "\
0 500 hsbw 0 20 hstem 100 0 rmoveto 1 callsubr 50 0 rmoveto 2 callsubr -40 0 rmoveto 2 callsubr 20 5 rmoveto 2 callsubr 20 0 rmoveto \
    2 callsubr 20 0 rmoveto 2 callsubr 20 -5 rmoveto 2 callsubr 10 0 rmoveto 2 callsubr 50 200 0 0 callsubr 20 vlineto -100 hlineto \
    closepath 5 4 callsubr 0 300 rmoveto 5 hlineto closepath endchar =>
0 500 hsbw 0 20 hstem 100 0 rmoveto 5 hlineto closepath 3 4 callsubr endchar =>";

/// Subr 2 has 256 points, each after its move, so that the flex has 263.
const TOO_MANY_PAIRS: Rows = "\
2: 3 callsubr 3 callsubr 3 callsubr 3 callsubr 3 callsubr 3 callsubr 3 callsubr 3 callsubr return |3: 4 callsubr 4 callsubr 4 \
    callsubr 4 callsubr 4 callsubr 4 callsubr 4 callsubr 4 callsubr return |4: 5 callsubr 5 callsubr 5 callsubr 5 callsubr return |5: \
    1 hmoveto 0 2 callothersubr return | A: 0 500 hsbw 0 hmoveto 0 1 callothersubr 2 callsubr 5 callsubr 5 callsubr 5 callsubr 5 \
    callsubr 5 callsubr 5 callsubr 5 callsubr 50 263 0 3 0 callothersubr closepath endchar => A 2337 X04";

const TABLES: &[Table] = &[
    (WITH_POINTS, PAIRS),
    (WITH_POINTS, ENDS_OF_FLEX),
    (WITH_POINTS, SETTINGS_OF_THE_POINT),
    ("", SETTINGS_OUTSIDE_A_FLEX),
    (WITH_USUAL_SUBRS, USUAL_GLYPHS),
    ("", TOO_MANY_PAIRS),
];

#[test]
fn ends_of_flexes(rt: HostRuntime) -> Result<(), Fail> {
    assert_tables(&rt, rt.alloc(), TABLES)
}
