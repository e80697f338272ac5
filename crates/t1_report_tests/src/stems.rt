//! Stems, H01 to H04: Type 1 Font Format 1.1, chapters 6 and 8. Each rule is broken, and then just isn't.

use crate::answers::{Rows, Table, assert_tables};
use crate::fonts::{IN_A, WITH_MANY_STEMS, WITH_POINTS};
use std::test::Fail;

/// Whatever draws is before the stem, closepath or not; a move draws nothing, and neither does an end outside a flex.
const STEMS_AFTER_DRAWING: Rows = "\
0 500 hsbw 0 hmoveto 5 hlineto 0 20 hstem closepath endchar => A 10 H01
0 500 hsbw 0 20 hstem 0 hmoveto 5 hlineto closepath endchar =>
0 500 hsbw 0 hmoveto 0 20 hstem 5 hlineto closepath endchar =>
0 500 hsbw 0 hmoveto 5 hlineto closepath 0 20 hstem 0 20 vstem 40 20 80 20 120 20 hstem3 40 20 80 20 120 20 vstem3 endchar => A 11 \
    H01, A 14 H01, A 21 H01, A 28 H01
0 500 hsbw 0 hmoveto 5 6 rlineto closepath 0 20 hstem endchar => A 12 H01
0 500 hsbw 0 hmoveto 5 vlineto closepath 0 20 hstem endchar => A 11 H01
0 500 hsbw 0 hmoveto 1 2 3 4 5 6 rrcurveto closepath 0 20 hstem endchar => A 16 H01
0 500 hsbw 0 hmoveto 1 2 3 4 vhcurveto closepath 0 20 hstem endchar => A 14 H01
0 500 hsbw 0 hmoveto 1 2 3 4 hvcurveto closepath 0 20 hstem endchar => A 14 H01
0 500 hsbw 50 0 0 3 0 callothersubr 0 20 hstem endchar => A 9 X02";

/// The end of a flex draws, and its beginning doesn't.
const STEMS_AND_FLEX: Rows = "\
0 500 hsbw 0 hmoveto 0 1 callothersubr 4 callsubr 50 7 0 3 0 callothersubr closepath 0 20 hstem endchar => A 56 H01
0 500 hsbw 0 hmoveto 0 1 callothersubr 0 20 hstem 4 callsubr 50 7 0 3 0 callothersubr closepath endchar => A 11 X03";

/// Stems that touch don't overlap, and those of different directions aren't compared. A stem is compared
/// with each one before it, not with the last alone.
const OVERLAPPING_STEMS: Rows = "\
0 500 hsbw 0 20 hstem 10 20 hstem endchar => A 9 H02
0 500 hsbw 0 20 hstem 20 20 hstem endchar =>
0 500 hsbw 20 20 hstem 0 20 hstem endchar =>
0 500 hsbw 0 20 hstem 19 20 hstem endchar => A 9 H02
0 500 hsbw 0 20 hstem 1310719 65536 div 20 hstem endchar => A 11 H02
0 500 hsbw 0 20 vstem 10 20 vstem endchar => A 9 H02
0 500 hsbw 0 20 hstem 10 20 vstem endchar =>
0 500 hsbw 0 20 hstem 0 20 vstem 10 20 hstem 10 20 vstem endchar => A 12 H02, A 15 H02
0 500 hsbw 0 20 hstem 40 20 hstem 10 5 hstem endchar => A 12 H02
0 500 hsbw 0 20 5 hstem 10 5 hstem endchar => A 7 C05, A 10 H02";

/// A negative width leads down from the position. Position and width are kept within 32000 either way, the
/// edge isn't.
const EDGES_OF_STEMS: Rows = "\
0 500 hsbw 20 -20 hstem 10 20 hstem endchar => A 9 H02
0 500 hsbw 20 -20 hstem 20 20 hstem endchar =>
0 500 hsbw 0 20 hstem 40 -20 hstem endchar =>
0 500 hsbw 0 20 hstem 39 -20 hstem endchar => A 9 H02
0 500 hsbw 0 -20 vstem 0 20 vstem endchar =>
0 500 hsbw 0 -20 vstem -10 -20 vstem endchar => A 9 H02
0 500 hsbw 32000 32000 hstem 32000 20 hstem endchar => A 9 H02
0 500 hsbw -32000 -32000 vstem -32000 -20 vstem endchar => A 9 H02
0 500 hsbw 32020 20 hstem 32000 20 hstem endchar => A 6 C07, A 9 H02
0 500 hsbw 0 40000 hstem 32000 20 hstem endchar => A 6 C07";

/// The stems of one command are compared with each other as well, and break the rule once.
const THREE_STEMS: Rows = "\
0 500 hsbw 0 20 10 20 20 20 hstem3 endchar => A 10 H02
0 500 hsbw 0 20 20 20 40 20 hstem3 endchar =>
0 500 hsbw 0 20 10 20 100 20 vstem3 endchar => A 10 H02, A 10 H04
0 500 hsbw 0 20 100 20 10 20 hstem3 endchar => A 10 H02, A 10 H04
0 500 hsbw 0 20 40 20 50 20 vstem3 endchar => A 10 H02, A 10 H04
0 500 hsbw 50 10 hstem 0 20 40 20 80 20 hstem3 endchar => A 13 H02
0 500 hsbw 0 100 hstem 0 20 40 20 80 20 hstem3 endchar => A 13 H02
0 500 hsbw 0 20 40 20 80 20 hstem3 0 1 hstem 50 1 hstem 99 1 hstem 30 5 hstem endchar => A 13 H02, A 16 H02, A 19 H02
0 500 hsbw 0 20 40 20 80 20 hstem3 0 20 40 20 80 20 vstem3 endchar =>";

/// A stem of zero width overlaps nothing. 1 / 65536 is a width, and 1 / 65537 is cut to zero.
const STEMS_OF_ZERO_WIDTH: Rows = "\
0 500 hsbw 0 0 hstem endchar => A 6 H03
0 500 hsbw 0 1 65536 div hstem endchar =>
0 500 hsbw 0 1 65537 div vstem endchar => A 8 H03
0 500 hsbw 0 0 30 20 80 0 hstem3 endchar => A 10 H03
0 500 hsbw 0 20 50 0 80 20 vstem3 endchar => A 10 H03
0 500 hsbw 0 0 40 0 80 0 hstem3 endchar => A 10 H03
0 500 hsbw 10 hstem endchar => A 5 C04, A 5 H03
0 500 hsbw 0 20 hstem 10 0 hstem 5 10 hstem endchar => A 9 H03, A 12 H02
0 500 hsbw 10 0 vstem 10 0 vstem 0 20 vstem endchar => A 6 H03, A 9 H03";

/// The first and the third stem are equally wide, and the middle of the second lies halfway between theirs.
const UNEQUAL_STEMS: Rows = "\
0 500 hsbw 0 20 40 20 80 20 hstem3 endchar =>
0 500 hsbw 80 20 45 10 0 20 vstem3 endchar =>
0 500 hsbw 0 20 81 2 div 19 80 20 hstem3 endchar =>
0 500 hsbw -32000 20 0 20 32000 20 hstem3 endchar =>
0 500 hsbw 0 20 40 20 80 21 hstem3 endchar => A 10 H04
0 500 hsbw 0 20 41 20 80 24 hstem3 endchar => A 10 H04
0 500 hsbw 0 20 41 20 80 20 vstem3 endchar => A 10 H04
0 500 hsbw 0 20 81 2 div 20 80 20 hstem3 endchar => A 12 H04
0 500 hsbw 32000 32000 32000 32000 32000 32000 hstem3 endchar => A 10 H02
0 500 hsbw -32000 -32000 32000 32000 -32000 -32000 vstem3 endchar => A 10 H02, A 10 H04";

const TABLES_OF_STEMS: &[Table] = &[
    (IN_A, STEMS_AFTER_DRAWING),
    (WITH_POINTS, STEMS_AND_FLEX),
    (IN_A, OVERLAPPING_STEMS),
    (IN_A, EDGES_OF_STEMS),
    (IN_A, THREE_STEMS),
    (IN_A, STEMS_OF_ZERO_WIDTH),
    (IN_A, UNEQUAL_STEMS),
];

#[test]
fn stems(rt: HostRuntime) -> Result<(), Fail> {
    assert_tables(&rt, rt.alloc(), TABLES_OF_STEMS)
}

/// 96 stems are kept in each direction. The 96th lies from 95 to 96. The 97th, from 96 to 97, is compared, but no
/// later stem is compared with it. A replacement makes room again.
const STEMS_KEPT: Rows = "\
0 500 hsbw 4 callsubr 94 1 hstem 94 1 hstem endchar => A 294 H02
0 500 hsbw 4 callsubr 94 1 hstem 95 1 hstem 95 1 hstem endchar => A 297 H02
0 500 hsbw 4 callsubr 94 1 hstem 95 1 hstem 96 1 hstem 96 1 hstem 95 1 hstem 0 1 hstem endchar => A 303 H02, A 306 H02
0 500 hsbw 5 callsubr 94 1 vstem 95 1 vstem 96 1 vstem 96 1 vstem 95 1 vstem 0 1 hstem 0 1 hstem endchar => A 303 H02, A 309 H02
0 500 hsbw 4 callsubr 94 1 96 1 98 1 hstem3 98 1 hstem 96 1 hstem endchar => A 301 H02
0 500 hsbw 4 callsubr 94 1 hstem 95 1 hstem 200 20 210 20 220 20 hstem3 endchar => A 301 H02
0 500 hsbw 4 callsubr 94 1 hstem 95 1 hstem 96 1 hstem 3 1 3 callothersubr pop callsubr 0 1 hstem 0 1 hstem endchar => A 310 H02";

const TABLES_OF_STEMS_THAT_ARE_KEPT: &[Table] = &[(WITH_MANY_STEMS, STEMS_KEPT)];

#[test]
fn stems_that_are_kept(rt: HostRuntime) -> Result<(), Fail> {
    assert_tables(&rt, rt.alloc(), TABLES_OF_STEMS_THAT_ARE_KEPT)
}
