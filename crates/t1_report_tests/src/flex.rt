//! Starts of flexes, and what is inside and outside them, X01 to X03: Type 1 Font Format 1.1, chapter 8. Each
//! rule is broken, and then just isn't.

use crate::answers::{Rows, Table, assert_tables};
use crate::fonts::WITH_POINTS;
use std::test::Fail;

/// A start inside a flex begins the count of its points anew. One end ends the flex, however often it was
/// started.
const STARTS: Rows = "\
0 500 hsbw 0 hmoveto 0 1 callothersubr 4 callsubr 50 7 0 3 0 callothersubr closepath endchar =>
0 500 hsbw 0 hmoveto 0 1 callothersubr 0 1 callothersubr 4 callsubr 50 7 0 3 0 callothersubr closepath endchar => A 11 X01
0 500 hsbw 0 hmoveto 0 1 callothersubr 4 callsubr 50 7 0 3 0 callothersubr 0 1 callothersubr 4 callsubr 50 14 0 3 0 callothersubr \
    closepath endchar =>
0 500 hsbw 0 hmoveto 0 1 callothersubr 5 callsubr 5 callsubr 5 callsubr 0 1 callothersubr 4 callsubr 50 10 0 3 0 callothersubr \
    closepath endchar => A 35 X01
0 500 hsbw 0 hmoveto 0 1 callothersubr 5 callsubr 5 callsubr 5 callsubr 0 1 callothersubr 5 callsubr 5 callsubr 5 callsubr 5 callsubr \
    50 7 0 3 0 callothersubr closepath endchar => A 35 X01, A 73 X04
0 500 hsbw 0 hmoveto 0 1 callothersubr 7 1 1 callothersubr 4 callsubr 50 7 0 3 0 callothersubr closepath endchar => A 12 O03
0 500 hsbw 0 hmoveto 0 1 callothersubr 0 1 callothersubr 4 callsubr 50 7 0 3 0 callothersubr 50 7 0 3 0 callothersubr closepath \
    endchar => A 11 X01, A 61 X02";

/// No other rule on flex speaks of a point or an end outside one. An OtherSubr 0 with two arguments is no
/// end.
const POINTS_AND_ENDS_OUTSIDE: Rows = "\
0 500 hsbw 0 2 callothersubr endchar => A 6 X02
0 500 hsbw 50 9 9 3 0 callothersubr endchar => A 9 X02
0 500 hsbw 0 hmoveto 0 2 callothersubr 0 1 callothersubr 4 callsubr 50 7 0 3 0 callothersubr closepath endchar => A 8 X02
0 500 hsbw 0 hmoveto 0 1 callothersubr 4 callsubr 50 7 0 3 0 callothersubr 0 2 callothersubr closepath endchar => A 55 X02
0 500 hsbw 0 hmoveto 0 1 callothersubr 4 callsubr 7 0 2 0 callothersubr 50 7 0 3 0 callothersubr closepath endchar => A 51 O03";

/// Each clearing command breaks the rule but the three moves. Numbers, calls, div, pop and what isn't known
/// are no clearing commands, and neither is the end of a glyph's bytes.
const COMMANDS_INSIDE_FLEX: Rows = "\
0 500 hsbw 0 hmoveto 0 1 callothersubr dotsection 10 20 hstem 10 20 vstem 40 20 80 20 120 20 hstem3 40 20 80 20 120 20 vstem3 endchar \
    => A 9 X03, A 12 X03, A 15 X03, A 22 X03, A 29 X03, A 30 X03
0 500 hsbw 0 hmoveto 0 1 callothersubr 5 5 rlineto 5 hlineto 5 vlineto 1 2 3 4 5 6 rrcurveto 1 2 3 4 vhcurveto 1 2 3 4 hvcurveto \
    closepath endchar => A 11 X03, A 13 X03, A 15 X03, A 22 X03, A 27 X03, A 32 X03, A 33 X03, A 34 X03
0 500 hsbw 0 hmoveto 0 1 callothersubr 0 0 setcurrentpoint 0 500 hsbw 0 0 500 0 sbw endchar => A 11 X03, A 11 X06, A 14 W02, A 14 \
    X03, A 19 W02, A 19 X03, A 20 X03
0 500 hsbw 0 hmoveto 0 1 callothersubr 0 0 0 65 65 seac => A 14 X03, A 14 K04, A 14 K06
0 500 hsbw 0 hmoveto 0 1 callothersubr 1 0 rmoveto 0 2 callothersubr 0 vmoveto 0 2 callothersubr 4 2 div hmoveto 0 2 callothersubr 5 \
    callsubr 5 callsubr 0 12 callothersubr 5 callsubr 5 callsubr 50 7 0 3 0 callothersubr closepath endchar =>
0 500 hsbw 0 hmoveto 0 1 callothersubr 5 1 3 callothersubr pop callsubr 5 callsubr 5 callsubr 5 callsubr 5 callsubr 5 callsubr 5 \
    callsubr 50 7 0 3 0 callothersubr closepath endchar =>
0 500 hsbw 0 hmoveto 0 1 callothersubr #15 4 callsubr 50 7 0 3 0 callothersubr closepath endchar => A 9 C03
0 500 hsbw 0 hmoveto 0 1 callothersubr => A 9 GE01";

const TABLES: &[Table] = &[
    (WITH_POINTS, STARTS),
    (WITH_POINTS, POINTS_AND_ENDS_OUTSIDE),
    (WITH_POINTS, COMMANDS_INSIDE_FLEX),
];

#[test]
fn flexes(rt: HostRuntime) -> Result<(), Fail> {
    assert_tables(&rt, rt.alloc(), TABLES)
}
