//! The current point, by where the end of a flex has to lead, X05: Type 1 Font Format 1.1, chapters 6 and 8.

use crate::answers::{Rows, Table, assert_tables};
use crate::fonts::WITH_POINTS;
use std::test::Fail;

/// What moves the current point: the flex goes 7 to the right from there. closepath leaves it where it is.
const CURRENT_POINTS: Rows = "\
10 500 hsbw 0 hmoveto 0 1 callothersubr 4 callsubr 50 17 0 3 0 callothersubr closepath endchar =>
10 20 500 0 sbw 0 hmoveto 0 1 callothersubr 4 callsubr 50 17 20 3 0 callothersubr closepath endchar =>
0 500 hsbw 3 4 rmoveto 0 1 callothersubr 4 callsubr 50 10 4 3 0 callothersubr closepath endchar =>
0 500 hsbw -3 -4 rmoveto 0 1 callothersubr 4 callsubr 50 4 -4 3 0 callothersubr closepath endchar =>
0 500 hsbw 3 hmoveto 0 1 callothersubr 4 callsubr 50 10 0 3 0 callothersubr closepath endchar =>
0 500 hsbw 4 vmoveto 0 1 callothersubr 4 callsubr 50 7 4 3 0 callothersubr closepath endchar =>
0 500 hsbw 0 hmoveto 3 4 rlineto 0 1 callothersubr 4 callsubr 50 10 4 3 0 callothersubr closepath endchar =>
0 500 hsbw 0 hmoveto 3 hlineto 0 1 callothersubr 4 callsubr 50 10 0 3 0 callothersubr closepath endchar =>
0 500 hsbw 0 hmoveto 4 vlineto 0 1 callothersubr 4 callsubr 50 7 4 3 0 callothersubr closepath endchar =>
0 500 hsbw 0 hmoveto 1 2 30 40 500 600 rrcurveto 0 1 callothersubr 4 callsubr 50 538 642 3 0 callothersubr closepath endchar =>
0 500 hsbw 0 hmoveto 1 20 300 4000 vhcurveto 0 1 callothersubr 4 callsubr 50 4027 301 3 0 callothersubr closepath endchar =>
0 500 hsbw 0 hmoveto 1 20 300 4000 hvcurveto 0 1 callothersubr 4 callsubr 50 28 4300 3 0 callothersubr closepath endchar =>
0 500 hsbw 3 4 rmoveto 5 6 rlineto closepath 0 hmoveto 0 1 callothersubr 4 callsubr 50 15 10 3 0 callothersubr closepath endchar =>
0 500 hsbw 10 20 hstem dotsection 3 hmoveto 0 1 callothersubr 4 callsubr 50 10 0 3 0 callothersubr closepath endchar =>
0 500 hsbw 1 2 div hmoveto 1 2 div hmoveto 0 1 callothersubr 4 callsubr 50 8 0 3 0 callothersubr closepath endchar =>
0 500 hsbw 0 hmoveto 0 1 callothersubr 4 callsubr 50 7 0 3 0 callothersubr pop pop setcurrentpoint 0 1 callothersubr 4 callsubr 50 14 \
    0 3 0 callothersubr closepath endchar =>";

/// hsbw, sbw and setcurrentpoint set the point wherever they are. Arguments are kept within 32000, and are
/// those at the bottom of the stack.
const POINTS_OF_FAULTY_COMMANDS: Rows = "\
0 500 hsbw 0 hmoveto 20 30 setcurrentpoint 0 1 callothersubr 4 callsubr 50 27 30 3 0 callothersubr closepath endchar => A 8 X06
0 500 hsbw 0 hmoveto 20 30 setcurrentpoint 0 1 callothersubr 4 callsubr 50 7 0 3 0 callothersubr closepath endchar => A 8 X06, A 55 X05
0 500 hsbw 0 hmoveto 0 1 callothersubr 4 callsubr 50 8 0 3 0 callothersubr pop pop setcurrentpoint 0 1 callothersubr 4 callsubr 50 15 \
    0 3 0 callothersubr closepath endchar => A 52 X05
0 500 hsbw 3 4 rmoveto 20 500 hsbw 0 1 callothersubr 4 callsubr 50 27 0 3 0 callothersubr closepath endchar => A 9 W02
0 500 hsbw 3 4 rmoveto hsbw 0 1 callothersubr 4 callsubr 50 7 0 3 0 callothersubr closepath endchar => A 7 C04, A 7 W02
0 500 hsbw 3 4 rmoveto 20 setcurrentpoint 0 1 callothersubr 4 callsubr 50 27 0 3 0 callothersubr closepath endchar => A 8 C04, A 8 X06
0 500 hsbw 3 4 rmoveto 20 30 500 0 sbw 0 1 callothersubr 4 callsubr 50 27 30 3 0 callothersubr closepath endchar => A 11 W02
0 500 hsbw 40000 hmoveto 0 1 callothersubr 4 callsubr 50 32007 0 3 0 callothersubr closepath endchar => A 5 C07
0 500 hsbw 3 9 hmoveto 0 1 callothersubr 4 callsubr 50 10 0 3 0 callothersubr closepath endchar => A 6 C05
0 500 hsbw 3 rmoveto 0 1 callothersubr 4 callsubr 50 10 0 3 0 callothersubr closepath endchar => A 5 C04
0 500 hsbw 0 hmoveto 5 #15 0 1 callothersubr 4 callsubr 50 7 0 3 0 callothersubr closepath endchar => A 7 C03";

/// Subr 0 makes 42,837 moves: Subr 5 makes ten of them, and Subrs 4, 3 and 2 call the next one ten times.
/// Subr 1 has the seven points of a flex. Glyph A may call them.
const FAR_RIGHT: &str = "\
0: {4 2 callsubr} {2 3 callsubr} {8 4 callsubr} {3 5 callsubr} {7 32000 hmoveto} return |\
1: {7 1 hmoveto 0 2 callothersubr} return |\
2: {10 3 callsubr} return |\
3: {10 4 callsubr} return |\
4: {10 5 callsubr} return |\
5: {10 32000 hmoveto} return |\
A: ";

/// The same with moves down.
const FAR_DOWN: &str = "\
0: {4 2 callsubr} {2 3 callsubr} {8 4 callsubr} {3 5 callsubr} {7 -32000 vmoveto} return |\
1: {7 1 hmoveto 0 2 callothersubr} return |\
2: {10 3 callsubr} return |\
3: {10 4 callsubr} return |\
4: {10 5 callsubr} return |\
5: {10 -32000 vmoveto} return |\
A: ";

/// A flex far away, and one with all the moves inside it, up to the last step that is checked. The arguments
/// of an end may be as great as numbers are.
const FAR_RIGHT_POINTS: Rows = "\
0 500 hsbw 0 callsubr 0 1 callothersubr 1 callsubr 50 1370784007 0 3 0 callothersubr closepath endchar =>
0 500 hsbw 0 callsubr 0 1 callothersubr 1 callsubr 50 1370784008 0 3 0 callothersubr closepath endchar => A 99998 X05
0 500 hsbw 0 hmoveto 0 1 callothersubr 0 callsubr 1 callsubr 50 1370784007 0 3 0 callothersubr closepath endchar => A 1 99963 X04, A \
    1 99968 X04, A 1 99973 X04, A 1 99978 X04, A 1 99983 X04, A 1 99988 X04, A 1 99993 X04, A 100000 X04, A 100001 L01";

const FAR_DOWN_POINTS: Rows = "\
0 500 hsbw 0 callsubr 0 1 callothersubr 1 callsubr 50 7 -1370784000 3 0 callothersubr closepath endchar =>
0 500 hsbw 0 callsubr 0 1 callothersubr 1 callsubr 50 7 -1370784001 3 0 callothersubr closepath endchar => A 99998 X05";

const TABLES: &[Table] = &[
    (WITH_POINTS, CURRENT_POINTS),
    (WITH_POINTS, POINTS_OF_FAULTY_COMMANDS),
    (FAR_RIGHT, FAR_RIGHT_POINTS),
    (FAR_DOWN, FAR_DOWN_POINTS),
];

#[test]
fn current_points(rt: HostRuntime) -> Result<(), Fail> {
    assert_tables(&rt, rt.alloc(), TABLES)
}
