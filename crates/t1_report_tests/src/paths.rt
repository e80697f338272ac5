//! Widths and paths, W01, W02 and P01 to P03: Type 1 Font Format 1.1, chapter 6, and of paths with a flex chapter 8.
//! Each rule is broken, and then just isn't.

use crate::answers::{Rows, Table, assert_tables};
use crate::fonts::IN_A;
use std::test::Fail;

/// hsbw or sbw is the first command that takes arguments and empties the stack, and the only one.
const WIDTHS: Rows = "\
A: endchar => A 1 W01
A: 0 hmoveto 0 500 hsbw endchar => A 2 W01, A 5 W02
A: 0 0 500 0 sbw endchar =>
A: 0 12 callothersubr 0 500 hsbw endchar =>
A: 0 500 1 div hsbw endchar =>
5: 0 500 hsbw return | A: 5 callsubr endchar =>
5: 0 500 hsbw return | A: 5 callsubr 5 callsubr endchar => A 5 11 W02
A: 0 500 hsbw 0 0 500 0 sbw endchar => A 8 W02
A: 5 => A 2 GE01";

/// closepath ends what a move began: each path has its own.
const PATHS: Rows = "\
0 500 hsbw 5 hlineto closepath endchar => A 5 P01
0 500 hsbw 0 hmoveto 5 hlineto closepath endchar =>
0 500 hsbw 0 vmoveto 5 vlineto closepath 5 vlineto closepath endchar => A 10 P01
0 500 hsbw 0 vmoveto 5 vlineto closepath 0 vmoveto 5 vlineto closepath endchar =>
0 500 hsbw 1 2 rlineto 1 2 3 4 5 6 rrcurveto 1 2 3 4 vhcurveto 1 2 3 4 hvcurveto closepath endchar => A 6 P01, A 13 P01, A 18 P01, A 23 P01
0 500 hsbw 0 0 rmoveto 1 2 rlineto 1 2 3 4 5 6 rrcurveto 1 2 3 4 vhcurveto 1 2 3 4 hvcurveto closepath endchar =>
0 500 hsbw 0 hmoveto 5 hlineto endchar => A 8 P02
0 500 hsbw 0 hmoveto 5 hlineto 0 hmoveto 5 hlineto closepath endchar => A 9 P02
0 500 hsbw 0 hmoveto 0 hmoveto 5 hlineto closepath 0 hmoveto endchar =>
0 500 hsbw closepath endchar => A 4 P03
0 500 hsbw 0 hmoveto closepath 5 hlineto closepath endchar => A 6 P03, A 8 P01
0 500 hsbw 0 hmoveto 5 hlineto closepath closepath endchar => A 9 P03";

/// The usual Subrs of a flex, one that begins a flex and has its seven points, and a glyph A that calls them.
const WITH_FLEX: &str = "\
0: 3 0 callothersubr pop pop setcurrentpoint return |\
1: 0 1 callothersubr return |\
2: 0 2 callothersubr return |\
4: 1 callsubr 1 hmoveto 2 callsubr 1 hmoveto 2 callsubr 1 hmoveto 2 callsubr 1 hmoveto 2 callsubr \
1 hmoveto 2 callsubr 1 hmoveto 2 callsubr 1 hmoveto 2 callsubr return |\
A: ";

/// The end of a flex draws, so that it needs a move before the flex and a closepath after it. The
/// moves in a flex begin no path and end none.
const PATHS_WITH_A_FLEX: Rows = "\
0 500 hsbw 4 callsubr 50 7 0 0 callsubr closepath endchar => A 0 76 P01
0 500 hsbw 0 hmoveto 4 callsubr 50 7 0 0 callsubr closepath endchar =>
0 500 hsbw 0 hmoveto 4 callsubr 50 7 0 0 callsubr endchar => A 83 P02
0 500 hsbw 0 hmoveto 5 hlineto 4 callsubr 50 12 0 0 callsubr closepath endchar =>";

const TABLES: &[Table] = &[("", WIDTHS), (IN_A, PATHS), (WITH_FLEX, PATHS_WITH_A_FLEX)];

#[test]
fn widths_and_paths(rt: HostRuntime) -> Result<(), Fail> {
    assert_tables(&rt, rt.alloc(), TABLES)
}
