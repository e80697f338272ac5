//! Sidebearings of an accented character's components, K05 and K07: Type 1 Font Format 1.1, chapter 6. Each rule is
//! broken, and then just isn't.

use crate::answers::{Rows, Table, assert_tables};
use crate::fonts::IN_C;
use std::test::Fail;

/// The accent's sidebearing alone is compared, and exactly: neither the base's nor the glyph's own.
const ACCENTS: Rows = "\
0 500 hsbw 8 0 0 65 66 seac => C 9 K05
0 500 hsbw 0 0 0 65 66 seac => C 9 K05
0 500 hsbw -7 0 0 65 66 seac => C 9 K05
0 500 hsbw 0 0 0 66 65 seac =>
0 500 hsbw 7 0 0 66 65 seac => C 9 K05
0 500 hsbw 7 0 0 66 66 seac =>
0 500 hsbw 0 0 0 66 66 seac => C 9 K05
3 500 hsbw 7 9 -9 65 66 seac =>
0 500 hsbw 14 2 div 0 0 65 66 seac =>
0 500 hsbw 458753 65536 div 0 0 65 66 seac => C 11 K05
7 0 0 65 66 seac => C 6 W01";

/// Both numbers are kept within 32000. The sidebearing may be a fraction, and an absent one is 0.
const NUMBERS_OF_SIDEBEARINGS: Rows = "\
B: 32000 500 hsbw endchar | C: 0 500 hsbw 40000 0 0 66 66 seac => C 9 C07
B: 40000 500 hsbw endchar | C: 0 500 hsbw 32000 0 0 66 66 seac => B 3 C07
B: 40000 500 hsbw endchar | C: 0 500 hsbw 32001 0 0 66 66 seac => B 3 C07, C 9 C07
B: 40000 500 hsbw endchar | C: 0 500 hsbw 31999 0 0 66 66 seac => B 3 C07, C 9 K05
B: -40000 500 hsbw endchar | C: 0 500 hsbw -32000 0 0 66 66 seac => B 3 C07
B: 15 2 div 500 hsbw endchar | C: 0 500 hsbw 15 2 div 0 0 66 66 seac =>
B: 15 2 div 500 hsbw endchar | C: 0 500 hsbw 7 0 0 66 66 seac => C 9 K05
B: 15 2 div 500 hsbw endchar | C: 0 500 hsbw 8 0 0 66 66 seac => C 9 K05
B: hsbw endchar | C: 0 500 hsbw 0 0 0 66 66 seac => B 1 C04
B: hsbw endchar | C: 0 500 hsbw 1 0 0 66 66 seac => B 1 C04, C 9 K05
B: 7 500 8 hsbw endchar | C: 0 500 hsbw 7 0 0 66 66 seac => B 4 C05";

/// The first hsbw or sbw that is executed counts, wherever it is.
const PLACES_OF_SIDEBEARINGS: Rows = "\
B: 7 500 hsbw 8 500 hsbw endchar | C: 0 500 hsbw 7 0 0 66 66 seac => B 6 W02
B: 7 500 hsbw 8 500 hsbw endchar | C: 0 500 hsbw 8 0 0 66 66 seac => B 6 W02, C 9 K05
B: 7 9 500 0 sbw endchar | C: 0 500 hsbw 7 0 0 66 66 seac =>
B: 7 9 500 0 sbw endchar | C: 0 500 hsbw 9 0 0 66 66 seac => C 9 K05
B: 7 9 500 0 sbw 8 500 hsbw endchar | C: 0 500 hsbw 7 0 0 66 66 seac => B 8 W02
B: 7 500 hsbw 8 9 500 0 sbw endchar | C: 0 500 hsbw 8 0 0 66 66 seac => B 8 W02, C 9 K05
B: 0 hmoveto 7 500 hsbw endchar | C: 0 500 hsbw 7 0 0 66 66 seac => B 2 W01, B 5 W02
5: 7 500 hsbw return | B: 5 callsubr endchar | C: 0 500 hsbw 7 0 0 66 66 seac =>
5: 7 500 hsbw return | B: 5 callsubr endchar | C: 0 500 hsbw 5 0 0 66 66 seac => C 9 K05";

/// A component that is there and never executes hsbw or sbw has no sidebearing to compare.
const COMPONENTS_WITHOUT_A_SIDEBEARING: Rows = "\
A: endchar | B: 0 500 hsbw endchar | C: 0 500 hsbw 0 0 0 65 66 seac => A 1 W01, C 9 K07
A: endchar | B: 0 500 hsbw endchar | C: 0 500 hsbw 9 0 0 66 65 seac => A 1 W01, C 9 K07
A: endchar | C: 0 500 hsbw 9 0 0 65 65 seac => A 1 W01, C 9 K07
A: | C: 0 500 hsbw 0 0 0 65 65 seac => A 1 GE01, C 9 K07
A: endchar 0 500 hsbw | C: 0 500 hsbw 0 0 0 65 65 seac => A 1 GE02, A 1 W01, C 9 K07
4: 0 500 hsbw return | A: 5 callsubr endchar | C: 0 500 hsbw 0 0 0 65 65 seac => A 2 S01, A 3 W01, C 9 K07
A: endchar | C: 0 500 hsbw 0 0 0 68 65 seac => A 1 W01, C 9 K03, C 9 K07";

const TABLES: &[Table] = &[
    (IN_C, ACCENTS),
    ("", NUMBERS_OF_SIDEBEARINGS),
    ("", PLACES_OF_SIDEBEARINGS),
    ("", COMPONENTS_WITHOUT_A_SIDEBEARING),
];

#[test]
fn sidebearings(rt: HostRuntime) -> Result<(), Fail> {
    assert_tables(&rt, rt.alloc(), TABLES)
}
