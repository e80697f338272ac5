//! OtherSubrs and their results, O01 to O04: Type 1 Font Format 1.1, chapters 6 and 8, and Technical Note 5015. Each
//! rule is broken, and then just isn't.

use crate::answers::{Rows, Table, assert_tables};
use crate::fonts::IN_A;
use std::test::Fail;

/// A number that isn't whole is unknown, and so is 65536 + 12. An unknown OtherSubr returns its arguments,
/// the first one first.
const UNKNOWN_OTHERSUBRS: Rows = "\
A: 0 500 hsbw 0 4 callothersubr endchar => A 6 O01
A: 0 500 hsbw 0 -1 callothersubr endchar => A 6 O01
A: 0 500 hsbw 0 11 callothersubr endchar => A 6 O01
A: 0 500 hsbw 0 12 callothersubr endchar =>
A: 0 500 hsbw 0 13 callothersubr endchar =>
A: 0 500 hsbw 0 14 callothersubr endchar => A 6 O01
A: 0 500 hsbw 0 18 callothersubr endchar => A 6 O01
A: 0 500 hsbw 0 65548 callothersubr endchar => A 6 O01
A: 0 500 hsbw 0 3 2 div callothersubr endchar => A 8 O01
A: 0 500 hsbw 0 24 2 div callothersubr endchar =>
A: 0 500 hsbw 7 1 3 2 div callothersubr pop hmoveto endchar => A 9 O01
5: return | A: 0 500 hsbw 5 4 2 14 callothersubr pop callsubr endchar => A 8 O01";

/// The count is whole, not negative, and at most the numbers below it; else no other rule checks the OtherSubr.
/// With fewer than two numbers there is no count.
const BAD_COUNTS: Rows = "\
0 500 hsbw 7 2 12 callothersubr hmoveto endchar => A 7 O02
0 500 hsbw 7 1 12 callothersubr endchar =>
0 500 hsbw -1 12 callothersubr endchar => A 6 O02
0 500 hsbw 0 12 callothersubr endchar =>
0 500 hsbw 7 1 2 div 12 callothersubr hmoveto endchar => A 9 O02
0 500 hsbw 7 2 2 div 12 callothersubr endchar =>
0 500 hsbw 65536 12 callothersubr endchar => A 6 O02
0 500 hsbw 7 65537 12 callothersubr hmoveto endchar => A 7 O02
0 500 hsbw 1 3 callothersubr endchar => A 6 O02
0 500 hsbw 3 0 callothersubr endchar => A 6 O02
0 500 hsbw 1 14 callothersubr endchar => A 6 O02
0 500 hsbw 12 callothersubr hmoveto endchar => A 5 C04
0 500 hsbw 0 0 0 0 0 0 0 0 0 0 0 0 0 0 0 0 0 0 0 0 0 0 23 12 callothersubr endchar => A 28 O02, A 29 C05";

/// Results wait until pop takes them or the next OtherSubr replaces them. A call with a bad count replaces
/// none, and neither does a clearing command.
const RESULTS: Rows = "\
A: 0 500 hsbw pop endchar => A 4 O04
A: 0 500 hsbw 7 1 14 callothersubr pop hmoveto endchar => A 7 O01
A: 0 500 hsbw 0 2 callothersubr pop endchar => A 6 X02, A 7 O04
A: 0 500 hsbw 7 1 12 callothersubr pop endchar => A 8 O04
A: 0 500 hsbw 7 1 13 callothersubr pop endchar => A 8 O04
A: 0 500 hsbw 50 7 0 3 0 callothersubr pop pop pop rmoveto endchar => A 9 X02, A 12 O04
5: return | A: 0 500 hsbw 5 1 3 callothersubr pop callsubr pop endchar => A 11 O04
A: 0 500 hsbw 7 1 14 callothersubr 0 14 callothersubr pop endchar => A 7 O01, A 10 O01, A 11 O04
A: 0 500 hsbw 7 1 14 callothersubr 0 hmoveto 9 12 callothersubr pop hmoveto endchar => A 7 O01, A 12 O02
A: 0 500 hsbw 0 0 0 0 0 0 0 0 0 0 0 0 0 0 0 0 0 0 0 0 0 0 22 14 callothersubr pop pop pop pop pop pop pop pop pop pop pop pop pop pop \
    pop pop pop pop pop pop pop pop pop endchar => A 28 O01, A 51 O04, A 52 C05";

/// Each OtherSubr is called with 0, 1, 2, 3 and 4 arguments, and then with one that isn't there. A call breaks O01,
/// O02 or O03, or none of them, and never two. What is a point or an end of a flex is outside a flex here.
const COUNTS: Rows = "\
0 500 hsbw 0 -1 callothersubr 0 1 -1 callothersubr 0 0 2 -1 callothersubr 0 0 0 3 -1 callothersubr 0 0 0 0 4 -1 callothersubr 5 -1 \
    callothersubr endchar => A 6 O01, A 10 O01, A 15 O01, A 21 O01, A 28 O01, A 31 O02
0 500 hsbw 0 0 callothersubr 0 1 0 callothersubr 0 0 2 0 callothersubr 0 0 0 3 0 callothersubr 0 0 0 0 4 0 callothersubr 5 0 \
    callothersubr endchar => A 6 O03, A 10 O03, A 15 O03, A 21 X02, A 28 O03, A 31 O02
0 500 hsbw 0 1 callothersubr 0 1 1 callothersubr 0 0 2 1 callothersubr 0 0 0 3 1 callothersubr 0 0 0 0 4 1 callothersubr 5 1 \
    callothersubr endchar => A 10 O03, A 15 O03, A 21 O03, A 28 O03, A 31 O02, A 32 X03
0 500 hsbw 0 2 callothersubr 0 1 2 callothersubr 0 0 2 2 callothersubr 0 0 0 3 2 callothersubr 0 0 0 0 4 2 callothersubr 5 2 \
    callothersubr endchar => A 6 X02, A 10 O03, A 15 O03, A 21 O03, A 28 O03, A 31 O02
0 500 hsbw 0 3 callothersubr 0 1 3 callothersubr 0 0 2 3 callothersubr 0 0 0 3 3 callothersubr 0 0 0 0 4 3 callothersubr 5 3 \
    callothersubr endchar => A 6 O03, A 11 R01, A 15 O03, A 21 O03, A 28 O03, A 31 O02
0 500 hsbw 0 4 callothersubr 0 1 4 callothersubr 0 0 2 4 callothersubr 0 0 0 3 4 callothersubr 0 0 0 0 4 4 callothersubr 5 4 \
    callothersubr endchar => A 6 O01, A 10 O01, A 15 O01, A 21 O01, A 28 O01, A 31 O02
0 500 hsbw 0 12 callothersubr 0 1 12 callothersubr 0 0 2 12 callothersubr 0 0 0 3 12 callothersubr 0 0 0 0 4 12 callothersubr 5 12 \
    callothersubr endchar => A 31 O02
0 500 hsbw 0 13 callothersubr 0 1 13 callothersubr 0 0 2 13 callothersubr 0 0 0 3 13 callothersubr 0 0 0 0 4 13 callothersubr 5 13 \
    callothersubr endchar => A 31 O02
0 500 hsbw 0 14 callothersubr 0 1 14 callothersubr 0 0 2 14 callothersubr 0 0 0 3 14 callothersubr 0 0 0 0 4 14 callothersubr 5 14 \
    callothersubr endchar => A 6 O01, A 10 O01, A 15 O01, A 21 O01, A 28 O01, A 31 O02";

const TABLES: &[Table] = &[
    ("", UNKNOWN_OTHERSUBRS),
    (IN_A, BAD_COUNTS),
    (IN_A, COUNTS),
    ("", RESULTS),
];

#[test]
fn othersubrs_and_results(rt: HostRuntime) -> Result<(), Fail> {
    assert_tables(&rt, rt.alloc(), TABLES)
}
