//! Calls of Subrs and ends of charstrings, S01 to S04, GE01 and GE02: Type 1 Font Format 1.1, chapter 6. Each
//! rule is broken, and then just isn't.

use crate::answers::{Rows, Table, assert_tables};
use std::test::Fail;

/// A call takes its number off, whether it is made or not; the number may be a quotient. Subr 5 of the last
/// four calls what is on top of the stack: ten calls are made, and the eleventh isn't.
const CALLS: Rows = "\
5: return | A: 0 500 hsbw 4 callsubr endchar => A 5 S01
5: return | A: 0 500 hsbw 5 callsubr endchar =>
5: return | A: 0 500 hsbw 11 2 div callsubr endchar => A 7 S01
5: return | A: 0 500 hsbw 10 2 div callsubr endchar =>
5: return | A: 0 500 hsbw -5 callsubr endchar => A 5 S01
A: 0 500 hsbw 7 5 callsubr hmoveto endchar => A 6 S01
5: return | A: 0 500 hsbw 7 5 callsubr hmoveto endchar =>
5: 5 callsubr | A: 0 500 hsbw 5 callsubr endchar => A 5>5>5>5>5>5>5>5>5>5 25 S02, A 5>5>5>5>5>5>5>5>5>5 26 S04, A 5>5>5>5>5>5>5>5>5 \
    27 S04, A 5>5>5>5>5>5>5>5 28 S04, A 5>5>5>5>5>5>5 29 S04, A 5>5>5>5>5>5 30 S04, A 5>5>5>5>5 31 S04, A 5>5>5>5 32 S04, A 5>5>5 33 \
    S04, A 5>5 34 S04, A 5 35 S04
4: return | 5: callsubr return | A: 0 500 hsbw 4 5 5 5 5 5 5 5 5 5 5 callsubr endchar => A 5>5>5>5>5>5>5>5>5>5 25 S02
4: return | 5: callsubr return | A: 0 500 hsbw 4 5 5 5 5 5 5 5 5 5 callsubr endchar =>
5: callsubr return | A: 0 500 hsbw 4 5 5 5 5 5 5 5 5 5 5 callsubr endchar => A 5>5>5>5>5>5>5>5>5>5 25 S01, A 5>5>5>5>5>5>5>5>5>5 25 S02
5: callsubr return | A: 0 500 hsbw 5 5 5 5 5 5 5 5 5 5 callsubr endchar => A 5>5>5>5>5>5>5>5>5>5 24 C04";

/// A Subr ends with return or with the glyph; the glyph ends with endchar, in a Subr too. After endchar
/// nothing may be in its charstring, but for one return in a Subr.
const ENDS: Rows = "\
A: 0 500 hsbw return endchar => A 4 S03
A: 0 500 hsbw return => A 4 S03, A 5 GE01
5: return | A: 0 500 hsbw 5 callsubr endchar =>
5: | A: 0 500 hsbw 5 callsubr endchar => A 5 6 S04
5: endchar | A: 0 500 hsbw 5 callsubr =>
A: => A 1 GE01
A: 0 500 hsbw => A 4 GE01
A: 0 500 hsbw endchar =>
5: return | A: 0 500 hsbw 5 callsubr => A 7 GE01
A: 0 500 hsbw 0 hmoveto 5 hlineto => A 8 GE01, A 8 P02
A: 0 500 hsbw endchar endchar => A 4 GE02
A: 0 500 hsbw endchar return => A 4 GE02
5: endchar return | A: 0 500 hsbw 5 callsubr =>
5: endchar return return | A: 0 500 hsbw 5 callsubr => A 5 6 GE02
5: endchar closepath return | A: 0 500 hsbw 5 callsubr => A 5 6 GE02
5: endchar | A: 0 500 hsbw 5 callsubr closepath =>";

/// A line names the Subrs that are being executed, and a Subr that is called twice breaks a rule twice.
const FAULTS_INSIDE_SUBRS: Rows = "\
3: closepath return | 4: 3 callsubr return | 5: 4 callsubr return | A: 0 500 hsbw 5 callsubr endchar => A 5>4>3 10 P03
5: closepath return | A: 0 500 hsbw 5 callsubr 5 callsubr endchar => A 5 6 P03, A 5 10 P03
5: 5 0 rlineto closepath | A: 0 500 hsbw 5 callsubr 5 callsubr endchar => A 5 8 P01, A 5 10 S04, A 5 15 P01, A 5 17 S04";

const TABLES: &[Table] = &[("", CALLS), ("", ENDS), ("", FAULTS_INSIDE_SUBRS)];

#[test]
fn calls_and_ends(rt: HostRuntime) -> Result<(), Fail> {
    assert_tables(&rt, rt.alloc(), TABLES)
}
