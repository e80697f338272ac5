//! Glyphs of more than 100,000 steps, L01: a limit of the rule book's own. No chapter of the standard has one.

use crate::answers::{Rows, Table, assert_tables};
use std::test::Fail;

/// The words are the end of a glyph that calls Subr 5 twelve times: 3 + 12 * 8333 = 99,999 steps come before them.
const LONG: &str = "5: {8330 dotsection} return | A: 0 500 hsbw {12 5 callsubr} ";

const ENDS: Rows = "\
endchar =>
dotsection endchar => A 100001 L01
closepath closepath => A 100000 P03, A 100001 L01";

/// The same with one step more in Subr 5.
const LONGER: &str = "5: {8331 dotsection} return | A: 0 500 hsbw {12 5 callsubr} ";

const ENDS_AFTER_MORE: Rows = "\
endchar => A 5 100001 L01";

/// The same with one step less.
const SHORTER: &str = "5: {8329 dotsection} return | A: 0 500 hsbw {12 5 callsubr} ";

const ENDS_AFTER_LESS: Rows = "\
{4 5 hmoveto} 5 1 3 callothersubr endchar => A 100000 R01
{4 5 hmoveto} dotsection 5 1 3 callothersubr endchar => A 100001 L01";

const TABLES: &[Table] = &[
    (LONG, ENDS),
    (LONGER, ENDS_AFTER_MORE),
    (SHORTER, ENDS_AFTER_LESS),
];

/// Step 100,000 is checked, and the next one isn't, however the glyph goes on. A replacement at step 100,000 breaks
/// nothing.
#[test]
fn glyphs_past_the_limit(rt: HostRuntime) -> Result<(), Fail> {
    assert_tables(&rt, rt.alloc(), TABLES)
}
