//! The rules that the fourth edition adds on what a glyph draws, P04 to P11: Type 1 Font Format 1.1, chapters 2 and 3. Each is
//! broken, and then just isn't. The third edition reports what is beside them. `outlines`, `segments`,
//! `touched_stems` and `glyph_ends` have more of them.

use crate::answers::{Asked, assert_after};
use std::alloc::Global;
use std::process::Abort;
use std::test::Fail;
use t1_char::Edition;

/// The words of a glyph, its faults by the third edition, and those by the fourth.
pub(super) type Drawn = (&'static str, &'static str, &'static str);

/// What a font has that breaks no rule of the fourth edition, but for its FontBBox and its glyphs.
const SOUND: &str = "key: /BlueValues [] def | \
key: /RD {string currentfile exch readstring pop} executeonly def | \
key: /ND {noaccess def} executeonly def | \
key: /NP {noaccess put} executeonly def | \
encoding: /Encoding StandardEncoding def /FontMatrix [0.001 0 0 0.001 0 0] def ";

/// The box of most of these fonts, and the words are a glyph A, behind its width. Subr 5 does nothing.
pub(super) const IN_BOX: &str = "/FontBBox {0 0 1000 1000} def | 5: return | A: 0 500 hsbw ";

/// Fonts with such an entry FontBBox and these parts have the faults beside them.
pub(super) fn assert_drawn(
    rt: &impl Abort,
    alloc: Global,
    parts: &str,
    rows: &[Drawn],
) -> Result<(), Fail> {
    let front = format!(in alloc; "{SOUND}{parts}")?;
    for row in rows {
        assert_in_both(rt, alloc, front.as_str(), row)?;
    }
    Ok(())
}

fn assert_in_both(rt: &impl Abort, alloc: Global, front: &str, row: &Drawn) -> Result<(), Fail> {
    let (words, third, fourth) = *row;
    assert_after(
        rt,
        alloc,
        front,
        words,
        Asked::Report(Edition::Three),
        third,
    )?;
    assert_after(
        rt,
        alloc,
        front,
        words,
        Asked::Report(Edition::Four),
        fourth,
    )
}

/// A square that runs anticlockwise breaks nothing, and each other glyph one rule.
const GLYPHS: &[Drawn] = &[
    (
        "100 100 rmoveto 100 hlineto 100 vlineto -100 hlineto closepath endchar",
        "",
        "",
    ),
    (
        "100 100 rmoveto 100 vlineto 100 hlineto -100 vlineto closepath endchar",
        "",
        "A 14 P05",
    ),
    (
        "950 100 rmoveto 51 hlineto 100 vlineto -51 hlineto closepath endchar",
        "",
        "A 8 P04",
    ),
    (
        "950 100 rmoveto 101 2 div hlineto 100 vlineto -101 2 div hlineto closepath endchar",
        "",
        "",
    ),
    (
        "100 100 rmoveto 50 hlineto 50 hlineto 100 vlineto -100 hlineto closepath endchar",
        "",
        "A 10 P08",
    ),
    (
        "100 100 rmoveto 100 hlineto -50 hlineto 100 vlineto closepath endchar",
        "",
        "A 10 P07",
    ),
    (
        "100 100 rmoveto 0 hlineto 100 hlineto 100 vlineto closepath endchar",
        "",
        "A 8 P06",
    ),
    (
        "100 100 rmoveto 10 0 20 0 30 0 rrcurveto 100 vlineto closepath endchar",
        "",
        "A 13 P09",
    ),
    (
        "100 100 rmoveto 100 hlineto 0 100 -100 0 0 -100 rrcurveto closepath endchar",
        "",
        "A 15 P10",
    ),
    (
        "10 hmoveto 90 100 rmoveto 100 hlineto 100 vlineto -100 hlineto closepath endchar",
        "",
        "A 8 P11",
    ),
];

#[test]
fn glyphs_that_break_one_rule(rt: HostRuntime) -> Result<(), Fail> {
    assert_drawn(&rt, rt.alloc(), IN_BOX, GLYPHS)
}

/// The curves of the first lead from 100 0 by 120 0 and 130 3 to 150 3, and from there by 170 3 and 180 0 to 200 0. Of the second
/// the middle is 150 -297: between its ends no curve is three units beyond both of them. The third names another end, and is drawn
/// all the same.
const WHOLE_FLEXES: &[Drawn] = &[
    (
        "100 hmoveto 0 1 callothersubr 50 3 rmoveto 0 2 callothersubr -30 -3 rmoveto 0 2 callothersubr \
         10 3 rmoveto 0 2 callothersubr 20 0 rmoveto 0 2 callothersubr 20 0 rmoveto 0 2 callothersubr \
         10 -3 rmoveto 0 2 callothersubr 20 0 rmoveto 0 2 callothersubr \
         50 200 0 3 0 callothersubr pop pop setcurrentpoint 100 vlineto closepath endchar",
        "",
        "",
    ),
    (
        "100 hmoveto 0 1 callothersubr 50 3 rmoveto 0 2 callothersubr -30 -3 rmoveto 0 2 callothersubr \
         10 3 rmoveto 0 2 callothersubr 20 -300 rmoveto 0 2 callothersubr 20 300 rmoveto 0 2 callothersubr \
         10 -3 rmoveto 0 2 callothersubr 20 0 rmoveto 0 2 callothersubr \
         50 200 0 3 0 callothersubr pop pop setcurrentpoint 100 vlineto closepath endchar",
        "",
        "A 56 P04",
    ),
    (
        "100 hmoveto 0 1 callothersubr 50 3 rmoveto 0 2 callothersubr -30 -3 rmoveto 0 2 callothersubr \
         10 3 rmoveto 0 2 callothersubr 20 -300 rmoveto 0 2 callothersubr 20 300 rmoveto 0 2 callothersubr \
         10 -3 rmoveto 0 2 callothersubr 20 0 rmoveto 0 2 callothersubr \
         50 200 1 3 0 callothersubr pop pop setcurrentpoint 100 vlineto closepath endchar",
        "A 56 X05",
        "A 56 X05, A 56 P04",
    ),
];

/// A rule is reported once, whether one of the two curves breaks it or both do.
const FLEXES_THAT_BREAK_A_RULE: &[Drawn] = &[
    (
        "100 100 rmoveto 0 1 callothersubr {7 0 hmoveto 0 2 callothersubr} 50 100 100 3 0 callothersubr \
         pop pop setcurrentpoint 100 hlineto 100 vlineto -100 hlineto closepath endchar",
        "",
        "A 50 P06",
    ),
    (
        "100 100 rmoveto 0 1 callothersubr {7 10 hmoveto 0 2 callothersubr} 50 170 100 3 0 callothersubr \
         pop pop setcurrentpoint 100 vlineto closepath endchar",
        "",
        "A 50 P09",
    ),
    (
        "100 100 rmoveto 0 1 callothersubr 10 8 rmoveto 0 2 callothersubr {2 10 hmoveto 0 2 callothersubr} \
         10 -8 rmoveto 0 2 callothersubr {3 10 hmoveto 0 2 callothersubr} 50 170 100 3 0 callothersubr \
         pop pop setcurrentpoint 100 vlineto closepath endchar",
        "",
        "A 52 P09, A 52 P10",
    ),
];

/// A flex that is spoiled draws nothing: its end is a drawing step, so that no move is right behind a move, and it parts no lines.
/// A line inside is drawn.
const SPOILED_FLEXES: &[Drawn] = &[
    (
        "100 100 rmoveto 0 1 callothersubr 50 100 100 3 0 callothersubr pop pop setcurrentpoint \
         0 0 rmoveto 100 hlineto 100 vlineto -100 hlineto closepath endchar",
        "A 15 X04, A 21 P02",
        "A 15 X04, A 21 P02",
    ),
    (
        "100 100 rmoveto 50 hlineto 0 1 callothersubr 50 150 100 3 0 callothersubr pop pop setcurrentpoint \
         50 hlineto 100 vlineto -100 hlineto closepath endchar",
        "A 17 X04",
        "A 17 X04, A 22 P08",
    ),
    (
        "100 100 rmoveto 0 1 callothersubr 0 1 callothersubr {7 10 hmoveto 0 2 callothersubr} \
         50 170 100 3 0 callothersubr pop pop setcurrentpoint 100 vlineto closepath endchar",
        "A 12 X01",
        "A 12 X01",
    ),
    (
        "100 100 rmoveto 0 1 callothersubr 100 hlineto {7 0 hmoveto 0 2 callothersubr} \
         50 200 100 3 0 callothersubr pop pop setcurrentpoint \
         100 hlineto 100 vlineto -200 hlineto closepath endchar",
        "A 11 X03",
        "A 11 X03, A 57 P08",
    ),
    // Two lines of 3,200,001 units each.
    (
        "100 100 rmoveto 0 1 callothersubr {100 32000 hmoveto} 50 3200100 100 3 0 callothersubr 1 hlineto \
         0 1 callothersubr {100 32000 hmoveto} 50 6400101 100 3 0 callothersubr 1 hlineto 1 vlineto closepath endchar",
        "A 215 X04, A 426 X04",
        "A 215 X04, A 217 P04, A 426 X04, A 428 P08",
    ),
];

#[test]
fn flexes_that_are_drawn(rt: HostRuntime) -> Result<(), Fail> {
    assert_drawn(&rt, rt.alloc(), IN_BOX, WHOLE_FLEXES)?;
    assert_drawn(&rt, rt.alloc(), IN_BOX, FLEXES_THAT_BREAK_A_RULE)
}

#[test]
fn flexes_that_are_spoiled(rt: HostRuntime) -> Result<(), Fail> {
    assert_drawn(&rt, rt.alloc(), IN_BOX, SPOILED_FLEXES)
}

/// What a move is made for is a line, a curve, a flex or a closepath: stems and Subrs aren't.
const MOVES: &[Drawn] = &[
    (
        "10 hmoveto 10 hmoveto 80 100 rmoveto 100 hlineto 100 vlineto -100 hlineto closepath endchar",
        "",
        "A 7 P11, A 10 P11",
    ),
    (
        "100 vmoveto 100 hmoveto 100 hlineto 100 vlineto -100 hlineto closepath endchar",
        "",
        "A 7 P11",
    ),
    (
        "100 100 rmoveto 0 hmoveto 100 hlineto 100 vlineto -100 hlineto closepath endchar",
        "",
        "A 8 P11",
    ),
    (
        "10 hmoveto 100 100 hstem 90 100 rmoveto 100 hlineto 100 vlineto -100 hlineto closepath endchar",
        "",
        "A 11 P11",
    ),
    (
        "10 hmoveto 5 callsubr 90 100 rmoveto 100 hlineto 100 vlineto -100 hlineto closepath endchar",
        "",
        "A 11 P11",
    ),
    (
        "10 hmoveto closepath 90 100 rmoveto 100 hlineto 100 vlineto -100 hlineto closepath endchar",
        "A 6 P03",
        "A 6 P03",
    ),
    (
        "100 100 rmoveto 100 hlineto 100 vlineto -100 hlineto closepath 10 hmoveto 10 hmoveto endchar",
        "",
        "A 17 P11",
    ),
];

#[test]
fn moves_after_moves(rt: HostRuntime) -> Result<(), Fail> {
    assert_drawn(&rt, rt.alloc(), IN_BOX, MOVES)
}
