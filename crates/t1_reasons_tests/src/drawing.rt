//! Reasons of the rules on the drawing, which the fourth edition adds, in words: Type 1 Font Format 1.1, chapters 2, 3, 5 and 6.
//!
//! Each row is asked for in the third edition too, which has none of these reasons.

use crate::places::step_text;
use std::alloc::Global;
use std::process::Abort;
use std::test::Fail;
use t1_char::Edition;
use t1_rules::Rule;
use t1_samples::{Sample, assembled};

/// The words of a glyph behind its width, the step and the rule that are asked for, and the text of the reason, if there is one.
type Row = (&'static str, &'static str, u32, Rule, Option<&'static str>);

/// A square from 100 to 200, which runs anticlockwise.
const SQUARE: &str = "100 100 rmoveto 100 hlineto 100 vlineto -100 hlineto closepath endchar";

const ROWS: &[Row] = &[
    (
        "",
        "950 100 rmoveto 51 hlineto 100 vlineto -51 hlineto closepath endchar",
        8,
        Rule::P04,
        Some("x 1001 is right of FontBBox, which ends at 1000"),
    ),
    (
        "",
        "10 100 rmoveto -11 hlineto 100 vlineto 50 hlineto closepath endchar",
        8,
        Rule::P04,
        Some("x -1 is left of FontBBox, which begins at 0"),
    ),
    (
        "",
        "100 10 rmoveto -11 vlineto 100 hlineto closepath endchar",
        8,
        Rule::P04,
        Some("y -1 is below FontBBox, which begins at 0"),
    ),
    (
        "",
        "100 990 rmoveto 100 hlineto 23 2 div vlineto closepath endchar",
        12,
        Rule::P04,
        Some("y 1001.5 is above FontBBox, which ends at 1000"),
    ),
    // The first point outside is the glyph's only one.
    (
        "",
        "100 990 rmoveto 100 hlineto 23 2 div vlineto 100 hlineto closepath endchar",
        14,
        Rule::P04,
        None,
    ),
    (
        "",
        "100 100 rmoveto 100 vlineto 100 hlineto -100 vlineto closepath endchar",
        14,
        Rule::P05,
        Some("the area is -10000; 1 of 1 subpath is clockwise, from step 6"),
    ),
    // Half a unit by half a unit, the other way round: a quarter.
    (
        "",
        "100 100 rmoveto 1 2 div vlineto 1 2 div hlineto -1 2 div vlineto closepath endchar",
        20,
        Rule::P05,
        Some("the area is -0.25; 1 of 1 subpath is clockwise, from step 6"),
    ),
    // Two squares: the small one runs anticlockwise, and then clockwise as well.
    (
        "",
        "100 100 rmoveto 10 hlineto 10 vlineto -10 hlineto closepath \
         100 90 rmoveto 100 vlineto 100 hlineto -100 vlineto closepath endchar",
        24,
        Rule::P05,
        Some("the area is -9900; 1 of 2 subpaths is clockwise, from step 16"),
    ),
    (
        "",
        "100 100 rmoveto 10 vlineto 10 hlineto -10 vlineto closepath \
         90 100 rmoveto 100 vlineto 100 hlineto -100 vlineto closepath endchar",
        24,
        Rule::P05,
        Some("the area is -10100; 2 of 2 subpaths are clockwise, the first from step 6"),
    ),
    // The clockwise one comes first, and the last move draws nothing else.
    (
        "",
        "100 100 rmoveto 100 vlineto 100 hlineto -100 vlineto closepath \
         100 hmoveto 10 hlineto 10 vlineto -10 hlineto closepath 50 hmoveto endchar",
        25,
        Rule::P05,
        Some("the area is -9900; 1 of 3 subpaths is clockwise, from step 6"),
    ),
    // A flex begins a subpath where there is none: half of 100 by 100, and 150 between its curves and their chord.
    (
        "",
        "100 190 rmoveto 10 hlineto 10 vlineto -10 hlineto closepath \
         0 1 callothersubr 50 3 rmoveto 0 2 callothersubr -30 -3 rmoveto 0 2 callothersubr \
         10 3 rmoveto 0 2 callothersubr 20 0 rmoveto 0 2 callothersubr 20 0 rmoveto 0 2 callothersubr \
         10 -3 rmoveto 0 2 callothersubr 20 0 rmoveto 0 2 callothersubr \
         50 200 200 3 0 callothersubr pop pop setcurrentpoint -100 vlineto closepath endchar",
        71,
        Rule::P05,
        Some("the area is -5050; 1 of 2 subpaths is clockwise, from step 64"),
    ),
    ("", SQUARE, 14, Rule::P05, None),
    (
        "",
        "100 100 rmoveto 0 hlineto 100 hlineto 100 vlineto closepath endchar",
        8,
        Rule::P06,
        Some("all its points are 100 100"),
    ),
    (
        "",
        "100 100 rmoveto 100 hlineto -50 hlineto 100 vlineto closepath endchar",
        10,
        Rule::P07,
        Some("from 200 100 to 150 100, back over the line from 100 100"),
    ),
    (
        "",
        "100 100 rmoveto 50 hlineto 50 hlineto 100 vlineto -100 hlineto closepath endchar",
        10,
        Rule::P08,
        Some("from 150 100 to 200 100, straight on from the line from 100 100"),
    ),
    (
        "",
        "100 100 rmoveto 10 0 20 0 30 0 rrcurveto 100 vlineto closepath endchar",
        13,
        Rule::P09,
        Some("from 100 100 to 160 100, all on one straight line"),
    ),
    (
        "",
        "100 100 rmoveto 100 hlineto 0 100 -100 0 0 -100 rrcurveto closepath endchar",
        15,
        Rule::P10,
        Some("y is 156.25 at 1/4 of the curve, its ends are at 100 and 100"),
    ),
    (
        "10 hmoveto ",
        "90 100 rmoveto 100 hlineto 100 vlineto -100 hlineto closepath endchar",
        8,
        Rule::P11,
        Some("moved at step 5 too, and nothing is drawn since"),
    ),
    (
        "300 20 hstem ",
        SQUARE,
        17,
        Rule::H08,
        Some("the stem from 300 to 320 in y, set at step 6; the nearest point is at y 200"),
    ),
    (
        "300 20 hstem 400 -20 vstem ",
        SQUARE,
        20,
        Rule::H08,
        Some(
            "the stem from 300 to 320 in y, set at step 6, and 1 more; the nearest point is at y 200",
        ),
    ),
    (
        "400 -20 vstem ",
        SQUARE,
        17,
        Rule::H08,
        Some("the stem from 380 to 400 in x, set at step 6; the nearest point is at x 200"),
    ),
    // Another stem is set before it, or it is set twice.
    (
        "90 200 hstem 300 20 hstem ",
        SQUARE,
        20,
        Rule::H08,
        Some("the stem from 300 to 320 in y, set at step 9; the nearest point is at y 200"),
    ),
    (
        "300 20 hstem 320 -20 hstem ",
        SQUARE,
        20,
        Rule::H08,
        Some("the stem from 300 to 320 in y, set at step 6; the nearest point is at y 200"),
    ),
    // One of three.
    (
        "90 10 190 10 300 20 hstem3 ",
        SQUARE,
        21,
        Rule::H08,
        Some("the stem from 300 to 320 in y, set at step 10; the nearest point is at y 200"),
    ),
    // Both edges count, and of two ends that are equally near the first.
    (
        "40 300 hstem ",
        SQUARE,
        17,
        Rule::H08,
        Some("the stem from 40 to 340 in y, set at step 6; the nearest point is at y 100"),
    ),
    (
        "0 300 hstem ",
        SQUARE,
        17,
        Rule::H08,
        Some("the stem from 0 to 300 in y, set at step 6; the nearest point is at y 100"),
    ),
    // Edges count from the sidebearing that was set last.
    (
        "50 500 hsbw 400 20 vstem ",
        SQUARE,
        20,
        Rule::H08,
        Some("the stem from 450 to 470 in x, set at step 9; the nearest point is at x 250"),
    ),
    // It is set after all that is drawn.
    (
        "",
        "100 100 rmoveto 100 hlineto 100 vlineto -100 hlineto closepath 100 100 hstem endchar",
        17,
        Rule::H08,
        Some("the stem from 100 to 200 in y, set at step 16; nothing is drawn after it"),
    ),
    // A hint replacement sets it. What is drawn at 300 before doesn't count.
    (
        "90 200 hstem 5 1 3 callothersubr pop callsubr ",
        SQUARE,
        27,
        Rule::H08,
        Some("the stem from 300 to 320 in y, set at step 15; the nearest point is at y 200"),
    ),
    (
        "",
        "100 300 rmoveto 100 hlineto -100 vlineto 5 1 3 callothersubr pop callsubr -100 hlineto closepath endchar",
        24,
        Rule::H08,
        Some("the stem from 300 to 320 in y, set at step 19; the nearest point is at y 200"),
    ),
    ("90 200 hstem ", SQUARE, 17, Rule::H08, None),
    (
        "0 50 hstem 50 50 hstem ",
        SQUARE,
        9,
        Rule::H09,
        Some("50 to 100 and 0 to 50, set at step 6, share an edge"),
    ),
    (
        "0 50 50 50 200 50 hstem3 ",
        SQUARE,
        10,
        Rule::H09,
        Some("0 to 50 and 50 to 100, set at step 10, share an edge"),
    ),
    ("0 50 hstem 51 50 hstem ", SQUARE, 9, Rule::H09, None),
    (
        "200 -100 hstem ",
        SQUARE,
        6,
        Rule::H10,
        Some("200 -100 says the same as 100 100"),
    ),
    ("200 -20 hstem ", SQUARE, 6, Rule::H10, None),
];

/// The glyph T of a row has its reason in the fourth edition alone. Subr 5 sets a stem, from 300 to 320.
fn assert_row(rt: &impl Abort, alloc: Global, row: &Row) -> Result<(), Fail> {
    let (stems, drawn, step, rule, want) = *row;
    let words = format!(in alloc; "0 500 hsbw {stems}{drawn}")?;
    let sample = Sample::new(alloc)?
        .encoding(b"/Encoding StandardEncoding def /FontBBox {0 0 1000 1000} def\n")?
        .subr(5, assembled(alloc, "300 20 hstem return")?.as_slice())?
        .glyph(b"T", assembled(alloc, words.as_str())?.as_slice())?;
    let third = step_text(alloc, &sample, step, rule, Edition::Three)?;
    assert!(rt; third.is_none(), "{words} by edition 3");
    let text = step_text(alloc, &sample, step, rule, Edition::Four)?;
    match (text, want) {
        (Some(text), Some(want)) => assert_eq!(rt; text.as_str(), want, "{words}"),
        (text, want) => assert!(rt; text.is_none() && want.is_none(), "{words}"),
    }
    Ok(())
}

#[test]
fn rules_on_the_drawing_have_reasons(rt: HostRuntime) -> Result<(), Fail> {
    for row in ROWS {
        assert_row(&rt, rt.alloc(), row)?;
    }
    Ok(())
}
