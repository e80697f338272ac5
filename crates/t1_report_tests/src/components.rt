//! Components of accented characters, which of them are there and which are accented themselves, K03 and K04: Type 1
//! Font Format 1.1, chapter 6. Each rule is broken, and then just isn't.

use crate::answers::{Rows, Table, assert_tables};
use crate::fonts::WITH_LONG_SUBRS;
use std::test::Fail;

/// A component may not execute a seac, in a Subr either. A glyph may name itself.
const NESTED_SEACS: Rows = "\
A: 0 500 hsbw endchar | B: 0 500 hsbw 0 0 0 65 65 seac | C: 0 500 hsbw 0 0 0 66 65 seac => C 9 K04
A: 0 500 hsbw endchar | B: 0 500 hsbw 0 0 0 65 65 seac | C: 0 500 hsbw 0 0 0 65 66 seac => C 9 K04
A: 0 500 hsbw endchar | B: 0 500 hsbw 0 0 0 65 65 seac | C: 0 500 hsbw 0 0 0 66 66 seac => C 9 K04
A: 0 500 hsbw 0 0 0 65 65 seac => A 9 K04
A: 0 500 hsbw endchar | B: 0 500 hsbw 0 0 0 66 65 seac => B 9 K04
A: 0 500 hsbw endchar | B: 0 500 hsbw 0 0 0 65 66 seac => B 9 K04
A: 0 500 hsbw 0 0 0 66 66 seac | B: 0 500 hsbw 0 0 0 65 65 seac => A 9 K04, B 9 K04
5: 0 0 0 65 65 seac | A: 0 500 hsbw endchar | B: 0 500 hsbw 5 callsubr | C: 0 500 hsbw 0 0 0 66 65 seac => C 9 K04
5: 0 0 0 66 65 seac | A: 0 500 hsbw endchar | B: 0 500 hsbw 0 0 0 65 65 seac | C: 0 500 hsbw 5 callsubr => C 5 11 K04
A: 0 500 hsbw endchar | B: 0 500 hsbw endchar 0 0 0 65 65 seac | C: 0 500 hsbw 0 0 0 66 65 seac => B 4 GE02
A: 0 500 hsbw endchar | B: 0 500 hsbw seac | C: 0 500 hsbw 0 0 0 66 65 seac => B 4 C04, B 4 K02, C 9 K04
A: 0 500 hsbw endchar | B: 0 0 0 65 65 seac | C: 0 500 hsbw 0 0 0 66 65 seac => B 6 W01, C 9 K04, C 9 K07";

/// A component may be after the glyph that names it, and of a glyph that is given twice the later bytes
/// count.
const ORDERS_OF_GLYPHS: Rows = "\
C: 0 500 hsbw 0 0 0 65 65 seac | A: 0 500 hsbw endchar =>
C: 0 500 hsbw 7 0 0 65 65 seac | A: 0 500 hsbw endchar => C 9 K05
C: 0 500 hsbw 0 0 0 66 65 seac | B: 0 500 hsbw 0 0 0 65 65 seac | A: 0 500 hsbw endchar => C 9 K04
C: 0 500 hsbw 0 0 0 65 65 seac | A: endchar => C 9 K07, A 1 W01
A: endchar | A: 7 500 hsbw endchar | C: 0 500 hsbw 7 0 0 65 65 seac => CharStrings 1 F10
A: 7 500 hsbw endchar | C: 0 500 hsbw 7 0 0 65 65 seac | A: 0 500 hsbw endchar => CharStrings 1 F10, C 9 K05";

/// A code without a name has no component, and a glyph with the empty name is none.
const GLYPHS_WITHOUT_A_NAME: Rows = "\
A: 0 500 hsbw endchar | : 9 500 hsbw endchar | C: 0 500 hsbw 0 0 0 65 255 seac => C 9 K02
A: 0 500 hsbw endchar | : 0 500 hsbw 0 0 0 65 65 seac | C: 0 500 hsbw 0 0 0 65 0 seac => C 9 K02
A: 0 500 hsbw endchar | : endchar | C: 0 500 hsbw 0 0 0 255 65 seac =>  1 W01, C 9 K02";

/// An A with an acute, made as real fonts make it.
const WELL_MADE: Rows = "\
A: 20 600 hsbw 0 20 hstem 0 0 rmoveto 300 600 rlineto 300 -600 rlineto closepath endchar |acute: 90 333 hsbw 100 500 rmoveto 100 100 \
    rlineto -50 hlineto closepath endchar |Aacute: 20 600 hsbw 90 150 200 65 194 seac =>";

/// The seac of B is step 100,000 or the next, and so is its hsbw. Of a component 100,000 steps count.
const LONG_COMPONENTS: Rows = "\
A: 0 500 hsbw endchar | B: 0 500 hsbw 0 callsubr dotsection 0 0 0 65 0 seac |C: 0 500 hsbw 0 0 0 65 66 seac => B 100000 K02, C 9 K04
A: 0 500 hsbw endchar | B: 0 500 hsbw 0 callsubr dotsection dotsection 0 0 0 65 0 seac |C: 0 500 hsbw 0 0 0 65 66 seac => B 100001 L01
B: 0 callsubr dotsection dotsection dotsection dotsection dotsection dotsection dotsection 7 500 hsbw endchar | C: 0 500 hsbw 7 0 0 \
    66 66 seac => B 0>2>3>4>5 11 W01, B 100000 W02, B 100001 L01
B: 0 callsubr dotsection dotsection dotsection dotsection dotsection dotsection dotsection 7 500 hsbw endchar | C: 0 500 hsbw 8 0 0 \
    66 66 seac => B 0>2>3>4>5 11 W01, B 100000 W02, B 100001 L01, C 9 K05
B: 0 callsubr dotsection dotsection dotsection dotsection dotsection dotsection dotsection dotsection 7 500 hsbw endchar | C: 0 500 \
    hsbw 8 0 0 66 66 seac => B 0>2>3>4>5 11 W01, B 100001 L01, C 9 K07";

/// Glyphs of which B names codes without a name, and C an accent of another sidebearing.
const TWO_FAULTS: &str = "\
A: 0 500 hsbw endchar | B: 0 500 hsbw 0 0 0 0 0 seac | C: 0 500 hsbw 7 0 0 65 65 seac | ";

/// Glyphs of which C is sound.
const NO_FAULT: &str = "\
A: 0 500 hsbw endchar | B: 7 500 hsbw endchar | C: 0 500 hsbw 0 0 0 65 65 seac | ";

/// The font's own Encoding, of any form, doesn't name the components.
const ENCODINGS: Rows = "\
encoding: /Encoding StandardEncoding def => B 9 K02, C 9 K05
encoding: /Encoding 256 array dup 65 /B put def => B 9 K02, C 9 K05
encoding: /Encoding 256 array dup 0 /A put def => B 9 K02, C 9 K05";

const ENCODINGS_OF_A_SOUND_FONT: Rows = "\
encoding: /Encoding 256 array dup 65 /B put def =>
encoding: /Encoding 256 array def =>
encoding: /Encoding [/B] def => Encoding 0 F11
encoding: => Encoding 0 F11";

const TABLES: &[Table] = &[
    ("", NESTED_SEACS),
    ("", ORDERS_OF_GLYPHS),
    ("", GLYPHS_WITHOUT_A_NAME),
    ("", WELL_MADE),
    (TWO_FAULTS, ENCODINGS),
    (NO_FAULT, ENCODINGS_OF_A_SOUND_FONT),
    (WITH_LONG_SUBRS, LONG_COMPONENTS),
];

#[test]
fn components(rt: HostRuntime) -> Result<(), Fail> {
    assert_tables(&rt, rt.alloc(), TABLES)
}
