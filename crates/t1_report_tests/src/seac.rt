//! Codes of an accented character's components, and what is beside a seac, K01 to K03 and K06: Type 1 Font
//! Format 1.1, chapter 6. Each rule is broken, and then just isn't.

use crate::answers::{Rows, Table, assert_tables};
use crate::fonts::IN_C;
use std::test::Fail;

/// A code is whole and from 0 to 255; a quotient may be one. 4259841 / 65536 is 1/65536 above 65.
const CODES: Rows = "\
0 500 hsbw 7 0 0 65 66 seac =>
0 500 hsbw 7 0 0 -1 66 seac => C 9 K01
0 500 hsbw 7 0 0 65 -1 seac => C 9 K01
0 500 hsbw 7 0 0 256 66 seac => C 9 K01
0 500 hsbw 7 0 0 65 256 seac => C 9 K01
0 500 hsbw 7 0 0 131 2 div 66 seac => C 11 K01
0 500 hsbw 7 0 0 65 131 2 div seac => C 11 K01
0 500 hsbw 7 0 0 130 2 div 66 seac =>
0 500 hsbw 7 0 0 65 132 2 div seac =>
0 500 hsbw 7 0 0 4259841 65536 div 66 seac => C 11 K01
0 500 hsbw 7 0 0 -1 65536 div 66 seac => C 11 K01
0 500 hsbw 7 0 0 16711681 65536 div 66 seac => C 11 K01
0 500 hsbw 7 0 0 40000 66 seac => C 9 C07, C 9 K01
0 500 hsbw 7 0 0 65 -2147483648 seac => C 9 C07, C 9 K01";

/// A code from 0 to 255 may have no name, and an absent code is 0. A rule is broken once, by one code or both.
const CODES_WITHOUT_A_NAME: Rows = "\
0 500 hsbw 7 0 0 255 66 seac => C 9 K02
0 500 hsbw 7 0 0 65 255 seac => C 9 K02
0 500 hsbw 7 0 0 0 66 seac => C 9 K02
0 500 hsbw 9 0 0 65 0 seac => C 9 K02
0 500 hsbw 7 0 0 0 0 seac => C 9 K02
0 500 hsbw 7 0 0 0 255 seac => C 9 K02
0 500 hsbw 7 0 0 -1 256 seac => C 9 K01
0 500 hsbw 7 0 0 -1 255 seac => C 9 K01, C 9 K02
0 500 hsbw 7 0 0 0 256 seac => C 9 K01, C 9 K02
0 500 hsbw seac => C 4 C04, C 4 K02
0 500 hsbw 9 0 0 65 seac => C 8 C04, C 8 K02
0 500 hsbw 7 0 0 65 66 255 seac => C 10 C05
0 500 hsbw 255 7 0 0 65 66 seac => C 10 C05, C 10 K02, C 10 K05";

/// Codes 68, 69, 98 and 194 are D, E, b and acute, which aren't in the font. Of a component that isn't there
/// nothing else is checked.
const COMPONENTS_THAT_ARE_NOT_THERE: Rows = "\
0 500 hsbw 7 0 0 68 66 seac => C 9 K03
0 500 hsbw 9 0 0 65 68 seac => C 9 K03
0 500 hsbw 7 0 0 68 69 seac => C 9 K03
0 500 hsbw 7 0 0 68 68 seac => C 9 K03
0 500 hsbw 7 0 0 65 98 seac => C 9 K03
0 500 hsbw 7 0 0 65 194 seac => C 9 K03
0 500 hsbw 7 0 0 -1 68 seac => C 9 K01, C 9 K03
0 500 hsbw 7 0 0 68 0 seac => C 9 K02, C 9 K03
0 500 hsbw 9 0 0 65 133 2 div seac => C 11 K01";

const TABLES_OF_CODES_OF_SEAC: &[Table] = &[
    (IN_C, CODES),
    (IN_C, CODES_WITHOUT_A_NAME),
    (IN_C, COMPONENTS_THAT_ARE_NOT_THERE),
];

#[test]
fn codes_of_seac(rt: HostRuntime) -> Result<(), Fail> {
    assert_tables(&rt, rt.alloc(), TABLES_OF_CODES_OF_SEAC)
}

/// What draws, moves, or adds stems may not be before a seac; the end of a flex draws, and an end
/// outside a flex doesn't.
const COMMANDS_BEFORE_SEAC: Rows = "\
0 500 hsbw 0 hmoveto 7 0 0 65 66 seac => C 11 K06
0 500 hsbw 0 vmoveto 7 0 0 65 66 seac => C 11 K06
0 500 hsbw 0 0 rmoveto 7 0 0 65 66 seac => C 12 K06
0 500 hsbw 5 hlineto 7 0 0 65 66 seac => C 5 P01, C 11 P02, C 11 K06
0 500 hsbw 5 vlineto 7 0 0 65 66 seac => C 5 P01, C 11 P02, C 11 K06
0 500 hsbw 5 5 rlineto 7 0 0 65 66 seac => C 6 P01, C 12 P02, C 12 K06
0 500 hsbw 1 2 3 4 5 6 rrcurveto 7 0 0 65 66 seac => C 10 P01, C 16 P02, C 16 K06
0 500 hsbw 1 2 3 4 vhcurveto 7 0 0 65 66 seac => C 8 P01, C 14 P02, C 14 K06
0 500 hsbw 1 2 3 4 hvcurveto 7 0 0 65 66 seac => C 8 P01, C 14 P02, C 14 K06
0 500 hsbw 0 20 hstem 7 0 0 65 66 seac => C 12 K06
0 500 hsbw 0 20 vstem 7 0 0 65 66 seac => C 12 K06
0 500 hsbw 40 20 80 20 120 20 hstem3 7 0 0 65 66 seac => C 16 K06
0 500 hsbw 40 20 80 20 120 20 vstem3 7 0 0 65 66 seac => C 16 K06
0 500 hsbw closepath 7 0 0 65 66 seac => C 4 P03, C 10 K06
0 500 hsbw 0 20 hstem 0 hmoveto 5 hlineto closepath 7 0 0 65 66 seac => C 17 K06
0 500 hsbw 0 1 callothersubr 50 0 0 3 0 callothersubr 7 0 0 65 66 seac => C 12 P01, C 12 X04, C 18 P02, C 18 K06
0 500 hsbw 0 1 callothersubr 1 hmoveto 7 0 0 65 66 seac => C 14 X03, C 14 K06
0 500 hsbw 50 0 0 3 0 callothersubr 7 0 0 65 66 seac => C 9 X02";

/// Nothing else before a seac breaks the rule.
const HARMLESS_BEFORE_SEAC: Rows = "\
0 500 hsbw 0 1 callothersubr 7 0 0 65 66 seac => C 12 X03
0 500 hsbw 0 1 callothersubr 0 2 callothersubr 7 0 0 65 66 seac => C 9 X04, C 15 X03
0 500 hsbw dotsection 7 0 0 65 66 seac =>
0 500 hsbw 0 0 setcurrentpoint 7 0 0 65 66 seac => C 6 X06
0 500 hsbw 0 500 hsbw 7 0 0 65 66 seac => C 6 W02
0 0 500 0 sbw 7 0 0 65 66 seac =>
0 500 hsbw #15 7 0 0 65 66 seac => C 4 C03
0 500 hsbw 0 12 callothersubr 7 0 0 65 66 seac =>
0 500 hsbw 7 0 0 65 66 seac 0 hmoveto endchar => C 9 GE02";

/// What a Subr executes is before the seac, and a seac may be in a Subr.
const SUBRS_AND_SEAC: Rows = "\
5: return | A: 0 500 hsbw endchar | C: 0 500 hsbw 5 1 3 callothersubr pop callsubr 0 0 0 65 65 seac =>
5: 0 20 hstem return | A: 0 500 hsbw endchar | C: 0 500 hsbw 5 callsubr 0 0 0 65 65 seac => C 15 K06
5: 0 0 0 65 65 seac | A: 0 500 hsbw endchar | C: 0 500 hsbw 0 hmoveto 5 callsubr => C 5 13 K06
5: 0 20 hstem return | A: 0 500 hsbw 5 callsubr endchar | C: 0 500 hsbw 0 0 0 65 65 seac =>";

/// Several rules at one step come in their order, each once.
const RULES_AT_ONE_STEP: Rows = "\
A: 0 500 hsbw endchar | B: 7 500 hsbw 0 0 0 65 65 seac | C: 0 500 hsbw 0 hmoveto 0 0 0 68 66 seac => C 11 K03, C 11 K04, C 11 K05, C 11 K06
A: 0 500 hsbw endchar | B: 7 500 hsbw 0 0 0 65 65 seac | D: endchar |C: 0 500 hsbw 0 hmoveto 0 0 0 68 66 seac => D 1 W01, C 11 K04, C \
    11 K05, C 11 K06, C 11 K07
A: 0 500 hsbw endchar | B: 7 500 hsbw 0 0 0 65 65 seac | C: 0 500 hsbw 0 hmoveto 0 0 0 -1 66 seac => C 11 K01, C 11 K04, C 11 K05, C 11 K06
A: 0 500 hsbw endchar | C: 40000 0 0 0 65 9 seac endchar => C 7 C05, C 7 C07, C 7 GE02, C 7 W01, C 7 K02, C 7 K05
A: 0 500 hsbw endchar | C: 0 500 hsbw 0 hmoveto 5 hlineto 0 1 callothersubr 0 0 0 65 255 seac => C 16 P02, C 16 X03, C 16 K02, C 16 K06";

const TABLES_OF_COMMANDS_BESIDE_SEAC: &[Table] = &[
    (IN_C, COMMANDS_BEFORE_SEAC),
    (IN_C, HARMLESS_BEFORE_SEAC),
    ("", SUBRS_AND_SEAC),
    ("", RULES_AT_ONE_STEP),
];

#[test]
fn commands_beside_seac(rt: HostRuntime) -> Result<(), Fail> {
    assert_tables(&rt, rt.alloc(), TABLES_OF_COMMANDS_BESIDE_SEAC)
}
