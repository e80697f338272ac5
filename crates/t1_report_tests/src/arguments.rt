//! Tokens and the numbers that they take, C01 to C09: Type 1 Font Format 1.1, chapters 6 and 7. Each rule is broken,
//! and then just isn't.

use crate::answers::{Asked, Rows, Table, answer_to, assert_answer, assert_tables};
use crate::fonts::IN_A;
use std::alloc::Global;
use std::test::Fail;
use t1_samples::{CLEAR, FontFile};

/// Private texts with an encrypted glyph, and the faults: four encrypted zero bytes, and then nothing or `0 500 hsbw
/// endchar`. Under lenIV 0 all bytes count.
const ENCRYPTED: &[(&[u8], &str)] = &[
    (
        b"/password 5839 def /MinFeature {16 16} def /lenIV 4 def /CharStrings 1 dict dup begin /.notdef 3 RD \x10\xbf\x31 ND end",
        ".notdef 1 C01, .notdef 2 GE01",
    ),
    (
        b"/password 5839 def /MinFeature {16 16} def /lenIV 4 def /CharStrings 1 dict dup begin /.notdef 4 RD \x10\xbf\x31\x70 ND end",
        ".notdef 1 GE01",
    ),
    (
        b"/password 5839 def /MinFeature {16 16} def /lenIV 4 def /CharStrings 1 dict dup begin /.notdef 9 RD \x10\xbf\x31\x70\x79\xc8\x2f\x06\x80 ND end",
        "",
    ),
    (
        b"/password 5839 def /MinFeature {16 16} def /lenIV 1 def /CharStrings 1 dict dup begin /.notdef 0 RD  ND end",
        ".notdef 1 C01, .notdef 2 GE01",
    ),
    (
        b"/password 5839 def /MinFeature {16 16} def /lenIV 0 def /CharStrings 1 dict dup begin /.notdef 0 RD  ND end",
        ".notdef 1 GE01",
    ),
    (
        b"/password 5839 def /MinFeature {16 16} def /lenIV 0 def /CharStrings 1 dict dup begin /.notdef 5 RD \x9b\x2c\x08\xa1\xd3 ND end",
        "",
    ),
];

/// The faults of a font with this private text.
fn encrypted_faults(alloc: Global, private: &[u8]) -> Result<String, Fail> {
    let file = FontFile::of(CLEAR, private).pfa(alloc)?;
    answer_to(alloc, file.as_slice(), "", Asked::Faults)
}

#[test]
fn bytes_before_charstrings(rt: HostRuntime) -> Result<(), Fail> {
    for (private, faults) in ENCRYPTED {
        let found = encrypted_faults(rt.alloc(), private);
        assert_answer(&rt, found, faults, Asked::Faults, "an encrypted glyph", "")?;
    }
    Ok(())
}

/// What breaks off after endchar isn't executed: it is a token after the end. A command that isn't known
/// clears the stack, but its arguments aren't checked, and hsbw may be after it.
const TOKENS_THAT_MEAN_NOTHING: Rows = "\
0 500 hsbw #255 #0 #0 #0 => A 4 C02, A 5 GE01
0 500 hsbw #255 #0 #0 #0 #5 hmoveto endchar =>
0 500 hsbw #247 => A 4 C02, A 5 GE01
0 500 hsbw #12 => A 4 C02, A 5 GE01
0 500 hsbw #12 #0 endchar =>
0 500 hsbw endchar #12 => A 4 GE02
0 500 hsbw #2 closepath endchar => A 4 C03, A 5 P03
0 500 hsbw #12 #3 endchar => A 4 C03
1 2 #15 0 500 hsbw endchar => A 3 C03
0 500 hsbw 1 #12 #99 endchar => A 5 C03";

/// One number less than a command takes, and as many. What div and callothersubr find too few stays.
const TOO_FEW_ARGUMENTS: Rows = "\
500 hsbw endchar => A 2 C04
hsbw endchar => A 1 C04
0 0 500 sbw endchar => A 4 C04
0 0 500 0 sbw endchar =>
0 500 hsbw 7 rmoveto vmoveto hmoveto endchar => A 5 C04, A 6 C04, A 7 C04
0 500 hsbw 7 7 rmoveto 7 vmoveto 7 hmoveto endchar =>
0 500 hsbw 0 hmoveto 1 rlineto hlineto vlineto 1 2 3 4 5 rrcurveto 1 2 3 vhcurveto 1 2 3 hvcurveto closepath endchar => A 7 C04, A 8 \
    C04, A 9 C04, A 15 C04, A 19 C04, A 23 C04
0 500 hsbw 0 hmoveto 1 2 rlineto 1 hlineto 1 vlineto 1 2 3 4 5 6 rrcurveto 1 2 3 4 vhcurveto 1 2 3 4 hvcurveto closepath endchar =>
0 500 hsbw 7 div hmoveto endchar => A 5 C04
0 500 hsbw 7 2 div hmoveto endchar =>
0 500 hsbw 7 callothersubr hmoveto endchar => A 5 C04
0 500 hsbw 0 12 callothersubr endchar =>
0 500 hsbw callsubr endchar => A 4 C04";

/// What is too many is dropped, and its size isn't checked. The end of a charstring takes no numbers.
const TOO_MANY_ARGUMENTS: Rows = "\
0 500 hsbw 7 endchar => A 5 C05
0 500 hsbw endchar =>
0 0 500 hsbw endchar => A 4 C05
0 500 hsbw 7 dotsection endchar => A 5 C05
0 500 hsbw 40000 endchar => A 5 C05
0 500 hsbw 7 => A 5 GE01
32001 0 hmoveto closepath endchar => A 3 C05, A 3 C07, A 3 W01, A 4 P03
0 500 hsbw 0 32001 hmoveto endchar => A 6 C05";

/// The stack has room for 24 numbers, also for a result of a flex.
const MORE_THAN_24_NUMBERS: Rows = "\
0 0 0 0 0 0 0 0 0 0 0 0 0 0 0 0 0 0 0 0 0 0 0 0 0 hsbw endchar => A 25 C06, A 26 C05
0 0 0 0 0 0 0 0 0 0 0 0 0 0 0 0 0 0 0 0 0 0 0 0 hsbw endchar => A 25 C05
0 500 hsbw 0 0 0 0 0 0 0 0 0 0 0 0 0 0 0 0 0 0 0 0 0 0 22 12 callothersubr endchar =>
0 500 hsbw 0 hmoveto 0 1 callothersubr 1 hmoveto 0 2 callothersubr 1 hmoveto 0 2 callothersubr 1 hmoveto 0 2 callothersubr 1 hmoveto \
    0 2 callothersubr 1 hmoveto 0 2 callothersubr 1 hmoveto 0 2 callothersubr 1 hmoveto 0 2 callothersubr 50 7 0 3 0 callothersubr 0 \
    0 0 0 0 0 0 0 0 0 0 0 0 0 0 0 0 0 0 0 0 0 0 0 pop closepath endchar => A 74 C06, A 75 C05
0 500 hsbw 0 hmoveto 0 1 callothersubr 1 hmoveto 0 2 callothersubr 1 hmoveto 0 2 callothersubr 1 hmoveto 0 2 callothersubr 1 hmoveto \
    0 2 callothersubr 1 hmoveto 0 2 callothersubr 1 hmoveto 0 2 callothersubr 1 hmoveto 0 2 callothersubr 50 7 0 3 0 callothersubr 0 \
    0 0 0 0 0 0 0 0 0 0 0 0 0 0 0 0 0 0 0 0 0 0 pop closepath endchar => A 74 C05";

/// A number may be 32000 at most, where a command takes it; what div or callothersubr takes may be greater.
const NUMBERS_OUT_OF_RANGE: Rows = "\
0 500 hsbw 32001 hmoveto endchar => A 5 C07
0 500 hsbw 32000 hmoveto endchar =>
0 500 hsbw -32001 hmoveto endchar => A 5 C07
0 500 hsbw -32000 hmoveto endchar =>
0 500 hsbw 32001 2 div hmoveto endchar =>
0 500 hsbw 40000 1 12 callothersubr endchar =>
0 500 hsbw 32001 -2147483648 rmoveto endchar => A 6 C07
32001 hsbw endchar => A 2 C04, A 2 C07";

/// A quotient is cut toward zero in 1/65536, and then its size is checked. 2097184001 / 65537 is less than 1/65536
/// above 32000, and 2097152001 / 65536 is 1/65536 above it. A quotient out of range is then 32000, that of the least
/// number by -1 too.
const QUOTIENTS: Rows = "\
0 500 hsbw 32001 1 div hmoveto endchar => A 6 C08
0 500 hsbw 32000 1 div hmoveto endchar =>
0 500 hsbw 2097152001 65536 div hmoveto endchar => A 6 C08
0 500 hsbw 2097184001 65537 div hmoveto endchar =>
0 500 hsbw -2097152001 65536 div hmoveto endchar => A 6 C08
0 500 hsbw 2097184001 -65537 div hmoveto endchar =>
0 500 hsbw 5 0 div hmoveto endchar => A 6 C09
0 500 hsbw 0 5 div hmoveto endchar =>
0 500 hsbw 5 1 100000 div div hmoveto endchar => A 8 C09
0 500 hsbw 0 div hmoveto endchar => A 5 C04
0 500 hsbw -2147483648 -1 div hmoveto endchar => A 6 C08";

const TABLES: &[Table] = &[
    (IN_A, TOKENS_THAT_MEAN_NOTHING),
    (IN_A, TOO_FEW_ARGUMENTS),
    (IN_A, TOO_MANY_ARGUMENTS),
    (IN_A, MORE_THAN_24_NUMBERS),
    (IN_A, NUMBERS_OUT_OF_RANGE),
    (IN_A, QUOTIENTS),
];

#[test]
fn tokens_and_arguments(rt: HostRuntime) -> Result<(), Fail> {
    assert_tables(&rt, rt.alloc(), TABLES)
}
