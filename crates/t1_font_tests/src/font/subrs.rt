//! The Subrs of the private text: Type 1 Font Format 1.1, chapters 2 and 8.

use super::{Fact, PRIVATE_LINES, PRIVATE_TEXT, assert_facts, assert_unread};
use std::test::Fail;
use t1_font::Unread;

/// Private texts with broken Subrs, and why each is refused.
const BROKEN: &[(&str, Unread)] = &[
    ("/Subrs x array", Unread::BadSubrs),
    ("/Subrs [<0B>]", Unread::BadSubrs),
    ("/Subrs {}", Unread::BadSubrs),
    ("/Subrs (", Unread::Unclosed),
    ("/Subrs -1 array", Unread::BadSubrs),
    ("/Subrs 65535 x", Unread::BadSubrs),
    ("/Subrs 65536 x", Unread::PastLimit),
    ("/Subrs 65536 array", Unread::PastLimit),
    ("/Subrs 65536.5", Unread::BadSubrs),
    ("/Subrs 36#ZZZZZZ array", Unread::BadSubrs),
    ("/Subrs 9 array dup 65535 0 RD  NP", Unread::PastLimit),
    ("/Subrs 9 array dup 65535 -1", Unread::PastLimit),
    ("/Subrs 9 array dup -1 70000", Unread::BadSubrs),
    ("/Subrs 9 array dup 0.5", Unread::BadSubrs),
    ("/Subrs 9 array dup 0 65536 RD", Unread::PastLimit),
    ("/Subrs 9 array dup 0 65535 RD ", Unread::BadSubrs),
    ("/Subrs 9 array dup 0 -1 RD", Unread::BadSubrs),
    ("/Subrs 9 array dup 0 1 /RD x", Unread::BadSubrs),
    ("/Subrs 9 array dup 0 2 RD x", Unread::BadSubrs),
    ("/Subrs 9 array dup 0 (", Unread::Unclosed),
    ("/Subrs [] /Subrs 0 array", Unread::SecondSubrs),
    ("/Subrs 0 array /Subrs (", Unread::SecondSubrs),
];

/// The first wrong token decides, also where bytes are missing after it.
#[test]
fn broken_subrs_are_refused(rt: HostRuntime) -> Result<(), Fail> {
    assert_unread(&rt, rt.alloc(), PRIVATE_TEXT, BROKEN)
}

/// The lines of Subrs, and their size.
const SIZES: &[(&str, Fact)] = &[
    ("", Fact::SubrSize(0)),
    ("/Subrs [] def", Fact::SubrSize(0)),
    ("/Subrs [ \t\n] def", Fact::SubrSize(0)),
    ("/Subrs [%x\n] def", Fact::SubrSize(0)),
    ("/Subrs 0 array", Fact::SubrSize(0)),
    ("/Subrs -0 array", Fact::SubrSize(0)),
    ("/Subrs -0.0000000001 array", Fact::SubrSize(0)),
    ("/Subrs 6 array", Fact::SubrSize(6)),
    ("/Subrs 16#10 array", Fact::SubrSize(16)),
    ("/Subrs 65535 array", Fact::SubrSize(65_535)),
];

/// An array that holds blanks and comments alone counts as none.
#[test]
fn the_size_is_read(rt: HostRuntime) -> Result<(), Fail> {
    assert_facts(&rt, rt.alloc(), PRIVATE_LINES, SIZES)
}

/// The lines of Subrs, and what a number has there.
const ENTRIES: &[(&str, Fact)] = &[
    (
        "/Subrs 1 array dup 0 3 RD xyz NP",
        Fact::Subr(0, Some(b"xyz")),
    ),
    (
        "/Subrs 1 array dup 0 3 -| xyz |",
        Fact::Subr(0, Some(b"xyz")),
    ),
    (
        "/Subrs 1 array dup 0 3 RD (yz NP",
        Fact::Subr(0, Some(b"(yz")),
    ),
    (
        "/Subrs 1 array dup 0 3 RD(xyz NP",
        Fact::Subr(0, Some(b"xyz")),
    ),
    (
        "/Subrs 1 array dup 0 3 dup xyz NP",
        Fact::Subr(0, Some(b"xyz")),
    ),
    (
        "/Subrs 1 array dup 0 3 end xyz NP",
        Fact::Subr(0, Some(b"xyz")),
    ),
    (
        "/Subrs 1 array dup 0 3 ] xyz NP",
        Fact::Subr(0, Some(b"xyz")),
    ),
    (
        "/Subrs 1 array dup 0 3 ) xyz NP",
        Fact::Subr(0, Some(b"xyz")),
    ),
    (
        "/Subrs 1 array dup 0 3 >> xyz NP",
        Fact::Subr(0, Some(b"xyz")),
    ),
    (
        "/Subrs 1 array dup 0 3 eexec xyz NP",
        Fact::Subr(0, Some(b"xyz")),
    ),
    ("/Subrs 1 array dup 0 0 RD  NP", Fact::Subr(0, Some(b""))),
    ("/Subrs 1 array dup 5 1 RD x NP", Fact::Subr(5, Some(b"x"))),
    (
        "/Subrs 1 array dup 65534 1 RD x NP",
        Fact::Subr(65_534, Some(b"x")),
    ),
    ("/Subrs 1 array dup 5 1 RD x NP", Fact::Subr(4, None)),
    ("/Subrs 1 array dup 5 1 RD x NP", Fact::Subr(u32::MAX, None)),
    (
        "/Subrs 1 array dup 5 1 RD x NP dup 5 1 RD y NP",
        Fact::Subr(5, Some(b"y")),
    ),
    ("/Subrs 1 array dup x dup 0 1 RD y NP", Fact::Subr(0, None)),
    ("/Subrs 1 array 7 dup 0 1 RD y NP", Fact::Subr(0, None)),
];

/// Any word serves as `RD`; one byte after it is skipped. The size limits nothing.
#[test]
fn entries_are_read(rt: HostRuntime) -> Result<(), Fail> {
    assert_facts(&rt, rt.alloc(), PRIVATE_LINES, ENTRIES)
}
