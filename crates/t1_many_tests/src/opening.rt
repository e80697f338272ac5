//! Which files are opened and left, and in which order.

use crate::files::{File, Files};
use crate::fonts::{FOUR_FAULTS, font_with, names_of, only};
use std::alloc::{AllocError, Global};
use std::test::Fail;
use t1_char::Edition;
use t1_io::Out;
use t1_many::{Plain, ReportAll, WaiverFiles, check_all};
use t1_rules::Rule;
use t1_run::Streams;

/// The names of fonts, and what comes of their check.
#[derive(Clone, Copy)]
struct Case<'a> {
    names: &'a [&'a str],
    beside: WaiverFiles,
    /// The calls, in their order.
    calls: &'a [u8],
    /// The lines of the fonts.
    text: &'a [u8],
    /// What is printed on standard error.
    told: &'a [u8],
}

/// Each font is opened once, then its waivers, if it may have some; both are left before the next one is opened. `plain.pfb` has none, the font
/// `absent.pfb` isn't there, the waivers of `locked.pfb` can't be opened, and a font whose name has a line end isn't.
const READ: Case<'static> = Case {
    names: &[
        "plain.pfb",
        "waived.pfb",
        "absent.pfb",
        "locked.pfb",
        "two\nlines.pfb",
    ],
    beside: WaiverFiles::Read,
    calls: b"\
open font plain.pfb
open waivers plain.pfb
leave font plain.pfb
open font waived.pfb
open waivers waived.pfb
leave font waived.pfb
leave waivers waived.pfb
open font absent.pfb
open font locked.pfb
open waivers locked.pfb
leave font locked.pfb
",
    text: b"plain.pfb: 4: glyph A - 4 P03 closepath without a path\n",
    told: b"\
absent.pfb: t1check: read failed: no such file or folder
locked.pfb: t1check: read of waivers failed: permission is denied
two\\nlines.pfb: t1check: its name has a line end
",
};

/// Standard input has no waivers: a file `-.waivers` isn't its. A file called `-` is `./-`, which has.
const INPUT: Case<'static> = Case {
    names: &["-", "./-"],
    beside: WaiverFiles::Read,
    calls: b"\
open font -
leave font -
open font ./-
open waivers ./-
leave font ./-
leave waivers ./-
",
    text: b"-: 4: glyph A - 4 P03 closepath without a path\n",
    told: b"",
};

/// Where waivers are left aside none is opened, not even of a font whose waivers can't be.
const ASIDE: Case<'static> = Case {
    names: &["waived.pfb", "-", "locked.pfb"],
    beside: WaiverFiles::LeftAside,
    calls: b"\
open font waived.pfb
leave font waived.pfb
open font -
leave font -
open font locked.pfb
leave font locked.pfb
",
    text: b"\
waived.pfb: 4: glyph A - 4 P03 closepath without a path
-: 4: glyph A - 4 P03 closepath without a path
locked.pfb: 4: glyph A - 4 P03 closepath without a path
",
    told: b"",
};

/// Without a font nothing is opened.
const NONE: Case<'static> = Case {
    names: &[],
    beside: WaiverFiles::Read,
    calls: b"",
    text: b"",
    told: b"",
};

/// Checks these fonts, of which P03 is reported.
fn check(
    alloc: Global,
    names: &[String],
    beside: WaiverFiles,
    files: &mut Files<'_>,
    text: &mut Vec<u8>,
    told: &mut Vec<u8>,
) {
    let mut telling = ReportAll {
        rules: only(&[Rule::P03]),
        printer: Plain {
            reasons: false,
            streams: Streams {
                out: Out::new(text),
                errors: Out::new(told),
            },
        },
    };
    let _ = check_all(alloc, names, beside, files, Edition::One, &mut telling);
}

/// Whether that comes of the check of these fonts.
fn comes_of<'a>(
    alloc: Global,
    fonts: &'a [File<'a>],
    waivers: &'a [File<'a>],
    case: &Case<'_>,
) -> Result<bool, AllocError> {
    let names = names_of(alloc, case.names)?;
    let mut files = Files::new(alloc, fonts, waivers).with_locked("locked.pfb");
    let mut text = Vec::new(alloc);
    let mut told = Vec::new(alloc);
    check(
        alloc,
        names.as_slice(),
        case.beside,
        &mut files,
        &mut text,
        &mut told,
    );
    Ok(
        files.calls.as_slice() == case.calls
            && text.as_slice() == case.text
            && told.as_slice() == case.told,
    )
}

#[test]
fn opens_and_leaves_each_file_once(rt: HostRuntime) -> Result<(), Fail> {
    let faulty = font_with(rt.alloc(), FOUR_FAULTS)?;
    let fonts = [
        ("plain.pfb", faulty.as_slice()),
        ("waived.pfb", faulty.as_slice()),
        ("locked.pfb", faulty.as_slice()),
        ("-", faulty.as_slice()),
        ("./-", faulty.as_slice()),
    ];
    let waivers: &[File<'_>] = &[
        ("waived.pfb", b"A P03\n"),
        ("-", b"A P03\n"),
        ("./-", b"A P03\n"),
    ];
    for case in [READ, INPUT, ASIDE, NONE] {
        assert!(rt;
            comes_of(rt.alloc(), &fonts, waivers, &case)?,
            "{:?}",
            case.names
        );
    }
    Ok(())
}
