//! What t1check-all returns for its words, and which files are replaced.

use crate::files::{File, Files, Folder, System};
use crate::fonts::{FOUR_FAULTS, font_with, names_of};
use std::alloc::{AllocError, Global};
use std::test::Fail;
use t1_answer_all::{Left, answer, replace_files};
use t1_forms::Page;
use t1_io::{Broken, Out};
use t1_options::{Options, Request, options};
use t1_run::{Status, Streams};
use t1_waiving::{FontWaivers, Kept};

/// Words, and what is returned for them.
#[derive(Clone, Copy)]
struct Case<'a> {
    words: &'a [&'a str],
    status: Status,
    text: &'a [u8],
    told: &'a [u8],
    /// What is called of the files.
    calls: &'a [u8],
    /// The files that are replaced.
    replaced: &'a [u8],
}

/// A list, rows of known faults, rows of which one is none, and a list without a word.
const TEXTS: &[File<'static>] = &[
    ("list", b"a.pfb\n\xff.pfb\n"),
    (
        "rows",
        b"1 H02 glyph A b.pfb\n5 P03 glyph A a.pfb\n2 P03 glyph B b.pfb\n",
    ),
    ("known", b"3 H02 glyph A a.pfb\nnonsense\n"),
    ("empty", b"\n"),
];

const FOLDERS: &[Folder<'static>] = &[("fonts", &["b.pfb", "a.pfb"])];

const WAIVERS: &[File<'static>] = &[("a.pfb", b"A H02\n")];

/// The pages of a rule and of a refusal.
const PAGES: &[Page] = &[
    Page {
        code: "F01",
        anchor: "f01-no-end-segment",
        title: "no end segment",
        text: "Cure:\n\n    printf '\\200\\003' >>font.pfb",
    },
    Page {
        code: "E04",
        anchor: "e04-no-eexec",
        title: "no eexec",
        text: "No word `eexec`.",
    },
];

/// Whether words are answered so over these fonts.
fn is_answered<'a>(alloc: Global, fonts: &'a [File<'a>], case: &Case<'_>) -> bool {
    let mut system = System {
        alloc,
        texts: TEXTS,
        folders: FOLDERS,
    };
    let mut files = Files::new(alloc, fonts, WAIVERS);
    let mut text = Vec::new(alloc);
    let mut told = Vec::new(alloc);
    let streams = Streams {
        out: Out::new(&mut text),
        errors: Out::new(&mut told),
    };
    let version = b"t1check-all\n";
    let status = answer(
        alloc,
        case.words,
        version,
        PAGES,
        &mut system,
        &mut files,
        streams,
    )
    .value;
    status == case.status
        && text.as_slice() == case.text
        && told.as_slice() == case.told
        && files.calls.as_slice() == case.calls
        && files.replaced.as_slice() == case.replaced
}

/// Words of the command line come first, then those of lists; one of a list isn't UTF-8.
const LISTED: Case<'static> = Case {
    words: &[
        "t1check-all",
        "-q",
        "--only",
        "P03",
        "--files-from",
        "list",
        "b.pfb",
    ],
    status: Status::Failed,
    text: b"\
b.pfb: 4: glyph A - 4 P03 closepath without a path
a.pfb: 4: glyph A - 4 P03 closepath without a path
",
    told: b"t1check-all: a name that is not UTF-8 is passed over\n",
    calls: b"\
open font b.pfb
open waivers b.pfb
leave font b.pfb
open font a.pfb
open waivers a.pfb
leave font a.pfb
leave waivers a.pfb
",
    replaced: b"",
};

/// A folder stands for its fonts, in the order of their names. Each is opened once, and no waivers are, where these are left aside.
const FOLDER: Case<'static> = Case {
    words: &[
        "t1check-all",
        "--no-waivers",
        "--only",
        "P03",
        "fonts",
        "fonts/b.pfb",
    ],
    status: Status::Faults,
    text: b"\
fonts/a.pfb: 4: glyph A - 4 P03 closepath without a path
fonts/b.pfb: 4: glyph A - 4 P03 closepath without a path
",
    told: b"\
2 fonts: 0 clean, 2 with faults, 0 refused, 0 not checked
      2 P03 closepath without a path (tidy)
",
    calls: b"\
expect 2
open font fonts/a.pfb
leave font fonts/a.pfb
open font fonts/b.pfb
leave font fonts/b.pfb
",
    replaced: b"",
};

/// Waivers that are written replace files after all fonts, but beside standard input.
const WRITTEN: Case<'static> = Case {
    words: &[
        "t1check-all",
        "-q",
        "--write-waivers",
        "--only",
        "P03",
        "a.pfb",
        "-",
    ],
    status: Status::Faults,
    text: b"-: 4: glyph A - 4 P03 closepath without a path\n",
    told: b"t1check-all: lines of a font itself can not be waived\n",
    calls: b"\
open font a.pfb
leave font a.pfb
open font -
leave font -
",
    replaced: b"a.pfb.waivers=A P03\n",
};

/// A file of known faults is made anew: what is found comes in the place of the row of P03. The row of H02, which isn't reported, stays, and so
/// does that of a font that isn't checked.
const ANEW: Case<'static> = Case {
    words: &[
        "t1check-all",
        "--baseline",
        "rows",
        "--update-baseline",
        "--only",
        "P03",
        "b.pfb",
    ],
    status: Status::Clean,
    text: b"",
    told: b"\
1 font: 0 clean, 1 with known faults alone, 0 with faults, 0 refused, 0 not checked
known faults: 3 rows
",
    calls: b"\
expect 1
open font b.pfb
open waivers b.pfb
leave font b.pfb
",
    replaced: b"\
rows=# Known faults: count, rule, unit, font.
1 H02 glyph A b.pfb
5 P03 glyph A a.pfb
1 P03 glyph A b.pfb
",
};

/// The version is given as it is.
const VERSION: Case<'static> = Case {
    words: &["t1check-all", "--version"],
    status: Status::Clean,
    text: b"t1check-all\n",
    told: b"",
    calls: b"",
    replaced: b"",
};

/// Pages come in the order of the words, whatever else is given.
const EXPLAINED: Case<'static> = Case {
    words: &[
        "t1check-all",
        "--explain",
        "e04",
        "F01",
        "--files-from",
        "nowhere",
    ],
    status: Status::Clean,
    text: b"\
E04 no eexec

No word `eexec`.

F01 no end segment

Cure:

    printf '\\200\\003' >>font.pfb
",
    told: b"",
    calls: b"",
    replaced: b"",
};

/// Without a word all are listed.
const ALL: Case<'static> = Case {
    words: &["t1check-all", "--explain"],
    status: Status::Clean,
    text: b"F01 no end segment (should)\nE04 no eexec\n",
    told: b"",
    calls: b"",
    replaced: b"",
};

/// Each run, with the files that it replaces.
#[test]
fn returns_runs(rt: HostRuntime) -> Result<(), Fail> {
    let faulty = font_with(rt.alloc(), FOUR_FAULTS)?;
    let fonts = [
        ("b.pfb", faulty.as_slice()),
        ("a.pfb", faulty.as_slice()),
        ("fonts/a.pfb", faulty.as_slice()),
        ("fonts/b.pfb", faulty.as_slice()),
        ("-", faulty.as_slice()),
    ];
    for case in [LISTED, FOLDER, WRITTEN, ANEW, VERSION, EXPLAINED, ALL] {
        assert!(rt; is_answered(rt.alloc(), &fonts, &case), "{:?}", case.words);
    }
    Ok(())
}

/// Words, and what is wrong with them, after which nothing is opened.
const WRONG: &[(&[&str], &[u8])] = &[
    (
        &[
            "t1check-all",
            "--baseline",
            "known",
            "--files-from",
            "nowhere",
        ],
        b"t1check-all: known: line 2: no row of known faults: nonsense\n",
    ),
    (
        &["t1check-all", "--files-from", "nowhere", "a.pfb"],
        b"\
t1check-all: nowhere can't be read: no such file or folder
t1check-all: 't1check-all --help' says how it is used
",
    ),
    (
        &["t1check-all", "--files-from", "empty"],
        b"\
t1check-all: there is no font to check
t1check-all: 't1check-all --help' says how it is used
",
    ),
    (
        &["t1check-all", "--explain", "F01", "E4", "F1"],
        b"\
t1check-all: there is no rule and no refusal 'E4'
t1check-all: 't1check-all --help' says how it is used
",
    ),
];

/// What is wrong first is printed: known faults, then a list that can't be read, then that there is no font; or a word that is no code.
#[test]
fn reports_what_is_wrong(rt: HostRuntime) {
    for (words, told) in WRONG {
        let case = Case {
            words,
            status: Status::Failed,
            text: b"",
            told,
            calls: b"",
            replaced: b"",
        };
        assert!(rt; is_answered(rt.alloc(), &[], &case), "{words:?}");
    }
}

/// Waivers of a font, to be written.
fn waivers_for(alloc: Global, names: &[&str]) -> Result<Kept, AllocError> {
    let mut kept = Kept::new(alloc);
    for name in names {
        kept.keep(FontWaivers {
            name: String::from_str(alloc, name)?,
            text: Some(Vec::from_slice(alloc, b"A H02\n")?),
        })?;
    }
    Ok(kept)
}

/// The options that these words request of t1check-all.
fn options_of(alloc: Global, words: &[&str]) -> Result<Options, Fail> {
    let words = names_of(alloc, words)?;
    let mut system = System {
        alloc,
        texts: &[],
        folders: &[],
    };
    match options(alloc, words.as_slice(), &mut system) {
        Ok(Request::Check(options)) => Ok(options),
        _ => Err(Fail::from(Broken)),
    }
}

/// Waivers that are there already are kept, which is printed, and those of the next font are written.
#[test]
fn keeps_waivers_that_are_there(rt: HostRuntime) -> Result<(), Fail> {
    let options = options_of(rt.alloc(), &["t1check-all", "--write-waivers", "a.pfb"])?;
    let left = Left {
        status: Status::Clean,
        known_faults: None,
        waivers: Some(waivers_for(rt.alloc(), &["a.pfb", "b.pfb"])?),
    };
    let mut files = Files::new(rt.alloc(), &[], &[]).with_there("a.pfb.waivers");
    let mut told = Vec::new(rt.alloc());
    let mut errors = Out::new(&mut told);
    let status = replace_files(rt.alloc(), &options, &left, &mut files, &mut errors);
    assert_eq!(rt; status, Status::Failed);
    assert!(rt; files.replaced.as_slice() == b"b.pfb.waivers=A H02\n".as_slice());
    assert!(rt;
        told.as_slice() == b"a.pfb: waivers are there already; --force overwrites them\n".as_slice()
    );
    Ok(())
}

/// With `--force` they are overwritten.
#[test]
fn overwrites_waivers_that_are_there(rt: HostRuntime) -> Result<(), Fail> {
    let words = ["t1check-all", "--write-waivers", "--force", "a.pfb"];
    let options = options_of(rt.alloc(), &words)?;
    let left = Left {
        status: Status::Faults,
        known_faults: None,
        waivers: Some(waivers_for(rt.alloc(), &["a.pfb"])?),
    };
    let mut files = Files::new(rt.alloc(), &[], &[]).with_there("a.pfb.waivers");
    let mut told = Vec::new(rt.alloc());
    let mut errors = Out::new(&mut told);
    let status = replace_files(rt.alloc(), &options, &left, &mut files, &mut errors);
    assert_eq!(rt; status, Status::Faults);
    assert!(rt; files.replaced.as_slice() == b"a.pfb.waivers=A H02\n".as_slice());
    assert!(rt; told.is_empty());
    Ok(())
}

/// The words by which the file `known` is made anew.
const KNOWN_ANEW: &[&str] = &[
    "t1check-all",
    "--baseline",
    "known",
    "--update-baseline",
    "a.pfb",
];

/// A file that can't be replaced is reported, and the waivers are written all the same.
#[test]
fn reports_what_can_not_be_replaced(rt: HostRuntime) -> Result<(), Fail> {
    let options = options_of(rt.alloc(), KNOWN_ANEW)?;
    let left = Left {
        status: Status::Faults,
        known_faults: Some(Vec::from_slice(rt.alloc(), b"rows")?),
        waivers: Some(waivers_for(rt.alloc(), &["a.pfb"])?),
    };
    let mut files = Files::new(rt.alloc(), &[], &[]).with_locked("known");
    let mut told = Vec::new(rt.alloc());
    let mut errors = Out::new(&mut told);
    let status = replace_files(rt.alloc(), &options, &left, &mut files, &mut errors);
    assert_eq!(rt; status, Status::Failed);
    assert!(rt; files.replaced.as_slice() == b"a.pfb.waivers=A H02\n".as_slice());
    assert!(rt;
        told.as_slice() == b"t1check-all: known can't be written: permission is denied\n".as_slice()
    );
    Ok(())
}

/// Where all is replaced the status stays, and nothing is printed.
#[test]
fn replaces_what_is_left(rt: HostRuntime) -> Result<(), Fail> {
    let options = options_of(rt.alloc(), KNOWN_ANEW)?;
    let left = Left {
        status: Status::Faults,
        known_faults: Some(Vec::from_slice(rt.alloc(), b"rows\n")?),
        waivers: None,
    };
    let mut files = Files::new(rt.alloc(), &[], &[]).with_there("known");
    let mut told = Vec::new(rt.alloc());
    let mut errors = Out::new(&mut told);
    let status = replace_files(rt.alloc(), &options, &left, &mut files, &mut errors);
    assert_eq!(rt; status, Status::Faults);
    assert!(rt; files.replaced.as_slice() == b"known=rows\n".as_slice());
    assert!(rt; told.is_empty());
    Ok(())
}
