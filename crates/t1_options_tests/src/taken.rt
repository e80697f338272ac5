//! Words that are taken, and the options that they give.

use crate::expected::{Expected, PLAIN, are, gives};
use crate::files::{File, Files};
use std::process::Abort;
use t1_char::Edition;
use t1_options::{Format, Reasons, Request, Shard, Waivers, options};

/// Words, and the options that they give.
type Case = (&'static [&'static str], Expected<'static>);

const FLAGS: &[Case] = &[
    (&["t1check-all", "a.pfb"], PLAIN),
    (
        &["t1check-all", "-q", "a.pfb"],
        Expected {
            quiet: true,
            ..PLAIN
        },
    ),
    (
        &["t1check-all", "-qq", "a.pfb", "-q"],
        Expected {
            quiet: true,
            ..PLAIN
        },
    ),
    (
        &["t1check-all", "--", "-q", "--edition"],
        Expected {
            paths: &["-q", "--edition"],
            ..PLAIN
        },
    ),
    (
        &["t1check-all", "a.pfb", "-q", "fonts", "-"],
        Expected {
            quiet: true,
            paths: &["a.pfb", "fonts", "-"],
            ..PLAIN
        },
    ),
    (
        &["t1check-all", "./-", ".//-", "-", "--files-from", "./-"],
        Expected {
            files_from: &["./-"],
            paths: &["./-", ".//-", "-"],
            ..PLAIN
        },
    ),
];

const EDITIONS: &[Case] = &[
    (
        &["t1check-all", "--edition", "1", "a.pfb"],
        Expected {
            edition: Some(Edition::One),
            ..PLAIN
        },
    ),
    (
        &["t1check-all", "a.pfb", "--edition=2"],
        Expected {
            edition: Some(Edition::Two),
            ..PLAIN
        },
    ),
    (
        &["t1check-all", "--edition", "3", "a.pfb"],
        Expected {
            edition: Some(Edition::Three),
            ..PLAIN
        },
    ),
    (
        &["t1check-all", "--edition", "1", "--edition", "2", "a.pfb"],
        Expected {
            edition: Some(Edition::Two),
            ..PLAIN
        },
    ),
];

const WAIVERS: &[Case] = &[
    (
        &["t1check-all", "--no-waivers", "a.pfb"],
        Expected {
            waivers: Waivers::LeftAside,
            ..PLAIN
        },
    ),
    (
        &["t1check-all", "--write-waivers", "a.pfb"],
        Expected {
            waivers: Waivers::Written,
            ..PLAIN
        },
    ),
    (
        &["t1check-all", "--write-waivers", "--no-waivers", "a.pfb"],
        Expected {
            waivers: Waivers::Written,
            ..PLAIN
        },
    ),
    (
        &["t1check-all", "--force", "a.pfb", "--write-waivers"],
        Expected {
            waivers: Waivers::Overwritten,
            ..PLAIN
        },
    ),
    (
        &["t1check-all", "--baseline", "known", "a.pfb"],
        Expected {
            known_faults: Some(("known", false)),
            ..PLAIN
        },
    ),
    (
        &[
            "t1check-all",
            "--update-baseline",
            "--baseline",
            "old",
            "--baseline=new",
            "a.pfb",
        ],
        Expected {
            known_faults: Some(("new", true)),
            ..PLAIN
        },
    ),
];

const LISTS: &[Case] = &[
    (
        &[
            "t1check-all",
            "--only",
            "h02,,Z",
            "--except=z07",
            "a.pfb",
            "--only",
            ",ge,",
        ],
        Expected {
            only: &["H02", "Z", "GE"],
            except: &["Z07"],
            ..PLAIN
        },
    ),
    (
        &["t1check-all", "--files-from", "list"],
        Expected {
            files_from: &["list"],
            paths: &[],
            ..PLAIN
        },
    ),
    (
        &[
            "t1check-all",
            "--files-from=-",
            "a.pfb",
            "--files-from",
            "more",
        ],
        Expected {
            files_from: &["-", "more"],
            ..PLAIN
        },
    ),
    (
        &[
            "t1check-all",
            "--exclude",
            "old/**",
            "--exclude",
            "*.bak",
            "a.pfb",
        ],
        Expected {
            exclude: &["old/**", "*.bak"],
            ..PLAIN
        },
    ),
    (
        &["t1check-all", "--shard", "1/1", "a.pfb"],
        Expected {
            shard: Some(Shard { part: 1, parts: 1 }),
            ..PLAIN
        },
    ),
    (
        &[
            "t1check-all",
            "--shard=2/16",
            "--baseline",
            "known",
            "a.pfb",
        ],
        Expected {
            known_faults: Some(("known", false)),
            shard: Some(Shard { part: 2, parts: 16 }),
            ..PLAIN
        },
    ),
];

const FORMS: &[Case] = &[
    (
        &["t1check-all", "--format", "jsonl", "a.pfb"],
        Expected {
            form: Some(Format::JsonLines),
            ..PLAIN
        },
    ),
    (
        &["t1check-all", "--clean", "--format", "jsonl", "a.pfb"],
        Expected {
            form: Some(Format::JsonLines),
            clean: true,
            ..PLAIN
        },
    ),
    (
        &["t1check-all", "--format=junit", "a.pfb"],
        Expected {
            form: Some(Format::JUnit),
            ..PLAIN
        },
    ),
    (
        &["t1check-all", "--format=github", "a.pfb"],
        Expected {
            form: Some(Format::GitHub),
            ..PLAIN
        },
    ),
    (
        &[
            "t1check-all",
            "--docs",
            "https://example.org/RULES.md",
            "a.pfb",
            "--format",
            "sarif",
        ],
        Expected {
            form: Some(Format::Sarif),
            docs: Some("https://example.org/RULES.md"),
            ..PLAIN
        },
    ),
    (
        &[
            "t1check-all",
            "--columns=72",
            "--colour",
            "a.pfb",
            "--long",
            "--no-settings",
        ],
        Expected {
            columns: Some(72),
            colour: true,
            long: true,
            ..PLAIN
        },
    ),
    (
        &["t1check-all", "--reasons", "a.pfb"],
        Expected {
            reasons: Reasons::Each,
            ..PLAIN
        },
    ),
    (
        &["t1check-all", "a.pfb", "--no-reasons"],
        Expected {
            reasons: Reasons::LeftOut,
            ..PLAIN
        },
    ),
    (
        &["t1check-all", "--no-reasons", "--reasons", "a.pfb"],
        Expected {
            reasons: Reasons::LeftOut,
            ..PLAIN
        },
    ),
];

#[test]
fn takes_words(rt: HostRuntime) {
    for cases in [FLAGS, EDITIONS, WAIVERS, LISTS, FORMS] {
        for (words, expected) in cases {
            assert!(rt;
                gives(rt.alloc(), words, File::None, *expected),
                "of {words:?}"
            );
        }
    }
}

#[test]
fn takes_version(rt: HostRuntime) {
    let words = ["t1check-all", "--explain", "--version", "--edition", "3"];
    let mut files = Files {
        alloc: rt.alloc(),
        settings: File::Unreadable,
    };
    let request = options(rt.alloc(), &words, &mut files);
    assert!(rt; matches!(&request, Ok(Request::Version)));
}

#[test]
fn takes_codes(rt: HostRuntime) {
    let words = ["t1check-all", "-j2", "h02", "--explain", "E08"];
    let mut files = Files {
        alloc: rt.alloc(),
        settings: File::Unreadable,
    };
    let request = options(rt.alloc(), &words, &mut files);
    assert!(rt;
        matches!(&request, Ok(Request::Explain(codes)) if are(codes.as_slice(), &["h02", "E08"]))
    );
}
