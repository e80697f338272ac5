//! Words that are refused, and the text to print.

use crate::files::{File, Files};
use std::alloc::Global;
use std::process::Abort;
use t1_options::options;
use t1_run::UsageError;

/// Words, and the sentence of the first line after the program's name.
type Case = (&'static [&'static str], &'static str);

/// The second line.
const CURE: &str = "t1check-all: 't1check-all --help' says how it is used\n";

const CODES: &str = "--only wants codes of rules or their letters, as H02,Z";

const JOBS: &str = "-j is gone; --shard I/N splits a list for several processes";

const VALUES: &[Case] = &[
    (&["t1check-all", "-j0", "a.pfb"], JOBS),
    (&["t1check-all", "-qj", "4", "a.pfb"], JOBS),
    (
        &["t1check-all", "--edition", "5", "a.pfb"],
        "--edition wants 1, 2, 3 or 4",
    ),
    (
        &["t1check-all", "--edition=", "a.pfb"],
        "--edition wants 1, 2, 3 or 4",
    ),
    (
        &["t1check-all", "--edition", "2", "--edition=+1", "a.pfb"],
        "--edition wants 1, 2, 3 or 4",
    ),
    (
        &["t1check-all", "--baseline=", "a.pfb"],
        "--baseline wants a file",
    ),
    (
        &["t1check-all", "--format", "json", "a.pfb"],
        "--format wants jsonl, sarif, github or junit",
    ),
    (
        &["t1check-all", "--format=", "a.pfb"],
        "--format wants jsonl, sarif, github or junit",
    ),
    (
        &["t1check-all", "--format", "sarif", "--docs=", "a.pfb"],
        "--docs wants a URL",
    ),
    (
        &["t1check-all", "--docs=--format", "sarif", "a.pfb"],
        "--docs wants a URL",
    ),
    (
        &["t1check-all", "--shard", "3/2", "a.pfb"],
        "--shard wants I/N, I from 1 to N",
    ),
    (
        &["t1check-all", "--shard", "0/2", "a.pfb"],
        "--shard wants I/N, I from 1 to N",
    ),
    (
        &["t1check-all", "--shard", "2", "a.pfb"],
        "--shard wants I/N, I from 1 to N",
    ),
    (
        &["t1check-all", "--shard", "1/2/3", "a.pfb"],
        "--shard wants I/N, I from 1 to N",
    ),
    (
        &["t1check-all", "--shard=", "a.pfb"],
        "--shard wants I/N, I from 1 to N",
    ),
    (
        &["t1check-all", "--shard", "1/100000", "a.pfb"],
        "--shard wants I/N, I from 1 to N",
    ),
];

const CHOICES: &[Case] = &[
    (&["t1check-all", "--only", "", "a.pfb"], CODES),
    (&["t1check-all", "--only", ",", "a.pfb"], CODES),
    (&["t1check-all", "--only", "H02 Z", "a.pfb"], CODES),
    (
        &["t1check-all", "--only", "H02", "--only", "E", "a.pfb"],
        CODES,
    ),
    (&["t1check-all", "--only", "E05", "a.pfb"], CODES),
    (&["t1check-all", "--only", "H11", "a.pfb"], CODES),
    (&["t1check-all", "--only", "H0", "a.pfb"], CODES),
    (
        &["t1check-all", "--except", "e", "a.pfb"],
        "--except wants codes of rules or their letters, as H02,Z",
    ),
];

const LEVELS: &[Case] = &[
    (
        &["t1check-all", "--level", "error", "a.pfb"],
        "--level wants must, should or tidy",
    ),
    (
        &["t1check-all", "--level=,", "a.pfb"],
        "--level wants must, should or tidy",
    ),
    (
        &["t1check-all", "--fail-on", "must,H02", "a.pfb"],
        "--fail-on wants must, should or tidy",
    ),
    (
        &["t1check-all", "--columns", "0", "a.pfb"],
        "--columns wants a number from 1 on",
    ),
];

const COMBINATIONS: &[Case] = &[
    (&["t1check-all"], "no font is named"),
    (&["t1check-all", "-q"], "no font is named"),
    (&["t1check-all", "--exclude", "a*"], "no font is named"),
    (
        &["t1check-all", "--update-baseline", "a.pfb"],
        "--update-baseline wants --baseline",
    ),
    (
        &[
            "t1check-all",
            "--update-baseline",
            "--baseline",
            "known",
            "--shard",
            "1/2",
            "a.pfb",
        ],
        "--update-baseline and --shard exclude one another",
    ),
    (
        &["t1check-all", "--write-waivers", "--shard", "1/2", "a.pfb"],
        "--write-waivers excludes --baseline and --shard",
    ),
    (
        &[
            "t1check-all",
            "--write-waivers",
            "--baseline",
            "known",
            "a.pfb",
        ],
        "--write-waivers excludes --baseline and --shard",
    ),
    (
        &["t1check-all", "--force", "a.pfb"],
        "--force wants --write-waivers",
    ),
    (
        &[
            "t1check-all",
            "--docs",
            "https://example.org/RULES.md",
            "a.pfb",
        ],
        "--docs wants --format",
    ),
    (
        &["t1check-all", "-", "a.pfb", "-"],
        "- is named twice: standard input is read once",
    ),
    (
        &["t1check-all", "--files-from", "-", "-"],
        "- is a font or a list, not both: standard input is read once",
    ),
];

/// Where several things are wrong, the first is reported.
const FIRST: &[Case] = &[
    (&["t1check-all", "--edition=5", "-j0"], JOBS),
    (
        &["t1check-all", "--shard=0/0", "--format=x"],
        "--format wants jsonl, sarif, github or junit",
    ),
    (
        &["t1check-all", "--shard=0/0", "--force"],
        "--force wants --write-waivers",
    ),
    (
        &["t1check-all", "--only=E", "--shard=0/0"],
        "no font is named",
    ),
    (
        &[
            "t1check-all",
            "--update-baseline",
            "--shard",
            "1/2",
            "a.pfb",
        ],
        "--update-baseline and --shard exclude one another",
    ),
    (
        &["t1check-all", "--files-from=-", "-", "-", "--shard=0/0"],
        "- is named twice: standard input is read once",
    ),
    (
        &[
            "t1check-all",
            "--except=E",
            "--only=E",
            "--shard=0/0",
            "a.pfb",
        ],
        "--shard wants I/N, I from 1 to N",
    ),
    (&["t1check-all", "--except=E", "--only=E", "a.pfb"], CODES),
];

/// Whether a text is the sentence after the program's name, and the second line.
fn says(text: &str, sentence: &str) -> bool {
    match text.split_once('\n') {
        Some((first, rest)) => first.strip_prefix("t1check-all: ") == Some(sentence)
            && rest == CURE,
        None => false,
    }
}

/// Whether words are refused by this sentence.
fn refuses(alloc: Global, words: &[&str], sentence: &str) -> bool {
    match options(
        alloc,
        words,
        &mut Files {
            alloc,
            settings: File::None,
        },
    ) {
        Err(UsageError::Usage(text)) => says(text.as_str(), sentence),
        _ => false,
    }
}

#[test]
fn refuses_words(rt: HostRuntime) {
    for cases in [VALUES, CHOICES, LEVELS, COMBINATIONS, FIRST] {
        for (words, sentence) in cases {
            assert!(rt; refuses(rt.alloc(), words, sentence), "of {words:?}");
        }
    }
}

/// Words in which clap finds the fault, and how its text begins.
const BY_CLAP: &[Case] = &[
    (
        &["t1check-all", "--color", "a.pfb"],
        "error: unexpected argument '--color' found",
    ),
    (
        &["t1check-all", "-qx", "a.pfb"],
        "error: unexpected argument '-x' found",
    ),
    (
        &["t1check-all", "a.pfb", "--edition"],
        "error: a value is required for '--edition <N>' but none was supplied",
    ),
    (
        &["t1check-all", "--docs", "--format", "sarif", "a.pfb"],
        "error: a value is required for '--docs <URL>' but none was supplied",
    ),
    (
        &["t1check-all", "--quiet", "a.pfb"],
        "error: unexpected argument '--quiet' found",
    ),
];

/// Whether words are refused by a text that begins so.
fn refuses_by_clap(alloc: Global, words: &[&str], front: &str) -> bool {
    match options(
        alloc,
        words,
        &mut Files {
            alloc,
            settings: File::None,
        },
    ) {
        Err(UsageError::Usage(text)) => text.starts_with(front),
        _ => false,
    }
}

#[test]
fn leaves_other_words_to_clap(rt: HostRuntime) {
    for (words, front) in BY_CLAP {
        assert!(rt; refuses_by_clap(rt.alloc(), words, front), "of {words:?}");
    }
}
