//! Words and a settings file together.

use crate::expected::{Expected, PLAIN, gives};
use crate::files::{File, Files};
use std::alloc::Global;
use std::process::Abort;
use t1_char::Edition;
use t1_options::{Waivers, options};
use t1_run::UsageError;

/// A settings file that has each key.
const ALL: &str = "\
baseline = 'k'
edition = 2
except = ['Z', 'f01']
exclude = ['*.t1', 'a,b*']
fail-on = 'must'
level = 'must'
only = ['H02', 'P']
";

/// A settings file that names no rules.
const FEW: &str = "baseline = 'k'\nedition = 2\nexclude = ['*.t1']\n";

/// Words, a settings file, and the options that both give.
type Case = (&'static [&'static str], &'static str, Expected<'static>);

const FROM_FEW: Expected<'static> = Expected {
    edition: Some(Edition::Two),
    known_faults: Some(("k", false)),
    exclude: &["*.t1"],
    ..PLAIN
};

const TAKEN: &[Case] = &[
    (&["t1check-all", "a.pfb"], "", PLAIN),
    (&["t1check-all", "a.pfb"], FEW, FROM_FEW),
    (
        &["t1check-all", "a.pfb"],
        "edition = 3",
        Expected {
            edition: Some(Edition::Three),
            ..PLAIN
        },
    ),
    (
        &["t1check-all", "--level=must,should,tidy", "a.pfb"],
        ALL,
        Expected {
            only: &["H02", "P"],
            except: &["Z", "F01"],
            exclude: &["*.t1", "a,b*"],
            ..FROM_FEW
        },
    ),
    // What words give counts.
    (
        &[
            "t1check-all",
            "--edition=1",
            "--only",
            "h",
            "--except",
            "P",
            "--level=must,should,tidy",
            "--baseline=other",
            "a.pfb",
            "--exclude=old",
        ],
        ALL,
        Expected {
            edition: Some(Edition::One),
            only: &["H"],
            except: &["P"],
            known_faults: Some(("other", false)),
            exclude: &["old"],
            ..PLAIN
        },
    ),
    (
        &["t1check-all", "--update-baseline", "a.pfb"],
        FEW,
        Expected {
            known_faults: Some(("k", true)),
            ..FROM_FEW
        },
    ),
    // Where waivers are written, there is no use for known faults.
    (
        &["t1check-all", "--write-waivers", "a.pfb"],
        FEW,
        Expected {
            waivers: Waivers::Written,
            known_faults: None,
            ..FROM_FEW
        },
    ),
    // Settings are looked for from the first path that can be in a line.
    (
        &["t1check-all", "\0\u{fffd}", "../a\nb", "a.pfb"],
        FEW,
        Expected {
            paths: &["\0\u{fffd}", "../a\nb", "a.pfb"],
            ..FROM_FEW
        },
    ),
    (
        &["t1check-all", "../a.pfb", "a.pfb"],
        FEW,
        Expected {
            paths: &["../a.pfb", "a.pfb"],
            ..PLAIN
        },
    ),
    (&["t1check-all", "--no-settings", "a.pfb"], "no TOML", PLAIN),
    // What words override isn't judged.
    (
        &["t1check-all", "--only=H", "a.pfb"],
        "only = 'Q'",
        Expected {
            only: &["H"],
            ..PLAIN
        },
    ),
];

#[test]
fn settings_count_where_words_give_nothing(rt: HostRuntime) {
    for (words, text, expected) in TAKEN {
        assert!(rt;
            gives(rt.alloc(), words, File::Text(*text), *expected),
            "of {words:?}"
        );
    }
}

/// Words, a settings file, and what is printed.
type Refusal = (&'static [&'static str], File<'static>, &'static str);

const PLAIN_WORDS: &[&str] = &["t1check-all", "a.pfb"];

const REFUSED: &[Refusal] = &[
    (
        PLAIN_WORDS,
        File::Unreadable,
        "t1check-all: .t1check.toml can't be read: permission is denied\n",
    ),
    (
        PLAIN_WORDS,
        File::Text("\nonly H"),
        "t1check-all: .t1check.toml:2: not TOML\n",
    ),
    (
        PLAIN_WORDS,
        File::Text("jobs = 4"),
        "t1check-all: .t1check.toml: unknown key jobs\n",
    ),
    (
        PLAIN_WORDS,
        File::Text("edition = 5"),
        "t1check-all: .t1check.toml: edition wants 1, 2, 3 or 4\n",
    ),
    (
        PLAIN_WORDS,
        File::Text("only = ['H02', 'Q']"),
        "t1check-all: .t1check.toml: --only wants codes of rules or their letters, as H02,Z\n",
    ),
    (
        PLAIN_WORDS,
        File::Text("level = 'error'\nfail-on = 'never'"),
        "t1check-all: .t1check.toml: --level wants must, should or tidy\n",
    ),
    (
        &["t1check-all", "--level=must", "--update-baseline", "a.pfb"],
        File::Text("level = 'error'\nfail-on = 'never'"),
        "t1check-all: .t1check.toml: --fail-on wants must, should or tidy\n",
    ),
    // Words by themselves come first, and both together last.
    (
        &["t1check-all", "--format=text", "a.pfb"],
        File::Unreadable,
        "t1check-all: --format wants jsonl, sarif, github or junit\nt1check-all: 't1check-all --help' says how it is used\n",
    ),
    (
        &["t1check-all", "--update-baseline", "a.pfb"],
        File::Text("only = 'H'"),
        "t1check-all: --update-baseline wants --baseline\nt1check-all: 't1check-all --help' says how it is used\n",
    ),
    (
        &["t1check-all", "--update-baseline", "--no-settings", "a.pfb"],
        File::Text("baseline = 'k'"),
        "t1check-all: --update-baseline wants --baseline\nt1check-all: 't1check-all --help' says how it is used\n",
    ),
];

/// Whether this is printed of words and a settings file.
fn prints(alloc: Global, words: &[&str], settings: File<'_>, expected: &str) -> bool {
    match options(alloc, words, &mut Files { alloc, settings }) {
        Err(UsageError::Usage(text)) => text.as_str() == expected,
        _ => false,
    }
}

#[test]
fn reports_wrong_settings(rt: HostRuntime) {
    for (words, settings, expected) in REFUSED {
        assert!(rt;
            prints(rt.alloc(), words, *settings, expected),
            "of {words:?}"
        );
    }
}
