//! What texts of settings files are.

use super::tools::settled;
use std::test::Fail;

/// A text of the working folder's file, and its settings, or what is reported.
const TEXTS: &[(&str, &str)] = &[
    ("", ""),
    ("# nothing\n\n", ""),
    ("edition = 1", "edition=1"),
    ("edition = 0x2", "edition=2"),
    ("edition = 3", "edition=3"),
    ("only = \"H02\"", "only=H02"),
    ("only = ['H02', \"Z\"]\n", "only=H02 only=Z"),
    (
        "except = [\n  'h',\n  'z01', # why\n]\n",
        "except=h except=z01",
    ),
    ("level = \"must\"", "level=must"),
    ("level = [\"must\", \"should\"]", "level=must level=should"),
    ("fail-on = [\"must\"]", "fail-on=must"),
    ("\"fail-on\" = 'tidy'", "fail-on=tidy"),
    ("exclude = \"*-draft.pfb\"", "exclude=*-draft.pfb"),
    (
        "exclude = [\"old/**\", \"a,b*\", \"/tmp/x*\"]",
        "exclude=old/** exclude=a,b* exclude=/tmp/x*",
    ),
    ("exclude = []", ""),
    ("exclude = [\"\"]", "exclude="),
    ("baseline = \"known.txt\"", "baseline=known.txt"),
    ("baseline = '/srv/known'", "baseline=/srv/known"),
    ("baseline = \"m\\u00e4ngel.txt\"", "baseline=mängel.txt"),
    (
        "only = 'H'\nedition = 2\nbaseline = 'k'\n",
        "baseline=k edition=2 only=H",
    ),
    // What isn't TOML, by its line.
    ("edition", "t1check-all: .t1check.toml:1: not TOML\n"),
    (
        "edition = 2\n\nonly = [\n'H'\n",
        "t1check-all: .t1check.toml:5: not TOML\n",
    ),
    (
        "only = [\n\"H\"\nedition = 1\n",
        "t1check-all: .t1check.toml:3: not TOML\n",
    ),
    ("only H\n", "t1check-all: .t1check.toml:1: not TOML\n"),
    (
        "edition = 1\nedition = 2\n",
        "t1check-all: .t1check.toml:2: not TOML\n",
    ),
    // What is no key.
    ("foo = 1", "t1check-all: .t1check.toml: unknown key foo\n"),
    (
        "Edition = 1",
        "t1check-all: .t1check.toml: unknown key Edition\n",
    ),
    (
        "quiet = true",
        "t1check-all: .t1check.toml: unknown key quiet\n",
    ),
    (
        "[check]\nonly = 'H'\n",
        "t1check-all: .t1check.toml: unknown key check\n",
    ),
    // The first in the order of the keys is reported.
    (
        "z = 1\nfoo = 1\nlevel = 1\n",
        "t1check-all: .t1check.toml: unknown key foo\n",
    ),
    // What is no value of its key.
    (
        "edition = 5",
        "t1check-all: .t1check.toml: edition wants 1, 2, 3 or 4\n",
    ),
    (
        "edition = -1",
        "t1check-all: .t1check.toml: edition wants 1, 2, 3 or 4\n",
    ),
    (
        "edition = '1'",
        "t1check-all: .t1check.toml: edition wants 1, 2, 3 or 4\n",
    ),
    (
        "edition = 1.0",
        "t1check-all: .t1check.toml: edition wants 1, 2, 3 or 4\n",
    ),
    (
        "baseline = ''",
        "t1check-all: .t1check.toml: baseline wants a file\n",
    ),
    (
        "baseline = ['k']",
        "t1check-all: .t1check.toml: baseline wants a file\n",
    ),
    (
        "baseline = \"a\\nb\"",
        "t1check-all: .t1check.toml: baseline wants a file\n",
    ),
    (
        "only = []",
        "t1check-all: .t1check.toml: only wants codes of rules or their letters, as [\"H02\", \"Z\"]\n",
    ),
    (
        "except = ['H', 2]",
        "t1check-all: .t1check.toml: except wants codes of rules or their letters, as [\"H02\", \"Z\"]\n",
    ),
    (
        "level = true",
        "t1check-all: .t1check.toml: level wants levels, as [\"must\", \"should\"]\n",
    ),
    (
        "fail-on = { must = 1 }",
        "t1check-all: .t1check.toml: fail-on wants levels, as [\"must\", \"should\"]\n",
    ),
    (
        "exclude = [\"a\\u0000\"]",
        "t1check-all: .t1check.toml: exclude wants globs, as [\"old/**\"]\n",
    ),
];

/// Each text is as it is typed here.
#[test]
fn texts_are_settings(rt: HostRuntime) -> Result<(), Fail> {
    for (text, expected) in TEXTS {
        let told = settled(rt.alloc(), None, &[(".t1check.toml", Some(*text))])?;
        assert_eq!(rt; entries_of(told.as_str()), *expected, "{text}");
    }
    Ok(())
}

/// What comes after the file's name, or what is reported.
fn entries_of(told: &str) -> &str {
    match told.strip_prefix(".t1check.toml") {
        Some(entries) => entries.strip_prefix(' ').unwrap_or(entries),
        None => told,
    }
}
