//! Where a settings file is found, and what its names are then.

use super::tools::{File, settled};
use std::test::Fail;

/// Files that are the same but for their folder.
const TEXT: &str = "exclude = ['old/*', '*.t1', '/x/y']\nbaseline = 'known'\n";

/// A first path, the names of files, and the settings.
type Row<'a> = (Option<&'a str>, &'a [&'a str], &'a str);

const ROWS: &[Row] = &[
    (
        None,
        &[".t1check.toml"],
        ".t1check.toml baseline=known exclude=old/* exclude=*.t1 exclude=/x/y",
    ),
    (
        None,
        &["fonts/.t1check.toml", "../.t1check.toml", "/.t1check.toml"],
        "none",
    ),
    (
        Some("fonts/new/a.pfb"),
        &[".t1check.toml", "fonts/.t1check.toml"],
        "fonts/.t1check.toml baseline=fonts/known exclude=fonts/old/* exclude=*.t1 exclude=/x/y",
    ),
    (
        Some("./fonts/new//"),
        &["fonts/new/.t1check.toml", "fonts/.t1check.toml"],
        "fonts/new/.t1check.toml baseline=fonts/new/known exclude=fonts/new/old/* exclude=*.t1 exclude=/x/y",
    ),
    (
        Some("fonts/new"),
        &[".t1check.toml"],
        ".t1check.toml baseline=known exclude=old/* exclude=*.t1 exclude=/x/y",
    ),
    (
        Some("."),
        &[".t1check.toml"],
        ".t1check.toml baseline=known exclude=old/* exclude=*.t1 exclude=/x/y",
    ),
    (
        Some("a.pfb"),
        &["../.t1check.toml", "/.t1check.toml"],
        "none",
    ),
    (
        Some("/srv/fonts"),
        &["/.t1check.toml", ".t1check.toml"],
        "/.t1check.toml baseline=/known exclude=/old/* exclude=*.t1 exclude=/x/y",
    ),
    (
        Some("../other/fonts"),
        &[".t1check.toml", "../.t1check.toml"],
        "../.t1check.toml baseline=../known exclude=../old/* exclude=*.t1 exclude=/x/y",
    ),
    (
        Some("../other/fonts"),
        &[".t1check.toml", "../../.t1check.toml"],
        "none",
    ),
    // Standard input is in the working folder, and a file of its name may be anywhere.
    (
        Some("-"),
        &["-/.t1check.toml", ".t1check.toml"],
        ".t1check.toml baseline=known exclude=old/* exclude=*.t1 exclude=/x/y",
    ),
    (
        Some("./-"),
        &["-/.t1check.toml", ".t1check.toml"],
        "-/.t1check.toml baseline=-/known exclude=-/old/* exclude=*.t1 exclude=/x/y",
    ),
    // A glob of a folder's name is the name itself.
    (
        Some("a[1]*?]ü/x"),
        &["a[1]*?]ü/.t1check.toml"],
        "a[1]*?]ü/.t1check.toml baseline=a[1]*?]ü/known exclude=a[[]1][*][?]]ü/old/* exclude=*.t1 exclude=/x/y",
    ),
];

/// The nearest file is found, at or above the first path, and its names are below its folder.
#[test]
fn the_nearest_file_counts(rt: HostRuntime) -> Result<(), Fail> {
    for (path, names, expected) in ROWS {
        let mut files: Vec<File<'_>> = Vec::new(rt.alloc());
        for name in *names {
            files.push((*name, Some(TEXT)))?;
        }
        let told = settled(rt.alloc(), *path, files.as_slice())?;
        assert_eq!(rt; told.as_str(), *expected);
    }
    Ok(())
}

/// A file that is there and can't be read is reported by its name, and none above it is looked for.
#[test]
fn an_unreadable_file_is_reported(rt: HostRuntime) -> Result<(), Fail> {
    let files: &[File<'_>] = &[("fonts/.t1check.toml", None), (".t1check.toml", Some(""))];
    let told = settled(rt.alloc(), Some("fonts/a.pfb"), files)?;
    assert_eq!(rt;
        told.as_str(),
        "t1check-all: fonts/.t1check.toml can't be read: permission is denied\n"
    );
    let told = settled(rt.alloc(), Some("a.pfb"), files)?;
    assert_eq!(rt; told.as_str(), ".t1check.toml");
    let wrong: &[File<'_>] = &[("fonts/.t1check.toml", Some("\nx y"))];
    let told = settled(rt.alloc(), Some("fonts"), wrong)?;
    assert_eq!(rt;
        told.as_str(),
        "t1check-all: fonts/.t1check.toml:2: not TOML\n"
    );
    Ok(())
}
