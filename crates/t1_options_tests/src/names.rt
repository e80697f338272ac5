//! Words, and the fonts that they name.

use crate::globs::globs_of;
use std::alloc::{AllocError, Global};
use std::io;
use std::io::ErrorKind;
use std::test::Fail;
use t1_names::{
    FileSystem, FolderEntry, Listing, Named, each_once, fonts_below, fonts_named, is_font_name,
    is_input, trim_word,
};

/// A folder: its name, the folders and the fonts in it, and whether it can be listed whole.
type Folder<'a> = (&'a str, &'a [&'a str], &'a [&'a str], bool);

const FOLDERS: &[Folder] = &[
    (".", &["fonts", "b\nc"], &["z.pfb", "a.T1"], true),
    (
        "fonts",
        &["old", "locked", "a"],
        &["b.pfb", "Z.pfb", "a.pfb", "n\nl.pfa"],
        true,
    ),
    ("fonts/a", &[], &["c.pfb"], true),
    ("fonts/old", &["older"], &["b.pfa"], true),
    ("fonts/old/older", &[], &["a.pfb"], false),
    ("b\nc", &[], &["d.pfb"], false),
    ("/", &[], &["r.pfb"], true),
    ("-/x", &[], &["s.pfb"], true),
];

/// The words that lead to folders.
const FOLDER_WORDS: &[&str] = &[
    ".",
    "./",
    ".//",
    "fonts",
    "fonts/",
    "fonts//",
    "fonts/old",
    "fonts/old/",
    "/",
    "//",
    "-/x",
    "-/x/",
];

/// These folders; there are no files to read.
#[derive(Drop)]
struct Folders {
    alloc: Global,
}

impl FileSystem for Folders {
    ghost asks = { record {
      Leads = λ _ _ _ _. Unit {0};
      Lists = λ _ _ _ _. Unit {0};
      ReadsText = λ _ _ _ _. Unit {0};
      ReadsList = λ _ _ _ _. Unit {0};
    } };

    fn is_folder(&mut self, name: &str) -> bool {
        FOLDER_WORDS.iter().any(|known| *known == name)
    }

    fn list_folder(&mut self, folder: &str) -> Result<Listing, AllocError> {
        list(self.alloc, folder)
    }

    fn text(&mut self, _name: &str) -> Option<io::Result<Vec<u8>>> {
        None
    }

    fn list_text(&mut self, _name: &str) -> io::Result<Vec<u8>> {
        Err(io::Error::from(ErrorKind::NotFound))
    }
}

/// What is in a folder; a folder that isn't known can't be read.
fn list(alloc: Global, folder: &str) -> Result<Listing, AllocError> {
    for (known, folders, fonts, whole) in FOLDERS {
        if *known == folder {
            return Ok(Listing {
                entries: entries_of(alloc, folders, fonts)?,
                whole: *whole,
            });
        }
    }
    Ok(Listing {
        entries: Vec::new(alloc),
        whole: false,
    })
}

/// Folders and fonts of these names.
fn entries_of(
    alloc: Global,
    folders: &[&str],
    fonts: &[&str],
) -> Result<Vec<FolderEntry>, AllocError> {
    let mut entries = Vec::new(alloc);
    for name in folders {
        entries.push(FolderEntry::Folder(String::from_str(alloc, name)?))?;
    }
    for name in fonts {
        entries.push(FolderEntry::Font(String::from_str(alloc, name)?))?;
    }
    Ok(entries)
}

/// Names as they are kept.
fn kept(alloc: Global, names: &[&str]) -> Result<Vec<String>, AllocError> {
    let mut kept = Vec::new(alloc);
    for name in names {
        kept.push(String::from_str(alloc, name)?)?;
    }
    Ok(kept)
}

/// Whether a text has these names, one a line.
pub(crate) fn are_lines(names: &[String], text: &str) -> bool {
    let mut rest = text;
    for name in names {
        match after_line(rest, name.as_str()) {
            Some(after) => rest = after,
            None => return false,
        }
    }
    rest.is_empty()
}

fn after_line<'a>(text: &'a str, name: &str) -> Option<&'a str> {
    text.strip_prefix(name)?.strip_prefix("\n")
}

/// Words, and what is left of each.
const TRIMMED: &[(&str, &str)] = &[
    ("a.pfb", "a.pfb"),
    ("", ""),
    ("./a.pfb", "a.pfb"),
    ("././a.pfb", "a.pfb"),
    (".//a.pfb", "a.pfb"),
    ("./-q", "-q"),
    ("./-/x/", "-/x"),
    ("./", "."),
    (".//", "."),
    ("././.", "."),
    ("fonts/", "fonts"),
    ("./fonts//", "fonts"),
    ("/", "/"),
    ("//", "/"),
    ("/tmp/./a.pfb", "/tmp/./a.pfb"),
    ("../a.pfb", "../a.pfb"),
    (".a.pfb", ".a.pfb"),
    // no folder
    ("a.pfb/", "a.pfb/"),
    ("./absent/", "absent/"),
];

#[test]
fn trims_words(rt: HostRuntime) {
    let mut folders = Folders { alloc: rt.alloc() };
    for (word, want) in TRIMMED {
        assert_eq!(rt; trim_word(word, &mut folders), *want, "at {word}");
    }
}

/// Names, whether each is that of a font, and whether it is the word for standard input.
const KINDS: &[(&str, bool, bool)] = &[
    ("a.pfa", true, false),
    ("a.pfb", true, false),
    ("a.t1", true, false),
    ("A.PFB", true, false),
    ("a.Pfa", true, false),
    ("a.T1", true, false),
    (".pfb", true, false),
    ("a.pfb.t1", true, false),
    ("", false, false),
    ("a", false, false),
    ("pfb", false, false),
    ("a.pf", false, false),
    ("a.pfbx", false, false),
    ("a.pfm", false, false),
    ("a.t2", false, false),
    ("a.t1.gz", false, false),
    ("a.pfb/", false, false),
    ("-", false, true),
    ("./-", false, false),
    ("-q", false, false),
];

#[test]
fn knows_names_of_fonts(rt: HostRuntime) {
    for (name, is_font, is_standard) in KINDS {
        assert_eq!(rt;
            (is_font_name(name), is_input(name)),
            (*is_font, *is_standard),
            "{name}"
        );
    }
}

/// Whether each of these names is kept once, as in this text.
fn are_once(alloc: Global, names: &[&str], text: &str) -> Result<bool, AllocError> {
    let once = each_once(alloc, kept(alloc, names)?)?;
    Ok(are_lines(once.as_slice(), text))
}

#[test]
fn keeps_each_name_once(rt: HostRuntime) -> Result<(), Fail> {
    let names = &["b", "a", "b", "B", "a", "c"];
    assert!(rt; are_once(rt.alloc(), names, "b\na\nB\nc\n")?);
    Ok(())
}

/// Whether these fonts are below a folder, and these folders there aren't searched whole.
fn are_below(
    alloc: Global,
    folder: &str,
    fonts: &str,
    unsearched: &str,
) -> Result<bool, AllocError> {
    let below = fonts_below(alloc, folder, &mut Folders { alloc })?;
    Ok(
        are_lines(below.fonts.as_slice(), fonts)
            && are_lines(below.unsearched.as_slice(), unsearched),
    )
}

#[test]
fn finds_fonts_below_a_folder(rt: HostRuntime) -> Result<(), Fail> {
    let fonts =
        "fonts/Z.pfb\nfonts/a.pfb\nfonts/a/c.pfb\nfonts/b.pfb\nfonts/n\nl.pfa\nfonts/old/b.pfa\nfonts/old/older/a.pfb\n";
    let unsearched = "fonts/locked\nfonts/old/older\n";
    assert!(rt; are_below(rt.alloc(), "fonts", fonts, unsearched)?);
    Ok(())
}

/// Words and globs, the fonts that they name, and the folders that aren't searched whole.
struct Row {
    words: &'static [&'static str],
    globs: &'static [&'static str],
    names: &'static str,
    unsearched: &'static str,
}

/// Words come in their order, and what is below a folder in its place; a name that came already doesn't come again. The
/// word `-` is standard input, which no glob excludes; a file of that name is `./-`.
const ROWS: &[Row] = &[
    Row {
        words: &[
            "./x.pfb",
            "fonts/old/",
            "c\nd.pfb",
            "/",
            "fonts/b.pfb",
            ".",
            "x.pfb",
            "locked/",
        ],
        globs: &["Z.*", "**/a/*"],
        names: "x.pfb\nfonts/old/b.pfa\nfonts/old/older/a.pfb\nc\nd.pfb\n/r.pfb\nfonts/b.pfb\na.T1\nb\nc/d.pfb\nfonts/a.pfb\nfonts/n\nl.pfa\nz.pfb\nlocked/\n",
        unsearched: "fonts/old/older\nb\nc\nfonts/locked\n",
    },
    Row {
        words: &["-", "./-", "./-/x", ".//-", "-", "./-q"],
        globs: &[],
        names: "-\n./-\n-/x/s.pfb\n-q\n",
        unsearched: "",
    },
    Row {
        words: &["-", "./-", "./-/x", ".//-", "-", "./-q"],
        globs: &["*"],
        names: "-\n",
        unsearched: "",
    },
];

fn named_by(alloc: Global, row: &Row) -> Result<Named, AllocError> {
    let words = kept(alloc, row.words)?;
    let globs = globs_of(alloc, row.globs)?;
    fonts_named(
        alloc,
        words.as_slice(),
        &mut Folders { alloc },
        globs.as_slice(),
    )
}

/// Whether a row's words name what it says.
fn is_named(alloc: Global, row: &Row) -> Result<bool, AllocError> {
    let named = named_by(alloc, row)?;
    Ok(
        are_lines(named.names.as_slice(), row.names)
            && are_lines(named.unsearched.as_slice(), row.unsearched),
    )
}

#[test]
fn names_fonts(rt: HostRuntime) -> Result<(), Fail> {
    for row in ROWS {
        assert!(rt;
            is_named(rt.alloc(), row)?,
            "{:?} {:?}",
            row.words,
            row.globs
        );
    }
    Ok(())
}
