//! GLOBs, and the names that they match.

use std::alloc::{AllocError, Global};
use std::test::Fail;
use t1_names::{Glob, is_excluded};

/// A GLOB, a name, and whether the one matches the other.
type Row<'a> = (&'a str, &'a str, bool);

const ROWS: &[Row] = &[
    // all but the signs is itself
    ("a.pfb", "a.pfb", true),
    ("a.pfb", "A.pfb", false),
    ("a.pfb", "a.pfbx", false),
    ("", "", true),
    ("", "a", false),
    // without a slash the last part of a name too
    ("a.pfb", "fonts/a.pfb", true),
    ("fonts", "fonts/a.pfb", false),
    ("fonts/a.pfb", "old/fonts/a.pfb", false),
    ("", "fonts/", true),
    // `*`
    ("*", "fonts/a.pfb", true),
    ("*.pfb", "a.pfb", true),
    ("*.pfb", "a.pfa", false),
    ("fonts/*", "fonts/a.pfb", true),
    ("fonts/*", "fonts/old/a.pfb", false),
    ("*/*", "fonts/a.pfb", true),
    ("*/*", "fonts/old/a.pfb", false),
    ("*/a*b", "/aab", true),
    (
        "*a*a*a*a*a*a*a*b",
        "aaaaaaaaaaaaaaaaaaaaaaaaaaaaaaaaaaaaaaaaaaaaaaaaaa",
        false,
    ),
    // `**`
    ("**", "fonts/old/a.pfb", true),
    ("**", "", true),
    ("fonts/**", "fonts/old/a.pfb", true),
    ("fonts/**", "other/a.pfb", false),
    ("**/old/**", "fonts/old/a.pfb", true),
    ("**/old/**", "old/a.pfb", false),
    ("***.pfb", "fonts/a.pfb", true),
    // `?` is one character, of however many bytes
    ("?.pfb", "a.pfb", true),
    ("?.pfb", "é.pfb", true),
    ("?.pfb", ".pfb", false),
    ("?.pfb", "ab.pfb", false),
    ("fonts?a.pfb", "fonts/a.pfb", false),
    // sets
    ("[abc].pfb", "b.pfb", true),
    ("[abc].pfb", "d.pfb", false),
    ("[a-c].pfb", "b.pfb", true),
    ("[a-c].pfb", "-.pfb", false),
    ("[!a-c].pfb", "d.pfb", true),
    ("[!a-c].pfb", "b.pfb", false),
    ("[^a].pfb", "^.pfb", true),
    ("[à-ü].pfb", "é.pfb", true),
    ("[a-].pfb", "-.pfb", true),
    ("[-a].pfb", "-.pfb", true),
    ("[]a].pfb", "].pfb", true),
    ("[!]a].pfb", "].pfb", false),
    ("[!]a].pfb", "b.pfb", true),
    ("[c-a].pfb", "b.pfb", false),
    ("fonts[!a]a.pfb", "fonts/a.pfb", false),
    ("fonts[*-9]a.pfb", "fonts/a.pfb", false),
    // without its end a set is none
    ("[a.pfb", "[a.pfb", true),
    ("[]", "[]", true),
    ("[!]", "[!]", true),
    ("[a/b].pfb", "[a/b].pfb", true),
    ("[a/b].pfb", "a.pfb", false),
];

/// GLOBs of these texts.
pub(crate) fn globs_of(alloc: Global, texts: &[&str]) -> Result<Vec<Glob>, AllocError> {
    let mut globs = Vec::new(alloc);
    for text in texts {
        globs.push(Glob::read(alloc, text)?)?;
    }
    Ok(globs)
}

/// Whether one of these GLOBs excludes a name.
fn excludes(alloc: Global, texts: &[&str], name: &str) -> Result<bool, AllocError> {
    let globs = globs_of(alloc, texts)?;
    is_excluded(alloc, name, globs.as_slice())
}

#[test]
fn matches_names(rt: HostRuntime) -> Result<(), Fail> {
    for (text, name, want) in ROWS {
        assert_eq!(rt;
            excludes(rt.alloc(), &[*text], name)?,
            *want,
            "{text} at {name}"
        );
    }
    Ok(())
}

/// One of several is enough; none leaves out nothing.
const SEVERAL: &[(&[&str], &str, bool)] = &[
    (&["*.pfa", "b.*"], "a.pfa", true),
    (&["*.pfa", "b.*"], "b.pfb", true),
    (&["*.pfa", "b.*"], "a.pfb", false),
    (&[], "a.pfb", false),
];

#[test]
fn takes_several(rt: HostRuntime) -> Result<(), Fail> {
    for (texts, name, want) in SEVERAL {
        assert_eq!(rt;
            excludes(rt.alloc(), texts, name)?,
            *want,
            "{texts:?} at {name}"
        );
    }
    Ok(())
}
