//! The rules that the fourth edition adds on a font's text: Type 1 Font Format 1.1, chapter 2. The third edition reports what
//! is beside them.

use crate::answers::{Asked, answer_to, assert_answer};
use std::alloc::Global;
use std::process::Abort;
use std::test::Fail;
use t1_char::Edition;
use t1_samples::{FontFile, NOTDEF, Sample};

/// A line of a font's texts, and what is in its place.
type Change = (&'static str, &'static str);

/// Changes of a font, its faults by the third edition, and those by the fourth.
type InBoth = (&'static [Change], &'static str, &'static str);

/// The line of the private text that defines the word which reads charstrings.
const RD: &str = "/RD {string currentfile exch readstring pop} executeonly def";

const ND: &str = "/ND {noaccess def} executeonly def";

const NP: &str = "/NP {noaccess put} executeonly def";

const FIRST: &str = "%!PS-AdobeFont-1.0: T";

const MATRIX: &str = "/FontMatrix [0.001 0 0 0.001 0 0] def";

const BOX: &str = "/FontBBox {0 0 1000 1000} def";

const LEN_IV: &str = "/lenIV -1 def";

const SUBRS: &str = "/Subrs 6 array";

const GLYPHS: &str = "2 index /CharStrings 4 dict dup begin";

/// A font that breaks no rule of the fourth edition.
fn sound(alloc: Global) -> Result<Sample, Fail> {
    let clear = format!(in alloc; "/Encoding StandardEncoding def\n{MATRIX}\n{BOX}\n")?;
    Ok(
        Sample::new(alloc)?
            .encoding(clear.as_bytes())?
            .key(b"/BlueValues [] def")?
            .key(RD.as_bytes())?
            .key(ND.as_bytes())?
            .key(NP.as_bytes())?
            .glyph(b"A", NOTDEF)?,
    )
}

/// What is in the place of a line, if it is changed.
fn changed(line: &[u8], changes: &[Change]) -> Option<&'static str> {
    for (own, by) in changes {
        if own.as_bytes() == line {
            return Some(*by);
        }
    }
    None
}

/// Adds a line, or what is in its place.
fn add_line(all: &mut Vec<u8>, line: &[u8], changes: &[Change]) -> Result<(), Fail> {
    match changed(line, changes) {
        Some(by) => all.extend_from_slice(by.as_bytes())?,
        None => all.extend_from_slice(line)?,
    }
    all.extend_from_slice(b"\n")?;
    Ok(())
}

/// A text whose lines are changed so.
fn with_changes(alloc: Global, text: &[u8], changes: &[Change]) -> Result<Vec<u8>, Fail> {
    let mut all = Vec::new(alloc);
    let lines = text.strip_suffix(b"\n").ok_or("a line end")?;
    for line in lines.split(|byte| *byte == b'\n') {
        add_line(&mut all, line, changes)?;
    }
    Ok(all)
}

/// A file has the faults of a row by both editions.
fn assert_file(rt: &impl Abort, alloc: Global, bytes: &[u8], row: &InBoth) -> Result<(), Fail> {
    let (_changes, third, fourth) = *row;
    for (edition, faults) in [(Edition::Three, third), (Edition::Four, fourth)] {
        let asked = Asked::Report(edition);
        let found = answer_to(alloc, bytes, "", asked);
        assert_answer(rt, found, faults, asked, fourth, third)?;
    }
    Ok(())
}

/// A font of these texts has the faults of a row, as a PFA and as a PFB file.
fn assert_texts(
    rt: &impl Abort,
    alloc: Global,
    clear: &[u8],
    private: &[u8],
    row: &InBoth,
) -> Result<(), Fail> {
    let file = FontFile::of(clear, private);
    assert_file(rt, alloc, file.pfa(alloc)?.as_slice(), row)?;
    assert_file(rt, alloc, file.pfb(alloc)?.as_slice(), row)
}

/// A font of a row has its faults.
fn assert_row(rt: &impl Abort, alloc: Global, row: &InBoth) -> Result<(), Fail> {
    let (changes, _third, _fourth) = *row;
    let sound = sound(alloc)?;
    let clear = with_changes(alloc, sound.clear()?.as_slice(), changes)?;
    let private = with_changes(alloc, sound.private()?.as_slice(), changes)?;
    assert_texts(rt, alloc, clear.as_slice(), private.as_slice(), row)
}

/// What the clear text says, and which entries are given twice.
const CLEAR: &[InBoth] = &[
    (&[], "", ""),
    (
        &[(FIRST, "%!PS-AdobeFont-1.0: T\n% Ren\u{e9}")],
        "",
        "file 0 F22",
    ),
    (&[(FIRST, "%!PS-AdobeFont-1.0: T\n% \x7e")], "", ""),
    (
        &[(FIRST, "%!PS-AdobeFont-1.0: T\n% \x7f")],
        "",
        "file 0 F22",
    ),
    (
        &[(BOX, "/FontBBox {0 0 0} def\n/FontBBox {0 0 1000 1000} def")],
        "",
        "FontBBox 0 F23",
    ),
    (
        &[(
            MATRIX,
            "/FontMatrix def\n/FontMatrix [0.001 0 0 0.001 0 0] def",
        )],
        "",
        "FontMatrix 0 F23",
    ),
    (
        &[(MATRIX, "/FontMatrix /FontBBox {0 0 1 1} def"), (BOX, "")],
        "FontMatrix 0 F15",
        "FontMatrix 0 F15",
    ),
    (
        &[("/password 5839 def", "/password /MinFeature def")],
        "password 0 F07",
        "password 0 F07",
    ),
    (
        &[
            (BOX, "/FontBBox {0 0 1 1} def /UniqueID 5 def"),
            (LEN_IV, "/UniqueID 5 def /lenIV -1 def"),
        ],
        "",
        "",
    ),
    (
        &[(
            BOX,
            "/FontBBox {0 0 1 1} def /UniqueID 5 def /UniqueID 5 def",
        )],
        "",
        "UniqueID 0 F23",
    ),
    (
        &[(
            LEN_IV,
            "/UniqueID 5 def /UniqueID 6 def /UniqueID 7 def /lenIV -1 def /lenIV -1 def",
        )],
        "",
        "PrivateUniqueID 0 F23, lenIV 0 F23",
    ),
    (
        &[(
            "/Encoding StandardEncoding def",
            "/Encoding 7 def /Encoding StandardEncoding def",
        )],
        "",
        "Encoding 0 F23",
    ),
    (
        &[(
            "/Encoding StandardEncoding def",
            "/Encoding 256 array\ndup 65 /FontBBox put\nreadonly def",
        )],
        "Encoding 65 F13",
        "Encoding 65 F13",
    ),
    (
        &[(MATRIX, "/FontMatrix [0.001 0 0.001 0 0 0] def")],
        "",
        "FontMatrix 0 F27",
    ),
    (
        &[(MATRIX, "/FontMatrix [0.002 0.001 0.004 0.002 0 0] def")],
        "",
        "FontMatrix 0 F27",
    ),
    (
        &[(MATRIX, "/FontMatrix [0.001 0 0.001 0 0] def")],
        "FontMatrix 0 F15",
        "FontMatrix 0 F15",
    ),
    (&[(FIRST, "%!PS-8dobeFont-1.0: T")], "", "file 0 F29"),
    (&[(FIRST, "%!FontType1-1.0: T")], "", ""),
];

/// Words without a definition.
const WORDS: &[InBoth] = &[
    (
        &[(BOX, "/FontBBox {0 0 1 1} def\nRversion")],
        "",
        "file 0 F26",
    ),
    (
        &[(BOX, "/FontBBox {0 0 1 1} def\n/Rversion Rversion")],
        "",
        "",
    ),
    (
        &[(BOX, "/FontBBox {0 0 1 1} def\nRversion /Rversion")],
        "",
        "file 0 F26",
    ),
    (
        &[(
            BOX,
            "/FontBBox {0 0 1 1} def\n% Rversion\n(Rversion)\n{Rversion}",
        )],
        "",
        "",
    ),
    (
        &[(
            BOX,
            "/FontBBox {0 0 1 1} def\n1 -2 +.5 1e3 2.5E-7 16#FF << >>",
        )],
        "",
        "",
    ),
    (&[(BOX, "/FontBBox {0 0 1 1} def\n1e")], "", "file 0 F26"),
    (&[(BOX, "/FontBBox {0 0 1 1} def\n.")], "", "file 0 F26"),
    // The clear text gives no name of the private one.
    (
        &[
            (
                BOX,
                "/FontBBox {0 0 1 1} def\n/RD {string currentfile exch readstring pop} def",
            ),
            (RD, ""),
        ],
        "",
        "file 0 F24, file 0 F26",
    ),
    (
        &[(RD, ""), (ND, ""), (NP, "")],
        "",
        "file 0 F24, file 0 F26",
    ),
    (
        &[(
            RD,
            "/RD {string currentfile exch readstring} executeonly def",
        )],
        "",
        "file 0 F24",
    ),
    (
        &[(
            RD,
            "/RD { string  currentfile\nexch % a comment\nreadstring pop } def",
        )],
        "",
        "",
    ),
    (
        &[(RD, "/RD [string currentfile exch readstring pop] def")],
        "",
        "file 0 F24",
    ),
    (
        &[(NP, "/NP {noaccess put} executeonly def\n/RD 1 def")],
        "",
        "file 0 F24",
    ),
    (
        &[(
            RD,
            "/RD 1 def\n/RD {string currentfile exch readstring pop} def",
        )],
        "",
        "",
    ),
    // A glyph's name is a name of the row too.
    (
        &[(
            GLYPHS,
            "2 index /CharStrings 4 dict dup begin\n/RD 1 RD \x0e ND",
        )],
        "RD 1 W01",
        "file 0 F24, RD 1 W01",
    ),
    (
        &[(
            "dup /Private 8 dict dup begin",
            "dup /Privat 8 dict dup begin",
        )],
        "",
        "file 0 F28",
    ),
    (
        &[(
            "dup /Private 8 dict dup begin",
            "dup /Private 8.0 dict dup begin",
        )],
        "",
        "",
    ),
    (
        &[(
            "dup /Private 8 dict dup begin",
            "dup /Private 0 dict dup begin",
        )],
        "",
        "file 0 F28",
    ),
    (
        &[("dup /Private 8 dict dup begin", "dup /Private 8 dict begin")],
        "",
        "file 0 F28",
    ),
];

/// Braces and brackets.
const PAIRS: &[InBoth] = &[
    (
        &[(BOX, "/FontBBox {0 0 1 1} def\n20}dict begin")],
        "",
        "file 0 F25",
    ),
    (&[(BOX, "/FontBBox {0 0 1 1} def\n]")], "", "file 0 F25"),
    (&[(BOX, "/FontBBox {0 0 1 1} def\n)")], "", "file 0 F25"),
    (&[(BOX, "/FontBBox {0 0 1 1} def\n>")], "", "file 0 F25"),
    (
        &[(BOX, "/FontBBox {0 0 1 1} def\n% } ] ) >\n(} ] > {) <7D>")],
        "",
        "",
    ),
    (&[(LEN_IV, "/lenIV -1 def\n/OtherSubrs [{}] def")], "", ""),
    (
        &[(LEN_IV, "/lenIV -1 def\n/OtherSubrs [>{}] def")],
        "",
        "file 0 F25",
    ),
    (
        &[(LEN_IV, "/lenIV -1 def\n/OtherSubrs [{ [ } {}] def")],
        "",
        "file 0 F25",
    ),
    (
        &[(
            LEN_IV,
            "/lenIV -1 def\n/OtherSubrs [{ (]) % ]\n <5D> << >> }] def",
        )],
        "",
        "",
    ),
    // 32 are open, and 33.
    (
        &[(
            LEN_IV,
            "/lenIV -1 def\n/OtherSubrs {[[[[[[[[[[[[[[[[[[[[[[[[[[[[[[[]]]]]]]]]]]]]]]]]]]]]]]]]]]]]]]} def",
        )],
        "",
        "",
    ),
    (
        &[(
            LEN_IV,
            "/lenIV -1 def\n/OtherSubrs {[[[[[[[[[[[[[[[[[[[[[[[[[[[[[[[[]]]]]]]]]]]]]]]]]]]]]]]]]]]]]]]]} def",
        )],
        "",
        "file 0 F25",
    ),
    // The bytes of a charstring are no words.
    (
        &[(SUBRS, "/Subrs 6 array\ndup 0 6 RD }{)(]\x0b NP")],
        "",
        "",
    ),
    // Several of the file, in the order of their numbers.
    (
        &[(FIRST, "%!PS\n% Ren\u{e9}\nRversion }")],
        "",
        "file 0 F22, file 0 F25, file 0 F26, file 0 F29",
    ),
];

#[test]
fn faults_of_the_clear_text(rt: HostRuntime) -> Result<(), Fail> {
    for row in CLEAR {
        assert_row(&rt, rt.alloc(), row)?;
    }
    Ok(())
}

#[test]
fn words_without_a_definition(rt: HostRuntime) -> Result<(), Fail> {
    for row in WORDS {
        assert_row(&rt, rt.alloc(), row)?;
    }
    Ok(())
}

#[test]
fn braces_and_brackets(rt: HostRuntime) -> Result<(), Fail> {
    for row in PAIRS {
        assert_row(&rt, rt.alloc(), row)?;
    }
    Ok(())
}
