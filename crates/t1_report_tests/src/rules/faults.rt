//! What the tests of font rules share: a font that breaks none, and what others say of a key. A row of a table has a
//! part of a font and the faults in short: `BlueValues 1 Z07` is Z07 at index 1 of that key.

use std::alloc::{AllocError, Global};
use std::process::Abort;
use std::test::Fail;
use t1_char::Edition;
use t1_font::{Font, OpenFont, Unread};
use t1_rules::{KEYS, Mask, RULE_COUNT, font_faults, key_text, places, rule_code};
use t1_samples::{FontFile, add_fault, font_of};

/// A clear text that breaks no rule.
pub(super) const CLEAR: &str =
    "%!\n/FontType 1 def /PaintType 0 def /Encoding StandardEncoding def eexec\n";

/// A private text that breaks no rule.
pub(super) const PRIVATE: &str = "/password 5839 def /MinFeature {16 16} def \
/CharStrings 2 dict dup begin /.notdef 0 RD  ND /A 0 RD  ND end";

/// Where a row's text is in its font: between which words of which text. The other text breaks no rule.
#[derive(Clone, Copy)]
pub(super) enum Part {
    Clear(&'static str, &'static str),
    Private(&'static str, &'static str),
}

/// The clear text, but for the white space at its end.
pub(super) const CLEAR_TEXT: Part = Part::Clear("", "\n");

/// More entries of the Private dictionary.
pub(super) const ENTRIES: Part = Part::Private(
    "/password 5839 def /MinFeature {16 16} def ",
    " /CharStrings 2 dict dup begin /.notdef 0 RD  ND /A 0 RD  ND end",
);

/// Adds a fault for each rule of a set: the key, the index and the rule's code.
fn add_faults(
    alloc: Global,
    faults: &mut String,
    key: u8,
    index: u32,
    mask: Mask,
) -> Result<(), AllocError> {
    let mut floor = 0;
    for _ in 0..RULE_COUNT {
        let Some(rule) = mask.above(floor) else {
            break;
        };
        let key = key_text(key);
        let code = rule_code(rule);
        let fault = format!(in alloc; "{key} {index} {code}")?;
        add_fault(faults, fault.as_str())?;
        floor = rule.number();
    }
    Ok(())
}

/// All that a font breaks, in the order of the report.
fn faults_of(alloc: Global, font: &Font<'_>) -> Result<String, AllocError> {
    let mut faults = String::new(alloc);
    for key in 0..KEYS {
        for index in 0..places(font, key, Edition::One) {
            add_faults(
                alloc,
                &mut faults,
                key,
                index,
                font_faults(font, key, index, Edition::One),
            )?;
        }
    }
    Ok(faults)
}

/// The faults of a file's font.
pub(super) fn faults_in(alloc: Global, file: &mut OpenFont) -> Result<String, Unread> {
    let font = font_of(alloc, file)?;
    Ok(faults_of(alloc, &font)?)
}

/// The faults of a font with these texts. White space ends the clear text.
pub(super) fn faults_of_texts(alloc: Global, clear: &str, private: &str) -> Result<String, Unread> {
    let file = FontFile::of(clear.as_bytes(), private.as_bytes()).pfa(alloc)?;
    faults_in(alloc, &mut OpenFont::open(alloc, file.as_slice())?)
}

/// The faults of a font with this text as a part.
fn faults_with(alloc: Global, part: Part, text: &str) -> Result<String, Unread> {
    match part {
        Part::Clear(front, back) => {
            let clear = format!(in alloc; "{front}{text}{back}")?;
            faults_of_texts(alloc, clear.as_str(), PRIVATE)
        }
        Part::Private(front, back) => {
            let private = format!(in alloc; "{front}{text}{back}")?;
            faults_of_texts(alloc, CLEAR, private.as_str())
        }
    }
}

/// A font with each of these texts as that part breaks the rules beside it.
pub(super) fn assert_faults(
    rt: &impl Abort,
    alloc: Global,
    part: Part,
    cases: &[(&str, &str)],
) -> Result<(), Fail> {
    for (text, faults) in cases {
        let found = faults_with(alloc, part, text)?;
        assert_eq!(rt; found.as_str(), *faults, "{text}");
    }
    Ok(())
}
