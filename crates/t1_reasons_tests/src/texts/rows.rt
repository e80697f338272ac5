//! What the tables share: a font, and the comparison of a row.

use std::alloc::Global;
use std::process::Abort;
use std::test::Fail;
use t1_font::{Font, OpenFont};
use t1_reason_texts::{ReasonText, says_more};
use t1_reasons::Reason;
use t1_rules::Rule;
use t1_samples::{FontFile, font_of};

/// A font with a custom Encoding, zones, and glyphs of odd names.
const CLEAR: &str =
    "%!\n/FontType 1 def /PaintType 0 def /Encoding 256 array dup 65 /Aacute put dup 66 /C:\\def put def eexec\n";

const PRIVATE: &str =
    "/password 5839 def /MinFeature {16 16} def /BlueValues [-1 9 12 20] def /OtherBlues [-22 -3] def \
/CharStrings 6 dict dup begin /.notdef 0 RD  ND /A 0 RD  ND /abcdefghijklmnopqrstuvwxyzabcdefghijklmnopqrstuvwxyz12345678 0 RD  ND \
/abcdefghijklmnopqrstuvwxyzabcdefghijklmnopqrstuvwxyz123456789 0 RD  ND /Utilde 0 RD  ND / 0 RD  ND end";

/// A rule, a reason and its text.
pub(super) type Row = (Rule, Reason, &'static str);

/// Compares the texts of rows with what they should be.
pub(super) fn assert_texts(rt: &impl Abort, alloc: Global, rows: &[Row]) -> Result<(), Fail> {
    let file = FontFile::of(CLEAR.as_bytes(), PRIVATE.as_bytes()).pfb(alloc)?;
    let mut opened = OpenFont::open(alloc, file.as_slice())?;
    let font = font_of(alloc, &mut opened)?;
    for row in rows {
        assert_text(rt, alloc, &font, row)?;
    }
    Ok(())
}

fn assert_text(rt: &impl Abort, alloc: Global, font: &Font<'_>, row: &Row) -> Result<(), Fail> {
    let (rule, reason, want) = *row;
    assert!(rt; says_more(reason) != want.is_empty());
    let text = ReasonText { font, rule, reason };
    let found = format!(in alloc; "{text}")?;
    assert_eq!(rt; found.as_str(), want);
    Ok(())
}
