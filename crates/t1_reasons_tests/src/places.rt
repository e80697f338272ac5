//! What the tests of t1_reasons share: the reason at a place of a made font.

use std::alloc::Global;
use std::test::Fail;
use t1_char::Edition;
use t1_font::Font;
use t1_reason_texts::ReasonText;
use t1_reasons::{GlyphReasons, Reason, font_reason};
use t1_rules::{Rule, Sidebearings};
use t1_samples::{Sample, font_of, opened};

/// The reason at an index of a key's entry, by the number of the key in a report.
pub(super) fn entry_reason(
    alloc: Global,
    sample: &Sample,
    rule: Rule,
    key: u8,
    index: u32,
    edition: Edition,
) -> Result<Option<Reason>, Fail> {
    let mut file = opened(alloc, sample)?;
    let font = font_of(alloc, &mut file)?;
    Ok(font_reason(&font, rule, key, index, edition))
}

/// The reason at a step of the last glyph.
pub(super) fn step_reason(
    alloc: Global,
    sample: &Sample,
    step: u32,
    rule: Rule,
    edition: Edition,
) -> Result<Option<Reason>, Fail> {
    let mut file = opened(alloc, sample)?;
    let font = font_of(alloc, &mut file)?;
    last_glyph_reason(alloc, &font, step, rule, edition)
}

/// The text of that reason, if there is one.
pub(super) fn step_text(
    alloc: Global,
    sample: &Sample,
    step: u32,
    rule: Rule,
    edition: Edition,
) -> Result<Option<String>, Fail> {
    let mut file = opened(alloc, sample)?;
    let font = font_of(alloc, &mut file)?;
    let Some(reason) = last_glyph_reason(alloc, &font, step, rule, edition)? else {
        return Ok(None);
    };
    let text = ReasonText {
        font: &font,
        rule,
        reason,
    };
    Ok(Some(format!(in alloc; "{text}")?))
}

/// The reason in a font that is open.
fn last_glyph_reason(
    alloc: Global,
    font: &Font<'_>,
    step: u32,
    rule: Rule,
    edition: Edition,
) -> Result<Option<Reason>, Fail> {
    let count = font.glyphs().len();
    if count == 0 {
        return Err(Fail::from("a glyph"));
    }
    let sidebearings = Sidebearings::prepare(alloc, font, edition)?;
    let mut reasons = GlyphReasons::start(&*font, count - 1, edition);
    // Asked for a later step before, and for the same again, it says the same.
    let _later = reasons.reason(&sidebearings, step.saturating_add(3), rule);
    let found = reasons.reason(&sidebearings, step, rule);
    if reasons.reason(&sidebearings, step, rule) != found {
        return Err(Fail::from("the same reason again"));
    }
    Ok(found)
}
