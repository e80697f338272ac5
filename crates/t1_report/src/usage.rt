//! Whether waivers are used.

ghost use Rattle.std.specs.Prelude.{◌≡◌, ◌≤◌, ◌+◌, ℕ, length, slice_get};
ghost use Rattle.t1_report.specs.Checked.{checked};
ghost use Rattle.t1_report.specs.Reports.{is_used, tells_unused};
ghost use Rattle.t1_report.specs.Walks.{turns_of_waiver};
ghost use Rattle.t1_report.specs.Private.Units.{turns_if_any};
ghost use Rattle.t1_rules.specs.Book.{number_of};
ghost use Rattle.t1_rules.specs.Components.{AreOf};
ghost use Rattle.t1_rules.specs.Mask.{has};
ghost use Rattle.t1_font.specs.Bounds.{most_glyphs};
ghost use Rattle.t1_char.specs.Editions.{limit_of};
ghost use Rattle.t1_char.specs.declared.edition.Edition.TheVariants.{Two};

use crate::waivers::Waivers;
use crate::walk::glyph_run::GlyphRun;
use t1_font::Font;
use t1_rules::{Mask, Rule, Sidebearings, glyph_named};

/// What is reported of a waiver, and how many steps were requested for that.
#[derive(Clone, Copy)]
pub(crate) struct Check {
    pub(crate) rules: Mask,
    pub(crate) turns: u32,
}

/// Whether a waiver is used, and how many steps were requested for that.
#[derive(Clone, Copy)]
pub(crate) struct Use {
    pub(crate) used: bool,
    pub(crate) turns: u32,
}

/// What is reported of the waiver of a place: that it isn't used, or nothing.
pub(crate) fn check_waiver<'a>(
    font: &'a Font<'a>,
    sidebearings: &'a Sidebearings,
    waivers: &Waivers<'_>,
    place: usize,
) -> Check
    requires sidebearings { AreOf font.now sidebearings.now }
    requires few { length font.now.glyphs ≤ most_glyphs }
    ensures rules { (n : ℕ) → has result.rules n
        ≡ tells_unused (checked font.now sidebearings.now.edition) waivers.now (place + 1) n }
    ensures turns { result.turns ≡ turns_if_any (checked font.now sidebearings.now.edition) (slice_get waivers.now place) }
    ensures few { result.turns ≤ limit_of Two + 1 }
{
    let Some((name, rule)) = waivers.pair(place) else {
        return Check {
            rules: Mask::empty(),
            turns: 0,
        };
    };
    let checked = use_of(font, sidebearings, name, rule);
    Check {
        rules: Mask::empty().with(Rule::U01, !checked.used),
        turns: checked.turns,
    }
}

/// Whether a waiver is used: its glyph is run again, up to the first step that breaks its rule.
fn use_of<'a>(font: &'a Font<'a>, sidebearings: &'a Sidebearings, name: &[u8], rule: Rule) -> Use
    requires sidebearings { AreOf font.now sidebearings.now }
    requires few { length font.now.glyphs ≤ most_glyphs }
    ensures used { result.used ≡ is_used (checked font.now sidebearings.now.edition) (name.now, rule) }
    ensures turns { result.turns ≡ turns_of_waiver (checked font.now sidebearings.now.edition) (name.now, rule) }
    ensures few { result.turns ≤ limit_of Two + 1 }
{
    let Some(glyph) = glyph_named(font, name) else {
        return Use {
            used: false,
            turns: 0,
        };
    };
    let mut run = GlyphRun::start(font, glyph, sidebearings.edition());
    while let Some(found) = run.next(sidebearings, glyph as u32 + 1) {
        if found.rules.has(rule) {
            return Use {
                used: true,
                turns: run.counted(),
            };
        }
    }
    Use {
        used: false,
        turns: run.counted(),
    }
}
