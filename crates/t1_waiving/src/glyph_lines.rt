//! Lines of glyphs, and those of the font itself.

ghost use Rattle.std.specs.Prelude.{◌≡◌};
ghost use Rattle.t1_report.specs.Faults.{fault_value};
ghost use Rattle.t1_waiving.specs.GlyphLines.{is_in_glyph, judged_outside};

use t1_font::Font;
use t1_many::{Judge, Verdict};
use t1_report::{Fault, Waivers};
use t1_rules::Mask;

/// Whether a fault is in a glyph, so that a waiver can leave it out.
pub(crate) fn is_in_glyph(font: &Font<'_>, fault: &Fault) -> bool
    ensures { result ≡ is_in_glyph font.now (fault_value fault.now) }
{
    fault.unit != 0 && fault.unit as usize != font.glyphs().len() + 1
}

/// The faults of these rules are reported, but those in glyphs.
#[derive(Clone, Copy, Debug, PartialEq, Eq)]
pub struct OutsideGlyphs {
    /// Of which rules lines are reported.
    pub rules: Mask,
}

impl Judge for OutsideGlyphs {
    ghost use Rattle.t1_many.specs.declared.verdict.Verdict.{Verdict};

    ghost judges = { λ outside font _ fault. judged_outside outside.rules font fault };

    fn judge(&self, font: &Font<'_>, _waivers: &Waivers<'_>, fault: &Fault) -> Verdict {
        if self.rules.has(fault.rule) && !is_in_glyph(font, fault) {
            Verdict::Reported
        } else {
            Verdict::Skipped
        }
    }
}
