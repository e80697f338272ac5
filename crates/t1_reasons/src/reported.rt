//! The reasons of the faults of a font's report.

ghost use Rattle.std.specs.Prelude.{◌≡◌, ◌<◌, length};
ghost use Rattle.t1_reasons.specs.GlyphReasons.{glyph_reason};
ghost use Rattle.t1_reasons.specs.Reported.{fault_reason};
ghost use Rattle.t1_report.specs.Checked.{checked};
ghost use Rattle.t1_report.specs.Faults.{fault_value};
ghost use Rattle.t1_report.specs.Lines.{IsInFont};
ghost use Rattle.t1_rules.specs.Components.{AreOf};

use crate::font_reasons::font_reason;
use crate::glyph_reasons::GlyphReasons;
use crate::reason::Reason;
use crate::waivers::unused_reason;
use std::marker::Model;
use t1_font::Font;
use t1_report::{Fault, FaultPlace, Waivers};
use t1_rules::{Rule, Sidebearings};

/// The reasons of the faults of a font's report. It executes a glyph where a reason of it is asked for, once where that is done in the
/// order of the report. It takes no memory and can't fail.
#[derive(Drop)]
pub struct ReportReasons<'a> {
    font: &'a Font<'a>,
    sidebearings: &'a Sidebearings,
    /// The glyph of which a reason was asked for last.
    glyph: Option<GlyphReasons<'a>>,
}

impl<'a> Model for ReportReasons<'a> {
    ghost use Rattle.t1_report.specs.Checked.{CheckedFont, checked};
    ghost use Rattle.t1_rules.specs.Components.{AreOf};
    ghost use Rattle.t1_reasons.specs.Private.Executing.{IsOfFont};

    ghost Value = { CheckedFont };

    ghost view = { λ r. checked r.font.now r.sidebearings.now.edition };

    ghost invariant = { λ r. AreOf r.font.now r.sidebearings.now × IsOfFont r.font.now r.sidebearings.now.edition r.glyph };
}

impl<'a> ReportReasons<'a> {
    /// The reasons of a font's report.
    pub fn new(font: &'a Font<'a>, sidebearings: &'a Sidebearings) -> ReportReasons<'a>
        requires sidebearings { AreOf font.now sidebearings.now }
        ensures { result ≡ checked font.now sidebearings.now.edition }
    {
        ReportReasons {
            font,
            sidebearings,
            glyph: None,
        }
    }

    /// Returns why a fault is in the report.
    pub fn reason(&mut self, waivers: &Waivers<'_>, fault: &Fault) -> Option<Reason>
        requires in_font { IsInFont self.old.value waivers.now (fault_value fault.now) }
        ensures reason { result ≡ fault_reason self.old waivers.now (fault_value fault.now) }
        ensures same { self.new ≡ self.old }
    {
        match fault.place(self.font) {
            FaultPlace::Key { key, index } => font_reason(
                self.font,
                fault.rule,
                key,
                u32::from(index),
                self.sidebearings.edition(),
            ),
            FaultPlace::Glyph(glyph) => self.glyph_reason(glyph, fault.rule, fault.step),
            FaultPlace::Waiver(number) => {
                let (name, _rule) = waivers.pair(number)?;
                Some(Reason::Waiver {
                    unused: unused_reason(self.font, name),
                })
            }
        }
    }

    /// Why a step of a glyph breaks a rule.
    fn glyph_reason(&mut self, glyph: usize, rule: Rule, step: u32) -> Option<Reason>
        requires there { glyph < length self.old.value.glyphs }
        ensures reason { result ≡ glyph_reason self.old.value self.old.edition glyph rule step }
        ensures same { self.new ≡ self.old }
    {
        let mut reasons = match self.glyph.take() {
            Some(reasons) if reasons.glyph() == glyph => reasons,
            _ => GlyphReasons::start(self.font, glyph, self.sidebearings.edition()),
        };
        let reason = reasons.reason(self.sidebearings, step, rule);
        self.glyph = Some(reasons);
        reason
    }
}
