//! Fonts of which the lines of glyphs are waived, and the others reported.

ghost use Rattle.std.specs.Prelude.{◌≡◌};
ghost use Rattle.t1_many.specs.Recipients.{recipient_by};
ghost use Rattle.t1_waiving.specs.Waived.{WaivesFont};

use crate::glyph_lines::OutsideGlyphs;
use crate::kept::Kept;
use crate::writing::waivers_text;
use std::alloc::{AllocError, Global};
use t1_font::Font;
use t1_many::{FontError, Policy, Printer, Taken, hand_failure, hand_report};
use t1_names::is_input;
use t1_report::{Waivers, a_font_has_one_report, waivers_leave_out_what_they_say};
use t1_rules::{Mask, Sidebearings};

/// Reports the lines of these rules, in a form, but those of glyphs: of these it keeps the waivers. Of standard input, beside which none are
/// written, it reports all.
#[derive(Drop)]
pub struct WriteWaivers<F: Printer> {
    /// Of which rules lines are reported or waived.
    pub rules: Mask,
    /// The printer that takes those that are reported.
    pub printer: F,
    /// The waivers of the others.
    pub kept: Kept,
}

impl<F: Printer> Policy for WriteWaivers<F> {
    ghost takes = { λ old new entry lost.
        (new.rules ≡ old.rules) × WaivesFont (record { printer = recipient_by F.takes old.printer new.printer; old = old.kept; new = new.kept })
        old.rules entry lost };

    fn report<'a>(
        &mut self,
        alloc: Global,
        name: &str,
        font: &'a Font<'a>,
        sidebearings: &'a Sidebearings,
        waivers: &'a Waivers<'a>,
    ) -> Result<Taken, AllocError> {
        if is_input(name) {
            return Ok(hand_report(
                &mut self.printer,
                name,
                font,
                sidebearings,
                waivers,
                &self.rules,
            ));
        }
        // The calls of laws do nothing: the proof cites what they ensure.
        a_font_has_one_report();
        waivers_leave_out_what_they_say();
        let text = waivers_text(alloc, font, sidebearings, waivers, self.rules)?;
        self.kept.push(alloc, name, text)?;
        let outside = OutsideGlyphs { rules: self.rules };
        Ok(hand_report(
            &mut self.printer,
            name,
            font,
            sidebearings,
            waivers,
            &outside,
        ))
    }

    fn failure(&mut self, name: &str, error: FontError) -> Taken {
        hand_failure(&mut self.printer, name, error)
    }
}
