//! The text of the waivers of a font's report.

ghost use Rattle.std.specs.Prelude.{◌≡◌, ◌≤◌, ◌==◌, ◌||◌, ◌++◌, ℕ, IfOk, OnOk, length};
ghost use Rattle.t1_font.specs.Bounds.{most_glyphs};
ghost use Rattle.t1_report.specs.Checked.{checked};
ghost use Rattle.t1_report.specs.Faults.{fault_value};
ghost use Rattle.t1_report.specs.Laws.WaivedFaults.{HasNoNameTwice};
ghost use Rattle.t1_report.specs.Waivers.{largest_waivers};
ghost use Rattle.t1_rules.specs.Book.{number_of};
ghost use Rattle.t1_rules.specs.Components.{AreOf};
ghost use Rattle.t1_rules.specs.Mask.{has};
ghost use Rattle.t1_waiving.specs.Private.Written.{ended_line, line_unless, waiver_at, was_written};
ghost use Rattle.t1_waiving.specs.Reports.{WaivesReport};

use crate::glyph_lines::is_in_glyph;
use std::alloc::{AllocError, Global};
use t1_font::Font;
use t1_report::{
    Fault, Waivers, Walk, each_font_has_a_report, faults_after_the_first_mark_are_the_report,
    marks_count_the_faults_given,
};
use t1_rules::{Mask, Rule, Sidebearings, rule_code};

/// The waivers that were written, of a report's faults in their order.
#[derive(Drop)]
struct Written {
    /// The unit of the glyph of which the last was written: 0 where none was.
    unit: u32,
    /// Of which rules some were written of that glyph.
    rules: Mask,
    /// A line each.
    text: Vec<u8>,
}

impl Written {
    /// Writes the waiver of a fault in a glyph, unless it was written.
    fn add(&mut self, font: &Font<'_>, fault: &Fault) -> Result<(), AllocError>
        requires { 1 ≤ fault.now.unit }
        ensures unit { OnOk result (self.new.unit ≡ fault.now.unit) }
        ensures rules { OnOk result ((n : ℕ) → has self.new.rules n
            ≡ (number_of fault.now.rule == n || was_written self.old.unit self.old.rules fault.now.unit n)) }
        ensures text { OnOk result (self.new.text.items
            ≡ self.old.text.items
            ++ line_unless (was_written self.old.unit self.old.rules fault.now.unit (number_of fault.now.rule))
            (waiver_at font.now (fault_value fault.now))) }
    {
        let of_glyph = if self.unit == fault.unit {
            self.rules
        } else {
            Mask::empty()
        };
        if of_glyph.has(fault.rule) {
            return Ok(());
        }
        let name = font.glyph_name((fault.unit - 1) as usize);
        push_waiver(&mut self.text, name, fault.rule)?;
        self.unit = fault.unit;
        self.rules = of_glyph.with(fault.rule, true);
        Ok(())
    }
}

/// Appends the line of a waiver.
fn push_waiver(text: &mut Vec<u8>, name: &[u8], rule: Rule) -> Result<(), AllocError>
    ensures { OnOk result (text.new.items ≡ text.old.items ++ ended_line (name.now, rule)) }
{
    text.extend_from_slice(name)?;
    text.extend_from_slice(b" ")?;
    text.extend_from_slice(rule_code(rule).as_bytes())?;
    text.extend_from_slice(b"\n")
}

/// Returns the text of the waivers of a font's report: a line `NAME RULE` for each glyph and each rule of these that it
/// breaks, once, in the order of the report.
pub fn waivers_text<'a>(
    alloc: Global,
    font: &'a Font<'a>,
    sidebearings: &'a Sidebearings,
    waivers: &'a Waivers<'a>,
    rules: Mask,
) -> Result<Vec<u8>, AllocError>
    requires few { length font.now.glyphs ≤ most_glyphs }
    requires few_waivers { length waivers.now ≤ largest_waivers }
    requires names { HasNoNameTwice font.now }
    requires sidebearings { AreOf font.now sidebearings.now }
    ensures { IfOk result (λ text. WaivesReport rules (checked font.now sidebearings.now.edition) waivers.now text.items) }
{
    // The calls of laws do nothing: the proof cites what they ensure.
    each_font_has_a_report();
    faults_after_the_first_mark_are_the_report();
    marks_count_the_faults_given();
    let mut walk = Walk::begin(font, sidebearings, waivers);
    let mut written = Written {
        unit: 0,
        rules: Mask::empty(),
        text: Vec::new(alloc),
    };
    for _fault in 0..u64::MAX {
        let Some(fault) = walk.next() else {
            break;
        };
        if rules.has(fault.rule) && is_in_glyph(font, &fault) {
            written.add(font, &fault)?;
        }
    }
    Ok(written.text)
}
