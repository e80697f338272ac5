//! The places where rules are broken, one after another: those of the font, those of each glyph, then those of the waivers.

ghost use Rattle.std.specs.Prelude.{◌≡◌, [], ◌≤◌, ◌<◌, ◌+◌, ◌*◌, false, IfSome, MatchOption, length, ◌-◌, ◌&&◌, ℕ, not};
ghost use Rattle.t1_font.specs.Fonts.{glyph_name};
ghost use Rattle.t1_report.specs.Checked.{checked, step_limit};
ghost use Rattle.t1_report.specs.Reports.{Place, IsTold};
ghost use Rattle.t1_report.specs.Private.Searches.{aim_of, checked_in, HasNoneFrom, IsFirstPlace, IsOfFont, IsSearch, is_over, step_of_part, turns_in, IsDone, IsFirstTold, IsPartBegun, TellsNoneFrom};
ghost use Rattle.t1_rules.specs.Components.{AreOf};
ghost use Rattle.t1_report.specs.Waivers.{is_waived, largest_waivers};
ghost use Rattle.t1_rules.specs.Mask.{has};
ghost use Rattle.t1_font.specs.Bounds.{most_glyphs};
ghost use Rattle.t1_char.specs.Editions.{limit_of};
ghost use Rattle.t1_char.specs.declared.edition.Edition.TheVariants.{Two};

use crate::usage::check_waiver;
use crate::waivers::Waivers;
use crate::walk::font_places::FontPlaces;
use crate::walk::found::Found;
use crate::walk::glyph_run::GlyphRun;
use arrayvec::ArrayVec;
use t1_char::Edition;
use t1_font::Font;
use t1_rules::Sidebearings;

/// What is searched: the font, a glyph, the waivers, or nothing any more.
#[derive(Drop)]
pub(crate) enum Part<'a> {
    Font(FontPlaces),
    Glyph(GlyphRun<'a>),
    /// The waivers after the glyphs, and the step of the next one.
    Waivers(u32),
    Over,
}

/// A search through the units.
#[derive(Drop)]
pub(crate) struct Search<'a> {
    font: &'a Font<'a>,
    sidebearings: &'a Sidebearings,
    waivers: &'a Waivers<'a>,
    /// The unit and the step that it began with.
    from: u32,
    first: u32,
    unit: u32,
    /// How many steps of machines were requested in the units before.
    passed: u64,
    /// How many were requested for the waivers.
    checked: u64,
    part: Part<'a>,
}

impl<'a> Search<'a> {
    /// A search from a unit on, and in the font from a step on.
    pub(crate) fn from(
        font: &'a Font<'a>,
        sidebearings: &'a Sidebearings,
        waivers: &'a Waivers<'a>,
        unit: u32,
        step: u32,
    ) -> Search<'a>
        requires { AreOf font.now sidebearings.now }
        ensures search { IsSearch result }
        ensures aim { aim_of result ≡ record {
          font = checked font.now sidebearings.now.edition;
          waivers = waivers.now;
          from = unit;
          first = step;
        } }
        ensures unit { result.unit ≡ unit }
        ensures turns { result.passed + turns_in result.part + result.checked ≡ 0 }
        ensures behind { (p : Place) → IsTold (checked font.now sidebearings.now.edition) waivers.now p → p.unit ≡ unit →
            step ≤ p.step → step_of_part result.part ≤ p.step }
    {
        let edition = sidebearings.edition();
        let part = if unit == 0 {
            Part::Font(FontPlaces::from(font, edition, step))
        } else {
            unit_part(font, waivers, unit as usize - 1, step, edition)
        };
        Search {
            font,
            sidebearings,
            waivers,
            from: unit,
            first: step,
            unit,
            passed: 0,
            checked: 0,
            part,
        }
    }

    /// The next place where a rule is broken.
    pub(crate) fn next(&mut self) -> Option<Found>
        requires { IsSearch self.old }
        ensures found { MatchOption result
            (HasNoneFrom (checked_in self.old) self.old.waivers.now self.old.unit (step_of_part self.old.part))
            (λ found. IsFirstPlace (checked_in self.old) self.old.waivers.now self.old.unit (step_of_part self.old.part) found) }
        ensures behind { MatchOption result (length self.old.font.now.glyphs + 1 < self.new.unit)
            (λ found. (self.new.unit ≡ found.unit) × (step_of_part self.new.part ≡ found.step + 1)) }
        ensures search { IsSearch self.new }
        ensures aim { aim_of self.new ≡ aim_of self.old }
    {
        while !self.is_over() {
            if let Some(found) = self.next_in_unit() {
                return Some(found);
            }
            self.next_unit();
        }
        None
    }

    /// How many steps of machines were requested, in the units before and in this one.
    pub(crate) fn turns(&self) -> u64
        requires { IsSearch self.now }
        ensures turns { result ≡ self.now.passed + turns_in self.now.part + self.now.checked }
        ensures few { result ≤ (step_limit (checked_in self.now) + 1)
            * (length self.now.font.now.glyphs + length self.now.waivers.now) }
    {
        self.passed + self.turns_in_part() + self.checked
    }

    fn is_over(&self) -> bool
        ensures { result ≡ is_over self.now.part }
    {
        matches!(self.part, Part::Over)
    }

    /// The next place of the unit where a rule is broken.
    pub(crate) fn next_in_unit(&mut self) -> Option<Found>
        requires search { IsSearch self.old }
        ensures found { MatchOption result
            (TellsNoneFrom (checked_in self.old) self.old.waivers.now self.old.unit (step_of_part self.old.part))
            (λ found. IsFirstTold (checked_in self.old) self.old.waivers.now self.old.unit (step_of_part self.old.part) found) }
        ensures step { MatchOption result
            (IsDone (checked_in self.old) self.old.waivers.now self.old.unit self.new.part)
            (λ found. step_of_part self.new.part ≡ found.step + 1) }
        ensures within { IfSome result (λ found. self.old.unit ≤ length self.old.font.now.glyphs + 1) }
        ensures search { IsSearch self.new }
        ensures under_way { is_over self.new.part ≡ is_over self.old.part }
        ensures unit { self.new.unit ≡ self.old.unit }
        ensures aim { aim_of self.new ≡ aim_of self.old }
    {
        let edition = self.sidebearings.edition();
        match &mut self.part {
            Part::Font(places) => places.next(self.font, edition),
            Part::Glyph(run) => match run.next(self.sidebearings, self.unit) {
                Some(found) => Some(told_of(found, self.font, self.waivers)),
                None => None,
            },
            Part::Waivers(next) => {
                if *next as usize > self.waivers.len() {
                    return None;
                }
                let step = *next;
                let check = check_waiver(
                    self.font,
                    self.sidebearings,
                    self.waivers,
                    step as usize - 1,
                );
                *next += 1;
                self.checked += u64::from(check.turns);
                Some(Found {
                    unit: self.unit,
                    step,
                    path: ArrayVec::new(),
                    rules: check.rules,
                })
            }
            Part::Over => None,
        }
    }

    /// Goes on to the next unit.
    fn next_unit(&mut self)
        requires search { IsSearch self.old }
        requires under_way { is_over self.old.part ≡ false }
        requires done { IsDone (checked_in self.old) self.old.waivers.now self.old.unit self.old.part }
        ensures search { IsSearch self.new }
        ensures unit { self.new.unit ≡ self.old.unit + 1 }
        ensures start { step_of_part self.new.part ≤ 1 }
        ensures aim { aim_of self.new ≡ aim_of self.old }
    {
        let glyph = self.unit as usize;
        self.passed += self.turns_in_part();
        self.unit += 1;
        let edition = self.sidebearings.edition();
        begin(&mut self.part, self.font, self.waivers, glyph, 0, edition);
    }

    fn turns_in_part(&self) -> u64
        ensures turns { result ≡ turns_in self.now.part }
        ensures most { result ≤ limit_of Two + 1 }
    {
        match &self.part {
            Part::Glyph(run) => u64::from(run.counted()),
            Part::Font(_) | Part::Waivers(_) | Part::Over => 0,
        }
    }
}

/// A glyph before its first step; after the last glyph the waivers from a step on; then all is over.
fn unit_part<'a>(
    font: &'a Font<'a>,
    waivers: &Waivers<'_>,
    glyph: usize,
    step: u32,
    edition: Edition,
) -> Part<'a>
    ensures part { IsPartBegun (checked font.now edition) waivers.now glyph step result }
    ensures few { length font.now.glyphs ≤ most_glyphs }
    ensures few_waivers { length waivers.now ≤ largest_waivers }
{
    let mut part = Part::Over;
    begin(&mut part, font, waivers, glyph, step, edition);
    part
}

/// The same in place: a glyph takes the place of the one before it.
fn begin<'a>(
    part: &mut Part<'a>,
    font: &'a Font<'a>,
    waivers: &Waivers<'_>,
    glyph: usize,
    step: u32,
    edition: Edition,
)
    requires { IsOfFont font.now part.old }
    ensures part { IsPartBegun (checked font.now edition) waivers.now glyph step part.new }
    ensures few { length font.now.glyphs ≤ most_glyphs }
    ensures few_waivers { length waivers.now ≤ largest_waivers }
{
    let count = font.glyphs().len();
    let last = waivers.len() as u32 + 1;
    if glyph < count {
        match part {
            Part::Glyph(run) => run.start_again(font, glyph, edition),
            _ => begin_first(part, font, glyph, edition),
        }
    } else if glyph == count {
        *part = Part::Waivers(step.max(1).min(last));
    } else {
        *part = Part::Over;
    }
}

/// A glyph before its first step, where no other was under way. It is out of line, since a new run is large.
#[inline(never)]
fn begin_first<'a>(part: &mut Part<'a>, font: &'a Font<'a>, glyph: usize, edition: Edition)
    requires { glyph < length font.now.glyphs }
    ensures { IsPartBegun (checked font.now edition) [] glyph 0 part.new }
{
    *part = Part::Glyph(GlyphRun::start(font, glyph, edition));
}

/// The rules that are reported of a step of a glyph: those broken there and not waived.
fn told_of(found: Found, font: &Font<'_>, waivers: &Waivers<'_>) -> Found
    requires { 1 ≤ found.unit }
    ensures unit { result.unit ≡ found.unit }
    ensures step { result.step ≡ found.step }
    ensures path { result.path.items ≡ found.path.items }
    ensures rules { (n : ℕ) → has result.rules n
        ≡ (has found.rules n && not (is_waived waivers.now (glyph_name font.now (found.unit - 1)) n)) }
{
    let name = font.glyph_name((found.unit - 1) as usize);
    Found {
        unit: found.unit,
        step: found.step,
        path: found.path,
        rules: waivers.left(name, found.rules),
    }
}
