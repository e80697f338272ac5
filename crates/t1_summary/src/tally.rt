//! The numbers of fonts and of lines.

ghost use Rattle.std.specs.Prelude.{◌≡◌, [], ◌∷◌, ◌++◌, List};
ghost use Rattle.t1_rules.specs.declared.rule.Rule.{Rule};
ghost use Rattle.t1_summary.specs.Tallies.{all_fonts, fonts_in, lines_in, tally_of};
ghost use Rattle.t1_summary.specs.declared.found.FontClass.{FontClass};

use crate::found::FontClass;
use t1_rules::{RULE_COUNT, Rule};

/// The number of classes of fonts.
pub(crate) const CLASSES: usize = 5;

/// Numbers of fonts by how they were found, and of lines by their rules. A number stays at 2^64 - 1 once it is there.
#[derive(Clone, Copy, Debug, PartialEq, Eq)]
pub struct Tally {
    /// By [`FontClass::place`].
    pub(crate) fonts: [u64; CLASSES],
    /// By the rule's number, less 1.
    pub(crate) lines: [u64; RULE_COUNT],
}

impl Tally {
    /// The tally of no font and no line.
    pub fn new() -> Tally
        ensures { result ≡ tally_of [] [] }
    {
        Tally {
            fonts: [0; CLASSES],
            lines: [0; RULE_COUNT],
        }
    }

    /// Counts one font more.
    pub fn add(&mut self, found: FontClass)
        ensures { (founds : List FontClass) (lines : List Rule)
            → self.old ≡ tally_of founds lines → self.new ≡ tally_of (founds ++ found ∷ []) lines }
    {
        let place = found.place();
        self.fonts[place] = self.fonts[place].saturating_add(1);
    }

    /// Counts one line of a rule more.
    pub fn add_line(&mut self, rule: Rule)
        ensures { (founds : List FontClass) (lines : List Rule)
            → self.old ≡ tally_of founds lines → self.new ≡ tally_of founds (lines ++ rule ∷ []) }
    {
        let place = usize::from(rule.number()) - 1;
        self.lines[place] = self.lines[place].saturating_add(1);
    }

    /// The number of fonts.
    pub fn fonts(&self) -> u64
        ensures { result ≡ all_fonts self.now }
    {
        let mut fonts: u64 = 0;
        for count in &self.fonts {
            fonts = fonts.saturating_add(*count);
        }
        fonts
    }

    /// The number of fonts that were found so.
    pub fn fonts_found(&self, found: FontClass) -> u64
        ensures { result ≡ fonts_in self.now found }
    {
        self.fonts[found.place()]
    }

    /// The number of lines of a rule.
    pub fn lines_of(&self, rule: Rule) -> u64
        ensures { result ≡ lines_in self.now rule }
    {
        self.lines[usize::from(rule.number()) - 1]
    }
}

impl Default for Tally {
    ghost is_default = { λ tally. tally ≡ tally_of [] [] };

    fn default() -> Tally {
        Tally::new()
    }
}
