//! The places of the font, looked at one after another.

ghost use Rattle.std.specs.Prelude.{◌≡◌, ◌≤◌, ◌+◌, ◌*◌, MatchOption};
ghost use Rattle.t1_report.specs.Checked.{checked};
ghost use Rattle.t1_report.specs.Private.Units.{IsFirst, IsFontPlaces, IsQuietFrom, font_step};
ghost use Rattle.t1_rules.specs.Keys.{key_count};

use crate::walk::found::Found;
use crate::walk::glyph_run::has_rules;
use arrayvec::ArrayVec;
use t1_char::Edition;
use t1_font::Font;
use t1_rules::{INDEXES, KEYS, font_faults, places};

/// The next place of the font that is to be looked at.
#[derive(Clone, Copy)]
pub(crate) struct FontPlaces {
    key: u8,
    index: u32,
    /// How many indexes of the key can have a fault.
    places: u32,
}

impl FontPlaces {
    /// From a step on, by an edition.
    pub(crate) fn from(font: &Font<'_>, edition: Edition, step: u32) -> FontPlaces
        ensures places { IsFontPlaces (checked font.now edition) result }
        ensures step { font_step result ≤ step }
    {
        let key = step / INDEXES;
        if key >= u32::from(KEYS) {
            return FontPlaces {
                key: KEYS,
                index: 0,
                places: 0,
            };
        }
        FontPlaces {
            key: key as u8,
            index: step % INDEXES,
            places: places(font, key as u8, edition),
        }
    }

    /// The next place where a rule is broken; places that can have no fault are skipped.
    pub(crate) fn next(&mut self, font: &Font<'_>, edition: Edition) -> Option<Found>
        requires places { IsFontPlaces (checked font.now edition) self.old }
        ensures found { MatchOption result (IsQuietFrom (checked font.now edition) 0 (font_step self.old))
            (λ found. IsFirst (checked font.now edition) 0 (font_step self.old) found) }
        ensures step { MatchOption result (self.new.key ≡ key_count) (λ found. font_step self.new ≡ found.step + 1) }
        ensures places { IsFontPlaces (checked font.now edition) self.new }
    {
        while self.key < KEYS {
            if self.index < self.places {
                let index = self.index;
                self.index += 1;
                let rules = font_faults(font, self.key, index, edition);
                if has_rules(rules) {
                    return Some(Found {
                        unit: 0,
                        step: INDEXES * u32::from(self.key) + index,
                        path: ArrayVec::new(),
                        rules,
                    });
                }
            } else {
                self.key += 1;
                self.index = 0;
                self.places = places(font, self.key, edition);
            }
        }
        None
    }
}
