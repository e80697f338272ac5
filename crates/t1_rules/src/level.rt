//! How much a violation matters.

ghost use Rattle.std.specs.Prelude.{◌≡◌};
ghost use Rattle.t1_rules.specs.Levels.{level_named, level_text};

/// How much a violation of a rule matters.
#[derive(Clone, Copy, Debug, PartialEq, Eq)]
pub enum Level {
    /// An interpreter may refuse the font, or draw something else than another one does.
    Must,
    /// Hints, names and what a maker meant: the glyphs are drawn, but not as well as they could be.
    Should,
    /// Nothing different is drawn.
    Tidy,
}

impl Level {
    /// The word for the level: `must`, `should` or `tidy`.
    pub fn text(self) -> &'static str
        ensures { result.now ≡ level_text self }
    {
        match self {
            Level::Must => "must",
            Level::Should => "should",
            Level::Tidy => "tidy",
        }
    }

    /// The level that a word names, if there is one.
    pub fn from_text(word: &[u8]) -> Option<Level>
        ensures { result ≡ level_named word.now }
    {
        if Level::Must.text().as_bytes() == word {
            Some(Level::Must)
        } else if Level::Should.text().as_bytes() == word {
            Some(Level::Should)
        } else if Level::Tidy.text().as_bytes() == word {
            Some(Level::Tidy)
        } else {
            None
        }
    }
}
