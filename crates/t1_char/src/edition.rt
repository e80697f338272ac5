//! The editions of the rule book: which steps of a glyph are looked at, and by which rules.

ghost use Rattle.std.specs.Prelude.{◌≡◌, ◌≤◌};
ghost use Rattle.t1_char.specs.declared.edition.Edition.TheVariants.{Two};
ghost use Rattle.t1_char.specs.Editions.{digit_of, edition_numbered, has_later_rules, has_latest_rules, knows_one_edge, limit_of};

/// An edition of the rule book. The second looks at ten times as many steps of a glyph, and has a word of
/// its own for stems of one edge. The third is the second with the rules after number 70, the fourth the third
/// with those after number 93.
#[derive(Clone, Copy, Debug, PartialEq, Eq)]
pub enum Edition {
    One,
    Two,
    Three,
    Four,
}

impl Edition {
    /// The edition of a number, if there is one: the first has the number 1.
    pub fn numbered(number: u64) -> Option<Edition>
        ensures { result ≡ edition_numbered number }
    {
        match number {
            1 => Some(Edition::One),
            2 => Some(Edition::Two),
            3 => Some(Edition::Three),
            4 => Some(Edition::Four),
            _ => None,
        }
    }

    /// Its number, as it is written.
    pub fn digit(self) -> &'static str
        ensures { result.now ≡ digit_of self }
    {
        match self {
            Edition::One => "1",
            Edition::Two => "2",
            Edition::Three => "3",
            Edition::Four => "4",
        }
    }

    /// How many steps of a glyph are looked at.
    pub fn step_limit(self) -> u32
        ensures limit { result ≡ limit_of self }
        ensures few { result ≤ limit_of Two }
    {
        match self {
            Edition::One => 100_000,
            Edition::Two | Edition::Three | Edition::Four => 1_000_000,
        }
    }

    /// Whether a stem of width -20 or -21 is the hint of one edge.
    pub fn knows_one_edge(self) -> bool
        ensures { result ≡ knows_one_edge self }
    {
        match self {
            Edition::One => false,
            Edition::Two | Edition::Three | Edition::Four => true,
        }
    }

    /// Whether it has the rules after number 70.
    pub fn has_later_rules(self) -> bool
        ensures { result ≡ has_later_rules self }
    {
        match self {
            Edition::One | Edition::Two => false,
            Edition::Three | Edition::Four => true,
        }
    }

    /// Whether it has the rules after number 93.
    pub fn has_latest_rules(self) -> bool
        ensures { result ≡ has_latest_rules self }
    {
        match self {
            Edition::One | Edition::Two | Edition::Three => false,
            Edition::Four => true,
        }
    }
}
