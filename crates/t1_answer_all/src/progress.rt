//! How far a run is.

ghost use Rattle.std.specs.Prelude.{ℕ};

/// What may show how far a run is.
pub trait ShowsProgress {
    // So many fonts are checked from now on.
    ghost expects: { Self → Self → ℕ → Type 0 };

    /// So many fonts are checked from now on.
    fn expect(&mut self, fonts: usize)
        ensures { expects self.old self.new fonts };
}
