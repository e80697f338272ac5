//! Files that can be replaced.

ghost use Rattle.std.specs.Prelude.{◌≡◌, ℕ, Bool, List, Option};
ghost use Rattle.t1_names.specs.Causes.{put_failure};
ghost use Rattle.t1_names.specs.declared.causes.Cause.{Cause};

use std::io;

/// Files that can be replaced, by their names.
pub trait FileStore {
    // A text was put in the place of a file, or that failed for a cause.
    ghost puts: { Self → Self → List ℕ → List ℕ → Option Cause → Type 0 };

    // There is a file of this name, or there is none, which was asked.
    ghost has: { Self → Self → List ℕ → Bool → Type 0 };

    /// Puts a text in the place of a file.
    fn replace(&mut self, name: &str, text: &[u8]) -> io::Result<()>
        ensures { puts self.old self.new name.now text.now (put_failure result) };

    /// Whether there is a file of this name.
    fn is_there(&mut self, name: &str) -> bool
        ensures { has self.old self.new name.now result };
}
