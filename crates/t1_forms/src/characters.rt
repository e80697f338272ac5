//! Texts that are written character by character.

ghost use Rattle.std.specs.Prelude.{◌≡◌, ◌++◌, List, OnOk, string_bytes, ℕ};
ghost use Rattle.std.specs.List.{flat_map};
ghost use Rattle.std.specs.Str.{chars};

use std::alloc::AllocError;

/// How a text's characters are written.
pub trait Characters {
    ghost written: { ℕ → List ℕ };

    /// Appends a character.
    fn push(text: &mut String, c: char) -> Result<(), AllocError>
        ensures { OnOk result (string_bytes text.new ≡ string_bytes text.old ++ written c) };
}

/// Appends the characters of a text.
pub fn push_characters<C: Characters>(text: &mut String, from: &str) -> Result<(), AllocError>
    ensures { OnOk result (string_bytes text.new ≡ string_bytes text.old ++ flat_map C.written (chars from.now)) }
{
    for c in from.chars() {
        C::push(text, c)?;
    }
    Ok(())
}
