//! The two texts of a font, read turn by turn: Type 1 Font Format 1.1, chapter 2.

ghost use Rattle.std.specs.Prelude.{◌≡◌, List, OnOk};
ghost use Rattle.t1_font.specs.declared.mode.ClearMode.TheVariants as clear_modes;
ghost use Rattle.t1_font.specs.declared.mode.PrivateMode.TheVariants.{Outside};
ghost use Rattle.t1_font.specs.declared.unread.Unread.TheVariants.{BadCharStrings, NoEexec};
ghost use Rattle.t1_font.specs.ClearText.{clear_turn};
ghost use Rattle.t1_font.specs.PrivateText.{private_turn};
ghost use Rattle.t1_font.specs.Readings.{Reads};
ghost use Rattle.t1_font.specs.Runs.{run_of};
ghost use Rattle.t1_font.specs.Texts.{font_after};

use crate::clear_text::clear_turn;
use crate::font::Font;
use crate::mode::{ClearMode, PrivateMode};
use crate::private_text::private_turn;
use crate::statement::Turn;
use crate::unread::Unread;

/// Takes what the clear text states, and returns what follows its word `eexec`.
pub(crate) fn take_clear<'a>(font: &mut Font<'a>, text: &'a [u8]) -> Result<&'a [u8], Unread>
    ensures { Reads (λ rest. record { value = font.new; rest = rest.now }) result
        (run_of clear_turn NoEexec font.old clear_modes.Outside text.now) }
{
    let mut left = text;
    let mut mode = ClearMode::Outside;
    'turns: loop {
        match clear_turn(mode, left)? {
            Turn::Over(rest) => return Ok(rest),
            Turn::Goes(statement, next, rest) => {
                font.put_one(statement)?;
                mode = next;
                left = rest;
            }
        }
    }
}

/// Takes what the private text states.
pub(crate) fn take_private<'a>(font: &mut Font<'a>, text: &'a [u8]) -> Result<(), Unread>
    ensures { Reads (λ _. font.new) result (font_after font.old text.now) }
{
    let mut left = text;
    let mut mode = PrivateMode::Outside;
    'turns: loop {
        match private_turn(Some(font), mode, left)? {
            Turn::Over(_) => return Ok(()),
            Turn::Goes(statement, next, rest) => {
                font.put_one(statement)?;
                mode = next;
                left = rest;
            }
        }
    }
}
