//! From the bytes of a file to its font. Type 1 Font Format 1.1, chapters 2 and 7; Technical Note 5040.

ghost use Rattle.std.specs.Prelude.{◌≡◌, ◌≤◌, IfOk, MatchResult, Ok, length};
ghost use Rattle.t1_font.specs.FontFiles.{IsUnread, font_in, text_in};
ghost use Rattle.t1_seal.specs.Joined.{joined_text};
ghost use Rattle.t1_font.specs.Bounds.{most_glyphs};

use crate::clear::{read_clear, read_font};
use crate::font::Font;
use crate::unread::Unread;
use std::alloc::Global;
use std::marker::Model;
use t1_seal::{Joined, join, open_eexec};

/// A file whose segments are joined. Its font borrows from it: names and values from the joined bytes, charstrings from
/// the private text. The bytes of the file are no longer needed. Its model is what it will be read as.
#[derive(Drop)]
pub struct OpenFont {
    joined: Joined,
    private: Vec<u8>,
}

impl Model for OpenFont {
    ghost use Rattle.std.specs.Prelude.{Result};
    ghost use Rattle.t1_font.specs.FontFiles.{text_in};
    ghost use Rattle.t1_font.specs.Fonts.{FontValue};
    ghost use Rattle.t1_font.specs.declared.unread.Unread.{Unread};
    ghost use Rattle.t1_seal.specs.Joined.{joined_text};

    ghost Value = { Result FontValue Unread };

    ghost view = { λ f. text_in (joined_text f.joined) };
}

impl OpenFont {
    /// Joins the segments of a file. Fails where they are broken (E01 to E03), or memory runs out.
    #[tactic(auto, unfolding(crate::specs::FontFiles::font_in))]
    pub fn open(alloc: Global, bytes: &[u8]) -> Result<OpenFont, Unread>
        ensures { MatchResult result (λ file. file ≡ font_in bytes.now) (λ e. IsUnread e (font_in bytes.now)) }
    {
        let joined = join(alloc, bytes)?;
        Ok(OpenFont {
            joined,
            private: Vec::new(alloc),
        })
    }

    /// Reads the font: the clear text, the encrypted section after it, the private text in that. Fails for the first
    /// reason of these (E04, E06 to E13), or where memory runs out.
    ///
    /// Call it once: the contract says nothing about a second call.
    pub fn font(&mut self, alloc: Global) -> Result<Font<'_>, Unread>
        ensures gives { MatchResult result (λ font. self.old ≡ Ok font) (λ e. IsUnread e self.old) }
        ensures few { IfOk result (λ font. length font.glyphs ≤ most_glyphs) }
    {
        read_texts(alloc, &self.joined, &mut self.private)
    }
}

/// Reads the clear text of joined bytes, and their private text, which is kept for the font to borrow from.
fn read_texts<'a>(
    alloc: Global,
    joined: &'a Joined,
    kept: &'a mut Vec<u8>,
) -> Result<Font<'a>, Unread>
    ensures gives { MatchResult result (λ font. text_in (joined_text joined.now) ≡ Ok font)
        (λ e. IsUnread e (text_in (joined_text joined.now))) }
    ensures few { IfOk result (λ font. length font.glyphs ≤ most_glyphs) }
{
    let clear = read_clear(alloc, joined)?;
    let (clear_text, section) = joined.bytes.as_slice().split_at(clear.after());
    match open_eexec(alloc, section) {
        Ok(private) => *kept = private,
        Err(error) => {
            clear.let_go();
            return Err(Unread::from(error));
        }
    }
    let private_text = kept.as_slice();
    let font = read_font(alloc, clear, private_text)?;
    Ok(font.with_texts(clear_text, private_text))
}
