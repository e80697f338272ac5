//! The two calls that read a font: first its clear text, then its private text. Type 1 Font Format 1.1, chapters 2 and 7.

ghost use Rattle.std.specs.Prelude.{◌≡◌, ◌≤◌, IfOk, List, Ok, drop, length};
ghost use Rattle.t1_font.specs.ClearText.{begins_as_font, clear_of};
ghost use Rattle.t1_font.specs.Fonts.{Marks, Stated, value_of};
ghost use Rattle.t1_font.specs.Readings.{Reads};
ghost use Rattle.t1_font.specs.Texts.{clear_read, font_after, font_read};
ghost use Rattle.t1_font.specs.FontFiles.{marks_in};
ghost use Rattle.t1_seal.specs.Joined.{joined_text};
ghost use Rattle.t1_font.specs.TextTurns.{TextRead};

use crate::font::Font;
use crate::texts::{take_clear, take_private};
use crate::unread::Unread;
use std::alloc::Global;
use std::marker::Model;
use t1_seal::Joined;

/// What the clear text states, before the private text is read.
#[derive(Drop)]
pub struct Clear<'a> {
    font: Font<'a>,
    after: usize,
}

impl<'a> Model for Clear<'a> {
    ghost use Rattle.t1_font.specs.Texts.{ClearValue};

    ghost Value = { ClearValue };

    ghost view = { λ c. record { font = c.font; after = c.after } };
}

impl<'a> Clear<'a> {
    /// The place after the word `eexec`, where the encrypted section begins.
    pub fn after(&self) -> usize
        ensures { result ≡ self.now.after }
    {
        self.after
    }

    /// Drops what is stated, in a function of its own: one that drops it beside other ends takes long to prove.
    pub fn let_go(self) {
        self.into_font().let_go();
    }

    fn into_font(self) -> Font<'a>
        ensures { result ≡ self.entry.font }
    {
        self.font
    }
}

/// Whether a font's bytes begin with `%!`.
fn begins_as_font(text: &[u8]) -> bool
    ensures { result ≡ begins_as_font text.now }
{
    matches!(text, [b'%', b'!', ..])
}

/// Reads the clear text of a font, up to its word `eexec`.
pub fn read_clear<'a>(alloc: Global, joined: &'a Joined) -> Result<Clear<'a>, Unread>
    ensures gives { Reads (λ c. c) result (clear_read (marks_in (joined_text joined.now)) joined.now.bytes.items) }
    ensures within { IfOk result (λ clear. clear.after ≤ length joined.now.bytes.items) }
    ensures behind { IfOk result (λ clear. (read : TextRead) →
        clear_of (marks_in (joined_text joined.now)) joined.now.bytes.items ≡ Ok read →
        read.rest ≡ drop clear.after joined.now.bytes.items) }
{
    let text = joined.bytes.as_slice();
    if !begins_as_font(text) {
        return Err(Unread::NoEexec);
    }
    let no_end = joined.pfb & !joined.end_segment;
    let mut font = Font::new(alloc, no_end, joined.trailing);
    let rest = match take_clear(&mut font, text) {
        Ok(rest) => rest,
        Err(refusal) => {
            font.let_go();
            return Err(refusal);
        }
    };
    let after = text.len() - rest.len();
    Ok(Clear { font, after })
}

/// Reads the private text of a font, up to the `end` of its CharStrings, over what its clear text
/// states. The font's maps grow by the allocator that `read_clear` was given.
pub fn read_font<'a>(_alloc: Global, clear: Clear<'a>, text: &'a [u8]) -> Result<Font<'a>, Unread>
    ensures run { Reads (λ f. f) result (font_after clear.entry.font text.now) }
    ensures stated { (marks : Marks) (before : List Stated) → clear.entry.font ≡ value_of marks before →
        Reads (λ f. f) result (font_read marks before text.now) }
{
    let mut font = clear.into_font();
    match take_private(&mut font, text) {
        Ok(()) => Ok(font),
        Err(refusal) => {
            font.let_go();
            Err(refusal)
        }
    }
}
