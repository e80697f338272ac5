//! The waivers of fonts, until they are written.

ghost use Rattle.std.specs.Prelude.{◌≡◌, [], ◌∷◌, ◌++◌, List, if◌then◌else◌, map};
ghost use Rattle.std.specs.Result.{is_ok};
ghost use Rattle.t1_waiving.specs.FontTexts.{FontText, font_text, texts_of};

use std::alloc::{AllocError, Global};
use std::marker::Model;
use t1_report::LARGEST_WAIVERS;

/// The waivers that are written beside a font.
#[derive(Drop)]
pub struct FontWaivers {
    /// The font's name.
    pub name: String,
    /// Their text, a line each; none where it has more than [`LARGEST_WAIVERS`] bytes, since t1check doesn't read such
    /// a text.
    pub text: Option<Vec<u8>>,
}

/// The waivers of fonts, in the order of the fonts, without those that have no waiver.
#[derive(Drop)]
pub struct Kept {
    fonts: Vec<FontWaivers>,
}

impl Model for Kept {
    ghost Value = { List FontText };

    ghost view = { λ kept. map font_text kept.fonts.items };
}

impl Kept {
    /// The waivers of no font.
    pub fn new(alloc: Global) -> Kept
        ensures { result ≡ [] }
    {
        Kept {
            fonts: Vec::new(alloc),
        }
    }

    /// The fonts with their waivers.
    pub fn fonts(&self) -> &[FontWaivers]
        ensures { map font_text result.now ≡ self.now }
    {
        self.fonts.as_slice()
    }

    /// Keeps the waivers of a font. If memory runs out, nothing is kept.
    pub fn keep(&mut self, font: FontWaivers) -> Result<(), AllocError>
        ensures { self.new ≡ (if is_ok result then self.old ++ font_text font ∷ [] else self.old) }
    {
        self.fonts.push(font)?;
        Ok(())
    }

    /// Keeps the waivers of a font, if it has some. Where memory runs out nothing is kept.
    pub(crate) fn push(
        &mut self,
        alloc: Global,
        name: &str,
        text: Vec<u8>,
    ) -> Result<(), AllocError>
        ensures { self.new ≡ (if is_ok result then self.old ++ texts_of name.now text.items else self.old) }
    {
        if text.is_empty() {
            return Ok(());
        }
        let name = String::from_str(alloc, name)?;
        let text = if text.len() > LARGEST_WAIVERS {
            None
        } else {
            Some(text)
        };
        self.fonts.push(FontWaivers { name, text })?;
        Ok(())
    }
}
