//! Fonts whose reports were made, by their names.

ghost use Rattle.std.specs.Prelude.{◌≡◌, [], IfOk, OnOk, option_map};
ghost use Rattle.t1_known.specs.Private.Fonts.{IsLeft, IsLeftToo, IsTaken, count_in, left_at, now_of};

use indexmap::IndexMap;
use std::alloc::{AllocError, Global};
use t1_many::{Counts, Reading};

/// What was found in fonts, by their names: nothing is left of a font whose rows were written.
pub(crate) type Fonts<'a> = IndexMap<&'a [u8], Option<&'a Reading>>;

/// What was found in fonts; of fonts of one name the first is taken.
pub(crate) fn fonts_of<'a>(alloc: Global, readings: &'a [Reading]) -> Result<Fonts<'a>, AllocError>
    ensures { IfOk result (λ fonts. IsLeft readings.now [] fonts.entries) }
{
    let mut fonts = IndexMap::new(alloc);
    for reading in readings {
        add_font(&mut fonts, reading)?;
    }
    Ok(fonts)
}

/// Adds what was found in a font, unless one of this name is there.
fn add_font<'a>(fonts: &mut Fonts<'a>, reading: &'a Reading) -> Result<(), AllocError>
    ensures { OnOk result (IsLeftToo reading.now fonts.old.entries fonts.new.entries) }
{
    let font = reading.font.as_bytes();
    if fonts.contains_key(&font) {
        return Ok(());
    }
    fonts.insert(font, Some(reading))?;
    Ok(())
}

/// Takes what is left of a font: None if it has no reading.
pub(crate) fn take_left<'a>(fonts: &mut Fonts<'a>, font: &'a [u8]) -> Option<Option<&'a Reading>>
    ensures reading { option_map now_of result ≡ left_at fonts.old.entries font.now }
    ensures left { IsTaken font.now fonts.old.entries fonts.new.entries }
{
    let left = fonts.get_mut(&font)?;
    let reading = *left;
    *left = None;
    Some(reading)
}

/// How often a kind was found.
pub(crate) fn count_of(counts: &Counts, kind: &[u8]) -> u64
    ensures { result ≡ count_in counts.now.entries kind.now }
{
    counts.get(kind).copied().unwrap_or(0)
}
