//! The fonts of files and of samples.

use crate::sample::Sample;
use std::alloc::{AllocError, Global};
use t1_font::{Font, OpenFont, Unread};

/// The file of a sample, opened.
pub fn opened(alloc: Global, sample: &Sample) -> Result<OpenFont, Unread> {
    OpenFont::open(alloc, sample.pfb()?.as_slice())
}

/// The font of a file. It is in a box, since a function that drops a font of its own takes long to prove.
pub fn font_of(alloc: Global, file: &mut OpenFont) -> Result<Box<Font<'_>>, Unread> {
    let font = file.font(alloc)?;
    Ok(boxed(alloc, font)?)
}

/// A value in a box.
pub fn boxed<T: Drop>(alloc: Global, value: T) -> Result<Box<T>, AllocError> {
    match Box::new(alloc, value) {
        Ok(placed) => Ok(placed),
        Err(_) => Err(AllocError),
    }
}
