//! What the words of the command line request.

use t1_char::Edition;
use t1_picture::Extent;

/// What is to be drawn.
#[derive(Drop)]
pub struct DrawOptions {
    /// By which edition of the rule book faults are found, and how many steps count.
    pub edition: Edition,
    /// The name of the file of waivers, if there is one.
    pub waive: Option<String>,
    /// Which pictures are wanted.
    pub asked: Asked,
    /// The name of the font's file; without it standard input is read.
    pub font: Option<String>,
}

/// Which pictures are wanted.
#[derive(Drop)]
pub enum Asked {
    /// One of a glyph, by its name.
    Glyph { name: Vec<u8>, extent: Extent },
    /// One of each glyph that has faults, in the folder of this name.
    Faulty { folder: String },
}
