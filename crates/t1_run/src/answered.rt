//! What a program returned.

use crate::status::Status;
use std::io::Read;
use t1_io::In;

/// What a program returns for the words of a command line: the status, and the files that were opened, as they were
/// left.
#[derive(Drop)]
pub struct Answered<F: Read + Drop> {
    /// How the run ended.
    pub status: Status,
    /// The font's file, if one was opened.
    pub font: Option<In<F>>,
    /// The file of waivers, if one was opened.
    pub waivers: Option<In<F>>,
}
