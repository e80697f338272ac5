//! The files of fonts and of their waivers, as the system opens them.

use std::fs::File;
use std::io::{ErrorKind, Read};
use std::rt::Stdin;
use std::{fs, io};
use t1_answer_all::waivers_name;
use t1_names::is_input;

/// What a font is read from.
#[derive(Drop)]
pub(crate) enum FontReader {
    /// A file with a name.
    Named(File),
    /// Standard input.
    Input(Stdin),
}

impl Read for FontReader {
    fn read(&mut self, buffer: &mut [u8]) -> io::Result<usize> {
        match self {
            FontReader::Named(file) => file.read(buffer),
            FontReader::Input(input) => input.read(buffer),
        }
    }
}

/// Opens the font of a name, where `-` is standard input.
pub(crate) fn open_font(rt: &HostRuntime, name: &str) -> io::Result<FontReader> {
    if is_input(name) {
        Ok(FontReader::Input(rt.stdin()))
    } else {
        Ok(FontReader::Named(open_file(rt, name)?))
    }
}

/// Opens a file that is read to its end: no pipe, no folder.
fn open_file(rt: &HostRuntime, name: &str) -> io::Result<File> {
    if !fs::metadata(rt, name)?.is_file() {
        return Err(io::Error::from(ErrorKind::InvalidInput));
    }
    fs::open(rt, name)
}

/// Opens a font's file of waivers, if there is one.
pub(crate) fn open_waivers(rt: &HostRuntime, name: &str) -> Option<io::Result<File>> {
    let Ok(name) = waivers_name(rt.alloc(), name) else {
        return Some(Err(io::Error::from(ErrorKind::OutOfMemory)));
    };
    match fs::metadata(rt, &name) {
        Ok(_) => Some(open_file(rt, name.as_str())),
        Err(error) => match error.kind() {
            ErrorKind::NotFound | ErrorKind::InvalidFilename => None,
            _ => Some(Err(error)),
        },
    }
}
