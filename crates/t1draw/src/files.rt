//! The folder that pictures are written to.

ghost use Rattle.std.specs.Prelude.{◌≤◌, IfOk, None, length};

use std::fs::File;
use std::io::{ErrorKind, Write};
use std::{fs, io, str};

/// A writer into the files of a folder, as they come one after another: a line with a name, one with a length, and so many bytes. The
/// folder is made with its first file, and no file is outside it.
#[derive(Drop)]
pub(crate) struct Files<'a> {
    rt: &'a HostRuntime,
    folder: &'a str,
    /// What came of the line that is being read.
    line: Vec<u8>,
    /// The name of the file whose length is the next line.
    name: Option<String>,
    /// The file that is being written.
    open: Option<Opened>,
}

/// A file, and how many bytes it still gets.
#[derive(Drop)]
struct Opened {
    file: File,
    left: u64,
}

impl<'a> Files<'a> {
    /// Nothing came, and nothing is made.
    pub(crate) fn of(rt: &'a HostRuntime, folder: &'a str) -> Files<'a> {
        Files {
            rt,
            folder,
            line: Vec::new(rt.alloc()),
            name: None,
            open: None,
        }
    }

    /// Reads a line or a part of one, and returns how many bytes that is.
    fn take_line(&mut self, bytes: &[u8]) -> io::Result<usize>
        ensures { IfOk result (λ count. count ≤ length bytes.now) }
    {
        let count = line_length(bytes);
        self.line.extend_from_slice(&bytes[..count])?;
        if self.line.ends_with(b"\n") {
            self.end_line()?;
        }
        Ok(count)
    }

    /// Takes the line that was read for a name, or else for a length.
    fn end_line(&mut self) -> io::Result<()> {
        self.line.pop();
        let Ok(line) = str::from_utf8(self.line.as_slice()) else {
            return Err(io::Error::from(ErrorKind::InvalidData));
        };
        match self.name.take() {
            Some(name) => {
                let Ok(left) = line.parse::<u64>() else {
                    return Err(io::Error::from(ErrorKind::InvalidData));
                };
                let file = self.create(name.as_str())?;
                if 0 < left {
                    self.open = Some(Opened { file, left });
                }
            }
            None => self.name = Some(String::from_str(self.rt.alloc(), line)?),
        }
        self.line.clear();
        Ok(())
    }

    /// Makes a file of the folder, and the folder where it isn't there.
    fn create(&self, name: &str) -> io::Result<File> {
        fs::create_dir_all(self.rt, self.folder)?;
        let folder = self.folder;
        let path = format!(in self.rt.alloc(); "{folder}/{name}")?;
        fs::create(self.rt, &path)
    }
}

/// How many bytes there are up to the end of the first line, or of all.
fn line_length(bytes: &[u8]) -> usize
    ensures { result ≤ length bytes.now }
{
    match bytes.iter().position(|byte| *byte == b'\n') {
        Some(place) => place + 1,
        None => bytes.len(),
    }
}

impl<'a> Write for Files<'a> {
    ghost contents = { λ files. None };

    fn write(&mut self, bytes: &[u8]) -> io::Result<usize> {
        match &mut self.open {
            Some(opened) => {
                let most = bytes.len().min(opened.left as usize);
                let count = opened.file.write(&bytes[..most])?;
                opened.left = opened.left.saturating_sub(count as u64);
                if opened.left == 0 {
                    self.open = None;
                }
                Ok(count)
            }
            None => self.take_line(bytes),
        }
    }

    fn flush(&mut self) -> io::Result<()> {
        Ok(())
    }
}
