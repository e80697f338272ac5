//! The files of a test: fonts with their waivers, the texts of other files, and what is in folders.

ghost use Rattle.std.specs.Prelude.{◌≡◌, false, IfOk};
ghost use Rattle.t1_io.specs.Devices.{is_over};

use std::alloc::{AllocError, Global};
use std::io;
use std::io::ErrorKind;
use t1_answer_all::ShowsProgress;
use t1_io::{In, Source};
use t1_many::FontFiles;
use t1_names::{FileStore, FileSystem, FolderEntry, Listing};

/// A file, by its name. That of waivers is known by the name of their font.
pub(crate) type File<'a> = (&'a str, &'a [u8]);

/// The names of the fonts in a folder, by the folder's name.
pub(crate) type Folder<'a> = (&'a str, &'a [&'a str]);

/// What a system says of other files: the texts of lists, settings and known faults, and what is in folders.
#[derive(Clone, Copy)]
pub(crate) struct System<'a> {
    pub(crate) alloc: Global,
    pub(crate) texts: &'a [File<'a>],
    pub(crate) folders: &'a [Folder<'a>],
}

/// Files in memory, which keep what was done to them.
#[derive(Drop)]
pub(crate) struct Files<'a> {
    alloc: Global,
    fonts: &'a [File<'a>],
    waivers: &'a [File<'a>],
    /// The file of this name can't be replaced, and the waivers of the font of this name can't be opened.
    locked: &'a str,
    /// There is a file of this name already.
    there: &'a str,
    /// The calls about fonts, a line each.
    pub(crate) calls: Vec<u8>,
    /// The names of the files that were replaced, each with its text after `=`.
    pub(crate) replaced: Vec<u8>,
}

impl<'a> Files<'a> {
    /// Fonts and their waivers.
    pub(crate) fn new(alloc: Global, fonts: &'a [File<'a>], waivers: &'a [File<'a>]) -> Files<'a> {
        Files {
            alloc,
            fonts,
            waivers,
            locked: "",
            there: "",
            calls: Vec::new(alloc),
            replaced: Vec::new(alloc),
        }
    }

    /// The same where the file of this name can't be replaced, and the waivers of the font of this name can't be opened.
    pub(crate) fn with_locked(self, locked: &'a str) -> Files<'a> {
        Files { locked, ..self }
    }

    /// The same where there is a file of this name already.
    pub(crate) fn with_there(self, there: &'a str) -> Files<'a> {
        Files { there, ..self }
    }

    /// Keeps that this was called for this name. A line for which memory runs out is missing, which the test sees.
    fn note(&mut self, call: &str, name: &str) {
        let _ = push_parts(
            &mut self.calls,
            &[call.as_bytes(), b" ", name.as_bytes(), b"\n"],
        );
    }
}

/// Appends texts.
fn push_parts(text: &mut Vec<u8>, parts: &[&[u8]]) -> Result<(), AllocError> {
    for part in parts {
        text.extend_from_slice(part)?;
    }
    Ok(())
}

/// The bytes of the file of a name, if there is one.
fn bytes_of<'a>(files: &[File<'a>], name: &str) -> Option<&'a [u8]> {
    for (known, bytes) in files {
        if *known == name {
            return Some(*bytes);
        }
    }
    None
}

/// Opens the file of a name.
fn open<'a>(files: &[File<'a>], name: &str) -> io::Result<In<&'a [u8]>>
    ensures { IfOk result (λ file. is_over (⟦<In<&'a [u8]> as Source>⟧.state file) ≡ false) }
{
    match bytes_of(files, name) {
        Some(bytes) => Ok(In::new(bytes)),
        None => Err(io::Error::from(ErrorKind::NotFound)),
    }
}

/// A copy of the text of a name, if there is one.
fn text_of(alloc: Global, files: &[File<'_>], name: &str) -> Option<io::Result<Vec<u8>>> {
    let bytes = bytes_of(files, name)?;
    match Vec::from_slice(alloc, bytes) {
        Ok(text) => Some(Ok(text)),
        Err(error) => Some(Err(io::Error::from(error))),
    }
}

/// What is in a folder of these fonts.
fn listing_of(alloc: Global, fonts: &[&str]) -> Result<Listing, AllocError> {
    let mut entries = Vec::new(alloc);
    for font in fonts {
        entries.push(FolderEntry::Font(String::from_str(alloc, font)?))?;
    }
    Ok(Listing {
        entries,
        whole: true,
    })
}

impl<'a> FontFiles for Files<'a> {
    type Font = In<&'a [u8]>;

    type Waivers = In<&'a [u8]>;

    ghost calls = { record {
      Opens = λ _ _ _ _. Unit {0};
      OpensWaivers = λ _ _ _ _. Unit {0};
      Leaves = λ _ _ _ _. Unit {0};
      LeavesWaivers = λ _ _ _ _. Unit {0};
    } };

    fn open_font(&mut self, name: &str) -> io::Result<In<&'a [u8]>> {
        self.note("open font", name);
        open(self.fonts, name)
    }

    fn open_waivers(&mut self, name: &str) -> Option<io::Result<In<&'a [u8]>>> {
        self.note("open waivers", name);
        if name == self.locked {
            return Some(Err(io::Error::from(ErrorKind::PermissionDenied)));
        }
        match open(self.waivers, name) {
            Ok(file) => Some(Ok(file)),
            Err(_) => None,
        }
    }

    fn leave_font(&mut self, name: &str, _file: In<&'a [u8]>) {
        self.note("leave font", name);
    }

    fn leave_waivers(&mut self, name: &str, _file: In<&'a [u8]>) {
        self.note("leave waivers", name);
    }
}

impl<'a> FileSystem for System<'a> {
    ghost asks = { record {
      Leads = λ _ _ _ _. Unit {0};
      Lists = λ _ _ _ _. Unit {0};
      ReadsText = λ _ _ _ _. Unit {0};
      ReadsList = λ _ _ _ _. Unit {0};
    } };

    fn is_folder(&mut self, name: &str) -> bool {
        self.folders.iter().any(|(folder, _)| *folder == name)
    }

    fn list_folder(&mut self, folder: &str) -> Result<Listing, AllocError> {
        for (known, fonts) in self.folders {
            if *known == folder {
                return listing_of(self.alloc, fonts);
            }
        }
        listing_of(self.alloc, &[])
    }

    fn text(&mut self, name: &str) -> Option<io::Result<Vec<u8>>> {
        text_of(self.alloc, self.texts, name)
    }

    fn list_text(&mut self, name: &str) -> io::Result<Vec<u8>> {
        match text_of(self.alloc, self.texts, name) {
            Some(text) => text,
            None => Err(io::Error::from(ErrorKind::NotFound)),
        }
    }
}

impl<'a> FileStore for Files<'a> {
    ghost puts = { λ _ _ _ _ _. Unit {0} };

    ghost has = { λ _ _ _ _. Unit {0} };

    fn replace(&mut self, name: &str, text: &[u8]) -> io::Result<()> {
        if name == self.locked {
            return Err(io::Error::from(ErrorKind::PermissionDenied));
        }
        push_parts(&mut self.replaced, &[name.as_bytes(), b"=", text])?;
        Ok(())
    }

    fn is_there(&mut self, name: &str) -> bool {
        name == self.there
    }
}

impl<'a> ShowsProgress for Files<'a> {
    ghost expects = { λ _ _ _. Unit {0} };

    fn expect(&mut self, fonts: usize) {
        if let Ok(fonts) = fonts.to_string(self.alloc) {
            self.note("expect", fonts.as_str());
        }
    }
}
