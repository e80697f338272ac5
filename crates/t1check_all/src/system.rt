//! What a run asks of the system, and what it does to files.

use crate::fonts::{FontReader, open_font, open_waivers};
use crate::progress::Progress;
use crate::replacing::replace;
use std::alloc::AllocError;
use std::fs::File;
use std::io::{ErrorKind, Read};
use std::{fs, io};
use t1_answer_all::ShowsProgress;
use t1_io::In;
use t1_many::FontFiles;
use t1_names::{FileStore, FileSystem, FolderEntry, Listing, is_font_name, is_input};

/// What the system says of files and folders.
#[derive(Drop)]
pub(crate) struct System<'a> {
    pub(crate) rt: &'a HostRuntime,
}

/// The system's files, of which some are opened and some are replaced.
#[derive(Drop)]
pub(crate) struct Files<'a> {
    pub(crate) rt: &'a HostRuntime,
    pub(crate) progress: &'a Progress,
}

impl<'a> FileSystem for System<'a> {
    ghost asks = { record {
      Leads = λ _ _ _ _. Unit {0};
      Lists = λ _ _ _ _. Unit {0};
      ReadsText = λ _ _ _ _. Unit {0};
      ReadsList = λ _ _ _ _. Unit {0};
    } };

    fn is_folder(&mut self, name: &str) -> bool {
        is_folder(self.rt, name)
    }

    fn list_folder(&mut self, folder: &str) -> Result<Listing, AllocError> {
        list_folder(self.rt, folder)
    }

    fn text(&mut self, name: &str) -> Option<io::Result<Vec<u8>>> {
        match fs::metadata(self.rt, name) {
            Ok(metadata) if metadata.is_file() => Some(fs::read(self.rt, name)),
            Ok(_) => Some(Err(io::Error::from(ErrorKind::InvalidInput))),
            Err(_) => None,
        }
    }

    fn list_text(&mut self, name: &str) -> io::Result<Vec<u8>> {
        if !is_input(name) {
            return fs::read(self.rt, name);
        }
        let mut text = Vec::new(self.rt.alloc());
        self.rt.stdin().read_to_end(&mut text)?;
        Ok(text)
    }
}

impl<'a> FontFiles for Files<'a> {
    type Font = In<FontReader>;

    type Waivers = In<File>;

    ghost calls = { record {
      Opens = λ _ _ _ _. Unit {0};
      OpensWaivers = λ _ _ _ _. Unit {0};
      Leaves = λ _ _ _ _. Unit {0};
      LeavesWaivers = λ _ _ _ _. Unit {0};
    } };

    fn open_font(&mut self, name: &str) -> io::Result<In<FontReader>> {
        self.progress.begin_font();
        Ok(In::new(open_font(self.rt, name)?))
    }

    fn open_waivers(&mut self, name: &str) -> Option<io::Result<In<File>>> {
        match open_waivers(self.rt, name)? {
            Ok(file) => Some(Ok(In::new(file))),
            Err(error) => Some(Err(error)),
        }
    }

    fn leave_font(&mut self, _name: &str, _file: In<FontReader>) {}

    fn leave_waivers(&mut self, _name: &str, _file: In<File>) {}
}

impl<'a> FileStore for Files<'a> {
    ghost puts = { λ _ _ _ _ _. Unit {0} };

    ghost has = { λ _ _ _ _. Unit {0} };

    fn replace(&mut self, name: &str, text: &[u8]) -> io::Result<()> {
        replace(self.rt, name, text)
    }

    fn is_there(&mut self, name: &str) -> bool {
        fs::metadata(self.rt, name).is_ok()
    }
}

impl<'a> ShowsProgress for Files<'a> {
    ghost expects = { λ _ _ _. Unit {0} };

    fn expect(&mut self, fonts: usize) {
        self.progress.expect(fonts);
    }
}

/// Whether a name leads to a folder.
fn is_folder(rt: &HostRuntime, name: &str) -> bool {
    match fs::metadata(rt, name) {
        Ok(metadata) => metadata.is_dir(),
        Err(_) => false,
    }
}

/// What is in a folder: folders, and all else but links to folders whose names are those of fonts. One that is no file is reported when it is opened.
fn list_folder(rt: &HostRuntime, folder: &str) -> Result<Listing, AllocError> {
    let alloc = rt.alloc();
    let mut listing = Listing {
        entries: Vec::new(alloc),
        whole: true,
    };
    let Ok(entries) = fs::read_dir(rt, folder) else {
        listing.whole = false;
        return Ok(listing);
    };
    for entry in entries {
        let Ok(entry) = entry else {
            listing.whole = false;
            continue;
        };
        let Ok(kind) = entry.file_type() else {
            listing.whole = false;
            continue;
        };
        let name = entry.file_name();
        if kind.is_dir() {
            let name = String::from_str(alloc, name)?;
            listing.entries.push(FolderEntry::Folder(name))?;
        } else if is_font_name(name)
            && !(kind.is_symlink() && is_folder(rt, entry.path().as_str()))
        {
            let name = String::from_str(alloc, name)?;
            listing.entries.push(FolderEntry::Font(name))?;
        }
    }
    Ok(listing)
}
