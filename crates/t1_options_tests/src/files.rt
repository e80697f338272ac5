//! Files that are typed in a test.

use std::alloc::{AllocError, Global};
use std::io;
use std::io::ErrorKind;
use t1_names::{FileSystem, Listing};

/// What is typed of a settings file.
#[derive(Clone, Copy)]
pub(crate) enum File<'a> {
    /// There is none.
    None,
    /// It can't be read.
    Unreadable,
    /// It has this text.
    Text(&'a str),
}

/// The settings file of the working folder. There are no other files and no folders.
#[derive(Drop)]
pub(crate) struct Files<'a> {
    pub(crate) alloc: Global,
    pub(crate) settings: File<'a>,
}

impl<'a> FileSystem for Files<'a> {
    ghost asks = { record {
      Leads = λ _ _ _ _. Unit {0};
      Lists = λ _ _ _ _. Unit {0};
      ReadsText = λ _ _ _ _. Unit {0};
      ReadsList = λ _ _ _ _. Unit {0};
    } };

    fn is_folder(&mut self, _name: &str) -> bool {
        false
    }

    fn list_folder(&mut self, _folder: &str) -> Result<Listing, AllocError> {
        Ok(Listing {
            entries: Vec::new(self.alloc),
            whole: false,
        })
    }

    fn text(&mut self, name: &str) -> Option<io::Result<Vec<u8>>> {
        if name != ".t1check.toml" {
            return None;
        }
        match self.settings {
            File::None => None,
            File::Unreadable => Some(Err(io::Error::from(ErrorKind::PermissionDenied))),
            File::Text(text) => Some(match text.as_bytes().to_vec(self.alloc) {
                Ok(bytes) => Ok(bytes),
                Err(_) => Err(io::Error::from(ErrorKind::OutOfMemory)),
            }),
        }
    }

    fn list_text(&mut self, _name: &str) -> io::Result<Vec<u8>> {
        Err(io::Error::from(ErrorKind::NotFound))
    }
}
