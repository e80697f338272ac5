//! Settings over files that are typed in a test.

use std::alloc::{AllocError, Global};
use std::io;
use std::io::ErrorKind;
use t1_names::{FileSystem, Listing};
use t1_options::{Settings, settings_for};
use t1_run::UsageError;

/// A file by its name and its text: None where it can't be read.
pub(crate) type File<'a> = (&'a str, Option<&'a str>);

/// These files. A name that ends in a slash leads to a folder.
#[derive(Drop)]
struct Files<'a> {
    alloc: Global,
    files: &'a [File<'a>],
}

impl<'a> FileSystem for Files<'a> {
    ghost asks = { record {
      Leads = λ _ _ _ _. Unit {0};
      Lists = λ _ _ _ _. Unit {0};
      ReadsText = λ _ _ _ _. Unit {0};
      ReadsList = λ _ _ _ _. Unit {0};
    } };

    fn is_folder(&mut self, name: &str) -> bool {
        name.ends_with('/')
    }

    fn list_folder(&mut self, _folder: &str) -> Result<Listing, AllocError> {
        Ok(Listing {
            entries: Vec::new(self.alloc),
            whole: false,
        })
    }

    fn text(&mut self, name: &str) -> Option<io::Result<Vec<u8>>> {
        text_of(self.alloc, self.files, name)
    }

    fn list_text(&mut self, _name: &str) -> io::Result<Vec<u8>> {
        Err(io::Error::from(ErrorKind::NotFound))
    }
}

/// The text of a file, if it is among these.
fn text_of(alloc: Global, files: &[File<'_>], name: &str) -> Option<io::Result<Vec<u8>>> {
    for (known, text) in files {
        if *known == name {
            return Some(match text {
                Some(text) => match text.as_bytes().to_vec(alloc) {
                    Ok(bytes) => Ok(bytes),
                    Err(_) => Err(io::Error::from(ErrorKind::OutOfMemory)),
                },
                None => Err(io::Error::from(ErrorKind::PermissionDenied)),
            });
        }
    }
    None
}

/// The file of the settings of a command line whose first path is this, and after it each value of each key as ` KEY=VALUE`; or
/// what is reported.
pub(crate) fn settled(
    alloc: Global,
    path: Option<&str>,
    files: &[File<'_>],
) -> Result<String, AllocError> {
    let mut files = Files { alloc, files };
    match settings_for(alloc, path, &mut files) {
        Ok(Some(settings)) => listed(alloc, &settings),
        Ok(None) => String::from_str(alloc, "none"),
        Err(UsageError::Help(text) | UsageError::Usage(text)) => Ok(text),
        Err(UsageError::Memory) => Err(AllocError),
    }
}

/// Settings as a text.
fn listed(alloc: Global, settings: &Settings) -> Result<String, AllocError> {
    let mut text = String::from_str(alloc, settings.file.as_str())?;
    if let Some(file) = &settings.baseline {
        add_value("baseline", file.as_str(), &mut text)?;
    }
    if let Some(edition) = settings.edition {
        add_value("edition", edition, &mut text)?;
    }
    add_values("except", settings.except.as_slice(), &mut text)?;
    add_values("exclude", settings.exclude.as_slice(), &mut text)?;
    add_values("fail-on", settings.fail_on.as_slice(), &mut text)?;
    add_values("level", settings.level.as_slice(), &mut text)?;
    add_values("only", settings.only.as_slice(), &mut text)?;
    Ok(text)
}

/// Adds each value of a key.
fn add_values(key: &str, values: &[String], text: &mut String) -> Result<(), AllocError> {
    for value in values {
        add_value(key, value.as_str(), text)?;
    }
    Ok(())
}

/// Adds a value of a key.
fn add_value(key: &str, value: &str, text: &mut String) -> Result<(), AllocError> {
    text.push(' ')?;
    text.push_str(key)?;
    text.push('=')?;
    text.push_str(value)
}
