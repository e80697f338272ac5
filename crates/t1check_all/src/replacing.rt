//! Files that are replaced as a database replaces its own: whatever stops the run, the old text or the new one is there.

use std::alloc::AllocError;
use std::fs::File;
use std::io::{ErrorKind, Write};
use std::path::{Path, PathBuf};
use std::{fs, io};

/// How many links are followed from a name to its file, as Linux does.
const MOST_LINKS: u32 = 40;

/// Puts a text in the place of a file: it is written beside it first, into a file that wasn't there, which gets its mode and then its name. What
/// a link leads to is replaced, and the link stays.
pub(crate) fn replace(rt: &HostRuntime, name: &str, text: &[u8]) -> io::Result<()> {
    let place = followed(rt, name)?;
    let (beside, file) = create_beside(rt, &place)?;
    if let Err(error) = put_in_place(rt, file, &beside, &place, text) {
        let _ = fs::remove_file(rt, &beside);
        return Err(error);
    }
    sync_folder(rt, &place);
    Ok(())
}

/// The file that a name leads to by links. It needn't be there.
fn followed(rt: &HostRuntime, name: &str) -> io::Result<PathBuf> {
    let mut place = Path::new(name).to_path_buf(rt.alloc())?;
    for _link in 0..MOST_LINKS {
        match fs::symlink_metadata(rt, &place) {
            Ok(metadata) if metadata.is_symlink() => {
                let to = fs::read_link(rt, &place)?;
                place = folder_of(&place).join(rt.alloc(), &to)?;
            }
            _ => return Ok(place),
        }
    }
    Err(io::Error::from(ErrorKind::FilesystemLoop))
}

/// The folder of a file, by its name: that of the working folder is empty.
fn folder_of(place: &PathBuf) -> Path<'_> {
    match place.parent() {
        Some(folder) => folder,
        None => Path::new(""),
    }
}

/// Creates a file beside another one, and returns its name too. The files of runs that were stopped are passed by.
fn create_beside(rt: &HostRuntime, place: &PathBuf) -> io::Result<(String, File)> {
    for number in 0..u32::MAX {
        let beside = name_beside(rt, place, number)?;
        match File::create_new(rt, &beside) {
            Ok(file) => return Ok((beside, file)),
            Err(error) if error.kind() == ErrorKind::AlreadyExists => {}
            Err(error) => return Err(error),
        }
    }
    Err(io::Error::from(ErrorKind::AlreadyExists))
}

/// The name of a file beside another one.
fn name_beside(rt: &HostRuntime, place: &PathBuf, number: u32) -> Result<String, AllocError> {
    let mut beside = String::from_str(rt.alloc(), place.as_str())?;
    beside.push_str(".new.")?;
    beside.push_str(number.to_string(rt.alloc())?.as_str())?;
    Ok(beside)
}

/// Writes a text into a new file, and gives it, closed, the name of the file at a place.
fn put_in_place(
    rt: &HostRuntime,
    file: File,
    beside: &String,
    place: &PathBuf,
    text: &[u8],
) -> io::Result<()> {
    write_synced(rt, file, place, text)?;
    fs::rename(rt, beside, place)
}

/// Writes a text into a new file, which gets the mode of the file at a place, if there is one, and waits until the disk has it.
fn write_synced(rt: &HostRuntime, mut file: File, place: &PathBuf, text: &[u8]) -> io::Result<()> {
    if let Ok(old) = fs::metadata(rt, place) {
        file.set_permissions(old.permissions())?;
    }
    file.write_all(text)?;
    file.sync_all()
}

/// Waits until the disk has a file's new name. The text is in its place by now: a folder that can't be opened or synced, as on Windows, is no error.
fn sync_folder(rt: &HostRuntime, place: &PathBuf) {
    let folder = folder_of(place);
    let name = if folder.as_str().is_empty() {
        "."
    } else {
        folder.as_str()
    };
    if let Ok(folder) = File::open(rt, name) {
        let _ = folder.sync_all();
    }
}
