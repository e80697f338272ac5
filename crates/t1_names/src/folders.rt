//! The fonts below a folder.

ghost use Rattle.std.specs.Prelude.{◌≡◌, ◌++◌, IfOk, OnOk, map, string_bytes};
ghost use Rattle.std.specs.Char.{to_ascii_lowercase};
ghost use Rattle.t1_names.specs.Folders.{AreInOrder, IsBelow, ends_so, folders_in, fonts_in, is_font_name, path_of, unsearched_at};

use crate::filesystem::FileSystem;
use std::alloc::{AllocError, Global};

/// What is in a folder, by its name there: a folder, or a file or a link to one that [`is_font_name`] takes for a font.
#[derive(Drop)]
pub enum FolderEntry {
    Folder(String),
    Font(String),
}

/// What a folder lists.
#[derive(Drop)]
pub struct Listing {
    /// The folders and the fonts in it.
    pub entries: Vec<FolderEntry>,
    /// Whether it could be read, and every name in it.
    pub whole: bool,
}

/// The fonts below a folder.
#[derive(Drop)]
pub struct Below {
    /// The names of the fonts, in the order of their bytes.
    pub fonts: Vec<String>,
    /// The folders that couldn't be listed whole, in the same order.
    pub unsearched: Vec<String>,
}

/// Whether a file of this name is taken for a font: it ends in `.pfa`, `.pfb` or `.t1`, in letters of either case.
pub fn is_font_name(name: &str) -> bool
    ensures { result ≡ is_font_name name.now }
{
    let name = name.as_bytes();
    ends_so(name, b".pfa") || ends_so(name, b".pfb") || ends_so(name, b".t1")
}

/// Whether a name ends so, in letters of either case.
fn ends_so(name: &[u8], end: &[u8]) -> bool
    requires { end.now ≡ map to_ascii_lowercase end.now }
    ensures { result ≡ ends_so name.now end.now }
{
    let start = name.len().saturating_sub(end.len());
    name[start..].eq_ignore_ascii_case(end)
}

/// The fonts below a folder. No more than 2^64 - 1 folders are listed; those left then are unsearched.
pub fn fonts_below<F: FileSystem>(
    alloc: Global,
    folder: &str,
    files: &mut F,
) -> Result<Below, AllocError>
    ensures { IfOk result (λ below. IsBelow F.asks.Lists files.old files.new folder.now (map string_bytes below.fonts.items) (map string_bytes below.unsearched.items)) }
{
    let mut fonts = Vec::new(alloc);
    let mut unsearched = Vec::new(alloc);
    let mut pending = Vec::new(alloc);
    pending.push(String::from_str(alloc, folder)?)?;
    for _listed in 0..u64::MAX {
        let Some(folder) = pending.pop() else {
            return in_order(fonts, unsearched);
        };
        let listing = files.list_folder(folder.as_str())?;
        take_entries(
            alloc,
            folder.as_str(),
            listing.entries,
            &mut pending,
            &mut fonts,
        )?;
        take_unsearched(&mut unsearched, folder, listing.whole)?;
    }
    unsearched.append(&mut pending)?;
    in_order(fonts, unsearched)
}

/// What was found, in the order of the names.
fn in_order(fonts: Vec<String>, unsearched: Vec<String>) -> Result<Below, AllocError>
    ensures fonts { IfOk result (λ below. AreInOrder (map string_bytes fonts.items) (map string_bytes below.fonts.items)) }
    ensures unsearched { IfOk result (λ below. AreInOrder (map string_bytes unsearched.items) (map string_bytes below.unsearched.items)) }
{
    let mut below = Below { fonts, unsearched };
    below.fonts.sort()?;
    below.unsearched.sort()?;
    Ok(below)
}

/// Takes the folders and the fonts that are in a folder, by their whole names.
fn take_entries(
    alloc: Global,
    folder: &str,
    entries: Vec<FolderEntry>,
    folders: &mut Vec<String>,
    fonts: &mut Vec<String>,
) -> Result<(), AllocError>
    ensures folders { OnOk result (map string_bytes folders.new.items ≡ map string_bytes folders.old.items ++ folders_in folder.now entries.items) }
    ensures fonts { OnOk result (map string_bytes fonts.new.items ≡ map string_bytes fonts.old.items ++ fonts_in folder.now entries.items) }
{
    for entry in entries {
        match entry {
            FolderEntry::Folder(name) => folders.push(path_of(alloc, folder, name)?)?,
            FolderEntry::Font(name) => fonts.push(path_of(alloc, folder, name)?)?,
        }
    }
    Ok(())
}

/// Takes a folder that wasn't listed whole.
fn take_unsearched(
    unsearched: &mut Vec<String>,
    folder: String,
    whole: bool,
) -> Result<(), AllocError>
    ensures { OnOk result (map string_bytes unsearched.new.items ≡ map string_bytes unsearched.old.items ++ unsearched_at (string_bytes folder) whole) }
{
    if whole {
        return Ok(());
    }
    unsearched.push(folder)?;
    Ok(())
}

/// The whole name of what has this name in a folder.
fn path_of(alloc: Global, folder: &str, name: String) -> Result<String, AllocError>
    ensures { IfOk result (λ path. string_bytes path ≡ path_of folder.now (string_bytes name)) }
{
    if folder.as_bytes() == b".".as_slice() {
        return Ok(name);
    }
    let mut path = String::from_str(alloc, folder)?;
    if !folder.as_bytes().ends_with(b"/") {
        path.push('/')?;
    }
    path.push_str(name.as_str())?;
    Ok(path)
}
