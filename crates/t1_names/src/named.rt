//! The fonts that words name.

ghost use Rattle.std.specs.Prelude.{◌≡◌, ◌++◌, [], ◌∷◌, IfOk, OnOk, List, map, string_bytes};
ghost use Rattle.t1_names.specs.GlobValues.{glob_of};
ghost use Rattle.t1_names.specs.Named.{AreNamed, EachStandsFor, Found, StandsFor, all_fonts, all_unsearched, included, is_included};
ghost use Rattle.t1_names.specs.Once.{each_once};

use crate::filesystem::FileSystem;
use crate::folders::{Below, fonts_below};
use crate::globs::{Glob, is_excluded};
use crate::once::each_once;
use crate::words::{file_name, is_input, trim_word};
use std::alloc::{AllocError, Global};

/// The fonts that words name.
#[derive(Drop)]
pub struct Named {
    /// The names of the fonts, each once, in the order of the words.
    pub names: Vec<String>,
    /// The folders that weren't searched whole, each once.
    pub unsearched: Vec<String>,
}

/// The fonts that words name, without those that a glob excludes. A word that leads to a folder names the fonts below it.
/// The word `-` is standard input, which no glob excludes; a file of that name is named `./-`.
pub fn fonts_named<F: FileSystem>(
    alloc: Global,
    words: &[String],
    files: &mut F,
    excluded: &[Glob],
) -> Result<Named, AllocError>
    ensures { IfOk result (λ named. AreNamed F.asks.Leads F.asks.Lists files.old files.new (map string_bytes words.now) (map glob_of excluded.now)
        (map string_bytes named.names.items) (map string_bytes named.unsearched.items)) }
{
    let found = search(alloc, words, files)?;
    let fonts = included(alloc, found.fonts, excluded)?;
    Ok(Named {
        names: each_once(alloc, fonts)?,
        unsearched: each_once(alloc, found.unsearched)?,
    })
}

/// What words name, one after another.
fn search<F: FileSystem>(
    alloc: Global,
    words: &[String],
    files: &mut F,
) -> Result<Below, AllocError>
    ensures { IfOk result (λ below. (founds : List Found)
        × EachStandsFor F.asks.Leads F.asks.Lists files.old files.new (map string_bytes words.now) founds
        × (map string_bytes below.fonts.items ≡ all_fonts founds)
        × (map string_bytes below.unsearched.items ≡ all_unsearched founds)) }
{
    let mut fonts = Vec::new(alloc);
    let mut unsearched = Vec::new(alloc);
    for word in words {
        let found = stand_for(alloc, word.as_str(), files)?;
        take(&mut fonts, found.fonts)?;
        take(&mut unsearched, found.unsearched)?;
    }
    Ok(Below { fonts, unsearched })
}

/// What a word names.
fn stand_for<F: FileSystem>(alloc: Global, word: &str, files: &mut F) -> Result<Below, AllocError>
    ensures { IfOk result (λ below. StandsFor F.asks.Leads F.asks.Lists files.old files.new word.now
        (record { fonts = map string_bytes below.fonts.items; unsearched = map string_bytes below.unsearched.items })) }
{
    if is_input(word) {
        return alone(alloc, word);
    }
    let trimmed = trim_word(word, files);
    if files.is_folder(trimmed) {
        fonts_below(alloc, trimmed, files)
    } else {
        alone(alloc, file_name(trimmed))
    }
}

/// A name alone.
fn alone(alloc: Global, name: &str) -> Result<Below, AllocError>
    ensures { IfOk result (λ below. (map string_bytes below.fonts.items ≡ name.now ∷ []) × (map string_bytes below.unsearched.items ≡ [])) }
{
    let mut fonts = Vec::new(alloc);
    fonts.push(String::from_str(alloc, name)?)?;
    Ok(Below {
        fonts,
        unsearched: Vec::new(alloc),
    })
}

/// Takes names after others.
fn take(names: &mut Vec<String>, more: Vec<String>) -> Result<(), AllocError>
    ensures { OnOk result (names.new.items ≡ names.old.items ++ more.items) }
{
    let mut more = more;
    names.append(&mut more)?;
    Ok(())
}

/// The names that no glob excludes, and standard input.
fn included(alloc: Global, names: Vec<String>, excluded: &[Glob]) -> Result<Vec<String>, AllocError>
    ensures { IfOk result (λ kept. map string_bytes kept.items ≡ included (map glob_of excluded.now) (map string_bytes names.items)) }
{
    let mut kept = Vec::new(alloc);
    for name in names {
        if is_included(alloc, name.as_str(), excluded)? {
            kept.push(name)?;
        }
    }
    Ok(kept)
}

/// Whether no glob excludes a name. None excludes standard input.
fn is_included(alloc: Global, name: &str, excluded: &[Glob]) -> Result<bool, AllocError>
    ensures { IfOk result (λ is. is ≡ is_included (map glob_of excluded.now) name.now) }
{
    if is_input(name) {
        return Ok(true);
    }
    Ok(!is_excluded(alloc, name, excluded)?)
}
