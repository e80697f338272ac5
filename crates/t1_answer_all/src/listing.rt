//! The list of fonts that options name.

ghost use Rattle.std.specs.Prelude.{◌≡◌, IfErr, IfOk, map, string_bytes};
ghost use Rattle.std.specs.List.{AllZip};
ghost use Rattle.t1_answer_all.specs.Listing.{AreFonts, HasNoFonts, IsGlobOf, IsPartOf, fonts_value};
ghost use Rattle.t1_options.specs.Settings.Finding.{system_by};
ghost use Rattle.t1_answer_all.specs.Usage.{IsToldSo};
ghost use Rattle.t1_names.specs.GlobValues.{glob_of};

use crate::shards::names_of_part;
use crate::unlisted::Unlisted;
use crate::usage::no_font;
use crate::words::all_words;
use std::alloc::{AllocError, Global};
use t1_names::{FileSystem, Glob, fonts_named};
use t1_options::{Options, Shard};
use t1_run::UsageError;

/// The fonts that are checked, and what couldn't be listed.
#[derive(Drop)]
pub(crate) struct Fonts {
    /// The names of the fonts: those of the part that is checked.
    pub(crate) names: Vec<String>,
    /// The folders that weren't searched whole.
    pub(crate) unsearched: Vec<String>,
    /// How many names aren't UTF-8; 2^64 - 1 where there are more.
    pub(crate) undecoded: usize,
}

impl Fonts {
    /// What couldn't be listed.
    pub(crate) fn unlisted(&self) -> Unlisted<'_>
        ensures undecoded { result.undecoded ≡ self.now.undecoded }
        ensures unsearched { map string_bytes result.unsearched.now ≡ map string_bytes self.now.unsearched.items }
    {
        Unlisted {
            undecoded: self.undecoded,
            unsearched: self.unsearched.as_slice(),
        }
    }
}

/// The fonts that the options name.
pub(crate) fn fonts_of<F: FileSystem>(
    alloc: Global,
    options: &Options,
    system: &mut F,
) -> Result<Fonts, UsageError>
    ensures fonts { IfOk result (λ fonts. AreFonts (system_by F.asks system.old system.new) options.now
        (fonts_value fonts)) }
    ensures none { IfErr result (IsToldSo (HasNoFonts (system_by F.asks system.old system.new) options.now)) }
{
    let words = all_words(
        alloc,
        options.paths.as_slice(),
        options.files_from.as_slice(),
        system,
    )?;
    let globs = globs_of(alloc, options.exclude.as_slice())?;
    let named = fonts_named(alloc, words.words.as_slice(), system, globs.as_slice())?;
    if named.names.is_empty() {
        return Err(no_font(alloc));
    }
    Ok(Fonts {
        names: part_of(alloc, named.names, options.shard)?,
        unsearched: named.unsearched,
        undecoded: words.undecoded,
    })
}

/// The globs of these texts.
fn globs_of(alloc: Global, texts: &[String]) -> Result<Vec<Glob>, AllocError>
    ensures { IfOk result (λ globs. AllZip IsGlobOf (map string_bytes texts.now) (map glob_of globs.items)) }
{
    let mut globs = Vec::new(alloc);
    for text in texts {
        globs.push(Glob::read(alloc, text.as_str())?)?;
    }
    Ok(globs)
}

/// The part of a list that is checked.
fn part_of(
    alloc: Global,
    names: Vec<String>,
    shard: Option<Shard>,
) -> Result<Vec<String>, AllocError>
    ensures { IfOk result (λ part. IsPartOf shard (map string_bytes names.items) (map string_bytes part.items)) }
{
    let Some(shard) = shard else {
        return Ok(names);
    };
    copies(alloc, names_of_part(names.as_slice(), shard))
}

/// Copies of names, in their order.
fn copies(alloc: Global, names: &[String]) -> Result<Vec<String>, AllocError>
    ensures { IfOk result (λ copies. map string_bytes copies.items ≡ map string_bytes names.now) }
{
    let mut copies = Vec::new(alloc);
    for name in names {
        copies.push(String::from_str(alloc, name.as_str())?)?;
    }
    Ok(copies)
}
