//! The words that name fonts and folders: those of the command line, and those of lists.

ghost use Rattle.std.specs.Prelude.{◌≡◌, ◌+◌, ◌-◌, ◌^◌, ◌++◌, IfErr, IfOk, Ok, OnOk, map, min, string_bytes};
ghost use Rattle.t1_options.specs.Settings.Finding.{system_by};
ghost use Rattle.t1_answer_all.specs.Usage.{IsToldSo};
ghost use Rattle.t1_answer_all.specs.Private.Words.{AddsList, AreWordsOf, IsNoText};
ghost use Rattle.t1_answer_all.specs.Words.{CannotReadOne, given_words, undecoded_in};

use crate::usage::unreadable;
use std::alloc::{AllocError, Global};
use t1_names::{Cause, FileSystem, Words, words_in};
use t1_options::is_marked;
use t1_run::UsageError;

/// The words of the command line, and those of these lists, in this order.
pub(crate) fn all_words<F: FileSystem>(
    alloc: Global,
    paths: &[String],
    lists: &[String],
    system: &mut F,
) -> Result<Words, UsageError>
    ensures words { IfOk result (AreWordsOf (system_by F.asks system.old system.new) (map string_bytes paths.now) (map string_bytes lists.now)) }
    ensures none { IfErr result (IsToldSo (CannotReadOne (system_by F.asks system.old system.new) (map string_bytes lists.now))) }
{
    let mut words = words_given(alloc, paths)?;
    for list in lists {
        let text = text_of(alloc, list.as_str(), system)?;
        add_list(alloc, &mut words, text.as_slice())?;
    }
    Ok(words)
}

/// The words of the command line.
fn words_given(alloc: Global, paths: &[String]) -> Result<Words, AllocError>
    ensures words { IfOk result (λ all. map string_bytes all.words.items ≡ given_words (map string_bytes paths.now)) }
    ensures undecoded { IfOk result (λ all. all.undecoded ≡ undecoded_in (map string_bytes paths.now)) }
{
    let mut words = Vec::new(alloc);
    for path in paths {
        if !is_marked(path.as_str()) {
            words.push(String::from_str(alloc, path.as_str())?)?;
        }
    }
    Ok(Words {
        words,
        undecoded: count_marked(paths),
    })
}

/// How many words aren't UTF-8.
fn count_marked(paths: &[String]) -> usize
    ensures { result ≡ undecoded_in (map string_bytes paths.now) }
{
    paths.iter().filter(|path| is_marked(path.as_str())).count()
}

/// The text of a list.
fn text_of<F: FileSystem>(alloc: Global, list: &str, system: &mut F) -> Result<Vec<u8>, UsageError>
    ensures text { IfOk result (λ text. F.asks.ReadsList system.old system.new list.now (Ok text.items)) }
    ensures none { IfErr result (IsToldSo (IsNoText (system_by F.asks system.old system.new) list.now)) }
{
    match system.list_text(list) {
        Ok(text) => Ok(text),
        Err(error) => Err(unreadable(alloc, list, Cause::of(&error))),
    }
}

/// Adds the words of a list.
fn add_list(alloc: Global, words: &mut Words, text: &[u8]) -> Result<(), AllocError>
    ensures { OnOk result (AddsList text.now words.old words.new) }
{
    let mut listed = words_in(alloc, text)?;
    words.words.append(&mut listed.words)?;
    words.undecoded = words.undecoded.saturating_add(listed.undecoded);
    Ok(())
}
