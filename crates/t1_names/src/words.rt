//! Words that name a font or a folder.

ghost use Rattle.std.specs.Prelude.{◌≡◌, ◌≢◌, ◌<◌, [], ◌∷◌, length, MatchOption};
ghost use Rattle.t1_names.specs.Words.{IsShort, Shortens, Trims, after_slashes, file_name, is_input};

use crate::filesystem::FileSystem;

/// The name that a word means. A leading `./`, and slashes after it, go where something else is after them. Then `/`
/// goes from its end where something is before it and the word, with the `/`, leads to a folder.
pub fn trim_word<'a, F: FileSystem>(word: &'a str, files: &mut F) -> &'a str
    ensures { Trims F.asks.Leads files.old files.new word.now result.now }
{
    let mut trimmed = word;
    while let Some(next) = shortened(trimmed, files) {
        trimmed = next;
    }
    trimmed
}

/// A word without what goes from its beginning or its end.
fn shortened<'a, F: FileSystem>(word: &'a str, files: &mut F) -> Option<&'a str>
    ensures { MatchOption result (IsShort F.asks.Leads files.old files.new word.now)
        (λ next. Shortens F.asks.Leads files.old files.new word.now next.now × (length next.now < length word.now)) }
{
    if let Some(rest) = without_front(word) {
        return Some(rest);
    }
    let front = word.strip_suffix('/')?;
    if front.is_empty() {
        return None;
    }
    if files.is_folder(word) {
        Some(front)
    } else {
        None
    }
}

/// A word without its leading `./` and the slashes after it, where something else is after them.
fn without_front(word: &str) -> Option<&str>
    ensures { MatchOption result ((rest : _) → word.now ≡ 46 ∷ 47 ∷ rest → after_slashes rest ≡ [])
        (λ next. (rest : _) × (word.now ≡ 46 ∷ 47 ∷ rest) × (next.now ≡ after_slashes rest) × (next.now ≢ [])) }
{
    let rest = word.strip_prefix('.')?;
    let rest = after_slashes(rest.strip_prefix('/')?);
    if rest.is_empty() { None } else { Some(rest) }
}

/// What is after the leading slashes of a text.
fn after_slashes(text: &str) -> &str
    ensures { result.now ≡ after_slashes text.now }
{
    let mut rest = text;
    while let Some(next) = rest.strip_prefix('/') {
        rest = next;
    }
    rest
}

/// Whether a word of the command line is `-`: standard input.
pub fn is_input(word: &str) -> bool
    ensures { result ≡ is_input word.now }
{
    word == "-"
}

/// The name of a file in lines: `-` would be standard input.
pub(crate) fn file_name(name: &str) -> &str
    ensures { result.now ≡ file_name name.now }
{
    if is_input(name) { "./-" } else { name }
}
