//! What words are expected to give, and whether they do.

use crate::files::{File, Files};
use std::alloc::Global;
use t1_char::Edition;
use t1_options::{Baseline, Format, Options, Reasons, Request, Shard, Waivers, options};

/// What options are expected, but for their rules.
#[derive(Clone, Copy)]
pub(crate) struct Expected<'a> {
    pub(crate) quiet: bool,
    /// The edition, if one is named.
    pub(crate) edition: Option<Edition>,
    pub(crate) only: &'a [&'a str],
    pub(crate) except: &'a [&'a str],
    pub(crate) waivers: Waivers,
    /// The file of known faults, and whether it is made anew.
    pub(crate) known_faults: Option<(&'a str, bool)>,
    pub(crate) files_from: &'a [&'a str],
    pub(crate) exclude: &'a [&'a str],
    pub(crate) shard: Option<Shard>,
    pub(crate) form: Option<Format>,
    pub(crate) docs: Option<&'a str>,
    pub(crate) clean: bool,
    pub(crate) columns: Option<u32>,
    pub(crate) colour: bool,
    pub(crate) long: bool,
    pub(crate) reasons: Reasons,
    pub(crate) paths: &'a [&'a str],
}

/// One font, and no option.
pub(crate) const PLAIN: Expected<'static> = Expected {
    quiet: false,
    edition: None,
    only: &[],
    except: &[],
    waivers: Waivers::Read,
    known_faults: None,
    files_from: &[],
    exclude: &[],
    shard: None,
    form: None,
    docs: None,
    clean: false,
    columns: None,
    colour: false,
    long: false,
    reasons: Reasons::First,
    paths: &["a.pfb"],
};

/// Whether these are the texts.
pub(crate) fn are(texts: &[String], expected: &[&str]) -> bool {
    texts.len() == expected.len()
        && texts
            .iter()
            .zip(expected.iter())
            .all(|(text, other)| text.as_str() == *other)
}

/// The text, if there is one.
fn text(text: &Option<String>) -> Option<&str> {
    match text {
        Some(text) => Some(text.as_str()),
        None => None,
    }
}

/// The file of known faults, and whether it is made anew.
fn known_faults(faults: &Baseline) -> Option<(&str, bool)> {
    match faults {
        Baseline::Unnamed => None,
        Baseline::Compared(file) => Some((file.as_str(), false)),
        Baseline::Updated(file) => Some((file.as_str(), true)),
    }
}

/// Whether these options are the expected ones.
fn are_expected(options: &Options, expected: Expected<'_>) -> bool {
    options.quiet == expected.quiet
        && options.edition == expected.edition.unwrap_or(Edition::One)
        && options.names_edition == expected.edition.is_some()
        && are(options.only.as_slice(), expected.only)
        && are(options.except.as_slice(), expected.except)
        && options.waivers == expected.waivers
        && known_faults(&options.known_faults) == expected.known_faults
        && are(options.files_from.as_slice(), expected.files_from)
        && are(options.exclude.as_slice(), expected.exclude)
        && options.shard == expected.shard
        && options.form == expected.form
        && text(&options.docs) == expected.docs
        && options.clean == expected.clean
        && options.columns == expected.columns
        && options.colour == expected.colour
        && options.long == expected.long
        && options.reasons == expected.reasons
        && are(options.paths.as_slice(), expected.paths)
}

/// Whether words and a settings file give the expected options.
pub(crate) fn gives(
    alloc: Global,
    words: &[&str],
    settings: File<'_>,
    expected: Expected<'_>,
) -> bool {
    match options(alloc, words, &mut Files { alloc, settings }) {
        Ok(Request::Check(options)) => are_expected(&options, expected),
        _ => false,
    }
}
