//! What the value of a key gives, if it is one of the key.

ghost use Rattle.std.specs.Prelude.{◌≡◌, IfOk, map, option_and_then, option_map, string_bytes};
ghost use Rattle.t1_options.specs.Settings.Paths.{glob_below};
ghost use Rattle.t1_options.specs.Settings.Values.{alone, edition_in, edition_text, file_below, globs_below, is_unfit, list_in, names_in, some_texts, text_in, texts_in};
ghost use Rattle.toml.specs.View.{items_view, view};

use super::paths::{below, glob_below};
use crate::values::{baseline, has_line_end};
use std::alloc::{AllocError, Global};
use t1_char::Edition;
use toml::Value;

/// The name of a file below a folder.
pub(crate) fn file_below(
    alloc: Global,
    folder: &str,
    value: &Value,
) -> Result<Option<String>, AllocError>
    ensures { IfOk result (λ file. option_map string_bytes file ≡ file_below folder.now (view value.now)) }
{
    match baseline(text_in(value)) {
        Some(file) => Ok(Some(below(alloc, folder, file)?)),
        None => Ok(None),
    }
}

/// An edition of the rule book.
pub(crate) fn edition_in(value: &Value) -> Option<&'static str>
    ensures { option_map (λ s. s.now) result ≡ edition_in (view value.now) }
{
    edition_text(value.as_integer()?)
}

/// The number of an edition as a text, if there is one of that number.
fn edition_text(number: i64) -> Option<&'static str>
    ensures { option_map (λ s. s.now) result ≡ edition_text number }
{
    if number < 0 {
        return None;
    }
    Some(Edition::numbered(number.unsigned_abs())?.digit())
}

/// Names of rules or levels: at least one.
pub(crate) fn names_in(alloc: Global, value: &Value) -> Result<Option<Vec<String>>, AllocError>
    ensures { IfOk result (λ names. option_map (λ v. map string_bytes v.items) names ≡ names_in (view value.now)) }
{
    Ok(some_texts(list_in(alloc, value)?))
}

/// A list that isn't empty.
fn some_texts(values: Option<Vec<String>>) -> Option<Vec<String>>
    ensures { option_map (λ v. map string_bytes v.items) result ≡ option_and_then some_texts (option_map (λ v. map string_bytes v.items) values) }
{
    let values = values?;
    if values.is_empty() {
        None
    } else {
        Some(values)
    }
}

/// Globs that match below a folder.
pub(crate) fn globs_below(
    alloc: Global,
    folder: &str,
    value: &Value,
) -> Result<Option<Vec<String>>, AllocError>
    ensures { IfOk result (λ globs. option_map (λ v. map string_bytes v.items) globs ≡ globs_below folder.now (view value.now)) }
{
    match list_in(alloc, value)? {
        Some(globs) => Ok(Some(each_below(alloc, folder, globs.as_slice())?)),
        None => Ok(None),
    }
}

/// Each of these globs, so that it matches below a folder.
fn each_below(alloc: Global, folder: &str, globs: &[String]) -> Result<Vec<String>, AllocError>
    ensures { IfOk result (λ placed. map string_bytes placed.items ≡ map (glob_below folder.now) (map string_bytes globs.now)) }
{
    let mut placed = Vec::new(alloc);
    for glob in globs {
        placed.push(glob_below(alloc, folder, glob.as_str())?)?;
    }
    Ok(placed)
}

/// Texts in an array, or one text alone.
fn list_in(alloc: Global, value: &Value) -> Result<Option<Vec<String>>, AllocError>
    ensures { IfOk result (λ values. option_map (λ v. map string_bytes v.items) values ≡ list_in (view value.now)) }
{
    match value.as_array() {
        Some(items) => texts_in(alloc, items.as_slice()),
        None => alone(alloc, text_in(value)),
    }
}

/// The texts of an array that has nothing else.
fn texts_in(alloc: Global, items: &[Value]) -> Result<Option<Vec<String>>, AllocError>
    ensures { IfOk result (λ values. option_map (λ v. map string_bytes v.items) values ≡ texts_in (items_view items.now)) }
{
    let mut values = Vec::new(alloc);
    for item in items {
        let Some(text) = text_in(item) else {
            return Ok(None);
        };
        values.push(String::from_str(alloc, text)?)?;
    }
    Ok(Some(values))
}

/// One text.
fn alone(alloc: Global, text: Option<&str>) -> Result<Option<Vec<String>>, AllocError>
    ensures { IfOk result (λ values. option_map (λ v. map string_bytes v.items) values ≡ option_map alone (option_map (λ s. s.now) text.entry)) }
{
    let Some(text) = text else {
        return Ok(None);
    };
    let mut values = Vec::new(alloc);
    values.push(String::from_str(alloc, text)?)?;
    Ok(Some(values))
}

/// A string that can be a part of an option's value.
fn text_in(value: &Value) -> Option<&str>
    ensures { option_map (λ s. s.now) result ≡ text_in (view value.now) }
{
    let text = value.as_str()?;
    if is_unfit(text) { None } else { Some(text) }
}

/// Whether a text has a NUL or a line end, which can't be part of an option's value.
fn is_unfit(text: &str) -> bool
    ensures { result ≡ is_unfit text.now }
{
    text.as_bytes().contains(&0) | has_line_end(text)
}
