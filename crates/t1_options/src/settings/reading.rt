//! What the text of a settings file gives.

ghost use Rattle.std.specs.Prelude.{◌≡◌, ◌≤◌, None, OnOk, Some, Ok, Err, IfErr, IfOk, if◌then◌else◌, is_some, length, string_bytes};
ghost use Rattle.t1_options.specs.Settings.Reading.{HasSettings, IsWrongIn, file_in, key_of, line_at, no_toml_text, nothing_in, settings_in, settings_value, unknown_key_text, wants_of, with_entry, with_value};
ghost use Rattle.t1_options.specs.Words.{IsUsageOr};
ghost use Rattle.toml.specs.View.{table_view, view};

use super::values::{edition_in, file_below, globs_below, names_in};
use crate::complaint::settings_text;
use std::alloc::{AllocError, Global};
use t1_run::UsageError;
use toml::{Table, Value};

/// What a settings file gives for each of its keys. Where it has no such key: None, or an empty list.
#[derive(Drop)]
pub struct Settings {
    /// The name of the settings file.
    pub file: String,
    /// `baseline`: a file, below the folder of the settings file.
    pub baseline: Option<String>,
    /// `edition`: 1, 2, 3 or 4.
    pub edition: Option<&'static str>,
    /// `except`: codes of rules or their letters.
    pub except: Vec<String>,
    /// `exclude`: globs. Those with a slash are below the folder of the settings file.
    pub exclude: Vec<String>,
    /// `fail-on`: levels.
    pub fail_on: Vec<String>,
    /// `level`: levels.
    pub level: Vec<String>,
    /// `only`: codes of rules or their letters.
    pub only: Vec<String>,
}

/// A key of a settings file.
#[derive(Clone, Copy)]
pub enum Key {
    /// `baseline`.
    Baseline,
    /// `edition`.
    Edition,
    /// `except`.
    Except,
    /// `exclude`.
    Exclude,
    /// `fail-on`.
    FailOn,
    /// `level`.
    Level,
    /// `only`.
    Only,
}

/// The settings of a folder's file that has this text.
pub(crate) fn read_settings(
    alloc: Global,
    folder: &str,
    file: String,
    text: &[u8],
) -> Result<Settings, UsageError>
    requires { string_bytes file ≡ file_in folder.now }
    ensures settings { IfOk result (λ settings. HasSettings folder.now text.now (Ok (settings_value settings))) }
    ensures wrong { IfErr result (IsUsageOr (IsWrongIn folder.now text.now)) }
{
    match str::from_utf8(text) {
        Ok(text) => read_text(alloc, folder, file, text),
        Err(error) => {
            let line = line_at(text, error.valid_up_to());
            Err(UsageError::Usage(no_toml_text(alloc, file.as_str(), line)?))
        }
    }
}

/// The same, of a text that is UTF-8.
fn read_text(alloc: Global, folder: &str, file: String, text: &str) -> Result<Settings, UsageError>
    requires { string_bytes file ≡ file_in folder.now }
    ensures settings { IfOk result (λ settings. HasSettings folder.now text.now (Ok (settings_value settings))) }
    ensures wrong { IfErr result (IsUsageOr (IsWrongIn folder.now text.now)) }
{
    match toml::table_from_str(alloc, text) {
        Ok(table) => settings_of(alloc, folder, file, &table),
        Err(error) => match error.span() {
            Some(span) => {
                let line = line_at(text.as_bytes(), span.start);
                Err(UsageError::Usage(no_toml_text(alloc, file.as_str(), line)?))
            }
            None => Err(UsageError::Memory),
        },
    }
}

/// The settings of a table.
fn settings_of(
    alloc: Global,
    folder: &str,
    file: String,
    table: &Table,
) -> Result<Settings, UsageError>
    ensures settings { IfOk result (λ settings. settings_in folder.now (nothing_in (string_bytes file)) (table_view table.now) ≡ Ok (settings_value settings)) }
    ensures wrong { IfErr result (IsUsageOr (λ told. settings_in folder.now (nothing_in (string_bytes file)) (table_view table.now) ≡ Err told)) }
{
    let mut settings = nothing_in(alloc, file);
    for (name, value) in table.iter() {
        add_entry(alloc, folder, &mut settings, name.as_str(), value)?;
    }
    Ok(settings)
}

/// A settings file that gives nothing.
fn nothing_in(alloc: Global, file: String) -> Settings
    ensures { settings_value result ≡ nothing_in (string_bytes file) }
{
    Settings {
        file,
        baseline: None,
        edition: None,
        except: Vec::new(alloc),
        exclude: Vec::new(alloc),
        fail_on: Vec::new(alloc),
        level: Vec::new(alloc),
        only: Vec::new(alloc),
    }
}

/// Sets what an entry gives.
fn add_entry(
    alloc: Global,
    folder: &str,
    settings: &mut Settings,
    name: &str,
    value: &Value,
) -> Result<(), UsageError>
    ensures settings { OnOk result (with_entry folder.now (settings_value settings.old) name.now (view value.now) ≡ Ok (settings_value settings.new)) }
    ensures wrong { IfErr result (IsUsageOr (λ told. with_entry folder.now (settings_value settings.old) name.now (view value.now) ≡ Err told)) }
{
    let Some(key) = key_of(name) else {
        return Err(UsageError::Usage(unknown_key_text(alloc, settings.file.as_str(), name)?));
    };
    if set_value(alloc, folder, settings, key, value)? {
        Ok(())
    } else {
        Err(UsageError::Usage(settings_text(alloc, settings.file.as_str(), wants_of(key))?))
    }
}

/// The key of this name.
fn key_of(name: &str) -> Option<Key>
    ensures { result ≡ key_of name.now }
{
    if name == "baseline" {
        Some(Key::Baseline)
    } else if name == "edition" {
        Some(Key::Edition)
    } else if name == "except" {
        Some(Key::Except)
    } else if name == "exclude" {
        Some(Key::Exclude)
    } else if name == "fail-on" {
        Some(Key::FailOn)
    } else if name == "level" {
        Some(Key::Level)
    } else if name == "only" {
        Some(Key::Only)
    } else {
        None
    }
}

/// What is printed where the value of a key is none that it wants.
fn wants_of(key: Key) -> &'static str
    ensures { result.now ≡ wants_of key }
{
    match key {
        Key::Baseline => "baseline wants a file",
        Key::Edition => "edition wants 1, 2, 3 or 4",
        Key::Except => "except wants codes of rules or their letters, as [\"H02\", \"Z\"]",
        Key::Exclude => "exclude wants globs, as [\"old/**\"]",
        Key::FailOn => "fail-on wants levels, as [\"must\", \"should\"]",
        Key::Level => "level wants levels, as [\"must\", \"should\"]",
        Key::Only => "only wants codes of rules or their letters, as [\"H02\", \"Z\"]",
    }
}

/// Sets what a key gives, if its value is one that it wants; returns whether it is.
fn set_value(
    alloc: Global,
    folder: &str,
    settings: &mut Settings,
    key: Key,
    value: &Value,
) -> Result<bool, AllocError>
    ensures set { IfOk result (λ fits. with_value folder.now (settings_value settings.old) key (view value.now) ≡ (if fits then Some (settings_value settings.new) else None)) }
    ensures file { OnOk result (string_bytes settings.new.file ≡ string_bytes settings.old.file) }
{
    match key {
        Key::Baseline => Ok(put_some(&mut settings.baseline, file_below(alloc, folder, value)?)),
        Key::Edition => Ok(put_some(&mut settings.edition, edition_in(value))),
        Key::Except => Ok(put(&mut settings.except, names_in(alloc, value)?)),
        Key::Exclude => Ok(put(&mut settings.exclude, globs_below(alloc, folder, value)?)),
        Key::FailOn => Ok(put(&mut settings.fail_on, names_in(alloc, value)?)),
        Key::Level => Ok(put(&mut settings.level, names_in(alloc, value)?)),
        Key::Only => Ok(put(&mut settings.only, names_in(alloc, value)?)),
    }
}

/// Puts a value in a place, if there is one; returns whether there is.
fn put<T: Drop>(place: &mut T, value: Option<T>) -> bool
    ensures { value ≡ (if result then Some place.new else None) }
{
    match value {
        Some(value) => {
            *place = value;
            true
        }
        None => false,
    }
}

/// The same, in a place that may be empty.
fn put_some<T: Drop>(place: &mut Option<T>, value: Option<T>) -> bool
    ensures put { value ≡ (if result then place.new else None) }
    ensures some { result ≡ is_some value }
{
    match value {
        Some(value) => {
            *place = Some(value);
            true
        }
        None => false,
    }
}

/// What is printed where no key has this name.
fn unknown_key_text(alloc: Global, file: &str, name: &str) -> Result<String, AllocError>
    ensures { IfOk result (λ text. string_bytes text ≡ unknown_key_text file.now name.now) }
{
    let mut wrong = String::from_str(alloc, "unknown key ")?;
    wrong.push_str(name)?;
    settings_text(alloc, file, wrong.as_str())
}

/// What is printed of a file that is no TOML, as is seen in this line.
fn no_toml_text(alloc: Global, file: &str, line: usize) -> Result<String, AllocError>
    ensures { IfOk result (λ text. string_bytes text ≡ no_toml_text file.now line) }
{
    let line = line.to_string(alloc)?;
    let mut place = String::from_str(alloc, file)?;
    place.push_str(":")?;
    place.push_str(line.as_str())?;
    settings_text(alloc, place.as_str(), "not TOML")
}

/// The number of the line that a place is in.
fn line_at(text: &[u8], place: usize) -> usize
    requires { place ≤ length text.now }
    ensures { result ≡ line_at text.now place }
{
    1 + text[..place].iter().filter(|byte| **byte == b'\n').count()
}
