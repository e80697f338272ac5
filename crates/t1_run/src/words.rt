//! The words of a command line, by clap's rules.

ghost use Rattle.std.specs.Prelude.{◌≡◌, map, option_map, string_bytes, IfErr, IfOk};
ghost use Rattle.clap.specs.Words.{app_of, kind_of};
ghost use Rattle.clap.specs.declared.error.kind.ErrorKind.TheVariants.{OutOfMemory, DisplayHelp};
ghost use Rattle.t1_run.specs.Words.{AreNumber, AreRefused, HasText, IsEditionOrFirst, IsHelp, IsHelpOrMemory, IsParsedBy};
ghost use Rattle.t1_run.specs.Words.{IsNotUtf8OrMemory, IsPlainApp, IsTextOfNumber};

use crate::usage::UsageError;
use clap::error::ErrorKind as Kind;
use clap::{ArgMatches, Command};
use std::alloc::{AllocError, Global};
use std::convert::AsStr;
use std::env;
use std::io::ErrorKind;
use t1_char::Edition;

/// What is printed where a word isn't UTF-8: clap's sentence.
const NOT_UTF8: &str = "error: invalid UTF-8 was detected in one or more arguments\n";

/// Returns the words that the program was started with, its name first. Where one isn't UTF-8, `cure` is printed after
/// clap's sentence.
pub fn words_given(rt: &HostRuntime, cure: &str) -> Result<Vec<String>, UsageError>
    ensures { IfErr result (IsNotUtf8OrMemory cure.now) }
{
    match env::args(rt) {
        Ok(words) => Ok(words.collect::<Vec<String>>(rt.alloc())?),
        Err(error) if error.kind() == ErrorKind::OutOfMemory => Err(UsageError::Memory),
        Err(_) => {
            let mut text = String::from_str(rt.alloc(), NOT_UTF8)?;
            text.push_str(cure)?;
            Err(UsageError::Usage(text))
        }
    }
}

/// Reads words by the rules of a command, the program's name first.
pub fn parse<'a, S: AsStr>(
    alloc: Global,
    command: Command<'a>,
    words: &'a [S],
) -> Result<ArgMatches<'a>, UsageError>
    requires plain { IsPlainApp (app_of command) }
    ensures parsed { IfOk result (IsParsedBy (app_of command.entry) (map S.text words.entry.now)) }
    ensures refused { IfErr result (AreRefused (app_of command.entry) (map S.text words.entry.now)) }
{
    match command.try_get_matches_from(words) {
        Ok(matches) => Ok(matches),
        Err(error) => Err(usage_error(alloc, &error)),
    }
}

/// What is printed of clap's error. If its text can't be had, memory ran out.
pub fn usage_error(alloc: Global, error: &clap::Error) -> UsageError
    ensures memory { kind_of error.now ≡ OutOfMemory → result ≡ UsageError.Memory }
    ensures help { kind_of error.now ≡ DisplayHelp → IsHelpOrMemory result }
    ensures only_help { IsHelp result → kind_of error.now ≡ DisplayHelp }
    ensures text { HasText result }
{
    let kind = error.kind();
    if kind == Kind::OutOfMemory {
        return UsageError::Memory;
    }
    let Ok(text) = error.to_string(alloc) else {
        return UsageError::Memory;
    };
    if text.is_empty() {
        return UsageError::Memory;
    }
    if kind == Kind::DisplayHelp {
        UsageError::Help(text)
    } else {
        UsageError::Usage(text)
    }
}

/// The number that an argument was given, if it was.
pub fn number(text: Option<&str>) -> Option<u64>
    requires { IsTextOfNumber 0 18446744073709551615 (option_map (λ s. s.now) text) }
    ensures { AreNumber (option_map (λ s. s.now) text.entry) result }
{
    match text {
        // This can't fail: the rule of the argument takes no other text.
        Some(text) => Some(text.parse::<u64>().unwrap()),
        None => None,
    }
}

/// The edition whose number an argument was given; the first without it.
pub fn edition(text: Option<&str>) -> Edition
    requires { IsTextOfNumber 1 4 (option_map (λ s. s.now) text) }
    ensures { IsEditionOrFirst (option_map (λ s. s.now) text.entry) result }
{
    number(text)
        .and_then(Edition::numbered)
        .unwrap_or(Edition::One)
}

/// A copy of the text that an argument was given, if it was.
pub fn owned(alloc: Global, text: Option<&str>) -> Result<Option<String>, AllocError>
    ensures { IfOk result (λ copy. option_map string_bytes copy ≡ option_map (λ s. s.now) text.entry) }
{
    match text {
        Some(text) => Ok(Some(String::from_str(alloc, text)?)),
        None => Ok(None),
    }
}

/// The text of an argument, if it was given.
pub fn borrowed(text: &Option<String>) -> Option<&str>
    ensures { option_map (λ s. s.now) result ≡ option_map string_bytes text.now }
{
    match text {
        Some(text) => Some(text.as_str()),
        None => None,
    }
}
