//! The options that words and settings mean.

ghost use Rattle.std.specs.Prelude.{◌≡◌, ◌&&◌, None, Some, IfErr, IfOk, is_some, map, option_map, string_bytes};
ghost use Rattle.t1_options.specs.Choices.{codes_of, excepted};
ghost use Rattle.t1_options.specs.Complaints.{choice_complaint, complaint_of, complaint_of_words, settings_usage, usage_text};
ghost use Rattle.t1_options.specs.Given.{given_value};
ghost use Rattle.t1_options.specs.Merged.{first_path, is_namable, merged, merged_with};
ghost use Rattle.t1_options.specs.Options.{AreChosen, AreFailing, AreMeant, HasValues, file_of, is_anew, reasons_of, waivers_of};
ghost use Rattle.t1_options.specs.Private.Named.{AreNamed};
ghost use Rattle.t1_options.specs.Settings.Finding.{system_by};
ghost use Rattle.t1_options.specs.Settings.Reading.{settings_value};
ghost use Rattle.t1_options.specs.Words.{AreAsked, AreFound, AreUnfound, AreWrong, IsUsageOr, usage_of_both, usage_with};

use crate::asked::{Baseline, Options, Reasons, Waivers};
use crate::checks::{Named, choice_complaint, complaint_of, complaint_of_words, named_in};
use crate::choices::{excepted, failing_of};
use crate::complaint::{settings_text, text_of, usage_text};
use crate::given::Given;
use crate::merging::{file_in, values_or};
use crate::settings::{Settings, settings_for};
use crate::texts::copies;
use crate::values::{docs, edition, form, has_line_end, is_marked, number, shard};
use std::alloc::{AllocError, Global};
use t1_char::Edition;
use t1_many::{Choice, told_rules};
use t1_names::FileSystem;
use t1_rules::Mask;
use t1_run::{UsageError, owned};

/// The options that words mean with the settings of their first path, or what is wrong with them.
pub(crate) fn options_asked<F: FileSystem>(
    alloc: Global,
    given: &Given<'_>,
    files: &mut F,
) -> Result<Options, UsageError>
    ensures asked { IfOk result (AreAsked (system_by F.asks files.old files.new) (given_value given.now)) }
    ensures wrong { IfErr result (IsUsageOr (AreWrong (system_by F.asks files.old files.new) (given_value given.now))) }
{
    judge_words(alloc, given)?;
    let settings = settings_of(alloc, given, files)?;
    options_with(alloc, given, &settings)
}

/// Judges words by themselves.
fn judge_words(alloc: Global, given: &Given<'_>) -> Result<(), UsageError>
    ensures sound { IfOk result (λ _. complaint_of_words (given_value given.now) ≡ None) }
    ensures wrong { IfErr result (IsUsageOr (λ told. option_map usage_text (complaint_of_words (given_value given.now)) ≡ Some told)) }
{
    let named = named_in(alloc, given)?;
    match complaint_of_words(given, &named) {
        Some(complaint) => Err(UsageError::Usage(usage_text(alloc, complaint)?)),
        None => Ok(()),
    }
}

/// The settings that count: those of the first path, or none with `--no-settings`.
fn settings_of<F: FileSystem>(
    alloc: Global,
    given: &Given<'_>,
    files: &mut F,
) -> Result<Option<Settings>, UsageError>
    ensures found { IfOk result (λ settings. AreFound (system_by F.asks files.old files.new) (given_value given.now) (option_map settings_value settings)) }
    ensures unfound { IfErr result (IsUsageOr (AreUnfound (system_by F.asks files.old files.new) (given_value given.now))) }
{
    if given.no_settings {
        return Ok(None);
    }
    settings_for(alloc, first_path(given.paths), files)
}

/// The first path that can be in a line.
fn first_path<'a>(paths: &[&'a str]) -> Option<&'a str>
    ensures { option_map (λ s. s.now) result ≡ first_path (map (λ s. s.now) paths.now) }
{
    for path in paths {
        if is_namable(path) {
            return Some(path);
        }
    }
    None
}

/// Whether a path can be in a line.
fn is_namable(path: &str) -> bool
    ensures { result ≡ is_namable path.now }
{
    !is_marked(path) & !has_line_end(path)
}

/// The options that words mean with these settings, or what is wrong with them.
fn options_with(
    alloc: Global,
    given: &Given<'_>,
    settings: &Option<Settings>,
) -> Result<Options, UsageError>
    ensures meant { IfOk result (AreMeant (merged (given_value given.now) (option_map settings_value settings.now))) }
    ensures wrong { IfErr result (IsUsageOr (λ told. usage_with (given_value given.now) (option_map settings_value settings.now) ≡ Some told)) }
{
    match settings {
        Some(settings) => options_by(alloc, given, settings),
        None => options_meant(alloc, given),
    }
}

/// The same, of settings that are there.
fn options_by(alloc: Global, given: &Given<'_>, settings: &Settings) -> Result<Options, UsageError>
    ensures meant { IfOk result (AreMeant (merged_with (given_value given.now) (settings_value settings.now))) }
    ensures wrong { IfErr result (IsUsageOr (λ told. usage_with (given_value given.now) (Some (settings_value settings.now)) ≡ Some told)) }
{
    let only = values_or(alloc, given.only, settings.only.as_slice())?;
    let except = values_or(alloc, given.except, settings.except.as_slice())?;
    let level = values_or(alloc, given.level, settings.level.as_slice())?;
    let fail_on = values_or(alloc, given.fail_on, settings.fail_on.as_slice())?;
    let exclude = values_or(alloc, given.exclude, settings.exclude.as_slice())?;
    let merged = Given {
        edition: given.edition.or(settings.edition),
        only: only.as_slice(),
        except: except.as_slice(),
        level: level.as_slice(),
        fail_on: fail_on.as_slice(),
        baseline: given.baseline.or(file_in(given, settings)),
        exclude: exclude.as_slice(),
        ..*given
    };
    options_of_both(alloc, settings, &merged)
}

/// The options that words and settings together mean, or what is wrong with the settings or with both.
fn options_of_both(
    alloc: Global,
    settings: &Settings,
    both: &Given<'_>,
) -> Result<Options, UsageError>
    ensures meant { IfOk result (AreMeant (given_value both.now)) }
    ensures wrong { IfErr result (IsUsageOr (λ told. usage_of_both (settings_value settings.now) (given_value both.now) ≡ Some told)) }
{
    judge_settings(alloc, settings, both)?;
    options_meant(alloc, both)
}

/// Judges the codes and levels that settings name, after those of the words. `merged` is what both give.
fn judge_settings(alloc: Global, settings: &Settings, merged: &Given<'_>) -> Result<(), UsageError>
    ensures sound { IfOk result (λ _. choice_complaint (given_value merged.now) ≡ None) }
    ensures wrong { IfErr result (IsUsageOr (λ told. option_map (settings_usage (string_bytes settings.now.file)) (choice_complaint (given_value merged.now)) ≡ Some told)) }
{
    let named = named_in(alloc, merged)?;
    match choice_complaint(merged, &named) {
        Some(complaint) => {
            let text = settings_text(alloc, settings.file.as_str(), text_of(complaint))?;
            Err(UsageError::Usage(text))
        }
        None => Ok(()),
    }
}

/// The options that the given values mean, or what is wrong with them.
fn options_meant(alloc: Global, given: &Given<'_>) -> Result<Options, UsageError>
    ensures meant { IfOk result (AreMeant (given_value given.now)) }
    ensures wrong { IfErr result (IsUsageOr (λ told. option_map usage_text (complaint_of (given_value given.now)) ≡ Some told)) }
{
    let named = named_in(alloc, given)?;
    match complaint_of(given, &named) {
        Some(complaint) => Err(UsageError::Usage(usage_text(alloc, complaint)?)),
        None => Ok(options_named(alloc, given, named)?),
    }
}

/// The options that the given values mean, with what they name.
fn options_named(alloc: Global, given: &Given<'_>, named: Named) -> Result<Options, AllocError>
    requires { AreNamed (given_value given.now) named }
    ensures values { IfOk result (HasValues (given_value given.now)) }
    ensures rules { IfOk result (λ options. AreChosen (given_value given.now) options.rules) }
    ensures failing { IfOk result (λ options. AreFailing (given_value given.now) options.failing) }
{
    let except = excepted(alloc, named.except.as_slice(), named.level.as_slice())?;
    let rules = told_rules(Choice {
        only: named.only.as_slice(),
        except: except.as_slice(),
    });
    let failing = failing_of(alloc, named.fail_on.as_slice())?;
    options_of(alloc, given, rules, failing, named.only, except)
}

/// The options, with these rules, those whose lines make the status 1, and the codes that choose the former.
fn options_of(
    alloc: Global,
    given: &Given<'_>,
    rules: Mask,
    failing: Mask,
    only: Vec<String>,
    except: Vec<String>,
) -> Result<Options, AllocError>
    requires only { map string_bytes only.items ≡ codes_of (given_value given.now).only }
    requires except { map string_bytes except.items ≡ excepted (given_value given.now) }
    ensures values { IfOk result (HasValues (given_value given.now)) }
    ensures rules { IfOk result (λ options. options.rules ≡ rules) }
    ensures failing { IfOk result (λ options. options.failing ≡ failing) }
{
    let known_faults = known_faults(alloc, given)?;
    let files_from = copies(alloc, given.files_from)?;
    let exclude = copies(alloc, given.exclude)?;
    let docs = owned(alloc, docs(given.docs))?;
    let paths = copies(alloc, given.paths)?;
    Ok(Options {
        quiet: given.quiet,
        edition: edition(given.edition).unwrap_or(Edition::One),
        names_edition: given.edition.is_some(),
        rules,
        only,
        except,
        failing,
        waivers: waivers_of(given),
        known_faults,
        files_from,
        exclude,
        shard: shard(given.shard),
        form: form(given.format),
        docs,
        clean: given.clean,
        columns: number(given.columns),
        colour: given.colour,
        long: given.long,
        reasons: reasons_of(given),
        paths,
    })
}

/// What happens to files of waivers.
fn waivers_of(given: &Given<'_>) -> Waivers
    ensures { result ≡ waivers_of (given_value given.now) }
{
    if given.write_waivers {
        if given.force {
            Waivers::Overwritten
        } else {
            Waivers::Written
        }
    } else if given.no_waivers {
        Waivers::LeftAside
    } else {
        Waivers::Read
    }
}

/// Which reasons are printed.
fn reasons_of(given: &Given<'_>) -> Reasons
    ensures { result ≡ reasons_of (given_value given.now) }
{
    if given.no_reasons {
        Reasons::LeftOut
    } else if given.reasons {
        Reasons::Each
    } else {
        Reasons::First
    }
}

/// The file of known faults.
fn known_faults(alloc: Global, given: &Given<'_>) -> Result<Baseline, AllocError>
    ensures file { IfOk result (λ faults. file_of faults ≡ option_map (λ s. s.now) given.now.baseline) }
    ensures anew { IfOk result (λ faults. is_anew faults ≡ (given.now.update_baseline && is_some given.now.baseline)) }
{
    let Some(file) = given.baseline else {
        return Ok(Baseline::Unnamed);
    };
    let file = String::from_str(alloc, file)?;
    if given.update_baseline {
        Ok(Baseline::Updated(file))
    } else {
        Ok(Baseline::Compared(file))
    }
}
