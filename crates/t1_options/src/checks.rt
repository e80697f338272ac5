//! What is wrong with the given values.

ghost use Rattle.std.specs.Prelude.{◌≡◌, IfOk, is_some, map, nat_lt, count_by, option_map, string_bytes};
ghost use Rattle.std.specs.List.{list_any};
ghost use Rattle.clap.specs.Walk.{is_empty};
ghost use Rattle.t1_names.specs.Words.{is_input};
ghost use Rattle.t1_options.specs.Choices.{codes_of, words_of};
ghost use Rattle.t1_options.specs.Complaints.{are_no_levels, are_wrong, checks_of, choice_complaint, complaint_of, complaint_of_words, first_not_open, first_so, has_input, is_left_open};
ghost use Rattle.t1_options.specs.Given.{given_value};
ghost use Rattle.t1_options.specs.Private.Named.{AreNamed};
ghost use Rattle.t1_options.specs.Values.{is_marked};

use crate::choices::{are_known, are_levels, codes_of, words_of};
use crate::complaint::Complaint;
use crate::given::Given;
use crate::values::{baseline, docs, edition, form, is_marked, number, shard};
use std::alloc::{AllocError, Global};
use t1_names::is_input;

/// The words that options on rules name.
#[derive(Drop)]
pub(crate) struct Named {
    /// The codes of `--only`.
    pub(crate) only: Vec<String>,
    /// The codes of `--except`.
    pub(crate) except: Vec<String>,
    /// The levels of `--level`.
    pub(crate) level: Vec<String>,
    /// The levels of `--fail-on`.
    pub(crate) fail_on: Vec<String>,
}

/// The words that options on rules name.
pub(crate) fn named_in(alloc: Global, given: &Given<'_>) -> Result<Named, AllocError>
    ensures { IfOk result (AreNamed (given_value given.now)) }
{
    let only = codes_of(alloc, given.only)?;
    let except = codes_of(alloc, given.except)?;
    let level = words_of(alloc, given.level)?;
    let fail_on = words_of(alloc, given.fail_on)?;
    Ok(Named {
        only,
        except,
        level,
        fail_on,
    })
}

/// The first thing that is wrong with the given values, if any. `named` is what the options on rules name.
pub(crate) fn complaint_of(given: &Given<'_>, named: &Named) -> Option<Complaint>
    requires { AreNamed (given_value given.now) named.now }
    ensures { result ≡ complaint_of (given_value given.now) }
{
    first_so(&checks_of(given, named))
}

/// The first thing that is wrong with words by themselves, if any.
pub(crate) fn complaint_of_words(given: &Given<'_>, named: &Named) -> Option<Complaint>
    requires { AreNamed (given_value given.now) named.now }
    ensures { result ≡ complaint_of_words (given_value given.now) }
{
    first_not_open(&checks_of(given, named))
}

/// The first thing that is wrong with the codes and levels that are named, if any.
pub(crate) fn choice_complaint(given: &Given<'_>, named: &Named) -> Option<Complaint>
    requires { AreNamed (given_value given.now) named.now }
    ensures { result ≡ choice_complaint (given_value given.now) }
{
    let checks = [
        (
            are_wrong(given.only, named.only.as_slice()),
            Complaint::Only,
        ),
        (
            are_wrong(given.except, named.except.as_slice()),
            Complaint::Except,
        ),
        (
            are_no_levels(given.level, named.level.as_slice()),
            Complaint::Level,
        ),
        (
            are_no_levels(given.fail_on, named.fail_on.as_slice()),
            Complaint::FailOn,
        ),
    ];
    first_so(&checks)
}

/// What can be wrong, and whether it is.
fn checks_of(given: &Given<'_>, named: &Named) -> [(bool, Complaint); 20]
    requires { AreNamed (given_value given.now) named.now }
    ensures { result ≡ checks_of (given_value given.now) }
{
    let has_baseline = is_given(given.baseline);
    let has_shard = is_given(given.shard);
    let has_format = is_given(given.format);
    let has_docs = is_given(given.docs);
    [
        (is_given(given.jobs), Complaint::Jobs),
        (
            is_given(given.edition) & edition(given.edition).is_none(),
            Complaint::Edition,
        ),
        (
            is_given(given.columns) & number(given.columns).is_none(),
            Complaint::Columns,
        ),
        (
            has_baseline & baseline(given.baseline).is_none(),
            Complaint::Baseline,
        ),
        (has_format & form(given.format).is_none(), Complaint::Format),
        (has_docs & docs(given.docs).is_none(), Complaint::Docs),
        (
            given.update_baseline & !has_baseline,
            Complaint::UpdateOfNone,
        ),
        (given.update_baseline & has_shard, Complaint::UpdateOfShard),
        (
            given.write_waivers & (has_baseline | has_shard),
            Complaint::WaiversOfPart,
        ),
        (given.force & !given.write_waivers, Complaint::ForceOfNone),
        (has_docs & !has_format, Complaint::DocsOfLines),
        (
            are_none(given.paths) & are_none(given.files_from),
            Complaint::NoFont,
        ),
        (is_input_twice(given.paths), Complaint::InputTwice),
        (
            has_input(given.paths) & has_input(given.files_from),
            Complaint::InputAsBoth,
        ),
        (has_shard & shard(given.shard).is_none(), Complaint::Shard),
        (
            are_wrong(given.only, named.only.as_slice()),
            Complaint::Only,
        ),
        (
            are_wrong(given.except, named.except.as_slice()),
            Complaint::Except,
        ),
        (
            are_no_levels(given.level, named.level.as_slice()),
            Complaint::Level,
        ),
        (
            are_no_levels(given.fail_on, named.fail_on.as_slice()),
            Complaint::FailOn,
        ),
        (is_one_marked(given.exclude), Complaint::Exclude),
    ]
}

/// Whether there are values, and they name no code or an unknown one. These are the codes that they name.
fn are_wrong(values: &[&str], codes: &[String]) -> bool
    requires { map string_bytes codes.now ≡ codes_of (map (λ s. s.now) values.now) }
    ensures { result ≡ are_wrong (map (λ s. s.now) values.now) }
{
    !are_none(values) & !are_known(codes)
}

/// Whether there are values, and they name no level or an unknown one. These are the levels that they name.
fn are_no_levels(values: &[&str], levels: &[String]) -> bool
    requires { map string_bytes levels.now ≡ words_of (map (λ s. s.now) values.now) }
    ensures { result ≡ are_no_levels (map (λ s. s.now) values.now) }
{
    !are_none(values) & !are_levels(levels)
}

/// Whether standard input is among these words.
fn has_input(words: &[&str]) -> bool
    ensures { result ≡ has_input (map (λ s. s.now) words.now) }
{
    words.iter().any(|word| is_input(word))
}

/// Whether standard input is among these words more than once.
fn is_input_twice(words: &[&str]) -> bool
    ensures { result ≡ nat_lt 1 (count_by is_input (map (λ s. s.now) words.now)) }
{
    1 < words.iter().filter(|word| is_input(word)).count()
}

/// Whether an option has a value.
fn is_given(value: Option<&str>) -> bool
    ensures { result ≡ is_some (option_map (λ s. s.now) value.entry) }
{
    match value {
        Some(_) => true,
        None => false,
    }
}

/// Whether an option has no values.
pub(crate) fn are_none(values: &[&str]) -> bool
    ensures { result ≡ is_empty (map (λ s. s.now) values.now) }
{
    match values {
        [] => true,
        [_, ..] => false,
    }
}

/// Whether one of these values isn't UTF-8.
fn is_one_marked(values: &[&str]) -> bool
    ensures { result ≡ list_any is_marked (map (λ s. s.now) values.now) }
{
    values.iter().any(|value| is_marked(value))
}

/// The first complaint whose condition holds.
fn first_so(checks: &[(bool, Complaint)]) -> Option<Complaint>
    ensures { result ≡ first_so checks.now }
{
    match checks.iter().find(|check| check.0) {
        Some(check) => Some(check.1),
        None => None,
    }
}

/// The first complaint whose condition holds and that isn't left open.
fn first_not_open(checks: &[(bool, Complaint)]) -> Option<Complaint>
    ensures { result ≡ first_not_open checks.now }
{
    match checks.iter().find(|check| check.0 & !is_left_open(check.1)) {
        Some(check) => Some(check.1),
        None => None,
    }
}

/// Whether settings may mend what a complaint is about: they may name a file of known faults.
fn is_left_open(complaint: Complaint) -> bool
    ensures { result ≡ is_left_open complaint }
{
    matches!(complaint, Complaint::UpdateOfNone)
}
