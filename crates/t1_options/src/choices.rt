//! Which rules the words of `--only`, `--except`, `--level` and `--fail-on` choose.

ghost use Rattle.std.specs.Prelude.{◌≡◌, ◌∷◌, ◌++◌, IfOk, is_some, map, string_bytes};
ghost use Rattle.std.specs.List.{flat_map};
ghost use Rattle.t1_options.specs.Choices.{are_known, are_levels, codes_in, codes_of, codes_outside, in_capitals, is_known, is_of_levels, left_out, words_of};
ghost use Rattle.t1_rules.specs.Book.{number_of};
ghost use Rattle.t1_rules.specs.Levels.{level_named};
ghost use Rattle.t1_rules.specs.Mask.{has};
ghost use Rattle.t1_rules.specs.declared.rule.Rule.{Rule as RuleValue};

use crate::texts::{copies, texts_of};
use std::alloc::{AllocError, Global};
use t1_many::{Choice, picks, told_rules};
use t1_rules::{Level, Mask, Rule, all_rules, rule_code, rule_level};

/// The codes that the values of an option name.
pub(crate) fn codes_of(alloc: Global, values: &[&str]) -> Result<Vec<String>, AllocError>
    ensures { IfOk result (λ codes. map string_bytes codes.items ≡ codes_of (map (λ s. s.now) values.now)) }
{
    let text = in_capitals(alloc, values)?;
    let codes = codes_in(alloc, text.as_str())?;
    copies(alloc, codes.as_slice())
}

/// The levels that the values of an option name.
pub(crate) fn words_of(alloc: Global, values: &[&str]) -> Result<Vec<String>, AllocError>
    ensures { IfOk result (λ words. map string_bytes words.items ≡ words_of (map (λ s. s.now) values.now)) }
{
    let mut text = after_commas(alloc, values)?;
    text.make_ascii_lowercase();
    let words = codes_in(alloc, text.as_str())?;
    copies(alloc, words.as_slice())
}

/// The values of an option in capitals, each after a comma.
fn in_capitals(alloc: Global, values: &[&str]) -> Result<String, AllocError>
    ensures { IfOk result (λ text. string_bytes text ≡ in_capitals (map (λ s. s.now) values.now)) }
{
    let mut text = after_commas(alloc, values)?;
    text.make_ascii_uppercase();
    Ok(text)
}

/// The values of an option, each after a comma.
fn after_commas(alloc: Global, values: &[&str]) -> Result<String, AllocError>
    ensures { IfOk result (λ text. string_bytes text ≡ flat_map (λ value. 44 ∷ value) (map (λ s. s.now) values.now)) }
{
    let mut text = String::new(alloc);
    for value in values {
        text.push(',')?;
        text.push_str(value)?;
    }
    Ok(text)
}

/// The codes between the commas of a text.
fn codes_in(alloc: Global, text: &str) -> Result<Vec<&str>, AllocError>
    ensures { IfOk result (λ codes. map (λ s. s.now) codes.items ≡ codes_in text.now) }
{
    text.split(',')
        .filter(|code| !code.is_empty())
        .collect(alloc)
}

/// Whether there is a code, and each is known.
pub(crate) fn are_known(codes: &[String]) -> bool
    ensures { result ≡ are_known (map string_bytes codes.now) }
{
    !codes.is_empty() & codes.iter().all(|code| is_known(code))
}

/// Whether some rule has this code, or these letters.
fn is_known(code: &str) -> bool
    ensures { result ≡ is_known code.now }
{
    all_rules()
        .iter()
        .any(|rule| picks(rule_code(*rule).as_bytes(), code.as_bytes()))
}

/// Whether there is a word, and each names a level.
pub(crate) fn are_levels(words: &[String]) -> bool
    ensures { result ≡ are_levels (map string_bytes words.now) }
{
    !words.is_empty() & words.iter().all(|word| is_level(word))
}

/// Whether a word names a level.
fn is_level(word: &str) -> bool
    ensures { result ≡ is_some (level_named word.now) }
{
    Level::from_text(word.as_bytes()).is_some()
}

/// The codes that are omitted: those that `--except` names, and those of the rules whose levels `--level` doesn't name.
pub(crate) fn excepted(
    alloc: Global,
    except: &[String],
    levels: &[String],
) -> Result<Vec<String>, AllocError>
    ensures { IfOk result (λ codes. map string_bytes codes.items ≡ map string_bytes except.now ++ left_out (map string_bytes levels.now)) }
{
    let mut codes = texts_of(alloc, except)?;
    codes.extend_from_slice(left_out(alloc, levels)?.as_slice())?;
    copies(alloc, codes.as_slice())
}

/// The codes of the rules whose levels are omitted.
fn left_out(alloc: Global, levels: &[String]) -> Result<Vec<&'static str>, AllocError>
    ensures { IfOk result (λ codes. map (λ s. s.now) codes.items ≡ left_out (map string_bytes levels.now)) }
{
    codes_outside(alloc, all_rules(), levels)
}

/// The codes of those of these rules whose levels are omitted.
fn codes_outside(
    alloc: Global,
    rules: &[Rule],
    levels: &[String],
) -> Result<Vec<&'static str>, AllocError>
    ensures { IfOk result (λ codes. map (λ s. s.now) codes.items ≡ codes_outside (map string_bytes levels.now) rules.now) }
{
    rules
        .iter()
        .filter(|rule| !is_of_levels(levels, **rule))
        .map(|rule| rule_code(*rule))
        .collect(alloc)
}

/// Whether a rule has one of these levels, or no level is named.
fn is_of_levels(levels: &[String], rule: Rule) -> bool
    ensures { result ≡ is_of_levels (map string_bytes levels.now) rule }
{
    levels.is_empty()
        | levels
            .iter()
            .any(|level| level.as_str() == rule_level(rule).text())
}

/// The rules of these levels, or all where no level is named.
pub(crate) fn failing_of(alloc: Global, levels: &[String]) -> Result<Mask, AllocError>
    ensures { IfOk result (λ failing. (rule : RuleValue) → has failing (number_of rule) ≡ is_of_levels (map string_bytes levels.now) rule) }
{
    let others = copies(alloc, left_out(alloc, levels)?.as_slice())?;
    Ok(told_rules(Choice {
        only: &[],
        except: others.as_slice(),
    }))
}
