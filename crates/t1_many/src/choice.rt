//! Which rules are reported of many fonts.

ghost use Rattle.std.specs.Prelude.{◌≡◌, map, string_bytes};
ghost use Rattle.std.specs.List.{list_all, list_any};
ghost use Rattle.t1_many.specs.Choice.{choice_of, is_only, is_told, letters_of, picks};
ghost use Rattle.t1_rules.specs.Book.{code_of, number_of};
ghost use Rattle.t1_rules.specs.Mask.{has};
ghost use Rattle.t1_rules.specs.declared.rule.Rule.{Rule as RuleValue};
ghost use Rattle.t1_scan.specs.Bytes.{is_decimal_digit};

use t1_rules::{Mask, Rule, rule_code};

/// The rules that are reported: those that a word of `only` picks, all without such a word, but for those that a word
/// of `except` picks. A word is the code of a rule, or the letters of codes.
#[derive(Clone, Copy, Debug)]
pub struct Choice<'a> {
    /// The words of `--only`.
    pub only: &'a [String],
    /// The words of `--except`.
    pub except: &'a [String],
}

/// The rules that are reported.
pub fn told_rules(choice: Choice<'_>) -> Mask
    ensures { (rule : RuleValue) → has result (number_of rule) ≡ is_told (choice_of choice.entry) (code_of rule) }
{
    let mut rules = Mask::empty();
    for number in 1..u8::MAX {
        let Some(rule) = Rule::from_number(number) else {
            break;
        };
        rules = rules.with(rule, is_told(choice, rule_code(rule).as_bytes()));
    }
    rules
}

/// Whether the rule of a code is reported: a word of `only` picks it, or there is none, and no word of `except` does.
pub fn is_told(choice: Choice<'_>, code: &[u8]) -> bool
    ensures { result ≡ is_told (choice_of choice.entry) code.now }
{
    is_only(choice.only, code) & !is_picked(choice.except, code)
}

/// Whether the rule of a code is one of those that these words pick, or there is no word.
fn is_only(words: &[String], code: &[u8]) -> bool
    ensures { result ≡ is_only (map string_bytes words.now) code.now }
{
    if words.is_empty() {
        return true;
    }
    is_picked(words, code)
}

/// Whether one of these words picks the rule of a code.
fn is_picked(words: &[String], code: &[u8]) -> bool
    ensures { result ≡ list_any (λ word. picks code.now (string_bytes word)) words.now }
{
    words.iter().any(|word| picks(code, word.as_bytes()))
}

/// Whether a word picks the rule of a code.
pub fn picks(code: &[u8], word: &[u8]) -> bool
    ensures { result ≡ picks code.now word.now }
{
    word == code || word == letters_of(code)
}

/// A code without the digits at its end.
fn letters_of(code: &[u8]) -> &[u8]
    ensures { result.now ≡ letters_of code.now }
{
    for at in 0..code.len() {
        let (front, rest) = code.split_at(at);
        if are_digits(rest) {
            return front;
        }
    }
    code
}

/// Whether all bytes are digits.
pub(crate) fn are_digits(bytes: &[u8]) -> bool
    ensures { result ≡ list_all is_decimal_digit bytes.now }
{
    bytes.iter().all(|byte| byte.is_ascii_digit())
}
