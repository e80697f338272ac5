//! What the texts of reasons that entries of a font have are made of, beside its zones and stem widths.

ghost use Rattle.std.specs.Prelude.{◌≡◌, Some, []};
ghost use Rattle.t1_font.specs.Views.{bytes_of};
ghost use Rattle.std.specs.Option.{unwrap_or};
ghost use Rattle.t1_reason_texts.specs.FontTexts.{absent_needed, count_needed, counts_numbers, encoded_name, entry_name, entry_needed, entry_text, form_words, found_text, has_two, lists_numbers, says_last, subr_entry_text};

use crate::decimals::value;
use crate::words::Counted;
use std::fmt;
use t1_font::{Encoding, Font};
use t1_reasons::Found;
use t1_rules::Rule;

/// What an entry is, and what its rule needs.
#[derive(Clone, Copy)]
pub(crate) struct EntryText(pub(crate) Rule, pub(crate) Found);

/// What an entry is, whatever its name.
#[derive(Clone, Copy)]
pub(crate) struct FoundText(pub(crate) Found);

/// A Subr that is given twice, or past the size of the Subrs.
#[derive(Clone, Copy)]
pub(crate) struct SubrEntryText {
    pub(crate) number: u32,
    pub(crate) twice: bool,
    pub(crate) is_past: bool,
    pub(crate) size: u32,
}

/// The entry that a rule speaks of.
fn entry_name(rule: Rule) -> &'static str
    ensures { result.now ≡ entry_name rule }
{
    match rule {
        Rule::F03 => "FontType",
        Rule::F04 => "PaintType",
        Rule::F05 => "UniqueID",
        Rule::F07 => "password",
        Rule::F15 => "FontMatrix",
        Rule::F16 => "FontBBox",
        Rule::F18 => "XUID",
        Rule::F20 => "LanguageGroup",
        Rule::Z12 => "BlueValues",
        Rule::Z17 => "BlueScale",
        Rule::Z18 => "BlueShift",
        Rule::Z19 => "BlueFuzz",
        _ => "it",
    }
}

/// What would do.
fn entry_needed(rule: Rule) -> &'static str
    ensures { result.now ≡ entry_needed rule }
{
    match rule {
        Rule::F03 => "; 1 is needed",
        Rule::F04 => "; 0 or 2 is needed",
        Rule::F05 => "; 0 to 16777215 is needed",
        Rule::F07 => "; 5839 is needed",
        Rule::Z08 => "; 1 is needed",
        Rule::F15 => "; 6 numbers are needed",
        Rule::F16 => "; 4 numbers are needed",
        Rule::F18 => "; a list of numbers is needed",
        Rule::F20 => "; 0 or 1 is needed",
        Rule::Z17 => "; more than 0 and at most 0.5 is needed",
        Rule::Z18 => "; a whole number from 0 on is needed",
        Rule::Z19 => "; a whole number from 0 to 10 is needed",
        _ => "",
    }
}

/// What would do where there is no entry.
fn absent_needed(rule: Rule) -> &'static str
    ensures { result.now ≡ absent_needed rule }
{
    match rule {
        Rule::Z12 => "; [] would do",
        _ => "",
    }
}

/// How many numbers a list should have.
fn count_needed(rule: Rule) -> &'static str
    ensures { result.now ≡ count_needed rule }
{
    match rule {
        Rule::F15 => "; 6 are needed",
        Rule::F16 => "; 4 are needed",
        _ => "",
    }
}

/// Whether a rule speaks of how many numbers there are.
fn counts_numbers(rule: Rule) -> bool
    ensures { result ≡ counts_numbers rule }
{
    matches!(rule, Rule::Z08)
}

/// Whether a rule speaks of a list of numbers.
fn lists_numbers(rule: Rule) -> bool
    ensures { result ≡ lists_numbers rule }
{
    matches!(rule, Rule::F15 | Rule::F16 | Rule::F18 | Rule::Z12)
}

/// Whether a rule speaks of the last of several entries.
pub(crate) fn says_last(rule: Rule) -> bool
    ensures { result ≡ says_last rule }
{
    matches!(rule, Rule::F23)
}

/// What form the Encoding has.
pub(crate) fn form_words(encoding: Encoding) -> &'static str
    ensures { result.now ≡ form_words encoding }
{
    match encoding {
        Encoding::Absent => "it is not there",
        Encoding::Standard => "it is StandardEncoding",
        Encoding::Custom => "it is an array of 256 names",
        Encoding::Other => "it is neither StandardEncoding nor an array of 256 names",
    }
}

/// Whether an entry has two numbers.
pub(crate) fn has_two(found: Found) -> bool
    ensures { result ≡ has_two found }
{
    matches!(found, Found::Several { count: 2 })
}

/// The name that a custom Encoding has for a code; empty where it has none.
pub fn encoded_name<'a>(font: &Font<'a>, code: u32) -> &'a [u8]
    ensures { result.now ≡ encoded_name font.now code }
{
    or_empty(font.encoded(code))
}

fn or_empty<'a>(name: Option<&'a [u8]>) -> &'a [u8]
    ensures { result.now ≡ unwrap_or (bytes_of name.entry) [] }
{
    match name {
        Some(name) => name,
        None => &[],
    }
}

impl fmt::Display for EntryText {
    ghost output = { λ t. Some (entry_text t.0 t.1) };

    fn fmt<W: fmt::Write>(&self, f: &mut fmt::Formatter<W>) -> fmt::Result {
        let rule = self.0;
        let name = entry_name(rule);
        let needed = entry_needed(rule);
        match self.1 {
            Found::Absent => {
                let needed = absent_needed(rule);
                write!(f, "{name} is not there{needed}")
            }
            Found::One { number } => {
                let number = value(number);
                write!(f, "{name} is {number}{needed}")
            }
            Found::Several { count } => {
                let numbers = Counted(count, "number");
                if counts_numbers(rule) {
                    write!(f, "{numbers}{needed}")
                } else if lists_numbers(rule) {
                    let needed = count_needed(rule);
                    write!(f, "{name} has {numbers}{needed}")
                } else {
                    write!(f, "{name} is no number")
                }
            }
            Found::Other => {
                if lists_numbers(rule) {
                    write!(f, "{name} is no list of numbers")
                } else {
                    write!(f, "{name} is no number")
                }
            }
        }
    }
}

impl fmt::Display for FoundText {
    ghost output = { λ t. Some (found_text t.0) };

    fn fmt<W: fmt::Write>(&self, f: &mut fmt::Formatter<W>) -> fmt::Result {
        match self.0 {
            Found::Absent => write!(f, "it is not there"),
            Found::One { number } => {
                let number = value(number);
                write!(f, "it is the number {number}")
            }
            Found::Several { count } => {
                let numbers = Counted(count, "number");
                write!(f, "it is a list of {numbers}")
            }
            Found::Other => write!(f, "it is neither a number nor a list of numbers"),
        }
    }
}

impl fmt::Display for SubrEntryText {
    ghost output = { λ t. Some (subr_entry_text t.number t.twice t.is_past t.size) };

    #[tactic(auto, unfolding(crate::specs::FontTexts::subr_entry_text))]
    fn fmt<W: fmt::Write>(&self, f: &mut fmt::Formatter<W>) -> fmt::Result {
        let (number, size) = (self.number, self.size);
        if self.twice {
            if self.is_past {
                write!(
                    f,
                    "Subr {number} is given twice, and is past the size {size}"
                )
            } else {
                write!(f, "Subr {number} is given twice")
            }
        } else if self.is_past {
            write!(f, "Subr {number} is past the size {size}")
        } else {
            write!(f, "Subr {number} is there")
        }
    }
}
