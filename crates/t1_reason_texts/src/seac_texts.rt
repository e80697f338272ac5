//! What the texts of reasons of seac are made of: its codes, with the names that StandardEncoding has for them.

ghost use Rattle.std.specs.Prelude.{◌≡◌, Some};
ghost use Rattle.t1_reason_texts.specs.SeacTexts.{code_text, is_lacking, is_meant, name_of_code, name_words, sidebearings_text};
ghost use Rattle.t1_rules.specs.StepRules.Seac.{seac_code};

use crate::names::ShownName;
use crate::words::small_coordinate;
use std::fmt;
use t1_char::natural;
use t1_font::{CODES, Font};
use t1_rules::{Rule, glyph_named, standard_name};

/// What is said of the name of a code.
#[derive(Clone, Copy)]
struct NameWords(&'static str);

/// What a rule says of a code.
#[derive(Clone, Copy)]
pub(crate) struct CodeText(pub(crate) Rule, pub(crate) i32);

/// A number as a code, where it is whole from 0 to 255.
fn seac_code(number: i32) -> Option<u8>
    ensures { result ≡ seac_code number }
{
    match natural(i64::from(number)) {
        Some(code) if code < CODES => Some(code as u8),
        _ => None,
    }
}

/// The name that StandardEncoding has for a code; empty where it has none, or where the number is no code.
fn name_of_code(number: i32) -> &'static str
    ensures { result.now ≡ name_of_code number }
{
    match seac_code(number) {
        Some(code) => standard_name(code),
        None => "",
    }
}

/// Whether it is the name of a code, and no glyph has it.
fn is_lacking(font: &Font<'_>, name: &[u8]) -> bool
    ensures { result ≡ is_lacking font.now name.now }
{
    if name.is_empty() {
        false
    } else {
        glyph_named(font, name).is_none()
    }
}

/// Whether a rule speaks of this code, as far as the font tells it.
pub(crate) fn is_meant(font: &Font<'_>, rule: Rule, code: i32) -> bool
    ensures { result ≡ is_meant font.now rule code }
{
    match rule {
        Rule::K01 => seac_code(code).is_none(),
        Rule::K02 => name_of_code(code).is_empty(),
        Rule::K03 => is_lacking(font, name_of_code(code).as_bytes()),
        _ => true,
    }
}

impl fmt::Display for NameWords {
    ghost output = { λ t. Some (name_words t.0.now) };

    fn fmt<W: fmt::Write>(&self, f: &mut fmt::Formatter<W>) -> fmt::Result {
        if self.0.is_empty() {
            write!(f, " has no name")
        } else {
            let name = ShownName(self.0.as_bytes());
            write!(f, " is {name}")
        }
    }
}

impl fmt::Display for CodeText {
    ghost output = { λ t. Some (code_text t.0 t.1) };

    #[tactic(auto, unfolding(crate::specs::SeacTexts::code_text))]
    fn fmt<W: fmt::Write>(&self, f: &mut fmt::Formatter<W>) -> fmt::Result {
        let code = small_coordinate(self.1);
        let name = NameWords(name_of_code(self.1));
        match self.0 {
            Rule::K01 => write!(f, "code is {code}"),
            Rule::K03 => write!(f, "code {code}{name}, which is no glyph"),
            _ => write!(f, "code {code}{name}"),
        }
    }
}

/// The sidebearing that seac says, and that of its accent.
#[derive(Clone, Copy)]
pub(crate) struct SidebearingsText {
    pub(crate) told: i32,
    pub(crate) own: i32,
}

impl fmt::Display for SidebearingsText {
    ghost output = { λ t. Some (sidebearings_text t.told t.own) };

    fn fmt<W: fmt::Write>(&self, f: &mut fmt::Formatter<W>) -> fmt::Result {
        let told = small_coordinate(self.told);
        let own = small_coordinate(self.own);
        write!(f, "seac says {told}, the accent's sidebearing is {own}")
    }
}
