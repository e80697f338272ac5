//! What faults are counted by, and its text.

ghost use Rattle.std.specs.Prelude.{◌≡◌, [], ◌∷◌, ◌++◌, codes, OnOk};
ghost use Rattle.std.specs.List.{concat};
ghost use Rattle.t1_many.specs.Kinds.{counted_in, kind_text, kind_value, unit_text, unit_value};
ghost use Rattle.t1_report.specs.Faults.{fault_value};
ghost use Rattle.t1_report.specs.Lines.{IsInFont};
ghost use Rattle.t1_rules.specs.Book.{code_of};

use std::alloc::AllocError;
use t1_font::Font;
use t1_lines::{Place, place_of};
use t1_report::{Fault, Waivers};
use t1_rules::{Rule, key_text, rule_code};

/// What faults are counted by: a rule, and the unit in which it is broken.
#[derive(Clone, Copy, Debug, PartialEq, Eq, Hash)]
pub(crate) struct Kind<'a> {
    pub(crate) rule: Rule,
    pub(crate) unit: KindUnit<'a>,
}

/// Where a rule is broken.
#[derive(Clone, Copy, Debug, PartialEq, Eq, Hash)]
pub(crate) enum KindUnit<'a> {
    /// A key of the font, by its number.
    Key(u8),
    /// A glyph, by its name.
    Glyph(&'a [u8]),
    /// A waiver that isn't used, by the glyph's name, and the rule that it waives.
    Waiver { name: &'a [u8], rule: Rule },
}

/// What a fault of a font is counted by.
pub(crate) fn kind_of<'a>(font: &'a Font<'_>, waivers: &'a Waivers<'_>, fault: &Fault) -> Kind<'a>
    requires { IsInFont font.now waivers.now (fault_value fault.now) }
    ensures { kind_value result ≡ counted_in font.now waivers.now (fault_value fault.now) }
{
    let unit = match place_of(font, waivers, fault) {
        Place::Key { key, .. } => KindUnit::Key(key),
        Place::Step { name, .. } => KindUnit::Glyph(name),
        Place::Waiver { name, rule } => KindUnit::Waiver { name, rule },
    };
    Kind {
        rule: fault.rule,
        unit,
    }
}

/// Appends the text of a kind: `H02 glyph A`, `Z04 font BlueValues`, `U01 waiver A P01`.
pub(crate) fn push_kind(text: &mut Vec<u8>, kind: &Kind<'_>) -> Result<(), AllocError>
    ensures { OnOk result (text.new.items ≡ text.old.items ++ kind_text (kind_value kind.now)) }
{
    text.extend_from_slice(rule_code(kind.rule).as_bytes())?;
    push_unit(text, &kind.unit)
}

/// Appends the unit of a kind.
fn push_unit(text: &mut Vec<u8>, unit: &KindUnit<'_>) -> Result<(), AllocError>
    ensures { OnOk result (text.new.items ≡ text.old.items ++ unit_text (unit_value unit.now)) }
{
    match *unit {
        KindUnit::Key(key) => push_two(text, b" font ", key_text(key).as_bytes()),
        KindUnit::Glyph(name) => push_two(text, b" glyph ", name),
        KindUnit::Waiver { name, rule } => push_waiver(text, name, rule),
    }
}

/// Appends a waiver, as the unit of a kind.
fn push_waiver(text: &mut Vec<u8>, name: &[u8], rule: Rule) -> Result<(), AllocError>
    ensures { OnOk result (text.new.items
        ≡ text.old.items ++ concat (codes " waiver " ∷ name.now ∷ codes " " ∷ code_of rule ∷ [])) }
{
    push_two(text, b" waiver ", name)?;
    push_two(text, b" ", rule_code(rule).as_bytes())
}

/// Appends a text, and another one after it.
pub(crate) fn push_two(text: &mut Vec<u8>, front: &[u8], end: &[u8]) -> Result<(), AllocError>
    ensures { OnOk result (text.new.items ≡ text.old.items ++ concat (front.now ∷ end.now ∷ [])) }
{
    text.extend_from_slice(front)?;
    text.extend_from_slice(end)
}
