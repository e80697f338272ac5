//! The members that tell a reason: numbers of charstrings and dictionaries are exact decimals, as strings; counts are numbers.

ghost use Rattle.std.specs.Prelude.{◌≡◌, IfOk, OnOk, codes};
ghost use Rattle.serde_json.specs.Data.{no_members, put as with_put, string};
ghost use Rattle.serde_json.specs.View.{members_view, view};
ghost use Rattle.t1_reason_texts.specs.Decimals.{exact_text, value_of};
ghost use Rattle.t1_forms.specs.Members.{box_members, field_data, form_word, found_members, kind_word, pair_members, reason_members, text_word};

use crate::names::shown;
use serde_json::{Map, Value, put};
use std::alloc::{AllocError, Global};
use t1_char::command_name;
use t1_drawing::FontBox;
use t1_font::{Encoding, Font};
use t1_reason_texts::{
    Exact, Field, Fields, Named, TokenText, axis_word, coordinate, encoded_name, fields_of,
    first_bytes, first_line, value, word_at,
};
use t1_reasons::{EntryKind, FontText, Found, Reason};

type Members = Map<String, Value>;

/// Puts a text as a member.
pub(crate) fn put_text(
    members: &mut Members,
    alloc: Global,
    key: &str,
    text: &str,
) -> Result<(), AllocError>
    ensures { OnOk result (members_view members.new.entries
        ≡ with_put key.now (string text.now) (members_view members.old.entries)) }
{
    put(members, alloc, key, Value::try_from_str(alloc, text)?)
}

fn decimal(alloc: Global, number: Exact) -> Result<Value, AllocError>
    ensures { IfOk result (λ v. view v ≡ string (exact_text number)) }
{
    let text = format!(in alloc; "{number}")?;
    Ok(Value::String(text))
}

fn kind_word(kind: EntryKind) -> &'static str
    ensures { result.now ≡ kind_word kind }
{
    match kind {
        EntryKind::Number => "number",
        EntryKind::Numbers => "list",
    }
}

fn form_word(encoding: Encoding) -> &'static str
    ensures { result.now ≡ form_word encoding }
{
    match encoding {
        Encoding::Absent => "absent",
        Encoding::Standard => "standard",
        Encoding::Custom => "custom",
        Encoding::Other => "other",
    }
}

fn text_word(text: FontText) -> &'static str
    ensures { result.now ≡ text_word text }
{
    match text {
        FontText::Clear => "clear",
        FontText::Private => "private",
    }
}

/// Two decimals.
#[tactic(auto, unfolding(crate::specs::Members::pair_members))]
fn pair_members(
    alloc: Global,
    key: &str,
    first: Exact,
    other: &str,
    second: Exact,
) -> Result<Members, AllocError>
    ensures { IfOk result (λ m. members_view m.entries ≡ pair_members key.now first other.now second) }
{
    let mut members = Map::new(alloc);
    put(&mut members, alloc, key, decimal(alloc, first)?)?;
    put(&mut members, alloc, other, decimal(alloc, second)?)?;
    Ok(members)
}

/// The edges of FontBBox.
fn box_members(alloc: Global, font_box: FontBox) -> Result<Members, AllocError>
    ensures { IfOk result (λ m. members_view m.entries ≡ box_members font_box) }
{
    let mut members = Map::new(alloc);
    put_value(&mut members, alloc, "left", font_box.left)?;
    put_value(&mut members, alloc, "bottom", font_box.bottom)?;
    put_value(&mut members, alloc, "right", font_box.right)?;
    put_value(&mut members, alloc, "top", font_box.top)?;
    Ok(members)
}

/// Puts a number of a dictionary as a member.
fn put_value(members: &mut Members, alloc: Global, key: &str, number: i64) -> Result<(), AllocError>
    ensures { OnOk result (members_view members.new.entries
        ≡ with_put key.now (string (exact_text (value_of number))) (members_view members.old.entries)) }
{
    put(members, alloc, key, decimal(alloc, value(number))?)
}

fn of_kind(alloc: Global, kind: &str) -> Result<Members, AllocError>
    ensures { IfOk result (λ m. members_view m.entries ≡ with_put (codes "kind") (string kind.now) no_members) }
{
    let mut members = Map::new(alloc);
    put_text(&mut members, alloc, "kind", kind)?;
    Ok(members)
}

fn found_members(alloc: Global, found: Found) -> Result<Members, AllocError>
    ensures { IfOk result (λ m. members_view m.entries ≡ found_members found) }
{
    match found {
        Found::Absent => of_kind(alloc, "absent"),
        Found::One { number } => {
            let mut members = of_kind(alloc, "number")?;
            let number = decimal(alloc, value(number))?;
            put(&mut members, alloc, "number", number)?;
            Ok(members)
        }
        Found::Several { count } => {
            let mut members = of_kind(alloc, "list")?;
            put(&mut members, alloc, "count", Value::from(count))?;
            Ok(members)
        }
        Found::Other => of_kind(alloc, "other"),
    }
}

fn field_value(alloc: Global, font: &Font<'_>, field: Field) -> Result<Value, AllocError>
    ensures { IfOk result (λ v. view v ≡ field_data font.now field) }
{
    match field {
        Field::Decimal(number) => decimal(alloc, number),
        Field::Count(count) => Ok(Value::from(count)),
        Field::Integer(number) => Ok(Value::from(number)),
        Field::Holds(holds) => Ok(Value::Bool(holds)),
        Field::Token(token) => {
            let token = TokenText(token);
            Ok(Value::String(format!(in alloc; "{token}")?))
        }
        Field::Command(command) => Value::try_from_str(alloc, command_name(command)),
        Field::Encoding(encoding) => Value::try_from_str(alloc, form_word(encoding)),
        Field::Wanted(kind) => Value::try_from_str(alloc, kind_word(kind)),
        Field::GlyphName(glyph) => {
            Ok(Value::String(shown(alloc, font.glyph_name(glyph as usize))?))
        }
        Field::CodeName(code) => Ok(Value::String(shown(alloc, encoded_name(font, code))?)),
        Field::Point(point) => {
            let (x, y) = (coordinate(point.x), coordinate(point.y));
            Ok(Value::Object(pair_members(alloc, "x", x, "y", y)?))
        }
        Field::Stem(stem) => {
            let position = coordinate(i64::from(stem.position));
            let width = coordinate(i64::from(stem.width));
            Ok(Value::Object(pair_members(alloc, "position", position, "width", width)?))
        }
        Field::Edges(edges) => {
            let (lower, upper) = (value(edges.lower), value(edges.upper));
            Ok(Value::Object(pair_members(alloc, "lower", lower, "upper", upper)?))
        }
        Field::Found(found) => Ok(Value::Object(found_members(alloc, found)?)),
        Field::Axis(direction) => Value::try_from_str(alloc, axis_word(direction)),
        Field::FontBox(font_box) => Ok(Value::Object(box_members(alloc, font_box)?)),
        Field::Word(text, place) => {
            let word = first_bytes(word_at(font, text, place));
            Ok(Value::String(shown(alloc, word)?))
        }
        Field::Text(text) => Value::try_from_str(alloc, text_word(text)),
        Field::FirstLine => Ok(Value::String(shown(alloc, first_bytes(first_line(font)))?)),
    }
}

fn put_field(
    members: &mut Members,
    alloc: Global,
    font: &Font<'_>,
    field: Named,
) -> Result<(), AllocError>
    ensures { OnOk result (members_view members.new.entries
        ≡ with_put field.entry.0.now (field_data font.now field.entry.1) (members_view members.old.entries)) }
{
    put(members, alloc, field.0, field_value(alloc, font, field.1)?)
}

/// Puts two fields, one after the other.
fn put_two(
    members: &mut Members,
    alloc: Global,
    font: &Font<'_>,
    first: Named,
    second: Named,
) -> Result<(), AllocError>
    ensures { OnOk result (members_view members.new.entries
        ≡ with_put second.entry.0.now (field_data font.now second.entry.1)
        (with_put first.entry.0.now (field_data font.now first.entry.1) (members_view members.old.entries))) }
{
    put_field(members, alloc, font, first)?;
    put_field(members, alloc, font, second)
}

/// The members that tell a reason: none where it adds nothing.
#[tactic(auto, unfolding(crate::specs::Members::reason_members))]
pub fn reason_members(alloc: Global, font: &Font<'_>, reason: Reason) -> Result<Members, AllocError>
    ensures { IfOk result (λ m. members_view m.entries ≡ reason_members font.now reason) }
{
    let mut members = Map::new(alloc);
    match fields_of(reason) {
        Fields::Nothing => {}
        Fields::One(first) => put_field(&mut members, alloc, font, first)?,
        Fields::Two(first, second) => put_two(&mut members, alloc, font, first, second)?,
        Fields::Three(first, second, third) => {
            put_two(&mut members, alloc, font, first, second)?;
            put_field(&mut members, alloc, font, third)?;
        }
        Fields::Four(first, second, third, fourth) => {
            put_two(&mut members, alloc, font, first, second)?;
            put_two(&mut members, alloc, font, third, fourth)?;
        }
        Fields::Five(first, second, third, fourth, fifth) => {
            put_two(&mut members, alloc, font, first, second)?;
            put_two(&mut members, alloc, font, third, fourth)?;
            put_field(&mut members, alloc, font, fifth)?;
        }
        Fields::Six(first, second, third, fourth, fifth, sixth) => {
            put_two(&mut members, alloc, font, first, second)?;
            put_two(&mut members, alloc, font, third, fourth)?;
            put_two(&mut members, alloc, font, fifth, sixth)?;
        }
    }
    Ok(members)
}
