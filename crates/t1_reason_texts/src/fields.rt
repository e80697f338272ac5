//! The fields of a reason as data, for forms that other programs read.

ghost use Rattle.std.specs.Prelude.{◌≡◌};
ghost use Rattle.t1_reason_texts.specs.Fields.{coordinate_field, drawing_fields_of, fields_of, font_fields_of, listed, stem_fields, stroke_fields, value_field, word_fields_of};

use crate::decimals::{Exact, Unit, coordinate, value};
use Field::{CodeName, Count, GlyphName, Holds};
use Fields::{Five, Four, One, Six, Three, Two};
use t1_char::{CharToken, Command};
use t1_drawing::{Direction, FontBox, UntouchedStem, end_of};
use t1_font::Encoding;
use t1_reasons::{EntryKind, FontText, Found, Reason};
use t1_rules::{Edges, Point, Stem};

/// What a reason has under a name.
#[derive(Clone, Copy)]
pub enum Field {
    /// A number of a charstring or of a dictionary.
    Decimal(Exact),
    /// How many, or which one.
    Count(u64),
    /// A number that can be below 0.
    Integer(i8),
    Holds(bool),
    Token(CharToken),
    Command(Command),
    Encoding(Encoding),
    Wanted(EntryKind),
    /// The name of the glyph of this number.
    GlyphName(u32),
    /// The name that a custom Encoding has for this code.
    CodeName(u32),
    Point(Point),
    Stem(Stem),
    Edges(Edges),
    Found(Found),
    /// The coordinate that stems of a direction bound.
    Axis(Direction),
    FontBox(FontBox),
    /// The token at a place of the row of a text.
    Word(FontText, usize),
    Text(FontText),
    /// The first line of the clear text.
    FirstLine,
}

/// A field with its name.
pub type Named = (&'static str, Field);

/// The fields of a reason.
#[derive(Clone, Copy)]
pub enum Fields {
    Nothing,
    One(Named),
    Two(Named, Named),
    Three(Named, Named, Named),
    Four(Named, Named, Named, Named),
    Five(Named, Named, Named, Named, Named),
    Six(Named, Named, Named, Named, Named, Named),
}

/// A number in units of 1/65536.
fn at(number: i64) -> Field
    ensures { result ≡ coordinate_field number }
{
    Field::Decimal(coordinate(number))
}

/// A number in units of 10^-9.
fn of(number: i64) -> Field
    ensures { result ≡ value_field number }
{
    Field::Decimal(value(number))
}

/// The same, where it may have more bits.
fn across(number: i128) -> Field
    ensures { result ≡ value_field number }
{
    Field::Decimal(Exact::new(number, Unit::Value))
}

/// The fields of a reason: none where it adds nothing.
#[tactic(auto, unfolding(crate::specs::Fields::fields_of))]
pub fn fields_of(reason: Reason) -> Fields
    ensures { listed result ≡ fields_of reason }
{
    match reason {
        Reason::Count {
            command,
            taken,
            there,
        } => Three(
            ("command", Field::Command(command)),
            ("taken", Count(taken as u64)),
            ("there", Count(there as u64)),
        ),
        Reason::Full { token, there } => Two(
            ("token", Field::Token(token)),
            ("there", Count(there as u64)),
        ),
        Reason::Length { bytes, len_iv } => Two(
            ("bytes", Count(bytes as u64)),
            ("lenIV", Field::Integer(len_iv)),
        ),
        Reason::Ending { subr } => One(("subr", Count(subr as u64))),
        Reason::Behind { next } => One(("next", Field::Token(next))),
        Reason::Pairs {
            moves,
            points,
            ends,
        } => Three(
            ("moves", Count(moves as u64)),
            ("points", Count(points as u64)),
            ("ends", Holds(ends)),
        ),
        Reason::Argument { place, number } => Two(
            ("place", Count(place as u64)),
            ("number", at(number)),
        ),
        Reason::Quotient { dividend, divisor } => Two(
            ("dividend", at(dividend)),
            ("divisor", at(divisor)),
        ),
        Reason::Depth { calls } => One(("calls", Count(calls as u64))),
        Reason::Subr { number, found } => Two(("number", at(number)), ("found", Holds(found))),
        Reason::Token { token } => One(("token", Field::Token(token))),
        Reason::Since { step: Some(step) } => One(("step", Count(step as u64))),
        Reason::Since { step: None } => Fields::Nothing,
        Reason::Open { start, pen } => Two(
            ("start", Field::Point(start)),
            ("pen", Field::Point(pen)),
        ),
        Reason::Stems { own, other } => Three(
            ("own", Field::Stem(own)),
            ("other", Field::Stem(other.stem)),
            ("step", Count(other.step as u64)),
        ),
        Reason::Stem { stem } => One(("stem", Field::Stem(stem))),
        Reason::Triple { one, two, three } => Three(
            ("one", Field::Stem(one)),
            ("two", Field::Stem(two)),
            ("three", Field::Stem(three)),
        ),
        Reason::Miss { named, pen } => Two(
            ("named", Field::Point(named)),
            ("pen", Field::Point(pen)),
        ),
        Reason::Othersubr { number, count } => Two(("number", at(number)), ("count", at(count))),
        Reason::Arguments { count, there } => Two(
            ("count", at(count)),
            ("there", Count(there as u64)),
        ),
        Reason::Codes { base, accent } => Two(
            ("base", at(i64::from(base))),
            ("accent", at(i64::from(accent))),
        ),
        Reason::Sidebearings { told, own } => Two(
            ("told", at(i64::from(told))),
            ("own", at(i64::from(own))),
        ),
        _ => drawing_fields_of(reason),
    }
}

/// Those of a reason that speaks of the drawing, or of a later one.
#[tactic(auto, unfolding(crate::specs::Fields::drawing_fields_of))]
fn drawing_fields_of(reason: Reason) -> Fields
    ensures { listed result ≡ drawing_fields_of reason }
{
    match reason {
        Reason::Outside { point, font_box } => Two(
            ("point", Field::Point(point)),
            ("FontBBox", Field::FontBox(font_box)),
        ),
        Reason::Area { twentyfold, turns } => Four(
            ("area", Field::Decimal(Exact::new(twentyfold, Unit::Area))),
            ("subpaths", Count(turns.subpaths as u64)),
            ("clockwise", Count(turns.clockwise as u64)),
            ("step", Count(turns.first as u64)),
        ),
        Reason::Stroke {
            line_start,
            start,
            segment,
        } => stroke_fields(line_start, start, end_of(segment)),
        Reason::Beyond {
            direction,
            quarters,
            place,
            start,
            end,
        } => Five(
            ("axis", Field::Axis(direction)),
            ("quarters", Count(quarters as u64)),
            ("place", Field::Decimal(Exact::new(place, Unit::OnCurve))),
            ("start", at(start)),
            ("end", at(end)),
        ),
        Reason::Untouched {
            stem,
            step,
            nearest,
        } => stem_fields(stem, step, nearest),
        _ => font_fields_of(reason),
    }
}

/// Those of a line or a curve: where it begins and ends, and where the line right before it begins.
fn stroke_fields(line_start: Option<Point>, start: Option<Point>, end: Option<Point>) -> Fields
    ensures { listed result ≡ stroke_fields line_start start end }
{
    match (line_start, start, end) {
        (Some(before), Some(start), Some(end)) => Three(
            ("before", Field::Point(before)),
            ("start", Field::Point(start)),
            ("end", Field::Point(end)),
        ),
        (None, Some(start), Some(end)) => {
            Two(("start", Field::Point(start)), ("end", Field::Point(end)))
        }
        _ => Fields::Nothing,
    }
}

/// Those of a stem that nothing touches: its edges, how many more there are, the step that sets it, and what is drawn nearest to it.
fn stem_fields(stem: UntouchedStem, step: u32, nearest: Option<i64>) -> Fields
    ensures { listed result ≡ stem_fields stem step nearest }
{
    let axis = ("axis", Field::Axis(stem.direction));
    let lower = ("lower", at(stem.low));
    let upper = ("upper", at(stem.high));
    let more = ("more", Count(stem.more as u64));
    let step = ("step", Count(step as u64));
    match nearest {
        Some(place) => Six(axis, lower, upper, more, step, ("nearest", at(place))),
        None => Five(axis, lower, upper, more, step),
    }
}

/// Those of a reason that speaks of the font and its entries, of a charstring as a whole, or of a waiver.
#[tactic(auto, unfolding(crate::specs::Fields::font_fields_of))]
fn font_fields_of(reason: Reason) -> Fields
    ensures { listed result ≡ font_fields_of reason }
{
    match reason {
        Reason::Limit { steps } => One(("steps", Count(steps as u64))),
        Reason::Entry { found } => One(("found", Field::Found(found))),
        Reason::Ids { clear, private } => Two(("clear", of(clear)), ("private", of(private))),
        Reason::Features { found, one, two } => Three(
            ("found", Field::Found(found)),
            ("one", of(one)),
            ("two", of(two)),
        ),
        Reason::Glyphs { count } => One(("glyphs", Count(count as u64))),
        Reason::Form { encoding } => One(("form", Field::Encoding(encoding))),
        Reason::SubrEntry {
            number,
            twice,
            size,
        } => Three(
            ("number", Count(number as u64)),
            ("twice", Holds(twice)),
            ("size", Count(size as u64)),
        ),
        Reason::Kind { found, wanted } => Two(
            ("found", Field::Found(found)),
            ("wanted", Field::Wanted(wanted)),
        ),
        Reason::TooMany { count, most } => Two(
            ("count", Count(count as u64)),
            ("most", Count(most as u64)),
        ),
        Reason::Numbers { count } => One(("count", Count(count as u64))),
        Reason::Glyph { glyph } => One(("name", GlyphName(glyph))),
        Reason::Code { code } => Two(("code", Count(code as u64)), ("name", CodeName(code))),
        Reason::LastToken { token: Some(token) } => One(("token", Field::Token(token))),
        Reason::LastToken { token: None } => Fields::Nothing,
        Reason::Corners { first, last } => Two(("first", of(first)), ("last", of(last))),
        Reason::Number { number } => One(("number", of(number))),
        Reason::Following { before, number } => Two(("before", of(before)), ("number", of(number))),
        Reason::Gap {
            upper,
            lower,
            distance,
        } => Three(
            ("upper", of(upper)),
            ("lower", of(lower)),
            ("distance", across(distance)),
        ),
        Reason::Zones {
            own,
            other,
            distance,
        } => Three(
            ("own", Field::Edges(own)),
            ("other", Field::Edges(other)),
            ("distance", across(distance)),
        ),
        Reason::Zone {
            lower,
            upper,
            scale,
        } => Three(
            ("lower", of(lower)),
            ("upper", of(upper)),
            ("scale", of(scale)),
        ),
        Reason::Width { width, nearest } => Two(("width", of(width)), ("nearest", of(nearest))),
        _ => word_fields_of(reason),
    }
}

/// Those of a reason that speaks of the font's texts, or of FontMatrix.
#[tactic(auto, unfolding(crate::specs::Fields::word_fields_of))]
fn word_fields_of(reason: Reason) -> Fields
    ensures { listed result ≡ word_fields_of reason }
{
    match reason {
        Reason::HighByte { line, byte } => Two(
            ("byte", Count(byte as u64)),
            ("line", Count(line as u64)),
        ),
        Reason::ReaderWord { place } => Two(
            ("word", Field::Word(FontText::Private, place)),
            (
                "entry",
                Field::Word(FontText::Private, place.saturating_sub(2)),
            ),
        ),
        Reason::TextWord { text, place } => Two(
            ("word", Field::Word(text, place)),
            ("text", Field::Text(text)),
        ),
        Reason::Determinant { v0, v1, v2, v3 } => Four(
            ("v0", of(v0)),
            ("v1", of(v1)),
            ("v2", of(v2)),
            ("v3", of(v3)),
        ),
        Reason::PrivateUnbegun { named } => One(("named", Holds(named))),
        Reason::FirstLine => One(("line", Field::FirstLine)),
        Reason::Nothing
        | Reason::Waiver { .. }
        | Reason::Count { .. }
        | Reason::Full { .. }
        | Reason::Length { .. }
        | Reason::Ending { .. }
        | Reason::Behind { .. }
        | Reason::Pairs { .. }
        | Reason::Argument { .. }
        | Reason::Quotient { .. }
        | Reason::Depth { .. }
        | Reason::Subr { .. }
        | Reason::Token { .. }
        | Reason::Since { .. }
        | Reason::Open { .. }
        | Reason::Stems { .. }
        | Reason::Stem { .. }
        | Reason::Triple { .. }
        | Reason::Miss { .. }
        | Reason::Othersubr { .. }
        | Reason::Arguments { .. }
        | Reason::Codes { .. }
        | Reason::Sidebearings { .. }
        | Reason::Outside { .. }
        | Reason::Area { .. }
        | Reason::Stroke { .. }
        | Reason::Beyond { .. }
        | Reason::Untouched { .. }
        | Reason::Limit { .. }
        | Reason::Entry { .. }
        | Reason::Ids { .. }
        | Reason::Features { .. }
        | Reason::Glyphs { .. }
        | Reason::Form { .. }
        | Reason::SubrEntry { .. }
        | Reason::Kind { .. }
        | Reason::TooMany { .. }
        | Reason::Numbers { .. }
        | Reason::Glyph { .. }
        | Reason::Code { .. }
        | Reason::LastToken { .. }
        | Reason::Corners { .. }
        | Reason::Number { .. }
        | Reason::Following { .. }
        | Reason::Gap { .. }
        | Reason::Zones { .. }
        | Reason::Zone { .. }
        | Reason::Width { .. } => Fields::Nothing,
    }
}
