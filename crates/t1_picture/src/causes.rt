//! What the reasons of faults show in the drawing: the stems, zones, points, lines and curves that they name, and which way subpaths run.

ghost use Rattle.std.specs.Prelude.{◌≡◌, ◌<◌, ◌+◌, ◌*◌, ◌++◌, OnOk, slice_get};
ghost use Rattle.std.specs.Option.{option_to_list};
ghost use Rattle.t1_font.specs.Entries.{entry_view};
ghost use Rattle.t1_picture.specs.Causes.{causes_in, causes_of_reason, component_causes, direction_of, line_before, means_components, named_stem, nearest_point, stem_at, stroke_of, untouched_stem, zone_at, zone_by, zone_in, zone_key, zone_of_key};

use crate::bands::{Band, lower_edge, number_at, upper_edge};
use crate::view::View;
use std::alloc::AllocError;
use t1_char::{CharToken, Command, Edition};
use t1_drawing::{Direction, FontBox, UntouchedStem};
use t1_font::{Entry, Font, Key};
use t1_outline::Segment;
use t1_reason_texts::{Exact, Unit, coordinate};
use t1_reasons::Reason;
use t1_rules::{Edges, INDEXES, Point, Rule, Stem, key_among};

/// Whose stem it is that a reason names.
#[derive(Clone, Copy)]
pub(crate) enum Role {
    /// The step sets it.
    Own,
    /// It is the other one.
    Other,
}

/// A stem that a reason names.
#[derive(Clone, Copy)]
pub(crate) struct NamedStem {
    pub(crate) band: Band,
    /// Its edges, counted from the sidebearing point, as the font does.
    pub(crate) lower: i64,
    pub(crate) upper: i64,
    pub(crate) role: Role,
}

/// What a reason names that can be drawn.
#[derive(Clone, Copy)]
pub(crate) enum Cause {
    /// A stem: H02 to H07, H09 and H10.
    Stem(NamedStem),
    /// A zone: the one that a fault of the font is at, and Z06's other one.
    Zone(Edges),
    /// The point that the end of a flex names, and where the pen is: X05.
    Miss {
        named: Point,
        pen: Point,
    },
    /// The two ends of an open path: P02.
    Ends {
        start: Point,
        pen: Point,
    },
    /// A point outside FontBBox, and that box: P04.
    Outside {
        point: Point,
        font_box: FontBox,
    },
    /// A line or a curve, where it begins, and where the line right before it begins, if the rule compares both: P06 to P09.
    Stroke {
        before: Option<Point>,
        start: Point,
        segment: Segment,
    },
    /// A coordinate: P10's of a curve, and that of the point which is nearest to H08's stem.
    Coordinate {
        direction: Direction,
        place: Exact,
    },
    /// A stem that nothing touches: H08.
    Untouched(NamedStem),
    /// Which way each subpath runs: P05.
    Turns,
    /// The base of the glyph's seac: K04, K07.
    Base,
    /// Its accent: K04, K05, K07.
    Accent,
}

/// Where the stems of a step are.
#[derive(Clone, Copy)]
pub(crate) struct StemPlace {
    pub(crate) edition: Edition,
    /// What their positions count from.
    pub(crate) start: Point,
    /// Which way they lie; None where the step sets none.
    pub(crate) direction: Option<Direction>,
}

impl StemPlace {
    /// Those of a view, given what positions count from and which way the stems lie.
    pub(crate) fn of(view: &View<'_>, start: Point, direction: Option<Direction>) -> StemPlace
        ensures { result ≡ record { edition = view.now.sidebearings.now.edition; start = start; direction = direction } }
    {
        StemPlace {
            edition: view.edition(),
            start,
            direction,
        }
    }

    /// A stem of the step, if it sets some.
    fn stem(self, role: Role, stem: Stem) -> Option<Cause>
        ensures { result ≡ stem_at self role stem }
    {
        match self.direction {
            Some(direction) => Some(named_stem(self.edition, self.start, role, stem, direction)),
            None => None,
        }
    }
}

/// A stem that a reason names, as it is drawn.
fn named_stem(edition: Edition, start: Point, role: Role, stem: Stem, direction: Direction) -> Cause
    ensures { result ≡ named_stem edition start role stem direction }
{
    Cause::Stem(NamedStem {
        band: Band::of(stem, direction, direction.coordinate(start), edition),
        lower: lower_edge(stem, edition),
        upper: upper_edge(stem, edition),
        role,
    })
}

/// The direction of the stems that a token sets, if it sets some.
pub(crate) fn direction_of(token: CharToken) -> Option<Direction>
    ensures { result ≡ direction_of token }
{
    match token {
        CharToken::Command(Command::Hstem | Command::Hstem3) => Some(Direction::Across),
        CharToken::Command(Command::Vstem | Command::Vstem3) => Some(Direction::Upright),
        _ => None,
    }
}

/// Adds what a reason names.
pub(crate) fn add_causes(
    place: StemPlace,
    rule: Rule,
    reason: Option<Reason>,
    causes: &mut Vec<Cause>,
) -> Result<(), AllocError>
    ensures { OnOk result (causes.new.items ≡ causes.old.items ++ causes_of_reason place rule reason) }
{
    match reason {
        Some(reason) => add_causes_in(place, rule, reason, causes),
        None => Ok(()),
    }
}

fn add_causes_in(
    place: StemPlace,
    rule: Rule,
    reason: Reason,
    causes: &mut Vec<Cause>,
) -> Result<(), AllocError>
    ensures { OnOk result (causes.new.items ≡ causes.old.items ++ causes_in place rule reason) }
{
    match reason {
        Reason::Stems { own, other } => {
            add_cause(causes, place.stem(Role::Own, own))?;
            add_cause(causes, place.stem(Role::Other, other.stem))
        }
        Reason::Stem { stem } => add_cause(causes, place.stem(Role::Own, stem)),
        Reason::Triple { one, two, three } => {
            add_cause(causes, place.stem(Role::Own, one))?;
            add_cause(causes, place.stem(Role::Own, two))?;
            add_cause(causes, place.stem(Role::Own, three))
        }
        Reason::Miss { named, pen } => add_cause(causes, Some(Cause::Miss { named, pen })),
        Reason::Open { start, pen } => add_cause(causes, Some(Cause::Ends { start, pen })),
        Reason::Codes { .. } => add_components(rule, causes),
        Reason::Sidebearings { .. } => add_cause(causes, Some(Cause::Accent)),
        Reason::Zones { other, .. } => add_cause(causes, Some(Cause::Zone(other))),
        Reason::Outside { point, font_box } => {
            add_cause(causes, Some(Cause::Outside { point, font_box }))
        }
        Reason::Stroke {
            line_start,
            start,
            segment,
        } => add_cause(causes, stroke(rule, line_start, start, segment)),
        Reason::Beyond {
            direction,
            place: number,
            ..
        } => {
            let unit = Unit::OnCurve;
            let place = Exact { number, unit };
            add_cause(causes, Some(Cause::Coordinate { direction, place }))
        }
        Reason::Area { .. } => add_cause(causes, Some(Cause::Turns)),
        Reason::Untouched { stem, nearest, .. } => {
            add_cause(causes, Some(untouched_stem(place.start, stem)))?;
            add_cause(causes, nearest_point(stem.direction, nearest))
        }
        _ => Ok(()),
    }
}

/// A stem that nothing touches, as it is drawn.
fn untouched_stem(start: Point, stem: UntouchedStem) -> Cause
    ensures { result ≡ untouched_stem start stem }
{
    let start = stem.direction.coordinate(start);
    Cause::Untouched(NamedStem {
        band: Band {
            direction: stem.direction,
            lower: stem.low,
            upper: stem.high,
        },
        lower: stem.low.saturating_sub(start),
        upper: stem.high.saturating_sub(start),
        role: Role::Own,
    })
}

/// The coordinate of the point which is nearest to a stem, if there is one.
fn nearest_point(direction: Direction, nearest: Option<i64>) -> Option<Cause>
    ensures { result ≡ nearest_point direction nearest }
{
    match nearest {
        Some(number) => Some(Cause::Coordinate {
            direction,
            place: coordinate(number),
        }),
        None => None,
    }
}

/// A line or a curve, if it is known where it begins.
fn stroke(
    rule: Rule,
    line_start: Option<Point>,
    start: Option<Point>,
    segment: Segment,
) -> Option<Cause>
    ensures { result ≡ stroke_of rule line_start start segment }
{
    match start {
        Some(start) => Some(Cause::Stroke {
            before: line_before(rule, line_start),
            start,
            segment,
        }),
        None => None,
    }
}

/// Where the line right before a line begins, if a rule compares both.
fn line_before(rule: Rule, line_start: Option<Point>) -> Option<Point>
    ensures { result ≡ line_before rule line_start }
{
    match rule {
        Rule::P07 | Rule::P08 => line_start,
        _ => None,
    }
}

/// Adds both components, where a rule may mean either.
fn add_components(rule: Rule, causes: &mut Vec<Cause>) -> Result<(), AllocError>
    ensures { OnOk result (causes.new.items ≡ causes.old.items ++ component_causes rule) }
{
    if !means_components(rule) {
        return Ok(());
    }
    causes.push(Cause::Base)?;
    causes.push(Cause::Accent)?;
    Ok(())
}

fn means_components(rule: Rule) -> bool
    ensures { result ≡ means_components rule }
{
    matches!(rule, Rule::K04 | Rule::K07)
}

/// Adds a cause, if there is one.
pub(crate) fn add_cause(causes: &mut Vec<Cause>, cause: Option<Cause>) -> Result<(), AllocError>
    ensures { OnOk result (causes.new.items ≡ causes.old.items ++ option_to_list cause) }
{
    if let Some(cause) = cause {
        causes.push(cause)?;
    }
    Ok(())
}

/// The zone that a fault of the font is at, by its step.
pub(crate) fn zone_at(font: &Font<'_>, step: u32) -> Option<Cause>
    ensures { result ≡ zone_at font.now step }
{
    match zone_key(step / INDEXES) {
        Some(key) => zone_in(font.value(key), step % INDEXES),
        None => None,
    }
}

/// The key of a number, if its zones are drawn.
fn zone_key(key: u32) -> Option<Key>
    ensures { result ≡ zone_key key }
{
    key_among(&[Key::BlueValues, Key::OtherBlues], u8::try_from(key).ok()?)
}

/// The zone of a list that has the number of an index.
fn zone_in(list: &Entry, index: u32) -> Option<Cause>
    ensures { result ≡ zone_in (entry_view list.now) index }
{
    match list {
        Entry::Numbers { first, .. } => zone_from(first.as_slice(), index as usize / 2),
        Entry::Absent | Entry::Number(_) | Entry::Other => None,
    }
}

/// The zone of a list, by its place among the pairs.
fn zone_from(list: &[i64], zone: usize) -> Option<Cause>
    requires { zone < 2147483648 }
    ensures { result ≡ zone_by (slice_get list.now (2 * zone)) (slice_get list.now (2 * zone + 1)) }
{
    zone_by(number_at(list, 2 * zone), number_at(list, 2 * zone + 1))
}

/// The zone of two numbers, where both are there.
fn zone_by(lower: Option<i64>, upper: Option<i64>) -> Option<Cause>
    ensures { result ≡ zone_by lower upper }
{
    let Some(lower) = lower else {
        return None;
    };
    let Some(upper) = upper else {
        return None;
    };
    Some(Cause::Zone(Edges { lower, upper }))
}
