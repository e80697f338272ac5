//! Lines and curves of single commands: Type 1 Font Format 1.1, chapter 6.

ghost use Rattle.std.specs.Prelude.{◌≡◌, ◌<◌, ◌+◌, ◌*◌, ◌+ℤ◌, ℕ, pos};
ghost use Rattle.t1_char.specs.Arguments.{argument};
ghost use Rattle.t1_outline.specs.Outlines.{curve, line, stroke_at, stroke_by};
ghost use Rattle.t1_rules.specs.StepRules.Flex.{at, plus};
ghost use Rattle.t1_rules.specs.Watches.{IsNear, IsWithin, most_steps, reach};

use crate::segment::Segment;
use t1_char::{CharToken, Command, Step};
use t1_rules::Point;

/// A way from a point to the next, in units of 1/65536.
#[derive(Clone, Copy)]
struct Way {
    x: i32,
    y: i32,
}

/// The way that two arguments say.
fn along(step: &Step, x: usize, y: usize) -> Way
    ensures x { result.x ≡ argument step.now.stack x }
    ensures y { result.y ≡ argument step.now.stack y }
{
    Way {
        x: step.argument(x),
        y: step.argument(y),
    }
}

/// The way across that an argument says.
fn across(step: &Step, x: usize) -> Way
    ensures x { result.x ≡ argument step.now.stack x }
    ensures y { result.y ≡ pos 0 }
{
    Way {
        x: step.argument(x),
        y: 0,
    }
}

/// The way upwards that an argument says.
fn upwards(step: &Step, y: usize) -> Way
    ensures x { result.x ≡ pos 0 }
    ensures y { result.y ≡ argument step.now.stack y }
{
    Way {
        x: 0,
        y: step.argument(y),
    }
}

/// The point after another one.
fn behind(point: Point, way: Way) -> Point
    requires { (n : ℕ) × (IsNear n point × (n < most_steps + 2)) }
    ensures value { result ≡ plus point (at way.x way.y) }
    ensures near { (n : ℕ) → IsNear n point → IsNear (n + 1) result }
{
    Point {
        x: moved(point.x, way.x),
        y: moved(point.y, way.y),
    }
}

/// A coordinate, further by so much.
fn moved(coordinate: i64, by: i32) -> i64
    requires { (n : ℕ) × (IsWithin (n * reach) coordinate × (n < most_steps + 2)) }
    ensures value { result ≡ coordinate +ℤ by }
    ensures near { (n : ℕ) → IsWithin (n * reach) coordinate → IsWithin ((n + 1) * reach) result }
{
    coordinate + i64::from(by)
}

fn line(start: Point, way: Way) -> Segment
    requires { (n : ℕ) × (IsNear n start × (n < most_steps)) }
    ensures { result ≡ line start (at way.x way.y) }
{
    Segment::Line(behind(start, way))
}

fn curve(start: Point, one: Way, two: Way, three: Way) -> Segment
    requires { (n : ℕ) × (IsNear n start × (n < most_steps)) }
    ensures { result ≡ curve start (at one.x one.y) (at two.x two.y) (at three.x three.y) }
{
    let first = behind(start, one);
    let second = behind(first, two);
    Segment::Curve(first, second, behind(second, three))
}

/// The line or the curve that a step draws from a point on, if it is one.
#[inline(always)]
pub(crate) fn stroke(start: Point, step: &Step) -> Option<Segment>
    requires { (n : ℕ) × (IsNear n start × (n < most_steps)) }
    ensures { result ≡ stroke_at start step.now.stack step.now.token }
{
    match step.token {
        CharToken::Command(command) => stroke_by(start, command, step),
        _ => None,
    }
}

#[inline(always)]
fn stroke_by(start: Point, command: Command, step: &Step) -> Option<Segment>
    requires { (n : ℕ) × (IsNear n start × (n < most_steps)) }
    ensures { result ≡ stroke_by start step.now.stack command }
{
    let segment = match command {
        Command::Rlineto => line(start, along(step, 0, 1)),
        Command::Hlineto => line(start, across(step, 0)),
        Command::Vlineto => line(start, upwards(step, 0)),
        Command::Rrcurveto => curve(
            start,
            along(step, 0, 1),
            along(step, 2, 3),
            along(step, 4, 5),
        ),
        Command::Vhcurveto => curve(start, upwards(step, 0), along(step, 1, 2), across(step, 3)),
        Command::Hvcurveto => curve(start, across(step, 0), along(step, 1, 2), upwards(step, 3)),
        _ => return None,
    };
    Some(segment)
}
