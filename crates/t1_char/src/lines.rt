//! Moves, lines, curves and closepaths that a machine passes: Type 1 Font Format 1.1, chapter 6.

ghost use Rattle.std.specs.Prelude.{◌≡◌, ◌+ℤ◌, ◌+◌, ◌<◌, ◌≤◌, ℕ, List, false, true, IfSome};
ghost use Rattle.std.specs.List.{list_any};
ghost use Rattle.t1_char.specs.declared.lines.DrawnPath.TheVariants.{Nothing, Open};
ghost use Rattle.t1_char.specs.declared.lines.Passing.TheVariants.{Returned, Moves};
ghost use Rattle.t1_char.specs.Arguments.{argument};
ghost use Rattle.t1_char.specs.Tokens.{more_of, token_at};
ghost use Rattle.t1_char.specs.Private.Taking.{IsLedBy};
ghost use Rattle.t1_char.specs.Private.Sums.{SumFits};
ghost use Rattle.t1_char.specs.Lines.{IsLed, IsWayNear, IsWithin, argument_reach, closed, drawn_after, further, is_far, is_line_command, is_move_command, leads, move_to, way_at, way_by, way_reach};

use crate::command::Command;

/// What becomes of the steps that come next.
#[derive(Clone, Copy)]
pub enum Passing {
    /// None: the machine returns at each.
    Returned,
    /// The machine passes numbers that the stack has room for.
    Numbers,
    /// And lines and curves with exactly their arguments, none past 32000, and a closepath right after these.
    Lines,
    /// And before the first line moves, with exactly their arguments, none past 32000.
    Moves,
}

/// Whether lines are passed.
#[inline(always)]
pub(crate) fn leads(passing: Passing) -> bool
    ensures { result ≡ leads passing }
{
    matches!(passing, Passing::Lines | Passing::Moves)
}

/// Whether moves are passed.
#[inline(always)]
pub(crate) fn is_moves(passing: Passing) -> bool
    ensures { result ≡ true → passing ≡ Moves }
{
    matches!(passing, Passing::Moves)
}

/// Whether steps are passed.
#[inline(always)]
pub(crate) fn is_any(passing: Passing) -> bool
    ensures { result ≡ true → passing ≡ Returned → ⊥ }
{
    !matches!(passing, Passing::Returned)
}

/// What steps draw of a path.
#[derive(Clone, Copy, Debug, PartialEq, Eq)]
pub enum DrawnPath {
    Nothing,
    /// Lines and curves.
    Open,
    /// Lines and curves, and the closepath after them.
    Closed,
}

/// How far steps lead together, in units of 1/65536, and what they draw.
#[derive(Clone, Copy, Debug, PartialEq, Eq)]
pub struct Way {
    pub x: i64,
    pub y: i64,
    /// How many moves there are.
    pub moves: u32,
    pub drawn: DrawnPath,
}

impl DrawnPath {
    /// What is drawn with this after it.
    #[inline(always)]
    fn further(self, other: DrawnPath) -> DrawnPath
        ensures { result ≡ drawn_after self other }
    {
        match other {
            DrawnPath::Nothing => self,
            _ => other,
        }
    }
}

impl Way {
    /// The way of no step.
    pub(crate) const NONE: Way = Way {
        x: 0,
        y: 0,
        moves: 0,
        drawn: DrawnPath::Nothing,
    };

    /// Returns this way with that of one more command after it.
    #[inline(always)]
    pub(crate) fn further(self, other: Way, count: u32) -> Way
        requires few { count < 16777216 }
        requires near { IsWayNear count self }
        requires moves { self.moves ≤ count }
        requires one { IsWayNear 1 other }
        requires once { other.moves ≤ 1 }
        ensures value { result ≡ further self other }
        ensures near { IsWayNear (count + 1) result }
        ensures moves { result.moves ≤ count + 1 }
    {
        Way {
            x: sum(self.x, other.x),
            y: sum(self.y, other.y),
            moves: self.moves + other.moves,
            drawn: self.drawn.further(other.drawn),
        }
    }

    /// Whether a line was drawn, and not closed.
    #[inline(always)]
    pub(crate) fn is_open(self) -> bool
        ensures { result ≡ true → self.drawn ≡ Open }
    {
        matches!(self.drawn, DrawnPath::Open)
    }

    /// Whether nothing was drawn.
    #[inline(always)]
    pub(crate) fn is_undrawn(self) -> bool
        ensures { result ≡ true → self.drawn ≡ Nothing }
    {
        matches!(self.drawn, DrawnPath::Nothing)
    }

    /// Returns this way with a closepath after it.
    #[inline(always)]
    pub(crate) fn closed(self) -> Way
        ensures { result ≡ closed self }
    {
        Way {
            x: self.x,
            y: self.y,
            moves: self.moves,
            drawn: DrawnPath::Closed,
        }
    }
}

/// How far the line or the curve leads that a byte alone writes, if it has just its arguments.
#[inline(always)]
pub(crate) fn line_at(first: u8, numbers: &[i64]) -> Option<Way>
    requires { list_any is_far numbers.now ≡ false }
    ensures line { IfSome result (λ way. (rest : List ℕ) → IsLedBy is_line_command (token_at first rest) numbers.now way) }
    ensures more { IfSome result (λ way. more_of first ≡ 0) }
    ensures near { IfSome result (λ way. IsWayNear 1 way) }
    ensures moves { IfSome result (λ way. way.moves ≡ 0) }
{
    match first {
        5 => line_way(Command::Rlineto, numbers),
        6 => line_way(Command::Hlineto, numbers),
        7 => line_way(Command::Vlineto, numbers),
        8 => line_way(Command::Rrcurveto, numbers),
        30 => line_way(Command::Vhcurveto, numbers),
        31 => line_way(Command::Hvcurveto, numbers),
        _ => None,
    }
}

/// How far a line or a curve leads, if it has just its arguments.
#[inline(always)]
fn line_way(command: Command, numbers: &[i64]) -> Option<Way>
    requires { list_any is_far numbers.now ≡ false }
    ensures line { IfSome result (λ way. IsLed is_line_command command numbers.now) }
    ensures value { IfSome result (λ way. way ≡ way_by command numbers.now) }
    ensures near { IfSome result (λ way. IsWayNear 1 way) }
    ensures moves { IfSome result (λ way. way.moves ≡ 0) }
{
    match command {
        Command::Rlineto if has_just_its_arguments(Command::Rlineto, numbers) => {
            Some(way_at(one(numbers, 0), one(numbers, 1)))
        }
        Command::Hlineto if has_just_its_arguments(Command::Hlineto, numbers) => {
            Some(way_at(one(numbers, 0), 0))
        }
        Command::Vlineto if has_just_its_arguments(Command::Vlineto, numbers) => {
            Some(way_at(0, one(numbers, 0)))
        }
        Command::Vhcurveto if has_just_its_arguments(Command::Vhcurveto, numbers) => {
            Some(way_at(two(numbers, 1, 3), two(numbers, 0, 2)))
        }
        Command::Hvcurveto if has_just_its_arguments(Command::Hvcurveto, numbers) => {
            Some(way_at(two(numbers, 0, 1), two(numbers, 2, 3)))
        }
        Command::Rrcurveto if has_just_its_arguments(Command::Rrcurveto, numbers) => {
            Some(way_at(three(numbers, 0, 2, 4), three(numbers, 1, 3, 5)))
        }
        _ => None,
    }
}

/// How far the move leads that a byte alone writes, if it has just its arguments.
#[inline(always)]
pub(crate) fn move_at(first: u8, numbers: &[i64]) -> Option<Way>
    requires { list_any is_far numbers.now ≡ false }
    ensures led { IfSome result (λ way. (rest : List ℕ) → IsLedBy is_move_command (token_at first rest) numbers.now way) }
    ensures more { IfSome result (λ way. more_of first ≡ 0) }
    ensures near { IfSome result (λ way. IsWayNear 1 way) }
    ensures moves { IfSome result (λ way. way.moves ≡ 1) }
{
    match first {
        4 => move_way(Command::Vmoveto, numbers),
        21 => move_way(Command::Rmoveto, numbers),
        22 => move_way(Command::Hmoveto, numbers),
        _ => None,
    }
}

/// How far a move leads, if it has just its arguments.
#[inline(always)]
fn move_way(command: Command, numbers: &[i64]) -> Option<Way>
    requires { list_any is_far numbers.now ≡ false }
    ensures led { IfSome result (λ way. IsLed is_move_command command numbers.now) }
    ensures value { IfSome result (λ way. way ≡ way_by command numbers.now) }
    ensures near { IfSome result (λ way. IsWayNear 1 way) }
    ensures moves { IfSome result (λ way. way.moves ≡ 1) }
{
    match command {
        Command::Rmoveto if has_just_its_arguments(Command::Rmoveto, numbers) => {
            Some(move_to(one(numbers, 0), one(numbers, 1)))
        }
        Command::Hmoveto if has_just_its_arguments(Command::Hmoveto, numbers) => {
            Some(move_to(one(numbers, 0), 0))
        }
        Command::Vmoveto if has_just_its_arguments(Command::Vmoveto, numbers) => {
            Some(move_to(0, one(numbers, 0)))
        }
        _ => None,
    }
}

#[inline(always)]
fn move_to(x: i64, y: i64) -> Way
    requires x { IsWithin way_reach x }
    requires y { IsWithin way_reach y }
    ensures value { result ≡ move_to x y }
    ensures near { IsWayNear 1 result }
{
    Way {
        x,
        y,
        moves: 1,
        drawn: DrawnPath::Nothing,
    }
}

#[inline(always)]
fn way_at(x: i64, y: i64) -> Way
    requires x { IsWithin way_reach x }
    requires y { IsWithin way_reach y }
    ensures value { result ≡ way_at x y }
    ensures near { IsWayNear 1 result }
{
    Way {
        x,
        y,
        moves: 0,
        drawn: DrawnPath::Open,
    }
}

#[inline(always)]
fn sum(one: i64, other: i64) -> i64
    requires { SumFits one other }
    ensures { result ≡ one +ℤ other }
{
    one + other
}

/// An argument: it needs not be kept within -32000 to 32000.
#[inline(always)]
#[tactic(auto, using(crate::proofs::NearNumbers::argument_is, crate::proofs::NearNumbers::argument_within))]
fn argument(numbers: &[i64], place: usize) -> i64
    requires { list_any is_far numbers.now ≡ false }
    ensures value { result ≡ argument numbers.now place }
    ensures within { IsWithin argument_reach result }
{
    match numbers.get(place) {
        Some(number) => *number,
        None => 0,
    }
}

#[inline(always)]
fn one(numbers: &[i64], place: usize) -> i64
    requires { list_any is_far numbers.now ≡ false }
    ensures value { result ≡ argument numbers.now place }
    ensures within { IsWithin way_reach result }
{
    argument(numbers, place)
}

#[inline(always)]
fn two(numbers: &[i64], one: usize, other: usize) -> i64
    requires { list_any is_far numbers.now ≡ false }
    ensures value { result ≡ argument numbers.now one +ℤ argument numbers.now other }
    ensures within { IsWithin way_reach result }
{
    sum(argument(numbers, one), argument(numbers, other))
}

#[inline(always)]
fn three(numbers: &[i64], one: usize, two: usize, three: usize) -> i64
    requires { list_any is_far numbers.now ≡ false }
    ensures value { result ≡ argument numbers.now one +ℤ argument numbers.now two +ℤ argument numbers.now three }
    ensures within { IsWithin way_reach result }
{
    sum(
        sum(argument(numbers, one), argument(numbers, two)),
        argument(numbers, three),
    )
}

/// Whether a command takes exactly so many numbers.
#[inline(always)]
fn has_just_its_arguments(command: Command, numbers: &[i64]) -> bool
    requires { list_any is_far numbers.now ≡ false }
    ensures line { result ≡ true → is_line_command command ≡ true → IsLed is_line_command command numbers.now }
    ensures moves { result ≡ true → is_move_command command ≡ true → IsLed is_move_command command numbers.now }
{
    match command.arguments() {
        Some(count) => usize::from(count) == numbers.len(),
        None => false,
    }
}
