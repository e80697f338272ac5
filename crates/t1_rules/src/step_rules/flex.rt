//! The rules on flex, X01 to X06: Type 1 Font Format 1.1, chapter 8.

ghost use Rattle.std.specs.Prelude.{◌≡◌, ◌≤ℤ◌, ◌+ℤ◌, ◌<◌, ◌+◌, ◌&&◌, ◌||◌, ◌==◌, not, ℕ, pos, negsuc, List, [], ◌∷◌, ◌++◌, length, true, false, if◌then◌else◌, suc};
ghost use Rattle.t1_char.specs.declared.command.Command.{Command as Commands};
ghost use Rattle.t1_char.specs.Arguments.{argument, is_callothersubr, is_flex_end, is_flex_point, is_flex_start, othersubr_call};
ghost use Rattle.t1_char.specs.Steps.{StepView};
ghost use Rattle.t1_char.specs.StepValues.{step_view};
ghost use Rattle.t1_rules.specs.Mask.{has};
ghost use Rattle.t1_rules.specs.StepRules.{breaks, flex_rules};
ghost use Rattle.t1_rules.specs.StepRules.Flex.{at, current_point, displacement, ends_away_from, flex_moves, flex_points, is_elsewhere, miscounts, moved_by, origin, plus, point_set};
ghost use Rattle.t1_rules.specs.StepRules.Paths.{in_flex};
ghost use Rattle.t1_rules.specs.StepRules.Tokens.{clears, is_move, is_pop, sets_point};
ghost use Rattle.t1_rules.specs.Private.Standing.{FlexStandsFor};
ghost use Rattle.t1_rules.specs.Watches.{IsNear, IsWithin, most_steps, reach};
ghost use Rattle.t1_rules.specs.Private.Quiet.{IsQuietForFlex};
ghost use Rattle.t1_rules.specs.Steady.{point_on};

use crate::mask::Mask;
use crate::rule::Rule;
use crate::step_rules::numbers::sum;
use crate::step_rules::tokens::{
    clears, ends_flex, gives_flex_point, is_command, is_hsbw, is_move, is_pop, is_setcurrentpoint,
    sets_point, starts_flex,
};
use crate::watch::Watch;
use t1_char::{CharToken, Command, Edition, OthersubrCall, Step, Way, is_callothersubr};

/// A point, in units of 1/65536.
#[derive(Clone, Copy, Debug, Default, PartialEq, Eq)]
pub struct Point {
    pub x: i64,
    pub y: i64,
}

/// Watches for X01 to X06.
#[derive(Clone, Copy, Debug, PartialEq, Eq)]
pub struct FlexWatcher {
    /// Whether a flex was started, and not ended since.
    in_flex: bool,
    /// How many moves came since the last start of a flex.
    moves: u32,
    /// How many points of a flex came since.
    points: u32,
    /// The current point.
    point: Point,
    /// Whether the last step ended a flex.
    ended: bool,
    /// Whether the last step was pop, and the one before it ended a flex.
    popped: bool,
    /// Whether the last two steps were pop, and the one before them ended a flex.
    popped_twice: bool,
}

impl Watch for FlexWatcher {
    ghost use Rattle.t1_rules.specs.StepRules.{flex_rules};
    ghost use Rattle.t1_rules.specs.Private.Standing.{FlexStandsFor};

    ghost stands_for = { λ edition. FlexStandsFor };

    ghost rules = { λ edition. flex_rules };

    fn start(_edition: Edition) -> FlexWatcher {
        FlexWatcher {
            in_flex: false,
            moves: 0,
            points: 0,
            point: Point { x: 0, y: 0 },
            ended: false,
            popped: false,
            popped_twice: false,
        }
    }

    #[inline(always)]
    fn see_known(&mut self, token: CharToken, call: OthersubrCall, step: &Step) -> Mask {
        let broken = self.faults(token, call, step);
        self.go_on(token, call, step);
        broken
    }

    fn see(&mut self, step: &Step) -> Mask {
        self.see_known(step.token, step.othersubr_call(), step)
    }
}

impl FlexWatcher {
    /// The current point after the steps that were seen: where X05 requires a flex to end.
    #[inline(always)]
    pub fn point(&self) -> Point
        ensures value { (before : List StepView) → FlexStandsFor self.now before → result ≡ current_point before }
        ensures near { (before : List StepView) → FlexStandsFor self.now before → IsNear (length before) result }
    {
        self.point
    }

    /// Whether a flex was started, and not ended since.
    #[inline(always)]
    pub fn is_in_flex(&self) -> bool
        ensures { (before : List StepView) → FlexStandsFor self.now before → result ≡ in_flex before }
    {
        self.in_flex
    }

    /// How many moves came since the last start of a flex: X04 counts them.
    #[inline(always)]
    pub fn moves(&self) -> u32
        ensures { (before : List StepView) → FlexStandsFor self.now before → result ≡ flex_moves before }
    {
        self.moves
    }

    /// How many points of a flex came since its last start.
    #[inline(always)]
    pub fn points(&self) -> u32
        ensures { (before : List StepView) → FlexStandsFor self.now before → result ≡ flex_points before }
    {
        self.points
    }

    /// Whether the last steps neither ended a flex nor took a pop after that.
    #[inline(always)]
    pub(crate) fn is_calm(&self) -> bool
        ensures ended { result ≡ true → self.now.ended ≡ false }
        ensures popped { result ≡ true → self.now.popped ≡ false }
        ensures popped_twice { result ≡ true → self.now.popped_twice ≡ false }
    {
        !(self.ended | (self.popped | self.popped_twice))
    }

    /// Whether no flex was started, or it was ended since.
    #[inline(always)]
    pub(crate) fn is_steady(&self) -> bool
        ensures { result ≡ true → self.now.in_flex ≡ false }
    {
        !self.in_flex
    }

    /// Counts moves.
    #[inline(always)]
    pub(crate) fn count_moves(&mut self, count: u32)
        requires { self.old.moves + count < most_steps }
        ensures { self.new ≡ record self.old { moves = self.old.moves + count } }
    {
        self.moves += count;
    }

    /// Moves the current point on.
    #[inline(always)]
    pub(crate) fn go(&mut self, way: Way)
        requires { (n : ℕ) × (IsNear n (point_on self.old.point way) × (n < most_steps)) }
        ensures { self.new ≡ record self.old { point = point_on self.old.point way } }
    {
        self.point = Point {
            x: sum(self.point.x, way.x),
            y: sum(self.point.y, way.y),
        };
    }

    /// Leads the current point to another.
    #[inline(always)]
    pub(crate) fn lead_to(&mut self, point: Point)
        ensures { self.new ≡ record self.old { point = point } }
    {
        self.point = point;
    }

    /// What a step breaks.
    #[inline(always)]
    #[tactic(auto, unfolding(crate::specs::StepRules::flex_rules))]
    fn faults(&self, token: CharToken, call: OthersubrCall, step: &Step) -> Mask
        requires token { step.now.token ≡ token }
        requires call { call ≡ othersubr_call (step_view step.now) }
        requires steps { (before : List StepView) × (FlexStandsFor self.now before × (length before < most_steps)) }
        ensures { (before : List StepView) → FlexStandsFor self.now before →
            (n : ℕ) → has result n ≡ breaks flex_rules n before (step_view step.now) }
    {
        if is_quiet(token) && !self.in_flex {
            return Mask::empty();
        }
        Mask::empty()
            .with(Rule::X06, is_setcurrentpoint(token) & !self.popped_twice)
            .with(
                Rule::X05,
                ends_away_from(self.point, call, step) & self.in_flex,
            )
            .with(
                Rule::X04,
                miscounts(self.moves, self.points, call, step) & self.in_flex,
            )
            .with(Rule::X03, clears(token) & !is_move(token) & self.in_flex)
            .with(
                Rule::X02,
                (gives_flex_point(call, step) | ends_flex(call, step)) & !self.in_flex,
            )
            .with(Rule::X01, starts_flex(call, step) & self.in_flex)
    }

    /// Keeps what the step changes.
    #[inline(always)]
    fn go_on(&mut self, token: CharToken, call: OthersubrCall, step: &Step)
        requires token { step.now.token ≡ token }
        requires call { call ≡ othersubr_call (step_view step.now) }
        requires steps { (before : List StepView) × (FlexStandsFor self.old before × (length before < most_steps)) }
        ensures { (before : List StepView) → FlexStandsFor self.old before → length before < most_steps →
            FlexStandsFor self.new (before ++ step_view step.now ∷ []) }
    {
        if !is_command(token) {
            self.ended = false;
            self.popped = false;
            self.popped_twice = false;
            return;
        }
        let point = next_point(self.point, token, step);
        let pops = is_pop(token);
        self.popped_twice = pops & self.popped;
        self.popped = pops & self.ended;
        self.ended = ends_flex(call, step);
        self.moves = counted(call, step, self.moves, is_move(token));
        self.points = counted(call, step, self.points, gives_flex_point(call, step));
        self.in_flex = starts_flex(call, step) | (self.in_flex & !self.ended);
        self.point = point;
    }
}

/// Whether outside flex none of these rules speaks of a token.
#[inline(always)]
fn is_quiet(token: CharToken) -> bool
    ensures { result ≡ true → IsQuietForFlex token }
{
    !(is_callothersubr(token) | is_setcurrentpoint(token))
}

/// A count since the last start of a flex, with one more where the step is counted.
#[inline(always)]
fn counted(call: OthersubrCall, step: &Step, count: u32, is_one: bool) -> u32
    requires call { call ≡ othersubr_call (step_view step.now) }
    requires count { count < most_steps }
    ensures { result ≡ (if is_flex_start (step_view step.now) then 0 else (if is_one then suc count else count)) }
{
    if starts_flex(call, step) {
        0
    } else if is_one {
        count + 1
    } else {
        count
    }
}

/// Whether a point doesn't come after its move, or the end after seven of each.
#[inline(always)]
fn miscounts(moves: u32, points: u32, call: OthersubrCall, step: &Step) -> bool
    requires call { call ≡ othersubr_call (step_view step.now) }
    requires points { points < most_steps }
    ensures { result ≡ miscounts moves points (step_view step.now) }
{
    (gives_flex_point(call, step) & (moves != points + 1))
        | (ends_flex(call, step) & !((moves == 7) & (points == 7)))
}

/// Whether the step ends a flex, and not at this point.
fn ends_away_from(point: Point, call: OthersubrCall, step: &Step) -> bool
    requires call { call ≡ othersubr_call (step_view step.now) }
    ensures { result ≡ ends_away_from point (step_view step.now) }
{
    if step.stack.len() < 5 {
        return false;
    }
    let end = Point {
        x: step.stack.from_top(3),
        y: step.stack.from_top(2),
    };
    ends_flex(call, step) & is_elsewhere(end, point)
}

fn is_elsewhere(one: Point, other: Point) -> bool
    ensures { result ≡ is_elsewhere one other }
{
    (one.x != other.x) | (one.y != other.y)
}

/// The current point after a step.
#[inline(always)]
fn next_point(point: Point, token: CharToken, step: &Step) -> Point
    requires token { step.now.token ≡ token }
    requires near { (n : ℕ) × (IsNear n point × (n < most_steps)) }
    ensures value { result ≡ (if sets_point step.now.token then point_set (step_view step.now)
        else plus point (displacement (step_view step.now))) }
    ensures near { (n : ℕ) → IsNear n point → IsNear (n + 1) result }
{
    if sets_point(token) {
        return point_set(token, step);
    }
    plus(point, displacement(token, step))
}

/// Where a command sets the current point.
fn point_set(token: CharToken, step: &Step) -> Point
    requires token { step.now.token ≡ token }
    ensures value { result ≡ point_set (step_view step.now) }
    ensures near { IsNear 1 result }
{
    if is_hsbw(token) {
        return at(step.argument(0), 0);
    }
    at(step.argument(0), step.argument(1))
}

/// How far a step moves the current point.
#[inline(always)]
fn displacement(token: CharToken, step: &Step) -> Point
    requires token { step.now.token ≡ token }
    ensures value { result ≡ displacement (step_view step.now) }
    ensures near { IsNear 1 result }
{
    match token {
        CharToken::Command(command) => moved_by(command, step),
        _ => at(0, 0),
    }
}

/// How far a command moves the current point.
#[inline(always)]
fn moved_by(command: Command, step: &Step) -> Point
    ensures value { result ≡ moved_by command step.now.stack }
    ensures near { IsNear 1 result }
{
    match command {
        Command::Rmoveto | Command::Rlineto => at(step.argument(0), step.argument(1)),
        Command::Hmoveto | Command::Hlineto => at(step.argument(0), 0),
        Command::Vmoveto | Command::Vlineto => at(0, step.argument(0)),
        Command::Vhcurveto => Point {
            x: sum_of_two(step.argument(1), step.argument(3)),
            y: sum_of_two(step.argument(0), step.argument(2)),
        },
        Command::Hvcurveto => Point {
            x: sum_of_two(step.argument(0), step.argument(1)),
            y: sum_of_two(step.argument(2), step.argument(3)),
        },
        Command::Rrcurveto => Point {
            x: sum_of_three(step.argument(0), step.argument(2), step.argument(4)),
            y: sum_of_three(step.argument(1), step.argument(3), step.argument(5)),
        },
        _ => at(0, 0),
    }
}

fn at(x: i32, y: i32) -> Point
    ensures value { result ≡ at x y }
    ensures near { IsNear 1 result }
{
    Point {
        x: i64::from(x),
        y: i64::from(y),
    }
}

fn plus(point: Point, way: Point) -> Point
    requires point { (n : ℕ) × (IsNear n point × (n < most_steps)) }
    requires way { IsNear 1 way }
    ensures value { result ≡ plus point way }
    ensures near { (n : ℕ) → IsNear n point → IsNear (n + 1) result }
{
    Point {
        x: sum(point.x, way.x),
        y: sum(point.y, way.y),
    }
}

fn sum_of_two(one: i32, other: i32) -> i64
    ensures value { result ≡ one +ℤ other }
    ensures within { IsWithin reach result }
{
    sum(i64::from(one), i64::from(other))
}

fn sum_of_three(one: i32, two: i32, three: i32) -> i64
    ensures value { result ≡ one +ℤ two +ℤ three }
    ensures within { IsWithin reach result }
{
    sum(sum_of_two(one, two), i64::from(three))
}
