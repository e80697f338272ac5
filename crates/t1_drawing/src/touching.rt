//! Stems that nothing touches, H08: Type 1 Font Format 1.1, chapter 5.

ghost use Rattle.std.specs.Prelude.{◌≡◌, ◌+◌, ◌≤◌, true, count_by, find, option_map, ◌||◌, ◌+ℤ◌, nat_le, length, Some, List, [], ◌∷◌, ◌++◌, map, not};
ghost use Rattle.std.specs.List.{list_any};
ghost use Rattle.t1_char.specs.Steps.{StepView};
ghost use Rattle.t1_char.specs.StepValues.{step_view};
ghost use Rattle.t1_drawing.specs.Touching.{coordinate, curve_extent, extent_by, extent_from, first_untouched, high_edge, is_between, is_stroke_by, leaves_untouched, line_extent, low_edge, stems_set, touches_edge, touches_one, widened};
ghost use Rattle.t1_drawing.specs.Private.Standing.{TouchesStandFor};
ghost use Rattle.t1_drawing.specs.declared.touching.Extent.{Extent as Extents};
ghost use Rattle.t1_drawing.specs.Private.Watching.{IsDone, IsReach, SetsNothing, above, all_touched, below, draw_on, drawing_in, draws_on, has_edges, is_left, left_as, point_in, point_on, reach_between, touched_by, with_edges, with_stem_from, with_stems_from};
ghost use Rattle.t1_outline.specs.Outlines.{drawn};
ghost use Rattle.t1_drawing.specs.declared.direction.Direction.TheVariants.{Across, Upright};
ghost use Rattle.t1_rules.specs.StepRules.Stems.{most_stems, stems_of};
ghost use Rattle.t1_rules.specs.StepRules.Tokens.{is_hsbw};

use crate::direction::Direction;
use crate::points::end_of;
use arrayvec::ArrayVec;
use t1_char::{CharToken, Command, Step, UNIT};
use t1_outline::Segment;
use t1_rules::{
    MOST_STEMS, Point, Stem, is_triple, lies_across, sets_width, stands_upright, stem_at,
    three_stems,
};

/// How far an edge may lie from an end of a line or a curve that touches it: ten units.
const NEAR: i64 = 10 * UNIT as i64;

/// In a coordinate: where a line or a curve begins and ends, and the least and the greatest of all its points.
#[derive(Clone, Copy)]
pub(crate) struct Extent {
    start: i64,
    end: i64,
    least: i64,
    greatest: i64,
}

/// Which edges a line or a curve touches: those from the lowest to the low one, and those from the high to the highest one.
#[derive(Clone, Copy)]
pub(crate) struct Reach {
    lowest: i64,
    low: i64,
    high: i64,
    highest: i64,
}

/// A stem by its edges, in units of 1/65536, and whether something touched it since it was set.
#[derive(Clone, Copy, Debug, Default, PartialEq, Eq)]
pub(crate) struct WatchedStem {
    low: i64,
    high: i64,
    touched: bool,
}

/// A stem that nothing touches, by its edges in units of 1/65536.
#[derive(Clone, Copy, Debug, PartialEq, Eq)]
pub struct UntouchedStem {
    pub direction: Direction,
    pub low: i64,
    pub high: i64,
    /// How many more such stems the glyph has.
    pub more: usize,
}

/// Stems of one direction.
pub(crate) type WatchedStems = ArrayVec<WatchedStem, MOST_STEMS>;

/// The sidebearing point, in units of 1/65536.
#[derive(Clone, Copy)]
struct Sidebearing {
    x: i32,
    y: i32,
}

/// Watches for H08.
#[derive(Drop)]
pub(crate) struct TouchWatcher {
    pub(crate) across: WatchedStems,
    pub(crate) upright: WatchedStems,
    sidebearing: Sidebearing,
    /// Where the last segment ended, unless it is closepath: there the next line or curve begins.
    end: Option<Point>,
    /// Whether a line or a curve was drawn.
    has_strokes: bool,
    /// Whether all stems that lie across are known to be touched, and all upright ones. Only speed depends on it.
    pub(crate) across_done: bool,
    pub(crate) upright_done: bool,
}

/// What is ten units below a coordinate, as far as there are coordinates.
fn below(place: i64) -> i64
    ensures { result ≡ below place }
{
    place.saturating_sub(NEAR)
}

/// What is ten units above it.
fn above(place: i64) -> i64
    ensures { result ≡ above place }
{
    place.saturating_add(NEAR)
}

pub(crate) fn is_between(low: i64, place: i64, high: i64) -> bool
    ensures { result ≡ is_between low place high }
{
    (low <= place) & (place <= high)
}

fn line_extent(start: i64, end: i64) -> Extent
    ensures { result ≡ line_extent start end }
{
    Extent {
        start,
        end,
        least: start.min(end),
        greatest: start.max(end),
    }
}

impl Direction {
    fn line(self, start: Point, end: Point) -> Extent
        ensures { result ≡ line_extent (coordinate self start) (coordinate self end) }
    {
        line_extent(self.coordinate(start), self.coordinate(end))
    }

    fn curve(self, start: Point, one: Point, two: Point, end: Point) -> Extent
        ensures { result ≡ curve_extent (coordinate self start) (coordinate self one) (coordinate self two) (coordinate self end) }
    {
        self.line(start, end)
            .widened(self.coordinate(one))
            .widened(self.coordinate(two))
    }

    /// The extent of a line or a curve that begins at a point.
    fn extent_from(self, start: Point, segment: &Segment) -> Option<Extent>
        ensures { result ≡ extent_from (coordinate self) start segment.now }
    {
        match segment {
            Segment::Line(end) => Some(self.line(start, *end)),
            Segment::Curve(one, two, end) => Some(self.curve(start, *one, *two, *end)),
            Segment::Move(_) | Segment::Close => None,
        }
    }

    pub(crate) fn extent(self, start: Option<Point>, segment: &Segment) -> Option<Extent>
        ensures { result ≡ extent_by (coordinate self) start segment.now }
    {
        match start {
            Some(start) => self.extent_from(start, segment),
            None => None,
        }
    }
}

/// The edges near two ends, and those from the ends to the least and the greatest point.
fn reach_between(least: i64, low: i64, high: i64, greatest: i64) -> Reach
    ensures { result ≡ reach_between least low high greatest }
{
    Reach {
        lowest: least.min(below(low)),
        low: above(low),
        high: below(high),
        highest: greatest.max(above(high)),
    }
}

impl Extent {
    /// With a point more.
    fn widened(self, place: i64) -> Extent
        ensures { result ≡ widened self place }
    {
        Extent {
            least: self.least.min(place),
            greatest: self.greatest.max(place),
            ..self
        }
    }

    /// The edges that are near an end, or where the curve may have its extreme, between an end and its points.
    pub(crate) fn reach(self) -> Reach
        ensures { IsReach self result }
    {
        let low = self.start.min(self.end);
        let high = self.start.max(self.end);
        reach_between(self.least, low, high, self.greatest)
    }
}

impl Reach {
    fn touches(self, edge: i64) -> bool
        ensures { (e : Extents) → IsReach e self → result ≡ touches_edge e edge }
    {
        is_between(self.lowest, edge, self.low) | is_between(self.high, edge, self.highest)
    }

    /// Whether an edge of a stem is touched.
    pub(crate) fn touches_one(self, low: i64, high: i64) -> bool
        ensures { (e : Extents) → IsReach e self → result ≡ touches_one (Some e) low high }
    {
        self.touches(low) | self.touches(high)
    }
}

impl WatchedStem {
    /// Sees a line or a curve more. Returns whether the stem is touched now.
    #[inline(always)]
    fn see(&mut self, reach: Reach) -> bool
        ensures stem { (e : Extents) → IsReach e reach → self.new ≡ touched_by (Some e) self.old }
        ensures touched { result ≡ self.new.touched }
    {
        if self.touched {
            return true;
        }
        self.touched = reach.touches_one(self.low, self.high);
        self.touched
    }

    fn has_edges(self, low: i64, high: i64) -> bool
        ensures { result ≡ has_edges low high self }
    {
        low == self.low && high == self.high
    }
}

/// Stems that something is drawn beside. Returns whether all are touched now.
fn touch_all(stems: &mut [WatchedStem], extent: Extent) -> bool
    ensures stems { stems.new ≡ map (touched_by (Some extent)) stems.old }
    ensures all { result ≡ true → all_touched stems.new ≡ true }
{
    let reach = extent.reach();
    let mut all = true;
    for stem in stems.iter_mut() {
        all = stem.see(reach) & all;
    }
    all
}

/// The same of a segment that may be no line and no curve: then it isn't known.
fn touch(
    stems: &mut WatchedStems,
    direction: Direction,
    start: Option<Point>,
    segment: &Segment,
) -> bool
    ensures stems { stems.new.items ≡ map (touched_by (extent_by (coordinate direction) start segment.now)) stems.old.items }
    ensures all { result ≡ true → all_touched stems.new.items ≡ true }
{
    match direction.extent(start, segment) {
        Some(extent) => touch_all(stems.as_mut_slice(), extent),
        None => false,
    }
}

/// The same where stems may be known to be touched, and what is known after it.
#[inline(always)]
fn touch_on(
    stems: &mut WatchedStems,
    are_done: &mut bool,
    direction: Direction,
    start: Option<Point>,
    segment: &Segment,
)
    requires { are_done.old ≡ true → all_touched stems.old.items ≡ true }
    ensures stems { stems.new.items ≡ map (touched_by (extent_by (coordinate direction) start segment.now)) stems.old.items }
    ensures done { are_done.new ≡ true → all_touched stems.new.items ≡ true }
{
    if *are_done {
        return;
    }
    *are_done = touch(stems, direction, start, segment);
}

fn is_stroke(segment: Segment) -> bool
    ensures { result ≡ is_stroke_by segment }
{
    matches!(segment, Segment::Line(_) | Segment::Curve(..))
}

/// Whether a stem of these edges is there.
fn has(stems: &[WatchedStem], low: i64, high: i64) -> bool
    ensures { result ≡ list_any (has_edges low high) stems.now }
{
    stems.iter().any(|stem| stem.has_edges(low, high))
}

/// Whether a stem of these edges is there, or there is no room for another.
fn takes_none(stems: &[WatchedStem], low: i64, high: i64) -> bool
    ensures { result ≡ (list_any (has_edges low high) stems.now || nat_le most_stems (length stems.now)) }
{
    has(stems, low, high) | (stems.len() >= MOST_STEMS)
}

/// Adds a stem, if its edges aren't there and there is room.
pub(crate) fn add(stems: &mut WatchedStems, low: i64, high: i64)
    ensures { stems.new.items ≡ with_edges stems.old.items low high }
{
    if takes_none(stems.as_slice(), low, high) {
        return;
    }
    stems.push(WatchedStem {
        low,
        high,
        touched: false,
    });
}

/// Where a stem begins that counts from a place.
fn begin(start: i32, stem: Stem) -> i64
    ensures { result ≡ start +ℤ stem.position }
{
    i64::from(start) + i64::from(stem.position)
}

/// Where it ends.
fn end(start: i32, stem: Stem) -> i64
    ensures { result ≡ (start +ℤ stem.position) +ℤ stem.width }
{
    i64::from(start) + i64::from(stem.position) + i64::from(stem.width)
}

/// The lower or the left edge.
fn low_edge(start: i32, stem: Stem) -> i64
    ensures { result ≡ low_edge start stem }
{
    begin(start, stem).min(end(start, stem))
}

/// The upper or the right one.
fn high_edge(start: i32, stem: Stem) -> i64
    ensures { result ≡ high_edge start stem }
{
    begin(start, stem).max(end(start, stem))
}

fn add_from(stems: &mut WatchedStems, start: i32, stem: Stem)
    ensures { stems.new.items ≡ with_stem_from start stems.old.items stem }
{
    add(stems, low_edge(start, stem), high_edge(start, stem));
}

/// Adds the stems that a step sets.
fn add_own(stems: &mut WatchedStems, start: i32, step: &Step)
    ensures { stems.new.items ≡ with_stems_from start stems.old.items (stems_of (step_view step.now)) }
{
    if is_triple(step.token) {
        let [one, two, three] = three_stems(step);
        add_from(stems, start, one);
        add_from(stems, start, two);
        add_from(stems, start, three);
    } else {
        add_from(stems, start, stem_at(step, 0));
    }
}

/// Whether a token is hsbw, which has no y.
fn is_hsbw(token: CharToken) -> bool
    ensures { result ≡ is_hsbw token }
{
    matches!(token, CharToken::Command(Command::Hsbw))
}

impl Sidebearing {
    /// That of the last hsbw or sbw.
    fn after(self, step: &Step) -> Sidebearing
        ensures { point_in result ≡ point_on (point_in self) (step_view step.now) }
    {
        if !sets_width(step.token) {
            self
        } else if is_hsbw(step.token) {
            Sidebearing {
                x: step.argument(0),
                y: 0,
            }
        } else {
            Sidebearing {
                x: step.argument(0),
                y: step.argument(1),
            }
        }
    }
}

impl TouchWatcher {
    /// Before the first step.
    pub(crate) fn start() -> TouchWatcher
        ensures { TouchesStandFor result [] }
    {
        TouchWatcher {
            across: ArrayVec::new(),
            upright: ArrayVec::new(),
            sidebearing: Sidebearing { x: 0, y: 0 },
            end: None,
            has_strokes: false,
            across_done: true,
            upright_done: true,
        }
    }

    /// Before the first step again, in place.
    pub(crate) fn start_again(&mut self)
        ensures { TouchesStandFor self.new [] }
    {
        self.across.clear();
        self.upright.clear();
        self.sidebearing = Sidebearing { x: 0, y: 0 };
        self.end = None;
        self.has_strokes = false;
        self.across_done = true;
        self.upright_done = true;
    }

    /// Sees the next step, and what it draws.
    pub(crate) fn see(&mut self, step: &Step, segments: &[Segment])
        requires { IsDone self.old }
        ensures { (before : List StepView) → TouchesStandFor self.old before → segments.now ≡ drawn before (step_view step.now) →
            TouchesStandFor self.new (before ++ step_view step.now ∷ []) }
    {
        self.draw_all(segments);
        self.set(step);
        self.sidebearing = self.sidebearing.after(step);
    }

    /// The same of a step that draws a line or a curve alone, and sets nothing.
    #[inline(always)]
    pub(crate) fn see_stroke(&mut self, _step: &Step, segment: Segment)
        requires { IsDone self.old }
        ensures { (before : List StepView) → TouchesStandFor self.old before → drawn before (step_view _step.now) ≡ segment ∷ [] →
            SetsNothing (step_view _step.now) → TouchesStandFor self.new (before ++ step_view _step.now ∷ []) }
    {
        self.draw(segment);
    }

    /// Whether something is drawn, and a stem isn't touched: at the end of a glyph this breaks H08.
    pub(crate) fn leaves_untouched(&self) -> bool
        ensures { (before : List StepView) → TouchesStandFor self.now before → result ≡ leaves_untouched before }
    {
        let across = one_is_untouched(self.across.as_slice());
        let upright = one_is_untouched(self.upright.as_slice());
        self.has_strokes & (across | upright)
    }

    /// The first stem that isn't touched, those that lie across before upright ones, and how many more there are.
    pub(crate) fn first_untouched(&self) -> Option<UntouchedStem>
        ensures { (before : List StepView) → TouchesStandFor self.now before → result ≡ first_untouched before }
    {
        let count = together(
            count_untouched(self.across.as_slice()),
            count_untouched(self.upright.as_slice()),
        );
        first_in(self.across.as_slice(), Direction::Across, count).or(first_in(
            self.upright.as_slice(),
            Direction::Upright,
            count,
        ))
    }

    pub(crate) fn draw_all(&mut self, segments: &[Segment])
        requires { IsDone self.old }
        ensures drawing { drawing_in self.new ≡ draws_on (drawing_in self.old) segments.now }
        ensures sidebearing { self.new.sidebearing ≡ self.old.sidebearing }
        ensures done { IsDone self.new }
    {
        for segment in segments {
            self.draw(*segment);
        }
    }

    fn draw(&mut self, segment: Segment)
        requires { IsDone self.old }
        ensures drawing { drawing_in self.new ≡ draw_on (drawing_in self.old) segment }
        ensures sidebearing { self.new.sidebearing ≡ self.old.sidebearing }
        ensures done { IsDone self.new }
    {
        self.touch(&segment);
        self.end = end_of(segment);
        self.has_strokes = self.has_strokes | is_stroke(segment);
    }

    /// Touches stems with a segment, where one isn't touched yet.
    fn touch(&mut self, segment: &Segment)
        requires { IsDone self.old }
        ensures across { self.new.across.items ≡ map (touched_by (extent_by (coordinate Across) self.old.end segment.now)) self.old.across.items }
        ensures upright { self.new.upright.items ≡ map (touched_by (extent_by (coordinate Upright) self.old.end segment.now)) self.old.upright.items }
        ensures end { self.new.end ≡ self.old.end }
        ensures has_strokes { self.new.has_strokes ≡ self.old.has_strokes }
        ensures sidebearing { self.new.sidebearing ≡ self.old.sidebearing }
        ensures done { IsDone self.new }
    {
        touch_on(
            &mut self.across,
            &mut self.across_done,
            Direction::Across,
            self.end,
            segment,
        );
        touch_on(
            &mut self.upright,
            &mut self.upright_done,
            Direction::Upright,
            self.end,
            segment,
        );
    }

    fn set(&mut self, step: &Step)
        ensures across { self.new.across.items ≡ with_stems_from self.old.sidebearing.y self.old.across.items (stems_set Across (step_view step.now)) }
        ensures upright { self.new.upright.items ≡ with_stems_from self.old.sidebearing.x self.old.upright.items (stems_set Upright (step_view step.now)) }
        ensures sidebearing { self.new.sidebearing ≡ self.old.sidebearing }
        ensures end { self.new.end ≡ self.old.end }
        ensures has_strokes { self.new.has_strokes ≡ self.old.has_strokes }
        ensures done { IsDone self.old → IsDone self.new }
    {
        if lies_across(step.token) {
            add_own(&mut self.across, self.sidebearing.y, step);
            self.across_done = false;
        } else if stands_upright(step.token) {
            add_own(&mut self.upright, self.sidebearing.x, step);
            self.upright_done = false;
        }
    }
}

fn one_is_untouched(stems: &[WatchedStem]) -> bool
    ensures { result ≡ list_any (λ stem. not stem.touched) stems.now }
{
    stems.iter().any(|stem| !stem.touched)
}

fn count_untouched(stems: &[WatchedStem]) -> usize
    ensures value { result ≡ count_by is_left stems.now }
    ensures few { result ≤ length stems.now }
{
    stems.iter().filter(|stem| !stem.touched).count()
}

fn together(across: usize, upright: usize) -> usize
    requires across { across ≤ most_stems }
    requires upright { upright ≤ most_stems }
    ensures { result ≡ across + upright }
{
    across + upright
}

/// The first of so many stems that isn't touched.
fn first_in(stems: &[WatchedStem], direction: Direction, count: usize) -> Option<UntouchedStem>
    ensures { result ≡ option_map (left_as direction count) (find is_left stems.now) }
{
    let stem = stems.iter().find(|stem| !stem.touched)?;
    Some(UntouchedStem {
        direction,
        low: stem.low,
        high: stem.high,
        more: count.saturating_sub(1),
    })
}
