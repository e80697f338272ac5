//! What reasons say of the steps before one: where the open path begins and ends, and which steps were the last of their kinds.

ghost use Rattle.std.specs.Prelude.{◌≡◌, ◌&&◌, ◌||◌, not, Some, if◌then◌else◌};
ghost use Rattle.t1_char.specs.StepValues.{step_view};
ghost use Rattle.t1_reasons.specs.Backgrounds.{background_after, draws_in, ends_path_in, first_stem, is_in_flex_after, moves_in, outlines_in, set_three};
ghost use Rattle.t1_rules.specs.StepRules.Counters.{ends_counting, is_told};
ghost use Rattle.t1_rules.specs.StepRules.Othersubrs.{calls_by_numbers};

use crate::hint_sets::set_stem;
use crate::reason::SetStem;
use t1_char::{Step, is_callothersubr};
use t1_rules::{
    Point, Triple, clears, closes, ends_counting, is_hstem, is_hstem3, is_line, is_move, is_stem,
    is_vstem, is_vstem3, sets_width, triple_of,
};

/// The points and the steps that reasons tell of.
#[derive(Clone, Copy)]
pub(crate) struct Background {
    /// Where the open path begins.
    pub(crate) start: Point,
    /// Where the last step that drew left the pen.
    pub(crate) end: Point,
    /// Where the last step outside flex left the pen.
    outer_point: Point,
    /// Whether something was drawn since the last closepath or move outside flex.
    is_begun: bool,
    /// The last closepath.
    pub(crate) closed: Option<u32>,
    /// The last move outside flex.
    pub(crate) moved: Option<u32>,
    /// The last step that drew a line, a curve or a flex.
    pub(crate) drawn: Option<u32>,
    /// The last start of a flex.
    pub(crate) flex: Option<u32>,
    /// The last hsbw or sbw.
    pub(crate) width: Option<u32>,
    /// The last step that made a part of an outline.
    pub(crate) outlined: Option<u32>,
    /// The last command that empties the stack or call of an OtherSubr.
    pub(crate) told: Option<u32>,
    /// The last end of counter control.
    pub(crate) counted: Option<u32>,
    /// The stem of the last hstem.
    pub(crate) hstem: Option<SetStem>,
    /// The stems of the last hstem3.
    pub(crate) hstem3: Option<SetTriple>,
    /// The stem of the last vstem.
    pub(crate) vstem: Option<SetStem>,
    /// The stems of the last vstem3.
    pub(crate) vstem3: Option<SetTriple>,
}

/// Three stems of a command, and the step that set them.
#[derive(Clone, Copy)]
pub(crate) struct SetTriple {
    pub(crate) triple: Triple,
    pub(crate) step: u32,
}

impl Background {
    /// The background before the first step.
    pub(crate) const EMPTY: Background = Background {
        start: Point { x: 0, y: 0 },
        end: Point { x: 0, y: 0 },
        outer_point: Point { x: 0, y: 0 },
        is_begun: false,
        closed: None,
        moved: None,
        drawn: None,
        flex: None,
        width: None,
        outlined: None,
        told: None,
        counted: None,
        hstem: None,
        hstem3: None,
        vstem: None,
        vstem3: None,
    };

    /// The background after a step, by whether that is in flex, its number, and where it leaves the pen.
    pub(crate) fn after(self, step: &Step, in_flex: bool, number: u32, pen: Point) -> Background
        ensures { result ≡ background_after self in_flex number pen (step_view step.now) }
    {
        let draws = draws_in(step, in_flex);
        let begins = draws & !self.is_begun;
        Background {
            start: point_after(self.start, begins, self.outer_point),
            end: point_after(self.end, draws, pen),
            outer_point: point_after(pen, is_in_flex_after(step, in_flex), self.outer_point),
            is_begun: draws | (self.is_begun & !ends_path_in(step, in_flex)),
            closed: last(self.closed, closes(step.token), number),
            moved: last(self.moved, moves_in(step, in_flex), number),
            drawn: last(self.drawn, draws, number),
            flex: last(self.flex, step.starts_flex(), number),
            width: last(self.width, sets_width(step.token), number),
            outlined: last(self.outlined, outlines_in(step, in_flex), number),
            told: last(self.told, is_told(step), number),
            counted: last(self.counted, is_counted(step), number),
            hstem: last_stem(self.hstem, is_hstem(step.token), step, number),
            hstem3: last_three(self.hstem3, is_hstem3(step.token), step, number),
            vstem: last_stem(self.vstem, is_vstem(step.token), step, number),
            vstem3: last_three(self.vstem3, is_vstem3(step.token), step, number),
        }
    }
}

/// Whether a step draws, being in flex or not.
fn draws_in(step: &Step, in_flex: bool) -> bool
    ensures { result ≡ draws_in in_flex (step_view step.now) }
{
    is_line(step.token) | (step.ends_flex() & in_flex)
}

/// Whether a step moves, being in flex or not.
fn moves_in(step: &Step, in_flex: bool) -> bool
    ensures { result ≡ moves_in in_flex (step_view step.now) }
{
    is_move(step.token) & !in_flex
}

/// Whether the next step that draws begins a path, where a step is in flex or not.
fn ends_path_in(step: &Step, in_flex: bool) -> bool
    ensures { result ≡ ends_path_in in_flex (step_view step.now) }
{
    moves_in(step, in_flex) | closes(step.token)
}

/// Whether the step after a step is in flex, where that is or isn't.
fn is_in_flex_after(step: &Step, in_flex: bool) -> bool
    ensures { result ≡ is_in_flex_after in_flex (step_view step.now) }
{
    step.starts_flex() | (in_flex & !step.ends_flex())
}

/// Whether a step makes a part of an outline, being in flex or not.
fn outlines_in(step: &Step, in_flex: bool) -> bool
    ensures { result ≡ outlines_in in_flex (step_view step.now) }
{
    is_move(step.token) | (draws_in(step, in_flex) | (is_stem(step.token) | closes(step.token)))
}

/// Whether a step is a command that empties the stack, or a call of an OtherSubr.
fn is_told(step: &Step) -> bool
    ensures { result ≡ is_told (step_view step.now) }
{
    clears(step.token) | calls_by_numbers(step)
}

/// Whether a step calls an OtherSubr by a number and a count.
fn calls_by_numbers(step: &Step) -> bool
    ensures { result ≡ calls_by_numbers (step_view step.now) }
{
    is_callothersubr(step.token) & (step.stack.len() >= 2)
}

/// Whether a step ends counter control.
fn is_counted(step: &Step) -> bool
    ensures { result ≡ ends_counting (step_view step.now) }
{
    is_callothersubr(step.token) && step.stack.len() >= 2 && ends_counting(step)
}

/// The first stem of a step, where it is of a kind, or that of an earlier one.
fn last_stem(earlier: Option<SetStem>, is_such: bool, step: &Step, number: u32) -> Option<SetStem>
    ensures { result ≡ (if is_such then Some (first_stem number (step_view step.now)) else earlier) }
{
    if is_such {
        Some(set_stem(step, 0, number))
    } else {
        earlier
    }
}

/// The three stems of a step, where it is of a kind, or those of an earlier one.
fn last_three(
    earlier: Option<SetTriple>,
    is_such: bool,
    step: &Step,
    number: u32,
) -> Option<SetTriple>
    ensures { result ≡ (if is_such then Some (set_three number (step_view step.now)) else earlier) }
{
    if is_such {
        Some(SetTriple {
            triple: triple_of(step),
            step: number,
        })
    } else {
        earlier
    }
}

/// The number of the last step of a kind, where this step is one or isn't.
fn last(earlier: Option<u32>, is_such: bool, number: u32) -> Option<u32>
    ensures { result ≡ (if is_such then Some number else earlier) }
{
    if is_such { Some(number) } else { earlier }
}

/// The point after a step, where it sets one or doesn't.
fn point_after(earlier: Point, is_set: bool, point: Point) -> Point
    ensures { result ≡ (if is_set then point else earlier) }
{
    if is_set { point } else { earlier }
}
