//! The rules on stem hints and their replacement, H01 to H04, R01 and R02: Type 1 Font Format 1.1,
//! chapters 6 and 8.

ghost use Rattle.std.specs.Prelude.{◌≡◌, ◌<◌, ◌+ℤ◌, ◌*ℤ◌, int_lt, pos, neg_ℤ, ◌&&◌, ◌||◌, not, ℕ, List, [], ◌∷◌, ◌++◌, true, false, if◌then◌else◌, take};
ghost use Rattle.std.specs.Int.{int_max, int_min};
ghost use Rattle.std.specs.List.{list_any};
ghost use Rattle.std.specs.Ordering.{int_eq};
ghost use Rattle.t1_char.specs.declared.edition.Edition.{Edition as Editions};
ghost use Rattle.t1_char.specs.Arguments.{is_callothersubr, is_hint_replacement, othersubr_call};
ghost use Rattle.t1_char.specs.Steps.{StepView};
ghost use Rattle.t1_char.specs.StepValues.{step_view};
ghost use Rattle.t1_rules.specs.Mask.{has};
ghost use Rattle.t1_rules.specs.StepRules.{breaks, stem_rules};
ghost use Rattle.t1_rules.specs.StepRules.Stems.{are_unequal, has_no_width, has_one_edge, is_off_middle, hint_set, is_stem, is_triple, lies_across, lower, one_overlaps, overlap, overlap_by, sets_unequal, stands_upright, stem_at, stems_meet, stems_of, two_overlap, twice_middle, upper, most_stems};
ghost use Rattle.t1_rules.specs.StepRules.Tokens.{is_command, is_line};
ghost use Rattle.t1_rules.specs.StepRules.Triples.{has_same_edges, is_thin};
ghost use Rattle.t1_rules.specs.Private.Standing.{StemsStandFor};
ghost use Rattle.t1_rules.specs.Watches.{IsWithin, reach};
ghost use Rattle.t1_rules.specs.Private.Stems.{IsQuietForStems, kept_after};
ghost use Rattle.t1_char.specs.Stacks.{most_numbers};

use crate::mask::Mask;
use crate::rule::Rule;
use crate::step_rules::numbers::{differ, sum, twice};
use crate::step_rules::paths::draws;
use crate::step_rules::tokens::{ends_flex, is_line, is_pop, replaces_hints, starts_flex};
use crate::watch::Watch;
use arrayvec::ArrayVec;
use t1_char::{
    CharToken, Command, Edition, OthersubrCall, Step, UNIT, is_callothersubr, is_callsubr,
};

/// How many stems a hint set has at most, in each direction.
pub const MOST_STEMS: usize = 96;

/// The widths that mean one edge, in units of 1/65536.
const TOP_EDGE: i64 = -20 * UNIT;

const BOTTOM_EDGE: i64 = -21 * UNIT;

/// A stem hint: where it begins, and how far it reaches from there, up or down, in units of 1/65536.
#[derive(Clone, Copy, Debug, Default, PartialEq, Eq)]
pub struct Stem {
    pub position: i32,
    pub width: i32,
}

/// Stems of one direction.
type Stems = ArrayVec<Stem, MOST_STEMS>;

/// Watches for H01 to H04, R01 and R02.
#[derive(Drop)]
pub struct StemWatcher {
    edition: Edition,
    /// The hint set of hstem and hstem3.
    across: Stems,
    /// The hint set of vstem and vstem3.
    upright: Stems,
    /// Whether a flex was started, and not ended since.
    in_flex: bool,
    /// Whether something was drawn, and the hints weren't replaced since.
    drawn: bool,
    /// Whether the last step replaced the hints.
    replaced: bool,
    /// Whether the last step was pop, and the one before it replaced the hints.
    popped: bool,
}

impl Watch for StemWatcher {
    ghost use Rattle.t1_rules.specs.StepRules.{stem_rules};
    ghost use Rattle.t1_rules.specs.Private.Standing.{StemsStandFor};
    ghost use Rattle.t1_rules.specs.Watches.{IsWithin, reach};

    ghost stands_for = { StemsStandFor };

    ghost rules = { stem_rules };

    fn start(edition: Edition) -> StemWatcher {
        StemWatcher {
            edition,
            across: ArrayVec::new(),
            upright: ArrayVec::new(),
            in_flex: false,
            drawn: false,
            replaced: false,
            popped: false,
        }
    }

    #[inline(always)]
    fn see_known(&mut self, token: CharToken, call: OthersubrCall, step: &Step) -> Mask {
        let broken = self.faults(token, step);
        self.go_on(token, call, step);
        broken
    }

    fn see(&mut self, step: &Step) -> Mask {
        self.see_known(step.token, step.othersubr_call(), step)
    }
}

impl StemWatcher {
    /// The hint set of hstem and hstem3 after the steps that were seen: the first 96 since the last hint replacement.
    #[inline(always)]
    pub fn across(&self) -> &[Stem]
        ensures { (edition : Editions) (before : List StepView) → StemsStandFor edition self.now before →
            result.now ≡ hint_set lies_across before }
    {
        self.across.as_slice()
    }

    /// The hint set of vstem and vstem3.
    #[inline(always)]
    pub fn upright(&self) -> &[Stem]
        ensures { (edition : Editions) (before : List StepView) → StemsStandFor edition self.now before →
            result.now ≡ hint_set stands_upright before }
    {
        self.upright.as_slice()
    }

    /// Before the first step again, in place.
    pub(crate) fn start_again(&mut self, edition: Edition)
        ensures { StemsStandFor edition self.new [] }
    {
        self.edition = edition;
        self.across.clear();
        self.upright.clear();
        self.in_flex = false;
        self.drawn = false;
        self.replaced = false;
        self.popped = false;
    }

    /// Whether the last steps neither replaced the hints nor took a pop after that.
    #[inline(always)]
    pub(crate) fn is_calm(&self) -> bool
        ensures replaced { result ≡ true → self.now.replaced ≡ false }
        ensures popped { result ≡ true → self.now.popped ≡ false }
    {
        !(self.replaced | self.popped)
    }

    /// Whether no flex was started, or it was ended since.
    #[inline(always)]
    pub(crate) fn is_steady(&self) -> bool
        ensures { result ≡ true → self.now.in_flex ≡ false }
    {
        !self.in_flex
    }

    /// Notes a line.
    #[inline(always)]
    pub(crate) fn draw(&mut self)
        ensures { self.new ≡ record self.old { drawn = true } }
    {
        self.drawn = true;
    }

    /// What a step breaks.
    #[inline(always)]
    #[tactic(auto, unfolding(crate::specs::StepRules::stem_rules))]
    fn faults(&self, token: CharToken, step: &Step) -> Mask
        requires token { step.now.token ≡ token }
        ensures { (edition : Editions) (before : List StepView) → StemsStandFor edition self.now before →
            (n : ℕ) → has result n ≡ breaks (stem_rules edition) n before (step_view step.now) }
    {
        let late = Mask::empty()
            .with(Rule::R02, !is_callsubr(token) & self.popped)
            .with(Rule::R01, !is_pop(token) & self.replaced);
        if is_stem(token) {
            late.with(Rule::H04, is_unequal(token, step))
                .with(Rule::H03, is_without_width(token, step))
                .with(Rule::H02, self.meets(token, step))
                .with(Rule::H01, self.drawn)
        } else {
            late
        }
    }

    /// Whether a stem of the step overlaps one of the hint set, or two of its own overlap.
    #[inline(always)]
    fn meets(&self, token: CharToken, step: &Step) -> bool
        requires token { step.now.token ≡ token }
        ensures { result ≡ (
            (is_command lies_across step.now.token
            && stems_meet (overlap_by self.now.edition) (stems_of (step_view step.now)) self.now.across.items)
            || (is_command stands_upright step.now.token
            && stems_meet (overlap_by self.now.edition) (stems_of (step_view step.now)) self.now.upright.items)) }
    {
        if lies_across(token) {
            own_stems_meet(self.edition, token, step, self.across.as_slice())
        } else if stands_upright(token) {
            own_stems_meet(self.edition, token, step, self.upright.as_slice())
        } else {
            false
        }
    }

    /// Keeps what the step changes.
    #[inline(always)]
    fn go_on(&mut self, token: CharToken, call: OthersubrCall, step: &Step)
        requires token { step.now.token ≡ token }
        requires call { call ≡ othersubr_call (step_view step.now) }
        ensures { (edition : Editions) (before : List StepView) → StemsStandFor edition self.old before →
            StemsStandFor edition self.new (before ++ step_view step.now ∷ []) }
    {
        self.popped = is_pop(token) & self.replaced;
        self.replaced = replaces_hints(call, step);
        if is_quiet(token) {
            return;
        }
        self.drawn = draws(token, call, step, self.in_flex) | (self.drawn & !self.replaced);
        self.in_flex = starts_flex(call, step) | (self.in_flex & !ends_flex(call, step));
        self.keep_stems(token, call, step);
    }

    /// Keeps the stems of the step, or none after a hint replacement.
    #[inline(always)]
    fn keep_stems(&mut self, token: CharToken, call: OthersubrCall, step: &Step)
        requires token { step.now.token ≡ token }
        requires call { call ≡ othersubr_call (step_view step.now) }
        ensures across { self.new.across.items ≡ kept_after lies_across self.old.across.items (step_view step.now) }
        ensures upright { self.new.upright.items ≡ kept_after stands_upright self.old.upright.items (step_view step.now) }
        ensures edition { self.new.edition ≡ self.old.edition }
        ensures in_flex { self.new.in_flex ≡ self.old.in_flex }
        ensures drawn { self.new.drawn ≡ self.old.drawn }
        ensures replaced { self.new.replaced ≡ self.old.replaced }
        ensures popped { self.new.popped ≡ self.old.popped }
    {
        if replaces_hints(call, step) {
            self.across.clear();
            self.upright.clear();
        } else if lies_across(token) {
            keep_own(&mut self.across, token, step);
        } else if stands_upright(token) {
            keep_own(&mut self.upright, token, step);
        }
    }
}

impl Stem {
    /// Its lower edge, or its left one.
    pub fn lower(self) -> i64
        ensures { result ≡ lower self }
    {
        let position = i64::from(self.position);
        position.min(position + i64::from(self.width))
    }

    /// Its upper edge, or its right one.
    pub fn upper(self) -> i64
        ensures { result ≡ upper self }
    {
        let position = i64::from(self.position);
        position.max(position + i64::from(self.width))
    }

    /// Whether two stems share more than an edge; where an edition knows stems of one edge, such a one shares nothing.
    pub fn overlaps(self, other: Stem, edition: Edition) -> bool
        ensures { result ≡ overlap_by edition self other }
    {
        let one_edge = edition.knows_one_edge() && (self.has_one_edge() | other.has_one_edge());
        !one_edge && self.shares_more(other)
    }

    fn shares_more(self, other: Stem) -> bool
        ensures { result ≡ overlap self other }
    {
        spans_meet(self.lower(), self.upper(), other.lower(), other.upper())
    }

    /// Whether its width is exactly -20 or -21, which means one edge where an edition knows such stems.
    pub fn has_one_edge(self) -> bool
        ensures { result ≡ has_one_edge self }
    {
        let width = i64::from(self.width);
        (width == TOP_EDGE) | (width == BOTTOM_EDGE)
    }

    /// Twice the place of its middle.
    fn twice_middle(self) -> i64
        ensures value { result ≡ twice_middle self }
        ensures within { IsWithin reach result }
    {
        2 * i64::from(self.position) + i64::from(self.width)
    }

    fn has_no_width(self) -> bool
        ensures { result ≡ has_no_width self }
    {
        self.width == 0
    }

    /// Whether it has a width, which is below half a unit.
    pub fn is_thin(self) -> bool
        ensures { result ≡ is_thin self }
    {
        let twice = 2 * i64::from(self.width);
        !self.has_no_width() & (-UNIT < twice) & (twice < UNIT)
    }

    /// Whether two stems have the same edges, whichever they begin with.
    pub fn has_same_edges(self, other: Stem) -> bool
        ensures { result ≡ has_same_edges self other }
    {
        spans_agree(self.lower(), self.upper(), other.lower(), other.upper())
    }
}

/// Whether two spans share more than an edge.
fn spans_meet(one_lower: i64, one_upper: i64, other_lower: i64, other_upper: i64) -> bool
    ensures { result ≡ int_lt (int_max one_lower other_lower) (int_min one_upper other_upper) }
{
    one_lower.max(other_lower) < one_upper.min(other_upper)
}

/// Whether two spans are the same.
fn spans_agree(one_lower: i64, one_upper: i64, other_lower: i64, other_upper: i64) -> bool
    ensures { result ≡ (int_eq one_lower other_lower && int_eq one_upper other_upper) }
{
    (one_lower == other_lower) & (one_upper == other_upper)
}

/// Whether none of these rules speaks of a token, and it changes neither a hint set nor what was drawn.
#[inline(always)]
fn is_quiet(token: CharToken) -> bool
    ensures { result ≡ true → IsQuietForStems token }
{
    !(is_stem(token) | is_line(token) | is_callothersubr(token))
}

/// Whether a command sets stems.
pub fn is_stem(token: CharToken) -> bool
    ensures { result ≡ is_stem token }
{
    lies_across(token) | stands_upright(token)
}

/// Whether a command sets stems that lie across the glyph.
pub fn lies_across(token: CharToken) -> bool
    ensures { result ≡ is_command lies_across token }
{
    matches!(token, CharToken::Command(Command::Hstem | Command::Hstem3))
}

/// Whether a command sets upright stems.
pub fn stands_upright(token: CharToken) -> bool
    ensures { result ≡ is_command stands_upright token }
{
    matches!(token, CharToken::Command(Command::Vstem | Command::Vstem3))
}

/// Whether a command sets three stems.
pub fn is_triple(token: CharToken) -> bool
    ensures { result ≡ is_command is_triple token }
{
    matches!(token, CharToken::Command(Command::Hstem3 | Command::Vstem3))
}

/// Returns the stem of the argument at a place and the next one.
pub fn stem_at(step: &Step, place: usize) -> Stem
    requires { place < most_numbers }
    ensures { result ≡ stem_at step.now.stack place }
{
    Stem {
        position: step.argument(place),
        width: step.argument(place + 1),
    }
}

/// Returns the stems of a step that sets three.
#[inline(never)]
pub fn three_stems(step: &Step) -> [Stem; 3]
    ensures { result ≡ stem_at step.now.stack 0 ∷ stem_at step.now.stack 2 ∷ stem_at step.now.stack 4 ∷ [] }
{
    [stem_at(step, 0), stem_at(step, 2), stem_at(step, 4)]
}

/// Whether a stem of the step overlaps one that is kept, or two of its own overlap.
#[inline(always)]
fn own_stems_meet(edition: Edition, token: CharToken, step: &Step, kept: &[Stem]) -> bool
    requires token { step.now.token ≡ token }
    ensures { result ≡ stems_meet (overlap_by edition) (stems_of (step_view step.now)) kept.now }
{
    if is_triple(token) {
        stems_meet(edition, &three_stems(step), kept)
    } else {
        stems_meet(edition, &[stem_at(step, 0)], kept)
    }
}

/// Keeps the stems of the step, while there are fewer than 96.
#[inline(always)]
fn keep_own(kept: &mut Stems, token: CharToken, step: &Step)
    requires token { step.now.token ≡ token }
    ensures { kept.new.items ≡ take most_stems (kept.old.items ++ stems_of (step_view step.now)) }
{
    if is_triple(token) {
        keep(kept, &three_stems(step));
    } else {
        keep_one(kept, stem_at(step, 0));
    }
}

/// Keeps a stem, while there are fewer than 96.
#[inline(always)]
fn keep_one(kept: &mut Stems, stem: Stem)
    ensures { kept.new.items ≡ take most_stems (kept.old.items ++ stem ∷ []) }
{
    if kept.len() < MOST_STEMS {
        kept.push(stem);
    }
}

/// Keeps stems, while there are fewer than 96.
#[inline(never)]
pub fn keep<T: Copy>(kept: &mut ArrayVec<T, MOST_STEMS>, stems: &[T])
    ensures { kept.new.items ≡ take most_stems (kept.old.items ++ stems.now) }
{
    // This can't fail: there are no more than there is room for.
    let _fits = kept.try_extend_from_slice(first(kept.remaining_capacity(), stems));
}

/// The first stems, so many or all.
fn first<T>(count: usize, stems: &[T]) -> &[T]
    ensures { result.now ≡ take count stems.now }
{
    if count < stems.len() {
        &stems[..count]
    } else {
        stems
    }
}

/// Whether one of the stems overlaps one that is kept, or two of them overlap.
fn stems_meet(edition: Edition, stems: &[Stem], kept: &[Stem]) -> bool
    ensures { result ≡ stems_meet (overlap_by edition) stems.now kept.now }
{
    one_overlaps(edition, stems, kept) || two_overlap(edition, stems)
}

/// Whether one of the stems overlaps one that is kept.
fn one_overlaps(edition: Edition, stems: &[Stem], kept: &[Stem]) -> bool
    ensures { result ≡ one_overlaps (overlap_by edition) stems.now kept.now }
{
    stems.iter().any(|stem| overlaps_any(edition, *stem, kept))
}

/// Whether the stem overlaps one of these.
fn overlaps_any(edition: Edition, stem: Stem, others: &[Stem]) -> bool
    ensures { result ≡ list_any (overlap_by edition stem) others.now }
{
    others.iter().any(|other| stem.overlaps(*other, edition))
}

/// Whether two of the stems overlap.
fn two_overlap(edition: Edition, stems: &[Stem]) -> bool
    ensures { result ≡ two_overlap (overlap_by edition) stems.now }
{
    let mut rest = stems;
    while let [stem, others @ ..] = rest {
        if overlaps_any(edition, *stem, others) {
            return true;
        }
        rest = others;
    }
    false
}

/// Whether one of the command's stems has no width.
#[inline(always)]
fn is_without_width(token: CharToken, step: &Step) -> bool
    requires token { step.now.token ≡ token }
    ensures { result ≡ list_any has_no_width (stems_of (step_view step.now)) }
{
    if is_triple(token) {
        any_has_no_width(&three_stems(step))
    } else {
        any_has_no_width(&[stem_at(step, 0)])
    }
}

fn any_has_no_width(stems: &[Stem]) -> bool
    ensures { result ≡ list_any has_no_width stems.now }
{
    stems.iter().any(|stem| stem.has_no_width())
}

/// Whether the three stems of a command aren't equal, where it has three.
#[inline(always)]
fn is_unequal(token: CharToken, step: &Step) -> bool
    requires token { step.now.token ≡ token }
    ensures { result ≡ sets_unequal (step_view step.now) }
{
    is_triple(token) && are_unequal(stem_at(step, 0), stem_at(step, 2), stem_at(step, 4))
}

/// Whether the outer two stems aren't equally wide, or the middles not equally far apart.
#[inline(never)]
pub fn are_unequal(one: Stem, two: Stem, three: Stem) -> bool
    ensures { result ≡ are_unequal one two three }
{
    (one.width != three.width) | is_off_middle(one, two, three)
}

fn is_off_middle(one: Stem, two: Stem, three: Stem) -> bool
    ensures { result ≡ is_off_middle one two three }
{
    are_apart(one.twice_middle(), two.twice_middle(), three.twice_middle())
}

/// Whether the second number isn't in the middle of the others.
fn are_apart(one: i64, two: i64, three: i64) -> bool
    requires one { IsWithin reach one }
    requires two { IsWithin reach two }
    requires three { IsWithin reach three }
    ensures { result ≡ not (int_eq (pos 2 *ℤ two) (one +ℤ three)) }
{
    differ(twice(two), sum(one, three))
}
