//! What rules ask of the steps before one.

ghost use Rattle.std.specs.Prelude.{◌≡◌, ◌<◌, ◌+◌, true, List, [], ◌∷◌, ◌++◌, length};
ghost use Rattle.std.specs.List.{find};
ghost use Rattle.t1_char.specs.declared.edition.Edition.{Edition as Editions};
ghost use Rattle.t1_char.specs.Steps.{StepView};
ghost use Rattle.t1_char.specs.StepValues.{step_view};
ghost use Rattle.t1_char.specs.Arguments.{is_flex_end};
ghost use Rattle.t1_reasons.specs.DrawingReasons.{told_of_steps};
ghost use Rattle.t1_reasons.specs.HintSets.{all_set_at};
ghost use Rattle.t1_reasons.specs.Standing.{StepsStandFor};
ghost use Rattle.t1_reasons.specs.StepReasons.{are_no_pairs, are_pairs, is_flawed_pair, is_miss, misses_at, only_where, pairs_at, pairs_with, stems_at, step_reason};
ghost use Rattle.t1_reasons.specs.declared.reason.Reason.TheVariants.{Miss, Pairs};
ghost use Rattle.t1_rules.specs.Book.{number_of};
ghost use Rattle.t1_rules.specs.Mask.{has};
ghost use Rattle.t1_rules.specs.StepRules.{breaks, charstring_rules};
ghost use Rattle.t1_rules.specs.StepRules.Flex.{end_point};
ghost use Rattle.t1_rules.specs.StepRules.Stems.{stems_of};
ghost use Rattle.t1_rules.specs.Watches.{most_steps};

use crate::background::Background;
use crate::drawing_reasons::or_nothing;
use crate::hint_sets::{HintSets, own_stems};
use crate::reason::{Reason, SetStem};
use crate::step_reasons::{
    PairFlaw, StemFlaw, addition_reason, argument_reason, code_reason, count_reason,
    counter_reason, depth_reason, flawed_pair, flawed_stem, name_reason, othersubr_reason,
    quotient_reason, return_reason, sidebearing_reason, subr_reason, thin_reason, three_reason,
    token_reason, told_where, triple_reason, unknown_reason, want_reason, wrong_count_reason,
    zero_reason,
};
use t1_char::{Edition, Step};
use t1_rules::{FlexWatcher, Mask, Point, Rule, Sidebearings, Watch, lies_across, stands_upright};

/// What is kept of the steps before one.
#[derive(Drop)]
pub(crate) struct StepsBefore {
    edition: Edition,
    hints: HintSets,
    flex: FlexWatcher,
    background: Background,
}

impl StepsBefore {
    /// Before the first step.
    pub(crate) fn start(edition: Edition) -> StepsBefore
        ensures { StepsStandFor edition result [] }
    {
        StepsBefore {
            edition,
            hints: HintSets::start(),
            flex: FlexWatcher::start(edition),
            background: Background::EMPTY,
        }
    }

    /// Goes past a step.
    pub(crate) fn see(&mut self, step: &Step)
        requires { (edition : Editions) × ((before : List StepView) ×
            (StepsStandFor edition self.old before × (length before < most_steps))) }
        ensures { (edition : Editions) (before : List StepView) →
            StepsStandFor edition self.old before → length before < most_steps →
            StepsStandFor edition self.new (before ++ step_view step.now ∷ []) }
    {
        let in_flex = self.flex.is_in_flex();
        let _flex = self.flex.see(step);
        self.hints.see(step);
        self.background = self
            .background
            .after(step, in_flex, self.hints.seen, self.flex.point());
    }

    /// Why the next step breaks a rule on charstrings, where it does. The set has the rules that it breaks.
    pub(crate) fn reason(
        &self,
        rule: Rule,
        step: &Step,
        sidebearings: &Sidebearings,
        broken: Mask,
    ) -> Option<Reason>
        requires { (edition : Editions) × ((before : List StepView) ×
            (StepsStandFor edition self.now before × (length before < most_steps))) }
        ensures { (edition : Editions) (before : List StepView) →
            StepsStandFor edition self.now before → length before < most_steps →
            has broken (number_of rule) ≡ breaks (charstring_rules edition sidebearings.now.components) (number_of rule) before (step_view step.now) →
            result ≡ step_reason edition sidebearings.now.components rule before (step_view step.now) }
    {
        match rule {
            Rule::C03 => token_reason(step),
            Rule::C04 => want_reason(step),
            Rule::C05 => count_reason(step),
            Rule::C06 => addition_reason(step),
            Rule::C07 => argument_reason(step),
            Rule::C08 => quotient_reason(step),
            Rule::C09 => zero_reason(step),
            Rule::S01 => subr_reason(step),
            Rule::S02 => depth_reason(step),
            Rule::S03 => return_reason(step),
            Rule::H02 => self.stem_pair(PairFlaw::Overlap(self.edition), step),
            Rule::H03 => flawed_stem(StemFlaw::NoWidth, step),
            Rule::H04 => triple_reason(step),
            Rule::H05 => thin_reason(self.edition, step),
            Rule::H07 => three_reason(self.edition, step, &self.background),
            Rule::X04 => self.pairs_reason(step),
            Rule::X05 => self.miss_reason(step),
            Rule::O01 => unknown_reason(step),
            Rule::O02 => othersubr_reason(step),
            Rule::O03 => wrong_count_reason(step),
            Rule::O07 => counter_reason(self.edition, step),
            Rule::K01 => code_reason(step),
            Rule::K02 => name_reason(step),
            Rule::K05 => sidebearing_reason(sidebearings, step),
            // What these tell is against them.
            Rule::W01 | Rule::R01 | Rule::R02 | Rule::X02 | Rule::K03 | Rule::K04 | Rule::K07 => {
                told_where(broken.has(rule), rule, &self.background, step)
            }
            // These compare nothing.
            Rule::C01
            | Rule::C02
            | Rule::S04
            | Rule::GE01
            | Rule::GE02
            | Rule::W02
            | Rule::P01
            | Rule::P02
            | Rule::P03
            | Rule::H01
            | Rule::X01
            | Rule::X03
            | Rule::X06
            | Rule::O04
            | Rule::K06
            | Rule::H06
            | Rule::O05
            | Rule::O06
            | Rule::O08
            | Rule::W03 => told_where(broken.has(rule), rule, &self.background, step),
            _ => None,
        }
    }

    /// The first pair of stems with such a flaw: one that the step sets, and one of the hint set or another of its own.
    fn stem_pair(&self, flaw: PairFlaw, step: &Step) -> Option<Reason>
        requires { (edition : Editions) × ((before : List StepView) ×
            (StepsStandFor edition self.now before × (length before < most_steps))) }
        ensures { (edition : Editions) (before : List StepView) →
            StepsStandFor edition self.now before → length before < most_steps →
            result ≡ find (is_flawed_pair flaw) (stems_at before (step_view step.now)) }
    {
        if lies_across(step.token) {
            self.own_pair(flaw, step, self.hints.across())
        } else if stands_upright(step.token) {
            self.own_pair(flaw, step, self.hints.upright())
        } else {
            None
        }
    }

    /// The same of a step that sets stems, by those that are kept of their direction.
    fn own_pair(&self, flaw: PairFlaw, step: &Step, kept: &[SetStem]) -> Option<Reason>
        requires { self.now.hints.seen < most_steps }
        ensures { result ≡ find (is_flawed_pair flaw)
            (pairs_with (all_set_at (self.now.hints.seen + 1) (stems_of (step_view step.now))) kept.now) }
    {
        let stems = own_stems(step, self.hints.seen + 1);
        flawed_pair(flaw, stems.as_slice(), kept)
    }

    /// What the rules on the drawing that steps alone decide tell of the next step.
    pub(crate) fn told_of(&self, rule: Rule, step: &Step) -> Reason
        requires { (edition : Editions) × ((before : List StepView) ×
            (StepsStandFor edition self.now before × (length before < most_steps))) }
        ensures { (edition : Editions) (before : List StepView) →
            StepsStandFor edition self.now before → length before < most_steps →
            result ≡ told_of_steps rule before (step_view step.now) }
    {
        match rule {
            Rule::P11 => Reason::Since {
                step: self.background.moved,
            },
            Rule::H09 => or_nothing(self.stem_pair(PairFlaw::SharedEdge, step)),
            Rule::H10 => or_nothing(flawed_stem(StemFlaw::Negative, step)),
            _ => Reason::Nothing,
        }
    }

    /// Why the step breaks X04.
    fn pairs_reason(&self, step: &Step) -> Option<Reason>
        ensures { (edition : Editions) (before : List StepView) → StepsStandFor edition self.now before →
            result ≡ find are_no_pairs (pairs_at before (step_view step.now)) }
    {
        let in_flex = self.flex.is_in_flex();
        let moves = self.flex.moves();
        let points = self.flex.points();
        let at_point = no_pairs_where(step.gives_flex_point() & in_flex, moves, points, false);
        let at_end = no_pairs_where(step.ends_flex() & in_flex, moves, points, true);
        at_point.or(at_end)
    }

    /// Why the step breaks X05.
    fn miss_reason(&self, step: &Step) -> Option<Reason>
        ensures { (edition : Editions) (before : List StepView) → StepsStandFor edition self.now before →
            result ≡ find is_miss (misses_at before (step_view step.now)) }
    {
        if step.ends_flex() && self.flex.is_in_flex() {
            end_reason(step, self.flex.point())
        } else {
            None
        }
    }
}

/// The moves and the points of a flex, where they are looked at and aren't the pairs that they should be.
fn no_pairs_where(is_looked_at: bool, moves: u32, points: u32, ends: bool) -> Option<Reason>
    ensures { result ≡ find are_no_pairs (only_where is_looked_at (Pairs moves points ends)) }
{
    (is_looked_at && !are_pairs(moves, points, ends)).then_some(Reason::Pairs {
        moves,
        points,
        ends,
    })
}

/// Whether a point comes after its move, or the end after seven of each.
fn are_pairs(moves: u32, points: u32, ends: bool) -> bool
    ensures { result ≡ are_pairs moves points ends }
{
    if ends {
        (moves == 7) & (points == 7)
    } else {
        u64::from(moves) == u64::from(points) + 1
    }
}

/// Why the end of a flex isn't at the pen, where it isn't.
fn end_reason(step: &Step, pen: Point) -> Option<Reason>
    requires { is_flex_end (step_view step.now) ≡ true }
    ensures { result ≡ find is_miss (Miss (end_point (step_view step.now)) pen ∷ []) }
{
    miss_of(
        Point {
            x: step.stack.from_top(3),
            y: step.stack.from_top(2),
        },
        pen,
    )
}

fn miss_of(named: Point, pen: Point) -> Option<Reason>
    ensures { result ≡ find is_miss (Miss named pen ∷ []) }
{
    ((named.x != pen.x) | (named.y != pen.y)).then_some(Reason::Miss { named, pen })
}
