//! Reasons that a step alone has, or with its background, a hint set or the components.

ghost use Rattle.std.specs.Prelude.{◌≡◌, ◌≤◌, ◌-◌, ◌||◌, List, [], ◌∷◌, length, map, slice_get, take};
ghost use Rattle.std.specs.List.{find, flat_map};
ghost use Rattle.t1_char.specs.StepValues.{step_view};
ghost use Rattle.t1_char.specs.Steps.{StepView};
ghost use Rattle.t1_reasons.specs.Backgrounds.{background_of};
ghost use Rattle.t1_reasons.specs.HintSets.{set_at};
ghost use Rattle.t1_rules.specs.StepRules.Counters.{is_below};
ghost use Rattle.t1_reasons.specs.StepReasons.{has_flaw, have_flaw, is_flawed, is_flawed_pair, beside_last, beside_one, counters_at, first_of_three, have_other_edges, last_of_other, leaves_some, three_beside, threes_at, additions_at, brings, call_of, calls_at, ending_of, is_full, codes_at, depth_of, is_miscounted, takes, has_no_code, has_no_name, is_by_zero, is_outermost, is_past_quotient, is_too_deep, is_unknown_othersubr, is_unknown_token, known_calls_at, quotients_at, returns_at, tokens_at, in_edition, is_any, only_where, told_by, arguments_at, has_fewer, is_bad_count, is_past_range, is_uneven, triples_at, othersubrs_at, placed_from, single_stems_at, wants_at, beside, counts_at, has_more, is_lacking_subr, is_told_otherwise, pairs, pairs_with, sidebearings_at, subrs_at};
ghost use Rattle.t1_char.specs.Arguments.{argument, is_whole};
ghost use Rattle.t1_char.specs.Commands.{arguments_of};
ghost use Rattle.t1_rules.specs.StepRules.Seac.{is_unnamed};
ghost use Rattle.t1_char.specs.Stacks.{most_numbers};
ghost use Rattle.t1_char.specs.Steps.{is_number};
ghost use Rattle.t1_reasons.specs.declared.reason.Reason.TheVariants.{Arguments, Codes, Othersubr, Quotient, Stem as StemAlone, Stems};
ghost use Rattle.t1_reasons.specs.declared.step_reasons.StemFlaw.TheVariants.{Thin};
ghost use Rattle.t1_rules.specs.StepRules.Arguments.{is_past, quotient_is_past, wanted_by};
ghost use Rattle.t1_rules.specs.StepRules.Othersubrs.{is_flex_or_hints, is_good_count, is_known};
ghost use Rattle.t1_rules.specs.StepRules.Stems.{stem_at};
ghost use Rattle.t1_rules.specs.StepRules.Tokens.{is_div, is_pop};

use crate::background::{Background, SetTriple};
use crate::reason::{Reason, SetStem};
use t1_char::{
    CharToken, Command, Edition, MOST_CALLS, MOST_NUMBERS, Step, UNIT, is_callothersubr,
    is_callsubr, is_return, natural,
};
use t1_drawing::{are_adjacent, has_negative_width};
use t1_rules::{
    Rule, Sidebearings, Stem, Triple, accent_code, are_unequal, base_code, is_counter_control,
    is_flex_or_hints, is_good_count, is_past, is_pop, is_seac, is_stem, is_triple, is_unnamed,
    quotient_is_past, stem_at, three_stems, triple_of,
};

/// Returns what a rule tells of the step, where the step breaks it.
pub(crate) fn told_where(
    is_broken: bool,
    rule: Rule,
    background: &Background,
    step: &Step,
) -> Option<Reason>
    ensures { result ≡ find is_any (only_where is_broken (told_by rule background.now (step_view step.now))) }
{
    is_broken.then_some(told_by(rule, background, step))
}

/// What a rule tells of a step that breaks it.
fn told_by(rule: Rule, background: &Background, step: &Step) -> Reason
    ensures { result ≡ told_by rule background.now (step_view step.now) }
{
    match rule {
        Rule::S04 => ending_of(step),
        Rule::W01 | Rule::R01 | Rule::R02 => Reason::Token { token: step.token },
        Rule::W02 => Reason::Since {
            step: background.width,
        },
        Rule::P01 | Rule::P03 => Reason::Since {
            step: background.closed,
        },
        Rule::P02 => Reason::Open {
            start: background.start,
            pen: background.end,
        },
        Rule::H01 => Reason::Since {
            step: background.drawn,
        },
        Rule::X01 | Rule::X03 => Reason::Since {
            step: background.flex,
        },
        Rule::X02 => call_of(step),
        Rule::H06 => beside_one(stem_at(step, 0), last_of_other(step.token, background)),
        Rule::O05 | Rule::O08 | Rule::W03 => Reason::Since {
            step: background.told,
        },
        Rule::O06 => Reason::Since {
            step: background.counted,
        },
        Rule::K03 | Rule::K04 | Rule::K07 => Reason::Codes {
            base: step.argument(3),
            accent: step.argument(4),
        },
        Rule::K06 => Reason::Since {
            step: background.outlined,
        },
        _ => Reason::Nothing,
    }
}

/// The Subr whose charstring ends.
fn ending_of(step: &Step) -> Reason
    ensures { result ≡ ending_of (slice_get (step_view step.now).path (length (step_view step.now).path - 1)) }
{
    match step.path.as_slice().last() {
        Some(subr) => Reason::Ending { subr: *subr },
        None => Reason::Nothing,
    }
}

/// The call of an OtherSubr.
fn call_of(step: &Step) -> Reason
    ensures { result ≡ call_of (step_view step.now).stack }
{
    if step.stack.len() < 2 {
        return Reason::Nothing;
    }
    Reason::Othersubr {
        number: step.stack.from_top(0),
        count: step.stack.from_top(1),
    }
}

/// A stem of the step, and one of another command.
fn beside_one(own: Stem, other: Option<SetStem>) -> Reason
    ensures { result ≡ beside_one own other }
{
    match other {
        Some(other) => Reason::Stems { own, other },
        None => Reason::Nothing,
    }
}

/// The last stem of the other command of a direction.
fn last_of_other(token: CharToken, background: &Background) -> Option<SetStem>
    ensures { result ≡ last_of_other token background.now }
{
    match token {
        CharToken::Command(Command::Hstem) => first_of_three(background.hstem3),
        CharToken::Command(Command::Hstem3) => background.hstem,
        CharToken::Command(Command::Vstem) => first_of_three(background.vstem3),
        CharToken::Command(Command::Vstem3) => background.vstem,
        _ => None,
    }
}

/// The first of three stems.
fn first_of_three(three: Option<SetTriple>) -> Option<SetStem>
    ensures { result ≡ first_of_three three }
{
    match three {
        Some(three) => Some(SetStem {
            stem: three.triple.one,
            step: three.step,
        }),
        None => None,
    }
}

/// Why a step breaks C03.
pub(crate) fn token_reason(step: &Step) -> Option<Reason>
    ensures { result ≡ find is_unknown_token (tokens_at (step_view step.now)) }
{
    let token = step.token;
    match token {
        CharToken::Unknown(_) | CharToken::Unknown12(_) => Some(Reason::Token { token }),
        _ => None,
    }
}

/// Why a step breaks C08.
pub(crate) fn quotient_reason(step: &Step) -> Option<Reason>
    ensures { result ≡ find is_past_quotient (quotients_at (step_view step.now)) }
{
    if !is_div(step.token) || step.stack.len() < 2 {
        return None;
    }
    let dividend = step.stack.from_top(1);
    let divisor = step.stack.from_top(0);
    quotient_is_past(dividend, divisor).then_some(Reason::Quotient { dividend, divisor })
}

/// Why a step breaks C09.
pub(crate) fn zero_reason(step: &Step) -> Option<Reason>
    ensures { result ≡ find is_by_zero (quotients_at (step_view step.now)) }
{
    if !is_div(step.token) || step.stack.len() < 2 {
        return None;
    }
    let dividend = step.stack.from_top(1);
    let divisor = step.stack.from_top(0);
    (divisor == 0).then_some(Reason::Quotient { dividend, divisor })
}

fn is_div(token: CharToken) -> bool
    ensures { result ≡ is_div token }
{
    matches!(token, CharToken::Command(Command::Div))
}

/// Why a step breaks S02.
pub(crate) fn depth_reason(step: &Step) -> Option<Reason>
    ensures { result ≡ find is_too_deep (calls_at (step_view step.now)) }
{
    if !is_callsubr(step.token) || step.stack.is_empty() || step.path.len() != MOST_CALLS {
        return None;
    }
    Some(depth_of(step))
}

/// Why a step breaks S03.
pub(crate) fn return_reason(step: &Step) -> Option<Reason>
    ensures { result ≡ find is_outermost (returns_at (step_view step.now)) }
{
    if !is_return(step.token) || step.path.len() != 0 {
        return None;
    }
    Some(depth_of(step))
}

fn depth_of(step: &Step) -> Reason
    ensures { result ≡ depth_of (step_view step.now) }
{
    // This can't fail: at most ten calls are open.
    Reason::Depth {
        calls: step.path.len() as u8,
    }
}

/// Why a step breaks O01.
pub(crate) fn unknown_reason(step: &Step) -> Option<Reason>
    ensures { result ≡ find is_unknown_othersubr (known_calls_at (step_view step.now)) }
{
    if !is_callothersubr(step.token) || step.stack.len() < 2 {
        return None;
    }
    let count = step.stack.from_top(1);
    if !is_good_count(step.stack.len() - 2, count) {
        return None;
    }
    let number = step.stack.from_top(0);
    let is_known = is_flex_or_hints(number) | is_counter_control(number);
    (!is_known).then_some(Reason::Othersubr { number, count })
}

/// Why a step breaks O03.
pub(crate) fn wrong_count_reason(step: &Step) -> Option<Reason>
    ensures { result ≡ find is_miscounted (known_calls_at (step_view step.now)) }
{
    if !is_callothersubr(step.token) || step.stack.len() < 2 {
        return None;
    }
    let count = step.stack.from_top(1);
    if !is_good_count(step.stack.len() - 2, count) {
        return None;
    }
    let number = step.stack.from_top(0);
    let is_miscounted = is_flex_or_hints(number) & !takes(number, count);
    is_miscounted.then_some(Reason::Othersubr { number, count })
}

/// Whether an OtherSubr is called with the count that it takes.
fn takes(number: i64, count: i64) -> bool
    ensures { result ≡ takes number count }
{
    (is_whole(0, number) & is_whole(3, count))
        | ((is_whole(1, number) & is_whole(0, count))
            | ((is_whole(2, number) & is_whole(0, count))
                | (is_whole(3, number) & is_whole(1, count))))
}

/// Whether a number is that whole number.
fn is_whole(whole: u16, number: i64) -> bool
    ensures { result ≡ is_whole whole number }
{
    number == i64::from(whole) * UNIT
}

/// Why a step breaks K01.
pub(crate) fn code_reason(step: &Step) -> Option<Reason>
    ensures { result ≡ find has_no_code (codes_at (step_view step.now)) }
{
    if !is_seac(step.token) {
        return None;
    }
    (base_code(step).is_none() | accent_code(step).is_none()).then_some(codes_of(step))
}

/// Why a step breaks K02.
pub(crate) fn name_reason(step: &Step) -> Option<Reason>
    ensures { result ≡ find has_no_name (codes_at (step_view step.now)) }
{
    if !is_seac(step.token) {
        return None;
    }
    (is_unnamed(base_code(step)) | is_unnamed(accent_code(step))).then_some(codes_of(step))
}

fn codes_of(step: &Step) -> Reason
    ensures { result ≡ Codes (argument step.now.stack 3) (argument step.now.stack 4) }
{
    Reason::Codes {
        base: step.argument(3),
        accent: step.argument(4),
    }
}

/// Why a step breaks C05.
pub(crate) fn count_reason(step: &Step) -> Option<Reason>
    ensures { result ≡ find has_more (counts_at (step_view step.now)) }
{
    let CharToken::Command(command) = step.token else {
        return None;
    };
    let taken = command.arguments()?;
    // This can't fail: there are at most 24 numbers.
    let there = step.stack.len() as u8;
    (taken < there).then_some(Reason::Count {
        command,
        taken,
        there,
    })
}

/// Why a step breaks C04.
pub(crate) fn want_reason(step: &Step) -> Option<Reason>
    ensures { result ≡ find has_fewer (wants_at (step_view step.now)) }
{
    let CharToken::Command(command) = step.token else {
        return None;
    };
    let taken = wanted_by(command);
    // This can't fail: there are at most 24 numbers.
    let there = step.stack.len() as u8;
    (there < taken).then_some(Reason::Count {
        command,
        taken,
        there,
    })
}

/// How many numbers a command needs on the stack.
fn wanted_by(command: Command) -> u8
    ensures { result ≡ wanted_by command (arguments_of command) }
{
    match command.arguments() {
        Some(count) => count,
        None => match command {
            Command::Div | Command::Callothersubr => 2,
            Command::Callsubr => 1,
            _ => 0,
        },
    }
}

/// Why a step breaks C06.
pub(crate) fn addition_reason(step: &Step) -> Option<Reason>
    ensures { result ≡ find is_full (additions_at (step_view step.now)) }
{
    if !brings(step) || step.stack.len() != MOST_NUMBERS {
        return None;
    }
    // This can't fail: there are at most 24 numbers.
    Some(Reason::Full {
        token: step.token,
        there: step.stack.len() as u8,
    })
}

/// Whether a step brings one more number to the stack.
fn brings(step: &Step) -> bool
    ensures { result ≡ brings (step_view step.now) }
{
    is_number(step.token) | (is_pop(step.token) & (step.waiting > 0))
}

fn is_number(token: CharToken) -> bool
    ensures { result ≡ is_number token }
{
    matches!(token, CharToken::Number(_))
}

/// Why a step breaks C07.
pub(crate) fn argument_reason(step: &Step) -> Option<Reason>
    ensures { result ≡ find is_past_range (arguments_at (step_view step.now)) }
{
    let CharToken::Command(command) = step.token else {
        return None;
    };
    let count = command.arguments()?;
    first_past(count, step.stack.as_slice())
}

/// The first argument past the range, of so many that are taken.
fn first_past(count: u8, numbers: &[i64]) -> Option<Reason>
    requires { length numbers.now ≤ most_numbers }
    ensures { result ≡ find is_past_range (placed_from 1 (take count numbers.now)) }
{
    if usize::from(count) < numbers.len() {
        past_among(&numbers[..usize::from(count)])
    } else {
        past_among(numbers)
    }
}

/// The first number past the range.
fn past_among(numbers: &[i64]) -> Option<Reason>
    requires { length numbers.now ≤ most_numbers }
    ensures { result ≡ find is_past_range (placed_from 1 numbers.now) }
{
    let mut rest = numbers;
    let mut place = 0u8;
    while let [number, others @ ..] = rest {
        place += 1;
        if is_past(*number) {
            return Some(Reason::Argument {
                place,
                number: *number,
            });
        }
        rest = others;
    }
    None
}

/// Why a step breaks O02.
pub(crate) fn othersubr_reason(step: &Step) -> Option<Reason>
    ensures { result ≡ find is_bad_count (othersubrs_at (step_view step.now)) }
{
    if !is_callothersubr(step.token) || step.stack.len() < 2 {
        return None;
    }
    let count = step.stack.from_top(1);
    // This can't fail: there are at most 24 numbers.
    let there = step.stack.len() as u8 - 2;
    (!is_good_count(usize::from(there), count)).then_some(Reason::Arguments { count, there })
}

/// Why a step breaks O07.
pub(crate) fn counter_reason(edition: Edition, step: &Step) -> Option<Reason>
    ensures { result ≡ find leaves_some (in_edition edition (counters_at (step_view step.now))) }
{
    if !edition.has_later_rules() || !is_callothersubr(step.token) || step.stack.len() < 2 {
        return None;
    }
    let count = step.stack.from_top(1);
    // This can't fail: there are at most 24 numbers.
    let there = step.stack.len() as u8 - 2;
    let is_counting = is_good_count(usize::from(there), count)
        & is_counter_control(step.stack.from_top(0));
    (is_counting & is_below(there, natural(count))).then_some(Reason::Arguments { count, there })
}

/// Whether a count is less than the numbers that are there.
fn is_below(there: u8, count: Option<u32>) -> bool
    ensures { result ≡ is_below there count }
{
    match count {
        Some(count) => count < u32::from(there),
        None => false,
    }
}

/// What may be wrong with a stem.
#[derive(Clone, Copy)]
pub(crate) enum StemFlaw {
    /// It has no width: H03.
    NoWidth,
    /// It has a width below half a unit: H05.
    Thin,
    /// It has a width below 0 that doesn't mean one edge: H10.
    Negative,
}

impl StemFlaw {
    fn is_in(self, stem: Stem) -> bool
        ensures { result ≡ has_flaw self stem }
    {
        match self {
            StemFlaw::NoWidth => stem.width == 0,
            StemFlaw::Thin => stem.is_thin(),
            StemFlaw::Negative => has_negative_width(stem),
        }
    }
}

/// Returns the first of the stems that a step sets with such a flaw.
pub(crate) fn flawed_stem(flaw: StemFlaw, step: &Step) -> Option<Reason>
    ensures { result ≡ find (is_flawed flaw) (single_stems_at (step_view step.now)) }
{
    if !is_stem(step.token) {
        return None;
    }
    if is_triple(step.token) {
        flawed_among(flaw, &three_stems(step))
    } else {
        flawed_among(flaw, &[stem_at(step, 0)])
    }
}

/// The first of the stems with such a flaw.
fn flawed_among(flaw: StemFlaw, stems: &[Stem]) -> Option<Reason>
    ensures { result ≡ find (is_flawed flaw) (map (λ s. StemAlone s) stems.now) }
{
    let mut rest = stems;
    while let [stem, others @ ..] = rest {
        if flaw.is_in(*stem) {
            return Some(Reason::Stem { stem: *stem });
        }
        rest = others;
    }
    None
}

/// Why a step breaks H05.
pub(crate) fn thin_reason(edition: Edition, step: &Step) -> Option<Reason>
    ensures { result ≡ find (is_flawed Thin) (in_edition edition (single_stems_at (step_view step.now))) }
{
    if edition.has_later_rules() {
        flawed_stem(StemFlaw::Thin, step)
    } else {
        None
    }
}

/// Why a step breaks H07, given what came before it.
pub(crate) fn three_reason(edition: Edition, step: &Step, background: &Background) -> Option<Reason>
    ensures { (before : List StepView) → background.now ≡ background_of before →
        result ≡ find have_other_edges (in_edition edition (threes_at before (step_view step.now))) }
{
    if !edition.has_later_rules() {
        return None;
    }
    match step.token {
        CharToken::Command(Command::Hstem3) => beside_last(triple_of(step), background.hstem3),
        CharToken::Command(Command::Vstem3) => beside_last(triple_of(step), background.vstem3),
        _ => None,
    }
}

/// The same beside the last command of its kind, where there was one.
fn beside_last(own: Triple, other: Option<SetTriple>) -> Option<Reason>
    ensures { result ≡ find have_other_edges (beside_last own other) }
{
    match other {
        Some(other) => three_beside(own, other),
        None => None,
    }
}

/// The first of three stems whose edges aren't those that another command has in its place.
fn three_beside(own: Triple, other: SetTriple) -> Option<Reason>
    ensures { result ≡ find have_other_edges (three_beside own other) }
{
    other_edges(own.one, other.triple.one, other.step)
        .or(other_edges(own.two, other.triple.two, other.step))
        .or(other_edges(own.three, other.triple.three, other.step))
}

/// Two stems, where they don't have the same edges.
fn other_edges(own: Stem, other: Stem, step: u32) -> Option<Reason>
    ensures { result ≡ find have_other_edges (Stems own (set_at step other) ∷ []) }
{
    if other.has_same_edges(own) {
        None
    } else {
        Some(Reason::Stems {
            own,
            other: SetStem { stem: other, step },
        })
    }
}

/// Why a step breaks H04.
pub(crate) fn triple_reason(step: &Step) -> Option<Reason>
    ensures { result ≡ find is_uneven (triples_at (step_view step.now)) }
{
    if !is_triple(step.token) {
        return None;
    }
    let [one, two, three] = three_stems(step);
    are_unequal(one, two, three).then_some(Reason::Triple { one, two, three })
}

/// Why a step breaks S01.
pub(crate) fn subr_reason(step: &Step) -> Option<Reason>
    ensures { result ≡ find is_lacking_subr (subrs_at (step_view step.now)) }
{
    if !is_callsubr(step.token) || step.stack.is_empty() || step.found {
        return None;
    }
    Some(Reason::Subr {
        number: step.stack.from_top(0),
        found: false,
    })
}

/// Why a step breaks K05.
pub(crate) fn sidebearing_reason(sidebearings: &Sidebearings, step: &Step) -> Option<Reason>
    ensures { result ≡ find is_told_otherwise (sidebearings_at sidebearings.now.components (step_view step.now)) }
{
    if !is_seac(step.token) {
        return None;
    }
    let own = sidebearings.accent_sidebearing(step)?;
    let told = step.argument(0);
    (own != told).then_some(Reason::Sidebearings { told, own })
}

/// What may be wrong with two stems.
#[derive(Clone, Copy)]
pub(crate) enum PairFlaw {
    /// They overlap by an edition: H02.
    Overlap(Edition),
    /// One ends where the other begins: H09.
    SharedEdge,
}

impl PairFlaw {
    fn is_in(self, own: Stem, other: Stem) -> bool
        ensures { result ≡ have_flaw self own other }
    {
        match self {
            PairFlaw::Overlap(edition) => own.overlaps(other, edition),
            PairFlaw::SharedEdge => are_adjacent(own, other),
        }
    }
}

/// The first pair of one of the stems and one of the hint set with such a flaw, or of two of the stems.
pub(crate) fn flawed_pair(flaw: PairFlaw, stems: &[SetStem], kept: &[SetStem]) -> Option<Reason>
    ensures { result ≡ find (is_flawed_pair flaw) (pairs_with stems.now kept.now) }
{
    match flawed_with(flaw, stems, kept) {
        Some(reason) => Some(reason),
        None => flawed_of_two(flaw, stems),
    }
}

/// The first pair of one of the stems and one that is kept.
fn flawed_with(flaw: PairFlaw, stems: &[SetStem], kept: &[SetStem]) -> Option<Reason>
    ensures { result ≡ find (is_flawed_pair flaw) (flat_map (λ own. beside own.stem kept.now) stems.now) }
{
    let mut rest = stems;
    while let [own, others @ ..] = rest {
        if let Some(reason) = flawed_beside(flaw, own.stem, kept) {
            return Some(reason);
        }
        rest = others;
    }
    None
}

/// The first pair of two of the stems.
fn flawed_of_two(flaw: PairFlaw, stems: &[SetStem]) -> Option<Reason>
    ensures { result ≡ find (is_flawed_pair flaw) (pairs stems.now) }
{
    let mut rest = stems;
    while let [own, others @ ..] = rest {
        if let Some(reason) = flawed_beside(flaw, own.stem, others) {
            return Some(reason);
        }
        rest = others;
    }
    None
}

/// The first pair of a stem and one of others.
fn flawed_beside(flaw: PairFlaw, own: Stem, others: &[SetStem]) -> Option<Reason>
    ensures { result ≡ find (is_flawed_pair flaw) (beside own others.now) }
{
    let mut rest = others;
    while let [other, others @ ..] = rest {
        if flaw.is_in(own, other.stem) {
            return Some(Reason::Stems { own, other: *other });
        }
        rest = others;
    }
    None
}
