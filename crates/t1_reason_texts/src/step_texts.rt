//! What the texts of reasons that steps have are made of.

ghost use Rattle.std.specs.Prelude.{◌≡◌, ◌+ℤ◌, ◌-ℤ◌, ◌*ℤ◌, Some, pos};
ghost use Rattle.std.specs.Int.{int_max, int_min};
ghost use Rattle.t1_rules.specs.Watches.{IsWithin, reach};
ghost use Rattle.t1_reason_texts.specs.Decimals.{in_unit};
ghost use Rattle.t1_reason_texts.specs.StepTexts.{after_words, against_words, are_same_points, are_same_stems, bound_words, call_words, comes_next, is_half_off, is_there, middle_that_does, middles_text, needed_pairs, off_middle, off_words, or_more, quotient_text, says_overlap, says_width, says_writing, share, since_after, since_before, since_none, span_text, stems_text, token_text, widths_text, writing_text};
ghost use Rattle.t1_reason_texts.specs.declared.decimals.Unit.TheVariants.{Coordinate, Mean, Middle};
ghost use Rattle.t1_rules.specs.StepRules.Stems.{lower, twice_middle, upper};

use crate::decimals::{Exact, Unit, coordinate, difference};
use crate::words::small_coordinate;
use std::fmt;
use t1_char::{CharToken, Command, command_name};
use t1_reasons::SetStem;
use t1_rules::{Point, Rule, Stem};

/// A token in words: the name of a command, `the number 5`, `byte 15`.
#[derive(Clone, Copy)]
pub struct TokenText(pub CharToken);

/// The edges of a stem.
#[derive(Clone, Copy)]
pub(crate) struct SpanText(pub(crate) Stem);

/// A stem and another one, with the step that set that: whether they overlap depends on the rule.
#[derive(Clone, Copy)]
pub(crate) struct StemsText(pub(crate) Rule, pub(crate) Stem, pub(crate) SetStem);

/// The widths of three stems.
#[derive(Clone, Copy)]
pub(crate) struct WidthsText(pub(crate) Stem, pub(crate) Stem, pub(crate) Stem);

/// How a stem is written, and how it would be with a width above 0.
#[derive(Clone, Copy)]
pub(crate) struct WritingText(pub(crate) Stem);

/// The middles of three stems.
#[derive(Clone, Copy)]
pub(crate) struct MiddlesText(pub(crate) Stem, pub(crate) Stem, pub(crate) Stem);

impl fmt::Display for TokenText {
    ghost output = { λ t. Some (token_text t.0) };

    fn fmt<W: fmt::Write>(&self, f: &mut fmt::Formatter<W>) -> fmt::Result {
        match self.0 {
            CharToken::Number(number) => write!(f, "the number {number}"),
            CharToken::Command(command) => {
                let name = command_name(command);
                write!(f, "{name}")
            }
            CharToken::Unknown(byte) => write!(f, "byte {byte}"),
            CharToken::Unknown12(byte) => write!(f, "bytes 12 {byte}"),
            CharToken::Cut => write!(f, "a token that breaks off"),
            CharToken::Short => write!(f, "a charstring shorter than lenIV"),
            CharToken::End => write!(f, "the end of the charstring"),
        }
    }
}

impl fmt::Display for SpanText {
    ghost output = { λ t. Some (span_text t.0) };

    fn fmt<W: fmt::Write>(&self, f: &mut fmt::Formatter<W>) -> fmt::Result {
        let lower = coordinate(self.0.lower());
        let upper = coordinate(self.0.upper());
        write!(f, "{lower} to {upper}")
    }
}

impl fmt::Display for StemsText {
    ghost output = { λ t. Some (stems_text t.0 t.1 t.2) };

    #[tactic(auto, unfolding(crate::specs::StepTexts::stems_text))]
    fn fmt<W: fmt::Write>(&self, f: &mut fmt::Formatter<W>) -> fmt::Result {
        let (rule, stem, step) = (self.0, self.1, self.2.step);
        let own = SpanText(stem);
        let other = SpanText(self.2.stem);
        if says_overlap(rule) {
            if are_same_stems(stem, self.2.stem) {
                write!(f, "{own}, the same stem is set at step {step}")
            } else {
                let share = share(stem, self.2.stem);
                write!(f, "{own} and {other}, set at step {step}, share {share}")
            }
        } else {
            let against = against_words(rule);
            let after = after_words(rule);
            write!(f, "{own}{against}{other}, set at step {step}{after}")
        }
    }
}

impl fmt::Display for WidthsText {
    ghost output = { λ t. Some (widths_text t.0 t.1 t.2) };

    #[tactic(auto, unfolding(crate::specs::StepTexts::widths_text))]
    fn fmt<W: fmt::Write>(&self, f: &mut fmt::Formatter<W>) -> fmt::Result {
        let one = small_coordinate(self.0.width);
        let two = small_coordinate(self.1.width);
        let three = small_coordinate(self.2.width);
        write!(f, "{one} {two} {three}")
    }
}

impl fmt::Display for WritingText {
    ghost output = { λ t. Some (writing_text t.0) };

    #[tactic(auto, unfolding(crate::specs::StepTexts::writing_text))]
    fn fmt<W: fmt::Write>(&self, f: &mut fmt::Formatter<W>) -> fmt::Result {
        let position = small_coordinate(self.0.position);
        let width = small_coordinate(self.0.width);
        let lower = coordinate(self.0.lower());
        let extent = extent(self.0);
        write!(f, "{position} {width} says the same as {lower} {extent}")
    }
}

impl fmt::Display for MiddlesText {
    ghost output = { λ t. Some (middles_text t.0 t.1 t.2) };

    #[tactic(auto, unfolding(crate::specs::StepTexts::middles_text))]
    fn fmt<W: fmt::Write>(&self, f: &mut fmt::Formatter<W>) -> fmt::Result {
        let one = middle(self.0);
        let two = middle(self.1);
        let three = middle(self.2);
        write!(f, "{one} {two} {three}")
    }
}

/// The number that is divided, and the divisor.
#[derive(Clone, Copy)]
pub(crate) struct QuotientText {
    pub(crate) dividend: i64,
    pub(crate) divisor: i64,
}

impl fmt::Display for QuotientText {
    ghost output = { λ t. Some (quotient_text t.dividend t.divisor) };

    fn fmt<W: fmt::Write>(&self, f: &mut fmt::Formatter<W>) -> fmt::Result {
        let dividend = coordinate(self.dividend);
        let divisor = coordinate(self.divisor);
        write!(f, "{dividend} divided by {divisor}")
    }
}

/// What follows the count of a command that takes as many numbers as it is told.
pub(crate) fn or_more(command: Command) -> &'static str
    ensures { result.now ≡ or_more command }
{
    match command {
        Command::Callothersubr => " or more",
        _ => "",
    }
}

pub(crate) fn bound_words(number: i64) -> &'static str
    ensures { result.now ≡ bound_words number }
{
    if number < 0 {
        "-32000 at least"
    } else {
        "32000 at most"
    }
}

/// What is said after a token that is there in place of another; a rule may speak of the token alone.
pub(crate) fn is_there(rule: Rule, token: CharToken) -> &'static str
    ensures { result.now ≡ is_there rule token }
{
    match (rule, token) {
        (Rule::C03, _) => "",
        (_, CharToken::Unknown12(_)) => " are there",
        _ => " is there",
    }
}

/// What is said after a token that comes behind the end of the glyph.
pub(crate) fn comes_next(token: CharToken) -> &'static str
    ensures { result.now ≡ comes_next token }
{
    match token {
        CharToken::Unknown12(_) => " come next",
        _ => " comes next",
    }
}

/// What is said before the number of a step.
pub(crate) fn since_before(rule: Rule) -> &'static str
    ensures { result.now ≡ since_before rule }
{
    match rule {
        Rule::P01 => "no move since step ",
        Rule::P03 => "nothing is drawn since step ",
        Rule::H01 => "drawn at step ",
        Rule::P11 => "moved at step ",
        Rule::X01 | Rule::X03 => "the flex began at step ",
        Rule::K06 => "an outline or a stem at step ",
        Rule::O05 | Rule::O06 | Rule::W02 | Rule::W03 => "step ",
        Rule::O08 => "OtherSubr 12 at step ",
        _ => "since step ",
    }
}

/// What is said after the number of a step.
pub(crate) fn since_after(rule: Rule) -> &'static str
    ensures { result.now ≡ since_after rule }
{
    match rule {
        Rule::W02 => " set the width",
        Rule::O05 => " comes before it",
        Rule::O06 => " ended counter control",
        Rule::O08 => ", not ended by a 13",
        Rule::W03 => " calls an OtherSubr too",
        Rule::P11 => " too, and nothing is drawn since",
        _ => "",
    }
}

/// What is said where there was no such step.
pub(crate) fn since_none(rule: Rule) -> &'static str
    ensures { result.now ≡ since_none rule }
{
    match rule {
        Rule::W02 => "another command came first",
        Rule::P01 => "no move so far",
        Rule::P03 => "nothing is drawn so far",
        Rule::O05 | Rule::W03 => "no hsbw or sbw so far",
        _ => "no step did so",
    }
}

pub(crate) fn are_same_points(one: Point, other: Point) -> bool
    ensures { result ≡ are_same_points one other }
{
    one.x == other.x && one.y == other.y
}

/// What is missing at the end of a flex, or at a point, which is late where moves before it have no point.
pub(crate) fn needed_pairs(ends: bool, late: bool) -> &'static str
    ensures { result.now ≡ needed_pairs ends late }
{
    match (ends, late) {
        (true, _) => "; 7 of each are needed",
        (false, true) => " before this point; each move needs a point of its own",
        (false, false) => " before this point; it needs a move of its own",
    }
}

fn are_same_stems(one: Stem, other: Stem) -> bool
    ensures { result ≡ are_same_stems one other }
{
    one.lower() == other.lower() && one.upper() == other.upper()
}

/// Whether a rule speaks of stems that overlap.
fn says_overlap(rule: Rule) -> bool
    ensures { result ≡ says_overlap rule }
{
    !matches!(rule, Rule::H06 | Rule::H07 | Rule::H09)
}

/// How one stem is set against another.
fn against_words(rule: Rule) -> &'static str
    ensures { result.now ≡ against_words rule }
{
    match rule {
        Rule::H07 => " in place of ",
        Rule::H09 => " and ",
        _ => " beside ",
    }
}

/// What is said after two stems that need not overlap.
fn after_words(rule: Rule) -> &'static str
    ensures { result.now ≡ after_words rule }
{
    match rule {
        Rule::H09 => ", share an edge",
        _ => "",
    }
}

/// How much two stems share.
fn share(one: Stem, other: Stem) -> Exact
    ensures { result ≡ in_unit Coordinate (share one other) }
{
    Exact::new(
        shared(one.lower(), one.upper(), other.lower(), other.upper()),
        Unit::Coordinate,
    )
}

fn shared(one_lower: i64, one_upper: i64, other_lower: i64, other_upper: i64) -> i128
    ensures { result ≡ int_min one_upper other_upper -ℤ int_max one_lower other_lower }
{
    difference(one_upper.min(other_upper), one_lower.max(other_lower))
}

/// Whether a rule speaks of a stem's width.
pub(crate) fn says_width(rule: Rule) -> bool
    ensures { result ≡ says_width rule }
{
    matches!(rule, Rule::H05)
}

/// Whether a rule speaks of how a stem is written.
pub(crate) fn says_writing(rule: Rule) -> bool
    ensures { result ≡ says_writing rule }
{
    matches!(rule, Rule::H10)
}

/// How far a stem's upper edge is above its lower one.
pub(crate) fn extent(stem: Stem) -> Exact
    ensures { result ≡ in_unit Coordinate (upper stem -ℤ lower stem) }
{
    Exact::new(difference(stem.upper(), stem.lower()), Unit::Coordinate)
}

/// Twice the middle of a stem.
fn twice_middle(stem: Stem) -> i64
    ensures value { result ≡ twice_middle stem }
    ensures within { IsWithin reach result }
{
    2 * i64::from(stem.position) + i64::from(stem.width)
}

fn twice(number: i64) -> i64
    requires { IsWithin reach number }
    ensures { result ≡ pos 2 *ℤ number }
{
    2 * number
}

fn sum(one: i64, other: i64) -> i64
    requires one { IsWithin reach one }
    requires other { IsWithin reach other }
    ensures { result ≡ one +ℤ other }
{
    one + other
}

fn middle(stem: Stem) -> Exact
    ensures { result ≡ in_unit Middle (twice_middle stem) }
{
    Exact::new(i128::from(twice_middle(stem)), Unit::Middle)
}

/// The middle that would do between two stems: half-way between theirs, where they are equally wide.
pub(crate) fn middle_that_does(one: Stem, three: Stem) -> Option<Exact>
    ensures { result ≡ middle_that_does one three }
{
    if one.width == three.width {
        Some(half_way(one, three))
    } else {
        None
    }
}

fn half_way(one: Stem, three: Stem) -> Exact
    ensures { result ≡ in_unit Mean (twice_middle one +ℤ twice_middle three) }
{
    Exact::new(
        i128::from(sum(twice_middle(one), twice_middle(three))),
        Unit::Mean,
    )
}

/// How far the second middle is from half-way between the others, in units of 1/262144.
fn off_middle(one: Stem, two: Stem, three: Stem) -> i128
    ensures { result ≡ off_middle one two three }
{
    difference(
        twice(twice_middle(two)),
        sum(twice_middle(one), twice_middle(three)),
    )
}

fn is_half_off(off: i128) -> bool
    ensures { result ≡ is_half_off off }
{
    off == 131_072 || off == -131_072
}

pub(crate) fn off_words(one: Stem, two: Stem, three: Stem) -> &'static str
    ensures { result.now ≡ off_words one two three }
{
    if is_half_off(off_middle(one, two, three)) {
        ", half a unit off"
    } else {
        ""
    }
}

/// What is said after a call: how many arguments the OtherSubr takes, or which call of a flex comes outside one.
pub(crate) fn call_words(rule: Rule, number: i64) -> &'static str
    ensures { result.now ≡ call_words rule number }
{
    match (rule, number) {
        (Rule::O03, 0) => "; it takes 3",
        (Rule::O03, 196_608) => "; it takes 1",
        (Rule::O03, _) => "; it takes none",
        (Rule::X02, 0) => ", the end of a flex",
        (Rule::X02, _) => ", a point of a flex",
        _ => "",
    }
}
