//! The rules on thin stems, and on stems beside three of one command, H05 to H07: Type 1 Font Format 1.1, chapter 6.

ghost use Rattle.std.specs.Prelude.{◌≡◌, true, if◌then◌else◌, Some, ℕ, List, [], ◌∷◌, ◌++◌};
ghost use Rattle.std.specs.List.{list_any};
ghost use Rattle.t1_char.specs.declared.edition.Edition.{Edition as Editions};
ghost use Rattle.t1_char.specs.Editions.{has_later_rules};
ghost use Rattle.t1_char.specs.Steps.{StepView};
ghost use Rattle.t1_char.specs.StepValues.{step_view};
ghost use Rattle.t1_rules.specs.Mask.{has};
ghost use Rattle.t1_rules.specs.StepRules.{breaks, triple_rules};
ghost use Rattle.t1_rules.specs.Private.Standing.{TriplesKeep};
ghost use Rattle.t1_rules.specs.Private.StepTests.{breaks_by_one, breaks_by_three};
ghost use Rattle.t1_rules.specs.StepRules.Stems.{stem_at};
ghost use Rattle.t1_rules.specs.StepRules.Triples.{differs_from, have_same_edges, is_hstem, is_hstem3, is_thin, is_vstem, is_vstem3, triple_of};

use crate::mask::Mask;
use crate::rule::Rule;
use crate::step_rules::stems::{Stem, stem_at};
use crate::watch::Watch;
use t1_char::{CharToken, Command, Edition, OthersubrCall, Step};

/// The three stems of a command.
#[derive(Clone, Copy)]
pub struct Triple {
    pub one: Stem,
    pub two: Stem,
    pub three: Stem,
}

/// Watches for H05 to H07, in an edition that has them. A hint replacement changes nothing that it keeps.
#[derive(Clone, Copy)]
pub struct TripleWatcher {
    /// Whether the edition has these rules.
    is_on: bool,
    /// Whether hstem came.
    hstem: bool,
    /// The stems of the last hstem3.
    hstem3: Option<Triple>,
    /// Whether vstem came.
    vstem: bool,
    /// The stems of the last vstem3.
    vstem3: Option<Triple>,
}

impl Watch for TripleWatcher {
    ghost use Rattle.t1_rules.specs.StepRules.{triple_rules};
    ghost use Rattle.t1_rules.specs.Private.Standing.{TriplesStandFor};

    ghost stands_for = { TriplesStandFor };

    ghost rules = { triple_rules };

    fn start(edition: Edition) -> TripleWatcher {
        TripleWatcher {
            is_on: edition.has_later_rules(),
            hstem: false,
            hstem3: None,
            vstem: false,
            vstem3: None,
        }
    }

    #[inline(always)]
    fn see_known(&mut self, token: CharToken, _call: OthersubrCall, step: &Step) -> Mask {
        if !self.is_on {
            return Mask::empty();
        }
        let broken = self.faults(token, step);
        self.go_on(token, step);
        broken
    }

    fn see(&mut self, step: &Step) -> Mask {
        self.see_known(step.token, step.othersubr_call(), step)
    }
}

impl TripleWatcher {
    /// What a step breaks in an edition that has these rules.
    #[inline(always)]
    fn faults(&self, token: CharToken, step: &Step) -> Mask
        requires token { step.now.token ≡ token }
        ensures { (edition : Editions) (before : List StepView) → has_later_rules edition ≡ true →
            TriplesKeep self.now before →
            (n : ℕ) → has result n ≡ breaks (triple_rules edition) n before (step_view step.now) }
    {
        if is_hstem(token) {
            one_faults(self.hstem, self.hstem3, step)
        } else if is_vstem(token) {
            one_faults(self.vstem, self.vstem3, step)
        } else if is_hstem3(token) {
            three_faults(self.hstem, self.hstem3, step)
        } else if is_vstem3(token) {
            three_faults(self.vstem, self.vstem3, step)
        } else {
            Mask::empty()
        }
    }

    /// Keeps what the step changes.
    #[inline(always)]
    fn go_on(&mut self, token: CharToken, step: &Step)
        requires token { step.now.token ≡ token }
        ensures is_on { self.new.is_on ≡ self.old.is_on }
        ensures kept { (before : List StepView) → TriplesKeep self.old before →
            TriplesKeep self.new (before ++ step_view step.now ∷ []) }
    {
        self.hstem = self.hstem | is_hstem(token);
        self.vstem = self.vstem | is_vstem(token);
        self.hstem3 = newer(self.hstem3, is_hstem3(token), step);
        self.vstem3 = newer(self.vstem3, is_vstem3(token), step);
    }
}

impl Triple {
    /// Whether three stems have the same edges as others, in their order.
    fn has_same_edges(self, other: Triple) -> bool
        ensures { result ≡ have_same_edges self other }
    {
        self.one.has_same_edges(other.one)
            && self.two.has_same_edges(other.two)
            && self.three.has_same_edges(other.three)
    }
}

/// What a stem of a command for one breaks, where such a command came, and where these are the last three stems.
#[inline(never)]
fn one_faults(came: bool, triple: Option<Triple>, step: &Step) -> Mask
    ensures { (n : ℕ) → has result n ≡ breaks_by_one came triple (stem_at step.now.stack 0 ∷ []) n }
{
    Mask::empty()
        .with(Rule::H06, !came & triple.is_some())
        .with(Rule::H05, any_is_thin(&[stem_at(step, 0)]))
}

/// What three stems break.
#[inline(never)]
fn three_faults(came: bool, last: Option<Triple>, step: &Step) -> Mask
    ensures { (n : ℕ) → has result n ≡ breaks_by_three came last (triple_of (step_view step.now)) n }
{
    let triple = triple_of(step);
    Mask::empty()
        .with(Rule::H07, differs_from(last, triple))
        .with(Rule::H06, last.is_none() & came)
        .with(
            Rule::H05,
            any_is_thin(&[triple.one, triple.two, triple.three]),
        )
}

/// Returns the three stems of a step that sets three.
pub fn triple_of(step: &Step) -> Triple
    ensures { result ≡ triple_of (step_view step.now) }
{
    Triple {
        one: stem_at(step, 0),
        two: stem_at(step, 2),
        three: stem_at(step, 4),
    }
}

/// The three stems of a step, where it sets such, or those from before.
#[inline(always)]
fn newer(last: Option<Triple>, sets: bool, step: &Step) -> Option<Triple>
    ensures { result ≡ (if sets then Some (triple_of (step_view step.now)) else last) }
{
    if sets { Some(triple_of(step)) } else { last }
}

/// Whether there were other three stems.
fn differs_from(last: Option<Triple>, triple: Triple) -> bool
    ensures { result ≡ differs_from last triple }
{
    match last {
        Some(last) => !last.has_same_edges(triple),
        None => false,
    }
}

/// Whether one of these stems has a width below half a unit.
fn any_is_thin(stems: &[Stem]) -> bool
    ensures { result ≡ list_any is_thin stems.now }
{
    stems.iter().any(|stem| stem.is_thin())
}

/// Whether a token is the command hstem.
pub fn is_hstem(token: CharToken) -> bool
    ensures { result ≡ is_hstem token }
{
    matches!(token, CharToken::Command(Command::Hstem))
}

/// Whether a token is the command hstem3.
pub fn is_hstem3(token: CharToken) -> bool
    ensures { result ≡ is_hstem3 token }
{
    matches!(token, CharToken::Command(Command::Hstem3))
}

/// Whether a token is the command vstem.
pub fn is_vstem(token: CharToken) -> bool
    ensures { result ≡ is_vstem token }
{
    matches!(token, CharToken::Command(Command::Vstem))
}

/// Whether a token is the command vstem3.
pub fn is_vstem3(token: CharToken) -> bool
    ensures { result ≡ is_vstem3 token }
{
    matches!(token, CharToken::Command(Command::Vstem3))
}
