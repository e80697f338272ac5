//! What steps draw, one after another: Type 1 Font Format 1.1, chapters 6 and 8.

ghost use Rattle.std.specs.Prelude.{◌≡◌, ◌<◌, List, [], ◌∷◌, ◌++◌, length};
ghost use Rattle.t1_char.specs.declared.edition.Edition.{Edition as Editions};
ghost use Rattle.t1_char.specs.Steps.{StepView};
ghost use Rattle.t1_char.specs.StepValues.{step_view};
ghost use Rattle.t1_outline.specs.Nibs.{spoils};
ghost use Rattle.t1_outline.specs.Outlines.{drawn};
ghost use Rattle.t1_outline.specs.Private.Standing.{PenStandsFor};
ghost use Rattle.t1_rules.specs.StepRules.Flex.{current_point};
ghost use Rattle.t1_rules.specs.StepRules.Paths.{in_flex, is_open, leaves_open};
ghost use Rattle.t1_rules.specs.StepRules.Stems.{hint_set, lies_across, stands_upright};
ghost use Rattle.t1_rules.specs.Watches.{most_steps};

use crate::nib::{Around, Nib};
use crate::segment::Segments;
use t1_char::{Edition, Step};
use t1_rules::{FlexWatcher, Mask, PathWatcher, Point, Rule, Stem, StemWatcher, Watch};

/// What a step draws.
#[derive(Drop)]
pub struct DrawnStep {
    /// Its segments, in their order.
    pub segments: Segments,
    /// Whether it breaks P02: it requires all to be closed, and something isn't.
    pub leaves_open: bool,
}

/// Sees the steps of a glyph one after another, from the first on, and returns what each draws.
#[derive(Drop)]
pub struct Pen {
    paths: PathWatcher,
    stems: StemWatcher,
    flex: FlexWatcher,
    nib: Nib,
}

impl Pen {
    /// Before the first step.
    pub fn start(edition: Edition) -> Pen
        ensures { PenStandsFor edition result [] }
    {
        Pen {
            paths: PathWatcher::start(edition),
            stems: StemWatcher::start(edition),
            flex: FlexWatcher::start(edition),
            nib: Nib::start(),
        }
    }

    /// What the next step draws, given the steps that were seen before.
    pub fn draw(&mut self, step: &Step) -> DrawnStep
        requires { (edition : Editions) × ((before : List StepView) ×
            (PenStandsFor edition self.old before × (length before < most_steps))) }
        ensures drawn { (edition : Editions) (before : List StepView) →
            PenStandsFor edition self.old before → length before < most_steps →
            result.segments.items ≡ drawn before (step_view step.now) }
        ensures leaves_open { (edition : Editions) (before : List StepView) →
            PenStandsFor edition self.old before → length before < most_steps →
            result.leaves_open ≡ leaves_open before (step_view step.now) }
        ensures stands { (edition : Editions) (before : List StepView) →
            PenStandsFor edition self.old before → length before < most_steps →
            PenStandsFor edition self.new (before ++ step_view step.now ∷ []) }
    {
        let start = self.flex.point();
        let is_in_flex = self.flex.is_in_flex();
        let broken = self.flex.see(step);
        let paths = self.paths.see(step);
        let _stems = self.stems.see(step);
        let around = Around {
            start,
            end: self.flex.point(),
            is_in_flex,
            spoils_flex: spoils_flex(broken),
        };
        DrawnStep {
            segments: self.nib.draw(step, around),
            leaves_open: paths.has(Rule::P02),
        }
    }

    /// The current point after the steps that were seen.
    pub fn point(&self) -> Point
        ensures { (edition : Editions) (before : List StepView) →
            PenStandsFor edition self.now before → result ≡ current_point before }
    {
        self.flex.point()
    }

    /// Whether a flex was started, and not ended since.
    pub fn is_in_flex(&self) -> bool
        ensures { (edition : Editions) (before : List StepView) →
            PenStandsFor edition self.now before → result ≡ in_flex before }
    {
        self.flex.is_in_flex()
    }

    /// Whether something was drawn, and no closepath came since: what P02 and P03 ask.
    pub fn is_open(&self) -> bool
        ensures { (edition : Editions) (before : List StepView) →
            PenStandsFor edition self.now before → result ≡ is_open before }
    {
        self.paths.is_open()
    }

    /// The stems of hstem and hstem3 that are in force: the hint set that H02 looks at.
    pub fn across(&self) -> &[Stem]
        ensures { (edition : Editions) (before : List StepView) →
            PenStandsFor edition self.now before → result.now ≡ hint_set lies_across before }
    {
        self.stems.across()
    }

    /// Those of vstem and vstem3.
    pub fn upright(&self) -> &[Stem]
        ensures { (edition : Editions) (before : List StepView) →
            PenStandsFor edition self.now before → result.now ≡ hint_set stands_upright before }
    {
        self.stems.upright()
    }
}

/// Whether a step that breaks these rules spoils a flex, which then isn't drawn.
pub fn spoils_flex(broken: Mask) -> bool
    ensures { result ≡ spoils broken }
{
    broken.has(Rule::X01) | (broken.has(Rule::X03) | broken.has(Rule::X04))
}
