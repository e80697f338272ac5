//! The rules on accented characters that speak of their components, K03 to K05 and K07: Type 1 Font Format
//! 1.1, chapter 6 (seac).

ghost use Rattle.std.specs.Prelude.{◌≡◌, ◌<◌, ◌&&◌, ◌||◌, ℕ, ℤ, List, IfOk, IfSome, OnOk, length, map, take, true, false};
ghost use Rattle.t1_char.specs.Editions.{limit_of};
ghost use Rattle.t1_char.specs.Seacs.{subrs_have_seac};
ghost use Rattle.t1_char.specs.Steps.{StepView, steps_of};
ghost use Rattle.t1_char.specs.StepValues.{step_view};
ghost use Rattle.t1_rules.specs.Components.{component_at, component_in, component_named, component_of_glyph, components_of, glyph_named};
ghost use Rattle.t1_rules.specs.Mask.{has};
ghost use Rattle.t1_rules.specs.StepRules.{breaks, component_rules};
ghost use Rattle.t1_rules.specs.StepRules.Seac.{accent, base, component_of_code, differs_in_sidebearing, is_another, is_lacking, is_named, is_without_sidebearing, lacks_component, lacks_sidebearing, nests};
ghost use Rattle.t1_rules.specs.Private.Seac.{with_step};

use crate::glyph_names::glyph_named;
use crate::mask::Mask;
use crate::rule::Rule;
use crate::standard_encoding::standard_name;
use crate::step_rules::seac::{accent_code, base_code, is_unnamed};
use crate::step_rules::tokens::{is_seac, sets_width};
use std::alloc::{AllocError, Global};
use std::marker::Model;
use t1_char::{
    Answer, CharToken, Edition, Machine, Numbers, Step, steps_lack_seac, subrs_lack_seac,
};
use t1_font::{CODES, Font};

/// What the rules ask of a component.
#[derive(Clone, Copy, Debug, PartialEq, Eq)]
pub(crate) struct Component {
    /// Whether there is a glyph of that name.
    there: bool,
    /// The first argument of its first hsbw or sbw, in units of 1/65536.
    sidebearing: Option<i32>,
    /// Whether it is made by seac itself.
    has_seac: bool,
}

/// The components of accented characters, by their codes in StandardEncoding.
#[derive(Drop)]
pub struct Sidebearings {
    edition: Edition,
    components: Vec<Component>,
}

impl Model for Sidebearings {
    ghost use Rattle.t1_rules.specs.Components.{ComponentsView};

    ghost Value = { ComponentsView };

    ghost view = { λ s. record { edition = s.edition; components = s.components.items } };
}

impl Sidebearings {
    /// The components of a font. Each glyph that StandardEncoding names and the font has is executed up to the
    /// limit of steps. If surely no step of it is a seac, it is executed up to its first sidebearing.
    pub fn prepare(
        alloc: Global,
        font: &Font<'_>,
        edition: Edition,
    ) -> Result<Sidebearings, AllocError>
        ensures edition { IfOk result (λ sidebearings. sidebearings.edition ≡ edition) }
        ensures components { IfOk result (λ sidebearings.
            sidebearings.components ≡ components_of (limit_of edition) font.now) }
    {
        let plain_subrs = subrs_lack_seac(font);
        let mut components = Vec::new(alloc);
        for code in 0..CODES {
            components.push(component_at(font, code as u8, edition, plain_subrs))?;
        }
        Ok(Sidebearings {
            edition,
            components,
        })
    }

    /// The edition that they were prepared for.
    pub fn edition(&self) -> Edition
        ensures { result ≡ self.now.edition }
    {
        self.edition
    }

    /// Which of K03, K04, K05 and K07 a step breaks.
    #[inline(always)]
    #[tactic(auto, unfolding(crate::specs::StepRules::component_rules))]
    pub fn see(&self, step: &Step) -> Mask
        ensures { (before : List StepView) → (n : ℕ) →
            has result n ≡ breaks (component_rules self.now.components) n before (step_view step.now) }
    {
        self.see_as(step.token, step)
    }

    /// The same as [`Sidebearings::see`], where the step's token is known.
    #[inline(always)]
    #[tactic(auto, unfolding(crate::specs::StepRules::component_rules))]
    pub fn see_as(&self, token: CharToken, step: &Step) -> Mask
        requires token { step.now.token ≡ token }
        ensures { (before : List StepView) → (n : ℕ) →
            has result n ≡ breaks (component_rules self.now.components) n before (step_view step.now) }
    {
        if is_seac(token) {
            self.faults(step)
        } else {
            Mask::empty()
        }
    }

    /// What a seac breaks.
    #[inline(never)]
    #[tactic(auto, unfolding(crate::specs::StepRules::component_rules))]
    fn faults(&self, step: &Step) -> Mask
        ensures { (before : List StepView) → (n : ℕ) →
            has result n ≡ breaks (component_rules self.now.components) n before (step_view step.now) }
    {
        Mask::empty()
            .with(Rule::K07, self.lacks_sidebearing(step))
            .with(Rule::K05, self.differs_in_sidebearing(step))
            .with(Rule::K04, self.nests(step))
            .with(Rule::K03, self.lacks_component(step))
    }

    /// Whether a component that a code names isn't there.
    fn lacks_component(&self, step: &Step) -> bool
        ensures { result ≡ lacks_component self.now.components (step_view step.now) }
    {
        is_seac(step.token)
            && (is_lacking(base_code(step), self.base(step))
                || is_lacking(accent_code(step), self.accent(step)))
    }

    /// Whether a component is made by seac itself.
    fn nests(&self, step: &Step) -> bool
        ensures { result ≡ nests self.now.components (step_view step.now) }
    {
        is_seac(step.token) && (self.base(step).has_seac || self.accent(step).has_seac)
    }

    /// Whether the accent's sidebearing is another than the step says.
    fn differs_in_sidebearing(&self, step: &Step) -> bool
        ensures { result ≡ differs_in_sidebearing self.now.components (step_view step.now) }
    {
        is_seac(step.token) && is_another(self.accent(step).sidebearing, step.argument(0))
    }

    /// Whether a component has neither hsbw nor sbw.
    fn lacks_sidebearing(&self, step: &Step) -> bool
        ensures { result ≡ lacks_sidebearing self.now.components (step_view step.now) }
    {
        is_seac(step.token)
            && (self.base(step).is_without_sidebearing()
                || self.accent(step).is_without_sidebearing())
    }

    /// Returns the sidebearing of the accent that a step names, in units of 1/65536: what K05 compares. It is None where no glyph
    /// has the accent's name, or that glyph has neither hsbw nor sbw.
    pub fn accent_sidebearing(&self, step: &Step) -> Option<i32>
        ensures { result ≡ (accent self.now.components (step_view step.now)).sidebearing }
    {
        self.accent(step).sidebearing
    }

    fn base(&self, step: &Step) -> Component
        ensures { result ≡ base self.now.components (step_view step.now) }
    {
        self.component(base_code(step))
    }

    fn accent(&self, step: &Step) -> Component
        ensures { result ≡ accent self.now.components (step_view step.now) }
    {
        self.component(accent_code(step))
    }

    /// The component of a code.
    fn component(&self, code: Option<u8>) -> Component
        ensures { result ≡ component_of_code self.now.components code }
    {
        match code {
            Some(code) => match self.components.get(code as usize) {
                Some(component) => *component,
                None => Component::MISSING,
            },
            None => Component::MISSING,
        }
    }
}

impl Component {
    /// A component that isn't there.
    const MISSING: Component = Component {
        there: false,
        sidebearing: None,
        has_seac: false,
    };

    /// Takes a step of its own in.
    fn take_in(&mut self, step: &Step)
        ensures { self.new ≡ with_step self.old (step_view step.now) }
    {
        if sets_width(step.token) && self.sidebearing.is_none() {
            self.sidebearing = Some(step.argument(0));
        }
        self.has_seac = self.has_seac | is_seac(step.token);
    }

    /// Whether it is there, and has neither hsbw nor sbw.
    fn is_without_sidebearing(self) -> bool
        ensures { result ≡ is_without_sidebearing self }
    {
        self.there & self.sidebearing.is_none()
    }
}

/// The component of a code.
fn component_at(font: &Font<'_>, code: u8, edition: Edition, plain_subrs: bool) -> Component
    requires { plain_subrs ≡ true → subrs_have_seac font.now ≡ false }
    ensures { result ≡ component_at (limit_of edition) font.now code }
{
    component_named(font, standard_name(code), edition, plain_subrs)
}

/// The component of a name; none is there without one.
fn component_named(font: &Font<'_>, name: &str, edition: Edition, plain_subrs: bool) -> Component
    requires { plain_subrs ≡ true → subrs_have_seac font.now ≡ false }
    ensures { result ≡ component_named (limit_of edition) font.now name.now }
{
    if name.is_empty() {
        return Component::MISSING;
    }
    match glyph_named(font, name.as_bytes()) {
        Some(glyph) => component_of_glyph(&*font, glyph, edition, plain_subrs),
        None => Component::MISSING,
    }
}

/// What a glyph is as a component, by its steps up to the limit. Where surely none is a seac, the first
/// sidebearing is all that is looked for.
fn component_of_glyph<'a>(
    font: &'a Font<'a>,
    glyph: usize,
    edition: Edition,
    plain_subrs: bool,
) -> Component
    requires glyph { glyph < length font.now.glyphs }
    requires subrs { plain_subrs ≡ true → subrs_have_seac font.now ≡ false }
    ensures { result ≡ component_in (take (limit_of edition) (steps_of font.now glyph)) }
{
    let lacks_seac = steps_lack_seac(font, glyph, plain_subrs);
    let mut machine = Machine::start(font, glyph, edition);
    let mut component = Component {
        there: true,
        sidebearing: None,
        has_seac: false,
    };
    while let Answer::Step = machine.go_on(Numbers::Passed) {
        component.take_in(machine.current());
        if lacks_seac && component.sidebearing.is_some() {
            return component;
        }
    }
    component
}

/// Whether a code has a name, and its component isn't there.
fn is_lacking(code: Option<u8>, component: Component) -> bool
    ensures { result ≡ is_lacking code component }
{
    is_named(code) & !component.there
}

fn is_named(code: Option<u8>) -> bool
    ensures { result ≡ is_named code }
{
    code.is_some() && !is_unnamed(code)
}

/// Whether there is a sidebearing, and it isn't this number.
fn is_another(sidebearing: Option<i32>, number: i32) -> bool
    ensures { result ≡ is_another sidebearing number }
{
    match sidebearing {
        Some(sidebearing) => sidebearing != number,
        None => false,
    }
}
