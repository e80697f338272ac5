//! All watchers as one.

ghost use Rattle.std.specs.Prelude.{◌≡◌, true, false, ℕ, ◌+◌, ◌<◌, Some, List, [], ◌∷◌, ◌++◌, length};
ghost use Rattle.std.specs.List.{list_any};
ghost use Rattle.t1_char.specs.Commands.{arguments_of};
ghost use Rattle.t1_char.specs.declared.edition.Edition.{Edition as Editions};
ghost use Rattle.t1_char.specs.declared.command.Command.TheVariants.{Callsubr, Hmoveto, Hstem, Return, Rmoveto, Vmoveto, Vstem};
ghost use Rattle.t1_char.specs.declared.token.CharToken.TheVariants.{Number};
ghost use Rattle.t1_char.specs.Steps.{StepView};
ghost use Rattle.t1_char.specs.StepValues.{step_view};
ghost use Rattle.t1_rules.specs.Mask.{has};
ghost use Rattle.t1_rules.specs.StepRules.{breaks, step_rules};
ghost use Rattle.t1_rules.specs.StepRules.Flex.{current_point};
ghost use Rattle.t1_rules.specs.StepRules.Paths.{in_flex};
ghost use Rattle.t1_rules.specs.StepRules.Stems.{hint_set, lies_across, stands_upright};
ghost use Rattle.t1_rules.specs.Private.Seeing.{CanSee, Sees};
ghost use Rattle.t1_rules.specs.Private.Standing.{WatchesStandFor};
ghost use Rattle.t1_rules.specs.Watches.{IsCalm, IsNear, most_steps};
ghost use Rattle.t1_rules.specs.Steady.{IsSteady, IsUndrawn, drawn_on, moved_on, point_on};
ghost use Rattle.t1_rules.specs.StepRules.Arguments.{is_past};
ghost use Rattle.t1_rules.specs.StepRules.Tokens.{IsCommand, is_line};

use crate::mask::Mask;
use crate::step_rules::arguments::{ArgumentWatcher, has_its_arguments};
use crate::step_rules::calls::CallWatcher;
use crate::step_rules::counters::CounterWatcher;
use crate::step_rules::flex::{FlexWatcher, Point};
use crate::step_rules::othersubrs::OthersubrWatcher;
use crate::step_rules::paths::PathWatcher;
use crate::step_rules::seac::SeacWatcher;
use crate::step_rules::stems::{Stem, StemWatcher};
use crate::step_rules::tokens::call_of;
use crate::step_rules::triples::TripleWatcher;
use crate::watch::Watch;
use t1_char::{CharToken, Command, DrawnPath, Edition, MOST_NUMBERS, OthersubrCall, Step, Way};

/// How often a machine may look for moves in vain.
const MOST_TRIES: u32 = 8;

/// Where a glyph has moves that draw nothing, as hardly any font does: a machine passes these by
/// [`Machine::go_far`](t1_char::Machine::go_far). Only speed depends on it.
#[derive(Clone, Copy)]
struct Idling {
    /// The number of the last move.
    last: u32,
    /// How many steps it came after the move before it.
    gap: u32,
    /// How often it may still look in vain.
    tries: u32,
}

impl Idling {
    const NONE: Idling = Idling {
        last: 0,
        gap: 0,
        tries: MOST_TRIES,
    };

    /// Notes a move.
    #[inline(always)]
    fn see_move(&mut self, step: u32) {
        self.gap = step.wrapping_sub(self.last);
        self.last = step;
    }

    /// Whether the last step, of this number, was a move right after another, which has two numbers at most.
    #[inline(always)]
    fn is_idle(&self, step: u32) -> bool {
        self.last == step && self.gap <= 3 && self.tries > 0
    }

    /// Notes how many moves a machine passed.
    fn learn(&mut self, moves: u32) {
        if moves == 0 {
            self.tries = self.tries.saturating_sub(1);
        }
    }
}

/// Watches for the rules from C01 to O04, K01, K02 and K06, which a glyph's own steps decide, and for H05 to W03.
#[derive(Drop)]
pub struct Watches {
    arguments: ArgumentWatcher,
    calls: CallWatcher,
    paths: PathWatcher,
    stems: StemWatcher,
    flex: FlexWatcher,
    othersubrs: OthersubrWatcher,
    seac: SeacWatcher,
    triples: TripleWatcher,
    counters: CounterWatcher,
    idling: Idling,
}

impl Watch for Watches {
    ghost use Rattle.t1_rules.specs.StepRules.{step_rules};
    ghost use Rattle.t1_rules.specs.Private.Standing.{WatchesStandFor};

    ghost stands_for = { WatchesStandFor };

    ghost rules = { step_rules };

    fn start(edition: Edition) -> Watches {
        Watches {
            arguments: ArgumentWatcher::start(edition),
            calls: CallWatcher::start(edition),
            paths: PathWatcher::start(edition),
            stems: StemWatcher::start(edition),
            flex: FlexWatcher::start(edition),
            othersubrs: OthersubrWatcher::start(edition),
            seac: SeacWatcher::start(edition),
            triples: TripleWatcher::start(edition),
            counters: CounterWatcher::start(edition),
            idling: Idling::NONE,
        }
    }

    #[inline(always)]
    fn see_known(&mut self, token: CharToken, call: OthersubrCall, step: &Step) -> Mask {
        let arguments = self.arguments.see_known(token, call, step);
        let flex = self.flex.see_known(token, call, step);
        let calls = self.calls.see_known(token, call, step);
        let paths = self.paths.see_known(token, call, step);
        let stems = self.stems.see_known(token, call, step);
        let othersubrs = self.othersubrs.see_known(token, call, step);
        let seac = self.seac.see_known(token, call, step);
        let glyph = flex.join(othersubrs.join(seac));
        let early = arguments.join(calls.join(paths.join(stems.join(glyph))));
        if !self.counters.is_on() {
            return early;
        }
        let triples = self.triples.see_known(token, call, step);
        let counters = self.counters.see_known(token, call, step);
        early.join(triples.join(counters))
    }

    #[inline(always)]
    fn see(&mut self, step: &Step) -> Mask {
        self.see_as(step.token, step)
    }
}

impl Watches {
    /// The same as [`Watch::see`] of a step of this token. There is a copy of the watchers for each token that is
    /// frequent, in which no test of the token is left.
    #[inline(always)]
    pub fn see_as(&mut self, token: CharToken, step: &Step) -> Mask
        requires token { step.now.token ≡ token }
        requires steps { (edition : Editions) × ((before : List StepView) ×
            (WatchesStandFor edition self.old before × (length before < most_steps))) }
        ensures stands { (edition : Editions) (before : List StepView) →
            WatchesStandFor edition self.old before → length before < most_steps →
            WatchesStandFor edition self.new (before ++ step_view step.now ∷ []) }
        ensures answer { (edition : Editions) (before : List StepView) →
            WatchesStandFor edition self.old before → length before < most_steps →
            (n : ℕ) → has result n ≡ breaks (step_rules edition) n before (step_view step.now) }
    {
        match token {
            CharToken::Number(number) => self.see_number(number, step),
            CharToken::Command(command) => self.see_command(command, step),
            _ => self.see_rare(step),
        }
    }

    /// The same of a line or a curve, given where the current point is after it. In the midst of a path one with just its arguments,
    /// none past 32000, breaks no rule, and all that it changes are the current point and what is drawn.
    #[inline(always)]
    pub fn see_stroke(&mut self, step: &Step, end: Point) -> Mask
        requires line { is_line step.now.token ≡ true }
        requires steps { (edition : Editions) × ((before : List StepView) ×
            (WatchesStandFor edition self.old before × (length before < most_steps))) }
        ensures stands { (edition : Editions) (before : List StepView) →
            WatchesStandFor edition self.old before → length before < most_steps → current_point (before ++ step_view step.now ∷ []) ≡ end →
            WatchesStandFor edition self.new (before ++ step_view step.now ∷ []) }
        ensures answer { (edition : Editions) (before : List StepView) →
            WatchesStandFor edition self.old before → length before < most_steps →
            (n : ℕ) → has result n ≡ breaks (step_rules edition) n before (step_view step.now) }
    {
        let CharToken::Command(command) = step.token else {
            return self.see_rare(step);
        };
        if self.is_usual(command, step) && self.is_steady() {
            self.flex.lead_to(end);
            self.draw();
            return Mask::empty();
        }
        self.see_other(command, step)
    }

    /// What all watchers say of a number: most steps are numbers, and most of these change nothing.
    #[inline(always)]
    fn see_number(&mut self, number: i32, step: &Step) -> Mask
        requires token { step.now.token ≡ Number number }
        requires steps { CanSee self.old }
        ensures { Sees self.old (step_view step.now) self.new result }
    {
        if self.is_calm() {
            if step.stack.len() < MOST_NUMBERS {
                return Mask::empty();
            }
        }
        self.see_rare(step)
    }

    /// Before the first step again, in place: what the hint sets hold isn't overwritten.
    pub fn start_again(&mut self, edition: Edition)
        ensures { WatchesStandFor edition self.new [] }
    {
        self.paths = PathWatcher::start(edition);
        self.stems.start_again(edition);
        self.flex = FlexWatcher::start(edition);
        self.seac = SeacWatcher::start(edition);
        self.triples = TripleWatcher::start(edition);
        self.counters = CounterWatcher::start(edition);
        self.idling = Idling::NONE;
    }

    /// Whether no rule speaks of a number after the last steps, unless the stack is full.
    #[inline(always)]
    pub fn is_calm(&self) -> bool
        ensures { result ≡ true → IsCalm self.now }
    {
        self.stems.is_calm() & self.flex.is_calm()
    }

    /// Whether lines and curves after the steps so far break no rule, if they have exactly their arguments, none past
    /// 32000. Nor does a closepath right after these.
    #[inline(always)]
    pub fn is_steady(&self) -> bool
        ensures { result ≡ true → IsSteady self.now }
    {
        self.paths.is_steady()
            & self.stems.is_steady()
            & self.flex.is_steady()
            & self.seac.is_steady()
            & self.counters.is_steady()
    }

    /// Whether the last step, of this number, was a move right after another, as hardly any font has them, and moves after it
    /// break no rule either.
    #[inline(always)]
    pub fn is_idle(&self, step: u32) -> bool
        ensures calm { result ≡ true → IsCalm self.now }
        ensures steady { result ≡ true → IsSteady self.now }
        ensures undrawn { result ≡ true → IsUndrawn self.now }
    {
        self.idling.is_idle(step) && self.is_calm() && self.is_steady() && self.is_undrawn()
    }

    /// Whether nothing is drawn behind a move.
    fn is_undrawn(&self) -> bool
        ensures { result ≡ true → IsUndrawn self.now }
    {
        self.paths.is_undrawn() && self.seac.is_outlined()
    }

    /// The current point after the steps that were seen.
    #[tactic(auto, unfolding(crate::specs::Private::Standing::WatchesStandFor))]
    pub fn point(&self) -> Point
        ensures value { (edition : Editions) (before : List StepView) →
            WatchesStandFor edition self.now before → result ≡ current_point before }
        ensures near { (edition : Editions) (before : List StepView) →
            WatchesStandFor edition self.now before → IsNear (length before) result }
    {
        self.flex.point()
    }

    /// Whether a flex was started, and not ended since.
    #[tactic(auto, unfolding(crate::specs::Private::Standing::WatchesStandFor))]
    pub fn is_in_flex(&self) -> bool
        ensures { (edition : Editions) (before : List StepView) →
            WatchesStandFor edition self.now before → result ≡ in_flex before }
    {
        self.flex.is_in_flex()
    }

    /// The stems of hstem and hstem3 that are in force: the hint set that H02 looks at.
    #[tactic(auto, unfolding(crate::specs::Private::Standing::WatchesStandFor))]
    pub fn across(&self) -> &[Stem]
        ensures { (edition : Editions) (before : List StepView) →
            WatchesStandFor edition self.now before → result.now ≡ hint_set lies_across before }
    {
        self.stems.across()
    }

    /// Those of vstem and vstem3.
    #[tactic(auto, unfolding(crate::specs::Private::Standing::WatchesStandFor))]
    pub fn upright(&self) -> &[Stem]
        ensures { (edition : Editions) (before : List StepView) →
            WatchesStandFor edition self.now before → result.now ≡ hint_set stands_upright before }
    {
        self.stems.upright()
    }

    /// Keeps what lines, curves and closepaths change: the current point, and what is drawn.
    #[inline(always)]
    pub fn go(&mut self, way: Way)
        requires near { (n : ℕ) × (IsNear n (point_on self.old.flex.point way) × (n < most_steps)) }
        requires unmoved { way.moves ≡ 0 }
        ensures { self.new ≡ moved_on self.old way }
    {
        self.flex.go(way);
        match way.drawn {
            DrawnPath::Nothing => {}
            DrawnPath::Open => self.draw(),
            DrawnPath::Closed => {
                self.draw();
                self.paths.close();
            }
        }
    }

    /// Keeps what moves change, and lines after them.
    pub fn go_by_moves(&mut self, way: Way)
        requires near { (n : ℕ) × (IsNear n (point_on self.old.flex.point way) × (n < most_steps)) }
        requires few { self.old.flex.moves + way.moves < most_steps }
        ensures { self.new ≡ record (moved_on self.old way) { idling = self.new.idling } }
    {
        self.go(Way {
            x: way.x,
            y: way.y,
            moves: 0,
            drawn: way.drawn,
        });
        self.flex.count_moves(way.moves);
        self.idling.learn(way.moves);
    }

    /// Keeps what a line draws.
    #[inline(always)]
    fn draw(&mut self)
        ensures { self.new ≡ drawn_on self.old }
    {
        self.paths.draw();
        self.stems.draw();
        self.seac.draw();
    }

    /// What all watchers say of a step of this command. Calls, returns, stems and moves have functions of their own, which
    /// don't save the registers that other commands need.
    #[inline(always)]
    fn see_command(&mut self, command: Command, step: &Step) -> Mask
        requires token { IsCommand (step_view step.now) command }
        requires steps { CanSee self.old }
        ensures { Sees self.old (step_view step.now) self.new result }
    {
        match command {
            Command::Callsubr => self.see_call(step),
            Command::Return => self.see_return(step),
            Command::Hstem => self.see_hstem(step),
            Command::Vstem => self.see_vstem(step),
            Command::Rmoveto => self.see_rmoveto(step),
            Command::Hmoveto => self.see_hmoveto(step),
            Command::Vmoveto => self.see_vmoveto(step),
            _ => self.see_other(command, step),
        }
    }

    /// The same of any command. Lines, curves and closepaths come here where machines don't pass them, as before the
    /// first move.
    #[inline(never)]
    fn see_other(&mut self, command: Command, step: &Step) -> Mask
        requires token { IsCommand (step_view step.now) command }
        requires steps { CanSee self.old }
        ensures { Sees self.old (step_view step.now) self.new result }
    {
        match command {
            Command::Rlineto if self.is_usual(Command::Rlineto, step) => self.see_each(
                CharToken::Command(Command::Rlineto),
                step,
            ),
            Command::Hlineto if self.is_usual(Command::Hlineto, step) => self.see_each(
                CharToken::Command(Command::Hlineto),
                step,
            ),
            Command::Vlineto if self.is_usual(Command::Vlineto, step) => self.see_each(
                CharToken::Command(Command::Vlineto),
                step,
            ),
            Command::Rrcurveto if self.is_usual(Command::Rrcurveto, step) => self.see_each(
                CharToken::Command(Command::Rrcurveto),
                step,
            ),
            Command::Vhcurveto if self.is_usual(Command::Vhcurveto, step) => self.see_each(
                CharToken::Command(Command::Vhcurveto),
                step,
            ),
            Command::Hvcurveto if self.is_usual(Command::Hvcurveto, step) => self.see_each(
                CharToken::Command(Command::Hvcurveto),
                step,
            ),
            Command::Closepath => self.see_each(CharToken::Command(Command::Closepath), step),
            Command::Hsbw => self.see_each(CharToken::Command(Command::Hsbw), step),
            Command::Endchar => self.see_each(CharToken::Command(Command::Endchar), step),
            Command::Callothersubr => self.see_each(
                CharToken::Command(Command::Callothersubr),
                step,
            ),
            Command::Pop => self.see_each(CharToken::Command(Command::Pop), step),
            Command::Div => self.see_each(CharToken::Command(Command::Div), step),
            Command::Dotsection => self.see_each(CharToken::Command(Command::Dotsection), step),
            Command::Setcurrentpoint => self.see_each(
                CharToken::Command(Command::Setcurrentpoint),
                step,
            ),
            _ => self.see_rare(step),
        }
    }

    /// What all watchers say of a move that is as most are.
    #[inline(always)]
    fn see_move(&mut self, command: Command, step: &Step) -> Mask
        requires token { IsCommand (step_view step.now) command }
        requires steps { CanSee self.old }
        ensures { Sees self.old (step_view step.now) self.new result }
    {
        let broken = self.see_each(CharToken::Command(command), step);
        self.idling.see_move(step.number);
        broken
    }

    /// What all watchers say of a call of a Subr.
    #[inline(never)]
    fn see_call(&mut self, step: &Step) -> Mask
        requires token { IsCommand (step_view step.now) Callsubr }
        requires steps { CanSee self.old }
        ensures { Sees self.old (step_view step.now) self.new result }
    {
        self.see_each(CharToken::Command(Command::Callsubr), step)
    }

    /// The same of the way back from it.
    #[inline(never)]
    fn see_return(&mut self, step: &Step) -> Mask
        requires token { IsCommand (step_view step.now) Return }
        requires steps { CanSee self.old }
        ensures { Sees self.old (step_view step.now) self.new result }
    {
        self.see_each(CharToken::Command(Command::Return), step)
    }

    /// The same of a horizontal stem.
    #[inline(never)]
    fn see_hstem(&mut self, step: &Step) -> Mask
        requires token { IsCommand (step_view step.now) Hstem }
        requires steps { CanSee self.old }
        ensures { Sees self.old (step_view step.now) self.new result }
    {
        if self.is_usual(Command::Hstem, step) {
            return self.see_each(CharToken::Command(Command::Hstem), step);
        }
        self.see_rare(step)
    }

    /// The same of a vertical stem.
    #[inline(never)]
    fn see_vstem(&mut self, step: &Step) -> Mask
        requires token { IsCommand (step_view step.now) Vstem }
        requires steps { CanSee self.old }
        ensures { Sees self.old (step_view step.now) self.new result }
    {
        if self.is_usual(Command::Vstem, step) {
            return self.see_each(CharToken::Command(Command::Vstem), step);
        }
        self.see_rare(step)
    }

    /// The same of a move in both directions.
    #[inline(never)]
    fn see_rmoveto(&mut self, step: &Step) -> Mask
        requires token { IsCommand (step_view step.now) Rmoveto }
        requires steps { CanSee self.old }
        ensures { Sees self.old (step_view step.now) self.new result }
    {
        if self.is_usual(Command::Rmoveto, step) {
            return self.see_move(Command::Rmoveto, step);
        }
        self.see_rare(step)
    }

    /// The same of a horizontal move.
    #[inline(never)]
    fn see_hmoveto(&mut self, step: &Step) -> Mask
        requires token { IsCommand (step_view step.now) Hmoveto }
        requires steps { CanSee self.old }
        ensures { Sees self.old (step_view step.now) self.new result }
    {
        if self.is_usual(Command::Hmoveto, step) {
            return self.see_move(Command::Hmoveto, step);
        }
        self.see_rare(step)
    }

    /// The same of a vertical move.
    #[inline(never)]
    fn see_vmoveto(&mut self, step: &Step) -> Mask
        requires token { IsCommand (step_view step.now) Vmoveto }
        requires steps { CanSee self.old }
        ensures { Sees self.old (step_view step.now) self.new result }
    {
        if self.is_usual(Command::Vmoveto, step) {
            return self.see_move(Command::Vmoveto, step);
        }
        self.see_rare(step)
    }

    /// Whether a move, a line, a curve or a stem is as most are. That is tested first, so that in the copy of the
    /// watchers for such a step hardly a test is left.
    #[inline(always)]
    fn is_usual(&self, command: Command, step: &Step) -> bool
        ensures calm { result ≡ true → IsCalm self.now }
        ensures count { result ≡ true → arguments_of command ≡ Some (length step.now.stack) }
        ensures near { result ≡ true → list_any is_past step.now.stack ≡ false }
    {
        self.is_calm() && has_its_arguments(command, step.stack.as_slice())
    }

    /// What all watchers say of a step of a token that is rare.
    #[inline(never)]
    fn see_rare(&mut self, step: &Step) -> Mask
        requires { CanSee self.old }
        ensures { Sees self.old (step_view step.now) self.new result }
    {
        self.see_each(step.token, step)
    }

    /// What all watchers say of a step of this token.
    #[inline(always)]
    fn see_each(&mut self, token: CharToken, step: &Step) -> Mask
        requires token { step.now.token ≡ token }
        requires steps { CanSee self.old }
        ensures { Sees self.old (step_view step.now) self.new result }
    {
        self.see_known(token, call_of(token, step), step)
    }
}
