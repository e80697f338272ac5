//! The charstrings that are being executed: a glyph's, and those of the Subrs that it calls. Type 1 Font Format 1.1, chapters 6
//! and 8.

ghost use Rattle.std.specs.Prelude.{◌≡◌, ◌<◌, ◌≤◌, ◌+◌, ◌-◌, ◌++◌, ◌∷◌, [], if◌then◌else◌, false, is_some, length, take, true};
ghost use Rattle.t1_char.specs.Charstrings.{tokens_in};
ghost use Rattle.t1_char.specs.Effects.{most_calls};
ghost use Rattle.t1_char.specs.Steps.{is_callsubr, named_at, steps_of};
ghost use Rattle.t1_char.specs.Private.Actions.{named_of};
ghost use Rattle.t1_char.specs.StepValues.{step_view};
ghost use Rattle.t1_char.specs.Private.Cursors.{AtFirst, behind_token, cursor_of, tokens_left};
ghost use Rattle.t1_char.specs.Private.Advancing.{Advances, ReadsToken, passage};
ghost use Rattle.t1_char.specs.Private.Taking.{IsTokenRead, PassesUpTo};
ghost use Rattle.t1_char.specs.declared.cursor.Cursor.{Cursor};
ghost use Rattle.t1_char.specs.Stacks.{most_numbers};
ghost use Rattle.t1_char.specs.Private.Frames.{IsReady, state_in, step_here, steps_behind, steps_from};
ghost use Rattle.t1_char.specs.declared.edition.Edition.TheVariants.{Two};
ghost use Rattle.t1_char.specs.Editions.{limit_of};
ghost use Rattle.t1_char.specs.declared.lines.Passing.TheVariants.{Moves, Returned};

use crate::action::Action;
use crate::charstrings::{code_at, cursor_at};
use crate::cursor::{Ahead, Cursor};
use crate::effect::{Waiting, apply, apply_plain};
use crate::lines::{Passing, Way, is_any, is_moves};
use crate::numbers::{natural, units};
use crate::stack::{MOST_NUMBERS, Stack};
use crate::step::{MOST_CALLS, Step, is_last};
use crate::subr::Subr;
use crate::taking::{Next, next_from};
use crate::token::{CharToken, is_callsubr};
use arrayvec::ArrayVec;
use t1_font::Font;

/// A glyph's charstring and those of the Subrs that are being executed, at most eleven, with a step that
/// was read and not yet executed.
#[derive(Drop)]
pub(crate) struct Frames<'a> {
    /// Behind the step's token.
    current: Cursor<'a>,
    /// The charstrings that called, the glyph's first, each after its callsubr.
    callers: ArrayVec<Cursor<'a>, MOST_CALLS>,
    /// The Subr that the step calls, where its token is callsubr.
    named: Option<Subr<'a>>,
    waiting: Waiting,
    /// The way of the steps that were passed out of line.
    way: Way,
    pub(crate) step: Step,
}

/// How many steps a run has executed, and the way of those that it passed.
#[derive(Clone, Copy)]
pub(crate) struct Gone {
    pub(crate) before: u32,
    pub(crate) way: Way,
}

impl<'a> Frames<'a> {
    /// A glyph's charstring, after a step that does nothing.
    pub(crate) fn start(font: &'a Font<'a>, glyph: usize) -> Frames<'a>
        ensures ready { IsReady font.now result }
        ensures steps { steps_from font.now result ≡ step_here font.now result ∷ steps_of font.now glyph }
    {
        Frames {
            current: cursor_at(font, code_at(font, glyph)),
            callers: ArrayVec::new(),
            named: None,
            waiting: ArrayVec::new(),
            way: Way::NONE,
            step: Step {
                number: 0,
                token: CharToken::Cut,
                path: ArrayVec::new(),
                stack: Stack::new(),
                waiting: 0,
                found: false,
                last: false,
            },
        }
    }

    /// The same of another glyph, in place: what the arrays hold isn't overwritten.
    pub(crate) fn start_again(&mut self, font: &'a Font<'a>, glyph: usize)
        ensures ready { IsReady font.now self.new }
        ensures steps { steps_from font.now self.new ≡ step_here font.now self.new ∷ steps_of font.now glyph }
    {
        self.current = cursor_at(font, code_at(font, glyph));
        self.callers.clear();
        self.named = None;
        self.waiting.clear();
        self.step.token = CharToken::Cut;
        self.step.path.clear();
        self.step.stack.clear();
    }

    /// Executes the step, and returns whether the run goes on.
    #[inline(always)]
    pub(crate) fn execute(&mut self, font: &'a Font<'a>) -> bool
        requires { IsReady font.now self.old }
        ensures steps { steps_from font.now self.old
            ≡ step_here font.now self.old ∷ (if result then steps_behind font.now self.new else []) }
        ensures even { length self.new.step.path.items ≡ length self.new.callers.items }
    {
        if apply_plain(&mut self.step.stack, self.step.token) {
            return true;
        }
        self.execute_other(font)
    }

    /// The same of any step.
    #[inline(never)]
    fn execute_other(&mut self, font: &'a Font<'a>) -> bool
        requires { IsReady font.now self.old }
        ensures steps { steps_from font.now self.old
            ≡ step_here font.now self.old ∷ (if result then steps_behind font.now self.new else []) }
        ensures even { length self.new.step.path.items ≡ length self.new.callers.items }
    {
        let depth = self.step.path.len();
        match apply(
            &mut self.step.stack,
            &mut self.waiting,
            self.step.token,
            self.named,
            depth,
        ) {
            Action::Goes => true,
            Action::Calls(subr) => {
                self.enter(font, subr);
                true
            }
            Action::Returns => {
                self.leave();
                true
            }
            Action::Finishes => false,
        }
    }

    /// Goes into a Subr.
    fn enter(&mut self, font: &'a Font<'a>, subr: Subr<'a>)
        requires room { length self.old.step.path.items < most_calls }
        requires even { length self.old.step.path.items ≡ length self.old.callers.items }
        ensures path { self.new.step.path.items ≡ self.old.step.path.items ++ subr.entry.number ∷ [] }
        ensures callers { self.new.callers.items ≡ self.old.callers.items ++ self.old.current ∷ [] }
        ensures current { tokens_left self.new.current ≡ tokens_in font.now subr.entry.code.now }
        ensures state { state_in self.new ≡ state_in self.old }
    {
        self.callers.push(self.current);
        self.step.path.push(subr.number);
        self.current = cursor_at(font, subr.code);
    }

    /// Goes back into the charstring that called.
    fn leave(&mut self)
        requires called { 0 < length self.old.callers.items }
        ensures path { self.new.step.path.items
            ≡ take (length self.old.step.path.items - 1) self.old.step.path.items }
        ensures callers { self.old.callers.items ≡ self.new.callers.items ++ self.new.current ∷ [] }
        ensures state { state_in self.new ≡ state_in self.old }
    {
        self.step.path.pop();
        if let Some(caller) = self.callers.pop() {
            self.current = caller;
        }
    }

    /// Passes the steps that come next as far as it may, and reads the step after them. Returns how many steps are before that,
    /// where there were `counted` before the first.
    #[inline(always)]
    pub(crate) fn advance(
        &mut self,
        passing: Passing,
        font: &'a Font<'a>,
        counted: u32,
        limit: u32,
    ) -> Gone
        requires counted { counted ≤ limit }
        requires few { limit ≤ limit_of Two }
        requires even { length self.old.step.path.items ≡ length self.old.callers.items }
        ensures over { Advances (passage passing limit font.now) counted self.old result self.new }
        ensures returned { passing ≡ Returned → result.before ≡ counted }
        ensures near { result.before ≤ limit }
    {
        let gone = self.go_over(passing, font, counted, limit);
        self.hold(font, gone.before + 1);
        gone
    }

    /// Passes the steps that come next as far as it may, and reads the token after them.
    #[inline(always)]
    fn go_over(&mut self, passing: Passing, font: &'a Font<'a>, counted: u32, limit: u32) -> Gone
        requires counted { counted ≤ limit }
        requires few { limit ≤ limit_of Two }
        ensures over { ReadsToken (passage passing limit font.now) counted self.old result self.new }
        ensures path { self.new.step.path.items ≡ self.old.step.path.items }
        ensures callers { self.new.callers.items ≡ self.old.callers.items }
        ensures returned { passing ≡ Returned → result.before ≡ counted }
        ensures near { result.before ≤ limit }
    {
        if has_room(counted, limit) && is_any(passing) {
            if is_moves(passing) {
                let before = self.go_over_moves(font, counted, limit);
                return self.gone(before);
            }
            if let Some(ahead) = self.current.ahead() {
                return self.go_over_far(ahead, font, counted, limit, passing);
            }
        }
        self.read_token();
        Gone {
            before: counted,
            way: Way::NONE,
        }
    }

    /// How many steps were executed, and the way that is kept.
    #[inline(always)]
    fn gone(&self, before: u32) -> Gone
        ensures before { result.before ≡ before }
        ensures way { result.way ≡ self.now.way }
    {
        Gone {
            before,
            way: Way {
                x: self.way.x,
                y: self.way.y,
                moves: self.way.moves,
                drawn: self.way.drawn,
            },
        }
    }

    /// The same with moves, far from the limit. It keeps the way, and returns how many steps are before the one that it reads.
    #[inline(never)]
    fn go_over_moves(&mut self, font: &'a Font<'a>, counted: u32, limit: u32) -> u32
        requires far { counted + most_numbers < limit }
        requires few { limit ≤ limit_of Two }
        ensures over { ReadsToken (passage Moves limit font.now) counted self.old
            (record { before = result; way = self.new.way }) self.new }
        ensures path { self.new.step.path.items ≡ self.old.step.path.items }
        ensures callers { self.new.callers.items ≡ self.old.callers.items }
        ensures near { result ≤ limit }
    {
        match self.current.ahead() {
            Some(ahead) => {
                let gone = self.go_over_far(ahead, font, counted, limit, Passing::Moves);
                self.way = gone.way;
                gone.before
            }
            None => {
                self.read_token();
                self.way = Way::NONE;
                counted
            }
        }
    }

    /// The same far from the limit, where numbers are passed.
    #[inline(always)]
    fn go_over_far(
        &mut self,
        ahead: Ahead<'a>,
        font: &'a Font<'a>,
        counted: u32,
        limit: u32,
        passing: Passing,
    ) -> Gone
        requires ahead { cursor_of ahead ≡ self.old.current }
        requires far { counted + most_numbers < limit }
        requires few { limit ≤ limit_of Two }
        ensures over { ReadsToken (passage passing limit font.now) counted self.old result self.new }
        ensures path { self.new.step.path.items ≡ self.old.step.path.items }
        ensures callers { self.new.callers.items ≡ self.old.callers.items }
        ensures near { result.before ≤ limit }
    {
        let stop = self.step.stack.take_lines(ahead, limit - counted, passing);
        let mut behind = Ahead {
            left: stop.left,
            cipher: stop.cipher,
        };
        let token = next_from(stop.first, &mut behind);
        self.current = Cursor {
            left: behind.left,
            cipher: behind.cipher,
            short: false,
        };
        let more = self.take_token(token);
        Gone {
            before: counted + stop.passed + more,
            way: stop.way,
        }
    }

    /// Takes a token that was read, or reads it. Where 255 begins it, it passes the numbers that come first while the stack has room.
    /// Returns how many it passed.
    #[inline(always)]
    fn take_token(&mut self, token: Next) -> u32
        ensures passes { (before : Cursor) → IsTokenRead token before self.old.current →
            PassesUpTo result before self.old.step.stack self.new.step.token self.new.current self.new.step.stack }
        ensures kept { self.new
            ≡ record self.old {
              current = self.new.current;
              step = record self.old.step { token = self.new.step.token; stack = self.new.step.stack };
            } }
        ensures near { result ≤ most_numbers - length self.old.step.stack }
    {
        match token {
            Next::Token(token) => {
                self.step.token = token;
                0
            }
            Next::Long => self.go_over_long(),
            Next::End => {
                self.read_token();
                0
            }
        }
    }

    /// Reads the number that 255 begins, passes it and the numbers after it while the stack has room, and reads the token after
    /// these. Returns how many it passed.
    #[inline(never)]
    fn go_over_long(&mut self) -> u32
        ensures passes { (before : Cursor) → AtFirst 255 before self.old.current →
            PassesUpTo result before self.old.step.stack self.new.step.token self.new.current self.new.step.stack }
        ensures kept { self.new
            ≡ record self.old {
              current = self.new.current;
              step = record self.old.step { token = self.new.step.token; stack = self.new.step.stack };
            } }
        ensures near { result ≤ most_numbers - length self.old.step.stack }
    {
        let mut token = self.current.long_token();
        let mut passed = 0;
        loop {
            match token {
                CharToken::Number(number) if !self.step.stack.is_full() => {
                    self.step.stack.put(units(number));
                    passed += 1;
                    token = self.current.next_token();
                }
                _ => {
                    self.step.token = token;
                    return passed;
                }
            }
        }
    }

    /// Reads the next token.
    #[inline(never)]
    fn read_token(&mut self)
        ensures token { tokens_left self.old.current
            ≡ self.new.step.token ∷ behind_token self.new.step.token (tokens_left self.new.current) }
        ensures kept { self.new
            ≡ record self.old { current = self.new.current; step = record self.old.step { token = self.new.step.token } } }
    {
        self.step.token = self.current.next_token();
    }

    /// Notes what belongs to the token that was read.
    #[inline(always)]
    fn hold(&mut self, font: &'a Font<'a>, number: u32)
        requires even { length self.old.step.path.items ≡ length self.old.callers.items }
        ensures ready { IsReady font.now self.new }
        ensures step { step_view self.new.step ≡ step_here font.now self.new }
        ensures number { self.new.step.number ≡ number }
        ensures kept { self.new
            ≡ record self.old {
              named = self.new.named;
              step = record self.old.step {
                number = self.new.step.number;
                waiting = self.new.step.waiting;
                found = self.new.step.found;
                last = self.new.step.last;
              };
            } }
    {
        self.step.number = number;
        self.step.waiting = self.waiting.len();
        self.step.found = false;
        if is_callsubr(self.step.token) {
            self.name(font);
        }
        self.step.last = is_last(&self.step.token, &self.current, self.step.path.len());
    }

    /// Looks for the Subr that the step calls.
    #[inline(never)]
    fn name(&mut self, font: &'a Font<'a>)
        requires calls { is_callsubr self.old.step.token ≡ true }
        ensures named { named_of self.new.named ≡ named_at font.now self.old.step.token self.old.step.stack }
        ensures found { self.new.step.found ≡ is_some (named_at font.now self.old.step.token self.old.step.stack) }
        ensures kept { self.new
            ≡ record self.old { named = self.new.named; step = record self.old.step { found = self.new.step.found } } }
    {
        // In place: nothing is copied.
        if !self.step.stack.is_empty() {
            if let Some(number) = natural(self.step.stack.from_top(0)) {
                if let Some(code) = font.subr(number) {
                    self.named = Some(Subr { code, number });
                    self.step.found = true;
                    return;
                }
            }
        }
        self.named = None;
        self.step.found = false;
    }
}

/// Whether there is room for a full stack of steps and a closepath before the limit.
#[inline(always)]
fn has_room(counted: u32, limit: u32) -> bool
    requires { counted ≤ limit }
    ensures { result ≡ true → counted + most_numbers < limit }
{
    limit - counted > MOST_NUMBERS as u32
}
