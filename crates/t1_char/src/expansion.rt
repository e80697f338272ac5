//! A glyph's steps as a list: Type 1 Font Format 1.1, chapters 6 and 8.

ghost use Rattle.std.specs.Prelude.{◌^◌, ◌≡◌, ◌≤◌, ◌<◌, ◌-◌, ◌++◌, ◌∷◌, [], false, IfOk, MatchBool, OnOk, length, map};
ghost use Rattle.t1_char.specs.Editions.{limit_of};
ghost use Rattle.t1_char.specs.Effects.{effect};
ghost use Rattle.t1_char.specs.Steps.{first_steps};
ghost use Rattle.t1_char.specs.Private.Actions.{IsNested, action_of};
ghost use Rattle.t1_char.specs.Private.Cursors.{behind_token, tokens_left};
ghost use Rattle.t1_char.specs.Private.Listings.{effect_taken, run_from, state_in, step_taken, steps_in};
ghost use Rattle.t1_char.specs.StepValues.{step_value};
ghost use Rattle.t1_char.specs.Private.Steps.{AreNumbered, IsExpanded};

use crate::action::Action;
use crate::charstrings::{code_at, cursor_at};
use crate::cursor::Cursor;
use crate::edition::Edition;
use crate::effect::{Waiting, apply};
use crate::stack::Stack;
use crate::step::{Path, Step, is_last, named_at};
use crate::token::CharToken;
use arrayvec::ArrayVec;
use std::alloc::{AllocError, Global};
use t1_font::{Font, copy_of};

/// The steps of a glyph, by its place, from the first on: all, or those up to the first past the limit of the edition.
///
/// It is the plain form: each step keeps a path and a stack of its own.
pub fn expand(
    alloc: Global,
    font: &Font<'_>,
    glyph: usize,
    edition: Edition,
) -> Result<Vec<Step>, AllocError>
    requires { glyph < length font.now.glyphs }
    ensures { IfOk result (λ steps. map step_value steps.items ≡ first_steps (limit_of edition) font.now glyph) }
{
    expand_to(alloc, edition.step_limit(), &*font, glyph)
}

/// The steps up to the first past a limit.
fn expand_to<'a>(
    alloc: Global,
    limit: u32,
    font: &'a Font<'a>,
    glyph: usize,
) -> Result<Vec<Step>, AllocError>
    requires { limit < 2 ^ 32 - 1 }
    ensures { IfOk result (λ steps. map step_value steps.items ≡ first_steps limit font.now glyph) }
{
    let mut listing = Listing {
        font,
        most: limit + 1,
        steps: Vec::new(alloc),
        path: ArrayVec::new(),
        stack: Stack::new(),
        waiting: ArrayVec::new(),
    };
    listing.list(cursor_at(font, code_at(font, glyph)))?;
    Ok(listing.steps)
}

/// The steps that were listed, and the state after them.
#[derive(Drop)]
struct Listing<'a> {
    font: &'a Font<'a>,
    /// How many steps are listed at most.
    most: u32,
    steps: Vec<Step>,
    path: Path,
    stack: Stack,
    waiting: Waiting,
}

/// What a step did, and the tokens after it.
#[derive(Clone, Copy)]
struct Taken<'a> {
    token: CharToken,
    action: Action<'a>,
    behind: Cursor<'a>,
}

impl<'a> Listing<'a> {
    /// Lists the steps of these tokens, and returns whether they finish the glyph.
    fn list(&mut self, cursor: Cursor<'a>) -> Result<bool, AllocError>
        requires room { length self.old.steps.items ≤ self.old.most }
        requires numbered { AreNumbered self.old.steps.items }
        ensures listed { IfOk result (λ finished.
            IsExpanded self.old.most (steps_in self.old) (run_from self.old cursor.entry)
            (steps_in self.new) finished (state_in self.new)) }
        ensures numbered { OnOk result (AreNumbered self.new.steps.items) }
        ensures path { IfOk result (λ finished.
            finished ≡ false → length self.new.steps.items < self.old.most →
            self.new.path.items ≡ self.old.path.items) }
        ensures font { self.new.font.now ≡ self.old.font.now }
        ensures most { self.new.most ≡ self.old.most }
    {
        let mut left = cursor;
        loop {
            if self.is_full() {
                return Ok(false);
            }
            let taken = self.take_one(left)?;
            match taken.action {
                Action::Goes => {}
                Action::Calls(subr) => {
                    self.path.push(subr.number);
                    let finished = self.list(cursor_at(self.font, subr.code))?;
                    if self.is_full() {
                        return Ok(finished);
                    }
                    if finished {
                        return Ok(true);
                    }
                    self.path.pop();
                }
                Action::Returns => return Ok(false),
                Action::Finishes => return Ok(true),
            }
            left = taken.behind;
        }
    }

    fn is_full(&self) -> bool
        ensures { MatchBool result (self.now.most ≤ length self.now.steps.items)
            (length self.now.steps.items < self.now.most) }
    {
        self.steps.len() >= self.most as usize
    }

    /// Lists the step of the next token, and executes it.
    fn take_one(&mut self, mut cursor: Cursor<'a>) -> Result<Taken<'a>, AllocError>
        requires room { length self.old.steps.items < self.old.most }
        requires numbered { AreNumbered self.old.steps.items }
        ensures tokens { IfOk result (λ taken.
            tokens_left cursor.entry ≡ taken.token ∷ behind_token taken.token (tokens_left taken.behind)) }
        ensures step { IfOk result (λ taken.
            steps_in self.new ≡ steps_in self.old ++ step_taken self.old taken.token taken.behind ∷ []) }
        ensures numbered { OnOk result (AreNumbered self.new.steps.items) }
        ensures room { OnOk result (length self.new.steps.items ≤ self.old.most) }
        ensures effect { IfOk result (λ taken.
            effect (state_in self.new) (action_of taken.action) ≡ effect_taken self.old taken.token) }
        ensures nested { IfOk result (λ taken.
            IsNested (length self.old.path.items) (action_of taken.action)) }
        ensures path { self.new.path.items ≡ self.old.path.items }
        ensures font { self.new.font.now ≡ self.old.font.now }
        ensures most { self.new.most ≡ self.old.most }
    {
        let token = cursor.next_token();
        let depth = self.path.len();
        let named = named_at(self.font, token, &self.stack);
        let step = Step {
            number: self.steps.len() as u32 + 1,
            token,
            path: copy_of(&self.path),
            stack: self.stack.copy(),
            waiting: self.waiting.len(),
            found: named.is_some(),
            last: is_last(&token, &cursor, depth),
        };
        self.steps.push(step)?;
        let action = apply(&mut self.stack, &mut self.waiting, token, named, depth);
        Ok(Taken {
            token,
            action,
            behind: cursor,
        })
    }
}
