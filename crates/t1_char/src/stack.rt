//! The stack of numbers: Type 1 Font Format 1.1, chapter 6.

ghost use Rattle.std.specs.Prelude.{◌≡◌, ◌≤◌, ◌<◌, ◌+◌, ◌-◌, [], length, nat_eq, nat_le};
ghost use Rattle.t1_char.specs.Stacks.{from_top, most_numbers, put, without};
ghost use Rattle.t1_char.specs.Private.Taking.{TakesLines};

use crate::cursor::Ahead;
use crate::lines::Passing;
use crate::taking::{Lines, take_lines};
use std::marker::Model;

/// The most numbers that a stack holds: Type 1 Font Format 1.1, chapter 6.
pub const MOST_NUMBERS: usize = 24;

/// The numbers on the stack, bottom first, at most 24, in units of 1/65536.
///
/// What is taken off isn't overwritten, so that emptying it costs nothing.
#[derive(Drop)]
pub struct Stack {
    cells: [i64; MOST_NUMBERS],
    len: usize,
}

impl Model for Stack {
    ghost use Rattle.std.specs.Prelude.{ℤ, List, ◌≤◌, take};
    ghost use Rattle.t1_char.specs.Stacks.{most_numbers};

    ghost Value = { List ℤ };

    ghost view = { λ s. take s.len s.cells };

    ghost invariant = { λ s. s.len ≤ most_numbers };
}

impl Stack {
    /// An empty stack.
    pub(crate) fn new() -> Stack
        ensures { result ≡ [] }
    {
        Stack {
            cells: [0; MOST_NUMBERS],
            len: 0,
        }
    }

    /// The numbers, bottom first.
    pub fn as_slice(&self) -> &[i64]
        ensures numbers { result.now ≡ self.now }
        ensures most { length self.now ≤ most_numbers }
    {
        &self.cells[..self.len]
    }

    /// How many numbers there are.
    pub fn len(&self) -> usize
        ensures len { result ≡ length self.now }
        ensures most { length self.now ≤ most_numbers }
    {
        self.len
    }

    /// Whether there is no number.
    pub fn is_empty(&self) -> bool
        ensures { result ≡ nat_eq (length self.now) 0 }
    {
        self.len == 0
    }

    /// Whether there is no room for one more.
    #[inline(always)]
    pub(crate) fn is_full(&self) -> bool
        ensures { result ≡ nat_le most_numbers (length self.now) }
    {
        self.len >= MOST_NUMBERS
    }

    /// A stack of the same numbers.
    pub(crate) fn copy(&self) -> Stack
        ensures { result ≡ self.now }
    {
        Stack {
            cells: self.cells,
            len: self.len,
        }
    }

    /// Takes all numbers off.
    pub(crate) fn clear(&mut self)
        ensures { self.new ≡ [] }
    {
        self.len = 0;
    }

    /// Puts a number on top, or drops it where there are 24.
    pub(crate) fn put(&mut self, number: i64)
        ensures { self.new ≡ put self.old number }
    {
        if self.len < MOST_NUMBERS {
            self.cells[self.len] = number;
            self.len += 1;
        }
    }

    /// Takes the numbers that come next while there is room, and where lines are passed also these and curves after them, and
    /// where moves are these too: `room` steps at most, with the numbers that there is room for behind them.
    #[inline(always)]
    pub(crate) fn take_lines<'a>(
        &mut self,
        ahead: Ahead<'a>,
        room: u32,
        passing: Passing,
    ) -> Lines<'a>
        requires room { most_numbers < room }
        requires limited { room < 16777216 }
        ensures takes { TakesLines passing ahead.entry self.old self.new result }
        ensures near { result.passed + (most_numbers - length self.new) ≤ room }
    {
        let stop = take_lines(&mut self.cells, self.len, ahead, room, passing);
        self.len = stop.len;
        stop
    }

    /// The number so many below the top, which is there.
    pub fn from_top(&self, below: usize) -> i64
        requires { below < length self.now }
        ensures { result ≡ from_top self.now below }
    {
        self.cells[self.len - 1 - below]
    }

    /// Takes the topmost numbers off, so many.
    pub(crate) fn take_off(&mut self, count: usize)
        requires { count ≤ length self.old }
        ensures { self.new ≡ without count self.old }
    {
        self.len -= count;
    }
}
