//! Numbers, moves and lines that are taken from a charstring in a row: Type 1 Font Format 1.1, chapter 6. What is left of the
//! charstring is copied field by field, so that it stays in registers.

ghost use Rattle.std.specs.Prelude.{◌≡◌, ◌+◌, ◌-◌, ◌<◌, ◌≤◌, [], IfSome, false, length, take, true, Some};
ghost use Rattle.std.specs.List.{list_any};
ghost use Rattle.t1_char.specs.Lines.{IsWayNear, IsWithin, is_closed, is_far, leads};
ghost use Rattle.t1_char.specs.declared.lines.Passing.{Passing as Passings};
ghost use Rattle.t1_char.specs.Numbers.{units};
ghost use Rattle.t1_char.specs.Stacks.{most_numbers, put};
ghost use Rattle.t1_char.specs.Private.Cursors.{cursor_of};
ghost use Rattle.t1_char.specs.Private.Taking.{Finishes, IsLedFirst, IsTokenRead, StopsAt, Takes, TakesLines, closepath_byte, lines_at, stop_cursor};
ghost use Rattle.t1_char.specs.declared.cursor.Cursor.{Cursor};

use crate::cursor::Ahead;
use crate::lines::{Passing, Way, is_moves, leads, line_at, move_at};
use crate::numbers::UNIT;
use crate::stack::MOST_NUMBERS;
use crate::token::CharToken;
use t1_seal::Cipher;

/// The byte that writes closepath.
const CLOSEPATH: u8 = 9;

/// Where numbers were no longer taken.
#[derive(Clone, Copy)]
pub(crate) struct Stop<'a> {
    /// What is left after the first byte of the next token, or nothing.
    pub(crate) left: &'a [u8],
    pub(crate) cipher: Option<Cipher>,
    /// That byte, unless the charstring ends.
    pub(crate) first: Option<u8>,
    /// How many numbers there are then.
    pub(crate) len: usize,
}

/// Puts the numbers that come next after the first `len` ones, as long as there is room.
#[inline(always)]
pub(crate) fn take_numbers<'a>(
    cells: &mut [i64; MOST_NUMBERS],
    len: usize,
    ahead: Ahead<'a>,
) -> Stop<'a>
    requires { len ≤ most_numbers }
    ensures takes { Takes ahead.entry (take len cells.old) (take result.len cells.new) result }
    ensures room { result.len ≤ most_numbers }
    ensures len { result.len ≡ length (take result.len cells.new) }
{
    let mut len = len;
    let mut ahead = Ahead {
        left: ahead.left,
        cipher: ahead.cipher,
    };
    loop {
        let mut behind = Ahead {
            left: ahead.left,
            cipher: ahead.cipher,
        };
        match behind.next_byte() {
            None => {
                return Stop {
                    left: ahead.left,
                    cipher: ahead.cipher,
                    first: None,
                    len,
                };
            }
            Some(first) => {
                let left = behind.left;
                let cipher = behind.cipher;
                if len >= MOST_NUMBERS {
                    return Stop {
                        left,
                        cipher,
                        first: Some(first),
                        len,
                    };
                }
                match behind.number_behind(first) {
                    None => {
                        return Stop {
                            left,
                            cipher,
                            first: Some(first),
                            len,
                        };
                    }
                    Some(number) => put_in(cells, len, number),
                }
                len += 1;
                ahead = Ahead {
                    left: behind.left,
                    cipher: behind.cipher,
                };
            }
        }
    }
}

/// What comes after what was taken.
#[derive(Clone, Copy)]
pub(crate) enum Next {
    Token(CharToken),
    /// 255; the number of four bytes after it isn't read yet.
    Long,
    End,
}

/// What was taken, up to a token.
#[derive(Clone, Copy)]
pub(crate) struct Lines<'a> {
    /// What is left after the token's first byte, or nothing.
    pub(crate) left: &'a [u8],
    pub(crate) cipher: Option<Cipher>,
    /// That byte, unless the charstring ends.
    pub(crate) first: Option<u8>,
    /// How many numbers there are then.
    pub(crate) len: usize,
    /// How many steps were taken.
    pub(crate) passed: u32,
    /// The way of these steps.
    pub(crate) way: Way,
}

/// Takes the numbers that come next, as long as there is room, and where lines are passed these and curves after them, and
/// where moves are these too, as long as there is room for a full stack of steps and a closepath more. Behind them there is room
/// for as many numbers as the stack can still hold.
#[inline(always)]
pub(crate) fn take_lines<'a>(
    cells: &mut [i64; MOST_NUMBERS],
    len: usize,
    ahead: Ahead<'a>,
    room: u32,
    passing: Passing,
) -> Lines<'a>
    requires few { len ≤ most_numbers }
    requires room { most_numbers < room }
    requires limited { room < 16777216 }
    ensures takes { TakesLines passing ahead.entry (take len cells.old) (take result.len cells.new) result }
    ensures few { result.len ≤ most_numbers }
    ensures len { result.len ≡ length (take result.len cells.new) }
    ensures near { result.passed + (most_numbers - result.len) ≤ room }
{
    // Loops of their own, which test no more whether bytes are enciphered.
    match ahead.cipher {
        Some(cipher) => {
            let ahead = Ahead {
                left: ahead.left,
                cipher: Some(cipher),
            };
            take_any(cells, len, ahead, room, passing)
        }
        None => {
            let ahead = Ahead {
                left: ahead.left,
                cipher: None,
            };
            take_any(cells, len, ahead, room, passing)
        }
    }
}

/// The same by a path, or by numbers alone.
#[inline(always)]
fn take_any<'a>(
    cells: &mut [i64; MOST_NUMBERS],
    len: usize,
    ahead: Ahead<'a>,
    room: u32,
    passing: Passing,
) -> Lines<'a>
    requires few { len ≤ most_numbers }
    requires room { most_numbers < room }
    requires limited { room < 16777216 }
    ensures takes { TakesLines passing ahead.entry (take len cells.old) (take result.len cells.new) result }
    ensures few { result.len ≤ most_numbers }
    ensures len { result.len ≡ length (take result.len cells.new) }
    ensures near { result.passed + (most_numbers - result.len) ≤ room }
{
    if leads(passing) && len == 0 {
        take_path(cells, ahead, room, passing)
    } else {
        take_front(cells, len, ahead)
    }
}

/// Takes numbers alone.
#[inline(always)]
fn take_front<'a>(cells: &mut [i64; MOST_NUMBERS], len: usize, ahead: Ahead<'a>) -> Lines<'a>
    requires few { len ≤ most_numbers }
    ensures takes { (what : Passings) → TakesLines what ahead.entry (take len cells.old) (take result.len cells.new) result }
    ensures few { result.len ≤ most_numbers }
    ensures len { result.len ≡ length (take result.len cells.new) }
    ensures near { result.passed ≤ result.len }
{
    let stop = take_numbers(cells, len, ahead);
    let passed = (stop.len - len) as u32;
    stopped(stop, passed, Way::NONE)
}

/// Takes lines and curves, and moves before them, with the numbers before each, as long as there is room for a full stack of steps and a
/// closepath more, and the closepath after lines.
#[inline(always)]
fn take_path<'a>(
    cells: &mut [i64; MOST_NUMBERS],
    ahead: Ahead<'a>,
    room: u32,
    passing: Passing,
) -> Lines<'a>
    requires leads { leads passing ≡ true }
    requires room { most_numbers < room }
    requires limited { room < 16777216 }
    ensures takes { TakesLines passing ahead.entry [] (take result.len cells.new) result }
    ensures few { result.len ≤ most_numbers }
    ensures len { result.len ≡ length (take result.len cells.new) }
    ensures near { result.passed + (most_numbers - result.len) ≤ room }
{
    let mut ahead = Ahead {
        left: ahead.left,
        cipher: ahead.cipher,
    };
    let mut passed = 0;
    let mut way = Way::NONE;
    loop {
        let stop = take_numbers(cells, 0, ahead);
        passed += stop.len as u32;
        match led_by(passing, way, stop.first, &cells[..stop.len]) {
            Some(one) if room - passed > MOST_NUMBERS as u32 + 1 => {
                way = way.further(one, passed);
                passed += 1;
                ahead = Ahead {
                    left: stop.left,
                    cipher: stop.cipher,
                };
            }
            _ => return finish_path(stop, passed, way),
        }
    }
}

/// Takes a closepath that comes right after a line, and reads the first byte of the next token.
#[inline(always)]
fn finish_path<'a>(stop: Stop<'a>, passed: u32, way: Way) -> Lines<'a>
    requires { passed < 16777216 }
    ensures { Finishes stop.entry passed way result }
{
    if way.is_open() && is_closepath(stop.first) && stop.len == 0 {
        let behind = stop_at(Ahead {
            left: stop.left,
            cipher: stop.cipher,
        });
        stopped(behind, passed + 1, way.closed())
    } else {
        stopped(stop, passed, way)
    }
}

/// Whether it is the byte that writes closepath.
#[inline(always)]
fn is_closepath(first: Option<u8>) -> bool
    ensures { result ≡ true → first ≡ Some closepath_byte }
{
    match first {
        Some(first) => first == CLOSEPATH,
        None => false,
    }
}

/// Reads the first byte of the next token.
#[inline(always)]
fn stop_at<'a>(ahead: Ahead<'a>) -> Stop<'a>
    ensures first { StopsAt result.first (cursor_of ahead.entry) (stop_cursor result) }
    ensures len { result.len ≡ 0 }
{
    let mut behind = Ahead {
        left: ahead.left,
        cipher: ahead.cipher,
    };
    match behind.next_byte() {
        None => Stop {
            left: ahead.left,
            cipher: ahead.cipher,
            first: None,
            len: 0,
        },
        Some(first) => Stop {
            left: behind.left,
            cipher: behind.cipher,
            first: Some(first),
            len: 0,
        },
    }
}

/// How far the line or the move leads that has this first byte, if there is one that is passed after such a way.
#[inline(always)]
fn led_by(passing: Passing, way: Way, first: Option<u8>, numbers: &[i64]) -> Option<Way>
    requires leads { leads passing ≡ true }
    requires near { list_any is_far numbers.now ≡ false }
    requires unclosed { is_closed way.drawn ≡ false }
    ensures led { IfSome result (λ one. IsLedFirst passing way.drawn first numbers.now one) }
    ensures near { IfSome result (λ one. IsWayNear 1 one) }
    ensures moves { IfSome result (λ one. one.moves ≤ 1) }
{
    let Some(first) = first else {
        return None;
    };
    if is_moves(passing) && way.is_undrawn() {
        if let Some(one) = move_at(first, numbers) {
            return Some(one);
        }
    }
    line_at(first, numbers)
}

/// What was taken up to a stop.
#[inline(always)]
fn stopped<'a>(stop: Stop<'a>, passed: u32, way: Way) -> Lines<'a>
    ensures { result ≡ lines_at stop.entry passed way }
{
    Lines {
        left: stop.left,
        cipher: stop.cipher,
        first: stop.first,
        len: stop.len,
        passed,
        way,
    }
}

/// Reads the token of this first byte, if it isn't 255.
#[inline(always)]
pub(crate) fn next_from(first: Option<u8>, ahead: &mut Ahead<'_>) -> Next
    ensures { (before : Cursor) → StopsAt first before (cursor_of ahead.old) → IsTokenRead result before (cursor_of ahead.new) }
{
    match first {
        None => Next::End,
        Some(255) => Next::Long,
        Some(first) => Next::Token(ahead.token_from(first)),
    }
}

/// Puts a number after the first `len` ones.
#[inline(always)]
fn put_in(cells: &mut [i64; MOST_NUMBERS], len: usize, number: i64)
    requires len { len < most_numbers }
    requires short { IsWithin 1131 number }
    ensures { take (len + 1) cells.new ≡ put (take len cells.old) (units number) }
{
    cells[len] = number * UNIT;
}
