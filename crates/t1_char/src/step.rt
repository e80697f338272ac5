//! The steps of a glyph: Type 1 Font Format 1.1, chapters 6 and 8.

ghost use Rattle.std.specs.Prelude.{◌≡◌};
ghost use Rattle.t1_char.specs.Steps.{is_last, named_at};
ghost use Rattle.t1_char.specs.Private.Actions.{named_of};
ghost use Rattle.t1_char.specs.Private.Cursors.{behind_token, tokens_left};

use crate::cursor::Cursor;
use crate::numbers::natural;
use crate::stack::Stack;
use crate::subr::Subr;
use crate::token::{CharToken, is_callsubr, is_end, is_return};
use arrayvec::ArrayVec;
use t1_font::Font;

/// How many calls of Subrs are open at most: Type 1 Font Format 1.1, chapter 6.
pub const MOST_CALLS: usize = 10;

/// The Subrs that are being executed, the outermost first.
pub type Path = ArrayVec<u32, MOST_CALLS>;

/// One token of a glyph that is executed.
#[derive(Drop)]
pub struct Step {
    /// Its number among the glyph's steps, from 1 on.
    pub number: u32,
    pub token: CharToken,
    /// The Subrs that are being executed, the outermost first.
    pub path: Path,
    /// The numbers on the stack before the step.
    pub stack: Stack,
    /// How many results of an OtherSubr wait for pop before the step.
    pub waiting: usize,
    /// Whether it calls a Subr by the number of one that is there, be the call made or not.
    pub found: bool,
    /// Whether what follows the token in its charstring is End alone, or, in a Subr, return and End.
    pub last: bool,
}

/// The Subr that the top of the stack names, where the token calls it.
#[inline(always)]
pub(crate) fn named_at<'a>(font: &'a Font<'a>, token: CharToken, stack: &Stack) -> Option<Subr<'a>>
    ensures { named_of result ≡ named_at font.now token stack.now }
{
    if !is_callsubr(token) || stack.len() == 0 {
        return None;
    }
    match natural(stack.from_top(0)) {
        None => None,
        Some(number) => match font.subr(number) {
            None => None,
            Some(code) => Some(Subr { code, number }),
        },
    }
}

/// Whether what follows a token is End alone, or, in a Subr, return and End.
#[inline(always)]
pub(crate) fn is_last(token: &CharToken, behind: &Cursor<'_>, depth: usize) -> bool
    ensures { result ≡ is_last depth (behind_token token.now (tokens_left behind.now)) }
{
    // A return is a byte, and End none: where more bytes are left, more follows.
    if behind.left_len() > 1 {
        return false;
    }
    if behind.is_empty() {
        return !is_end(*token);
    }
    ends(token, behind, depth)
}

/// The same by the tokens that follow.
#[inline(never)]
fn ends(token: &CharToken, behind: &Cursor<'_>, depth: usize) -> bool
    ensures { result ≡ is_last depth (behind_token token.now (tokens_left behind.now)) }
{
    if is_end(*token) {
        return false;
    }
    let mut behind = *behind;
    let next = behind.next_token();
    if is_end(next) {
        return true;
    }
    if depth == 0 {
        return false;
    }
    if !is_return(next) {
        return false;
    }
    is_end(behind.next_token())
}
