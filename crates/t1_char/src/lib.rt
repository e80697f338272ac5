//! Charstrings of Type 1 fonts: their tokens, and their steps, one for each token that is executed.
//!
//! - [`tokens`] turns a charstring, as it is in the font, into its tokens: numbers, commands, bytes that
//!   are no command, and how it ends. Adobe Type 1 Font Format 1.1, chapter 6; and chapter 7 for the
//!   cipher and the leading random bytes.
//! - [`expand`] executes a glyph and lists its steps, also those of the Subrs that it calls. Each has its
//!   number, its path of Subrs, and the stack before it: the same, chapters 6 and 8.
//! - [`Machine`] executes a glyph one step a call: the same steps, without a list, and without memory.
//! - [`command_name`] is what the standard calls a command; [`Command::arguments`] counts what it takes.
//!
//! Numbers on the stack are in units of 1/65536.
//!
//! What is promised, for all bytes and all fonts:
//!
//! - The tokens are those that the definitions in `specs/` read. The steps are those of the expansion, up to the
//!   first past the limit of the [`Edition`], numbered from 1. Running out of memory alone says nothing of them.
//! - A machine returns just these, one a call, then the end or the limit, however often it is called.
//! - A faulty charstring is executed too: a 25th number is dropped, an eleventh call isn't made, a
//!   division by zero results in 0, a command that isn't known empties the stack.
//! - No index, sum, cast or divisor goes wrong, calls nest ten deep at most, and each call returns.
//!
//! Charstrings are deciphered as they are read; no plain copy is made.
//!
//! ```
//! for token in &t1_char::tokens(alloc, b"\x8b\xf8\x88\x0d\x0e", -1)? {
//!     println!(rt; "{token:?}")?; // 0, 500, hsbw, endchar, and the end
//! }
//! for step in &t1_char::expand(alloc, &font, 0, Edition::One)? {
//!     println!(rt; "{} {:?}", step.number, step.token)?;
//! }
//! ```
#![tactic(auto)]

mod action;
mod argument;
mod charstrings;
mod command;
mod cursor;
mod edition;
mod effect;
mod endings;
mod expansion;
mod frames;
mod laws;
mod lines;
mod machine;
mod numbers;
mod seacs;
mod stack;
mod step;
mod subr;
mod taking;
mod token;
mod token_list;

pub use argument::OthersubrCall;
pub use command::{Command, command_name};
pub use edition::Edition;
pub use endings::token_behind_end;
pub use expansion::expand;
pub use laws::{
    machines_answer_in_order, quotients_are_cut_towards_zero, runs_go_step_by_step,
    short_and_cut_charstrings_are_returned, stacks_are_taken_from_the_top,
    steps_are_looked_back_on, steps_follow_the_tokens, steps_go_on, steps_tell_calls_and_ends,
    written_charstrings_are_read,
};
pub use lines::{DrawnPath, Passing, Way};
pub use machine::{Answer, Far, Machine, Numbers, Turn};
pub use numbers::{GREATEST, UNIT, cut_quotient, natural};
pub use seacs::{steps_lack_seac, subrs_lack_seac};
pub use stack::{MOST_NUMBERS, Stack};
pub use step::{MOST_CALLS, Path, Step};
pub use token::{CharToken, is_callothersubr, is_callsubr, is_end, is_finishing, is_return};
pub use token_list::{has_return, last_token, tokens};
