//! What a call hands over.

ghost use Rattle.std.specs.Prelude.{◌≡◌, IfErr, IfOk, length};
ghost use Rattle.t1_pieces.specs.Pieces.{IsFailedBy, IsRefusedBy, IsTextIn};

use crate::room::put;
use t1_font::{RefusalCode, refusal_text};
use t1_run::Failure;

/// What a call hands over.
#[derive(Clone, Copy, Debug, PartialEq, Eq)]
pub enum Piece {
    /// A whole text, or the last lines of one: so many bytes at the beginning of the room.
    Last(usize),
    /// As many lines as the room holds: so many bytes at its beginning. A line is left after them.
    More(usize),
    /// The room doesn't hold what comes next, which has so many bytes.
    NoRoom(usize),
    /// The font or the waivers are refused: so many bytes at the beginning of the room say why, the code first.
    Refused(usize),
    /// There is no such text.
    Missing(Missing),
    /// An allocation was refused.
    Memory,
}

/// Why a font and waivers that are read have no such text.
#[derive(Clone, Copy, Debug, PartialEq, Eq)]
pub enum Missing {
    /// The font has no glyph of the name.
    Glyph,
    /// The report has no fault of the number, or another glyph has it.
    Fault,
    /// The entry isn't there, or is no list of numbers.
    Numbers,
}

/// Returns what was handed over of a font that was read, or hands over why there is nothing.
pub(crate) fn hand_over(handed: Result<Piece, Failure>, room: &mut [u8]) -> Piece
    ensures handed { IfOk handed (λ piece. (result ≡ piece) × (room.new ≡ room.old)) }
    ensures failed { IfErr handed (λ failure. IsFailedBy failure room.new result) }
    ensures length { length room.new ≡ length room.old }
{
    match handed {
        Ok(piece) => piece,
        Err(Failure::Refused(code)) => put_refusal(code, room),
        Err(_) => Piece::Memory,
    }
}

/// Hands over a whole text.
pub(crate) fn put_text(text: &[u8], room: &mut [u8]) -> Piece
    ensures text { IsTextIn text.now room.new result }
    ensures length { length room.new ≡ length room.old }
{
    match put(room, text) {
        Some(count) => Piece::Last(count),
        None => Piece::NoRoom(text.len()),
    }
}

fn put_refusal(code: RefusalCode, room: &mut [u8]) -> Piece
    ensures text { IsRefusedBy code room.new result }
    ensures length { length room.new ≡ length room.old }
{
    let text = refusal_text(code).as_bytes();
    match put(room, text) {
        Some(count) => Piece::Refused(count),
        None => Piece::NoRoom(text.len()),
    }
}
