//! What the numbers of a host mean.

ghost use Rattle.std.specs.Prelude.{◌≡◌};
ghost use Rattle.t1_web.specs.Numbers.{IsFormOf, bytes_of, extent_of, list_key, stage_number, stage_of, status_of};

use t1_font::Key;
use t1_picture::Extent;
use t1_pieces::{Form, Missing, Piece, Stage};

/// The form that a host names: 0 is t1check's line, any other number an object of the font of a name. None where the name isn't
/// UTF-8.
pub(crate) fn form_of(number: u32, name: &[u8]) -> Option<Form<'_>>
    ensures { IsFormOf number name.now result }
{
    if number == 0 {
        return Some(Form::Text);
    }
    match str::from_utf8(name) {
        Ok(name) => Some(Form::Object(name)),
        Err(_) => None,
    }
}

/// The stage that a host names.
pub(crate) fn stage_of(number: u8) -> Stage
    ensures { result ≡ stage_of number }
{
    match number {
        0 => Stage::Nothing,
        1 => Stage::Beginning,
        _ => Stage::Results,
    }
}

/// The number of a stage.
pub(crate) fn stage_number(stage: Stage) -> u8
    ensures { result ≡ stage_number stage }
{
    match stage {
        Stage::Nothing => 0,
        Stage::Beginning => 1,
        Stage::Results => 2,
    }
}

/// The status of what was handed over.
pub(crate) fn status_of(piece: Piece) -> u32
    ensures { result ≡ status_of piece }
{
    match piece {
        Piece::Last(_) => 0,
        Piece::More(_) => 1,
        Piece::NoRoom(_) => 2,
        Piece::Refused(_) => 3,
        Piece::Memory => 4,
        Piece::Missing(Missing::Glyph) => 5,
        Piece::Missing(Missing::Fault) => 7,
        Piece::Missing(Missing::Numbers) => 8,
    }
}

/// How many bytes were handed over; where the room is too small, how many are to be.
pub(crate) fn bytes_of(piece: Piece) -> usize
    ensures { result ≡ bytes_of piece }
{
    match piece {
        Piece::Last(count) | Piece::More(count) | Piece::NoRoom(count) | Piece::Refused(count) =>
            count,
        Piece::Missing(_) | Piece::Memory => 0,
    }
}

/// How much of a glyph a host names by a kind and a number: 0 is all steps, 1 the steps up to that one, any other kind the
/// fault of the number.
pub(crate) fn extent_of(kind: u32, number: u64) -> Extent
    ensures { result ≡ extent_of kind number }
{
    match kind {
        0 => Extent::All,
        1 => Extent::UpTo(number),
        _ => Extent::Fault(number),
    }
}

/// The key that a host names by its number, as faults count keys, if entries of it are lists of numbers.
pub(crate) fn list_key(number: u32) -> Option<Key>
    ensures { result ≡ list_key number }
{
    match number {
        7 => Some(Key::MinFeature),
        9 => Some(Key::BlueValues),
        10 => Some(Key::OtherBlues),
        11 => Some(Key::FamilyBlues),
        12 => Some(Key::FamilyOtherBlues),
        16 => Some(Key::StdHw),
        17 => Some(Key::StdVw),
        18 => Some(Key::StemSnapH),
        19 => Some(Key::StemSnapV),
        22 => Some(Key::FontMatrix),
        23 => Some(Key::FontBBox),
        24 => Some(Key::Xuid),
        _ => None,
    }
}
