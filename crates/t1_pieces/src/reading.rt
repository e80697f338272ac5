//! From the bytes of a font and of waivers to lines.

ghost use Rattle.std.specs.Prelude.{◌≡◌, IfErr, IfOk, IsOkAnd, Ok, OnErr, length};
ghost use Rattle.t1_run.specs.FontFiles.{font_of, with_reason};
ghost use Rattle.t1_run.specs.WaiverFiles.{waivers_in};
ghost use Rattle.t1_pieces.specs.Pieces.{IsPiece, IsPieceOf};
ghost use Rattle.t1_pieces.specs.Reading.{IsFailureOf, input_in, input_of};

use crate::filling::fill;
use crate::form::Form;
use crate::piece::{Piece, hand_over};
use crate::request::Request;
use std::alloc::Global;
use t1_char::Edition;
use t1_font::{Font, OpenFont, RefusalCode};
use t1_report::{LARGEST_WAIVERS, Mark, Waivers};
use t1_rules::Sidebearings;
use t1_run::{Failure, LARGEST_FILE};

/// Hands over the lines of a font's report after a mark, as many as the room holds, and moves the mark to the last of
/// them. Of the mark of four zeros they are the first lines.
pub fn lines(
    alloc: Global,
    request: &Request<'_>,
    form: Form<'_>,
    mark: &mut Mark,
    room: &mut [u8],
) -> Piece
    ensures piece { IsPiece form.entry (input_in request.now.edition request.now.font.now request.now.waivers.now)
        mark.old mark.new room.new result }
    ensures length { length room.new ≡ length room.old }
{
    hand_over(lines_of_file(alloc, request, form, mark, room), room)
}

/// Reads the font, and hands over lines of its report.
fn lines_of_file(
    alloc: Global,
    request: &Request<'_>,
    form: Form<'_>,
    mark: &mut Mark,
    room: &mut [u8],
) -> Result<Piece, Failure>
    ensures piece { IfOk result (λ piece. IsOkAnd (input_in request.now.edition request.now.font.now request.now.waivers.now)
        (λ input. IsPieceOf form.entry input mark.old mark.new room.new piece)) }
    ensures failed { IfErr result (IsFailureOf (input_in request.now.edition request.now.font.now request.now.waivers.now)) }
    ensures mark { OnErr result (mark.new ≡ mark.old) }
    ensures length { length room.new ≡ length room.old }
{
    let mut file = open(alloc, request.font)?;
    let font = file.font(alloc)?;
    let piece = lines_of_font(alloc, &font, request, form, mark, room);
    font.let_go();
    piece
}

/// Reads the waivers, and hands over lines of a font's report.
fn lines_of_font(
    alloc: Global,
    font: &Font<'_>,
    request: &Request<'_>,
    form: Form<'_>,
    mark: &mut Mark,
    room: &mut [u8],
) -> Result<Piece, Failure>
    ensures piece { IfOk result (λ piece. IsOkAnd (input_of request.now.edition (Ok font.now) (waivers_in request.now.edition request.now.waivers.now))
        (λ input. IsPieceOf form.entry input mark.old mark.new room.new piece)) }
    ensures failed { IfErr result (IsFailureOf (input_of request.now.edition (Ok font.now) (waivers_in request.now.edition request.now.waivers.now))) }
    ensures mark { OnErr result (mark.new ≡ mark.old) }
    ensures length { length room.new ≡ length room.old }
{
    let waivers = read_waivers(alloc, request.waivers, request.edition)?;
    let sidebearings = Sidebearings::prepare(alloc, font, request.edition)?;
    Ok(fill(alloc, form, &*font, &sidebearings, &waivers, mark, room))
}

/// Joins the segments of a font's file. More than 16,777,216 bytes are refused, by E05.
pub(crate) fn open(alloc: Global, bytes: &[u8]) -> Result<OpenFont, Failure>
    ensures opened { IfOk result (λ file. with_reason file ≡ font_of bytes.now) }
    ensures failed { IfErr result (IsFailureOf (font_of bytes.now)) }
{
    if bytes.len() > LARGEST_FILE {
        return Err(Failure::Refused(RefusalCode::E05));
    }
    Ok(OpenFont::open(alloc, bytes)?)
}

/// Reads the waivers of a text by an edition. More than 1,048,576 bytes are refused, by E15.
pub(crate) fn read_waivers(
    alloc: Global,
    text: &[u8],
    edition: Edition,
) -> Result<Waivers<'_>, Failure>
    ensures read { IfOk result (λ waivers. waivers_in edition text.now ≡ Ok waivers) }
    ensures failed { IfErr result (IsFailureOf (waivers_in edition text.now)) }
{
    if text.len() > LARGEST_WAIVERS {
        return Err(Failure::Refused(RefusalCode::E15));
    }
    Ok(Waivers::read(alloc, text, edition)?)
}
