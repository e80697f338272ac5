//! From the bytes of a font and of waivers to a picture.

ghost use Rattle.std.specs.Prelude.{◌≡◌, IfErr, IfOk, IsOkAnd, Ok, length};
ghost use Rattle.t1_run.specs.WaiverFiles.{waivers_in};
ghost use Rattle.t1_pieces.specs.Drawings.{IsDrawing, IsDrawn};
ghost use Rattle.t1_pieces.specs.Reading.{IsFailureOf, input_in, input_of};

use crate::piece::{Missing, Piece, hand_over, put_text};
use crate::reading::{open, read_waivers};
use crate::request::Request;
use std::alloc::Global;
use t1_font::Font;
use t1_picture::{Extent, View, picture as draw, shown_by};
use t1_rules::{Sidebearings, glyph_named};
use t1_run::Failure;

/// Hands over the picture of the glyph of a name, of which so much is drawn, as t1draw makes it.
pub fn picture(
    alloc: Global,
    request: &Request<'_>,
    glyph: &[u8],
    extent: Extent,
    room: &mut [u8],
) -> Piece
    ensures drawing { IsDrawing glyph.now extent (input_in request.now.edition request.now.font.now request.now.waivers.now) room.new result }
    ensures length { length room.new ≡ length room.old }
{
    hand_over(drawn_of_file(alloc, request, glyph, extent, room), room)
}

/// Reads the font, and draws the glyph.
fn drawn_of_file(
    alloc: Global,
    request: &Request<'_>,
    glyph: &[u8],
    extent: Extent,
    room: &mut [u8],
) -> Result<Piece, Failure>
    ensures drawn { IfOk result (λ piece. IsOkAnd (input_in request.now.edition request.now.font.now request.now.waivers.now)
        (λ input. IsDrawn glyph.now extent input room.new piece)) }
    ensures failed { IfErr result (IsFailureOf (input_in request.now.edition request.now.font.now request.now.waivers.now)) }
    ensures length { length room.new ≡ length room.old }
{
    let mut file = open(alloc, request.font)?;
    let font = file.font(alloc)?;
    let drawn = drawn_of_font(alloc, &font, request, glyph, extent, room);
    font.let_go();
    drawn
}

/// Reads the waivers, and draws the glyph.
fn drawn_of_font(
    alloc: Global,
    font: &Font<'_>,
    request: &Request<'_>,
    glyph: &[u8],
    extent: Extent,
    room: &mut [u8],
) -> Result<Piece, Failure>
    ensures drawn { IfOk result (λ piece. IsOkAnd (input_of request.now.edition (Ok font.now) (waivers_in request.now.edition request.now.waivers.now))
        (λ input. IsDrawn glyph.now extent input room.new piece)) }
    ensures failed { IfErr result (IsFailureOf (input_of request.now.edition (Ok font.now) (waivers_in request.now.edition request.now.waivers.now))) }
    ensures length { length room.new ≡ length room.old }
{
    let waivers = read_waivers(alloc, request.waivers, request.edition)?;
    let Some(glyph) = glyph_named(font, glyph) else {
        return Ok(Piece::Missing(Missing::Glyph));
    };
    let sidebearings = Sidebearings::prepare(alloc, font, request.edition)?;
    let Ok(shown) = shown_by(font, &sidebearings, &waivers, glyph, extent) else {
        return Ok(Piece::Missing(Missing::Fault));
    };
    let view = View {
        font: &*font,
        sidebearings: &sidebearings,
        waivers: &waivers,
        glyph,
        shown,
    };
    let text = draw(alloc, &view)?;
    Ok(put_text(text.as_bytes(), room))
}
