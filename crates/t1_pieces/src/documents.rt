//! Handing over a document of SARIF.

ghost use Rattle.std.specs.Prelude.{◌≡◌, IfErr, IfOk, IsOkAnd, Ok, OnErr, length};
ghost use Rattle.t1_forms.specs.PageValues.{pages_value};
ghost use Rattle.t1_run.specs.WaiverFiles.{waivers_in};
ghost use Rattle.t1_pieces.specs.Documents.{IsDocumentPiece, IsDocumentPieceOf, subject_of};
ghost use Rattle.t1_pieces.specs.Reading.{IsFailureOf, input_in, input_of};

use crate::filling_documents::fill_document;
use crate::piece::{Piece, hand_over};
use crate::reading::{open, read_waivers};
use crate::request::Request;
use crate::stage::Reached;
use std::alloc::Global;
use t1_font::Font;
use t1_forms::Pages;
use t1_rules::Sidebearings;
use t1_run::Failure;

/// What a document says beside the report.
#[derive(Clone, Copy, Debug)]
pub struct DocumentRequest<'a> {
    /// The font's name, as results have it.
    pub name: &'a str,
    /// The pages of rules and refusals, as the document has them.
    pub pages: Pages<'a>,
}

/// Hands over the document of SARIF 2.1.0 that t1check-all writes of one font, with reasons, from a place on: whole results,
/// as many as the room holds. The place is moved to the last of them.
pub fn document(
    alloc: Global,
    request: &Request<'_>,
    wanted: &DocumentRequest<'_>,
    reached: &mut Reached,
    room: &mut [u8],
) -> Piece
    ensures piece { IsDocumentPiece wanted.now.name.now (pages_value wanted.now.pages)
        (input_in request.now.edition request.now.font.now request.now.waivers.now) reached.old reached.new room.new result }
    ensures length { length room.new ≡ length room.old }
{
    hand_over(
        document_of_file(alloc, request, wanted, reached, room),
        room,
    )
}

/// Reads the font, and hands over its document.
fn document_of_file(
    alloc: Global,
    request: &Request<'_>,
    wanted: &DocumentRequest<'_>,
    reached: &mut Reached,
    room: &mut [u8],
) -> Result<Piece, Failure>
    ensures piece { IfOk result (λ piece. IsOkAnd (input_in request.now.edition request.now.font.now request.now.waivers.now)
        (λ input. IsDocumentPieceOf (subject_of wanted.now.name.now (pages_value wanted.now.pages) input) reached.old reached.new room.new piece)) }
    ensures failed { IfErr result (IsFailureOf (input_in request.now.edition request.now.font.now request.now.waivers.now)) }
    ensures reached { OnErr result (reached.new ≡ reached.old) }
    ensures length { length room.new ≡ length room.old }
{
    let mut file = open(alloc, request.font)?;
    let font = file.font(alloc)?;
    let piece = document_of_font(alloc, &font, request, wanted, reached, room);
    font.let_go();
    piece
}

/// Reads the waivers, and hands over a font's document.
fn document_of_font(
    alloc: Global,
    font: &Font<'_>,
    request: &Request<'_>,
    wanted: &DocumentRequest<'_>,
    reached: &mut Reached,
    room: &mut [u8],
) -> Result<Piece, Failure>
    ensures piece { IfOk result (λ piece. IsOkAnd (input_of request.now.edition (Ok font.now) (waivers_in request.now.edition request.now.waivers.now))
        (λ input. IsDocumentPieceOf (subject_of wanted.now.name.now (pages_value wanted.now.pages) input) reached.old reached.new room.new piece)) }
    ensures failed { IfErr result (IsFailureOf (input_of request.now.edition (Ok font.now) (waivers_in request.now.edition request.now.waivers.now))) }
    ensures reached { OnErr result (reached.new ≡ reached.old) }
    ensures length { length room.new ≡ length room.old }
{
    let waivers = read_waivers(alloc, request.waivers, request.edition)?;
    let sidebearings = Sidebearings::prepare(alloc, font, request.edition)?;
    Ok(fill_document(
        alloc,
        wanted,
        &*font,
        &sidebearings,
        &waivers,
        reached,
        room,
    ))
}
