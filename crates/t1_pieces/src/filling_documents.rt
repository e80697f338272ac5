//! Filling a room with the results of a report.

ghost use Rattle.std.specs.Prelude.{◌≡◌, ◌≤◌, IfOk, length, take};
ghost use Rattle.t1_forms.specs.PageValues.{pages_value};
ghost use Rattle.t1_forms.specs.Sarif.{SarifState, closing, opening, sarif_state};
ghost use Rattle.t1_report.specs.Checked.{checked};
ghost use Rattle.t1_report.specs.declared.marks.Mark.{Mark as Marks};
ghost use Rattle.t1_rules.specs.Components.{AreOf};
ghost use Rattle.t1_pieces.specs.Documents.{IsDocumentPieceOf, IsPartOf, StandsFor, start_at, subject_for};
ghost use Rattle.t1_pieces.specs.DocumentParts.{IsEndPut, IsRestOf, start_of};
ghost use Rattle.t1_pieces.specs.declared.stage.Stage.TheVariants.{Nothing};

use crate::document_writer::DocumentWriter;
use crate::documents::DocumentRequest;
use crate::filling::full;
use crate::piece::Piece;
use crate::room::put_after;
use crate::stage::{Reached, Stage};
use std::alloc::{AllocError, Global};
use t1_font::Font;
use t1_reasons::ReportReasons;
use t1_report::{Waivers, Walk};
use t1_rules::Sidebearings;

/// Hands over the document of a font's report from a place on, as many results as a room holds, and moves the place to the
/// last of them.
pub(crate) fn fill_document<'a>(
    alloc: Global,
    request: &'a DocumentRequest<'a>,
    font: &'a Font<'a>,
    sidebearings: &'a Sidebearings,
    waivers: &'a Waivers<'a>,
    reached: &mut Reached,
    room: &mut [u8],
) -> Piece
    requires { AreOf font.now sidebearings.now }
    ensures piece { IsDocumentPieceOf
        (subject_for request.now (checked font.now sidebearings.now.edition) waivers.now) reached.old reached.new room.new result }
    ensures length { length room.new ≡ length room.old }
{
    let reasons = ReportReasons::new(font, sidebearings);
    let mut walk = Walk::resume(font, sidebearings, waivers, reached.mark);
    match open(alloc, request, reasons, font, waivers, &mut walk, reached) {
        Ok(writer) => fill_opened(writer, font, waivers, walk, reached, room),
        Err(_) => Piece::Memory,
    }
}

/// What writes the results after the last one that was handed over, to which the walk goes on.
fn open<'a>(
    alloc: Global,
    request: &'a DocumentRequest<'a>,
    reasons: ReportReasons<'a>,
    font: &Font<'_>,
    waivers: &Waivers<'_>,
    walk: &mut Walk<'_>,
    reached: &Reached,
) -> Result<DocumentWriter<'a>, AllocError>
    requires font { walk.old.font.value ≡ font.now }
    requires waivers { walk.old.waivers ≡ waivers.now }
    requires mark { walk.old.mark ≡ reached.now.mark }
    ensures opened { IfOk result (λ writer. (state : SarifState) (mark : Marks)
        → StandsFor (subject_for request.now walk.old.font waivers.now) reached.now state mark
        → (sarif_state writer.results.formatter ≡ state) × (walk.new.mark ≡ mark)) }
    ensures text { IfOk result (λ writer. reached.now.stage ≡ Nothing → writer.results.streams.out.bytes.items ≡ opening (pages_value request.now.pages)) }
    ensures request { IfOk result (λ writer. writer.request.now ≡ request.now) }
    ensures reasons { IfOk result (λ writer. writer.reasons ≡ reasons.entry) }
    ensures font { walk.new.font ≡ walk.old.font }
    ensures waivers { walk.new.waivers ≡ walk.old.waivers }
{
    match reached.stage {
        Stage::Nothing | Stage::Beginning => DocumentWriter::begin(alloc, request, reasons),
        Stage::Results => match walk.next() {
            Some(last) => DocumentWriter::resume(
                alloc,
                request,
                reasons,
                &reached.counts,
                font,
                waivers,
                &last,
            ),
            None => DocumentWriter::begin(alloc, request, reasons),
        },
    }
}

/// The same as [`fill_document`], by a writer and a walk that are after the last result that was handed over.
fn fill_opened(
    writer: DocumentWriter<'_>,
    font: &Font<'_>,
    waivers: &Waivers<'_>,
    walk: Walk<'_>,
    reached: &mut Reached,
    room: &mut [u8],
) -> Piece
    requires font { walk.font.value ≡ font.now }
    requires reasons { writer.reasons ≡ walk.font }
    requires waivers { walk.waivers ≡ waivers.now }
    requires text { reached.old.stage ≡ Nothing → writer.results.streams.out.bytes.items ≡ opening (pages_value writer.request.now.pages) }
    ensures piece { StandsFor (subject_for writer.entry.request.now walk.entry.font waivers.now) reached.old
        (sarif_state writer.entry.results.formatter) walk.entry.mark
        → IsPartOf (start_at (subject_for writer.entry.request.now walk.entry.font waivers.now) reached.old
        (sarif_state writer.entry.results.formatter) walk.entry.mark) reached.old reached.new room.new result }
    ensures length { length room.new ≡ length room.old }
{
    let mut at = *reached;
    let mut used = 0;
    if matches!(at.stage, Stage::Nothing) {
        let text = writer.as_bytes();
        if text.len() > room.len() {
            return Piece::NoRoom(text.len());
        }
        put_after(room, 0, text);
        used = text.len();
        at.stage = Stage::Beginning;
    }
    let filled = Filled { at, used };
    fill_results(writer, font, waivers, walk, reached, filled, room)
}

/// How far a room is filled.
#[derive(Clone, Copy)]
struct Filled {
    /// The place to which its bytes lead.
    at: Reached,
    /// How many bytes there are.
    used: usize,
}

/// Hands over results after the bytes with which a room is filled.
fn fill_results(
    mut writer: DocumentWriter<'_>,
    font: &Font<'_>,
    waivers: &Waivers<'_>,
    mut walk: Walk<'_>,
    reached: &mut Reached,
    filled: Filled,
    room: &mut [u8],
) -> Piece
    requires font { walk.font.value ≡ font.now }
    requires reasons { writer.reasons ≡ walk.font }
    requires waivers { walk.waivers ≡ waivers.now }
    requires within { filled.used ≤ length room.old }
    requires start { filled.used ≡ 0 → filled.at ≡ reached.old }
    requires begun { ¬ (filled.at.stage ≡ Nothing) }
    ensures rest { StandsFor (subject_for writer.entry.request.now walk.entry.font waivers.now) filled.at
        (sarif_state writer.entry.results.formatter) walk.entry.mark
        → IsRestOf (start_of writer.entry walk.entry waivers.now (take filled.used room.old))
        filled.at reached.old reached.new room.new result }
    ensures length { length room.new ≡ length room.old }
{
    let mut at = filled.at;
    let mut used = filled.used;
    loop {
        let before = walk.mark();
        let Some(fault) = walk.next() else {
            return fill_end(writer, reached, at, used, room);
        };
        let Ok(()) = writer.set_result(font, waivers, &fault) else {
            return Piece::Memory;
        };
        let text = writer.as_bytes();
        if text.len() > room.len() - used {
            *reached = at;
            return full(used, text.len());
        }
        put_after(room, used, text);
        used += text.len();
        at = Reached {
            stage: Stage::Results,
            mark: before,
            counts: *writer.counts(),
        };
    }
}

/// Hands over what is after all results.
fn fill_end(
    writer: DocumentWriter<'_>,
    reached: &mut Reached,
    at: Reached,
    used: usize,
    room: &mut [u8],
) -> Piece
    requires within { used ≤ length room.old }
    ensures end { IsEndPut (closing (sarif_state writer.entry.results.formatter)) used at
        (record { reached = reached.old; room = room.old }) (record { reached = reached.new; room = room.new }) result }
    ensures length { length room.new ≡ length room.old }
{
    let Ok(end) = writer.end() else {
        return Piece::Memory;
    };
    let end = end.as_bytes();
    if end.len() > room.len() - used {
        *reached = at;
        return full(used, end.len());
    }
    put_after(room, used, end);
    Piece::Last(used + end.len())
}
