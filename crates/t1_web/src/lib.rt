//! The exports of a WebAssembly module by which a page checks fonts, from bytes to bytes.
//!
//! Each export takes the bytes of a font and of waivers, and room for what it hands over. It returns a status, of which
//! `specs/Numbers.antt` has the numbers, and says how many bytes it handed over; where the room doesn't hold what comes next, how many
//! that has. A number that no edition has is refused.
//!
//! What is promised: what [`t1_pieces`] promises of its calls. A host that isn't Rattle is checked by nothing: it has to pass
//! addresses of memory that is its own, with their lengths, and none twice.
#![tactic(auto)]

mod numbers;

ghost use Rattle.std.specs.Prelude.{List, None, map};
ghost use Rattle.t1_char.specs.Editions.{edition_numbered};
ghost use Rattle.t1_forms.specs.PageValues.{PageValue, page_value};
ghost use Rattle.t1_pieces.specs.Documents.{IsDocumentPiece};
ghost use Rattle.t1_pieces.specs.Reading.{input_in};
ghost use Rattle.t1_run.specs.FontFiles.{font_of};
ghost use Rattle.t1_web.specs.Answers.{AreHandedOver, IsDocumentHandedOver, IsEntryHandedOver, IsPictureHandedOver};
ghost use Rattle.t1_web.specs.Numbers.{extent_of, list_key, mark_of, reached_of};

use crate::numbers::{bytes_of, extent_of, form_of, list_key, stage_number, stage_of, status_of};
use std::alloc::Global;
use t1_char::Edition;
use t1_forms::{Page, Pages, RESULT_COUNTS};
use t1_pages::pages;
use t1_pieces::{
    DocumentRequest, Piece, Reached, Request, document, entry_numbers, lines, picture,
};
use t1_report::Mark;

/// How far a report was handed over, as a host keeps it between calls: zeros first.
#[repr(C)]
pub struct HostMark {
    /// How many lines were handed over.
    pub number: u64,
    pub unit: u32,
    pub step: u32,
    pub rule: u8,
}

/// How far a document was handed over, as a host keeps it between calls: zeros first.
#[repr(C)]
pub struct HostReached {
    /// The mark before the last result.
    pub number: u64,
    pub unit: u32,
    pub step: u32,
    pub rule: u8,
    /// 0 where nothing was handed over, 1 where no result was.
    pub stage: u8,
    /// How many results there were of each code since the unit of the last one began.
    pub counts: [u64; RESULT_COUNTS],
}

/// The status where a name isn't UTF-8.
const NO_NAME: u32 = 6;

/// The status where no edition of a number can be asked for.
const NO_EDITION: u32 = 9;

/// The status where no key has a number.
const NO_ENTRY: u32 = 8;

/// Hands over whole lines of a font's report after a mark, as many as the room holds, and moves the mark to the last of
/// them. With the form 0 they are t1check's, with any other objects of JSON of the font of a name.
#[unsafe(no_mangle)]
pub extern "C" fn t1_web_lines(
    alloc: Global,
    font: &[u8],
    waivers: &[u8],
    edition: u32,
    form: u32,
    name: &[u8],
    mark: &mut HostMark,
    room: &mut [u8],
    written: &mut usize,
) -> u32
    ensures { AreHandedOver form name.now (edition_numbered edition) font.now waivers.now (mark_of mark.old) (mark_of mark.new)
        (record { room = room.new; written = written.new; status = result }) }
{
    let Some(form) = form_of(form, name) else {
        *written = 0;
        return NO_NAME;
    };
    let Some(edition) = Edition::numbered(u64::from(edition)) else {
        *written = 0;
        return NO_EDITION;
    };
    let request = Request {
        font,
        waivers,
        edition,
    };
    let mut reached = Mark {
        number: mark.number,
        unit: mark.unit,
        step: mark.step,
        rule: mark.rule,
    };
    let piece = lines(alloc, &request, form, &mut reached, room);
    mark.number = reached.number;
    mark.unit = reached.unit;
    mark.step = reached.step;
    mark.rule = reached.rule;
    *written = bytes_of(piece);
    status_of(piece)
}

/// Hands over the document of SARIF of the font of a name from a place on, whole results, as many as the room holds, and moves
/// the place to the last of them. It has the pages of t1_pages.
#[unsafe(no_mangle)]
pub extern "C" fn t1_web_document(
    alloc: Global,
    font: &[u8],
    waivers: &[u8],
    edition: u32,
    name: &[u8],
    reached: &mut HostReached,
    room: &mut [u8],
    written: &mut usize,
) -> u32
    ensures { (list : List PageValue) × IsDocumentHandedOver (record { list = list; docs = None }) name.now
        (edition_numbered edition) font.now waivers.now (reached_of reached.old) (reached_of reached.new)
        (record { room = room.new; written = written.new; status = result }) }
{
    let Ok(name) = str::from_utf8(name) else {
        *written = 0;
        return NO_NAME;
    };
    let Some(edition) = Edition::numbered(u64::from(edition)) else {
        *written = 0;
        return NO_EDITION;
    };
    let list = pages();
    let mut place = Reached {
        stage: stage_of(reached.stage),
        mark: Mark {
            number: reached.number,
            unit: reached.unit,
            step: reached.step,
            rule: reached.rule,
        },
        counts: reached.counts,
    };
    let part = document_with(alloc, font, waivers, edition, name, &list, &mut place, room);
    reached.stage = stage_number(place.stage);
    reached.number = place.mark.number;
    reached.unit = place.mark.unit;
    reached.step = place.mark.step;
    reached.rule = place.mark.rule;
    reached.counts = place.counts;
    *written = bytes_of(part);
    status_of(part)
}

/// Hands over the document of a font with these pages.
fn document_with<'a>(
    alloc: Global,
    font: &'a [u8],
    waivers: &'a [u8],
    edition: Edition,
    name: &'a str,
    list: &'a [Page],
    place: &mut Reached,
    room: &mut [u8],
) -> Piece
    ensures { IsDocumentPiece name.now (record { list = map page_value list.now; docs = None })
        (input_in edition font.now waivers.now) place.old place.new room.new result }
{
    let request = Request {
        font,
        waivers,
        edition,
    };
    let wanted = DocumentRequest {
        name,
        pages: Pages { list, docs: None },
    };
    document(alloc, &request, &wanted, place, room)
}

/// Hands over the picture of the glyph of a name: with the kind 0 as a whole, with 1 up to the step of a number, with any other
/// that of the fault of the number in the report.
#[unsafe(no_mangle)]
pub extern "C" fn t1_web_picture(
    alloc: Global,
    font: &[u8],
    waivers: &[u8],
    edition: u32,
    glyph: &[u8],
    kind: u32,
    number: u64,
    room: &mut [u8],
    written: &mut usize,
) -> u32
    ensures { IsPictureHandedOver glyph.now (extent_of kind number) (edition_numbered edition) font.now waivers.now
        (record { room = room.new; written = written.new; status = result }) }
{
    let Some(edition) = Edition::numbered(u64::from(edition)) else {
        *written = 0;
        return NO_EDITION;
    };
    let request = Request {
        font,
        waivers,
        edition,
    };
    let drawn = picture(alloc, &request, glyph, extent_of(kind, number), room);
    *written = bytes_of(drawn);
    status_of(drawn)
}

/// Hands over the numbers of the entry of a key, by the key's number: how many there are, and the first 16 of them, each after a
/// blank.
#[unsafe(no_mangle)]
pub extern "C" fn t1_web_entry(
    alloc: Global,
    font: &[u8],
    key: u32,
    room: &mut [u8],
    written: &mut usize,
) -> u32
    ensures { IsEntryHandedOver (list_key key) (font_of font.now)
        (record { room = room.new; written = written.new; status = result }) }
{
    let Some(key) = list_key(key) else {
        *written = 0;
        return NO_ENTRY;
    };
    let numbers = entry_numbers(alloc, font, key, room);
    *written = bytes_of(numbers);
    status_of(numbers)
}
