//! A document of SARIF, in pieces.

use crate::lines::{front, with_glyph};
use std::alloc::{AllocError, Global};
use std::test::Fail;
use t1_char::Edition;
use t1_forms::{Page, Pages, RESULT_COUNTS, Sarif};
use t1_io::Out;
use t1_pieces::{DocumentRequest, Piece, Reached, Request, Stage, document};
use t1_report::Mark;

/// The glyph of 0, 500, hsbw, closepath, closepath, endchar.
const TWO_FAULTS: &[u8] = b"\x8b\xf8\x88\x0d\x09\x09\x0e";

/// The pages of the documents.
const PAGES: [Page; 2] = [
    Page {
        code: "P02",
        anchor: "p02",
        title: "path not closed",
        text: "Cure: `closepath`.",
    },
    Page {
        code: "P03",
        anchor: "p03",
        title: "closepath without a path",
        text: "Cure: take it out.",
    },
];

/// The results of both closepaths of the font f.pfb.
const RESULTS: [&str; 2] = [
    "{\"level\":\"note\",\
\"locations\":[{\"logicalLocations\":[{\"kind\":\"glyph\",\"name\":\"A\"},{\"kind\":\"step\",\"name\":\"4\"}],\
\"physicalLocation\":{\"artifactLocation\":{\"uri\":\"f.pfb\"},\"region\":{\"startLine\":1}}}],\
\"message\":{\"text\":\"glyph A - 4 P03 closepath without a path: nothing is drawn so far\"},\
\"partialFingerprints\":{\"t1check/v1\":\"f.pfb glyph A P03 1\"},\"ruleId\":\"P03\",\"ruleIndex\":1}",
    ",{\"level\":\"note\",\
\"locations\":[{\"logicalLocations\":[{\"kind\":\"glyph\",\"name\":\"A\"},{\"kind\":\"step\",\"name\":\"5\"}],\
\"physicalLocation\":{\"artifactLocation\":{\"uri\":\"f.pfb\"},\"region\":{\"startLine\":1}}}],\
\"message\":{\"text\":\"glyph A - 5 P03 closepath without a path: nothing is drawn since step 4\"},\
\"partialFingerprints\":{\"t1check/v1\":\"f.pfb glyph A P03 2\"},\"ruleId\":\"P03\",\"ruleIndex\":1}",
];

/// What is after them.
const END: &str =
    "],\"invocations\":[{\"executionSuccessful\":true,\"toolExecutionNotifications\":[]}]}]}\n";

/// Nothing was handed over.
const FIRST: Reached = Reached {
    stage: Stage::Nothing,
    mark: Mark {
        number: 0,
        unit: 0,
        step: 0,
        rule: 0,
    },
    counts: [0; RESULT_COUNTS],
};

/// What is before all results, as every document has it.
fn opening(alloc: Global) -> Result<Vec<u8>, AllocError> {
    let mut text = Vec::new(alloc);
    match Sarif::begin(alloc, &mut Out::new(&mut text), pages()) {
        Ok(_) => Ok(text),
        Err(_) => Err(AllocError),
    }
}

/// The pages, without an address.
fn pages<'a>() -> Pages<'a> {
    Pages {
        list: &PAGES,
        docs: None,
    }
}

/// A font by the first edition.
fn request<'a>(font: &'a [u8]) -> Request<'a> {
    Request {
        font,
        waivers: b"",
        edition: Edition::One,
    }
}

/// What the document of f.pfb says beside the report.
fn wanted<'a>() -> DocumentRequest<'a> {
    DocumentRequest {
        name: "f.pfb",
        pages: pages(),
    }
}

/// Whether a room of a byte less than a text gets nothing, and a room of its size gets it.
fn is_next(
    alloc: Global,
    request: &Request<'_>,
    reached: &mut Reached,
    text: &[u8],
    piece: Piece,
) -> Result<bool, AllocError> {
    let mut less = Vec::from_elem(alloc, 0u8, text.len().saturating_sub(1))?;
    let none = document(alloc, request, &wanted(), reached, less.as_mut_slice());
    let mut room = Vec::from_elem(alloc, 0u8, text.len())?;
    let handed = document(alloc, request, &wanted(), reached, room.as_mut_slice());
    Ok(none == Piece::NoRoom(text.len()) && handed == piece && room.as_slice() == text)
}

/// Each part comes as soon as a room holds it, and none in a room of a byte less.
#[test]
fn a_document_goes_on_where_it_was_left(rt: HostRuntime) -> Result<(), Fail> {
    let font = with_glyph(rt.alloc(), TWO_FAULTS)?;
    let request = request(font.as_slice());
    let opening = opening(rt.alloc())?;
    let mut reached = FIRST;
    let piece = Piece::More(opening.len());
    assert!(rt;
        is_next(
            rt.alloc(),
            &request,
            &mut reached,
            opening.as_slice(),
            piece
        )?,
        "the beginning"
    );
    for result in RESULTS {
        let piece = Piece::More(result.len());
        assert!(rt;
            is_next(rt.alloc(), &request, &mut reached, result.as_bytes(), piece)?,
            "{result}"
        );
    }
    let piece = Piece::Last(END.len());
    assert!(rt;
        is_next(rt.alloc(), &request, &mut reached, END.as_bytes(), piece)?,
        "the end"
    );
    Ok(())
}

#[test]
fn a_large_room_gets_a_whole_document(rt: HostRuntime) -> Result<(), Fail> {
    let font = with_glyph(rt.alloc(), TWO_FAULTS)?;
    let mut whole = opening(rt.alloc())?;
    for part in [RESULTS[0], RESULTS[1], END] {
        whole.extend_from_slice(part.as_bytes())?;
    }
    let mut room = Vec::from_elem(rt.alloc(), 0u8, whole.len())?;
    let piece = document(
        rt.alloc(),
        &request(font.as_slice()),
        &wanted(),
        &mut { FIRST },
        room.as_mut_slice(),
    );
    assert!(rt; piece == Piece::Last(whole.len()), "{piece:?}");
    assert!(rt; room.as_slice() == whole.as_slice(), "{room:?}");
    Ok(())
}

#[test]
fn what_is_refused_has_no_document(rt: HostRuntime) -> Result<(), Fail> {
    let mut room = Vec::from_elem(rt.alloc(), 0u8, 64)?;
    let piece = document(
        rt.alloc(),
        &request(b"%!\n/FontType 1 def\n"),
        &wanted(),
        &mut { FIRST },
        room.as_mut_slice(),
    );
    assert!(rt; piece == Piece::Refused(12), "{piece:?}");
    assert!(rt;
        front(room.as_slice(), 12) == b"E04 no eexec".as_slice(),
        "{room:?}"
    );
    Ok(())
}
