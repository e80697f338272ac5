//! Lines of a report, in rooms of all sizes.

use std::alloc::{AllocError, Global};
use std::test::Fail;
use t1_char::Edition;
use t1_pieces::{Form, Piece, Request, lines};
use t1_report::Mark;
use t1_samples::Sample;

/// The glyph of the number 32001, 0, hmoveto, closepath, endchar.
pub(super) const FOUR_FAULTS: &[u8] = b"\xff\x00\x00\x7d\x01\x8b\x16\x09\x0e";

/// Its report: the first line has 38 bytes, and the last, which is the longest, 44.
const REPORT: &str = "\
1: glyph A - 3 C05 too many arguments
2: glyph A - 3 C07 number out of range
3: glyph A - 3 W01 hsbw or sbw not first
4: glyph A - 4 P03 closepath without a path
";

/// A font with this glyph A.
pub(super) fn with_glyph(alloc: Global, glyph: &[u8]) -> Result<Vec<u8>, AllocError> {
    Sample::new(alloc)?.glyph(b"A", glyph)?.pfb()
}

/// A font and waivers by the first edition.
fn request<'a>(font: &'a [u8], waivers: &'a [u8]) -> Request<'a> {
    Request {
        font,
        waivers,
        edition: Edition::One,
    }
}

/// The first bytes of a room.
pub(super) fn front(room: &[u8], count: usize) -> &[u8] {
    match room.split_at_checked(count) {
        Some((front, _)) => front,
        None => room,
    }
}

/// What calls for t1check's lines, with a room of so many bytes, hand over, joined, and what the last of them returns.
fn joined(
    alloc: Global,
    request: &Request<'_>,
    size: usize,
) -> Result<(Vec<u8>, Piece), AllocError> {
    joined_as(alloc, request, Form::Text, size)
}

/// The same for lines of a form.
fn joined_as(
    alloc: Global,
    request: &Request<'_>,
    form: Form<'_>,
    size: usize,
) -> Result<(Vec<u8>, Piece), AllocError> {
    let mut text = Vec::new(alloc);
    let mut mark = Mark::default();
    let mut room = Vec::from_elem(alloc, 0u8, size)?;
    let mut last = Piece::Memory;
    for _call in 0..9 {
        last = lines(alloc, request, form, &mut mark, room.as_mut_slice());
        match last {
            Piece::More(count) => text.extend_from_slice(front(room.as_slice(), count))?,
            Piece::Last(count) | Piece::Refused(count) => {
                text.extend_from_slice(front(room.as_slice(), count))?;
                break;
            }
            Piece::NoRoom(_) | Piece::Missing(_) | Piece::Memory => break,
        }
    }
    Ok((text, last))
}

#[test]
fn rooms_of_all_sizes_get_the_report(rt: HostRuntime) -> Result<(), Fail> {
    let font = with_glyph(rt.alloc(), FOUR_FAULTS)?;
    let request = request(font.as_slice(), b"");
    for size in 44..166 {
        let (text, last) = joined(rt.alloc(), &request, size)?;
        assert!(rt;
            text.as_slice() == REPORT.as_bytes(),
            "in rooms of {size}: {text:?}"
        );
        assert!(rt;
            matches!(last, Piece::Last(_)),
            "in rooms of {size}: {last:?}"
        );
    }
    Ok(())
}

#[test]
fn a_room_that_is_too_small_says_so(rt: HostRuntime) -> Result<(), Fail> {
    let font = with_glyph(rt.alloc(), FOUR_FAULTS)?;
    let request = request(font.as_slice(), b"");
    for size in 0..38 {
        let (text, last) = joined(rt.alloc(), &request, size)?;
        assert!(rt;
            text.is_empty() && matches!(last, Piece::NoRoom(_)),
            "in rooms of {size}: {last:?}"
        );
    }
    Ok(())
}

/// Two lines of the font f.pfb as objects, where C07 and W01 are waived.
const OBJECTS: &str = "\
{\"code\":\"C05\",\"file\":\"f.pfb\",\"level\":\"must\",\"name\":\"A\",\"number\":1,\"path\":[],\"reason\":{\"command\":\"hmoveto\",\"taken\":1,\"text\":\"hmoveto takes 1 number, 2 are on the stack\",\"there\":2},\"step\":3,\"text\":\"too many arguments\",\"unit\":\"glyph\"}
{\"code\":\"P03\",\"file\":\"f.pfb\",\"level\":\"tidy\",\"name\":\"A\",\"number\":2,\"path\":[],\"reason\":{\"text\":\"nothing is drawn so far\"},\"step\":4,\"text\":\"closepath without a path\",\"unit\":\"glyph\"}
";

#[test]
fn lines_are_objects_too(rt: HostRuntime) -> Result<(), Fail> {
    let font = with_glyph(rt.alloc(), FOUR_FAULTS)?;
    let request = request(font.as_slice(), b"A C07\nA W01\n");
    for size in [300, 1_000] {
        let (text, last) = joined_as(rt.alloc(), &request, Form::Object("f.pfb"), size)?;
        assert!(rt; text.as_slice() == OBJECTS.as_bytes(), "{text:?}");
        assert!(rt; matches!(last, Piece::Last(_)), "{last:?}");
    }
    Ok(())
}

/// Bytes that are no font, or waivers that are none, and the text of each refusal.
const REFUSALS: &[(&[u8], &[u8], &str)] = &[
    (b"", b"", "E01 not a PFA or PFB"),
    (b"%!\n/FontType 1 def\n", b"A", "E04 no eexec"),
];

#[test]
fn a_longer_line_is_handed_over_later(rt: HostRuntime) -> Result<(), Fail> {
    let font = with_glyph(rt.alloc(), FOUR_FAULTS)?;
    let (text, last) = joined(rt.alloc(), &request(font.as_slice(), b""), 43)?;
    assert!(rt;
        text.len() == 118 && last == Piece::NoRoom(44),
        "{text:?} {last:?}"
    );
    Ok(())
}

#[test]
fn refusals_have_code_and_text(rt: HostRuntime) -> Result<(), Fail> {
    for (font, waivers, text) in REFUSALS {
        let request = request(font, waivers);
        let (handed, last) = joined(rt.alloc(), &request, 64)?;
        assert!(rt; handed.as_slice() == text.as_bytes(), "{text}: {handed:?}");
        assert!(rt; last == Piece::Refused(text.len()), "{text}: {last:?}");
        assert!(rt;
            joined(rt.alloc(), &request, text.len() - 1)?.1 == Piece::NoRoom(text.len()),
            "{text}"
        );
    }
    Ok(())
}

#[test]
fn waivers_are_read(rt: HostRuntime) -> Result<(), Fail> {
    let font = with_glyph(rt.alloc(), FOUR_FAULTS)?;
    let (malformed, last) = joined(rt.alloc(), &request(font.as_slice(), b"A"), 64)?;
    assert!(rt;
        malformed.as_slice() == "E14 waivers malformed".as_bytes(),
        "{malformed:?} {last:?}"
    );
    let (waived, _) = joined(
        rt.alloc(),
        &request(font.as_slice(), b"A C05\nA W01\nA P03\n"),
        64,
    )?;
    assert!(rt;
        waived.as_slice() == "1: glyph A - 3 C07 number out of range\n".as_bytes(),
        "{waived:?}"
    );
    let long = Vec::from_elem(rt.alloc(), b'\n', 1_048_577)?;
    let (text, _) = joined(rt.alloc(), &request(font.as_slice(), long.as_slice()), 64)?;
    assert!(rt;
        text.as_slice() == "E15 waivers past their limit".as_bytes(),
        "{text:?}"
    );
    Ok(())
}

#[test]
fn large_files_are_refused(rt: HostRuntime) -> Result<(), Fail> {
    let font = Vec::from_elem(rt.alloc(), 0u8, 16_777_217)?;
    let (text, _) = joined(rt.alloc(), &request(font.as_slice(), b""), 64)?;
    assert!(rt;
        text.as_slice() == "E05 file too large".as_bytes(),
        "{text:?}"
    );
    Ok(())
}
