//! Pictures of glyphs, in rooms that hold them or don't.

use crate::lines::{FOUR_FAULTS, front, with_glyph};
use std::test::Fail;
use t1_char::Edition;
use t1_picture::Extent;
use t1_pieces::{Missing, Piece, Request, picture};
use t1_samples::assembled;

/// `0 500 hsbw`, `50 hmoveto`, `100 hlineto`, `closepath`, `endchar`.
const LINE: &[u8] = b"\x8b\xf8\x88\x0d\xbd\x16\xef\x06\x09\x0e";

/// A glyph whose second line goes straight on from the first (P08, at step 10), and whose third leads nowhere (P06, at step 12).
const THREE_LINES: &str =
    "0 500 hsbw 100 100 rmoveto 50 hlineto 50 hlineto 0 hlineto 100 vlineto closepath endchar";

/// What the two reasons name.
const NAMED_LINES: &str = r##"<path id="cause-lines" stroke="red" stroke-width="2" d="
M100 100L150 100
M150 100L200 100
M200 100L200 100
"/>
<g id="cause-points" stroke="red" stroke-width="2">
<use xlink:href="#end" x="150" y="100"/>
<use xlink:href="#end" x="200" y="100"/>
<use xlink:href="#end" x="200" y="100"/>
<use xlink:href="#end" x="200" y="100"/>
</g>
"##;

/// A font by the first edition.
fn request_for<'a>(font: &'a [u8]) -> Request<'a> {
    Request {
        font,
        waivers: b"",
        edition: Edition::One,
    }
}

#[test]
fn pictures_are_handed_over(rt: HostRuntime) -> Result<(), Fail> {
    let font = with_glyph(rt.alloc(), LINE)?;
    let request = request_for(font.as_slice());
    let mut room = Vec::from_elem(rt.alloc(), 0u8, 10_000)?;
    let drawn = picture(rt.alloc(), &request, b"A", Extent::All, room.as_mut_slice());
    let Piece::Last(count) = drawn else {
        return Err(Fail::from("a picture"));
    };
    let text = front(room.as_slice(), count);
    assert!(rt; text.starts_with(b"<?xml version=\"1.0\" encoding=\"UTF-8\"?>\n<svg "));
    assert!(rt; text.ends_with(b"</svg>\n"));
    let mut short = Vec::from_elem(rt.alloc(), 0u8, 100)?;
    let drawn = picture(
        rt.alloc(),
        &request,
        b"A",
        Extent::All,
        short.as_mut_slice(),
    );
    assert_eq!(rt; drawn, Piece::NoRoom(count));
    Ok(())
}

#[test]
fn no_picture_is_told_apart_from_a_refusal(rt: HostRuntime) -> Result<(), Fail> {
    let font = with_glyph(rt.alloc(), LINE)?;
    let mut room = Vec::from_elem(rt.alloc(), 0u8, 64)?;
    let drawn = picture(
        rt.alloc(),
        &request_for(font.as_slice()),
        b"B",
        Extent::All,
        room.as_mut_slice(),
    );
    assert_eq!(rt; drawn, Piece::Missing(Missing::Glyph));
    let refusal = b"E01 not a PFA or PFB";
    let drawn = picture(
        rt.alloc(),
        &request_for(b""),
        b"A",
        Extent::All,
        room.as_mut_slice(),
    );
    assert_eq!(rt; drawn, Piece::Refused(refusal.len()));
    assert!(rt; front(room.as_slice(), refusal.len()) == refusal.as_slice());
    Ok(())
}

#[test]
fn a_fault_is_drawn_by_its_number(rt: HostRuntime) -> Result<(), Fail> {
    let font = with_glyph(rt.alloc(), FOUR_FAULTS)?;
    let request = request_for(font.as_slice());
    let mut room = Vec::from_elem(rt.alloc(), 0u8, 10_000)?;
    let drawn = picture(
        rt.alloc(),
        &request,
        b"A",
        Extent::Fault(4),
        room.as_mut_slice(),
    );
    let Piece::Last(count) = drawn else {
        return Err(Fail::from("a picture"));
    };
    let text = str::from_utf8(front(room.as_slice(), count)).unwrap_or("");
    assert!(rt; text.contains(">4: glyph A - 4 P03 closepath without a path</text>"));
    assert!(rt; !text.contains(">3: glyph A - 3 "));
    for number in [5, 0] {
        let fault = Extent::Fault(number);
        let drawn = picture(rt.alloc(), &request, b"A", fault, room.as_mut_slice());
        assert_eq!(rt; drawn, Piece::Missing(Missing::Fault));
    }
    Ok(())
}

#[test]
fn lines_that_reasons_name_are_drawn(rt: HostRuntime) -> Result<(), Fail> {
    let glyph = assembled(rt.alloc(), THREE_LINES)?;
    let font = with_glyph(rt.alloc(), glyph.as_slice())?;
    let request = Request {
        font: font.as_slice(),
        waivers: b"",
        edition: Edition::Four,
    };
    let mut room = Vec::from_elem(rt.alloc(), 0u8, 10_000)?;
    let drawn = picture(rt.alloc(), &request, b"A", Extent::All, room.as_mut_slice());
    let Piece::Last(count) = drawn else {
        return Err(Fail::from("a picture"));
    };
    let text = str::from_utf8(front(room.as_slice(), count)).unwrap_or("");
    assert!(rt; text.contains(NAMED_LINES));
    Ok(())
}
