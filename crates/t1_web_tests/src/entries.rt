//! Numbers of entries, in rooms that hold them or don't.

use crate::lines::front;
use std::test::Fail;
use t1_font::Key;
use t1_pieces::{Missing, Piece, entry_numbers};
use t1_samples::Sample;

#[test]
fn numbers_of_a_list_are_handed_over(rt: HostRuntime) -> Result<(), Fail> {
    let sample = Sample::new(rt.alloc())?
        .key(b"/BlueValues [-15 0 700 690.5] def")?
        .key(b"/StdHW 30 def")?;
    let font = sample.pfb()?;
    let font = font.as_slice();
    let mut room = Vec::from_elem(rt.alloc(), 0u8, 32)?;
    let numbers = entry_numbers(rt.alloc(), font, Key::BlueValues, room.as_mut_slice());
    let text = b"4 -15 0 700 690.5";
    assert_eq!(rt; numbers, Piece::Last(text.len()));
    assert!(rt; front(room.as_slice(), text.len()) == text.as_slice());
    let mut short = Vec::from_elem(rt.alloc(), 0u8, 8)?;
    let numbers = entry_numbers(rt.alloc(), font, Key::BlueValues, short.as_mut_slice());
    assert_eq!(rt; numbers, Piece::NoRoom(text.len()));
    for key in [Key::StdHw, Key::OtherBlues] {
        let numbers = entry_numbers(rt.alloc(), font, key, room.as_mut_slice());
        assert_eq!(rt; numbers, Piece::Missing(Missing::Numbers));
    }
    Ok(())
}

#[test]
fn no_entry_of_a_refused_font_is_read(rt: HostRuntime) -> Result<(), Fail> {
    let mut room = Vec::from_elem(rt.alloc(), 0u8, 64)?;
    let numbers = entry_numbers(rt.alloc(), b"", Key::BlueValues, room.as_mut_slice());
    let refusal = b"E01 not a PFA or PFB";
    assert_eq!(rt; numbers, Piece::Refused(refusal.len()));
    assert!(rt; front(room.as_slice(), refusal.len()) == refusal.as_slice());
    Ok(())
}
