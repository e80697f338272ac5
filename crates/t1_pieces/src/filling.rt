//! Filling a room with the lines of a report.

ghost use Rattle.std.specs.Prelude.{◌≡◌, ◌<◌, length};
ghost use Rattle.t1_report.specs.Checked.{checked};
ghost use Rattle.t1_rules.specs.Components.{AreOf};
ghost use Rattle.t1_pieces.specs.Pieces.{IsPieceOf};
ghost use Rattle.t1_pieces.specs.declared.piece.Piece.TheVariants.{More, NoRoom};

use crate::form::Form;
use crate::piece::Piece;
use crate::room::put_after;
use crate::writer::LineWriter;
use std::alloc::Global;
use t1_font::Font;
use t1_report::{Mark, Waivers, Walk};
use t1_rules::Sidebearings;

/// Hands over the lines of the faults after a mark, as many as a room holds, and moves the mark to the last of them.
pub(crate) fn fill<'a>(
    alloc: Global,
    form: Form<'a>,
    font: &'a Font<'a>,
    sidebearings: &'a Sidebearings,
    waivers: &'a Waivers<'a>,
    mark: &mut Mark,
    room: &mut [u8],
) -> Piece
    requires { AreOf font.now sidebearings.now }
    ensures piece { IsPieceOf form.entry
        (record { font = checked font.now sidebearings.now.edition; waivers = waivers.now }) mark.old mark.new room.new result }
    ensures length { length room.new ≡ length room.old }
{
    let mut writer = LineWriter::new(alloc, form, font, sidebearings);
    let walk = Walk::resume(font, sidebearings, waivers, *mark);
    fill_from(&mut writer, font, waivers, walk, mark, room)
}

/// The same from the mark of a walk on.
fn fill_from(
    writer: &mut LineWriter<'_>,
    font: &Font<'_>,
    waivers: &Waivers<'_>,
    mut walk: Walk<'_>,
    mark: &mut Mark,
    room: &mut [u8],
) -> Piece
    requires font { walk.font.value ≡ font.now }
    requires reasons { writer.old.reasons ≡ walk.font }
    requires waivers { walk.waivers ≡ waivers.now }
    requires mark { walk.mark ≡ mark.old }
    ensures piece { IsPieceOf writer.old.form (record { font = walk.entry.font; waivers = waivers.now }) mark.old mark.new room.new result }
    ensures length { length room.new ≡ length room.old }
{
    let mut used = 0;
    let mut reached = *mark;
    loop {
        let Some(fault) = walk.next() else {
            *mark = reached;
            return Piece::Last(used);
        };
        let Ok(()) = writer.set_line(font, waivers, &fault) else {
            return Piece::Memory;
        };
        let line = writer.as_bytes();
        if line.len() > room.len() - used {
            *mark = reached;
            return full(used, line.len());
        }
        put_after(room, used, line);
        used += line.len();
        reached = walk.mark();
    }
}

/// What is handed over where so many bytes are used, and what comes next, of so many bytes, doesn't fit.
pub(crate) fn full(used: usize, next: usize) -> Piece
    ensures none { used ≡ 0 → result ≡ NoRoom next }
    ensures some { 0 < used → result ≡ More used }
{
    if used == 0 {
        Piece::NoRoom(next)
    } else {
        Piece::More(used)
    }
}
