//! The new file of known faults.

ghost use Rattle.std.specs.Prelude.{◌≡◌, [], ℕ, List};
ghost use Rattle.std.specs.List.{flat_map};
ghost use Rattle.t1_io.specs.Devices.{Writes};
ghost use Rattle.t1_known.specs.Keys.{key_of};
ghost use Rattle.t1_known.specs.Private.Fonts.{IsLeft, IsTaken, count_text, left_at, left_text, now_of, row_of, rows_text};
ghost use Rattle.t1_known.specs.Private.Kept.{AreKept, rows_now};
ghost use Rattle.t1_known.specs.Private.Updates.{LeavesBy, PutsRows, behind_text, row_put};
ghost use Rattle.t1_known.specs.Readings.{AreReadingsOf};
ghost use Rattle.t1_known.specs.Writes.{WritesAll};
ghost use Rattle.t1_many.specs.Choice.{choice_of, is_told};
ghost use Rattle.t1_many.specs.KnownFaults.{Reading as ReadingValue, file_text, row_text, rule_of, updated};
ghost use Rattle.t1_many.specs.RowValues.{row_value};

use crate::known::{KnownFaults, Rows};
use crate::mismatches::rule_of;
use crate::readings::{Fonts, fonts_of, take_left};
use itoa::Buffer;
use std::alloc::Global;
use t1_io::{Broken, Sink, put_all, put_parts};
use t1_many::{Choice, Counts, Lost, Reading, Row, is_told};

/// Writes a new file of known faults:
///
/// - rows of fonts without a reading, and of rules that aren't reported, stay as they are;
/// - the first other row of a font is replaced by all rows of the font's reading, and its later ones are dropped;
/// - the rows of the other readings follow, in the order of the readings.
///
/// Of readings of one font the first is taken. Nothing is written if memory runs out.
pub fn write_updated<'a, W: Sink>(
    alloc: Global,
    sink: &mut W,
    known: &KnownFaults<'a>,
    readings: &'a [Reading],
    choice: Choice<'_>,
) -> Result<(), Lost>
    ensures { (all : List ReadingValue) → AreReadingsOf readings.now all → WritesAll (W.state sink.old) (W.state sink.new)
        (file_text (updated (choice_of choice.entry) all known.now)) result }
{
    let Ok(mut left) = fonts_of(alloc, readings) else {
        return Err(Lost::Memory);
    };
    put_all(sink, b"# Known faults: count, rule, unit, font.\n")?;
    put_rows(sink, &known.rows, &mut left, choice)?;
    put_others(sink, readings, &mut left)?;
    Ok(())
}

/// Puts each row, or in its place the rows of its font.
fn put_rows<'a, W: Sink>(
    sink: &mut W,
    rows: &Rows<'a>,
    left: &mut Fonts<'a>,
    choice: Choice<'_>,
) -> Result<(), Broken>
    requires { ∥ AreKept rows.now.entries ∥₁ }
    ensures { PutsRows (choice_of choice.entry) (rows_now rows.now.entries)
        (record { sink = W.state sink.old; left = left.old.entries })
        (record { sink = W.state sink.new; left = left.new.entries }) result }
{
    for (key, row) in rows.iter() {
        put_row(sink, key, row, left, choice)?;
    }
    Ok(())
}

/// Puts a row, or in its place the rows of its font, if these are known and its rule is reported.
fn put_row<'a, W: Sink>(
    sink: &mut W,
    key: &[u8],
    row: &Row<'a>,
    left: &mut Fonts<'a>,
    choice: Choice<'_>,
) -> Result<(), Broken>
    requires { key.now ≡ key_of (row_value row.now) }
    ensures put { Writes (W.state sink.old) (W.state sink.new)
        (row_put (choice_of choice.entry) left.old.entries (row_value row.now)) result }
    ensures left { LeavesBy (is_told (choice_of choice.entry) (rule_of row.now.kind.now)) row.now.font.now
        left.old.entries left.new.entries }
{
    if !is_told(choice, rule_of(row.kind)) {
        return put_known(sink, key, row);
    }
    match take_left(left, row.font) {
        Some(reading) => put_reading(sink, reading),
        None => put_known(sink, key, row),
    }
}

/// Puts a row as it was.
fn put_known<W: Sink>(sink: &mut W, key: &[u8], row: &Row<'_>) -> Result<(), Broken>
    requires { key.now ≡ key_of (row_value row.now) }
    ensures { Writes (W.state sink.old) (W.state sink.new) (row_text (row_value row.now)) result }
{
    put_parts(sink, &[row.count, b" ", key, b"\n"])
}

/// Puts the rows of the fonts of which they are left.
fn put_others<'a, W: Sink>(
    sink: &mut W,
    readings: &'a [Reading],
    left: &mut Fonts<'a>,
) -> Result<(), Broken>
    ensures { (done : List (List ℕ)) → IsLeft readings.now done left.old.entries
        → Writes (W.state sink.old) (W.state sink.new) (behind_text readings.now done readings.now) result }
{
    for reading in readings {
        put_left(sink, reading.font.as_bytes(), left)?;
    }
    Ok(())
}

/// Puts what is left of a font.
fn put_left<'a, W: Sink>(sink: &mut W, font: &'a [u8], left: &mut Fonts<'a>) -> Result<(), Broken>
    ensures put { Writes (W.state sink.old) (W.state sink.new) (rows_text (left_at left.old.entries font.now)) result }
    ensures left { IsTaken font.now left.old.entries left.new.entries }
{
    match take_left(left, font) {
        Some(reading) => put_reading(sink, reading),
        None => Ok(()),
    }
}

/// Puts the rows of what is left of a font.
fn put_reading<W: Sink>(sink: &mut W, reading: Option<&Reading>) -> Result<(), Broken>
    ensures { Writes (W.state sink.old) (W.state sink.new) (left_text (now_of reading.entry)) result }
{
    match reading {
        Some(reading) => put_counts(sink, reading.font.as_bytes(), &reading.counts),
        None => Ok(()),
    }
}

/// Puts a row for each kind that was found in a font.
fn put_counts<W: Sink>(sink: &mut W, font: &[u8], counts: &Counts) -> Result<(), Broken>
    ensures { Writes (W.state sink.old) (W.state sink.new) (flat_map (count_text font.now) counts.now.entries) result }
{
    for (kind, count) in counts.iter() {
        put_count(sink, font, kind.as_slice(), *count)?;
    }
    Ok(())
}

/// Puts the row of a kind that was found so often.
fn put_count<W: Sink>(sink: &mut W, font: &[u8], kind: &[u8], count: u64) -> Result<(), Broken>
    ensures { Writes (W.state sink.old) (W.state sink.new) (row_text (row_of font.now kind.now count)) result }
{
    put_parts(
        sink,
        &[
            Buffer::new().format(count).as_bytes(),
            b" ",
            kind,
            b" ",
            font,
            b"\n",
        ],
    )
}
