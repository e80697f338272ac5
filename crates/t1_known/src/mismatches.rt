//! Rows of known faults from which what was found differs.

ghost use Rattle.std.specs.Prelude.{◌≡◌, true, List};
ghost use Rattle.std.specs.List.{flat_map, list_all};
ghost use Rattle.std.specs.Str.Parse.{digits_value};
ghost use Rattle.t1_io.specs.Devices.{Writes};
ghost use Rattle.t1_known.specs.Private.Fonts.{left_at};
ghost use Rattle.t1_known.specs.Private.Kept.{AreKept};
ghost use Rattle.t1_known.specs.Private.Mismatches.{told_in, told_of};
ghost use Rattle.t1_known.specs.Readings.{AreReadingsOf};
ghost use Rattle.t1_known.specs.Writes.{WritesAll};
ghost use Rattle.t1_many.specs.Choice.{choice_of};
ghost use Rattle.t1_many.specs.KnownFaults.{Reading as ReadingValue, differs, mismatch, mismatch_at, rule_of};
ghost use Rattle.t1_many.specs.RowValues.{row_value};
ghost use Rattle.t1_scan.specs.Bytes.{is_decimal_digit};

use crate::digits::number;
use crate::known::{KnownFaults, Rows};
use crate::readings::{Fonts, count_of, fonts_of};
use itoa::Buffer;
use std::alloc::Global;
use t1_io::{Broken, Sink, put_parts};
use t1_lines::cut;
use t1_many::{Choice, Lost, Reading, Row, is_told};

/// Writes of which rows of known faults more or fewer were found, in their order, a line each:
/// `a.pfb: known faults: H02 glyph A: 3 known, 1 found`.
///
/// Rows of fonts without a reading, and of rules that aren't reported, are skipped. Of readings of one font the first
/// is taken. Nothing is written if memory runs out.
pub fn write_mismatches<W: Sink>(
    alloc: Global,
    sink: &mut W,
    known: &KnownFaults<'_>,
    readings: &[Reading],
    choice: Choice<'_>,
) -> Result<(), Lost>
    ensures { (all : List ReadingValue) → AreReadingsOf readings.now all → WritesAll (W.state sink.old) (W.state sink.new)
        (flat_map (mismatch (choice_of choice.entry) all) known.now) result }
{
    let Ok(fonts) = fonts_of(alloc, readings) else {
        return Err(Lost::Memory);
    };
    tell_rows(sink, &known.rows, &fonts, choice)?;
    Ok(())
}

/// Reports each row from which what was found differs.
fn tell_rows<W: Sink>(
    sink: &mut W,
    rows: &Rows<'_>,
    fonts: &Fonts<'_>,
    choice: Choice<'_>,
) -> Result<(), Broken>
    requires { ∥ AreKept rows.now.entries ∥₁ }
    ensures { Writes (W.state sink.old) (W.state sink.new)
        (flat_map (told_of (choice_of choice.entry) fonts.now.entries) rows.now.entries) result }
{
    for (_key, row) in rows.iter() {
        tell_row(sink, row, fonts, choice)?;
    }
    Ok(())
}

/// Reports a row where more or fewer were found.
fn tell_row<W: Sink>(
    sink: &mut W,
    row: &Row<'_>,
    fonts: &Fonts<'_>,
    choice: Choice<'_>,
) -> Result<(), Broken>
    requires { list_all is_decimal_digit row.now.count.now ≡ true }
    ensures { Writes (W.state sink.old) (W.state sink.new)
        (told_in (choice_of choice.entry) (row_value row.now) (left_at fonts.now.entries row.now.font.now)) result }
{
    let Some(Some(reading)) = fonts.get(&row.font) else {
        return Ok(());
    };
    if !is_told(choice, rule_of(row.kind)) {
        return Ok(());
    }
    put_mismatch(sink, row, count_of(&reading.counts, row.kind))
}

/// Reports a row of whose kind so many were found.
fn put_mismatch<W: Sink>(sink: &mut W, row: &Row<'_>, found: u64) -> Result<(), Broken>
    requires { list_all is_decimal_digit row.now.count.now ≡ true }
    ensures { Writes (W.state sink.old) (W.state sink.new) (mismatch_at (row_value row.now) found) result }
{
    if !differs(found, row.count) {
        return Ok(());
    }
    put_parts(
        sink,
        &[
            row.font,
            b": known faults: ",
            row.kind,
            b": ",
            row.count,
            b" known, ",
            Buffer::new().format(found).as_bytes(),
            b" found\n",
        ],
    )
}

/// Whether another number was found than these digits say.
fn differs(found: u64, known: &[u8]) -> bool
    requires { list_all is_decimal_digit known.now ≡ true }
    ensures { result ≡ differs found (digits_value 10 known.now) }
{
    match number(known) {
        Some(known) => found != known,
        None => true,
    }
}

/// The code with which a kind begins.
pub(crate) fn rule_of(kind: &[u8]) -> &[u8]
    ensures { result.now ≡ rule_of kind.now }
{
    match cut(b' ', kind) {
        Some((rule, _)) => rule,
        None => kind,
    }
}
