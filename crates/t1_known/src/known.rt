//! A file of known faults.

ghost use Rattle.std.specs.Prelude.{◌≡◌, ◌-◌, ◌^◌, ℕ, List, length, min};
ghost use Rattle.t1_known.specs.Keys.{count_at, key_of, key_text};
ghost use Rattle.t1_known.specs.Private.Kept.{Adds, AreKept};
ghost use Rattle.t1_known.specs.Reads.{IsLineOf, IsReadAs};
ghost use Rattle.t1_known.specs.declared.known.NotKnown.TheVariants.{Memory};
ghost use Rattle.t1_many.specs.KnownFaults.{IsKind, known_count};
ghost use Rattle.t1_many.specs.RowValues.{row_value};

use crate::digits::number;
use crate::lines::{is_comment, next_line};
use indexmap::IndexMap;
use std::alloc::{AllocFailed, Global};
use std::marker::Model;
use t1_many::{Row, read_row};

/// A line of a text.
#[derive(Clone, Copy, Debug)]
pub struct Line<'a> {
    /// Its number among all lines, from 1.
    pub number: usize,
    /// Its bytes, without its end.
    pub text: &'a [u8],
}

/// Why a text isn't read as known faults.
#[derive(Clone, Copy, Debug)]
pub enum NotKnown<'a> {
    /// This line is no row.
    NoRow(Line<'a>),
    /// An earlier row is of the kind and the font of this line.
    Twice(Line<'a>),
    /// Memory ran out.
    Memory,
}

impl<'a, T: Drop> From<AllocFailed<T>> for NotKnown<'a> {
    ghost from_gives = { λ _ e. e ≡ Memory };

    fn from(_error: AllocFailed<T>) -> NotKnown<'a> {
        NotKnown::Memory
    }
}

/// Rows by their keys, `KIND FONT`.
pub(crate) type Rows<'a> = IndexMap<&'a [u8], Row<'a>>;

/// How often faults of a kind are known of a font: rows in the order of their file.
#[derive(Drop)]
pub struct KnownFaults<'a> {
    pub(crate) rows: Rows<'a>,
}

impl<'a> Model for KnownFaults<'a> {
    ghost use Rattle.std.specs.Prelude.{List};
    ghost use Rattle.t1_known.specs.Private.Kept.{AreKept, rows_now};
    ghost use Rattle.t1_many.specs.KnownFaults.{RowValue};

    ghost Value = { List RowValue };

    ghost view = { λ k. rows_now k.rows.entries };

    ghost invariant = { λ k. ∥ AreKept k.rows.entries ∥₁ };
}

impl<'a> KnownFaults<'a> {
    /// Reads the known faults of a text, a row a line, as in `3 H02 glyph A fonts/a.pfb`. Lines that begin with `#` are
    /// skipped. An error has the first line that is no row, or whose kind and font are those of an earlier row.
    pub fn read(alloc: Global, text: &'a [u8]) -> Result<KnownFaults<'a>, NotKnown<'a>>
        ensures { IsReadAs text.now result }
    {
        let mut rows = IndexMap::new(alloc);
        let mut rest = text;
        let mut number = 0;
        while let Some((line, behind)) = next_line(rest) {
            number += 1;
            if !is_comment(line) {
                add_line(&mut rows, Line { number, text: line })?;
            }
            rest = behind;
        }
        Ok(KnownFaults { rows })
    }

    /// How often the row of a key, `KIND FONT`, says: 0 if there is none, 2^64 - 1 if it says more.
    pub fn count_of(&self, key: &[u8]) -> u64
        ensures row { result ≡ min (count_at self.now key.now) (2 ^ 64 - 1) }
        ensures kind { (kind font : List ℕ) → IsKind kind → key.now ≡ key_text kind font → result ≡ min (known_count self.now font kind) (2 ^ 64 - 1) }
    {
        match self.rows.get(&key) {
            Some(row) => number(row.count).unwrap_or(u64::MAX),
            None => 0,
        }
    }
}

/// Adds the row of a line.
fn add_line<'a>(rows: &mut Rows<'a>, line: Line<'a>) -> Result<(), NotKnown<'a>>
    requires { AreKept rows.old.entries }
    ensures { Adds line.entry rows.old.entries rows.new.entries result }
{
    let Some(row) = read_row(line.text) else {
        return Err(NotKnown::NoRow(line));
    };
    let key = key_in(line.text, row);
    if rows.contains_key(&key) {
        return Err(NotKnown::Twice(line));
    }
    rows.insert(key, row)?;
    Ok(())
}

/// The key of the row that a line is: what follows the count and its blank.
fn key_in<'a>(line: &'a [u8], row: Row<'_>) -> &'a [u8]
    requires { IsLineOf line.now (row_value row) }
    ensures { result.now ≡ key_of (row_value row.entry) }
{
    &line[row.count.len() + 1..]
}
