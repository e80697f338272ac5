//! From the bytes of a font to the numbers of an entry.

ghost use Rattle.std.specs.Prelude.{◌≡◌, ◌++◌, IfErr, IfOk, IsOkAnd, OnOk, length, string_bytes};
ghost use Rattle.std.specs.List.{flat_map};
ghost use Rattle.t1_font.specs.Entries.{entry_view};
ghost use Rattle.t1_rules.specs.Keys.{value_at};
ghost use Rattle.t1_run.specs.FontFiles.{font_of};
ghost use Rattle.t1_pieces.specs.Entries.{AreNumbersOf, IsNumbersPiece, next_number, numbers_text};
ghost use Rattle.t1_pieces.specs.Reading.{IsFailureOf};

use crate::piece::{Missing, Piece, hand_over, put_text};
use crate::reading::open;
use std::alloc::{AllocError, Global};
use std::fmt::Write;
use t1_font::{Entry, Key};
use t1_reason_texts::value;
use t1_run::Failure;

/// Hands over the numbers of the entry of a key that is a list: how many there are, and the first 16 of them, as decimals, each
/// after a blank.
pub fn entry_numbers(alloc: Global, font: &[u8], key: Key, room: &mut [u8]) -> Piece
    ensures numbers { IsNumbersPiece key (font_of font.now) room.new result }
    ensures length { length room.new ≡ length room.old }
{
    hand_over(numbers_of_file(alloc, font, key, room), room)
}

/// Reads the font, and writes the numbers.
fn numbers_of_file(alloc: Global, font: &[u8], key: Key, room: &mut [u8]) -> Result<Piece, Failure>
    ensures numbers { IfOk result (λ piece. IsOkAnd (font_of font.now) (λ value. AreNumbersOf (value_at value key) room.new piece)) }
    ensures failed { IfErr result (IsFailureOf (font_of font.now)) }
    ensures length { length room.new ≡ length room.old }
{
    let mut file = open(alloc, font)?;
    let font = file.font(alloc)?;
    let numbers = numbers_of_entry(alloc, font.value(key), room);
    font.let_go();
    Ok(numbers?)
}

/// Writes the numbers of an entry, if it is a list of numbers.
fn numbers_of_entry(alloc: Global, entry: &Entry, room: &mut [u8]) -> Result<Piece, AllocError>
    ensures numbers { IfOk result (AreNumbersOf (entry_view entry.now) room.new) }
    ensures length { length room.new ≡ length room.old }
{
    match entry {
        Entry::Numbers { count, first } => {
            let text = numbers_text(alloc, *count, first.as_slice())?;
            Ok(put_text(text.as_bytes(), room))
        }
        _ => Ok(Piece::Missing(Missing::Numbers)),
    }
}

/// Writes how many numbers there are, and the first of them.
fn numbers_text(alloc: Global, count: usize, first: &[i64]) -> Result<String, AllocError>
    ensures { IfOk result (λ text. string_bytes text ≡ numbers_text count first.now) }
{
    let mut text = format!(in alloc; "{count}")?;
    add_numbers(&mut text, first)?;
    Ok(text)
}

fn add_numbers(text: &mut String, numbers: &[i64]) -> Result<(), AllocError>
    ensures { OnOk result (string_bytes text.new ≡ string_bytes text.old ++ flat_map next_number numbers.now) }
{
    for number in numbers {
        add_number(text, *number)?;
    }
    Ok(())
}

fn add_number(text: &mut String, number: i64) -> Result<(), AllocError>
    ensures { OnOk result (string_bytes text.new ≡ string_bytes text.old ++ next_number number) }
{
    let number = value(number);
    write!(text, " {number}")
}
