//! Rows of a file of known faults.

ghost use Rattle.std.specs.Prelude.{◌≡◌, ◌++◌, codes, option_map, MatchOption};
ghost use Rattle.t1_many.specs.KnownFaults.{IsRow, row_text};
ghost use Rattle.t1_many.specs.Private.Rows.{front, kind_cut, row_read, unit_cut};
ghost use Rattle.t1_many.specs.RowValues.{IsNoRow, row_value};

use crate::choice::are_digits;
use t1_lines::cut;

/// A row of known faults: how often faults of a kind are known of a font.
#[derive(Clone, Copy, Debug)]
pub struct Row<'a> {
    /// How often, by decimal digits as they are.
    pub count: &'a [u8],
    /// The rule, and the unit in which it is broken: `H02 glyph A`, `Z04 font BlueValues`, `U01 waiver A P01`.
    pub kind: &'a [u8],
    /// The font's name.
    pub font: &'a [u8],
}

/// Reads a row, without its line end, as in `3 H02 glyph A fonts/a.pfb`: None where it is none.
pub fn read_row(line: &[u8]) -> Option<Row<'_>>
    ensures { MatchOption result (IsNoRow line.now) (λ row. IsRow (row_value row) × (row_text (row_value row) ≡ line.now ++ codes "\n")) }
{
    whole_row(line)
}

/// `COUNT KIND FONT`.
#[tactic(auto, unfolding(crate::specs::Private::Rows::row_read))]
fn whole_row(line: &[u8]) -> Option<Row<'_>>
    ensures { option_map row_value result ≡ row_read line.now }
{
    let (count, rest) = cut(b' ', line)?;
    let (kind, font) = cut_kind(rest)?;
    if count.is_empty() || font.is_empty() || !are_digits(count) {
        return None;
    }
    Some(Row { count, kind, font })
}

/// Cuts a kind off the beginning of a text: `RULE font KEY`, `RULE glyph NAME` or `RULE waiver NAME RULE`.
#[tactic(auto, unfolding(crate::specs::Private::Rows::kind_cut))]
fn cut_kind(text: &[u8]) -> Option<(&[u8], &[u8])>
    ensures { option_map (λ p. (p.0.now, p.1.now)) result ≡ kind_cut text.now }
{
    let (_rule, rest) = cut(b' ', text)?;
    let (unit, rest) = cut(b' ', rest)?;
    let (_name, rest) = cut(b' ', rest)?;
    cut_unit(text, unit, rest)
}

/// The same, by the word of the unit, and what follows the word after it.
#[tactic(auto, unfolding(crate::specs::Private::Rows::unit_cut))]
fn cut_unit<'a>(text: &'a [u8], unit: &[u8], rest: &'a [u8]) -> Option<(&'a [u8], &'a [u8])>
    ensures { option_map (λ p. (p.0.now, p.1.now)) result ≡ unit_cut text.now unit.now rest.now }
{
    if unit == b"font".as_slice() || unit == b"glyph".as_slice() {
        return Some((front(text, rest), rest));
    }
    if unit == b"waiver".as_slice() {
        let (_rule, rest) = cut(b' ', rest)?;
        return Some((front(text, rest), rest));
    }
    None
}

/// What is before the blank before the end of a text.
fn front<'a>(text: &'a [u8], end: &[u8]) -> &'a [u8]
    ensures { result.now ≡ front text.now end.now }
{
    let len = text.len().saturating_sub(end.len()).saturating_sub(1);
    &text[..len]
}
