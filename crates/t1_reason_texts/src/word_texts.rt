//! What the texts of reasons are made of that a font's own texts have: its words, its bytes, its first line.

ghost use Rattle.std.specs.Prelude.{◌≡◌, ◌≤◌, ◌-◌, Some, length, not, slice_get};
ghost use Rattle.std.specs.List.{prefix_len};
ghost use Rattle.std.specs.Option.{option_map};
ghost use Rattle.t1_font.specs.Rows.{row_left, token_in_row};
ghost use Rattle.t1_reasons.specs.declared.reason.FontText.TheVariants.{Private};
ghost use Rattle.t1_reason_texts.specs.WordTexts.{ends_line, entry_words, first_bytes, first_line, first_line_of, is_slashed, row_of_text, shown_bytes, shown_letter, shown_word, text_words, word_at, word_reason_text};

use crate::decimals::value;
use crate::names::ShownByte;
use crate::text::ReasonText;
use std::fmt;
use t1_font::{Font, Row, TokenInRow};
use t1_reasons::{FontText, Reason};

/// The most bytes of a word that are shown.
const MOST_BYTES: usize = 40;

/// A word as it is shown: its first 40 bytes, and `…` where it has more. Bytes other than printable ASCII, and `\` and `:`, are shown as
/// `\xNN`.
#[derive(Clone, Copy)]
struct ShownWord<'a>(&'a [u8]);

/// Of a word so many bytes.
#[derive(Clone, Copy)]
struct ShownBytes<'a> {
    word: &'a [u8],
    left: usize,
}

/// A byte as it is shown in a word.
#[derive(Clone, Copy)]
struct ShownLetter(u8);

/// What a charstring is of, by the token ahead of its length.
#[derive(Clone, Copy)]
struct EntryWords<'a>(&'a [u8]);

/// The text of a reason that speaks of the font's texts, or of FontMatrix.
#[derive(Clone, Copy)]
pub(crate) struct WordReasonText<'a, 'b>(pub(crate) ReasonText<'a, 'b>);

/// The row of one of a font's texts.
fn row_of<'a>(font: &Font<'a>, text: FontText) -> Row<'a>
    ensures { row_left result ≡ row_of_text font.now text }
{
    match text {
        FontText::Clear => Row::clear(font),
        FontText::Private => Row::private(font),
    }
}

/// The token at a place of a row.
fn token_at<'a>(row: Row<'a>, place: usize) -> Option<TokenInRow<'a>>
    ensures { option_map token_in_row result ≡ slice_get (row_left row.entry) place }
{
    let mut row = row;
    let mut left = place;
    'tokens: while left > 0 {
        let Some(_) = row.next() else {
            return None;
        };
        left -= 1;
    }
    row.next()
}

/// Returns the token at a place of the row of one of a font's texts; empty where there is none.
pub fn word_at<'a>(font: &Font<'a>, text: FontText, place: usize) -> &'a [u8]
    ensures { result.now ≡ word_at font.now text place }
{
    match token_at(row_of(font, text), place) {
        Some(token) => token.token.text,
        None => &[],
    }
}

/// What the entry of a charstring begins with, by the place of the word before the bytes: the glyph's name, or the Subr's number.
fn entry_at<'a>(font: &Font<'a>, place: usize) -> &'a [u8]
    ensures { result.now ≡ word_at font.now Private (place - 2) }
{
    word_at(font, FontText::Private, place.saturating_sub(2))
}

/// Returns the first 40 bytes of a word: so many are shown.
pub fn first_bytes(word: &[u8]) -> &[u8]
    ensures { result.now ≡ first_bytes word.now }
{
    if word.len() > MOST_BYTES {
        &word[..MOST_BYTES]
    } else {
        word
    }
}

fn ends_line(byte: u8) -> bool
    ensures { result ≡ ends_line byte }
{
    byte == b'\n' || byte == b'\r'
}

/// How many bytes the first line of a text has.
fn first_line_len(text: &[u8]) -> usize
    ensures value { result ≡ prefix_len (λ byte. not (ends_line byte)) text.now }
    ensures bound { result ≤ length text.now }
{
    for (at, byte) in text.iter().enumerate() {
        if ends_line(*byte) {
            return at;
        }
    }
    text.len()
}

/// Returns the first line of a font's clear text.
pub fn first_line<'a>(font: &Font<'a>) -> &'a [u8]
    ensures { result.now ≡ first_line font.now }
{
    let text = font.clear_text();
    &text[..first_line_len(text)]
}

/// Whether a word begins with a slash, as names do.
fn is_slashed(word: &[u8]) -> bool
    ensures { result ≡ is_slashed word.now }
{
    matches!(word, [b'/', ..])
}

fn text_words(text: FontText) -> &'static str
    ensures { result.now ≡ text_words text }
{
    match text {
        FontText::Clear => "in the clear text",
        FontText::Private => "in Private",
    }
}

impl fmt::Display for ShownLetter {
    ghost output = { λ shown. Some (shown_letter shown.0) };

    fn fmt<W: fmt::Write>(&self, f: &mut fmt::Formatter<W>) -> fmt::Result {
        if self.0 == b' ' {
            write!(f, " ")
        } else {
            let shown = ShownByte(self.0);
            write!(f, "{shown}")
        }
    }
}

impl fmt::Display for ShownBytes<'_> {
    ghost output = { λ shown. Some (shown_bytes shown.left shown.word.now) };

    fn fmt<W: fmt::Write>(&self, f: &mut fmt::Formatter<W>) -> fmt::Result {
        let mut left = self.left;
        for byte in self.word {
            if left == 0 {
                return write!(f, "…");
            }
            let shown = ShownLetter(*byte);
            write!(f, "{shown}")?;
            left -= 1;
        }
        Ok(())
    }
}

impl fmt::Display for ShownWord<'_> {
    ghost output = { λ word. Some (shown_word word.0.now) };

    fn fmt<W: fmt::Write>(&self, f: &mut fmt::Formatter<W>) -> fmt::Result {
        let shown = ShownBytes {
            word: self.0,
            left: MOST_BYTES,
        };
        write!(f, "{shown}")
    }
}

impl fmt::Display for EntryWords<'_> {
    ghost output = { λ word. Some (entry_words word.0.now) };

    fn fmt<W: fmt::Write>(&self, f: &mut fmt::Formatter<W>) -> fmt::Result {
        let word = ShownWord(self.0);
        if is_slashed(self.0) {
            write!(f, "{word}")
        } else {
            write!(f, "Subr {word}")
        }
    }
}

impl fmt::Display for WordReasonText<'_, '_> {
    ghost output = { λ t. Some (word_reason_text t.0.font.now t.0.reason) };

    #[tactic(auto, unfolding(crate::specs::WordTexts::word_reason_text))]
    fn fmt<W: fmt::Write>(&self, f: &mut fmt::Formatter<W>) -> fmt::Result {
        let font = self.0.font;
        match self.0.reason {
            Reason::HighByte { line, byte } => write!(f, "byte {byte} in line {line}"),
            Reason::ReaderWord { place } => {
                let word = ShownWord(word_at(font, FontText::Private, place));
                let entry = EntryWords(entry_at(font, place));
                write!(f, "{word} before the charstring of {entry}")
            }
            Reason::TextWord { text, place } => {
                let word = ShownWord(word_at(font, text, place));
                let text = text_words(text);
                write!(f, "{word} {text}")
            }
            Reason::Determinant { v0, v1, v2, v3 } => {
                let (v0, v1, v2, v3) = (value(v0), value(v1), value(v2), value(v3));
                write!(
                    f,
                    "the determinant {v0} times {v3} less {v1} times {v2} is 0"
                )
            }
            Reason::PrivateUnbegun { named } => {
                if named {
                    write!(
                        f,
                        "/Private is not followed by a number, dict, dup and begin"
                    )
                } else {
                    write!(f, "there is no /Private before the Subrs and CharStrings")
                }
            }
            Reason::FirstLine => {
                let line = ShownWord(first_line(font));
                write!(f, "the file begins with {line}")
            }
            Reason::Nothing
            | Reason::Count { .. }
            | Reason::Full { .. }
            | Reason::Length { .. }
            | Reason::Ending { .. }
            | Reason::Behind { .. }
            | Reason::Argument { .. }
            | Reason::Quotient { .. }
            | Reason::Depth { .. }
            | Reason::Subr { .. }
            | Reason::Token { .. }
            | Reason::Since { .. }
            | Reason::Othersubr { .. }
            | Reason::Arguments { .. }
            | Reason::Pairs { .. }
            | Reason::Open { .. }
            | Reason::Stems { .. }
            | Reason::Stem { .. }
            | Reason::Triple { .. }
            | Reason::Miss { .. }
            | Reason::Codes { .. }
            | Reason::Sidebearings { .. }
            | Reason::Outside { .. }
            | Reason::Area { .. }
            | Reason::Stroke { .. }
            | Reason::Beyond { .. }
            | Reason::Untouched { .. }
            | Reason::Limit { .. }
            | Reason::Entry { .. }
            | Reason::Ids { .. }
            | Reason::Features { .. }
            | Reason::Glyphs { .. }
            | Reason::Form { .. }
            | Reason::SubrEntry { .. }
            | Reason::Kind { .. }
            | Reason::TooMany { .. }
            | Reason::Numbers { .. }
            | Reason::Glyph { .. }
            | Reason::Code { .. }
            | Reason::Corners { .. }
            | Reason::Number { .. }
            | Reason::LastToken { .. }
            | Reason::Following { .. }
            | Reason::Gap { .. }
            | Reason::Zones { .. }
            | Reason::Zone { .. }
            | Reason::Width { .. }
            | Reason::Waiver { .. } => Ok(()),
        }
    }
}
