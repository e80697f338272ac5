//! What is wrong in the row of a text.

ghost use Rattle.std.specs.Prelude.{◌≡◌, ◌<◌, ◌^◌, ◌++◌, ◌∷◌, [], length};
ghost use Rattle.std.specs.Option.{option_map};
ghost use Rattle.t1_font.specs.Rows.{row_left, token_in_row};
ghost use Rattle.t1_texts.specs.Private.Watching.{IsWatchOf, or_here, tokens_before};
ghost use Rattle.t1_texts.specs.RowFaults.{faults_in, faults_view, placed_view};

use crate::earlier::Earlier;
use crate::given::GivenWords;
use crate::reader::KnownReader;
use t1_font::{Part, Role, Row, TokenInRow};
use t1_words::is_unpaired;

/// A token, and its place in its row, from 0.
#[derive(Clone, Copy)]
pub struct Placed<'a> {
    /// The token.
    pub token: TokenInRow<'a>,
    /// Its place.
    pub place: usize,
}

/// The first token of each kind of fault.
#[derive(Clone, Copy)]
pub struct RowFaults<'a> {
    /// A brace or a bracket without a partner, or what has one in it.
    pub unpaired: Option<Placed<'a>>,
    /// A word that is neither known nor given.
    pub unknown: Option<Placed<'a>>,
    /// A word before a charstring that isn't defined to read it.
    pub unread: Option<Placed<'a>>,
}

/// What is found so far, and what is kept to find more.
#[derive(Drop)]
struct Watch<'a> {
    faults: RowFaults<'a>,
    given: GivenWords<'a>,
    reader: KnownReader<'a>,
}

/// Notes a token that is such a fault, if it is the first.
fn note<'a>(found: &mut Option<Placed<'a>>, is_broken: bool, here: Placed<'a>)
    ensures { option_map placed_view found.new ≡ or_here (option_map placed_view found.old) is_broken (placed_view here.entry) }
{
    if is_broken && found.is_none() {
        *found = Some(here);
    }
}

impl<'a> Watch<'a> {
    fn new() -> Watch<'a>
        ensures { IsWatchOf result [] }
    {
        Watch {
            faults: RowFaults {
                unpaired: None,
                unknown: None,
                unread: None,
            },
            given: GivenWords::new(),
            reader: KnownReader { word: None },
        }
    }

    /// Sees the next token.
    fn see(&mut self, earlier: Earlier<'a>, token: TokenInRow<'a>)
        requires watch { IsWatchOf self.old (tokens_before earlier) }
        requires place { length (tokens_before earlier) ≡ earlier.count }
        ensures { IsWatchOf self.new (tokens_before earlier.entry ++ token_in_row token.entry ∷ []) }
    {
        let here = Placed {
            token,
            place: earlier.count,
        };
        let is_unknown = self
            .given
            .is_unknown(self.faults.unknown.is_some(), earlier, &token);
        let is_unread = self
            .reader
            .is_unread(self.faults.unread.is_some(), earlier, &token);
        note(&mut self.faults.unpaired, is_unpaired(&token.token), here);
        note(&mut self.faults.unknown, is_unknown, here);
        note(&mut self.faults.unread, is_unread, here);
        self.reader.pass(&token);
    }
}

/// Finds what is wrong in a row.
pub fn row_faults(row: Row<'_>) -> RowFaults<'_>
    requires { length (row_left row) < 2 ^ 63 }
    ensures { faults_view result ≡ faults_in (row_left row.entry) }
{
    let mut left = row;
    let mut count = 0;
    let mut watch = Watch::new();
    'parts: while let Some(part) = left.part() {
        match part {
            Part::Token(token) => {
                watch.see(Earlier { row, count }, token);
                count += 1;
            }
            Part::Entry(entry) => {
                let first = TokenInRow {
                    token: entry.first,
                    role: Role::Other,
                };
                watch.see(Earlier { row, count }, first);
                let behind = count + 1 + entry.numbers;
                let word = TokenInRow {
                    token: entry.word,
                    role: Role::Reader,
                };
                watch.see(Earlier { row, count: behind }, word);
                count = behind + 1;
            }
        }
    }
    watch.faults
}
