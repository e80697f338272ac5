//! Plain values: Type 1 Font Format 1.1, chapters 2 and 5.

ghost use Rattle.std.specs.Prelude.{◌≡◌, ◌++◌, ◌∷◌, ◌≤◌, [], false, length, take};
ghost use Rattle.t1_font.specs.Bounds.{kept_numbers};
ghost use Rattle.t1_font.specs.Entries.{entry_view};
ghost use Rattle.t1_font.specs.Private.Items.{item_view};
ghost use Rattle.t1_font.specs.LenIv.{len_iv_of};
ghost use Rattle.t1_font.specs.Values.{item_at, item_of, list_value, value_of_token};

use crate::bounds::{GREATEST_LEN_IV, KEPT_NUMBERS};
use crate::copies::copy_of;
use crate::tokens::{BILLION, first, inside};
use arrayvec::ArrayVec;
use t1_scan::Kind;

/// How many random bytes are before each charstring, unless the font says so.
const DEFAULT_LEN_IV: i8 = 4;

/// What a plain key has. Numbers are in units of 10^-9.
#[derive(Drop)]
pub enum Entry {
    /// The key isn't there.
    Absent,
    Number(i64),
    /// The numbers of an array or a procedure: how many there are, and the first 16 of them.
    Numbers {
        count: usize,
        first: ArrayVec<i64, KEPT_NUMBERS>,
    },
    /// Anything else.
    Other,
}

impl Entry {
    /// The same once more.
    pub(crate) fn copied(&self) -> Entry
        ensures { entry_view result ≡ entry_view self.now }
    {
        match self {
            Entry::Absent => Entry::Absent,
            Entry::Number(number) => Entry::Number(*number),
            Entry::Numbers { count, first } => Entry::Numbers {
                count: *count,
                first: copy_of(first),
            },
            Entry::Other => Entry::Other,
        }
    }

    /// The lenIV that it is, or the usual one.
    #[tactic(auto, unfolding(crate::specs::LenIv::len_iv_of))]
    pub(crate) fn len_iv(&self) -> i8
        ensures { result ≡ len_iv_of (entry_view self.now) }
    {
        let Entry::Number(value) = self else {
            return DEFAULT_LEN_IV;
        };
        let whole = *value / BILLION;
        if whole >= -1 && whole <= i64::from(GREATEST_LEN_IV) {
            whole as i8
        } else {
            DEFAULT_LEN_IV
        }
    }
}

/// What a list has next.
enum Item<'a> {
    End,
    /// A number, and what follows it.
    Number(i64, &'a [u8]),
    /// A token that isn't a number, or isn't closed.
    Other,
}

/// What a token is in a list.
fn item_of(kind: Kind, rest: &[u8]) -> Item<'_>
    ensures { item_view result ≡ item_of kind rest.now }
{
    match kind {
        Kind::Number(number) => Item::Number(number, rest),
        _ => Item::Other,
    }
}

/// What a list begins with.
#[tactic(auto, unfolding(crate::specs::Values::item_at))]
fn first_item(text: &[u8]) -> Item<'_>
    ensures { item_view result ≡ item_at text.now }
{
    match first(text) {
        Ok(Some((token, rest))) => item_of(token.kind, rest),
        Ok(None) => Item::End,
        Err(_) => Item::Other,
    }
}

/// Keeps a number where there is room.
fn keep(first: &mut ArrayVec<i64, KEPT_NUMBERS>, number: i64)
    requires { length first.old.items ≤ kept_numbers }
    ensures { first.new.items ≡ take kept_numbers (first.old.items ++ number ∷ []) }
{
    if first.len() < KEPT_NUMBERS {
        first.push(number);
    }
}

/// The value of an array or a procedure, by what is between its brackets.
#[tactic(auto, unfolding(crate::specs::Values::list_value))]
fn list(text: &[u8]) -> Entry
    ensures { entry_view result ≡ list_value text.now }
{
    let mut left = text;
    let mut count = 0;
    let mut kept = ArrayVec::new();
    'items: loop {
        match first_item(left) {
            Item::End => return Entry::Numbers { count, first: kept },
            Item::Number(number, rest) => {
                keep(&mut kept, number);
                count += 1;
                left = rest;
            }
            Item::Other => return Entry::Other,
        }
    }
}

/// The value that a token is.
#[tactic(auto, unfolding(crate::specs::Values::value_of_token))]
pub(crate) fn value(kind: Kind, text: &[u8]) -> Entry
    ensures { entry_view result ≡ value_of_token (record { kind = kind; text = text.now }) }
{
    match kind {
        Kind::Number(number) => Entry::Number(number),
        Kind::Proc | Kind::Array => list(inside(text)),
        Kind::Name | Kind::Word | Kind::Text => Entry::Other,
    }
}
