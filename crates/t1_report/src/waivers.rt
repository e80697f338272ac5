//! Waivers: which rules aren't reported of which glyphs.

ghost use Rattle.std.specs.Prelude.{◌≡◌, ◌≤◌, ◌+◌, ℕ, [], ◌&&◌, not, nat_le, length, slice_get};
ghost use Rattle.indexmap.specs.IndexSet.{index_set_len};
ghost use Rattle.t1_report.specs.Refusals.{waivers_code};
ghost use Rattle.t1_report.specs.WaiverViews.{IsReadAs, waiver_if_any, waivers_now};
ghost use Rattle.t1_report.specs.Waivers.{Waiver, is_waivable, is_waived, line_read, waiver_of, waivers_of, largest_waivers};
ghost use Rattle.t1_report.specs.declared.waivers.WaiverError.TheVariants.{Memory};
ghost use Rattle.t1_rules.specs.Book.{number_of};
ghost use Rattle.t1_rules.specs.Mask.{has};

use indexmap::IndexSet;
use std::alloc::{AllocError, AllocFailed, Global};
use std::marker::Model;
use t1_char::Edition;
use t1_font::RefusalCode;
use t1_rules::{Mask, Rule};
use t1_scan::run_len;

/// The greatest size of a text of waivers, in bytes.
pub const LARGEST_WAIVERS: usize = 1_048_576;

/// Why a text isn't read as waivers.
#[derive(Clone, Copy, Debug, PartialEq, Eq)]
pub enum WaiverError {
    /// E14: a line isn't a name, one blank and the code of a rule on charstrings, as in `A C05`.
    Malformed,
    /// An allocation was refused.
    Memory,
}

impl WaiverError {
    /// The number by which the text is refused. Running out of memory refuses none.
    pub fn code(self) -> Option<RefusalCode>
        ensures { result ≡ waivers_code self }
    {
        match self {
            WaiverError::Malformed => Some(RefusalCode::E14),
            WaiverError::Memory => None,
        }
    }
}

impl<T: Drop> From<AllocFailed<T>> for WaiverError {
    ghost from_gives = { λ _ e. e ≡ Memory };

    fn from(_error: AllocFailed<T>) -> WaiverError {
        WaiverError::Memory
    }
}

/// A glyph's name, and a rule that isn't reported of that glyph.
type Pair<'a> = (&'a [u8], Rule);

/// Waivers, each once, in the order of their first places.
#[derive(Drop)]
pub struct Waivers<'a> {
    pairs: Option<IndexSet<Pair<'a>>>,
}

impl<'a> Model for Waivers<'a> {
    ghost use Rattle.std.specs.Prelude.{◌≤◌, List, length};
    ghost use Rattle.t1_report.specs.Refusals.{waivers_code};
    ghost use Rattle.t1_report.specs.WaiverViews.{kept_waivers};
    ghost use Rattle.t1_report.specs.Waivers.{Waiver};
    ghost use Rattle.t1_report.specs.Waivers.{largest_waivers};

    ghost Value = { List Waiver };

    ghost view = { λ w. kept_waivers w.pairs };

    ghost invariant = { λ w. length (kept_waivers w.pairs) ≤ largest_waivers };
}

impl<'a> Waivers<'a> {
    /// No waivers: all is reported.
    pub fn none() -> Waivers<'a>
        ensures { result ≡ [] }
    {
        Waivers { pairs: None }
    }

    /// The waivers of a text of at most 1,048,576 bytes: a line each, as in `A C05`. The edition says which rules can be
    /// waived: those from C01 to L01, and from H05 to W03 and P04 to H10 where it has them.
    pub fn read(alloc: Global, text: &'a [u8], edition: Edition) -> Result<Waivers<'a>, WaiverError>
        requires { length text.now ≤ largest_waivers }
        ensures { IsReadAs (λ w. w) (waivers_of edition text.now) result }
    {
        let mut pairs = IndexSet::new(alloc);
        let mut start = 0;
        for (at, byte) in text.iter().enumerate() {
            if *byte == b'\n' {
                add_line(&mut pairs, &text[start..at], edition)?;
                start = at + 1;
            }
        }
        add_line(&mut pairs, &text[start..], edition)?;
        Ok(Waivers { pairs: Some(pairs) })
    }

    /// How many there are.
    pub fn len(&self) -> usize
        ensures len { result ≡ length self.now }
        ensures few { result ≤ largest_waivers }
    {
        match &self.pairs {
            Some(pairs) => pairs.len(),
            None => 0,
        }
    }

    /// The waiver of a place, from 0 on.
    pub fn pair(&self, place: usize) -> Option<(&'a [u8], Rule)>
        ensures { waiver_if_any result ≡ slice_get self.now place }
    {
        match &self.pairs {
            Some(pairs) => pairs.get_index(place).copied(),
            None => None,
        }
    }

    /// Whether a rule is waived of the glyph of a name.
    pub fn waives(&self, name: &[u8], rule: Rule) -> bool
        ensures { result ≡ is_waived self.now name.now (number_of rule) }
    {
        match &self.pairs {
            Some(pairs) => pairs.contains(&(name, rule)),
            None => false,
        }
    }

    /// Of these rules those that aren't waived of the glyph of a name.
    pub(crate) fn left(&self, name: &[u8], rules: Mask) -> Mask
        ensures { (n : ℕ) → has result n ≡ (has rules n && not (is_waived self.now name.now n)) }
    {
        let mut left = rules;
        let mut floor = 0;
        while let Some(rule) = rules.above(floor) {
            left = left.without(rule, self.waives(name, rule));
            floor = rule.number();
        }
        left
    }
}

/// Adds the waiver of a line.
fn add_line<'a>(
    pairs: &mut IndexSet<Pair<'a>>,
    line: &'a [u8],
    edition: Edition,
) -> Result<(), WaiverError>
    ensures read { IsReadAs (λ _. waivers_now pairs.new.keys) (line_read edition (waivers_now pairs.old.keys) line.now) result }
    ensures few { index_set_len pairs.new ≤ index_set_len pairs.old + length line.now }
{
    let text = line.strip_suffix(b"\r").unwrap_or(line);
    if text.is_empty() {
        return Ok(());
    }
    let Some(pair) = pair_in(text, edition) else {
        return Err(WaiverError::Malformed);
    };
    pairs.insert(pair)?;
    Ok(())
}

/// The waiver that a line is.
fn pair_in(text: &[u8], edition: Edition) -> Option<Pair<'_>>
    ensures { waiver_if_any result ≡ waiver_of edition text.now }
{
    let (name, rest) = text.split_at(run_len(text));
    match rest.split_first() {
        Some((b' ', code)) => match Rule::from_code(code) {
            Some(rule) if is_waivable(rule, edition) => Some((name, rule)),
            _ => None,
        },
        _ => None,
    }
}

/// Whether an edition waives a rule: one on charstrings, on their steps, or on what they draw.
fn is_waivable(rule: Rule, edition: Edition) -> bool
    ensures { result ≡ is_waivable edition rule }
{
    is_from(rule, Rule::C01, Rule::L01)
        || ((edition.has_later_rules() && is_from(rule, Rule::H05, Rule::W03))
            || (edition.has_latest_rules() && is_from(rule, Rule::P04, Rule::H10)))
}

/// Whether a rule is one of those from the first to the last, by their numbers.
fn is_from(rule: Rule, first: Rule, last: Rule) -> bool
    ensures { result ≡ (nat_le (number_of first) (number_of rule) && nat_le (number_of rule) (number_of last)) }
{
    first.number() <= rule.number() && rule.number() <= last.number()
}
