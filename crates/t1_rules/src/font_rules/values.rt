//! Plain values: what they are, and their numbers. Type 1 Font Format 1.1, chapters 2 and 5. Numbers are in units of
//! 10^-9, and are compared exactly.

ghost use Rattle.std.specs.Prelude.{◌≡◌};
ghost use Rattle.t1_font.specs.Entries.{entry_view};
ghost use Rattle.t1_rules.specs.FontRules.Values.{count_in, first_in, is_sixteen_twice, is_so_many, is_the_number, is_whole, number_or};

use t1_font::{BILLION, Entry};

/// Whether a value is this whole number.
pub fn is_the_number(whole: u32, value: &Entry) -> bool
    ensures { result ≡ is_the_number whole (entry_view value.now) }
{
    match value {
        Entry::Number(number) => *number == i64::from(whole) * BILLION,
        Entry::Absent | Entry::Numbers { .. } | Entry::Other => false,
    }
}

/// Whether a value is the two numbers 16 and 16.
pub fn is_sixteen_twice(value: &Entry) -> bool
    ensures { result ≡ is_sixteen_twice (entry_view value.now) }
{
    let Entry::Numbers { count, first } = value else {
        return false;
    };
    match first.as_slice() {
        [one, other, ..] => (*count == 2) & (*one == 16 * BILLION) & (*other == 16 * BILLION),
        _ => false,
    }
}

/// The number that a value is, or one in its place.
pub(crate) fn number_or(otherwise: i64, value: &Entry) -> i64
    ensures { result ≡ number_or otherwise (entry_view value.now) }
{
    match value {
        Entry::Number(number) => *number,
        Entry::Absent | Entry::Numbers { .. } | Entry::Other => otherwise,
    }
}

/// Returns how many numbers a value has; 0 where it is no list.
pub fn count_in(value: &Entry) -> usize
    ensures { result ≡ count_in (entry_view value.now) }
{
    match value {
        Entry::Numbers { count, .. } => *count,
        Entry::Absent | Entry::Number(_) | Entry::Other => 0,
    }
}

/// Returns the first numbers of a value, up to a limit, in units of 10^-9.
pub fn first_in(limit: usize, value: &Entry) -> &[i64]
    ensures { result.now ≡ first_in limit (entry_view value.now) }
{
    match value {
        Entry::Numbers { first, .. } => {
            let numbers = first.as_slice();
            if limit < numbers.len() {
                &numbers[..limit]
            } else {
                numbers
            }
        }
        Entry::Absent | Entry::Number(_) | Entry::Other => &[],
    }
}

/// Whether a number in units of 10^-9 has no fraction.
pub fn is_whole(number: i64) -> bool
    ensures { result ≡ is_whole number }
{
    number.unsigned_abs() % BILLION as u64 == 0
}

/// Whether a value is a list of so many numbers.
pub fn is_so_many(many: usize, value: &Entry) -> bool
    ensures { result ≡ is_so_many many (entry_view value.now) }
{
    match value {
        Entry::Numbers { count, .. } => *count == many,
        Entry::Absent | Entry::Number(_) | Entry::Other => false,
    }
}
