//! Words that texts share.

ghost use Rattle.std.specs.Prelude.{◌≡◌, Some};
ghost use Rattle.t1_reason_texts.specs.Decimals.{coordinate_of};
ghost use Rattle.t1_reason_texts.specs.Words.{are_text, arguments_text, counted_text};

use crate::decimals::{Exact, coordinate};
use std::fmt;
use t1_char::UNIT;

/// `no numbers`, `1 number`, `3 numbers`: a count, and the word for one.
#[derive(Clone, Copy)]
pub(crate) struct Counted(pub(crate) usize, pub(crate) &'static str);

/// `none is`, `1 is`, `3 are`.
#[derive(Clone, Copy)]
pub(crate) struct Are(pub(crate) u8);

/// `no arguments`, `1 argument`, `3 arguments`, of a count in units of 1/65536.
#[derive(Clone, Copy)]
pub(crate) struct Arguments(pub(crate) i64);

/// A coordinate of 32 bits, in units of 1/65536.
pub(crate) fn small_coordinate(number: i32) -> Exact
    ensures { result ≡ coordinate_of number }
{
    coordinate(i64::from(number))
}

impl fmt::Display for Counted {
    ghost output = { λ counted. Some (counted_text counted.0 counted.1.now) };

    fn fmt<W: fmt::Write>(&self, f: &mut fmt::Formatter<W>) -> fmt::Result {
        let (count, one) = (self.0, self.1);
        if count == 0 {
            write!(f, "no {one}s")
        } else if count == 1 {
            write!(f, "1 {one}")
        } else {
            write!(f, "{count} {one}s")
        }
    }
}

impl fmt::Display for Are {
    ghost output = { λ are. Some (are_text are.0) };

    fn fmt<W: fmt::Write>(&self, f: &mut fmt::Formatter<W>) -> fmt::Result {
        let count = self.0;
        if count == 0 {
            write!(f, "none is")
        } else if count == 1 {
            write!(f, "1 is")
        } else {
            write!(f, "{count} are")
        }
    }
}

impl fmt::Display for Arguments {
    ghost output = { λ arguments. Some (arguments_text arguments.0) };

    fn fmt<W: fmt::Write>(&self, f: &mut fmt::Formatter<W>) -> fmt::Result {
        if self.0 == 0 {
            write!(f, "no arguments")
        } else if self.0 == UNIT {
            write!(f, "1 argument")
        } else {
            let count = coordinate(self.0);
            write!(f, "{count} arguments")
        }
    }
}
