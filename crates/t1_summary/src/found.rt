//! How a font was found.

ghost use Rattle.std.specs.Prelude.{◌≡◌};
ghost use Rattle.t1_summary.specs.Classes.{place_of};

/// How a font was found.
#[derive(Clone, Copy, Debug, PartialEq, Eq)]
pub enum FontClass {
    /// No line of it is reported.
    Clean,
    /// It has lines to report, and all of them are known faults.
    Known,
    /// A line of it is reported.
    Faulty,
    /// It was refused.
    Refused,
    /// It was not checked.
    Unchecked,
}

impl FontClass {
    /// Its place among the classes of fonts, from 0.
    pub(crate) fn place(self) -> usize
        ensures { result ≡ place_of self }
    {
        self as usize
    }
}
