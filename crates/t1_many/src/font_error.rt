//! Why there is no report of a font.

ghost use Rattle.std.specs.Prelude.{◌≡◌, ◌≤◌, ◌++◌, length};
ghost use Rattle.t1_many.specs.FontErrors.{error_of, reason_of};
ghost use Rattle.t1_many.specs.Outcomes.{found_of_error};

use arrayvec::ArrayString;
use t1_font::RefusalCode;
use t1_names::Cause;
use t1_run::Failure;
use t1_summary::FontClass;

/// Why there is no report of a font.
#[derive(Clone, Copy, Debug, PartialEq, Eq)]
pub enum FontError {
    /// The font or its waivers are refused, by this number.
    Refused(RefusalCode),
    /// The font isn't checked.
    Unchecked(Obstacle),
}

/// Why a font isn't checked.
#[derive(Clone, Copy, Debug, PartialEq, Eq)]
pub enum Obstacle {
    /// Its name has a line end, and so can't be in a line.
    LineEnd,
    /// Its file can't be opened, for this cause, or a read failed.
    Unread(Cause),
    /// The file of its waivers can't be opened, for this cause.
    WaiversUnread(Cause),
    /// Memory ran out.
    Memory,
}

/// The text of an obstacle, in memory of its own: none is longer.
pub type ObstacleText = ArrayString<64>;

impl From<Failure> for FontError {
    ghost from_gives = { λ failure error. error ≡ error_of failure };

    fn from(failure: Failure) -> FontError {
        match failure {
            Failure::Refused(code) => FontError::Refused(code),
            Failure::Broken => FontError::Unchecked(Obstacle::Unread(Cause::Unknown)),
            Failure::Memory => FontError::Unchecked(Obstacle::Memory),
        }
    }
}

impl FontError {
    /// How a font is found of which there is no report for this reason.
    pub(crate) fn found(self) -> FontClass
        ensures { result ≡ found_of_error self }
    {
        match self {
            FontError::Refused(_) => FontClass::Refused,
            FontError::Unchecked(_) => FontClass::Unchecked,
        }
    }
}

impl Obstacle {
    /// Why the font isn't checked, as it is reported.
    pub fn text(self) -> ObstacleText
        ensures { result.bytes ≡ reason_of self }
    {
        match self {
            Obstacle::LineEnd => joined("its name has a line end", ""),
            Obstacle::Unread(cause) => joined("read failed", cause.text()),
            Obstacle::WaiversUnread(cause) => joined("read of waivers failed", cause.text()),
            Obstacle::Memory => joined("out of memory", ""),
        }
    }
}

/// A message, and what is said of its cause.
fn joined(message: &str, cause: &str) -> ObstacleText
    requires message { length message.now ≤ 24 }
    requires cause { length cause.now ≤ 40 }
    ensures { result.bytes ≡ message.now ++ cause.now }
{
    let mut text = ArrayString::new();
    text.push_str(message);
    text.push_str(cause);
    text
}
