//! The limits that a font which was read keeps, as laws on calls that do nothing.

ghost use Rattle.t1_font.specs.Laws.Limits.{FontsWithinLimits, NothingPastTheEnd, ReadWithinLimits};

/// A font that was read has names at codes from 0 to 255 alone and Subrs at numbers from 0 to 65,534 alone. It
/// has at most 65,535 glyphs, and its stated size is at most 65,535. So its readers return nothing past these.
pub fn limits_of_fonts()
    ensures kept { ReadWithinLimits }
    ensures fonts { FontsWithinLimits }
    ensures past { NothingPastTheEnd }
{}
