//! Checks one font of many.

ghost use Rattle.std.specs.Prelude.{◌≡◌, ◌≤◌, ◌+◌, false, length};
ghost use Rattle.t1_font.specs.Bounds.{most_glyphs};
ghost use Rattle.t1_io.specs.Devices.{is_over};
ghost use Rattle.t1_many.specs.Files.{ReadsUpTo, given_by};
ghost use Rattle.t1_many.specs.Private.Checking.{Checks, IsFont, of_bytes, of_font, of_text};
ghost use Rattle.t1_many.specs.Recipients.{recipient_by};
ghost use Rattle.t1_report.specs.Waivers.{largest_waivers};
ghost use Rattle.t1_run.specs.FontFiles.{largest_file};
ghost use Rattle.t1_run.specs.Input.{ReadsAtMost};

use crate::policy::{Policy, Taken};
use std::alloc::Global;
use t1_char::Edition;
use t1_font::{Font, OpenFont};
use t1_io::Source;
use t1_report::Waivers;
use t1_rules::Sidebearings;
use t1_run::{Failure, read_font_file, read_waivers};

/// Reads a font to its end, and then its waivers where it has some, and hands its report on. Where there is no report,
/// nothing is done.
pub(crate) fn check_opened<R: Source, V: Source, T: Policy>(
    alloc: Global,
    name: &str,
    source: &mut R,
    waivers: &mut V,
    has_waivers: bool,
    edition: Edition,
    policy: &mut T,
) -> Result<Taken, Failure>
    requires font { is_over (R.state source.old) ≡ false }
    requires waivers { is_over (V.state waivers.old) ≡ false }
    ensures checks { Checks (recipient_by T.takes policy.old policy.new) edition name.now
        (given_by edition (R.state source.old) (R.state source.new) has_waivers (V.state waivers.old) (V.state waivers.new)) result }
    ensures font { ReadsUpTo (largest_file + 1) (R.state source.old) (R.state source.new) }
    ensures waivers { ReadsUpTo (largest_waivers + 1) (V.state waivers.old) (V.state waivers.new) }
{
    let bytes = read_font_file(alloc, source)?;
    check_bytes(alloc, name, bytes, waivers, has_waivers, edition, policy)
}

/// Checks a font of these bytes, which are held no longer than until their segments are joined.
fn check_bytes<V: Source, T: Policy>(
    alloc: Global,
    name: &str,
    bytes: Vec<u8>,
    waivers: &mut V,
    has_waivers: bool,
    edition: Edition,
    policy: &mut T,
) -> Result<Taken, Failure>
    ensures checks { Checks (recipient_by T.takes policy.old policy.new) edition name.now
        (of_bytes edition bytes.items has_waivers (V.state waivers.old) (V.state waivers.new)) result }
    ensures waivers { ReadsAtMost (largest_waivers + 1) (V.state waivers.old) (V.state waivers.new) }
{
    let mut file = OpenFont::open(alloc, bytes.as_slice())?;
    drop(bytes);
    let font = file.font(alloc)?;
    let taken = check_font(alloc, name, &font, waivers, has_waivers, edition, policy);
    font.let_go();
    taken
}

/// Checks a font that was read.
fn check_font<V: Source, T: Policy>(
    alloc: Global,
    name: &str,
    font: &Font<'_>,
    waivers: &mut V,
    has_waivers: bool,
    edition: Edition,
    policy: &mut T,
) -> Result<Taken, Failure>
    requires few { length font.now.glyphs ≤ most_glyphs }
    requires read { IsFont font.now }
    ensures checks { Checks (recipient_by T.takes policy.old policy.new) edition name.now
        (of_font edition font.now has_waivers (V.state waivers.old) (V.state waivers.new)) result }
    ensures waivers { ReadsAtMost (largest_waivers + 1) (V.state waivers.old) (V.state waivers.new) }
{
    let text = read_waivers(alloc, waivers, has_waivers)?;
    check_waived(alloc, name, font, text.as_slice(), edition, policy)
}

/// Checks it with the waivers of a text.
fn check_waived<T: Policy>(
    alloc: Global,
    name: &str,
    font: &Font<'_>,
    text: &[u8],
    edition: Edition,
    policy: &mut T,
) -> Result<Taken, Failure>
    requires few { length font.now.glyphs ≤ most_glyphs }
    requires read { IsFont font.now }
    requires text { length text.now ≤ largest_waivers }
    ensures { Checks (recipient_by T.takes policy.old policy.new) edition name.now (of_text edition font.now text.now) result }
{
    let waivers = Waivers::read(alloc, text, edition)?;
    let sidebearings = Sidebearings::prepare(alloc, font, edition)?;
    let taken = policy.report(alloc, name, font, &sidebearings, &waivers)?;
    Ok(taken)
}
