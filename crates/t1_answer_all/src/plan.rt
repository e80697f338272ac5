//! What a run over many fonts is to do, by the options.

ghost use Rattle.std.specs.Prelude.{◌≡◌, map, string_bytes};
ghost use Rattle.t1_answer_all.specs.Listing.{fonts_value};
ghost use Rattle.t1_answer_all.specs.Modes.{mode_value};
ghost use Rattle.t1_answer_all.specs.Layouts.{is_terminal, layout_of, layout_value};
ghost use Rattle.t1_answer_all.specs.Plans.{asked_value, beside_of, has_none, is_quiet, mode_by, plan_by, plan_value, tells_edition};
ghost use Rattle.t1_forms.specs.PageValues.{page_value};

use crate::layout::{Layout, layout_of};
use crate::listing::Fonts;
use crate::mode::Mode;
use crate::unlisted::Unlisted;
use t1_char::Edition;
use t1_forms::Page;
use t1_known::KnownFaults;
use t1_many::{Choice, WaiverFiles};
use t1_options::{Baseline, Options, Waivers};
use t1_rules::Mask;

/// What is requested.
#[derive(Clone, Copy, Debug)]
pub(crate) struct Asked<'a> {
    pub(crate) options: &'a Options,
    /// The pages that a document of SARIF has.
    pub(crate) pages: &'a [Page],
}

/// What a run over many fonts is to do.
#[derive(Clone, Copy)]
pub struct Plan<'a> {
    /// The names of the fonts, in the order in which they are checked.
    pub names: &'a [String],
    /// What becomes of the files of waivers beside them.
    pub beside: WaiverFiles,
    /// The edition of the rule book by which they are checked.
    pub edition: Edition,
    /// The rules whose lines are reported.
    pub rules: Mask,
    /// Which of these lines are chosen.
    pub mode: Mode<'a>,
    /// The rules of which rows of known faults are compared, or made anew.
    pub choice: Choice<'a>,
    /// The rules of which a line makes the status that of faults.
    pub failing: Mask,
    /// How lines are written.
    pub layout: Layout<'a>,
    /// What couldn't be listed, which a form for another program has before all else.
    pub unlisted: Unlisted<'a>,
    /// Whether the summary is omitted.
    pub quiet: bool,
    /// Whether the summary says by which edition fonts were checked, since on a terminal none was named.
    pub tells_edition: bool,
}

/// What is requested of these fonts, given the rows of the file of known faults.
pub(crate) fn plan_by<'a>(
    asked: Asked<'a>,
    known: &'a KnownFaults<'a>,
    fonts: &'a Fonts,
) -> Plan<'a>
    ensures plan { plan_value result ≡ plan_by (asked_value asked.entry) known.now (fonts_value fonts.now) }
    ensures beside { result.beside ≡ beside_of asked.entry.options.now.waivers }
{
    let options = asked.options;
    let layout = layout_of(options, asked.pages);
    Plan {
        names: fonts.names.as_slice(),
        beside: beside_of(options.waivers),
        edition: options.edition,
        rules: options.rules,
        mode: mode_by(options, known),
        choice: Choice {
            only: options.only.as_slice(),
            except: options.except.as_slice(),
        },
        failing: options.failing,
        layout,
        unlisted: fonts.unlisted(),
        quiet: is_quiet(options, fonts),
        tells_edition: tells_edition(options, layout),
    }
}

/// What becomes of the files of waivers beside fonts.
fn beside_of(waivers: Waivers) -> WaiverFiles
    ensures { result ≡ beside_of waivers }
{
    match waivers {
        Waivers::Read => WaiverFiles::Read,
        Waivers::LeftAside | Waivers::Written | Waivers::Overwritten => WaiverFiles::LeftAside,
    }
}

/// Waivers that are to be written go before known faults.
fn mode_by<'a>(options: &Options, known: &'a KnownFaults<'a>) -> Mode<'a>
    ensures { mode_value result ≡ mode_by options.now.waivers options.now.known_faults known.now }
{
    if options.waivers == Waivers::Written || options.waivers == Waivers::Overwritten {
        return Mode::WriteWaivers;
    }
    match &options.known_faults {
        Baseline::Unnamed => Mode::ReportAll,
        Baseline::Compared(_) => Mode::ReportNew(known),
        Baseline::Updated(_) => Mode::UpdateBaseline(known),
    }
}

/// Whether the summary is omitted: it is where there is no font, as in an empty shard.
fn is_quiet(options: &Options, fonts: &Fonts) -> bool
    ensures { result ≡ is_quiet options.now (fonts_value fonts.now) }
{
    options.quiet || has_none(fonts.names.as_slice())
}

/// Whether lines are written as on a terminal, and no edition was named.
fn tells_edition(options: &Options, layout: Layout<'_>) -> bool
    ensures { result ≡ tells_edition options.now (layout_value layout.entry) }
{
    !options.names_edition && is_terminal(layout)
}

/// Whether lines are written as on a terminal.
fn is_terminal(layout: Layout<'_>) -> bool
    ensures { result ≡ is_terminal (layout_value layout.entry) }
{
    matches!(layout, Layout::Groups(_))
}

/// Whether there is no name.
fn has_none(names: &[String]) -> bool
    ensures { result ≡ has_none (map string_bytes names.now) }
{
    match names {
        [] => true,
        [_, ..] => false,
    }
}
