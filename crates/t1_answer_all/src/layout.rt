//! How what is chosen is written.

ghost use Rattle.std.specs.Prelude.{◌≡◌, map};
ghost use Rattle.t1_answer_all.specs.Layouts.{have_each, have_first, layout_of, layout_value, lines_or_groups};
ghost use Rattle.t1_forms.specs.PageValues.{page_value};

use t1_forms::{Page, Pages};
use t1_options::{Format, Options, Reasons};
use t1_printers::Terminal;
use t1_rules::Mask;
use t1_run::borrowed;

/// How what is chosen is written.
#[derive(Clone, Copy, Debug)]
pub enum Layout<'a> {
    /// As `NAME: LINE`, a line for each fault, with their reasons or without.
    Lines { reasons: bool },
    /// As on a terminal, a line for each font and rule.
    Groups(Terminal),
    /// As lines of JSON, if requested also of fonts of which no line is reported.
    JsonLines { clean: bool, reasons: bool },
    /// As a document of SARIF, with these pages.
    Sarif { pages: Pages<'a>, reasons: bool },
    /// As commands of GitHub, one for each font and rule.
    GitHub { reasons: bool },
    /// As a document of JUnit's form, in which the lines of these rules fail.
    JUnit { failing: Mask, reasons: bool },
}

/// The layout that options request. A document of SARIF has these pages.
pub fn layout_of<'a>(options: &'a Options, pages: &'a [Page]) -> Layout<'a>
    ensures { layout_value result ≡ layout_of (map page_value pages.now) options.now }
{
    let reasons = have_each(options.reasons);
    match options.form {
        Some(Format::JsonLines) => Layout::JsonLines {
            clean: options.clean,
            reasons,
        },
        Some(Format::Sarif) => Layout::Sarif {
            pages: Pages {
                list: pages,
                docs: borrowed(&options.docs),
            },
            reasons,
        },
        Some(Format::GitHub) => Layout::GitHub { reasons },
        Some(Format::JUnit) => Layout::JUnit {
            failing: options.failing,
            reasons,
        },
        None => without_form(options),
    }
}

/// The layout where no form is requested.
fn without_form<'a>(options: &Options) -> Layout<'a>
    ensures { layout_value result ≡ lines_or_groups options.now.long options.now.columns options.now.colour options.now.reasons }
{
    match options.columns {
        Some(columns) if !options.long => Layout::Groups(Terminal {
            width: columns as usize,
            has_colours: options.colour,
            reasons: have_first(options.reasons),
        }),
        _ => Layout::Lines {
            reasons: have_each(options.reasons),
        },
    }
}

/// Whether each line has its reason.
fn have_each(reasons: Reasons) -> bool
    ensures { result ≡ have_each reasons }
{
    matches!(reasons, Reasons::Each)
}

/// Whether lines that are written as one have the reason of the first.
fn have_first(reasons: Reasons) -> bool
    ensures { result ≡ have_first reasons }
{
    !matches!(reasons, Reasons::LeftOut)
}
