//! The forms in which lines of many fonts are printed.
//!
//! Each is a [`Printer`](t1_many::Printer), which takes what is handed on of one font after another. [`Formatted`] gives each
//! line, each refusal, and each font that wasn't checked to a [`Formatter`], once and in order, and then how the font was found.
//! [`Grouped`] keeps the lines of a font in groups, one for each rule, and writes these by a [`GroupForm`] once the font is done:
//! the rules of level must first, then should, then tidy, and within a level in the order of their numbers. A font that wasn't
//! checked is also printed on standard error. Nothing is read back from text.
//!
//! | form | writes |
//! |---|---|
//! | [`JsonLines`] | an object in a line of its own, if requested also of a font without lines |
//! | [`Sarif`](t1_forms::Sarif) | a result in a document, whose frame `Sarif::begin` and `finish` write |
//! | [`JUnit`](t1_forms::JUnit) | in a document, whose frame `JUnit::begin` and `finish` write, a case for each font, once it is done |
//! | [`GitHubCommands`] | a command for each |
//! | [`Terminal`] | of a font and a rule `NAME: RULE TEXT × COUNT: A, B … and 5 more`, cut to a width |
//! | [`GitHubGroups`] | of a font and a rule a command `::error`, `::warning` or `::notice` by the rule's level |
//!
//! What is promised, for all that is handed on:
//!
//! - Each byte that is written, by the lines that were handed on, and what is printed on standard error. If a device fails, or
//!   memory runs out, a prefix of it was written.
//! - In a group a name is a glyph's, a key's or a waiver's. Lines at one unit after one another have one name.
//! - The numbers of lines of a font's groups sum to the lines of the font.
//! - Where reasons are written, a group's is that of its first line.
//! - A line on a terminal is as wide as the terminal at most, or has no name.
//! - In JUnit's form each font is one case: a failure exactly where a line of it fails.
//!
//! Where reasons are written, that of a group's first line is below the group's line, unless it adds nothing. On a terminal it is
//! three blanks and its text. In a command it is a further line of the message. Only the reason of a rule's first fault is
//! requested.
//!
//! The memory that is taken doesn't grow with the lines, but for those of one font in JUnit's form: a group keeps names up to the
//! width.
//!
//! ```
//! let form = Terminal { width: 80, has_colours: false, reasons: false };
//! let mut grouped = Grouped::new(alloc, form, streams)?;
//! ```
#![tactic(auto)]

mod adding;
mod form;
mod formatted;
mod formatter;
mod github;
mod group;
mod grouped;
mod groups;
mod json_lines;
mod junit;
mod laws;
mod line_text;
mod lines;
mod names;
mod rule_parts;
mod sarif;
mod telling;
mod terminal;
mod unit;
mod width;
mod wrapped;

pub use form::GroupForm;
pub use formatted::Formatted;
pub use formatter::Formatter;
pub use github::{GitHubCommands, GitHubGroups};
pub use group::Group;
pub use grouped::Grouped;
pub use json_lines::JsonLines;
pub use laws::{
    cases_are_written, documents_are_written, fonts_have_cases, group_commands_are_written,
    grouped_lines_are_flushed, json_lines_are_written, lines_are_counted,
    lines_are_those_of_reports, lines_fit_terminals, terminal_lines_are_written,
};
pub use telling::give;
pub use terminal::Terminal;
