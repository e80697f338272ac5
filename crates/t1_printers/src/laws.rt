//! Laws above the definitions: each is the contract of a function that does nothing.

ghost use Rattle.std.specs.Prelude.{◌≡◌, List, [], ◌∷◌, ◌++◌, ℕ, Option, None, true};
ghost use Rattle.t1_printers.specs.Cases.{AreCases, CheckedFontsHaveACase, OtherFontsHaveACase};
ghost use Rattle.t1_printers.specs.Commands.{message_room};
ghost use Rattle.t1_printers.specs.Documents.{IsDocumentOf};
ghost use Rattle.t1_printers.specs.JsonLines.{AreObjects};
ghost use Rattle.t1_printers.specs.Laws.{CountsSumToLines, LinesAreInTheirGroups, LinesAreThoseOfReports, LinesFitTerminals, NoMoreNamesFit, ReasonsAreOfFirstLines};
ghost use Rattle.t1_printers.specs.Printing.{formatting_by, grouping_by};
ghost use Rattle.t1_printers.specs.Writings.{AreWritten, command_wording, terminal_wording};
ghost use Rattle.t1_forms.specs.declared.junit.JUnit.{JUnit as JUnitValue};
ghost use Rattle.t1_forms.specs.declared.sarif.Sarif.{Sarif as SarifValue};
ghost use Rattle.t1_printers.specs.declared.formatted.Formatted.{Formatted as FormattedValue};
ghost use Rattle.t1_printers.specs.declared.github.GitHubGroups.{GitHubGroups as GitHubValue};
ghost use Rattle.t1_printers.specs.declared.grouped.Grouped.{Grouped as GroupedValue};
ghost use Rattle.t1_printers.specs.declared.json_lines.JsonLines.{JsonLines as JsonLinesValue};
ghost use Rattle.t1_printers.specs.declared.terminal.Terminal.{Terminal as TerminalValue};
ghost use Rattle.t1_many.specs.Handing.{Handed, HandsOn, done};
ghost use Rattle.t1_many.specs.declared.policy.Lost.{Lost as LostValue};
ghost use Rattle.t1_summary.specs.declared.found.FontClass.{FontClass as FoundValue};

use crate::form::GroupForm;
use crate::formatted::Formatted;
use crate::github::GitHubGroups;
use crate::grouped::Grouped;
use crate::json_lines::JsonLines;
use crate::terminal::Terminal;
use t1_forms::{JUnit, Sarif};
use t1_io::Sink;
use t1_many::Printer;

/// Each line is in the group of its rule, the numbers of lines of all rules sum to the lines, and a group's reason is that of its first line.
#[tactic(auto, using(crate::proofs::Counts::counts_sum, crate::proofs::Counts::lines_are_in, crate::proofs::Counts::reasons_are_first))]
pub fn lines_are_counted()
    ensures sum { CountsSumToLines }
    ensures groups { LinesAreInTheirGroups }
    ensures reasons { ReasonsAreOfFirstLines }
{}

/// A line on a terminal is as wide as the terminal at most, or has no name; and no more names fit than it has.
pub fn lines_fit_terminals()
    ensures width { LinesFitTerminals }
    ensures most { NoMoreNamesFit }
{}

/// What is handed on is written on a terminal, a line for each font and rule, and reported as in the plain form. Where a device fails, or
/// memory runs out, a prefix of it was.
pub fn terminal_lines_are_written<W: Sink, E: Sink>()
    ensures { (old new : GroupedValue TerminalValue W E) (handed : List Handed) (lost : Option LostValue) → old.groups ≡ None
        → HandsOn ⟦<Grouped<Terminal, W, E> as Printer>⟧.takes old new handed lost
        → AreWritten (terminal_wording old.form.width old.form.has_colours old.form.reasons)
        (grouping_by W.state E.state old.form.width old) (grouping_by W.state E.state old.form.width new) handed lost }
{}

/// What is handed on is written as commands of GitHub, one for each font and rule, and reported as in the plain form. Where a device fails,
/// or memory runs out, a prefix of it was.
pub fn group_commands_are_written<W: Sink, E: Sink>()
    ensures { (old new : GroupedValue GitHubValue W E) (handed : List Handed) (lost : Option LostValue) → old.groups ≡ None
        → HandsOn ⟦<Grouped<GitHubGroups, W, E> as Printer>⟧.takes old new handed lost
        → AreWritten (command_wording old.form.reasons)
        (grouping_by W.state E.state message_room old) (grouping_by W.state E.state message_room new) handed lost }
{}

/// After the last font the output is flushed.
pub fn grouped_lines_are_flushed<T: GroupForm, W: Sink, E: Sink>()
    ensures { (old new : GroupedValue T W E) (handed : List Handed) (name : List ℕ) (found : FoundValue)
        → HandsOn ⟦<Grouped<T, W, E> as Printer>⟧.takes old new (handed ++ done name found ∷ []) None
        → (W.state new.streams.out).flushed ≡ true }
{}

/// The line beside what is reported of a fault is its line of the report, without the line's end.
pub fn lines_are_those_of_reports()
    ensures { LinesAreThoseOfReports }
{}

/// What is handed on as lines of JSON is written, an object a line, one after another, and reported as in the plain form. After the last font
/// the output is flushed. Where a device fails, or memory runs out, a prefix of it was.
pub fn json_lines_are_written<W: Sink, E: Sink>()
    ensures written { (old new : FormattedValue JsonLinesValue W E) (handed : List Handed) (lost : Option LostValue)
        → HandsOn ⟦<Formatted<JsonLines, W, E> as Printer>⟧.takes old new handed lost
        → AreObjects old.reasons (formatting_by W.state E.state old) (formatting_by W.state E.state new) handed lost }
    ensures flushed { (old new : FormattedValue JsonLinesValue W E) (handed : List Handed) (name : List ℕ) (found : FoundValue)
        → HandsOn ⟦<Formatted<JsonLines, W, E> as Printer>⟧.takes old new (handed ++ done name found ∷ []) None
        → (W.state new.streams.out).flushed ≡ true }
{}

/// What is handed on as a document of SARIF is written as the text of what it reports, up to the end of the document, and reported as in the
/// plain form. Where a device fails, or memory runs out, a prefix of it was.
pub fn documents_are_written<'a, W: Sink, E: Sink>()
    ensures { (old new : FormattedValue SarifValue W E) (handed : List Handed) (lost : Option LostValue)
        → HandsOn ⟦<Formatted<Sarif<'a>, W, E> as Printer>⟧.takes old new handed lost
        → IsDocumentOf old.reasons (formatting_by W.state E.state old) (formatting_by W.state E.state new) handed lost }
{}

/// What is handed on as a document of JUnit's form is written as cases, one after another, and reported as in the plain form. Where a device fails,
/// or memory runs out, a prefix of it was.
pub fn cases_are_written<W: Sink, E: Sink>()
    ensures { (old new : FormattedValue JUnitValue W E) (handed : List Handed) (lost : Option LostValue)
        → HandsOn ⟦<Formatted<JUnit, W, E> as Printer>⟧.takes old new handed lost
        → AreCases old.reasons (formatting_by W.state E.state old) (formatting_by W.state E.state new) handed lost }
{}

/// Each font is one case: a failure exactly where one of its lines fails, by the first such line, and an error where it was refused or wasn't
/// checked.
pub fn fonts_have_cases()
    ensures checked { CheckedFontsHaveACase }
    ensures others { OtherFontsHaveACase }
{}
