//! What is wrong with the use of the program, as it is printed.

ghost use Rattle.std.specs.Prelude.{◌≡◌, IfOk, string_bytes};
ghost use Rattle.t1_answer_all.specs.Private.Usage.{IsToldOrMemory, IsUsageOf};
ghost use Rattle.t1_answer_all.specs.Usage.{line_text, no_font_text, no_page_text, no_row_text, two_rows_text, unreadable_text};

use std::alloc::{AllocError, Global};
use t1_known::Line;
use t1_names::Cause;
use t1_options::unread_text;
use t1_run::UsageError;

/// A file can't be read, for this cause.
pub(crate) fn unreadable(alloc: Global, file: &str, cause: Cause) -> UsageError
    ensures { IsToldOrMemory (unreadable_text file.now cause) result }
{
    usage_of(unreadable_text(alloc, file, cause))
}

/// The words name no font.
pub(crate) fn no_font(alloc: Global) -> UsageError
    ensures { IsToldOrMemory no_font_text result }
{
    usage_of(no_font_text(alloc))
}

/// A word of `--explain` is no code.
pub(crate) fn no_page(alloc: Global, word: &str) -> UsageError
    ensures { IsToldOrMemory (no_page_text word.now) result }
{
    usage_of(no_page_text(alloc, word))
}

/// A line of a file of known faults is no row.
pub(crate) fn no_row(alloc: Global, file: &str, line: Line<'_>) -> UsageError
    ensures { IsToldOrMemory (no_row_text file.now line.entry.number line.entry.text.now) result }
{
    usage_of(line_text(alloc, file, line, ": no row of known faults: "))
}

/// A row of a file of known faults is there already.
pub(crate) fn two_rows(alloc: Global, file: &str, line: Line<'_>) -> UsageError
    ensures { IsToldOrMemory (two_rows_text file.now line.entry.number line.entry.text.now) result }
{
    usage_of(line_text(alloc, file, line, ": two rows of known faults: "))
}

/// A text that is printed, if memory didn't run out.
fn usage_of(text: Result<String, AllocError>) -> UsageError
    ensures { IsUsageOf text result }
{
    match text {
        Ok(text) => UsageError::Usage(text),
        Err(_) => UsageError::Memory,
    }
}

fn unreadable_text(alloc: Global, file: &str, cause: Cause) -> Result<String, AllocError>
    ensures { IfOk result (λ text. string_bytes text ≡ unreadable_text file.now cause) }
{
    let mut text = unread_text(alloc, file, cause)?;
    text.push_str("t1check-all: 't1check-all --help' says how it is used\n")?;
    Ok(text)
}

fn no_font_text(alloc: Global) -> Result<String, AllocError>
    ensures { IfOk result (λ text. string_bytes text ≡ no_font_text) }
{
    String::from_str(
        alloc,
        "t1check-all: there is no font to check\nt1check-all: 't1check-all --help' says how it is used\n",
    )
}

fn no_page_text(alloc: Global, word: &str) -> Result<String, AllocError>
    ensures { IfOk result (λ text. string_bytes text ≡ no_page_text word.now) }
{
    let mut text = String::from_str(alloc, "t1check-all: there is no rule and no refusal '")?;
    text.push_str(word)?;
    text.push_str("'\nt1check-all: 't1check-all --help' says how it is used\n")?;
    Ok(text)
}

/// What is wrong with a line of a file. What isn't UTF-8 in it is printed as U+FFFD.
fn line_text(alloc: Global, file: &str, line: Line<'_>, wrong: &str) -> Result<String, AllocError>
    ensures { IfOk result (λ text. string_bytes text ≡ line_text file.now line.entry.number wrong.now line.entry.text.now) }
{
    let number = line.number.to_string(alloc)?;
    let shown = String::from_utf8_lossy(alloc, line.text)?;
    let mut text = String::from_str(alloc, "t1check-all: ")?;
    text.push_str(file)?;
    text.push_str(": line ")?;
    text.push_str(number.as_str())?;
    text.push_str(wrong)?;
    text.push_str(shown.as_str())?;
    text.push_str("\n")?;
    Ok(text)
}
