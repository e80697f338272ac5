//! What can be wrong with options, and the text of each case.

ghost use Rattle.std.specs.Prelude.{◌≡◌, IfOk, string_bytes};
ghost use Rattle.t1_options.specs.Complaints.{settings_text, text_of, usage_text};

use std::alloc::{AllocError, Global};

/// What can be wrong with options.
#[derive(Clone, Copy, Debug, PartialEq, Eq)]
pub(crate) enum Complaint {
    /// `-j` is given, which is gone.
    Jobs,
    /// `--edition` has another value than 1, 2, 3 or 4.
    Edition,
    /// `--columns` has no number from 1 to 99,999.
    Columns,
    /// `--baseline` has an empty value.
    Baseline,
    /// `--format` has a value that is no form.
    Format,
    /// `--docs` has an empty value, or one that begins with a minus.
    Docs,
    /// `--update-baseline` without `--baseline`.
    UpdateOfNone,
    /// `--update-baseline` with `--shard`.
    UpdateOfShard,
    /// `--write-waivers` with `--baseline` or `--shard`.
    WaiversOfPart,
    /// `--force` without `--write-waivers`.
    ForceOfNone,
    /// `--docs` without `--format`.
    DocsOfLines,
    /// There is neither a path nor `--files-from`.
    NoFont,
    /// `-` is given twice as a path.
    InputTwice,
    /// `-` is a path and a list.
    InputAsBoth,
    /// `--shard` has another value than I/N, I from 1 to N.
    Shard,
    /// `--only` names no code, or an unknown one.
    Only,
    /// `--except` names no code, or an unknown one.
    Except,
    /// `--level` names no level, or an unknown one.
    Level,
    /// `--fail-on` names no level, or an unknown one.
    FailOn,
    /// `--exclude` has a value that isn't UTF-8.
    Exclude,
}

/// The sentence that says so.
pub(crate) fn text_of(complaint: Complaint) -> &'static str
    ensures { result.now ≡ text_of complaint }
{
    match complaint {
        Complaint::Jobs => "-j is gone; --shard I/N splits a list for several processes",
        Complaint::Edition => "--edition wants 1, 2, 3 or 4",
        Complaint::Columns => "--columns wants a number from 1 on",
        Complaint::Baseline => "--baseline wants a file",
        Complaint::Format => "--format wants jsonl, sarif, github or junit",
        Complaint::Docs => "--docs wants a URL",
        Complaint::UpdateOfNone => "--update-baseline wants --baseline",
        Complaint::UpdateOfShard => "--update-baseline and --shard exclude one another",
        Complaint::WaiversOfPart => "--write-waivers excludes --baseline and --shard",
        Complaint::ForceOfNone => "--force wants --write-waivers",
        Complaint::DocsOfLines => "--docs wants --format",
        Complaint::NoFont => "no font is named",
        Complaint::InputTwice => "- is named twice: standard input is read once",
        Complaint::InputAsBoth => "- is a font or a list, not both: standard input is read once",
        Complaint::Shard => "--shard wants I/N, I from 1 to N",
        Complaint::Only => "--only wants codes of rules or their letters, as H02,Z",
        Complaint::Except => "--except wants codes of rules or their letters, as H02,Z",
        Complaint::Level => "--level wants must, should or tidy",
        Complaint::FailOn => "--fail-on wants must, should or tidy",
        Complaint::Exclude => "--exclude wants a glob that is UTF-8",
    }
}

/// The two lines to print.
pub(crate) fn usage_text(alloc: Global, complaint: Complaint) -> Result<String, AllocError>
    ensures { IfOk result (λ text. string_bytes text ≡ usage_text complaint) }
{
    let mut text = String::from_str(alloc, "t1check-all: ")?;
    text.push_str(text_of(complaint))?;
    text.push_str("\nt1check-all: 't1check-all --help' says how it is used\n")?;
    Ok(text)
}

/// The line to print where something is wrong with a settings file.
pub(crate) fn settings_text(alloc: Global, file: &str, wrong: &str) -> Result<String, AllocError>
    ensures { IfOk result (λ text. string_bytes text ≡ settings_text file.now wrong.now) }
{
    let mut text = String::from_str(alloc, "t1check-all: ")?;
    text.push_str(file)?;
    text.push_str(": ")?;
    text.push_str(wrong)?;
    text.push_str("\n")?;
    Ok(text)
}
