//! What can be wrong with words that clap takes, and the text of each case.

ghost use Rattle.std.specs.Prelude.{◌≡◌};
ghost use Rattle.t1draw.specs.CommandLine.{complaint_text};

/// What can be wrong with words that clap takes.
#[derive(Clone, Copy, Debug, PartialEq, Eq)]
pub enum Complaint {
    /// `--faulty` with `--step` or `--fault`.
    StepOfFaulty,
    /// `--faulty` without `-o`, or with an empty FOLDER.
    NoFolder,
    /// `--faulty` with two words.
    GlyphOfFaulty,
    /// `-o` without `--faulty`.
    FolderOfNone,
    /// `--step` with `--fault`.
    StepAndFault,
    /// A backslash in GLYPH means nothing.
    BadName,
}

/// What is printed.
pub(crate) fn complaint_text(complaint: Complaint) -> &'static str
    ensures { result.now ≡ complaint_text complaint }
{
    match complaint {
        Complaint::StepOfFaulty => {
            "\
error: --faulty draws each glyph that has faults, and takes neither --step nor --fault

For more information, try '--help'.
"
        }
        Complaint::NoFolder => {
            "\
error: --faulty needs -o FOLDER

For more information, try '--help'.
"
        }
        Complaint::GlyphOfFaulty => {
            "\
error: --faulty takes no GLYPH, only FONT

For more information, try '--help'.
"
        }
        Complaint::FolderOfNone => {
            "\
error: -o FOLDER needs --faulty

For more information, try '--help'.
"
        }
        Complaint::StepAndFault => {
            "\
error: --step and --fault exclude one another

For more information, try '--help'.
"
        }
        Complaint::BadName => {
            "\
error: in GLYPH a backslash stands in front of another one, or of x and two hexadecimal digits

For more information, try '--help'.
"
        }
    }
}
