//! Texts of the picture.

ghost use Rattle.std.specs.Prelude.{◌≡◌, ◌++◌, IfOk, OnOk, [], ◌∷◌, string_bytes};
ghost use Rattle.t1_picture.specs.Drawings.{texts_of};
ghost use Rattle.t1_picture.specs.Texts.{legible_line};

use std::alloc::{AllocError, Global};
use t1_forms::legible;

/// The end of a group.
pub(crate) const END: &str = "</g>\n";

/// What is after the data of a path.
pub(crate) const END_OF_DATA: &str = r#""/>
"#;

/// A line that was written, as text that XML can hold, without its end.
pub(crate) fn written_line(alloc: Global, mut line: Vec<u8>) -> Result<String, AllocError>
    ensures { IfOk result (λ text. string_bytes text ≡ legible_line line.items) }
{
    line.pop();
    legible(alloc, line.as_slice())
}

/// Appends a text as it is.
pub(crate) fn push(xml: &mut String, text: &str) -> Result<(), AllocError>
    ensures { OnOk result (string_bytes xml.new ≡ string_bytes xml.old ++ text.now) }
{
    xml.push_str(text)
}

/// Appends a line to others.
pub(crate) fn add_line(lines: &mut Vec<String>, line: String) -> Result<(), AllocError>
    ensures { OnOk result (texts_of lines.new.items ≡ texts_of lines.old.items ++ string_bytes line ∷ []) }
{
    lines.push(line)?;
    Ok(())
}
