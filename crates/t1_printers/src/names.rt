//! Names as text on a terminal.

ghost use Rattle.std.specs.Prelude.{◌≡◌, IfOk, string_bytes};
ghost use Rattle.t1_printers.specs.TerminalNames.{terminal_name};

use std::alloc::{AllocError, Global};
use t1_forms::{Characters, push_characters, push_escaped, shown};

/// As a terminal can show them.
struct Terminal;

impl Characters for Terminal {
    ghost use Rattle.t1_printers.specs.TerminalNames.{terminal_char};

    ghost written = { terminal_char };

    fn push(text: &mut String, c: char) -> Result<(), AllocError> {
        if c >= '\u{80}' && c < '\u{a0}' {
            push_escaped(text, 194)?;
            push_escaped(text, c as u8)
        } else {
            text.push(c)
        }
    }
}

/// A name as text: control bytes, and what isn't UTF-8, are written as `\xNN`, and `\` twice.
#[tactic(auto, unfolding(crate::specs::TerminalNames::terminal_name))]
pub(crate) fn terminal_name(alloc: Global, name: &[u8]) -> Result<String, AllocError>
    ensures { IfOk result (λ s. string_bytes s ≡ terminal_name name.now) }
{
    let mut written = String::new(alloc);
    push_characters::<Terminal>(&mut written, shown(alloc, name)?.as_str())?;
    Ok(written)
}
