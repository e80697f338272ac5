//! The text of a line, in memory that is kept from line to line.

ghost use Rattle.std.specs.Prelude.{◌≡◌, ◌++◌, Some, IfErr, IfOk, codes};
ghost use Rattle.t1_io.specs.Devices.{whole_of};
ghost use Rattle.t1_lines.specs.Lines.{line_in, of_fault, of_refusal, spelled};
ghost use Rattle.t1_many.specs.declared.policy.Lost.TheVariants.{Memory};
ghost use Rattle.t1_report.specs.Faults.{fault_value};
ghost use Rattle.t1_report.specs.Lines.{IsInFont};

use t1_font::{Font, RefusalCode, refusal_text};
use t1_forms::Text;
use t1_io::{Sink, put_parts};
use t1_many::Lost;
use t1_report::{Fault, Waivers, write_fault};

/// Writes the line of a fault, without its end, in the place of what a text has.
pub(crate) fn set_fault(
    text: &mut Text,
    font: &Font<'_>,
    waivers: &Waivers<'_>,
    fault: &Fault,
) -> Result<(), Lost>
    requires { IsInFont font.now waivers.now (fault_value fault.now) }
    ensures text { IfOk result (λ _. (⟦<Text as Sink>⟧.state text.new).written
        ≡ Some (spelled (of_fault (line_in font.now waivers.now (fault_value fault.now))))) }
    ensures memory { IfErr result (λ lost. lost ≡ Memory) }
{
    text.clear();
    if write_fault(text, font, waivers, fault).is_err() {
        return Err(Lost::Memory);
    }
    text.pop();
    Ok(())
}

/// Writes the line of a refusal, without its end.
pub(crate) fn set_refusal(text: &mut Text, code: RefusalCode) -> Result<(), Lost>
    ensures text { IfOk result (λ _. (⟦<Text as Sink>⟧.state text.new).written ≡ Some (spelled (of_refusal code))) }
    ensures memory { IfErr result (λ lost. lost ≡ Memory) }
{
    set(text, &[b"refused: ", refusal_text(code).as_bytes()])
}

/// Writes why a font wasn't checked.
pub(crate) fn set_unchecked(text: &mut Text, reason: &str) -> Result<(), Lost>
    ensures text { IfOk result (λ _. (⟦<Text as Sink>⟧.state text.new).written ≡ Some (codes "t1check: " ++ reason.now)) }
    ensures memory { IfErr result (λ lost. lost ≡ Memory) }
{
    set(text, &[b"t1check: ", reason.as_bytes()])
}

/// Writes these parts.
fn set(text: &mut Text, parts: &[&[u8]]) -> Result<(), Lost>
    ensures text { IfOk result (λ _. (⟦<Text as Sink>⟧.state text.new).written ≡ Some (whole_of parts.now)) }
    ensures memory { IfErr result (λ lost. lost ≡ Memory) }
{
    text.clear();
    if put_parts(text, parts).is_err() {
        return Err(Lost::Memory);
    }
    Ok(())
}
