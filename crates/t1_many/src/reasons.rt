//! Why a fault is there, as it is reported with its line.

ghost use Rattle.std.specs.Prelude.{◌≡◌, IfErr, IfOk, option_map};
ghost use Rattle.t1_many.specs.Reasons.{told_reason, told_text};
ghost use Rattle.t1_many.specs.declared.policy.Lost.TheVariants.{Memory};
ghost use Rattle.t1_report.specs.Faults.{fault_value};
ghost use Rattle.t1_report.specs.Lines.{IsInFont};

use crate::policy::Lost;
use t1_font::Font;
use t1_reason_texts::{ShortText, shown_text};
use t1_reasons::{Reason, ReportReasons};
use t1_report::{Fault, Waivers};

/// The reason of a fault, where reasons are reported.
pub fn told_reason(
    is_told: bool,
    waivers: &Waivers<'_>,
    fault: &Fault,
    reasons: &mut ReportReasons<'_>,
) -> Option<Reason>
    requires { IsInFont reasons.old.value waivers.now (fault_value fault.now) }
    ensures reason { result ≡ told_reason is_told reasons.old waivers.now (fault_value fault.now) }
    ensures same { reasons.new ≡ reasons.old }
{
    if is_told {
        reasons.reason(waivers, fault)
    } else {
        None
    }
}

/// Its text, where it adds something.
pub fn told_text(
    is_told: bool,
    font: &Font<'_>,
    waivers: &Waivers<'_>,
    fault: &Fault,
    reasons: &mut ReportReasons<'_>,
) -> Result<Option<ShortText>, Lost>
    requires in_font { IsInFont font.now waivers.now (fault_value fault.now) }
    requires font { reasons.old.value ≡ font.now }
    ensures text { IfOk result (λ text. option_map (λ t. t.bytes) text ≡ told_text is_told reasons.old waivers.now (fault_value fault.now)) }
    ensures memory { IfErr result (λ lost. lost ≡ Memory) }
    ensures same { reasons.new ≡ reasons.old }
{
    let reason = told_reason(is_told, waivers, fault, reasons);
    match shown_text(font, fault.rule, reason) {
        Ok(text) => Ok(text),
        // This can't be: no text is longer than its memory.
        Err(_) => Err(Lost::Memory),
    }
}
