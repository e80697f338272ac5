//! The reason that is reported with a line.

ghost use Rattle.std.specs.Prelude.{◌≡◌, IfOk, option_map};
ghost use Rattle.t1_forms.specs.Tellings.{own_value, reason_told, reason_value};

use std::fmt;
use t1_font::Font;
use t1_reason_texts::{ShortText, says_more, short_text};
use t1_reasons::Reason;
use t1_rules::Rule;

/// Why a place is broken, which is reported with its line.
#[derive(Clone, Copy)]
pub struct ToldReason<'a> {
    /// One line, without its end.
    pub text: &'a [u8],
    /// The font, for the names of its glyphs and of its Encoding.
    pub font: &'a Font<'a>,
    /// Why the place is broken.
    pub reason: Reason,
}

/// A reason that adds something to its line, with its text.
#[derive(Drop)]
pub struct OwnReason {
    text: ShortText,
    reason: Reason,
}

impl OwnReason {
    /// The reason with its text: None where there is none, or where it adds nothing. No text is too long, so it fails for none.
    pub fn of(
        font: &Font<'_>,
        rule: Rule,
        reason: Option<Reason>,
    ) -> Result<Option<OwnReason>, fmt::Error>
        ensures { IfOk result (λ own. option_map (own_value font.now) own ≡ reason_told font.now rule reason) }
    {
        match reason {
            Some(reason) if says_more(reason) => {
                let text = short_text(font, rule, reason)?;
                Ok(Some(OwnReason { text, reason }))
            }
            _ => Ok(None),
        }
    }
}

/// The same as it is told beside a line of the font.
pub fn as_told<'a>(font: &'a Font<'a>, reason: &'a Option<OwnReason>) -> Option<ToldReason<'a>>
    ensures { option_map reason_value result ≡ option_map (own_value font.now) reason.now }
{
    match reason {
        Some(own) => Some(ToldReason {
            text: own.text.as_str().as_bytes(),
            font,
            reason: own.reason,
        }),
        None => None,
    }
}
