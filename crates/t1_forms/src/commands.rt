//! Commands of a workflow of GitHub, by which it shows a line at the file that it speaks of.

ghost use Rattle.std.specs.Prelude.{◌≡◌, ◌++◌, ◌∷◌, [], IfNone, IfSome, option_map};
ghost use Rattle.std.specs.List.{flat_map};
ghost use Rattle.t1_io.specs.Devices.{Writes};
ghost use Rattle.t1_forms.specs.Commands.{command, command_kind, command_of, file_property, level_kind, message_byte, rule_command, title_code, title_text, with_reason};
ghost use Rattle.t1_forms.specs.Private.Escapes.{byte_in};
ghost use Rattle.t1_forms.specs.Tellings.{reason_value, told_value, what_value};

use crate::objects::{refusal_code, refusal_reason};
use crate::{Told, ToldReason, What};
use t1_io::{Broken, Sink, put_all, put_parts};
use t1_lines::Line;
use t1_rules::{Level, Rule, rule_code, rule_level, rule_text};

/// A part of a command.
#[derive(Clone, Copy, PartialEq, Eq)]
enum Part {
    /// The value of a property.
    Property,
    /// What is shown.
    Message,
}

/// What a byte with a meaning of its own is written as.
fn escaped(byte: u8, part: Part) -> Option<&'static [u8]>
    ensures some { IfSome result (λ text. text.now ≡ byte_in part byte) }
    ensures none { IfNone result (byte_in part byte ≡ byte ∷ []) }
{
    match byte {
        b'%' => Some(b"%25"),
        b'\r' => Some(b"%0D"),
        b'\n' => Some(b"%0A"),
        b':' if part == Part::Property => Some(b"%3A"),
        b',' if part == Part::Property => Some(b"%2C"),
        _ => None,
    }
}

/// Writes a text as a part of a command.
fn put_escaped<W: Sink>(sink: &mut W, text: &[u8], part: Part) -> Result<(), Broken>
    ensures { Writes (W.state sink.old) (W.state sink.new) (flat_map (byte_in part) text.now) result }
{
    for byte in text {
        put_byte(sink, *byte, part)?;
    }
    Ok(())
}

/// Writes a byte as a part of a command.
fn put_byte<W: Sink>(sink: &mut W, byte: u8, part: Part) -> Result<(), Broken>
    ensures { Writes (W.state sink.old) (W.state sink.new) (byte_in part byte) result }
{
    match escaped(byte, part) {
        Some(escaped) => put_all(sink, escaped),
        None => put_all(sink, &[byte]),
    }
}

/// The kind of a fault's command, by the level of its rule.
fn kind_at(level: Level) -> &'static [u8]
    ensures { result.now ≡ level_kind level }
{
    match level {
        Level::Must => b"error",
        Level::Should => b"warning",
        Level::Tidy => b"notice",
    }
}

/// The kind of a command.
fn kind(what: &What<'_>) -> &'static [u8]
    ensures { result.now ≡ command_kind (what_value what.now) }
{
    match what {
        What::Line(Line::Fault(fault)) => kind_at(rule_level(fault.rule)),
        What::Line(Line::Refusal(_)) | What::Unchecked(_) => b"error",
    }
}

/// The code that a command's title begins with.
fn code(what: &What<'_>) -> &'static [u8]
    ensures { result.now ≡ title_code (what_value what.now) }
{
    match what {
        What::Line(Line::Fault(fault)) => rule_code(fault.rule).as_bytes(),
        What::Line(Line::Refusal(code)) => refusal_code(*code),
        What::Unchecked(_) => b"not",
    }
}

/// The rest of its title.
fn text(what: &What<'_>) -> &'static [u8]
    ensures { result.now ≡ title_text (what_value what.now) }
{
    match what {
        What::Line(Line::Fault(fault)) => rule_text(fault.rule).as_bytes(),
        What::Line(Line::Refusal(code)) => refusal_reason(*code),
        What::Unchecked(_) => b"checked",
    }
}

/// Writes the property that names the font.
fn put_file<W: Sink>(sink: &mut W, font: Option<&[u8]>) -> Result<(), Broken>
    ensures { Writes (W.state sink.old) (W.state sink.new) (file_property (option_map (λ name. name.now) font.entry)) result }
{
    let Some(font) = font else {
        return Ok(());
    };
    put_all(sink, b"file=")?;
    put_escaped(sink, font, Part::Property)?;
    put_all(sink, b",line=1,")
}

/// What a command begins with and is titled by, `CODE TEXT`.
#[derive(Drop)]
struct Head {
    kind: &'static [u8],
    code: &'static [u8],
    text: &'static [u8],
}

/// Writes what is shown: a line, and the reason after it, where there is one.
fn put_message<W: Sink>(
    sink: &mut W,
    line: &[u8],
    reason: Option<&ToldReason<'_>>,
) -> Result<(), Broken>
    ensures { Writes (W.state sink.old) (W.state sink.new)
        (flat_map message_byte (with_reason line.now (option_map (λ reason. reason_value reason.now) reason.entry))) result }
{
    put_escaped(sink, line, Part::Message)?;
    let Some(reason) = reason else {
        return Ok(());
    };
    put_all(sink, b": ")?;
    put_escaped(sink, reason.text, Part::Message)
}

/// Writes a command with this head, of this font.
fn put_command<W: Sink>(
    sink: &mut W,
    head: &Head,
    font: Option<&[u8]>,
    message: &[u8],
    reason: Option<&ToldReason<'_>>,
) -> Result<(), Broken>
    ensures { Writes (W.state sink.old) (W.state sink.new)
        (command head.now.kind.now (option_map (λ name. name.now) font.entry) head.now.code.now head.now.text.now
        (with_reason message.now (option_map (λ reason. reason_value reason.now) reason.entry))) result }
{
    put_parts(sink, &[b"::", head.kind, b" "])?;
    put_file(sink, font)?;
    put_parts(sink, &[b"title=", head.code, b" "])?;
    put_escaped(sink, head.text, Part::Property)?;
    put_all(sink, b"::")?;
    put_message(sink, message, reason)?;
    put_all(sink, b"\n")
}

/// Writes a command that shows a line of t1check at the font: an error, a warning or a notice of a fault, by its rule's level, an
/// error where the font was refused or wasn't checked. After the line is the reason, where there is one. A font has no lines of text,
/// so line 1 is named. After a failure a prefix of the command went out.
pub fn write_command<W: Sink>(sink: &mut W, told: &Told<'_>) -> Result<(), Broken>
    ensures { Writes (W.state sink.old) (W.state sink.new) (command_of (told_value told.now) told.now.line.now) result }
{
    let head = Head {
        kind: kind(&told.what),
        code: code(&told.what),
        text: text(&told.what),
    };
    put_command(sink, &head, told.font, told.line, told.reason.as_ref())
}

/// Writes a command that shows a message of a rule at the font, by the rule's level and with its text as the title. After a
/// failure a prefix of the command went out.
pub fn write_rule_command<W: Sink>(
    sink: &mut W,
    font: Option<&[u8]>,
    rule: Rule,
    message: &[u8],
) -> Result<(), Broken>
    ensures { Writes (W.state sink.old) (W.state sink.new)
        (rule_command (option_map (λ name. name.now) font.entry) rule message.now) result }
{
    let head = Head {
        kind: kind_at(rule_level(rule)),
        code: rule_code(rule).as_bytes(),
        text: rule_text(rule).as_bytes(),
    };
    put_command(sink, &head, font, message, None)
}
