//! Texts in XML.

ghost use Rattle.std.specs.Prelude.{◌≡◌, ◌++◌, IfOk, OnOk, string_bytes};
ghost use Rattle.t1_forms.specs.Xml.{legible, xml_name, xml_text};

use crate::characters::{Characters, push_characters};
use crate::names::shown;
use std::alloc::{AllocError, Global};

/// As XML can hold them.
struct LegibleCharacters;

impl Characters for LegibleCharacters {
    ghost use Rattle.t1_forms.specs.Xml.{legible_char};

    ghost written = { legible_char };

    fn push(text: &mut String, c: char) -> Result<(), AllocError> {
        if c == '\u{fffe}' {
            text.push_str("\\xEF\\xBF\\xBE")
        } else if c == '\u{ffff}' {
            text.push_str("\\xEF\\xBF\\xBF")
        } else {
            text.push(c)
        }
    }
}

/// A name, or a line with one, as text that XML can hold: as names are [shown], and the two characters U+FFFE and U+FFFF by
/// their bytes.
pub fn legible(alloc: Global, bytes: &[u8]) -> Result<String, AllocError>
    ensures { IfOk result (λ text. string_bytes text ≡ legible bytes.now) }
{
    let mut text = String::new(alloc);
    push_characters::<LegibleCharacters>(&mut text, shown(alloc, bytes)?.as_str())?;
    Ok(text)
}

/// As entities, where XML or HTML has a meaning for them.
struct Entities;

impl Characters for Entities {
    ghost use Rattle.t1_forms.specs.Xml.{xml_char};

    ghost written = { xml_char };

    fn push(xml: &mut String, c: char) -> Result<(), AllocError> {
        if c == '&' {
            xml.push_str("&amp;")
        } else if c == '<' {
            xml.push_str("&lt;")
        } else if c == '>' {
            xml.push_str("&gt;")
        } else if c == '"' {
            xml.push_str("&quot;")
        } else {
            xml.push(c)
        }
    }
}

/// Appends a text to XML or HTML: `&`, `<`, `>` and `"` as entities.
pub fn push_xml(xml: &mut String, text: &str) -> Result<(), AllocError>
    ensures { OnOk result (string_bytes xml.new ≡ string_bytes xml.old ++ xml_text text.now) }
{
    push_characters::<Entities>(xml, text)
}

/// A name, or a line with one, as the text of an element or the value of an attribute.
pub(crate) fn xml_name(alloc: Global, name: &[u8]) -> Result<String, AllocError>
    ensures { IfOk result (λ text. string_bytes text ≡ xml_name name.now) }
{
    let mut text = String::new(alloc);
    push_xml(&mut text, legible(alloc, name)?.as_str())?;
    Ok(text)
}
