//! Names below the folder of a settings file.

ghost use Rattle.std.specs.Prelude.{◌≡◌, ◌++◌, IfOk, OnOk, chars, encode_utf8_all, flat_map, string_bytes};
ghost use Rattle.std.specs.Path.{path_join};
ghost use Rattle.t1_options.specs.Settings.Paths.{escaped, glob_below, itself};

use std::alloc::{AllocError, Global};
use std::path::Path;

/// The name of what has this name in a folder. A name that begins with a slash stays.
pub(crate) fn below(alloc: Global, folder: &str, name: &str) -> Result<String, AllocError>
    ensures { IfOk result (λ below. string_bytes below ≡ path_join folder.now name.now) }
{
    Ok(Path::new(folder).join(alloc, name)?.into_string())
}

/// A glob that matches below a folder.
pub(crate) fn glob_below(alloc: Global, folder: &str, glob: &str) -> Result<String, AllocError>
    ensures { IfOk result (λ below. string_bytes below ≡ glob_below folder.now glob.now) }
{
    if !glob.as_bytes().contains(&b'/') {
        return String::from_str(alloc, glob);
    }
    let folder = escaped(alloc, folder)?;
    below(alloc, folder.as_str(), glob)
}

/// The glob that matches just this name.
fn escaped(alloc: Global, name: &str) -> Result<String, AllocError>
    ensures { IfOk result (λ text. string_bytes text ≡ escaped name.now) }
{
    let name = chars_of(alloc, name)?;
    text_of(alloc, name.as_slice())
}

/// The characters of a name.
fn chars_of(alloc: Global, name: &str) -> Result<Vec<char>, AllocError>
    ensures { IfOk result (λ all. all.items ≡ chars name.now) }
{
    name.chars().collect(alloc)
}

/// The glob of characters that are just themselves.
fn text_of(alloc: Global, name: &[char]) -> Result<String, AllocError>
    ensures { IfOk result (λ text. string_bytes text ≡ encode_utf8_all (flat_map itself name.now)) }
{
    let mut text = String::new(alloc);
    for c in name {
        add_itself(*c, &mut text)?;
    }
    Ok(text)
}

/// Adds a character that is just itself.
fn add_itself(c: char, text: &mut String) -> Result<(), AllocError>
    ensures { OnOk result (string_bytes text.new ≡ string_bytes text.old ++ encode_utf8_all (itself c)) }
{
    match c {
        '*' => text.push_str("[*]"),
        '?' => text.push_str("[?]"),
        '[' => text.push_str("[[]"),
        _ => text.push(c),
    }
}
