//! Procedures and arrays, each one token however deep it nests: Type 1 Font Format 1.1, chapters 2 and 10.

ghost use Rattle.std.specs.Prelude.{◌≡◌, ◌+◌, ◌<◌, ◌≤◌, ◌^◌, length, IfSome};
ghost use Rattle.t1_scan.specs.Lengths.{arrays_after, braces_after, inside_len};

use crate::strings::part_len;

/// How deep procedures and arrays nest at most. The limit is this project's own.
const MOST_NESTED: usize = 32;

/// How many arrays are open after a byte. Brackets count where no brace is open.
fn arrays_after(b: u8, arrays: usize, braces: usize) -> usize
    requires low { 1 ≤ arrays + braces }
    requires high { arrays < 2 ^ 63 }
    ensures { result ≡ arrays_after b arrays braces }
{
    match b {
        b'[' if braces == 0 => arrays + 1,
        b']' if braces == 0 => arrays - 1,
        _ => arrays,
    }
}

/// How many procedures are open after a byte. A brace that closes nothing is ignored.
fn braces_after(b: u8, braces: usize) -> usize
    requires { braces < 2 ^ 63 }
    ensures { result ≡ braces_after b braces }
{
    match b {
        b'{' => braces + 1,
        b'}' if braces > 0 => braces - 1,
        _ => braces,
    }
}

/// An array or a procedure, after its first bracket, to its last: of so many arrays and procedures one is open.
pub fn inside_len(text: &[u8], mut arrays: usize, mut braces: usize) -> Option<usize>
    requires { arrays + braces ≡ 1 }
    ensures value { result ≡ inside_len 0 arrays braces text.now }
    ensures bound { IfSome result (λ n. n ≤ length text.now) }
{
    let mut at = 0;
    while at < text.len() {
        let b = text[at];
        arrays = arrays_after(b, arrays, braces);
        braces = braces_after(b, braces);
        if arrays + braces == 0 {
            return Some(at + 1);
        }
        if arrays + braces > MOST_NESTED {
            return None;
        }
        at += part_len(b, &text[at + 1..])?;
    }
    None
}
