//! The lines of a text.

ghost use Rattle.std.specs.Prelude.{◌≡◌, length};
ghost use Rattle.t1_known.specs.Lines.{is_comment, row_lines};
ghost use Rattle.t1_known.specs.Private.Kept.{IsNextLine};

use t1_lines::cut;

/// How many rows a file of known faults has: its lines that are no comments.
pub fn count_rows(text: &[u8]) -> usize
    ensures { result ≡ length (row_lines text.now) }
{
    let mut count = 0;
    let mut rest = text;
    while let Some((line, behind)) = next_line(rest) {
        if !is_comment(line) {
            count += 1;
        }
        rest = behind;
    }
    count
}

/// The first line of a text, and what follows it: None where nothing is left.
pub(crate) fn next_line(text: &[u8]) -> Option<(&[u8], &[u8])>
    ensures { IsNextLine text.now result }
{
    if text.is_empty() {
        return None;
    }
    let Some((line, rest)) = cut(b'\n', text) else {
        return Some((text, &[]));
    };
    Some((line, rest))
}

/// Whether a line begins with `#`.
pub(crate) fn is_comment(line: &[u8]) -> bool
    ensures { result ≡ is_comment line.now }
{
    match line {
        [] => false,
        [first, ..] => *first == b'#',
    }
}
