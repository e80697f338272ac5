//! Braces and brackets with their partners: Type 1 Font Format 1.1, chapters 2 and 10.

ghost use Rattle.std.specs.Prelude.{◌≡◌, ◌≤◌, IfSome};
ghost use Rattle.std.specs.Bool.{then_some};
ghost use Rattle.t1_words.specs.Pairs.{closed, is_lone_close, is_paired, is_unpaired, open_after, opened, skipped_len};

use arrayvec::ArrayVec;
use t1_scan::{Kind, Token, part_len};

/// How many braces and brackets are open at most: as many as t1_scan reads.
const MOST_OPEN: usize = 32;

/// The brackets that are open, the innermost last.
type Open = ArrayVec<u8, MOST_OPEN>;

/// Opens a bracket; false where too many are open.
fn opens(brackets: &mut Open, b: u8) -> bool
    ensures { then_some result brackets.new.items ≡ opened b brackets.old.items }
{
    brackets.try_push(b).is_ok()
}

/// Closes the innermost open bracket; false where that isn't this one.
fn closes(brackets: &mut Open, b: u8) -> bool
    ensures { then_some result brackets.new.items ≡ closed b brackets.old.items }
{
    match brackets.pop() {
        Some(innermost) => innermost == b,
        None => false,
    }
}

/// Opens or closes what a byte does; false where it can't.
fn goes_on(brackets: &mut Open, b: u8) -> bool
    ensures { then_some result brackets.new.items ≡ open_after b brackets.old.items }
{
    match b {
        b'{' | b'[' => opens(brackets, b),
        b'}' => closes(brackets, b'{'),
        b']' => closes(brackets, b'['),
        _ => true,
    }
}

/// What is skipped whole: a comment, a string, `<<`, `>>`, or else one byte; None at a `)` or a `>` alone.
fn skipped_len(first: u8, rest: &[u8]) -> Option<usize>
    ensures value { result ≡ skipped_len first rest.now }
    ensures some { IfSome result (λ n. 1 ≤ n) }
{
    match first {
        b')' => None,
        b'>' => match rest {
            [b'>', ..] => Some(2),
            _ => None,
        },
        _ => part_len(first, rest),
    }
}

/// Whether each brace and bracket of a token's text has its partner, with at most 32 open. Those in strings and comments
/// don't count. A `)` or a `>` alone has no partner.
#[tactic(auto, using(crate::proofs::Steps::pairs_end, crate::proofs::Steps::pairs_skip, crate::proofs::Steps::pairs_more))]
pub fn is_paired(text: &[u8]) -> bool
    ensures { result ≡ is_paired text.now }
{
    let mut brackets = Open::new();
    let mut skip = 0;
    for (at, b) in text.iter().enumerate() {
        if skip > 0 {
            skip -= 1;
        } else {
            if !goes_on(&mut brackets, *b) {
                return false;
            }
            let Some(len) = skipped_len(*b, &text[at + 1..]) else {
                return false;
            };
            skip = len - 1;
        }
    }
    brackets.is_empty()
}

/// Whether a word is one of `}`, `]`, `)` and `>`.
pub fn is_lone_close(word: &[u8]) -> bool
    ensures { result ≡ is_lone_close word.now }
{
    matches!(word, [b'}' | b']' | b')' | b'>'])
}

/// Whether a token is a `}`, `]`, `)` or `>` alone, or a procedure or an array with a brace or bracket that has no partner.
pub fn is_unpaired(token: &Token<'_>) -> bool
    ensures { result ≡ is_unpaired token.now.kind token.now.text.now }
{
    match token.kind {
        Kind::Word => is_lone_close(token.text),
        Kind::Proc | Kind::Array => !is_paired(token.text),
        Kind::Number(_) | Kind::Name | Kind::Text => false,
    }
}
