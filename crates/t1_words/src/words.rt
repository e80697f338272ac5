//! The words that the programs of fonts have without a definition of their own.

ghost use Rattle.std.specs.Prelude.{◌≡◌};
ghost use Rattle.std.specs.List.{list_any};
ghost use Rattle.std.specs.Str.{bytes_eq};
ghost use Rattle.t1_words.specs.Words.{is_known, wants_definition};

use crate::numbers::is_number;
use crate::pairs::is_lone_close;
use t1_scan::{Kind, Token};

/// The words that an interpreter knows though no font defines them.
const KNOWN: [&[u8]; 41] = [
    b"array",
    b"begin",
    b"bind",
    b"closefile",
    b"copy",
    b"currentdict",
    b"currentfile",
    b"def",
    b"definefont",
    b"dict",
    b"dup",
    b"eexec",
    b"end",
    b"exch",
    b"executeonly",
    b"false",
    b"findfont",
    b"FontDirectory",
    b"for",
    b"get",
    b"getinterval",
    b"if",
    b"ifelse",
    b"index",
    b"known",
    b"length",
    b"mark",
    b"maxlength",
    b"noaccess",
    b"pop",
    b"put",
    b"putinterval",
    b"readonly",
    b"readstring",
    b"StandardEncoding",
    b"string",
    b"systemdict",
    b"true",
    b"userdict",
    b"<<",
    b">>",
];

/// Whether an interpreter knows a word that a font doesn't define.
pub fn is_known(word: &[u8]) -> bool
    ensures { result ≡ is_known word.now }
{
    is_among(&KNOWN, word)
}

/// Whether a word is one of these.
fn is_among(words: &[&[u8]], word: &[u8]) -> bool
    ensures { result ≡ list_any (λ known. bytes_eq known.now word.now) words.now }
{
    words.iter().any(|known| *known == word)
}

/// Whether a token is a word that means nothing until the font defines it.
pub fn wants_definition(token: &Token<'_>) -> bool
    ensures { result ≡ wants_definition token.now.kind token.now.text.now }
{
    token.kind == Kind::Word
        && !is_known(token.text)
        && !is_number(token.text)
        && !is_lone_close(token.text)
}
