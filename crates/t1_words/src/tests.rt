//! That the definitions say what PostScript and this program mean. Expected values are worked out by hand.

use crate::{
    begins_as_type1, has_high_byte, is_known, is_number, is_paired, is_unpaired, reads_charstrings,
    wants_definition,
};
use t1_scan::{Kind, Scanner, Token};

const NUMBERS: &[&str] = &[
    "0",
    "-1",
    "+.5",
    "1.",
    "1e10",
    "1.5E-3",
    "16#FF",
    "8#777",
    "99999999999999999999",
    ".5",
];

const NO_NUMBERS: &[&str] = &[
    "", ".", "-", "1e", "e1", "1.2.3", "16#", "#FF", "--1", "+-1", "1E+", "1.e.2", "-16#FF",
    "16#F-",
];

#[test]
fn numbers(rt: HostRuntime) {
    for text in NUMBERS {
        assert!(rt; is_number(text.as_bytes()), "{text}");
    }
    for text in NO_NUMBERS {
        assert!(rt; !is_number(text.as_bytes()), "{text}");
    }
}

const KNOWN: &[&str] = &[
    "array",
    "begin",
    "bind",
    "closefile",
    "copy",
    "currentdict",
    "currentfile",
    "def",
    "definefont",
    "dict",
    "dup",
    "eexec",
    "end",
    "exch",
    "executeonly",
    "false",
    "findfont",
    "FontDirectory",
    "for",
    "get",
    "getinterval",
    "if",
    "ifelse",
    "index",
    "known",
    "length",
    "mark",
    "maxlength",
    "noaccess",
    "pop",
    "put",
    "putinterval",
    "readonly",
    "readstring",
    "StandardEncoding",
    "string",
    "systemdict",
    "true",
    "userdict",
    "<<",
    ">>",
];

const UNKNOWN: &[&str] = &["", "RD", "-|", "Rversion", "Dup", "du", "dupdup", "/dup"];

#[test]
fn known_words(rt: HostRuntime) {
    for word in KNOWN {
        assert!(rt; is_known(word.as_bytes()), "{word}");
    }
    for word in UNKNOWN {
        assert!(rt; !is_known(word.as_bytes()), "{word}");
    }
}

const PAIRED: &[&str] = &[
    "",
    "{}",
    "[]",
    "[{ ( } ) } {}]",
    "{ % ] } comment\n }",
    "{ << >> }",
    "[>>]",
    "{ <7d> }",
    "{(\\))}",
    "{ [ { [ ] } ] }",
    // Thirty-two deep.
    "{{{{{{{{{{{{{{{{{{{{{{{{{{{{{{{{}}}}}}}}}}}}}}}}}}}}}}}}}}}}}}}}",
    "[{[{[{[{[{[{[{[{[{[{[{[{[{[{[{[{}]}]}]}]}]}]}]}]}]}]}]}]}]}]}]}]",
];

const NOT_PAIRED: &[&str] = &[
    "{ [ }",
    "[ } ]",
    "[{ [ } {}]",
    "[>{}]",
    "{ ) }",
    "{ > }",
    "{>>>}",
    "{",
    "}",
    "]",
    "{ % }",
    "{ (} ",
    "[ <7d ]",
    "{ ] }",
    // Thirty-three deep.
    "{{{{{{{{{{{{{{{{{{{{{{{{{{{{{{{{{}}}}}}}}}}}}}}}}}}}}}}}}}}}}}}}}}",
    "[{[{[{[{[{[{[{[{[{[{[{[{[{[{[{[{[]}]}]}]}]}]}]}]}]}]}]}]}]}]}]}]}]",
];

#[test]
fn pairs_of_brackets(rt: HostRuntime) {
    for text in PAIRED {
        assert!(rt; is_paired(text.as_bytes()), "{text}");
    }
    for text in NOT_PAIRED {
        assert!(rt; !is_paired(text.as_bytes()), "{text}");
    }
}

/// The only token of a text, if it has one and no more.
fn only_token(text: &[u8]) -> Option<Token<'_>> {
    let mut scanner = Scanner::new(text);
    match (scanner.next(), scanner.next()) {
        (Ok(Some(token)), Ok(None)) => Some(token),
        _ => None,
    }
}

const UNPAIRED: &[&str] = &["}", "]", ")", ">", "{ [ }", "[ } ]", "{ ) }"];

const NOT_UNPAIRED: &[&str] = &[
    "{}",
    "[]",
    "<<",
    ">>",
    "(})",
    "<7d>",
    "/",
    "/a",
    "def",
    "1.5",
    "{ << >> }",
];

#[test]
fn brackets_without_partners(rt: HostRuntime) {
    for text in UNPAIRED {
        let found = only_token(text.as_bytes()).map(|token| is_unpaired(&token));
        assert_eq!(rt; found, Some(true), "{text}");
    }
    for text in NOT_UNPAIRED {
        let found = only_token(text.as_bytes()).map(|token| is_unpaired(&token));
        assert_eq!(rt; found, Some(false), "{text}");
    }
}

const READERS: &[&str] = &[
    "{string currentfile exch readstring pop}",
    "{ string\ncurrentfile % x\nexch readstring pop }",
    "{%}\rstring currentfile exch readstring pop%\n}",
];

const NO_READERS: &[&str] = &[
    "{}",
    "{string currentfile exch readstring}",
    "{currentfile exch readstring pop}",
    "{string currentfile exch readstring pop pop}",
    "{string currentfile exch readstring pop {}}",
    "{/string currentfile exch readstring pop}",
    "{string currentfile exch readstring /pop}",
    "{string exch currentfile readstring pop}",
    "{stringcurrentfile exch readstring pop}",
    "{string currentfile (exch) readstring pop}",
    "[string currentfile exch readstring pop]",
    "(string currentfile exch readstring pop)",
    "string",
];

#[test]
fn readers_of_charstrings(rt: HostRuntime) {
    for text in READERS {
        let found = only_token(text.as_bytes()).map(|token| reads_charstrings(&token));
        assert_eq!(rt; found, Some(true), "{text}");
    }
    for text in NO_READERS {
        let found = only_token(text.as_bytes()).map(|token| reads_charstrings(&token));
        assert_eq!(rt; found, Some(false), "{text}");
    }
}

/// Procedures that no scanner returns, since they have no two braces.
#[test]
fn short_texts_read_nothing(rt: HostRuntime) {
    for text in ["", "{"] {
        let token = Token {
            kind: Kind::Proc,
            text: text.as_bytes(),
            from: 0,
            to: 0,
        };
        assert!(rt; !reads_charstrings(&token), "{text}");
    }
}

#[test]
fn high_bytes(rt: HostRuntime) {
    assert!(rt; !has_high_byte(b""));
    assert!(rt; !has_high_byte(b"a ~\x00\n"));
    assert!(rt; has_high_byte(b"\x7f"));
    assert!(rt; has_high_byte(b"ab\xff"));
    assert!(rt; has_high_byte(b"\x80b"));
}

const TYPE1: &[&str] = &[
    "%!PS-AdobeFont",
    "%!PS-AdobeFont-1.0: Test",
    "%!FontType1-1.0: Test",
    "%!FontType",
];

const NOT_TYPE1: &[&str] = &[
    "",
    "%!",
    "%!PS-Adobe-3.0",
    "%!PS-AdobeFon",
    "%!FontTyp",
    " %!FontType1",
    "%!fonttype1",
];

#[test]
fn first_lines(rt: HostRuntime) {
    for text in TYPE1 {
        assert!(rt; begins_as_type1(text.as_bytes()), "{text}");
    }
    for text in NOT_TYPE1 {
        assert!(rt; !begins_as_type1(text.as_bytes()), "{text}");
    }
}

const UNDEFINED: &[&str] = &["RD", "-|", "|-", "NP", "Dup", "1e", "16#"];

const NOT_UNDEFINED: &[&str] = &[
    "dup",
    "<<",
    ">>",
    "}",
    "]",
    ")",
    ">",
    "1e10",
    "9999999999",
    "1.5",
    "/RD",
    "(RD)",
    "{RD}",
    "[RD]",
];

#[test]
fn words_that_want_a_definition(rt: HostRuntime) {
    for text in UNDEFINED {
        let found = only_token(text.as_bytes()).map(|token| wants_definition(&token));
        assert_eq!(rt; found, Some(true), "{text}");
    }
    for text in NOT_UNDEFINED {
        let found = only_token(text.as_bytes()).map(|token| wants_definition(&token));
        assert_eq!(rt; found, Some(false), "{text}");
    }
}
