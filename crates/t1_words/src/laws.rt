//! Laws of the definitions, each the contract of a function that does nothing.

ghost use Rattle.t1_words.specs.Laws.{NumbersAreNumbers, PairsAreNested, WordsAreTokens};

/// A token that t1_scan reads as a number is one for PostScript too.
pub fn numbers_are_numbers()
    ensures { NumbersAreNumbers }
{}

/// Braces and brackets are paired exactly where the text is one spelled with pairs of them, nested at most 32 deep.
pub fn pairs_are_nested()
    ensures { PairsAreNested }
{}

/// The words of a text are these exactly where t1_scan reads it as just these tokens.
#[tactic(auto, using(crate::proofs::WordsRead::words_are_tokens))]
pub fn words_are_tokens()
    ensures { WordsAreTokens }
{}
