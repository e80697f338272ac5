//! Laws of reasons in a font's texts, each on a call that does nothing.

ghost use Rattle.t1_reasons.specs.NamedWords.{LinesAreCounted, NamedWordsAreTheFirst};

/// The word that a reason of F24 to F26 names is the first of its kind: in the clear text, or where that has none, in the private one.
#[tactic(auto, using(crate::proofs::NamedWords::named_words))]
pub fn named_words_are_the_first()
    ensures { NamedWordsAreTheFirst }
{}

/// The line of each byte that F22 looks at is one more than the lines that end before it.
#[tactic(auto, using(crate::proofs::LinesCounted::lines_are_counted))]
pub fn lines_are_counted()
    ensures { LinesAreCounted }
{}
