//! Laws of the definitions, each the contract of a function that does nothing.

ghost use Rattle.t1_scan.specs.Laws.{
  ReadsToken,
  FindsToken,
  EndsInBlanks,
  RefusesTheRest,
  RoundTrip,
  TooDeep,
  DecimalValue,
  RadixValue,
  NineDigits,
  Covers,
  TakesBytes,
};

/// A token in its plain form, nested at most 32 deep, is read at the start of a text, after any blanks and comments.
pub fn plain_tokens_are_read()
    ensures { ReadsToken }
{}

/// What is read is such a token; where blanks and comments alone are left there is none, and all
/// other texts are refused.
#[tactic(auto, using(crate::proofs::TokensFound::finds_token, crate::proofs::TokensFound::ends_in_blanks))]
pub fn nothing_else_is_read()
    ensures finds { FindsToken }
    ensures ends { EndsInBlanks }
    ensures refuses { RefusesTheRest }
{}

/// Tokens of any kinds that nest at most 32 deep, written one after another with a blank between,
/// are read as just these. A number is read with its value.
#[tactic(auto, using(crate::proofs::TextsRead::round_trip))]
pub fn written_tokens_are_read()
    ensures { RoundTrip }
{}

/// A token that nests deeper than 32 is never read, whatever follows it; parentheses don't count.
#[tactic(auto, using(crate::proofs::TokensRead::too_deep))]
pub fn deep_tokens_are_refused()
    ensures { TooDeep }
{}

/// A number in plain decimal form has its value, a number in a base too.
#[tactic(auto, using(crate::proofs::NumbersRead::decimal_value, crate::proofs::NumbersRead::radix_value))]
pub fn numbers_have_their_values()
    ensures decimal { DecimalValue }
    ensures radix { RadixValue }
{}

/// Of digits, at most nine before the point, leading zeros not counted, spell a value below a
/// billion.
#[tactic(auto, using(crate::proofs::Values::nine_digits))]
pub fn nine_digits_are_below_a_billion()
    ensures { NineDigits }
{}

/// The tokens of a text cover it but for blanks and comments.
#[tactic(auto, using(crate::proofs::Cover::covers))]
pub fn tokens_cover_the_text()
    ensures { Covers }
{}

/// Each token takes a byte or more, so a text has no more tokens than bytes.
#[tactic(auto, using(crate::proofs::Cover::takes_bytes))]
pub fn tokens_take_bytes()
    ensures { TakesBytes }
{}
