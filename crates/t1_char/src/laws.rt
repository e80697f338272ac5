//! Laws of the definitions, as contracts of calls that do nothing.

ghost use Rattle.t1_char.specs.Laws.BrokenOff.{BrokenOffAreCut, CutsAreBrokenOff, EnoughAreLong, PlainAreLong, TooFewAreShort};
ghost use Rattle.t1_char.specs.Laws.Effects.{DivDivides, OthersubrsAreCalled, WholeNumbersAreRead};
ghost use Rattle.t1_char.specs.Laws.Frames.{CallsGoIn, EndsStop, GlyphsBegin, ReturnsGoBack, TokensGoOn};
ghost use Rattle.t1_char.specs.Laws.Numbers.{NoQuotientIsZero, QuotientsAreCut, QuotientsAreKept};
ghost use Rattle.t1_char.specs.Laws.Since.{AfterLastGoesOn, AnyGoesOn, LastGoesOn, SinceGoesOn, SinceIsByPlaces};
ghost use Rattle.t1_char.specs.Laws.Steps.{CalledSubrsAreFound, FoundSubrsAreCalled, GlyphsAreFinished, LastsAreByWhatFollows, NothingFollows, PlainGlyphsGoOn, StepsAreBounded, StepsGoOn};
ghost use Rattle.t1_char.specs.Laws.Turns.{EndsAreReturned, LastAnswersAreReturnedAgain, LimitsAreReturned, StepsAreReturned};
ghost use Rattle.t1_char.specs.Laws.Written.{EachNumberIsWritten, EncipheredIsRead, ReadIsWritten, WrittenIsRead};

/// Numbers are written in three forms, and each number of 32 bits in one of them. What is written from numbers,
/// commands and bytes that are no command is read as just these, plain or enciphered. What is read without a break is
/// so written.
#[tactic(auto, using(crate::proofs::Spelling::each_number_is_written, crate::proofs::Enciphered::written_is_read, crate::proofs::Enciphered::enciphered_is_read, crate::proofs::TextsReadBack::read_is_written))]
pub fn written_charstrings_are_read()
    ensures numbers { EachNumberIsWritten }
    ensures plain { WrittenIsRead }
    ensures enciphered { EncipheredIsRead }
    ensures back { ReadIsWritten }
{}

/// What div and callothersubr do to a stack that is written out, and which numbers on it are whole.
#[tactic(auto, using(crate::proofs::Othersubrs::othersubrs_are_called, crate::proofs::Othersubrs::whole_numbers_are_read))]
pub fn stacks_are_taken_from_the_top()
    ensures div { DivDivides }
    ensures othersubrs { OthersubrsAreCalled }
    ensures whole { WholeNumbersAreRead }
{}

/// A glyph without calls goes token by token. Each glyph has a step that finishes it, and nothing follows that. No
/// step has more than ten Subrs in its path, 24 numbers on the stack, or 22 results that wait.
#[tactic(auto, using(crate::proofs::PlainGlyphs::plain_glyphs_go_on, crate::proofs::LastSteps::nothing_follows, crate::proofs::Finishing::glyphs_are_finished))]
pub fn steps_follow_the_tokens()
    ensures plain { PlainGlyphsGoOn }
    ensures last { NothingFollows }
    ensures finished { GlyphsAreFinished }
    ensures bounds { StepsAreBounded }
{}

/// What came before a step is known from the steps so far and one more. An a came with no b after it exactly where
/// there is an a at some place, and no b at a later one.
#[tactic(auto, using(crate::proofs::LookingBack::any_goes_on, crate::proofs::LookingBack::since_goes_on, crate::proofs::LookingBack::after_last_goes_on, crate::proofs::LookingBack::last_goes_on, crate::proofs::SincePlaces::since_is_by_places))]
pub fn steps_are_looked_back_on()
    ensures any { AnyGoesOn }
    ensures since { SinceGoesOn }
    ensures after_last { AfterLastGoesOn }
    ensures last { LastGoesOn }
    ensures places { SinceIsByPlaces }
{}

/// The path, the stack and the count of waiting results at each step are what the effects before it lead to. They lead
/// through calls of Subrs and back.
#[tactic(auto, using(crate::proofs::Chains::steps_go_on))]
pub fn steps_go_on()
    ensures { StepsGoOn }
{}

/// A glyph goes step by step: each token is a step. Its effect decides what comes after it: the next token, a Subr and
/// then the next token, the caller's next token, or nothing.
#[tactic(auto, using(crate::proofs::StepByStep::glyphs_begin, crate::proofs::StepByStep::tokens_go_on, crate::proofs::StepByStep::calls_go_in, crate::proofs::StepByStep::returns_go_back))]
pub fn runs_go_step_by_step()
    ensures begin { GlyphsBegin }
    ensures goes_on { TokensGoOn }
    ensures goes_in { CallsGoIn }
    ensures goes_back { ReturnsGoBack }
    ensures stops { EndsStop }
{}

/// A step says that it is the last of its charstring by what follows it there. It says that it finds its Subr by the
/// number on top of the stack.
#[tactic(auto, using(crate::proofs::Telling::lasts_are_by_what_follows, crate::proofs::Telling::called_subrs_are_found))]
pub fn steps_tell_calls_and_ends()
    ensures last { LastsAreByWhatFollows }
    ensures found { FoundSubrsAreCalled }
    ensures called { CalledSubrsAreFound }
{}

/// A machine returns the steps up to the limit one after another, then the end, or the first step past the limit as
/// the limit. Later calls return the same again, and its count stays.
#[tactic(auto, using(crate::proofs::Answering::steps_are_returned, crate::proofs::Answering::ends_are_returned, crate::proofs::Answering::limits_are_returned, crate::proofs::Answering::last_answers_are_returned_again))]
pub fn machines_answer_in_order()
    ensures steps { StepsAreReturned }
    ensures end { EndsAreReturned }
    ensures limit { LimitsAreReturned }
    ensures again { LastAnswersAreReturnedAgain }
{}

/// div returns the true quotient, cut towards zero and kept within -32000 to 32000, and 0 where the divisor is 0.
#[tactic(auto, using(crate::proofs::Quotients::quotients_are_cut, crate::proofs::Quotients::quotients_are_kept, crate::proofs::Quotients::no_quotient_is_zero))]
pub fn quotients_are_cut_towards_zero()
    ensures cut { QuotientsAreCut }
    ensures kept { QuotientsAreKept }
    ensures zero { NoQuotientIsZero }
{}

/// A charstring is read as short exactly where it has fewer bytes than lenIV says. It is read as cut exactly where its
/// bytes break off inside a token, which is then its last.
#[tactic(auto, using(crate::proofs::CutTokens::too_few_are_short, crate::proofs::CutTokens::enough_are_long, crate::proofs::CutTokens::plain_are_long, crate::proofs::CutTokens::broken_off_are_cut, crate::proofs::CutTokens::cuts_are_broken_off))]
pub fn short_and_cut_charstrings_are_returned()
    ensures short { TooFewAreShort }
    ensures long { EnoughAreLong }
    ensures plain { PlainAreLong }
    ensures cut { BrokenOffAreCut }
    ensures back { CutsAreBrokenOff }
{}
