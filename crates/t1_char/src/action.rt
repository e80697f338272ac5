//! What tokens do to the run: Type 1 Font Format 1.1, chapter 6.

ghost use Rattle.std.specs.Prelude.{◌≡◌};
ghost use Rattle.t1_char.specs.Effects.{work_of};
ghost use Rattle.t1_char.specs.Private.Actions.{work_view};

use crate::command::Command;
use crate::subr::Subr;

/// How the run goes on after a token.
#[derive(Clone, Copy)]
pub(crate) enum Action<'a> {
    /// With the next token.
    Goes,
    /// With the tokens of a Subr, and then with the next token.
    Calls(Subr<'a>),
    /// Back in the caller.
    Returns,
    /// Not at all: the glyph is finished.
    Finishes,
}

/// What a command does.
#[derive(Clone, Copy)]
pub(crate) enum Work {
    /// Takes its arguments and empties the stack.
    Clears,
    /// The same, and finishes the glyph.
    FinishesGlyph,
    Divides,
    CallsSubr,
    ReturnsBack,
    CallsOthersubr,
    Pops,
}

/// What a command does.
#[inline(always)]
pub(crate) fn work_of(command: Command) -> Work
    ensures { work_view result ≡ work_of command }
{
    match command {
        Command::Endchar | Command::Seac => Work::FinishesGlyph,
        Command::Div => Work::Divides,
        Command::Callsubr => Work::CallsSubr,
        Command::Return => Work::ReturnsBack,
        Command::Callothersubr => Work::CallsOthersubr,
        Command::Pop => Work::Pops,
        Command::Hstem
        | Command::Vstem
        | Command::Vmoveto
        | Command::Rlineto
        | Command::Hlineto
        | Command::Vlineto
        | Command::Rrcurveto
        | Command::Closepath
        | Command::Hsbw
        | Command::Rmoveto
        | Command::Hmoveto
        | Command::Vhcurveto
        | Command::Hvcurveto
        | Command::Dotsection
        | Command::Vstem3
        | Command::Hstem3
        | Command::Sbw
        | Command::Setcurrentpoint => Work::Clears,
    }
}
