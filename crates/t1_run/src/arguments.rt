//! The arguments of a command, as rows of a table.

ghost use Rattle.std.specs.Prelude.{◌≡◌, IfOk, false, fold};
ghost use Rattle.clap.specs.Words.{app_of, rule_of};
ghost use Rattle.t1_run.specs.Arguments.{rule_for, with_argument};

use clap::{Arg, ArgAction, Command, value_parser};
use std::alloc::{AllocError, Global};

/// An argument of a command.
#[derive(Clone, Copy)]
pub struct Argument<'a> {
    /// Its name.
    pub name: &'a str,
    /// Where it is given, and which values it takes.
    pub kind: ArgumentKind,
    /// The name of its value in help.
    pub value: &'a str,
    /// What help says of it.
    pub help: &'a str,
}

/// Where an argument is given, and which values it takes.
#[derive(Clone, Copy)]
pub enum ArgumentKind {
    /// A word of its own, `VALUE`.
    Word,
    /// The same, which has to be there.
    RequiredWord,
    /// `--NAME VALUE`.
    Text,
    /// `--NAME VALUE`, a number of 64 bits.
    Number,
    /// `--NAME VALUE`, a number of 64 bits from 1 on.
    Positive,
    /// `--NAME VALUE`, the number of an edition.
    Edition,
}

/// The command with these arguments more. A loop over a table takes less time to prove than a chain of calls.
pub fn with_arguments<'a>(
    alloc: Global,
    mut command: Command<'a>,
    arguments: &[Argument<'a>],
) -> Result<Command<'a>, AllocError>
    ensures { IfOk result (λ c. app_of c ≡ fold with_argument (app_of command.entry) arguments.now) }
{
    for argument in arguments {
        command = command.arg(arg_of(alloc, *argument))?;
    }
    Ok(command)
}

/// The argument as clap has it.
fn arg_of<'a>(alloc: Global, argument: Argument<'a>) -> Arg<'a>
    ensures rule { rule_of result ≡ rule_for argument.entry }
    ensures own { result.global ≡ false }
{
    let arg = Arg::new(alloc, argument.name)
        .value_name(argument.value)
        .help(argument.help);
    match argument.kind {
        ArgumentKind::Word => arg,
        ArgumentKind::RequiredWord => arg.action(ArgAction::Set).required(true),
        ArgumentKind::Text => arg.long(argument.name),
        ArgumentKind::Number => arg.long(argument.name).value_parser(value_parser!(u64)),
        ArgumentKind::Positive => arg
            .long(argument.name)
            .value_parser(value_parser!(u64).range(1..)),
        ArgumentKind::Edition => arg
            .long(argument.name)
            .value_parser(value_parser!(u64).range(1..5)),
    }
}
