//! The commands of charstrings: Type 1 Font Format 1.1, chapter 6 (Charstring Command Encoding).

ghost use Rattle.std.specs.Prelude.{◌≡◌};
ghost use Rattle.t1_char.specs.Commands.{arguments_of, command_of, escaped_of, name_of};

/// A command of charstrings, in the order of the bytes that write it.
#[derive(Clone, Copy, Debug, PartialEq, Eq)]
pub enum Command {
    /// A horizontal stem: `y dy hstem`.
    Hstem,
    /// A vertical stem: `x dx vstem`.
    Vstem,
    /// A vertical move: `dy vmoveto`.
    Vmoveto,
    /// A line: `dx dy rlineto`.
    Rlineto,
    /// A horizontal line: `dx hlineto`.
    Hlineto,
    /// A vertical line: `dy vlineto`.
    Vlineto,
    /// A curve: `dx1 dy1 dx2 dy2 dx3 dy3 rrcurveto`.
    Rrcurveto,
    /// Closes the path; the current point stays.
    Closepath,
    /// A call of a Subr: `subr callsubr`.
    Callsubr,
    /// Back from a Subr.
    Return,
    /// Left sidebearing and width: `sbx wx hsbw`.
    Hsbw,
    /// The end of the glyph.
    Endchar,
    /// A move: `dx dy rmoveto`.
    Rmoveto,
    /// A horizontal move: `dx hmoveto`.
    Hmoveto,
    /// A curve that starts vertical and ends horizontal: `dy1 dx2 dy2 dx3 vhcurveto`.
    Vhcurveto,
    /// A curve that starts horizontal and ends vertical: `dx1 dx2 dy2 dy3 hvcurveto`.
    Hvcurveto,
    /// Brackets the dot of an i; without effect.
    Dotsection,
    /// Three vertical stems: `x0 dx0 x1 dx1 x2 dx2 vstem3`.
    Vstem3,
    /// Three horizontal stems: `y0 dy0 y1 dy1 y2 dy2 hstem3`.
    Hstem3,
    /// An accented glyph: `asb adx ady bchar achar seac`.
    Seac,
    /// Sidebearing point and width vector: `sbx sby wx wy sbw`.
    Sbw,
    /// A quotient: `a b div`.
    Div,
    /// A call of an OtherSubr: `arg1 .. argn n othersubr callothersubr`.
    Callothersubr,
    /// Puts a result of an OtherSubr on the stack.
    Pop,
    /// Sets the current point: `x y setcurrentpoint`.
    Setcurrentpoint,
}

/// What a command is called in the standard.
pub fn command_name(command: Command) -> &'static str
    ensures { result.now ≡ name_of command }
{
    command.row().name
}

/// A row of the table of commands.
#[derive(Clone, Copy)]
struct Row {
    name: &'static str,
    arguments: Option<u8>,
}

impl Row {
    #[inline(always)]
    fn of(name: &'static str, arguments: Option<u8>) -> Row
        ensures name { result.name.now ≡ name.now }
        ensures arguments { result.arguments ≡ arguments }
    {
        Row { name, arguments }
    }
}

impl Command {
    /// How many arguments the command takes from the bottom of the stack, which it then empties; none
    /// where it takes what it needs from the top.
    #[inline(always)]
    pub fn arguments(self) -> Option<u8>
        ensures { result ≡ arguments_of self }
    {
        self.row().arguments
    }

    /// The command's row.
    #[inline(always)]
    fn row(self) -> Row
        ensures name { result.name.now ≡ name_of self }
        ensures arguments { result.arguments ≡ arguments_of self }
    {
        match self {
            Command::Hstem => Row::of("hstem", Some(2)),
            Command::Vstem => Row::of("vstem", Some(2)),
            Command::Vmoveto => Row::of("vmoveto", Some(1)),
            Command::Rlineto => Row::of("rlineto", Some(2)),
            Command::Hlineto => Row::of("hlineto", Some(1)),
            Command::Vlineto => Row::of("vlineto", Some(1)),
            Command::Rrcurveto => Row::of("rrcurveto", Some(6)),
            Command::Closepath => Row::of("closepath", Some(0)),
            Command::Callsubr => Row::of("callsubr", None),
            Command::Return => Row::of("return", None),
            Command::Hsbw => Row::of("hsbw", Some(2)),
            Command::Endchar => Row::of("endchar", Some(0)),
            Command::Rmoveto => Row::of("rmoveto", Some(2)),
            Command::Hmoveto => Row::of("hmoveto", Some(1)),
            Command::Vhcurveto => Row::of("vhcurveto", Some(4)),
            Command::Hvcurveto => Row::of("hvcurveto", Some(4)),
            Command::Dotsection => Row::of("dotsection", Some(0)),
            Command::Vstem3 => Row::of("vstem3", Some(6)),
            Command::Hstem3 => Row::of("hstem3", Some(6)),
            Command::Seac => Row::of("seac", Some(5)),
            Command::Sbw => Row::of("sbw", Some(4)),
            Command::Div => Row::of("div", None),
            Command::Callothersubr => Row::of("callothersubr", None),
            Command::Pop => Row::of("pop", None),
            Command::Setcurrentpoint => Row::of("setcurrentpoint", Some(2)),
        }
    }

    /// The command of a byte below 32 other than 12.
    #[inline(always)]
    pub(crate) fn plain(byte: u8) -> Option<Command>
        ensures { result ≡ command_of byte }
    {
        match byte {
            1 => Some(Command::Hstem),
            3 => Some(Command::Vstem),
            4 => Some(Command::Vmoveto),
            5 => Some(Command::Rlineto),
            6 => Some(Command::Hlineto),
            7 => Some(Command::Vlineto),
            8 => Some(Command::Rrcurveto),
            9 => Some(Command::Closepath),
            10 => Some(Command::Callsubr),
            11 => Some(Command::Return),
            13 => Some(Command::Hsbw),
            14 => Some(Command::Endchar),
            21 => Some(Command::Rmoveto),
            22 => Some(Command::Hmoveto),
            30 => Some(Command::Vhcurveto),
            31 => Some(Command::Hvcurveto),
            _ => None,
        }
    }

    /// The command of 12 and this byte.
    #[inline(always)]
    pub(crate) fn escaped(byte: u8) -> Option<Command>
        ensures { result ≡ escaped_of byte }
    {
        match byte {
            0 => Some(Command::Dotsection),
            1 => Some(Command::Vstem3),
            2 => Some(Command::Hstem3),
            6 => Some(Command::Seac),
            7 => Some(Command::Sbw),
            12 => Some(Command::Div),
            16 => Some(Command::Callothersubr),
            17 => Some(Command::Pop),
            33 => Some(Command::Setcurrentpoint),
            _ => None,
        }
    }
}
