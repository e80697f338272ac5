//! Reasons.

use crate::waivers::Unused;
use t1_char::{CharToken, Command};
use t1_drawing::{Direction, FontBox, UntouchedStem};
use t1_font::Encoding;
use t1_outline::Segment;
use t1_rules::{Edges, Point, Stem};

/// What a rule compares where it is broken, or what it tells of that place. Numbers of charstrings are in units of 1/65536, those of
/// dictionaries in units of 10^-9. Steps are numbered from 1.
#[derive(Clone, Copy, PartialEq, Eq)]
pub enum Reason {
    /// The rule and its place say all.
    Nothing,
    /// How many numbers a command takes, and how many are on the stack: C04, C05.
    Count {
        command: Command,
        taken: u8,
        there: u8,
    },
    /// The token that brings one more number to the stack, and how many are there: C06.
    Full {
        token: CharToken,
        there: u8,
    },
    /// How many bytes a charstring has, and how many random bytes lenIV says that there are: C01.
    Length {
        bytes: usize,
        len_iv: i8,
    },
    /// An argument, by its place from 1: C07.
    Argument {
        place: u8,
        number: i64,
    },
    /// The number that is divided, and the divisor: C08, C09.
    Quotient {
        dividend: i64,
        divisor: i64,
    },
    /// How many Subrs are being executed: S02, S03.
    Depth {
        calls: u8,
    },
    /// The number that names a Subr, and whether there is one: S01.
    Subr {
        number: i64,
        found: bool,
    },
    /// The Subr whose charstring ends: S04.
    Ending {
        subr: u32,
    },
    /// What comes behind the end of the glyph: GE02.
    Behind {
        next: CharToken,
    },
    /// The token of the step: C03, W01, R01, R02.
    Token {
        token: CharToken,
    },
    /// The step that set the width (W02), closed the last path (P01, P03), moved (P11), drew (H01), began the flex (X01, X03), made an outline (K06) or
    /// ended counter control (O06), the last one that is a clearing command or a call of an OtherSubr (O05, O08), or the last call (W03). It is
    /// None where there was no such step.
    Since {
        step: Option<u32>,
    },
    /// Where the open path begins, and where the last step that drew left the pen: P02.
    Open {
        start: Point,
        pen: Point,
    },
    /// A stem that the step sets, and one that overlaps it (H02), one of the other command (H06), or one that the last hstem3 or vstem3 has in
    /// its place (H07), or one that shares an edge with it (H09), with the step that set that.
    Stems {
        own: Stem,
        other: SetStem,
    },
    /// A stem that the step sets: H03, H05, H10.
    Stem {
        stem: Stem,
    },
    /// The three stems that the step sets: H04.
    Triple {
        one: Stem,
        two: Stem,
        three: Stem,
    },
    /// How many moves and points came in a flex, and whether it ends here: X04.
    Pairs {
        moves: u32,
        points: u32,
        ends: bool,
    },
    /// Where the end of a flex says that it is, and where the pen is: X05.
    Miss {
        named: Point,
        pen: Point,
    },
    /// The number of an OtherSubr, and the count of arguments that it is called with: X02, O01, O03.
    Othersubr {
        number: i64,
        count: i64,
    },
    /// The count that callothersubr is given, and how many numbers are there for it: O02, O07.
    Arguments {
        count: i64,
        there: u8,
    },
    /// The arguments of seac that are the codes of base and accent: K01 to K04, K07.
    Codes {
        base: i32,
        accent: i32,
    },
    /// The sidebearing that seac says, and that of its accent: K05.
    Sidebearings {
        told: i32,
        own: i32,
    },
    /// How many steps the edition looks at: L01.
    Limit {
        steps: u32,
    },
    /// What an entry is: F03, F04, F05, F07, F15, F16, F18, F20, Z08, Z12, Z17 to Z19. Of an entry that is given twice it is the last: F23.
    Entry {
        found: Found,
    },
    /// The UniqueID of the clear text, and that of the Private dictionary: F06.
    Ids {
        clear: i64,
        private: i64,
    },
    /// What MinFeature is, and its first two numbers, which are 0 where there aren't two: F08.
    Features {
        found: Found,
        one: i64,
        two: i64,
    },
    /// How many glyphs there are: F09.
    Glyphs {
        count: usize,
    },
    /// The form of the Encoding: F11. Of one that is given twice it is the last: F23.
    Form {
        encoding: Encoding,
    },
    /// A Subr's number, whether it is given twice, and the size of the Subrs: F14.
    SubrEntry {
        number: u32,
        twice: bool,
        size: u32,
    },
    /// What an entry is, and what it should be: Z01.
    Kind {
        found: Found,
        wanted: EntryKind,
    },
    /// How many numbers a list has, and how many it may have: Z02, Z09.
    TooMany {
        count: usize,
        most: usize,
    },
    /// How many numbers a list has: Z03.
    Numbers {
        count: usize,
    },
    /// The glyph of this number: F10.
    Glyph {
        glyph: u32,
    },
    /// A code, whose name no glyph has: F13.
    Code {
        code: u32,
    },
    /// The first coordinate of FontBBox's one corner, and that of the other, in the same direction: F17.
    Corners {
        first: i64,
        last: i64,
    },
    /// A number of a list (F19, Z14), or the first of a standard width (Z13, Z16).
    Number {
        number: i64,
    },
    /// The last token of a Subr; None where it has none: F21.
    LastToken {
        token: Option<CharToken>,
    },
    /// A number of a list, and the one before it: Z04, Z10, Z15.
    Following {
        before: i64,
        number: i64,
    },
    /// The upper edge of a zone, the lower one of the next, and the distance that zones keep: Z05.
    Gap {
        upper: i64,
        lower: i64,
        distance: i128,
    },
    /// A low zone, a high one that is too near, and the distance that zones keep: Z06.
    Zones {
        own: Edges,
        other: Edges,
        distance: i128,
    },
    /// The edges of a zone, and BlueScale: Z07.
    Zone {
        lower: i64,
        upper: i64,
        scale: i64,
    },
    /// The first standard width, and the stem snap that is nearest to it: Z11.
    Width {
        width: i64,
        nearest: i64,
    },
    /// Where a line or a curve ends outside FontBBox: P04.
    Outside {
        point: Point,
        font_box: FontBox,
    },
    /// Twenty times the signed area of the drawing, in squares of 1/65536, and which of its subpaths run clockwise: P05.
    Area {
        twentyfold: i128,
        turns: SubpathTurns,
    },
    /// A line or a curve, where it begins, and where the line right before it begins, if there is one: P06 to P09.
    Stroke {
        line_start: Option<Point>,
        start: Option<Point>,
        segment: Segment,
    },
    /// A coordinate of a curve at so many quarters of its parameter, 64 times, and those of its ends: P10. It is y where stems
    /// would lie across, and x where they would be upright.
    Beyond {
        direction: Direction,
        quarters: u8,
        place: i128,
        start: i64,
        end: i64,
    },
    /// A stem that nothing touches, the first step that sets it, and the coordinate of the end of a line or a curve after that step that is
    /// nearest to one of its edges, if there is one: H08.
    Untouched {
        stem: UntouchedStem,
        step: u32,
        nearest: Option<i64>,
    },
    /// Why a waiver isn't used: U01.
    Waiver {
        unused: Unused,
    },
    /// A byte of the clear text, and its line, from 1: F22.
    HighByte {
        line: usize,
        byte: u8,
    },
    /// The word before the bytes of a charstring, by its place in the row of the private text: F24.
    ReaderWord {
        place: usize,
    },
    /// A token, by its place in the row of a text, from 0: F25, F26.
    TextWord {
        text: FontText,
        place: usize,
    },
    /// The first four numbers of FontMatrix: F27.
    Determinant {
        v0: i64,
        v1: i64,
        v2: i64,
        v3: i64,
    },
    /// Whether the name `Private` stands ahead of the lists, where the dictionary isn't begun: F28.
    PrivateUnbegun {
        named: bool,
    },
    /// The first line of the clear text: F29.
    FirstLine,
}

/// One of the two texts of a font.
#[derive(Clone, Copy, Debug, PartialEq, Eq)]
pub enum FontText {
    /// The clear text, up to its word `eexec`.
    Clear,
    /// The private text, up to the `end` of its CharStrings.
    Private,
}

/// A stem of a hint set, and the step that set it.
#[derive(Clone, Copy, Debug, Default, PartialEq, Eq)]
pub struct SetStem {
    pub stem: Stem,
    pub step: u32,
}

/// How many subpaths a drawing has, how many of them run clockwise, and the step that begins the first of these; 0 where there is none.
#[derive(Clone, Copy, Debug, PartialEq, Eq)]
pub struct SubpathTurns {
    pub subpaths: u32,
    pub clockwise: u32,
    pub first: u32,
}

/// What an entry of a dictionary is.
#[derive(Clone, Copy, Debug, PartialEq, Eq)]
pub enum Found {
    /// It isn't there.
    Absent,
    /// A number, in units of 10^-9.
    One { number: i64 },
    /// An array or a procedure of so many numbers.
    Several { count: usize },
    /// Anything else.
    Other,
}

/// What an entry should be.
#[derive(Clone, Copy, Debug, PartialEq, Eq)]
pub enum EntryKind {
    Number,
    Numbers,
}
