//! The rules and their numbers.

ghost use Rattle.std.specs.Prelude.{◌≡◌, ◌⊎◌, ◌<◌, ◌≤◌, nat_eq, IfNone, IfSome};
ghost use Rattle.std.proofs.Common as common;
ghost use Rattle.std.specs.Cmp.Rules.{comparing, hashing};
ghost use Rattle.std.specs.Hash as fed;
ghost use Rattle.std.specs.Ordering.{on};
ghost use Rattle.t1_rules.specs.Book.{last_number, number_of, rule_coded, rules};

use crate::book::{rows, rule_code, rule_in, rule_of};
use std::fmt;
use std::hash::{Hash, Hasher};

/// A rule of the rule book. Its number is its place there, from 1 on.
#[derive(Clone, Copy)]
pub enum Rule {
    /// A PFB file ends with an end segment. Technical Note 5040, section 3.3.
    F01 = 1,
    /// Nothing follows the end segment. Technical Note 5040, section 3.3.
    F02,
    /// `/FontType` is 1. Type 1 Font Format, chapter 2.
    F03,
    /// `/PaintType` is 0 or 2. Type 1 Font Format, chapter 2.
    F04,
    /// A `/UniqueID` is whole, from 0 to 16777215. Type 1 Font Format, chapter 2.
    F05,
    /// Both `/UniqueID` entries are the same number. Type 1 Font Format, chapter 5.
    F06,
    /// `/password` is 5839. Type 1 Font Format, chapter 5.
    F07,
    /// `/MinFeature` is `{16 16}`. Type 1 Font Format, chapter 5.
    F08,
    /// There is a glyph `.notdef`. Type 1 Font Format, chapter 2.
    F09,
    /// A glyph is given once.
    F10,
    /// `/Encoding` is there, standard or custom. Type 1 Font Format, chapter 2.
    F11,
    /// The codes of a custom encoding are whole, from 0 to 255. Type 1 Font Format, chapter 2.
    F12,
    /// A glyph that a custom encoding names is there.
    F13,
    /// A Subr is given once, and its number is below the size of the array.
    F14,
    /// A hint entry has a number or numbers, as it should. Type 1 Font Format, chapter 5.
    Z01,
    /// A list of zones has at most 14 numbers, or 10. Type 1 Font Format, chapter 5.
    Z02,
    /// The numbers of a list of zones come in pairs. Type 1 Font Format, chapter 5.
    Z03,
    /// The numbers of a list of zones don't fall. Type 1 Font Format, chapter 5.
    Z04,
    /// Zones of one list keep their distance. Type 1 Font Format, chapter 5.
    Z05,
    /// Zones of the high and the low list keep their distance. Type 1 Font Format, chapter 5.
    Z06,
    /// A zone's height times BlueScale is below 1. Type 1 Font Format, chapter 5.
    Z07,
    /// A standard width is one number. Type 1 Font Format, chapter 5.
    Z08,
    /// There are at most 12 stem snaps. Type 1 Font Format, chapter 5.
    Z09,
    /// Stem snaps don't fall. Type 1 Font Format, chapter 5.
    Z10,
    /// The standard width is one of the stem snaps. Type 1 Font Format, chapter 5.
    Z11,
    /// A charstring has lenIV bytes or more. Type 1 Font Format, chapter 7.
    C01,
    /// A charstring ends with a whole token. Type 1 Font Format, chapter 6.
    C02,
    /// Each command is known. Type 1 Font Format, chapter 6.
    C03,
    /// A command has its arguments. Type 1 Font Format, chapter 6.
    C04,
    /// A command that clears the stack has no more than its arguments. Type 1 Font Format, chapter 6.
    C05,
    /// The stack has at most 24 numbers. Type 1 Font Format, chapter 6.
    C06,
    /// An argument is at most 32000 in absolute value. Type 1 Font Format, chapter 6.
    C07,
    /// A quotient is at most 32000 in absolute value. Type 1 Font Format, chapter 6.
    C08,
    /// Nothing is divided by zero. Type 1 Font Format, chapter 6.
    C09,
    /// A Subr that is called is there. Type 1 Font Format, chapter 6.
    S01,
    /// At most ten calls are nested. Type 1 Font Format, chapter 6.
    S02,
    /// A `return` is in a Subr. Type 1 Font Format, chapter 6.
    S03,
    /// A Subr ends with `return`. Type 1 Font Format, chapter 6.
    S04,
    /// A glyph ends with `endchar` or `seac`. Type 1 Font Format, chapter 6.
    GE01,
    /// Nothing follows `endchar` or `seac`. Type 1 Font Format, chapter 6.
    GE02,
    /// `hsbw` or `sbw` is the first command. Type 1 Font Format, chapter 6.
    W01,
    /// `hsbw` or `sbw` is there once. Type 1 Font Format, chapter 6.
    W02,
    /// A path begins with a move. Type 1 Font Format, chapter 6.
    P01,
    /// A path is closed before the next one and the end. Type 1 Font Format, chapter 6.
    P02,
    /// `closepath` closes a path. Type 1 Font Format, chapter 6.
    P03,
    /// Stems are declared before the path, or after hint replacement. Type 1 Font Format, chapter 6.
    H01,
    /// Stems of one direction don't overlap. Type 1 Font Format, chapter 6.
    H02,
    /// A stem has a width. Type 1 Font Format, chapter 6.
    H03,
    /// The outer stems of three are equally wide and equally far from the middle one. Type 1 Font Format,
    /// chapter 6.
    H04,
    /// `pop` follows hint replacement. Type 1 Font Format, chapter 8.
    R01,
    /// `callsubr` follows that `pop`. Type 1 Font Format, chapter 8.
    R02,
    /// Flex doesn't begin inside flex. Type 1 Font Format, chapter 8.
    X01,
    /// A point or the end of flex is in flex. Type 1 Font Format, chapter 8.
    X02,
    /// Moves are the only path commands in flex. Type 1 Font Format, chapter 8.
    X03,
    /// Flex has seven moves, each with its point. Type 1 Font Format, chapter 8.
    X04,
    /// Flex ends at the current point. Type 1 Font Format, chapter 8.
    X05,
    /// `setcurrentpoint` follows the end of flex. Type 1 Font Format, chapter 8.
    X06,
    /// The OtherSubr is one of 0, 1, 2, 3, 12 and 13. Type 1 Font Format, chapter 8.
    O01,
    /// The count of arguments is whole, and so many are there. Type 1 Font Format, chapter 6.
    O02,
    /// The OtherSubr has its own count of arguments. Type 1 Font Format, chapter 8.
    O03,
    /// `pop` finds a number of an OtherSubr. Type 1 Font Format, chapter 6.
    O04,
    /// The codes of `seac` are whole, from 0 to 255. Type 1 Font Format, chapter 6.
    K01,
    /// StandardEncoding names the codes of `seac`. Type 1 Font Format, chapter 6.
    K02,
    /// The components of `seac` are there. Type 1 Font Format, chapter 6.
    K03,
    /// A component of `seac` is no `seac`. Type 1 Font Format, chapter 6.
    K04,
    /// `seac` has the sidebearing of its accent. Type 1 Font Format, chapter 6.
    K05,
    /// `seac` is alone beside `hsbw` or `sbw`. Type 1 Font Format, chapter 6.
    K06,
    /// A component of `seac` has a sidebearing. Type 1 Font Format, chapter 6.
    K07,
    /// A glyph has at most 100,000 steps, or 1,000,000 by the second edition.
    L01,
    /// A waiver waives a violation.
    U01,
    /// `/FontMatrix` is six numbers. Type 1 Font Format, chapter 2.
    F15,
    /// `/FontBBox` is four numbers. Type 1 Font Format, chapter 2.
    F16,
    /// The first corner of `/FontBBox` is the lower left one. Type 1 Font Format, chapter 2.
    F17,
    /// `/XUID` is numbers.
    F18,
    /// The numbers of `/XUID` are whole, from 0 to 16777215.
    F19,
    /// `/LanguageGroup` is 0 or 1. Type 1 Font Format, chapter 5.
    F20,
    /// Each Subr has a `return`. Type 1 Font Format, chapter 6.
    F21,
    /// `/BlueValues` is there. Type 1 Font Format, chapter 5.
    Z12,
    /// A standard width is above 0.
    Z13,
    /// Numbers of zones are whole. Type 1 Font Format, chapter 5.
    Z14,
    /// Stem snaps differ. Type 1 Font Format, chapter 5.
    Z15,
    /// There is a stem snap beside a standard width.
    Z16,
    /// `/BlueScale` is above 0 and at most 0.5.
    Z17,
    /// `/BlueShift` is whole and not negative. Type 1 Font Format, chapter 5.
    Z18,
    /// `/BlueFuzz` is whole, from 0 to 10. Type 1 Font Format, chapter 5.
    Z19,
    /// A stem of a width has half a unit at least.
    H05,
    /// A glyph has single stems of a direction, or three of a command. Type 1 Font Format, chapter 6.
    H06,
    /// The three stems of a direction are the same in the whole glyph. Type 1 Font Format, chapter 6.
    H07,
    /// Counter control follows `hsbw`, `sbw` or counter control. Technical Note 5015.
    O05,
    /// No counter control follows its last call, that of OtherSubr 13. Technical Note 5015.
    O06,
    /// Counter control takes all numbers of the stack. Technical Note 5015.
    O07,
    /// OtherSubr 12 is followed by counter control. Technical Note 5015.
    O08,
    /// No OtherSubr is called before the first command. Type 1 Font Format, chapter 6.
    W03,
    /// The clear text has no byte above 126. Type 1 Font Format, chapter 2.
    F22,
    /// An entry is given once.
    F23,
    /// The word before a charstring is defined to read it. Type 1 Font Format, chapter 2.
    F24,
    /// Each brace and each bracket has its partner.
    F25,
    /// Each word is known, or the font's own.
    F26,
    /// `/FontMatrix` has an inverse. Type 1 Font Format, chapter 2.
    F27,
    /// There is a Private dictionary. Type 1 Font Format, chapter 2.
    F28,
    /// The first line says that this is a Type 1 font. Type 1 Font Format, chapter 2.
    F29,
    /// No point is a unit or more outside `/FontBBox`. Type 1 Font Format, chapter 2.
    P04,
    /// An outline runs anticlockwise. Type 1 Font Format, chapter 3.
    P05,
    /// A line or a curve has a length. Type 1 Font Format, chapter 3.
    P06,
    /// A line doesn't turn back on the line before it. Type 1 Font Format, chapter 3.
    P07,
    /// A line isn't the rest of the line before it. Type 1 Font Format, chapter 3.
    P08,
    /// A curve isn't a straight line. Type 1 Font Format, chapter 3.
    P09,
    /// A curve has a point where it is highest, lowest or outermost. Type 1 Font Format, chapter 3.
    P10,
    /// Something is drawn between two moves.
    P11,
    /// Something that is drawn lies at each stem. Type 1 Font Format, chapter 5.
    H08,
    /// Two stems of one direction share no edge. Type 1 Font Format, chapter 5.
    H09,
    /// A stem's width isn't negative. Type 1 Font Format, chapter 6.
    H10,
}

impl fmt::Debug for Rule {
    fn fmt<W: fmt::Write>(&self, f: &mut fmt::Formatter<W>) -> fmt::Result {
        f.write_str(rule_code(*self))
    }
}

impl Rule {
    /// The number of the rule, from 1 on.
    pub fn number(self) -> u8
        ensures number { result ≡ number_of self }
        ensures first { 1 ≤ result }
        ensures last { result ≤ last_number }
    {
        self as u8
    }

    /// The rule of a number, if there is one: from 1 to [`RULE_COUNT`].
    pub fn from_number(number: u8) -> Option<Rule>
        ensures some { IfSome result (λ rule. number_of rule ≡ number) }
        ensures none { IfNone result ((number ≡ 0) ⊎ (last_number < number)) }
    {
        rule_of(number)
    }

    /// The rule of a code, if there is one: `GE01`.
    pub fn from_code(code: &[u8]) -> Option<Rule>
        ensures { result ≡ rule_coded code.now }
    {
        rule_in(rows(), code)
    }
}

/// How many rules there are.
pub const RULE_COUNT: usize = 112;

/// The rules, in the order of their numbers.
static RULES: [Rule; RULE_COUNT] = [
    Rule::F01,
    Rule::F02,
    Rule::F03,
    Rule::F04,
    Rule::F05,
    Rule::F06,
    Rule::F07,
    Rule::F08,
    Rule::F09,
    Rule::F10,
    Rule::F11,
    Rule::F12,
    Rule::F13,
    Rule::F14,
    Rule::Z01,
    Rule::Z02,
    Rule::Z03,
    Rule::Z04,
    Rule::Z05,
    Rule::Z06,
    Rule::Z07,
    Rule::Z08,
    Rule::Z09,
    Rule::Z10,
    Rule::Z11,
    Rule::C01,
    Rule::C02,
    Rule::C03,
    Rule::C04,
    Rule::C05,
    Rule::C06,
    Rule::C07,
    Rule::C08,
    Rule::C09,
    Rule::S01,
    Rule::S02,
    Rule::S03,
    Rule::S04,
    Rule::GE01,
    Rule::GE02,
    Rule::W01,
    Rule::W02,
    Rule::P01,
    Rule::P02,
    Rule::P03,
    Rule::H01,
    Rule::H02,
    Rule::H03,
    Rule::H04,
    Rule::R01,
    Rule::R02,
    Rule::X01,
    Rule::X02,
    Rule::X03,
    Rule::X04,
    Rule::X05,
    Rule::X06,
    Rule::O01,
    Rule::O02,
    Rule::O03,
    Rule::O04,
    Rule::K01,
    Rule::K02,
    Rule::K03,
    Rule::K04,
    Rule::K05,
    Rule::K06,
    Rule::K07,
    Rule::L01,
    Rule::U01,
    Rule::F15,
    Rule::F16,
    Rule::F17,
    Rule::F18,
    Rule::F19,
    Rule::F20,
    Rule::F21,
    Rule::Z12,
    Rule::Z13,
    Rule::Z14,
    Rule::Z15,
    Rule::Z16,
    Rule::Z17,
    Rule::Z18,
    Rule::Z19,
    Rule::H05,
    Rule::H06,
    Rule::H07,
    Rule::O05,
    Rule::O06,
    Rule::O07,
    Rule::O08,
    Rule::W03,
    Rule::F22,
    Rule::F23,
    Rule::F24,
    Rule::F25,
    Rule::F26,
    Rule::F27,
    Rule::F28,
    Rule::F29,
    Rule::P04,
    Rule::P05,
    Rule::P06,
    Rule::P07,
    Rule::P08,
    Rule::P09,
    Rule::P10,
    Rule::P11,
    Rule::H08,
    Rule::H09,
    Rule::H10,
];

/// All rules, in the order of their numbers.
pub fn all_rules() -> &'static [Rule; RULE_COUNT]
    ensures { result.now ≡ rules }
{
    &RULES
}

// By its number: a set that has rules as members is written down by their numbers.
impl PartialEq for Rule {
    ghost eq = { on number_of nat_eq };

    ghost laws = { Prim.search (comparing, common.rules) };

    fn eq(&self, other: &Rule) -> bool {
        self.number() == other.number()
    }
}

impl Eq for Rule {
    ghost laws = { Prim.search (comparing, common.rules) };
}

impl Hash for Rule {
    ghost hash_input = { λ rule. fed.u8 (number_of rule) };

    ghost respects_eq = { Prim.search (hashing, common.rules) };

    fn hash<H: Hasher>(&self, state: &mut H) {
        state.write_u8(self.number());
    }
}
