//! The rule book: each rule with its number, its level, its code and its text.

ghost use Rattle.std.specs.Prelude.{◌≡◌, ◌⊎◌, ◌<◌, IfNone, IfSome, map};
ghost use Rattle.t1_rules.specs.Private.BookRows.{row_coded, row_view, rows};
ghost use Rattle.t1_rules.specs.Book.{code_of, last_number, level_of, number_of, text_of};

use crate::level::Level;
use crate::rule::{RULE_COUNT, Rule};

/// A rule with its level, its code and its text.
type Row = (Rule, Level, &'static str, &'static str);

/// The book, in the order of the rules' numbers, of which the first is 1.
static BOOK: [Row; RULE_COUNT] = [
    (Rule::F01, Level::Should, "F01", "no end segment"),
    (Rule::F02, Level::Tidy, "F02", "bytes after the end segment"),
    (Rule::F03, Level::Must, "F03", "FontType is not 1"),
    (Rule::F04, Level::Must, "F04", "PaintType is not 0 or 2"),
    (Rule::F05, Level::Must, "F05", "UniqueID out of range"),
    (Rule::F06, Level::Must, "F06", "UniqueIDs differ"),
    (Rule::F07, Level::Must, "F07", "password is not 5839"),
    (Rule::F08, Level::Must, "F08", "MinFeature is not {16 16}"),
    (Rule::F09, Level::Must, "F09", "no .notdef"),
    (Rule::F10, Level::Must, "F10", "glyph given twice"),
    (Rule::F11, Level::Must, "F11", "Encoding of another form"),
    (Rule::F12, Level::Must, "F12", "code past 255"),
    (Rule::F13, Level::Should, "F13", "encoded glyph missing"),
    (
        Rule::F14,
        Level::Must,
        "F14",
        "Subr given twice or past the array",
    ),
    (Rule::Z01, Level::Must, "Z01", "value of another kind"),
    (Rule::Z02, Level::Must, "Z02", "too many zone numbers"),
    (Rule::Z03, Level::Must, "Z03", "odd count of zone numbers"),
    (Rule::Z04, Level::Should, "Z04", "zone numbers fall"),
    (Rule::Z05, Level::Should, "Z05", "zones too near"),
    (
        Rule::Z06,
        Level::Should,
        "Z06",
        "zones of two lists too near",
    ),
    (
        Rule::Z07,
        Level::Should,
        "Z07",
        "zone too high for BlueScale",
    ),
    (Rule::Z08, Level::Must, "Z08", "not one standard width"),
    (Rule::Z09, Level::Must, "Z09", "too many stem snaps"),
    (Rule::Z10, Level::Should, "Z10", "stem snaps fall"),
    (
        Rule::Z11,
        Level::Should,
        "Z11",
        "standard width not among the snaps",
    ),
    (Rule::C01, Level::Must, "C01", "shorter than lenIV"),
    (Rule::C02, Level::Must, "C02", "breaks off in a token"),
    (Rule::C03, Level::Must, "C03", "unknown command"),
    (Rule::C04, Level::Must, "C04", "too few arguments"),
    (Rule::C05, Level::Must, "C05", "too many arguments"),
    (Rule::C06, Level::Must, "C06", "more than 24 numbers"),
    (Rule::C07, Level::Must, "C07", "number out of range"),
    (Rule::C08, Level::Must, "C08", "quotient out of range"),
    (Rule::C09, Level::Must, "C09", "division by zero"),
    (Rule::S01, Level::Must, "S01", "no such Subr"),
    (Rule::S02, Level::Must, "S02", "calls nested too deep"),
    (Rule::S03, Level::Must, "S03", "return outside a Subr"),
    (Rule::S04, Level::Must, "S04", "Subr without return"),
    (Rule::GE01, Level::Must, "GE01", "no endchar"),
    (Rule::GE02, Level::Tidy, "GE02", "tokens after the end"),
    (Rule::W01, Level::Must, "W01", "hsbw or sbw not first"),
    (Rule::W02, Level::Must, "W02", "hsbw or sbw again"),
    (Rule::P01, Level::Must, "P01", "drawing without a move"),
    (Rule::P02, Level::Should, "P02", "path not closed"),
    (Rule::P03, Level::Tidy, "P03", "closepath without a path"),
    (Rule::H01, Level::Should, "H01", "stem after drawing"),
    (Rule::H02, Level::Should, "H02", "stems overlap"),
    (Rule::H03, Level::Should, "H03", "stem of zero width"),
    (Rule::H04, Level::Should, "H04", "unequal stem3"),
    (
        Rule::R01,
        Level::Must,
        "R01",
        "no pop after hint replacement",
    ),
    (
        Rule::R02,
        Level::Must,
        "R02",
        "no callsubr after hint replacement",
    ),
    (Rule::X01, Level::Must, "X01", "flex inside flex"),
    (Rule::X02, Level::Must, "X02", "flex call outside flex"),
    (Rule::X03, Level::Must, "X03", "command inside flex"),
    (
        Rule::X04,
        Level::Must,
        "X04",
        "flex points are not seven pairs",
    ),
    (Rule::X05, Level::Must, "X05", "flex ends elsewhere"),
    (
        Rule::X06,
        Level::Must,
        "X06",
        "setcurrentpoint outside flex",
    ),
    (Rule::O01, Level::Must, "O01", "unknown OtherSubr"),
    (Rule::O02, Level::Must, "O02", "bad OtherSubr count"),
    (
        Rule::O03,
        Level::Must,
        "O03",
        "wrong count for this OtherSubr",
    ),
    (Rule::O04, Level::Must, "O04", "pop of nothing"),
    (Rule::K01, Level::Must, "K01", "seac code is not 0 to 255"),
    (
        Rule::K02,
        Level::Must,
        "K02",
        "seac code not in StandardEncoding",
    ),
    (Rule::K03, Level::Must, "K03", "seac component missing"),
    (Rule::K04, Level::Must, "K04", "seac of a seac"),
    (Rule::K05, Level::Must, "K05", "accent sidebearing differs"),
    (Rule::K06, Level::Must, "K06", "seac beside other commands"),
    (
        Rule::K07,
        Level::Must,
        "K07",
        "seac component without sidebearing",
    ),
    (Rule::L01, Level::Must, "L01", "step limit"),
    (Rule::U01, Level::Should, "U01", "waiver not used"),
    (
        Rule::F15,
        Level::Should,
        "F15",
        "FontMatrix is not six numbers",
    ),
    (
        Rule::F16,
        Level::Must,
        "F16",
        "FontBBox is not four numbers",
    ),
    (
        Rule::F17,
        Level::Should,
        "F17",
        "FontBBox has its corners exchanged",
    ),
    (Rule::F18, Level::Tidy, "F18", "XUID malformed"),
    (Rule::F19, Level::Tidy, "F19", "XUID number out of range"),
    (
        Rule::F20,
        Level::Should,
        "F20",
        "LanguageGroup is not 0 or 1",
    ),
    (Rule::F21, Level::Should, "F21", "Subr has no return"),
    (Rule::Z12, Level::Must, "Z12", "no BlueValues"),
    (
        Rule::Z13,
        Level::Should,
        "Z13",
        "standard width is not above 0",
    ),
    (Rule::Z14, Level::Should, "Z14", "zone number is not whole"),
    (Rule::Z15, Level::Should, "Z15", "stem snaps equal"),
    (
        Rule::Z16,
        Level::Tidy,
        "Z16",
        "no stem snap beside a standard width",
    ),
    (Rule::Z17, Level::Should, "Z17", "BlueScale out of range"),
    (Rule::Z18, Level::Should, "Z18", "BlueShift out of range"),
    (Rule::Z19, Level::Should, "Z19", "BlueFuzz out of range"),
    (Rule::H05, Level::Should, "H05", "stem below half a unit"),
    (Rule::H06, Level::Must, "H06", "stem beside stem3"),
    (Rule::H07, Level::Must, "H07", "another stem3"),
    (
        Rule::O05,
        Level::Must,
        "O05",
        "counter control not at the start",
    ),
    (Rule::O06, Level::Must, "O06", "counter control again"),
    (
        Rule::O07,
        Level::Must,
        "O07",
        "counter control leaves numbers",
    ),
    (Rule::O08, Level::Must, "O08", "counter control has no end"),
    (
        Rule::W03,
        Level::Must,
        "W03",
        "OtherSubr before hsbw or sbw",
    ),
    (
        Rule::F22,
        Level::Should,
        "F22",
        "byte above 126 in the clear text",
    ),
    (Rule::F23, Level::Should, "F23", "key given twice"),
    (Rule::F24, Level::Must, "F24", "charstring word not defined"),
    (
        Rule::F25,
        Level::Must,
        "F25",
        "brace or bracket without a partner",
    ),
    (Rule::F26, Level::Must, "F26", "unknown word"),
    (
        Rule::F27,
        Level::Must,
        "F27",
        "FontMatrix can't be inverted",
    ),
    (Rule::F28, Level::Must, "F28", "no Private dictionary"),
    (Rule::F29, Level::Must, "F29", "unusual first line"),
    (Rule::P04, Level::Should, "P04", "point outside FontBBox"),
    (Rule::P05, Level::Should, "P05", "outline runs clockwise"),
    (Rule::P06, Level::Tidy, "P06", "segment of no length"),
    (Rule::P07, Level::Tidy, "P07", "line turns back"),
    (Rule::P08, Level::Tidy, "P08", "line goes straight on"),
    (Rule::P09, Level::Tidy, "P09", "flat curve"),
    (Rule::P10, Level::Tidy, "P10", "no point at an extreme"),
    (Rule::P11, Level::Tidy, "P11", "move right behind a move"),
    (Rule::H08, Level::Should, "H08", "stem that nothing touches"),
    (Rule::H09, Level::Tidy, "H09", "stems share an edge"),
    (Rule::H10, Level::Tidy, "H10", "stem of negative width"),
];

/// The rows of the book.
pub(crate) fn rows() -> &'static [Row]
    ensures { map row_view result.now ≡ rows }
{
    &BOOK
}

/// The row of a rule.
fn row_of(rule: Rule) -> &'static Row
    ensures level { result.now.1 ≡ level_of rule }
    ensures code { result.now.2.now ≡ code_of rule }
    ensures text { result.now.3.now ≡ text_of rule }
{
    &rows()[usize::from(rule.number() - 1)]
}

/// How much a violation of a rule matters.
pub fn rule_level(rule: Rule) -> Level
    ensures { result ≡ level_of rule }
{
    row_of(rule).1
}

/// The code of a rule, as it is in a line of the report.
pub fn rule_code(rule: Rule) -> &'static str
    ensures { result.now ≡ code_of rule }
{
    row_of(rule).2
}

/// What is reported of a violation of a rule.
pub fn rule_text(rule: Rule) -> &'static str
    ensures { result.now ≡ text_of rule }
{
    row_of(rule).3
}

/// The rule of a number, if there is one.
pub(crate) fn rule_of(number: u8) -> Option<Rule>
    ensures some { IfSome result (λ rule. number_of rule ≡ number) }
    ensures none { IfNone result ((number ≡ 0) ⊎ (last_number < number)) }
{
    if number == 0 {
        return None;
    }
    match rows().get(usize::from(number - 1)) {
        Some(row) => Some(row.0),
        None => None,
    }
}

/// The rule of a code among rows, if there is one.
pub(crate) fn rule_in(rows: &[Row], code: &[u8]) -> Option<Rule>
    ensures { result ≡ row_coded code.now (map row_view rows.now) }
{
    for row in rows {
        if row.2.as_bytes() == code {
            return Some(row.0);
        }
    }
    None
}
