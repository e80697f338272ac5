//! The text of a reason.

ghost use Rattle.std.specs.Prelude.{◌≡◌, Some, IfOk, option_map};
ghost use Rattle.t1_reason_texts.specs.Texts.{drawing_reason_text, font_reason_text, numbers_reason_text, outline_reason_text, reason_text, says_more, shown_text};

use crate::decimals::{Coordinates, Exact, Unit, coordinate, value};
use crate::drawing_texts::{BeyondText, OutsideText, StrokeText, TurnsText, UntouchedText};
use crate::font_texts::{
    EntryText, FoundText, SubrEntryText, encoded_name, form_words, has_two, says_last,
};
use crate::names::ShownName;
use crate::seac_texts::{CodeText, SidebearingsText, is_meant};
use crate::step_texts::{
    MiddlesText, QuotientText, SpanText, StemsText, TokenText, WidthsText, WritingText,
    are_same_points, bound_words, call_words, comes_next, extent, is_there, middle_that_does,
    needed_pairs, off_words, or_more, says_width, says_writing, since_after, since_before,
    since_none,
};
use crate::word_texts::WordReasonText;
use crate::words::{Are, Arguments, Counted, small_coordinate};
use crate::zone_texts::{
    GapText, NeededText, NumberText, WidthText, WouldDo, ZoneText, ZonesText, from_zero, says_twice,
};
use arrayvec::ArrayString;
use std::fmt;
use std::fmt::Write;
use t1_char::{CharToken, command_name};
use t1_drawing::end_of;
use t1_font::Font;
use t1_reasons::{EntryKind, Reason, Unused, fuzz_across, fuzz_that_does, scale_that_does};
use t1_rules::Rule;

/// Why a rule is broken at a place, written by `Display`: one line, without its end, in the font's units.
#[derive(Clone, Copy)]
pub struct ReasonText<'a, 'b> {
    /// The font, for the names of its glyphs and of its Encoding.
    pub font: &'a Font<'b>,
    /// The rule that is broken.
    pub rule: Rule,
    /// Why it is.
    pub reason: Reason,
}

/// Whether a reason has a text: `Nothing` has none.
pub fn says_more(reason: Reason) -> bool
    ensures { result ≡ says_more reason }
{
    !matches!(reason, Reason::Nothing)
}

/// The text of a reason, in memory of its own: no text is longer.
pub type ShortText = ArrayString<512>;

/// Returns the text of a reason. No text is too long, so it fails for none.
pub fn short_text(font: &Font<'_>, rule: Rule, reason: Reason) -> Result<ShortText, fmt::Error>
    ensures { IfOk result (λ text. text.bytes ≡ reason_text font.now rule reason) }
{
    let mut text = ShortText::new();
    let reason = ReasonText { font, rule, reason };
    write!(text, "{reason}")?;
    Ok(text)
}

/// Returns the text that is shown behind a line: None where there is no reason, or where it adds nothing.
pub fn shown_text(
    font: &Font<'_>,
    rule: Rule,
    reason: Option<Reason>,
) -> Result<Option<ShortText>, fmt::Error>
    ensures { IfOk result (λ text. option_map (λ t. t.bytes) text ≡ shown_text font.now rule reason) }
{
    match reason {
        Some(reason) if says_more(reason) => Ok(Some(short_text(font, rule, reason)?)),
        _ => Ok(None),
    }
}

impl fmt::Display for ReasonText<'_, '_> {
    ghost output = { λ t. Some (reason_text t.font.now t.rule t.reason) };

    #[tactic(auto, unfolding(crate::specs::Texts::reason_text))]
    fn fmt<W: fmt::Write>(&self, f: &mut fmt::Formatter<W>) -> fmt::Result {
        let rule = self.rule;
        match self.reason {
            Reason::Count {
                command,
                taken,
                there,
            } => {
                let name = command_name(command);
                let numbers = Counted(usize::from(taken), "number");
                let more = or_more(command);
                let are = Are(there);
                write!(f, "{name} takes {numbers}{more}, {are} on the stack")
            }
            Reason::Full { token, there } => {
                let token = TokenText(token);
                let numbers = Counted(usize::from(there), "number");
                write!(f, "{token} after {numbers}, 24 at most")
            }
            Reason::Length { bytes, len_iv } => {
                let bytes = Counted(bytes, "byte");
                write!(f, "{bytes}, lenIV is {len_iv}")
            }
            Reason::Ending { subr } => write!(f, "Subr {subr} ends"),
            Reason::Behind { next } => {
                let comes = comes_next(next);
                let next = TokenText(next);
                write!(f, "{next}{comes}")
            }
            Reason::Argument { place, number } => {
                let bound = bound_words(number);
                let number = coordinate(number);
                write!(f, "argument {place} is {number}, {bound}")
            }
            Reason::Quotient { dividend, divisor } => {
                let text = QuotientText { dividend, divisor };
                write!(f, "{text}")
            }
            Reason::Depth { calls } => {
                if calls == 0 {
                    write!(f, "no Subr is being executed")
                } else if calls == 1 {
                    write!(f, "1 Subr is being executed")
                } else {
                    write!(f, "{calls} Subrs are being executed")
                }
            }
            Reason::Subr { number, found } => {
                let number = coordinate(number);
                if found {
                    write!(f, "Subr {number}")
                } else {
                    write!(f, "there is no Subr {number}")
                }
            }
            Reason::Token { token } => {
                let there = is_there(rule, token);
                let token = TokenText(token);
                write!(f, "{token}{there}")
            }
            Reason::Since { step } => match step {
                Some(step) => {
                    let before = since_before(rule);
                    let after = since_after(rule);
                    write!(f, "{before}{step}{after}")
                }
                None => {
                    let none = since_none(rule);
                    write!(f, "{none}")
                }
            },
            Reason::Othersubr { number, count } => {
                let words = call_words(rule, number);
                let number = coordinate(number);
                let arguments = Arguments(count);
                write!(f, "OtherSubr {number} with {arguments}{words}")
            }
            Reason::Arguments { count, there } => {
                let count = coordinate(count);
                let are = Are(there);
                write!(f, "the count is {count}, {are} there")
            }
            _ => {
                let text = OutlineReasonText(*self);
                write!(f, "{text}")
            }
        }
    }
}

/// The text of a reason that speaks of points, of stems or of an accented character, or of a later one.
#[derive(Clone, Copy)]
struct OutlineReasonText<'a, 'b>(ReasonText<'a, 'b>);

impl fmt::Display for OutlineReasonText<'_, '_> {
    ghost output = { λ t. Some (outline_reason_text t.0.font.now t.0.rule t.0.reason) };

    #[tactic(auto, unfolding(crate::specs::Texts::outline_reason_text))]
    fn fmt<W: fmt::Write>(&self, f: &mut fmt::Formatter<W>) -> fmt::Result {
        let ReasonText { font, rule, reason } = self.0;
        match reason {
            Reason::Pairs {
                moves,
                points,
                ends,
            } => {
                let needed = needed_pairs(ends, points < moves);
                let moves = Counted(moves as usize, "move");
                let points = Counted(points as usize, "point");
                write!(f, "{moves} and {points}{needed}")
            }
            Reason::Open { start, pen } => {
                if are_same_points(start, pen) {
                    write!(f, "ends where it began, without closepath")
                } else {
                    let start = Coordinates(start);
                    let pen = Coordinates(pen);
                    write!(f, "from {start} to {pen}")
                }
            }
            Reason::Stems { own, other } => {
                let stems = StemsText(rule, own, other);
                write!(f, "{stems}")
            }
            Reason::Stem { stem } => {
                if says_width(rule) {
                    let span = SpanText(stem);
                    let width = extent(stem);
                    write!(f, "the stem from {span} is {width} wide")
                } else if says_writing(rule) {
                    let text = WritingText(stem);
                    write!(f, "{text}")
                } else {
                    let position = small_coordinate(stem.position);
                    write!(f, "the stem is at {position}")
                }
            }
            Reason::Triple { one, two, three } => {
                let widths = WidthsText(one, two, three);
                let middles = MiddlesText(one, two, three);
                let off = off_words(one, two, three);
                let does = WouldDo("middle", middle_that_does(one, three));
                write!(f, "widths {widths}, middles {middles}{off}{does}")
            }
            Reason::Miss { named, pen } => {
                let named = Coordinates(named);
                let pen = Coordinates(pen);
                write!(f, "the pen is at {pen}, the end names {named}")
            }
            Reason::Codes { base, accent } => {
                let is_base = is_meant(font, rule, base);
                let is_accent = is_meant(font, rule, accent);
                let base = CodeText(rule, base);
                let accent = CodeText(rule, accent);
                if is_base && !is_accent {
                    write!(f, "the base's {base}")
                } else if is_accent && !is_base {
                    write!(f, "the accent's {accent}")
                } else {
                    write!(f, "the base's {base} and the accent's {accent}")
                }
            }
            Reason::Sidebearings { told, own } => {
                let text = SidebearingsText { told, own };
                write!(f, "{text}")
            }
            _ => {
                let text = DrawingReasonText(self.0);
                write!(f, "{text}")
            }
        }
    }
}

/// The text of a reason that speaks of the drawing, or of a later one.
#[derive(Clone, Copy)]
struct DrawingReasonText<'a, 'b>(ReasonText<'a, 'b>);

impl fmt::Display for DrawingReasonText<'_, '_> {
    ghost output = { λ t. Some (drawing_reason_text t.0.font.now t.0.rule t.0.reason) };

    #[tactic(auto, unfolding(crate::specs::Texts::drawing_reason_text))]
    fn fmt<W: fmt::Write>(&self, f: &mut fmt::Formatter<W>) -> fmt::Result {
        match self.0.reason {
            Reason::Outside { point, font_box } => {
                let text = OutsideText(point, font_box);
                write!(f, "{text}")
            }
            Reason::Area { twentyfold, turns } => {
                let area = Exact::new(twentyfold, Unit::Area);
                let turns = TurnsText(turns);
                write!(f, "the area is {area}; {turns}")
            }
            Reason::Stroke {
                line_start,
                start,
                segment,
            } => {
                let text = StrokeText {
                    rule: self.0.rule,
                    line_start,
                    start,
                    end: end_of(segment),
                };
                write!(f, "{text}")
            }
            Reason::Beyond {
                direction,
                quarters,
                place,
                start,
                end,
            } => {
                let text = BeyondText {
                    direction,
                    quarters,
                    place,
                    start,
                    end,
                };
                write!(f, "{text}")
            }
            Reason::Untouched {
                stem,
                step,
                nearest,
            } => {
                let text = UntouchedText {
                    stem,
                    step,
                    nearest,
                };
                write!(f, "{text}")
            }
            _ => {
                let text = FontReasonText(self.0);
                write!(f, "{text}")
            }
        }
    }
}

/// The text of a reason that speaks of the font and its entries, of a charstring as a whole, or of a waiver, or of a later one.
#[derive(Clone, Copy)]
struct FontReasonText<'a, 'b>(ReasonText<'a, 'b>);

impl fmt::Display for FontReasonText<'_, '_> {
    ghost output = { λ t. Some (font_reason_text t.0.font.now t.0.rule t.0.reason) };

    #[tactic(auto, unfolding(crate::specs::Texts::font_reason_text))]
    fn fmt<W: fmt::Write>(&self, f: &mut fmt::Formatter<W>) -> fmt::Result {
        let ReasonText { font, rule, reason } = self.0;
        match reason {
            Reason::Limit { steps } => write!(f, "more than {steps} steps"),
            Reason::Entry { found } => {
                if says_last(rule) {
                    let found = FoundText(found);
                    write!(f, "the last one is taken; {found}")
                } else {
                    let entry = EntryText(rule, found);
                    write!(f, "{entry}")
                }
            }
            Reason::Ids { clear, private } => {
                let clear = value(clear);
                let private = value(private);
                write!(f, "{clear} in the clear text, {private} in Private")
            }
            Reason::Features { found, one, two } => {
                if has_two(found) {
                    let one = value(one);
                    let two = value(two);
                    write!(f, "it is {{{one} {two}}}")
                } else {
                    let found = FoundText(found);
                    write!(f, "{found}")
                }
            }
            Reason::Glyphs { count } => {
                if count == 0 {
                    write!(f, "there is no glyph")
                } else if count == 1 {
                    write!(f, "the only glyph has another name")
                } else {
                    write!(f, "none of {count} glyphs")
                }
            }
            Reason::Form { encoding } => {
                let form = form_words(encoding);
                if says_last(rule) {
                    write!(f, "the last one is taken; {form}")
                } else {
                    write!(f, "{form}")
                }
            }
            Reason::SubrEntry {
                number,
                twice,
                size,
            } => {
                let text = SubrEntryText {
                    number,
                    twice,
                    is_past: !(number < size),
                    size,
                };
                write!(f, "{text}")
            }
            Reason::Kind { found, wanted } => {
                let found = FoundText(found);
                match wanted {
                    EntryKind::Number => write!(f, "{found}; a number is needed"),
                    EntryKind::Numbers => write!(f, "{found}; a list of numbers is needed"),
                }
            }
            Reason::Glyph { glyph } => {
                let name = ShownName(font.glyph_name(glyph as usize));
                write!(f, "the glyph is {name}")
            }
            Reason::Code { code } => {
                let name = ShownName(encoded_name(font, code));
                write!(f, "code {code} names {name}")
            }
            Reason::LastToken { token } => match token {
                None => write!(f, "it is empty"),
                Some(CharToken::Short) => write!(f, "it is shorter than lenIV"),
                Some(token) => {
                    let token = TokenText(token);
                    write!(f, "it ends with {token}")
                }
            },
            Reason::Waiver { unused } => match unused {
                Unused::NoGlyph => write!(f, "no glyph has this name"),
                Unused::Unbroken { .. } => write!(f, "no step of the glyph breaks this rule"),
            },
            _ => {
                let text = NumbersReasonText(self.0);
                write!(f, "{text}")
            }
        }
    }
}

/// The text of a reason that speaks of the numbers of an entry, or of a later one.
#[derive(Clone, Copy)]
struct NumbersReasonText<'a, 'b>(ReasonText<'a, 'b>);

impl fmt::Display for NumbersReasonText<'_, '_> {
    ghost output = { λ t. Some (numbers_reason_text t.0.font.now t.0.rule t.0.reason) };

    #[tactic(auto, unfolding(crate::specs::Texts::numbers_reason_text))]
    fn fmt<W: fmt::Write>(&self, f: &mut fmt::Formatter<W>) -> fmt::Result {
        let ReasonText { font, rule, reason } = self.0;
        match reason {
            Reason::TooMany { count, most } => {
                let numbers = Counted(count, "number");
                write!(f, "{numbers}, {most} at most")
            }
            Reason::Numbers { count } => {
                let numbers = Counted(count, "number");
                write!(f, "{numbers}")
            }
            Reason::Following { before, number } => {
                let number = value(number);
                if says_twice(rule) {
                    write!(f, "{number} comes twice")
                } else {
                    let before = value(before);
                    write!(f, "{number} comes after {before}")
                }
            }
            Reason::Corners { first, last } => {
                let first = value(first);
                let last = value(last);
                write!(f, "{first} is above {last}")
            }
            Reason::Number { number } => {
                let number = NumberText(rule, number);
                write!(f, "{number}")
            }
            Reason::Gap {
                upper,
                lower,
                distance,
            } => {
                let gap = GapText {
                    upper,
                    lower,
                    distance,
                };
                let does = WouldDo("BlueFuzz", from_zero(fuzz_that_does(font)));
                write!(f, "{gap}{does}")
            }
            Reason::Zones {
                own,
                other,
                distance,
            } => {
                let zones = ZonesText(own, other);
                let needed = NeededText(distance);
                let does = WouldDo("BlueFuzz", from_zero(fuzz_across(font)));
                write!(f, "{zones}{needed}{does}")
            }
            Reason::Zone {
                lower,
                upper,
                scale,
            } => {
                let zone = ZoneText {
                    lower,
                    upper,
                    scale,
                };
                let does = WouldDo("BlueScale", from_zero(scale_that_does(font)));
                write!(f, "{zone}{does}")
            }
            Reason::Width { width, nearest } => {
                let text = WidthText { width, nearest };
                write!(f, "{text}")
            }
            _ => {
                let text = WordReasonText(self.0);
                write!(f, "{text}")
            }
        }
    }
}
