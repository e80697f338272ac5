//! A report that is returned one fault at a time: the whole of it, and what is left after a mark. No chapter of the
//! standard has marks.

ghost use Rattle.t1_rules.specs.Components.{AreOf};

use std::alloc::{AllocError, Global};
use std::test::Fail;
use t1_char::Edition;
use t1_font::Font;
use t1_report::{Fault, Mark, Waivers, Walk, report};
use t1_rules::{Sidebearings, rule_code};

/// A walk of this font returns its report, and one that is resumed after each of its faults returns the rest.
pub(super) fn assert_walks(alloc: Global, font: &Font<'_>) -> Result<(), Fail> {
    let faults = report(alloc, font, &Waivers::none(), Edition::One)?;
    match is_walked(alloc, font, faults.as_slice())? {
        true => Ok(()),
        false => Err(Fail::from("a walk, or one from a mark, isn't the report")),
    }
}

/// Whether a walk of this font returns these faults, and one that is resumed after each of them the rest.
fn is_walked(alloc: Global, font: &Font<'_>, faults: &[Fault]) -> Result<bool, AllocError> {
    let sidebearings = Sidebearings::prepare(alloc, font, Edition::One)?;
    Ok(returns_all(&*font, &sidebearings, faults))
}

fn returns_all<'a>(font: &'a Font<'a>, sidebearings: &'a Sidebearings, faults: &[Fault]) -> bool
    requires { AreOf font.now sidebearings.now }
{
    if !returns_faults(font, sidebearings, FIRST, faults) {
        return false;
    }
    for place in 0..faults.len() {
        let (given, rest) = faults.split_at(place + 1);
        if !goes_on(font, sidebearings, given, rest) {
            return false;
        }
    }
    true
}

/// The mark before all faults.
const FIRST: Mark = Mark {
    number: 0,
    unit: 0,
    step: 0,
    rule: 0,
};

/// Whether after the last of the faults that were returned the others follow.
fn goes_on<'a>(
    font: &'a Font<'a>,
    sidebearings: &'a Sidebearings,
    given: &[Fault],
    rest: &[Fault],
) -> bool
    requires { AreOf font.now sidebearings.now }
{
    match given.last() {
        Some(fault) => {
            let mark = Mark {
                number: fault.number,
                unit: fault.unit,
                step: fault.step,
                rule: fault.rule.number(),
            };
            returns_faults(font, sidebearings, mark, rest)
        }
        None => false,
    }
}

/// How many faults a font of these tests has at most.
const MOST_FAULTS: u32 = 65_536;

/// The faults that a walk returns, and how often it requested steps.
pub(super) fn walked(
    alloc: Global,
    font: &Font<'_>,
    waivers: &Waivers<'_>,
    edition: Edition,
) -> Result<(Vec<Fault>, u64), Fail> {
    let sidebearings = Sidebearings::prepare(alloc, font, edition)?;
    if sidebearings.edition() != edition {
        return Err(Fail::from("another edition"));
    }
    all_returned(alloc, &*font, &sidebearings, &*waivers)
}

/// The faults of a font's report, which a walk returns too.
pub(super) fn both(
    alloc: Global,
    font: &Font<'_>,
    waivers: &Waivers<'_>,
    edition: Edition,
) -> Result<Vec<Fault>, Fail> {
    let faults = report(alloc, font, waivers, edition)?;
    let (given, _turns) = walked(alloc, font, waivers, edition)?;
    if given.as_slice() != faults.as_slice() {
        return Err(Fail::from("a walk isn't the report"));
    }
    Ok(faults)
}

/// The faults up to the answer that there is none more, which is returned again, and how often steps were requested.
fn all_returned<'a>(
    alloc: Global,
    font: &'a Font<'a>,
    sidebearings: &'a Sidebearings,
    waivers: &'a Waivers<'a>,
) -> Result<(Vec<Fault>, u64), Fail>
    requires { AreOf font.now sidebearings.now }
{
    let mut walk = Walk::begin(font, sidebearings, waivers);
    if walk.mark() != FIRST || walk.turns() != 0 {
        return Err(Fail::from("a walk doesn't begin before all faults"));
    }
    let faults = returned_by(alloc, &mut walk);
    with_turns(faults, walk.next().is_some(), walk.turns())
}

/// The faults of a walk up to the answer that there is none more.
fn returned_by(alloc: Global, walk: &mut Walk<'_>) -> Result<Vec<Fault>, AllocError> {
    let mut faults = Vec::new(alloc);
    for _call in 0..=MOST_FAULTS {
        match walk.next() {
            Some(fault) => faults.push(fault)?,
            None => break,
        }
    }
    Ok(faults)
}

/// Faults and how often steps were requested, unless there are more.
pub(super) fn with_turns(
    faults: Result<Vec<Fault>, AllocError>,
    more: bool,
    turns: u64,
) -> Result<(Vec<Fault>, u64), Fail> {
    if more {
        return Err(Fail::from("more faults, or one after the last"));
    }
    Ok((faults?, turns))
}

/// Whether just these faults are after a mark.
fn returns_faults<'a>(
    font: &'a Font<'a>,
    sidebearings: &'a Sidebearings,
    mark: Mark,
    faults: &[Fault],
) -> bool
    requires { AreOf font.now sidebearings.now }
{
    let waivers = Waivers::none();
    let mut walk = Walk::resume(&*font, &*sidebearings, &waivers, mark);
    returns_just(&mut walk, faults)
}

fn returns_just(walk: &mut Walk<'_>, faults: &[Fault]) -> bool {
    for fault in faults {
        if walk.next().as_ref() != Some(fault) {
            return false;
        }
    }
    walk.next().is_none() && walk.next().is_none()
}

/// A unit, a step, and the number of a rule.
pub(super) type Place = (u32, u32, u8);

/// The mark of a number and a place.
pub(super) fn mark_at(number: u64, place: Place) -> Mark {
    let (unit, step, rule) = place;
    Mark {
        number,
        unit,
        step,
        rule,
    }
}

/// What is written of the answers of a walk.
#[derive(Clone, Copy)]
pub(super) enum Shown {
    /// A fault's number, its rule, and how often steps were requested.
    Turns,
    /// A fault's rule, and the mark after it.
    Marks,
}

/// So many answers of a walk after a mark.
pub(super) fn answers_after(
    alloc: Global,
    font: &Font<'_>,
    waivers: &Waivers<'_>,
    mark: Mark,
    shown: Shown,
    count: u32,
) -> Result<String, Fail> {
    let sidebearings = Sidebearings::prepare(alloc, font, Edition::One)?;
    answers_by(alloc, &*font, &sidebearings, &*waivers, mark, shown, count)
}

fn answers_by<'a>(
    alloc: Global,
    font: &'a Font<'a>,
    sidebearings: &'a Sidebearings,
    waivers: &'a Waivers<'a>,
    mark: Mark,
    shown: Shown,
    count: u32,
) -> Result<String, Fail>
    requires { AreOf font.now sidebearings.now }
{
    let mut walk = Walk::resume(font, sidebearings, waivers, mark);
    match walk.mark() == mark {
        true => Ok(answers_of(alloc, &mut walk, shown, count)?),
        false => Err(Fail::from("another mark")),
    }
}

fn answers_of(
    alloc: Global,
    walk: &mut Walk<'_>,
    shown: Shown,
    count: u32,
) -> Result<String, AllocError> {
    let mut text = String::new(alloc);
    for _call in 0..count {
        push_answer(alloc, &mut text, walk, shown)?;
    }
    Ok(text)
}

/// Adds the next answer.
fn push_answer(
    alloc: Global,
    text: &mut String,
    walk: &mut Walk<'_>,
    shown: Shown,
) -> Result<(), AllocError> {
    let fault = walk.next();
    match shown {
        Shown::Turns => push_turns(alloc, text, fault, walk.turns()),
        Shown::Marks => push_mark(alloc, text, fault, walk.mark()),
    }
}

/// Adds a fault's number and rule, or `none`, and how often steps were requested.
fn push_turns(
    alloc: Global,
    text: &mut String,
    fault: Option<Fault>,
    turns: u64,
) -> Result<(), AllocError> {
    if let Some(fault) = &fault {
        push_number(alloc, text, fault.number)?;
        text.push_str(" ")?;
    }
    text.push_str(code_of(&fault))?;
    text.push_str(" ")?;
    push_number(alloc, text, turns)?;
    text.push_str(", ")
}

/// Adds a number in digits.
fn push_number(alloc: Global, text: &mut String, number: u64) -> Result<(), AllocError> {
    let digits = format!(in alloc; "{number}")?;
    text.push_str(digits.as_str())
}

/// Adds a fault's rule, or `none`, and a mark.
fn push_mark(
    alloc: Global,
    text: &mut String,
    fault: Option<Fault>,
    mark: Mark,
) -> Result<(), AllocError> {
    text.push_str(code_of(&fault))?;
    for number in [
        mark.number,
        mark.unit as u64,
        mark.step as u64,
        mark.rule as u64,
    ] {
        text.push_str(" ")?;
        push_number(alloc, text, number)?;
    }
    text.push_str(", ")
}

/// The code of a fault's rule, or `none`.
fn code_of(fault: &Option<Fault>) -> &'static str {
    match fault {
        Some(fault) => rule_code(fault.rule),
        None => "none",
    }
}
