//! Shows the next fault of a font, and why its rule is broken: `example FONT MARK`, and one fault more each time it runs. The
//! file MARK keeps the mark of the fault that was shown last, four numbers; where it isn't there, the first fault is shown.
//!
//! Its line in crates.txt: `example: t1_io t1_char t1_font t1_rules t1_report t1_reasons t1_reason_texts thiserror`
#![tactic(auto)]

ghost use Rattle.t1_rules.specs.Components.{AreOf};

use std::alloc::AllocError;
use std::{env, fs, io};
use t1_char::Edition;
use t1_font::{Font, OpenFont, Unread};
use t1_io::{Broken, Out};
use t1_reason_texts::{ReasonText, says_more};
use t1_reasons::{GlyphReasons, Reason, font_reason};
use t1_report::{Fault, Mark, Waivers, Walk, write_fault};
use t1_rules::{INDEXES, Sidebearings};
use thiserror::Error;

/// Why no fault is shown.
#[derive(Debug, Drop, Error)]
enum Failure {
    #[error("example FONT MARK")]
    Usage,
    #[error("{0}")]
    Unread(#[from] Unread),
    #[error("{0}")]
    Device(#[from] io::Error),
    #[error("write failed")]
    Broken(#[from] Broken),
    #[error("out of memory")]
    Memory(#[from] AllocError),
}

/// The mark that a text says, four numbers: how many faults came up to it, its unit, its step, its rule.
fn mark_in(text: &str) -> Option<Mark> {
    let mut numbers = text.split_whitespace();
    Some(Mark {
        number: numbers.next()?.parse().ok()?,
        unit: numbers.next()?.parse().ok()?,
        step: numbers.next()?.parse().ok()?,
        rule: numbers.next()?.parse().ok()?,
    })
}

/// Why the rule of a fault is broken there.
fn reason_of<'a>(font: &'a Font<'a>, sidebearings: &Sidebearings, fault: &Fault) -> Option<Reason>
    requires { AreOf font.now sidebearings.now }
{
    if fault.unit == 0 {
        let key = u8::try_from(fault.step / INDEXES).ok()?;
        return font_reason(
            font,
            fault.rule,
            key,
            fault.step % INDEXES,
            sidebearings.edition(),
        );
    }
    let glyph = fault.unit as usize - 1;
    if glyph >= font.glyphs().len() {
        return None;
    }
    let mut reasons = GlyphReasons::start(font, glyph, sidebearings.edition());
    reasons.reason(sidebearings, fault.step, fault.rule)
}

/// Writes why the rule of a fault is broken, if that says more than its line.
fn show_reason(
    rt: &HostRuntime,
    font: &Font<'_>,
    sidebearings: &Sidebearings,
    fault: &Fault,
) -> Result<(), Failure>
    requires { AreOf font.now sidebearings.now }
{
    let rule = fault.rule;
    if let Some(reason) = reason_of(&*font, sidebearings, fault) {
        if says_more(reason) {
            println!(rt; "   {}", ReasonText { font, rule, reason })?;
        }
    }
    Ok(())
}

/// Writes the line of the fault after a mark, and returns the mark of that fault; None where there is no more.
fn show_next(rt: &HostRuntime, font: &Font<'_>, mark: Mark) -> Result<Option<Mark>, Failure> {
    let waivers = Waivers::none();
    let sidebearings = Sidebearings::prepare(rt.alloc(), font, Edition::One)?;
    let mut walk = Walk::resume(font, &sidebearings, &waivers, mark);
    let fault = walk.next();
    match fault {
        Some(fault) => {
            write_fault(&mut Out::new(rt.stdout()), font, &waivers, &fault)?;
            show_reason(rt, font, &sidebearings, &fault)?;
        }
        None => return Ok(None),
    }
    Ok(Some(walk.mark()))
}

fn main(rt: HostRuntime) -> Result<(), Failure> {
    let words = env::args(&rt)?.collect::<Vec<String>>(rt.alloc())?;
    let [_, name, kept] = words.as_slice() else {
        return Err(Failure::Usage);
    };
    let mark = match fs::read_to_string(&rt, kept.as_str()) {
        Ok(text) => mark_in(text.as_str()).unwrap_or_default(),
        Err(_) => Mark::default(),
    };
    let bytes = fs::read(&rt, name.as_str())?;
    let mut file = OpenFont::open(rt.alloc(), bytes.as_slice())?;
    let font = file.font(rt.alloc())?;
    let shown = show_next(&rt, &font, mark);
    font.let_go();
    if let Some(mark) = shown? {
        let text = format!(in rt.alloc();
            "{} {} {} {}\n",
            mark.number, mark.unit, mark.step, mark.rule
        )?;
        fs::write(&rt, kept.as_str(), text.as_str())?;
    }
    Ok(())
}
