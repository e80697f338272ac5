//! How often each kind of a font's faults was found.

ghost use Rattle.std.specs.Prelude.{◌≡◌, ◌<◌, ◌+◌, ◌^◌, ℕ, IfOk, List, OnOk};
ghost use Rattle.t1_many.specs.Counts.{count_in, counted_more, kind_counts, text_counts};
ghost use Rattle.t1_many.specs.Kinds.{kind_value};
ghost use Rattle.t1_many.specs.KnownFaults.{counts_of};
ghost use Rattle.t1_many.specs.Outcomes.{IsRead};
ghost use Rattle.t1_many.specs.Private.Counts.{CountsReport};
ghost use Rattle.t1_many.specs.Readings.{counts_in};
ghost use Rattle.t1_report.specs.Checked.{checked};
ghost use Rattle.t1_rules.specs.Components.{AreOf};

use crate::kinds::{Kind, kind_of, push_kind};
use indexmap::IndexMap;
use std::alloc::{AllocError, Global};
use t1_font::Font;
use t1_report::{
    Waivers, Walk, each_font_has_a_report, faults_after_the_first_mark_are_the_report,
    marks_count_the_faults_given,
};
use t1_rules::{Mask, Sidebearings};

/// How often faults of each kind were found in a font, in the order of their first faults.
pub(crate) type Kinds<'a> = IndexMap<Kind<'a>, u64>;

/// The same by the kinds' texts, as rows of known faults name them: `H02 glyph A`, `Z04 font BlueValues`,
/// `U01 waiver A P01`.
pub type Counts = IndexMap<Vec<u8>, u64>;

/// How often a kind was counted.
#[tactic(auto, using(crate::proofs::KindMaps::count_now))]
pub(crate) fn count_of(counts: &Kinds<'_>, kind: &Kind<'_>) -> u64
    ensures { result ≡ count_in (kind_counts counts.now.entries) (kind_value kind.now) }
{
    counts.get(kind).copied().unwrap_or(0)
}

/// Counts a kind once more.
fn count_more<'a>(counts: &mut Kinds<'a>, kind: &Kind<'a>) -> Result<(), AllocError>
    requires { count_in (kind_counts counts.old.entries) (kind_value kind.now) + 1 < 2 ^ 64 }
    ensures { OnOk result (kind_counts counts.new.entries ≡ counted_more (kind_counts counts.old.entries) (kind_value kind.now)) }
{
    let next = count_of(counts, kind) + 1;
    counts.insert(*kind, next)?;
    Ok(())
}

/// Counts the kinds of the faults whose rules are reported, in a font's whole report.
pub(crate) fn count_kinds<'a>(
    alloc: Global,
    font: &'a Font<'a>,
    sidebearings: &'a Sidebearings,
    waivers: &'a Waivers<'a>,
    rules: Mask,
) -> Result<Kinds<'a>, AllocError>
    requires read { IsRead font.now waivers.now }
    requires sidebearings { AreOf font.now sidebearings.now }
    ensures { IfOk result (λ counts.
        CountsReport rules (checked font.now sidebearings.now.edition) waivers.now (kind_counts counts.entries)) }
{
    // The calls of laws do nothing: the proof cites what they ensure.
    each_font_has_a_report();
    faults_after_the_first_mark_are_the_report();
    marks_count_the_faults_given();
    let mut walk = Walk::begin(font, sidebearings, waivers);
    let mut counts = IndexMap::new(alloc);
    for _fault in 0..u64::MAX {
        let Some(fault) = walk.next() else {
            break;
        };
        if rules.has(fault.rule) {
            count_more(&mut counts, &kind_of(font, waivers, &fault))?;
        }
    }
    Ok(counts)
}

/// How often kinds were found, by their texts.
pub(crate) fn count_texts(alloc: Global, found: &Kinds<'_>) -> Result<Counts, AllocError>
    ensures { IfOk result (λ counts. (kinds : List (List ℕ)) → text_counts (kind_counts found.now.entries) ≡ counts_of kinds
        → counts_in counts.entries ≡ counts_of kinds) }
{
    let mut counts = IndexMap::new(alloc);
    for place in 0..found.len() {
        let Some((kind, count)) = found.get_index(place) else {
            break;
        };
        let mut text = Vec::new(alloc);
        push_kind(&mut text, kind)?;
        counts.insert(text, *count)?;
    }
    Ok(counts)
}
