//! The rule book of Type 1 fonts: what may be wrong with a font, and where it is. Adobe Type 1 Font
//! Format 1.1, chapters 2 and 5 to 8, and Technical Notes 5015 and 5040.
//!
//! [`Rule`] has all rules, with their numbers, codes and texts. [`rule_level`] says how much each matters.
//! [`font_faults`] returns, as a [`Mask`], which rules a font breaks at a key and an index. A key is the file or an
//! entry of a dictionary ([`key_text`] names it). An index is 0 for what is said of the entry as a whole. Else it is
//! the place of a number in a list, a code, a Subr's number or a glyph's. [`places`] says how many indexes of a key
//! have to be tested.
//!
//! [`Watches`] sees the steps of a glyph one after another. It returns of each which rules on charstrings it breaks, as
//! far as the glyph's own steps decide. It is nine watchers as one: [`ArgumentWatcher`], [`CallWatcher`],
//! [`PathWatcher`], [`StemWatcher`], [`FlexWatcher`], [`OthersubrWatcher`], [`SeacWatcher`], and for the third edition
//! [`TripleWatcher`] and [`CounterWatcher`]. [`Watch`] is what watchers have in common. [`Sidebearings`] has the
//! components of accented characters. It returns of each step which of K03 to K05 and K07 it breaks.
//!
//! What is promised, for all fonts:
//!
//! - `font_faults` returns exactly the rules that the table in `specs/FontRules.antt` says are broken at that key and
//!   index. Numbers are compared exactly, in units of 10^-9 and their products.
//! - Of each step, given those before it, a watcher returns exactly those of its rules that the table in
//!   `specs/StepRules.antt` says are broken there. What it keeps is of a fixed size, and no list of steps.
//! - The same of `Sidebearings` and the four rules on components, where [`Sidebearings::prepare`] was given
//!   the same font.
//! - Nothing is broken past the places of a key, past the last key or past index 65,535.
//! - No call but `Sidebearings::prepare` allocates; no index, sum, product or cast goes wrong.
//!
//! ```
//! for index in 0..places(&font, 9, Edition::One) {
//!     if let Some(rule) = font_faults(&font, 9, index, Edition::One).above(0) {
//!         println!(rt; "{} {index} {}", key_text(9), rule_code(rule))?;
//!     }
//! }
//!
//! let sidebearings = Sidebearings::prepare(alloc, &font, Edition::One)?;
//! let mut watches = Watches::start(Edition::One);
//! for step in &t1_char::expand(alloc, &font, 0, Edition::One)? {
//!     if let Some(rule) = watches.see(step).join(sidebearings.see(step)).above(0) {
//!         println!(rt; "{} {}", step.number, rule_code(rule))?;
//!     }
//! }
//! ```
#![tactic(auto)]

mod book;
mod font_rules;
mod glyph_names;
mod keys;
pub mod laws;
mod level;
mod mask;
mod rule;
mod sidebearings;
mod standard_encoding;
mod step_rules;
mod watch;
mod watches;

pub use book::{rule_code, rule_level, rule_text};
pub use font_rules::dictionaries::{is_malformed, is_no_group};
pub use font_rules::encoding::encodes_missing;
pub use font_rules::font_faults;
pub use font_rules::hints::{
    falls_at, has_too_many, is_of_another_kind, is_past_fuzzes, is_past_scales, is_past_shifts,
    list_limit_of, numbers_at, repeats_at,
};
pub use font_rules::ids::{is_id, is_past_range};
pub use font_rules::stems::is_not_one_width;
pub use font_rules::subrs::is_wrong_subr;
pub use font_rules::values::{
    count_in, first_in, is_sixteen_twice, is_so_many, is_the_number, is_whole,
};
pub use font_rules::zones::{
    Edges, difference, distance, has_odd_count, is_too_high, is_too_near, scale,
};
pub use glyph_names::glyph_named;
pub use keys::{INDEXES, KEYS, KeyKind, has_kind, key_among, key_text, places};
pub use level::Level;
pub use mask::Mask;
pub use rule::{RULE_COUNT, Rule, all_rules};
pub use sidebearings::Sidebearings;
pub use standard_encoding::standard_name;
pub use step_rules::arguments::{ArgumentWatcher, is_past, quotient_is_past};
pub use step_rules::calls::CallWatcher;
pub use step_rules::counters::{CounterWatcher, ends_counting};
pub use step_rules::flex::{FlexWatcher, Point};
pub use step_rules::othersubrs::{
    OthersubrWatcher, is_counter_control, is_flex_or_hints, is_good_count,
};
pub use step_rules::paths::PathWatcher;
pub use step_rules::seac::{SeacWatcher, accent_code, base_code, is_unnamed};
pub use step_rules::stems::{
    MOST_STEMS, Stem, StemWatcher, are_unequal, is_stem, is_triple, keep, lies_across,
    stands_upright, stem_at, three_stems,
};
pub use step_rules::tokens::{clears, closes, is_line, is_move, is_pop, is_seac, sets_width};
pub use step_rules::triples::{
    Triple, TripleWatcher, is_hstem, is_hstem3, is_vstem, is_vstem3, triple_of,
};
pub use watch::Watch;
pub use watches::Watches;
