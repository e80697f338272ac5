//! The options of t1check-all, from the words of its command line and the settings of their first path.
//!
//! [`options`] reads both. clap splits the words into options and values; [`settings_for`] finds and reads a settings file.
//! Then the two are merged, and judged are the values and which options go together. The result is a [`Request`], or a
//! `UsageError` with the text to print.
//!
//! Promised:
//!
//! - Words are taken exactly where clap finds no fault and nothing is wrong with what they say. Where they request the version, or pages by
//!   `--explain`, nothing else of them is judged.
//! - The options are those that the words mean, and the settings where the words give nothing
//!   ([`given_options_win`]). With `--no-settings` no settings are looked for. Of an option that is given again the last value counts; `--only`,
//!   `--except`, `--level`, `--fail-on`, `--files-from` and `--exclude` add values ([`uses_count`]).
//! - The settings file is the nearest that is there, TOML as the kit's `toml` defines it. What is wrong with it is reported
//!   with its name and the line or the key. Paths, and globs with a slash, are below its folder ([`settings_for`]).
//! - The options keep the codes of `--only` and `--except`, and with the latter those that `--level` omits. These
//!   choose the rules that are printed ([`codes_choose_rules`]): those that codes and levels both choose
//!   ([`levels_choose_rules`]).
//! - A word that isn't UTF-8 is known by a mark before it ([`is_marked`]), and is no glob.
//! - Where several things are wrong, the first in one order is reported (`checks_of`): of the words by themselves, then
//!   of the settings, then of both together.
//! - Options go together ([`options_go_together`]), a shard is one of its parts ([`shards_are_parts`]), and `--only`
//!   and `--except` name any rule and no refusal ([`rules_are_known`]).
//!
//! ```text
//! let request = options(alloc, words, files)?;
//! ```
#![tactic(auto)]

mod asked;
mod checks;
mod choices;
mod command_line;
mod complaint;
mod given;
mod judging;
mod laws;
mod merging;
mod settings;
mod texts;
mod values;

pub use asked::{Baseline, Format, Options, Reasons, Request, Shard, Waivers};
pub use command_line::{HELP, options};
pub use laws::{
    codes_choose_rules, given_options_win, levels_choose_rules, options_go_together,
    rules_are_known, shards_are_parts, uses_count,
};
pub use settings::{Settings, settings_for, unread_text};
pub use values::is_marked;
