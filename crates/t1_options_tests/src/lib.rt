//! Tests of what t1check-all reads besides fonts, and of its summary, by public items of t1_names, t1_options and t1_summary
//! alone. Expected values are worked out by hand.
//!
//! | module | tests of |
//! |---|---|
//! | `globs`, `lists`, `names` | the fonts that words name: t1_names |
//! | `settings_files` | where settings files are found, and what they give: t1_options |
//! | `helped`, `refused`, `rules`, `settings`, `taken` | the words of the command line: t1_options |
//! | `summaries` | summaries: t1_summary |
//!
//! `expected` and `files` are what those of the command line share.
#![tactic(auto)]

#[cfg(test)]
mod expected;
#[cfg(test)]
mod files;
#[cfg(test)]
mod globs;
#[cfg(test)]
mod helped;
#[cfg(test)]
mod lists;
#[cfg(test)]
mod names;
#[cfg(test)]
mod refused;
#[cfg(test)]
mod rules;
#[cfg(test)]
mod settings;
#[cfg(test)]
mod settings_files;
#[cfg(test)]
mod summaries;
#[cfg(test)]
mod taken;
