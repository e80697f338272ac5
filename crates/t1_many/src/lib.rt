//! Many fonts together: each is checked in turn, and its lines are written after its name. Also: which rules are
//! reported, which lines go beyond known faults, which part of a list is checked, and the waivers that are written of
//! lines.
//!
//! [`check_all`] checks fonts one after another, and [`told_rules`] says which rules are reported. [`read_row`] reads a
//! row of a file of known faults, and a [`Reading`] has what was found in a font as such rows count it.
#![tactic(auto)]

mod beyond;
mod checking;
mod choice;
mod counted;
mod counts;
mod font_error;
mod font_files;
mod handing;
mod kinds;
mod known;
mod laws;
mod one_font;
mod plain;
mod policy;
mod printer;
mod readings;
mod reasons;
mod row;
mod telling;
mod unchecked;
mod verdict;

pub use checking::check_all;
pub use choice::{Choice, is_told, picks, told_rules};
pub use counted::Counted;
pub use counts::Counts;
pub use font_error::{FontError, Obstacle, ObstacleText};
pub use font_files::{FontFiles, WaiverFiles};
pub use handing::{hand_failure, hand_report};
pub use known::Known;
pub use laws::{
    a_text_is_one_row, an_update_is_quiet, codes_pick_their_rules, parts_are_the_whole,
    plain_lines_are_written, written_waivers_are_read,
};
pub use plain::Plain;
pub use policy::{Lost, Policy, Taken};
pub use printer::Printer;
pub use readings::{Reading, ReportNew, UpdateBaseline};
pub use reasons::{told_reason, told_text};
pub use row::{Row, read_row};
pub use telling::ReportAll;
pub use unchecked::{put_in_one_line, tell_unchecked};
pub use verdict::{Judge, Verdict};
