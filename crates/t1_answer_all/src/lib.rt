//! What t1check-all answers to the words of its command line, and which files it replaces then.
//!
//! [`answer`] is a whole run: words and settings become options, fonts are listed and checked, what is chosen of them is written, and files are
//! replaced. A [`FileSystem`](t1_names::FileSystem) is asked for settings, known faults, lists and folders. A second value is
//! [`FontFiles`](t1_many::FontFiles) for fonts and their waivers, a [`FileStore`](t1_names::FileStore) for the files that are replaced, and
//! [`ShowsProgress`]. Contracts count each call of both.
//!
//! What is promised:
//!
//! - [`answer`]: words get help, a usage error, the version, pages of rules and refusals, or a check by the options that they and the settings mean.
//!   Pages are given if each word is a code; else the first that is none is the usage error. Fonts are checked if the known faults and the lists can be
//!   read and there is a font; else the first thing wrong is the usage error. Each folder, list and text is asked for once, in this order.
//! - [`run`]: the listed fonts are checked in order, what is chosen of their lines is written in the layout that is requested, and what comes after
//!   all fonts is printed. Each font is opened once and its waivers at most once, and none of them where they are ignored or written; nothing is read
//!   of a file behind its end or a failed read.
//! - [`replace_files`]: exactly the files left to be replaced are, known faults first, then waivers by font. Existing waivers are kept unless they
//!   are to be overwritten. If some are kept, or a file can't be replaced, that is printed, and the status is that of a failure.
//! - [`an_update_is_quiet_next_time`]: after an update of known faults, the next check of the same fonts by the same rules hands on no line of a
//!   report. Each font has to be checked once, and what was found has to be readable from rows. [`an_update_of_files_is_quiet_next_time`]: of files
//!   that hold the same bytes both are so.
//! - [`statuses_are_by_lines`]: the status is that of faults exactly where a line was handed on whose rule makes it so.
#![tactic(auto)]

mod answering;
mod checking;
mod ending;
mod explaining;
mod findings;
mod known;
mod laws;
mod layout;
mod listing;
mod mode;
mod outcome;
mod plan;
mod progress;
mod replacing;
mod running;
mod shards;
mod telling;
mod unlisted;
mod usage;
mod words;
mod writing;

pub use answering::answer;
pub use ending::Left;
pub use laws::{
    an_update_is_quiet_next_time, an_update_of_files_is_quiet_next_time, statuses_are_by_lines,
};
pub use layout::Layout;
pub use mode::Mode;
pub use outcome::Outcome;
pub use plan::Plan;
pub use progress::ShowsProgress;
pub use replacing::{replace_files, waivers_name};
pub use running::{PROGRAM, run};
pub use shards::names_of_part;
pub use unlisted::Unlisted;
