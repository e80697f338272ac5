//! The settings file of a first path, `.t1check.toml`.
//!
//! [`settings_for`] finds the nearest file at or above the path and reads it.

mod finding;
mod paths;
mod reading;
mod values;

pub use finding::{settings_for, unread_text};
pub use reading::Settings;
