//! Settings files: `settings_for` of t1_options.

mod places;
mod texts;
mod tools;
