//! The fonts that words name. A word is the name of a font, or of a folder, which means the fonts below it.
//!
//! [`fonts_named`] makes the list: each font once, in the order of the words, without those that a [`Glob`] excludes.
//! A [`FileSystem`] says which words lead to folders and what is in a folder. The word `-` is standard input; a file of
//! that name is named `./-`. [`words_in`] reads words from the text of a list. A [`FileStore`] has files that can be replaced, and a
//! [`Cause`] says why that, or a read, failed.
#![tactic(auto)]

mod causes;
mod file_store;
mod filesystem;
mod folders;
mod globs;
mod laws;
mod lists;
mod named;
mod once;
mod words;

pub use causes::Cause;
pub use file_store::FileStore;
pub use filesystem::FileSystem;
pub use folders::{Below, FolderEntry, Listing, fonts_below, is_font_name};
pub use globs::{CharSet, Glob, Piece, is_excluded};
pub use laws::{
    each_name_is_included, each_name_is_once, globs_match, input_stays_apart, lists_are_one,
    names_have_no_dot, searches_are_one, trims_are_one,
};
pub use lists::{Words, words_in};
pub use named::{Named, fonts_named};
pub use once::each_once;
pub use words::{is_input, trim_word};
