//! The text of help.

use crate::files::{File, Files};
use std::alloc::Global;
use std::process::Abort;
use t1_options::{HELP, options};
use t1_run::UsageError;

/// Whether words are answered by the text of help.
fn helps(alloc: Global, words: &[&str]) -> bool {
    let mut files = Files {
        alloc,
        settings: File::Unreadable,
    };
    match options(alloc, words, &mut files) {
        Err(UsageError::Help(text)) => text.as_str() == HELP,
        _ => false,
    }
}

const CASES: &[&[&str]] = &[
    &["t1check-all", "--help"],
    &["t1check-all", "-h", "--color"],
    &["t1check-all", "-qh"],
    &["t1check-all", "--edition", "5", "--help"],
    &["t1check-all", "--help", "--version"],
];

#[test]
fn answers_help(rt: HostRuntime) {
    for words in CASES {
        assert!(rt; helps(rt.alloc(), words), "of {words:?}");
    }
}
