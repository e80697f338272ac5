//! Words that choose rules.

use crate::files::{File, Files};
use std::alloc::Global;
use std::process::Abort;
use t1_options::{Request, options};
use t1_rules::{Mask, Rule};

/// Words, and rules that they choose and that they don't.
type Case = (&'static [&'static str], &'static [Rule], &'static [Rule]);

const CHOICES: &[Case] = &[
    (
        &["t1check-all", "a.pfb"],
        &[Rule::F01, Rule::GE02, Rule::L01, Rule::U01],
        &[],
    ),
    (
        &["t1check-all", "--only", "H02,Z", "--except=z07", "a.pfb"],
        &[Rule::H02, Rule::Z01, Rule::Z11],
        &[Rule::Z07, Rule::H01, Rule::F01, Rule::U01],
    ),
    (
        &["t1check-all", "--only", ",h02,", "a.pfb", "--only=ge"],
        &[Rule::H02, Rule::GE01, Rule::GE02],
        &[Rule::H01, Rule::F01],
    ),
    (
        &[
            "t1check-all",
            "--level",
            "Must,tidy",
            "--except",
            "C",
            "a.pfb",
        ],
        &[Rule::F03, Rule::GE02, Rule::P03],
        &[Rule::C05, Rule::H02, Rule::F01],
    ),
    (
        &["t1check-all", "--level=tidy", "--only", "P,H", "a.pfb"],
        &[Rule::P03],
        &[Rule::P01, Rule::P02, Rule::H02, Rule::GE02],
    ),
    (
        &[
            "t1check-all",
            "--except",
            "GE",
            "--except",
            "c,p01",
            "a.pfb",
        ],
        &[Rule::F01, Rule::P02],
        &[Rule::GE01, Rule::GE02, Rule::C01, Rule::C09, Rule::P01],
    ),
];

/// The rules that words choose.
fn rules_of(alloc: Global, words: &[&str]) -> Option<Mask> {
    match options(
        alloc,
        words,
        &mut Files {
            alloc,
            settings: File::None,
        },
    ) {
        Ok(Request::Check(options)) => Some(options.rules),
        _ => None,
    }
}

#[test]
fn words_choose_rules(rt: HostRuntime) {
    for (words, told, others) in CHOICES {
        let Some(rules) = rules_of(rt.alloc(), words) else {
            panic!(rt; "of {words:?}");
        };
        assert!(rt; told.iter().all(|rule| rules.has(*rule)), "of {words:?}");
        assert!(rt; !others.iter().any(|rule| rules.has(*rule)), "of {words:?}");
    }
}

/// The rules whose lines make the status 1.
fn failing_of(alloc: Global, words: &[&str]) -> Option<Mask> {
    match options(
        alloc,
        words,
        &mut Files {
            alloc,
            settings: File::None,
        },
    ) {
        Ok(Request::Check(options)) => Some(options.failing),
        _ => None,
    }
}

const FAILING: &[Case] = &[
    (
        &["t1check-all", "a.pfb"],
        &[Rule::F03, Rule::H02, Rule::GE02],
        &[],
    ),
    (
        &[
            "t1check-all",
            "--fail-on",
            "MUST",
            "--fail-on=tidy",
            "a.pfb",
        ],
        &[Rule::F03, Rule::GE02],
        &[Rule::H02, Rule::U01],
    ),
];

#[test]
fn levels_make_the_status(rt: HostRuntime) {
    for (words, failing, others) in FAILING {
        let Some(rules) = failing_of(rt.alloc(), words) else {
            panic!(rt; "of {words:?}");
        };
        assert!(rt; failing.iter().all(|rule| rules.has(*rule)), "of {words:?}");
        assert!(rt; !others.iter().any(|rule| rules.has(*rule)), "of {words:?}");
    }
}
