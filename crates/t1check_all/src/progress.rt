//! How far a run is, on standard error where that is a terminal.

use std::cell::Cell;
use std::io::{IsTerminal, Write};
use std::rt::{Stderr, Stdout};

/// A line that says how many fonts were begun. It stands on standard error, where that is a terminal, until anything else is written.
#[derive(Drop)]
pub(crate) struct Progress {
    errors: Stderr,
    /// Whether standard error is a terminal.
    is_terminal: bool,
    /// Whether what is written on the output goes to a terminal too.
    shares_output: bool,
    /// How many fonts there are, where that is to be shown.
    fonts: Cell<Option<usize>>,
    /// How many were begun.
    begun: Cell<usize>,
    /// Whether the line is shown.
    is_shown: Cell<bool>,
    /// Whether the last that was written on a terminal ended its line.
    is_at_line: Cell<bool>,
}

impl Progress {
    /// Nothing is shown so far.
    pub(crate) fn new(errors: Stderr, out: Stdout) -> Progress {
        Progress {
            errors,
            is_terminal: errors.is_terminal(),
            shares_output: out.is_terminal(),
            fonts: Cell::new(None),
            begun: Cell::new(0),
            is_shown: Cell::new(false),
            is_at_line: Cell::new(true),
        }
    }

    /// So many fonts are checked from now on, and it is shown how many were begun.
    pub(crate) fn expect(&self, fonts: usize) {
        self.fonts.set(Some(fonts));
    }

    /// A font more is begun.
    pub(crate) fn begin_font(&self) {
        let font = self.begun.get().saturating_add(1);
        self.begun.set(font);
        if let Some(fonts) = self.fonts.get() {
            self.show(font, fonts);
        }
    }

    /// Shows that font `font` of so many is begun, unless a line on a terminal was written in part alone. Where that fails nothing is lost.
    fn show(&self, font: usize, fonts: usize) {
        if !self.is_terminal || (self.shares_output && !self.is_at_line.get()) {
            return;
        }
        let mut errors = self.errors;
        let _ = write!(errors, "\r{font} of {fonts}\x1b[K");
        self.is_shown.set(true);
    }

    /// Clears what is shown.
    pub(crate) fn clear(&self) {
        if self.is_shown.get() {
            let mut errors = self.errors;
            let _ = errors.write_all(b"\r\x1b[K");
            self.is_shown.set(false);
        }
    }

    /// These bytes were written, on standard error or on the output.
    pub(crate) fn pass(&self, bytes: &[u8]) {
        if let Some(last) = bytes.last() {
            self.is_at_line.set(*last == b'\n');
        }
    }
}
