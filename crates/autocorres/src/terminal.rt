//! A line on a terminal that says how far work is.

use ac_base::{Progress, Work};
use std::io::{IsTerminal, Write};
use std::time::{Duration, Instant};

/// Standard error, where it is a terminal: it says how far work is, in one line that is written anew,
/// once the work has taken a while. The line is gone when the work is done.
#[derive(Drop)]
pub struct Terminal<'a> {
    rt: &'a HostRuntime,
    // none where nothing is to be said
    begun: Option<Instant>,
    patience: Duration,
}

impl<'a> Terminal<'a> {
    /// Work that begins now is told of where it takes longer than this.
    pub fn new(rt: &'a HostRuntime, patience: Duration) -> Terminal<'a> {
        let begun = if rt.stderr().is_terminal() {
            Instant::now(rt).ok()
        } else {
            None
        };
        Terminal {
            rt,
            begun,
            patience,
        }
    }

    fn is_late(&self) -> bool {
        match self.begun {
            Some(begun) => match begun.elapsed(self.rt) {
                Ok(taken) => taken >= self.patience,
                Err(_) => false,
            },
            None => false,
        }
    }
}

impl Progress for Terminal<'_> {
    fn done(&self, work: Work, functions: usize, all: usize) {
        if self.is_late() {
            let word = match work {
                Work::Translation => "translated",
                Work::Check => "checked",
            };
            let mut out = self.rt.stderr();
            let _ = write!(out, "\r\x1b[K{functions} of {all} functions {word}");
        }
    }

    fn over(&self) {
        if self.is_late() {
            let _ = self.rt.stderr().write_all(b"\r\x1b[K");
        }
    }
}
