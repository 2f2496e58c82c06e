//! A writer, such as standard output, as a sink.

ghost use Rattle.std.specs.Prelude.{None};

use ac_base::{Failed, Progress, Sink, Work};
use std::io::Write;

/// What is written goes to a writer, and how far it is to another. It doesn't tell what was taken.
#[derive(Drop)]
pub struct StdoutSink<W: Write, P: Progress> {
    out: W,
    progress: P,
    faults: u64,
}

impl<W: Write, P: Progress> StdoutSink<W, P> {
    /// A sink that had no fault so far.
    pub fn new(out: W, progress: P) -> StdoutSink<W, P> {
        StdoutSink {
            out,
            progress,
            faults: 0,
        }
    }
}

impl<W: Write, P: Progress> Progress for StdoutSink<W, P> {
    fn done(&self, work: Work, functions: usize, all: usize) {
        self.progress.done(work, functions, all);
    }

    fn over(&self) {
        self.progress.over();
    }
}

impl<W: Write, P: Progress> Sink for StdoutSink<W, P> {
    ghost taken = { λ sink. None };

    ghost faults = { λ sink. sink.faults };

    /// A writer that takes none of some bytes is at fault too.
    fn write(&mut self, bytes: &[u8]) -> Result<usize, Failed> {
        match self.out.write(bytes) {
            Ok(count) if count > 0 || bytes.is_empty() => Ok(count),
            _ => {
                self.faults = self.faults.saturating_add(1);
                Err(Failed)
            }
        }
    }
}
