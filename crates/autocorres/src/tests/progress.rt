//! A sink is told how far the work for it is.

ghost use Rattle.std.specs.Prelude.{Some};

use crate::tests::calls::{Files, told};
use crate::tests::checks::written;
use ac_base::{Failed, MemorySink, Progress, Sink, Work};
use ac_core::Status;
use std::alloc::{AllocError, Global};
use std::cell::Cell;
use std::test::Fail;

const TEXT: &str =
    "unsigned f(void){return 7;}unsigned g(void){return f();}unsigned h(void){return g();}";

/// A room in memory, and what it was told: how many functions are translated and checked, how often
/// the work was over, and whether anything was told out of its turn.
#[derive(Drop)]
struct Told {
    room: MemorySink,
    translated: Cell<usize>,
    checked: Cell<usize>,
    over: Cell<usize>,
    out_of_turn: Cell<bool>,
}

impl Told {
    fn new(alloc: Global) -> Result<Told, AllocError> {
        let room = MemorySink::new(alloc, 16_384, Vec::new(alloc))?;
        Ok(Told {
            room,
            translated: Cell::new(0),
            checked: Cell::new(0),
            over: Cell::new(0),
            out_of_turn: Cell::new(false),
        })
    }

    // Whether all was told in its turn, of so many functions translated and checked.
    fn is(&self, translated: usize, checked: usize) -> bool {
        self.translated.get() == translated
            && self.checked.get() == checked
            && self.over.get() == 1
            && !self.out_of_turn.get()
    }
}

impl Progress for Told {
    fn done(&self, work: Work, functions: usize, all: usize) {
        let count = match work {
            Work::Translation => &self.translated,
            Work::Check => &self.checked,
        };
        if count.get().saturating_add(1) != functions || all != 3 || self.over.get() != 0 {
            self.out_of_turn.set(true);
        }
        count.set(functions);
    }

    fn over(&self) {
        self.over.set(self.over.get().saturating_add(1));
    }
}

impl Sink for Told {
    ghost taken = { λ told. Some told.room.taken };

    ghost faults = { λ told. told.room.faults };

    fn write(&mut self, bytes: &[u8]) -> Result<usize, Failed> {
        self.room.write(bytes)
    }
}

// Whether a command is done, and tells so many functions translated and checked.
fn tells(
    alloc: Global,
    words: &str,
    certificate: &[u8],
    counts: (usize, usize),
) -> Result<bool, AllocError> {
    let files = Files::of(TEXT.as_bytes()).with(certificate);
    let mut sink = Told::new(alloc)?;
    let status = told(alloc, words, &files, &mut sink)?;
    Ok(status == Status::Done && sink.is(counts.0, counts.1))
}

#[test]
fn each_function_is_told_in_turn(rt: HostRuntime) -> Result<(), Fail> {
    let certificate = written(rt.alloc(), "translate a.c", TEXT)?;
    for (words, counts) in [
        ("sample 3", (0, 0)),
        ("show a.c", (3, 0)),
        ("print a.c bytes=h", (3, 0)),
        ("translate a.c", (3, 0)),
        ("trial 3", (3, 0)),
        ("check a.c c.cert", (0, 3)),
    ] {
        assert!(rt; tells(rt.alloc(), words, &certificate, counts)?, "{words}");
    }
    Ok(())
}
