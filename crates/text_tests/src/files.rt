//! Files read whole and bytes written whole, over memory: with calls that fail, and calls that give
//! or take little.

ghost use Rattle.std.specs.Prelude.{None};

use ac_base::{Failed, MemoryShelf, MemorySink, ReadTrouble, Shelf, read_whole, write_whole};
use std::alloc::{AllocError, Global};
use std::test::Fail;

const TEXT: &[u8] = b"int f(void){}";

/// At most how many bytes a call gives or takes, and how many calls then read `TEXT` and write it.
struct Pace {
    step: Option<u64>,
    reads: u64,
    writes: u64,
}

const PACES: [Pace; 3] = [
    Pace {
        step: None,
        reads: 2,
        writes: 1,
    },
    Pace {
        step: Some(1),
        reads: 14,
        writes: 13,
    },
    Pace {
        step: Some(4),
        reads: 5,
        writes: 4,
    },
];

// Two files of one name, and an empty one.
fn shelf(alloc: Global, failing: &[u64], step: Option<u64>) -> Result<MemoryShelf, AllocError> {
    let mut files = Vec::new(alloc);
    for (name, bytes) in [("a.c", TEXT), ("a.c", b"other".as_slice()), ("empty", &[])] {
        files.push((String::from_str(alloc, name)?, bytes.to_vec(alloc)?))?;
    }
    let failing = failing.to_vec(alloc)?;
    Ok(match step {
        Some(step) if step >= 1 => MemoryShelf::narrow(files, failing, step),
        _ => MemoryShelf::new(files, failing),
    })
}

fn sink(
    alloc: Global,
    room: u32,
    failing: &[u64],
    step: Option<u64>,
) -> Result<MemorySink, AllocError> {
    let failing = failing.to_vec(alloc)?;
    match step {
        Some(step) if step >= 1 => MemorySink::narrow(alloc, room, failing, step),
        _ => MemorySink::new(alloc, room, failing),
    }
}

#[test]
fn reads_whole(rt: HostRuntime) -> Result<(), Fail> {
    let alloc = rt.alloc();
    for pace in &PACES {
        let mut shelf = shelf(alloc, &[], pace.step)?;
        for (name, limit, wanted) in [
            ("a.c", 13, Ok(TEXT)),
            ("a.c", u64::MAX, Ok(TEXT)),
            ("a.c", 12, Err(ReadTrouble::Limit)),
            ("a.c", 0, Err(ReadTrouble::Limit)),
            ("empty", 0, Ok(b"".as_slice())),
            ("b.c", 13, Err(ReadTrouble::ReadFault)),
        ] {
            let read = read_whole(alloc, &mut shelf, name, limit);
            let read = read
                .as_ref()
                .map(|bytes| bytes.as_slice())
                .map_err(|trouble| *trouble);
            assert!(rt; read == wanted, "{name} to {limit}");
        }
        assert!(rt; shelf.faults("a.c") == 0);
        assert!(rt; shelf.faults("b.c") == 1);
    }
    Ok(())
}

#[test]
fn each_read_fails_in_turn(rt: HostRuntime) -> Result<(), Fail> {
    let alloc = rt.alloc();
    for pace in &PACES {
        for call in 0..=pace.reads {
            let mut shelf = shelf(alloc, &[call], pace.step)?;
            let first = read_whole(alloc, &mut shelf, "a.c", 13);
            assert!(rt; first.is_ok() == (call == pace.reads), "call {call}");
            assert!(rt;
                shelf.faults("a.c") == u64::from(call < pace.reads),
                "call {call}"
            );
            if let Err(trouble) = first {
                assert!(rt; trouble == ReadTrouble::ReadFault, "call {call}");
                assert!(rt;
                    read_whole(alloc, &mut shelf, "a.c", 13)?.as_slice() == TEXT,
                    "call {call}"
                );
            }
        }
    }
    Ok(())
}

#[test]
fn writes_whole(rt: HostRuntime) -> Result<(), Fail> {
    let alloc = rt.alloc();
    for pace in &PACES {
        let mut sink = sink(alloc, 26, &[], pace.step)?;
        assert!(rt; write_whole(&mut sink, TEXT) == Ok(()));
        assert!(rt; write_whole(&mut sink, b"") == Ok(()));
        assert!(rt; write_whole(&mut sink, TEXT) == Ok(()));
        assert!(rt; sink.taken() == b"int f(void){}int f(void){}".as_slice());
        assert!(rt; write_whole(&mut sink, b";") == Err(Failed));
        assert!(rt; sink.taken().len() == 26);
        assert!(rt; sink.faults() == 1);
    }
    Ok(())
}

#[test]
fn each_write_fails_in_turn(rt: HostRuntime) -> Result<(), Fail> {
    let alloc = rt.alloc();
    for pace in &PACES {
        for call in 0..=pace.writes {
            let mut sink = sink(alloc, 13, &[call], pace.step)?;
            let wrote = write_whole(&mut sink, TEXT);
            assert!(rt; wrote.is_ok() == (call == pace.writes), "call {call}");
            assert!(rt;
                sink.faults() == u64::from(call < pace.writes),
                "call {call}"
            );
            let taken = pace.step.unwrap_or(13).saturating_mul(call).min(13);
            assert!(rt; sink.taken().len() as u64 == taken, "call {call}");
            assert!(rt; TEXT.starts_with(sink.taken()), "call {call}");
        }
    }
    Ok(())
}

#[test]
fn a_small_room_takes_a_front(rt: HostRuntime) -> Result<(), Fail> {
    let alloc = rt.alloc();
    for (step, taken) in [
        (None, b"".as_slice()),
        (Some(1), b"int f(void)"),
        (Some(4), b"int f(vo"),
    ] {
        let mut sink = sink(alloc, 11, &[], step)?;
        assert!(rt; write_whole(&mut sink, TEXT) == Err(Failed));
        assert!(rt; sink.taken() == taken);
    }
    Ok(())
}

// A file with no end, of which nothing is told.
#[derive(Drop)]
struct Endless {
    given: u64,
}

impl Shelf for Endless {
    ghost contents = { λ _ _. None };

    ghost faults = { λ _ _. 0 };

    fn read_at(&mut self, _name: &str, _at: u64, into: &mut [u8]) -> Result<usize, Failed> {
        for byte in into.iter_mut() {
            *byte = b'x';
        }
        self.given = self.given.saturating_add(into.len() as u64);
        Ok(into.len())
    }
}

#[test]
fn an_endless_file_is_cut_at_the_limit(rt: HostRuntime) -> Result<(), Fail> {
    for limit in [0, 1, 16383, 16384, 100_000] {
        let mut shelf = Endless { given: 0 };
        let read = read_whole(rt.alloc(), &mut shelf, "a.c", limit);
        assert!(rt; read.is_err());
        assert!(rt; shelf.given == limit + 1);
    }
    Ok(())
}
