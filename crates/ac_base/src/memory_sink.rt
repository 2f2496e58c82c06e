// A sink over a room in memory.
ghost use Rattle.std.specs.Prelude.{◌≡◌, ◌<◌, ◌≤◌, ◌-◌, ◌^◌, ℕ, List, length, take, Some, IfOk, OnErr};
ghost use Rattle.std.specs.Result.{result_ok};
ghost use Rattle.ac_base.specs.Count.{Rose};
ghost use Rattle.ac_base.specs.Sink.{grown};
ghost use Rattle.ac_base.specs.MemorySink.{RoomInMemory, HasRoomFor, TakesUnfailing, fresh_sink, write_count, after_write};

use crate::{Failed, Progress, Sink};
use std::alloc::{AllocError, Global};
use std::marker::Model;

/// A room in memory, for tests. A call whose number, counted from 0, is planned to fail does, and so does one whose
/// bytes what is left of the room doesn't hold; no other call does. It tells all that it took. Its counters stand
/// still at `u64::MAX`. No call takes memory.
#[derive(Drop)]
pub struct MemorySink {
    bytes: Vec<u8>,
    room: u32,
    failing: Vec<u64>,
    step: u64,
    calls: u64,
    failures: u64,
}

impl Model for MemorySink {
    ghost use Rattle.std.specs.Prelude.{◌≤◌, vec_len, vec_capacity};
    ghost use Rattle.ac_base.specs.MemorySink.{RoomInMemory};

    ghost Value = { RoomInMemory };

    ghost view = { λ sink. record {
      taken = sink.bytes.items;
      room = sink.room;
      failing = sink.failing.items;
      step = sink.step;
      calls = sink.calls;
      faults = sink.failures;
    } };

    ghost invariant = { λ sink. (vec_len sink.bytes ≤ sink.room)
        × (sink.room ≤ vec_capacity sink.bytes) × (1 ≤ sink.step) };
}

impl MemorySink {
    /// An empty sink with room for so many bytes, for which it takes memory here. A call takes at most `u64::MAX`
    /// bytes, so all that it is given.
    pub fn new(alloc: Global, room: u32, failing: Vec<u64>) -> Result<MemorySink, AllocError>
        ensures { IfOk result (λ sink. sink ≡ fresh_sink room failing (2 ^ 64 - 1)) }
    {
        MemorySink::narrow(alloc, room, failing, u64::MAX)
    }

    /// The same, but no call takes more than `step` bytes.
    pub fn narrow(
        alloc: Global,
        room: u32,
        failing: Vec<u64>,
        step: u64,
    ) -> Result<MemorySink, AllocError>
        requires { 1 ≤ step }
        ensures { IfOk result (λ sink. sink ≡ fresh_sink room failing step) }
    {
        Ok(MemorySink {
            bytes: Vec::with_capacity(alloc, room as usize)?,
            room,
            failing,
            step,
            calls: 0,
            failures: 0,
        })
    }

    /// The bytes taken so far.
    pub fn taken(&self) -> &[u8]
        ensures { result.now ≡ self.now.taken }
    {
        &self.bytes
    }

    /// How many faults there were.
    pub fn faults(&self) -> u64
        ensures { result ≡ self.now.faults }
    {
        self.failures
    }
}

// It isn't told how far work is.
impl Progress for MemorySink {}

impl Sink for MemorySink {
    ghost taken = { λ sink. Some sink.taken };

    ghost faults = { λ sink. sink.faults };

    /// It fails, and takes bytes, exactly as `write_count` says.
    fn write(&mut self, bytes: &[u8]) -> Result<usize, Failed>
        ensures count { self.old.faults ≤ self.new.faults }
        ensures within { IfOk result (λ k. k ≤ length bytes.now) }
        ensures progress { IfOk result (λ k. 0 < length bytes.now → 1 ≤ k) }
        ensures taken { IfOk result
            (λ k. Some self.new.taken ≡ grown (Some self.old.taken) (take k bytes.now)) }
        ensures unchanged { OnErr result (Some self.new.taken ≡ Some self.old.taken) }
        ensures cause { OnErr result (Rose self.old.faults self.new.faults) }

        ensures answer { result_ok result ≡ write_count self.old (length bytes.now) }
        ensures after { self.new ≡ after_write self.old bytes.now }
    {
        let number = self.calls;
        self.calls = number.saturating_add(1);
        let count = (self.step as usize).min(bytes.len());
        if self.failing.contains(&number) || count > self.room as usize - self.bytes.len() {
            self.failures = self.failures.saturating_add(1);
            return Err(Failed);
        }
        self.bytes.extend_from_slice(&bytes[..count]).unwrap();
        Ok(count)
    }
}

/// A sink that plans no failure doesn't fail while its room holds what it is given.
pub fn sink_with_room_never_fails()
    ensures { (sink : RoomInMemory) (bytes : List ℕ) → HasRoomFor sink (length bytes) →
        TakesUnfailing sink bytes }
{}
