// A shelf over files in memory.
ghost use Rattle.std.specs.Prelude.{◌≡◌, ◌<◌, ◌≤◌, ◌-◌, ◌^◌, ℕ, List, length, take, drop, min, map, IfOk, OnErr};
ghost use Rattle.std.specs.Option.{option_copied};
ghost use Rattle.std.specs.Result.{result_ok};
ghost use Rattle.ac_base.specs.Count.{Rose};
ghost use Rattle.ac_base.specs.Shelf.{AreBytesAt, EndsBy};
ghost use Rattle.ac_base.specs.MemoryShelf.{named, fresh_shelf, FilesInMemory, IsSound, NeverFails, file_named, told_contents, fault_count, read_count, after_read};

use crate::{Failed, Shelf};
use std::marker::Model;

/// Files in memory, for tests. A call whose number, counted from 0, is planned to fail does, and so does each call
/// on a name that it doesn't hold; no other call does. It tells all contents. Its counters stand still at
/// `u64::MAX`.
#[derive(Drop)]
pub struct MemoryShelf {
    files: Vec<(String, Vec<u8>)>,
    failing: Vec<u64>,
    step: u64,
    calls: u64,
    planned: u64,
    missing: u64,
}

impl Model for MemoryShelf {
    ghost use Rattle.std.specs.Prelude.{◌≤◌, map};
    ghost use Rattle.ac_base.specs.MemoryShelf.{FilesInMemory, named};

    ghost Value = { FilesInMemory };

    ghost view = { λ shelf. record {
      files = map named shelf.files.items;
      failing = shelf.failing.items;
      step = shelf.step;
      calls = shelf.calls;
      planned = shelf.planned;
      missing = shelf.missing;
    } };

    ghost invariant = { λ shelf. 1 ≤ shelf.step };
}

impl MemoryShelf {
    /// A shelf with these files, by their names: of two with one name the first counts. A call gives at most
    /// `u64::MAX` bytes, so as many as there is room for.
    pub fn new(files: Vec<(String, Vec<u8>)>, failing: Vec<u64>) -> MemoryShelf
        ensures { result ≡ fresh_shelf files failing (2 ^ 64 - 1) }
    {
        MemoryShelf::narrow(files, failing, u64::MAX)
    }

    /// The same, but no call gives more than `step` bytes.
    pub fn narrow(files: Vec<(String, Vec<u8>)>, failing: Vec<u64>, step: u64) -> MemoryShelf
        requires { 1 ≤ step }
        ensures { result ≡ fresh_shelf files failing step }
    {
        MemoryShelf {
            files,
            failing,
            step,
            calls: 0,
            planned: 0,
            missing: 0,
        }
    }

    /// How many faults of a name there were.
    pub fn faults(&self, name: &str) -> u64
        ensures { result ≡ fault_count self.now name.now }
    {
        match file_named(&self.files, name) {
            Some(_) => self.planned,
            None => self.planned.saturating_add(self.missing),
        }
    }
}

impl Shelf for MemoryShelf {
    ghost contents = { told_contents };

    ghost faults = { fault_count };

    /// It fails, and gives bytes, exactly as `read_count` says.
    fn read_at(&mut self, name: &str, at: u64, into: &mut [u8]) -> Result<usize, Failed>
        ensures contents { (n : List ℕ) → told_contents self.new n ≡ told_contents self.old n }
        ensures counts { (n : List ℕ) → fault_count self.old n ≤ fault_count self.new n }
        ensures within { IfOk result (λ k. k ≤ length into.old) }
        ensures bytes { IfOk result
            (λ k. AreBytesAt (told_contents self.old name.now) at k into.new) }
        ensures end { IfOk result
            (λ k. k ≡ 0 → 0 < length into.old → EndsBy (told_contents self.old name.now) at) }
        ensures cause { OnErr result
            (Rose (fault_count self.old name.now) (fault_count self.new name.now)) }

        ensures answer { result_ok result ≡ read_count self.old name.now at (length into.old) }
        ensures after { self.new ≡ after_read self.old name.now }
    {
        let number = self.calls;
        self.calls = number.saturating_add(1);
        let planned = self.failing.contains(&number);
        if planned {
            self.planned = self.planned.saturating_add(1);
        }
        let Some(file) = file_named(&self.files, name) else {
            self.missing = self.missing.saturating_add(1);
            return Err(Failed);
        };
        if planned {
            return Err(Failed);
        }
        Ok(copy_piece(file, at, self.step, into))
    }
}

/// A shelf that plans no failure never fails on a name that it holds, whatever it is called with.
pub fn sound_shelf_never_fails()
    ensures { (shelf : FilesInMemory) (name : List ℕ) → IsSound shelf name → NeverFails shelf name }
{}

// The first file of the name.
fn file_named<'a>(files: &'a [(String, Vec<u8>)], name: &str) -> Option<&'a [u8]>
    ensures { option_copied result ≡ file_named name.now (map named files.now) }
{
    for (held, file) in files {
        if held.as_str() == name {
            return Some(file.as_slice());
        }
    }
    None
}

// Copies what there is from the place on, at most `step` bytes, and says how many.
fn copy_piece(file: &[u8], at: u64, step: u64, into: &mut [u8]) -> usize
    ensures count { result ≡ min (min step (length into.old)) (length file.now - at) }
    ensures bytes { take result into.new ≡ take result (drop at file.now) }
{
    let start = (at as usize).min(file.len());
    let rest = &file[start..];
    let count = (step as usize).min(into.len()).min(rest.len());
    into[..count].copy_from_slice(&rest[..count]);
    count
}
