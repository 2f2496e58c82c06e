// Where files come from and where answers go.
ghost use Rattle.std.specs.Prelude.{◌≡◌, ◌<◌, ◌≤◌, ℕ, List, Option, length, take, IfOk, OnErr};
ghost use Rattle.ac_base.specs.Count.{Rose};
ghost use Rattle.ac_base.specs.Shelf.{AreBytesAt, EndsBy};
ghost use Rattle.ac_base.specs.Sink.{grown};

use crate::Progress;

/// A call on a shelf or a sink that failed.
#[derive(Debug, Clone, Copy, PartialEq, Eq)]
pub struct Failed;

/// Where files are read from, by name and place.
pub trait Shelf {
    /// The bytes of a name's file, where they are told. No call changes them.
    ghost contents: { Self → List ℕ → Option (List ℕ) };

    /// How many faults of a name there were: a number that no call lowers.
    ghost faults: { Self → List ℕ → ℕ };

    /// Reads bytes of a file, from the place `at` on, into the front of the room, and gives their number.
    /// It may be fewer than there is room for; none, in a room that isn't empty, means that the file ends there.
    /// A name of no file is a fault of that name. After an `Err` the room holds any bytes.
    fn read_at(&mut self, name: &str, at: u64, into: &mut [u8]) -> Result<usize, Failed>
        ensures contents { (n : List ℕ) → contents self.new n ≡ contents self.old n }
        ensures counts { (n : List ℕ) → faults self.old n ≤ faults self.new n }
        ensures within { IfOk result (λ k. k ≤ length into.old) }
        ensures bytes { IfOk result (λ k. AreBytesAt (contents self.old name.now) at k into.new) }
        ensures end { IfOk result
            (λ k. k ≡ 0 → 0 < length into.old → EndsBy (contents self.old name.now) at) }
        ensures cause { OnErr result (Rose (faults self.old name.now) (faults self.new name.now)) };
}

/// What is written to, from front to back. While what is to be written is made, it is told how far
/// that is.
pub trait Sink: Progress {
    /// The bytes taken so far, where they are told. What is told stays told.
    ghost taken: { Self → Option (List ℕ) };

    /// How many faults there were: a number that no call lowers.
    ghost faults: { Self → ℕ };

    /// Takes bytes from the front of those given, and says how many: at least one, unless none are given.
    /// After an `Err` it has taken none of them.
    fn write(&mut self, bytes: &[u8]) -> Result<usize, Failed>
        ensures count { faults self.old ≤ faults self.new }
        ensures within { IfOk result (λ k. k ≤ length bytes.now) }
        ensures progress { IfOk result (λ k. 0 < length bytes.now → 1 ≤ k) }
        ensures taken { IfOk result
            (λ k. taken self.new ≡ grown (taken self.old) (take k bytes.now)) }
        ensures unchanged { OnErr result (taken self.new ≡ taken self.old) }
        ensures cause { OnErr result (Rose (faults self.old) (faults self.new)) };
}
