//! Why there is no heap.

ghost use Rattle.std.specs.Prelude.{◌≡◌};
ghost use Rattle.c_memory.specs.declared.faults.HeapFault.TheVariants.{Memory};

use std::alloc::{AllocError, AllocFailed};
use thiserror::Error;

/// Why there is no heap with these tags.
#[derive(Debug, Clone, Copy, PartialEq, Eq, Error)]
pub enum HeapFault {
    /// The address of this tag isn't a multiple of its type's alignment.
    #[error("tag {0} is misaligned")]
    Misaligned(usize),
    /// This tag is at address 0.
    #[error("tag {0} is null")]
    Null(usize),
    /// The object of this tag ends past the end of the space.
    #[error("tag {0} is past the end of the space")]
    Past(usize),
    /// The object of this tag has a byte in common with that of an earlier one.
    #[error("tag {0} overlaps an earlier one")]
    Overlap(usize),
    /// There is no memory for the heap.
    #[error("out of memory")]
    Memory,
}

impl From<AllocError> for HeapFault {
    ghost from_gives = { λ _ fault. fault ≡ Memory };

    fn from(_: AllocError) -> Self {
        HeapFault::Memory
    }
}

impl<T: Drop> From<AllocFailed<T>> for HeapFault {
    ghost from_gives = { λ _ fault. fault ≡ Memory };

    fn from(_: AllocFailed<T>) -> Self {
        HeapFault::Memory
    }
}
