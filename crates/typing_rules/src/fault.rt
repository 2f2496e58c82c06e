//! Why a unit isn't typed.

ghost use Rattle.std.specs.Prelude.{◌≡◌};
ghost use Rattle.typing_rules.specs.declared.fault.TypeFault.TheVariants.{Memory};

use std::alloc::{AllocError, AllocFailed};
use thiserror::Error;

/// What is wrong with a node, the kinds in the order in which they are looked for.
#[derive(Clone, Copy, Debug, PartialEq, Eq)]
pub enum TypeKind {
    /// A name, an enum tag or a member that isn't declared.
    Unknown,
    /// What is declared or given a second time.
    Twice,
    /// Types that don't go together, or a constant that is none.
    Mismatch,
    /// What should be a place, and is none.
    NotLvalue,
    /// `void` or a struct without a body, where an object is needed.
    Incomplete,
    /// A call of a function without a body in the text.
    NoBody,
    /// A call with another number of arguments.
    Arity,
    /// A group of a switch that runs into the next one.
    FallThrough,
    /// What C allows and this subset leaves out.
    OutOfSubset,
    /// An array length outside 1 to 4,096, or an array or a struct of more than 65,536 bytes.
    Large,
}

/// Why a unit isn't typed.
#[derive(Clone, Copy, Debug, PartialEq, Eq, Error)]
pub enum TypeFault {
    /// The first bad node, by the offset of its first token; past the last `u32` that one is given.
    #[error("{kind:?} at {at}")]
    Bad { at: u32, kind: TypeKind },
    /// There is no memory.
    #[error("out of memory")]
    Memory,
}

impl From<AllocError> for TypeFault {
    ghost from_gives = { λ _ fault. fault ≡ Memory };

    fn from(_: AllocError) -> Self {
        TypeFault::Memory
    }
}

impl<T: Drop> From<AllocFailed<T>> for TypeFault {
    ghost from_gives = { λ _ fault. fault ≡ Memory };

    fn from(_: AllocFailed<T>) -> Self {
        TypeFault::Memory
    }
}
