//! Why an evaluation gives no value.

ghost use Rattle.std.specs.Prelude.{◌≡◌};
ghost use Rattle.expression_lang.specs.declared.faults.EvalFault.TheVariants.{Memory};

use c_values::{Number, NumberOp};
use std::alloc::{AllocError, AllocFailed};
use thiserror::Error;

/// Why an evaluation gives no value.
#[derive(Debug, Clone, Copy, PartialEq, Eq, Error)]
pub enum EvalFault {
    /// The exact result of this operation on these numbers has a magnitude of 2^128 or more.
    #[error("a number takes more than 128 bits")]
    Wide(NumberOp, Number, Number),
    /// There is no memory for a value.
    #[error("out of memory")]
    Memory,
}

impl From<AllocError> for EvalFault {
    ghost from_gives = { λ _ fault. fault ≡ Memory };

    fn from(_: AllocError) -> Self {
        EvalFault::Memory
    }
}

impl<T: Drop> From<AllocFailed<T>> for EvalFault {
    ghost from_gives = { λ _ fault. fault ≡ Memory };

    fn from(_: AllocFailed<T>) -> Self {
        EvalFault::Memory
    }
}
