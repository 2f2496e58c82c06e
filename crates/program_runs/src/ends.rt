//! How runs of programs end.

ghost use Rattle.std.specs.Prelude.{◌≡◌};
ghost use Rattle.program_runs.specs.declared.ends.Stop.TheVariants.{Memory};

use c_values::{Number, NumberOp, Value};
use std::alloc::{AllocError, AllocFailed};

/// How a run of a function of programs ends.
#[derive(Drop)]
pub enum AOutcome<H> {
    /// It gives a value, where the function has a result, and this heap and these values of the
    /// globals.
    Value(Option<Value>, H, Vec<Value>),
    /// A guard doesn't hold.
    Fails,
    /// A turn of a loop or a call is asked at the bound 0.
    OutOfTurns,
    /// A call would be the 257th nested inside the first function.
    Deep,
    /// An operation on these numbers has an exact result of a magnitude of 2^128 or more.
    Wide(NumberOp, Number, Number),
    /// There is no memory to go on with.
    Memory,
}

/// Why a run stops before its end.
#[derive(Clone, Copy, Drop)]
pub(crate) enum Stop {
    /// A guard doesn't hold.
    Fails,
    OutOfTurns,
    Deep,
    Wide(NumberOp, Number, Number),
    Memory,
}

impl From<AllocError> for Stop {
    ghost from_gives = { λ _ stop. stop ≡ Memory };

    fn from(_: AllocError) -> Self {
        Stop::Memory
    }
}

impl<T: Drop> From<AllocFailed<T>> for Stop {
    ghost from_gives = { λ _ stop. stop ≡ Memory };

    fn from(_: AllocFailed<T>) -> Self {
        Stop::Memory
    }
}
