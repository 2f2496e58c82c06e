//! How runs of commands end.

ghost use Rattle.std.specs.Prelude.{◌≡◌};
ghost use Rattle.command_runs.specs.declared.ends.Stop.TheVariants.{Memory};

use simpl_lang::GuardKind;
use std::alloc::{AllocError, AllocFailed};

/// How a command ends that comes to its end.
#[derive(Clone, Copy, Drop)]
pub(crate) enum Flow {
    Normal,
    /// By an exception.
    Abrupt,
}

/// Why a run stops before.
#[derive(Clone, Copy, Drop)]
pub(crate) enum Stop {
    /// A guard of this kind doesn't hold.
    Guard(GuardKind),
    OutOfTurns,
    Deep,
    Memory,
}

impl From<AllocError> for Stop {
    ghost from_gives = { λ _ stop. stop ≡ Memory };

    fn from(_: AllocError) -> Self {
        Stop::Memory
    }
}

impl<T: Drop> From<AllocFailed<T>> for Stop {
    ghost from_gives = { λ _ stop. stop ≡ Memory };

    fn from(_: AllocFailed<T>) -> Self {
        Stop::Memory
    }
}
