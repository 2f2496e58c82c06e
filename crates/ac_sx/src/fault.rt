//! Why a text is no tree's.
ghost use Rattle.std.specs.Prelude.{◌≡◌};
ghost use Rattle.ac_sx.specs.declared.fault.SxFault.TheVariants.{Memory};

use std::alloc::{AllocError, AllocFailed};
use thiserror::Error;

/// Why a text is no tree's, or that memory ran out.
#[derive(Clone, Copy, Debug, PartialEq, Eq, Error)]
pub enum SxFault {
    /// The offset of the first byte with which no tree's text goes on, or the text's length where more would have to follow.
    #[error("no text at {0}")]
    NotText(usize),
    /// The offset at which a list opens that is nested too deep.
    #[error("too deep at {0}")]
    Deep(usize),
    /// Memory ran out.
    #[error("out of memory")]
    Memory,
}

impl From<AllocError> for SxFault {
    ghost from_gives = { λ _ e. e ≡ Memory };

    fn from(_error: AllocError) -> SxFault {
        SxFault::Memory
    }
}

impl<T: Drop> From<AllocFailed<T>> for SxFault {
    ghost from_gives = { λ _ e. e ≡ Memory };

    fn from(_error: AllocFailed<T>) -> SxFault {
        SxFault::Memory
    }
}
