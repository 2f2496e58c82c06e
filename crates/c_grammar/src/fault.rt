//! Why a text has no script.
ghost use Rattle.std.specs.Prelude.{◌≡◌, alloc_error};
ghost use Rattle.c_grammar.specs.declared.fault.ScriptFault.TheVariants.{Memory};

use std::alloc::{AllocError, AllocFailed};
use thiserror::Error;

/// Why a text has no script.
#[derive(Debug, Drop, Error)]
pub enum ScriptFault {
    /// No tree spells the tokens. The offset is the start of the first token that can't stand where it does, or the end of
    /// the last token, where the text ends too early.
    #[error("syntax error at {0}")]
    Syntax(usize),
    /// Memory ran out.
    #[error(transparent)]
    Memory(AllocError),
}

impl From<AllocError> for ScriptFault {
    ghost from_gives = { λ error fault. fault ≡ Memory error };

    fn from(error: AllocError) -> ScriptFault {
        ScriptFault::Memory(error)
    }
}

impl<T: Drop> From<AllocFailed<T>> for ScriptFault {
    ghost from_gives = { λ _ fault. fault ≡ Memory alloc_error };

    fn from(_: AllocFailed<T>) -> ScriptFault {
        ScriptFault::Memory(AllocError)
    }
}
