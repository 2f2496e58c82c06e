//! Why tokens have no tree within the limits.
ghost use Rattle.std.specs.Prelude.{◌≡◌};
ghost use Rattle.c_parse.specs.declared.fault.ParseFault.TheVariants.{Memory};
ghost use Rattle.c_parse.specs.Answer.{of_script};

use c_grammar::ScriptFault;
use c_limits::Limit;
use std::alloc::{AllocError, AllocFailed};
use thiserror::Error;

/// Why tokens have no tree within the limits.
#[derive(Clone, Copy, Debug, PartialEq, Eq, Error)]
pub enum ParseFault {
    /// No tree spells the tokens. The offset is that of the first token that can't stand where it does, or the end of the
    /// last token where more would have to follow.
    #[error("syntax at {0}")]
    Syntax(usize),
    /// The tree passes a limit, first at this offset.
    #[error("limit of {0:?} passed at {1}")]
    Limit(Limit, usize),
    /// Memory ran out.
    #[error("out of memory")]
    Memory,
}

impl From<AllocError> for ParseFault {
    ghost from_gives = { λ _ e. e ≡ Memory };

    fn from(_error: AllocError) -> ParseFault {
        ParseFault::Memory
    }
}

impl<T: Drop> From<AllocFailed<T>> for ParseFault {
    ghost from_gives = { λ _ e. e ≡ Memory };

    fn from(_error: AllocFailed<T>) -> ParseFault {
        ParseFault::Memory
    }
}

impl From<ScriptFault> for ParseFault {
    ghost from_gives = { λ fault e. e ≡ of_script fault };

    fn from(fault: ScriptFault) -> ParseFault {
        match fault {
            ScriptFault::Syntax(at) => ParseFault::Syntax(at),
            ScriptFault::Memory(_) => ParseFault::Memory,
        }
    }
}
