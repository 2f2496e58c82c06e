//! Why a text is no memory's.
ghost use Rattle.std.specs.Prelude.{◌≡◌};
ghost use Rattle.memory_text.specs.declared.fault.MemoryFault.TheVariants.{Text};

use expression_text::TextFault;
use thiserror::Error;

/// Why there is no memory to start from.
#[derive(Clone, Copy, Debug, PartialEq, Eq, Error)]
pub enum MemoryFault {
    /// The text isn't of the form, or memory ran out.
    #[error("{0}")]
    Text(TextFault),
    /// The text is of the form, and gives a run more turns than 100,000.
    #[error("too many turns")]
    Turns,
}

impl From<TextFault> for MemoryFault {
    ghost from_gives = { λ fault e. e ≡ Text fault };

    fn from(fault: TextFault) -> MemoryFault {
        MemoryFault::Text(fault)
    }
}
