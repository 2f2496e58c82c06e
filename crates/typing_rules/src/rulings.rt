//! What a node's rule says against it, and the fault that this is at the node.

ghost use Rattle.std.specs.Prelude.{◌≡◌, true, false, IsErrAnd, MatchResult};
ghost use Rattle.typing_rules.specs.CodeAnswers.{fault_at};
ghost use Rattle.typing_rules.specs.Checked as checked;
ghost use Rattle.typing_rules.specs.declared.rulings.Refusal.TheVariants.{Kind, Memory};

use crate::fault::{TypeFault, TypeKind};
use std::alloc::{AllocError, AllocFailed};

/// Why a rule doesn't type a node.
#[derive(Clone, Copy, Debug, PartialEq, Eq)]
pub enum Refusal {
    /// What is wrong with it.
    Kind(TypeKind),
    /// There is no memory.
    Memory,
}

impl From<AllocError> for Refusal {
    ghost from_gives = { λ _ fault. fault ≡ Memory };

    fn from(_: AllocError) -> Self {
        Refusal::Memory
    }
}

impl<T: Drop> From<AllocFailed<T>> for Refusal {
    ghost from_gives = { λ _ fault. fault ≡ Memory };

    fn from(_: AllocFailed<T>) -> Self {
        Refusal::Memory
    }
}

/// Says no where the test holds.
pub fn refuse(test: bool, kind: TypeKind) -> Result<(), Refusal>
    ensures { MatchResult result (λ _. test ≡ false) (λ e. (test ≡ true) × (e ≡ Kind kind)) }
{
    if test {
        Err(Refusal::Kind(kind))
    } else {
        Ok(())
    }
}

/// The answer of a node's rule as that of the node, by the offset of its first token.
pub fn at_node<T: Drop>(at: usize, answer: Result<T, Refusal>) -> Result<T, TypeFault>
    ensures { MatchResult result (λ v. answer ≡ Ok v)
        (λ fault. IsErrAnd answer (λ e. fault ≡ fault_at at e)) }
{
    match answer {
        Ok(value) => Ok(value),
        Err(Refusal::Kind(kind)) => Err(TypeFault::Bad {
            at: saturated(at),
            kind,
        }),
        Err(Refusal::Memory) => Err(TypeFault::Memory),
    }
}

// The offset, or the last `u32` past that.
fn saturated(at: usize) -> u32
    ensures { result ≡ checked.saturated at }
{
    if at < u32::MAX as usize {
        at as u32
    } else {
        u32::MAX
    }
}
