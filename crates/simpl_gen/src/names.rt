//! The names of the locals that generation adds.

ghost use Rattle.std.specs.Prelude.{◌≡◌, IfOk, string_bytes};
ghost use Rattle.simpl_lang.specs.Exec.{result_local};
ghost use Rattle.simpl_lang.specs.Flag.{thrown_local};
ghost use Rattle.generation.specs.Generate as rules;

use std::alloc::{AllocError, Global};

/// Where a function's result is.
pub(crate) fn result_local(alloc: Global) -> Result<String, AllocError>
    ensures { IfOk result (λ x. string_bytes x ≡ result_local) }
{
    String::from_str(alloc, "$ret")
}

/// Why a command ended abruptly.
pub(crate) fn exception_local(alloc: Global) -> Result<String, AllocError>
    ensures { IfOk result (λ x. string_bytes x ≡ rules.exception_local) }
{
    String::from_str(alloc, "$exn")
}

/// Whether a command ended abruptly, once there are no exceptions.
pub(crate) fn thrown_local(alloc: Global) -> Result<String, AllocError>
    ensures { IfOk result (λ x. string_bytes x ≡ thrown_local) }
{
    String::from_str(alloc, "$thrown")
}

/// Where a call leaves its result.
pub(crate) fn call_local(alloc: Global, n: u64) -> Result<String, AllocError>
    ensures { IfOk result (λ x. string_bytes x ≡ rules.call_local n) }
{
    format!(in alloc; "$r{n}")
}

/// Where a switch leaves its operand.
pub(crate) fn switch_local(alloc: Global, n: u64) -> Result<String, AllocError>
    ensures { IfOk result (λ x. string_bytes x ≡ rules.switch_local n) }
{
    format!(in alloc; "$sw{n}")
}

/// Whether a do-while is in front of its first turn.
pub(crate) fn first_local(alloc: Global, n: u64) -> Result<String, AllocError>
    ensures { IfOk result (λ x. string_bytes x ≡ rules.first_local n) }
{
    format!(in alloc; "$first{n}")
}
