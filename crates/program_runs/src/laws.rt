//! Laws of runs in 128 bits, as contracts of functions that do nothing.

ghost use Rattle.std.specs.Prelude.{ℕ, Option};
ghost use Rattle.correspondence.specs.OneEnd.{OneEnd};
ghost use Rattle.c_values.specs.Choice.{Choice, Fill};
ghost use Rattle.expression_lang.specs.Signature.{Invocation};
ghost use Rattle.monad_lang.specs.Program.{FinalUnit};
ghost use Rattle.monad_lang.specs.Run.{program_runs};
ghost use Rattle.program_runs.specs.WideRun.{wide_program_runs, Narrows};

/// A call in 128 bits that meets no wide operation does what the call does where numbers have no
/// limit: it gives the same, it fails and it stops where that one does.
pub fn narrow_calls_are_calls()
    ensures { (u : FinalUnit) (p : Choice) (n : ℕ) (depth : Option ℕ) (c : Invocation) →
        Narrows (wide_program_runs u p n depth c) (program_runs u p n depth c) }
{}

/// Under a fill number a call has exactly one end in 128 bits: a wide operation, failure, a stop, or
/// values with a state.
pub fn calls_in_128_bits_end_once()
    ensures { (u : FinalUnit) (k n : ℕ) (depth : Option ℕ) (c : Invocation) →
        OneEnd (wide_program_runs u (Fill k) n depth c) }
{}
