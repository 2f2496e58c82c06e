//! Laws of programs, as contracts of functions that do nothing.

ghost use Rattle.std.specs.Prelude.{ℕ, Option, ◌≤◌};
ghost use Rattle.correspondence.specs.OneEnd.{OneEnd, Continues, Deeper};
ghost use Rattle.correspondence.specs.Included.{Included};
ghost use Rattle.c_values.specs.Choice.{Choice, Any, Fill};
ghost use Rattle.expression_lang.specs.Evaluation.{Env, State};
ghost use Rattle.expression_lang.specs.Signature.{Invocation};
ghost use Rattle.monad_lang.specs.Program.{Mon, FinalUnit};
ghost use Rattle.monad_lang.specs.Run.{runs, functions_below, program_runs};

/// Under a fill number a call has exactly one end, and so has a program that calls the functions of
/// a unit: at every bound, every limit of nested calls, and from every environment and state.
pub fn programs_end_once()
    ensures calls { (u : FinalUnit) (k n : ℕ) (depth : Option ℕ) (c : Invocation) →
        OneEnd (program_runs u (Fill k) n depth c) }
    ensures programs { (u : FinalUnit) (k n : ℕ) (depth : Option ℕ) (m : Mon) (env : Env)
        (s : State) → OneEnd (runs u.layout (Fill k) m env depth (functions_below u (Fill k) n) s) }
{}

/// What a call, or a program that calls the functions of a unit, does without being stopped it does
/// at every larger bound and with every deeper limit of nested calls, and with none: a stop alone
/// goes away.
pub fn programs_continue()
    ensures calls { (u : FinalUnit) (p : Choice) (m n : ℕ) → m ≤ n → (d e : Option ℕ) → Deeper d e →
        (c : Invocation) → Continues (program_runs u p m d c) (program_runs u p n e c) }
    ensures programs { (u : FinalUnit) (p : Choice) (m n : ℕ) → m ≤ n → (d e : Option ℕ) →
        Deeper d e → (a : Mon) (env : Env) (s : State) →
        Continues (runs u.layout p a env d (functions_below u p m) s)
        (runs u.layout p a env e (functions_below u p n) s) }
{}

/// What a call, or a program that calls the functions of a unit, does under a fill number it may do
/// where any value is chosen: each end under the number is one of these, at the same bound and
/// limit of nested calls.
pub fn programs_under_any_choice()
    ensures calls { (u : FinalUnit) (k n : ℕ) (depth : Option ℕ) (c : Invocation) →
        Included (program_runs u (Fill k) n depth c) (program_runs u Any n depth c) }
    ensures programs { (u : FinalUnit) (k n : ℕ) (depth : Option ℕ) (m : Mon) (env : Env)
        (s : State) →
        Included (runs u.layout (Fill k) m env depth (functions_below u (Fill k) n) s)
        (runs u.layout Any m env depth (functions_below u Any n) s) }
{}
