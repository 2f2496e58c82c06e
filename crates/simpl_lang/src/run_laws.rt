//! Laws of commands, as contracts of functions that do nothing.

ghost use Rattle.std.specs.Prelude.{ℕ, Option, List, ◌≤◌};
ghost use Rattle.correspondence.specs.OneEnd.{OneEnd, Continues, Deeper};
ghost use Rattle.correspondence.specs.Included.{Included};
ghost use Rattle.c_values.specs.Choice.{Choice, Any, Fill};
ghost use Rattle.expression_lang.specs.Signature.{Binder, Invocation};
ghost use Rattle.simpl_lang.specs.Command.{Simpl, SimplUnit};
ghost use Rattle.expression_lang.specs.Machine.{Machine};
ghost use Rattle.simpl_lang.specs.Exec.{execs, functions_below, simpl_runs};

/// Under a fill number a call has exactly one end, and so has a command that calls the functions of
/// a unit: at every bound, every limit of nested calls, and from every machine.
pub fn commands_end_once()
    ensures calls { (u : SimplUnit) (k n : ℕ) (depth : Option ℕ) (c : Invocation) →
        OneEnd (simpl_runs u (Fill k) n depth c) }
    ensures commands { (u : SimplUnit) (k n : ℕ) (depth : Option ℕ) (locals : List Binder)
        (a : Simpl) (m : Machine) →
        OneEnd (execs u.layout (Fill k) locals a depth (functions_below u (Fill k) n) m) }
{}

/// What a call, or a command that calls the functions of a unit, does without being stopped it does
/// at every larger bound and with every deeper limit of nested calls, and with none: a stop alone
/// goes away.
pub fn commands_continue()
    ensures calls { (u : SimplUnit) (p : Choice) (m n : ℕ) → m ≤ n → (d e : Option ℕ) → Deeper d e →
        (c : Invocation) → Continues (simpl_runs u p m d c) (simpl_runs u p n e c) }
    ensures commands { (u : SimplUnit) (p : Choice) (m n : ℕ) → m ≤ n → (d e : Option ℕ) →
        Deeper d e → (locals : List Binder) (a : Simpl) (s : Machine) →
        Continues (execs u.layout p locals a d (functions_below u p m) s)
        (execs u.layout p locals a e (functions_below u p n) s) }
{}

/// What a call, or a command that calls the functions of a unit, does under a fill number it may do
/// where any value is chosen: each end under the number is one of these, at the same bound and
/// limit of nested calls.
pub fn commands_under_any_choice()
    ensures calls { (u : SimplUnit) (k n : ℕ) (depth : Option ℕ) (c : Invocation) →
        Included (simpl_runs u (Fill k) n depth c) (simpl_runs u Any n depth c) }
    ensures commands { (u : SimplUnit) (k n : ℕ) (depth : Option ℕ) (locals : List Binder)
        (a : Simpl) (m : Machine) →
        Included (execs u.layout (Fill k) locals a depth (functions_below u (Fill k) n) m)
        (execs u.layout Any locals a depth (functions_below u Any n) m) }
{}
