//! Laws of C runs, as contracts of functions that do nothing.

ghost use Rattle.std.specs.Prelude.{◌≡◌, ℕ, Option, ◌≤◌, Ok};
ghost use Rattle.correspondence.specs.Outcome.{Failed};
ghost use Rattle.correspondence.specs.Corresponds.{Corresponds};
ghost use Rattle.correspondence.specs.OneEnd.{OneEnd, Continues, Deeper};
ghost use Rattle.correspondence.specs.Included.{Included};
ghost use Rattle.c_values.specs.Name.{Name};
ghost use Rattle.c_values.specs.Value.{Value};
ghost use Rattle.c_values.specs.Layout.{Layout};
ghost use Rattle.c_values.specs.Choice.{Choice, Any, Fill};
ghost use Rattle.expression_lang.specs.Sort.{Level, Bytes};
ghost use Rattle.expression_lang.specs.Signature.{Invocation};
ghost use Rattle.expression_lang.specs.Machine.{Machine};
ghost use Rattle.expression_lang.specs.GuardKind.{GuardKind, Tag, Wrap};
ghost use Rattle.c_lang.specs.Typed.{Expr, Statement, TypedUnit};
ghost use Rattle.c_meaning.specs.CValue.{Context, value};
ghost use Rattle.c_meaning.specs.CRun.{Setting, statement, functions_below, c_runs, plain};

/// Under a fill number a call has exactly one end, and so has a statement that calls the functions
/// of a unit: at every bound, every limit of nested calls, and from every machine, whatever the
/// levels watch.
pub fn statements_end_once()
    ensures calls { (u : TypedUnit) (levels : Name → Level) (k n : ℕ) (depth : Option ℕ)
        (c : Invocation) → OneEnd (c_runs u levels (Fill k) n depth c) }
    ensures statements { (u : TypedUnit) (levels : Name → Level) (k n : ℕ) (depth : Option ℕ)
        (t : Setting) → t.choice ≡ Fill k → (s : Statement) (m : Machine) →
        OneEnd (statement t s depth (functions_below u levels (Fill k) n) m) }
{}

/// What a call, or a statement that calls the functions of a unit, does without being stopped it
/// does at every larger bound and with every deeper limit of nested calls, and with none: a stop
/// alone goes away.
pub fn statements_continue()
    ensures calls { (u : TypedUnit) (levels : Name → Level) (p : Choice) (m n : ℕ) → m ≤ n →
        (d e : Option ℕ) → Deeper d e → (c : Invocation) →
        Continues (c_runs u levels p m d c) (c_runs u levels p n e c) }
    ensures statements { (u : TypedUnit) (levels : Name → Level) (p : Choice) (m n : ℕ) → m ≤ n →
        (d e : Option ℕ) → Deeper d e → (t : Setting) (s : Statement) (a : Machine) →
        Continues (statement t s d (functions_below u levels p m) a)
        (statement t s e (functions_below u levels p n) a) }
{}

/// What a function's level watches beside the six hard kinds changes nothing but that it is
/// undefined: where the watched run meets neither an uncovered root nor an unsigned result that
/// doesn't fit, it has exactly the ends of the plain run, stops and other faults included. So it is
/// where the watched run isn't undefined at all. And an expression that has a value has that value
/// plainly.
pub fn watching_keeps_ends()
    ensures values { (c : Context) (e : Expr) (v : Value) → value c e ≡ Ok v →
        value (record { layout = c.layout; level = Bytes; locals = c.locals; state = c.state }) e
        ≡ Ok v }
    ensures met_no_extra { (u : TypedUnit) (levels : Name → Level) (p : Choice) (n : ℕ)
        (depth : Option ℕ) (c : Invocation) → (c_runs u levels p n depth c (Failed Tag) → ⊥) →
        (c_runs u levels p n depth c (Failed Wrap) → ⊥) → Corresponds (λ a b. a ≡ b)
        (λ f g. f ≡ g) (c_runs u levels p n depth c) (c_runs u plain p n depth c) }
    ensures defined { (u : TypedUnit) (levels : Name → Level) (p : Choice) (n : ℕ)
        (depth : Option ℕ) (c : Invocation) →
        ((k : GuardKind) → c_runs u levels p n depth c (Failed k) → ⊥) → Corresponds (λ a b. a ≡ b)
        (λ f g. f ≡ g) (c_runs u levels p n depth c) (c_runs u plain p n depth c) }
{}

/// What a call, or a statement that calls the functions of a unit, does under a fill number it may
/// do where any value is chosen: each end under the number is one of these, at the same bound and
/// limit of nested calls.
pub fn statements_under_any_choice()
    ensures calls { (u : TypedUnit) (levels : Name → Level) (k n : ℕ) (depth : Option ℕ)
        (c : Invocation) →
        Included (c_runs u levels (Fill k) n depth c) (c_runs u levels Any n depth c) }
    ensures statements { (u : TypedUnit) (levels : Name → Level) (k n : ℕ) (depth : Option ℕ)
        (l : Layout) (level : Level) (s : Statement) (m : Machine) →
        Included (statement (record { layout = l; choice = Fill k; level = level }) s depth
        (functions_below u levels (Fill k) n) m)
        (statement (record { layout = l; choice = Any; level = level }) s depth
        (functions_below u levels Any n) m) }
{}
