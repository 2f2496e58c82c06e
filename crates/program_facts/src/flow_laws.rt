//! Laws of facts along programs, as contracts of functions that do nothing.

ghost use Rattle.std.specs.Prelude.{ℕ, List, Option};
ghost use Rattle.correspondence.specs.Outcome.{Done};
ghost use Rattle.c_values.specs.Name.{Name};
ghost use Rattle.c_values.specs.Choice.{Choice};
ghost use Rattle.expression_lang.specs.Evaluation.{Env, State};
ghost use Rattle.expression_lang.specs.Signature.{bound};
ghost use Rattle.ac_expr.specs.Fact.{Fact, AllSay};
ghost use Rattle.monad_lang.specs.Program.{Mon, FinalUnit};
ghost use Rattle.monad_lang.specs.Run.{Answer, runs, functions_below};
ghost use Rattle.program_facts.specs.Flow.{facts_after};

/// The facts that are kept after a program hold wherever a run of it is done, with its values bound
/// to their names, if the facts before it held where it began.
pub fn facts_hold_after()
    ensures { (u : FinalUnit) (p : Choice) (n : ℕ) (m : Mon) (xs : List Name) (fs : List Fact)
        (env : Env) (depth : Option ℕ) (s : State) → AllSay u.layout env s fs →
        (a : Answer) → runs u.layout p m env depth (functions_below u p n) s (Done a) →
        AllSay u.layout (bound xs a.values env) a.state (facts_after m xs fs) }
{}
