//! Laws of what runs keep, as contracts of functions that do nothing.

ghost use Rattle.std.specs.Prelude.{◌≡◌, ℕ, true, List, Option, Some};
ghost use Rattle.correspondence.specs.Always.{Always};
ghost use Rattle.c_values.specs.Name.{Name};
ghost use Rattle.c_values.specs.Choice.{Choice};
ghost use Rattle.c_values.specs.Layout.{IsLayout};
ghost use Rattle.expression_lang.specs.Sort.{Kind, Scalar, sort_of_kind};
ghost use Rattle.expression_lang.specs.Evaluation.{Env, State};
ghost use Rattle.expression_lang.specs.Signature.{Invocation};
ghost use Rattle.expression_lang.specs.States.{IsEnvironment, IsState};
ghost use Rattle.monad_lang.specs.Program.{Mon, FinalUnit};
ghost use Rattle.monad_lang.specs.Run.{runs, functions_below, program_runs};
ghost use Rattle.monad_lang.specs.Sorted.{scalars_given, IsWellFormed};
ghost use Rattle.program_facts.specs.Lasting.{KeepsTags, Lasts, UnitLasts, setting_in, are_sorted_for};

/// A run leaves the tags as they were: whatever a function is called with, and from every
/// environment and state.
pub fn runs_keep_tags()
    ensures calls { (u : FinalUnit) (p : Choice) (n : ℕ) (depth : Option ℕ) (c : Invocation) →
        Always (KeepsTags c.state) (program_runs u p n depth c) }
    ensures programs { (u : FinalUnit) (p : Choice) (n : ℕ) (depth : Option ℕ) (m : Mon)
        (env : Env) (s : State) →
        Always (KeepsTags s) (runs u.layout p m env depth (functions_below u p n) s) }
{}

/// The functions of a unit whose programs are well-sorted give values of their results' sorts and
/// leave states that can be: of a well-formed unit, and at any sorts for the kinds. So do
/// well-sorted programs that call them.
pub fn sorted_units_last()
    ensures formed { (u : FinalUnit) → IsWellFormed u → UnitLasts sort_of_kind u }
    ensures sorted { (sort_for : Kind → Scalar) (u : FinalUnit) → IsLayout u.layout →
        are_sorted_for sort_for u u.functions ≡ true → UnitLasts sort_for u }
    ensures programs { (sort_for : Kind → Scalar) (u : FinalUnit) → IsLayout u.layout →
        are_sorted_for sort_for u u.functions ≡ true →
        (p : Choice) (n : ℕ) (names : Name → Option Scalar) (m : Mon) (cs : List Scalar) →
        scalars_given (setting_in sort_for u names) m ≡ Some cs →
        (env : Env) → IsEnvironment (setting_in sort_for u names).scope env →
        (depth : Option ℕ) (s : State) → IsState u.layout u.globals s →
        Always (Lasts u.layout u.globals cs s)
        (runs u.layout p m env depth (functions_below u p n) s) }
{}
