//! Laws of steps, as contracts of functions that do nothing.

ghost use Rattle.std.specs.Prelude.{◌≡◌, List, Some};
ghost use Rattle.c_values.specs.Layout.{IsLayout, GlobalVar, global_type};
ghost use Rattle.expression_lang.specs.Expression.{Exp};
ghost use Rattle.expression_lang.specs.Evaluation.{Env, State, value};
ghost use Rattle.expression_lang.specs.Sort.{Scope, Sort, sort_of};
ghost use Rattle.expression_lang.specs.States.{IsEnvironment, IsState};
ghost use Rattle.ac_expr.specs.Fact.{Fact, AllSay};
ghost use Rattle.ac_expr.specs.Step.{IsStep, OneStepApart};

/// Where the facts hold, a step takes a well-sorted expression to one that has its value; and
/// well-sorted expressions that are one step apart have one value.
pub fn one_step_is_exact()
    ensures steps { (g : Scope) (vs : List GlobalVar) (fs : List Fact) (a b : Exp) (o : Sort)
        (env : Env) (s : State) → IsLayout g.layout → g.globals ≡ global_type vs →
        IsEnvironment g env → IsState g.layout vs s → AllSay g.layout env s fs →
        sort_of g a ≡ Some o → IsStep g fs a b → value g.layout env s a ≡ value g.layout env s b }
    ensures places { (g : Scope) (vs : List GlobalVar) (fs : List Fact) (a b : Exp) (o q : Sort)
        (env : Env) (s : State) → IsLayout g.layout → g.globals ≡ global_type vs →
        IsEnvironment g env → IsState g.layout vs s → AllSay g.layout env s fs →
        sort_of g a ≡ Some o → sort_of g b ≡ Some q → OneStepApart g fs a b →
        value g.layout env s b ≡ value g.layout env s a }
{}
