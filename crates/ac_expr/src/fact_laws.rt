//! Laws of facts, as contracts of functions that do nothing.

ghost use Rattle.std.specs.Prelude.{◌≡◌, true, List};
ghost use Rattle.c_values.specs.Layout.{Layout};
ghost use Rattle.expression_lang.specs.Expression.{Exp};
ghost use Rattle.expression_lang.specs.Evaluation.{Env, State, holds};
ghost use Rattle.ac_expr.specs.Fact.{Fact, AllSay};
ghost use Rattle.ac_expr.specs.Known.{IsKnown};

/// What is known from facts holds wherever the facts do.
pub fn known_facts_hold()
    ensures { (l : Layout) (env : Env) (s : State) (fs : List Fact) (e : Exp) →
        AllSay l env s fs → IsKnown fs e → holds l env s e ≡ true }
{}
