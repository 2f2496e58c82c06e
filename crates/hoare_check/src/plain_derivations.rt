//! The checker of derivations that have none in them.

ghost use Rattle.std.specs.Prelude.{[], ◌∷◌};
ghost use Rattle.expression_lang.specs.CodeExpression.{exp_of};
ghost use Rattle.ac_expr.specs.CodeChain.{facts_of};
ghost use Rattle.monad_lang.specs.CodeProgram.{mon_of};
ghost use Rattle.rule_trees.specs.RuleTree.{Checked, node};
ghost use Rattle.triple_lang.specs.Deriv as rules;
ghost use Rattle.triple_lang.specs.Deriv.{derived};
ghost use Rattle.hoare_check.specs.DeriveTable.{table};
ghost use Rattle.triple_lang.specs.CodeDeriv.{shows, trees};
ghost use Rattle.hoare_check.specs.CodePosed.{IsPosed, ground_of};
ghost use Rattle.hoare_check.specs.CodeResults.{names_of};
ghost use Rattle.hoare_check.specs.CodeScoping.{names_in};

use crate::assertions::{asserts, shown, shown_knowing};
use crate::ground::Ground;
use crate::scoping::InScope;
use crate::value_names::{ResultValues, Results};
use ac_expr::{Fact, Facts, Sequence};
use assertion_walks::{is_before_global, is_put};
use expression_lang::{Exp, Scope};
use monad_lang::{Mon, Place};
use program_sorts::Phase;
use rule_trees::next;
use triple_lang::Entail;

/// What is checked of values that are given.
pub(crate) fn derived_ret<S: Sequence, N: Scope>(
    before: &Exp,
    tree: &Entail,
    m: &Mon,
    results: Results<'_>,
    post: &Exp,
    facts: &Facts<'_, S>,
    names: &N,
    ground: &Ground<'_>,
    at: u32,
) -> Result<u32, u32>
    ensures { Checked (table (ground_of ground.now))
        (node (rules.Ret (exp_of before.now)) (trees (shows tree.now ∷ [])))
        (derived (N.scalars names.now) (facts_of (S.parts) facts.now) (mon_of m.now)
        (names_of results.entry) (exp_of post.now)) at result }
{
    let Mon::Ret(values) = m else {
        return Err(at);
    };
    let table = ResultValues {
        results,
        exps: values,
    };
    if !asserts(before, names, ground) || !is_put(&table, post, before) {
        return Err(at);
    }
    shown(tree, before, facts, names, ground, next(at))
}

/// What is checked of a guard.
pub(crate) fn derived_guard<S: Sequence, N: Scope>(
    first: &Entail,
    last: &Entail,
    m: &Mon,
    results: Results<'_>,
    post: &Exp,
    facts: &Facts<'_, S>,
    names: &N,
    ground: &Ground<'_>,
    at: u32,
) -> Result<u32, u32>
    requires { IsPosed (ground_of ground.now) (N.scalars names.now) (mon_of m.now)
        (names_of results) (exp_of post.now) }
    ensures { Checked (table (ground_of ground.now))
        (node rules.Guard (trees (shows first.now ∷ shows last.now ∷ [])))
        (derived (N.scalars names.now) (facts_of (S.parts) facts.now) (mon_of m.now)
        (names_of results.entry) (exp_of post.now)) at result }
{
    let Mon::Guard(condition) = m else {
        return Err(at);
    };
    let behind = shown(first, condition, facts, names, ground, next(at))?;
    shown_knowing(
        last,
        post,
        &Fact::Whole(condition),
        facts,
        names,
        ground,
        behind,
    )
}

/// What is checked of a write to a global.
pub(crate) fn derived_gset<S: Sequence, N: Scope>(
    before: &Exp,
    tree: &Entail,
    m: &Mon,
    results: Results<'_>,
    post: &Exp,
    facts: &Facts<'_, S>,
    names: &N,
    ground: &Ground<'_>,
    at: u32,
) -> Result<u32, u32>
    ensures { Checked (table (ground_of ground.now))
        (node (rules.Gset (exp_of before.now)) (trees (shows tree.now ∷ [])))
        (derived (N.scalars names.now) (facts_of (S.parts) facts.now) (mon_of m.now)
        (names_of results.entry) (exp_of post.now)) at result }
{
    let Mon::Write(Place::Global(name, path), value) = m else {
        return Err(at);
    };
    if !asserts(before, names, ground)
        || !is_before_global(name.as_str(), path, value, post, before)
    {
        return Err(at);
    }
    shown(tree, before, facts, names, ground, next(at))
}

/// What is checked of a value that may be any.
pub(crate) fn derived_pick<S: Sequence, N: Scope>(
    tree: &Entail,
    m: &Mon,
    results: Results<'_>,
    post: &Exp,
    facts: &Facts<'_, S>,
    names: &InScope<'_, N>,
    ground: &Ground<'_>,
    at: u32,
) -> Result<u32, u32>
    requires { IsPosed (ground_of ground.now) (names_in (N.scalars) names.now) (mon_of m.now)
        (names_of results) (exp_of post.now) }
    ensures { Checked (table (ground_of ground.now))
        (node rules.Pick (trees (shows tree.now ∷ [])))
        (derived (names_in (N.scalars) names.now) (facts_of (S.parts) facts.now)
        (mon_of m.now) (names_of results.entry) (exp_of post.now)) at result }
{
    let Mon::Pick(kind) = m else {
        return Err(at);
    };
    let Some(name) = results.only() else {
        return Err(at);
    };
    let scalar = Phase::OnNumbers.scalar(*kind);
    let inner = InScope::Named(&*names, name, scalar);
    let known = (&*facts).bind(name, scalar);
    shown(tree, post, &known, &inner, ground, next(at))
}
