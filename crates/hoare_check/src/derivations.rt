//! The checker of derivations of programs.

ghost use Rattle.std.specs.Prelude.{[], ◌∷◌};
ghost use Rattle.expression_lang.specs.CodeExpression.{exp_of};
ghost use Rattle.ac_expr.specs.CodeFacts.{fact_of};
ghost use Rattle.ac_expr.specs.CodeChain.{facts_of};
ghost use Rattle.monad_lang.specs.CodeProgram.{mon_of};
ghost use Rattle.rule_trees.specs.RuleTree.{Checked, node};
ghost use Rattle.triple_lang.specs.Deriv as rules;
ghost use Rattle.triple_lang.specs.Deriv.{derived};
ghost use Rattle.hoare_check.specs.DeriveTable.{table};
ghost use Rattle.triple_lang.specs.CodeDeriv.{shows, trees, tree_of};
ghost use Rattle.hoare_check.specs.CodePosed.{IsPosed, ground_of};
ghost use Rattle.hoare_check.specs.CodeResults.{names_of};
ghost use Rattle.hoare_check.specs.CodeScoping.{names_in};

use crate::assertions::{asserts, shown, shown_knowing};
use crate::call_derivations::derived_call;
use crate::ground::Ground;
use crate::plain_derivations::{derived_gset, derived_guard, derived_pick, derived_ret};
use crate::scoping::InScope;
use crate::turns::{begins_with, ends_with};
use crate::value_names::{Results, are_free_for};
use crate::write_derivations::derived_write;
use ac_expr::{Fact, Facts, Sequence};
use expression_lang::{Exp, Scope};
use monad_lang::Mon;
use rule_parts::no_facts;
use rule_trees::next;
use triple_lang::{Deriv, Entail};

/// What is checked of a program: the number behind the last node of a tree whose first has the
/// number `at`, or the number of the first bad node. At each level of the tree it takes some of the
/// stack.
#[cycle(derived)]
pub(crate) fn derived<S: Sequence, N: Scope>(
    tree: &Deriv,
    m: &Mon,
    results: Results<'_>,
    post: &Exp,
    facts: &Facts<'_, S>,
    names: &InScope<'_, N>,
    ground: &Ground<'_>,
    at: u32,
) -> Result<u32, u32>
    requires { IsPosed (ground_of ground.now) (names_in (N.scalars) names.now) (mon_of m.now)
        (names_of results) (exp_of post.now) }
    ensures { Checked (table (ground_of ground.now)) (tree_of tree.now)
        (derived (names_in (N.scalars) names.now) (facts_of (S.parts) facts.now)
        (mon_of m.now) (names_of results.entry) (exp_of post.now)) at result }
{
    match tree {
        Deriv::Ret(before, part) => {
            derived_ret(before, part, m, results, post, facts, names, ground, at)
        }
        Deriv::Bind(between, first, last) => derived_bind(
            between, first, last, m, results, post, facts, names, ground, at,
        ),
        Deriv::Guard(first, last) => {
            derived_guard(first, last, m, results, post, facts, names, ground, at)
        }
        Deriv::If(first, last) => {
            derived_if(first, last, m, results, post, facts, names, ground, at)
        }
        Deriv::Loop {
            invariant,
            first,
            begins,
            guarded,
            kept,
            last,
            ends,
        } => derived_loop(
            invariant, first, begins, guarded, kept, last, ends, m, results, post, facts, names,
            ground, at,
        ),
        Deriv::Call {
            triple,
            logicals,
            before,
            asked,
            after,
            given,
        } => derived_call(
            *triple, logicals, before, asked, after, given, m, results, post, facts, names, ground,
            at,
        ),
        Deriv::Pick(part) => derived_pick(part, m, results, post, facts, names, ground, at),
        Deriv::Write(before, part) => {
            derived_write(before, part, m, results, post, facts, names, ground, at)
        }
        Deriv::Gset(before, part) => {
            derived_gset(before, part, m, results, post, facts, names, ground, at)
        }
    }
}

// The same where one fact more is known.
#[cycle(derived)]
fn derived_knowing<S: Sequence, N: Scope>(
    tree: &Deriv,
    m: &Mon,
    results: Results<'_>,
    post: &Exp,
    fact: &Fact<'_>,
    facts: &Facts<'_, S>,
    names: &InScope<'_, N>,
    ground: &Ground<'_>,
    at: u32,
) -> Result<u32, u32>
    requires { IsPosed (ground_of ground.now) (names_in (N.scalars) names.now) (mon_of m.now)
        (names_of results) (exp_of post.now) }
    ensures { Checked (table (ground_of ground.now)) (tree_of tree.now)
        (derived (names_in (N.scalars) names.now) (fact_of fact.now ∷ facts_of (S.parts) facts.now)
        (mon_of m.now) (names_of results.entry) (exp_of post.now)) at result }
{
    let known = (&*facts).with(&*fact);
    derived(tree, m, results, post, &known, names, ground, at)
}

// The same of one program after another.
#[cycle(derived)]
fn derived_bind<S: Sequence, N: Scope>(
    between: &Exp,
    first: &Deriv,
    last: &Deriv,
    m: &Mon,
    results: Results<'_>,
    post: &Exp,
    facts: &Facts<'_, S>,
    names: &InScope<'_, N>,
    ground: &Ground<'_>,
    at: u32,
) -> Result<u32, u32>
    requires { IsPosed (ground_of ground.now) (names_in (N.scalars) names.now) (mon_of m.now)
        (names_of results) (exp_of post.now) }
    ensures { Checked (table (ground_of ground.now))
        (node (rules.Bind (exp_of between.now))
        (trees (tree_of first.now ∷ tree_of last.now ∷ [])))
        (derived (names_in (N.scalars) names.now) (facts_of (S.parts) facts.now)
        (mon_of m.now) (names_of results.entry) (exp_of post.now)) at result }
{
    let Mon::Bind(program, binders, rest) = m else {
        return Err(at);
    };
    let inner = InScope::Passed(&*names, ground.setting(), &*m);
    let given = Results::Names(binders);
    if !asserts(between, &inner, ground) || !are_free_for(given, results, post) {
        return Err(at);
    }
    let behind = derived(
        first,
        program,
        given,
        between,
        facts,
        names,
        ground,
        next(at),
    )?;
    derived_knowing(
        last,
        rest,
        results,
        post,
        &Fact::Whole(&*between),
        no_facts(&*facts),
        &inner,
        ground,
        behind,
    )
}

// The same of a choice.
#[cycle(derived)]
fn derived_if<S: Sequence, N: Scope>(
    first: &Deriv,
    last: &Deriv,
    m: &Mon,
    results: Results<'_>,
    post: &Exp,
    facts: &Facts<'_, S>,
    names: &InScope<'_, N>,
    ground: &Ground<'_>,
    at: u32,
) -> Result<u32, u32>
    requires { IsPosed (ground_of ground.now) (names_in (N.scalars) names.now) (mon_of m.now)
        (names_of results) (exp_of post.now) }
    ensures { Checked (table (ground_of ground.now))
        (node rules.If (trees (tree_of first.now ∷ tree_of last.now ∷ [])))
        (derived (names_in (N.scalars) names.now) (facts_of (S.parts) facts.now)
        (mon_of m.now) (names_of results.entry) (exp_of post.now)) at result }
{
    let Mon::If(test, then, other) = m else {
        return Err(at);
    };
    let behind = derived_knowing(
        first,
        then,
        results,
        post,
        &Fact::Whole(test),
        facts,
        names,
        ground,
        next(at),
    )?;
    derived_knowing(
        last,
        other,
        results,
        post,
        &Fact::Not(test),
        facts,
        names,
        ground,
        behind,
    )
}

// The same of a loop.
#[cycle(derived)]
fn derived_loop<S: Sequence, N: Scope>(
    invariant: &Exp,
    first: &Exp,
    begins: &Entail,
    guarded: &Entail,
    kept: &Deriv,
    last: &Exp,
    ends: &Entail,
    m: &Mon,
    results: Results<'_>,
    post: &Exp,
    facts: &Facts<'_, S>,
    names: &InScope<'_, N>,
    ground: &Ground<'_>,
    at: u32,
) -> Result<u32, u32>
    requires { IsPosed (ground_of ground.now) (names_in (N.scalars) names.now) (mon_of m.now)
        (names_of results) (exp_of post.now) }
    ensures { Checked (table (ground_of ground.now))
        (node (rules.Loop (exp_of invariant.now) (exp_of first.now) (exp_of last.now))
        (trees (shows begins.now ∷ shows guarded.now ∷ tree_of kept.now ∷ shows ends.now ∷ [])))
        (derived (names_in (N.scalars) names.now) (facts_of (S.parts) facts.now)
        (mon_of m.now) (names_of results.entry) (exp_of post.now)) at result }
{
    let Mon::Loop(starts, guard, test, body) = m else {
        return Err(at);
    };
    let inner = InScope::Passed(&*names, ground.setting(), &*m);
    if !begins_with(starts, invariant, first, &inner, names, ground)
        || !ends_with(starts, last, results, post, &inner, ground)
    {
        return Err(at);
    }
    let second = shown(begins, first, facts, names, ground, next(at))?;
    let holds = Fact::Whole(&*invariant);
    let held = no_facts(&*facts).with(&holds);
    let third = shown(guarded, guard, &held, &inner, ground, second)?;
    let passes = Fact::Whole(guard);
    let known = held.with(&passes);
    let fourth = derived_knowing(
        kept,
        body,
        Results::Starts(starts),
        invariant,
        &Fact::Whole(test),
        &known,
        &inner,
        ground,
        third,
    )?;
    shown_knowing(ends, last, &Fact::Not(test), &known, &inner, ground, fourth)
}
