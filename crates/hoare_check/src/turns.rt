//! What the rule of a loop asks.

ghost use Rattle.std.specs.Prelude.{◌≡◌, ◌↔◌, IsTrue, true, map};
ghost use Rattle.expression_lang.specs.CodeExpression.{exp_of};
ghost use Rattle.monad_lang.specs.Run.{start_names};
ghost use Rattle.monad_lang.specs.CodeProgram.{start_of};
ghost use Rattle.rule_parts.specs.Starts.{start_exps};
ghost use Rattle.assertion_walks.specs.Put.{put};
ghost use Rattle.hoare_check.specs.DeriveTable.{Asserts, are_free_for, variables};
ghost use Rattle.hoare_check.specs.CodePosed.{ground_of};
ghost use Rattle.hoare_check.specs.CodeResults.{names_of};

use crate::assertions::asserts;
use crate::ground::Ground;
use crate::value_names::{ResultVariables, Results, are_free_for};
use assertion_walks::{StartsFor, is_put};
use expression_lang::{Exp, Scope};
use monad_lang::Start;

/// Whether the invariant is an assertion in the loop, and says the first of the values that the
/// loop begins with.
#[tactic(auto, using(assertion_walks::proofs::PutTables::put_by))]
pub(crate) fn begins_with<N: Scope, O: Scope>(
    starts: &[Start],
    invariant: &Exp,
    first: &Exp,
    inner: &O,
    names: &N,
    ground: &Ground<'_>,
) -> bool
    ensures { IsTrue result ↔ (Asserts (ground_of ground.now) (O.scalars inner.now)
        (exp_of invariant.now)
        × Asserts (ground_of ground.now) (N.scalars names.now) (exp_of first.now)
        × (exp_of first.now ≡ put (start_names (map start_of starts.now))
        (start_exps (map start_of starts.now)) (exp_of invariant.now))) }
{
    asserts(invariant, inner, ground)
        && asserts(first, names, ground)
        && is_put(&StartsFor { starts }, invariant, first)
}

/// Whether the last is an assertion in the loop, and is what the postcondition says of the loop's
/// names.
#[tactic(auto, using(assertion_walks::proofs::PutTables::put_by))]
pub(crate) fn ends_with<O: Scope>(
    starts: &[Start],
    last: &Exp,
    results: Results<'_>,
    post: &Exp,
    inner: &O,
    ground: &Ground<'_>,
) -> bool
    ensures { IsTrue result ↔ (Asserts (ground_of ground.now) (O.scalars inner.now)
        (exp_of last.now)
        × (exp_of last.now ≡ put (names_of results.entry)
        (variables (start_names (map start_of starts.now))) (exp_of post.now))
        × (are_free_for (start_names (map start_of starts.now)) (names_of results.entry)
        (exp_of post.now) ≡ true)) }
{
    let table = ResultVariables {
        results,
        others: Results::Starts(starts),
    };
    asserts(last, inner, ground)
        && is_put(&table, post, last)
        && are_free_for(Results::Starts(starts), results, post)
}
