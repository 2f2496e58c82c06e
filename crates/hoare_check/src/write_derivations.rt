//! The checker of derivations of writes to typed heaps.

ghost use Rattle.std.specs.Prelude.{◌≡◌, ◌↔◌, IsTrue, true, [], ◌∷◌};
ghost use Rattle.expression_lang.specs.CodeExpression.{exp_of};
ghost use Rattle.ac_expr.specs.CodeChain.{facts_of};
ghost use Rattle.monad_lang.specs.CodeProgram.{mon_of};
ghost use Rattle.rule_trees.specs.RuleTree.{Checked, node};
ghost use Rattle.assertion_walks.specs.Written.{IsBeforeWrite};
ghost use Rattle.triple_lang.specs.Deriv as rules;
ghost use Rattle.triple_lang.specs.Deriv.{derived};
ghost use Rattle.hoare_check.specs.DeriveTable.{Asserts, scope, table};
ghost use Rattle.triple_lang.specs.CodeDeriv.{shows, trees};
ghost use Rattle.assertion_walks.specs.CodePlace.{place_in};
ghost use Rattle.hoare_check.specs.CodePosed.{ground_of};
ghost use Rattle.hoare_check.specs.CodeResults.{names_of};

use crate::assertions::{asserts, shown};
use crate::ground::Ground;
use crate::value_names::Results;
use ac_expr::{Facts, Sequence};
use assertion_walks::is_before_write;
use expression_lang::{Exp, Scope};
use monad_lang::{Mon, Place};
use rule_trees::next;
use triple_lang::Entail;

// Whether the expression is what the postcondition says before the value is written at the place.
fn stands_before<N: Scope>(
    place: &assertion_walks::Place<'_>,
    value: &Exp,
    post: &Exp,
    before: &Exp,
    names: &N,
    ground: &Ground<'_>,
) -> bool
    ensures { IsTrue result
        ↔ IsBeforeWrite (scope (ground_of ground.now) (N.scalars names.now))
        (place_in place.now) (exp_of value.now) (exp_of post.now) (exp_of before.now) }
{
    let unit = ground.unit;
    is_before_write(
        place,
        value,
        post,
        before,
        names,
        &unit.layout,
        &unit.globals,
    )
}

// Whether it is an assertion of typed heaps too.
fn asserts_before<N: Scope>(
    place: &assertion_walks::Place<'_>,
    value: &Exp,
    post: &Exp,
    before: &Exp,
    names: &N,
    ground: &Ground<'_>,
) -> bool
    ensures { IsTrue result ↔ ((ground.now.lifted ≡ true)
        × Asserts (ground_of ground.now) (N.scalars names.now) (exp_of before.now)
        × IsBeforeWrite (scope (ground_of ground.now) (N.scalars names.now))
        (place_in place.now) (exp_of value.now) (exp_of post.now) (exp_of before.now)) }
{
    ground.lifted
        && asserts(before, names, ground)
        && stands_before(place, value, post, before, names, ground)
}

/// What is checked of a write to a typed heap.
pub(crate) fn derived_write<S: Sequence, N: Scope>(
    before: &Exp,
    tree: &Entail,
    m: &Mon,
    results: Results<'_>,
    post: &Exp,
    facts: &Facts<'_, S>,
    names: &N,
    ground: &Ground<'_>,
    at: u32,
) -> Result<u32, u32>
    ensures { Checked (table (ground_of ground.now))
        (node (rules.Write (exp_of before.now)) (trees (shows tree.now ∷ [])))
        (derived (N.scalars names.now) (facts_of (S.parts) facts.now) (mon_of m.now)
        (names_of results.entry) (exp_of post.now)) at result }
{
    let Mon::Write(Place::Written(t, address, path), value) = m else {
        return Err(at);
    };
    let place = assertion_walks::Place {
        ty: t,
        address,
        path,
    };
    if !asserts_before(&place, value, post, before, names, ground) {
        return Err(at);
    }
    shown(tree, before, facts, names, ground, next(at))
}
