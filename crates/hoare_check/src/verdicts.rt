//! Which triples are accepted, and what is derived of one program.

ghost use Rattle.std.specs.Prelude.{◌≡◌, ℕ, min, map, string_bytes, OnOk, IfErr};
ghost use Rattle.c_values.specs.Choice.{Choice};
ghost use Rattle.expression_lang.specs.CodeExpression.{exp_of};
ghost use Rattle.ac_expr.specs.CodeChain.{facts_of};
ghost use Rattle.monad_lang.specs.Sorted.{IsWellFormed};
ghost use Rattle.monad_lang.specs.CodeProgram.{mon_of, final_unit_of};
ghost use Rattle.rule_trees.specs.RuleTree.{last_number};
ghost use Rattle.exactness.specs.SteadyUnits.{IsUnitSteady};
ghost use Rattle.entailment.specs.CodeClaim.{verdict_of};
ghost use Rattle.triple_lang.specs.CodeDeriv.{tree_of, triple_of};
ghost use Rattle.hoare_check.specs.Accepted.{AllAccepted, AreTriples, CallsLifted, HoldBelow, IsDerived, IsSortedFor, ground_with};
ghost use Rattle.hoare_check.specs.Holding.{AllHold};
ghost use Rattle.hoare_check.specs.Verdict.{IsFirstFault, IsDerivVerdict};

use crate::accepting::accepted;
use crate::assertions::asserts;
use crate::derivations::derived;
use crate::ground::Ground;
use crate::place::TripleAt;
use crate::program_names::Behind;
use crate::scoping::InScope;
use crate::value_names::Results;
use ac_expr::{Facts, Sequence};
use expression_lang::{Exp, Scope};
use monad_lang::{FinalUnit, Mon};
use rule_trees::{At, next};
use triple_lang::{Deriv, Triple};

/// Whether triples are all accepted of a unit's programs, where a derivation may use each of them
/// wherever a function is called: yes exactly where each node of each is an instance of its rule,
/// and then they hold of a steady unit's programs; else the first triple that isn't, and where. A
/// triple past the last number of 32 bits is told by that number. No memory is taken, and nothing
/// is built. For each level of a derivation it takes some of the stack.
pub fn check(unit: &FinalUnit, triples: &[Triple]) -> Result<(), TripleAt>
    requires { IsWellFormed (final_unit_of unit.now) }
    ensures accepted { let ts = map triple_of triples.now in
        OnOk result (AllAccepted (final_unit_of unit.now) ts ts) }
    ensures refused { let ts = map triple_of triples.now in
        IfErr result (λ at. (k : ℕ) × (at.triple ≡ min k last_number)
        × IsFirstFault (final_unit_of unit.now) ts ts k at.node) }
    ensures holds { OnOk result (IsUnitSteady (final_unit_of unit.now) →
        AllHold (final_unit_of unit.now) (map triple_of triples.now)) }
{
    let mut rest = triples;
    let mut number = 0;
    'along: while let Some((triple, others)) = rest.split_first() {
        if let Err(node) = accepted(triple, unit, triples) {
            return Err(TripleAt {
                triple: number,
                node,
            });
        }
        number = next(number);
        rest = others;
    }
    Ok(())
}

/// Whether a tree derives an assertion of what a program gives from facts, under the names of its
/// values and with these names in scope, where it may use triples wherever a function is called:
/// yes exactly where the assertion is one behind the program and each node is an instance of its
/// rule, and then it holds wherever the triples do at smaller bounds; else the first node that
/// isn't, which is 0 where the assertion is none. No memory is taken, and nothing is built. For
/// each level of the tree it takes some of the stack.
#[tactic(auto, using(rule_trees::proofs::Checking::checked_accepts))]
pub fn derives<S: Sequence, N: Scope>(
    unit: &FinalUnit,
    triples: &[Triple],
    lifted: bool,
    facts: &Facts<'_, S>,
    names: &N,
    m: &Mon,
    results: &[String],
    post: &Exp,
    tree: &Deriv,
) -> Result<(), At>
    requires formed { IsWellFormed (final_unit_of unit.now) }
    requires sorted { IsSortedFor
        (ground_with (final_unit_of unit.now) lifted (map triple_of triples.now))
        (N.scalars names.now) (mon_of m.now) (map string_bytes results.now) }
    ensures verdict { IsDerivVerdict
        (ground_with (final_unit_of unit.now) lifted (map triple_of triples.now))
        (N.scalars names.now) (facts_of (S.parts) facts.now) (mon_of m.now)
        (map string_bytes results.now) (exp_of post.now) (tree_of tree.now) (verdict_of result) }
    ensures holds { let u = final_unit_of unit.now in
        let k = ground_with u lifted (map triple_of triples.now) in
        let program = mon_of m.now in
        OnOk result (IsUnitSteady u → AreTriples u k.triples → CallsLifted k program →
        (p : Choice) (n : ℕ) → HoldBelow k p n →
        IsDerived k p n (N.scalars names.now) (facts_of (S.parts) facts.now) program
        (map string_bytes results.now) (exp_of post.now)) }
{
    let ground = Ground {
        unit,
        lifted,
        triples,
    };
    let behind = Behind {
        outer: names,
        setting: ground.setting(),
        program: m,
        results,
    };
    if !asserts(post, &behind, &ground) {
        return Err(At(0));
    }
    let inside = InScope::Outer(names);
    let given = Results::Names(results);
    match derived(tree, m, given, post, facts, &inside, &ground, 0) {
        Ok(_) => Ok(()),
        Err(at) => Err(At(at)),
    }
}
