//! Whether one triple is accepted.

ghost use Rattle.std.specs.Prelude.{◌≡◌, ◌↔◌, IsTrue, true, [], ◌∷◌, map, OnOk, IfErr};
ghost use Rattle.expression_lang.specs.CodeExpression.{level_of};
ghost use Rattle.expression_lang.specs.Sort.{is_lifted};
ghost use Rattle.ac_expr.specs.Fact.{Whole};
ghost use Rattle.monad_lang.specs.Sorted.{IsWellFormed, is_fn_sorted};
ghost use Rattle.monad_lang.specs.CodeProgram.{final_fn_of, final_unit_of};
ghost use Rattle.rule_trees.specs.RuleTree.{Checked};
ghost use Rattle.exactness.specs.Triple.{AreAssertions, result_names};
ghost use Rattle.triple_lang.specs.Deriv.{derived};
ghost use Rattle.triple_lang.specs.CodeDeriv.{tree_of, triple_of};
ghost use Rattle.hoare_check.specs.Accepted.{IsAccepted, ground, names_before};
ghost use Rattle.hoare_check.specs.DeriveTable.{Asserts, table};
ghost use Rattle.hoare_check.specs.Verdict.{IsFaultAt};
ghost use Rattle.hoare_check.specs.CodeCalled.{assertions_of};
ghost use Rattle.hoare_check.specs.CodeNames.{names_afterwards};
ghost use Rattle.hoare_check.specs.CodePosed.{ground_of};

use crate::assertions::asserts;
use crate::called::function_in;
use crate::derivations::derived;
use crate::ground::Ground;
use crate::scoping::InScope;
use crate::triple_names::{Parameters, WithLogicals, are_distinct_together, only_result};
use crate::value_names::{Results, result_of};
use ac_expr::{Fact, Facts};
use expression_lang::{Level, Names};
use monad_lang::{FinalFn, FinalUnit};
use program_facts::Parts;
use triple_lang::Triple;

// Whether programs at the level are on typed heaps.
fn is_lifted(level: Level) -> bool
    ensures { result ≡ is_lifted (level_of level) }
{
    match level {
        Level::Bytes => false,
        Level::Words | Level::Numbers => true,
    }
}

// Whether the precondition is an assertion of the parameters and the logical variables.
fn asserts_before(triple: &Triple, function: &FinalFn, ground: &Ground<'_>) -> bool
    ensures { let t = assertions_of triple.now in
        IsTrue result ↔ Asserts (ground_of ground.now) (names_before (final_fn_of function.now) t)
        t.before }
{
    let parameters = Parameters {
        binders: &function.params,
    };
    let names = WithLogicals {
        logicals: &triple.logicals,
        outer: &parameters,
    };
    asserts(&triple.before, &names, ground)
}

// Whether the postcondition is an assertion of the result and the logical variables.
fn asserts_after(triple: &Triple, function: &FinalFn, ground: &Ground<'_>) -> bool
    requires { is_fn_sorted (final_unit_of ground.now.unit.now) (final_fn_of function.now) ≡ true }
    ensures { let t = assertions_of triple.now in
        IsTrue result ↔ Asserts (ground_of ground.now)
        (names_afterwards (final_fn_of function.now) t) t.after }
{
    let none = Names::new();
    let result = only_result(&none, function);
    let names = WithLogicals {
        logicals: &triple.logicals,
        outer: &result,
    };
    asserts(&triple.after, &names, ground)
}

// Whether the names of a triple are distinct, and its assertions are ones of the function.
fn are_assertions(triple: &Triple, function: &FinalFn, ground: &Ground<'_>) -> bool
    requires sorted { is_fn_sorted (final_unit_of ground.now.unit.now) (final_fn_of function.now)
        ≡ true }
    requires level { ground.now.lifted ≡ is_lifted (final_fn_of function.now).level }
    ensures { IsTrue result ↔ AreAssertions (final_unit_of ground.now.unit.now)
        (final_fn_of function.now) (assertions_of triple.now) }
{
    let logicals = Results::Logicals(&triple.logicals);
    are_distinct_together(Results::Parameters(&function.params), logicals)
        && !logicals.has("result")
        && asserts_before(triple, function, ground)
        && asserts_after(triple, function, ground)
}

// What is checked of a triple's derivation.
fn derived_triple(triple: &Triple, function: &FinalFn, ground: &Ground<'_>) -> Result<u32, u32>
    requires sorted { is_fn_sorted (final_unit_of ground.now.unit.now) (final_fn_of function.now)
        ≡ true }
    requires level { ground.now.lifted ≡ is_lifted (final_fn_of function.now).level }
    requires assertions { AreAssertions (final_unit_of ground.now.unit.now)
        (final_fn_of function.now) (assertions_of triple.now) }
    ensures { let f = final_fn_of function.now in
        let t = assertions_of triple.now in
        Checked (table (ground_of ground.now)) (tree_of triple.now.derivation)
        (derived (names_before f t) (Whole t.before ∷ []) f.body (result_names f.results) t.after)
        0 result }
{
    let unit = ground.unit;
    let parameters = Parameters {
        binders: &function.params,
    };
    let names = WithLogicals {
        logicals: &triple.logicals,
        outer: &parameters,
    };
    let nowhere = Names::new();
    let none: Facts<'_, Parts<'_>> = Facts::new(&unit.layout, &unit.globals, &nowhere);
    let before = Fact::Whole(&triple.before);
    let known = (&none).with(&before);
    let inside = InScope::Outer(&names);
    derived(
        &triple.derivation,
        &function.body,
        result_of(function),
        &triple.after,
        &known,
        &inside,
        ground,
        0,
    )
}

/// Whether a triple is accepted, where derivations may use all of these triples; or the first node
/// of its derivation that is no instance of its rule.
#[tactic(auto, using(rule_trees::proofs::Checking::checked_accepts))]
pub(crate) fn accepted(triple: &Triple, unit: &FinalUnit, triples: &[Triple]) -> Result<(), u32>
    requires { IsWellFormed (final_unit_of unit.now) }
    ensures accepted { OnOk result (IsAccepted (final_unit_of unit.now)
        (map triple_of triples.now) (triple_of triple.now)) }
    ensures refused { IfErr result (λ n. IsFaultAt (final_unit_of unit.now)
        (map triple_of triples.now) (triple_of triple.now) n) }
{
    let Some(function) = function_in(&unit.functions, triple.function.as_str()) else {
        return Err(0);
    };
    let ground = Ground {
        unit,
        lifted: is_lifted(function.level),
        triples,
    };
    if !are_assertions(triple, function, &ground) {
        return Err(0);
    }
    match derived_triple(triple, function, &ground) {
        Ok(_) => Ok(()),
        Err(at) => Err(at),
    }
}
