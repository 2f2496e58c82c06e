//! The checker of derivations of calls.

ghost use Rattle.std.specs.Prelude.{◌≡◌, ◌↔◌, IsTrue, true, ℕ, List, [], ◌∷◌, ◌++◌, length, map, Some, IfSome, IfNone};
ghost use Rattle.c_values.specs.Name.{Name};
ghost use Rattle.expression_lang.specs.CodeExpression.{exp_of, kind_of};
ghost use Rattle.expression_lang.specs.Signature as signatures;
ghost use Rattle.expression_lang.specs.Sort as plain_kinds;
ghost use Rattle.expression_lang.specs.Sort.{sort_of, is_truth};
ghost use Rattle.ac_expr.specs.Facts.{without_reads};
ghost use Rattle.ac_expr.specs.CodeChain.{facts_of};
ghost use Rattle.monad_lang.specs.Program as programs;
ghost use Rattle.monad_lang.specs.Program.{final_fn};
ghost use Rattle.monad_lang.specs.CodeProgram.{mon_of, final_fn_of};
ghost use Rattle.rule_trees.specs.RuleTree.{Checked, node};
ghost use Rattle.exactness.specs.Triple as plain;
ghost use Rattle.exactness.specs.Triple.{logical_names, logical_sorts, result_names};
ghost use Rattle.assertion_walks.specs.Put.{put};
ghost use Rattle.triple_lang.specs.Deriv as rules;
ghost use Rattle.triple_lang.specs.Deriv.{derived};
ghost use Rattle.triple_lang.specs.CodeDeriv.{shows, trees};
ghost use Rattle.hoare_check.specs.DeriveTable.{AreLogicalValues, Asserts, scope, table, triple_at, variables};
ghost use Rattle.hoare_check.specs.CodeCalled.{IsBehind, IsCalled, all_assertions, assertions_of};
ghost use Rattle.hoare_check.specs.CodePosed.{IsPosed, ground_of};
ghost use Rattle.hoare_check.specs.CodeResults.{names_of};
ghost use Rattle.hoare_check.specs.CodeScoping.{names_in};

use crate::assertions::{asserts, shown, shown_knowing};
use crate::called::{are_logical_values, function_in};
use crate::ground::Ground;
use crate::scoping::InScope;
use crate::value_names::{ResultValues, ResultVariables, Results, result_of};
use ac_expr::{Fact, Facts, Sequence};
use assertion_walks::{Both, is_put};
use expression_lang::{Exp, Kind, Scope};
use monad_lang::{FinalFn, Mon};
use program_sorts::Phase;
use rule_trees::next;
use triple_lang::{Entail, Triple};

// The triple at a position.
fn triple_at<'a>(position: u128, triples: &'a [Triple]) -> Option<&'a Triple>
    ensures some { IfSome result (λ t. triple_at position
        (all_assertions triples.now) ≡ Some (assertions_of t.now)) }
    ensures none { IfNone result (triple_at position (all_assertions triples.now)
        ≡ None) }
{
    let mut left = position;
    let mut rest = triples;
    'along: while let Some((first, others)) = rest.split_first() {
        if left == 0 {
            return Some(first);
        }
        left -= 1;
        rest = others;
    }
    None
}

// A triple of a function that is called.
#[derive(Clone, Copy)]
struct Callee<'a> {
    triple: &'a Triple,
    function: &'a FinalFn,
}

// The triple at a position, where it is of the function of the name.
fn callee_at<'a>(position: u128, name: &str, ground: &Ground<'a>) -> Option<Callee<'a>>
    ensures some { IfSome result (λ c. IsCalled (ground_of ground.now) position name.now
        (assertions_of c.triple.now) (final_fn_of c.function.now)) }
    ensures none { IfNone result ((t : plain.Assertions) (f : programs.FinalFn) →
        IsCalled (ground_of ground.now) position name.now t f → ⊥) }
{
    let Some(triple) = triple_at(position, ground.triples) else {
        return None;
    };
    if triple.function.as_str() != name {
        return None;
    }
    let Some(function) = function_in(&ground.unit.functions, name) else {
        return None;
    };
    Some(Callee { triple, function })
}

// Whether an expression is what the precondition says of arguments and logical values.
fn is_before(callee: Callee<'_>, arguments: &[Exp], logicals: &[Exp], e: &Exp) -> bool
    requires { length (map exp_of arguments.now)
        ≡ length (signatures.names_of (final_fn_of callee.function.now).params) }
    ensures { let t = assertions_of callee.entry.triple.now in
        let f = final_fn_of callee.entry.function.now in
        IsTrue result ↔ (exp_of e.now
        ≡ put (signatures.names_of f.params ++ logical_names t.logicals)
        (map exp_of arguments.now ++ map exp_of logicals.now) t.before) }
{
    let parameters = ResultValues {
        results: Results::Parameters(&callee.function.params),
        exps: arguments,
    };
    let variables = ResultValues {
        results: Results::Logicals(&callee.triple.logicals),
        exps: logicals,
    };
    let table = Both {
        first: &parameters,
        second: &variables,
    };
    is_put(&table, &callee.triple.before, e)
}

// Whether an expression is what the postcondition says of results and logical values.
fn is_after(callee: Callee<'_>, results: Results<'_>, logicals: &[Exp], e: &Exp) -> bool
    requires { length (names_of results)
        ≡ length (result_names (final_fn_of callee.function.now).results) }
    ensures { let t = assertions_of callee.entry.triple.now in
        let f = final_fn_of callee.entry.function.now in
        IsTrue result ↔ (exp_of e.now ≡ put (result_names f.results ++ logical_names t.logicals)
        (variables (names_of results.entry) ++ map exp_of logicals.now) t.after) }
{
    let result = ResultVariables {
        results: result_of(callee.function),
        others: results,
    };
    let variables = ResultValues {
        results: Results::Logicals(&callee.triple.logicals),
        exps: logicals,
    };
    let table = Both {
        first: &result,
        second: &variables,
    };
    is_put(&table, &callee.triple.after, e)
}

// Whether the logical variables have these values, and the expression is the precondition of them.
fn is_asked<N: Scope>(
    callee: Callee<'_>,
    arguments: &[Exp],
    logicals: &[Exp],
    before: &Exp,
    results: Results<'_>,
    names: &N,
    ground: &Ground<'_>,
) -> bool
    requires { length (map exp_of arguments.now)
        ≡ length (signatures.names_of (final_fn_of callee.function.now).params) }
    ensures { let t = assertions_of callee.entry.triple.now in
        let f = final_fn_of callee.entry.function.now in
        let ls = map exp_of logicals.now in
        IsTrue result ↔ (AreLogicalValues (scope (ground_of ground.now) (N.scalars names.now))
        (names_of results.entry) (logical_sorts t.logicals) ls
        × (exp_of before.now ≡ put (signatures.names_of f.params ++ logical_names t.logicals)
        (map exp_of arguments.now ++ ls) t.before)
        × Asserts (ground_of ground.now) (N.scalars names.now) (exp_of before.now)) }
{
    are_logical_values(&callee.triple.logicals, logicals, results, names, ground)
        && is_before(callee, arguments, logicals, before)
        && asserts(before, names, ground)
}

// Whether the expression is the postcondition of the results and the logical values.
fn is_given<O: Scope>(
    callee: Callee<'_>,
    logicals: &[Exp],
    after: &Exp,
    results: Results<'_>,
    inner: &O,
    ground: &Ground<'_>,
) -> bool
    requires { length (names_of results)
        ≡ length (result_names (final_fn_of callee.function.now).results) }
    ensures { let t = assertions_of callee.entry.triple.now in
        let f = final_fn_of callee.entry.function.now in
        IsTrue result ↔ ((exp_of after.now
        ≡ put (result_names f.results ++ logical_names t.logicals)
        (variables (names_of results.entry) ++ map exp_of logicals.now) t.after)
        × Asserts (ground_of ground.now) (O.scalars inner.now) (exp_of after.now)) }
{
    is_after(callee, results, logicals, after) && asserts(after, inner, ground)
}

// What is checked of a call by a triple of its function, with what is in scope and known behind it.
fn derived_by<S: Sequence, N: Scope, O: Scope>(
    callee: Callee<'_>,
    arguments: &[Exp],
    logicals: &[Exp],
    before: &Exp,
    asked: &Entail,
    after: &Exp,
    given: &Entail,
    results: Results<'_>,
    post: &Exp,
    facts: &Facts<'_, S>,
    names: &N,
    known: &Facts<'_, S>,
    inner: &O,
    ground: &Ground<'_>,
    at: u32,
) -> Result<u32, u32>
    requires arguments { length (map exp_of arguments.now)
        ≡ length (signatures.names_of (final_fn_of callee.function.now).params) }
    requires results { length (names_of results)
        ≡ length (result_names (final_fn_of callee.function.now).results) }
    requires truth { is_truth (sort_of (scope (ground_of ground.now) (O.scalars inner.now))
        (exp_of post.now)) ≡ true }
    ensures { let k = ground_of ground.now in
        let t = assertions_of callee.entry.triple.now in
        let f = final_fn_of callee.entry.function.now in
        let fs = facts_of (S.parts) facts.now in
        let hs = facts_of (S.parts) known.now in
        let es = map exp_of arguments.now in
        let xs = names_of results.entry in
        (i : ℕ) (g : Name) → IsCalled k i g t f →
        IsBehind k (N.scalars names.now) fs g es xs (O.scalars inner.now) hs →
        Checked (table k)
        (node (rules.Call i (map exp_of logicals.now) (exp_of before.now) (exp_of after.now))
        (trees (shows asked.now ∷ shows given.now ∷ [])))
        (derived (N.scalars names.now) fs (programs.Call g es) xs (exp_of post.now)) at result }
{
    if !is_asked(callee, arguments, logicals, before, results, names, ground)
        || !is_given(callee, logicals, after, results, inner, ground)
    {
        return Err(at);
    }
    let behind = shown(asked, before, facts, names, ground, next(at))?;
    shown_knowing(
        given,
        post,
        &Fact::Whole(after),
        known,
        inner,
        ground,
        behind,
    )
}

// What is checked of a call by a triple of its function, where the call gives a value, and where so
// much is known once what reads is forgotten.
fn derived_naming<S: Sequence, N: Scope>(
    callee: Callee<'_>,
    kind: Kind,
    arguments: &[Exp],
    logicals: &[Exp],
    before: &Exp,
    asked: &Entail,
    after: &Exp,
    given: &Entail,
    results: Results<'_>,
    post: &Exp,
    facts: &Facts<'_, S>,
    known: &Facts<'_, S>,
    names: &InScope<'_, N>,
    ground: &Ground<'_>,
    at: u32,
) -> Result<u32, u32>
    requires posed { let k = ground_of ground.now in
        let f = final_fn_of callee.function.now in
        (g : Name) × (final_fn k.unit.functions g ≡ Some f)
        × IsPosed k (names_in (N.scalars) names.now) (programs.Call g (map exp_of arguments.now))
        (names_of results) (exp_of post.now) }
    requires kind { (others : List plain_kinds.Kind)
        × ((final_fn_of callee.function.now).results ≡ kind_of kind ∷ others) }
    requires known { facts_of (S.parts) known.now
        ≡ without_reads (facts_of (S.parts) facts.now) }
    ensures { let k = ground_of ground.now in
        let t = assertions_of callee.entry.triple.now in
        let f = final_fn_of callee.entry.function.now in
        let ns = names_in (N.scalars) names.now in
        let es = map exp_of arguments.now in
        let xs = names_of results.entry in
        (i : ℕ) (g : Name) → IsCalled k i g t f →
        IsPosed k ns (programs.Call g es) xs (exp_of post.now) → Checked (table k)
        (node (rules.Call i (map exp_of logicals.now) (exp_of before.now) (exp_of after.now))
        (trees (shows asked.now ∷ shows given.now ∷ [])))
        (derived ns (facts_of (S.parts) facts.now) (programs.Call g es) xs (exp_of post.now)) at
        result }
{
    let Some(result) = results.only() else {
        return Err(at);
    };
    let scalar = Phase::OnNumbers.scalar(kind);
    let inner = InScope::Named(&*names, result, scalar);
    let bound = (&*known).bind(result, scalar);
    derived_by(
        callee, arguments, logicals, before, asked, after, given, results, post, facts, names,
        &bound, &inner, ground, at,
    )
}

/// What is checked of a call.
pub(crate) fn derived_call<S: Sequence, N: Scope>(
    triple: u128,
    logicals: &[Exp],
    before: &Exp,
    asked: &Entail,
    after: &Exp,
    given: &Entail,
    m: &Mon,
    results: Results<'_>,
    post: &Exp,
    facts: &Facts<'_, S>,
    names: &InScope<'_, N>,
    ground: &Ground<'_>,
    at: u32,
) -> Result<u32, u32>
    requires { IsPosed (ground_of ground.now) (names_in (N.scalars) names.now) (mon_of m.now)
        (names_of results) (exp_of post.now) }
    ensures { Checked (table (ground_of ground.now))
        (node (rules.Call triple (map exp_of logicals.now) (exp_of before.now)
        (exp_of after.now)) (trees (shows asked.now ∷ shows given.now ∷ [])))
        (derived (names_in (N.scalars) names.now) (facts_of (S.parts) facts.now)
        (mon_of m.now) (names_of results.entry) (exp_of post.now)) at result }
{
    let Mon::Call(name, arguments) = m else {
        return Err(at);
    };
    let Some(callee) = callee_at(triple, name.as_str(), ground) else {
        return Err(at);
    };
    let forgetting = (&*facts).forget_reads();
    let Some(kind) = callee.function.results.first() else {
        return derived_by(
            callee,
            arguments,
            logicals,
            before,
            asked,
            after,
            given,
            results,
            post,
            facts,
            names,
            &forgetting,
            &*names,
            ground,
            at,
        );
    };
    derived_naming(
        callee,
        *kind,
        arguments,
        logicals,
        before,
        asked,
        after,
        given,
        results,
        post,
        facts,
        &forgetting,
        names,
        ground,
        at,
    )
}
