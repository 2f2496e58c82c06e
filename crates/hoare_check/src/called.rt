//! What the rule of a call asks of its logical variables, and the function that is called.

ghost use Rattle.std.specs.Prelude.{◌≡◌, ◌↔◌, IsTrue, true, false, map, Some, None, IfSome, IfNone};
ghost use Rattle.expression_lang.specs.CodeExpression.{exp_of};
ghost use Rattle.expression_lang.specs.CodeSort.{scalar_of};
ghost use Rattle.expression_lang.specs.Mentions.{reads};
ghost use Rattle.expression_lang.specs.Sort.{sort_of};
ghost use Rattle.ac_expr.specs.Lasting.{is_unnamed};
ghost use Rattle.monad_lang.specs.Program.{final_fn};
ghost use Rattle.monad_lang.specs.CodeProgram.{final_fn_of};
ghost use Rattle.exactness.specs.Triple.{logical_sorts};
ghost use Rattle.hoare_check.specs.DeriveTable.{AreLogicalValues, is_scalar_of, scope};
ghost use Rattle.triple_lang.specs.CodeDeriv.{logical_of};
ghost use Rattle.hoare_check.specs.CodePosed.{ground_of};
ghost use Rattle.hoare_check.specs.CodeResults.{names_of};

use crate::ground::Ground;
use crate::value_names::Results;
use expression_lang::sort_rules::are_same;
use expression_lang::{Exp, IsName, IsReading, Scalar, Scope, Sort, sort_of};
use monad_lang::FinalFn;
use triple_lang::Logical;

/// The first function of the name, where there is one.
pub(crate) fn function_in<'a>(functions: &'a [FinalFn], name: &str) -> Option<&'a FinalFn>
    ensures found { IfSome result (λ f. final_fn (map final_fn_of functions.now) name.now
        ≡ Some (final_fn_of f.now)) }
    ensures none { IfNone result (final_fn (map final_fn_of functions.now) name.now ≡ None) }
{
    let mut rest = functions;
    'functions: while let Some((first, others)) = rest.split_first() {
        if first.name.as_str() == name {
            return Some(first);
        }
        rest = others;
    }
    None
}

// Whether an expression has none of the names.
fn is_without(names: Results<'_>, e: &Exp) -> bool
    ensures { result ≡ is_unnamed (names_of names.entry) (exp_of e.now) }
{
    let mut rest = names;
    'along: while let Some((name, others)) = rest.next() {
        if e.any(&IsName { name }) {
            return false;
        }
        rest = others;
    }
    true
}

// Whether an expression is of a sort.
fn is_of_sort<N: Scope>(scalar: Scalar, e: &Exp, names: &N, ground: &Ground<'_>) -> bool
    ensures { result ≡ is_scalar_of (scalar_of scalar)
        (sort_of (scope (ground_of ground.now) (N.scalars names.now)) (exp_of e.now)) }
{
    let unit = ground.unit;
    are_same(
        sort_of(e, names, &unit.layout, &unit.globals),
        Some(Sort::Of(scalar)),
    )
}

// Whether an expression may be the value of a logical variable.
fn is_logical_value<N: Scope>(
    scalar: Scalar,
    e: &Exp,
    results: Results<'_>,
    names: &N,
    ground: &Ground<'_>,
) -> bool
    ensures { IsTrue result ↔ ((is_scalar_of (scalar_of scalar)
        (sort_of (scope (ground_of ground.now) (N.scalars names.now)) (exp_of e.now)) ≡ true)
        × (reads (exp_of e.now) ≡ false)
        × (is_unnamed (names_of results.entry) (exp_of e.now) ≡ true)) }
{
    is_of_sort(scalar, e, names, ground) && !e.any(&IsReading) && is_without(results, e)
}

/// Whether each logical variable has a value.
pub(crate) fn are_logical_values<N: Scope>(
    logicals: &[Logical],
    values: &[Exp],
    results: Results<'_>,
    names: &N,
    ground: &Ground<'_>,
) -> bool
    ensures { IsTrue result
        ↔ AreLogicalValues (scope (ground_of ground.now) (N.scalars names.now))
        (names_of results.entry) (logical_sorts (map logical_of logicals.now))
        (map exp_of values.now) }
{
    let mut own = logicals;
    let mut rest = values;
    'along: loop {
        let Some((logical, others)) = own.split_first() else {
            return rest.is_empty();
        };
        let Some((value, behind)) = rest.split_first() else {
            return false;
        };
        if !is_logical_value(logical.scalar, value, results, names, ground) {
            return false;
        }
        own = others;
        rest = behind;
    }
}
