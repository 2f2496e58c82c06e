//! The sorts of expressions that a program may hold.

ghost use Rattle.std.specs.Prelude.{◌≡◌};
ghost use Rattle.std.specs.Option.{option_map};
ghost use Rattle.expression_lang.specs.Sort.{is_truth};
ghost use Rattle.expression_lang.specs.Sorted.{program_sort};
ghost use Rattle.expression_lang.specs.CodeExpression.{exp_of};
ghost use Rattle.expression_lang.specs.CodeSort.{sort_value, scope_by};
ghost use Rattle.program_sorts.specs.CodeSorts.{HasCompleteParts};

use c_values::{GlobalVar, Layout};
use expression_lang::sort_rules::is_truth;
use expression_lang::{Exp, IsPartOfValue, Scope, Sort, sort_of};

/// The sort of an expression of a program. There is none where a part of a value is taken or
/// replaced.
pub fn program_sort<'a, N: Scope>(
    e: &'a Exp,
    names: &N,
    l: &'a Layout,
    globals: &'a [GlobalVar],
) -> Option<Sort<'a>>
    ensures sort { option_map sort_value result ≡ program_sort
        (scope_by l.now (N.scalars names.now) globals.now) (exp_of e.now) }
    ensures whole { HasCompleteParts l.now (option_map sort_value result) }
{
    // Its structs are complete.
    let _ = l.target();
    if e.any(&IsPartOfValue) {
        None
    } else {
        sort_of(e, names, l, globals)
    }
}

/// Whether an expression of a program is a test.
pub fn is_test<N: Scope>(e: &Exp, names: &N, l: &Layout, globals: &[GlobalVar]) -> bool
    ensures { result ≡ is_truth (program_sort
        (scope_by l.now (N.scalars names.now) globals.now) (exp_of e.now)) }
{
    is_truth(program_sort(e, names, l, globals))
}
