//! Which commands are well-sorted.

ghost use Rattle.std.specs.Prelude.{◌≡◌, map};
ghost use Rattle.expression_lang.specs.Sorted.{program_sort};
ghost use Rattle.expression_lang.specs.CodeExpression.{exp_of};
ghost use Rattle.expression_lang.specs.CodeSort.{names_of};
ghost use Rattle.program_sorts.specs.Sorts.{is_scalar_of};
ghost use Rattle.simpl_lang.specs.Sorted.{is_sorted, is_local, are_conditions};
ghost use Rattle.simpl_lang.specs.CodeCommand.{condition_of, simpl_of};
ghost use Rattle.simpl_lang.specs.CodeForms.{scope_in, signatures_in};

use crate::calls::is_call_sorted;
use crate::command::{Condition, Simpl};
use crate::units::SimplUnit;
use expression_lang::{Exp, Names};
use program_sorts::{fits_global, fits_object, is_of, is_test, program_sort};

/// Whether a command is well-sorted where these names are in scope. It goes along a sequence by a
/// loop, since a text may have long ones.
pub(crate) fn is_sorted(c: &Simpl, names: &Names<'_>, u: &SimplUnit) -> bool
    ensures { result ≡ is_sorted (scope_in u.now names.now) (signatures_in u.now) (simpl_of c.now) }
{
    let mut rest = c;
    'down: loop {
        match rest {
            Simpl::Skip | Simpl::Throw => return true,
            Simpl::Set(name, value) => return fits_local(u, names, name.as_str(), value),
            Simpl::SetGlobal(name, path, value) => return fits_global(
                name.as_str(),
                path,
                value,
                names,
                &u.layout,
                &u.globals,
            ),
            Simpl::Store(t, pointer, path, value) => return fits_object(
                t, pointer, path, value, names, &u.layout, &u.globals,
            ),
            Simpl::Pick(name) => return is_local(names, name.as_str()),
            Simpl::Call(target, function, arguments) => return is_call_sorted(
                u,
                names,
                target,
                function.as_str(),
                arguments,
            ),
            Simpl::Seq(first, last) | Simpl::Catch(first, last) => {
                if !is_sorted(first, names, u) {
                    return false;
                }
                rest = &**last;
            }
            Simpl::Cond(test, first, last) => {
                if !is_test(test, names, &u.layout, &u.globals) || !is_sorted(first, names, u) {
                    return false;
                }
                rest = &**last;
            }
            Simpl::Guard(condition, last) => {
                if !is_test(&condition.exp, names, &u.layout, &u.globals) {
                    return false;
                }
                rest = &**last;
            }
            Simpl::While(conditions, test, last) => {
                if !are_conditions(u, names, conditions)
                    || !is_test(test, names, &u.layout, &u.globals)
                {
                    return false;
                }
                rest = &**last;
            }
        }
    }
}

// Whether a value may go to a local.
fn fits_local(u: &SimplUnit, names: &Names<'_>, name: &str, value: &Exp) -> bool
    ensures { let g = scope_in u.now names.now in
        result ≡ is_scalar_of (g.names name.now) (program_sort g (exp_of value.now)) }
{
    match names.get(name) {
        Some(scalar) => is_of(scalar, program_sort(value, names, &u.layout, &u.globals)),
        None => false,
    }
}

fn is_local(names: &Names<'_>, name: &str) -> bool
    ensures { result ≡ is_local (names_of names.now name.now) }
{
    names.get(name).is_some()
}

// Whether each condition is a test.
fn are_conditions(u: &SimplUnit, names: &Names<'_>, conditions: &[Condition]) -> bool
    ensures { result ≡ are_conditions (scope_in u.now names.now) (map condition_of conditions.now) }
{
    'conditions: for condition in conditions {
        if !is_test(&condition.exp, names, &u.layout, &u.globals) {
            return false;
        }
    }
    true
}
