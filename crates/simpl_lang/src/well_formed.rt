//! Which units are well-formed.

ghost use Rattle.std.specs.Prelude.{◌≡◌, ◌&&◌, true, map};
ghost use Rattle.c_values.specs.Name.{are_distinct};
ghost use Rattle.expression_lang.specs.Sort.{are_kinds};
ghost use Rattle.expression_lang.specs.Signature.{names_of, kinds_of};
ghost use Rattle.expression_lang.specs.CodeSignature.{binder_of};
ghost use Rattle.simpl_lang.specs.Sorted.{IsWellFormed, is_sorted, are_fns_sorted, scope_among};
ghost use Rattle.simpl_lang.specs.CodeCommand.{simpl_of, simpl_fn_of, simpl_unit_of};
ghost use Rattle.simpl_lang.specs.CodeForms.{signatures_in, is_fn_sorted, is_formed};

use crate::command::Simpl;
use crate::distinct_names::are_functions_distinct;
use crate::signed::are_signed;
use crate::sorted::is_sorted;
use crate::units::{SimplFn, SimplUnit};
use expression_lang::{Binder, Names, are_binders_distinct, are_globals_distinct};
use program_sorts::are_kinds;

/// Whether a unit is well-formed. It takes no memory, and of the stack no more for more locals.
#[tactic(auto, using(crate::proofs::Formed::formed_sound, crate::proofs::Formed::formed_complete))]
pub fn forms_ok(u: &SimplUnit) -> bool
    ensures sound { result ≡ true → IsWellFormed (simpl_unit_of u.now) }
    ensures complete { IsWellFormed (simpl_unit_of u.now) → result ≡ true }
{
    // Its layout is one.
    let _ = u.layout.target();
    is_formed(u)
}

// The same of all but the layout.
fn is_formed(u: &SimplUnit) -> bool
    ensures { result ≡ is_formed (simpl_unit_of u.now) }
{
    are_globals_distinct(&u.globals)
        && are_functions_distinct(&u.functions)
        && are_signed(&u.functions, &u.signatures)
        && are_functions_sorted(u)
}

// Whether each function has distinct locals of kinds that are, and a well-sorted body.
fn are_functions_sorted(u: &SimplUnit) -> bool
    ensures { result ≡ are_fns_sorted (simpl_unit_of u.now)
        (map simpl_fn_of u.now.functions.items) }
{
    'functions: for f in &u.functions {
        if !is_function_sorted(u, f) {
            return false;
        }
    }
    true
}

// The same of one function.
fn is_function_sorted(u: &SimplUnit, f: &SimplFn) -> bool
    ensures { result ≡ is_fn_sorted (simpl_unit_of u.now) (simpl_fn_of f.now) }
{
    are_locals_formed(&f.locals) && is_command_sorted(u, &f.locals, &f.body)
}

// Whether locals are distinct and of kinds that are.
fn are_locals_formed(locals: &[Binder]) -> bool
    ensures { let bs = map binder_of locals.now in
        result ≡ (are_kinds (kinds_of bs) && are_distinct (names_of bs)) }
{
    are_kinds(locals) && are_binders_distinct(locals)
}

/// Whether a command is well-sorted where these locals are in scope, as the body of a function of the
/// unit.
pub fn is_command_sorted(u: &SimplUnit, locals: &[Binder], c: &Simpl) -> bool
    ensures { result ≡ is_sorted
        (scope_among (simpl_unit_of u.now) (map binder_of locals.now)) (signatures_in u.now)
        (simpl_of c.now) }
{
    let outside = Names::new();
    let inside = outside.push_all(locals);
    is_sorted(c, &inside, u)
}
