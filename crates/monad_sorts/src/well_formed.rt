//! Which units are well-formed.

ghost use Rattle.std.specs.Prelude.{◌≡◌, ◌&&◌, true, map};
ghost use Rattle.expression_lang.specs.Sort.{are_kinds};
ghost use Rattle.expression_lang.specs.CodeExpression.{kind_of};
ghost use Rattle.expression_lang.specs.CodeSignature.{signature_of};
ghost use Rattle.c_values.specs.CodeValue.{global_of};
ghost use Rattle.program_sorts.specs.CodeSorts.{sort_for};
ghost use Rattle.monad_lang.specs.Sorted.{IsWellFormed, is_fn_sorted, are_fns_sorted, is_body_sorted};
ghost use Rattle.monad_lang.specs.CodeProgram.{mon_of, final_fn_of, final_unit_of};
ghost use Rattle.monad_sorts.specs.CodeSorted.{is_program_sorted, is_formed};

use crate::inside::Inside;
use crate::names::are_functions_distinct;
use crate::settings::{Functions, Setting};
use crate::sorted::gives;
use c_values::{GlobalVar, Layout};
use expression_lang::{Kind, Signature, are_binders_distinct, are_globals_distinct};
use monad_lang::{FinalFn, FinalUnit, Mon};
use program_sorts::{Phase, are_kinds, is_kind};

/// Whether a unit is well-formed. It takes no memory, and of the stack no more for longer programs.
/// A look-up of a name takes time that grows as the length of the program, so the whole takes time
/// that grows as its square.
#[tactic(auto, using(crate::proofs::Formed::formed_sound, crate::proofs::Formed::formed_complete))]
pub fn is_well_formed(u: &FinalUnit) -> bool
    ensures sound { result ≡ true → IsWellFormed (final_unit_of u.now) }
    ensures complete { IsWellFormed (final_unit_of u.now) → result ≡ true }
{
    // Its layout is one.
    let _ = u.layout.target();
    is_formed(u)
}

/// Whether a function's program is well-sorted in a phase, and gives at most one value, of its
/// result's kind.
pub fn is_program_sorted(u: &FinalUnit, phase: Phase, f: &FinalFn) -> bool
    ensures { result ≡ is_program_sorted (sort_for phase) (final_unit_of u.now)
        (final_fn_of f.now) }
{
    let parameters = Inside::Parameters(&f.params, phase);
    let setting = Setting {
        layout: &u.layout,
        globals: &u.globals,
        functions: Functions::Programs(&u.functions),
        phase,
    };
    gives(&f.body, &f.results, &parameters, setting)
}

/// The same of a program that is a function's of this signature, over these structs, globals and
/// functions.
pub fn is_body_sorted(
    body: &Mon,
    signature: &Signature,
    phase: Phase,
    layout: &Layout,
    globals: &[GlobalVar],
    functions: &[Signature],
) -> bool
    ensures { result ≡ is_body_sorted (sort_for phase) layout.now (map global_of globals.now)
        (map signature_of functions.now) (signature_of signature.now) (mon_of body.now) }
{
    let setting = Setting {
        layout,
        globals,
        functions: Functions::Signatures(functions),
        phase,
    };
    let parameters = Inside::Parameters(&signature.params, phase);
    match signature.result {
        None => gives(body, &[], &parameters, setting),
        Some(kind) => gives(body, &[kind], &parameters, setting),
    }
}

// The same of all but the layout.
fn is_formed(u: &FinalUnit) -> bool
    ensures { result ≡ is_formed (final_unit_of u.now) }
{
    are_globals_distinct(&u.globals)
        && are_functions_distinct(&u.functions)
        && are_functions_sorted(u)
}

// Whether each function has distinct parameters, kinds that are, and a well-sorted program.
fn are_functions_sorted(u: &FinalUnit) -> bool
    ensures { result ≡ are_fns_sorted (final_unit_of u.now)
        (map final_fn_of u.now.functions.items) }
{
    'functions: for f in &u.functions {
        if !is_function_sorted(u, f) {
            return false;
        }
    }
    true
}

// The same of one function.
fn is_function_sorted(u: &FinalUnit, f: &FinalFn) -> bool
    ensures { result ≡ is_fn_sorted (final_unit_of u.now) (final_fn_of f.now) }
{
    are_kinds(&f.params)
        && are_results_kinds(&f.results)
        && are_binders_distinct(&f.params)
        && is_program_sorted(u, Phase::OnNumbers, f)
}

// Whether each result is of a kind that is.
fn are_results_kinds(kinds: &[Kind]) -> bool
    ensures { result ≡ are_kinds (map kind_of kinds.now) }
{
    'kinds: for kind in kinds {
        if !is_kind(*kind) {
            return false;
        }
    }
    true
}
