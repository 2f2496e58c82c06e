//! The last program of one function.

ghost use Rattle.std.specs.Prelude.{◌≡◌, IfOk, map};
ghost use Rattle.std.specs.Option.{option_map};
ghost use Rattle.expression_lang.specs.CodeExpression.{kind_of};
ghost use Rattle.expression_lang.specs.CodeSignature.{binder_of, signature_of};
ghost use Rattle.simpl_lang.specs.CodeCommand.{simpl_fn_of, simpl_unit_of};
ghost use Rattle.monad_lang.specs.CodeProgram.{mon_of, final_fn_of};
ghost use Rattle.rule_word.specs.Scopes.{result_as_list};
ghost use Rattle.pipeline.specs.Units.{on_numbers};
ghost use Rattle.unit_translation.specs.CodeTranslated.{IsReadyToLift, last_program};

use crate::steps::steps;
use expression_lang::{Binder, Kind, Signature};
use monad_lang::{FinalFn, Mon};
use simpl_lang::{SimplFn, SimplUnit};
use std::alloc::{AllocError, Global};

/// A function with its last program, which takes and gives what its signature says.
pub(crate) fn translated(
    alloc: Global,
    u: &SimplUnit,
    f: &SimplFn,
    s: &Signature,
) -> Result<FinalFn, AllocError>
    requires ready { IsReadyToLift (simpl_fn_of f.now) (signature_of s.now) }
    ensures { IfOk result (λ g. final_fn_of g ≡ on_numbers (signature_of s.now)
        (last_program (simpl_unit_of u.now) (simpl_fn_of f.now) (signature_of s.now))) }
{
    let steps = steps(alloc, u, f, s)?;
    last_function(alloc, s, &steps.equal.program)
}

/// A function with a copy of its last program, which takes and gives what its signature says.
pub fn last_function(alloc: Global, s: &Signature, program: &Mon) -> Result<FinalFn, AllocError>
    ensures { IfOk result (λ g. final_fn_of g
        ≡ on_numbers (signature_of s.now) (mon_of program.now)) }
{
    let body = program.copy(alloc)?;
    Ok(FinalFn {
        name: s.name.clone()?,
        level: s.level,
        params: copy_of_binders(alloc, &s.params)?,
        results: results(alloc, s.result)?,
        body: Box::into_inner(body),
    })
}

fn results(alloc: Global, given: Option<Kind>) -> Result<Vec<Kind>, AllocError>
    ensures { IfOk result
        (λ ks. map kind_of ks.items ≡ result_as_list (option_map kind_of given)) }
{
    let mut results = Vec::new(alloc);
    if let Some(kind) = given {
        results.push(kind)?;
    }
    Ok(results)
}

fn copy_of_binders(alloc: Global, binders: &[Binder]) -> Result<Vec<Binder>, AllocError>
    ensures { IfOk result (λ bs. map binder_of bs.items ≡ map binder_of binders.now) }
{
    let mut copies = Vec::new(alloc);
    let mut rest = binders;
    'binders: while let Some((binder, others)) = rest.split_first() {
        copies.push(Binder {
            name: binder.name.clone()?,
            kind: binder.kind,
        })?;
        rest = others;
    }
    Ok(copies)
}
