//! Functions with their last programs, and units of them.

ghost use Rattle.std.specs.Prelude.{◌≡◌, IfOk, map};
ghost use Rattle.expression_lang.specs.CodeSignature.{signature_of};
ghost use Rattle.simpl_lang.specs.CodeCommand.{simpl_unit_of};
ghost use Rattle.monad_lang.specs.CodeProgram.{final_fn_of, final_unit_of};
ghost use Rattle.acceptance.specs.CodeCertificate.{steps_of};
ghost use Rattle.pipeline.specs.Units.{functions_with, on_numbers};

use acceptance::Steps;
use expression_lang::Signature;
use monad_lang::{FinalFn, FinalUnit};
use simpl_gen::{copy_of_globals, copy_of_layout};
use simpl_lang::SimplUnit;
use std::alloc::{AllocError, Global};
use unit_translation::last_function;

/// A unit of functions, over what another stands over.
pub(crate) fn with_functions(
    alloc: Global,
    u: &SimplUnit,
    functions: Vec<FinalFn>,
) -> Result<FinalUnit, AllocError>
    ensures { IfOk result (λ v. final_unit_of v ≡ record {
      layout = (simpl_unit_of u.now).layout;
      globals = (simpl_unit_of u.now).globals;
      functions = map final_fn_of functions.items;
    }) }
{
    let layout = copy_of_layout(alloc, &u.layout)?;
    let globals = copy_of_globals(alloc, &u.globals)?;
    Ok(FinalUnit {
        layout,
        globals,
        functions,
    })
}

/// Each function of a certificate with its last program.
pub(crate) fn last_functions(
    alloc: Global,
    signatures: &[Signature],
    certificate: &[Steps],
) -> Result<Vec<FinalFn>, AllocError>
    ensures { IfOk result (λ made. map final_fn_of made.items
        ≡ functions_with on_numbers (λ steps. steps.equal.program)
        (map signature_of signatures.now) (map steps_of certificate.now)) }
{
    let mut made = Vec::new(alloc);
    let mut signed = signatures;
    let mut listed = certificate;
    'functions: while let Some((signature, signatures)) = signed.split_first() {
        let Some((steps, certificate)) = listed.split_first() else {
            break;
        };
        made.push(last_function(alloc, signature, &steps.equal.program)?)?;
        signed = signatures;
        listed = certificate;
    }
    Ok(made)
}
