//! The last programs of a unit.

ghost use Rattle.std.specs.Prelude.{◌≡◌, IfOk, length, map};
ghost use Rattle.c_values.specs.Name.{Name};
ghost use Rattle.expression_lang.specs.Sort as sorts;
ghost use Rattle.expression_lang.specs.CodeSignature.{signature_of};
ghost use Rattle.ac_expr.specs.SameExp.{same_exp};
ghost use Rattle.simpl_lang.specs.CodeCommand.{simpl_fn_of, simpl_unit_of};
ghost use Rattle.monad_lang.specs.CodeProgram.{final_fn_of, final_unit_of};
ghost use Rattle.monad_lang.specs.Sorted.{IsWellFormed};
ghost use Rattle.c_lang.specs.CodeTyped.{unit_of};
ghost use Rattle.c_lang.specs.WellTyped.{IsWellTyped};
ghost use Rattle.generation.specs.Generate.{generated};
ghost use Rattle.exactness.specs.Exact.{AreProgramsOf, IsExact};
ghost use Rattle.pipeline.specs.Ready.{CallsLifted};
ghost use Rattle.acceptance.specs.Accepted.{IsAccepted};
ghost use Rattle.acceptance.specs.CodeCertificate.{steps_of};
ghost use Rattle.pipeline.specs.Made.{tidy_certificate, AreTidy};
ghost use Rattle.pipeline.specs.Units.{last_unit};
ghost use Rattle.c_levels.specs.CodeModes.{AreLevels};
ghost use Rattle.unit_translation.specs.CodeTranslated.{AllReadyToLift, last_functions};
ghost use Rattle.unit_translation.specs.Forms.{AreOfTheirForms};

use crate::functions::translated;
use crate::steps::steps;
use ac_base::{Nobody, Progress, Work};
use acceptance::Steps;
use c_lang::tree::TypedUnit;
use c_levels::Modes;
use monad_lang::{FinalFn, FinalUnit};
use simpl_gen::generate;
use simpl_lang::SimplUnit;
use std::alloc::{AllocError, Global};

/// The programs of a well-typed unit at the levels of its functions: exceptions taken out, locals
/// lifted, loads made reads where a function is lifted, words made numbers where its level says so,
/// and all of it made tidy. They are those of an accepted certificate; so where a lifted function
/// calls lifted ones alone, they are exact. There is no answer only where memory is wanting.
pub fn last_programs(alloc: Global, u: &TypedUnit, modes: &Modes) -> Result<FinalUnit, AllocError>
    requires typed { IsWellTyped (unit_of u.now) }
    requires one_each { length modes.now.levels.items ≡ length u.now.functions.items }
    ensures translated { IfOk result
        (λ v. (levels : Name → sorts.Level) → AreLevels (unit_of u.now) modes.now levels →
        final_unit_of v ≡ last_unit (generated (unit_of u.now) levels)
        (tidy_certificate same_exp (generated (unit_of u.now) levels))) }
    ensures accepted { IfOk result
        (λ v. (levels : Name → sorts.Level) → AreLevels (unit_of u.now) modes.now levels →
        CallsLifted levels (unit_of u.now).functions →
        IsAccepted (generated (unit_of u.now) levels)
        (tidy_certificate same_exp (generated (unit_of u.now) levels))) }
    ensures of_unit { IfOk result
        (λ v. (levels : Name → sorts.Level) → AreLevels (unit_of u.now) modes.now levels →
        CallsLifted levels (unit_of u.now).functions →
        AreProgramsOf (unit_of u.now) levels (final_unit_of v)) }
    ensures formed { IfOk result
        (λ v. (levels : Name → sorts.Level) → AreLevels (unit_of u.now) modes.now levels →
        CallsLifted levels (unit_of u.now).functions →
        IsWellFormed (final_unit_of v) × AreOfTheirForms (final_unit_of v).functions) }
    ensures tidy { IfOk result (λ v. AreTidy (final_unit_of v).functions) }
    ensures exact { IfOk result
        (λ v. (levels : Name → sorts.Level) → AreLevels (unit_of u.now) modes.now levels →
        CallsLifted levels (unit_of u.now).functions →
        IsExact (unit_of u.now) levels (final_unit_of v)) }
{
    let generated = generate(alloc, u, modes)?;
    translate_generated(alloc, generated, &Nobody)
}

/// The same of the Simpl that was generated, where the locals of its functions can be lifted, as
/// they can be where it was generated for a well-typed unit.
pub fn translate_generated<P: Progress>(
    alloc: Global,
    u: SimplUnit,
    progress: &P,
) -> Result<FinalUnit, AllocError>
    requires ready { AllReadyToLift (simpl_unit_of u).functions (simpl_unit_of u).signatures }
    ensures last { IfOk result (λ v. final_unit_of v
        ≡ last_unit (simpl_unit_of u) (tidy_certificate same_exp (simpl_unit_of u))) }
    ensures tidy { IfOk result (λ v. AreTidy (final_unit_of v).functions) }
{
    let functions = functions(alloc, &u, progress)?;
    let SimplUnit {
        layout,
        globals,
        functions: _commands,
        signatures: _signatures,
    } = u;
    Ok(FinalUnit {
        layout,
        globals,
        functions,
    })
}

/// The steps of each function, where the locals of these can be lifted: what a certificate has for
/// them.
pub fn translate_functions<P: Progress>(
    alloc: Global,
    u: &SimplUnit,
    progress: &P,
) -> Result<Vec<Steps>, AllocError>
    requires ready { AllReadyToLift (simpl_unit_of u.now).functions
        (simpl_unit_of u.now).signatures }
    ensures { IfOk result (λ steps. map steps_of steps.items
        ≡ tidy_certificate same_exp (simpl_unit_of u.now)) }
{
    let mut made = Vec::new(alloc);
    let mut functions = u.functions.as_slice();
    let mut signatures = u.signatures.as_slice();
    'functions: while let Some((f, others)) = functions.split_first() {
        let Some((s, behind)) = signatures.split_first() else {
            break;
        };
        made.push(steps(alloc, u, f, s)?)?;
        progress.done(Work::Translation, made.len(), u.functions.len());
        functions = others;
        signatures = behind;
    }
    Ok(made)
}

// Each function with its last program.
fn functions<P: Progress>(
    alloc: Global,
    u: &SimplUnit,
    progress: &P,
) -> Result<Vec<FinalFn>, AllocError>
    requires ready { AllReadyToLift (map simpl_fn_of u.now.functions.items)
        (map signature_of u.now.signatures.items) }
    ensures { IfOk result (λ fs. map final_fn_of fs.items ≡ last_functions (simpl_unit_of u.now)
        (map simpl_fn_of u.now.functions.items) (map signature_of u.now.signatures.items)) }
{
    let mut made = Vec::new(alloc);
    let mut functions = u.functions.as_slice();
    let mut signatures = u.signatures.as_slice();
    'functions: while let Some((f, others)) = functions.split_first() {
        let Some((s, behind)) = signatures.split_first() else {
            break;
        };
        made.push(translated(alloc, u, f, s)?)?;
        progress.done(Work::Translation, made.len(), u.functions.len());
        functions = others;
        signatures = behind;
    }
    Ok(made)
}
