//! Certificates that are held whole: whether they are accepted, and their last programs.

ghost use Rattle.std.specs.Prelude.{◌≡◌, None, IfOk, map};
ghost use Rattle.c_values.specs.Name.{Name};
ghost use Rattle.expression_lang.specs.Sort as sorts;
ghost use Rattle.simpl_lang.specs.CodeCommand.{simpl_unit_of};
ghost use Rattle.simpl_lang.specs.Sorted.{IsWellFormed};
ghost use Rattle.monad_lang.specs.CodeProgram.{final_unit_of};
ghost use Rattle.c_lang.specs.Typed as typed;
ghost use Rattle.c_lang.specs.WellTyped.{IsWellTyped};
ghost use Rattle.generation.specs.Generate.{generated};
ghost use Rattle.acceptance.specs.Accepted.{IsAccepted};
ghost use Rattle.acceptance.specs.CodeCertificate.{steps_of};
ghost use Rattle.pipeline.specs.Units.{last_unit};
ghost use Rattle.certificate_text.specs.CodeCertificate.{certificate_of};
ghost use Rattle.checking.specs.Refused.{names_apart, AreAtLevels, IsJudged, IsAnswer, Decides};
ghost use Rattle.checking.specs.CodeRefused.{answer_of};
ghost use Rattle.checking.specs.Programs.{AreExactPrograms};

use crate::last_programs::{last_functions, with_functions};
use crate::names::apart;
use crate::refused::Refused;
use acceptance::{Refusal, Steps, check_functions};
use certificate_text::Certificate;
use monad_lang::FinalUnit;
use simpl_lang::SimplUnit;
use std::alloc::{AllocError, Global};

/// Whether a certificate is accepted for a unit that was generated at its levels, and else the
/// first place where it isn't. No memory is taken.
pub fn check_certificate(u: &SimplUnit, c: &Certificate) -> Result<(), Refused>
    requires formed { IsWellFormed (simpl_unit_of u.now) }
    requires at_levels { AreAtLevels (simpl_unit_of u.now) (certificate_of c.now).functions }
    ensures answer { IsAnswer (simpl_unit_of u.now) (certificate_of c.now).functions
        (answer_of result) }
    ensures decided { Decides (simpl_unit_of u.now) (certificate_of c.now).functions
        (answer_of result) }
{
    match apart(&u.functions, &c.functions) {
        Some((at, _name)) => Err(Refused::at_names(at)),
        None => check_listed(u, &c.functions),
    }
}

// The same of a certificate whose functions are the unit's.
fn check_listed(u: &SimplUnit, certificate: &[Steps]) -> Result<(), Refused>
    requires formed { IsWellFormed (simpl_unit_of u.now) }
    requires at_levels { AreAtLevels (simpl_unit_of u.now) (map steps_of certificate.now) }
    requires listed { names_apart (simpl_unit_of u.now) (map steps_of certificate.now) ≡ None }
    ensures { IsJudged (simpl_unit_of u.now) (map steps_of certificate.now) (answer_of result) }
{
    match check_functions(u, certificate) {
        Ok(()) => Ok(()),
        Err(Refusal::Function(at, place)) => Err(Refused::at_place(at, place)),
        Err(Refusal::List(_)) => unreachable!(),
    }
}

/// The unit of a certificate's last programs: what its functions of a generated unit become in the
/// end.
pub fn final_unit(alloc: Global, u: &SimplUnit, c: &Certificate) -> Result<FinalUnit, AllocError>
    ensures last { IfOk result (λ v. final_unit_of v
        ≡ last_unit (simpl_unit_of u.now) (certificate_of c.now).functions) }
    ensures exact { (unit : typed.TypedUnit) (levels : Name → sorts.Level) → IsWellTyped unit →
        simpl_unit_of u.now ≡ generated unit levels →
        IsAccepted (simpl_unit_of u.now) (certificate_of c.now).functions →
        IfOk result (λ v. AreExactPrograms unit levels (final_unit_of v)) }
{
    let functions = last_functions(alloc, &u.signatures, &c.functions)?;
    with_functions(alloc, u, functions)
}
