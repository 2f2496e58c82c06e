//! The certificate of a typed unit, and its text.

ghost use Rattle.std.specs.Prelude.{◌≡◌, IfOk, length, map, string_bytes};
ghost use Rattle.c_values.specs.Name.{Name};
ghost use Rattle.expression_lang.specs.Sort as sorts;
ghost use Rattle.ac_expr.specs.SameExp.{same_exp};
ghost use Rattle.simpl_lang.specs.CodeCommand.{simpl_unit_of};
ghost use Rattle.c_lang.specs.CodeTyped.{unit_of};
ghost use Rattle.c_lang.specs.WellTyped.{IsWellTyped};
ghost use Rattle.generation.specs.Generate.{generated};
ghost use Rattle.pipeline.specs.Ready.{CallsLifted};
ghost use Rattle.acceptance.specs.Accepted.{IsAccepted};
ghost use Rattle.pipeline.specs.Made.{tidy_certificate, AreTidy};
ghost use Rattle.pipeline.specs.Units.{last_unit};
ghost use Rattle.c_levels.specs.CodeModes.{levels_in, AreLevels};
ghost use Rattle.unit_translation.specs.CodeTranslated.{AllReadyToLift};
ghost use Rattle.certificate_text.specs.CertificateText.{Two, certificate_text};
ghost use Rattle.certificate_text.specs.CodeCertificate.{certificate_of};
ghost use Rattle.ac_core.specs.Written.{certificate_for};

use ac_base::{Nobody, Progress};
use c_lang::tree::TypedUnit;
use c_levels::Modes;
use certificate_text::{Certificate, Version, write};
use command_line::target_of;
use simpl_gen::generate;
use simpl_lang::SimplUnit;
use std::alloc::{AllocError, Global};
use unit_translation::translate_functions;

/// The certificate of a well-typed unit, whose functions have these levels, in their order. There is
/// no answer only where memory is wanting.
pub fn translate_unit(alloc: Global, u: &TypedUnit, m: &Modes) -> Result<Certificate, AllocError>
    requires typed { IsWellTyped (unit_of u.now) }
    requires one_each { length m.now.levels.items ≡ length u.now.functions.items }
    ensures accepted { IfOk result (λ c. (levels : Name → sorts.Level) →
        AreLevels (unit_of u.now) m.now levels → CallsLifted levels (unit_of u.now).functions →
        IsAccepted (generated (unit_of u.now) levels) (certificate_of c).functions) }
    ensures target { IfOk result
        (λ c. (certificate_of c).version ≡ Two (unit_of u.now).layout.target) }
    ensures levels { IfOk result
        (λ c. map (λ f. f.level) (certificate_of c).functions ≡ levels_in m.now) }
    ensures tidy { IfOk result (λ c. (levels : Name → sorts.Level) →
        AreLevels (unit_of u.now) m.now levels → AreTidy
        (last_unit (generated (unit_of u.now) levels) (certificate_of c).functions).functions) }
{
    let generated = generate(alloc, u, m)?;
    let functions = translate_functions(alloc, &generated, &Nobody)?;
    Ok(Certificate {
        version: Version::Two(u.layout.target()),
        functions,
    })
}

/// The text of the certificate of what was generated, for the target that the options choose.
pub(crate) fn certificate<P: Progress>(
    alloc: Global,
    generated: &SimplUnit,
    options: &[String],
    progress: &P,
) -> Result<Vec<u8>, AllocError>
    requires ready { AllReadyToLift (simpl_unit_of generated.now).functions
        (simpl_unit_of generated.now).signatures }
    ensures { IfOk result (λ lines. lines.items ≡ certificate_text
        (certificate_for (map string_bytes options.now)
        (tidy_certificate same_exp (simpl_unit_of generated.now)))) }
{
    let functions = translate_functions(alloc, generated, progress)?;
    let version = Version::Two(target_of(options));
    write(alloc, &Certificate { version, functions })
}
