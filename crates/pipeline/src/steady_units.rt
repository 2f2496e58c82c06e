//! What an accepted certificate promises of its last programs beside what they do, as the contract
//! of a function that does nothing.

ghost use Rattle.std.specs.Prelude.{List};
ghost use Rattle.c_values.specs.Name.{Name};
ghost use Rattle.expression_lang.specs.Sort.{Level};
ghost use Rattle.c_lang.specs.Typed.{TypedUnit};
ghost use Rattle.c_lang.specs.WellTyped.{IsWellTyped};
ghost use Rattle.generation.specs.Generate.{generated};
ghost use Rattle.acceptance.specs.Certificate.{Steps};
ghost use Rattle.acceptance.specs.Accepted.{IsAccepted};
ghost use Rattle.pipeline.specs.Units.{last_unit};
ghost use Rattle.exactness.specs.SteadyUnits.{IsUnitSteady};

/// Of the last programs of a certificate that is accepted for what generation makes of a well-typed
/// unit, at whatever levels: a lifted function calls lifted ones alone; each program is in range
/// wherever its function begins with arguments of its parameters' kinds; and a lifted function's
/// program is steady there.
pub fn accepted_units_are_steady()
    ensures { (u : TypedUnit) → IsWellTyped u → (levels : Name → Level)
        (certificate : List Steps) → IsAccepted (generated u levels) certificate →
        IsUnitSteady (last_unit (generated u levels) certificate) }
{}
