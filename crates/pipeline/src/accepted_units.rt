//! What an accepted certificate promises, as contracts of functions that do nothing.

ghost use Rattle.std.specs.Prelude.{◌≡◌, true, Bool, List};
ghost use Rattle.c_values.specs.Name.{Name};
ghost use Rattle.expression_lang.specs.Expression.{Exp};
ghost use Rattle.expression_lang.specs.Sort.{Level};
ghost use Rattle.c_lang.specs.Typed.{TypedUnit};
ghost use Rattle.c_lang.specs.WellTyped.{IsWellTyped};
ghost use Rattle.generation.specs.Generate.{generated};
ghost use Rattle.exactness.specs.Exact.{IsExact};
ghost use Rattle.pipeline.specs.Ready.{CallsLifted};
ghost use Rattle.pipeline.specs.Taken.{AreTaken};
ghost use Rattle.acceptance.specs.Certificate.{Steps};
ghost use Rattle.acceptance.specs.Accepted.{IsAccepted};
ghost use Rattle.pipeline.specs.Units.{flat_unit, local_unit, heap_unit, word_unit, last_unit};
ghost use Rattle.pipeline.specs.Made.{AreMade, certificate_made, tidy_certificate, AreTidy};

/// The units that a certificate makes, where it is accepted for what generation makes of a
/// well-typed unit, are ones that the rules take to each other. So its last programs are exact, by
/// whatever programs and trees it has.
pub fn accepted_programs_are_exact()
    ensures taken { (u : TypedUnit) (levels : Name → Level) (certificate : List Steps) →
        IsWellTyped u → IsAccepted (generated u levels) certificate →
        AreTaken u levels (generated u levels) (flat_unit (generated u levels) certificate)
        (local_unit (generated u levels) certificate) (heap_unit (generated u levels) certificate)
        (word_unit (generated u levels) certificate) (last_unit (generated u levels) certificate) }
    ensures exact { (u : TypedUnit) → IsWellTyped u → (levels : Name → Level)
        (certificate : List Steps) → IsAccepted (generated u levels) certificate →
        IsExact u levels (last_unit (generated u levels) certificate) }
{}

/// What the translations make of a well-typed unit is accepted, whatever its levels, where a
/// function on typed heaps calls such functions alone, and with any last steps that are accepted
/// behind them: with steps that change nothing, and with the steps that make programs tidy.
/// Expressions are compared by any test that holds of equal ones and of no others.
pub fn translations_are_accepted()
    ensures made { (same : Exp → Exp → Bool) → ((a b : Exp) → same a b ≡ true → a ≡ b) →
        ((e : Exp) → same e e ≡ true) → (u : TypedUnit) → IsWellTyped u → (levels : Name → Level) →
        CallsLifted levels u.functions → (certificate : List Steps) →
        AreMade same (generated u levels) (generated u levels).functions
        (generated u levels).signatures certificate →
        IsAccepted (generated u levels) certificate }
    ensures there { (same : Exp → Exp → Bool) → ((a b : Exp) → same a b ≡ true → a ≡ b) →
        ((e : Exp) → same e e ≡ true) → (u : TypedUnit) → IsWellTyped u → (levels : Name → Level) →
        CallsLifted levels u.functions →
        IsAccepted (generated u levels) (certificate_made same (generated u levels)) }
    ensures tidy { (same : Exp → Exp → Bool) → ((a b : Exp) → same a b ≡ true → a ≡ b) →
        ((e : Exp) → same e e ≡ true) → (u : TypedUnit) → IsWellTyped u → (levels : Name → Level) →
        CallsLifted levels u.functions →
        IsAccepted (generated u levels) (tidy_certificate same (generated u levels))
        × AreTidy (last_unit (generated u levels)
        (tidy_certificate same (generated u levels))).functions }
{}
