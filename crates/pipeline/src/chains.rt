//! That the last programs of a chain are exact, as contracts of functions that do nothing.

ghost use Rattle.std.specs.Prelude.{◌≡◌, Bool, true, List};
ghost use Rattle.c_values.specs.Name.{Name};
ghost use Rattle.expression_lang.specs.Expression.{Exp};
ghost use Rattle.expression_lang.specs.Sort.{Level};
ghost use Rattle.simpl_lang.specs.Command.{SimplUnit};
ghost use Rattle.monad_lang.specs.Program.{FinalUnit};
ghost use Rattle.c_lang.specs.Typed.{TypedUnit};
ghost use Rattle.c_lang.specs.WellTyped.{IsWellTyped};
ghost use Rattle.c_meaning.specs.Levels.{AreDefaultLevels};
ghost use Rattle.pipeline.specs.Ready.{CallsLifted};
ghost use Rattle.exactness.specs.Exact.{AreProgramsOf, IsExact};
ghost use Rattle.pipeline.specs.Chain.{IsChain};
ghost use Rattle.pipeline.specs.Whole.{IsWhole};
ghost use Rattle.pipeline.specs.Taken.{AreTaken};
ghost use Rattle.pipeline.specs.Translated.{unit_translated};

/// The last programs of a whole chain are exact: what the six laws keep, one after the other, is
/// all that exactness asks, from the heap of a function's level and, where that is a typed heap,
/// from the bytes themselves.
pub fn chains_are_exact()
    ensures { (u : TypedUnit) (levels : Name → Level) (generated flat : SimplUnit)
        (local heap word last : FinalUnit) →
        IsChain u levels generated flat local heap word last →
        IsWhole u levels flat local word last → IsExact u levels last }
{}

/// Units that the kernels' rules take to each other, from what generation makes of a well-typed
/// unit, are a whole chain. So the last programs are exact, by whatever trees the rules took them
/// there.
pub fn taken_units_are_exact()
    ensures chain { (u : TypedUnit) (levels : Name → Level) (generated flat : SimplUnit)
        (local heap word last : FinalUnit) →
        AreTaken u levels generated flat local heap word last →
        IsChain u levels generated flat local heap word last }
    ensures whole { (u : TypedUnit) (levels : Name → Level) (generated flat : SimplUnit)
        (local heap word last : FinalUnit) →
        AreTaken u levels generated flat local heap word last →
        IsWhole u levels flat local word last }
    ensures exact { (u : TypedUnit) (levels : Name → Level) (generated flat : SimplUnit)
        (local heap word last : FinalUnit) →
        AreTaken u levels generated flat local heap word last → IsExact u levels last }
{}

/// The translations make exact programs of every well-typed unit, whatever its levels, where a
/// function on typed heaps calls such functions alone: so at the levels that functions have by
/// default. Expressions are compared by any test that holds of none but equal ones.
pub fn translated_units_are_exact()
    ensures programs { (same : Exp → Exp → Bool) (u : TypedUnit) (levels : Name → Level) →
        AreProgramsOf u levels (unit_translated same u levels) }
    ensures exact { (same : Exp → Exp → Bool) → ((a b : Exp) → same a b ≡ true → a ≡ b) →
        (u : TypedUnit) → IsWellTyped u → (levels : Name → Level) →
        CallsLifted levels u.functions → IsExact u levels (unit_translated same u levels) }
    ensures default { (same : Exp → Exp → Bool) → ((a b : Exp) → same a b ≡ true → a ≡ b) →
        (u : TypedUnit) → IsWellTyped u → (bytes words : List Name) (levels : Name → Level) →
        AreDefaultLevels u bytes words levels →
        IsExact u levels (unit_translated same u levels) }
{}
