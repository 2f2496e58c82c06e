//! The law of the numbers that generated Simpl computes, as the contract of a function that does
//! nothing.

ghost use Rattle.c_values.specs.Name.{Name};
ghost use Rattle.expression_lang.specs.Sort.{Level};
ghost use Rattle.c_lang.specs.Typed.{TypedUnit};
ghost use Rattle.c_lang.specs.WellTyped.{IsWellTyped};
ghost use Rattle.generation.specs.Generate.{generated};
ghost use Rattle.narrow.specs.Narrow.{IsUnitNarrow};

/// Wherever the Simpl program of a well-typed unit evaluates an expression, the exact result of
/// each operation on numbers has a magnitude below 2^128: such operations stand in its conditions
/// alone, and their operands are the values of words.
pub fn generated_units_are_narrow()
    ensures { (u : TypedUnit) → IsWellTyped u → (levels : Name → Level) →
        IsUnitNarrow (generated u levels) }
{}
