//! That generated units have texts, as the contract of a function that does nothing.

ghost use Rattle.c_values.specs.Name.{Name};
ghost use Rattle.expression_lang.specs.Sort.{Level};
ghost use Rattle.c_lang.specs.Typed.{TypedUnit};
ghost use Rattle.c_lang.specs.WellTyped.{IsWellTyped};
ghost use Rattle.unit_names.specs.HasNames.{HasNames};
ghost use Rattle.generation.specs.Generate.{generated};
ghost use Rattle.generated_texts.specs.HasTexts.{HasTexts};

/// The Simpl unit of a well-typed unit whose names and types have texts has texts, whatever the
/// levels of its functions: each body is a command that has one, and what is declared has a name
/// and is of a width.
pub fn generated_units_have_texts()
    ensures { (u : TypedUnit) → IsWellTyped u → HasNames u → (levels : Name → Level) →
        HasTexts (generated u levels) }
{}
