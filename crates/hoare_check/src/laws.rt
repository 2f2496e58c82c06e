//! Laws of triples, as contracts of functions that do nothing.

ghost use Rattle.std.specs.Prelude.{List};
ghost use Rattle.c_values.specs.Name.{Name};
ghost use Rattle.expression_lang.specs.Sort.{Level};
ghost use Rattle.monad_lang.specs.Program.{FinalUnit};
ghost use Rattle.monad_lang.specs.Sorted.{IsWellFormed};
ghost use Rattle.c_lang.specs.Typed.{TypedUnit};
ghost use Rattle.exactness.specs.Exact.{AreProgramsOf, IsExact};
ghost use Rattle.exactness.specs.SteadyUnits.{IsUnitSteady};
ghost use Rattle.triple_lang.specs.Triple.{Triple};
ghost use Rattle.hoare_check.specs.Accepted.{AllAccepted};
ghost use Rattle.hoare_check.specs.Holding.{AllHold, AllHoldOfC};

/// Triples that are all accepted, where a derivation may use each of them wherever a function is
/// called, hold of a unit's programs, recursion included.
pub fn accepted_triples_hold()
    ensures { (u : FinalUnit) (ts : List Triple) → IsWellFormed u → IsUnitSteady u →
        AllAccepted u ts ts → AllHold u ts }
{}

/// They hold of the C for which the programs are exact.
pub fn accepted_triples_hold_of_c()
    ensures { (u : TypedUnit) (levels : Name → Level) (a : FinalUnit) (ts : List Triple) →
        AreProgramsOf u levels a → IsExact u levels a → IsWellFormed a → IsUnitSteady a →
        AllAccepted a ts ts → AllHoldOfC u levels ts }
{}
