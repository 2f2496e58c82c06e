//! That generated programs are ready to become programs on numbers, as a contract of a function
//! that does nothing.

ghost use Rattle.c_lang.specs.Typed.{TypedUnit};
ghost use Rattle.c_lang.specs.WellTyped.{IsWellTyped};
ghost use Rattle.pipeline.specs.GeneratesReady.{GeneratesWordReady};

/// What a well-typed unit is generated to, with its exceptions eliminated, its locals lifted and
/// its loads made reads, is ready to become programs on numbers, at whatever levels and by any test
/// that finds equal expressions: each function takes and gives words of its kinds and binds words
/// and truth values alone, and at level numbers each sum, negation and signed division stands where
/// one of its ranges is known.
pub fn generated_units_are_ready_for_numbers()
    ensures { (u : TypedUnit) → IsWellTyped u → GeneratesWordReady u }
{}
