//! What is generated for small texts.

ghost use Rattle.std.specs.Prelude.{◌≡◌, [], take, codes};
ghost use Rattle.expression_lang.specs.Sort.{Bytes, Numbers};
ghost use Rattle.generation.specs.Guards.{guards};
ghost use Rattle.generation.specs.Generate.{function_of};
ghost use Rattle.worked_rows.specs.Trees.{layout};
ghost use Rattle.worked_rows.specs.NullTest;
ghost use Rattle.c_meaning.specs.Levels.{reason, ByCast, ByCall};
ghost use Rattle.worked_rows.specs.Casts;
ghost use Rattle.worked_rows.specs.Generation;

/// What is generated for a function that returns a constant.
pub fn returned_constant()
    ensures body { (function_of (layout []) Numbers Generation.f).body ≡ Generation.body_of_f }
    ensures same_at_bytes { (function_of (layout []) Bytes Generation.f).body
        ≡ Generation.body_of_f }
{}

/// The guards of `p && p->x > 3` ask for the pointer and its tag where `p` isn't null; on bytes no
/// tag is asked for.
pub fn guards_of_null_test()
    ensures at_numbers { guards NullTest.unit.layout Numbers NullTest.returned
        ≡ Generation.guards_of_null_test }
    ensures at_bytes { guards NullTest.unit.layout Bytes NullTest.returned
        ≡ take 1 Generation.guards_of_null_test }
{}

/// A function is on bytes by a pointer conversion of its own, or by the first such function that it
/// calls.
pub fn reasons()
    ensures by_cast { reason Casts.levels Casts.first_byte ≡ ByCast }
    ensures by_call { reason Casts.levels Casts.calls_it ≡ ByCall (codes "b0") }
{}
