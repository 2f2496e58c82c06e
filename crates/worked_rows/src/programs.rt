//! Runs of monadic programs that are shown.

ghost use Rattle.std.specs.Prelude.{pos, [], ◌∷◌};
ghost use Rattle.c_values.specs.Value.{Number};
ghost use Rattle.worked_rows.specs.Trees.{value};
ghost use Rattle.worked_rows.specs.Programs;
ghost use Rattle.worked_rows.specs.Programs.{Gives, Fails};

/// A sum of numbers fails where it doesn't fit; a sum of words wraps.
pub fn sums()
    ensures fails { Fails Programs.sum (Number (pos 4294967295) ∷ Number (pos 1) ∷ []) }
    ensures fits { Gives Programs.sum (Number (pos 4294967294) ∷ Number (pos 1) ∷ [])
        (Number (pos 4294967295) ∷ []) }
    ensures words_wrap { Gives Programs.word_sum (value (pos 4294967295) ∷ value (pos 1) ∷ [])
        (value (pos 0) ∷ []) }
    ensures increment { Gives Programs.increment (Number (pos 41) ∷ []) (Number (pos 42) ∷ []) }
    ensures increment_fails { Fails Programs.increment (Number (pos 4294967295) ∷ []) }
{}

/// The half of a sum fails where the sum doesn't fit; with the half of the difference the program
/// gives the midpoint, and fails where the difference is negative.
pub fn midpoints()
    ensures fails { Fails Programs.half_of_sum
        (Number (pos 4294967294) ∷ Number (pos 4294967295) ∷ []) }
    ensures gives { Gives Programs.half_of_sum (Number (pos 2) ∷ Number (pos 5) ∷ [])
        (Number (pos 3) ∷ []) }
    ensures by_difference { Gives Programs.with_half_of_difference
        (Number (pos 4294967294) ∷ Number (pos 4294967295) ∷ []) (Number (pos 4294967294) ∷ []) }
    ensures fails_on_negative { Fails Programs.with_half_of_difference
        (Number (pos 5) ∷ Number (pos 2) ∷ []) }
{}
