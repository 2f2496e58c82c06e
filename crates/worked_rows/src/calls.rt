//! Calls of functions whose meaning is known.

ghost use Rattle.std.specs.Prelude.{Some, None, pos, [], ◌∷◌, codes};
ghost use Rattle.correspondence.specs.Outcome.{Turns, Depth};
ghost use Rattle.expression_lang.specs.GuardKind.{Div, Signed, Shift, Pointer, Bounds, Tag, Wrap};
ghost use Rattle.c_meaning.specs.CRun.{plain};
ghost use Rattle.worked_rows.specs.Trees.{uint, value, char_value, minus};
ghost use Rattle.worked_rows.specs.Claims.{Returns, Leaves, Holds, Undefined, Stops, ReturnsInC, StopsInC, words, numbers};
ghost use Rattle.worked_rows.specs.Nodes;
ghost use Rattle.worked_rows.specs.Sum;
ghost use Rattle.worked_rows.specs.Midpoint;
ghost use Rattle.worked_rows.specs.Division;
ghost use Rattle.worked_rows.specs.Shifts;
ghost use Rattle.worked_rows.specs.CharSum;
ghost use Rattle.worked_rows.specs.NullTest;
ghost use Rattle.worked_rows.specs.Swap;
ghost use Rattle.worked_rows.specs.Find;
ghost use Rattle.worked_rows.specs.Counting;
ghost use Rattle.worked_rows.specs.Reversal;
ghost use Rattle.worked_rows.specs.StaleNext;
ghost use Rattle.worked_rows.specs.Uninitialised;
ghost use Rattle.worked_rows.specs.StructCopy;
ghost use Rattle.worked_rows.specs.Recursion;
ghost use Rattle.worked_rows.specs.Globals;
ghost use Rattle.worked_rows.specs.Casts;

/// An unsigned sum wraps, which numbers watch and words don't.
pub fn unsigned_sum()
    ensures plainly { Returns plain Sum.greatest_and_one (Some (value (pos 0))) }
    ensures at_words { Returns words Sum.greatest_and_one (Some (value (pos 0))) }
    ensures at_numbers { Undefined numbers Sum.greatest_and_one Wrap }
{}

/// Half of a sum that wraps is no midpoint; with half of the difference it is one, whatever is
/// watched.
pub fn midpoint()
    ensures wraps { Returns plain (Midpoint.of_greatest Midpoint.half_of_sum)
        (Some (value (pos 2147483646))) }
    ensures watched { Undefined numbers (Midpoint.of_greatest Midpoint.half_of_sum) Wrap }
    ensures by_difference { Returns plain (Midpoint.of_greatest Midpoint.with_half_of_difference)
        (Some (value (pos 4294967294))) }
    ensures by_difference_watched { Returns numbers
        (Midpoint.of_greatest Midpoint.with_half_of_difference) (Some (value (pos 4294967294))) }
{}

/// Quotients truncate toward zero; the least number divided by -1, and its remainder, are
/// undefined.
pub fn division()
    ensures least_by_minus_one { Undefined plain
        (Division.quotient (minus 2147483648) (minus 1)) Signed }
    ensures least_modulo_minus_one { Undefined plain
        (Division.remainder (minus 2147483648) (minus 1)) Signed }
    ensures by_zero { Undefined plain (Division.quotient (pos 7) (pos 0)) Div }
    ensures modulo_zero { Undefined plain (Division.remainder (pos 7) (pos 0)) Div }
    ensures of_negative { Returns numbers (Division.quotient (minus 7) (pos 2))
        (Some (value (minus 3))) }
    ensures rest_of_negative { Returns numbers (Division.remainder (minus 7) (pos 2))
        (Some (value (minus 1))) }
{}

/// A shift count is below the width and not negative; a signed value that is shifted left has to
/// fit, and one that is shifted right keeps its sign.
pub fn shifts()
    ensures signed_left { Undefined plain (Shifts.left_signed (pos 1) (pos 31)) Shift }
    ensures signed_left_fits { Returns plain (Shifts.left_signed (pos 1) (pos 30))
        (Some (value (pos 1073741824))) }
    ensures negative_left { Undefined plain (Shifts.left_signed (minus 1) (pos 1)) Shift }
    ensures unsigned_left { Returns numbers (Shifts.left_unsigned (pos 1) (pos 31))
        (Some (value (pos 2147483648))) }
    ensures unsigned_left_wraps { Returns numbers (Shifts.left_unsigned (pos 3) (pos 31))
        (Some (value (pos 2147483648))) }
    ensures by_width { Undefined plain (Shifts.left_unsigned (pos 1) (pos 32)) Shift }
    ensures by_negative { Undefined plain (Shifts.left_unsigned (pos 1) (minus 1)) Shift }
    ensures right_of_negative { Returns numbers (Shifts.right_signed (minus 1) (pos 1))
        (Some (value (minus 1))) }
    ensures right_by_width_less_one { Returns plain
        (Shifts.right_signed (minus 2147483648) (pos 31)) (Some (value (minus 1))) }
    ensures right_by_width { Undefined plain (Shifts.right_signed (pos 1) (pos 32)) Shift }
{}

/// The sum of two chars is an int, and its conversion back is modulo 256.
pub fn char_sum()
    ensures plainly { Returns plain CharSum.greatest_and_one (Some (char_value (pos 0))) }
    ensures at_numbers { Returns numbers CharSum.greatest_and_one (Some (char_value (pos 0))) }
{}

/// The right side of `&&` is evaluated where the left one is true, and only there.
pub fn null_test()
    ensures of_null { Returns numbers NullTest.of_null (Some (value (pos 0))) }
    ensures untagged { Leaves plain NullTest.untagged (Some (value (pos 1))) 4096
        (5 ∷ 0 ∷ 0 ∷ 0 ∷ []) }
    ensures untagged_watched { Undefined numbers NullTest.untagged Tag }
    ensures tagged { Leaves numbers NullTest.tagged (Some (value (pos 1))) 4096
        (5 ∷ 0 ∷ 0 ∷ 0 ∷ []) }
{}

/// A swap exchanges what two pointers point to, and leaves one place as it is.
pub fn swap()
    ensures first { Holds numbers (Swap.swapping 4096 4100) uint 4096 (value (pos 2)) }
    ensures second { Holds numbers (Swap.swapping 4096 4100) uint 4100 (value (pos 1)) }
    ensures bytes { Leaves plain (Swap.swapping 4096 4100) None 4096
        (2 ∷ 0 ∷ 0 ∷ 0 ∷ 1 ∷ 0 ∷ 0 ∷ 0 ∷ []) }
    ensures with_itself { Leaves numbers (Swap.swapping 4096 4096) None 4096
        (1 ∷ 0 ∷ 0 ∷ 0 ∷ 2 ∷ 0 ∷ 0 ∷ 0 ∷ []) }
{}

/// A turn of a loop asks a turn of the bound, and a test that ends the loop asks none.
pub fn find()
    ensures without_turns { Stops plain (Find.finding 7 0) Turns }
    ensures without_turns_watched { Stops numbers (Find.finding 7 0) Turns }
    ensures at_one_turn { Stops plain (Find.finding 7 1) Turns }
    ensures at_one_turn_watched { Stops numbers (Find.finding 7 1) Turns }
    ensures at_two_turns { Returns plain (Find.finding 7 2) (Some (value (pos 1))) }
    ensures at_two_turns_watched { Returns numbers (Find.finding 7 2) (Some (value (pos 1))) }
    ensures not_there { Returns numbers (Find.finding 8 3) (Some (value (minus 1))) }
{}

/// A walk over a list that comes to an untagged node is defined, but not where tags are watched;
/// `continue` in a do-while goes on at the test.
pub fn counting()
    ensures counts { Leaves plain Counting.counting_below_five (Some (value (pos 1))) 4096
        (1 ∷ 0 ∷ 0 ∷ 0 ∷ 0 ∷ 32 ∷ 0 ∷ 0 ∷ []) }
    ensures keeps_second { Leaves plain Counting.counting_below_five (Some (value (pos 1))) 8192
        (9 ∷ 0 ∷ 0 ∷ 0 ∷ 0 ∷ 0 ∷ 0 ∷ 0 ∷ []) }
    ensures watched { Undefined numbers Counting.counting_below_five Tag }
    ensures at_four_turns { Returns plain (Counting.from_five 4) (Some (value (pos 3))) }
    ensures at_four_turns_watched { Returns numbers (Counting.from_five 4) (Some (value (pos 3))) }
    ensures at_three_turns { Stops plain (Counting.from_five 3) Turns }
{}

/// A list of two nodes is reversed in place.
pub fn reversal()
    ensures bytes { Leaves plain Reversal.of_two (Some (value (pos 4104))) 4096
        (1 ∷ 0 ∷ 0 ∷ 0 ∷ 0 ∷ 0 ∷ 0 ∷ 0 ∷ 2 ∷ 0 ∷ 0 ∷ 0 ∷ 0 ∷ 16 ∷ 0 ∷ 0 ∷ []) }
    ensures watched { Returns numbers Reversal.of_two (Some (value (pos 4104))) }
    ensures first { Holds numbers Reversal.of_two Nodes.node 4096 (Nodes.node_value 1 0) }
    ensures second { Holds numbers Reversal.of_two Nodes.node 4104 (Nodes.node_value 2 4096) }
{}

/// After `p->next` is set to null, what it pointed to is no longer there to be read.
pub fn stale_next()
    ensures plainly { Undefined plain StaleNext.of_two Pointer }
    ensures watched { Undefined numbers StaleNext.of_two Pointer }
{}

/// A local without initialiser takes the fill number.
pub fn uninitialised()
    ensures zero { Returns plain (Uninitialised.filled 0) (Some (value (pos 0))) }
    ensures seven { Returns numbers (Uninitialised.filled 7) (Some (value (pos 7))) }
    ensures modulo_width { Returns plain (Uninitialised.filled 4294967303) (Some (value (pos 7))) }
{}

/// A struct is copied by its members: the padding stays where it is. A function on bytes that calls
/// the copy does the same.
pub fn struct_copy()
    ensures bytes { Leaves plain (StructCopy.copying (codes "cp")) None 4096 StructCopy.copied }
    ensures source { Holds numbers
        (StructCopy.copying (codes "cp")) StructCopy.p 4096 StructCopy.one_and_two }
    ensures target { Holds numbers
        (StructCopy.copying (codes "cp")) StructCopy.p 4104 StructCopy.one_and_two }
    ensures by_a_caller { Leaves plain
        (StructCopy.copying (codes "bc")) None 4096 StructCopy.copied }
    ensures by_a_caller_watched { Leaves StructCopy.levels
        (StructCopy.copying (codes "bc")) None 4096 StructCopy.copied }
{}

/// A call asks a turn, and then a level of the nested calls.
pub fn recursion()
    ensures without_turns { Stops plain (Recursion.even 1 0 256) Turns }
    ensures without_depth { Stops plain (Recursion.even 1 1 0) Depth }
    ensures without_either { Stops plain (Recursion.even 1 0 0) Turns }
    ensures of_zero { Returns plain (Recursion.even 0 0 0) (Some (value (pos 1))) }
    ensures of_three { Returns numbers (Recursion.even 3 3 3) (Some (value (pos 0))) }
    ensures too_deep { Stops numbers (Recursion.even 4 4 3) Depth }
    ensures out_of_turns { Stops numbers (Recursion.even 4 3 4) Turns }
    ensures at_the_limit { ReturnsInC numbers (Recursion.even 256 1000 256) (Some (value (pos 1))) }
    ensures past_the_limit { StopsInC numbers (Recursion.even 257 1000 256) Depth }
{}

/// An index of a global array is of an element that is there: one below its length is, its length
/// isn't.
pub fn global_array()
    ensures last { Returns numbers (Globals.putting (pos 3) (pos 7)) (Some (value (pos 7))) }
    ensures first { Returns plain (Globals.putting (pos 0) (minus 1)) (Some (value (minus 1))) }
    ensures past_the_end { Undefined plain (Globals.putting (pos 4) (pos 7)) Bounds }
    ensures negative { Undefined plain (Globals.putting (minus 1) (pos 7)) Bounds }
{}

/// What a pointer to unsigned points to can be read as chars on bytes, and by a caller on bytes
/// too.
pub fn cast_on_bytes()
    ensures of_42 { Leaves Casts.levels Casts.of_42 (Some (char_value (pos 42))) 4096
        (42 ∷ 0 ∷ 0 ∷ 0 ∷ []) }
{}
