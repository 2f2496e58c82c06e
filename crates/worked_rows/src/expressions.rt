//! Expressions at the edges of their definitions.

ghost use Rattle.std.specs.Prelude.{pos};
ghost use Rattle.c_values.specs.Types.{Ilp32, Lp64, Char, SChar, UChar, Short, UShort, Int, UInt, Long, ULong, LLong, ULLong};
ghost use Rattle.expression_lang.specs.Sort.{Bytes, Words, Numbers};
ghost use Rattle.expression_lang.specs.GuardKind.{Div, Signed, Shift, Pointer, Bounds, Tag, Wrap};
ghost use Rattle.c_lang.specs.Typed.{Add, Subtract, Multiply, Divide, Remainder, Left, Right, Less, GreaterEqual, Compute, Compare, And, Or, Choose};
ghost use Rattle.worked_rows.specs.Trees.{int, value, minus};
ghost use Rattle.worked_rows.specs.ExpressionClaims.{alone, Evaluates, IsUndefined};
ghost use Rattle.worked_rows.specs.Edges;

/// A signed result has to fit; an unsigned one wraps, which numbers watch and words don't.
pub fn arithmetic_at_its_limits()
    ensures signed_sum { IsUndefined Edges.plainly
        (Edges.compute Add Int (pos 2147483647) (pos 1)) Signed }
    ensures signed_sum_fits { Evaluates Edges.plainly
        (Edges.compute Add Int (pos 2147483646) (pos 1)) (Edges.of_type Int (pos 2147483647)) }
    ensures signed_difference { IsUndefined Edges.plainly
        (Edges.compute Subtract Int (minus 2147483648) (pos 1)) Signed }
    ensures signed_product { IsUndefined Edges.plainly
        (Edges.compute Multiply Int (pos 65536) (pos 32768)) Signed }
    ensures signed_product_fits { Evaluates Edges.plainly
        (Edges.compute Multiply Int (pos 65536) (minus 32768))
        (Edges.of_type Int (minus 2147483648)) }
    ensures signed_negation { IsUndefined Edges.plainly
        (Edges.negate Int (minus 2147483648)) Signed }
    ensures wide_sum { IsUndefined Edges.plainly
        (Edges.compute Add LLong (pos 9223372036854775807) (pos 1)) Signed }
    ensures unsigned_sum { Evaluates Edges.plainly (Edges.compute Add UInt (pos 4294967295) (pos 1))
        (Edges.of_type UInt (pos 0)) }
    ensures unsigned_sum_at_words { Evaluates (alone Ilp32 Words)
        (Edges.compute Add UInt (pos 4294967295) (pos 1)) (Edges.of_type UInt (pos 0)) }
    ensures unsigned_sum_at_numbers { IsUndefined (alone Ilp32 Numbers)
        (Edges.compute Add UInt (pos 4294967295) (pos 1)) Wrap }
    ensures unsigned_difference { Evaluates Edges.plainly
        (Edges.compute Subtract UInt (pos 0) (pos 1)) (Edges.of_type UInt (pos 4294967295)) }
    ensures unsigned_difference_at_numbers { IsUndefined (alone Ilp32 Numbers)
        (Edges.compute Subtract UInt (pos 0) (pos 1)) Wrap }
    ensures unsigned_product_at_numbers { IsUndefined (alone Ilp32 Numbers)
        (Edges.compute Multiply UInt (pos 65536) (pos 65536)) Wrap }
    ensures unsigned_negation { Evaluates Edges.plainly (Edges.negate UInt (pos 1))
        (Edges.of_type UInt (pos 4294967295)) }
    ensures unsigned_negation_at_numbers { IsUndefined (alone Ilp32 Numbers)
        (Edges.negate UInt (pos 1)) Wrap }
    ensures negation_of_zero_at_numbers { Evaluates (alone Ilp32 Numbers)
        (Edges.negate UInt (pos 0)) (Edges.of_type UInt (pos 0)) }
    ensures signed_sum_at_numbers { IsUndefined (alone Ilp32 Numbers)
        (Edges.compute Add Int (pos 2147483647) (pos 1)) Signed }
{}

/// A divisor isn't zero, and a quotient is of the type; both truncate toward zero, and a remainder
/// has the sign of the dividend.
pub fn division_at_its_limits()
    ensures least_by_minus_one { IsUndefined Edges.plainly
        (Edges.compute Divide Int (minus 2147483648) (minus 1)) Signed }
    ensures least_modulo_minus_one { IsUndefined Edges.plainly
        (Edges.compute Remainder Int (minus 2147483648) (minus 1)) Signed }
    ensures least_by_one { Evaluates Edges.plainly
        (Edges.compute Divide Int (minus 2147483648) (pos 1))
        (Edges.of_type Int (minus 2147483648)) }
    ensures wide_least_by_minus_one { IsUndefined Edges.plainly
        (Edges.compute Divide LLong (minus 9223372036854775808) (minus 1)) Signed }
    ensures by_zero { IsUndefined Edges.plainly (Edges.one_by_zero) Div }
    ensures unsigned_modulo_zero { IsUndefined Edges.plainly
        (Edges.compute Remainder UInt (pos 1) (pos 0)) Div }
    ensures negative_quotient { Evaluates Edges.plainly (Edges.compute Divide Int (minus 7) (pos 2))
        (Edges.of_type Int (minus 3)) }
    ensures by_negative { Evaluates Edges.plainly (Edges.compute Divide Int (pos 7) (minus 2))
        (Edges.of_type Int (minus 3)) }
    ensures negative_remainder { Evaluates Edges.plainly
        (Edges.compute Remainder Int (minus 7) (pos 2)) (Edges.of_type Int (minus 1)) }
    ensures remainder_by_negative { Evaluates Edges.plainly
        (Edges.compute Remainder Int (pos 7) (minus 2)) (Edges.of_type Int (pos 1)) }
    ensures unsigned_quotient { Evaluates Edges.plainly
        (Edges.compute Divide UInt (pos 4294967295) (pos 2)) (Edges.of_type UInt (pos 2147483647)) }
{}

/// A shift count is from 0 to the width, less one.
pub fn shifts_at_their_limits()
    ensures left_by_width_less_one { Evaluates Edges.plainly
        (Edges.shift Left UInt (pos 1) (pos 31)) (Edges.of_type UInt (pos 2147483648)) }
    ensures left_by_width { IsUndefined Edges.plainly
        (Edges.shift Left UInt (pos 1) (pos 32)) Shift }
    ensures left_by_negative { IsUndefined Edges.plainly
        (Edges.shift Left UInt (pos 1) (minus 1)) Shift }
    ensures left_wraps { Evaluates Edges.plainly (Edges.shift Left UInt (pos 3) (pos 31))
        (Edges.of_type UInt (pos 2147483648)) }
    ensures left_wraps_at_numbers { Evaluates (alone Ilp32 Numbers)
        (Edges.shift Left UInt (pos 3) (pos 31)) (Edges.of_type UInt (pos 2147483648)) }
    ensures signed_left_fits { Evaluates Edges.plainly (Edges.shift Left Int (pos 1) (pos 30))
        (Edges.of_type Int (pos 1073741824)) }
    ensures signed_left_does_not_fit { IsUndefined Edges.plainly
        (Edges.shift Left Int (pos 1) (pos 31)) Shift }
    ensures negative_left { IsUndefined Edges.plainly
        (Edges.shift Left Int (minus 1) (pos 0)) Shift }
    ensures zero_left { Evaluates Edges.plainly (Edges.shift Left Int (pos 0) (pos 31))
        (Edges.of_type Int (pos 0)) }
    ensures wide_left { Evaluates Edges.plainly (Edges.shift Left LLong (pos 1) (pos 62))
        (Edges.of_type LLong (pos 4611686018427387904)) }
    ensures wide_left_does_not_fit { IsUndefined Edges.plainly
        (Edges.shift Left LLong (pos 1) (pos 63)) Shift }
    ensures right_by_width_less_one { Evaluates Edges.plainly
        (Edges.shift Right UInt (pos 4294967295) (pos 31)) (Edges.of_type UInt (pos 1)) }
    ensures right_by_width { IsUndefined Edges.plainly
        (Edges.shift Right UInt (pos 1) (pos 32)) Shift }
    ensures right_by_negative { IsUndefined Edges.plainly
        (Edges.shift Right Int (pos 1) (minus 1)) Shift }
    ensures negative_right { Evaluates Edges.plainly (Edges.shift Right Int (minus 5) (pos 1))
        (Edges.of_type Int (minus 3)) }
    ensures least_right { Evaluates Edges.plainly
        (Edges.shift Right Int (minus 2147483648) (pos 31)) (Edges.of_type Int (minus 1)) }
{}

/// A conversion to an integer type is modulo two to its width, from the number that the value is at
/// its own type.
pub fn conversions()
    ensures schar_to_uchar { Evaluates Edges.plainly (Edges.convert SChar (minus 1) UChar)
        (Edges.of_type UChar (pos 255)) }
    ensures schar_to_short { Evaluates Edges.plainly (Edges.convert SChar (minus 128) Short)
        (Edges.of_type Short (minus 128)) }
    ensures schar_to_uint { Evaluates Edges.plainly (Edges.convert SChar (minus 1) UInt)
        (Edges.of_type UInt (pos 4294967295)) }
    ensures schar_to_ullong { Evaluates Edges.plainly (Edges.convert SChar (minus 1) ULLong)
        (Edges.of_type ULLong (pos 18446744073709551615)) }
    ensures uchar_to_schar { Evaluates Edges.plainly (Edges.convert UChar (pos 200) SChar)
        (Edges.of_type SChar (minus 56)) }
    ensures uchar_to_int { Evaluates Edges.plainly (Edges.convert UChar (pos 200) Int)
        (Edges.of_type Int (pos 200)) }
    ensures char_is_unsigned { Evaluates Edges.plainly (Edges.convert Char (pos 255) Int)
        (Edges.of_type Int (pos 255)) }
    ensures short_to_ushort { Evaluates Edges.plainly (Edges.convert Short (minus 2) UShort)
        (Edges.of_type UShort (pos 65534)) }
    ensures short_to_char { Evaluates Edges.plainly (Edges.convert Short (pos 300) Char)
        (Edges.of_type Char (pos 44)) }
    ensures ushort_to_short { Evaluates Edges.plainly (Edges.convert UShort (pos 65535) Short)
        (Edges.of_type Short (minus 1)) }
    ensures ushort_to_llong { Evaluates Edges.plainly (Edges.convert UShort (pos 65535) LLong)
        (Edges.of_type LLong (pos 65535)) }
    ensures int_to_uchar { Evaluates Edges.plainly (Edges.convert Int (minus 1) UChar)
        (Edges.of_type UChar (pos 255)) }
    ensures int_to_short { Evaluates Edges.plainly (Edges.convert Int (pos 32768) Short)
        (Edges.of_type Short (minus 32768)) }
    ensures int_to_ullong { Evaluates Edges.plainly (Edges.convert Int (minus 1) ULLong)
        (Edges.of_type ULLong (pos 18446744073709551615)) }
    ensures uint_to_int { Evaluates Edges.plainly (Edges.convert UInt (pos 4294967295) Int)
        (Edges.of_type Int (minus 1)) }
    ensures uint_to_llong { Evaluates Edges.plainly (Edges.convert UInt (pos 4294967295) LLong)
        (Edges.of_type LLong (pos 4294967295)) }
    ensures llong_to_uint { Evaluates Edges.plainly (Edges.convert LLong (minus 1) UInt)
        (Edges.of_type UInt (pos 4294967295)) }
    ensures llong_to_schar { Evaluates Edges.plainly (Edges.convert LLong (pos 383) SChar)
        (Edges.of_type SChar (pos 127)) }
    ensures ullong_to_llong { Evaluates Edges.plainly
        (Edges.convert ULLong (pos 18446744073709551615) LLong) (Edges.of_type LLong (minus 1)) }
    ensures ullong_to_ushort { Evaluates Edges.plainly (Edges.convert ULLong (pos 65537) UShort)
        (Edges.of_type UShort (pos 1)) }
    ensures int_to_ulong { Evaluates Edges.plainly (Edges.convert Int (minus 1) ULong)
        (Edges.of_type ULong (pos 4294967295)) }
    ensures int_to_wide_ulong { Evaluates (alone Lp64 Bytes) (Edges.convert Int (minus 1) ULong)
        (Edges.of_wide_type ULong (pos 18446744073709551615)) }
    ensures wide_long_to_int { Evaluates (alone Lp64 Bytes)
        (Edges.convert Long (pos 4294967297) Int) (Edges.of_wide_type Int (pos 1)) }
{}

/// `&&`, `||` and `?:` evaluate the operands that they need; every other operation evaluates its
/// operands from left to right, and the first undefined step is the one that counts.
pub fn evaluation_order()
    ensures false_and { Evaluates Edges.plainly (And (Edges.number (pos 0)) Edges.one_by_zero)
        (Edges.of_type Int (pos 0)) }
    ensures true_and { IsUndefined Edges.plainly
        (And (Edges.number (pos 2)) Edges.one_by_zero) Div }
    ensures both { Evaluates Edges.plainly (And (Edges.number (pos 2)) (Edges.number (pos 4)))
        (Edges.of_type Int (pos 1)) }
    ensures undefined_and { IsUndefined Edges.plainly
        (And Edges.one_by_zero (Edges.number (pos 0))) Div }
    ensures true_or { Evaluates Edges.plainly (Or (Edges.number (pos 2)) Edges.one_by_zero)
        (Edges.of_type Int (pos 1)) }
    ensures false_or { IsUndefined Edges.plainly (Or (Edges.number (pos 0)) Edges.one_by_zero) Div }
    ensures first_branch { Evaluates Edges.plainly
        (Choose int (Edges.number (pos 1)) (Edges.number (pos 5)) Edges.one_by_zero)
        (Edges.of_type Int (pos 5)) }
    ensures second_branch { Evaluates Edges.plainly
        (Choose int (Edges.number (pos 0)) Edges.one_by_zero (Edges.number (pos 7)))
        (Edges.of_type Int (pos 7)) }
    ensures taken_branch { IsUndefined Edges.plainly
        (Choose int (Edges.number (pos 1)) Edges.one_by_zero (Edges.number (pos 7))) Div }
    ensures left_first { IsUndefined Edges.plainly
        (Compute Add Int Edges.one_by_zero (Edges.negate Int (minus 2147483648))) Div }
    ensures right_second { IsUndefined Edges.plainly
        (Compute Add Int (Edges.negate Int (minus 2147483648)) Edges.one_by_zero) Signed }
    ensures operand_before_operation { IsUndefined Edges.plainly
        (Compute Divide Int (Edges.negate Int (minus 2147483648)) (Edges.number (pos 0))) Signed }
    ensures signed_comparison { Evaluates Edges.plainly
        (Compare Less Int (Edges.number (minus 1)) (Edges.number (pos 0)))
        (Edges.of_type Int (pos 1)) }
    ensures unsigned_comparison { Evaluates Edges.plainly
        (Compare Less UInt (Edges.convert Int (minus 1) UInt) (Edges.convert Int (pos 0) UInt))
        (Edges.of_type Int (pos 0)) }
    ensures greater_or_equal { Evaluates Edges.plainly
        (Compare GreaterEqual Int (Edges.number (pos 0)) (Edges.number (pos 0)))
        (Edges.of_type Int (pos 1)) }
{}

/// A place that is read has its indices inside their arrays, and a root that is aligned, not null
/// and inside the space; from typed heaps on a tag covers it.
pub fn places()
    ensures member { Evaluates (Edges.at_address Bytes 4096) (Edges.x_of_p) (value (pos 5)) }
    ensures last_element { Evaluates (Edges.at_address Bytes 4096) (Edges.a_of_p (pos 3))
        (value (pos 4)) }
    ensures past_the_end { IsUndefined (Edges.at_address Bytes 4096) (Edges.a_of_p (pos 4)) Bounds }
    ensures before_the_start { IsUndefined (Edges.at_address Bytes 4096)
        (Edges.a_of_p (minus 1)) Bounds }
    ensures odd_address { IsUndefined (Edges.at_address Bytes 4097) (Edges.x_of_p) Pointer }
    ensures half_aligned { IsUndefined (Edges.at_address Bytes 4098) (Edges.x_of_p) Pointer }
    ensures null { IsUndefined (Edges.at_address Bytes 0) (Edges.x_of_p) Pointer }
    ensures bounds_before_pointer { IsUndefined (Edges.at_address Words 0)
        (Edges.a_of_p (pos 4)) Bounds }
    ensures pointer_before_tag { IsUndefined (Edges.at_address Words 4097) (Edges.x_of_p) Pointer }
    ensures untagged_at_words { IsUndefined (Edges.at_address Words 4096) (Edges.x_of_p) Tag }
    ensures untagged_at_numbers { IsUndefined (Edges.at_address Numbers 4096) (Edges.x_of_p) Tag }
    ensures ends_with_the_space { Evaluates (Edges.at_address Bytes 4294967292)
        (Edges.behind Edges.to_int) (value (pos 0)) }
    ensures past_the_space { IsUndefined (Edges.at_address Bytes 4294967292)
        (Edges.x_of_p) Pointer }
    ensures back_below_zero { Evaluates (Edges.at_address Bytes 0) (Edges.back_by (pos 1))
        (value (pos 4294967292)) }
    ensures back_by_negative { Evaluates (Edges.at_address Numbers 4096) (Edges.back_by (minus 2))
        (value (pos 4104)) }
    ensures integer_before_pointer { Evaluates (Edges.at_address Numbers 4096)
        (Edges.forward_by (Edges.number (pos 2)) Edges.to_int) (value (pos 4104)) }
    ensures integer_first { IsUndefined (Edges.at_address Bytes 4097)
        (Edges.forward_by Edges.one_by_zero Edges.pointer_behind) Div }
    ensures pointer_first { IsUndefined (Edges.at_address Bytes 4097)
        (Edges.forward Edges.pointer_behind Edges.one_by_zero) Pointer }
{}
