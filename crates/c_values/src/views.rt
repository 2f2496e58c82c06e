//! Between words and numbers: the values of words, and the word of a number.

ghost use Rattle.std.specs.Prelude.{◌≡◌, ◌+◌, ◌%◌, ◌^◌, ◌<◌, pos, neg_ℤ, if◌then◌else◌};
ghost use Rattle.c_values.specs.Types.{width_of, is_signed};
ghost use Rattle.c_values.specs.Word.{word, signed, unsigned};
ghost use Rattle.c_values.specs.Number.{number_op, is_between, is_of_type};
ghost use Rattle.c_values.specs.CodeNumber.{number_op_of};
ghost use Rattle.c_values.specs.CodeTypes.{target_of, int_type_of};
ghost use Rattle.c_values.specs.Width.{IsWidth};

use crate::numbers::{Number, NumberOp, number_op};
use crate::types::{IntType, Target, is_signed, width_of};
use crate::words::{Word, mask};

/// The unsigned value.
pub fn nat(a: Word) -> Number
    ensures { result ≡ unsigned a }
{
    Number::of_magnitude(false, u128::from(a.bits()))
}

/// The signed value.
pub fn int(a: Word) -> Number
    ensures { result ≡ signed a }
{
    let value = a.signed();
    Number::of_magnitude(value < 0, u128::from(value.unsigned_abs()))
}

/// The number modulo 2 to the width.
pub fn word(width: u8, n: Number) -> Word
    requires { IsWidth width }
    ensures { result ≡ word width n }
{
    let bits = low_bits(n.magnitude());
    if n.negative() {
        Word::truncated(width, 0u64.wrapping_sub(bits))
    } else {
        Word::truncated(width, bits)
    }
}

fn low_bits(magnitude: u128) -> u64
    ensures { result ≡ magnitude % 2 ^ 64 }
{
    (magnitude & u128::from(u64::MAX)) as u64
}

/// Whether the exact result of an operation on two words of a type, by their values, is a value of the type.
pub fn fits(target: Target, op: NumberOp, ty: IntType, a: Word, b: Word) -> bool
    requires first { a.width ≡ width_of (target_of target) (int_type_of ty) }
    requires second { b.width ≡ width_of (target_of target) (int_type_of ty) }
    ensures { result ≡ is_of_type (target_of target) (int_type_of ty)
        (number_op (number_op_of op)
        (if is_signed (int_type_of ty) then signed a else unsigned a)
        (if is_signed (int_type_of ty) then signed b else unsigned b)) }
{
    match number_op(op, value_of(ty, a), value_of(ty, b)) {
        Some(exact) => is_of_type(target, ty, exact),
        None => false,
    }
}

fn value_of(ty: IntType, a: Word) -> Number
    ensures { result ≡ (if is_signed (int_type_of ty) then signed a else unsigned a) }
{
    if is_signed(ty) { int(a) } else { nat(a) }
}

/// Whether a number is from the least to the greatest value of a type.
pub fn is_of_type(target: Target, ty: IntType, n: Number) -> bool
    ensures { result ≡ is_of_type (target_of target) (int_type_of ty) n }
{
    let greatest = u128::from(mask(width_of(target, ty)));
    if is_signed(ty) {
        is_between_signed(greatest / 2, n)
    } else {
        !n.negative() && n.magnitude() <= greatest
    }
}

// Whether a number is from -greatest - 1 to the greatest.
fn is_between_signed(greatest: u128, n: Number) -> bool
    requires { greatest < 2 ^ 64 }
    ensures { result ≡ is_between (neg_ℤ (pos (greatest + 1))) n (pos greatest) }
{
    if n.negative() {
        n.magnitude() <= greatest + 1
    } else {
        n.magnitude() <= greatest
    }
}
