//! The ranges of integer types, as numbers.

ghost use Rattle.std.specs.Prelude.{◌≡◌, ◌+◌, ◌-◌, ◌^◌, ◌<◌, ◌≤◌, pos};
ghost use Rattle.c_values.specs.Width.{IsWidth};
ghost use Rattle.c_values.specs.Number.{least_of, greatest_of};
ghost use Rattle.c_values.specs.CodeTypes.{target_of, int_type_of};

use c_values::{IntType, Number, Target, is_signed, width_of};

/// The least value of a type.
pub(crate) fn least_of(target: Target, ty: IntType) -> Number
    ensures { result ≡ least_of (target_of target) (int_type_of ty) }
{
    if is_signed(ty) {
        Number::new(true, u128::from(half(width_of(target, ty))))
    } else {
        natural(0)
    }
}

/// The greatest value of a type.
pub(crate) fn greatest_of(target: Target, ty: IntType) -> Number
    ensures { result ≡ greatest_of (target_of target) (int_type_of ty) }
{
    let half = half(width_of(target, ty));
    if is_signed(ty) {
        natural(half - 1)
    } else {
        natural(half - 1 + half)
    }
}

/// A number that isn't negative.
pub(crate) fn natural(n: u64) -> Number
    ensures { result ≡ pos n }
{
    Number::new(false, u128::from(n))
}

// Half of how many words there are of a width.
fn half(width: u8) -> u64
    requires { IsWidth width }
    ensures value { result ≡ 2 ^ (width - 1) }
    ensures whole { result + result ≡ 2 ^ width }
    ensures some { 0 < result }
    ensures fits { result ≤ 2 ^ 63 }
{
    match width {
        8 => 0x80,
        16 => 0x8000,
        32 => 0x8000_0000,
        _ => 0x8000_0000_0000_0000,
    }
}
