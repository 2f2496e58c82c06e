//! Addresses: numbers modulo the size of the space.

ghost use Rattle.std.specs.Prelude.{◌≡◌, ◌+◌, ◌*◌, ◌%◌, ◌^◌, pos, ◌*ℤ◌};
ghost use Rattle.c_values.specs.Types.{address_width};
ghost use Rattle.c_values.specs.CodeTypes.{target_of};
ghost use Rattle.c_memory.specs.Memory.{address_at};

use c_values::views::word;
use c_values::{Number, Target};

/// The address so many bytes further on.
pub(crate) fn moved(target: Target, address: u64, bytes: u64) -> u64
    ensures { result ≡ (address + bytes) % 2 ^ address_width (target_of target) }
{
    wrapped(target, address.wrapping_add(bytes))
}

/// The address of an element, by plain arithmetic.
pub fn element_address(target: Target, address: u64, index: Number, size: u32) -> u64
    ensures { result ≡ address_at (2 ^ address_width (target_of target)) address
        (index *ℤ pos size) }
{
    let index = word(64, index).bits();
    moved(target, address, index.wrapping_mul(u64::from(size)))
}

// A number modulo the space.
fn wrapped(target: Target, number: u64) -> u64
    ensures { result ≡ number % 2 ^ address_width (target_of target) }
{
    match target {
        Target::Ilp32 => number & u64::from(u32::MAX),
        Target::Lp64 => number,
    }
}
