//! Bytes in pages.

ghost use Rattle.std.specs.Prelude.{◌≡◌, ◌<◌, ◌≤◌, ◌⊎◌, ◌/◌, ◌+◌, ◌%◌, ◌^◌, ℕ, IsSome, OnOk, length, slice_index, nat_eq};
ghost use Rattle.std.specs.HashMap.{get};
ghost use Rattle.c_values.specs.Types.{address_width};
ghost use Rattle.c_values.specs.CodeTypes.{target_of};
ghost use Rattle.c_memory.specs.Memory.{little_endian, with_byte, with_bytes};
ghost use Rattle.c_memory.specs.CodePages.{byte_at, IsRun, HasPages, KeepsPages};

use crate::addresses::moved;
use c_values::Target;
use std::alloc::AllocError;
use std::collections::HashMap;

/// How many bytes a page has.
pub(crate) const PAGE: u64 = 256;

/// The pages that are kept, by their numbers. The others are all zeros.
pub(crate) type Pages = HashMap<u64, [u8; 256]>;

/// The byte at an address.
pub(crate) fn byte_at(pages: &Pages, address: u64) -> u8
    ensures { result ≡ byte_at pages.now address }
{
    match pages.get(&(address / PAGE)) {
        Some(page) => page[(address % PAGE) as usize],
        None => 0,
    }
}

/// The number that lies at an address, little-endian.
pub(crate) fn bits_at(pages: &Pages, target: Target, address: u64, size: u64) -> u64
    requires address { address < 2 ^ address_width (target_of target) }
    requires size { size ≤ 8 }
    ensures { result ≡ little_endian (2 ^ address_width (target_of target))
        (byte_at pages.now) address size }
{
    u64::from_le_bytes(bytes_at(pages, target, address, size))
}

// The bytes of a scalar, and zeros after them.
fn bytes_at(pages: &Pages, target: Target, address: u64, size: u64) -> [u8; 8]
    requires address { address < 2 ^ address_width (target_of target) }
    requires size { size ≤ 8 }
    ensures { IsRun (2 ^ address_width (target_of target)) (byte_at pages.now) address size result }
{
    if address % PAGE + size <= PAGE {
        bytes_in_page(pages, target, address, size)
    } else {
        bytes_across_pages(pages, target, address, size)
    }
}

fn bytes_in_page(pages: &Pages, target: Target, address: u64, size: u64) -> [u8; 8]
    requires address { address < 2 ^ address_width (target_of target) }
    requires size { size ≤ 8 }
    requires page { address % 256 + size ≤ 256 }
    ensures { IsRun (2 ^ address_width (target_of target)) (byte_at pages.now) address size result }
{
    let mut bytes = [0; 8];
    if let Some(page) = pages.get(&(address / PAGE)) {
        let start = (address % PAGE) as usize;
        let size = size as usize;
        bytes[..size].copy_from_slice(&page[start..start + size]);
    }
    bytes
}

fn bytes_across_pages(pages: &Pages, target: Target, address: u64, size: u64) -> [u8; 8]
    requires { size ≤ 8 }
    ensures { IsRun (2 ^ address_width (target_of target)) (byte_at pages.now) address size result }
{
    let mut bytes = [0; 8];
    for i in 0..size {
        bytes[i as usize] = byte_at(pages, moved(target, address, i));
    }
    bytes
}

/// Makes sure that the pages of an object are there. It takes the room for all of them first, so that it makes none where
/// there is no room.
pub(crate) fn take_pages(
    pages: &mut Pages,
    target: Target,
    address: u64,
    size: u32,
) -> Result<(), AllocError>
    requires address { address < 2 ^ address_width (target_of target) }
    requires size { size ≤ 65536 }
    ensures pages { OnOk result
        (HasPages (2 ^ address_width (target_of target)) pages.new address size) }
    ensures bytes { byte_at pages.new ≡ byte_at pages.old }
    ensures kept { KeepsPages pages.old pages.new }
{
    let start = address % PAGE;
    let count = (start + u64::from(size)).div_ceil(PAGE);
    pages.reserve(count as usize)?;
    for k in 0..count {
        take_page(pages, moved(target, address - start, k * PAGE) / PAGE)?;
    }
    Ok(())
}

/// Makes sure that a page is there.
pub(crate) fn take_page(pages: &mut Pages, number: u64) -> Result<(), AllocError>
    ensures page { OnOk result (IsSome (get nat_eq pages.new number)) }
    ensures bytes { byte_at pages.new ≡ byte_at pages.old }
    ensures kept { KeepsPages pages.old pages.new }
{
    if !pages.contains_key(&number) {
        pages.insert(number, [0; 256])?;
    }
    Ok(())
}

/// Puts the low bytes of a number at an address, little-endian. Their pages are there.
pub(crate) fn put_bits(pages: &mut Pages, target: Target, address: u64, size: u64, bits: u64)
    requires address { address < 2 ^ address_width (target_of target) }
    requires size { size ≤ 8 }
    requires pages { HasPages (2 ^ address_width (target_of target)) pages.old address size }
    ensures bytes { byte_at pages.new
        ≡ with_bytes (2 ^ address_width (target_of target)) address size bits (byte_at pages.old) }
    ensures pages { KeepsPages pages.old pages.new }
{
    if address % PAGE + size <= PAGE {
        put_in_page(pages, target, address, size, bits);
    } else {
        put_across_pages(pages, target, address, size, bits);
    }
}

fn put_in_page(pages: &mut Pages, target: Target, address: u64, size: u64, bits: u64)
    requires address { address < 2 ^ address_width (target_of target) }
    requires size { size ≤ 8 }
    requires page { address % 256 + size ≤ 256 }
    requires pages { HasPages (2 ^ address_width (target_of target)) pages.old address size }
    ensures bytes { byte_at pages.new
        ≡ with_bytes (2 ^ address_width (target_of target)) address size bits (byte_at pages.old) }
    ensures pages { KeepsPages pages.old pages.new }
{
    let bytes = bits.to_le_bytes();
    put_slice(pages, address, &bytes[..size as usize]);
}

/// Puts bytes into one page.
pub(crate) fn put_slice(pages: &mut Pages, address: u64, bytes: &[u8])
    requires page { address % 256 + length bytes.now ≤ 256 }
    requires pages { 0 < length bytes.now → IsSome (get nat_eq pages.old (address / 256)) }
    ensures here { (i : ℕ) → i < length bytes.now → byte_at pages.new (address + i)
        ≡ slice_index bytes.now i }
    ensures elsewhere { (x : ℕ) → (x < address) ⊎ (address + length bytes.now ≤ x) →
        byte_at pages.new x ≡ byte_at pages.old x }
    ensures pages { KeepsPages pages.old pages.new }
{
    if let Some(page) = pages.get_mut(&(address / PAGE)) {
        let start = (address % PAGE) as usize;
        page[start..start + bytes.len()].copy_from_slice(bytes);
    }
}

fn put_across_pages(pages: &mut Pages, target: Target, address: u64, size: u64, bits: u64)
    requires pages { HasPages (2 ^ address_width (target_of target)) pages.old address size }
    ensures bytes { byte_at pages.new
        ≡ with_bytes (2 ^ address_width (target_of target)) address size bits (byte_at pages.old) }
    ensures pages { KeepsPages pages.old pages.new }
{
    let mut rest = bits;
    for i in 0..size {
        put_byte(pages, moved(target, address, i), (rest % 256) as u8);
        rest /= 256;
    }
}

// Puts a byte at an address.
fn put_byte(pages: &mut Pages, address: u64, byte: u8)
    requires { IsSome (get nat_eq pages.old (address / 256)) }
    ensures bytes { byte_at pages.new ≡ with_byte address byte (byte_at pages.old) }
    ensures pages { KeepsPages pages.old pages.new }
{
    if let Some(page) = pages.get_mut(&(address / PAGE)) {
        page[(address % PAGE) as usize] = byte;
    }
}
