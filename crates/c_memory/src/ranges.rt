//! Bytes that are given in ranges.

ghost use Rattle.std.specs.Prelude.{◌≡◌, ◌<◌, ◌≤◌, ◌+◌, ◌^◌, ◌⊎◌, ℕ, length, map, slice_index, IfOk, OnOk};
ghost use Rattle.c_memory.specs.Memory.{AreBytes};
ghost use Rattle.c_memory.specs.CodePages.{byte_at};
ghost use Rattle.c_memory.specs.Ranges.{run_of, AreRuns, run_byte};

use crate::pages::{PAGE, Pages, put_slice, take_page};
use std::alloc::{AllocError, Global};
use std::collections::HashMap;

/// The pages that have the bytes of ranges.
pub(crate) fn pages_of(alloc: Global, ranges: &[(u64, Vec<u8>)]) -> Result<Pages, AllocError>
    requires { AreRuns 0 (2 ^ 64) (map run_of ranges.now) }
    ensures value { IfOk result (λ pages. byte_at pages ≡ run_byte (map run_of ranges.now)) }
    ensures bytes { IfOk result (λ pages. AreBytes (byte_at pages)) }
{
    let mut pages = HashMap::new(alloc);
    for (address, bytes) in ranges {
        put_range(&mut pages, *address, bytes)?;
    }
    Ok(pages)
}

// Puts bytes at an address and after it.
fn put_range(pages: &mut Pages, address: u64, bytes: &[u8]) -> Result<(), AllocError>
    requires { address + length bytes.now ≤ 2 ^ 64 }
    ensures here { OnOk result ((i : ℕ) → i < length bytes.now →
        byte_at pages.new (address + i) ≡ slice_index bytes.now i) }
    ensures elsewhere { OnOk result ((x : ℕ) → (x < address) ⊎ (address + length bytes.now ≤ x) →
        byte_at pages.new x ≡ byte_at pages.old x) }
    ensures bytes { OnOk result (AreBytes (byte_at pages.old) → AreBytes (byte_at pages.new)) }
{
    let mut done = 0;
    while done < bytes.len() {
        let at = address + done as u64;
        let room = (PAGE - at % PAGE) as usize;
        let count = room.min(bytes.len() - done);
        take_page(pages, at / PAGE)?;
        put_slice(pages, at, &bytes[done..done + count]);
        done += count;
    }
    Ok(())
}
