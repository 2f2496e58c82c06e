//! What can be done with heaps of bytes, without an object's type.

ghost use Rattle.std.specs.Prelude.{◌≡◌, ◌≢◌, ◌/◌, ◌⊎◌, ℕ, [], None, Some, map, slice_get, IfOk, IfErr, IsSome, nat_eq};
ghost use Rattle.std.specs.HashMap.{get, hash_map_len};
ghost use Rattle.c_values.specs.Layout.{space};
ghost use Rattle.c_memory.specs.Memory.{Tag};
ghost use Rattle.c_memory.specs.Tags.{IsWellTagged};
ghost use Rattle.c_memory.specs.CodeTag.{tag_of};
ghost use Rattle.c_memory.specs.CodeHeap.{memory_of};
ghost use Rattle.c_memory.specs.Ranges.{run_of, AreRuns, run_byte};
ghost use Rattle.c_memory.specs.TagFault.{IsRoot, first_fault};
ghost use Rattle.c_memory.specs.declared.faults.HeapFault.TheVariants.{Memory};

use crate::byte_heap::ByteHeap;
use crate::faults::HeapFault;
use crate::pages::byte_at;
use crate::ranges::pages_of;
use crate::tag_faults::table_of;
use crate::tag_table::TagTable;
use c_values::{CType, Layout};
use std::alloc::{AllocError, Global};

impl ByteHeap {
    /// The heap with these bytes and tags: the bytes in ranges, which are in order and apart, and the others 0. A tag's
    /// type is an integer, a pointer or a struct, and an object of the layout.
    ///
    /// An `Err` names the first tag that is at fault: misaligned, null, past the end of the space or over an earlier one,
    /// in this order; or there is no memory.
    pub fn new(
        alloc: Global,
        l: &Layout,
        bytes: &[(u64, Vec<u8>)],
        tags: &[(u64, CType)],
    ) -> Result<ByteHeap, HeapFault>
        requires bytes { AreRuns 0 (space l.now) (map run_of bytes.now) }
        requires tags { (k : ℕ) (t : Tag) → slice_get (map tag_of tags.now) k ≡ Some t →
            IsRoot l.now t }
        ensures heap { IfOk result (λ h.
            memory_of h
            ≡ record { bytes = run_byte (map run_of bytes.now); tags = map tag_of tags.now }) }
        ensures well_tagged { IfOk result (λ h. IsWellTagged l.now (memory_of h)) }
        ensures sound { IfOk result (λ _. first_fault l.now [] 0 (map tag_of tags.now) ≡ None) }
        ensures cause { IfErr result
            (λ e. (e ≡ Memory) ⊎ (first_fault l.now [] 0 (map tag_of tags.now) ≡ Some e)) }
    {
        let tags = table_of(alloc, l, tags)?;
        let pages = pages_of(alloc, bytes)?;
        Ok(ByteHeap { pages, tags })
    }

    /// A copy.
    pub fn copy(&self, alloc: Global) -> Result<ByteHeap, AllocError>
        ensures { IfOk result (λ h. memory_of h ≡ memory_of self.now) }
    {
        Ok(ByteHeap {
            pages: self.pages.clone()?,
            tags: self.tags.copy(alloc)?,
        })
    }

    /// The byte at an address.
    pub fn byte(&self, address: u64) -> u8
        ensures { result ≡ (memory_of self.now).bytes address }
    {
        byte_at(&self.pages, address)
    }

    /// The tags, in order.
    pub fn tags(&self) -> &[(u64, CType)]
        ensures { map tag_of result.now ≡ (memory_of self.now).tags }
    {
        self.tags.tags()
    }

    /// The tags, with what finds them by their addresses.
    pub fn tag_table(&self) -> &TagTable
        ensures { result.now ≡ (memory_of self.now).tags }
    {
        &self.tags
    }

    /// How many pages are kept. Every address whose byte isn't 0 lies in one of them.
    pub fn pages(&self) -> usize
        ensures number { result ≡ hash_map_len self.now.pages }
        ensures kept { (a : ℕ) → (memory_of self.now).bytes a ≢ 0 →
            IsSome (get nat_eq self.now.pages (a / 256)) }
    {
        self.pages.len()
    }
}
