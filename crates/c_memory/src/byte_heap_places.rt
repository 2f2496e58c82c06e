//! Heaps of bytes, read and written at places.

use crate::byte_heap::ByteHeap;
use crate::heaps::Heap;
use crate::loads::load;
use crate::pages::take_pages;
use crate::paths::place_at;
use crate::steps::Step;
use crate::stores::store;
use crate::words::load_word;
use c_values::{CType, Layout, Value, Word, size_of};
use std::alloc::{AllocError, Global};

impl Heap for ByteHeap {
    ghost use Rattle.c_memory.specs.CodeHeap.{byte_content};

    ghost content = { byte_content };

    fn read_word(&self, l: &Layout, t: &CType, address: u64, path: &[Step]) -> Word {
        let place = place_at(l, t, address, path).unwrap();
        load_word(&self.pages, l, place.ty, place.address)
    }

    fn read_value(
        &self,
        alloc: Global,
        l: &Layout,
        t: &CType,
        address: u64,
        path: &[Step],
    ) -> Result<Value, AllocError> {
        let place = place_at(l, t, address, path).unwrap();
        load(alloc, &self.pages, l, place.ty, place.address)
    }

    fn write_value(
        &mut self,
        _alloc: Global,
        l: &Layout,
        t: &CType,
        address: u64,
        path: &[Step],
        value: &Value,
    ) -> Result<(), AllocError> {
        let place = place_at(l, t, address, path).unwrap();
        let size = size_of(l, place.ty);
        take_pages(&mut self.pages, l.target(), place.address, size)?;
        store(&mut self.pages, l, place.ty, place.address, value);
        Ok(())
    }

    fn tagged(&self, l: &Layout, t: &CType, address: u64) -> bool {
        self.tags.find(l, t, address).is_some()
    }
}
