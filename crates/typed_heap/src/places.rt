//! Typed heaps, read and written at places.

use crate::heap::TypedHeap;
use crate::selecting::word_in;
use crate::tagged_values::{put, value_at};
use crate::types_at::type_at;
use crate::zero_words::zero_word;
use c_memory::{Heap, Step};
use c_values::{CType, Layout, Value, Word, copy_value, zeros};
use std::alloc::{AllocError, Global};

impl Heap for TypedHeap {
    ghost use Rattle.std.specs.Prelude.{◌≡◌, ◌<◌, true, map, OnOk, OnErr, IsOk, IsSomeAnd};
    ghost use Rattle.c_values.specs.Layout.{shape_of, space, is_object, is_scalar, type_of as scalar_type};
    ghost use Rattle.c_values.specs.Path.{spot, HasShape};
    ghost use Rattle.c_values.specs.CodeTypes.{type_of};
    ghost use Rattle.c_values.specs.CodeValue.{value_of};
    ghost use Rattle.c_memory.specs.Heap.{IsHeap, write_heap};
    ghost use Rattle.c_memory.specs.CodeStep.{step_of};
    ghost use Rattle.typed_heap.specs.CodeCells.{typed_content};

    ghost content = { typed_content };

    fn read_word(&self, l: &Layout, t: &CType, address: u64, path: &[Step]) -> Word {
        match value_at(self, l, t, address, path) {
            Some(value) => word_in(value),
            None => zero_word(l, type_at(l, t, path).unwrap()),
        }
    }

    fn read_value(
        &self,
        alloc: Global,
        l: &Layout,
        t: &CType,
        address: u64,
        path: &[Step],
    ) -> Result<Value, AllocError> {
        match value_at(self, l, t, address, path) {
            Some(value) => copy_value(alloc, value),
            None => zeros(alloc, l, type_at(l, t, path).unwrap()),
        }
    }

    // A write to a scalar takes no memory, and succeeds.
    fn write_value(
        &mut self,
        alloc: Global,
        l: &Layout,
        t: &CType,
        address: u64,
        path: &[Step],
        value: &Value,
    ) -> Result<(), AllocError>
        requires heap { IsHeap l.now (typed_content self.old) }
        requires object { is_object l.now (type_of t.now) ≡ true }
        requires address { address < space l.now }
        requires place { IsSomeAnd (spot (shape_of l.now (type_of t.now)) (map step_of path.now))
            (λ q. HasShape q.shape (value_of value.now)) }
        ensures written { OnOk result (typed_content self.new
            ≡ write_heap l.now (typed_content self.old) (type_of t.now) address
            (map step_of path.now) (value_of value.now)) }
        ensures unchanged { OnErr result (typed_content self.new ≡ typed_content self.old) }
        ensures scalar { IsSomeAnd (spot (shape_of l.now (type_of t.now)) (map step_of path.now))
            (λ q. is_scalar (scalar_type q.shape) ≡ true) → IsOk result }
    {
        let Some(k) = self.tags.find(l, t, address) else {
            return Ok(());
        };
        let value = copy_value(alloc, value)?;
        put(self, l, t, address, path, k, value);
        Ok(())
    }

    fn tagged(&self, l: &Layout, t: &CType, address: u64) -> bool {
        self.tags.find(l, t, address).is_some()
    }
}
