//! What expressions and programs ask of a heap.

ghost use Rattle.std.specs.Prelude.{◌≡◌, ◌<◌, true, map, OnOk, OnErr, IfOk, IsSome, IsSomeAnd};
ghost use Rattle.c_values.specs.Value.{Bits};
ghost use Rattle.c_values.specs.Layout.{shape_of, space, is_object, is_scalar, type_of as scalar_type};
ghost use Rattle.c_values.specs.Path.{spot, HasShape};
ghost use Rattle.c_values.specs.CodeTypes.{type_of};
ghost use Rattle.c_values.specs.CodeValue.{value_of};
ghost use Rattle.c_memory.specs.Heap.{Heap as Content, IsHeap, read_heap, write_heap, is_tagged};
ghost use Rattle.c_memory.specs.CodeStep.{step_of};

use crate::steps::Step;
use c_values::{CType, Layout, Value, Word};
use std::alloc::{AllocError, Global};

/// Memory of bytes, or a typed heap. A place is a root, which is a type and an address, and a path into the type.
pub trait Heap {
    /// What is in it.
    ghost content: { Self → Content };

    /// The word at a place of a scalar type.
    fn read_word(&self, l: &Layout, t: &CType, address: u64, path: &[Step]) -> Word
        requires heap { IsHeap l.now (content self.now) }
        requires object { is_object l.now (type_of t.now) ≡ true }
        requires address { address < space l.now }
        requires place { IsSomeAnd (spot (shape_of l.now (type_of t.now)) (map step_of path.now))
            (λ q. is_scalar (scalar_type q.shape) ≡ true) }
        ensures { Bits result ≡ read_heap l.now (content self.now) (type_of t.now) address
            (map step_of path.now) };

    /// The value at a place.
    fn read_value(
        &self,
        alloc: Global,
        l: &Layout,
        t: &CType,
        address: u64,
        path: &[Step],
    ) -> Result<Value, AllocError>
        requires heap { IsHeap l.now (content self.now) }
        requires object { is_object l.now (type_of t.now) ≡ true }
        requires address { address < space l.now }
        requires place { IsSome (spot (shape_of l.now (type_of t.now)) (map step_of path.now)) }
        ensures { IfOk result
            (λ v. value_of v ≡ read_heap l.now (content self.now) (type_of t.now) address
            (map step_of path.now)) };

    /// Writes a value at a place of its type. An `Err` changes nothing.
    fn write_value(
        &mut self,
        alloc: Global,
        l: &Layout,
        t: &CType,
        address: u64,
        path: &[Step],
        value: &Value,
    ) -> Result<(), AllocError>
        requires heap { IsHeap l.now (content self.old) }
        requires object { is_object l.now (type_of t.now) ≡ true }
        requires address { address < space l.now }
        requires place { IsSomeAnd (spot (shape_of l.now (type_of t.now)) (map step_of path.now))
            (λ q. HasShape q.shape (value_of value.now)) }
        ensures written { OnOk result (content self.new
            ≡ write_heap l.now (content self.old) (type_of t.now) address (map step_of path.now)
            (value_of value.now)) }
        ensures unchanged { OnErr result (content self.new ≡ content self.old) };

    /// Whether a root is covered.
    fn tagged(&self, l: &Layout, t: &CType, address: u64) -> bool
        requires heap { IsHeap l.now (content self.now) }
        requires object { is_object l.now (type_of t.now) ≡ true }
        requires address { address < space l.now }
        ensures { result ≡ is_tagged l.now (content self.now) (type_of t.now) address };
}
