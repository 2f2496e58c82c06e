//! Laws of typed heaps where a root isn't covered, and of either heap at any index, in range or not.

ghost use Rattle.std.specs.Prelude.{◌≡◌, ℕ, true, false, List, Some};
ghost use Rattle.c_values.specs.Types.{CType};
ghost use Rattle.c_values.specs.Value.{Value};
ghost use Rattle.c_values.specs.Layout.{Layout, IsLayout, shape_of, is_complete};
ghost use Rattle.c_values.specs.Path.{Step, Spot, spot, HasShape};
ghost use Rattle.c_memory.specs.TypedHeap.{TypedHeap, zeros_spot};
ghost use Rattle.c_memory.specs.Heap.{Heap, OnTypes, read_heap, write_heap, is_tagged, IsHeap};

/// A read at a root that isn't covered gives zeros.
pub fn uncovered_reads_zeros()
    ensures { (l : Layout) (cells : TypedHeap) (t : CType) (a : ℕ) (path : List Step) →
        is_tagged l (OnTypes cells) t a ≡ false →
        read_heap l (OnTypes cells) t a path ≡ zeros_spot (spot (shape_of l t) path) }
{}

/// A write at a root that isn't covered changes nothing.
pub fn uncovered_write_changes_nothing()
    ensures { (l : Layout) (cells : TypedHeap) (t : CType) (a : ℕ) (path : List Step) (v : Value) →
        is_tagged l (OnTypes cells) t a ≡ false →
        write_heap l (OnTypes cells) t a path v ≡ OnTypes cells }
{}

/// A read gives a value of the place's shape, at any index.
pub fn read_has_its_shape()
    ensures { (l : Layout) (h : Heap) (t : CType) (a : ℕ) (path : List Step) (q : Spot) →
        IsLayout l → IsHeap l h →
        is_complete (shape_of l t) ≡ true → spot (shape_of l t) path ≡ Some q →
        HasShape q.shape (read_heap l h t a path) }
{}

/// A write of a value of the place's shape leaves a heap that can be, at any index.
pub fn write_keeps_heap_at_any_index()
    ensures { (l : Layout) (h : Heap) (t : CType) (a : ℕ) (path : List Step) (q : Spot)
        (v : Value) → IsLayout l →
        IsHeap l h → is_complete (shape_of l t) ≡ true → spot (shape_of l t) path ≡ Some q →
        HasShape q.shape v →
        IsHeap l (write_heap l h t a path v) }
{}
