//! Laws of heaps: a typed heap has what memory has at covered roots, a write on either is the same write, and a heap
//! that can be stays one.

ghost use Rattle.std.specs.Prelude.{◌≡◌, ℕ, ◌+◌, ◌<◌, ◌≤◌, ◌⊎◌, true, List, Some, Contains};
ghost use Rattle.c_values.specs.Types.{CType};
ghost use Rattle.c_values.specs.Value.{Value};
ghost use Rattle.c_values.specs.Layout.{Layout, IsLayout, shape_of, size, size_of, space};
ghost use Rattle.c_values.specs.Path.{Step, Spot, spot, in_range, HasShape};
ghost use Rattle.c_memory.specs.Memory.{Tag, Memory, address_at, store_at};
ghost use Rattle.c_memory.specs.Tags.{is_covered, IsWellTagged};
ghost use Rattle.c_memory.specs.TypedHeap.{view};
ghost use Rattle.c_memory.specs.Heap.{Heap, OnBytes, OnTypes, heap_tags, read_heap, write_heap, is_tagged, IsHeap};

/// The view of a memory covers the roots that the memory covers.
pub fn view_covers_the_same()
    ensures { (l : Layout) (m : Memory) (t : CType) (a : ℕ) →
        is_tagged l (OnTypes (view l m)) t a ≡ is_tagged l (OnBytes m) t a }
{}

/// The view of a well-tagged memory is a heap that can be.
pub fn view_is_a_heap()
    ensures { (l : Layout) (m : Memory) → IsLayout l → IsWellTagged l m →
        IsHeap l (OnTypes (view l m)) }
{}

/// A read of the view at a covered root and a path in range gives what memory has there.
pub fn view_reads_what_memory_has()
    ensures { (l : Layout) (m : Memory) (t : CType) (a : ℕ) (path : List Step) (q : Spot) →
        IsLayout l → IsWellTagged l m → is_covered l m.tags t a ≡ true →
        in_range (shape_of l t) path ≡ true → spot (shape_of l t) path ≡ Some q →
        read_heap l (OnTypes (view l m)) t a path ≡ read_heap l (OnBytes m) t a path }
{}

/// To write at a covered root and a path in range, and then view, is to view and then write.
pub fn write_commutes_with_view()
    ensures { (l : Layout) (m : Memory) (t : CType) (a : ℕ) (path : List Step) (q : Spot)
        (v : Value) →
        IsLayout l → IsWellTagged l m → is_covered l m.tags t a ≡ true →
        in_range (shape_of l t) path ≡ true → spot (shape_of l t) path ≡ Some q →
        HasShape q.shape v →
        OnTypes (view l
        (record { bytes = store_at (space l) (shape_of l t) a path v m.bytes; tags = m.tags }))
        ≡ write_heap l (OnTypes (view l m)) t a path v }
{}

/// A write keeps the tags.
pub fn write_keeps_tags()
    ensures { (l : Layout) (h : Heap) (t : CType) (a : ℕ) (path : List Step) (v : Value) →
        heap_tags (write_heap l h t a path v) ≡ heap_tags h }
{}

/// A write of a value of the place's shape leaves a heap that can be: bytes and well-tagged, or each value of its tag's
/// type.
pub fn write_keeps_heap()
    ensures { (l : Layout) (h : Heap) (t : CType) (a : ℕ) (path : List Step) (q : Spot)
        (v : Value) →
        IsLayout l → IsHeap l h →
        in_range (shape_of l t) path ≡ true → spot (shape_of l t) path ≡ Some q →
        HasShape q.shape v →
        IsHeap l (write_heap l h t a path v) }
{}

/// A read at a covered root and a path in range gives what was just written there.
pub fn written_is_read()
    ensures { (l : Layout) (h : Heap) (t : CType) (a : ℕ) (path : List Step) (q : Spot)
        (v : Value) →
        IsLayout l → IsHeap l h → is_tagged l h t a ≡ true →
        in_range (shape_of l t) path ≡ true → spot (shape_of l t) path ≡ Some q →
        HasShape q.shape v →
        read_heap l (write_heap l h t a path v) t a path ≡ v }
{}

/// A read gives what it gave before a write to a place whose bytes don't meet its own, both at covered roots and paths
/// in range.
pub fn read_is_as_before()
    ensures { (l : Layout) (h : Heap) (t u : CType) (a b : ℕ) (path other : List Step) (q r : Spot)
        (v : Value) →
        IsLayout l → IsHeap l h → is_tagged l h t a ≡ true → is_tagged l h u b ≡ true →
        in_range (shape_of l t) path ≡ true → spot (shape_of l t) path ≡ Some q →
        in_range (shape_of l u) other ≡ true → spot (shape_of l u) other ≡ Some r →
        (address_at (space l) a q.offset + size q.shape ≤ address_at (space l) b r.offset)
        ⊎ (address_at (space l) b r.offset + size r.shape ≤ address_at (space l) a q.offset) →
        read_heap l (write_heap l h t a path v) u b other ≡ read_heap l h u b other }
{}

/// A write to memory at a covered root and a path in range changes no byte outside of the tags' objects.
pub fn write_stays_in_objects()
    ensures { (l : Layout) (m : Memory) (t : CType) (a : ℕ) (path : List Step) (q : Spot)
        (v : Value) (x : ℕ) →
        IsLayout l → IsWellTagged l m → is_covered l m.tags t a ≡ true →
        in_range (shape_of l t) path ≡ true → spot (shape_of l t) path ≡ Some q →
        ((u : Tag) → Contains m.tags u → (x < u.address) ⊎ (u.address + size_of l u.type ≤ x)) →
        store_at (space l) (shape_of l t) a path v m.bytes x ≡ m.bytes x }
{}
