//! The values of typed heaps at places.

ghost use Rattle.std.specs.Prelude.{◌≡◌, ◌++◌, true, false, map, Some, slice_get, IsSome, IfSome, IfNone};
ghost use Rattle.std.specs.Option.{option_map};
ghost use Rattle.c_values.specs.Layout.{IsLayout, shape_of, is_object};
ghost use Rattle.c_values.specs.Path.{spot, HasShape};
ghost use Rattle.c_values.specs.CodeTypes.{type_of};
ghost use Rattle.c_values.specs.CodeValue.{value_of};
ghost use Rattle.c_memory.specs.Memory.{Tag};
ghost use Rattle.c_memory.specs.CodeStep.{step_of};
ghost use Rattle.c_memory.specs.Heap.{IsHeap};
ghost use Rattle.c_memory.specs.Tags.{AreTags, path_from, is_covered};
ghost use Rattle.c_memory.specs.CodeTagIndex.{Covers};
ghost use Rattle.c_memory.specs.TypedHeap.{read_cells, write_cells};
ghost use Rattle.typed_heap.specs.CodeCells.{cells_of, typed_content};
ghost use Rattle.typed_heap.specs.CodeWays.{steps_of, IsWay};

use crate::heap::TypedHeap;
use crate::selecting::{replace, select};
use crate::ways::Way;
use c_memory::{Step, TagTable};
use c_values::{CType, Layout, Value, size_of};

/// The value at a place, where its root is covered.
pub(crate) fn value_at<'a>(
    h: &'a TypedHeap,
    l: &Layout,
    t: &CType,
    address: u64,
    path: &[Step],
) -> Option<&'a Value>
    requires heap { IsHeap l.now (typed_content h.now) }
    requires object { is_object l.now (type_of t.now) ≡ true }
    requires place { IsSome (spot (shape_of l.now (type_of t.now)) (map step_of path.now)) }
    ensures none { IfNone result (is_covered l.now h.now.tags (type_of t.now) address ≡ false) }
    ensures some { IfSome result (λ v. value_of v.now
        ≡ read_cells l.now (cells_of h.now) (type_of t.now) address (map step_of path.now)) }
    ensures shape { IfSome result
        (λ v. IfSome (spot (shape_of l.now (type_of t.now)) (map step_of path.now))
        (λ q. HasShape q.shape (value_of v.now))) }
{
    let k = h.tags.find(l, t, address)?;
    let way = way_to(&h.tags, l, t, address, path, k);
    Some(select(l, &h.values[k], way))
}

/// Puts a value at a place whose root the tag at this position covers.
pub(crate) fn put(
    h: &mut TypedHeap,
    l: &Layout,
    t: &CType,
    address: u64,
    path: &[Step],
    k: usize,
    value: Value,
)
    requires heap { IsHeap l.now (typed_content h.old) }
    requires covers { Covers l.now h.old.tags (type_of t.now) address k }
    ensures { cells_of h.new
        ≡ write_cells l.now (cells_of h.old) (type_of t.now) address (map step_of path.now)
        (value_of value) }
{
    let way = way_to(&h.tags, l, t, address, path, k);
    replace(l, &mut h.values[k], way, value);
}

// The way to a place whose root the tag at this position covers, from the tag's object.
fn way_to<'a>(
    tags: &'a TagTable,
    l: &Layout,
    t: &'a CType,
    address: u64,
    path: &'a [Step],
    k: usize,
) -> Way<'a>
    requires tags { AreTags l.now tags.now }
    requires covers { Covers l.now tags.now (type_of t.now) address k }
    ensures steps { (u : Tag) → slice_get tags.now k ≡ Some u → steps_of l.now result
        ≡ option_map
        (λ root. root ++ map step_of path.now) (path_from l.now u (type_of t.now) address) }
    ensures object { IsWay l.now result }
    ensures layout { IsLayout l.now }
{
    let (start, whole) = &tags.tags()[k];
    Way::ToRoot {
        whole,
        size: size_of(l, whole),
        root: t,
        offset: address - *start,
        path,
    }
}
