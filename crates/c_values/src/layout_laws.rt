//! Laws of layouts: where the parts of a complete type lie. A path in range is one whose indices are of elements that
//! are there; the spot that it leads to is an offset in bytes and the shape of the part.

ghost use Rattle.std.specs.Prelude.{◌≡◌, ◌≢◌, ℕ, ◌+◌, ◌%◌, ◌≤◌, ◌⊎◌, true, List, ◌++◌, Some, pos};
ghost use Rattle.c_values.specs.Types.{CType};
ghost use Rattle.c_values.specs.Layout.{Layout, IsLayout, shape_of, size_of, align_of, size, alignment, type_of, is_complete};
ghost use Rattle.c_values.specs.Path.{Step, Spot, spot, in_range};

/// Each part lies within the whole, at an offset that is a multiple of the part's alignment, and the whole's alignment
/// is a multiple of the part's too.
pub fn parts_lie_within()
    ensures { (l : Layout) (t : CType) (path : List Step) (q : Spot) → IsLayout l →
        is_complete (shape_of l t) ≡ true → in_range (shape_of l t) path ≡ true →
        spot (shape_of l t) path ≡ Some q →
        (d : ℕ) × (q.offset ≡ pos d) × (d + size q.shape ≤ size_of l t)
        × (d % alignment q.shape ≡ 0) × (align_of l t % alignment q.shape ≡ 0) }
{}

/// Two parts have no byte in common, where neither path goes on from the other.
pub fn parts_are_apart()
    ensures { (l : Layout) (t : CType) (path other : List Step) (q r : Spot) (d e : ℕ) →
        IsLayout l →
        is_complete (shape_of l t) ≡ true →
        in_range (shape_of l t) path ≡ true → spot (shape_of l t) path ≡ Some q → q.offset ≡ pos d →
        in_range (shape_of l t) other ≡ true → spot (shape_of l t) other ≡ Some r →
        r.offset ≡ pos e →
        ((rest : List Step) → path ++ rest ≢ other) → ((rest : List Step) → other ++ rest ≢ path) →
        (d + size q.shape ≤ e) ⊎ (e + size r.shape ≤ d) }
{}

/// A part is of a complete type, has at least one byte, and has the shape that the layout gives its type.
pub fn parts_have_their_shape()
    ensures { (l : Layout) (t : CType) (path : List Step) (q : Spot) → IsLayout l →
        is_complete (shape_of l t) ≡ true → in_range (shape_of l t) path ≡ true →
        spot (shape_of l t) path ≡ Some q →
        (is_complete q.shape ≡ true) × (1 ≤ size q.shape)
        × (shape_of l (type_of q.shape) ≡ q.shape) }
{}
