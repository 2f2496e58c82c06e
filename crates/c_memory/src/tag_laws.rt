//! Laws of tags: the search for a root finds exactly the parts of a tag's object, each by its one path, and a covered
//! root has one tag and is where a pointer may point.

ghost use Rattle.std.specs.Prelude.{◌≡◌, ℕ, ◌+◌, true, List, Some, Contains, pos};
ghost use Rattle.c_values.specs.Types.{CType};
ghost use Rattle.c_values.specs.Layout.{Layout, IsLayout, shape_of, is_complete};
ghost use Rattle.c_values.specs.Path.{Step, spot, in_range};
ghost use Rattle.c_memory.specs.Memory.{Tag};
ghost use Rattle.c_memory.specs.Tags.{is_root_type, is_pointer_ok, AreTags, IsPart, root_path, path_from, is_covered};

/// The search finds parts alone: its path leads, in range, to a part of the type at the offset.
pub fn search_finds_parts()
    ensures { (l : Layout) (u t : CType) (d : ℕ) (path : List Step) → IsLayout l →
        is_complete (shape_of l u) ≡ true → root_path (shape_of l u) t d ≡ Some path →
        IsPart (shape_of l u) d t × (in_range (shape_of l u) path ≡ true)
        × (spot (shape_of l u) path ≡ Some (record { offset = pos d; shape = shape_of l t })) }
{}

/// The search finds each part.
pub fn search_finds_each_part()
    ensures { (l : Layout) (u t : CType) (d : ℕ) → IsLayout l → is_complete (shape_of l u) ≡ true →
        IsPart (shape_of l u) d t →
        (path : List Step) × (root_path (shape_of l u) t d ≡ Some path) }
{}

/// A path that leads to a part is the one that the search finds, so each part has one path.
pub fn part_has_one_path()
    ensures { (l : Layout) (u t : CType) (d : ℕ) (path : List Step) → IsLayout l →
        is_complete (shape_of l u) ≡ true → is_root_type t ≡ true → in_range (shape_of l u) path
        ≡ true →
        spot (shape_of l u) path ≡ Some (record { offset = pos d; shape = shape_of l t }) →
        root_path (shape_of l u) t d ≡ Some path }
{}

/// A covered root is an integer, a pointer or a struct, and is a part of a tag's object.
pub fn covered_root_is_a_part()
    ensures { (l : Layout) (tags : List Tag) (t : CType) (a : ℕ) → IsLayout l → AreTags l tags →
        is_covered l tags t a ≡ true →
        (u : Tag) × Contains tags u
        × (d : ℕ) × (u.address + d ≡ a) × IsPart (shape_of l u.type) d t × (is_root_type t ≡ true) }
{}

/// Each part of a tag's object is a covered root.
pub fn part_is_covered()
    ensures { (l : Layout) (tags : List Tag) (u : Tag) (t : CType) (d : ℕ) → IsLayout l →
        AreTags l tags →
        Contains tags u → IsPart (shape_of l u.type) d t →
        is_covered l tags t (u.address + d) ≡ true }
{}

/// A covered root has one tag, and one path from it.
pub fn covered_root_has_one_tag()
    ensures { (l : Layout) (tags : List Tag) (u v : Tag) (t : CType) (a : ℕ) (p q : List Step) →
        IsLayout l → AreTags l tags → Contains tags u → Contains tags v →
        path_from l u t a ≡ Some p → path_from l v t a ≡ Some q →
        (u ≡ v) × (p ≡ q) }
{}

/// A covered root is where a pointer may point: aligned, not null, and all of it in the space.
pub fn covered_root_is_pointer_ok()
    ensures { (l : Layout) (tags : List Tag) (t : CType) (a : ℕ) → IsLayout l → AreTags l tags →
        is_covered l tags t a ≡ true → is_pointer_ok l t a ≡ true }
{}
