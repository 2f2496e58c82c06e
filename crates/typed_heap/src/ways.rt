//! Ways from objects to places in them.

ghost use Rattle.std.specs.Prelude.{◌≡◌, [], ◌++◌, true, false, map, None, Some, IfNone, IfSome};
ghost use Rattle.std.specs.Option.{option_map};
ghost use Rattle.c_values.specs.Layout.{Layout, IsLayout, shape_of, size_of, is_object};
ghost use Rattle.c_values.specs.CodeTypes.{type_of};
ghost use Rattle.c_memory.specs.CodeInner.{is_root_here, part_step};
ghost use Rattle.c_memory.specs.CodeStep.{step_of};
ghost use Rattle.c_memory.specs.Tags.{root_path, prefixed};
ghost use Rattle.typed_heap.specs.CodeWays.{steps_of, IsWay};

use c_memory::{Step, is_root_here, part_at};
use c_values::{CType, Layout, Number};

/// The way from an object to a place in it.
#[derive(Clone, Copy)]
pub(crate) enum Way<'a> {
    /// To the root of a type that lies at an offset into an object of a size in bytes, and along a path from there.
    ToRoot {
        whole: &'a CType,
        size: u32,
        root: &'a CType,
        offset: u64,
        path: &'a [Step],
    },
    /// Along a path.
    Along(&'a [Step]),
}

/// The first step of a way, and the way from there. There is none at its end.
pub(crate) fn first_step<'a>(l: &'a Layout, way: Way<'a>) -> Option<(Step, Way<'a>)>
    requires layout { IsLayout l.now }
    requires object { IsWay l.now way }
    ensures none { IfNone result (IfSome (steps_of l.now way.entry) (λ steps. steps ≡ [])) }
    ensures some { IfSome result
        (λ r. steps_of l.now way.entry ≡ prefixed (step_of r.0) (steps_of l.now r.1)) }
    ensures object { IfSome result (λ r. IsWay l.now r.1) }
{
    match way {
        Way::ToRoot {
            whole,
            size,
            root,
            offset,
            path,
        } => {
            if is_root_here(whole, root, offset) {
                first_along(path)
            } else {
                first_to_root(l, whole, size, root, offset, path)
            }
        }
        Way::Along(path) => first_along(path),
    }
}

// The same of a path.
fn first_along<'a>(path: &'a [Step]) -> Option<(Step, Way<'a>)>
    ensures none { IfNone result (map step_of path.now ≡ []) }
    ensures some { IfSome result
        (λ r. (l : Layout) → Some (map step_of path.now)
        ≡ prefixed (step_of r.0) (steps_of l r.1)) }
    ensures object { IfSome result (λ r. (l : Layout) → IsWay l r.1) }
{
    let (first, rest) = path.split_first()?;
    Some((*first, Way::Along(rest)))
}

// The same of a way to a root that isn't the object itself.
fn first_to_root<'a>(
    l: &'a Layout,
    whole: &'a CType,
    size: u32,
    root: &'a CType,
    offset: u64,
    path: &'a [Step],
) -> Option<(Step, Way<'a>)>
    requires layout { IsLayout l.now }
    requires object { is_object l.now (type_of whole.now) ≡ true }
    requires size { size ≡ size_of l.now (type_of whole.now) }
    requires inner { is_root_here (type_of whole.now) (type_of root.now) offset ≡ false }
    ensures none { IfNone result
        (root_path (shape_of l.now (type_of whole.now)) (type_of root.now) offset ≡ None) }
    ensures some { IfSome result (λ r. option_map (λ steps. steps ++ map step_of path.now)
        (root_path (shape_of l.now (type_of whole.now)) (type_of root.now) offset)
        ≡ prefixed (step_of r.0) (steps_of l.now r.1)) }
    ensures object { IfSome result (λ r. IsWay l.now r.1) }
{
    let part = part_at(l, whole, size, offset)?;
    let step = step_to(whole, part.index);
    let way = Way::ToRoot {
        whole: part.ty,
        size: part.size,
        root,
        offset: part.offset,
        path,
    };
    Some((step, way))
}

// The step to a part of this number.
fn step_to(whole: &CType, index: u32) -> Step
    ensures { step_of result ≡ part_step (type_of whole.now) index }
{
    match whole {
        CType::Array(_, _) => Step::Index(Number::new(false, u128::from(index))),
        CType::Int(_) | CType::Void | CType::Ptr(_) | CType::Struct(_) => Step::Field(index),
    }
}
