//! Offsets of parts.

ghost use Rattle.std.specs.Prelude.{◌≡◌, ◌+◌, true, List, ◌∷◌, None, pos, map, IfNone, IfSome};
ghost use Rattle.std.specs.Option.{option_map};
ghost use Rattle.c_values.specs.Layout.{IsLayout, is_object, size_of, shape_of};
ghost use Rattle.c_values.specs.StepInto.{step_into};
ghost use Rattle.c_values.specs.Path.{Step, offset_of};
ghost use Rattle.c_values.specs.CodePartOf.{IsPart};
ghost use Rattle.c_values.specs.CodeTypes.{type_of};
ghost use Rattle.c_values.specs.CodeValue.{step_of};

use crate::layouts::{Layout, size_of};
use crate::types::CType;
use crate::values::PathStep;

/// The offset in bytes at which a path into a type leads. There is none exactly where the type has no such path.
pub fn offset_of(l: &Layout, t: &CType, path: &[PathStep]) -> Option<u32>
    requires { is_object l.now (type_of t.now) ≡ true }
    ensures { option_map pos result ≡ offset_of l.now (type_of t.now) (map step_of path.now) }
{
    let mut offset = 0;
    let mut whole = t;
    let mut size = size_of(l, t);
    for step in path {
        let part = part_of(l, whole, size, *step)?;
        offset += part.offset;
        whole = part.ty;
        size = part.size;
    }
    Some(offset)
}

/// The part of an object that one step leads to: its offset in bytes, and its type.
pub fn step_into<'a>(l: &'a Layout, t: &'a CType, step: PathStep) -> Option<(u32, &'a CType)>
    requires { is_object l.now (type_of t.now) ≡ true }
    ensures { option_map
        (λ r. record { offset = pos r.0; shape = shape_of l.now (type_of r.1.now) }) result
        ≡ step_into (shape_of l.now (type_of t.now)) (step_of step) }
{
    let size = size_of(l, t);
    match t {
        CType::Struct(name) => match step {
            PathStep::Field(k) => l.member(name.as_str(), k),
            PathStep::Index(_) => None,
        },
        CType::Array(element, length) => match step {
            PathStep::Index(i) if i < *length => Some((i * (size / *length), &**element)),
            PathStep::Index(_) | PathStep::Field(_) => None,
        },
        CType::Int(_) | CType::Void | CType::Ptr(_) => None,
    }
}

// A part of an object: where it lies in it, its type and its size, in bytes.
#[derive(Clone, Copy)]
struct Part<'a> {
    offset: u32,
    ty: &'a CType,
    size: u32,
}

// The part that one step leads to.
fn part_of<'a>(l: &'a Layout, whole: &'a CType, size: u32, step: PathStep) -> Option<Part<'a>>
    requires layout { IsLayout l.now }
    requires object { is_object l.now (type_of whole.now) ≡ true }
    requires size { size ≡ size_of l.now (type_of whole.now) }
    ensures none { IfNone result
        ((path : List Step) → offset_of l.now (type_of whole.now) (step_of step ∷ path) ≡ None) }
    ensures part { IfSome result
        (λ p. IsPart l.now (type_of whole.now) (step_of step) p.offset (type_of p.ty.now)) }
    ensures size { IfSome result (λ p. p.size ≡ size_of l.now (type_of p.ty.now)) }
{
    match whole {
        CType::Struct(name) => match step {
            PathStep::Field(k) => {
                let (offset, ty) = l.member(name.as_str(), k)?;
                Some(Part {
                    offset,
                    ty,
                    size: size_of(l, ty),
                })
            }
            PathStep::Index(_) => None,
        },
        CType::Array(element, length) => match step {
            PathStep::Index(i) => {
                if i >= *length {
                    return None;
                }
                let size = size / *length;
                Some(Part {
                    offset: i * size,
                    ty: &**element,
                    size,
                })
            }
            PathStep::Field(_) => None,
        },
        CType::Int(_) | CType::Void | CType::Ptr(_) => None,
    }
}
