//! Where paths lead.

ghost use Rattle.std.specs.Prelude.{◌≡◌, ◌<◌, true, map, IfSome};
ghost use Rattle.std.specs.Option.{option_map};
ghost use Rattle.c_values.specs.Layout.{IsLayout, shape_of, size_of, is_object, space};
ghost use Rattle.c_values.specs.Path.{Field, Index, spot, step_spot};
ghost use Rattle.c_values.specs.CodeTypes.{target_of, type_of};
ghost use Rattle.c_memory.specs.CodeStep.{step_of};
ghost use Rattle.c_memory.specs.CodePlace.{place_of, place_from};

use crate::addresses::{element_address, moved};
use crate::steps::Step;
use c_values::{CType, Layout, Number, Target, size_of};

/// An address, and the type of what lies there.
#[derive(Clone, Copy)]
pub struct Place<'a> {
    pub address: u64,
    pub ty: &'a CType,
}

/// Where a path into a type leads from an address, by plain address arithmetic. There is none exactly where the type has
/// no such path.
pub fn place_at<'a>(l: &'a Layout, t: &'a CType, address: u64, path: &[Step]) -> Option<Place<'a>>
    requires object { is_object l.now (type_of t.now) ≡ true }
    requires address { address < space l.now }
    ensures place { option_map (λ p. place_of l.now p.address (type_of p.ty.now)) result
        ≡ place_from (space l.now) address
        (spot (shape_of l.now (type_of t.now)) (map step_of path.now)) }
    ensures object { IfSome result (λ p. is_object l.now (type_of p.ty.now) ≡ true) }
    ensures address { IfSome result (λ p. p.address < space l.now) }
    ensures layout { IsLayout l.now }
{
    let target = l.target();
    let size = size_of(l, t);
    let mut part = Part {
        address,
        ty: t,
        size,
    };
    for step in path {
        part = part_in(l, target, part, *step)?;
    }
    Some(Place {
        address: part.address,
        ty: part.ty,
    })
}

// What lies at a place, with its size in bytes. To find the size of an element a type would be gone through to its end, so
// it is handed down.
#[derive(Clone, Copy)]
struct Part<'a> {
    address: u64,
    ty: &'a CType,
    size: u32,
}

// The part to which one step leads.
fn part_in<'a>(l: &'a Layout, target: Target, whole: Part<'a>, step: Step) -> Option<Part<'a>>
    requires layout { IsLayout l.now }
    requires target { target_of target ≡ l.now.target }
    requires object { is_object l.now (type_of whole.ty.now) ≡ true }
    requires size { whole.size ≡ size_of l.now (type_of whole.ty.now) }
    ensures place { option_map (λ p. place_of l.now p.address (type_of p.ty.now)) result
        ≡ place_from (space l.now) whole.entry.address
        (step_spot (shape_of l.now (type_of whole.entry.ty.now)) (step_of step)) }
    ensures object { IfSome result (λ p. is_object l.now (type_of p.ty.now) ≡ true) }
    ensures address { IfSome result (λ p. p.address < space l.now) }
    ensures size { IfSome result (λ p. p.size ≡ size_of l.now (type_of p.ty.now)) }
{
    match step {
        Step::Field(k) => member_of(l, target, whole, k),
        Step::Index(index) => element_of(l, target, whole, index),
    }
}

// A member.
fn member_of<'a>(l: &'a Layout, target: Target, whole: Part<'a>, k: u32) -> Option<Part<'a>>
    requires layout { IsLayout l.now }
    requires target { target_of target ≡ l.now.target }
    requires object { is_object l.now (type_of whole.ty.now) ≡ true }
    requires size { whole.size ≡ size_of l.now (type_of whole.ty.now) }
    ensures place { option_map (λ p. place_of l.now p.address (type_of p.ty.now)) result
        ≡ place_from (space l.now) whole.entry.address
        (step_spot (shape_of l.now (type_of whole.entry.ty.now)) (Field k)) }
    ensures object { IfSome result (λ p. is_object l.now (type_of p.ty.now) ≡ true) }
    ensures address { IfSome result (λ p. p.address < space l.now) }
    ensures size { IfSome result (λ p. p.size ≡ size_of l.now (type_of p.ty.now)) }
{
    let CType::Struct(name) = whole.ty else {
        return None;
    };
    let (offset, ty) = l.member(name.as_str(), k)?;
    let size = size_of(l, ty);
    Some(Part {
        address: moved(target, whole.address, u64::from(offset)),
        ty,
        size,
    })
}

// An element.
fn element_of<'a>(l: &'a Layout, target: Target, whole: Part<'a>, index: Number) -> Option<Part<'a>>
    requires layout { IsLayout l.now }
    requires target { target_of target ≡ l.now.target }
    requires object { is_object l.now (type_of whole.ty.now) ≡ true }
    requires size { whole.size ≡ size_of l.now (type_of whole.ty.now) }
    ensures place { option_map (λ p. place_of l.now p.address (type_of p.ty.now)) result
        ≡ place_from (space l.now) whole.entry.address
        (step_spot (shape_of l.now (type_of whole.entry.ty.now)) (Index index)) }
    ensures object { IfSome result (λ p. is_object l.now (type_of p.ty.now) ≡ true) }
    ensures address { IfSome result (λ p. p.address < space l.now) }
    ensures size { IfSome result (λ p. p.size ≡ size_of l.now (type_of p.ty.now)) }
{
    match whole.ty {
        CType::Array(element, length) => {
            let size = whole.size / *length;
            Some(Part {
                address: element_address(target, whole.address, index, size),
                ty: &**element,
                size,
            })
        }
        CType::Struct(_) => None,
        CType::Int(_) | CType::Void | CType::Ptr(_) => None,
    }
}
