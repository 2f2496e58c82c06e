//! The types of places.

ghost use Rattle.std.specs.Prelude.{◌≡◌, ℤ, true, map, IfSome};
ghost use Rattle.std.specs.Option.{option_map};
ghost use Rattle.c_values.specs.Layout.{Layout, IsLayout, shape_of, is_object};
ghost use Rattle.c_values.specs.Path.{Field, Index, spot, step_spot};
ghost use Rattle.c_values.specs.CodeTypes.{type_of};
ghost use Rattle.c_memory.specs.CodeStep.{step_of};

use c_memory::Step;
use c_values::{CType, Layout};

/// The type of what lies at the end of a path into a type. There is none exactly where the type has no such path.
pub fn type_at<'a>(l: &'a Layout, t: &'a CType, path: &[Step]) -> Option<&'a CType>
    requires { is_object l.now (type_of t.now) ≡ true }
    ensures shape { option_map (λ u. shape_of l.now (type_of u.now)) result
        ≡ option_map (λ q. q.shape) (spot (shape_of l.now (type_of t.now)) (map step_of path.now)) }
    ensures object { IfSome result (λ u. is_object l.now (type_of u.now) ≡ true) }
    ensures layout { IsLayout l.now }
{
    let _ = l.target();
    let mut ty = t;
    for step in path {
        ty = part_type(l, ty, *step)?;
    }
    Some(ty)
}

// The type of the part to which one step leads.
fn part_type<'a>(l: &'a Layout, whole: &'a CType, step: Step) -> Option<&'a CType>
    requires layout { IsLayout l.now }
    requires object { is_object l.now (type_of whole.now) ≡ true }
    ensures shape { option_map (λ u. shape_of l.now (type_of u.now)) result
        ≡ option_map
        (λ q. q.shape) (step_spot (shape_of l.now (type_of whole.now)) (step_of step)) }
    ensures object { IfSome result (λ u. is_object l.now (type_of u.now) ≡ true) }
{
    match step {
        Step::Field(k) => member_type(l, whole, k),
        Step::Index(_) => element_type(whole),
    }
}

fn member_type<'a>(l: &'a Layout, whole: &'a CType, k: u32) -> Option<&'a CType>
    requires layout { IsLayout l.now }
    requires object { is_object l.now (type_of whole.now) ≡ true }
    ensures shape { option_map (λ u. shape_of l.now (type_of u.now)) result
        ≡ option_map (λ q. q.shape) (step_spot (shape_of l.now (type_of whole.now)) (Field k)) }
    ensures object { IfSome result (λ u. is_object l.now (type_of u.now) ≡ true) }
{
    let CType::Struct(name) = whole else {
        return None;
    };
    let (_, ty) = l.member(name.as_str(), k)?;
    Some(ty)
}

fn element_type(whole: &CType) -> Option<&CType>
    ensures shape { (l : Layout) (i : ℤ) → IsLayout l → is_object l (type_of whole.now) ≡ true →
        option_map (λ u. shape_of l (type_of u.now)) result
        ≡ option_map (λ q. q.shape) (step_spot (shape_of l (type_of whole.now)) (Index i)) }
    ensures object { (l : Layout) → is_object l (type_of whole.now) ≡ true →
        IfSome result (λ u. is_object l (type_of u.now) ≡ true) }
{
    match whole {
        CType::Array(element, _) => Some(&**element),
        CType::Struct(_) => None,
        CType::Int(_) | CType::Void | CType::Ptr(_) => None,
    }
}
