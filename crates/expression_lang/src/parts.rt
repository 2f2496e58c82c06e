//! Parts of types, and the types of globals.

ghost use Rattle.std.specs.Prelude.{◌≡◌, map};
ghost use Rattle.std.specs.Option.{option_map};
ghost use Rattle.c_values.specs.Layout.{shape_of, global_type};
ghost use Rattle.c_values.specs.Path.{Field, step_spot};
ghost use Rattle.c_values.specs.CodeTypes.{type_of};
ghost use Rattle.c_values.specs.CodeValue.{global_of};
ghost use Rattle.expression_lang.specs.CodeAlong.{shape_at, element_in};

use c_values::{CType, GlobalVar, Layout};

/// The type of a member.
pub fn member<'a>(l: &'a Layout, t: &'a CType, k: u32) -> Option<&'a CType>
    ensures { option_map (λ u. shape_of l.now (type_of u.now)) result
        ≡ shape_at (step_spot (shape_of l.now (type_of t.now)) (Field k)) }
{
    let CType::Struct(name) = t else {
        return None;
    };
    match l.member(name.as_str(), k) {
        Some((_, ty)) => Some(ty),
        None => None,
    }
}

/// The type of the elements.
pub fn element<'a>(l: &Layout, t: &'a CType) -> Option<&'a CType>
    ensures { option_map (λ u. shape_of l.now (type_of u.now)) result
        ≡ element_in (shape_of l.now (type_of t.now)) }
{
    // Its structs are no arrays.
    let _ = l.target();
    match t {
        CType::Array(element, _) => Some(&**element),
        CType::Struct(_) => None,
        CType::Int(_) | CType::Void | CType::Ptr(_) => None,
    }
}

/// The type of a global, where there is one of the name.
pub fn global<'a>(globals: &'a [GlobalVar], name: &str) -> Option<&'a CType>
    ensures { option_map (λ t. type_of t.now) result
        ≡ global_type (map global_of globals.now) name.now }
{
    for global in globals {
        if global.name.as_str() == name {
            return Some(&global.ty);
        }
    }
    None
}
