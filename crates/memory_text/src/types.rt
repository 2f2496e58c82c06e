//! The types that the parts of a list have.
ghost use Rattle.std.specs.Prelude.{◌≡◌, ◌<◌, length, map, Some, option_map, slice_get};
ghost use Rattle.c_values.specs.CodeTypes.{type_of};
ghost use Rattle.c_values.specs.Types.{Struct};
ghost use Rattle.c_values.specs.Layout.{shape_of};
ghost use Rattle.memory_text.specs.ValueText.{parts_of};
ghost use Rattle.memory_text.specs.CodeTypes.{types_in};

use c_lang::tree::Variable;
use c_values::{CType, Layout};

/// Types in a row.
#[derive(Clone, Copy)]
pub enum Types<'a> {
    /// That of an array's elements, so many times.
    Elements(&'a CType, u32),
    /// Those of a struct's members.
    Members(&'a [(String, CType)]),
    /// Those of a function's parameters.
    Parameters(&'a [Variable]),
}

impl<'a> Types<'a> {
    /// How many there are.
    pub fn len(self) -> usize
        ensures { result ≡ length (types_in self.entry) }
    {
        match self {
            Types::Elements(_, length) => length as usize,
            Types::Members(members) => members.len(),
            Types::Parameters(parameters) => parameters.len(),
        }
    }

    /// The type at a place.
    pub fn get(self, k: usize) -> &'a CType
        requires { k < length (types_in self) }
        ensures { slice_get (types_in self.entry) k ≡ Some (type_of result.now) }
    {
        match self {
            Types::Elements(element, _) => element,
            Types::Members(members) => &members[k].1,
            Types::Parameters(parameters) => &parameters[k].ty,
        }
    }
}

/// The types of the parts of a struct or an array.
pub fn types_of<'a>(layout: &'a Layout, ty: &'a CType) -> Option<Types<'a>>
    ensures { option_map (λ types. map (shape_of layout.now) (types_in types)) result
        ≡ parts_of (shape_of layout.now (type_of ty.now)) }
{
    match ty {
        CType::Int(_) | CType::Void | CType::Ptr(_) => None,
        CType::Struct(name) => members_of(layout, name.as_str()),
        CType::Array(element, length) => Some(Types::Elements(&**element, *length)),
    }
}

fn members_of<'a>(layout: &'a Layout, name: &str) -> Option<Types<'a>>
    ensures { option_map (λ types. map (shape_of layout.now) (types_in types)) result
        ≡ parts_of (shape_of layout.now (Struct name.now)) }
{
    // It promises that a struct's shape is its own definition's.
    let _target = layout.target();
    let definition = layout.definition(name)?;
    Some(Types::Members(&definition.members))
}
