//! Types of parts of objects.

ghost use Rattle.std.specs.Prelude.{◌≡◌, ◌↔◌, IsTrue, map};
ghost use Rattle.c_values.specs.Types.{same_type};
ghost use Rattle.c_values.specs.Layout.{shape_of};
ghost use Rattle.c_values.specs.CodeTypes.{type_of};
ghost use Rattle.c_values.specs.CodeLayout.{member_of};
ghost use Rattle.assertion_walks.specs.Written.{AreRelated};
ghost use Rattle.assertion_walks.specs.CodeRelated.{has_part, members_have};

use c_values::{CType, Layout};

/// Whether two types are the same.
#[tactic(auto, using(expression_lang::proofs::Decided::is_type, expression_lang::proofs::Decided::type_is))]
pub(crate) fn is_type(t: &CType, u: &CType) -> bool
    ensures { result ≡ same_type (type_of t.now) (type_of u.now) }
{
    t == u
}

// Whether an object has a part of a type: itself, or a part of a member or of an element.
#[cycle(related)]
fn has_part(l: &Layout, whole: &CType, t: &CType) -> bool
    ensures { result ≡ has_part (shape_of l.now (type_of whole.now)) (type_of t.now) }
{
    match whole {
        CType::Int(_) | CType::Ptr(_) => is_type(whole, t),
        CType::Void => false,
        CType::Array(element, length) => *length > 0 && has_part(l, element, t),
        CType::Struct(name) => {
            let _ = l.target();
            match l.definition(name.as_str()) {
                None => false,
                Some(definition) => {
                    is_type(whole, t) || members_have(l, definition.members.as_slice(), t)
                }
            }
        }
    }
}

// Whether one of the members has such a part.
#[cycle(related)]
fn members_have(l: &Layout, members: &[(String, CType)], t: &CType) -> bool
    ensures { result ≡ members_have (shape_of l.now) (map member_of members.now) (type_of t.now) }
{
    let mut rest = members;
    'members: while let Some(((_, ty), more)) = rest.split_first() {
        if has_part(l, ty, t) {
            return true;
        }
        rest = more;
    }
    false
}

/// Whether one of two types is that of a part of the other.
pub(crate) fn are_related(l: &Layout, t: &CType, u: &CType) -> bool
    ensures { IsTrue result ↔ AreRelated l.now (type_of t.now) (type_of u.now) }
{
    has_part(l, t, u) || has_part(l, u, t)
}
