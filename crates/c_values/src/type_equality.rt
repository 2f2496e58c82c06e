//! Types that are compared. A text may nest types deeply, so this goes down a type by a loop.

ghost use Rattle.std.specs.Prelude.{◌≡◌};
ghost use Rattle.c_values.specs.Types.{same_type};
ghost use Rattle.c_values.specs.CodeTypes.{type_of};
ghost use Rattle.c_values.specs.CodeLayers.{IsLast};

use crate::types::CType;

impl PartialEq for CType {
    ghost use Rattle.std.specs.Ordering.{on};
    ghost use Rattle.std.specs.Cmp.{partial_equiv_from_equiv};
    ghost use Rattle.std.proofs.lemmas.Cmp.{on_equiv};
    ghost use Rattle.c_values.specs.Types.{same_type};
    ghost use Rattle.c_values.specs.CodeTypes.{type_of};
    ghost use Rattle.c_values.specs.CodeSameType.{same_type-equiv};

    ghost eq = { on type_of same_type };

    ghost laws = { partial_equiv_from_equiv (on_equiv type_of same_type-equiv) };

    fn eq(&self, other: &CType) -> bool {
        same_type(self, other)
    }
}

impl Eq for CType {
    ghost use Rattle.std.proofs.lemmas.Cmp.{on_equiv};
    ghost use Rattle.c_values.specs.CodeTypes.{type_of};
    ghost use Rattle.c_values.specs.CodeSameType.{same_type-equiv};

    ghost laws = { on_equiv type_of same_type-equiv };
}

fn same_type(t: &CType, u: &CType) -> bool
    ensures { result ≡ same_type (type_of t.now) (type_of u.now) }
{
    let mut left = t;
    let mut right = u;
    loop {
        match left {
            CType::Ptr(inner) => match right {
                CType::Ptr(other) => {
                    left = &**inner;
                    right = &**other;
                }
                CType::Int(_) | CType::Void | CType::Struct(_) | CType::Array(_, _) => return false,
            },
            CType::Array(inner, length) => match right {
                CType::Array(other, other_length) => {
                    if *length != *other_length {
                        return false;
                    }
                    left = &**inner;
                    right = &**other;
                }
                CType::Int(_) | CType::Void | CType::Struct(_) | CType::Ptr(_) => return false,
            },
            CType::Int(_) | CType::Void | CType::Struct(_) => return same_last(left, right),
        }
    }
}

// The same of a type that is no pointer and no array.
fn same_last(t: &CType, u: &CType) -> bool
    requires { IsLast (type_of t.now) }
    ensures { result ≡ same_type (type_of t.now) (type_of u.now) }
{
    match t {
        CType::Int(i) => match u {
            CType::Int(j) => *i == *j,
            CType::Void | CType::Ptr(_) | CType::Struct(_) | CType::Array(_, _) => false,
        },
        CType::Void => matches!(u, CType::Void),
        CType::Struct(x) => match u {
            CType::Struct(y) => x.as_str() == y.as_str(),
            CType::Int(_) | CType::Void | CType::Ptr(_) | CType::Array(_, _) => false,
        },
        CType::Ptr(_) | CType::Array(_, _) => false,
    }
}
