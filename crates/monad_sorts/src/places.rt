//! The scalars of parts of objects, whatever their paths' indices are.

ghost use Rattle.std.specs.Prelude.{◌≡◌, Some, map};
ghost use Rattle.std.specs.Option.{option_map};
ghost use Rattle.c_values.specs.Layout.{shape_of, global_type};
ghost use Rattle.c_values.specs.CodeTypes.{type_of};
ghost use Rattle.c_values.specs.CodeValue.{global_of};
ghost use Rattle.expression_lang.specs.CodeExpression.{path_of};
ghost use Rattle.expression_lang.specs.CodeSort.{scalar_of};
ghost use Rattle.monad_sorts.specs.CodeTold.{shape_through, scalar_at, part_told, global_told, address_told};

use c_values::{CType, GlobalVar, Layout, address_width, width_of};
use expression_lang::parts::{element, global, member};
use expression_lang::{Path, Scalar};

/// The scalar of an address.
pub(crate) fn address_scalar(l: &Layout) -> Option<Scalar>
    ensures { option_map scalar_of result ≡ address_told l.now }
{
    Some(Scalar::Word(address_width(l.target())))
}

/// The scalar of a part of a global.
pub(crate) fn global_scalar(
    l: &Layout,
    globals: &[GlobalVar],
    name: &str,
    path: &Path,
) -> Option<Scalar>
    ensures { option_map scalar_of result
        ≡ global_told l.now (global_type (map global_of globals.now) name.now) (path_of path.now) }
{
    match global(globals, name) {
        Some(t) => part_scalar(l, t, path),
        None => None,
    }
}

/// The scalar of a part of an object of a type.
pub(crate) fn part_scalar(l: &Layout, t: &CType, path: &Path) -> Option<Scalar>
    ensures { option_map scalar_of result ≡ part_told l.now (type_of t.now) (path_of path.now) }
{
    match part_type(l, t, path) {
        Some(part) => scalar_of_type(l, part),
        None => None,
    }
}

// The scalar of an object of a type.
#[tactic(auto, using(crate::proofs::Through::no_scalar))]
fn scalar_of_type(l: &Layout, t: &CType) -> Option<Scalar>
    ensures { option_map scalar_of result ≡ scalar_at (Some (shape_of l.now (type_of t.now))) }
{
    let target = l.target();
    match t {
        CType::Int(integer) => Some(Scalar::Word(width_of(target, *integer))),
        CType::Ptr(_) => Some(Scalar::Word(address_width(target))),
        CType::Struct(_) => None,
        CType::Void | CType::Array(_, _) => None,
    }
}

// The type at the end of a path. It goes along the path by a loop, since a text may have long
// paths.
#[tactic(auto, using(crate::proofs::Through::next_field, crate::proofs::Through::no_field, crate::proofs::Through::next_element, crate::proofs::Through::no_element))]
fn part_type<'a>(l: &'a Layout, t: &'a CType, path: &Path) -> Option<&'a CType>
    ensures { option_map (λ u. shape_of l.now (type_of u.now)) result
        ≡ shape_through (path_of path.now) (shape_of l.now (type_of t.now)) }
{
    let mut rest = path;
    let mut whole = t;
    'steps: loop {
        match rest {
            Path::Here => return Some(whole),
            Path::Field(k, next) => {
                let Some(part) = member(l, whole, *k) else {
                    return None;
                };
                whole = part;
                rest = &**next;
            }
            Path::Index(_, next) => {
                let Some(part) = element(l, whole) else {
                    return None;
                };
                whole = part;
                rest = &**next;
            }
        }
    }
}
