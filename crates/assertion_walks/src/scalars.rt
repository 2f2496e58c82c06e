//! Scalars at the ends of paths, and paths whose indexes are constants.

ghost use Rattle.std.specs.Prelude.{◌≡◌, ◌↔◌, IsTrue, IfNone, IfSome};
ghost use Rattle.std.specs.Option.{option_map};
ghost use Rattle.c_values.specs.Layout.{shape_of};
ghost use Rattle.c_values.specs.Path.{is_index};
ghost use Rattle.c_values.specs.CodeTypes.{type_of};
ghost use Rattle.expression_lang.specs.CodeExpression.{exp_of, path_of};
ghost use Rattle.expression_lang.specs.CodeSort.{scope_by};
ghost use Rattle.assertion_walks.specs.Written.{scalar_at, HasIndexes};
ghost use Rattle.assertion_walks.specs.CodeScalar.{IsElementAt, HasNoElementAt};

use c_values::{CType, GlobalVar, Layout, Number};
use expression_lang::parts::member;
use expression_lang::{Exp, Path, Scope, along};

/// The type of the scalar at the end of a path, where there is one.
#[tactic(auto, using(crate::proofs::ScalarEnds::scalar_end, crate::proofs::ScalarEnds::no_end))]
pub(crate) fn scalar_at<'a, N: Scope>(
    t: &'a CType,
    path: &'a Path,
    names: &N,
    l: &'a Layout,
    globals: &'a [GlobalVar],
) -> Option<&'a CType>
    ensures { option_map (λ u. type_of u.now) result
        ≡ scalar_at (scope_by l.now (N.scalars names.now) globals.now) (type_of t.now)
        (path_of path.now) }
{
    match along(path, t, names, l, globals) {
        Some(end) => match end {
            CType::Int(_) | CType::Ptr(_) => Some(end),
            CType::Void | CType::Struct(_) | CType::Array(_, _) => None,
        },
        None => None,
    }
}

// Whether an index is of an element that is there.
#[tactic(auto, using(crate::proofs::ScalarEnds::index_is))]
fn is_index(n: Number, length: u32) -> bool
    ensures { result ≡ is_index n length }
{
    !n.negative() && n.magnitude() < u128::from(length)
}

// The type of the element at an index that is a constant, where there is one.
fn element_at<'a>(index: &Exp, t: &'a CType, l: &Layout) -> Option<&'a CType>
    ensures some { IfSome result (λ u. IsElementAt (exp_of index.now)
        (shape_of l.now (type_of t.now)) (shape_of l.now (type_of u.now))) }
    ensures none { IfNone result (HasNoElementAt (exp_of index.now)
        (shape_of l.now (type_of t.now))) }
{
    let Exp::Number(n) = index else {
        return None;
    };
    let _ = l.target();
    match t {
        CType::Array(element, length) => {
            if is_index(*n, *length) {
                Some(&**element)
            } else {
                None
            }
        }
        CType::Struct(_) => None,
        CType::Int(_) | CType::Void | CType::Ptr(_) => None,
    }
}

/// Whether each index of a path into a type is a constant, of an element that is there.
pub(crate) fn has_indexes(path: &Path, t: &CType, l: &Layout) -> bool
    ensures { IsTrue result ↔ HasIndexes (path_of path.now) (shape_of l.now (type_of t.now)) }
{
    let mut rest = path;
    let mut whole = t;
    'steps: loop {
        match rest {
            Path::Here => return true,
            Path::Field(k, next) => {
                let Some(part) = member(l, whole, *k) else {
                    return false;
                };
                whole = part;
                rest = &**next;
            }
            Path::Index(index, next) => {
                let Some(part) = element_at(&**index, whole, l) else {
                    return false;
                };
                whole = part;
                rest = &**next;
            }
        }
    }
}
