//! Places in typed heaps.

ghost use Rattle.std.specs.Prelude.{◌≡◌, ◌↔◌, IsTrue, IfNone, IfSome, false};
ghost use Rattle.c_values.specs.Types.{CType as plain_type};
ghost use Rattle.c_values.specs.CodeTypes.{type_of};
ghost use Rattle.expression_lang.specs.Expression as plain;
ghost use Rattle.expression_lang.specs.CodeExpression.{exp_of, path_of};
ghost use Rattle.ac_expr.specs.Heads.{path_head};
ghost use Rattle.assertion_walks.specs.CodePlace.{place_in, read_in, is_a_read};
ghost use Rattle.assertion_walks.specs.Written.{root_of, read_at, address_of};

use ac_expr::same_steps;
use c_values::CType;
use expression_lang::{Exp, Path, equal_types};

/// A place in a typed heap: the type and the address of the root, and the path.
#[derive(Clone, Copy)]
pub struct Place<'a> {
    pub ty: &'a CType,
    pub address: &'a Exp,
    pub path: &'a Path,
}

impl<'a> Place<'a> {
    /// The place of the read in what a read is before the heap is written, where it has the type
    /// and, but for the indexes, the path.
    pub(crate) fn of_read_in(ty: &CType, way: &Path, other: &'a Exp) -> Option<Place<'a>>
        ensures some { IfSome result (λ place.
            (read_in (exp_of other.now) ≡ read_at (place_in place))
            × ((place_in place).type ≡ type_of ty.now)
            × (path_head (place_in place).path ≡ path_head (path_of way.now))) }
        ensures none { IfNone result ((t : plain_type) (p : plain.Exp) (path : plain.Path) →
            read_in (exp_of other.now) ≡ plain.Read t p path → t ≡ type_of ty.now →
            path_head path ≡ path_head (path_of way.now) → ⊥) }
    {
        match read_in(other) {
            Exp::Read(own, address, path) => {
                if equal_types(own, ty) && same_steps(way, path) {
                    Some(Place {
                        ty: own,
                        address,
                        path,
                    })
                } else {
                    None
                }
            }
            _ => None,
        }
    }
}

/// The type of a read's root, and the path.
pub(crate) fn type_and_path(e: &Exp) -> Option<(&CType, &Path)>
    ensures some { IfSome result (λ (ty, way). (p : plain.Exp)
        × (exp_of e.now ≡ plain.Read (type_of ty.now) p (path_of way.now))) }
    ensures none { IfNone result (is_a_read (exp_of e.now) ≡ false) }
{
    match e {
        Exp::Read(ty, _, way) => Some((ty, way)),
        _ => None,
    }
}

// The read in what a read is before the heap is written.
fn read_in(e: &Exp) -> &Exp
    ensures { exp_of result.now ≡ read_in (exp_of e.now) }
{
    match e {
        Exp::If(_, _, read) => &**read,
        _ => e,
    }
}

impl Place<'_> {
    /// Whether an expression is the root.
    pub(crate) fn is_root(&self, e: &Exp) -> bool
        ensures { IsTrue result ↔ (exp_of e.now ≡ root_of (place_in self.now)) }
    {
        match e {
            Exp::Read(ty, address, Path::Here) => {
                equal_types(ty, self.ty) && address.same(self.address)
            }
            _ => false,
        }
    }

    /// Whether an expression is the address.
    pub(crate) fn is_address(&self, e: &Exp) -> bool
        ensures { IsTrue result ↔ (exp_of e.now ≡ address_of (place_in self.now)) }
    {
        match e {
            Exp::At(ty, address, path) => {
                equal_types(ty, self.ty) && address.same(self.address) && path.same(self.path)
            }
            _ => false,
        }
    }

    /// Whether an expression is the test whether the root is in the heap.
    pub(crate) fn is_tagged(&self, e: &Exp) -> bool
        ensures { IsTrue result ↔ (exp_of e.now
            ≡ plain.Tagged (place_in self.now).type (place_in self.now).address) }
    {
        match e {
            Exp::Tagged(ty, address) => { equal_types(ty, self.ty) && address.same(self.address) }
            _ => false,
        }
    }
}
