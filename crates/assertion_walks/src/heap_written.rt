//! What an assertion says before a place in a typed heap is written.

ghost use Rattle.std.specs.Prelude.{◌≡◌, ◌↔◌, IsTrue, IfNone, IfSome, Bool};
ghost use Rattle.expression_lang.specs.Expression as plain;
ghost use Rattle.expression_lang.specs.CodeExpression.{exp_of, path_of};
ghost use Rattle.expression_lang.specs.CodeSort.{scope_by};
ghost use Rattle.assertion_walks.specs.CodePlace.{place_in, read_in, AreScalars};
ghost use Rattle.assertion_walks.specs.Written.{IsBeforeWrite, ReadBefore, part_of, replaced, root_of, read_at, of_same_root, of_same_scalar, address_of};

use crate::peeling::whole_of;
use crate::rebuilding::{Parts, Remaking, is_rebuilt, own_parts};
use crate::related::{are_related, is_type};
use crate::replacing::{Replaced, replaced_in};
use crate::scalars::{has_indexes, scalar_at};
use crate::typed_places::{Place, type_and_path};
use ac_expr::Children;
use c_values::{GlobalVar, Layout};
use expression_lang::{Exp, Path, Scope};

// A value that is written at a place in a typed heap.
#[derive(Clone, Copy)]
struct HeapWriting<'w> {
    place: Place<'w>,
    value: &'w Exp,
}

impl HeapWriting<'_> {
    // Whether an expression is the written root afterwards.
    fn is_root_after(&self, e: &Exp) -> bool
        ensures { IsTrue result ↔ (exp_of e.now ≡ replaced (root_of (place_in self.now.place))
            (place_in self.now.place).path (exp_of self.now.value.now)) }
    {
        match replaced_in(self.place.path, self.value, e) {
            Replaced::Nowhere => false,
            Replaced::Anywhere => true,
            Replaced::Only(whole) => self.place.is_root(whole),
        }
    }

    // Whether an expression is the part of that at a path.
    #[tactic(auto, using(crate::proofs::PeeledParts::one_whole))]
    fn is_part_after(&self, path: &Path, e: &Exp) -> bool
        ensures { IsTrue result ↔ (exp_of e.now
            ≡ part_of (replaced (root_of (place_in self.now.place))
            (place_in self.now.place).path (exp_of self.now.value.now)) (path_of path.now)) }
    {
        match whole_of(path, e) {
            Some(whole) => self.is_root_after(whole),
            None => false,
        }
    }

    // Whether an expression is what a read is where it may be at the written root.
    fn is_of_same_root(&self, read: &Place<'_>, e: &Exp) -> bool
        requires { read_in (exp_of e.now) ≡ read_at (place_in read.now) }
        ensures { IsTrue result ↔ (exp_of e.now ≡ of_same_root (place_in self.now.place)
            (exp_of self.now.value.now) (place_in read.now)) }
    {
        match e {
            Exp::If(condition, part, _) => {
                is_equation(condition, read.address, self.place.address)
                    && self.is_part_after(read.path, part)
            }
            _ => false,
        }
    }

    // Whether an expression is what a read is where it may be the written scalar.
    fn is_of_same_scalar(&self, read: &Place<'_>, e: &Exp) -> bool
        requires { read_in (exp_of e.now) ≡ read_at (place_in read.now) }
        ensures { IsTrue result ↔ (exp_of e.now ≡ of_same_scalar (place_in self.now.place)
            (exp_of self.now.value.now) (place_in read.now)) }
    {
        match e {
            Exp::If(condition, part, _) => {
                self.is_same_scalar(read, condition) && part.same(self.value)
            }
            _ => false,
        }
    }

    // Whether an expression is the test whether a read is one of the written scalar.
    fn is_same_scalar(&self, read: &Place<'_>, e: &Exp) -> bool
        ensures { IsTrue result ↔ (exp_of e.now ≡ plain.And
            (plain.Tagged (place_in read.now).type (place_in read.now).address)
            (plain.Eq (address_of (place_in read.now)) (address_of (place_in self.now.place)))) }
    {
        match e {
            Exp::And(tagged, equation) => match &**equation {
                Exp::Eq(own, written) => {
                    read.is_tagged(tagged) && read.is_address(own) && self.place.is_address(written)
                }
                _ => false,
            },
            _ => false,
        }
    }
}

// Whether an expression is the equation of two expressions.
fn is_equation(e: &Exp, left: &Exp, right: &Exp) -> bool
    ensures { IsTrue result ↔ (exp_of e.now ≡ plain.Eq (exp_of left.now) (exp_of right.now)) }
{
    match e {
        Exp::Eq(a, b) => a.same(left) && b.same(right),
        _ => false,
    }
}

// Whether an expression is the read at a place, which is in it.
fn is_read(read: &Place<'_>, e: &Exp) -> bool
    requires { read_in (exp_of e.now) ≡ read_at (place_in read.now) }
    ensures { IsTrue result ↔ (exp_of e.now ≡ read_at (place_in read.now)) }
{
    // The place is that of the read in it.
    let _ = read;
    !matches!(e, Exp::If(_, _, _))
}

// A value that is written at a place in a typed heap, and what is in scope.
#[derive(Clone, Copy)]
struct ScopedWriting<'w, N> {
    writing: HeapWriting<'w>,
    names: &'w N,
    layout: &'w Layout,
    globals: &'w [GlobalVar],
}

impl<N: Scope> ScopedWriting<'_, N> {
    // Whether the scalar that is read is of the type of the written one, where both are scalars and
    // the place that is read is in its root.
    fn of_one_type(&self, read: &Place<'_>) -> Option<bool>
        ensures some { IfSome result (AreScalars
            (scope_by self.now.layout.now (N.scalars self.now.names.now) self.now.globals.now)
            (place_in self.now.writing.place) (place_in read.now)) }
        ensures none { IfNone result ((same : Bool) → AreScalars
            (scope_by self.now.layout.now (N.scalars self.now.names.now) self.now.globals.now)
            (place_in self.now.writing.place) (place_in read.now) same → ⊥) }
    {
        let written = &self.writing.place;
        let Some(own) = scalar_at(
            written.ty,
            written.path,
            self.names,
            self.layout,
            self.globals,
        ) else {
            return None;
        };
        let Some(other) = scalar_at(read.ty, read.path, self.names, self.layout, self.globals)
        else {
            return None;
        };
        if has_indexes(read.path, read.ty, self.layout) {
            Some(is_type(other, own))
        } else {
            None
        }
    }

    // Whether an expression is what the read in it is before the value is written.
    fn is_read_before(&self, read: &Place<'_>, e: &Exp) -> bool
        requires { read_in (exp_of e.now) ≡ read_at (place_in read.now) }
        ensures { IsTrue result ↔ ReadBefore
            (scope_by self.now.layout.now (N.scalars self.now.names.now) self.now.globals.now)
            (place_in self.now.writing.place) (exp_of self.now.writing.value.now)
            (place_in read.now) (exp_of e.now) }
    {
        if is_type(read.ty, self.writing.place.ty) {
            return self.writing.is_of_same_root(read, e);
        }
        if !are_related(self.layout, self.writing.place.ty, read.ty) {
            return is_read(read, e);
        }
        match self.of_one_type(read) {
            None => false,
            Some(same) => {
                if same {
                    self.writing.is_of_same_scalar(read, e)
                } else {
                    is_read(read, e)
                }
            }
        }
    }
}

impl<N: Scope> Remaking for ScopedWriting<'_, N> {
    ghost use Rattle.expression_lang.specs.CodeExpression.{exp_of};
    ghost use Rattle.expression_lang.specs.CodeSort.{scope_by};
    ghost use Rattle.assertion_walks.specs.CodePlace.{place_in};
    ghost use Rattle.assertion_walks.specs.Written.{IsBefore};

    ghost Changes = { λ it a b. IsBefore
        (scope_by it.layout.now (N.scalars it.names.now) it.globals.now)
        (place_in it.writing.place) (exp_of it.writing.value.now) a b };

    fn unmade<'a>(&self, e: &'a Exp, other: &'a Exp) -> Option<Parts<'a>> {
        let Some((ty, way)) = type_and_path(e) else {
            return own_parts(e, other);
        };
        let Some(read) = Place::of_read_in(ty, way, other) else {
            return None;
        };
        if self.is_read_before(&read, other) {
            Some(Parts::Children(Children::AndIndexes(read.address, read.path)))
        } else {
            None
        }
    }
}

/// Whether the second expression is what the first says before the value is written at the place.
pub fn is_before_write<N: Scope>(
    place: &Place<'_>,
    value: &Exp,
    after: &Exp,
    before: &Exp,
    names: &N,
    layout: &Layout,
    globals: &[GlobalVar],
) -> bool
    ensures { IsTrue result ↔ IsBeforeWrite
        (scope_by layout.now (N.scalars names.now) globals.now) (place_in place.now)
        (exp_of value.now) (exp_of after.now) (exp_of before.now) }
{
    let writing = HeapWriting {
        place: *place,
        value,
    };
    is_rebuilt(
        &ScopedWriting {
            writing,
            names,
            layout,
            globals,
        },
        after,
        before,
    )
}
