//! Copies of typed expressions. Their depth is that of the expressions of the text.

ghost use Rattle.std.specs.Prelude.{◌≡◌, IfOk, string_bytes};
ghost use Rattle.c_values.specs.CodeTypes.{type_of};
ghost use Rattle.typing_rules.specs.Simple as rules;
ghost use Rattle.c_lang.specs.Typed as C;
ghost use Rattle.c_lang.specs.CodeTyped.{destination_of, expr_of, path_of, place_of};

use c_lang::tree::{Destination, Expr, Path, Place};
use c_values::{CType, copy_of};
use std::alloc::{AllocError, Global};

/// What lies at what is assigned.
pub fn value_at(alloc: Global, target: &Destination) -> Result<Expr, AllocError>
    ensures { IfOk result (λ e. expr_of e ≡ rules.value_at (destination_of target.now)) }
{
    match target {
        Destination::ToLocal(name, ty) => Ok(Expr::Local(
            String::from_str(alloc, name.as_str())?,
            copy_of(alloc, ty)?,
        )),
        Destination::ToPlace(place) => {
            let place = copy_of_place(alloc, place)?;
            Ok(Expr::Value(Box::new(alloc, place)?))
        }
    }
}

// A copy of an expression.
#[cycle(copies)]
fn copy_of_expr(alloc: Global, e: &Expr) -> Result<Expr, AllocError>
    ensures { IfOk result (λ copy. expr_of copy ≡ expr_of e.now) }
{
    match e {
        Expr::Constant(ty, n) => Ok(Expr::Constant(*ty, *n)),
        Expr::Local(name, ty) => copy_of_local(alloc, name, ty),
        Expr::Value(place) => Ok(Expr::Value(boxed_place(alloc, place)?)),
        Expr::Convert(ty, a) => Ok(Expr::Convert(copy_of(alloc, ty)?, boxed(alloc, a)?)),
        Expr::ConvertNull(ty, a) => Ok(Expr::ConvertNull(copy_of(alloc, ty)?, boxed(alloc, a)?)),
        Expr::Negate(ty, a) => Ok(Expr::Negate(*ty, boxed(alloc, a)?)),
        Expr::Complement(ty, a) => Ok(Expr::Complement(*ty, boxed(alloc, a)?)),
        Expr::Compute(op, ty, a, b) => Ok(Expr::Compute(
            *op,
            *ty,
            boxed(alloc, a)?,
            boxed(alloc, b)?,
        )),
        Expr::Combine(op, ty, a, b) => Ok(Expr::Combine(
            *op,
            *ty,
            boxed(alloc, a)?,
            boxed(alloc, b)?,
        )),
        Expr::Shift(direction, ty, a, b) => Ok(Expr::Shift(
            *direction,
            *ty,
            boxed(alloc, a)?,
            boxed(alloc, b)?,
        )),
        Expr::Compare(relation, ty, a, b) => Ok(Expr::Compare(
            *relation,
            *ty,
            boxed(alloc, a)?,
            boxed(alloc, b)?,
        )),
        Expr::Equate(equality, ty, a, b) => Ok(Expr::Equate(
            *equality,
            copy_of(alloc, ty)?,
            boxed(alloc, a)?,
            boxed(alloc, b)?,
        )),
        Expr::Not(a) => Ok(Expr::Not(boxed(alloc, a)?)),
        Expr::And(a, b) => Ok(Expr::And(boxed(alloc, a)?, boxed(alloc, b)?)),
        Expr::Or(a, b) => Ok(Expr::Or(boxed(alloc, a)?, boxed(alloc, b)?)),
        Expr::Choose(ty, c, a, b) => Ok(Expr::Choose(
            copy_of(alloc, ty)?,
            boxed(alloc, c)?,
            boxed(alloc, a)?,
            boxed(alloc, b)?,
        )),
        Expr::Move(sign, ty, p, n) => Ok(Expr::Move(
            *sign,
            copy_of(alloc, ty)?,
            boxed(alloc, p)?,
            boxed(alloc, n)?,
        )),
        Expr::MoveBy(ty, n, p) => Ok(Expr::MoveBy(
            copy_of(alloc, ty)?,
            boxed(alloc, n)?,
            boxed(alloc, p)?,
        )),
        Expr::Address(place, ty) => Ok(Expr::Address(
            boxed_place(alloc, place)?,
            copy_of(alloc, ty)?,
        )),
        Expr::Decay(place, ty) => Ok(Expr::Decay(boxed_place(alloc, place)?, copy_of(alloc, ty)?)),
    }
}

fn copy_of_local(alloc: Global, name: &String, ty: &CType) -> Result<Expr, AllocError>
    ensures { IfOk result
        (λ copy. expr_of copy ≡ C.Local (string_bytes name.now) (type_of ty.now)) }
{
    let name = name.clone()?;
    Ok(Expr::Local(name, copy_of(alloc, ty)?))
}

#[cycle(copies)]
fn boxed(alloc: Global, e: &Expr) -> Result<Box<Expr>, AllocError>
    ensures { IfOk result (λ copy. expr_of copy.value ≡ expr_of e.now) }
{
    let copy = copy_of_expr(alloc, e)?;
    Ok(Box::new(alloc, copy)?)
}

#[cycle(copies)]
fn boxed_place(alloc: Global, place: &Place) -> Result<Box<Place>, AllocError>
    ensures { IfOk result (λ copy. place_of copy.value ≡ place_of place.now) }
{
    let copy = copy_of_place(alloc, place)?;
    Ok(Box::new(alloc, copy)?)
}

// A copy of a place.
#[cycle(copies)]
fn copy_of_place(alloc: Global, place: &Place) -> Result<Place, AllocError>
    ensures { IfOk result (λ copy. place_of copy ≡ place_of place.now) }
{
    match place {
        Place::Through(root, pointer, path, ty) => {
            let root = copy_of(alloc, root)?;
            let pointer = boxed(alloc, pointer)?;
            let path = boxed_path(alloc, path)?;
            Ok(Place::Through(root, pointer, path, copy_of(alloc, ty)?))
        }
        Place::InGlobal(name, path, ty) => {
            let name = name.clone()?;
            let path = boxed_path(alloc, path)?;
            Ok(Place::InGlobal(name, path, copy_of(alloc, ty)?))
        }
    }
}

#[cycle(copies)]
fn boxed_path(alloc: Global, path: &Path) -> Result<Box<Path>, AllocError>
    ensures { IfOk result (λ copy. path_of copy.value ≡ path_of path.now) }
{
    let copy = copy_of_path(alloc, path)?;
    Ok(Box::new(alloc, copy)?)
}

// A copy of a path.
#[cycle(copies)]
fn copy_of_path(alloc: Global, path: &Path) -> Result<Path, AllocError>
    ensures { IfOk result (λ copy. path_of copy ≡ path_of path.now) }
{
    match path {
        Path::Here => Ok(Path::Here),
        Path::Member(k, further) => Ok(Path::Member(*k, boxed_path(alloc, further)?)),
        Path::Element(length, index, further) => {
            let index = boxed(alloc, index)?;
            Ok(Path::Element(*length, index, boxed_path(alloc, further)?))
        }
    }
}
