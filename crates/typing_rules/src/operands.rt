//! What an expression is before its value is taken: a value, a local, or a place in memory.

ghost use Rattle.std.specs.Prelude.{◌≡◌, IfOk};
ghost use Rattle.c_values.specs.CodeTypes.{type_of};
ghost use Rattle.typing_rules.specs.CodeAnswers.{RulesAs};
ghost use Rattle.typing_rules.specs.CodeForm.{form_type};
ghost use Rattle.typing_rules.specs.CodeOperand.{operand_of, demand_of};
ghost use Rattle.typing_rules.specs.Operand as operands;
ghost use Rattle.c_lang.specs.Typed as C;
ghost use Rattle.c_lang.specs.CodeTyped.{expr_of, place_of, path_of, destination_of};

use crate::fault::TypeKind;
use crate::rulings::{Refusal, refuse};
use crate::types::{Form, form_of, is_array};
use c_lang::tree::{Destination, Expr, Path, Place, place_type};
use c_values::{CType, IntType, copy_of};
use std::alloc::{AllocError, Global};

/// A typed operand.
#[derive(Debug, Drop)]
pub enum Operand {
    Valued(Expr),
    /// A local, by its own name.
    Variable(String, CType),
    At(Place),
}

/// What becomes of an operand: its value is taken, an element of it is, or it stays a place.
#[derive(Clone, Copy, Debug, PartialEq, Eq)]
pub enum Demand {
    Value,
    Element,
    Place,
}

/// The form of an expression's type.
pub fn type_of(e: &Expr) -> Form<'_>
    ensures { form_type result ≡ C.type_of (expr_of e.now) }
{
    match e {
        Expr::Constant(integer, _)
        | Expr::Negate(integer, _)
        | Expr::Complement(integer, _)
        | Expr::Compute(_, integer, _, _)
        | Expr::Combine(_, integer, _, _)
        | Expr::Shift(_, integer, _, _) => Form::Integer(*integer),
        Expr::Local(_, ty)
        | Expr::Convert(ty, _)
        | Expr::ConvertNull(ty, _)
        | Expr::Choose(ty, _, _, _) => form_of(ty),
        Expr::Value(place) => form_of(place_type(&**place)),
        Expr::Compare(_, _, _, _)
        | Expr::Equate(_, _, _, _)
        | Expr::Not(_)
        | Expr::And(_, _)
        | Expr::Or(_, _) => Form::Integer(IntType::Int),
        Expr::Move(_, ty, _, _)
        | Expr::MoveBy(ty, _, _)
        | Expr::Address(_, ty)
        | Expr::Decay(_, ty) => Form::Pointer(ty),
    }
}

/// The form of an operand's type.
pub fn operand_type(operand: &Operand) -> Form<'_>
    ensures { form_type result ≡ operands.operand_type (operand_of operand.now) }
{
    match operand {
        Operand::Valued(e) => type_of(e),
        Operand::Variable(_, ty) => form_of(ty),
        Operand::At(place) => form_of(place_type(place)),
    }
}

/// The value of an operand that is no array.
pub fn value_in(alloc: Global, operand: Operand) -> Result<Expr, AllocError>
    ensures { IfOk result (λ e. expr_of e ≡ operands.value_in (operand_of operand)) }
{
    match operand {
        Operand::Valued(e) => Ok(e),
        Operand::Variable(name, ty) => Ok(Expr::Local(name, ty)),
        Operand::At(place) => Ok(Expr::Value(Box::new(alloc, place)?)),
    }
}

/// What is assigned.
pub fn destination(operand: Operand) -> Result<Destination, Refusal>
    ensures { RulesAs destination_of result (operands.destination (operand_of operand)) }
{
    match operand {
        Operand::Valued(_) => Err(Refusal::Kind(TypeKind::NotLvalue)),
        Operand::Variable(name, ty) => Ok(Destination::ToLocal(name, ty)),
        Operand::At(place) => Ok(Destination::ToPlace(place)),
    }
}

/// A place as an operand. An array in a global has no address, and is only indexed.
pub fn used(alloc: Global, demand: Demand, place: Place) -> Result<Operand, Refusal>
    ensures { RulesAs operand_of result (operands.used (demand_of demand) (place_of place)) }
{
    match demand {
        Demand::Element => Ok(Operand::At(place)),
        Demand::Value | Demand::Place => used_unindexed(alloc, demand, place),
    }
}

fn used_unindexed(alloc: Global, demand: Demand, place: Place) -> Result<Operand, Refusal>
    ensures { RulesAs operand_of result
        (operands.used_unindexed (demand_of demand) (place_of place)) }
{
    if is_array(place_type(&place)) {
        array_used(alloc, demand, place)
    } else {
        Ok(Operand::At(place))
    }
}

// An array place as an operand that isn't indexed.
fn array_used(alloc: Global, demand: Demand, place: Place) -> Result<Operand, Refusal>
    ensures { RulesAs operand_of result (operands.array_used (demand_of demand) (place_of place)) }
{
    refuse(is_in_global(&place), TypeKind::OutOfSubset)?;
    match demand {
        Demand::Value => {
            let first = first_element(alloc, place_type(&place))?;
            decayed(alloc, place, first)
        }
        Demand::Element | Demand::Place => Ok(Operand::At(place)),
    }
}

fn is_in_global(place: &Place) -> bool
    ensures { result ≡ operands.is_in_global (place_of place.now) }
{
    matches!(place, Place::InGlobal(_, _, _))
}

// The pointer to the first element of an array; there is none to an array.
fn decayed(alloc: Global, place: Place, first: CType) -> Result<Operand, Refusal>
    ensures { RulesAs operand_of result
        (operands.decays operands.ForValue (place_of place) (type_of first)) }
{
    refuse(is_array(&first), TypeKind::OutOfSubset)?;
    let place = Box::new(alloc, place)?;
    Ok(Operand::Valued(Expr::Decay(place, first)))
}

// What an array is of; any other type itself.
fn first_element(alloc: Global, t: &CType) -> Result<CType, AllocError>
    ensures { IfOk result (λ u. type_of u ≡ operands.first_element (type_of t.now)) }
{
    match t {
        CType::Array(element, _) => copy_of(alloc, &**element),
        CType::Int(_) | CType::Void | CType::Ptr(_) | CType::Struct(_) => copy_of(alloc, t),
    }
}

/// A place one step further, with the type there.
pub fn place_then(alloc: Global, place: Place, step: Path, ty: CType) -> Result<Place, AllocError>
    ensures { IfOk result
        (λ p. place_of p ≡ operands.place_then (place_of place) (path_of step) (type_of ty)) }
{
    match place {
        Place::Through(root, pointer, path, _) => {
            let path = path_then(alloc, Box::into_inner(path), step)?;
            Ok(Place::Through(root, pointer, Box::new(alloc, path)?, ty))
        }
        Place::InGlobal(name, path, _) => {
            let path = path_then(alloc, Box::into_inner(path), step)?;
            Ok(Place::InGlobal(name, Box::new(alloc, path)?, ty))
        }
    }
}

// A path with a step behind it.
fn path_then(alloc: Global, path: Path, step: Path) -> Result<Path, AllocError>
    ensures { IfOk result (λ p. path_of p ≡ operands.path_then (path_of path) (path_of step)) }
{
    match path {
        Path::Here => Ok(step),
        Path::Member(k, further) => {
            let further = path_then(alloc, Box::into_inner(further), step)?;
            Ok(Path::Member(k, Box::new(alloc, further)?))
        }
        Path::Element(length, index, further) => {
            let further = path_then(alloc, Box::into_inner(further), step)?;
            Ok(Path::Element(length, index, Box::new(alloc, further)?))
        }
    }
}
