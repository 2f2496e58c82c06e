//! Conversions to a pointer to a type that isn't void, from another type, null pointer constants apart.

ghost use Rattle.std.specs.Prelude.{◌≡◌, not};
ghost use Rattle.c_values.specs.CodeTypes.{type_of};
ghost use Rattle.c_values.specs.Types as types;
ghost use Rattle.c_lang.specs.Cast as casts;
ghost use Rattle.typing_rules.specs.CodeForm.{form_type};
ghost use Rattle.typing_rules.specs.CodeOperand.{operand_of};
ghost use Rattle.typing_rules.specs.Operand as operands;
ghost use Rattle.c_lang.specs.CodeTyped.{expr_of, place_of, path_of};

use crate::operands::{Operand, type_of};
use crate::types::{Form, form_of};
use c_lang::tree::{Expr, Path, Place};
use c_values::CType;

/// Whether there is such a conversion in an operand.
pub fn operand_has_cast(operand: &Operand) -> bool
    ensures { result ≡ operands.operand_has_cast (operand_of operand.now) }
{
    match operand {
        Operand::Valued(e) => has_cast(e),
        Operand::Variable(_, _) => false,
        Operand::At(place) => place_has_cast(place),
    }
}

/// Whether there is such a conversion in an expression.
#[cycle(casts)]
pub fn has_cast(e: &Expr) -> bool
    ensures { result ≡ casts.has_cast (expr_of e.now) }
{
    match e {
        Expr::Constant(_, _) | Expr::Local(_, _) => false,
        Expr::Value(place) | Expr::Address(place, _) | Expr::Decay(place, _) => {
            place_has_cast(&**place)
        }
        Expr::Convert(to, a) => casts_to(to, type_of(&**a)) || has_cast(&**a),
        Expr::ConvertNull(_, a) | Expr::Negate(_, a) | Expr::Complement(_, a) | Expr::Not(a) => {
            has_cast(&**a)
        }
        Expr::Compute(_, _, a, b)
        | Expr::Combine(_, _, a, b)
        | Expr::Shift(_, _, a, b)
        | Expr::Compare(_, _, a, b)
        | Expr::Equate(_, _, a, b)
        | Expr::And(a, b)
        | Expr::Or(a, b)
        | Expr::Move(_, _, a, b)
        | Expr::MoveBy(_, a, b) => has_cast(&**a) || has_cast(&**b),
        Expr::Choose(_, c, a, b) => has_cast(&**c) || has_cast(&**a) || has_cast(&**b),
    }
}

/// Whether there is such a conversion in a place.
#[cycle(casts)]
pub fn place_has_cast(place: &Place) -> bool
    ensures { result ≡ casts.place_has_cast (place_of place.now) }
{
    match place {
        Place::Through(_, pointer, path, _) => has_cast(&**pointer) || path_has_cast(&**path),
        Place::InGlobal(_, path, _) => path_has_cast(&**path),
    }
}

#[cycle(casts)]
fn path_has_cast(path: &Path) -> bool
    ensures { result ≡ casts.path_has_cast (path_of path.now) }
{
    match path {
        Path::Here => false,
        Path::Member(_, further) => path_has_cast(&**further),
        Path::Element(_, index, further) => has_cast(&**index) || path_has_cast(&**further),
    }
}

// Whether a conversion to a type from another is one to a pointer to a type that isn't void.
fn casts_to(to: &CType, from: Form<'_>) -> bool
    ensures { result ≡ casts.casts_to (type_of to.now) (form_type from.entry) }
{
    match form_of(to) {
        Form::Pointer(inner) => !is_void(inner) && !is_pointer_to(from, inner),
        Form::Integer(_) | Form::Void | Form::Struct(_) | Form::Array(_, _) => false,
    }
}

fn is_void(t: &CType) -> bool
    ensures { not result ≡ casts.is_non_void_pointer (types.Ptr (type_of t.now)) }
{
    matches!(t, CType::Void)
}

// Whether a type is the pointer to another.
fn is_pointer_to(t: Form<'_>, inner: &CType) -> bool
    ensures { result ≡ types.same_type (types.Ptr (type_of inner.now)) (form_type t.entry) }
{
    match t {
        Form::Pointer(other) => inner == other,
        Form::Integer(_) | Form::Void | Form::Struct(_) | Form::Array(_, _) => false,
    }
}
