//! Scalar types, as conversions and conditions see them: how many bits there are, and whether they
//! have a sign.

ghost use Rattle.std.specs.Prelude.{◌≡◌, false};
ghost use Rattle.c_values.specs.Types.{width_of, is_signed, address_width};
ghost use Rattle.c_values.specs.Width.{IsWidth};
ghost use Rattle.c_values.specs.Layout.{scalar_width};
ghost use Rattle.c_values.specs.CodeTypes.{target_of, int_type_of, type_of};
ghost use Rattle.c_lang.specs.Typed as C;
ghost use Rattle.c_lang.specs.CodeTyped.{expr_of};
ghost use Rattle.generation.specs.Guards.{is_signed_type};

use c_lang::tree::{Expr, place_type};
use c_values::{CType, IntType, Target, address_width, is_signed, width_of};

/// The bits of a scalar type: how many, and whether they have a sign. A pointer's have none.
#[derive(Clone, Copy)]
pub struct Bits {
    pub width: u8,
    pub signed: bool,
}

/// The bits of a type.
pub fn bits_of_type(target: Target, ty: &CType) -> Bits
    ensures width { result.width ≡ scalar_width (target_of target) (type_of ty.now) }
    ensures signed { result.signed ≡ is_signed_type (type_of ty.now) }
    ensures known { IsWidth result.width }
{
    match ty {
        CType::Int(integer) => bits_of_integer(target, *integer),
        CType::Void | CType::Ptr(_) | CType::Struct(_) | CType::Array(_, _) => bits_of_pointer(
            target,
        ),
    }
}

/// The bits of an expression's type.
pub(crate) fn bits_of(target: Target, e: &Expr) -> Bits
    ensures width { result.width ≡ scalar_width (target_of target) (C.type_of (expr_of e.now)) }
    ensures signed { result.signed ≡ is_signed_type (C.type_of (expr_of e.now)) }
    ensures known { IsWidth result.width }
{
    match e {
        Expr::Constant(ty, _)
        | Expr::Negate(ty, _)
        | Expr::Complement(ty, _)
        | Expr::Compute(_, ty, _, _)
        | Expr::Combine(_, ty, _, _)
        | Expr::Shift(_, ty, _, _) => bits_of_integer(target, *ty),
        Expr::Compare(_, _, _, _)
        | Expr::Equate(_, _, _, _)
        | Expr::Not(_)
        | Expr::And(_, _)
        | Expr::Or(_, _) => bits_of_integer(target, IntType::Int),
        Expr::Local(_, ty)
        | Expr::Convert(ty, _)
        | Expr::ConvertNull(ty, _)
        | Expr::Choose(ty, _, _, _) => bits_of_type(target, ty),
        Expr::Value(place) => bits_of_type(target, place_type(place)),
        Expr::Move(_, _, _, _) | Expr::MoveBy(_, _, _) | Expr::Address(_, _) | Expr::Decay(_, _) =>
            bits_of_pointer(target),
    }
}

fn bits_of_integer(target: Target, ty: IntType) -> Bits
    ensures width { result.width ≡ width_of (target_of target) (int_type_of ty) }
    ensures signed { result.signed ≡ is_signed (int_type_of ty) }
    ensures known { IsWidth result.width }
{
    Bits {
        width: width_of(target, ty),
        signed: is_signed(ty),
    }
}

fn bits_of_pointer(target: Target) -> Bits
    ensures width { result.width ≡ address_width (target_of target) }
    ensures signed { result.signed ≡ false }
    ensures known { IsWidth result.width }
{
    Bits {
        width: address_width(target),
        signed: false,
    }
}
