//! The value of a constant expression: every operand is a constant, taken or not, and no step is undefined.

ghost use Rattle.std.specs.Prelude.{◌≡◌, false, pos};
ghost use Rattle.std.specs.Option.{option_map, option_map_or};
ghost use Rattle.c_values.specs.CodeValue.{step_of};
ghost use Rattle.c_values.specs.Layout.{shape_of};
ghost use Rattle.c_values.specs.StepInto.{step_into};
ghost use Rattle.std.specs.Ordering.{int_eq};
ghost use Rattle.c_values.specs.CodeTypes.{type_of};
ghost use Rattle.typing_rules.specs.Constant as constants;
ghost use Rattle.typing_rules.specs.Operators as operators;
ghost use Rattle.c_lang.specs.CodeTyped.{expr_of, place_of, path_of};

use crate::folding::{
    combined, compares, complement, computed, equates, index_in, is_true, moved, moved_by, negated,
    number_at, shifted, truth,
};
use crate::operands::type_of;
use crate::operators::is_void_pointer;
use crate::types::{form_of, is_integer};
use c_lang::tree::{Expr, Path, Place, Sign};
use c_values::{CType, Layout, Number, PathStep, is_object, step_into};

/// The value of a constant expression.
pub fn constant_value(l: &Layout, e: &Expr) -> Option<Number>
    ensures { result ≡ constants.constant_value l.now (expr_of e.now) }
{
    if is_constant(e) { folded(l, e) } else { None }
}

/// Whether it is a null pointer constant: an integer constant expression of the value 0, or that as a pointer to void.
pub fn is_null(l: &Layout, e: &Expr) -> bool
    ensures { result ≡ operators.is_null l.now (expr_of e.now) }
{
    is_zero(l, e) || is_void_zero(l, e)
}

fn is_zero(l: &Layout, e: &Expr) -> bool
    ensures { result ≡ operators.is_zero l.now (expr_of e.now) }
{
    is_integer(type_of(e)) && is_some_zero(constant_value(l, e))
}

fn is_some_zero(value: Option<Number>) -> bool
    ensures { result ≡ option_map_or (λ n. int_eq n (pos 0)) value false }
{
    match value {
        Some(n) => n.magnitude() == 0,
        None => false,
    }
}

fn is_void_zero(l: &Layout, e: &Expr) -> bool
    ensures { result ≡ operators.is_void_zero l.now (expr_of e.now) }
{
    match e {
        Expr::ConvertNull(ty, a) => is_void_pointer(form_of(ty)) && is_zero(l, &**a),
        _ => false,
    }
}

// Whether each operand is a constant.
#[cycle(constant)]
fn is_constant(e: &Expr) -> bool
    ensures { result ≡ constants.is_constant (expr_of e.now) }
{
    match e {
        Expr::Constant(_, _) => true,
        Expr::Local(_, _) | Expr::Value(_) => false,
        Expr::Convert(_, a)
        | Expr::ConvertNull(_, a)
        | Expr::Negate(_, a)
        | Expr::Complement(_, a)
        | Expr::Not(a) => is_constant(&**a),
        Expr::Compute(_, _, a, b)
        | Expr::Combine(_, _, a, b)
        | Expr::Shift(_, _, a, b)
        | Expr::Compare(_, _, a, b)
        | Expr::Equate(_, _, a, b)
        | Expr::And(a, b)
        | Expr::Or(a, b)
        | Expr::Move(_, _, a, b)
        | Expr::MoveBy(_, a, b) => is_constant(&**a) && is_constant(&**b),
        Expr::Choose(_, c, a, b) => is_constant(&**c) && is_constant(&**a) && is_constant(&**b),
        Expr::Address(place, _) | Expr::Decay(place, _) => is_constant_place(&**place),
    }
}

#[cycle(constant)]
fn is_constant_place(place: &Place) -> bool
    ensures { result ≡ constants.is_constant_place (place_of place.now) }
{
    match place {
        Place::Through(_, pointer, path, _) => is_constant(&**pointer) && is_constant_path(&**path),
        Place::InGlobal(_, _, _) => false,
    }
}

#[cycle(constant)]
fn is_constant_path(path: &Path) -> bool
    ensures { result ≡ constants.is_constant_path (path_of path.now) }
{
    match path {
        Path::Here => true,
        Path::Member(_, further) => is_constant_path(&**further),
        Path::Element(_, index, further) => is_constant(&**index) && is_constant_path(&**further),
    }
}

// The value as a number; none where a step is undefined, or an operand that is taken is no constant.
#[cycle(folded)]
fn folded(l: &Layout, e: &Expr) -> Option<Number>
    ensures { result ≡ constants.folded l.now (expr_of e.now) }
{
    match e {
        Expr::Constant(_, n) => Some(*n),
        Expr::Local(_, _) | Expr::Value(_) => None,
        Expr::Convert(to, a) | Expr::ConvertNull(to, a) => Some(number_at(l, to, folded(l, &**a)?)),
        Expr::Negate(ty, a) => negated(l, *ty, folded(l, &**a)?),
        Expr::Complement(ty, a) => Some(complement(l, *ty, folded(l, &**a)?)),
        Expr::Compute(op, ty, a, b) => computed(l, *op, *ty, folded(l, &**a)?, folded(l, &**b)?),
        Expr::Combine(op, ty, a, b) => {
            Some(combined(l, *op, *ty, folded(l, &**a)?, folded(l, &**b)?))
        }
        Expr::Shift(direction, ty, a, b) => {
            shifted(l, *direction, *ty, folded(l, &**a)?, folded(l, &**b)?)
        }
        Expr::Compare(relation, _, a, b) => {
            Some(truth(compares(*relation, folded(l, &**a)?, folded(l, &**b)?)))
        }
        Expr::Equate(equality, _, a, b) => {
            Some(truth(equates(*equality, folded(l, &**a)?, folded(l, &**b)?)))
        }
        Expr::Not(a) => Some(truth(!is_true(folded(l, &**a)?))),
        Expr::And(a, b) => {
            if is_true(folded(l, &**a)?) {
                Some(truth(is_true(folded(l, &**b)?)))
            } else {
                Some(truth(false))
            }
        }
        Expr::Or(a, b) => {
            if is_true(folded(l, &**a)?) {
                Some(truth(true))
            } else {
                Some(truth(is_true(folded(l, &**b)?)))
            }
        }
        Expr::Choose(_, c, a, b) => {
            if is_true(folded(l, &**c)?) {
                folded(l, &**a)
            } else {
                folded(l, &**b)
            }
        }
        Expr::Move(sign, ty, a, b) => {
            let from = folded(l, &**a)?;
            let by = folded(l, &**b)?;
            Some(moved(l, *sign, ty, from, by))
        }
        Expr::MoveBy(ty, a, b) => {
            let by = folded(l, &**a)?;
            let from = folded(l, &**b)?;
            Some(moved(l, Sign::Plus, ty, from, by))
        }
        Expr::Address(place, _) | Expr::Decay(place, _) => address(l, &**place),
    }
}

#[cycle(folded)]
fn address(l: &Layout, place: &Place) -> Option<Number>
    ensures { result ≡ constants.address l.now (place_of place.now) }
{
    match place {
        Place::Through(root, pointer, path, _) => {
            let from = folded(l, &**pointer)?;
            reached(l, &**path, root, from)
        }
        Place::InGlobal(_, _, _) => None,
    }
}

// Where a path leads from an address of a type.
#[cycle(folded)]
fn reached(l: &Layout, path: &Path, ty: &CType, from: Number) -> Option<Number>
    ensures { result ≡ constants.reached l.now (path_of path.now)
        (shape_of l.now (type_of ty.now)) from }
{
    match path {
        Path::Here => Some(from),
        Path::Member(k, further) => {
            let (offset, part) = part_at(l, ty, PathStep::Field(*k))?;
            reached(l, &**further, part, moved_by(l, from, offset))
        }
        Path::Element(_, index, further) => {
            let (offset, part) = element_at(l, ty, folded(l, &**index)?)?;
            reached(l, &**further, part, moved_by(l, from, offset))
        }
    }
}

// The element of an array at an index: its offset, and its type.
fn element_at<'a>(l: &'a Layout, ty: &'a CType, index: Number) -> Option<(u32, &'a CType)>
    ensures { option_map
        (λ r. record { offset = pos r.0; shape = shape_of l.now (type_of r.1.now) }) result
        ≡ constants.element_into (shape_of l.now (type_of ty.now)) index }
{
    match index_in(index) {
        Some(k) => part_at(l, ty, PathStep::Index(k)),
        None => None,
    }
}

// The part of an object that one step leads to: its offset, and its type.
fn part_at<'a>(l: &'a Layout, ty: &'a CType, step: PathStep) -> Option<(u32, &'a CType)>
    ensures { option_map
        (λ r. record { offset = pos r.0; shape = shape_of l.now (type_of r.1.now) }) result
        ≡ step_into (constants.object_in (shape_of l.now (type_of ty.now))) (step_of step) }
{
    if is_object(l, ty) {
        step_into(l, ty, step)
    } else {
        None
    }
}
