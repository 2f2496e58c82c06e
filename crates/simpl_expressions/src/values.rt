//! What stands for the value and the truth of a C expression, boxed. Their depth is that of the
//! expressions of the text.

ghost use Rattle.std.specs.Prelude.{◌≡◌, IfOk};
ghost use Rattle.c_lang.specs.Typed as C;
ghost use Rattle.c_lang.specs.CodeTyped as typed;
ghost use Rattle.expression_lang.specs.CodeExpression.{exp_of, path_of};
ghost use Rattle.generation.specs.Guards as rules;
ghost use Rattle.simpl_expressions.specs.CodeTests.{IsTest};

use crate::operators::{combine_op, comparison, equation, moved_by, shift_of, word_op};
use crate::scalars::{bits_of, bits_of_type};
use crate::terms::{
    and, cast_to, choice, nonzero, not, number, of_truth, on_word, on_words, or, pointer_moved_by,
    variable, word_of,
};
use c_lang::tree::{Expr, Path as TypedPath, Place};
use c_values::{Layout, UnaryOp, copy_of};
use expression_lang::{Exp, Path};
use std::alloc::{AllocError, Global};

/// The value of an expression.
#[cycle(values)]
pub fn value(alloc: Global, l: &Layout, e: &Expr) -> Result<Box<Exp>, AllocError>
    ensures { IfOk result (λ x. exp_of x.value ≡ rules.exp l.now (typed.expr_of e.now)) }
{
    match e {
        Expr::Constant(ty, n) => word_of(alloc, l.target(), *ty, *n),
        Expr::Local(name, _) => variable(alloc, name.clone()?),
        Expr::Value(place) => content(alloc, l, place),
        Expr::Convert(ty, a) | Expr::ConvertNull(ty, a) => {
            let to = bits_of_type(l.target(), ty).width;
            cast_to(alloc, to, bits_of(l.target(), a), value(alloc, l, a)?)
        }
        Expr::Negate(_, a) => on_word(alloc, UnaryOp::Wneg, value(alloc, l, a)?),
        Expr::Complement(_, a) => on_word(alloc, UnaryOp::Wnot, value(alloc, l, a)?),
        Expr::Compute(op, ty, a, b) => {
            let a = value(alloc, l, a)?;
            on_words(alloc, word_op(*op, *ty), a, value(alloc, l, b)?)
        }
        Expr::Combine(op, _, a, b) => {
            let a = value(alloc, l, a)?;
            on_words(alloc, combine_op(*op), a, value(alloc, l, b)?)
        }
        Expr::Shift(direction, ty, a, b) => {
            let a = value(alloc, l, a)?;
            shift_of(alloc, *ty, *direction, a, number_of(alloc, l, b)?)
        }
        Expr::Compare(_, _, _, _)
        | Expr::Equate(_, _, _, _)
        | Expr::Not(_)
        | Expr::And(_, _)
        | Expr::Or(_, _) => of_truth(alloc, test(alloc, l, e)?),
        Expr::Choose(_, c, a, b) => {
            let c = truth(alloc, l, c)?;
            let a = value(alloc, l, a)?;
            choice(alloc, c, a, value(alloc, l, b)?)
        }
        Expr::Move(sign, ty, p, a) => {
            let p = value(alloc, l, p)?;
            let by = moved_by(alloc, *sign, number_of(alloc, l, a)?)?;
            pointer_moved_by(alloc, ty, p, by)
        }
        Expr::MoveBy(ty, a, p) => {
            let by = number_of(alloc, l, a)?;
            let p = value(alloc, l, p)?;
            pointer_moved_by(alloc, ty, p, by)
        }
        Expr::Address(place, _) | Expr::Decay(place, _) => address(alloc, l, place),
    }
}

/// The truth of an expression.
#[cycle(values)]
pub fn truth(alloc: Global, l: &Layout, e: &Expr) -> Result<Box<Exp>, AllocError>
    ensures { IfOk result (λ x. exp_of x.value ≡ rules.truth l.now (typed.expr_of e.now)) }
{
    match e {
        Expr::Compare(_, _, _, _)
        | Expr::Equate(_, _, _, _)
        | Expr::Not(_)
        | Expr::And(_, _)
        | Expr::Or(_, _) => test(alloc, l, e),
        Expr::Constant(_, _)
        | Expr::Local(_, _)
        | Expr::Value(_)
        | Expr::Convert(_, _)
        | Expr::ConvertNull(_, _)
        | Expr::Negate(_, _)
        | Expr::Complement(_, _)
        | Expr::Compute(_, _, _, _)
        | Expr::Combine(_, _, _, _)
        | Expr::Shift(_, _, _, _)
        | Expr::Choose(_, _, _, _)
        | Expr::Move(_, _, _, _)
        | Expr::MoveBy(_, _, _)
        | Expr::Address(_, _)
        | Expr::Decay(_, _) => nonzero(alloc, bits_of(l.target(), e).width, value(alloc, l, e)?),
    }
}

// The truth of a comparison, of `!`, `&&` or `||`.
#[cycle(values)]
fn test(alloc: Global, l: &Layout, e: &Expr) -> Result<Box<Exp>, AllocError>
    requires { IsTest (typed.expr_of e.now) }
    ensures { IfOk result (λ x. exp_of x.value ≡ rules.truth l.now (typed.expr_of e.now)) }
{
    match e {
        Expr::Compare(relation, ty, a, b) => {
            let a = value(alloc, l, a)?;
            comparison(alloc, *relation, *ty, a, value(alloc, l, b)?)
        }
        Expr::Equate(equality, _, a, b) => {
            let a = value(alloc, l, a)?;
            equation(alloc, *equality, a, value(alloc, l, b)?)
        }
        Expr::Not(a) => not(alloc, truth(alloc, l, a)?),
        Expr::And(a, b) => {
            let a = truth(alloc, l, a)?;
            and(alloc, a, truth(alloc, l, b)?)
        }
        Expr::Or(a, b) => {
            let a = truth(alloc, l, a)?;
            or(alloc, a, truth(alloc, l, b)?)
        }
        _ => unreachable!(),
    }
}

/// The number that an expression's value is, by its type.
#[cycle(values)]
pub(crate) fn number_of(alloc: Global, l: &Layout, e: &Expr) -> Result<Box<Exp>, AllocError>
    ensures { IfOk result
        (λ x. exp_of x.value ≡ rules.number (C.type_of (typed.expr_of e.now))
        (rules.exp l.now (typed.expr_of e.now))) }
{
    number(alloc, bits_of(l.target(), e).signed, value(alloc, l, e)?)
}

// What lies at a place.
#[cycle(values)]
fn content(alloc: Global, l: &Layout, place: &Place) -> Result<Box<Exp>, AllocError>
    ensures { IfOk result (λ x. exp_of x.value ≡ rules.content l.now (typed.place_of place.now)) }
{
    match place {
        Place::Through(root, pointer, path, _) => {
            let pointer = value(alloc, l, pointer)?;
            let path = path_to(alloc, l, path)?;
            Ok(Box::new(alloc, Exp::Load(copy_of(alloc, root)?, pointer, path))?)
        }
        Place::InGlobal(name, path, _) => {
            let name = name.clone()?;
            Ok(Box::new(alloc, Exp::Global(name, path_to(alloc, l, path)?))?)
        }
    }
}

// The address of a place. A typed unit asks for none in a global, where it has the content in its
// stead.
#[cycle(values)]
fn address(alloc: Global, l: &Layout, place: &Place) -> Result<Box<Exp>, AllocError>
    ensures { IfOk result (λ x. exp_of x.value ≡ rules.address l.now (typed.place_of place.now)) }
{
    match place {
        Place::Through(root, pointer, path, _) => {
            let pointer = value(alloc, l, pointer)?;
            let path = path_to(alloc, l, path)?;
            Ok(Box::new(alloc, Exp::At(copy_of(alloc, root)?, pointer, path))?)
        }
        Place::InGlobal(name, path, _) => {
            let name = name.clone()?;
            Ok(Box::new(alloc, Exp::Global(name, path_to(alloc, l, path)?))?)
        }
    }
}

/// A path, its indices as numbers of their own types.
#[cycle(values)]
pub fn path_to(alloc: Global, l: &Layout, path: &TypedPath) -> Result<Path, AllocError>
    ensures { IfOk result (λ x. path_of x ≡ rules.path_of l.now (typed.path_of path.now)) }
{
    match path {
        TypedPath::Here => Ok(Path::Here),
        TypedPath::Member(k, rest) => {
            let rest = path_to(alloc, l, rest)?;
            Ok(Path::Field(*k, Box::new(alloc, rest)?))
        }
        TypedPath::Element(_, index, rest) => {
            let index = number_of(alloc, l, index)?;
            let rest = path_to(alloc, l, rest)?;
            Ok(Path::Index(index, Box::new(alloc, rest)?))
        }
    }
}
