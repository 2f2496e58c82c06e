//! The conditions of operations: what has to hold of operands that have values. Each function adds
//! its conditions, in order, behind those that are there.

ghost use Rattle.std.specs.Prelude.{◌≡◌, ◌++◌, ◌∷◌, [], map, pos, OnOk, IfOk, IfNone, IfSome};
ghost use Rattle.c_values.specs.Types.{Target, Integer};
ghost use Rattle.c_values.specs.Number.{greatest_of};
ghost use Rattle.c_values.specs.Word.{Wsshr};
ghost use Rattle.c_values.specs.CodeNumber.{number_op_of};
ghost use Rattle.c_values.specs.CodeTypes.{int_type_of};
ghost use Rattle.c_values.specs.CodeTypes as types;
ghost use Rattle.c_lang.specs.Typed.{type_of};
ghost use Rattle.c_lang.specs.CodeTyped as typed;
ghost use Rattle.expression_lang.specs.Expression as E;
ghost use Rattle.expression_lang.specs.Expression.{Arith, Negate, Between, Le, ToInt, WordShift, Tagged};
ghost use Rattle.expression_lang.specs.GuardKind.{Shift, Tag};
ghost use Rattle.expression_lang.specs.CodeExpression.{exp_of, level_of};
ghost use Rattle.simpl_lang.specs.CodeCommand.{condition_of, guard_kind_of};
ghost use Rattle.generation.specs.Guards as rules;

use crate::ranges::{greatest_of, natural};
use crate::terms::{between, equal, in_type, not, number, word_of};
use crate::values::{number_of, value};
use c_lang::tree::{Arithmetic, Direction, Expr, Path, Place};
use c_values::{CType, IntType, Layout, NumberOp, ShiftOp, copy_of, is_signed, width_of};
use expression_lang::{Exp, Level};
use simpl_lang::{Condition, GuardKind};
use std::alloc::{AllocError, Global};

/// One condition more.
pub(crate) fn add(
    kind: GuardKind,
    exp: Box<Exp>,
    out: &mut Vec<Condition>,
) -> Result<(), AllocError>
    ensures { OnOk result (map condition_of out.new.items
        ≡ map condition_of out.old.items
        ++ (rules.when (guard_kind_of kind) (exp_of exp.value) ∷ [])) }
{
    let exp = Box::into_inner(exp);
    Ok(out.push(Condition { kind, exp })?)
}

// Why a result of a type has to be of it, where it has to be.
fn fit_kind(level: Level, ty: IntType) -> Option<GuardKind>
    ensures none { IfNone result ((t : Target) (n : E.Exp) →
        rules.fits t (level_of level) (int_type_of ty) n ≡ []) }
    ensures some { IfSome result (λ k. (t : Target) (n : E.Exp) →
        rules.fits t (level_of level) (int_type_of ty) n
        ≡ rules.when (guard_kind_of k) (rules.in_type t (int_type_of ty) n) ∷ []) }
{
    if is_signed(ty) {
        return Some(GuardKind::Signed);
    }
    match level {
        Level::Bytes | Level::Words => None,
        Level::Numbers => Some(GuardKind::Wrap),
    }
}

/// Those of a negation.
pub(crate) fn add_negation(
    alloc: Global,
    l: &Layout,
    level: Level,
    ty: IntType,
    a: &Expr,
    out: &mut Vec<Condition>,
) -> Result<(), AllocError>
    ensures { OnOk result (map condition_of out.new.items
        ≡ map condition_of out.old.items ++ rules.fits l.now.target (level_of level)
        (int_type_of ty)
        (Negate (rules.number (Integer (int_type_of ty))
        (rules.exp l.now (typed.expr_of a.now))))) }
{
    match fit_kind(level, ty) {
        None => Ok(()),
        Some(kind) => {
            let a = number(alloc, is_signed(ty), value(alloc, l, a)?)?;
            let result = Box::new(alloc, Exp::Negate(a))?;
            add(kind, in_type(alloc, l.target(), ty, result)?, out)
        }
    }
}

/// Those of an arithmetic operation.
pub(crate) fn add_computation(
    alloc: Global,
    l: &Layout,
    level: Level,
    op: Arithmetic,
    ty: IntType,
    a: &Expr,
    b: &Expr,
    out: &mut Vec<Condition>,
) -> Result<(), AllocError>
    ensures { OnOk result (map condition_of out.new.items
        ≡ map condition_of out.old.items ++ rules.computes l.now.target (level_of level)
        (int_type_of ty) (typed.arithmetic_of op)
        (rules.exp l.now (typed.expr_of a.now)) (rules.exp l.now (typed.expr_of b.now))) }
{
    match op {
        Arithmetic::Add => add_result(alloc, l, level, NumberOp::Add, ty, a, b, out),
        Arithmetic::Subtract => add_result(alloc, l, level, NumberOp::Sub, ty, a, b, out),
        Arithmetic::Multiply => add_result(alloc, l, level, NumberOp::Mul, ty, a, b, out),
        Arithmetic::Divide | Arithmetic::Remainder => add_division(alloc, l, ty, a, b, out),
    }
}

// A sum, a difference or a product is of its type.
fn add_result(
    alloc: Global,
    l: &Layout,
    level: Level,
    op: NumberOp,
    ty: IntType,
    a: &Expr,
    b: &Expr,
    out: &mut Vec<Condition>,
) -> Result<(), AllocError>
    ensures { OnOk result (map condition_of out.new.items
        ≡ map condition_of out.old.items ++ rules.fits l.now.target (level_of level)
        (int_type_of ty)
        (Arith (number_op_of op)
        (rules.number (Integer (int_type_of ty)) (rules.exp l.now (typed.expr_of a.now)))
        (rules.number (Integer (int_type_of ty)) (rules.exp l.now (typed.expr_of b.now))))) }
{
    match fit_kind(level, ty) {
        None => Ok(()),
        Some(kind) => {
            let result = arithmetic(alloc, l, op, ty, a, b)?;
            add(kind, in_type(alloc, l.target(), ty, result)?, out)
        }
    }
}

// The exact result of an operation on values of a type.
fn arithmetic(
    alloc: Global,
    l: &Layout,
    op: NumberOp,
    ty: IntType,
    a: &Expr,
    b: &Expr,
) -> Result<Box<Exp>, AllocError>
    ensures { IfOk result
        (λ e. exp_of e.value
        ≡ Arith (number_op_of op)
        (rules.number (Integer (int_type_of ty)) (rules.exp l.now (typed.expr_of a.now)))
        (rules.number (Integer (int_type_of ty)) (rules.exp l.now (typed.expr_of b.now)))) }
{
    let signed = is_signed(ty);
    let a = number(alloc, signed, value(alloc, l, a)?)?;
    let b = number(alloc, signed, value(alloc, l, b)?)?;
    Ok(Box::new(alloc, Exp::Arith(op, a, b))?)
}

// A divisor isn't zero, and a signed quotient is of its type.
fn add_division(
    alloc: Global,
    l: &Layout,
    ty: IntType,
    a: &Expr,
    b: &Expr,
    out: &mut Vec<Condition>,
) -> Result<(), AllocError>
    ensures { OnOk result (map condition_of out.new.items
        ≡ map condition_of out.old.items ++ rules.divides l.now.target (int_type_of ty)
        (rules.exp l.now (typed.expr_of a.now)) (rules.exp l.now (typed.expr_of b.now))) }
{
    let target = l.target();
    let divisor = value(alloc, l, b)?;
    let is_zero = equal(alloc, divisor, word_of(alloc, target, ty, natural(0))?)?;
    add(GuardKind::Div, not(alloc, is_zero)?, out)?;
    if !is_signed(ty) {
        return Ok(());
    }
    let quotient = arithmetic(alloc, l, NumberOp::Div, ty, a, b)?;
    add(
        GuardKind::Signed,
        in_type(alloc, target, ty, quotient)?,
        out,
    )
}

/// Those of a shift.
pub(crate) fn add_shift(
    alloc: Global,
    l: &Layout,
    direction: Direction,
    ty: IntType,
    a: &Expr,
    b: &Expr,
    out: &mut Vec<Condition>,
) -> Result<(), AllocError>
    ensures { OnOk result (map condition_of out.new.items
        ≡ map condition_of out.old.items ++ rules.shifts l.now.target (int_type_of ty)
        (typed.direction_of direction)
        (rules.exp l.now (typed.expr_of a.now))
        (rules.number (type_of (typed.expr_of b.now))
        (rules.exp l.now (typed.expr_of b.now)))) }
{
    let last = natural(u64::from(width_of(l.target(), ty) - 1));
    let count = between(alloc, natural(0), number_of(alloc, l, b)?, last)?;
    add(GuardKind::Shift, count, out)?;
    match direction {
        Direction::Right => Ok(()),
        Direction::Left => {
            if is_signed(ty) {
                add_signed_shift(alloc, l, ty, a, b, out)
            } else {
                Ok(())
            }
        }
    }
}

// A signed value that is shifted left isn't negative, and its result fits.
fn add_signed_shift(
    alloc: Global,
    l: &Layout,
    ty: IntType,
    a: &Expr,
    b: &Expr,
    out: &mut Vec<Condition>,
) -> Result<(), AllocError>
    ensures { OnOk result (map condition_of out.new.items ≡ map condition_of out.old.items
        ++ (rules.when Shift (Between (pos 0) (ToInt (rules.exp l.now (typed.expr_of a.now)))
        (greatest_of l.now.target (int_type_of ty)))
        ∷ rules.when Shift (Le (ToInt (rules.exp l.now (typed.expr_of a.now)))
        (ToInt (WordShift Wsshr
        (rules.word_of l.now.target (int_type_of ty)
        (greatest_of l.now.target (int_type_of ty)))
        (rules.number (type_of (typed.expr_of b.now))
        (rules.exp l.now (typed.expr_of b.now)))))) ∷ [])) }
{
    let greatest = greatest_of(l.target(), ty);
    let shifted = number(alloc, true, value(alloc, l, a)?)?;
    add(
        GuardKind::Shift,
        between(alloc, natural(0), shifted, greatest)?,
        out,
    )?;
    let shifted = number(alloc, true, value(alloc, l, a)?)?;
    let most = greatest_unshifted(alloc, l, ty, b)?;
    let at_most = Box::new(alloc, Exp::Le(shifted, most))?;
    add(GuardKind::Shift, at_most, out)
}

// The greatest value of a type that, shifted left, is still of the type.
fn greatest_unshifted(
    alloc: Global,
    l: &Layout,
    ty: IntType,
    b: &Expr,
) -> Result<Box<Exp>, AllocError>
    ensures { IfOk result (λ e. exp_of e.value
        ≡ ToInt (WordShift Wsshr
        (rules.word_of l.now.target (int_type_of ty)
        (greatest_of l.now.target (int_type_of ty)))
        (rules.number (type_of (typed.expr_of b.now)) (rules.exp l.now (typed.expr_of b.now))))) }
{
    let target = l.target();
    let greatest = word_of(alloc, target, ty, greatest_of(target, ty))?;
    let count = number_of(alloc, l, b)?;
    let most = Box::new(alloc, Exp::WordShift(ShiftOp::Wsshr, greatest, count))?;
    number(alloc, true, most)
}

/// The bounds of each index of a path, in order.
pub(crate) fn add_bounds(
    alloc: Global,
    l: &Layout,
    path: &Path,
    out: &mut Vec<Condition>,
) -> Result<(), AllocError>
    ensures { OnOk result (map condition_of out.new.items
        ≡ map condition_of out.old.items ++ rules.bounds l.now (typed.path_of path.now)) }
{
    match path {
        Path::Here => Ok(()),
        Path::Member(_, rest) => add_bounds(alloc, l, rest, out),
        Path::Element(length, index, rest) => {
            let last = natural(u64::from(length.saturating_sub(1)));
            let index = between(alloc, natural(0), number_of(alloc, l, index)?, last)?;
            add(GuardKind::Bounds, index, out)?;
            add_bounds(alloc, l, rest, out)
        }
    }
}

/// Those of the root of an access.
pub fn add_accesses(
    alloc: Global,
    l: &Layout,
    level: Level,
    place: &Place,
    out: &mut Vec<Condition>,
) -> Result<(), AllocError>
    ensures { OnOk result (map condition_of out.new.items
        ≡ map condition_of out.old.items ++ rules.accesses l.now (level_of level)
        (typed.place_of place.now)) }
{
    match place {
        Place::InGlobal(_, _, _) => Ok(()),
        Place::Through(root, pointer, _, _) => {
            let address = value(alloc, l, pointer)?;
            let is_there = Box::new(alloc, Exp::PtrOk(copy_of(alloc, root)?, address))?;
            add(GuardKind::Pointer, is_there, out)?;
            match level {
                Level::Bytes => Ok(()),
                Level::Words | Level::Numbers => add_tag(alloc, l, root, pointer, out),
            }
        }
    }
}

// A root is covered.
fn add_tag(
    alloc: Global,
    l: &Layout,
    root: &CType,
    pointer: &Expr,
    out: &mut Vec<Condition>,
) -> Result<(), AllocError>
    ensures { OnOk result (map condition_of out.new.items
        ≡ map condition_of out.old.items
        ++ (rules.when Tag
        (Tagged (types.type_of root.now) (rules.exp l.now (typed.expr_of pointer.now))) ∷ [])) }
{
    let address = value(alloc, l, pointer)?;
    let is_covered = Box::new(alloc, Exp::Tagged(copy_of(alloc, root)?, address))?;
    add(GuardKind::Tag, is_covered, out)
}
