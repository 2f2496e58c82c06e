//! Which operation of words stands for an operator of C.

ghost use Rattle.std.specs.Prelude.{◌≡◌, IfOk, if◌then◌else◌};
ghost use Rattle.c_values.specs.Word.{Wult, Wule, Wslt, Wsle};
ghost use Rattle.c_values.specs.Types.{is_signed};
ghost use Rattle.c_values.specs.CodeTypes.{int_type_of};
ghost use Rattle.c_values.specs.CodeWord as words;
ghost use Rattle.expression_lang.specs.Expression as E;
ghost use Rattle.expression_lang.specs.CodeExpression.{exp_of};
ghost use Rattle.c_lang.specs.CodeTyped as typed;
ghost use Rattle.generation.specs.Guards as rules;

use crate::terms::{equal, not};
use c_lang::tree::{Arithmetic, Bitwise, Direction, Equality, Relation, Sign};
use c_values::{IntType, ShiftOp, WordOp, WordTest, is_signed};
use expression_lang::Exp;
use std::alloc::{AllocError, Global};

/// Of an arithmetic operator on operands of a type.
pub(crate) fn word_op(op: Arithmetic, ty: IntType) -> WordOp
    ensures { words.word_op_of result ≡ rules.word_op_of (typed.arithmetic_of op)
        (is_signed (int_type_of ty)) }
{
    match op {
        Arithmetic::Add => WordOp::Wadd,
        Arithmetic::Subtract => WordOp::Wsub,
        Arithmetic::Multiply => WordOp::Wmul,
        Arithmetic::Divide => {
            if is_signed(ty) {
                WordOp::Wsdiv
            } else {
                WordOp::Wudiv
            }
        }
        Arithmetic::Remainder => {
            if is_signed(ty) {
                WordOp::Wsmod
            } else {
                WordOp::Wumod
            }
        }
    }
}

/// Of an operator on bits.
pub(crate) fn combine_op(op: Bitwise) -> WordOp
    ensures { words.word_op_of result ≡ rules.combine_op (typed.bitwise_of op) }
{
    match op {
        Bitwise::BitAnd => WordOp::Wand,
        Bitwise::BitOr => WordOp::Wor,
        Bitwise::BitXor => WordOp::Wxor,
    }
}

/// A value of a type, shifted by a number.
pub(crate) fn shift_of(
    alloc: Global,
    ty: IntType,
    direction: Direction,
    a: Box<Exp>,
    n: Box<Exp>,
) -> Result<Box<Exp>, AllocError>
    ensures { IfOk result
        (λ e. exp_of e.value ≡ rules.shift (int_type_of ty) (typed.direction_of direction)
        (exp_of a.value) (exp_of n.value)) }
{
    Ok(Box::new(alloc, Exp::WordShift(shift_op(ty, direction), a, n))?)
}

fn shift_op(ty: IntType, direction: Direction) -> ShiftOp
    ensures { (a n : E.Exp) → E.WordShift (words.shift_op_of result) a n
        ≡ rules.shift (int_type_of ty) (typed.direction_of direction) a n }
{
    match direction {
        Direction::Left => ShiftOp::Wshl,
        Direction::Right => {
            if is_signed(ty) {
                ShiftOp::Wsshr
            } else {
                ShiftOp::Wushr
            }
        }
    }
}

/// An order test of values of a type.
pub(crate) fn comparison(
    alloc: Global,
    relation: Relation,
    ty: IntType,
    a: Box<Exp>,
    b: Box<Exp>,
) -> Result<Box<Exp>, AllocError>
    ensures { IfOk result
        (λ e. exp_of e.value ≡ rules.comparison (typed.relation_of relation)
        (is_signed (int_type_of ty)) (exp_of a.value) (exp_of b.value)) }
{
    let test = match relation {
        Relation::Less => Exp::WordCompare(less(ty), a, b),
        Relation::LessEqual => Exp::WordCompare(at_most(ty), a, b),
        Relation::Greater => Exp::WordCompare(less(ty), b, a),
        Relation::GreaterEqual => Exp::WordCompare(at_most(ty), b, a),
    };
    Ok(Box::new(alloc, test)?)
}

fn less(ty: IntType) -> WordTest
    ensures { words.word_test_of result ≡ (if is_signed (int_type_of ty) then Wslt else Wult) }
{
    if is_signed(ty) {
        WordTest::Wslt
    } else {
        WordTest::Wult
    }
}

fn at_most(ty: IntType) -> WordTest
    ensures { words.word_test_of result ≡ (if is_signed (int_type_of ty) then Wsle else Wule) }
{
    if is_signed(ty) {
        WordTest::Wsle
    } else {
        WordTest::Wule
    }
}

/// Whether two values are equal, or whether they aren't.
pub(crate) fn equation(
    alloc: Global,
    equality: Equality,
    a: Box<Exp>,
    b: Box<Exp>,
) -> Result<Box<Exp>, AllocError>
    ensures { IfOk result
        (λ e. exp_of e.value ≡ rules.equation (typed.equality_of equality) (exp_of a.value)
        (exp_of b.value)) }
{
    let equal = equal(alloc, a, b)?;
    match equality {
        Equality::Equal => Ok(equal),
        Equality::NotEqual => not(alloc, equal),
    }
}

/// By how many objects a pointer moves.
pub(crate) fn moved_by(alloc: Global, sign: Sign, n: Box<Exp>) -> Result<Box<Exp>, AllocError>
    ensures { IfOk result
        (λ e. exp_of e.value ≡ rules.moved_by (typed.sign_of sign) (exp_of n.value)) }
{
    match sign {
        Sign::Plus => Ok(n),
        Sign::Minus => Ok(Box::new(alloc, Exp::Negate(n))?),
    }
}
