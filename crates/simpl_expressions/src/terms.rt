//! Expressions that generation puts together from others. Each is boxed where it is made.

ghost use Rattle.std.specs.Prelude.{◌≡◌, pos, nat_lt, string_bytes, IfOk, if◌then◌else◌};
ghost use Rattle.c_values.specs.Width.{IsWidth};
ghost use Rattle.c_values.specs.Word.{word};
ghost use Rattle.c_values.specs.CodeTypes.{target_of, int_type_of, type_of};
ghost use Rattle.c_values.specs.CodeWord.{unary_op_of, word_op_of};
ghost use Rattle.expression_lang.specs.CodeExpression.{exp_of, cast_op_of};
ghost use Rattle.expression_lang.specs.Expression as E;
ghost use Rattle.generation.specs.Guards as rules;

use crate::ranges::{greatest_of, least_of, natural};
use crate::scalars::Bits;
use c_values::views::word;
use c_values::{CType, IntType, Number, Target, UnaryOp, WordOp, copy_of, width_of};
use expression_lang::{CastOp, Exp};
use std::alloc::{AllocError, Global};

/// The value of a name.
pub fn variable(alloc: Global, name: String) -> Result<Box<Exp>, AllocError>
    ensures { IfOk result (λ e. exp_of e.value ≡ E.Var (string_bytes name)) }
{
    Ok(Box::new(alloc, Exp::Var(name))?)
}

/// A number as a word of an integer type.
pub fn word_of(
    alloc: Global,
    target: Target,
    ty: IntType,
    n: Number,
) -> Result<Box<Exp>, AllocError>
    ensures { IfOk result
        (λ e. exp_of e.value ≡ rules.word_of (target_of target) (int_type_of ty) n) }
{
    Ok(Box::new(alloc, Exp::Word(word(width_of(target, ty), n)))?)
}

/// A number as a word of an `int`.
pub fn int_literal(alloc: Global, n: u64) -> Result<Box<Exp>, AllocError>
    ensures { IfOk result (λ e. exp_of e.value ≡ rules.int_literal (pos n)) }
{
    Ok(Box::new(alloc, Exp::Word(word(32, natural(n))))?)
}

/// A truth value.
pub fn truth_literal(alloc: Global, truth: bool) -> Result<Box<Exp>, AllocError>
    ensures { IfOk result (λ e. exp_of e.value ≡ E.TruthLit truth) }
{
    Ok(Box::new(alloc, Exp::Truth(truth))?)
}

/// Whether a truth value is false.
pub fn not(alloc: Global, a: Box<Exp>) -> Result<Box<Exp>, AllocError>
    ensures { IfOk result (λ e. exp_of e.value ≡ E.Not (exp_of a.value)) }
{
    Ok(Box::new(alloc, Exp::Not(a))?)
}

/// Whether two values of one sort are equal.
pub fn equal(alloc: Global, a: Box<Exp>, b: Box<Exp>) -> Result<Box<Exp>, AllocError>
    ensures { IfOk result (λ e. exp_of e.value ≡ E.Eq (exp_of a.value) (exp_of b.value)) }
{
    Ok(Box::new(alloc, Exp::Eq(a, b))?)
}

/// Whether both of two truth values are true.
pub(crate) fn and(alloc: Global, a: Box<Exp>, b: Box<Exp>) -> Result<Box<Exp>, AllocError>
    ensures { IfOk result (λ e. exp_of e.value ≡ E.And (exp_of a.value) (exp_of b.value)) }
{
    Ok(Box::new(alloc, Exp::And(a, b))?)
}

/// Whether one of two truth values is true.
pub fn or(alloc: Global, a: Box<Exp>, b: Box<Exp>) -> Result<Box<Exp>, AllocError>
    ensures { IfOk result (λ e. exp_of e.value ≡ E.Or (exp_of a.value) (exp_of b.value)) }
{
    Ok(Box::new(alloc, Exp::Or(a, b))?)
}

/// What a condition is where another holds. A condition isn't boxed.
pub fn implication(alloc: Global, premise: Box<Exp>, exp: Exp) -> Result<Exp, AllocError>
    ensures { IfOk result (λ e. exp_of e ≡ E.Imp (exp_of premise.value) (exp_of exp)) }
{
    Ok(Exp::Imp(premise, Box::new(alloc, exp)?))
}

/// Whether a number lies between two, both included.
pub(crate) fn between(
    alloc: Global,
    low: Number,
    n: Box<Exp>,
    high: Number,
) -> Result<Box<Exp>, AllocError>
    ensures { IfOk result (λ e. exp_of e.value ≡ E.Between low (exp_of n.value) high) }
{
    Ok(Box::new(alloc, Exp::Between(low, n, high))?)
}

/// Whether a number is a value of an integer type.
pub(crate) fn in_type(
    alloc: Global,
    target: Target,
    ty: IntType,
    n: Box<Exp>,
) -> Result<Box<Exp>, AllocError>
    ensures { IfOk result
        (λ e. exp_of e.value ≡ rules.in_type (target_of target) (int_type_of ty) (exp_of n.value)) }
{
    between(alloc, least_of(target, ty), n, greatest_of(target, ty))
}

/// The number that a word is, by its sign or without one.
pub(crate) fn number(alloc: Global, signed: bool, a: Box<Exp>) -> Result<Box<Exp>, AllocError>
    ensures { IfOk result
        (λ e. exp_of e.value
        ≡ (if signed then E.ToInt (exp_of a.value) else E.ToNat (exp_of a.value))) }
{
    if signed {
        Ok(Box::new(alloc, Exp::ToInt(a))?)
    } else {
        Ok(Box::new(alloc, Exp::ToNat(a))?)
    }
}

/// A word at another width. The same width stays.
pub fn cast_to(alloc: Global, to: u8, from: Bits, a: Box<Exp>) -> Result<Box<Exp>, AllocError>
    ensures { IfOk result
        (λ e. exp_of e.value ≡ rules.cast_to to from.width from.signed (exp_of a.value)) }
{
    if to == from.width {
        Ok(a)
    } else {
        Ok(Box::new(alloc, Exp::Cast(cast_op(to, from), to, a))?)
    }
}

// How a word goes to another width.
fn cast_op(to: u8, from: Bits) -> CastOp
    ensures { cast_op_of result
        ≡ (if nat_lt to from.width then E.Trunc else (if from.signed then E.Sext else E.Zext)) }
{
    if to < from.width {
        CastOp::Trunc
    } else if from.signed {
        CastOp::Sext
    } else {
        CastOp::Zext
    }
}

/// Whether a word of a width isn't zero.
pub(crate) fn nonzero(alloc: Global, width: u8, a: Box<Exp>) -> Result<Box<Exp>, AllocError>
    requires { IsWidth width }
    ensures { IfOk result
        (λ e. exp_of e.value ≡ E.Not (E.Eq (exp_of a.value) (E.WordLit (word width (pos 0))))) }
{
    let zero = Box::new(alloc, Exp::Word(word(width, natural(0))))?;
    not(alloc, equal(alloc, a, zero)?)
}

/// A truth value as an `int`.
pub(crate) fn of_truth(alloc: Global, truth: Box<Exp>) -> Result<Box<Exp>, AllocError>
    ensures { IfOk result (λ e. exp_of e.value ≡ rules.of_truth (exp_of truth.value)) }
{
    let one = int_literal(alloc, 1)?;
    let zero = int_literal(alloc, 0)?;
    choice(alloc, truth, one, zero)
}

/// An operation on a word.
pub(crate) fn on_word(alloc: Global, op: UnaryOp, a: Box<Exp>) -> Result<Box<Exp>, AllocError>
    ensures { IfOk result (λ e. exp_of e.value ≡ E.WordUnary (unary_op_of op) (exp_of a.value)) }
{
    Ok(Box::new(alloc, Exp::WordUnary(op, a))?)
}

/// An operation on two words.
pub(crate) fn on_words(
    alloc: Global,
    op: WordOp,
    a: Box<Exp>,
    b: Box<Exp>,
) -> Result<Box<Exp>, AllocError>
    ensures { IfOk result
        (λ e. exp_of e.value ≡ E.WordBinary (word_op_of op) (exp_of a.value) (exp_of b.value)) }
{
    Ok(Box::new(alloc, Exp::WordBinary(op, a, b))?)
}

/// The one where a truth value is true, else the other.
pub(crate) fn choice(
    alloc: Global,
    c: Box<Exp>,
    a: Box<Exp>,
    b: Box<Exp>,
) -> Result<Box<Exp>, AllocError>
    ensures { IfOk result
        (λ e. exp_of e.value ≡ E.If (exp_of c.value) (exp_of a.value) (exp_of b.value)) }
{
    Ok(Box::new(alloc, Exp::If(c, a, b))?)
}

/// A pointer, and so many objects of a type further on.
pub(crate) fn pointer_moved_by(
    alloc: Global,
    ty: &CType,
    p: Box<Exp>,
    by: Box<Exp>,
) -> Result<Box<Exp>, AllocError>
    ensures { IfOk result
        (λ e. exp_of e.value ≡ E.Padd (type_of ty.now) (exp_of p.value) (exp_of by.value)) }
{
    let ty = copy_of(alloc, ty)?;
    Ok(Box::new(alloc, Exp::Padd(ty, p, by))?)
}
