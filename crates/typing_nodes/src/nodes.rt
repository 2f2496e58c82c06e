//! The rules of expressions: typed operands to a typed operand, or what is wrong.

ghost use Rattle.std.specs.Prelude.{◌≡◌, pos};
ghost use Rattle.c_values.specs.CodeTypes.{target_of, int_type_of, type_of};
ghost use Rattle.c_values.specs.Types.{size_type};
ghost use Rattle.typing_rules.specs.CodeAnswers.{RulesAs};
ghost use Rattle.typing_rules.specs.Checked.{◌>=>◌};
ghost use Rattle.typing_rules.specs.CodeOperand.{operand_of, demand_of};
ghost use Rattle.typing_rules.specs.Expressions as expressions;
ghost use Rattle.c_integers.specs.Integers as integers;
ghost use Rattle.typing_rules.specs.Operand as operands;
ghost use Rattle.typing_rules.specs.Operators as operators;
ghost use Rattle.c_lang.specs.Typed as C;

use crate::addresses::{addressed, followed, indexed, member_in, member_of_operand};
use c_grammar::{BinaryOperator, UnaryOperator};
use c_integers::number_type;
use c_lang::tree::Expr;
use c_values::{CType, IntType, Layout, Number, Target, is_object, size_of};
use std::alloc::Global;
use typing_rules::fault::TypeKind;
use typing_rules::operands::{Demand, Operand, operand_type, used, value_in};
use typing_rules::operators::{binary, cast, chosen, complemented, inverted, kept, negated};
use typing_rules::rulings::{Refusal, refuse};
use typing_rules::types::formed;

/// A number as it is written: a constant of the first type that holds it.
pub fn number(
    target: Target,
    n: u64,
    decimal: bool,
    unsigned: bool,
    longs: u8,
) -> Result<Operand, Refusal>
    ensures { RulesAs operand_of result
        (expressions.number_at n
        (integers.number_type (target_of target) n decimal unsigned longs)) }
{
    match number_type(target, n, decimal, unsigned, longs) {
        Some(ty) => Ok(Operand::Valued(Expr::Constant(ty, Number::new(false, u128::from(n))))),
        None => Err(Refusal::Kind(TypeKind::Mismatch)),
    }
}

/// A character constant, an `int`.
pub fn character(c: u8) -> Operand
    ensures { operand_of result ≡ operands.Valued (C.Constant (int_type_of IntType.Int) (pos c)) }
{
    Operand::Valued(Expr::Constant(IntType::Int, Number::new(false, u128::from(c))))
}

/// `a[i]`
pub fn element(
    alloc: Global,
    l: &Layout,
    demand: Demand,
    array: Operand,
    index: Operand,
) -> Result<Operand, Refusal>
    ensures { RulesAs operand_of result
        (expressions.indexed l.now (operand_of array)
        (operands.value_in (operand_of index)) >=> operands.used (demand_of demand)) }
{
    let index = value_in(alloc, index)?;
    let place = indexed(alloc, l, array, index)?;
    used(alloc, demand, place)
}

/// `a.x`
pub fn member(
    alloc: Global,
    l: &Layout,
    demand: Demand,
    whole: Operand,
    name: &str,
) -> Result<Operand, Refusal>
    ensures { RulesAs operand_of result
        (expressions.member_of_operand l.now name.now (operand_of whole) >=> operands.used
        (demand_of demand)) }
{
    let place = member_of_operand(alloc, l, name, whole)?;
    used(alloc, demand, place)
}

/// `p->x`
pub fn pointer_member(
    alloc: Global,
    l: &Layout,
    demand: Demand,
    pointer: Operand,
    name: &str,
) -> Result<Operand, Refusal>
    ensures { RulesAs operand_of result
        (expressions.pointer_member l.now name.now
        (operands.value_in (operand_of pointer)) >=> operands.used (demand_of demand)) }
{
    let whole = followed(alloc, l, value_in(alloc, pointer)?)?;
    let place = member_in(alloc, l, name, whole)?;
    used(alloc, demand, place)
}

/// What an operator before an operand wants of it.
pub fn unary_demand(op: UnaryOperator) -> Demand
    ensures { demand_of result ≡ expressions.unary_demand op }
{
    match op {
        UnaryOperator::Address => Demand::Place,
        UnaryOperator::Negate
        | UnaryOperator::Plus
        | UnaryOperator::Complement
        | UnaryOperator::Not
        | UnaryOperator::Dereference => Demand::Value,
    }
}

/// An operator before an operand.
pub fn unary(
    alloc: Global,
    l: &Layout,
    demand: Demand,
    op: UnaryOperator,
    a: Operand,
) -> Result<Operand, Refusal>
    ensures { RulesAs operand_of result
        (expressions.unary (demand_of demand) l.now op (operand_of a)) }
{
    match op {
        UnaryOperator::Address => Ok(Operand::Valued(addressed(alloc, a)?)),
        UnaryOperator::Dereference => {
            let place = followed(alloc, l, value_in(alloc, a)?)?;
            used(alloc, demand, place)
        }
        UnaryOperator::Negate => Ok(Operand::Valued(negated(alloc, value_in(alloc, a)?)?)),
        UnaryOperator::Plus => Ok(Operand::Valued(kept(alloc, value_in(alloc, a)?)?)),
        UnaryOperator::Complement => {
            Ok(Operand::Valued(complemented(alloc, value_in(alloc, a)?)?))
        }
        UnaryOperator::Not => Ok(Operand::Valued(inverted(alloc, value_in(alloc, a)?)?)),
    }
}

/// The bytes of an object, a constant.
pub fn size_constant(l: &Layout, ty: &CType) -> Result<Operand, Refusal>
    ensures { RulesAs operand_of result (expressions.size_constant l.now (type_of ty.now)) }
{
    refuse(!is_object(l, ty), TypeKind::Incomplete)?;
    let size = Number::new(false, u128::from(size_of(l, ty)));
    Ok(Operand::Valued(Expr::Constant(size_type(l.target()), size)))
}

/// The bytes of an operand, a constant.
pub fn size_of_operand(alloc: Global, l: &Layout, operand: &Operand) -> Result<Operand, Refusal>
    ensures { RulesAs operand_of result
        (expressions.size_constant l.now (operands.operand_type (operand_of operand.now))) }
{
    let ty = formed(alloc, operand_type(operand))?;
    size_constant(l, &ty)
}

// The type of `sizeof`.
fn size_type(target: Target) -> IntType
    ensures { int_type_of result ≡ size_type (target_of target) }
{
    match target {
        Target::Ilp32 => IntType::UInt,
        Target::Lp64 => IntType::ULong,
    }
}

/// `(T)a`
pub fn cast_operand(alloc: Global, l: &Layout, ty: CType, a: Operand) -> Result<Operand, Refusal>
    ensures { RulesAs operand_of result
        (expressions.valued
        (operators.cast l.now (type_of ty) (operands.value_in (operand_of a)))) }
{
    let a = value_in(alloc, a)?;
    Ok(Operand::Valued(cast(alloc, l, ty, a)?))
}

/// An operator between operands.
pub fn binary_operand(
    alloc: Global,
    l: &Layout,
    op: BinaryOperator,
    left: Operand,
    right: Operand,
) -> Result<Operand, Refusal>
    ensures { RulesAs operand_of result
        (expressions.valued (operators.binary l.now op (operands.value_in (operand_of left))
        (operands.value_in (operand_of right)))) }
{
    let left = value_in(alloc, left)?;
    let right = value_in(alloc, right)?;
    Ok(Operand::Valued(binary(alloc, l, op, left, right)?))
}

/// `c ? a : b`
pub fn chosen_operand(
    alloc: Global,
    l: &Layout,
    test: Operand,
    left: Operand,
    right: Operand,
) -> Result<Operand, Refusal>
    ensures { RulesAs operand_of result
        (expressions.valued (operators.chosen l.now (operands.value_in (operand_of test))
        (operands.value_in (operand_of left)) (operands.value_in (operand_of right)))) }
{
    let test = value_in(alloc, test)?;
    let left = value_in(alloc, left)?;
    let right = value_in(alloc, right)?;
    Ok(Operand::Valued(chosen(alloc, l, test, left, right)?))
}
