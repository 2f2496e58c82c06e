//! Names as operands, by what they stand for.

ghost use Rattle.typing_rules.specs.CodeAnswers.{RulesAs};
ghost use Rattle.typing_rules.specs.CodeOperand.{operand_of, demand_of};
ghost use Rattle.typing_scope.specs.CodeScope.{scope_of};
ghost use Rattle.typing_rules.specs.Expressions as expressions;
ghost use Rattle.typing_rules.specs.Scope.{entity};

use c_lang::tree::{Expr, Path, Place};
use c_values::{IntType, copy_of};
use std::alloc::Global;
use typing_rules::fault::TypeKind;
use typing_rules::operands::{Demand, Operand, used};
use typing_rules::rulings::Refusal;
use typing_scope::scope::{Entity, Scope};

pub(crate) fn variable(
    alloc: Global,
    scope: &Scope,
    demand: Demand,
    name: &str,
) -> Result<Operand, Refusal>
    ensures { RulesAs operand_of result
        (expressions.variable (demand_of demand) name.now
        (entity (scope_of scope.now).blocks name.now)) }
{
    match scope.entity(name) {
        None => Err(Refusal::Kind(TypeKind::Unknown)),
        Some(Entity::Enumerator(n)) => Ok(Operand::Valued(Expr::Constant(IntType::Int, *n))),
        Some(Entity::Global(ty)) => {
            let ty = copy_of(alloc, ty)?;
            let name = String::from_str(alloc, name)?;
            used(
                alloc,
                demand,
                Place::InGlobal(name, Box::new(alloc, Path::Here)?, ty),
            )
        }
        Some(Entity::Local(own, ty)) => {
            let own = String::from_str(alloc, own.as_str())?;
            Ok(Operand::Variable(own, copy_of(alloc, ty)?))
        }
        Some(Entity::Function(_, _)) => Err(Refusal::Kind(TypeKind::Mismatch)),
        Some(Entity::Hidden) => Err(Refusal::Kind(TypeKind::OutOfSubset)),
    }
}
