//! Constant expressions and sizes: of these a value is left, and it is noted whether there was a conversion.

ghost use Rattle.typing_rules.specs.CodeAnswers.{Answers, RulesAs};
ghost use Rattle.typing_rules.specs.Checked as checked;
ghost use Rattle.typing_rules.specs.CodeOperand.{operand_of};
ghost use Rattle.typing_scope.specs.CodeScope.{scope_of};
ghost use Rattle.typing_rules.specs.Constant as constants;
ghost use Rattle.typing_rules.specs.Declarations as declarations;
ghost use Rattle.typing_rules.specs.Expressions as expressions;
ghost use Rattle.typing_rules.specs.Operand as operands;
ghost use Rattle.c_lang.specs.CodeTyped.{expr_of};

use c_lang::tree::Expr;
use c_values::{Layout, Number};
use std::alloc::Global;
use typing_nodes::size_of_operand;
use typing_rules::casts::{has_cast, operand_has_cast};
use typing_rules::constants::constant_value;
use typing_rules::fault::{TypeFault, TypeKind};
use typing_rules::operands::{Operand, type_of, value_in};
use typing_rules::rulings::{Refusal, at_node, refuse};
use typing_rules::types::is_integer;
use typing_scope::scope::Scope;

/// A constant expression of an integer type, of a typed operand.
pub(crate) fn integer_at(
    alloc: Global,
    at: usize,
    operand: Operand,
    scope: &mut Scope,
) -> Result<Number, TypeFault>
    ensures { Answers (λ n. n) (scope_of scope.new) result
        (expressions.integer_at at (checked.pure (operand_of operand)) (scope_of scope.old)) }
{
    let e = value_in(alloc, operand)?;
    let n = at_node(at, integer_of(&scope.layout, &e))?;
    scope.note(has_cast(&e));
    Ok(n)
}

/// An enumerator with a value, of the typed operand that is written for it.
#[tactic(auto, using(crate::proofs::Steps::answers_behind, crate::proofs::Steps::node_answers))]
pub(crate) fn enumerator_at(
    alloc: Global,
    at: usize,
    name: &str,
    value_at: usize,
    operand: Operand,
    scope: &mut Scope,
) -> Result<Number, TypeFault>
    ensures { Answers (λ n. n) (scope_of scope.new) result
        (checked.then (expressions.integer_at value_at (checked.pure (operand_of operand))
        (scope_of scope.old)) (λ n s.
        checked.then (checked.rule value_at (declarations.enumerator_value n) s)
        (λ m. checked.declares at (declarations.enumerator name.now m)))) }
{
    let n = integer_at(alloc, value_at, operand, scope)?;
    let n = at_node(value_at, scope.enumerator_value(n))?;
    at_node(at, scope.enumerator(alloc, name, n))
}

fn integer_of(l: &Layout, e: &Expr) -> Result<Number, Refusal>
    ensures { RulesAs (λ n. n) result
        (expressions.integer_of (expr_of e.now) (constants.constant_value l.now (expr_of e.now))) }
{
    match constant_value(l, e) {
        Some(n) => {
            refuse(!is_integer(type_of(e)), TypeKind::Mismatch)?;
            Ok(n)
        }
        None => Err(Refusal::Kind(TypeKind::Mismatch)),
    }
}

/// The bytes of a typed operand, a constant.
pub(crate) fn size_at(
    alloc: Global,
    at: usize,
    operand: &Operand,
    scope: &mut Scope,
) -> Result<Operand, TypeFault>
    ensures { Answers operand_of (scope_of scope.new) result
        (checked.then
        (checked.rule at
        (λ s. expressions.size_constant s.layout
        (operands.operand_type (operand_of operand.now))) (scope_of scope.old))
        (checked.changed (expressions.note (operands.operand_has_cast (operand_of operand.now))))) }
{
    let size = at_node(at, size_of_operand(alloc, &scope.layout, operand))?;
    scope.note(operand_has_cast(operand));
    Ok(size)
}
