//! The rules of expressions, of types and of members at their nodes: what is wrong is wrong at the node's first token.

ghost use Rattle.c_grammar.specs.CodeTree as view;
ghost use Rattle.c_values.specs.CodeTypes.{type_of};
ghost use Rattle.typing_rules.specs.CodeAnswers.{Answers};
ghost use Rattle.typing_rules.specs.Checked as checked;
ghost use Rattle.typing_rules.specs.Checked.{◌>=>◌};
ghost use Rattle.typing_rules.specs.CodeOperand.{operand_of, demand_of};
ghost use Rattle.typing_rules.specs.CodeWords.{base_of};
ghost use Rattle.typing_scope.specs.CodeDeclared.{declared_of};
ghost use Rattle.typing_scope.specs.CodeFields.{members_of};
ghost use Rattle.typing_scope.specs.CodeScope.{scope_of};
ghost use Rattle.typing_rules.specs.Declarations as declarations;
ghost use Rattle.typing_rules.specs.Expressions as expressions;
ghost use Rattle.typing_rules.specs.Operand as operands;
ghost use Rattle.typing_rules.specs.Operators as operators;

use c_grammar::tree::Words;
use c_grammar::{BinaryOperator, UnaryOperator};
use c_values::CType;
use std::alloc::Global;
use typing_nodes::{
    binary_operand, cast_operand, chosen_operand, element, member, pointer_member, size_constant,
    unary,
};
use typing_rules::fault::TypeFault;
use typing_rules::operands::{Demand, Operand};
use typing_rules::rulings::at_node;
use typing_rules::specifiers::{Base, words_start};
use typing_scope::declarators::Declared;
use typing_scope::members::Fields;
use typing_scope::scope::Scope;
use typing_scope::type_words::starred;

/// `a[i]`
pub(crate) fn element_at(
    alloc: Global,
    at: usize,
    scope: &Scope,
    demand: Demand,
    array: Operand,
    index: Operand,
) -> Result<Operand, TypeFault>
    ensures { Answers operand_of (scope_of scope.now) result
        (checked.rule at
        (λ s. expressions.indexed s.layout (operand_of array)
        (operands.value_in (operand_of index)) >=> operands.used (demand_of demand))
        (scope_of scope.now)) }
{
    at_node(at, element(alloc, &scope.layout, demand, array, index))
}

/// `a.x`
pub(crate) fn member_at(
    alloc: Global,
    at: usize,
    scope: &Scope,
    demand: Demand,
    whole: Operand,
    name: &str,
) -> Result<Operand, TypeFault>
    ensures { Answers operand_of (scope_of scope.now) result
        (checked.rule at
        (λ s. expressions.member_of_operand s.layout name.now
        (operand_of whole) >=> operands.used (demand_of demand)) (scope_of scope.now)) }
{
    at_node(at, member(alloc, &scope.layout, demand, whole, name))
}

/// `p->x`
pub(crate) fn pointer_member_at(
    alloc: Global,
    at: usize,
    scope: &Scope,
    demand: Demand,
    pointer: Operand,
    name: &str,
) -> Result<Operand, TypeFault>
    ensures { Answers operand_of (scope_of scope.now) result
        (checked.rule at
        (λ s. expressions.pointer_member s.layout name.now
        (operands.value_in (operand_of pointer)) >=> operands.used (demand_of demand))
        (scope_of scope.now)) }
{
    at_node(
        at,
        pointer_member(alloc, &scope.layout, demand, pointer, name),
    )
}

/// An operator in front of an operand.
pub(crate) fn unary_at(
    alloc: Global,
    at: usize,
    scope: &Scope,
    demand: Demand,
    op: UnaryOperator,
    a: Operand,
) -> Result<Operand, TypeFault>
    ensures { Answers operand_of (scope_of scope.now) result
        (checked.rule at (λ s. expressions.unary (demand_of demand) s.layout op (operand_of a))
        (scope_of scope.now)) }
{
    at_node(at, unary(alloc, &scope.layout, demand, op, a))
}

/// `sizeof (T)`
pub(crate) fn type_size_at(at: usize, scope: &Scope, ty: &CType) -> Result<Operand, TypeFault>
    ensures { Answers operand_of (scope_of scope.now) result
        (checked.rule at (λ s. expressions.size_constant s.layout (type_of ty.now))
        (scope_of scope.now)) }
{
    at_node(at, size_constant(&scope.layout, ty))
}

/// `(T)a`
pub(crate) fn cast_at(
    alloc: Global,
    at: usize,
    scope: &Scope,
    ty: CType,
    a: Operand,
) -> Result<Operand, TypeFault>
    ensures { Answers operand_of (scope_of scope.now) result
        (checked.rule at
        (λ s. expressions.valued
        (operators.cast s.layout (type_of ty) (operands.value_in (operand_of a))))
        (scope_of scope.now)) }
{
    at_node(at, cast_operand(alloc, &scope.layout, ty, a))
}

/// An operator between operands.
pub(crate) fn binary_at(
    alloc: Global,
    at: usize,
    scope: &Scope,
    op: BinaryOperator,
    left: Operand,
    right: Operand,
) -> Result<Operand, TypeFault>
    ensures { Answers operand_of (scope_of scope.now) result
        (checked.rule at
        (λ s. expressions.valued
        (operators.binary s.layout op (operands.value_in (operand_of left))
        (operands.value_in (operand_of right)))) (scope_of scope.now)) }
{
    at_node(at, binary_operand(alloc, &scope.layout, op, left, right))
}

/// `c ? a : b`
pub(crate) fn chosen_at(
    alloc: Global,
    at: usize,
    scope: &Scope,
    test: Operand,
    left: Operand,
    right: Operand,
) -> Result<Operand, TypeFault>
    ensures { Answers operand_of (scope_of scope.now) result
        (checked.rule at
        (λ s. expressions.valued
        (operators.chosen s.layout (operands.value_in (operand_of test))
        (operands.value_in (operand_of left)) (operands.value_in (operand_of right))))
        (scope_of scope.now)) }
{
    at_node(at, chosen_operand(alloc, &scope.layout, test, left, right))
}

/// A type with stars around it, at the first of its words.
pub(crate) fn starred_at(
    alloc: Global,
    words: &Words,
    stars: usize,
    base: Base,
    scope: &Scope,
) -> Result<CType, TypeFault>
    ensures { Answers type_of (scope_of scope.now) result
        (checked.rule (expressions.words_start (view.words_of words.now))
        (λ s. expressions.starred stars (base_of base).type) (scope_of scope.now)) }
{
    at_node(words_start(words), starred(alloc, stars, base.ty))
}

/// One member more, at its declarator.
pub(crate) fn joined_at(
    fields: Fields,
    member: Declared,
    scope: &Scope,
) -> Result<Fields, TypeFault>
    ensures { Answers members_of (scope_of scope.now) result
        (checked.rule (declared_of member).at
        (λ s. declarations.joined s.layout (members_of fields) (declared_of member))
        (scope_of scope.now)) }
{
    at_node(member.at, fields.join(&scope.layout, member))
}
