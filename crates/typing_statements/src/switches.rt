//! Switches.

ghost use Rattle.std.specs.Prelude.{◌≡◌, List, IfOk};
ghost use Rattle.c_values.specs.CodeTypes.{int_type_of};
ghost use Rattle.c_grammar.specs.Tree as tree;
ghost use Rattle.c_grammar.specs.CodeTree.{exp_of, groups_of as plain_groups_of, items_of, stmt_of};
ghost use Rattle.typing_rules.specs.CodeAnswers.{Answers, RulesAs};
ghost use Rattle.typing_rules.specs.CodeForm.{form_type};
ghost use Rattle.typing_scope.specs.CodeScope.{scope_of};
ghost use Rattle.typing_statements.specs.CodeStatements.{around_of, group_listed, in_front};
ghost use Rattle.typing_rules.specs.Statements as rules;
ghost use Rattle.c_lang.specs.Typed as C;
ghost use Rattle.c_lang.specs.CodeTyped.{expr_of, groups_of, statement_of, statements_of};

use crate::labels::{Labels, Seen, group_labels, label_start};
use crate::statements::{Around, listed, more_items, statement};
use c_grammar::tree::{self, CExp, Items, Stmt};
use c_integers::promoted;
use c_lang::tree::{Expr, Groups, Statement, Statements};
use c_values::IntType;
use std::alloc::{AllocError, Global};
use typing_expressions::value;
use typing_rules::fault::{TypeFault, TypeKind};
use typing_rules::operands::type_of;
use typing_rules::operators::to_integer;
use typing_rules::progress::following;
use typing_rules::rulings::{Refusal, at_node, refuse};
use typing_rules::types::Form;
use typing_scope::scope::Scope;

/// A switch.
#[cycle(block)]
pub(crate) fn switch(
    alloc: Global,
    operand: &CExp,
    groups: &tree::Groups,
    scope: &mut Scope,
    around: Around<'_>,
    at: usize,
) -> Result<Statement, TypeFault>
    ensures { Answers statement_of (scope_of scope.new) result
        (rules.statement (around_of around.entry)
        (tree.Switch at (exp_of operand.now) (plain_groups_of groups.now))
        (scope_of scope.old)) }
{
    let number = switch_number(scope)?;
    let operand = value(alloc, operand, scope)?;
    scope.open_block(alloc)?;
    let ty = switch_type(type_of(&operand));
    let groups = groups_at(alloc, groups, scope, inside_switch(around), ty)?;
    scope.close_block();
    at_node(at, switched(alloc, number, operand, groups))
}

fn inside_switch(around: Around<'_>) -> Around<'_>
    ensures { around_of result ≡ rules.inside_switch (around_of around.entry) }
{
    Around {
        result: around.result,
        in_loop: around.in_loop,
        in_switch: true,
    }
}

// The number of a switch, before those inside.
fn switch_number(scope: &mut Scope) -> Result<u64, TypeFault>
    ensures { Answers (λ n. n) (scope_of scope.new) result
        (rules.switch_number (scope_of scope.old)) }
{
    let number = at_node(0, following(scope.progress.switches))?;
    scope.progress.switches = number;
    Ok(number)
}

// The type of a switch's operand, promoted. Where that is no integer, its labels are ints.
fn switch_type(operand: Form<'_>) -> IntType
    ensures { int_type_of result ≡ rules.switch_type (form_type operand.entry) }
{
    match operand {
        Form::Integer(ty) => promoted(ty),
        Form::Void | Form::Pointer(_) | Form::Struct(_) | Form::Array(_, _) => IntType::Int,
    }
}

// The rule of a switch: its operand is an integer, and is promoted.
fn switched(alloc: Global, number: u64, operand: Expr, groups: Groups) -> Result<Statement, Refusal>
    ensures { RulesAs statement_of result
        (rules.switches number (expr_of operand) (C.type_of (expr_of operand)) (groups_of groups)) }
{
    match type_of(&operand) {
        Form::Integer(ty) => {
            let ty = promoted(ty);
            let operand = to_integer(alloc, ty, operand)?;
            let groups = Box::new(alloc, groups)?;
            Ok(Statement::Switch(number, ty, operand, groups))
        }
        Form::Void | Form::Pointer(_) | Form::Struct(_) | Form::Array(_, _) => {
            Err(Refusal::Kind(TypeKind::Mismatch))
        }
    }
}

// A group of a switch.
#[derive(Drop)]
struct Group {
    labels: Labels,
    statements: Statements,
}

// The groups of a switch at this type. A local of a group isn't named in the others.
#[cycle(block)]
fn groups_at(
    alloc: Global,
    groups: &tree::Groups,
    scope: &mut Scope,
    around: Around<'_>,
    ty: IntType,
) -> Result<Groups, TypeFault>
    ensures { Answers groups_of (scope_of scope.new) result
        (rules.groups (around_of around.entry) (int_type_of ty) rules.no_labels
        (plain_groups_of groups.now) (scope_of scope.old)) }
{
    let mut seen = Seen::none(alloc);
    let mut typed = Vec::new(alloc);
    let mut rest = groups;
    while let tree::Groups::More(label, others, first, more, groups) = rest {
        let labels = group_labels(alloc, label, others.as_slice(), scope, ty, &mut seen)?;
        let statements = group_statements(alloc, first, more, scope, around)?;
        at_node(label_start(label), is_separate(groups, first, more))?;
        scope.hide_locals();
        typed.push(Group { labels, statements })?;
        rest = &**groups;
    }
    Ok(grouped(alloc, typed)?)
}

// The rule of a group: one that isn't the last ends by a jump.
fn is_separate(groups: &tree::Groups, first: &Stmt, more: &Items) -> Result<(), Refusal>
    ensures { (ss : List C.Statement) → RulesAs (λ _. ss) result
        (rules.separate (rules.is_last (plain_groups_of groups.now))
        (rules.ends_by_jump (rules.is_jump (stmt_of first.now)) (items_of more.now)) ss) }
{
    let is_last = matches!(groups, tree::Groups::None);
    refuse(
        !(is_last || ends_by_jump(first, more)),
        TypeKind::FallThrough,
    )
}

#[cycle(block)]
fn group_statements(
    alloc: Global,
    first: &Stmt,
    others: &Items,
    scope: &mut Scope,
    around: Around<'_>,
) -> Result<Statements, TypeFault>
    ensures { Answers statements_of (scope_of scope.new) result
        (group_listed (around_of around.entry) (stmt_of first.now) (items_of others.now)
        (scope_of scope.old)) }
{
    let mut statements = Vec::new(alloc);
    statements.push(statement(alloc, first, scope, around)?)?;
    more_items(alloc, others, scope, around, &mut statements)?;
    Ok(listed(alloc, statements)?)
}

// The groups as a list.
#[tactic(auto, using(crate::proofs::Lists::in_front_behind))]
fn grouped(alloc: Global, mut groups: Vec<Group>) -> Result<Groups, AllocError>
    ensures { IfOk result (λ list. groups_of list ≡ in_front groups.items C.no_groups) }
{
    let mut list = Groups::None;
    while let Some(group) = groups.pop() {
        let Group { labels, statements } = group;
        let statements = Box::new(alloc, statements)?;
        let others = Box::new(alloc, list)?;
        list = Groups::Next(labels.values, labels.has_default, statements, others);
    }
    Ok(list)
}

// Whether a group's last statement is itself a jump.
fn ends_by_jump(first: &Stmt, others: &Items) -> bool
    ensures { result ≡ rules.ends_by_jump (rules.is_jump (stmt_of first.now))
        (items_of others.now) }
{
    let mut ends = is_jump(first);
    let mut rest = others;
    loop {
        match rest {
            Items::None => return ends,
            Items::Local(_, others) => {
                ends = false;
                rest = &**others;
            }
            Items::Statement(stmt, others) => {
                ends = is_jump(stmt);
                rest = &**others;
            }
        }
    }
}

fn is_jump(stmt: &Stmt) -> bool
    ensures { result ≡ rules.is_jump (stmt_of stmt.now) }
{
    matches!(
        stmt,
        Stmt::Break(_) | Stmt::Continue(_) | Stmt::Return(_, _)
    )
}
