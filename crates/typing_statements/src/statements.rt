//! Statements.

ghost use Rattle.std.specs.Prelude.{◌≡◌, map, IfOk};
ghost use Rattle.std.specs.Option.{option_map};
ghost use Rattle.c_values.specs.CodeTypes.{type_of};
ghost use Rattle.c_grammar.specs.Tree as tree;
ghost use Rattle.c_grammar.specs.CodeTree as view;
ghost use Rattle.typing_rules.specs.CodeAnswers.{Answers, RulesAs};
ghost use Rattle.typing_statements.specs.CodeCalls.{right_of};
ghost use Rattle.typing_scope.specs.CodeScope.{scope_of};
ghost use Rattle.typing_statements.specs.CodeStatements.{around_of, as_block, as_list};
ghost use Rattle.typing_expressions.specs.CodeBehind.{behind};
ghost use Rattle.typing_rules.specs.Statements as rules;
ghost use Rattle.c_lang.specs.Typed as C;
ghost use Rattle.c_lang.specs.CodeTyped.{expr_of, statement_of, statements_of, test_of};

use crate::calls::{Right, returned, right_side};
use crate::locals::local;
use crate::simple::simple;
use crate::switches::switch;
use c_grammar::tree::{CExp, Items, Rhs, Simple, Start, Stmt};
use c_lang::tree::{Expr, Statement, Statements, Test};
use c_values::{CType, Layout};
use std::alloc::{AllocError, Global};
use typing_expressions::value;
use typing_rules::fault::{TypeFault, TypeKind};
use typing_rules::operands::type_of;
use typing_rules::progress::following;
use typing_rules::rulings::{Refusal, at_node, refuse};
use typing_rules::types::is_scalar;
use typing_scope::scope::Scope;

/// What a statement stands in: the function's result, and whether there is a loop or a switch around it.
#[derive(Clone, Copy)]
pub struct Around<'a> {
    pub result: &'a Option<CType>,
    pub in_loop: bool,
    pub in_switch: bool,
}

fn inside_loop(around: Around<'_>) -> Around<'_>
    ensures { around_of result ≡ rules.inside_loop (around_of around.entry) }
{
    Around {
        result: around.result,
        in_loop: true,
        in_switch: around.in_switch,
    }
}

/// A statement.
#[cycle(block)]
pub(crate) fn statement(
    alloc: Global,
    stmt: &Stmt,
    scope: &mut Scope,
    around: Around<'_>,
) -> Result<Statement, TypeFault>
    ensures { Answers statement_of (scope_of scope.new) result
        (rules.statement (around_of around.entry) (view.stmt_of stmt.now) (scope_of scope.old)) }
{
    match stmt {
        Stmt::Empty(_) => Ok(Statement::Empty),
        Stmt::Block(_, block) => block_statement(alloc, block, scope, around),
        Stmt::Simple(s) => simple(alloc, s, scope),
        Stmt::Break(at) => at_node(*at, breaks(around)),
        Stmt::Continue(at) => at_node(*at, continues(around)),
        Stmt::Return(at, source) => return_statement(alloc, source, scope, around, *at),
        Stmt::If(at, test, yes) => if_statement(alloc, test, yes, scope, around, *at),
        Stmt::IfElse(at, test, yes, no) => {
            if_else_statement(alloc, test, yes, no, scope, around, *at)
        }
        Stmt::While(at, test, body) => while_statement(alloc, test, body, scope, around, *at),
        Stmt::Do(at, body, test) => do_statement(alloc, body, test, scope, around, *at),
        Stmt::For(at, start, test, step, body) => {
            for_statement(alloc, Head { start, test, step }, body, scope, around, *at)
        }
        Stmt::Switch(at, operand, groups) => switch(alloc, operand, groups, scope, around, *at),
    }
}

#[cycle(block)]
fn block_statement(
    alloc: Global,
    block: &Items,
    scope: &mut Scope,
    around: Around<'_>,
) -> Result<Statement, TypeFault>
    ensures { Answers statement_of (scope_of scope.new) result
        (as_block (rules.items (around_of around.entry) (view.items_of block.now))
        (scope_of scope.old)) }
{
    scope.open_block(alloc)?;
    let mut statements = Vec::new(alloc);
    more_items(alloc, block, scope, around, &mut statements)?;
    scope.close_block();
    Ok(block_of(alloc, statements)?)
}

fn block_of(alloc: Global, statements: Vec<Statement>) -> Result<Statement, AllocError>
    ensures { IfOk result
        (λ s. statement_of s ≡ C.Block (rules.listed (map statement_of statements.items))) }
{
    let statements = listed(alloc, statements)?;
    Ok(Statement::Block(Box::new(alloc, statements)?))
}

/// Locals and statements.
pub fn items(
    alloc: Global,
    items: &Items,
    scope: &mut Scope,
    around: Around<'_>,
) -> Result<Statements, TypeFault>
    ensures { Answers statements_of (scope_of scope.new) result
        (as_list (rules.items (around_of around.entry) (view.items_of items.now))
        (scope_of scope.old)) }
{
    let mut statements = Vec::new(alloc);
    more_items(alloc, items, scope, around, &mut statements)?;
    Ok(listed(alloc, statements)?)
}

/// Adds locals and statements to those before them.
#[cycle(block)]
pub(crate) fn more_items(
    alloc: Global,
    items: &Items,
    scope: &mut Scope,
    around: Around<'_>,
    statements: &mut Vec<Statement>,
) -> Result<(), TypeFault>
    ensures { Answers (λ _. map statement_of statements.new.items) (scope_of scope.new) result
        (behind (map statement_of statements.old.items)
        (rules.items (around_of around.entry) (view.items_of items.now)) (scope_of scope.old)) }
{
    let mut rest = items;
    loop {
        match rest {
            Items::None => return Ok(()),
            Items::Local(l, others) => {
                local(alloc, l, scope, statements)?;
                rest = &**others;
            }
            Items::Statement(stmt, others) => {
                statements.push(statement(alloc, stmt, scope, around)?)?;
                rest = &**others;
            }
        }
    }
}

/// The statements as a list.
#[tactic(auto, using(crate::proofs::Lists::onto_behind))]
pub(crate) fn listed(
    alloc: Global,
    mut statements: Vec<Statement>,
) -> Result<Statements, AllocError>
    ensures { IfOk result
        (λ list. statements_of list ≡ rules.listed (map statement_of statements.items)) }
{
    let mut list = Statements::None;
    while let Some(statement) = statements.pop() {
        let statement = Box::new(alloc, statement)?;
        let others = Box::new(alloc, list)?;
        list = Statements::Next(statement, others);
    }
    Ok(list)
}

// A `break` stands in a loop or a switch.
fn breaks(around: Around<'_>) -> Result<Statement, Refusal>
    ensures { RulesAs statement_of result (rules.breaks (around_of around.entry)) }
{
    refuse(!(around.in_loop || around.in_switch), TypeKind::OutOfSubset)?;
    Ok(Statement::Break)
}

// A `continue` stands in a loop.
fn continues(around: Around<'_>) -> Result<Statement, Refusal>
    ensures { RulesAs statement_of result (rules.continues (around_of around.entry)) }
{
    refuse(!around.in_loop, TypeKind::OutOfSubset)?;
    Ok(Statement::Continue)
}

#[tactic(auto, using(typing_expressions::proofs::Steps::answers_behind, typing_expressions::proofs::Steps::node_answers))]
fn return_statement(
    alloc: Global,
    source: &Option<Rhs>,
    scope: &mut Scope,
    around: Around<'_>,
    at: usize,
) -> Result<Statement, TypeFault>
    ensures { Answers statement_of (scope_of scope.new) result
        (rules.statement (around_of around.entry)
        (tree.Return at (option_map view.rhs_of source.now)) (scope_of scope.old)) }
{
    let source = optional_right(alloc, source, scope)?;
    at_node(at, returns(alloc, &scope.layout, around.result, source))
}

fn optional_right(
    alloc: Global,
    source: &Option<Rhs>,
    scope: &mut Scope,
) -> Result<Option<Right>, TypeFault>
    ensures { Answers (λ r. option_map right_of r) (scope_of scope.new) result
        (rules.optional_right (option_map view.rhs_of source.now) (scope_of scope.old)) }
{
    match source {
        None => Ok(None),
        Some(source) => Ok(Some(right_side(alloc, source, scope)?)),
    }
}

// The rule of a `return`: it has an operand exactly where the function has a result.
fn returns(
    alloc: Global,
    layout: &Layout,
    ty: &Option<CType>,
    source: Option<Right>,
) -> Result<Statement, Refusal>
    ensures { RulesAs statement_of result
        (rules.returns layout.now (option_map type_of ty.now) (option_map right_of source)) }
{
    match (ty, source) {
        (None, None) => Ok(Statement::ReturnNothing),
        (Some(ty), Some(source)) => returned(alloc, layout, ty, source),
        _ => Err(Refusal::Kind(TypeKind::Mismatch)),
    }
}

// The rule of a statement with a test: that is a scalar.
fn is_test(test: &Expr) -> Result<(), Refusal>
    ensures { (s : C.Statement) → RulesAs (λ _. s) result (rules.tested (expr_of test.now) s) }
{
    refuse(!is_scalar(type_of(test)), TypeKind::Mismatch)
}

#[cycle(block)]
#[tactic(auto, using(typing_expressions::proofs::Steps::answers_behind, typing_expressions::proofs::Steps::node_answers))]
fn if_statement(
    alloc: Global,
    test: &CExp,
    yes: &Stmt,
    scope: &mut Scope,
    around: Around<'_>,
    at: usize,
) -> Result<Statement, TypeFault>
    ensures { Answers statement_of (scope_of scope.new) result
        (rules.statement (around_of around.entry)
        (tree.If at (view.exp_of test.now) (view.stmt_of yes.now)) (scope_of scope.old)) }
{
    let test = value(alloc, test, scope)?;
    let yes = statement(alloc, yes, scope, around)?;
    at_node(at, choice(alloc, test, yes, Statement::Empty))
}

#[cycle(block)]
#[tactic(auto, using(typing_expressions::proofs::Steps::answers_behind, typing_expressions::proofs::Steps::node_answers))]
fn if_else_statement(
    alloc: Global,
    test: &CExp,
    yes: &Stmt,
    no: &Stmt,
    scope: &mut Scope,
    around: Around<'_>,
    at: usize,
) -> Result<Statement, TypeFault>
    ensures { Answers statement_of (scope_of scope.new) result
        (rules.statement (around_of around.entry)
        (tree.IfElse at (view.exp_of test.now) (view.stmt_of yes.now) (view.stmt_of no.now))
        (scope_of scope.old)) }
{
    let test = value(alloc, test, scope)?;
    let yes = statement(alloc, yes, scope, around)?;
    let no = statement(alloc, no, scope, around)?;
    at_node(at, choice(alloc, test, yes, no))
}

// The rule of an `if`.
fn choice(alloc: Global, test: Expr, yes: Statement, no: Statement) -> Result<Statement, Refusal>
    ensures { RulesAs statement_of result
        (rules.tested (expr_of test) (C.If (expr_of test) (statement_of yes) (statement_of no))) }
{
    is_test(&test)?;
    let yes = Box::new(alloc, yes)?;
    let no = Box::new(alloc, no)?;
    Ok(Statement::If(test, yes, no))
}

#[cycle(block)]
#[tactic(auto, using(typing_expressions::proofs::Steps::answers_behind, typing_expressions::proofs::Steps::node_answers))]
fn while_statement(
    alloc: Global,
    test: &CExp,
    body: &Stmt,
    scope: &mut Scope,
    around: Around<'_>,
    at: usize,
) -> Result<Statement, TypeFault>
    ensures { Answers statement_of (scope_of scope.new) result
        (rules.statement (around_of around.entry)
        (tree.While at (view.exp_of test.now) (view.stmt_of body.now)) (scope_of scope.old)) }
{
    let test = value(alloc, test, scope)?;
    let body = statement(alloc, body, scope, inside_loop(around))?;
    at_node(at, while_of(alloc, test, body))
}

// The rule of a `while`.
fn while_of(alloc: Global, test: Expr, body: Statement) -> Result<Statement, Refusal>
    ensures { RulesAs statement_of result
        (rules.tested (expr_of test) (C.While (expr_of test) (statement_of body))) }
{
    is_test(&test)?;
    Ok(Statement::While(test, Box::new(alloc, body)?))
}

#[cycle(block)]
#[tactic(auto, using(typing_expressions::proofs::Steps::answers_behind, typing_expressions::proofs::Steps::node_answers))]
fn do_statement(
    alloc: Global,
    body: &Stmt,
    test: &CExp,
    scope: &mut Scope,
    around: Around<'_>,
    at: usize,
) -> Result<Statement, TypeFault>
    ensures { Answers statement_of (scope_of scope.new) result
        (rules.statement (around_of around.entry)
        (tree.Do at (view.stmt_of body.now) (view.exp_of test.now)) (scope_of scope.old)) }
{
    let number = do_while_number(scope)?;
    let body = statement(alloc, body, scope, inside_loop(around))?;
    let test = value(alloc, test, scope)?;
    at_node(at, do_while_of(alloc, number, body, test))
}

// The rule of a do-while.
fn do_while_of(
    alloc: Global,
    number: u64,
    body: Statement,
    test: Expr,
) -> Result<Statement, Refusal>
    ensures { RulesAs statement_of result
        (rules.tested (expr_of test) (C.DoWhile number (statement_of body) (expr_of test))) }
{
    is_test(&test)?;
    Ok(Statement::DoWhile(number, Box::new(alloc, body)?, test))
}

// The number of a do-while, before those inside.
fn do_while_number(scope: &mut Scope) -> Result<u64, TypeFault>
    ensures { Answers (λ n. n) (scope_of scope.new) result
        (rules.do_while_number (scope_of scope.old)) }
{
    let number = at_node(0, following(scope.progress.do_whiles))?;
    scope.progress.do_whiles = number;
    Ok(number)
}

// The head of a `for`.
#[derive(Clone, Copy)]
struct Head<'a> {
    start: &'a Start,
    test: &'a Option<CExp>,
    step: &'a Option<Simple>,
}

#[cycle(block)]
fn for_statement(
    alloc: Global,
    head: Head<'_>,
    body: &Stmt,
    scope: &mut Scope,
    around: Around<'_>,
    at: usize,
) -> Result<Statement, TypeFault>
    ensures { Answers statement_of (scope_of scope.new) result
        (rules.statement (around_of around.entry)
        (tree.For at (view.start_of head.entry.start.now)
        (option_map view.exp_of head.entry.test.now)
        (option_map view.simple_of head.entry.step.now) (view.stmt_of body.now))
        (scope_of scope.old)) }
{
    scope.open_block(alloc)?;
    let start = for_start(alloc, head.start, scope)?;
    let test = for_test(alloc, head.test, scope)?;
    let step = for_step(alloc, head.step, scope)?;
    let body = statement(alloc, body, scope, inside_loop(around))?;
    let repeated = at_node(at, repeated(alloc, start, test, step, body))?;
    scope.close_block();
    Ok(repeated)
}

fn for_start(alloc: Global, start: &Start, scope: &mut Scope) -> Result<Statements, TypeFault>
    ensures { Answers statements_of (scope_of scope.new) result
        (as_list (rules.start (view.start_of start.now)) (scope_of scope.old)) }
{
    let mut statements = Vec::new(alloc);
    add_start(alloc, start, scope, &mut statements)?;
    Ok(listed(alloc, statements)?)
}

// Adds the statements that a `for` begins with.
fn add_start(
    alloc: Global,
    start: &Start,
    scope: &mut Scope,
    statements: &mut Vec<Statement>,
) -> Result<(), TypeFault>
    ensures { Answers (λ _. map statement_of statements.new.items) (scope_of scope.new) result
        (behind (map statement_of statements.old.items) (rules.start (view.start_of start.now))
        (scope_of scope.old)) }
{
    match start {
        Start::None => Ok(()),
        Start::Local(l) => local(alloc, l, scope, statements),
        Start::Simple(s) => add_simple(alloc, s, scope, statements),
    }
}

fn add_simple(
    alloc: Global,
    s: &Simple,
    scope: &mut Scope,
    statements: &mut Vec<Statement>,
) -> Result<(), TypeFault>
    ensures { Answers (λ _. map statement_of statements.new.items) (scope_of scope.new) result
        (behind (map statement_of statements.old.items)
        (rules.start (tree.StartSimple (view.simple_of s.now))) (scope_of scope.old)) }
{
    statements.push(simple(alloc, s, scope)?)?;
    Ok(())
}

fn for_test(alloc: Global, test: &Option<CExp>, scope: &mut Scope) -> Result<Test, TypeFault>
    ensures { Answers test_of (scope_of scope.new) result
        (rules.loop_test (option_map view.exp_of test.now) (scope_of scope.old)) }
{
    match test {
        None => Ok(Test::Always),
        Some(e) => Ok(Test::Tested(value(alloc, e, scope)?)),
    }
}

fn for_step(alloc: Global, step: &Option<Simple>, scope: &mut Scope) -> Result<Statement, TypeFault>
    ensures { Answers statement_of (scope_of scope.new) result
        (rules.loop_step (option_map view.simple_of step.now) (scope_of scope.old)) }
{
    match step {
        None => Ok(Statement::Empty),
        Some(s) => simple(alloc, s, scope),
    }
}

fn is_loop_test(test: &Test) -> Result<(), Refusal>
    ensures { (s : C.Statement) → RulesAs (λ _. s) result (rules.loop_tested (test_of test.now) s) }
{
    match test {
        Test::Always => Ok(()),
        Test::Tested(e) => is_test(e),
    }
}

// The rule of a `for`.
fn repeated(
    alloc: Global,
    start: Statements,
    test: Test,
    step: Statement,
    body: Statement,
) -> Result<Statement, Refusal>
    ensures { RulesAs statement_of result
        (rules.loop_tested (test_of test)
        (C.For (statements_of start) (test_of test) (statement_of step) (statement_of body))) }
{
    is_loop_test(&test)?;
    let start = Box::new(alloc, start)?;
    let step = Box::new(alloc, step)?;
    let body = Box::new(alloc, body)?;
    Ok(Statement::For(start, test, step, body))
}
