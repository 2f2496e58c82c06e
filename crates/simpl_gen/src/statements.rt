//! The command of a statement. It nests as deep as the statements of the text, and along a list of
//! them.

ghost use Rattle.std.specs.Prelude.{◌≡◌, IfOk};
ghost use Rattle.c_values.specs.CodeTypes.{int_type_of};
ghost use Rattle.c_lang.specs.CodeTyped as typed;
ghost use Rattle.expression_lang.specs.CodeExpression.{level_of};
ghost use Rattle.simpl_lang.specs.Command.{Set, Seq, Cond};
ghost use Rattle.simpl_lang.specs.Exec.{result_local};
ghost use Rattle.simpl_lang.specs.CodeCommand.{simpl_of};
ghost use Rattle.generation.specs.Guards.{guards, truth, exp};
ghost use Rattle.generation.specs.Generate as rules;

use crate::assignments::assign;
use crate::calls::call;
use crate::commands::{conditional, pick, sequence, set, skip, with_guards};
use crate::jumps::{Jump, jump_out};
use crate::loops::{do_while, for_loop, while_loop};
use crate::names::result_local;
use crate::switches::{is_one_of, switch};
use c_lang::tree::{Expr, Groups, Statement, Statements};
use c_values::{IntType, Layout};
use expression_lang::Level;
use simpl_expressions::{add_guards, truth, value};
use simpl_lang::Simpl;
use std::alloc::{AllocError, Global};

#[cycle(statements)]
pub(crate) fn command(
    alloc: Global,
    l: &Layout,
    level: Level,
    s: &Statement,
) -> Result<Box<Simpl>, AllocError>
    ensures { IfOk result
        (λ c. simpl_of c.value ≡ rules.command l.now (level_of level) (typed.statement_of s.now)) }
{
    match s {
        Statement::Empty => skip(alloc),
        Statement::Block(statements) => commands(alloc, l, level, statements),
        Statement::Declare(name, _) => pick(alloc, name.clone()?),
        Statement::Assign(target, e) => assign(alloc, l, level, target, e),
        Statement::Call(n, function, arguments, used) => {
            call(alloc, l, level, *n, function, arguments, used)
        }
        Statement::If(e, a, b) => {
            let a = command(alloc, l, level, a)?;
            let b = command(alloc, l, level, b)?;
            choice(alloc, l, level, e, a, b)
        }
        Statement::While(e, body) => {
            let body = command(alloc, l, level, body)?;
            while_loop(alloc, l, level, e, body)
        }
        Statement::DoWhile(n, body, e) => {
            let body = command(alloc, l, level, body)?;
            do_while(alloc, l, level, *n, e, body)
        }
        Statement::For(init, test, step, body) => {
            let step = command(alloc, l, level, step)?;
            let body = command(alloc, l, level, body)?;
            let turns = for_loop(alloc, l, level, test, step, body)?;
            before(alloc, l, level, init, turns)
        }
        Statement::Switch(n, ty, e, groups) => {
            let otherwise = default_of(alloc, l, level, groups)?;
            let groups = cases(alloc, l, level, *n, *ty, groups, otherwise)?;
            switch(alloc, l, level, *n, e, groups)
        }
        Statement::Break => jump_out(alloc, Jump::Break),
        Statement::Continue => jump_out(alloc, Jump::Continue),
        Statement::ReturnNothing => jump_out(alloc, Jump::Return),
        Statement::Return(e) => return_value(alloc, l, level, e),
    }
}

// `if (e) a else b`
fn choice(
    alloc: Global,
    l: &Layout,
    level: Level,
    e: &Expr,
    a: Box<Simpl>,
    b: Box<Simpl>,
) -> Result<Box<Simpl>, AllocError>
    ensures { IfOk result
        (λ c. simpl_of c.value ≡ rules.guarded (guards l.now (level_of level) (typed.expr_of e.now))
        (Cond (truth l.now (typed.expr_of e.now)) (simpl_of a.value) (simpl_of b.value))) }
{
    let mut guards = Vec::new(alloc);
    add_guards(alloc, l, level, e, &mut guards)?;
    let test = truth(alloc, l, e)?;
    let choice = conditional(alloc, test, a, b)?;
    with_guards(alloc, guards, choice)
}

// `return e;`
fn return_value(alloc: Global, l: &Layout, level: Level, e: &Expr) -> Result<Box<Simpl>, AllocError>
    ensures { IfOk result
        (λ c. simpl_of c.value ≡ rules.guarded (guards l.now (level_of level) (typed.expr_of e.now))
        (Seq (Set result_local (exp l.now (typed.expr_of e.now))) (rules.jump rules.returned))) }
{
    let mut guards = Vec::new(alloc);
    add_guards(alloc, l, level, e, &mut guards)?;
    let result = set(alloc, result_local(alloc)?, value(alloc, l, e)?)?;
    let jump = jump_out(alloc, Jump::Return)?;
    let returned = sequence(alloc, result, jump)?;
    with_guards(alloc, guards, returned)
}

/// The commands of statements in their order.
#[cycle(statements)]
pub(crate) fn commands(
    alloc: Global,
    l: &Layout,
    level: Level,
    statements: &Statements,
) -> Result<Box<Simpl>, AllocError>
    ensures { IfOk result
        (λ c. simpl_of c.value
        ≡ rules.commands l.now (level_of level) (typed.statements_of statements.now)) }
{
    match statements {
        Statements::None => skip(alloc),
        Statements::Next(first, rest) => {
            let first = command(alloc, l, level, first)?;
            match &**rest {
                Statements::None => Ok(first),
                Statements::Next(_, _) => {
                    let rest = commands(alloc, l, level, rest)?;
                    sequence(alloc, first, rest)
                }
            }
        }
    }
}

// What a `for` does first, and then the loop.
#[cycle(statements)]
fn before(
    alloc: Global,
    l: &Layout,
    level: Level,
    init: &Statements,
    turns: Box<Simpl>,
) -> Result<Box<Simpl>, AllocError>
    ensures { IfOk result
        (λ c. simpl_of c.value ≡ rules.before l.now (level_of level) (typed.statements_of init.now)
        (simpl_of turns.value)) }
{
    match init {
        Statements::None => Ok(turns),
        Statements::Next(first, rest) => {
            let first = command(alloc, l, level, first)?;
            let rest = before(alloc, l, level, rest, turns)?;
            sequence(alloc, first, rest)
        }
    }
}

// The groups that have case labels alone, and what runs where no label fits.
#[cycle(statements)]
fn cases(
    alloc: Global,
    l: &Layout,
    level: Level,
    n: u64,
    ty: IntType,
    groups: &Groups,
    otherwise: Box<Simpl>,
) -> Result<Box<Simpl>, AllocError>
    ensures { IfOk result (λ c. simpl_of c.value ≡ rules.cases (simpl_of otherwise.value)
        (rules.cases_of l.now (level_of level) n (int_type_of ty) (typed.groups_of groups.now))) }
{
    match groups {
        Groups::None => Ok(otherwise),
        Groups::Next(labels, is_default, body, rest) => {
            let others = cases(alloc, l, level, n, ty, rest, otherwise)?;
            if *is_default {
                return Ok(others);
            }
            let test = is_one_of(alloc, l.target(), ty, n, labels)?;
            let body = commands(alloc, l, level, body)?;
            conditional(alloc, test, body, others)
        }
    }
}

// What runs where no label fits.
#[cycle(statements)]
fn default_of(
    alloc: Global,
    l: &Layout,
    level: Level,
    groups: &Groups,
) -> Result<Box<Simpl>, AllocError>
    ensures { IfOk result
        (λ c. simpl_of c.value ≡ rules.default_of l.now (level_of level)
        (typed.groups_of groups.now)) }
{
    match groups {
        Groups::None => skip(alloc),
        Groups::Next(_, is_default, body, rest) => {
            if *is_default {
                commands(alloc, l, level, body)
            } else {
                default_of(alloc, l, level, rest)
            }
        }
    }
}
