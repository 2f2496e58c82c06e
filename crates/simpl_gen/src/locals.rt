//! The locals of a function: its parameters, those that it declares, and those that generation
//! adds.

ghost use Rattle.std.specs.Prelude.{◌≡◌, ◌++◌, ◌∷◌, [], map, string_bytes, OnOk, IfOk};
ghost use Rattle.std.specs.Option.{option_map};
ghost use Rattle.c_values.specs.CodeTypes.{target_of, int_type_of, type_of};
ghost use Rattle.c_values.specs.Types.{Integer};
ghost use Rattle.expression_lang.specs.Sort.{BoolKind};
ghost use Rattle.c_lang.specs.CodeTyped as typed;
ghost use Rattle.expression_lang.specs.CodeExpression.{kind_of, level_of};
ghost use Rattle.expression_lang.specs.CodeSignature.{binder_of};
ghost use Rattle.expression_lang.specs.Signature.{kind_at, binder};
ghost use Rattle.c_meaning.specs.Kinds as kinds;
ghost use Rattle.generation.specs.Generate as rules;
ghost use Rattle.simpl_gen.specs.CodeAdded.{added_of};

use crate::kinds::kind_at;
use crate::names::{
    call_local, exception_local, first_local, result_local, switch_local, thrown_local,
};
use c_lang::tree::{Groups, Statement, Statements, TypedFn, Use, Variable};
use c_values::{CType, IntType, Target};
use expression_lang::{Binder, Kind, Level};
use std::alloc::{AllocError, Global};

/// The locals that generation adds: of calls, of switches, and of do-whiles.
#[derive(Drop)]
pub(crate) struct Added {
    pub(crate) calls: Vec<Binder>,
    pub(crate) switches: Vec<Binder>,
    pub(crate) firsts: Vec<Binder>,
}

/// All locals of a function.
pub(crate) fn locals(
    alloc: Global,
    target: Target,
    level: Level,
    f: &TypedFn,
) -> Result<Vec<Binder>, AllocError>
    ensures { IfOk result
        (λ bs. map binder_of bs.items ≡ rules.locals (target_of target) (level_of level)
        (typed.function_of f.now)) }
{
    let mut added = Added {
        calls: Vec::new(alloc),
        switches: Vec::new(alloc),
        firsts: Vec::new(alloc),
    };
    add_in(alloc, target, level, &f.body, &mut added)?;
    let Added {
        calls,
        switches,
        firsts,
    } = added;
    let mut out = Vec::new(alloc);
    add_variables(target, level, &f.params, &mut out)?;
    add_variables(target, level, &f.locals, &mut out)?;
    add_result(alloc, target, level, &f.result, &mut out)?;
    add_binder(exception_local(alloc)?, Kind::Word(32), &mut out)?;
    add_all(calls, &mut out)?;
    add_all(switches, &mut out)?;
    add_all(firsts, &mut out)?;
    add_binder(thrown_local(alloc)?, Kind::Bool, &mut out)?;
    Ok(out)
}

fn add_binder(name: String, kind: Kind, out: &mut Vec<Binder>) -> Result<(), AllocError>
    ensures { OnOk result (map binder_of out.new.items
        ≡ map binder_of out.old.items ++ (binder (string_bytes name) (kind_of kind) ∷ [])) }
{
    Ok(out.push(Binder { name, kind })?)
}

fn add_all(binders: Vec<Binder>, out: &mut Vec<Binder>) -> Result<(), AllocError>
    ensures { OnOk result (map binder_of out.new.items ≡ map binder_of out.old.items
        ++ map binder_of binders.items) }
{
    let mut binders = binders;
    out.append(&mut binders)
}

/// Variables with their kinds.
pub(crate) fn add_variables(
    target: Target,
    level: Level,
    variables: &[Variable],
    out: &mut Vec<Binder>,
) -> Result<(), AllocError>
    ensures { OnOk result (map binder_of out.new.items
        ≡ map binder_of out.old.items ++ kinds.variables (target_of target) (level_of level)
        (map typed.variable_of variables.now)) }
{
    let mut rest = variables;
    'rest: while let Some((first, others)) = rest.split_first() {
        let kind = kind_at(target, level, &first.ty);
        add_binder(first.name.clone()?, kind, out)?;
        rest = others;
    }
    Ok(())
}

// Where a function's result is.
fn add_result(
    alloc: Global,
    target: Target,
    level: Level,
    ty: &Option<CType>,
    out: &mut Vec<Binder>,
) -> Result<(), AllocError>
    ensures { OnOk result (map binder_of out.new.items
        ≡ map binder_of out.old.items ++ rules.result_binder (target_of target) (level_of level)
        (option_map type_of ty.now)) }
{
    match ty {
        None => Ok(()),
        Some(ty) => add_binder(result_local(alloc)?, kind_at(target, level, ty), out),
    }
}

// Those that a statement adds.
#[cycle(locals)]
fn add_of(
    alloc: Global,
    target: Target,
    level: Level,
    s: &Statement,
    added: &mut Added,
) -> Result<(), AllocError>
    ensures { OnOk result (added_of added.new
        ≡ rules.both_added (added_of added.old)
        (rules.added (target_of target) (level_of level) (typed.statement_of s.now))) }
{
    match s {
        Statement::Empty
        | Statement::Declare(_, _)
        | Statement::Assign(_, _)
        | Statement::Break
        | Statement::Continue
        | Statement::ReturnNothing
        | Statement::Return(_) => Ok(()),
        Statement::Block(statements) => add_in(alloc, target, level, statements, added),
        Statement::Call(n, _, _, used) => add_call(alloc, target, level, *n, used, added),
        Statement::If(_, a, b) => {
            add_of(alloc, target, level, a, added)?;
            add_of(alloc, target, level, b, added)
        }
        Statement::While(_, body) => add_of(alloc, target, level, body, added),
        Statement::DoWhile(n, body, _) => {
            add_first(alloc, *n, added)?;
            add_of(alloc, target, level, body, added)
        }
        Statement::For(init, _, step, body) => {
            add_in(alloc, target, level, init, added)?;
            add_of(alloc, target, level, step, added)?;
            add_of(alloc, target, level, body, added)
        }
        Statement::Switch(n, ty, _, groups) => {
            add_switch(alloc, target, level, *n, *ty, added)?;
            add_groups(alloc, target, level, groups, added)
        }
    }
}

#[cycle(locals)]
fn add_in(
    alloc: Global,
    target: Target,
    level: Level,
    statements: &Statements,
    added: &mut Added,
) -> Result<(), AllocError>
    ensures { OnOk result (added_of added.new
        ≡ rules.both_added (added_of added.old)
        (rules.added_in (target_of target) (level_of level)
        (typed.statements_of statements.now))) }
{
    match statements {
        Statements::None => Ok(()),
        Statements::Next(first, rest) => {
            add_of(alloc, target, level, first, added)?;
            add_in(alloc, target, level, rest, added)
        }
    }
}

#[cycle(locals)]
fn add_groups(
    alloc: Global,
    target: Target,
    level: Level,
    groups: &Groups,
    added: &mut Added,
) -> Result<(), AllocError>
    ensures { OnOk result (added_of added.new
        ≡ rules.both_added (added_of added.old)
        (rules.added_of (target_of target) (level_of level) (typed.groups_of groups.now))) }
{
    match groups {
        Groups::None => Ok(()),
        Groups::Next(_, _, body, rest) => {
            add_in(alloc, target, level, body, added)?;
            add_groups(alloc, target, level, rest, added)
        }
    }
}

// The local of a call that has a result.
fn add_call(
    alloc: Global,
    target: Target,
    level: Level,
    n: u64,
    used: &Use,
    added: &mut Added,
) -> Result<(), AllocError>
    ensures { OnOk result (added_of added.new ≡ rules.both_added (added_of added.old)
        (record {
          calls = rules.use_binder (target_of target) (level_of level) n
              (typed.use_of used.now);
          switches = [];
          firsts = [];
        })) }
{
    match used {
        Use::NoResult => Ok(()),
        Use::Ignored(ty) | Use::Assigned(ty, _) | Use::Returned(ty, _) => {
            let kind = kind_at(target, level, ty);
            add_binder(call_local(alloc, n)?, kind, &mut added.calls)
        }
    }
}

// The local of a switch.
fn add_switch(
    alloc: Global,
    target: Target,
    level: Level,
    n: u64,
    ty: IntType,
    added: &mut Added,
) -> Result<(), AllocError>
    ensures { OnOk result (added_of added.new ≡ rules.both_added (added_of added.old)
        (record {
          calls = [];
          switches = binder (rules.switch_local n)
              (kind_at (target_of target) (level_of level) (Integer (int_type_of ty))) ∷ [];
          firsts = [];
        })) }
{
    let kind = kind_at(target, level, &CType::Int(ty));
    add_binder(switch_local(alloc, n)?, kind, &mut added.switches)
}

// The local of a do-while.
fn add_first(alloc: Global, n: u64, added: &mut Added) -> Result<(), AllocError>
    ensures { OnOk result (added_of added.new ≡ rules.both_added (added_of added.old)
        (record {
          calls = [];
          switches = [];
          firsts = binder (rules.first_local n) BoolKind ∷ [];
        })) }
{
    add_binder(first_local(alloc, n)?, Kind::Bool, &mut added.firsts)
}
