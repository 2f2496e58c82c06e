//! Names, and expressions of names.

ghost use Rattle.std.specs.Prelude.{◌≡◌, map, string_bytes, IfOk, if◌then◌else◌};
ghost use Rattle.c_values.specs.Name.{same_name};
ghost use Rattle.expression_lang.specs.Expression.{Var, And};
ghost use Rattle.expression_lang.specs.CodeExpression.{exp_of, kind_of};
ghost use Rattle.expression_lang.specs.CodeSignature.{binder_of};
ghost use Rattle.simpl_lang.specs.Command as plain;
ghost use Rattle.simpl_lang.specs.CodeCommand.{condition_of};
ghost use Rattle.monad_lang.specs.CodeProgram.{start_of};
ghost use Rattle.rule_local.specs.Table.{vars, vars_with, as_starts, conj, word_kind, picked_kind};
ghost use Rattle.rule_local.specs.Lifted.{kind_there};
ghost use Rattle.local_lift.specs.CodeLists.{carried_in};

use crate::rows::Row;
use expression_lang::{Binder, Exp, Kind, boxed};
use monad_lang::Start;
use simpl_lang::Condition;
use std::alloc::{AllocError, Global};

/// The names as expressions.
#[tactic(auto, using(crate::proofs::ListLaws::mapped_push))]
pub(crate) fn vars(alloc: Global, names: &[String]) -> Result<Vec<Exp>, AllocError>
    ensures { IfOk result (λ exps. map exp_of exps.items ≡ vars (map string_bytes names.now)) }
{
    let mut exps = Vec::new(alloc);
    let mut rest = names;
    'along: while let Some((name, others)) = rest.split_first() {
        exps.push(Exp::Var(name.clone()?))?;
        rest = others;
    }
    Ok(exps)
}

// A name, or the value where the name is the one that takes it.
fn var_with(alloc: Global, taking: &str, value: &Exp, name: &String) -> Result<Exp, AllocError>
    ensures { IfOk result (λ e. exp_of e
        ≡ (if same_name taking.now (string_bytes name.now) then exp_of value.now else Var
        (string_bytes name.now))) }
{
    if taking == name.as_str() {
        value.copy(alloc)
    } else {
        Ok(Exp::Var(name.clone()?))
    }
}

/// The names as expressions, with the value for the one that takes it.
#[tactic(auto, using(crate::proofs::ListLaws::mapped_push))]
pub(crate) fn vars_with(
    alloc: Global,
    taking: &str,
    value: &Exp,
    names: &[String],
) -> Result<Vec<Exp>, AllocError>
    ensures { IfOk result (λ exps. map exp_of exps.items
        ≡ vars_with taking.now (exp_of value.now) (map string_bytes names.now)) }
{
    let mut exps = Vec::new(alloc);
    let mut rest = names;
    'along: while let Some((name, others)) = rest.split_first() {
        exps.push(var_with(alloc, taking, value, name)?)?;
        rest = others;
    }
    Ok(exps)
}

fn start_of_name(name: &String) -> Result<Start, AllocError>
    ensures { IfOk result (λ s.
        start_of s ≡ record { name = string_bytes name.now; exp = Var (string_bytes name.now) }) }
{
    let exp = Exp::Var(name.clone()?);
    Ok(Start {
        name: name.clone()?,
        exp,
    })
}

/// Starts from what the names hold.
#[tactic(auto, using(crate::proofs::ListLaws::mapped_push))]
pub(crate) fn starts(alloc: Global, names: &[String]) -> Result<Vec<Start>, AllocError>
    ensures { IfOk result (λ starts.
        map start_of starts.items ≡ as_starts (map string_bytes names.now)) }
{
    let mut starts = Vec::new(alloc);
    let mut rest = names;
    'along: while let Some((name, others)) = rest.split_first() {
        starts.push(start_of_name(name)?)?;
        rest = others;
    }
    Ok(starts)
}

/// The conditions as one.
pub(crate) fn conjunction(alloc: Global, conditions: &[Condition]) -> Result<Box<Exp>, AllocError>
    ensures { IfOk result (λ e. exp_of e.value ≡ conj (map condition_of conditions.now)) }
{
    let Some((last, first)) = conditions.split_last() else {
        return boxed(alloc, Exp::Truth(true));
    };
    let mut whole = last.exp.boxed_copy(alloc)?;
    let mut rest = first;
    'back: while let Some((condition, others)) = rest.split_last() {
        whole = both(alloc, &condition.exp, whole)?;
        rest = others;
    }
    Ok(whole)
}

fn both(alloc: Global, first: &Exp, last: Box<Exp>) -> Result<Box<Exp>, AllocError>
    ensures { IfOk result (λ e. exp_of e.value ≡ And (exp_of first.now) (exp_of last.value)) }
{
    let first = first.boxed_copy(alloc)?;
    boxed(alloc, Exp::And(first, last))
}

/// The locals of a row that are assigned.
#[tactic(auto, using(crate::proofs::ListLaws::mapped_push, crate::proofs::ListLaws::carried_here, crate::proofs::ListLaws::carried_later))]
pub(crate) fn carried(
    alloc: Global,
    locals: &[Binder],
    assigned: &Row,
    row: &Row,
) -> Result<Vec<String>, AllocError>
    ensures { IfOk result (λ names. map string_bytes names.items
        ≡ carried_in locals.now assigned.now.flags.items row.now.flags.items) }
{
    let mut names = Vec::new(alloc);
    let mut left = locals;
    let mut middle = assigned.flags.as_slice();
    let mut right = row.flags.as_slice();
    'along: while let Some((local, others)) = left.split_first() {
        let Some((is_assigned, more)) = middle.split_first() else {
            return Ok(names);
        };
        let Some((flag, rest)) = right.split_first() else {
            return Ok(names);
        };
        if *is_assigned && *flag {
            names.push(local.name.clone()?)?;
        }
        left = others;
        middle = more;
        right = rest;
    }
    Ok(names)
}

// The kind of what a local of a kind holds: a word or a truth value.
fn held_kind(kind: Kind) -> Kind
    ensures { kind_of result ≡ word_kind (kind_of kind) }
{
    match kind {
        Kind::Word(width) | Kind::Nat(width) | Kind::Int(width) => Kind::Word(width),
        Kind::Bool => Kind::Bool,
    }
}

/// The kind of what a local holds.
pub(crate) fn kind_held(locals: &[Binder], name: &str) -> Kind
    ensures { kind_of result
        ≡ kind_there (picked_kind (plain.kind_of (map binder_of locals.now) name.now)) }
{
    let mut rest = locals;
    'along: while let Some((local, others)) = rest.split_first() {
        if local.name.as_str() == name {
            return held_kind(local.kind);
        }
        rest = others;
    }
    Kind::Bool
}
