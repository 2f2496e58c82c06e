//! Commands planned: what is found of their parts, from the parts without parts up.

ghost use Rattle.std.specs.Prelude.{◌≡◌, List, map, string_bytes, IfOk};
ghost use Rattle.std.specs.Option.{option_map};
ghost use Rattle.expression_lang.specs.CodeExpression.{exp_of};
ghost use Rattle.expression_lang.specs.declared.signatures.Binder as B;
ghost use Rattle.simpl_lang.specs.Command as plain;
ghost use Rattle.simpl_lang.specs.CodeCommand.{condition_of, simpl_of};
ghost use Rattle.simpl_lang.specs.Names.{is_target};
ghost use Rattle.local_lift.specs.CodeNames.{names};
ghost use Rattle.local_lift.specs.CodePlan.{around, command_of, AreRight, IsRight, IsAlone, IsAssigned, IsLast, IsPlanned, IsTurns, AssignedBeside};
ghost use Rattle.local_lift.specs.CodeRows.{marks};

use crate::changes::{reached, single_rows};
use crate::liveness::lived;
use crate::names::{IsNamedByTurn, IsNone, IsSet};
use crate::plan::{Fronts, Plan, Turns, boxed, boxed_fronts, boxed_turns};
use crate::rows::{Row, copy_of_row, either, row_of};
use expression_lang::{Binder, Exp};
use simpl_lang::{Condition, Simpl};
use std::alloc::{AllocError, Global};

/// A plan, and the locals that its command assigns.
#[derive(Drop)]
pub(crate) struct Planned<'a> {
    pub(crate) plan: Box<Plan<'a>>,
    pub(crate) assigned: Row,
}

/// A command planned. It goes along the last parts by a loop, since a text may have long sequences.
#[cycle(plan_of)]
pub(crate) fn plan_of<'a>(
    alloc: Global,
    locals: &[Binder],
    c: &'a Simpl,
) -> Result<Planned<'a>, AllocError>
    ensures { IfOk result (λ p. IsPlanned locals.now p (simpl_of c.now)) }
{
    match c {
        Simpl::Seq(_, _) | Simpl::Guard(_, _) => planned_spine(alloc, locals, c),
        _ => planned_last(alloc, locals, c),
    }
}

#[cycle(plan_of)]
#[inline(never)]
fn planned_spine<'a>(
    alloc: Global,
    locals: &[Binder],
    c: &'a Simpl,
) -> Result<Planned<'a>, AllocError>
    ensures { IfOk result (λ p. IsPlanned locals.now p (simpl_of c.now)) }
{
    let mut fronts = boxed_fronts(alloc, Fronts::None)?;
    let mut assigned = row_of(alloc, locals, &IsNone)?;
    let mut rest = c;
    'along: loop {
        match rest {
            Simpl::Seq(first, last) => {
                let part = plan_of(alloc, locals, first)?;
                assigned = either(alloc, &assigned, &part.assigned)?;
                fronts = boxed_fronts(alloc, Fronts::Seq(part.plan, part.assigned, fronts))?;
                rest = &**last;
            }
            Simpl::Guard(condition, last) => {
                fronts = boxed_fronts(alloc, Fronts::Guard(condition, fronts))?;
                rest = &**last;
            }
            _ => {
                let last = planned_last(alloc, locals, rest)?;
                return behind(alloc, fronts, &assigned, last);
            }
        }
    }
}

// A last part behind what stands before it, which assigns these.
#[inline(never)]
fn behind<'a>(
    alloc: Global,
    fronts: Box<Fronts<'a>>,
    before: &Row,
    last: Planned<'a>,
) -> Result<Planned<'a>, AllocError>
    ensures { IfOk result (λ p. (bs : List B.Binder) (c whole : plain.Simpl) →
        AreRight bs fronts.entry.value → IsPlanned bs last.entry c →
        around fronts.entry.value c ≡ whole → AssignedBeside bs c whole before.now.flags.items →
        IsPlanned bs p whole) }
{
    let assigned = either(alloc, before, &last.assigned)?;
    let plan = boxed(alloc, Plan::Behind(fronts, last.plan))?;
    Ok(Planned { plan, assigned })
}

#[cycle(plan_of)]
fn planned_last<'a>(
    alloc: Global,
    locals: &[Binder],
    c: &'a Simpl,
) -> Result<Planned<'a>, AllocError>
    requires { IsLast (simpl_of c.now) }
    ensures { IfOk result (λ p. IsPlanned locals.now p (simpl_of c.now)) }
{
    match c {
        Simpl::Cond(test, first, second) => planned_choice(alloc, locals, test, first, second),
        Simpl::Catch(first, second) => planned_catch(alloc, locals, first, second),
        Simpl::While(conditions, test, body) => {
            planned_loop(alloc, locals, conditions, test, body)
        }
        _ => planned_alone(alloc, locals, c),
    }
}

// The locals to which a result goes.
fn row_of_target(
    alloc: Global,
    locals: &[Binder],
    target: &Option<String>,
) -> Result<Row, AllocError>
    ensures { IfOk result (λ row. row.flags.items
        ≡ marks (λ y. is_target y (option_map string_bytes target.now)) locals.now) }
{
    match target {
        Some(name) => {
            let name = name.as_str();
            row_of(alloc, locals, &IsSet { name })
        }
        None => row_of(alloc, locals, &IsNone),
    }
}

// The locals that a command without parts assigns.
fn assigned_alone(alloc: Global, locals: &[Binder], c: &Simpl) -> Result<Row, AllocError>
    requires { IsAlone (simpl_of c.now) }
    ensures { IfOk result (λ row. IsAssigned locals.now (simpl_of c.now) row.flags.items) }
{
    match c {
        Simpl::Set(name, _) | Simpl::Pick(name) => {
            let name = name.as_str();
            row_of(alloc, locals, &IsSet { name })
        }
        Simpl::Call(target, _, _) => row_of_target(alloc, locals, target),
        _ => row_of(alloc, locals, &IsNone),
    }
}

#[inline(never)]
fn planned_alone<'a>(
    alloc: Global,
    locals: &[Binder],
    c: &'a Simpl,
) -> Result<Planned<'a>, AllocError>
    requires { IsAlone (simpl_of c.now) }
    ensures { IfOk result (λ p. IsPlanned locals.now p (simpl_of c.now)) }
{
    let assigned = assigned_alone(alloc, locals, c)?;
    let plan = boxed(alloc, Plan::Alone(c))?;
    Ok(Planned { plan, assigned })
}

#[cycle(plan_of)]
#[inline(never)]
fn planned_choice<'a>(
    alloc: Global,
    locals: &[Binder],
    test: &'a Exp,
    first: &'a Simpl,
    second: &'a Simpl,
) -> Result<Planned<'a>, AllocError>
    ensures { IfOk result (λ p. IsPlanned locals.now p
        (plain.Cond (exp_of test.now) (simpl_of first.now) (simpl_of second.now))) }
{
    let yes = plan_of(alloc, locals, first)?;
    let no = plan_of(alloc, locals, second)?;
    choice(alloc, test, yes, no)
}

#[inline(never)]
fn choice<'a>(
    alloc: Global,
    test: &'a Exp,
    first: Planned<'a>,
    second: Planned<'a>,
) -> Result<Planned<'a>, AllocError>
    ensures { IfOk result (λ p. (bs : List B.Binder) (a b : plain.Simpl) →
        IsPlanned bs first.entry a → IsPlanned bs second.entry b →
        IsPlanned bs p (plain.Cond (exp_of test.now) a b)) }
{
    let assigned = either(alloc, &first.assigned, &second.assigned)?;
    let plan = boxed(alloc, Plan::Cond(test, first.plan, second.plan))?;
    Ok(Planned { plan, assigned })
}

#[cycle(plan_of)]
#[inline(never)]
fn planned_catch<'a>(
    alloc: Global,
    locals: &[Binder],
    first: &'a Simpl,
    second: &'a Simpl,
) -> Result<Planned<'a>, AllocError>
    ensures { IfOk result (λ p. IsPlanned locals.now p
        (plain.Catch (simpl_of first.now) (simpl_of second.now))) }
{
    let part = plan_of(alloc, locals, first)?;
    let handler = plan_of(alloc, locals, second)?;
    caught(alloc, part, handler)
}

#[inline(never)]
fn caught<'a>(
    alloc: Global,
    first: Planned<'a>,
    second: Planned<'a>,
) -> Result<Planned<'a>, AllocError>
    ensures { IfOk result (λ p. (bs : List B.Binder) (a b : plain.Simpl) →
        IsPlanned bs first.entry a → IsPlanned bs second.entry b →
        IsPlanned bs p (plain.Catch a b)) }
{
    let assigned = either(alloc, &first.assigned, &second.assigned)?;
    let plan = boxed(alloc, Plan::Catch(first.plan, second.plan))?;
    Ok(Planned { plan, assigned })
}

#[cycle(plan_of)]
#[inline(never)]
fn planned_loop<'a>(
    alloc: Global,
    locals: &[Binder],
    conditions: &'a [Condition],
    test: &'a Exp,
    body: &'a Simpl,
) -> Result<Planned<'a>, AllocError>
    ensures { IfOk result (λ p. IsPlanned locals.now p
        (plain.While (map condition_of conditions.now) (exp_of test.now) (simpl_of body.now))) }
{
    let part = plan_of(alloc, locals, body)?;
    in_turns(alloc, locals, conditions, test, part)
}

#[inline(never)]
fn in_turns<'a>(
    alloc: Global,
    locals: &[Binder],
    conditions: &'a [Condition],
    test: &'a Exp,
    body: Planned<'a>,
) -> Result<Planned<'a>, AllocError>
    requires { IsRight locals.now body.plan.value }
    ensures { IfOk result (λ p. (a : plain.Simpl) → IsPlanned locals.now body.entry a →
        IsPlanned locals.now p (plain.While (map condition_of conditions.now)
        (exp_of test.now) a)) }
{
    let turns = turns_of(alloc, locals, conditions, test, &body.plan)?;
    let assigned = copy_of_row(alloc, &body.assigned)?;
    let plan = boxed(
        alloc,
        Plan::While(conditions, test, body.plan, body.assigned, turns),
    )?;
    Ok(Planned { plan, assigned })
}

// What is found of a loop's turns.
fn turns_of(
    alloc: Global,
    locals: &[Binder],
    conditions: &[Condition],
    test: &Exp,
    body: &Plan<'_>,
) -> Result<Box<Turns>, AllocError>
    requires { IsRight locals.now body.now }
    ensures { IfOk result (λ turns. IsTurns locals.now (map condition_of conditions.now)
        (exp_of test.now) (command_of body.now) turns.value) }
{
    let singles = single_rows(alloc, locals)?;
    let mut leads = lived(alloc, locals, body, singles)?;
    let Some(of_none) = leads.pop() else {
        unreachable!();
    };
    let named = row_of(alloc, locals, &IsNamedByTurn { conditions, test })?;
    let own = either(alloc, &named, &of_none)?;
    let steps = reached(alloc, locals, leads)?;
    boxed_turns(alloc, Turns { steps, own })
}
