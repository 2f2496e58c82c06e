//! Commands lifted to programs.

ghost use Rattle.std.specs.Prelude.{◌≡◌, List, map, string_bytes, IfOk};
ghost use Rattle.c_values.specs.Name.{Name};
ghost use Rattle.expression_lang.specs.Expression as expressions;
ghost use Rattle.expression_lang.specs.CodeExpression.{exp_of};
ghost use Rattle.expression_lang.specs.CodeSignature.{binder_of};
ghost use Rattle.expression_lang.specs.Mentions as mentions;
ghost use Rattle.simpl_lang.specs.Command as plain;
ghost use Rattle.simpl_lang.specs.CodeCommand.{condition_of, simpl_of};
ghost use Rattle.local_lift.specs.Live.{live};
ghost use Rattle.local_lift.specs.LiftedByLive.{among, by_live};
ghost use Rattle.local_lift.specs.CodeLifted.{lifted_of, IsLifted};
ghost use Rattle.local_lift.specs.CodeLists.{carried_in};
ghost use Rattle.local_lift.specs.CodeNames.{names};
ghost use Rattle.local_lift.specs.CodePlan.{around, command_of, AreRight, IsAlone, IsAssigned, IsRight, IsTurns};
ghost use Rattle.local_lift.specs.CodeRows.{marks, RowMoves, adding};
ghost use Rattle.expression_lang.specs.declared.signatures.Binder as B;

use crate::changes::spread;
use crate::lifted::{
    Lifted, called, global_set, guarded, in_sequence, looped, nothing, picked, set, stored, tested,
};
use crate::lists::carried;
use crate::liveness::lived_alone;
use crate::names::{IsNamed, IsOutput};
use crate::plan::{Fronts, Plan, Turns};
use crate::rows::{Row, either, past, row_of};
use expression_lang::{Binder, Exp};
use simpl_lang::{Condition, Simpl};
use std::alloc::{AllocError, Global};

/// What a command is lifted to, and the locals that are live before it.
#[derive(Drop)]
pub(crate) struct LiftedFrom {
    pub(crate) lifted: Lifted,
    pub(crate) before: Row,
}

// The row before a command without parts.
fn row_before(alloc: Global, locals: &[Binder], c: &Simpl, row: Row) -> Result<Row, AllocError>
    requires { IsAlone (simpl_of c.now) }
    ensures { IfOk result (λ before. RowMoves locals.now
        (live (names locals.now) (simpl_of c.now)) row.flags.items before.flags.items) }
{
    let mut rows = Vec::new(alloc);
    rows.push(row)?;
    let mut before = lived_alone(alloc, locals, c, rows)?;
    match before.pop() {
        Some(only) => Ok(only),
        None => unreachable!(),
    }
}

// The row before an expression is looked at.
fn row_before_exp(alloc: Global, locals: &[Binder], exp: &Exp, row: &Row) -> Result<Row, AllocError>
    ensures { IfOk result (λ before. RowMoves locals.now
        (adding (λ y. mentions.names y (exp_of exp.now))) row.now.flags.items before.flags.items) }
{
    let named = row_of(alloc, locals, &IsNamed { exp })?;
    let before = either(alloc, &named, row)?;
    Ok(before)
}

/// What a command is lifted to. It goes back along the first parts by a loop, since a text may have
/// long sequences.
#[cycle(lift)]
pub(crate) fn lift(
    alloc: Global,
    locals: &[Binder],
    plan: &Plan<'_>,
    outputs: &[String],
) -> Result<LiftedFrom, AllocError>
    requires { IsRight locals.now plan.now }
    ensures { IfOk result (λ l.
        IsLifted locals.now (command_of plan.now) (map string_bytes outputs.now) l) }
{
    match plan {
        Plan::Alone(c) => lift_alone(alloc, locals, c, outputs),
        Plan::Cond(test, first, second) => {
            lift_choice(alloc, locals, test, first, second, outputs)
        }
        Plan::Catch(first, _) => lift(alloc, locals, first, outputs),
        Plan::While(conditions, test, body, assigned, turns) => {
            lift_loop(
                alloc, locals, conditions, test, body, assigned, turns, outputs,
            )
        }
        Plan::Behind(fronts, last) => lift_behind(alloc, locals, fronts, last, outputs),
    }
}

#[inline(never)]
fn lift_alone(
    alloc: Global,
    locals: &[Binder],
    c: &Simpl,
    outputs: &[String],
) -> Result<LiftedFrom, AllocError>
    requires { IsAlone (simpl_of c.now) }
    ensures { IfOk result (λ l.
        IsLifted locals.now (simpl_of c.now) (map string_bytes outputs.now) l) }
{
    let after = row_of(alloc, locals, &IsOutput { outputs })?;
    let before = row_before(alloc, locals, c, after)?;
    let lifted = lifted_alone(alloc, locals, c, outputs)?;
    Ok(LiftedFrom { lifted, before })
}

fn lifted_alone(
    alloc: Global,
    locals: &[Binder],
    c: &Simpl,
    outputs: &[String],
) -> Result<Lifted, AllocError>
    requires { IsAlone (simpl_of c.now) }
    ensures { IfOk result (λ l. lifted_of l
        ≡ by_live (map binder_of locals.now) (simpl_of c.now) (map string_bytes outputs.now)) }
{
    match c {
        Simpl::Skip => nothing(alloc, outputs),
        Simpl::Throw => nothing(alloc, outputs),
        Simpl::Set(name, value) => set(alloc, name.as_str(), value, outputs),
        Simpl::SetGlobal(name, path, value) => global_set(alloc, name, path, value, outputs),
        Simpl::Store(ty, pointer, path, value) => stored(alloc, ty, pointer, path, value, outputs),
        Simpl::Pick(name) => picked(alloc, locals, name, outputs),
        Simpl::Call(target, function, arguments) => {
            called(alloc, target, function, arguments, outputs)
        }
        _ => unreachable!(),
    }
}

#[cycle(lift)]
#[inline(never)]
fn lift_choice(
    alloc: Global,
    locals: &[Binder],
    test: &Exp,
    first: &Plan<'_>,
    second: &Plan<'_>,
    outputs: &[String],
) -> Result<LiftedFrom, AllocError>
    requires first { IsRight locals.now first.now }
    requires second { IsRight locals.now second.now }
    ensures { IfOk result (λ l. IsLifted locals.now
        (plain.Cond (exp_of test.now) (command_of first.now) (command_of second.now))
        (map string_bytes outputs.now) l) }
{
    let yes = lift(alloc, locals, first, outputs)?;
    let no = lift(alloc, locals, second, outputs)?;
    chosen(alloc, locals, test, yes, no)
}

// A choice, from what follows each way.
#[inline(never)]
fn chosen(
    alloc: Global,
    locals: &[Binder],
    test: &Exp,
    yes: LiftedFrom,
    no: LiftedFrom,
) -> Result<LiftedFrom, AllocError>
    ensures { IfOk result (λ l. (a b : plain.Simpl) (vs : List Name) →
        IsLifted locals.now a vs yes → IsLifted locals.now b vs no →
        IsLifted locals.now (plain.Cond (exp_of test.now) a b) vs l) }
{
    let tested_first = row_before_exp(alloc, locals, test, &yes.before)?;
    let before = either(alloc, &tested_first, &no.before)?;
    let lifted = tested(alloc, test, yes.lifted, no.lifted)?;
    Ok(LiftedFrom { lifted, before })
}

// The row before a loop.
#[inline(never)]
fn row_before_loop(
    alloc: Global,
    locals: &[Binder],
    turns: &Turns,
    outputs: &[String],
) -> Result<Row, AllocError>
    ensures { IfOk result (λ before. (gs : List plain.Condition) (e : expressions.Exp)
        (a : plain.Simpl) →
        IsTurns locals.now gs e a turns.now → before.flags.items
        ≡ marks (live (names locals.now) (plain.While gs e a)
        (among (map string_bytes outputs.now)))
        locals.now) }
{
    let after = row_of(alloc, locals, &IsOutput { outputs })?;
    spread(alloc, turns.steps.as_slice(), &turns.own, &after)
}

#[cycle(lift)]
#[inline(never)]
fn lift_loop(
    alloc: Global,
    locals: &[Binder],
    conditions: &[Condition],
    test: &Exp,
    body: &Plan<'_>,
    assigned: &Row,
    turns: &Turns,
    outputs: &[String],
) -> Result<LiftedFrom, AllocError>
    requires body { IsRight locals.now body.now }
    requires assigned { IsAssigned locals.now (command_of body.now) assigned.now.flags.items }
    requires turns { IsTurns locals.now (map condition_of conditions.now) (exp_of test.now)
        (command_of body.now) turns.now }
    ensures { IfOk result (λ l. IsLifted locals.now
        (plain.While (map condition_of conditions.now) (exp_of test.now) (command_of body.now))
        (map string_bytes outputs.now) l) }
{
    let before = row_before_loop(alloc, locals, turns, outputs)?;
    let names = carried(alloc, locals, assigned, &before)?;
    let part = lift(alloc, locals, body, names.as_slice())?;
    let lifted = looped(alloc, conditions, test, names, part.lifted, outputs)?;
    Ok(LiftedFrom { lifted, before })
}

#[cycle(lift)]
#[inline(never)]
fn lift_behind(
    alloc: Global,
    locals: &[Binder],
    fronts: &Fronts<'_>,
    last: &Plan<'_>,
    outputs: &[String],
) -> Result<LiftedFrom, AllocError>
    requires fronts { AreRight locals.now fronts.now }
    requires last { IsRight locals.now last.now }
    ensures { IfOk result (λ l. IsLifted locals.now (around fronts.now (command_of last.now))
        (map string_bytes outputs.now) l) }
{
    let mut whole = lift(alloc, locals, last, outputs)?;
    let mut rest = fronts;
    'back: loop {
        match rest {
            Fronts::None => return Ok(whole),
            Fronts::Seq(first, assigned, others) => {
                let names = carried(alloc, locals, assigned, &whole.before)?;
                let part = lift(alloc, locals, first, names.as_slice())?;
                whole = behind_first(alloc, part, assigned, names, whole)?;
                rest = &**others;
            }
            Fronts::Guard(condition, others) => {
                whole = behind_guard(alloc, locals, condition, whole)?;
                rest = &**others;
            }
        }
    }
}

// A sequence, from its first part, which assigns these and hands on the names, and the rest.
#[inline(never)]
fn behind_first(
    alloc: Global,
    first: LiftedFrom,
    assigned: &Row,
    names: Vec<String>,
    last: LiftedFrom,
) -> Result<LiftedFrom, AllocError>
    ensures { IfOk result (λ l. (bs : List B.Binder) (a b : plain.Simpl) (vs : List Name) →
        IsAssigned bs a assigned.now.flags.items →
        map string_bytes names.items
        ≡ carried_in bs assigned.now.flags.items last.before.flags.items →
        IsLifted bs a (map string_bytes names.items) first → IsLifted bs b vs last →
        IsLifted bs (plain.Seq a b) vs l) }
{
    let before = past(alloc, &first.before, &last.before, assigned)?;
    let lifted = in_sequence(alloc, first.lifted, names, last.lifted)?;
    Ok(LiftedFrom { lifted, before })
}

// A guard before a command.
#[inline(never)]
fn behind_guard(
    alloc: Global,
    locals: &[Binder],
    condition: &Condition,
    last: LiftedFrom,
) -> Result<LiftedFrom, AllocError>
    ensures { IfOk result (λ l. (a : plain.Simpl) (vs : List Name) →
        IsLifted locals.now a vs last →
        IsLifted locals.now (plain.Guard (condition_of condition.now) a) vs l) }
{
    let before = row_before_exp(alloc, locals, &condition.exp, &last.before)?;
    let lifted = guarded(alloc, condition, last.lifted)?;
    Ok(LiftedFrom { lifted, before })
}
