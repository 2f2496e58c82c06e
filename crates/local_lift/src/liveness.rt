//! Which locals are live before a command, for rows of those that are live after it.

ghost use Rattle.std.specs.Prelude.{List, map, string_bytes, IfOk};
ghost use Rattle.std.specs.Option.{option_map};
ghost use Rattle.c_values.specs.Name.{Name};
ghost use Rattle.c_values.specs.Types.{CType};
ghost use Rattle.simpl_lang.specs.CodeCommand.{condition_of, simpl_of};
ghost use Rattle.expression_lang.specs.CodeExpression.{exp_of, path_of};
ghost use Rattle.local_lift.specs.declared.rows.Row.{Row};
ghost use Rattle.local_lift.specs.Live.{live};
ghost use Rattle.local_lift.specs.CodeNames.{names};
ghost use Rattle.local_lift.specs.CodeRows.{Moves, without_target};
ghost use Rattle.local_lift.specs.CodePlan.{around, command_of, AreRight, IsAlone, IsRight};
ghost use Rattle.simpl_lang.specs.Command as plain;

use crate::changes::{
    all_added, all_assigned, all_either, all_removed, all_spread, copies_of_rows,
};
use crate::names::{IsNamed, IsNamedByArguments, IsNamedByStore, IsNamedByWrite};
use crate::plan::{Fronts, Plan};
use crate::rows::{Row, row_of};
use expression_lang::{Binder, Exp, Path};
use simpl_lang::{Condition, Simpl};
use std::alloc::{AllocError, Global};

// Rows before a set of a local.
fn before_set(
    alloc: Global,
    locals: &[Binder],
    name: &str,
    value: &Exp,
    rows: Vec<Row>,
) -> Result<Vec<Row>, AllocError>
    ensures { IfOk result (λ before. Moves locals.now
        (live (names locals.now) (plain.Set name.now (exp_of value.now))) rows.items before.items) }
{
    let named = row_of(alloc, locals, &IsNamed { exp: value })?;
    let before = all_assigned(alloc, locals, name, &named, rows)?;
    Ok(before)
}

// Rows before a write into a global.
fn before_write(
    alloc: Global,
    locals: &[Binder],
    path: &Path,
    value: &Exp,
    rows: Vec<Row>,
) -> Result<Vec<Row>, AllocError>
    ensures { IfOk result (λ before. (x : Name) → Moves locals.now
        (live (names locals.now) (plain.SetGlobal x (path_of path.now)
        (exp_of value.now))) rows.items
        before.items) }
{
    let named = row_of(alloc, locals, &IsNamedByWrite { path, value })?;
    let before = all_added(alloc, &named, rows)?;
    Ok(before)
}

// Rows before a store.
fn before_store(
    alloc: Global,
    locals: &[Binder],
    pointer: &Exp,
    path: &Path,
    value: &Exp,
    rows: Vec<Row>,
) -> Result<Vec<Row>, AllocError>
    ensures { IfOk result (λ before. (t : CType) → Moves locals.now
        (live (names locals.now)
        (plain.Store t (exp_of pointer.now) (path_of path.now) (exp_of value.now))) rows.items
        before.items) }
{
    let named = row_of(
        alloc,
        locals,
        &IsNamedByStore {
            pointer,
            path,
            value,
        },
    )?;
    let before = all_added(alloc, &named, rows)?;
    Ok(before)
}

// Rows before a result goes where it goes.
fn before_target(
    alloc: Global,
    locals: &[Binder],
    target: &Option<String>,
    rows: Vec<Row>,
) -> Result<Vec<Row>, AllocError>
    ensures { IfOk result (λ before. Moves locals.now
        (without_target (option_map string_bytes target.now)) rows.items before.items) }
{
    match target {
        Some(name) => all_removed(alloc, locals, name.as_str(), rows),
        None => Ok(rows),
    }
}

// Rows before a call.
fn before_call(
    alloc: Global,
    locals: &[Binder],
    target: &Option<String>,
    arguments: &[Exp],
    rows: Vec<Row>,
) -> Result<Vec<Row>, AllocError>
    ensures { IfOk result (λ before. (f : Name) → Moves locals.now
        (live (names locals.now)
        (plain.Call (option_map string_bytes target.now) f (map exp_of arguments.now))) rows.items
        before.items) }
{
    let named = row_of(alloc, locals, &IsNamedByArguments { arguments })?;
    let called = before_target(alloc, locals, target, rows)?;
    let before = all_added(alloc, &named, called)?;
    Ok(before)
}

// Rows before a test, from the rows before what follows each way.
#[inline(never)]
fn before_test(
    alloc: Global,
    locals: &[Binder],
    test: &Exp,
    lefts: Vec<Row>,
    rights: Vec<Row>,
) -> Result<Vec<Row>, AllocError>
    ensures { IfOk result (λ before. (rows : List Row) (a b : plain.Simpl) →
        Moves locals.now (live (names locals.now) a) rows lefts.items →
        Moves locals.now (live (names locals.now) b) rows rights.items →
        Moves locals.now (live (names locals.now)
        (plain.Cond (exp_of test.now) a b)) rows before.items) }
{
    let named = row_of(alloc, locals, &IsNamed { exp: test })?;
    let tested = all_added(alloc, &named, lefts)?;
    let before = all_either(alloc, tested, rights)?;
    Ok(before)
}

// Rows before a guard.
fn before_guard(
    alloc: Global,
    locals: &[Binder],
    condition: &Condition,
    rows: Vec<Row>,
) -> Result<Vec<Row>, AllocError>
    ensures { IfOk result (λ before. (others : List Row) (a : plain.Simpl) →
        Moves locals.now (live (names locals.now) a) others rows.items →
        Moves locals.now (live (names locals.now)
        (plain.Guard (condition_of condition.now) a)) others
        before.items) }
{
    let named = row_of(
        alloc,
        locals,
        &IsNamed {
            exp: &condition.exp,
        },
    )?;
    let before = all_added(alloc, &named, rows)?;
    Ok(before)
}

/// Rows before a command without parts.
#[inline(never)]
pub(crate) fn lived_alone(
    alloc: Global,
    locals: &[Binder],
    c: &Simpl,
    rows: Vec<Row>,
) -> Result<Vec<Row>, AllocError>
    requires { IsAlone (simpl_of c.now) }
    ensures { IfOk result (λ before.
        Moves locals.now (live (names locals.now) (simpl_of c.now)) rows.items before.items) }
{
    match c {
        Simpl::Skip => Ok(rows),
        Simpl::Throw => Ok(rows),
        Simpl::Set(name, value) => before_set(alloc, locals, name.as_str(), value, rows),
        Simpl::SetGlobal(_, path, value) => before_write(alloc, locals, path, value, rows),
        Simpl::Store(_, pointer, path, value) => {
            before_store(alloc, locals, pointer, path, value, rows)
        }
        Simpl::Pick(name) => all_removed(alloc, locals, name.as_str(), rows),
        Simpl::Call(target, _, arguments) => before_call(alloc, locals, target, arguments, rows),
        _ => unreachable!(),
    }
}

/// Rows before a command. It doesn't go into the bodies of loops, and goes back along the first
/// parts by a loop.
#[cycle(lived)]
pub(crate) fn lived(
    alloc: Global,
    locals: &[Binder],
    plan: &Plan<'_>,
    rows: Vec<Row>,
) -> Result<Vec<Row>, AllocError>
    requires { IsRight locals.now plan.now }
    ensures { IfOk result (λ before.
        Moves locals.now (live (names locals.now) (command_of plan.now)) rows.items before.items) }
{
    match plan {
        Plan::Alone(c) => lived_alone(alloc, locals, c, rows),
        Plan::Cond(test, first, second) => lived_choice(alloc, locals, test, first, second, rows),
        Plan::Catch(first, _) => lived(alloc, locals, first, rows),
        Plan::While(_, _, _, _, turns) => {
            all_spread(alloc, turns.steps.as_slice(), &turns.own, rows)
        }
        Plan::Behind(fronts, last) => lived_behind(alloc, locals, fronts, last, rows),
    }
}

#[cycle(lived)]
#[inline(never)]
fn lived_choice(
    alloc: Global,
    locals: &[Binder],
    test: &Exp,
    first: &Plan<'_>,
    second: &Plan<'_>,
    rows: Vec<Row>,
) -> Result<Vec<Row>, AllocError>
    requires first { IsRight locals.now first.now }
    requires second { IsRight locals.now second.now }
    ensures { IfOk result (λ before. Moves locals.now
        (live (names locals.now)
        (plain.Cond (exp_of test.now) (command_of first.now) (command_of second.now))) rows.items
        before.items) }
{
    let others = copies_of_rows(alloc, rows.as_slice())?;
    let lefts = lived(alloc, locals, first, rows)?;
    let rights = lived(alloc, locals, second, others)?;
    before_test(alloc, locals, test, lefts, rights)
}

#[cycle(lived)]
#[inline(never)]
fn lived_behind(
    alloc: Global,
    locals: &[Binder],
    fronts: &Fronts<'_>,
    last: &Plan<'_>,
    rows: Vec<Row>,
) -> Result<Vec<Row>, AllocError>
    requires fronts { AreRight locals.now fronts.now }
    requires last { IsRight locals.now last.now }
    ensures { IfOk result (λ before. Moves locals.now
        (live (names locals.now) (around fronts.now
        (command_of last.now))) rows.items before.items) }
{
    let mut before = lived(alloc, locals, last, rows)?;
    let mut rest = fronts;
    'back: loop {
        match rest {
            Fronts::None => return Ok(before),
            Fronts::Seq(first, _, others) => {
                before = lived(alloc, locals, first, before)?;
                rest = &**others;
            }
            Fronts::Guard(condition, others) => {
                before = before_guard(alloc, locals, condition, before)?;
                rest = &**others;
            }
        }
    }
}
