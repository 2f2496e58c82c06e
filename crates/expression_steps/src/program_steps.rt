//! The first step in the expressions that stand in a program directly.

ghost use Rattle.std.specs.Prelude.{◌≡◌, ◌++◌, [], IfOk, Some, map};
ghost use Rattle.std.specs.Option.{option_map};
ghost use Rattle.c_values.specs.CodeTypes.{type_of};
ghost use Rattle.expression_lang.specs.CodeExpression.{exp_of, path_of};
ghost use Rattle.ac_expr.specs.Fact.{Whole};
ghost use Rattle.monad_lang.specs.Program as plain;
ghost use Rattle.monad_lang.specs.CodeProgram.{place_of, start_of, mon_of};
ghost use Rattle.expression_steps.specs.Rewritten.{list_step, start_step, place_step, scope_started, direct_step_in, in_two, first_step, path_step};
ghost use Rattle.expression_steps.specs.Shortened.{shortened};
ghost use Rattle.expression_steps.specs.CodePoint.{known_in, names_of, scalars_of, scope_in};
ghost use Rattle.expression_lang.specs.Sorted.{scope_with};
ghost use Rattle.expression_steps.specs.CodeProgramSteps.{first_in, first_start, put_at, with_exp, with_start, object_at, turned_in};
ghost use Rattle.expression_steps.specs.CodeProgramStepsView.{object_in, turned_at};

use crate::exp_steps::{first_step, path_step};
use crate::points::{Binding, Context, Passed, Scoped, bindings_of};
use ac_expr::{Fact, Facts};
use c_values::{CType, copy_of};
use expression_lang::{Exp, Names, Path};
use monad_lang::{Front, Mon, Place, Start, boxed, whole};
use std::alloc::{AllocError, Global};

// An expression that stands at a position.
#[derive(Drop)]
struct Placed {
    position: usize,
    exp: Box<Exp>,
}

// Expressions, and then copies of others.
#[tactic(auto, using(crate::proofs::Lists::mapped_push))]
fn and_others(alloc: Global, before: Vec<Exp>, exps: &[Exp]) -> Result<Vec<Exp>, AllocError>
    ensures { IfOk result (λ all.
        map exp_of all.items ≡ map exp_of before.items ++ map exp_of exps.now) }
{
    let mut all = before;
    let mut rest = exps;
    'along: while let Some((exp, others)) = rest.split_first() {
        all.push(exp.copy(alloc)?)?;
        rest = others;
    }
    Ok(all)
}

// The expressions with another one at a position.
#[tactic(auto, using(crate::proofs::Lists::mapped_push))]
fn with_exp(alloc: Global, exps: &[Exp], new: Placed) -> Result<Vec<Exp>, AllocError>
    ensures { IfOk result (λ all. map exp_of all.items
        ≡ with_exp new.position (exp_of new.exp.value) (map exp_of exps.now)) }
{
    let Placed { position, exp: new } = new;
    let mut all = Vec::new(alloc);
    let mut rest = exps;
    let mut left = position;
    'passing: while let Some((exp, others)) = rest.split_first() {
        if left == 0 {
            all.push(Box::into_inner(new))?;
            return and_others(alloc, all, others);
        }
        all.push(exp.copy(alloc)?)?;
        rest = others;
        left -= 1;
    }
    Ok(all)
}

// The first of the expressions in which there is a step, after it.
#[tactic(auto, using(crate::proofs::ListSteps::begun, crate::proofs::ListSteps::here, crate::proofs::ListSteps::next))]
fn first_in<'x>(
    alloc: Global,
    context: &Context<'_>,
    facts: &'x Facts<'x, Passed<'x>>,
    exps: &'x [Exp],
) -> Result<Option<Placed>, AllocError>
    ensures { IfOk result (λ new. option_map (λ it. put_at it.position (exp_of it.exp.value)) new
        ≡ first_in (shortened (scope_in context.now)) (known_in facts.now) (map exp_of exps.now)) }
{
    let mut rest = exps;
    'along: while let Some((exp, others)) = rest.split_first() {
        if let Some(exp) = first_step(alloc, context, facts, exp)? {
            let position = exps.len() - rest.len();
            return Ok(Some(Placed { position, exp }));
        }
        rest = others;
    }
    Ok(None)
}

// The expressions after their first step.
#[tactic(auto, using(crate::proofs::ListSteps::list_placed))]
fn list_step<'x>(
    alloc: Global,
    context: &Context<'_>,
    facts: &'x Facts<'x, Passed<'x>>,
    exps: &'x [Exp],
) -> Result<Option<Vec<Exp>>, AllocError>
    ensures { IfOk result (λ new. option_map (λ all. map exp_of all.items) new
        ≡ list_step (shortened (scope_in context.now)) (known_in facts.now) (map exp_of exps.now)) }
{
    match first_in(alloc, context, facts, exps)? {
        Some(new) => Ok(Some(with_exp(alloc, exps, new)?)),
        None => Ok(None),
    }
}

fn copy_of_start(alloc: Global, start: &Start) -> Result<Start, AllocError>
    ensures { IfOk result (λ copy. start_of copy ≡ start_of start.now) }
{
    let exp = start.exp.boxed_copy(alloc)?;
    let name = start.name.clone()?;
    Ok(Start {
        name,
        exp: Box::into_inner(exp),
    })
}

// Starts, and then copies of others.
#[tactic(auto, using(crate::proofs::Lists::mapped_push))]
fn and_starts(alloc: Global, before: Vec<Start>, starts: &[Start]) -> Result<Vec<Start>, AllocError>
    ensures { IfOk result (λ all.
        map start_of all.items ≡ map start_of before.items ++ map start_of starts.now) }
{
    let mut all = before;
    let mut rest = starts;
    'along: while let Some((start, others)) = rest.split_first() {
        all.push(copy_of_start(alloc, start)?)?;
        rest = others;
    }
    Ok(all)
}

// Copies of starts.
fn copy_of_starts(alloc: Global, starts: &[Start]) -> Result<Vec<Start>, AllocError>
    ensures { IfOk result (λ copies. map start_of copies.items ≡ map start_of starts.now) }
{
    and_starts(alloc, Vec::new(alloc), starts)
}

// The starts with another expression at a position.
#[tactic(auto, using(crate::proofs::Lists::mapped_push))]
fn with_start(alloc: Global, starts: &[Start], new: Placed) -> Result<Vec<Start>, AllocError>
    ensures { IfOk result (λ all. map start_of all.items
        ≡ with_start new.position (exp_of new.exp.value) (map start_of starts.now)) }
{
    let Placed { position, exp: new } = new;
    let mut all = Vec::new(alloc);
    let mut rest = starts;
    let mut left = position;
    'passing: while let Some((start, others)) = rest.split_first() {
        if left == 0 {
            let name = start.name.clone()?;
            all.push(Start {
                name,
                exp: Box::into_inner(new),
            })?;
            return and_starts(alloc, all, others);
        }
        all.push(copy_of_start(alloc, start)?)?;
        rest = others;
        left -= 1;
    }
    Ok(all)
}

// The first of the starts in which there is a step, after it.
#[tactic(auto, using(crate::proofs::ListSteps::start_begun, crate::proofs::ListSteps::start_here, crate::proofs::ListSteps::start_next))]
fn first_start<'x>(
    alloc: Global,
    context: &Context<'_>,
    facts: &'x Facts<'x, Passed<'x>>,
    starts: &'x [Start],
) -> Result<Option<Placed>, AllocError>
    ensures { IfOk result (λ new. option_map (λ it. put_at it.position (exp_of it.exp.value)) new
        ≡ first_start (shortened (scope_in context.now)) (known_in facts.now)
        (map start_of starts.now)) }
{
    let mut rest = starts;
    'along: while let Some((start, others)) = rest.split_first() {
        if let Some(exp) = first_step(alloc, context, facts, &start.exp)? {
            let position = starts.len() - rest.len();
            return Ok(Some(Placed { position, exp }));
        }
        rest = others;
    }
    Ok(None)
}

// The starts after their first step.
#[tactic(auto, using(crate::proofs::ListSteps::starts_placed))]
fn start_step<'x>(
    alloc: Global,
    context: &Context<'_>,
    facts: &'x Facts<'x, Passed<'x>>,
    starts: &'x [Start],
) -> Result<Option<Vec<Start>>, AllocError>
    ensures { IfOk result (λ new. option_map (λ all. map start_of all.items) new
        ≡ start_step (shortened (scope_in context.now)) (known_in facts.now)
        (map start_of starts.now)) }
{
    match first_start(alloc, context, facts, starts)? {
        Some(new) => Ok(Some(with_start(alloc, starts, new)?)),
        None => Ok(None),
    }
}

// How an object is written to.
#[derive(Clone, Copy)]
enum Object {
    Stored,
    Written,
}

fn object_at(object: Object, ty: CType, pointer: Box<Exp>, path: Path) -> Place
    ensures { place_of result
        ≡ object_at (object_in object) (type_of ty) (exp_of pointer.value) (path_of path) }
{
    match object {
        Object::Stored => Place::Stored(ty, Box::into_inner(pointer), path),
        Object::Written => Place::Written(ty, Box::into_inner(pointer), path),
    }
}

fn object_step<'x>(
    alloc: Global,
    context: &Context<'_>,
    facts: &'x Facts<'x, Passed<'x>>,
    object: Object,
    ty: &CType,
    pointer: &'x Exp,
    path: &'x Path,
) -> Result<Option<Place>, AllocError>
    ensures { IfOk result (λ new. option_map place_of new
        ≡ in_two (λ x y. object_at (object_in object) (type_of ty.now) x y) (exp_of pointer.now)
        (path_of path.now)
        (first_step (shortened (scope_in context.now)) (known_in facts.now) (exp_of pointer.now))
        (path_step (shortened (scope_in context.now)) (known_in facts.now) (path_of path.now))) }
{
    if let Some(new) = first_step(alloc, context, facts, pointer)? {
        let path = path.copy(alloc)?;
        let ty = copy_of(alloc, ty)?;
        return Ok(Some(object_at(object, ty, new, path)));
    }
    let Some(new) = path_step(alloc, context, facts, path)? else {
        return Ok(None);
    };
    let pointer = pointer.boxed_copy(alloc)?;
    let ty = copy_of(alloc, ty)?;
    Ok(Some(object_at(object, ty, pointer, new)))
}

fn place_step<'x>(
    alloc: Global,
    context: &Context<'_>,
    facts: &'x Facts<'x, Passed<'x>>,
    place: &'x Place,
) -> Result<Option<Place>, AllocError>
    ensures { IfOk result (λ new. option_map place_of new
        ≡ place_step (shortened (scope_in context.now)) (known_in facts.now) (place_of place.now)) }
{
    match place {
        Place::Stored(ty, pointer, path) => {
            object_step(alloc, context, facts, Object::Stored, ty, pointer, path)
        }
        Place::Written(ty, pointer, path) => {
            object_step(alloc, context, facts, Object::Written, ty, pointer, path)
        }
        Place::Global(name, path) => {
            let Some(path) = path_step(alloc, context, facts, path)? else {
                return Ok(None);
            };
            Ok(Some(Place::Global(name.clone()?, path)))
        }
    }
}

// A program that was made.
fn made(alloc: Global, m: Mon) -> Result<Option<Box<Mon>>, AllocError>
    ensures { IfOk result (λ new. option_map (λ m. mon_of m.value) new ≡ Some (mon_of m)) }
{
    Ok(Some(boxed(alloc, m)?))
}

fn write_step<'x>(
    alloc: Global,
    context: &Context<'_>,
    facts: &'x Facts<'x, Passed<'x>>,
    place: &'x Place,
    value: &'x Exp,
) -> Result<Option<Box<Mon>>, AllocError>
    ensures { IfOk result (λ new. option_map (λ m. mon_of m.value) new
        ≡ direct_step_in shortened (scope_in context.now) (known_in facts.now)
        (plain.Write (place_of place.now) (exp_of value.now))) }
{
    if let Some(place) = place_step(alloc, context, facts, place)? {
        let value = value.boxed_copy(alloc)?;
        return made(alloc, Mon::Write(place, Box::into_inner(value)));
    }
    let Some(value) = first_step(alloc, context, facts, value)? else {
        return Ok(None);
    };
    let place = copy_of_place(alloc, place)?;
    made(alloc, Mon::Write(place, Box::into_inner(value)))
}

fn copy_of_place(alloc: Global, place: &Place) -> Result<Place, AllocError>
    ensures { IfOk result (λ copy. place_of copy ≡ place_of place.now) }
{
    match place {
        Place::Stored(ty, pointer, path) => {
            let pointer = pointer.boxed_copy(alloc)?;
            let path = path.copy(alloc)?;
            Ok(Place::Stored(copy_of(alloc, ty)?, Box::into_inner(pointer), path))
        }
        Place::Written(ty, pointer, path) => {
            let pointer = pointer.boxed_copy(alloc)?;
            let path = path.copy(alloc)?;
            Ok(Place::Written(copy_of(alloc, ty)?, Box::into_inner(pointer), path))
        }
        Place::Global(name, path) => {
            let path = path.copy(alloc)?;
            Ok(Place::Global(name.clone()?, path))
        }
    }
}

// A loop that was made.
fn looped(
    alloc: Global,
    starts: Vec<Start>,
    guard: Box<Exp>,
    test: Box<Exp>,
    last: &Mon,
) -> Result<Option<Box<Mon>>, AllocError>
    ensures { IfOk result (λ new. option_map (λ m. mon_of m.value) new
        ≡ Some (plain.Loop (map start_of starts.items) (exp_of guard.value) (exp_of test.value)
        (mon_of last.now))) }
{
    let last = last.copy(alloc)?;
    made(alloc, whole(Front::Loop(starts, guard, test), last))
}

// The parts of a loop.
#[derive(Clone, Copy)]
struct Turns<'a> {
    starts: &'a [Start],
    guard: &'a Exp,
    test: &'a Exp,
    last: &'a Mon,
}

// A loop after the first step in its guard or its test, where nothing is known but the guard.
fn turn_step<'x>(
    alloc: Global,
    inner: &Context<'_>,
    none: &'x Facts<'x, Passed<'x>>,
    turns: Turns<'x>,
) -> Result<Option<Box<Mon>>, AllocError>
    requires { known_in none.now ≡ [] }
    ensures { IfOk result (λ new. option_map (λ m. mon_of m.value) new
        ≡ turned_at turns.entry (scope_in inner.now)) }
{
    if let Some(new) = first_step(alloc, inner, none, turns.guard)? {
        let starts = copy_of_starts(alloc, turns.starts)?;
        let test = turns.test.boxed_copy(alloc)?;
        return looped(alloc, starts, new, test, turns.last);
    }
    let holds = Fact::Whole(&*turns.guard);
    let Some(new) = first_step(alloc, inner, &(&*none).with(&holds), &*turns.test)? else {
        return Ok(None);
    };
    let starts = copy_of_starts(alloc, turns.starts)?;
    let guard = turns.guard.boxed_copy(alloc)?;
    looped(alloc, starts, guard, new, turns.last)
}

// The same where names have these scalars.
fn turn_within<'x>(
    alloc: Global,
    context: &Context<'_>,
    bound: &[Binding],
    none: &'x Facts<'x, Passed<'x>>,
    turns: Turns<'x>,
) -> Result<Option<Box<Mon>>, AllocError>
    requires { known_in none.now ≡ [] }
    ensures { IfOk result (λ new. option_map (λ m. mon_of m.value) new
        ≡ turned_at turns.entry
        (scope_with (names_of bound.now) (scalars_of bound.now) (scope_in context.now))) }
{
    let scope = Scoped::Within(context.scope, bound);
    let inner = Context {
        layout: context.layout,
        globals: context.globals,
        scope: &scope,
    };
    turn_step(alloc, &inner, none, turns)
}

// The same where the loop's names are in scope.
fn started_step<'x>(
    alloc: Global,
    context: &Context<'_>,
    none: &'x Facts<'x, Passed<'x>>,
    turns: Turns<'x>,
) -> Result<Option<Box<Mon>>, AllocError>
    requires { known_in none.now ≡ [] }
    ensures { IfOk result (λ new. option_map (λ m. mon_of m.value) new
        ≡ turned_at turns.entry
        (scope_started (map start_of turns.entry.starts.now) (scope_in context.now))) }
{
    match bindings_of(alloc, context, turns.starts)? {
        Some(bound) => turn_within(alloc, context, &bound, none, turns),
        None => turn_step(alloc, context, none, turns),
    }
}

// The same, without what is known outside of the loop.
fn without_facts(
    alloc: Global,
    context: &Context<'_>,
    starts: &[Start],
    guard: &Exp,
    test: &Exp,
    last: &Mon,
) -> Result<Option<Box<Mon>>, AllocError>
    ensures { IfOk result (λ new. option_map (λ m. mon_of m.value) new
        ≡ turned_in (map start_of starts.now) (exp_of guard.now) (exp_of test.now) (mon_of last.now)
        (scope_started (map start_of starts.now) (scope_in context.now))) }
{
    let names = Names::new();
    let none = Facts::new(context.layout, context.globals, &names);
    let turns = Turns {
        starts: &*starts,
        guard: &*guard,
        test: &*test,
        last: &*last,
    };
    started_step(alloc, context, &none, turns)
}

// A loop after the first step in what it begins with, its guard or its test.
fn loop_step<'x>(
    alloc: Global,
    context: &Context<'_>,
    facts: &'x Facts<'x, Passed<'x>>,
    starts: &'x [Start],
    guard: &Exp,
    test: &Exp,
    last: &Mon,
) -> Result<Option<Box<Mon>>, AllocError>
    ensures { IfOk result (λ new. option_map (λ m. mon_of m.value) new
        ≡ direct_step_in shortened (scope_in context.now) (known_in facts.now)
        (plain.Loop (map start_of starts.now) (exp_of guard.now) (exp_of test.now)
        (mon_of last.now))) }
{
    if let Some(new) = start_step(alloc, context, facts, starts)? {
        let guard = guard.boxed_copy(alloc)?;
        let test = test.boxed_copy(alloc)?;
        return looped(alloc, new, guard, test, last);
    }
    without_facts(alloc, context, starts, guard, test, last)
}

/// A program after the first step in an expression that stands in it directly, or none where there
/// is no step.
pub fn direct_step<'x>(
    alloc: Global,
    context: &Context<'_>,
    facts: &'x Facts<'x, Passed<'x>>,
    m: &'x Mon,
) -> Result<Option<Box<Mon>>, AllocError>
    ensures { IfOk result (λ new. option_map (λ m. mon_of m.value) new
        ≡ direct_step_in shortened (scope_in context.now) (known_in facts.now) (mon_of m.now)) }
{
    match m {
        Mon::Bind(_, _, _) | Mon::Pick(_) => Ok(None),
        Mon::Write(place, value) => write_step(alloc, context, facts, place, value),
        Mon::Ret(values) => {
            let Some(new) = list_step(alloc, context, facts, values)? else {
                return Ok(None);
            };
            made(alloc, Mon::Ret(new))
        }
        Mon::Call(function, arguments) => {
            let Some(new) = list_step(alloc, context, facts, arguments)? else {
                return Ok(None);
            };
            let function = function.clone()?;
            made(alloc, Mon::Call(function, new))
        }
        Mon::Guard(condition) => {
            let Some(new) = first_step(alloc, context, facts, condition)? else {
                return Ok(None);
            };
            made(alloc, Mon::Guard(Box::into_inner(new)))
        }
        Mon::If(test, first, last) => {
            let Some(new) = first_step(alloc, context, facts, test)? else {
                return Ok(None);
            };
            let front = Front::If(new, first.copy(alloc)?);
            let last = last.copy(alloc)?;
            made(alloc, whole(front, last))
        }
        Mon::Loop(starts, guard, test, last) => {
            loop_step(alloc, context, facts, starts, guard, test, last)
        }
    }
}
