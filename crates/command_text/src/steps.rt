//! Trees read as commands without commands in them.
ghost use Rattle.std.specs.Prelude.{◌≡◌, Ok, option_map};
ghost use Rattle.ac_sx.specs.CodeSx.{tree_of, trees_in, one_of, two_of, three_of, first_of};
ghost use Rattle.expression_text.specs.CodeFault.{Gives};
ghost use Rattle.expression_text.specs.ExpRows.{with_second};
ghost use Rattle.program_text.specs.MonReading.{four_of};
ghost use Rattle.simpl_lang.specs.CodeCommand.{condition_of, simpl_of};
ghost use Rattle.simpl_lang.specs.Command as plain;
ghost use Rattle.simpl_lang.specs.CodeFront.{with_front};
ghost use Rattle.command_text.specs.CommandReading as rows;

use crate::targets::target_at;
use ac_sx::{Sx, first, one, three, two};
use expression_text::{TextFault, exp_at, exps_at, name_at, next, path_at, type_at};
use program_text::four;
use simpl_lang::{Condition, Front, Simpl, boxed, whole};
use std::alloc::Global;

pub(crate) type Read = Result<(Box<Simpl>, u32), TextFault>;

/// What was read, with the number of the node behind it.
pub(crate) fn read(alloc: Global, c: Simpl, at: u32) -> Read
    ensures { Gives (λ c. simpl_of c.value) result (Ok (simpl_of c, at)) }
{
    let c = boxed(alloc, c)?;
    Ok((c, at))
}

/// The command of all but its last command and that.
#[inline(never)]
pub(crate) fn read_whole(alloc: Global, front: Front, last: Box<Simpl>, at: u32) -> Read
    ensures { Gives (λ c. simpl_of c.value) result
        (Ok (with_front front (simpl_of last.value), at)) }
{
    read(alloc, whole(front, last), at)
}

/// The command that stands behind a condition, and that.
#[inline(never)]
pub(crate) fn guard_of(alloc: Global, condition: Box<Condition>, last: Box<Simpl>, at: u32) -> Read
    ensures { Gives (λ c. simpl_of c.value) result
        (Ok (plain.Guard (condition_of condition.value) (simpl_of last.value), at)) }
{
    read(alloc, Simpl::Guard(Box::into_inner(condition), last), at)
}

/// A command that is one word.
#[inline(never)]
pub(crate) fn leaf_at(alloc: Global, word: &str, at: u32) -> Read
    ensures { Gives (λ c. simpl_of c.value) result (rows.leaf_at at word.now) }
{
    if word == "skip" {
        return read(alloc, Simpl::Skip, next(at));
    }
    if word == "throw" {
        return read(alloc, Simpl::Throw, next(at));
    }
    Err(TextFault::Shape(at))
}

#[inline(never)]
pub(crate) fn set_row(alloc: Global, at: u32, inner: u32, parts: &[Sx]) -> Read
    ensures { Gives (λ c. simpl_of c.value) result
        (rows.set_row at inner (two_of (trees_in parts.now))) }
{
    let Some((name, value)) = two(parts) else {
        return Err(TextFault::Shape(at));
    };
    let (name, at) = name_at(alloc, name, inner)?;
    let (value, at) = exp_at(alloc, value, at)?;
    read(alloc, Simpl::Set(name, value), at)
}

#[inline(never)]
pub(crate) fn gset_row(alloc: Global, at: u32, inner: u32, parts: &[Sx]) -> Read
    ensures { Gives (λ c. simpl_of c.value) result
        (rows.gset_row at inner (three_of (trees_in parts.now))) }
{
    let Some((name, steps, value)) = three(parts) else {
        return Err(TextFault::Shape(at));
    };
    let (name, at) = name_at(alloc, name, inner)?;
    let (path, at) = path_at(alloc, steps, at)?;
    let (value, at) = exp_at(alloc, value, at)?;
    read(alloc, Simpl::SetGlobal(name, path, value), at)
}

#[inline(never)]
pub(crate) fn store_row(alloc: Global, at: u32, inner: u32, parts: &[Sx]) -> Read
    ensures { Gives (λ c. simpl_of c.value) result
        (rows.store_row at inner (four_of (trees_in parts.now))) }
{
    let Some((ty, pointer, steps, value)) = four(parts) else {
        return Err(TextFault::Shape(at));
    };
    let (ty, at) = type_at(alloc, ty, inner)?;
    let (pointer, at) = exp_at(alloc, pointer, at)?;
    let (path, at) = path_at(alloc, steps, at)?;
    let (value, at) = exp_at(alloc, value, at)?;
    read(alloc, Simpl::Store(ty, pointer, path, value), at)
}

#[inline(never)]
pub(crate) fn pick_row(alloc: Global, at: u32, inner: u32, parts: &[Sx]) -> Read
    ensures { Gives (λ c. simpl_of c.value) result
        (rows.pick_row at inner (one_of (trees_in parts.now))) }
{
    let Some(name) = one(parts) else {
        return Err(TextFault::Shape(at));
    };
    let (name, at) = name_at(alloc, name, inner)?;
    read(alloc, Simpl::Pick(name), at)
}

/// The first two, and the others.
fn first_two(parts: &[Sx]) -> Option<(&Sx, &Sx, &[Sx])>
    ensures { option_map (λ x. (tree_of x.0.now, tree_of x.1.now, trees_in x.2.now)) result
        ≡ with_second (first_of (trees_in parts.now)) }
{
    let (part, others) = first(parts)?;
    let (second, others) = first(others)?;
    Some((part, second, others))
}

#[inline(never)]
pub(crate) fn call_row(alloc: Global, at: u32, inner: u32, parts: &[Sx]) -> Read
    ensures { Gives (λ c. simpl_of c.value) result
        (rows.call_row at inner (with_second (first_of (trees_in parts.now)))) }
{
    let Some((target, function, arguments)) = first_two(parts) else {
        return Err(TextFault::Shape(at));
    };
    let (target, at) = target_at(alloc, target, inner)?;
    let (function, at) = name_at(alloc, function, at)?;
    let (arguments, at) = exps_at(alloc, arguments, at)?;
    read(alloc, Simpl::Call(target, function, arguments), at)
}
