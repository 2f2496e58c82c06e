//! Lists of trees read as programs without programs in them.
ghost use Rattle.std.specs.Prelude.{Ok};
ghost use Rattle.ac_sx.specs.CodeSx.{trees_in, one_of, three_of, first_of};
ghost use Rattle.expression_text.specs.CodeFault.{Gives};
ghost use Rattle.monad_lang.specs.Program.{Stored, Written};
ghost use Rattle.monad_lang.specs.CodeProgram.{mon_of};
ghost use Rattle.monad_lang.specs.CodeFront.{with_front};
ghost use Rattle.program_text.specs.MonReading as rows;
ghost use Rattle.program_text.specs.MonReading.{four_of};

use crate::fields::four;
use crate::kinds::kind_at;
use ac_sx::{Sx, first, one, three};
use c_values::CType;
use expression_lang::{Exp, Path};
use expression_text::{TextFault, exp_at, exps_at, name_at, path_at, type_at};
use monad_lang::{Front, Mon, Place, boxed, whole};
use std::alloc::Global;

pub(crate) type Read = Result<(Box<Mon>, u32), TextFault>;

/// What was read, with the number of the node behind it.
pub(crate) fn read(alloc: Global, m: Mon, at: u32) -> Read
    ensures { Gives (λ m. mon_of m.value) result (Ok (mon_of m, at)) }
{
    let m = boxed(alloc, m)?;
    Ok((m, at))
}

/// The program of all but its last program and that.
#[inline(never)]
pub(crate) fn read_whole(alloc: Global, front: Front, last: Box<Mon>, at: u32) -> Read
    ensures { Gives (λ m. mon_of m.value) result
        (Ok (with_front front (mon_of last.value), at)) }
{
    read(alloc, whole(front, last), at)
}

#[inline(never)]
pub(crate) fn ret_row(alloc: Global, inner: u32, parts: &[Sx]) -> Read
    ensures { Gives (λ m. mon_of m.value) result (rows.ret_row inner (trees_in parts.now)) }
{
    let (values, at) = exps_at(alloc, parts, inner)?;
    read(alloc, Mon::Ret(values), at)
}

#[inline(never)]
pub(crate) fn guard_row(alloc: Global, at: u32, inner: u32, parts: &[Sx]) -> Read
    ensures { Gives (λ m. mon_of m.value) result
        (rows.guard_row at inner (one_of (trees_in parts.now))) }
{
    let Some(condition) = one(parts) else {
        return Err(TextFault::Shape(at));
    };
    let (condition, at) = exp_at(alloc, condition, inner)?;
    read(alloc, Mon::Guard(condition), at)
}

#[inline(never)]
pub(crate) fn store_row(alloc: Global, at: u32, inner: u32, parts: &[Sx]) -> Read
    ensures { Gives (λ m. mon_of m.value) result
        (rows.write_row at inner Stored (four_of (trees_in parts.now))) }
{
    let Some((ty, pointer, steps, value)) = four(parts) else {
        return Err(TextFault::Shape(at));
    };
    let (ty, at) = type_at(alloc, ty, inner)?;
    let (pointer, at) = exp_at(alloc, pointer, at)?;
    let (path, at) = path_at(alloc, steps, at)?;
    let (value, at) = exp_at(alloc, value, at)?;
    read(
        alloc,
        Mon::Write(Place::Stored(ty, pointer, path), value),
        at,
    )
}

#[inline(never)]
pub(crate) fn write_row(alloc: Global, at: u32, inner: u32, parts: &[Sx]) -> Read
    ensures { Gives (λ m. mon_of m.value) result
        (rows.write_row at inner Written (four_of (trees_in parts.now))) }
{
    let Some((ty, pointer, steps, value)) = four(parts) else {
        return Err(TextFault::Shape(at));
    };
    let (ty, at) = type_at(alloc, ty, inner)?;
    let (pointer, at) = exp_at(alloc, pointer, at)?;
    let (path, at) = path_at(alloc, steps, at)?;
    let (value, at) = exp_at(alloc, value, at)?;
    read(
        alloc,
        Mon::Write(Place::Written(ty, pointer, path), value),
        at,
    )
}

#[inline(never)]
pub(crate) fn gset_row(alloc: Global, at: u32, inner: u32, parts: &[Sx]) -> Read
    ensures { Gives (λ m. mon_of m.value) result
        (rows.gset_row at inner (three_of (trees_in parts.now))) }
{
    let Some((name, steps, value)) = three(parts) else {
        return Err(TextFault::Shape(at));
    };
    let (name, at) = name_at(alloc, name, inner)?;
    let (path, at) = path_at(alloc, steps, at)?;
    let (value, at) = exp_at(alloc, value, at)?;
    read(alloc, Mon::Write(Place::Global(name, path), value), at)
}

#[inline(never)]
pub(crate) fn call_row(alloc: Global, at: u32, inner: u32, parts: &[Sx]) -> Read
    ensures { Gives (λ m. mon_of m.value) result
        (rows.call_row at inner (first_of (trees_in parts.now))) }
{
    let Some((function, arguments)) = first(parts) else {
        return Err(TextFault::Shape(at));
    };
    let (function, at) = name_at(alloc, function, inner)?;
    let (arguments, at) = exps_at(alloc, arguments, at)?;
    read(alloc, Mon::Call(function, arguments), at)
}

#[inline(never)]
pub(crate) fn pick_row(alloc: Global, at: u32, inner: u32, parts: &[Sx]) -> Read
    ensures { Gives (λ m. mon_of m.value) result
        (rows.pick_row at inner (one_of (trees_in parts.now))) }
{
    let Some(kind) = one(parts) else {
        return Err(TextFault::Shape(at));
    };
    let (kind, at) = kind_at(kind, inner)?;
    read(alloc, Mon::Pick(kind), at)
}
