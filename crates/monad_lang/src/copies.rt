//! Copies of programs.

ghost use Rattle.std.specs.Prelude.{◌≡◌, IfOk};
ghost use Rattle.monad_lang.specs.declared.program.Mon.{size-Mon};
ghost use Rattle.monad_lang.specs.CodeProgram.{place_of, mon_of};
ghost use Rattle.monad_lang.specs.CodeFront.{with_fronts, IsStep};
ghost use Rattle.monad_lang.specs.CodeCopied.{peeled_in, LastIsSmaller};

use crate::fronts::{Front, boxed, whole};
use crate::program::{Mon, Place};
use crate::starts::copy_of_starts;
use c_values::copy_of;
use expression_lang::{copy_exps, copy_names};
use std::alloc::{AllocError, Global};

impl Mon {
    /// A copy. It goes along the last parts by a loop, since a text may have long sequences.
    #[cycle(copy)]
    #[tactic(auto, using(crate::proofs::WithFronts::with_fronts_push))]
    pub fn copy(&self, alloc: Global) -> Result<Box<Mon>, AllocError>
        ensures { IfOk result (λ copy. mon_of copy.value ≡ mon_of self.now) }
    {
        let mut fronts = Vec::new(alloc);
        let mut rest = self;
        'along: loop {
            match peeled(alloc, rest)? {
                Peel::Ended(copy) => return closed(alloc, fronts, copy),
                Peel::Last(front, last) => {
                    fronts.push(front)?;
                    rest = last;
                }
            }
        }
    }
}

// A program with all but the last part copied.
#[derive(Drop)]
enum Peel<'a> {
    Ended(Box<Mon>),
    Last(Front, &'a Mon),
}

#[cycle(copy)]
fn peeled(alloc: Global, m: &Mon) -> Result<Peel<'_>, AllocError>
    ensures same { IfOk result (λ peel. peeled_in peel ≡ mon_of m.now) }
    ensures smaller { IfOk result (λ peel. LastIsSmaller peel (size-Mon m.now)) }
{
    match m {
        Mon::Ret(_) | Mon::Guard(_) | Mon::Write(_, _) | Mon::Call(_, _) | Mon::Pick(_) => {
            Ok(Peel::Ended(copy_of_step(alloc, m)?))
        }
        Mon::Bind(first, names, last) => {
            let first = first.copy(alloc)?;
            Ok(Peel::Last(Front::Bind(first, copy_names(alloc, names)?), &**last))
        }
        Mon::If(test, first, last) => {
            let test = test.boxed_copy(alloc)?;
            Ok(Peel::Last(Front::If(test, first.copy(alloc)?), &**last))
        }
        Mon::Loop(starts, guard, test, last) => {
            let starts = copy_of_starts(alloc, starts)?;
            let guard = guard.boxed_copy(alloc)?;
            Ok(Peel::Last(Front::Loop(starts, guard, test.boxed_copy(alloc)?), &**last))
        }
    }
}

// A program with fronts around it, the first front outermost.
#[tactic(auto, using(crate::proofs::WithFronts::with_fronts_push))]
fn closed(alloc: Global, mut fronts: Vec<Front>, last: Box<Mon>) -> Result<Box<Mon>, AllocError>
    ensures { IfOk result (λ m. mon_of m.value ≡ with_fronts fronts.items (mon_of last.value)) }
{
    let mut copy = last;
    'back: while let Some(front) = fronts.pop() {
        copy = boxed(alloc, whole(front, copy))?;
    }
    Ok(copy)
}

// A copy of a program without programs in it.
fn copy_of_step(alloc: Global, m: &Mon) -> Result<Box<Mon>, AllocError>
    requires { IsStep (mon_of m.now) }
    ensures { IfOk result (λ copy. mon_of copy.value ≡ mon_of m.now) }
{
    match m {
        Mon::Ret(values) => boxed(alloc, Mon::Ret(copy_exps(alloc, values)?)),
        Mon::Guard(condition) => boxed(alloc, Mon::Guard(condition.copy(alloc)?)),
        Mon::Write(place, value) => {
            let value = value.boxed_copy(alloc)?;
            let place = copy_of_place(alloc, place)?;
            boxed(alloc, Mon::Write(place, Box::into_inner(value)))
        }
        Mon::Call(function, arguments) => {
            let arguments = copy_exps(alloc, arguments)?;
            let function = function.clone()?;
            boxed(alloc, Mon::Call(function, arguments))
        }
        Mon::Pick(kind) => boxed(alloc, Mon::Pick(*kind)),
        _ => unreachable!(),
    }
}

fn copy_of_place(alloc: Global, place: &Place) -> Result<Place, AllocError>
    ensures { IfOk result (λ copy. place_of copy ≡ place_of place.now) }
{
    match place {
        Place::Stored(ty, pointer, path) => {
            let pointer = pointer.boxed_copy(alloc)?;
            let path = path.copy(alloc)?;
            Ok(Place::Stored(copy_of(alloc, ty)?, Box::into_inner(pointer), path))
        }
        Place::Written(ty, pointer, path) => {
            let pointer = pointer.boxed_copy(alloc)?;
            let path = path.copy(alloc)?;
            Ok(Place::Written(copy_of(alloc, ty)?, Box::into_inner(pointer), path))
        }
        Place::Global(name, path) => {
            let path = path.copy(alloc)?;
            Ok(Place::Global(name.clone()?, path))
        }
    }
}
