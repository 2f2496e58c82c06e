//! Copies of commands.

ghost use Rattle.std.specs.Prelude.{◌≡◌, string_bytes, IfOk};
ghost use Rattle.std.specs.Option.{option_map};
ghost use Rattle.simpl_lang.specs.declared.command.Simpl.{size-Simpl};
ghost use Rattle.simpl_lang.specs.CodeCommand.{simpl_of};
ghost use Rattle.simpl_lang.specs.CodeFront.{with_fronts, IsStep};
ghost use Rattle.simpl_lang.specs.CodeCopied.{peeled_in, LastIsSmaller};

use crate::command::Simpl;
use crate::conditions::{copy_of_condition, copy_of_conditions};
use crate::fronts::{Front, boxed, whole};
use c_values::copy_of;
use expression_lang::copy_exps;
use std::alloc::{AllocError, Global};

impl Simpl {
    /// A copy. It goes along the last parts by a loop, since a text may have long sequences.
    #[cycle(copy)]
    #[tactic(auto, using(crate::proofs::WithFronts::with_fronts_push))]
    pub fn copy(&self, alloc: Global) -> Result<Box<Simpl>, AllocError>
        ensures { IfOk result (λ copy. simpl_of copy.value ≡ simpl_of self.now) }
    {
        let mut fronts = Vec::new(alloc);
        let mut rest = self;
        'along: loop {
            match peeled(alloc, rest)? {
                Peel::Ended(copy) => return closed(alloc, fronts, copy),
                Peel::Last(front, last) => {
                    fronts.push(front)?;
                    rest = last;
                }
            }
        }
    }
}

// A command with all but the last part copied.
#[derive(Drop)]
enum Peel<'a> {
    Ended(Box<Simpl>),
    Last(Front, &'a Simpl),
}

#[cycle(copy)]
fn peeled(alloc: Global, c: &Simpl) -> Result<Peel<'_>, AllocError>
    ensures same { IfOk result (λ peel. peeled_in peel ≡ simpl_of c.now) }
    ensures smaller { IfOk result (λ peel. LastIsSmaller peel (size-Simpl c.now)) }
{
    match c {
        Simpl::Skip
        | Simpl::Throw
        | Simpl::Set(_, _)
        | Simpl::SetGlobal(_, _, _)
        | Simpl::Store(_, _, _, _)
        | Simpl::Pick(_)
        | Simpl::Call(_, _, _) => Ok(Peel::Ended(copy_of_step(alloc, c)?)),
        Simpl::Seq(first, last) => Ok(Peel::Last(Front::Seq(first.copy(alloc)?), &**last)),
        Simpl::Catch(first, last) => Ok(Peel::Last(Front::Catch(first.copy(alloc)?), &**last)),
        Simpl::Cond(test, first, last) => {
            let test = test.boxed_copy(alloc)?;
            Ok(Peel::Last(Front::Cond(test, first.copy(alloc)?), &**last))
        }
        Simpl::Guard(condition, last) => {
            Ok(Peel::Last(Front::Guard(copy_of_condition(alloc, condition)?), &**last))
        }
        Simpl::While(conditions, test, last) => {
            let conditions = copy_of_conditions(alloc, conditions)?;
            Ok(Peel::Last(Front::While(conditions, test.boxed_copy(alloc)?), &**last))
        }
    }
}

// A command with fronts around it, the first front outermost.
#[tactic(auto, using(crate::proofs::WithFronts::with_fronts_push))]
fn closed(alloc: Global, mut fronts: Vec<Front>, last: Box<Simpl>) -> Result<Box<Simpl>, AllocError>
    ensures { IfOk result (λ c.
        simpl_of c.value ≡ with_fronts fronts.items (simpl_of last.value)) }
{
    let mut copy = last;
    'back: while let Some(front) = fronts.pop() {
        copy = boxed(alloc, whole(front, copy))?;
    }
    Ok(copy)
}

// A copy of a command without commands in it.
fn copy_of_step(alloc: Global, c: &Simpl) -> Result<Box<Simpl>, AllocError>
    requires { IsStep (simpl_of c.now) }
    ensures { IfOk result (λ copy. simpl_of copy.value ≡ simpl_of c.now) }
{
    match c {
        Simpl::Skip => boxed(alloc, Simpl::Skip),
        Simpl::Throw => boxed(alloc, Simpl::Throw),
        Simpl::Set(name, value) => {
            let value = value.boxed_copy(alloc)?;
            let name = name.clone()?;
            boxed(alloc, Simpl::Set(name, Box::into_inner(value)))
        }
        Simpl::SetGlobal(name, path, value) => {
            let path = path.copy(alloc)?;
            let value = value.boxed_copy(alloc)?;
            let name = name.clone()?;
            boxed(alloc, Simpl::SetGlobal(name, path, Box::into_inner(value)))
        }
        Simpl::Store(ty, pointer, path, value) => {
            let pointer = pointer.boxed_copy(alloc)?;
            let path = path.copy(alloc)?;
            let value = value.boxed_copy(alloc)?;
            let ty = copy_of(alloc, ty)?;
            let pointer = Box::into_inner(pointer);
            boxed(
                alloc,
                Simpl::Store(ty, pointer, path, Box::into_inner(value)),
            )
        }
        Simpl::Pick(name) => boxed(alloc, Simpl::Pick(name.clone()?)),
        Simpl::Call(target, function, arguments) => {
            let target = copy_of_target(target)?;
            let arguments = copy_exps(alloc, arguments)?;
            let function = function.clone()?;
            boxed(alloc, Simpl::Call(target, function, arguments))
        }
        _ => unreachable!(),
    }
}

fn copy_of_target(target: &Option<String>) -> Result<Option<String>, AllocError>
    ensures { IfOk result (λ copy.
        option_map string_bytes copy ≡ option_map string_bytes target.now) }
{
    match target {
        Some(name) => Ok(Some(name.clone()?)),
        None => Ok(None),
    }
}
