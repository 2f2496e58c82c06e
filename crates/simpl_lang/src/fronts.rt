//! Commands of which the last command is apart.

ghost use Rattle.std.specs.Prelude.{◌≡◌, IfOk};
ghost use Rattle.simpl_lang.specs.CodeCommand.{simpl_of};
ghost use Rattle.simpl_lang.specs.CodeFront.{with_front};

use crate::command::{Condition, Simpl};
use expression_lang::Exp;
use std::alloc::{AllocError, Global};

/// All but the last command of a command.
#[derive(Drop)]
pub enum Front {
    Seq(Box<Simpl>),
    Cond(Box<Exp>, Box<Simpl>),
    Guard(Condition),
    Catch(Box<Simpl>),
    While(Vec<Condition>, Box<Exp>),
}

/// A command of its own on the heap.
pub fn boxed(alloc: Global, c: Simpl) -> Result<Box<Simpl>, AllocError>
    ensures { IfOk result (λ boxed. boxed.value ≡ c) }
{
    Ok(Box::new(alloc, c)?)
}

/// A command from all but its last command and that.
pub fn whole(front: Front, last: Box<Simpl>) -> Simpl
    ensures { simpl_of result ≡ with_front front (simpl_of last.value) }
{
    match front {
        Front::Seq(first) => Simpl::Seq(first, last),
        Front::Cond(test, first) => Simpl::Cond(Box::into_inner(test), first, last),
        Front::Guard(condition) => Simpl::Guard(condition, last),
        Front::Catch(first) => Simpl::Catch(first, last),
        Front::While(conditions, test) => Simpl::While(conditions, Box::into_inner(test), last),
    }
}
