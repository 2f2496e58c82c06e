//! Programs of which the last program is apart.

ghost use Rattle.std.specs.Prelude.{◌≡◌, IfOk};
ghost use Rattle.monad_lang.specs.CodeProgram.{mon_of};
ghost use Rattle.monad_lang.specs.CodeFront.{with_front};

use crate::program::{Mon, Start};
use expression_lang::Exp;
use std::alloc::{AllocError, Global};

/// All but the last program of a program.
#[derive(Drop)]
pub enum Front {
    Bind(Box<Mon>, Vec<String>),
    If(Box<Exp>, Box<Mon>),
    Loop(Vec<Start>, Box<Exp>, Box<Exp>),
}

/// A program of its own on the heap.
pub fn boxed(alloc: Global, m: Mon) -> Result<Box<Mon>, AllocError>
    ensures { IfOk result (λ boxed. boxed.value ≡ m) }
{
    Ok(Box::new(alloc, m)?)
}

/// A program from all but its last program and that.
pub fn whole(front: Front, last: Box<Mon>) -> Mon
    ensures { mon_of result ≡ with_front front (mon_of last.value) }
{
    match front {
        Front::Bind(first, names) => Mon::Bind(first, names, last),
        Front::If(test, first) => Mon::If(Box::into_inner(test), first, last),
        Front::Loop(starts, guard, test) => {
            Mon::Loop(starts, Box::into_inner(guard), Box::into_inner(test), last)
        }
    }
}
