//! What is written of a list behind its last part.

ghost use Rattle.std.specs.Prelude.{◌≡◌, ◌++◌, OnOk};
ghost use Rattle.abs_print.specs.CodeEndings.{ending_text, endings_text};

use crate::texts::{push, push_natural, push_number};
use c_values::Number;
use std::alloc::AllocError;

/// What stands behind the last part of a list that is written from its front on.
#[derive(Clone, Copy)]
pub(crate) enum Ending {
    List,
    /// The length of an array.
    Length(u32),
    /// The number that another one is at most.
    AtMost(Number),
}

/// Endings of lists, the last of which is the innermost list's.
#[tactic(auto, using(crate::proofs::Along::endings_push))]
pub(crate) fn push_endings(out: &mut Vec<u8>, mut endings: Vec<Ending>) -> Result<(), AllocError>
    ensures { OnOk result (out.new.items ≡ out.old.items ++ endings_text endings.items) }
{
    'back: while let Some(ending) = endings.pop() {
        push_ending(out, ending)?;
    }
    Ok(())
}

fn push_ending(out: &mut Vec<u8>, ending: Ending) -> Result<(), AllocError>
    ensures { OnOk result (out.new.items ≡ out.old.items ++ ending_text ending) }
{
    match ending {
        Ending::List => {}
        Ending::Length(length) => {
            push(out, " ")?;
            push_natural(out, u64::from(length))?;
        }
        Ending::AtMost(high) => {
            push(out, " <= ")?;
            push_number(out, high)?;
        }
    }
    push(out, ")")
}
