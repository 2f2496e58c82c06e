//! Forms of commands: flat ones, and how many commands there are.

ghost use Rattle.std.specs.Prelude.{◌≡◌, min};
ghost use Rattle.simpl_lang.specs.Form.{is_flat, commands};
ghost use Rattle.simpl_lang.specs.CodeCommand.{simpl_of};

use crate::command::Simpl;

/// Whether there is no throw and no catch. It goes along a sequence by a loop, since a text may
/// have long ones.
pub fn is_flat(c: &Simpl) -> bool
    ensures { result ≡ is_flat (simpl_of c.now) }
{
    let mut rest = c;
    'down: loop {
        match rest {
            Simpl::Skip
            | Simpl::Set(_, _)
            | Simpl::SetGlobal(_, _, _)
            | Simpl::Store(_, _, _, _)
            | Simpl::Pick(_)
            | Simpl::Call(_, _, _) => return true,
            Simpl::Throw | Simpl::Catch(_, _) => return false,
            Simpl::Seq(first, last) | Simpl::Cond(_, first, last) => {
                if !is_flat(first) {
                    return false;
                }
                rest = &**last;
            }
            Simpl::Guard(_, last) | Simpl::While(_, _, last) => rest = &**last,
        }
    }
}

/// How many commands there are, each condition of a while counting for one; past 2^64 - 1 it is
/// that. It goes along a sequence by a loop.
pub fn commands(c: &Simpl) -> u64
    ensures { result ≡ min (commands (simpl_of c.now)) u64.MAX }
{
    let mut before = 0u64;
    let mut rest = c;
    'down: loop {
        before = before.saturating_add(1);
        match rest {
            Simpl::Skip
            | Simpl::Throw
            | Simpl::Set(_, _)
            | Simpl::SetGlobal(_, _, _)
            | Simpl::Store(_, _, _, _)
            | Simpl::Pick(_)
            | Simpl::Call(_, _, _) => return before,
            Simpl::Seq(first, last) | Simpl::Cond(_, first, last) | Simpl::Catch(first, last) => {
                before = before.saturating_add(commands(first));
                rest = &**last;
            }
            Simpl::Guard(_, last) => rest = &**last,
            Simpl::While(conditions, _, last) => {
                before = before.saturating_add(conditions.len() as u64);
                rest = &**last;
            }
        }
    }
}
