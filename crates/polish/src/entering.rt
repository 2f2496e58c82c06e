//! What is done at a sequence whose first part is tidy, before its second part is.

ghost use Rattle.std.specs.Prelude.{◌≡◌, ◌<◌, true, false, map, string_bytes, IfOk, IfSome, IfNone};
ghost use Rattle.monad_lang.specs.Program.{Bind};
ghost use Rattle.monad_lang.specs.CodeProgram.{mon_of};
ghost use Rattle.monad_lang.specs.Sorted.{Setting};
ghost use Rattle.monad_lang.specs.declared.program.Mon.{size-Mon};
ghost use Rattle.rule_eq.specs.Table.{point};
ghost use Rattle.expression_steps.specs.CodePoint.{known_in, facts_behind};
ghost use Rattle.polish.specs.Climbed.{next_of};
ghost use Rattle.polish.specs.CodeNextView.{next_in};
ghost use Rattle.polish.specs.SeenFollowed.{turns};

use crate::putting::first_constant;
use crate::settling::is_bind_ret;
use ac_expr::Facts;
use expression_steps::{Passed, PassedPart, facts_behind, holds};
use given_scalars::{Sequence, split};
use monad_lang::{Mon, all_kept};
use std::alloc::AllocError;

/// The sequence in first place, where it is turned.
pub(crate) fn to_turn<'a>(first: &'a Mon, names: &[String], rest: &Mon) -> Option<Sequence<'a>>
    ensures parts { IfSome result (λ inner. mon_of first.now
        ≡ Bind (mon_of inner.first.now) (map string_bytes inner.names.now)
        (mon_of inner.last.now)) }
    ensures turns { IfSome result (λ _.
        turns (mon_of first.now) (map string_bytes names.now) (mon_of rest.now) ≡ true) }
    ensures smaller { IfSome result (λ inner. size-Mon inner.last.now < size-Mon first.now) }
    ensures stands { IfNone result (
        turns (mon_of first.now) (map string_bytes names.now) (mon_of rest.now) ≡ false) }
{
    let inner = split(first)?;
    if is_bind_ret(first, names, rest) || !all_kept(inner.names, names, rest) {
        None
    } else {
        Some(inner)
    }
}

/// What is done where no sequence in first place is turned.
#[derive(Clone, Copy)]
pub(crate) enum Next {
    /// The second part is entered.
    Enters,
    /// The guard in first place is known, and goes.
    Skips,
    /// The sequence in first place is all.
    Stands,
    /// The value at this position is put in.
    Puts(usize),
}

/// What is done next.
#[tactic(auto, using(crate::proofs::FollowedSeen::next_unturned))]
fn next_of(facts: &Facts<'_, Passed<'_>>, first: &Mon, names: &[String], rest: &Mon) -> Next
    requires { turns (mon_of first.now) (map string_bytes names.now) (mon_of rest.now) ≡ false }
    ensures { (t : Setting) → next_in result
        ≡ next_of (point (known_in facts.now) t) (mon_of first.now) (map string_bytes names.now)
        (mon_of rest.now) }
{
    match first {
        Mon::Bind(_, _, _) => {
            if is_bind_ret(first, names, rest) {
                Next::Stands
            } else {
                Next::Enters
            }
        }
        Mon::Ret(values) => match first_constant(values, names, rest) {
            Some(position) => Next::Puts(position),
            None => Next::Enters,
        },
        Mon::Guard(e) => {
            if names.is_empty() && holds(facts, e) {
                Next::Skips
            } else {
                Next::Enters
            }
        }
        _ => Next::Enters,
    }
}

/// What is done next behind parts that were passed.
pub(crate) fn next_behind<'x>(
    facts: &'x Facts<'x, Passed<'x>>,
    parts: &'x [PassedPart],
    first: &Mon,
    names: &[String],
    rest: &Mon,
) -> Result<Next, AllocError>
    requires { turns (mon_of first.now) (map string_bytes names.now) (mon_of rest.now) ≡ false }
    ensures { (t : Setting) → IfOk result (λ next. next_in next
        ≡ next_of (point (facts_behind parts.now (known_in facts.now)) t) (mon_of first.now)
        (map string_bytes names.now) (mon_of rest.now)) }
{
    let known = facts_behind(facts, parts)?;
    Ok(next_of(&known, first, names, rest))
}
