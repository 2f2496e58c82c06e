//! Down a sequence whose first part is tidy, as long as the sequence in first place is turned.

ghost use Rattle.std.specs.Prelude.{◌≡◌, true, map, string_bytes, IfOk};
ghost use Rattle.monad_lang.specs.Program.{Bind};
ghost use Rattle.monad_lang.specs.CodeProgram.{mon_of};
ghost use Rattle.rule_eq.specs.Rule.{BindRet, GuardKnown};
ghost use Rattle.rule_walks.specs.Walk.{one_walk, after_before, and_led};
ghost use Rattle.rule_walks.specs.CodeWalks.{walk_in, before_in, made_in};
ghost use Rattle.expression_steps.specs.CodePoint.{known_in};
ghost use Rattle.polish.specs.Polished.{leaf, at_once};
ghost use Rattle.polish.specs.Seen.{seen};
ghost use Rattle.polish.specs.SeenFollowed.{led_whole, turns};
ghost use Rattle.polish.specs.CodeDescent.{IsKept};
ghost use Rattle.polish.specs.Followed.{LeadsOn, IsBottom};

use crate::descent::{Descent, Parted, led_to, parted_at, turned_level, with_part};
use crate::entering::{Next, next_behind, to_turn};
use ac_expr::Facts;
use expression_steps::{Passed, Scoped};
use given_scalars::{Sequence, Unit};
use monad_lang::Mon;
use rule_eq::Rule;
use rule_walks::{Ahead, Walk, Walked, at_once, in_both, joined, leaf, led, one};
use std::alloc::{AllocError, Global};

/// What became of a sequence whose first part is tidy.
#[derive(Drop)]
pub(crate) enum Followed {
    /// Its second part is left, after what was done.
    Goes(Descent, Ahead),
    /// It is tidy.
    Ends(Descent, Walked),
}

/// A place on the way down: what was done before, and a first part as it was and as it is, with the
/// walk between them.
#[derive(Drop)]
pub(crate) struct Here<'a> {
    pub(crate) down: Descent,
    pub(crate) ahead: Ahead,
    pub(crate) walk: Walk,
    pub(crate) raw: &'a Mon,
    pub(crate) first: &'a Mon,
}

/// The place where no sequence in first place is turned, and what is done next there.
#[derive(Drop)]
pub(crate) struct Bottom<'a> {
    pub(crate) here: Here<'a>,
    pub(crate) next: Next,
}

// The place after the sequence in first place is turned.
#[tactic(auto, using(crate::proofs::Onward::turned_by))]
fn turned_once<'a, 'x>(
    alloc: Global,
    unit: Unit<'_>,
    scope: &'x Scoped<'x>,
    here: Here<'a>,
    inner: Sequence<'a>,
    it: Sequence<'_>,
) -> Result<Here<'a>, AllocError>
    requires kept { IsKept unit scope.now here.down }
    requires parts { mon_of here.first.now
        ≡ Bind (mon_of inner.first.now) (map string_bytes inner.names.now) (mon_of inner.last.now) }
    requires turns { turns (mon_of here.first.now) (map string_bytes it.names.now)
        (mon_of it.last.now) ≡ true }
    ensures leads { IfOk result (λ new. LeadsOn unit.entry scope.now
        (map string_bytes it.entry.names.now)
        (mon_of it.entry.last.now) here.entry new) }
    ensures first { IfOk result (λ new. new.first.now ≡ inner.entry.last.now) }
{
    let Here {
        down,
        ahead,
        walk,
        raw,
        first: _,
    } = here;
    let Parted {
        before,
        second,
        walk,
    } = parted_at(walk, raw, inner.last);
    let level = turned_level(alloc, ahead, before, inner, second, it)?;
    let down = with_part(alloc, unit, scope, down, level, inner.first, inner.names)?;
    Ok(Here {
        down,
        ahead: Ahead::Stayed,
        walk,
        raw: second,
        first: inner.last,
    })
}

/// Down, as long as the sequence in first place is turned.
#[tactic(auto, using(crate::proofs::Onward::here_first, crate::proofs::Onward::and_further, crate::proofs::Onward::bottom_reached))]
pub(crate) fn to_bottom<'a, 'x>(
    alloc: Global,
    unit: Unit<'_>,
    scope: &'x Scoped<'x>,
    facts: &'x Facts<'x, Passed<'x>>,
    here: Here<'a>,
    it: Sequence<'_>,
) -> Result<Bottom<'a>, AllocError>
    requires { IsKept unit scope.now here.down }
    ensures { IfOk result (λ bottom. IsBottom unit.entry scope.now (known_in facts.now)
        (map string_bytes it.entry.names.now) (mon_of it.entry.last.now) here.entry bottom) }
{
    let mut here = here;
    'turns: while let Some(inner) = to_turn(here.first, it.names, it.last) {
        here = turned_once(alloc, unit, &*scope, here, inner, it)?;
    }
    let next = next_behind(&*facts, &here.down.parts, here.first, it.names, it.last)?;
    Ok(Bottom { here, next })
}

/// What was done before, and then a walk in the first part to the sequence of this first part.
pub(crate) fn led_whole(
    alloc: Global,
    ahead: Ahead,
    walk: Walk,
    first: &Mon,
    it: Sequence<'_>,
) -> Result<Ahead, AllocError>
    ensures { IfOk result (λ new. before_in new
        ≡ led_whole (before_in ahead) (walk_in walk) (mon_of first.now)
        (map string_bytes it.entry.names.now) (mon_of it.entry.last.now)) }
{
    let walk = in_both(alloc, walk, Walk::Stayed)?;
    led_to(alloc, ahead, walk, first, it.names, it.last)
}

/// The same, and then the guard in first place goes.
pub(crate) fn led_past(
    alloc: Global,
    ahead: Ahead,
    walk: Walk,
    first: &Mon,
    it: Sequence<'_>,
) -> Result<Ahead, AllocError>
    ensures { IfOk result (λ new. before_in new
        ≡ and_led (led_whole (before_in ahead) (walk_in walk) (mon_of first.now)
        (map string_bytes it.entry.names.now) (mon_of it.entry.last.now))
        (one_walk (leaf GuardKnown)) (mon_of it.entry.last.now)) }
{
    let ahead = led_whole(alloc, ahead, walk, first, it)?;
    let tree = leaf(alloc, Rule::GuardKnown);
    let last = it.last.copy(alloc)?;
    led(alloc, ahead, one(alloc, tree), last)
}

/// The first part, where it is all, after what was done before.
pub(crate) fn first_alone(
    alloc: Global,
    ahead: Ahead,
    walk: Walk,
    first: &Mon,
    it: Sequence<'_>,
) -> Result<Walked, AllocError>
    ensures { IfOk result (λ p. made_in p
        ≡ after_before (led_whole (before_in ahead) (walk_in walk) (mon_of first.now)
        (map string_bytes it.entry.names.now) (mon_of it.entry.last.now))
        (seen (at_once BindRet (mon_of first.now)))) }
{
    let ahead = led_whole(alloc, ahead, walk, first, it)?;
    let p = at_once(alloc, Rule::BindRet, first.copy(alloc)?);
    joined(alloc, ahead, p)
}
