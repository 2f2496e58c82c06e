//! Down the tidy sequences in first place of a sequence of two tidy programs, as they are turned.

ghost use Rattle.std.specs.Prelude.{map, string_bytes, IfOk};
ghost use Rattle.monad_lang.specs.Program.{Bind};
ghost use Rattle.monad_lang.specs.CodeProgram.{mon_of};
ghost use Rattle.rule_eq.specs.Rule.{Assoc};
ghost use Rattle.rule_walks.specs.Walk.{Nothing, one_walk, stays, and_led};
ghost use Rattle.polish.specs.Polished.{leaf};
ghost use Rattle.polish.specs.SeenFollowed.{stage};
ghost use Rattle.polish.specs.CodeDescent.{IsKept, IsDeeper};
ghost use Rattle.polish.specs.Followed.{IsTurned};

use crate::descent::{Descent, assoc_level, with_part};
use crate::entering::to_turn;
use expression_steps::Scoped;
use given_scalars::{Sequence, Unit};
use monad_lang::Mon;
use rule_walks::Ahead;
use std::alloc::{AllocError, Global};

/// The first parts that were passed, and what is left in first place.
#[derive(Drop)]
pub(crate) struct Turned<'a> {
    pub(crate) down: Descent,
    pub(crate) first: &'a Mon,
}

// Past the first part of a sequence in first place, which is turned.
#[tactic(auto, using(crate::proofs::Deeper::same_stage))]
fn past_first<'x>(
    alloc: Global,
    unit: Unit<'_>,
    scope: &'x Scoped<'x>,
    down: Descent,
    inner: Sequence<'_>,
    names: &[String],
    rest: &Mon,
) -> Result<Descent, AllocError>
    requires { IsKept unit scope.now down }
    ensures { IfOk result (λ new. IsDeeper unit.entry scope.now down (stage
        (and_led Nothing (one_walk (leaf Assoc)) (Bind (mon_of inner.entry.first.now)
        (map string_bytes inner.entry.names.now)
        (Bind (mon_of inner.entry.last.now) (map string_bytes names.now) (mon_of rest.now))))
        stays (mon_of inner.entry.first.now) (map string_bytes inner.entry.names.now)) new) }
{
    let level = assoc_level(alloc, Ahead::Stayed, inner, inner.last, names, rest)?;
    with_part(alloc, unit, scope, down, level, inner.first, inner.names)
}

/// Down from a sequence in first place that is turned.
#[tactic(auto, using(crate::proofs::Deeper::none_kept, crate::proofs::Onward::turned_first, crate::proofs::Onward::turned_more))]
pub(crate) fn turned_down<'a, 'x>(
    alloc: Global,
    unit: Unit<'_>,
    scope: &'x Scoped<'x>,
    inner: Sequence<'a>,
    names: &[String],
    rest: &Mon,
) -> Result<Turned<'a>, AllocError>
    ensures { IfOk result (λ t. IsTurned unit.entry scope.now (map string_bytes names.now)
        (mon_of rest.now) (mon_of inner.entry.first.now) (map string_bytes inner.entry.names.now)
        (mon_of inner.entry.last.now) t.down (mon_of t.first.now)) }
{
    let levels = Vec::new(alloc);
    let parts = Vec::new(alloc);
    let none = Descent { levels, parts };
    let mut down = past_first(alloc, unit, &*scope, none, inner, names, rest)?;
    let mut first = inner.last;
    'down: while let Some(next) = to_turn(first, names, rest) {
        down = past_first(alloc, unit, &*scope, down, next, names, rest)?;
        first = next.last;
    }
    Ok(Turned { down, first })
}
