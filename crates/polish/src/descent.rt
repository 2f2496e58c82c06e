//! Sequences whose second parts were entered, on the way down a program.

ghost use Rattle.std.specs.Prelude.{◌≡◌, ◌∷◌, ◌++◌, [], map, string_bytes, unwrap_or, IfOk};
ghost use Rattle.expression_lang.specs.CodeSort.{scalar_of};
ghost use Rattle.monad_lang.specs.Program.{Bind};
ghost use Rattle.monad_lang.specs.CodeProgram.{mon_of};
ghost use Rattle.monad_lang.specs.Sorted.{setting_with, scalars_given};
ghost use Rattle.rule_trees.specs.RuleTree.{node, no_trees};
ghost use Rattle.rule_eq.specs.Rule.{Assoc};
ghost use Rattle.rule_walks.specs.Walk.{and_led, one_walk, over_bind, stays};
ghost use Rattle.polish.specs.Seen.{seen_parted};
ghost use Rattle.polish.specs.CodeParted.{parted_in};
ghost use Rattle.polish.specs.SeenFollowed.{stage};
ghost use Rattle.polish.specs.CodeDescent.{setting_past, kept_names, given_names, IsKept, IsDeeper};
ghost use Rattle.rule_walks.specs.CodeWalks.{walk_in, before_in};

use expression_lang::{Scalar, copy_names};
use expression_steps::{PassedPart, Scoped};
use given_scalars::{Sequence, Unit, scalars_given};
use monad_lang::{Mon, boxed};
use rule_eq::Rule;
use rule_walks::{Ahead, Walk, in_both, leaf, led, one};
use std::alloc::{AllocError, Global};

/// What was done at a sequence before its second part was entered, and in its first part.
#[derive(Drop)]
pub(crate) struct Level {
    pub(crate) before: Ahead,
    pub(crate) walk: Walk,
}

/// The sequences that were entered, the outermost first: a level and a first part for each.
#[derive(Drop)]
pub(crate) struct Descent {
    pub(crate) levels: Vec<Level>,
    pub(crate) parts: Vec<PassedPart>,
}

/// A copy of a sequence.
pub(crate) fn copied(
    alloc: Global,
    first: &Mon,
    names: &[String],
    rest: &Mon,
) -> Result<Box<Mon>, AllocError>
    ensures { IfOk result (λ m. mon_of m.value
        ≡ Bind (mon_of first.now) (map string_bytes names.now) (mon_of rest.now)) }
{
    let first = first.copy(alloc)?;
    let rest = rest.copy(alloc)?;
    let names = copy_names(alloc, names)?;
    boxed(alloc, Mon::Bind(first, names, rest))
}

/// What was done before, and then a walk to a sequence of these parts. It is copied only where
/// something was done.
#[tactic(auto, using(rule_walks::proofs::Seconds::led_stays))]
pub(crate) fn led_to(
    alloc: Global,
    ahead: Ahead,
    walk: Walk,
    first: &Mon,
    names: &[String],
    rest: &Mon,
) -> Result<Ahead, AllocError>
    ensures { IfOk result (λ new. before_in new ≡ and_led (before_in ahead) (walk_in walk)
        (Bind (mon_of first.now) (map string_bytes names.now) (mon_of rest.now))) }
{
    match walk {
        Walk::Stayed => Ok(ahead),
        Walk::Went(chain, count) => {
            let program = copied(alloc, first, names, rest)?;
            led(alloc, ahead, Walk::Went(chain, count), program)
        }
    }
}

// The scalars of the names that a first part binds, behind the parts that were passed. Where it
// binds none, it isn't looked at.
#[tactic(auto, using(crate::proofs::Deeper::no_names))]
fn scalars_bound<'x>(
    alloc: Global,
    unit: Unit<'_>,
    scope: &'x Scoped<'x>,
    parts: &'x [PassedPart],
    first: &Mon,
    names: &[String],
) -> Result<Vec<Scalar>, AllocError>
    ensures { IfOk result (λ scalars. let t = setting_past unit.entry scope.now parts.now in
        setting_with (map string_bytes names.now) (map scalar_of scalars.items) t
        ≡ setting_with (map string_bytes names.now)
        (unwrap_or (scalars_given t (mon_of first.now)) []) t) }
{
    if names.is_empty() {
        return Ok(Vec::new(alloc));
    }
    let inner = Scoped::Behind(scope, parts);
    match scalars_given(alloc, first, &inner, unit)? {
        Some(scalars) => Ok(scalars),
        None => Ok(Vec::new(alloc)),
    }
}

// The sequences that were entered, and one more.
fn entered(down: Descent, level: Level, part: PassedPart) -> Result<Descent, AllocError>
    ensures levels { IfOk result (λ new. new.levels.items ≡ down.levels.items ++ level ∷ []) }
    ensures parts { IfOk result (λ new. new.parts.items ≡ down.parts.items ++ part ∷ []) }
{
    let Descent {
        mut levels,
        mut parts,
    } = down;
    levels.push(level)?;
    parts.push(part)?;
    Ok(Descent { levels, parts })
}

// A first part with its names, behind parts that were passed.
fn part_behind<'x>(
    alloc: Global,
    unit: Unit<'_>,
    scope: &'x Scoped<'x>,
    parts: &'x [PassedPart],
    first: &Mon,
    names: &[String],
) -> Result<PassedPart, AllocError>
    ensures first { IfOk result (λ part. mon_of part.first.value ≡ mon_of first.now) }
    ensures names { IfOk result (λ part.
        map string_bytes part.names.items ≡ map string_bytes names.now) }
    ensures told { IfOk result (λ part. let t = setting_past unit.entry scope.now parts.now in
        kept_names t part ≡ given_names t part) }
{
    let scalars = scalars_bound(alloc, unit, scope, parts, first, names)?;
    let first = first.copy(alloc)?;
    let names = copy_names(alloc, names)?;
    Ok(PassedPart {
        first,
        names,
        scalars,
    })
}

/// A descent that has come past this first part.
#[tactic(auto, using(crate::proofs::Deeper::one_deeper))]
pub(crate) fn with_part<'x>(
    alloc: Global,
    unit: Unit<'_>,
    scope: &'x Scoped<'x>,
    down: Descent,
    level: Level,
    first: &Mon,
    names: &[String],
) -> Result<Descent, AllocError>
    requires { IsKept unit scope.now down }
    ensures { IfOk result (λ new. IsDeeper unit.entry scope.now down
        (stage (before_in level.before) (walk_in level.walk) (mon_of first.now)
        (map string_bytes names.now)) new) }
{
    let part = part_behind(alloc, unit, &*scope, &down.parts, first, names)?;
    entered(down, level, part)
}

/// What a walk does to a sequence before the sequence is turned, and what is left to be done to its
/// second part then.
#[derive(Drop)]
pub(crate) struct Parted<'a> {
    pub(crate) before: Walk,
    pub(crate) second: &'a Mon,
    pub(crate) walk: Walk,
}

/// All of it before, but where the walk goes to the second part alone.
#[tactic(auto, using(crate::proofs::Parting::none_parted, crate::proofs::Parting::first_parted, crate::proofs::Parting::second_parted, crate::proofs::Parting::other_parted))]
pub(crate) fn parted_at<'a>(walk: Walk, raw: &'a Mon, tidy: &'a Mon) -> Parted<'a>
    ensures { parted_in result
        ≡ seen_parted (walk_in walk) (mon_of raw.now) (mon_of tidy.now) }
{
    match walk {
        Walk::Went(chain, count) => match raw {
            Mon::Bind(_, _, last) => {
                if count == 0 {
                    return Parted {
                        before: Walk::Went(chain, count),
                        second: tidy,
                        walk: Walk::Stayed,
                    };
                }
                Parted {
                    before: Walk::Stayed,
                    second: &**last,
                    walk: Walk::Went(chain, count - 1),
                }
            }
            _ => Parted {
                before: Walk::Went(chain, count),
                second: tidy,
                walk: Walk::Stayed,
            },
        },
        Walk::Stayed => Parted {
            before: Walk::Stayed,
            second: tidy,
            walk: Walk::Stayed,
        },
    }
}

/// The level of a sequence in first place that is turned, after what was done before.
pub(crate) fn assoc_level(
    alloc: Global,
    ahead: Ahead,
    it: Sequence<'_>,
    second: &Mon,
    names: &[String],
    rest: &Mon,
) -> Result<Level, AllocError>
    ensures before { IfOk result (λ level. before_in level.before
        ≡ and_led (before_in ahead) (one_walk (node Assoc no_trees))
        (Bind (mon_of it.entry.first.now) (map string_bytes it.entry.names.now)
        (Bind (mon_of second.now) (map string_bytes names.now) (mon_of rest.now)))) }
    ensures walk { IfOk result (λ level. walk_in level.walk ≡ stays) }
{
    let last = copied(alloc, second, names, rest)?;
    let first = it.first.copy(alloc)?;
    let own = copy_names(alloc, it.names)?;
    let program = boxed(alloc, Mon::Bind(first, own, last))?;
    let tree = leaf(alloc, Rule::Assoc);
    let before = led(alloc, ahead, one(alloc, tree), program)?;
    Ok(Level {
        before,
        walk: Walk::Stayed,
    })
}

/// The same where a walk leads to the sequence first.
pub(crate) fn turned_level(
    alloc: Global,
    ahead: Ahead,
    before: Walk,
    inner: Sequence<'_>,
    second: &Mon,
    it: Sequence<'_>,
) -> Result<Level, AllocError>
    ensures before { IfOk result (λ level. before_in level.before
        ≡ and_led (and_led (before_in ahead) (over_bind (walk_in before) stays)
        (Bind (Bind (mon_of inner.entry.first.now) (map string_bytes inner.entry.names.now)
        (mon_of second.now))
        (map string_bytes it.entry.names.now) (mon_of it.entry.last.now)))
        (one_walk (node Assoc no_trees))
        (Bind (mon_of inner.entry.first.now) (map string_bytes inner.entry.names.now)
        (Bind (mon_of second.now) (map string_bytes it.entry.names.now)
        (mon_of it.entry.last.now)))) }
    ensures walk { IfOk result (λ level. walk_in level.walk ≡ stays) }
{
    let walk = in_both(alloc, before, Walk::Stayed)?;
    let ahead = led_to_inner(alloc, ahead, walk, inner, second, it)?;
    assoc_level(alloc, ahead, inner, second, it.names, it.last)
}

// What was done before, and then a walk to a sequence whose first part is a sequence.
#[tactic(auto, using(rule_walks::proofs::Seconds::led_stays))]
fn led_to_inner(
    alloc: Global,
    ahead: Ahead,
    walk: Walk,
    inner: Sequence<'_>,
    second: &Mon,
    it: Sequence<'_>,
) -> Result<Ahead, AllocError>
    ensures { IfOk result (λ new. before_in new ≡ and_led (before_in ahead) (walk_in walk)
        (Bind (Bind (mon_of inner.entry.first.now) (map string_bytes inner.entry.names.now)
        (mon_of second.now))
        (map string_bytes it.entry.names.now) (mon_of it.entry.last.now))) }
{
    match walk {
        Walk::Stayed => Ok(ahead),
        Walk::Went(chain, count) => {
            let first = copied(alloc, inner.first, inner.names, second)?;
            led_to(
                alloc,
                ahead,
                Walk::Went(chain, count),
                &first,
                it.names,
                it.last,
            )
        }
    }
}
