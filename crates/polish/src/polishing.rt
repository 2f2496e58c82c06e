//! How programs are made tidy, with the steps that lead there.

ghost use Rattle.std.specs.Prelude.{◌≡◌, List, map, string_bytes, IfOk};
ghost use Rattle.ac_expr.specs.Fact.{Fact as Known};
ghost use Rattle.monad_lang.specs.Program as plain;
ghost use Rattle.monad_lang.specs.CodeProgram.{mon_of};
ghost use Rattle.rule_eq.specs.Rule.{IfConst};
ghost use Rattle.rule_eq.specs.Table.{point, behind};
ghost use Rattle.rule_walks.specs.Walk.{Nothing, one_walk, after_before, and_led};
ghost use Rattle.rule_walks.specs.CodeWalks.{walk_in, before_in, made_in};
ghost use Rattle.expression_steps.specs.CodePoint.{known_in};
ghost use Rattle.given_scalars.specs.CodeScalars.{setting_in, IsNoBind};
ghost use Rattle.polish.specs.Polished.{leaf, bound, chosen, turned, turning, polished, what_is_bound};
ghost use Rattle.polish.specs.Parts.{IsIf, IsLoop};
ghost use Rattle.polish.specs.Seen.{seen};
ghost use Rattle.polish.specs.SeenFollowed.{seen_followed};
ghost use Rattle.polish.specs.Weight.{weight};
ghost use Rattle.polish.specs.Descent.{seen_raised};
ghost use Rattle.polish.specs.CodePoint.{point_in};
ghost use Rattle.polish.specs.CodeDescent.{point_behind, stage_in, IsKept, up_from, rebuilt};
ghost use Rattle.polish.specs.CodeNext.{Puts, stepped};
ghost use Rattle.polish.specs.CodeNextView.{next_in, settling_in};
ghost use Rattle.polish.specs.Followed.{heavy, ending, IsFollowed};

use crate::branches::{
    Inside, chosen_by, held_by, started, test_of, turn_of, with_body, with_branches,
};
use crate::descent::{Descent, Level, copied, led_to, with_part};
use crate::entering::Next;
use crate::following::{Bottom, Followed, Here, first_alone, led_past, led_whole, to_bottom};
use crate::putting::put_at;
use crate::rewriting::{after_all, after_steps, behind, whole};
use crate::settling::{Settling, is_nothing, settling_of};
use crate::turning::{Turned, turned_down};
use ac_expr::{Fact, Facts};
use expression_lang::Names;
use expression_steps::{Passed, PassedPart, Scoped, facts_behind};
use given_scalars::{Sequence, Unit, split};
use monad_lang::{Mon, boxed};
use rule_eq::Rule;
use rule_walks::{Ahead, Walked, at_once, in_both, joined, leaf, led, one, unchanged};
use std::alloc::{AllocError, Global};

/// A program made tidy, where these names are in scope and these facts are known. It goes along
/// sequences by loops, since a text may have long ones.
#[cycle(polishing)]
#[tactic(auto, using(crate::proofs::Onward::onward_first, crate::proofs::Onward::rest_lighter, crate::proofs::Onward::onward_last, crate::proofs::Onward::last_lighter, crate::proofs::Onward::part_lighter, crate::proofs::Onward::sequence_most, crate::proofs::Onward::onward_more, crate::proofs::Onward::onward_ends, crate::proofs::Onward::ends_lighter))]
pub(crate) fn polished<'x>(
    alloc: Global,
    unit: Unit<'_>,
    scope: &'x Scoped<'x>,
    facts: &'x Facts<'x, Passed<'x>>,
    m: &Mon,
) -> Result<Walked, AllocError>
    ensures { IfOk result (λ p. made_in p
        ≡ seen (polished (point_in unit.entry scope.now facts.now) (mon_of m.now))) }
{
    let levels = Vec::new(alloc);
    let parts = Vec::new(alloc);
    let mut down = Descent { levels, parts };
    let mut ahead = Ahead::Stayed;
    let mut rest = m;
    'along: loop {
        let Some(it) = split(rest) else {
            let last = single(alloc, unit, &*scope, &*facts, &down.parts, rest)?;
            let last = joined(alloc, ahead, last)?;
            return climbed(alloc, unit, &*scope, &*facts, down, last);
        };
        let first = polished_behind(alloc, unit, &*scope, &*facts, &down.parts, it.first)?;
        match followed(alloc, unit, &*scope, &*facts, down, ahead, first, it)? {
            Followed::Goes(more, before) => {
                down = more;
                ahead = before;
                rest = it.last;
            }
            Followed::Ends(more, last) => {
                return climbed(alloc, unit, &*scope, &*facts, more, last);
            }
        }
    }
}

// The same behind parts of a sequence that were passed.
#[cycle(polishing)]
fn polished_behind<'x>(
    alloc: Global,
    unit: Unit<'_>,
    scope: &'x Scoped<'x>,
    facts: &'x Facts<'x, Passed<'x>>,
    parts: &'x [PassedPart],
    m: &Mon,
) -> Result<Walked, AllocError>
    ensures { IfOk result (λ p. made_in p
        ≡ seen (polished (point_behind unit.entry scope.now facts.now parts.now) (mon_of m.now))) }
{
    let inner = Scoped::Behind(&*scope, &*parts);
    let known = facts_behind(&*facts, &*parts)?;
    polished(alloc, unit, &inner, &known, m)
}

// The same of a program that is no sequence.
#[cycle(polishing)]
#[tactic(auto, using(crate::proofs::Choices::choice_left, crate::proofs::Choices::choice_made, crate::proofs::Choices::choice_weight, crate::proofs::Choices::loop_left, crate::proofs::Choices::loop_made, crate::proofs::Choices::loop_weight, crate::proofs::Choices::leaf_made))]
fn single<'x>(
    alloc: Global,
    unit: Unit<'_>,
    scope: &'x Scoped<'x>,
    facts: &'x Facts<'x, Passed<'x>>,
    parts: &'x [PassedPart],
    m: &Mon,
) -> Result<Walked, AllocError>
    requires { IsNoBind (mon_of m.now) }
    ensures { IfOk result (λ p. made_in p
        ≡ seen (polished (point_behind unit.entry scope.now facts.now parts.now) (mon_of m.now))) }
{
    let inner = Scoped::Behind(&*scope, &*parts);
    let known = facts_behind(&*facts, &*parts)?;
    let new = after_all(alloc, unit, &inner, &known, &*m)?;
    match held_by(m) {
        Inside::Branches(first, last) => {
            let after = after_steps(&new, m);
            let p = choice(alloc, unit, &inner, &known, after, first, last)?;
            behind(alloc, new, p)
        }
        Inside::Body(body) => {
            let p = turning(alloc, unit, &inner, after_steps(&new, m), body)?;
            behind(alloc, new, p)
        }
        Inside::Nothing => whole(alloc, new, m),
    }
}

// A choice after its steps, whose branches are these: one of them where its test is a constant.
#[cycle(polishing)]
#[tactic(auto, using(crate::proofs::Choices::no_test, crate::proofs::Choices::first_taken, crate::proofs::Choices::second_taken, crate::proofs::Choices::both_made))]
fn choice<'x>(
    alloc: Global,
    unit: Unit<'_>,
    scope: &'x Scoped<'x>,
    facts: &'x Facts<'x, Passed<'x>>,
    after: &'x Mon,
    first: &Mon,
    last: &Mon,
) -> Result<Walked, AllocError>
    requires { IsIf (mon_of first.now) (mon_of last.now) (mon_of after.now) }
    ensures { IfOk result (λ p. made_in p
        ≡ seen (chosen (point_in unit.entry scope.now facts.now) (mon_of after.now)
        (λ a. polished a (mon_of first.now)) (λ a. polished a (mon_of last.now)))) }
{
    let Some(test) = test_of(after) else {
        return Ok(unchanged(after.copy(alloc)?));
    };
    match chosen_by(test) {
        Some(true) => {
            let p = polished(alloc, unit, &*scope, &*facts, first)?;
            taken_branch(alloc, first, p)
        }
        Some(false) => {
            let p = polished(alloc, unit, &*scope, &*facts, last)?;
            taken_branch(alloc, last, p)
        }
        None => {
            let holds = Fact::Whole(test);
            let p = polished(alloc, unit, &*scope, &(&*facts).with(&holds), first)?;
            let fails = Fact::Not(test);
            let q = polished(alloc, unit, &*scope, &(&*facts).with(&fails), last)?;
            with_branches(alloc, test, p, q)
        }
    }
}

// The branch that a constant chooses, and what was done to it.
fn taken_branch(alloc: Global, own: &Mon, p: Walked) -> Result<Walked, AllocError>
    ensures { IfOk result (λ q. made_in q
        ≡ after_before (and_led Nothing (one_walk (leaf IfConst)) (mon_of own.now)) (made_in p)) }
{
    let tree = leaf(alloc, Rule::IfConst);
    let program = own.copy(alloc)?;
    let ahead = led(alloc, Ahead::Stayed, one(alloc, tree), program)?;
    joined(alloc, ahead, p)
}

// A loop after its steps, whose body is this.
#[cycle(polishing)]
#[tactic(auto, using(crate::proofs::Choices::no_turn, crate::proofs::Choices::body_made))]
fn turning<'x>(
    alloc: Global,
    unit: Unit<'_>,
    scope: &'x Scoped<'x>,
    after: &'x Mon,
    body: &Mon,
) -> Result<Walked, AllocError>
    requires { IsLoop (mon_of body.now) (mon_of after.now) }
    ensures { (fs : List Known) → IfOk result (λ p. made_in p
        ≡ seen (turning (point fs (setting_in scope.now unit.entry)) (mon_of after.now)
        (λ a. polished a (mon_of body.now)))) }
{
    let Some(turn) = turn_of(after) else {
        return Ok(unchanged(after.copy(alloc)?));
    };
    let bound = started(alloc, unit, scope, turn.starts)?;
    let inner = Scoped::Within(&*scope, &bound);
    let names = Names::new();
    let none = Facts::new(unit.layout, unit.globals, &names);
    let guarded = Fact::Whole(turn.guard);
    let tested = Fact::Whole(turn.test);
    let known = none.with(&guarded);
    let p = polished(alloc, unit, &inner, &known.with(&tested), body)?;
    with_body(alloc, turn, p)
}

// A sequence whose first part is tidy, at the bottom of a descent.
#[cycle(polishing)]
#[tactic(auto, using(crate::proofs::Onward::followed_on))]
fn followed<'x>(
    alloc: Global,
    unit: Unit<'_>,
    scope: &'x Scoped<'x>,
    facts: &'x Facts<'x, Passed<'x>>,
    down: Descent,
    ahead: Ahead,
    tidy: Walked,
    it: Sequence<'_>,
) -> Result<Followed, AllocError>
    requires { IsKept unit scope.now down }
    ensures { IfOk result (λ f. let n = mon_of it.entry.last.now in
        IsFollowed unit.entry scope.now (known_in facts.now) n
        (up_from unit.entry scope.now (known_in facts.now) down
        (seen_followed polished (λ a. seen (polished a n))
        (point_behind unit.entry scope.now facts.now down.parts.items) (before_in ahead)
        (walk_in tidy.walk) (mon_of it.entry.first.now) (mon_of tidy.program.value)
        (map string_bytes it.entry.names.now) n))
        (weight (rebuilt down.parts.items (plain.Bind (mon_of tidy.program.value)
        (map string_bytes it.entry.names.now) n))) f) }
{
    let Walked { program, walk } = tidy;
    let here = Here {
        down,
        ahead,
        walk,
        raw: it.first,
        first: &program,
    };
    let Bottom { here, next } = to_bottom(alloc, unit, &*scope, &*facts, here, it)?;
    at_bottom(alloc, unit, &*scope, &*facts, here, next, it)
}

// The same where this is done next.
#[cycle(polishing)]
#[tactic(auto, using(crate::proofs::Onward::enters_done, crate::proofs::Onward::skips_done, crate::proofs::Onward::stands_done, crate::proofs::Onward::puts_done, crate::proofs::Deeper::at_bottom_lighter))]
fn at_bottom<'x>(
    alloc: Global,
    unit: Unit<'_>,
    scope: &'x Scoped<'x>,
    facts: &'x Facts<'x, Passed<'x>>,
    here: Here<'_>,
    next: Next,
    it: Sequence<'_>,
) -> Result<Followed, AllocError>
    requires { IsKept unit scope.now here.down }
    ensures { IfOk result (λ f. let n = mon_of it.entry.last.now in
        let xs = map string_bytes it.entry.names.now in
        IsFollowed unit.entry scope.now (known_in facts.now) n
        (ending unit.entry scope.now (known_in facts.now) xs n here.entry (next_in next))
        (heavy xs n here.entry) f) }
{
    let Here {
        down,
        ahead,
        walk,
        raw: _,
        first,
    } = here;
    match next {
        Next::Enters => {
            let level = Level {
                before: ahead,
                walk,
            };
            let down = with_part(alloc, unit, &*scope, down, level, first, it.names)?;
            Ok(Followed::Goes(down, Ahead::Stayed))
        }
        Next::Skips => {
            let ahead = led_past(alloc, ahead, walk, first, it)?;
            Ok(Followed::Goes(down, ahead))
        }
        Next::Stands => {
            let p = first_alone(alloc, ahead, walk, first, it)?;
            Ok(Followed::Ends(down, p))
        }
        Next::Puts(position) => {
            let ahead = led_whole(alloc, ahead, walk, first, it)?;
            let p = put_in(
                alloc,
                unit,
                &*scope,
                &*facts,
                &down.parts,
                first,
                position,
                it.names,
                it.last,
            )?;
            let p = joined(alloc, ahead, p)?;
            Ok(Followed::Ends(down, p))
        }
    }
}

// Up to the top of a descent.
#[cycle(polishing)]
#[tactic(auto, using(crate::proofs::Deeper::at_the_bottom, crate::proofs::Deeper::at_the_top, crate::proofs::Deeper::no_level, crate::proofs::Deeper::part_lighter, crate::proofs::Deeper::one_higher))]
fn climbed<'x>(
    alloc: Global,
    unit: Unit<'_>,
    scope: &'x Scoped<'x>,
    facts: &'x Facts<'x, Passed<'x>>,
    down: Descent,
    last: Walked,
) -> Result<Walked, AllocError>
    requires { IsKept unit scope.now down }
    ensures { IfOk result (λ p. made_in p
        ≡ up_from unit.entry scope.now (known_in facts.now) down (made_in last)) }
{
    let Descent {
        mut levels,
        mut parts,
    } = down;
    let mut new = last;
    'back: while let Some(part) = parts.pop() {
        let Some(level) = levels.pop() else {
            return Ok(new);
        };
        new = raised(alloc, unit, &*scope, &*facts, &parts, level, part, new)?;
    }
    Ok(new)
}

// One stage up, behind the parts that are left.
#[cycle(polishing)]
#[tactic(auto, using(crate::proofs::FollowedSeen::raised_stays, crate::proofs::FollowedSeen::raised_steps))]
fn raised<'x>(
    alloc: Global,
    unit: Unit<'_>,
    scope: &'x Scoped<'x>,
    facts: &'x Facts<'x, Passed<'x>>,
    parts: &'x [PassedPart],
    level: Level,
    part: PassedPart,
    last: Walked,
) -> Result<Walked, AllocError>
    ensures { IfOk result (λ p. made_in p
        ≡ seen_raised polished (point_behind unit.entry scope.now facts.now parts.now)
        (stage_in level part) (made_in last)) }
{
    let Level { before, walk } = level;
    let PassedPart {
        first,
        names,
        scalars: _,
    } = part;
    let Walked {
        program: rest,
        walk: rest_walk,
    } = last;
    let walk = in_both(alloc, walk, rest_walk)?;
    let next = settling_of(&first, &names, &rest);
    if matches!(next, Settling::Stays) {
        let program = boxed(alloc, Mon::Bind(first, names, rest))?;
        return joined(alloc, before, Walked { program, walk });
    }
    let before = led_to(alloc, before, walk, &first, &names, &rest)?;
    let p = stepped(
        alloc, unit, &*scope, &*facts, &*parts, next, first, &names, rest,
    )?;
    joined(alloc, before, p)
}

// A sequence of two tidy programs after this step, made tidy again.
#[cycle(polishing)]
fn stepped<'x>(
    alloc: Global,
    unit: Unit<'_>,
    scope: &'x Scoped<'x>,
    facts: &'x Facts<'x, Passed<'x>>,
    parts: &'x [PassedPart],
    next: Settling,
    first: Box<Mon>,
    names: &[String],
    rest: Box<Mon>,
) -> Result<Walked, AllocError>
    ensures { IfOk result (λ p. made_in p
        ≡ seen (stepped polished (point_behind unit.entry scope.now facts.now parts.now)
        (settling_in next) (mon_of first.value) (map string_bytes names.now)
        (mon_of rest.value))) }
{
    match next {
        Settling::Stays => Ok(unchanged(copied(alloc, &first, names, &rest)?)),
        Settling::Skips => Ok(at_once(alloc, Rule::GuardKnown, rest)),
        Settling::Gives => {
            let bound = bound_by(first, names, rest);
            Ok(at_once(alloc, Rule::BindRet, bound))
        }
        Settling::Turns => match split(&first) {
            Some(inner) => { turned(alloc, unit, &*scope, &*facts, &*parts, inner, names, &rest) }
            None => Ok(unchanged(copied(alloc, &first, names, &rest)?)),
        },
        Settling::Puts(position) => {
            put_in(
                alloc, unit, &*scope, &*facts, &*parts, &first, position, names, &rest,
            )
        }
    }
}

// What a sequence binds that gives it back, or what comes behind one that binds nothing.
#[tactic(auto, using(crate::proofs::Nexts::bound_either))]
fn bound_by(first: Box<Mon>, names: &[String], rest: Box<Mon>) -> Box<Mon>
    ensures { mon_of result.value
        ≡ what_is_bound (mon_of first.value) (map string_bytes names.now) (mon_of rest.value) }
{
    if is_nothing(&first, names) {
        rest
    } else {
        first
    }
}

// A sequence whose first part is a tidy sequence, turned.
#[cycle(polishing)]
#[tactic(auto, using(crate::proofs::Onward::turned_made, crate::proofs::Onward::bottom_lighter))]
fn turned<'x>(
    alloc: Global,
    unit: Unit<'_>,
    scope: &'x Scoped<'x>,
    facts: &'x Facts<'x, Passed<'x>>,
    parts: &'x [PassedPart],
    inner: Sequence<'_>,
    names: &[String],
    rest: &Mon,
) -> Result<Walked, AllocError>
    ensures { IfOk result (λ p.
        let at = point_behind unit.entry scope.now facts.now parts.now in
        let a = mon_of inner.entry.first.now in
        let zs = map string_bytes inner.entry.names.now in
        let b = mon_of inner.entry.last.now in
        let xs = map string_bytes names.now in
        let n = mon_of rest.now in
        made_in p ≡ seen (turned a zs b xs n (bound polished (behind a zs at) b xs n)
        (λ r. bound polished at a zs r))) }
{
    let outer = Scoped::Behind(&*scope, &*parts);
    let known = facts_behind(&*facts, &*parts)?;
    let Turned { down, first } = turned_down(alloc, unit, &outer, inner, names, rest)?;
    let next = settling_of(first, names, rest);
    let first = first.copy(alloc)?;
    let last = rest.copy(alloc)?;
    let p = stepped(
        alloc,
        unit,
        &outer,
        &known,
        &down.parts,
        next,
        first,
        names,
        last,
    )?;
    climbed(alloc, unit, &outer, &known, down, p)
}

// A sequence whose value at the position is put in, and made tidy.
#[cycle(polishing)]
#[tactic(auto, using(crate::proofs::ValuePut::put_made, crate::proofs::ValuePut::nothing_put, crate::proofs::Lightened::into_lighter))]
fn put_in<'x>(
    alloc: Global,
    unit: Unit<'_>,
    scope: &'x Scoped<'x>,
    facts: &'x Facts<'x, Passed<'x>>,
    parts: &'x [PassedPart],
    first: &Mon,
    position: usize,
    names: &[String],
    rest: &Mon,
) -> Result<Walked, AllocError>
    ensures { IfOk result (λ p. made_in p
        ≡ seen (stepped polished (point_behind unit.entry scope.now facts.now parts.now)
        (Puts position) (mon_of first.now) (map string_bytes names.now) (mon_of rest.now))) }
{
    let Some(program) = put_at(alloc, first, position, names, rest)? else {
        return Ok(unchanged(copied(alloc, first, names, rest)?));
    };
    let Ok(position) = u32::try_from(position) else {
        return Err(AllocError);
    };
    let p = polished_behind(alloc, unit, &*scope, &*facts, &*parts, &program)?;
    let tree = leaf(alloc, Rule::RetOne(position));
    let ahead = led(alloc, Ahead::Stayed, one(alloc, tree), program)?;
    joined(alloc, ahead, p)
}
