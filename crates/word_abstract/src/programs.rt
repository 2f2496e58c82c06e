//! Programs on words made programs on what stands for them.

ghost use Rattle.std.specs.Prelude.{◌≡◌, map, string_bytes, IfOk};
ghost use Rattle.expression_lang.specs.CodeExpression.{exp_of, kind_of};
ghost use Rattle.monad_lang.specs.Program.{Loop};
ghost use Rattle.monad_lang.specs.CodeProgram.{mon_of, start_of};
ghost use Rattle.rule_word.specs.ProgramsAbstracted.{kinds_for, scalars_there};
ghost use Rattle.monad_lang.specs.Sorted.{scalars_given};
ghost use Rattle.rule_word.specs.Scopes.{words};
ghost use Rattle.given_scalars.specs.CodeScalars.{IsNoBind};
ghost use Rattle.word_abstract.specs.CodeFrontsAt.{IsFrontAt};
ghost use Rattle.word_abstract.specs.CodeTrees.{with_trees};
ghost use Rattle.word_abstract.specs.CodeAbstracted.{abstracted_in};
ghost use Rattle.word_abstract.specs.CodeTranslated.{translated_in};
ghost use Rattle.word_abstract.specs.CodeScenes.{context_at, binders_at, local_kinds, program_there, program_under};
ghost use Rattle.word_abstract.specs.CodeWholes.{tested, looped};

use crate::abstracted::Abstracted;
use crate::facts::{Fact, Known};
use crate::kinds::{copy_kinds, kinds_for};
use crate::lists::{AbstractedStarts, guard_at, starts_at, test_at};
use crate::passing::{Front, closed, none_passed, pass};
use crate::points::Scene;
use crate::steps::step;
use crate::translated::{Translated, made};
use crate::trees::{alone, and_then};
use expression_lang::{Exp, Kind, copy_names};
use given_scalars::{Unit, scalars_given, split};
use monad_lang::{Mon, Start};
use program_sorts::Phase;
use rule_word::Rule;
use std::alloc::{AllocError, Global};

// The kinds of the names of a program's values.
fn kinds_there(
    alloc: Global,
    at: &Scene<'_>,
    m: &Mon,
    names: &[String],
) -> Result<Vec<Kind>, AllocError>
    ensures { IfOk result (λ kinds. map kind_of kinds.items
        ≡ kinds_for (λ x. local_kinds at.now.setting.now x) (map string_bytes names.now)
        (scalars_there (scalars_given (words (context_at at.now) (binders_at at.now))
        (mon_of m.now)))) }
{
    let setting = at.setting;
    let context = setting.context;
    let unit = Unit {
        layout: context.layout,
        globals: context.globals,
        functions: context.functions,
        phase: Phase::OnWords,
    };
    match scalars_given(alloc, m, at.names, unit)? {
        Some(scalars) => kinds_for(alloc, setting.locals, names, &scalars),
        None => kinds_for(alloc, setting.locals, names, &[]),
    }
}

/// A program at kinds. It goes along the last programs by a loop, since a text may have long
/// sequences.
#[cycle(programs)]
#[tactic(auto, using(crate::proofs::FrontLaws::with_fronts_push, crate::proofs::FrontLaws::front_made))]
pub(crate) fn program(
    alloc: Global,
    at: &Scene<'_>,
    m: &Mon,
    kinds: &[Kind],
) -> Result<Box<Translated>, AllocError>
    ensures { IfOk result (λ new.
        translated_in new.value ≡ program_there at.now (mon_of m.now) (map kind_of kinds.now)) }
{
    let mut passed = none_passed(alloc, at.known)?;
    let mut fronts = Vec::new(alloc);
    let mut rest = m;
    'along: loop {
        let names = at.names.push_all(&passed.bound);
        let here = Scene {
            setting: at.setting,
            names: &names,
            known: Known {
                outer: &passed.outer,
                own: &passed.own,
            },
        };
        let Some(parts) = split(rest) else {
            let last = last_at(alloc, &here, rest, kinds)?;
            return closed(alloc, fronts, last);
        };
        let front = front_at(alloc, &here, parts.first, parts.names)?;
        passed = pass(alloc, passed, &front)?;
        fronts.push(front)?;
        rest = parts.last;
    }
}

// The first part of a sequence.
#[cycle(programs)]
fn front_at(alloc: Global, at: &Scene<'_>, m: &Mon, names: &[String]) -> Result<Front, AllocError>
    ensures { IfOk result (λ front.
        IsFrontAt at.now (mon_of m.now) (map string_bytes names.now) front) }
{
    let kinds = kinds_there(alloc, at, m, names)?;
    let first = part(alloc, at, m, &kinds)?;
    let Translated { right, tree } = Box::into_inner(first);
    let names = copy_names(alloc, names)?;
    Ok(Front {
        right,
        names,
        kinds,
        tree,
    })
}

#[cycle(programs)]
fn part(
    alloc: Global,
    at: &Scene<'_>,
    m: &Mon,
    kinds: &[Kind],
) -> Result<Box<Translated>, AllocError>
    ensures { IfOk result (λ new.
        translated_in new.value ≡ program_there at.now (mon_of m.now) (map kind_of kinds.now)) }
{
    match m {
        Mon::Bind(_, _, _) => program(alloc, at, m, kinds),
        _ => last_at(alloc, at, m, kinds),
    }
}

// A program that isn't a sequence.
#[cycle(programs)]
#[tactic(auto, using(crate::proofs::WholeLaws::if_made))]
fn last_at(
    alloc: Global,
    at: &Scene<'_>,
    m: &Mon,
    kinds: &[Kind],
) -> Result<Box<Translated>, AllocError>
    requires { IsNoBind (mon_of m.now) }
    ensures { IfOk result (λ new.
        translated_in new.value ≡ program_there at.now (mon_of m.now) (map kind_of kinds.now)) }
{
    match m {
        Mon::If(test, first, last) => {
            let x = test_at(alloc, at, test)?;
            let a = under(alloc, &*at, &x.right, true, first, kinds)?;
            let b = under(alloc, &*at, &x.right, false, last, kinds)?;
            tested(alloc, x, a, b)
        }
        Mon::Loop(starts, guard, test, body) => {
            turns(alloc, at, starts, guard, test, body, kinds)
        }
        _ => step(alloc, at, m, kinds),
    }
}

// A program where a condition more holds, or doesn't.
#[cycle(programs)]
fn under<'x>(
    alloc: Global,
    at: &Scene<'x>,
    condition: &'x Exp,
    holds: bool,
    m: &Mon,
    kinds: &[Kind],
) -> Result<Box<Translated>, AllocError>
    ensures { IfOk result (λ new. translated_in new.value
        ≡ program_under at.now holds (exp_of condition.now) (mon_of m.now)
        (map kind_of kinds.now)) }
{
    let mut facts = at.known.all(alloc)?;
    facts.push(Fact {
        exp: condition,
        holds,
    })?;
    let inner = Scene {
        setting: at.setting,
        names: at.names,
        known: Known {
            outer: &facts,
            own: &[],
        },
    };
    part(alloc, &inner, m, kinds)
}

// A test of two programs.
fn tested(
    alloc: Global,
    test: Abstracted,
    first: Box<Translated>,
    last: Box<Translated>,
) -> Result<Box<Translated>, AllocError>
    ensures { IfOk result (λ new. translated_in new.value
        ≡ tested (abstracted_in test) (translated_in first.value) (translated_in last.value)) }
{
    let Translated { right: a, tree: s } = Box::into_inner(first);
    let Translated { right: b, tree: t } = Box::into_inner(last);
    let parts = and_then(and_then(alone(alloc, test.tree)?, s)?, t)?;
    made(
        alloc,
        Rule::If,
        Mon::If(Box::into_inner(test.right), a, b),
        parts,
    )
}

// A loop. In it only its guard is known, and its test where the body stands.
#[cycle(programs)]
#[tactic(auto, using(crate::proofs::WholeLaws::loop_made))]
fn turns(
    alloc: Global,
    at: &Scene<'_>,
    starts: &[Start],
    guard: &Exp,
    test: &Exp,
    body: &Mon,
    kinds: &[Kind],
) -> Result<Box<Translated>, AllocError>
    ensures { IfOk result (λ new. translated_in new.value
        ≡ program_there at.now (Loop (map start_of starts.now) (exp_of guard.now) (exp_of test.now)
        (mon_of body.now)) (map kind_of kinds.now)) }
{
    let begun = starts_at(alloc, at, starts, kinds)?;
    let names = at.names.start(starts, kinds);
    let nothing = Scene {
        setting: at.setting,
        names: &names,
        known: Known {
            outer: &[],
            own: &[],
        },
    };
    let guard = guard_at(alloc, &nothing, guard)?;
    let guarded = [Fact {
        exp: &guard.right,
        holds: true,
    }];
    let in_turn = Scene {
        setting: at.setting,
        names: &names,
        known: Known {
            outer: &guarded,
            own: &[],
        },
    };
    let test = test_at(alloc, &in_turn, test)?;
    let a = under(alloc, &in_turn, &test.right, true, body, kinds)?;
    looped(alloc, begun, guard, test, a, kinds)
}

fn looped(
    alloc: Global,
    begun: AbstractedStarts,
    guard: Abstracted,
    test: Abstracted,
    body: Box<Translated>,
    kinds: &[Kind],
) -> Result<Box<Translated>, AllocError>
    ensures { IfOk result (λ new. translated_in new.value
        ≡ looped (map kind_of kinds.now) (map start_of begun.starts.items)
        (λ more. with_trees begun.trees.items more)
        (abstracted_in guard) (abstracted_in test) (translated_in body.value)) }
{
    let AbstractedStarts { starts, trees } = begun;
    let Translated { right, tree } = Box::into_inner(body);
    let trees = and_then(and_then(and_then(trees, guard.tree)?, test.tree)?, tree)?;
    let rule = Rule::Loop(copy_kinds(alloc, kinds)?);
    let whole = Mon::Loop(
        starts,
        Box::into_inner(guard.right),
        Box::into_inner(test.right),
        right,
    );
    made(alloc, rule, whole, trees)
}
