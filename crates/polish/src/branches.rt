//! Programs that hold others, and what is done in these.

ghost use Rattle.std.specs.Prelude.{◌≡◌, [], Option, map, unwrap_or, IfOk};
ghost use Rattle.std.specs.Option.{option_map};
ghost use Rattle.c_values.specs.Name.{Name};
ghost use Rattle.expression_lang.specs.Sort.{Scalar as Plain};
ghost use Rattle.expression_lang.specs.Sorted.{names_with};
ghost use Rattle.expression_lang.specs.CodeExpression.{exp_of};
ghost use Rattle.monad_lang.specs.Program as plain;
ghost use Rattle.monad_lang.specs.Run.{start_names};
ghost use Rattle.monad_lang.specs.Sorted.{start_scalars};
ghost use Rattle.monad_lang.specs.CodeProgram.{mon_of, start_of};
ghost use Rattle.rule_eq.specs.Rule as rules;
ghost use Rattle.rule_walks.specs.Walk.{walked, over_one, over_two};
ghost use Rattle.rule_walks.specs.CodeWalks.{walk_in, made_in};
ghost use Rattle.expression_steps.specs.CodePoint.{names_of, scalars_of};
ghost use Rattle.given_scalars.specs.CodeScalars.{setting_in, IsNoBind};
ghost use Rattle.polish.specs.Branches.{test_in, chosen_in, turn_in};
ghost use Rattle.polish.specs.CodeBranches.{turn_of, Holds};

use expression_lang::Exp;
use expression_steps::{Binding, Context, Scoped, bindings_of};
use given_scalars::Unit;
use monad_lang::{Front, Mon, Start, boxed, whole};
use rule_walks::{Walked, in_body, in_branches};
use std::alloc::{AllocError, Global};

/// The programs that a program which is no sequence holds. It points at boxes alone: three programs
/// are more than the language's types may reach.
#[derive(Clone, Copy)]
pub(crate) enum Inside<'a> {
    /// The branches of a choice.
    Branches(&'a Box<Mon>, &'a Box<Mon>),
    /// The body of a loop.
    Body(&'a Box<Mon>),
    Nothing,
}

/// What a program holds.
pub(crate) fn held_by(m: &Mon) -> Inside<'_>
    requires { IsNoBind (mon_of m.now) }
    ensures { Holds result (mon_of m.now) }
{
    match m {
        Mon::If(_, first, last) => Inside::Branches(first, last),
        Mon::Loop(_, _, _, body) => Inside::Body(body),
        Mon::Ret(_) | Mon::Guard(_) | Mon::Write(_, _) | Mon::Call(_, _) | Mon::Pick(_) => {
            Inside::Nothing
        }
        Mon::Bind(_, _, _) => unreachable!(),
    }
}

/// The test of a choice.
pub(crate) fn test_of(m: &Mon) -> Option<&Exp>
    ensures { option_map (λ e. exp_of e.now) result ≡ test_in (mon_of m.now) }
{
    match m {
        Mon::If(test, _, _) => Some(test),
        _ => None,
    }
}

/// Which branch a test chooses that is a constant.
pub(crate) fn chosen_by(test: &Exp) -> Option<bool>
    ensures { result ≡ chosen_in (exp_of test.now) }
{
    match test {
        Exp::Truth(holds) => Some(*holds),
        _ => None,
    }
}

/// A choice of these branches.
pub(crate) fn with_branches(
    alloc: Global,
    test: &Exp,
    first: Walked,
    last: Walked,
) -> Result<Walked, AllocError>
    ensures { IfOk result (λ p. made_in p
        ≡ walked (plain.If (exp_of test.now) (mon_of first.program.value)
        (mon_of last.program.value))
        (over_two rules.If (walk_in first.walk) (walk_in last.walk))) }
{
    let test = test.boxed_copy(alloc)?;
    let walk = in_branches(alloc, first.walk, last.walk)?;
    let program = whole(Front::If(test, first.program), last.program);
    let program = boxed(alloc, program)?;
    Ok(Walked { program, walk })
}

/// What a loop begins with, its guard and its test.
#[derive(Clone, Copy)]
pub(crate) struct Turn<'a> {
    pub(crate) starts: &'a [Start],
    pub(crate) guard: &'a Exp,
    pub(crate) test: &'a Exp,
}

/// A loop without its body.
pub(crate) fn turn_of(m: &Mon) -> Option<Turn<'_>>
    ensures { option_map turn_of result ≡ turn_in (mon_of m.now) }
{
    match m {
        Mon::Loop(starts, guard, test, _) => Some(Turn {
            starts,
            guard,
            test,
        }),
        _ => None,
    }
}

/// The names of a loop, with the scalars of what they begin with.
#[tactic(auto, using(crate::proofs::Starting::none_started))]
pub(crate) fn started(
    alloc: Global,
    unit: Unit<'_>,
    scope: &Scoped<'_>,
    starts: &[Start],
) -> Result<Vec<Binding>, AllocError>
    ensures { IfOk result (λ bound. let ss = map start_of starts.now in
        (names : Name → Option Plain) → names_with (names_of bound.items)
        (scalars_of bound.items) names
        ≡ names_with (start_names ss)
        (unwrap_or (start_scalars (setting_in scope.now unit.entry).scope ss) []) names) }
{
    let context = Context {
        layout: unit.layout,
        globals: unit.globals,
        scope,
    };
    match bindings_of(alloc, &context, starts)? {
        Some(bound) => Ok(bound),
        None => Ok(Vec::new(alloc)),
    }
}

// Copies of starts.
#[tactic(auto, using(crate::proofs::Lists::mapped_push))]
fn copy_of_starts(alloc: Global, starts: &[Start]) -> Result<Vec<Start>, AllocError>
    ensures { IfOk result (λ copies. map start_of copies.items ≡ map start_of starts.now) }
{
    let mut copies = Vec::new(alloc);
    let mut rest = starts;
    'along: while let Some((start, others)) = rest.split_first() {
        let exp = start.exp.copy(alloc)?;
        let name = start.name.clone()?;
        copies.push(Start { name, exp })?;
        rest = others;
    }
    Ok(copies)
}

/// A loop with this body.
pub(crate) fn with_body(alloc: Global, turn: Turn<'_>, body: Walked) -> Result<Walked, AllocError>
    ensures { IfOk result (λ p. made_in p
        ≡ walked (plain.Loop (map start_of turn.entry.starts.now) (exp_of turn.entry.guard.now)
        (exp_of turn.entry.test.now) (mon_of body.program.value))
        (over_one rules.Loop (walk_in body.walk))) }
{
    let starts = copy_of_starts(alloc, turn.starts)?;
    let guard = turn.guard.boxed_copy(alloc)?;
    let test = turn.test.boxed_copy(alloc)?;
    let walk = in_body(alloc, body.walk)?;
    let program = whole(Front::Loop(starts, guard, test), body.program);
    let program = boxed(alloc, program)?;
    Ok(Walked { program, walk })
}
