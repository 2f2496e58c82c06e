//! All steps in the expressions that stand in a program directly, one after the other.

ghost use Rattle.std.specs.Prelude.{◌≡◌, IfOk};
ghost use Rattle.monad_lang.specs.Program.{Mon as Plain};
ghost use Rattle.monad_lang.specs.CodeProgram.{mon_of};
ghost use Rattle.rule_walks.specs.Walk.{then_walked};
ghost use Rattle.rule_walks.specs.CodeWalks.{made_in};
ghost use Rattle.polish.specs.Polished.{shortened_in};
ghost use Rattle.polish.specs.Seen.{seen};
ghost use Rattle.polish.specs.CodePoint.{point_in};
ghost use Rattle.polish.specs.CodeRewriting.{rewritten_in};

use ac_expr::Facts;
use expression_steps::{Context, Passed, Scoped, direct_step};
use given_scalars::Unit;
use monad_lang::Mon;
use rule_eq::Rule;
use rule_walks::{Ahead, Chain, Step, Walk, Walked, joined, leaf};
use std::alloc::{AllocError, Global};

/// What became of a program.
#[derive(Drop)]
pub(crate) enum Rewritten {
    Same,
    New(Box<Mon>, Chain),
}

/// A program after all steps.
#[tactic(auto, using(crate::proofs::StepsKept::none_made, crate::proofs::StepsKept::one_made, crate::proofs::StepsKept::more_made, crate::proofs::StepsKept::all_made, crate::proofs::Walks::step_fewer))]
pub(crate) fn after_all<'x>(
    alloc: Global,
    unit: Unit<'_>,
    scope: &Scoped<'_>,
    facts: &'x Facts<'x, Passed<'x>>,
    m: &'x Mon,
) -> Result<Rewritten, AllocError>
    ensures { IfOk result (λ new. rewritten_in new (mon_of m.now)
        ≡ seen (shortened_in (point_in unit.entry scope.now facts.now) (mon_of m.now))) }
{
    let context = Context {
        layout: unit.layout,
        globals: unit.globals,
        scope: &*scope,
    };
    let Some(first) = direct_step(alloc, &context, facts, m)? else {
        return Ok(Rewritten::Same);
    };
    let mut last = first;
    let mut steps = Vec::new(alloc);
    'steps: while let Some(next) = direct_step(alloc, &context, &*facts, &last)? {
        let tree = leaf(alloc, Rule::Exp);
        steps.push(Step {
            tree,
            program: last,
        })?;
        last = next;
    }
    let tree = leaf(alloc, Rule::Exp);
    Ok(Rewritten::New(last, Chain { steps, last: tree }))
}

/// What became of the program, as a program of its own.
pub(crate) fn whole(alloc: Global, new: Rewritten, m: &Mon) -> Result<Walked, AllocError>
    ensures { IfOk result (λ p. made_in p ≡ rewritten_in new (mon_of m.now)) }
{
    match new {
        Rewritten::Same => Ok(Walked {
            program: m.copy(alloc)?,
            walk: Walk::Stayed,
        }),
        Rewritten::New(program, chain) => Ok(Walked {
            program,
            walk: Walk::Went(chain, 0),
        }),
    }
}

/// The program after its steps.
pub(crate) fn after_steps<'a>(new: &'a Rewritten, m: &'a Mon) -> &'a Mon
    ensures { mon_of result.now ≡ (rewritten_in new.now (mon_of m.now)).program }
{
    match new {
        Rewritten::Same => m,
        Rewritten::New(program, _) => program,
    }
}

/// The program after its steps, and then what was done in its parts.
pub(crate) fn behind(alloc: Global, new: Rewritten, p: Walked) -> Result<Walked, AllocError>
    ensures { (m : Plain) → IfOk result (λ q. made_in q
        ≡ then_walked (rewritten_in new m).walk (rewritten_in new m).program (made_in p)) }
{
    match new {
        Rewritten::Same => Ok(p),
        Rewritten::New(program, chain) => joined(alloc, Ahead::Went(chain, 0, program), p),
    }
}
