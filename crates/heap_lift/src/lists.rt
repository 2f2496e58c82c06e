//! Lists of expressions lifted to typed heaps.

ghost use Rattle.std.specs.Prelude.{◌≡◌, map, IfOk};
ghost use Rattle.expression_lang.specs.CodeExpression.{exp_of};
ghost use Rattle.monad_lang.specs.CodeProgram.{start_of};
ghost use Rattle.rule_trees.specs.RuleTree.{Trees};
ghost use Rattle.rule_heap.specs.Rule.{Rule as Named};
ghost use Rattle.rule_heap.specs.HeapLifted.{exps_lifted, starts_lifted, exp_trees, start_trees};
ghost use Rattle.heap_lift.specs.CodeTrees.{with_trees};

use crate::exp_fronts::LiftedExp;
use crate::exps::lifted_exp;
use expression_lang::Exp;
use monad_lang::Start;
use rule_heap::Rule;
use rule_trees::Tree;
use std::alloc::{AllocError, Global};

/// Expressions without loads, and their trees.
#[derive(Drop)]
pub(crate) struct LiftedExps {
    pub(crate) exps: Vec<Exp>,
    pub(crate) trees: Vec<Tree<Rule>>,
}

/// Expressions with each load made a read.
#[tactic(auto, using(crate::proofs::ListLaws::mapped_push, crate::proofs::TreeLists::with_trees_push))]
pub(crate) fn lifted_exps(alloc: Global, exps: &[Exp]) -> Result<LiftedExps, AllocError>
    ensures exps { IfOk result (λ new. map exp_of new.exps.items
        ≡ exps_lifted (map exp_of exps.now)) }
    ensures trees { IfOk result (λ new. (more : Trees Named) →
        with_trees new.trees.items more ≡ exp_trees (map exp_of exps.now) more) }
{
    let mut lifted = Vec::new(alloc);
    let mut trees = Vec::new(alloc);
    let mut rest = exps;
    'along: while let Some((first, others)) = rest.split_first() {
        let LiftedExp { right, tree } = Box::into_inner(lifted_exp(alloc, first)?);
        lifted.push(Box::into_inner(right))?;
        trees.push(tree)?;
        rest = others;
    }
    Ok(LiftedExps {
        exps: lifted,
        trees,
    })
}

/// Names that begin with expressions without loads, and the trees of these.
#[derive(Drop)]
pub(crate) struct LiftedStarts {
    pub(crate) starts: Vec<Start>,
    pub(crate) trees: Vec<Tree<Rule>>,
}

/// Names with their expressions, each load made a read.
#[tactic(auto, using(crate::proofs::ListLaws::mapped_push, crate::proofs::TreeLists::with_trees_push))]
pub(crate) fn lifted_starts(alloc: Global, starts: &[Start]) -> Result<LiftedStarts, AllocError>
    ensures starts { IfOk result (λ new.
        map start_of new.starts.items ≡ starts_lifted (map start_of starts.now)) }
    ensures trees { IfOk result (λ new. (more : Trees Named) →
        with_trees new.trees.items more ≡ start_trees (map start_of starts.now) more) }
{
    let mut lifted = Vec::new(alloc);
    let mut trees = Vec::new(alloc);
    let mut rest = starts;
    'along: while let Some((first, others)) = rest.split_first() {
        let LiftedExp { right, tree } = Box::into_inner(lifted_exp(alloc, &first.exp)?);
        lifted.push(start(first, right)?)?;
        trees.push(tree)?;
        rest = others;
    }
    Ok(LiftedStarts {
        starts: lifted,
        trees,
    })
}

// The same name with another expression.
fn start(first: &Start, exp: Box<Exp>) -> Result<Start, AllocError>
    ensures { IfOk result (λ new.
        start_of new ≡ record { name = (start_of first.now).name; exp = exp_of exp.value }) }
{
    let name = first.name.clone()?;
    Ok(Start {
        name,
        exp: Box::into_inner(exp),
    })
}
