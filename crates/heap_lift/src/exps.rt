//! Expressions lifted to typed heaps.

ghost use Rattle.std.specs.Prelude.{◌≡◌, ℕ, IfOk};
ghost use Rattle.expression_lang.specs.declared.expression.Exp.{size-Exp};
ghost use Rattle.expression_lang.specs.declared.paths.Path.{size-Path};
ghost use Rattle.expression_lang.specs.Expression as plain;
ghost use Rattle.expression_lang.specs.CodeExpression.{exp_of, path_of};
ghost use Rattle.expression_lang.specs.CodeShapeView.{with_step, with_steps};
ghost use Rattle.rule_trees.specs.RuleTree.{Trees, no_trees};
ghost use Rattle.rule_heap.specs.Rule as rules;
ghost use Rattle.rule_heap.specs.Rule.{Rule as Named};
ghost use Rattle.rule_heap.specs.ExpLifted.{leaf, leaf_or_op, path_lifted, path_trees};
ghost use Rattle.rule_heap.specs.CodeRule.{tree_of};
ghost use Rattle.heap_lift.specs.CodeTrees.{with_trees};
ghost use Rattle.heap_lift.specs.CodeExps.{exp_in, opened_in, path_opened_in, trees_opened_in, with_fronts, LastIsSmaller, RestIsSmaller};
ghost use Rattle.heap_lift.specs.Lifted.{lifted_exp};

use crate::exp_fronts::{
    ExpFront, LiftedExp, LiftedPath, between, if_else, one, padd, place, root, sel, two, upd,
    with_front,
};
use crate::trees::{alone, joined, over};
use expression_lang::{Exp, Path, PathFront, Shape, boxed, shape_of, whole_leaf};
use rule_heap::Rule;
use rule_trees::Tree;
use std::alloc::{AllocError, Global};

/// An expression with each load made a read, and the tree of rules for it. It goes along the last
/// parts by a loop, since a text may have long chains.
#[cycle(lifted)]
#[tactic(auto, using(crate::proofs::ExpFronts::with_fronts_push))]
pub(crate) fn lifted_exp(alloc: Global, e: &Exp) -> Result<Box<LiftedExp>, AllocError>
    ensures { IfOk result (λ new. exp_in new.value ≡ lifted_exp (exp_of e.now)) }
{
    let mut fronts = Vec::new(alloc);
    let mut rest = e;
    'along: loop {
        match opened(alloc, rest)? {
            Opening::Ended(new) => return closed(alloc, fronts, new),
            Opening::Last(front, last) => {
                fronts.push(front)?;
                rest = last;
            }
        }
    }
}

// An expression with all but the last part lifted.
#[derive(Drop)]
enum Opening<'a> {
    Ended(Box<LiftedExp>),
    Last(ExpFront<'a>, &'a Exp),
}

#[cycle(lifted)]
#[tactic(auto, using(crate::proofs::LiftedShape::lifted_shape))]
fn opened<'a>(alloc: Global, e: &'a Exp) -> Result<Opening<'a>, AllocError>
    ensures same { IfOk result (λ new. opened_in new ≡ lifted_exp (exp_of e.now)) }
    ensures smaller { IfOk result (λ new. LastIsSmaller new (size-Exp e.now)) }
{
    match shape_of(e) {
        Shape::Leaf(leaf) => whole(alloc, boxed(alloc, whole_leaf(alloc, leaf)?)?),
        Shape::One(head, last) => Ok(Opening::Last(one(alloc, head), last)),
        Shape::Two(head, a, last) => {
            let a = Box::into_inner(lifted_exp(alloc, a)?);
            Ok(Opening::Last(two(alloc, head, a)?, last))
        }
        Shape::Between(low, last, high) => Ok(Opening::Last(between(alloc, low, high), last)),
        Shape::If(c, a, last) => {
            let c = Box::into_inner(lifted_exp(alloc, c)?);
            let a = Box::into_inner(lifted_exp(alloc, a)?);
            Ok(Opening::Last(if_else(alloc, c, a)?, last))
        }
        Shape::Padd(ty, p, last) => {
            let p = Box::into_inner(lifted_exp(alloc, p)?);
            Ok(Opening::Last(padd(alloc, ty, p)?, last))
        }
        Shape::Root(head, ty, last) => Ok(Opening::Last(root(alloc, head, ty), last)),
        Shape::Place(head, ty, last, path) => {
            let path = lifted_path(alloc, path)?;
            Ok(Opening::Last(place(alloc, head, ty, path), last))
        }
        Shape::Global(name, path) => global(alloc, name, lifted_path(alloc, path)?),
        Shape::Sel(last, path) => {
            let path = lifted_path(alloc, path)?;
            Ok(Opening::Last(sel(alloc, path), last))
        }
        Shape::Upd(value, path, last) => {
            let value = Box::into_inner(lifted_exp(alloc, value)?);
            let path = lifted_path(alloc, path)?;
            Ok(Opening::Last(upd(alloc, value, path)?, last))
        }
    }
}

// An expression with no parts.
fn whole<'a>(alloc: Global, right: Box<Exp>) -> Result<Opening<'a>, AllocError>
    ensures same { IfOk result (λ new. opened_in new
        ≡ record { right = exp_of right.value; tree = leaf rules.Leaf }) }
    ensures smaller { IfOk result (λ new. (n : ℕ) → LastIsSmaller new n) }
{
    ended(
        alloc,
        LiftedExp {
            right,
            tree: over(Rule::Leaf, Vec::new(alloc)),
        },
    )
}

fn ended<'a>(alloc: Global, e: LiftedExp) -> Result<Opening<'a>, AllocError>
    ensures same { IfOk result (λ new. opened_in new ≡ exp_in e) }
    ensures smaller { IfOk result (λ new. (n : ℕ) → LastIsSmaller new n) }
{
    Ok(Opening::Ended(Box::new(alloc, e)?))
}

// A global: without an index it is a leaf.
fn global<'a>(alloc: Global, name: &str, path: LiftedPath) -> Result<Opening<'a>, AllocError>
    ensures same { IfOk result (λ new. opened_in new
        ≡ record {
          right = plain.Global name.now (path_of path.path);
          tree = leaf_or_op (with_trees path.trees.items no_trees);
        }) }
    ensures smaller { IfOk result (λ new. (n : ℕ) → LastIsSmaller new n) }
{
    let LiftedPath { path, trees } = path;
    let right = boxed(alloc, Exp::Global(String::from_str(alloc, name)?, path))?;
    let tree = leaf_or_op(trees);
    ended(alloc, LiftedExp { right, tree })
}

#[tactic(auto, using(crate::proofs::TreeLists::op_over_some))]
fn leaf_or_op(trees: Vec<Tree<Rule>>) -> Tree<Rule>
    ensures { tree_of result ≡ leaf_or_op (with_trees trees.items no_trees) }
{
    if trees.is_empty() {
        over(Rule::Leaf, trees)
    } else {
        over(Rule::Op, trees)
    }
}

// What the whole is lifted to, where its last part is lifted to this; the first front is outermost.
#[tactic(auto, using(crate::proofs::ExpFronts::with_fronts_push))]
fn closed(
    alloc: Global,
    mut fronts: Vec<ExpFront<'_>>,
    last: Box<LiftedExp>,
) -> Result<Box<LiftedExp>, AllocError>
    ensures { IfOk result (λ e.
        exp_in e.value ≡ with_fronts fronts.entry.items (exp_in last.value)) }
{
    let mut whole = last;
    'back: while let Some(front) = fronts.pop() {
        whole = Box::new(alloc, with_front(alloc, front, Box::into_inner(whole))?)?;
    }
    Ok(whole)
}

/// A path with its indices lifted. It goes along the path by a loop.
#[cycle(lifted)]
#[tactic(auto, using(expression_lang::proofs::Fronts::with_steps_push))]
pub(crate) fn lifted_path(alloc: Global, path: &Path) -> Result<LiftedPath, AllocError>
    ensures path { IfOk result (λ new. path_of new.path ≡ path_lifted (path_of path.now)) }
    ensures trees { IfOk result (λ new. (more : Trees Named) →
        with_trees new.trees.items more ≡ path_trees (path_of path.now) more) }
{
    let mut steps = Vec::new(alloc);
    let mut trees = Vec::new(alloc);
    let mut rest = path;
    'along: loop {
        match opened_path(alloc, rest)? {
            PathOpening::Ended => {
                let path = closed_path(alloc, steps)?;
                return Ok(LiftedPath { path, trees });
            }
            PathOpening::Last(step, more, next) => {
                trees = joined(trees, more)?;
                steps.push(step)?;
                rest = next;
            }
        }
    }
}

// A path with its first step lifted, and the tree of that if it has one.
#[derive(Drop)]
enum PathOpening<'a> {
    Ended,
    Last(PathFront, Vec<Tree<Rule>>, &'a Path),
}

#[cycle(lifted)]
fn opened_path<'a>(alloc: Global, path: &'a Path) -> Result<PathOpening<'a>, AllocError>
    ensures same { IfOk result (λ new. path_opened_in new ≡ path_lifted (path_of path.now)) }
    ensures trees { IfOk result (λ new. (more : Trees Named) →
        trees_opened_in new more ≡ path_trees (path_of path.now) more) }
    ensures smaller { IfOk result (λ new. RestIsSmaller new (size-Path path.now)) }
{
    match path {
        Path::Here => Ok(PathOpening::Ended),
        Path::Field(k, next) => {
            Ok(PathOpening::Last(PathFront::Field(*k), Vec::new(alloc), &**next))
        }
        Path::Index(index, next) => {
            let LiftedExp { right, tree } = Box::into_inner(lifted_exp(alloc, index)?);
            let trees = alone(alloc, tree)?;
            Ok(PathOpening::Last(PathFront::Index(right), trees, &**next))
        }
    }
}

// A path of these steps.
#[tactic(auto, using(expression_lang::proofs::Fronts::with_steps_push))]
fn closed_path(alloc: Global, mut steps: Vec<PathFront>) -> Result<Path, AllocError>
    ensures { IfOk result (λ path. path_of path ≡ with_steps steps.items plain.Here) }
{
    let mut path = Path::Here;
    'back: while let Some(step) = steps.pop() {
        path = with_step(alloc, step, path)?;
    }
    Ok(path)
}

fn with_step(alloc: Global, step: PathFront, rest: Path) -> Result<Path, AllocError>
    ensures { IfOk result (λ path. path_of path ≡ with_step step (path_of rest)) }
{
    let rest = Box::new(alloc, rest)?;
    match step {
        PathFront::Field(k) => Ok(Path::Field(k, rest)),
        PathFront::Index(e) => Ok(Path::Index(e, rest)),
    }
}
