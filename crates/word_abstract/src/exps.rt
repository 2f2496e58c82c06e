//! Expressions on words made expressions on what stands for them.

ghost use Rattle.std.specs.Prelude.{◌≡◌, IfOk};
ghost use Rattle.expression_lang.specs.declared.paths.Path.{size-Path};
ghost use Rattle.expression_lang.specs.CodeExpression.{exp_of, path_of};
ghost use Rattle.expression_lang.specs.CodeShapeView.{two_in};
ghost use Rattle.rule_trees.specs.RuleTree.{Trees};
ghost use Rattle.rule_word.specs.Rule.{Rule as Named};
ghost use Rattle.word_abstract.specs.CodeMeaning.{meaning};
ghost use Rattle.word_abstract.specs.CodeConnectives.{connective};
ghost use Rattle.word_abstract.specs.CodeTrees.{with_trees};
ghost use Rattle.word_abstract.specs.CodeViews.{seen_of};
ghost use Rattle.word_abstract.specs.CodeAbstracted.{abstracted_in};
ghost use Rattle.word_abstract.specs.CodeStanding.{standing_in};
ghost use Rattle.word_abstract.specs.CodePoints.{standing_at, standing_under, path_at, trees_at};
ghost use Rattle.word_abstract.specs.CodePaths.{path_opened_in, trees_opened_in, RestIsSmaller};

use crate::abstracted::Abstracted;
use crate::facts::{Conditions, Fact};
use crate::operations::{
    between, connected, global, leaf_at, one, padd, place, root, sel, two, upd,
};
use crate::paths::{Indices, closed_path};
use crate::points::Point;
use crate::standing::{Standing, boxed, word_of};
use crate::trees::{alone, joined};
use crate::views::Seen;
use expression_lang::{Exp, Path, PathFront, Shape, Two, shape_of};
use rule_trees::Tree;
use rule_word::Rule;
use std::alloc::{AllocError, Global};

/// An expression, seen so.
pub(crate) fn abstracted(
    alloc: Global,
    at: &Point<'_>,
    e: &Exp,
    view: Seen,
) -> Result<Abstracted, AllocError>
    ensures { IfOk result (λ x. abstracted_in x
        ≡ meaning (standing_at at.now (exp_of e.now)) (seen_of view)) }
{
    Box::into_inner(standing(alloc, at, e)?).seen(alloc, view)
}

/// What an expression stands for.
#[cycle(standing)]
#[tactic(auto, using(crate::proofs::StandingShape::standing_shape, crate::proofs::StandingShape::connective_standing, crate::proofs::StandingShape::two_alone))]
fn standing(alloc: Global, at: &Point<'_>, e: &Exp) -> Result<Box<Standing>, AllocError>
    ensures { IfOk result (λ s. standing_in s.value ≡ standing_at at.now (exp_of e.now)) }
{
    match shape_of(e) {
        Shape::Leaf(leaf) => leaf_at(alloc, at, leaf),
        Shape::One(head, a) => {
            let x = standing(alloc, at, a)?;
            one(alloc, at, head, a, x)
        }
        Shape::Two(head, a, b) => match connective(head) {
            Some(holds) => {
                let x = word_of(alloc, standing(alloc, at, a)?)?;
                let condition = Fact {
                    exp: &x.right,
                    holds,
                };
                let y = behind(alloc, at, condition, b)?;
                connected(alloc, head, x, y)
            }
            None => {
                let x = standing(alloc, at, a)?;
                let y = standing(alloc, at, b)?;
                two(alloc, at, head, a, x, y)
            }
        },
        Shape::Between(low, a, high) => between(alloc, low, standing(alloc, at, a)?, high),
        Shape::If(test, a, b) => {
            let test = word_of(alloc, standing(alloc, at, test)?)?;
            let holds = Fact {
                exp: &test.right,
                holds: true,
            };
            let x = behind(alloc, at, holds, a)?;
            let fails = Fact {
                exp: &test.right,
                holds: false,
            };
            let y = behind(alloc, at, fails, b)?;
            boxed(alloc, Standing::Chosen(test, x, y))
        }
        Shape::Padd(ty, p, n) => {
            let p = standing(alloc, at, p)?;
            let n = standing(alloc, at, n)?;
            padd(alloc, ty, p, n)
        }
        Shape::Root(head, ty, p) => root(alloc, head, ty, standing(alloc, at, p)?),
        Shape::Place(head, ty, p, path) => {
            let p = standing(alloc, at, p)?;
            let indices = indices(alloc, at, path)?;
            place(alloc, head, ty, p, indices)
        }
        Shape::Global(name, path) => global(alloc, name, indices(alloc, at, path)?),
        Shape::Sel(whole, path) => {
            let whole = standing(alloc, at, whole)?;
            let indices = indices(alloc, at, path)?;
            sel(alloc, whole, indices)
        }
        Shape::Upd(whole, path, part) => {
            let whole = standing(alloc, at, whole)?;
            let part = standing(alloc, at, part)?;
            let indices = indices(alloc, at, path)?;
            upd(alloc, whole, indices, part)
        }
    }
}

// Whether the second side of a connective stands where the first holds, or where it doesn't.
fn connective(head: Two) -> Option<bool>
    ensures { result ≡ connective (two_in head) }
{
    match head {
        Two::And | Two::Imp => Some(true),
        Two::Or => Some(false),
        _ => None,
    }
}

// What an expression stands for where one condition more holds.
#[cycle(standing)]
fn behind(
    alloc: Global,
    at: &Point<'_>,
    condition: Fact<'_>,
    e: &Exp,
) -> Result<Box<Standing>, AllocError>
    ensures { IfOk result (λ s. standing_in s.value
        ≡ standing_under at.now condition.entry (exp_of e.now)) }
{
    let conditions = Conditions::With(at.conditions, condition);
    let inner = Point {
        setting: at.setting,
        names: at.names,
        known: at.known,
        conditions: &conditions,
    };
    standing(alloc, &inner, e)
}

/// A path with its indices as they are. It goes along the path by a loop.
#[cycle(standing)]
#[tactic(auto, using(expression_lang::proofs::Fronts::with_steps_push))]
pub(crate) fn indices(alloc: Global, at: &Point<'_>, path: &Path) -> Result<Indices, AllocError>
    ensures path { IfOk result (λ new. path_of new.path ≡ path_at at.now (path_of path.now)) }
    ensures trees { IfOk result (λ new. (more : Trees Named) →
        with_trees new.trees.items more ≡ trees_at at.now (path_of path.now) more) }
{
    let mut steps = Vec::new(alloc);
    let mut trees = Vec::new(alloc);
    let mut rest = path;
    'along: loop {
        match opened(alloc, at, rest)? {
            Opening::Ended => {
                let path = closed_path(alloc, steps)?;
                return Ok(Indices { path, trees });
            }
            Opening::Last(step, more, next) => {
                trees = joined(trees, more)?;
                steps.push(step)?;
                rest = next;
            }
        }
    }
}

// A path with its first step made, and the tree of that if it has one.
#[derive(Drop)]
enum Opening<'a> {
    Ended,
    Last(PathFront, Vec<Tree<Rule>>, &'a Path),
}

#[cycle(standing)]
fn opened<'a>(alloc: Global, at: &Point<'_>, path: &'a Path) -> Result<Opening<'a>, AllocError>
    ensures same { IfOk result (λ new. path_opened_in at.now new
        ≡ path_at at.now (path_of path.now)) }
    ensures trees { IfOk result (λ new. (more : Trees Named) →
        trees_opened_in at.now new more ≡ trees_at at.now (path_of path.now) more) }
    ensures smaller { IfOk result (λ new. RestIsSmaller new (size-Path path.now)) }
{
    match path {
        Path::Here => Ok(Opening::Ended),
        Path::Field(k, next) => Ok(Opening::Last(PathFront::Field(*k), Vec::new(alloc), &**next)),
        Path::Index(index, next) => {
            let Abstracted { right, tree } = word_of(alloc, standing(alloc, at, index)?)?;
            let trees = alone(alloc, tree)?;
            Ok(Opening::Last(PathFront::Index(right), trees, &**next))
        }
    }
}
