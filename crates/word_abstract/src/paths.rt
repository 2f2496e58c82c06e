//! Paths that are made of parts.

ghost use Rattle.std.specs.Prelude.{◌≡◌, IfOk};
ghost use Rattle.expression_lang.specs.Expression as plain;
ghost use Rattle.expression_lang.specs.CodeExpression.{path_of};
ghost use Rattle.expression_lang.specs.CodeShapeView.{with_step, with_steps};

use expression_lang::{Path, PathFront};
use rule_trees::Tree;
use rule_word::Rule;
use std::alloc::{AllocError, Global};

/// A path on the right, and the trees of its indices.
#[derive(Drop)]
pub(crate) struct Indices {
    pub(crate) path: Path,
    pub(crate) trees: Vec<Tree<Rule>>,
}

/// A path of these steps.
#[tactic(auto, using(expression_lang::proofs::Fronts::with_steps_push))]
pub(crate) fn closed_path(alloc: Global, mut steps: Vec<PathFront>) -> Result<Path, AllocError>
    ensures { IfOk result (λ path. path_of path ≡ with_steps steps.items plain.Here) }
{
    let mut path = Path::Here;
    'back: while let Some(step) = steps.pop() {
        path = with_step(alloc, step, path)?;
    }
    Ok(path)
}

fn with_step(alloc: Global, step: PathFront, rest: Path) -> Result<Path, AllocError>
    ensures { IfOk result (λ path. path_of path ≡ with_step step (path_of rest)) }
{
    let rest = Box::new(alloc, rest)?;
    match step {
        PathFront::Field(k) => Ok(Path::Field(k, rest)),
        PathFront::Index(e) => Ok(Path::Index(e, rest)),
    }
}
