//! Trees read as paths.
ghost use Rattle.std.specs.Prelude.{◌≡◌, Some, IfOk};
ghost use Rattle.ac_sx.specs.CodeSx.{tree_of, trees_in, one_of};
ghost use Rattle.expression_lang.specs.Expression.{Here};
ghost use Rattle.expression_lang.specs.CodeExpression.{path_of};
ghost use Rattle.expression_lang.specs.CodeShapeView.{with_step, with_steps};
ghost use Rattle.expression_text.specs.ExpReading.{path_at, steps_at, step_at};
ghost use Rattle.expression_text.specs.ExpRows.{field_step, element_step};
ghost use Rattle.expression_text.specs.CodeFault.{Gives};

use crate::exp_reading::boxed_exp_at;
use crate::fault::TextFault;
use crate::numbering::next;
use crate::numbers::count_at;
use ac_sx::{Sx, headed, one};
use expression_lang::{Path, PathFront};
use std::alloc::{AllocError, Global};

/// The path that a list of steps is.
#[cycle(exps)]
pub fn path_at(alloc: Global, tree: &Sx, at: u32) -> Result<(Path, u32), TextFault>
    ensures { Gives path_of result (path_at at (tree_of tree.now)) }
{
    match tree.parts() {
        Some(steps) => steps_at(alloc, steps, next(at)),
        None => Err(TextFault::Shape(at)),
    }
}

/// The path of these steps.
#[cycle(exps)]
pub(crate) fn steps_at(alloc: Global, steps: &[Sx], at: u32) -> Result<(Path, u32), TextFault>
    ensures { Gives path_of result (steps_at at (trees_in steps.now)) }
{
    let mut fronts = Vec::new(alloc);
    let mut at = at;
    'steps: for step in steps {
        let (front, behind) = step_at(alloc, step, at)?;
        fronts.push(front)?;
        at = behind;
    }
    Ok((closed_path(alloc, fronts)?, at))
}

/// The step that a tree is.
#[cycle(exps)]
pub(crate) fn step_at(alloc: Global, tree: &Sx, at: u32) -> Result<(PathFront, u32), TextFault>
    ensures { Gives with_step result (step_at at (tree_of tree.now)) }
{
    let Some((head, parts)) = headed(tree) else {
        return Err(TextFault::Shape(at));
    };
    let inner = next(next(at));
    if head == "f" {
        field_step(at, inner, parts)
    } else if head == "i" {
        element_step(alloc, at, inner, parts)
    } else {
        Err(TextFault::Shape(at))
    }
}

fn field_step(at: u32, inner: u32, parts: &[Sx]) -> Result<(PathFront, u32), TextFault>
    ensures { Gives with_step result (field_step at inner (one_of (trees_in parts.now))) }
{
    let Some(member) = one(parts) else {
        return Err(TextFault::Shape(at));
    };
    let (member, at) = count_at(member, inner)?;
    Ok((PathFront::Field(member), at))
}

#[cycle(exps)]
fn element_step(
    alloc: Global,
    at: u32,
    inner: u32,
    parts: &[Sx],
) -> Result<(PathFront, u32), TextFault>
    ensures { Gives with_step result (element_step at inner (one_of (trees_in parts.now))) }
{
    let Some(index) = one(parts) else {
        return Err(TextFault::Shape(at));
    };
    let (index, at) = boxed_exp_at(alloc, index, inner)?;
    Ok((PathFront::Index(index), at))
}

/// The path of these steps, the first one first.
#[tactic(auto, using(expression_lang::proofs::Fronts::with_steps_push))]
fn closed_path(alloc: Global, mut fronts: Vec<PathFront>) -> Result<Path, AllocError>
    ensures { IfOk result (λ path. path_of path ≡ with_steps fronts.items Here) }
{
    let mut path = Path::Here;
    'back: while let Some(front) = fronts.pop() {
        path = whole_path(alloc, front, path)?;
    }
    Ok(path)
}

pub(crate) fn whole_path(alloc: Global, front: PathFront, rest: Path) -> Result<Path, AllocError>
    ensures { IfOk result (λ path. path_of path ≡ with_step front (path_of rest)) }
{
    let rest = Box::new(alloc, rest)?;
    match front {
        PathFront::Field(member) => Ok(Path::Field(member, rest)),
        PathFront::Index(index) => Ok(Path::Index(index, rest)),
    }
}
