//! Copies of expressions and paths.

ghost use Rattle.std.specs.Prelude.{◌≡◌, IfOk};
ghost use Rattle.expression_lang.specs.declared.expression.Exp.{size-Exp};
ghost use Rattle.expression_lang.specs.declared.paths.Path.{size-Path};
ghost use Rattle.expression_lang.specs.Expression.{Here};
ghost use Rattle.expression_lang.specs.CodeExpression.{exp_of, path_of};
ghost use Rattle.expression_lang.specs.CodeShapeView.{with_fronts, with_step, with_steps};
ghost use Rattle.expression_lang.specs.CodeCopied.{peeled_in, LastIsSmaller, peeled_path_in, RestIsSmaller};

use crate::expression::Exp;
use crate::paths::Path;
use crate::shape::{Front, PathFront, Shape, boxed, shape_of, whole, whole_leaf};
use std::alloc::{AllocError, Global};

impl Exp {
    /// A copy.
    pub fn copy(&self, alloc: Global) -> Result<Exp, AllocError>
        ensures { IfOk result (λ copy. exp_of copy ≡ exp_of self.now) }
    {
        let copy = self.boxed_copy(alloc)?;
        Ok(Box::into_inner(copy))
    }

    /// A copy on the heap. It goes along the last parts by a loop, since a text may have long
    /// chains.
    #[cycle(copy)]
    #[tactic(auto, using(crate::proofs::Fronts::with_fronts_push))]
    pub fn boxed_copy(&self, alloc: Global) -> Result<Box<Exp>, AllocError>
        ensures { IfOk result (λ copy. exp_of copy.value ≡ exp_of self.now) }
    {
        let mut fronts = Vec::new(alloc);
        let mut rest = self;
        'along: loop {
            match peeled(alloc, rest)? {
                Peel::Ended(copy) => return closed(alloc, fronts, copy),
                Peel::Last(front, last) => {
                    fronts.push(front)?;
                    rest = last;
                }
            }
        }
    }
}

// An expression with all but the last part copied.
#[derive(Drop)]
enum Peel<'a> {
    Ended(Box<Exp>),
    Last(Front<'a>, &'a Exp),
}

#[cycle(copy)]
#[tactic(auto, using(crate::proofs::ShapeLaws::whole_shape))]
fn peeled(alloc: Global, e: &Exp) -> Result<Peel<'_>, AllocError>
    ensures same { IfOk result (λ peel. peeled_in peel ≡ exp_of e.now) }
    ensures smaller { IfOk result (λ peel. LastIsSmaller peel (size-Exp e.now)) }
{
    match shape_of(e) {
        Shape::Leaf(leaf) => Ok(Peel::Ended(boxed(alloc, whole_leaf(alloc, leaf)?)?)),
        Shape::One(head, last) => Ok(Peel::Last(Front::One(head), last)),
        Shape::Two(head, a, last) => Ok(Peel::Last(Front::Two(head, a.boxed_copy(alloc)?), last)),
        Shape::Between(low, last, high) => Ok(Peel::Last(Front::Between(low, high), last)),
        Shape::If(c, a, last) => {
            let c = c.boxed_copy(alloc)?;
            Ok(Peel::Last(Front::If(c, a.boxed_copy(alloc)?), last))
        }
        Shape::Padd(ty, p, last) => Ok(Peel::Last(Front::Padd(ty, p.boxed_copy(alloc)?), last)),
        Shape::Root(head, ty, last) => Ok(Peel::Last(Front::Root(head, ty), last)),
        Shape::Place(head, ty, last, path) => {
            Ok(Peel::Last(Front::Place(head, ty, path.copy(alloc)?), last))
        }
        Shape::Global(name, path) => {
            let path = path.copy(alloc)?;
            let name = String::from_str(alloc, name)?;
            Ok(Peel::Ended(boxed(alloc, Exp::Global(name, path))?))
        }
        Shape::Sel(last, path) => Ok(Peel::Last(Front::Sel(path.copy(alloc)?), last)),
        Shape::Upd(whole, path, last) => {
            let whole = whole.boxed_copy(alloc)?;
            Ok(Peel::Last(Front::Upd(whole, path.copy(alloc)?), last))
        }
    }
}

// An expression with fronts around it, the first front outermost.
#[tactic(auto, using(crate::proofs::Fronts::with_fronts_push))]
pub(crate) fn closed(
    alloc: Global,
    mut fronts: Vec<Front<'_>>,
    last: Box<Exp>,
) -> Result<Box<Exp>, AllocError>
    ensures { IfOk result (λ e.
        exp_of e.value ≡ with_fronts fronts.entry.items (exp_of last.value)) }
{
    let mut copy = last;
    'back: while let Some(front) = fronts.pop() {
        copy = boxed(alloc, whole(alloc, front, copy)?)?;
    }
    Ok(copy)
}

impl Path {
    /// A copy. It goes along the path by a loop, since a text may have long paths.
    #[cycle(copy)]
    #[tactic(auto, using(crate::proofs::Fronts::with_steps_push))]
    pub fn copy(&self, alloc: Global) -> Result<Path, AllocError>
        ensures { IfOk result (λ copy. path_of copy ≡ path_of self.now) }
    {
        let mut fronts = Vec::new(alloc);
        let mut rest = self;
        'along: loop {
            match peeled_path(alloc, rest)? {
                PathPeel::Ended => return closed_path(alloc, fronts),
                PathPeel::Last(front, next) => {
                    fronts.push(front)?;
                    rest = next;
                }
            }
        }
    }
}

// A path with its first step copied.
#[derive(Drop)]
enum PathPeel<'a> {
    Ended,
    Last(PathFront, &'a Path),
}

#[cycle(copy)]
fn peeled_path(alloc: Global, path: &Path) -> Result<PathPeel<'_>, AllocError>
    ensures same { IfOk result (λ peel. peeled_path_in peel ≡ path_of path.now) }
    ensures smaller { IfOk result (λ peel. RestIsSmaller peel (size-Path path.now)) }
{
    match path {
        Path::Here => Ok(PathPeel::Ended),
        Path::Field(k, rest) => Ok(PathPeel::Last(PathFront::Field(*k), &**rest)),
        Path::Index(e, rest) => {
            let index = e.boxed_copy(alloc)?;
            Ok(PathPeel::Last(PathFront::Index(index), &**rest))
        }
    }
}

// A path of these steps.
#[tactic(auto, using(crate::proofs::Fronts::with_steps_push))]
pub(crate) fn closed_path(alloc: Global, mut fronts: Vec<PathFront>) -> Result<Path, AllocError>
    ensures { IfOk result (λ path. path_of path ≡ with_steps fronts.items Here) }
{
    let mut copy = Path::Here;
    'back: while let Some(front) = fronts.pop() {
        copy = whole_path(alloc, front, copy)?;
    }
    Ok(copy)
}

fn whole_path(alloc: Global, front: PathFront, rest: Path) -> Result<Path, AllocError>
    ensures { IfOk result (λ path. path_of path ≡ with_step front (path_of rest)) }
{
    let rest = Box::new(alloc, rest)?;
    match front {
        PathFront::Field(k) => Ok(Path::Field(k, rest)),
        PathFront::Index(e) => Ok(Path::Index(e, rest)),
    }
}
