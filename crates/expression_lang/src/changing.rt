//! Expressions with others in place of some of their parts.

ghost use Rattle.std.specs.Prelude.{◌≡◌, IfOk, Option, MatchOption, Some, None};
ghost use Rattle.expression_lang.specs.declared.expression.Exp.{size-Exp};
ghost use Rattle.expression_lang.specs.declared.paths.Path.{size-Path};
ghost use Rattle.expression_lang.specs.Expression as plain;
ghost use Rattle.expression_lang.specs.CodeExpression.{exp_of, path_of};
ghost use Rattle.expression_lang.specs.Changed.{changed, changed_path};
ghost use Rattle.expression_lang.specs.CodeChanging.{becomes, path_becomes, LastIsSmaller, RestIsSmaller};

use crate::copies::{closed, closed_path};
use crate::expression::Exp;
use crate::paths::Path;
use crate::shape::{Front, PathFront, Shape, boxed, shape_of, whole_leaf};
use std::alloc::{AllocError, Global};

/// What is to stand in an expression's place, where another is.
pub trait Change {
    ghost instead: { Self → plain.Exp → Option plain.Exp };

    /// What is to stand in an expression's place, or none.
    fn instead(&self, alloc: Global, e: &Exp) -> Result<Option<Box<Exp>>, AllocError>
        ensures { IfOk result (λ new. MatchOption new (instead self.now (exp_of e.now) ≡ None)
            (λ new. instead self.now (exp_of e.now) ≡ Some (exp_of new.value))) };
}

impl Exp {
    /// A copy with the change made. It goes along the last parts by a loop.
    #[cycle(changed)]
    #[tactic(auto, using(crate::proofs::Fronts::with_fronts_push))]
    pub fn changed<C: Change>(&self, alloc: Global, change: &C) -> Result<Box<Exp>, AllocError>
        ensures { IfOk result (λ new.
            exp_of new.value ≡ changed (C.instead change.now) (exp_of self.now)) }
    {
        let mut fronts = Vec::new(alloc);
        let mut rest = self;
        'along: loop {
            match opened(alloc, change, rest)? {
                Changing::Ended(new) => return closed(alloc, fronts, new),
                Changing::Last(front, last) => {
                    fronts.push(front)?;
                    rest = last;
                }
            }
        }
    }
}

// An expression with the change made in all but the last part.
#[derive(Drop)]
enum Changing<'a> {
    Ended(Box<Exp>),
    Last(Front<'a>, &'a Exp),
}

#[cycle(changed)]
#[tactic(auto, using(crate::proofs::ChangedShape::changed_shape, crate::proofs::ChangedShape::changed_itself))]
fn opened<'a, C: Change>(alloc: Global, change: &C, e: &'a Exp) -> Result<Changing<'a>, AllocError>
    ensures same { IfOk result (λ new.
        becomes (changed (C.instead change.now)) new
        ≡ changed (C.instead change.now) (exp_of e.now)) }
    ensures smaller { IfOk result (λ new. LastIsSmaller new (size-Exp e.now)) }
{
    if let Some(new) = change.instead(alloc, e)? {
        return Ok(Changing::Ended(new));
    }
    match shape_of(e) {
        Shape::Leaf(leaf) => Ok(Changing::Ended(boxed(alloc, whole_leaf(alloc, leaf)?)?)),
        Shape::One(head, last) => Ok(Changing::Last(Front::One(head), last)),
        Shape::Two(head, a, last) => {
            let a = a.changed(alloc, change)?;
            Ok(Changing::Last(Front::Two(head, a), last))
        }
        Shape::Between(low, last, high) => Ok(Changing::Last(Front::Between(low, high), last)),
        Shape::If(c, a, last) => {
            let c = c.changed(alloc, change)?;
            Ok(Changing::Last(Front::If(c, a.changed(alloc, change)?), last))
        }
        Shape::Padd(ty, p, last) => {
            let p = p.changed(alloc, change)?;
            Ok(Changing::Last(Front::Padd(ty, p), last))
        }
        Shape::Root(head, ty, last) => Ok(Changing::Last(Front::Root(head, ty), last)),
        Shape::Place(head, ty, last, path) => {
            let path = path.changed(alloc, change)?;
            Ok(Changing::Last(Front::Place(head, ty, path), last))
        }
        Shape::Global(name, path) => {
            let path = path.changed(alloc, change)?;
            let name = String::from_str(alloc, name)?;
            Ok(Changing::Ended(boxed(alloc, Exp::Global(name, path))?))
        }
        Shape::Sel(last, path) => {
            let path = path.changed(alloc, change)?;
            Ok(Changing::Last(Front::Sel(path), last))
        }
        Shape::Upd(whole, path, last) => {
            let whole = whole.changed(alloc, change)?;
            let path = path.changed(alloc, change)?;
            Ok(Changing::Last(Front::Upd(whole, path), last))
        }
    }
}

impl Path {
    /// A copy with the change made in its indices. It goes along the path by a loop.
    #[cycle(changed)]
    #[tactic(auto, using(crate::proofs::Fronts::with_steps_push))]
    pub fn changed<C: Change>(&self, alloc: Global, change: &C) -> Result<Path, AllocError>
        ensures { IfOk result (λ new.
            path_of new ≡ changed_path (C.instead change.now) (path_of self.now)) }
    {
        let mut fronts = Vec::new(alloc);
        let mut rest = self;
        'along: loop {
            match opened_path(alloc, change, rest)? {
                PathChanging::Ended => return closed_path(alloc, fronts),
                PathChanging::Last(front, next) => {
                    fronts.push(front)?;
                    rest = next;
                }
            }
        }
    }
}

// A path with the change made in its first step.
#[derive(Drop)]
enum PathChanging<'a> {
    Ended,
    Last(PathFront, &'a Path),
}

#[cycle(changed)]
fn opened_path<'a, C: Change>(
    alloc: Global,
    change: &C,
    path: &'a Path,
) -> Result<PathChanging<'a>, AllocError>
    ensures same { IfOk result (λ new.
        path_becomes (changed_path (C.instead change.now)) new
        ≡ changed_path (C.instead change.now) (path_of path.now)) }
    ensures smaller { IfOk result (λ new. RestIsSmaller new (size-Path path.now)) }
{
    match path {
        Path::Here => Ok(PathChanging::Ended),
        Path::Field(k, rest) => Ok(PathChanging::Last(PathFront::Field(*k), &**rest)),
        Path::Index(e, rest) => {
            let index = e.changed(alloc, change)?;
            Ok(PathChanging::Last(PathFront::Index(index), &**rest))
        }
    }
}
