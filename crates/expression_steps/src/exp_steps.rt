//! The first step in an expression that a choice of steps makes: outermost first, then from left to
//! right, with the facts that flow to each part.

ghost use Rattle.std.specs.Prelude.{◌≡◌, ◌∷◌, IfOk, Some};
ghost use Rattle.std.specs.Option.{option_map};
ghost use Rattle.c_values.specs.CodeTypes.{type_of};
ghost use Rattle.expression_lang.specs.Expression.{If, Padd};
ghost use Rattle.expression_lang.specs.CodeExpression.{exp_of, path_of};
ghost use Rattle.expression_lang.specs.CodeShape.{whole_two, whole_place};
ghost use Rattle.expression_lang.specs.CodeShapeView.{two_in, place_in};
ghost use Rattle.ac_expr.specs.Fact.{Whole, NotTrue};
ghost use Rattle.expression_steps.specs.Rewritten.{in_two, in_three, first_step, path_step};
ghost use Rattle.expression_steps.specs.Shortened.{shortened};
ghost use Rattle.expression_steps.specs.CodePoint.{known_in, scope_in};
ghost use Rattle.expression_steps.specs.CodeExpSteps.{right_facts};

use crate::points::{Context, Passed};
use crate::table_steps::shortened;
use ac_expr::{Fact, Facts};
use c_values::{CType, copy_of};
use expression_lang::{
    Exp, Path, PlaceHead, Shape, Two, boxed, shape_of, whole_one, whole_place, whole_root,
    whole_two,
};
use std::alloc::{AllocError, Global};

// An expression that was made.
fn made(alloc: Global, e: Exp) -> Result<Option<Box<Exp>>, AllocError>
    ensures { IfOk result (λ new. option_map (λ e. exp_of e.value) new ≡ Some (exp_of e)) }
{
    Ok(Some(boxed(alloc, e)?))
}

/// An expression after its first step, or none where there is no step.
#[cycle(exp_steps)]
#[tactic(auto, using(crate::proofs::ShapeSteps::step_itself, crate::proofs::ShapeSteps::step_shape, crate::proofs::Sizes::two_smaller, crate::proofs::Sizes::three_smaller))]
pub(crate) fn first_step<'x>(
    alloc: Global,
    context: &Context<'_>,
    facts: &'x Facts<'x, Passed<'x>>,
    e: &'x Exp,
) -> Result<Option<Box<Exp>>, AllocError>
    ensures { IfOk result (λ new. option_map (λ e. exp_of e.value) new
        ≡ first_step (shortened (scope_in context.now)) (known_in facts.now) (exp_of e.now)) }
{
    if let Some(new) = shortened(alloc, context, facts, e)? {
        return Ok(Some(new));
    }
    match shape_of(e) {
        Shape::Leaf(_) | Shape::Sel(_, _) | Shape::Upd(_, _, _) => Ok(None),
        Shape::One(head, a) => match first_step(alloc, context, facts, a)? {
            Some(new) => made(alloc, whole_one(head, new)),
            None => Ok(None),
        },
        Shape::Between(low, a, high) => match first_step(alloc, context, facts, a)? {
            Some(new) => made(alloc, Exp::Between(low, new, high)),
            None => Ok(None),
        },
        Shape::Root(head, ty, p) => match first_step(alloc, context, facts, p)? {
            Some(new) => made(alloc, whole_root(head, copy_of(alloc, ty)?, new)),
            None => Ok(None),
        },
        Shape::Global(name, path) => match path_step(alloc, context, facts, path)? {
            Some(new) => made(alloc, Exp::Global(String::from_str(alloc, name)?, new)),
            None => Ok(None),
        },
        Shape::Two(head, a, b) => two_step(alloc, context, facts, head, a, b),
        Shape::If(c, a, b) => if_step(alloc, context, facts, c, a, b),
        Shape::Padd(ty, p, n) => padd_step(alloc, context, facts, ty, p, n),
        Shape::Place(head, ty, p, path) => place_step(alloc, context, facts, head, ty, p, path),
    }
}

#[cycle(exp_steps)]
#[tactic(auto, using(crate::proofs::Sizes::first_within, crate::proofs::Sizes::right_within))]
fn two_step<'x>(
    alloc: Global,
    context: &Context<'_>,
    facts: &'x Facts<'x, Passed<'x>>,
    head: Two,
    a: &'x Exp,
    b: &'x Exp,
) -> Result<Option<Box<Exp>>, AllocError>
    ensures { IfOk result (λ new. option_map (λ e. exp_of e.value) new
        ≡ in_two (λ x y. whole_two (two_in head) x y) (exp_of a.now) (exp_of b.now)
        (first_step (shortened (scope_in context.now)) (known_in facts.now) (exp_of a.now))
        (first_step (shortened (scope_in context.now)) (right_facts (two_in head) (exp_of a.now)
        (known_in facts.now))
        (exp_of b.now))) }
{
    if let Some(new) = first_step(alloc, context, facts, a)? {
        let b = b.boxed_copy(alloc)?;
        return made(alloc, whole_two(head, new, b));
    }
    let Some(new) = right_step(alloc, context, facts, head, a, b)? else {
        return Ok(None);
    };
    let a = a.boxed_copy(alloc)?;
    made(alloc, whole_two(head, a, new))
}

// A step in the second of two parts, where the first may be a fact.
#[cycle(exp_steps)]
fn right_step<'x>(
    alloc: Global,
    context: &Context<'_>,
    facts: &'x Facts<'x, Passed<'x>>,
    head: Two,
    a: &'x Exp,
    b: &'x Exp,
) -> Result<Option<Box<Exp>>, AllocError>
    ensures { IfOk result (λ new. option_map (λ e. exp_of e.value) new
        ≡ first_step (shortened (scope_in context.now)) (right_facts (two_in head) (exp_of a.now)
        (known_in facts.now)) (exp_of b.now)) }
{
    match head {
        Two::And | Two::Imp => {
            let fact = Fact::Whole(&*a);
            first_step(alloc, context, &(&*facts).with(&fact), &*b)
        }
        Two::Or => {
            let fact = Fact::Not(&*a);
            first_step(alloc, context, &(&*facts).with(&fact), &*b)
        }
        _ => first_step(alloc, context, facts, b),
    }
}

#[cycle(exp_steps)]
#[tactic(auto, using(crate::proofs::Sizes::first_within, crate::proofs::Sizes::second_of_three, crate::proofs::Sizes::third_of_three))]
fn if_step<'x>(
    alloc: Global,
    context: &Context<'_>,
    facts: &'x Facts<'x, Passed<'x>>,
    c: &'x Exp,
    a: &'x Exp,
    b: &'x Exp,
) -> Result<Option<Box<Exp>>, AllocError>
    ensures { IfOk result (λ new. option_map (λ e. exp_of e.value) new
        ≡ in_three (λ x y z. If x y z) (exp_of c.now) (exp_of a.now) (exp_of b.now)
        (first_step (shortened (scope_in context.now)) (known_in facts.now) (exp_of c.now))
        (first_step (shortened (scope_in context.now)) (Whole (exp_of c.now) ∷ known_in facts.now)
        (exp_of a.now))
        (first_step (shortened (scope_in context.now)) (NotTrue
        (exp_of c.now) ∷ known_in facts.now) (exp_of b.now))) }
{
    if let Some(new) = first_step(alloc, context, facts, c)? {
        let a = a.boxed_copy(alloc)?;
        let b = b.boxed_copy(alloc)?;
        return made(alloc, Exp::If(new, a, b));
    }
    let holds = Fact::Whole(&*c);
    if let Some(new) = first_step(alloc, context, &(&*facts).with(&holds), &*a)? {
        let c = c.boxed_copy(alloc)?;
        let b = b.boxed_copy(alloc)?;
        return made(alloc, Exp::If(c, new, b));
    }
    let fails = Fact::Not(&*c);
    let Some(new) = first_step(alloc, context, &(&*facts).with(&fails), &*b)? else {
        return Ok(None);
    };
    let c = c.boxed_copy(alloc)?;
    let a = a.boxed_copy(alloc)?;
    made(alloc, Exp::If(c, a, new))
}

#[cycle(exp_steps)]
#[tactic(auto, using(crate::proofs::Sizes::first_within, crate::proofs::Sizes::second_within))]
fn padd_step<'x>(
    alloc: Global,
    context: &Context<'_>,
    facts: &'x Facts<'x, Passed<'x>>,
    ty: &CType,
    p: &'x Exp,
    n: &'x Exp,
) -> Result<Option<Box<Exp>>, AllocError>
    ensures { IfOk result (λ new. option_map (λ e. exp_of e.value) new
        ≡ in_two (λ x y. Padd (type_of ty.now) x y) (exp_of p.now) (exp_of n.now)
        (first_step (shortened (scope_in context.now)) (known_in facts.now) (exp_of p.now))
        (first_step (shortened (scope_in context.now)) (known_in facts.now) (exp_of n.now))) }
{
    if let Some(new) = first_step(alloc, context, facts, p)? {
        let n = n.boxed_copy(alloc)?;
        return made(alloc, Exp::Padd(copy_of(alloc, ty)?, new, n));
    }
    let Some(new) = first_step(alloc, context, facts, n)? else {
        return Ok(None);
    };
    let p = p.boxed_copy(alloc)?;
    made(alloc, Exp::Padd(copy_of(alloc, ty)?, p, new))
}

#[cycle(exp_steps)]
#[tactic(auto, using(crate::proofs::Sizes::first_within, crate::proofs::Sizes::second_within))]
fn place_step<'x>(
    alloc: Global,
    context: &Context<'_>,
    facts: &'x Facts<'x, Passed<'x>>,
    head: PlaceHead,
    ty: &CType,
    p: &'x Exp,
    path: &'x Path,
) -> Result<Option<Box<Exp>>, AllocError>
    ensures { IfOk result (λ new. option_map (λ e. exp_of e.value) new
        ≡ in_two (λ x y. whole_place (place_in head) (type_of ty.now) x y) (exp_of p.now)
        (path_of path.now)
        (first_step (shortened (scope_in context.now)) (known_in facts.now) (exp_of p.now))
        (path_step (shortened (scope_in context.now)) (known_in facts.now) (path_of path.now))) }
{
    if let Some(new) = first_step(alloc, context, facts, p)? {
        let path = path.copy(alloc)?;
        return made(alloc, whole_place(head, copy_of(alloc, ty)?, new, path));
    }
    let Some(new) = path_step(alloc, context, facts, path)? else {
        return Ok(None);
    };
    let p = p.boxed_copy(alloc)?;
    made(alloc, whole_place(head, copy_of(alloc, ty)?, p, new))
}

/// A path after its first step, or none where there is no step.
#[cycle(exp_steps)]
pub(crate) fn path_step<'x>(
    alloc: Global,
    context: &Context<'_>,
    facts: &'x Facts<'x, Passed<'x>>,
    path: &'x Path,
) -> Result<Option<Path>, AllocError>
    ensures { IfOk result (λ new. option_map path_of new
        ≡ path_step (shortened (scope_in context.now)) (known_in facts.now) (path_of path.now)) }
{
    match path {
        Path::Here => Ok(None),
        Path::Field(k, rest) => match path_step(alloc, context, facts, rest)? {
            Some(new) => Ok(Some(Path::Field(*k, Box::new(alloc, new)?))),
            None => Ok(None),
        },
        Path::Index(e, rest) => {
            if let Some(new) = first_step(alloc, context, facts, e)? {
                let rest = rest.copy(alloc)?;
                return Ok(Some(Path::Index(new, Box::new(alloc, rest)?)));
            }
            let Some(new) = path_step(alloc, context, facts, rest)? else {
                return Ok(None);
            };
            let e = e.boxed_copy(alloc)?;
            Ok(Some(Path::Index(e, Box::new(alloc, new)?)))
        }
    }
}
