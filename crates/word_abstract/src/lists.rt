//! Expressions of programs, alone and in lists.

ghost use Rattle.std.specs.Prelude.{◌≡◌, ◌<◌, [], map, IfOk, IfSome, IfNone};
ghost use Rattle.expression_lang.specs.declared.expression.Exp.{size-Exp};
ghost use Rattle.expression_lang.specs.Expression.{And};
ghost use Rattle.expression_lang.specs.CodeExpression.{exp_of, kind_of};
ghost use Rattle.monad_lang.specs.CodeProgram.{start_of};
ghost use Rattle.rule_trees.specs.RuleTree.{Trees};
ghost use Rattle.rule_word.specs.Rule.{Rule as Named, View};
ghost use Rattle.rule_word.specs.Table.{views_for, truth};
ghost use Rattle.rule_parts.specs.Starts.{start_exps};
ghost use Rattle.rule_word.specs.Scopes.{words, own, view_for};
ghost use Rattle.rule_word.specs.ProgramsAbstracted.{rights, trees_before, restarted};
ghost use Rattle.word_abstract.specs.CodeMeaning.{seen_in};
ghost use Rattle.word_abstract.specs.CodeGuards.{also, all_hold, IsNoAnd};
ghost use Rattle.word_abstract.specs.CodeTrees.{with_trees};
ghost use Rattle.word_abstract.specs.CodeViews.{seen_of};
ghost use Rattle.word_abstract.specs.CodeAbstracted.{abstracted_in};
ghost use Rattle.word_abstract.specs.CodeScenes.{context_at, binders_at, exp_there, guard_there, all_there};

use crate::abstracted::{Abstracted, over_two};
use crate::exps::abstracted;
use crate::facts::{Conditions, Known};
use crate::points::{Point, Scene};
use crate::views::{Seen, seen_for};
use expression_lang::{Exp, Kind};
use monad_lang::Start;
use rule_trees::Tree;
use rule_word::Rule;
use std::alloc::{AllocError, Global};

// An expression of a program, seen so.
#[tactic(auto, using(crate::proofs::Seeing::exp_seen))]
fn exp_at(alloc: Global, at: &Scene<'_>, e: &Exp, view: Seen) -> Result<Abstracted, AllocError>
    ensures { IfOk result (λ x. (v : View) → seen_in v ≡ seen_of view →
        abstracted_in x ≡ exp_there at.now (exp_of e.now) v) }
{
    let conditions = Conditions::None;
    let point = Point {
        setting: at.setting,
        names: at.names,
        known: at.known,
        conditions: &conditions,
    };
    abstracted(alloc, &point, e, view)
}

/// At the kind.
pub(crate) fn exp_of_kind(
    alloc: Global,
    at: &Scene<'_>,
    e: &Exp,
    kind: Kind,
) -> Result<Abstracted, AllocError>
    ensures { IfOk result (λ x. abstracted_in x
        ≡ exp_there at.now (exp_of e.now) (view_for (kind_of kind))) }
{
    exp_at(alloc, at, e, seen_for(kind))
}

/// A test.
pub(crate) fn test_at(alloc: Global, at: &Scene<'_>, e: &Exp) -> Result<Abstracted, AllocError>
    ensures { IfOk result (λ x. abstracted_in x ≡ exp_there at.now (exp_of e.now) truth) }
{
    exp_at(alloc, at, e, Seen::AsWord)
}

/// An expression as it is.
pub(crate) fn own_at(alloc: Global, at: &Scene<'_>, e: &Exp) -> Result<Abstracted, AllocError>
    ensures { IfOk result (λ x. abstracted_in x
        ≡ exp_there at.now (exp_of e.now)
        (own (words (context_at at.now) (binders_at at.now)).scope (exp_of e.now))) }
{
    exp_at(alloc, at, e, Seen::AsWord)
}

/// A loop's guard: each of its conditions is known where the next stands. It goes along them by a
/// loop.
#[tactic(auto, using(crate::proofs::GuardLaws::guard_last, crate::proofs::GuardLaws::guard_also))]
pub(crate) fn guard_at(alloc: Global, at: &Scene<'_>, e: &Exp) -> Result<Abstracted, AllocError>
    requires { at.now.known.own.now ≡ [] }
    ensures { IfOk result (λ x. abstracted_in x ≡ guard_there at.now (exp_of e.now)) }
{
    let mut before = Vec::new(alloc);
    let mut own = Vec::new(alloc);
    let mut rest = e;
    'along: loop {
        let here = Scene {
            setting: at.setting,
            names: at.names,
            known: Known {
                outer: at.known.outer,
                own: &own,
            },
        };
        let Some(sides) = sides_of(rest) else {
            let last = test_at(alloc, &here, rest)?;
            return all_hold(alloc, before, last);
        };
        let x = test_at(alloc, &here, sides.first)?;
        own.push(x.right.copy(alloc)?)?;
        before.push(x)?;
        rest = sides.last;
    }
}

// The sides of an `and`.
#[derive(Clone, Copy)]
struct Sides<'a> {
    first: &'a Exp,
    last: &'a Exp,
}

fn sides_of(e: &Exp) -> Option<Sides<'_>>
    ensures some { IfSome result (λ it. exp_of e.now
        ≡ And (exp_of it.first.now) (exp_of it.last.now)) }
    ensures smaller { IfSome result (λ it. size-Exp it.last.now < size-Exp e.now) }
    ensures none { IfNone result (IsNoAnd (exp_of e.now)) }
{
    match e {
        Exp::And(first, last) => Some(Sides {
            first: &**first,
            last: &**last,
        }),
        _ => None,
    }
}

// The first of some conditions is outermost.
#[tactic(auto, using(crate::proofs::GuardLaws::all_hold_push))]
fn all_hold(
    alloc: Global,
    mut before: Vec<Abstracted>,
    last: Abstracted,
) -> Result<Abstracted, AllocError>
    ensures { IfOk result (λ x. abstracted_in x
        ≡ all_hold (map abstracted_in before.items) (abstracted_in last)) }
{
    let mut whole = last;
    'back: while let Some(first) = before.pop() {
        whole = also(alloc, first, whole)?;
    }
    Ok(whole)
}

fn also(alloc: Global, first: Abstracted, last: Abstracted) -> Result<Abstracted, AllocError>
    ensures { IfOk result (λ x. abstracted_in x
        ≡ also (abstracted_in first) (abstracted_in last)) }
{
    let e = Exp::And(first.right, last.right);
    over_two(alloc, Rule::Logic, e, first.tree, last.tree)
}

/// Expressions on the right, and their trees.
#[derive(Drop)]
pub(crate) struct AbstractedExps {
    pub(crate) exps: Vec<Exp>,
    pub(crate) trees: Vec<Tree<Rule>>,
}

/// Expressions, each at its kind.
#[tactic(auto, using(crate::proofs::Mapped::mapped_push, crate::proofs::TreeLists::with_trees_push))]
pub(crate) fn all_at(
    alloc: Global,
    at: &Scene<'_>,
    exps: &[Exp],
    kinds: &[Kind],
) -> Result<AbstractedExps, AllocError>
    ensures exps { IfOk result (λ new. map exp_of new.exps.items
        ≡ rights (all_there at.now (map exp_of exps.now) (views_for (map kind_of kinds.now)))) }
    ensures trees { IfOk result (λ new. (more : Trees Named) → with_trees new.trees.items more
        ≡ trees_before (all_there at.now (map exp_of exps.now)
        (views_for (map kind_of kinds.now))) more) }
{
    let mut made = Vec::new(alloc);
    let mut trees = Vec::new(alloc);
    let mut rest = exps;
    let mut left = kinds;
    'along: while let Some((first, others)) = rest.split_first() {
        let Some((kind, behind)) = left.split_first() else {
            return Ok(AbstractedExps { exps: made, trees });
        };
        let Abstracted { right, tree } = exp_of_kind(alloc, at, first, *kind)?;
        made.push(Box::into_inner(right))?;
        trees.push(tree)?;
        rest = others;
        left = behind;
    }
    Ok(AbstractedExps { exps: made, trees })
}

/// Names that begin with expressions on the right, and the trees of these.
#[derive(Drop)]
pub(crate) struct AbstractedStarts {
    pub(crate) starts: Vec<Start>,
    pub(crate) trees: Vec<Tree<Rule>>,
}

/// Names that begin with expressions, each at its kind.
#[tactic(auto, using(crate::proofs::Mapped::mapped_push, crate::proofs::TreeLists::with_trees_push))]
pub(crate) fn starts_at(
    alloc: Global,
    at: &Scene<'_>,
    starts: &[Start],
    kinds: &[Kind],
) -> Result<AbstractedStarts, AllocError>
    ensures starts { IfOk result (λ new. let xs = map start_of starts.now in
        map start_of new.starts.items ≡ restarted xs (rights (all_there at.now (start_exps xs)
        (views_for (map kind_of kinds.now))))) }
    ensures trees { IfOk result (λ new. (more : Trees Named) → with_trees new.trees.items more
        ≡ trees_before (all_there at.now (start_exps (map start_of starts.now))
        (views_for (map kind_of kinds.now))) more) }
{
    let mut made = Vec::new(alloc);
    let mut trees = Vec::new(alloc);
    let mut rest = starts;
    let mut left = kinds;
    'along: while let Some((first, others)) = rest.split_first() {
        let Some((kind, behind)) = left.split_first() else {
            return Ok(AbstractedStarts {
                starts: made,
                trees,
            });
        };
        let Abstracted { right, tree } = exp_of_kind(alloc, at, &first.exp, *kind)?;
        made.push(restarted(first, right)?)?;
        trees.push(tree)?;
        rest = others;
        left = behind;
    }
    Ok(AbstractedStarts {
        starts: made,
        trees,
    })
}

// The same name with another expression.
fn restarted(first: &Start, exp: Box<Exp>) -> Result<Start, AllocError>
    ensures { IfOk result (λ new.
        start_of new ≡ record { name = (start_of first.now).name; exp = exp_of exp.value }) }
{
    let name = first.name.clone()?;
    Ok(Start {
        name,
        exp: Box::into_inner(exp),
    })
}
