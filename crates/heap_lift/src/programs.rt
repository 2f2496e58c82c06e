//! What programs are lifted to, and the programs without programs in them.

ghost use Rattle.std.specs.Prelude.{◌≡◌, IfOk, if◌then◌else◌};
ghost use Rattle.expression_lang.specs.CodeExpression.{exp_of};
ghost use Rattle.monad_lang.specs.Program as M;
ghost use Rattle.monad_lang.specs.CodeProgram.{place_of, mon_of};
ghost use Rattle.monad_lang.specs.CodeFront.{IsStep};
ghost use Rattle.rule_trees.specs.RuleTree.{node, no_trees};
ghost use Rattle.rule_heap.specs.Rule as rules;
ghost use Rattle.rule_heap.specs.CodeRule.{rule_of, tree_of};
ghost use Rattle.rule_heap.specs.ExpLifted.{leaf};
ghost use Rattle.rule_heap.specs.HeapLifted as heap;
ghost use Rattle.heap_lift.specs.CodeTrees.{with_trees};
ghost use Rattle.heap_lift.specs.Lifted.{lifted, made};
ghost use Rattle.heap_lift.specs.CodeLifted.{lifted_in};

use crate::exp_fronts::{LiftedExp, LiftedPath};
use crate::exps::{lifted_exp, lifted_path};
use crate::lists::{LiftedExps, lifted_exps};
use crate::plain::is_plain;
use crate::trees::{alone, and_then, joined, over};
use c_values::copy_of;
use expression_lang::Exp;
use monad_lang::{Mon, Place, boxed};
use rule_heap::Rule;
use rule_trees::Tree;
use std::alloc::{AllocError, Global};

/// A program on typed heaps, the tree of rules that takes another to it, and whether nothing was to
/// be done.
#[derive(Drop)]
pub(crate) struct Lifted {
    pub(crate) right: Box<Mon>,
    pub(crate) tree: Tree<Rule>,
    pub(crate) is_plain: bool,
}

/// A program by this rule and the trees of its parts; where nothing was to be done, by the rule for
/// that.
pub(crate) fn made(
    alloc: Global,
    right: Mon,
    rule: Rule,
    trees: Vec<Tree<Rule>>,
    is_plain: bool,
) -> Result<Box<Lifted>, AllocError>
    ensures { IfOk result (λ l. lifted_in l.value
        ≡ made is_plain (mon_of right)
        (node (rule_of rule) (with_trees trees.items no_trees))) }
{
    let right = boxed(alloc, right)?;
    let tree = same_or(alloc, rule, trees, is_plain);
    Ok(Box::new(
        alloc,
        Lifted {
            right,
            tree,
            is_plain,
        },
    )?)
}

fn same_or(alloc: Global, rule: Rule, trees: Vec<Tree<Rule>>, is_plain: bool) -> Tree<Rule>
    ensures { tree_of result
        ≡ (if is_plain then leaf rules.Same
        else node (rule_of rule) (with_trees trees.items no_trees)) }
{
    if is_plain {
        over(Rule::Same, Vec::new(alloc))
    } else {
        over(rule, trees)
    }
}

/// What a program without programs in it is lifted to.
pub(crate) fn step(alloc: Global, m: &Mon) -> Result<Box<Lifted>, AllocError>
    requires { IsStep (mon_of m.now) }
    ensures { IfOk result (λ l. lifted_in l.value ≡ lifted (mon_of m.now)) }
{
    let is_plain = is_plain(m);
    match m {
        Mon::Ret(values) => {
            let LiftedExps { exps, trees } = lifted_exps(alloc, values)?;
            made(alloc, Mon::Ret(exps), Rule::Ret, trees, is_plain)
        }
        Mon::Guard(condition) => {
            let LiftedExp { right, tree } = Box::into_inner(lifted_exp(alloc, condition)?);
            let trees = alone(alloc, tree)?;
            made(
                alloc,
                Mon::Guard(Box::into_inner(right)),
                Rule::Guard,
                trees,
                is_plain,
            )
        }
        Mon::Write(place, value) => written(alloc, place, value, is_plain),
        Mon::Call(function, arguments) => {
            let LiftedExps { exps, trees } = lifted_exps(alloc, arguments)?;
            made(
                alloc,
                Mon::Call(function.clone()?, exps),
                Rule::Call,
                trees,
                is_plain,
            )
        }
        Mon::Pick(kind) => made(
            alloc,
            Mon::Pick(*kind),
            Rule::Pick,
            Vec::new(alloc),
            is_plain,
        ),
        _ => unreachable!(),
    }
}

// A store becomes a write of a typed heap.
fn written(
    alloc: Global,
    place: &Place,
    value: &Exp,
    is_plain: bool,
) -> Result<Box<Lifted>, AllocError>
    requires { is_plain ≡ heap.is_plain (M.Write (place_of place.now) (exp_of value.now)) }
    ensures { IfOk result (λ l.
        lifted_in l.value ≡ lifted (M.Write (place_of place.now) (exp_of value.now))) }
{
    let LiftedExp { right, tree } = Box::into_inner(lifted_exp(alloc, value)?);
    match place {
        Place::Stored(ty, pointer, path) => {
            let LiftedExp {
                right: pointer,
                tree: root,
            } = Box::into_inner(lifted_exp(alloc, pointer)?);
            let LiftedPath { path, trees } = lifted_path(alloc, path)?;
            let trees = and_then(joined(alone(alloc, root)?, trees)?, tree)?;
            let place = Place::Written(copy_of(alloc, ty)?, Box::into_inner(pointer), path);
            let right = Mon::Write(place, Box::into_inner(right));
            made(alloc, right, Rule::Write, trees, is_plain)
        }
        Place::Written(ty, pointer, path) => {
            let LiftedExp { right: pointer, .. } = Box::into_inner(lifted_exp(alloc, pointer)?);
            let LiftedPath { path, .. } = lifted_path(alloc, path)?;
            let place = Place::Written(copy_of(alloc, ty)?, Box::into_inner(pointer), path);
            let right = Mon::Write(place, Box::into_inner(right));
            made(alloc, right, Rule::Same, Vec::new(alloc), is_plain)
        }
        Place::Global(name, path) => {
            let LiftedPath { path, trees } = lifted_path(alloc, path)?;
            let trees = and_then(trees, tree)?;
            let place = Place::Global(name.clone()?, path);
            let right = Mon::Write(place, Box::into_inner(right));
            made(alloc, right, Rule::Global, trees, is_plain)
        }
    }
}
