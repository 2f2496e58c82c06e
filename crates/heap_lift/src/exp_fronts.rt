//! What an expression is lifted to, and expressions whose last part is apart.

ghost use Rattle.std.specs.Prelude.{◌≡◌, IfOk};
ghost use Rattle.c_values.specs.CodeTypes.{type_of};
ghost use Rattle.expression_lang.specs.Expression as plain;
ghost use Rattle.expression_lang.specs.CodeExpression.{path_of};
ghost use Rattle.expression_lang.specs.CodeShape as shape;
ghost use Rattle.expression_lang.specs.CodeShape.{whole_one, whole_two, whole_root, whole_place};
ghost use Rattle.expression_lang.specs.CodeShapeView.{one_in, two_in, root_in, place_in};
ghost use Rattle.rule_trees.specs.RuleTree as trees;
ghost use Rattle.rule_trees.specs.RuleTree.{node, no_trees};
ghost use Rattle.rule_heap.specs.Rule as rules;
ghost use Rattle.rule_heap.specs.CodeRule.{rule_of};
ghost use Rattle.rule_heap.specs.ExpLifted.{over_one, over_two, over_three};
ghost use Rattle.heap_lift.specs.CodeTrees.{with_trees};
ghost use Rattle.heap_lift.specs.CodeExps.{exp_in, with_front};
ghost use Rattle.heap_lift.specs.Lifted.{LiftedExp as Lifted, two_rule, root_rule, place_rule, place_lifted};

use crate::trees::{alone, and_then, joined, over};
use c_values::{CType, Number};
use expression_lang::{Exp, Front, One, Path, PlaceHead, RootTest, Two, boxed, whole};
use rule_heap::Rule;
use rule_trees::Tree;
use std::alloc::{AllocError, Global};

/// An expression without loads, and the tree of rules that takes another to it.
#[derive(Drop)]
pub(crate) struct LiftedExp {
    pub(crate) right: Box<Exp>,
    pub(crate) tree: Tree<Rule>,
}

/// A path without loads in its indices, and the trees of these.
#[derive(Drop)]
pub(crate) struct LiftedPath {
    pub(crate) path: Path,
    pub(crate) trees: Vec<Tree<Rule>>,
}

/// All but the last part of an expression; the rule, and the trees that stand before and after that
/// of the last part.
#[derive(Drop)]
pub(crate) struct ExpFront<'a> {
    pub(crate) exp: Front<'a>,
    pub(crate) rule: Rule,
    pub(crate) before: Vec<Tree<Rule>>,
    pub(crate) after: Vec<Tree<Rule>>,
}

/// What the whole is lifted to, where its last part is lifted to this.
pub(crate) fn with_front(
    alloc: Global,
    front: ExpFront<'_>,
    last: LiftedExp,
) -> Result<LiftedExp, AllocError>
    ensures { IfOk result (λ e. exp_in e ≡ with_front front.entry (exp_in last)) }
{
    let ExpFront {
        exp,
        rule,
        before,
        after,
    } = front;
    let LiftedExp { right, tree } = last;
    let right = boxed(alloc, whole(alloc, exp, right)?)?;
    let parts = joined(and_then(before, tree)?, after)?;
    Ok(LiftedExp {
        right,
        tree: over(rule, parts),
    })
}

/// With one part.
pub(crate) fn one<'a>(alloc: Global, head: One) -> ExpFront<'a>
    ensures { (d : Lifted) → with_front result d
        ≡ record { right = whole_one (one_in head) d.right; tree = over_one rules.Op d.tree } }
{
    ExpFront {
        exp: Front::One(head),
        rule: Rule::Op,
        before: Vec::new(alloc),
        after: Vec::new(alloc),
    }
}

/// Between two numbers.
pub(crate) fn between<'a>(alloc: Global, low: Number, high: Number) -> ExpFront<'a>
    ensures { (d : Lifted) → with_front result d
        ≡ record { right = plain.Between low d.right high; tree = over_one rules.Op d.tree } }
{
    ExpFront {
        exp: Front::Between(low, high),
        rule: Rule::Op,
        before: Vec::new(alloc),
        after: Vec::new(alloc),
    }
}

fn rule_of_two(head: Two) -> Rule
    ensures { rule_of result ≡ two_rule (two_in head) }
{
    match head {
        Two::And => Rule::And,
        Two::Or => Rule::Or,
        Two::Imp => Rule::Imp,
        _ => Rule::Op,
    }
}

/// With two parts, of which the first is lifted to this.
pub(crate) fn two<'a>(
    alloc: Global,
    head: Two,
    first: LiftedExp,
) -> Result<ExpFront<'a>, AllocError>
    ensures { IfOk result (λ front. (d : Lifted) → with_front front d
        ≡ record {
          right = whole_two (two_in head) (exp_in first).right d.right;
          tree = over_two (two_rule (two_in head)) (exp_in first).tree d.tree;
        }) }
{
    let LiftedExp { right, tree } = first;
    Ok(ExpFront {
        exp: Front::Two(head, right),
        rule: rule_of_two(head),
        before: alone(alloc, tree)?,
        after: Vec::new(alloc),
    })
}

/// With a test and a first part.
pub(crate) fn if_else<'a>(
    alloc: Global,
    test: LiftedExp,
    first: LiftedExp,
) -> Result<ExpFront<'a>, AllocError>
    ensures { IfOk result (λ front. (d : Lifted) → with_front front d
        ≡ record {
          right = plain.If (exp_in test).right (exp_in first).right d.right;
          tree = over_three rules.Cond (exp_in test).tree (exp_in first).tree d.tree;
        }) }
{
    let LiftedExp { right: c, tree: s } = test;
    let LiftedExp { right: a, tree: t } = first;
    Ok(ExpFront {
        exp: Front::If(c, a),
        rule: Rule::Cond,
        before: and_then(alone(alloc, s)?, t)?,
        after: Vec::new(alloc),
    })
}

/// A pointer and what is added.
pub(crate) fn padd<'a>(
    alloc: Global,
    ty: &'a CType,
    pointer: LiftedExp,
) -> Result<ExpFront<'a>, AllocError>
    ensures { IfOk result (λ front. (d : Lifted) → with_front front d
        ≡ record {
          right = plain.Padd (type_of ty.now) (exp_in pointer).right d.right;
          tree = over_two rules.Op (exp_in pointer).tree d.tree;
        }) }
{
    let LiftedExp { right, tree } = pointer;
    Ok(ExpFront {
        exp: Front::Padd(ty, right),
        rule: Rule::Op,
        before: alone(alloc, tree)?,
        after: Vec::new(alloc),
    })
}

fn rule_of_root(head: RootTest) -> Rule
    ensures { rule_of result ≡ root_rule (root_in head) }
{
    match head {
        RootTest::Tagged => Rule::Tagged,
        RootTest::PtrOk => Rule::PtrOk,
    }
}

/// A test of a root.
pub(crate) fn root<'a>(alloc: Global, head: RootTest, ty: &'a CType) -> ExpFront<'a>
    ensures { (d : Lifted) → with_front result d
        ≡ record {
          right = whole_root (root_in head) (type_of ty.now) d.right;
          tree = over_one (root_rule (root_in head)) d.tree;
        } }
{
    ExpFront {
        exp: Front::Root(head, ty),
        rule: rule_of_root(head),
        before: Vec::new(alloc),
        after: Vec::new(alloc),
    }
}

fn rule_of_place(head: PlaceHead) -> Rule
    ensures { rule_of result ≡ place_rule (place_in head) }
{
    match head {
        PlaceHead::Load => Rule::Load,
        _ => Rule::Op,
    }
}

fn place_lifted(head: PlaceHead) -> PlaceHead
    ensures { place_in result ≡ place_lifted (place_in head) }
{
    match head {
        PlaceHead::At => PlaceHead::At,
        PlaceHead::Load => PlaceHead::Read,
        PlaceHead::Read => PlaceHead::Read,
    }
}

/// A place, or what is there: a load becomes a read.
pub(crate) fn place<'a>(
    alloc: Global,
    head: PlaceHead,
    ty: &'a CType,
    path: LiftedPath,
) -> ExpFront<'a>
    ensures { (d : Lifted) → with_front result d
        ≡ record {
          right = whole_place (place_lifted (place_in head)) (type_of ty.now) d.right
              (path_of path.path);
          tree = node (place_rule (place_in head))
              (trees.tree d.tree (with_trees path.trees.items no_trees));
        } }
{
    let LiftedPath { path, trees } = path;
    ExpFront {
        exp: Front::Place(place_lifted(head), ty, path),
        rule: rule_of_place(head),
        before: Vec::new(alloc),
        after: trees,
    }
}

/// A part of a value.
pub(crate) fn sel<'a>(alloc: Global, path: LiftedPath) -> ExpFront<'a>
    ensures { (d : Lifted) → with_front result d
        ≡ record {
          right = plain.Sel d.right (path_of path.path);
          tree = node rules.Op (trees.tree d.tree (with_trees path.trees.items no_trees));
        } }
{
    let LiftedPath { path, trees } = path;
    ExpFront {
        exp: Front::Sel(path),
        rule: Rule::Op,
        before: Vec::new(alloc),
        after: trees,
    }
}

/// A value with a part replaced.
pub(crate) fn upd<'a>(
    alloc: Global,
    value: LiftedExp,
    path: LiftedPath,
) -> Result<ExpFront<'a>, AllocError>
    ensures { IfOk result (λ front. (d : Lifted) → with_front front d
        ≡ record {
          right = plain.Upd (exp_in value).right (path_of path.path) d.right;
          tree = node rules.Op
              (trees.tree (exp_in value).tree
              (with_trees path.trees.items (trees.tree d.tree no_trees)));
        }) }
{
    let LiftedExp { right, tree } = value;
    let LiftedPath { path, trees } = path;
    Ok(ExpFront {
        exp: Front::Upd(right, path),
        rule: Rule::Op,
        before: joined(alone(alloc, tree)?, trees)?,
        after: Vec::new(alloc),
    })
}
