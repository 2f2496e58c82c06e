//! Programs whose last program is apart, with the other parts lifted.

ghost use Rattle.std.specs.Prelude.{◌≡◌, ◌&&◌, map, string_bytes, IfOk};
ghost use Rattle.c_values.specs.CodeTypes.{type_of};
ghost use Rattle.expression_lang.specs.CodeExpression.{exp_of};
ghost use Rattle.monad_lang.specs.CodeProgram.{start_of};
ghost use Rattle.rule_trees.specs.RuleTree as trees;
ghost use Rattle.rule_heap.specs.ExpLifted.{exp_lifted, exp_tree};
ghost use Rattle.rule_heap.specs.HeapLifted.{starts_lifted, start_trees};
ghost use Rattle.heap_lift.specs.Lifted.{Lifted as Made, lifted_exp, is_plain_exp, are_plain_starts, bound, tested, looped, pointed};
ghost use Rattle.heap_lift.specs.CodeLifted.{lifted_in, with_front};

use crate::exp_fronts::LiftedExp;
use crate::exps::lifted_exp;
use crate::lists::{LiftedStarts, lifted_starts};
use crate::plain::{are_plain_starts, is_plain_exp};
use crate::programs::{Lifted, made};
use crate::trees::{alone, and_then};
use c_values::{CType, copy_of};
use expression_lang::{Exp, copy_names};
use monad_lang::{Front as Program, Mon, Start, boxed, whole};
use rule_heap::Rule;
use rule_trees::Tree;
use std::alloc::{AllocError, Global};

/// All but the last program of a program; the rule, the trees before that of the last program, and
/// whether nothing was to be done so far.
#[derive(Drop)]
pub(crate) struct Front {
    pub(crate) program: Program,
    pub(crate) rule: Rule,
    pub(crate) trees: Vec<Tree<Rule>>,
    pub(crate) is_plain: bool,
}

/// What the whole is lifted to, where its last program is lifted to this.
pub(crate) fn with_front(
    alloc: Global,
    front: Front,
    last: Lifted,
) -> Result<Box<Lifted>, AllocError>
    ensures { IfOk result (λ l. lifted_in l.value ≡ with_front front (lifted_in last)) }
{
    let Front {
        program,
        rule,
        trees,
        is_plain,
    } = front;
    let Lifted {
        right,
        tree,
        is_plain: last_is_plain,
    } = last;
    let trees = and_then(trees, tree)?;
    made(
        alloc,
        whole(program, right),
        rule,
        trees,
        is_plain && last_is_plain,
    )
}

/// A program whose results go into these names.
pub(crate) fn bound(
    alloc: Global,
    first: Box<Lifted>,
    names: &[String],
) -> Result<Front, AllocError>
    ensures { IfOk result (λ front. (d : Made) → with_front front d
        ≡ bound (lifted_in first.value) (map string_bytes names.now) d) }
{
    let Lifted {
        right,
        tree,
        is_plain,
    } = Box::into_inner(first);
    Ok(Front {
        program: Program::Bind(right, copy_names(alloc, names)?),
        rule: Rule::Bind,
        trees: alone(alloc, tree)?,
        is_plain,
    })
}

/// A test, and what follows where it holds.
pub(crate) fn tested(alloc: Global, test: &Exp, first: Box<Lifted>) -> Result<Front, AllocError>
    ensures { IfOk result (λ front. (d : Made) → with_front front d
        ≡ tested (is_plain_exp (exp_of test.now)) (lifted_exp (exp_of test.now))
        (lifted_in first.value) d) }
{
    let Lifted {
        right: a,
        tree: t,
        is_plain: first_is_plain,
    } = Box::into_inner(first);
    let is_plain = is_plain_exp(test);
    let LiftedExp { right, tree } = Box::into_inner(lifted_exp(alloc, test)?);
    Ok(Front {
        program: Program::If(right, a),
        rule: Rule::If,
        trees: and_then(alone(alloc, tree)?, t)?,
        is_plain: is_plain && first_is_plain,
    })
}

/// Names with what they begin with, a guard and a test.
pub(crate) fn looped(
    alloc: Global,
    starts: &[Start],
    guard: &Exp,
    test: &Exp,
) -> Result<Front, AllocError>
    ensures { IfOk result (λ front. (d : Made) →
        let begins = map start_of starts.now in
        let g = exp_of guard.now in
        let t = exp_of test.now in
        with_front front d
        ≡ looped ((are_plain_starts begins && is_plain_exp g) && is_plain_exp t)
        (starts_lifted begins) (exp_lifted g) (exp_lifted t)
        (λ more. start_trees begins (trees.tree (exp_tree g) (trees.tree (exp_tree t) more))) d) }
{
    let are_plain = are_plain_starts(starts);
    let guard_is_plain = is_plain_exp(guard);
    let test_is_plain = is_plain_exp(test);
    let LiftedStarts { starts, trees } = lifted_starts(alloc, starts)?;
    let LiftedExp {
        right: guard,
        tree: s,
    } = Box::into_inner(lifted_exp(alloc, guard)?);
    let LiftedExp {
        right: test,
        tree: t,
    } = Box::into_inner(lifted_exp(alloc, test)?);
    Ok(Front {
        program: Program::Loop(starts, guard, test),
        rule: Rule::Loop,
        trees: and_then(and_then(trees, s)?, t)?,
        is_plain: are_plain && guard_is_plain && test_is_plain,
    })
}

/// A test that a pointer may point and that of its tag: the tag's stays.
pub(crate) fn pointed(alloc: Global, ty: &CType, pointer: &Exp) -> Result<Front, AllocError>
    ensures { IfOk result (λ front. (d : Made) → with_front front d
        ≡ pointed (type_of ty.now) (lifted_exp (exp_of pointer.now)) d) }
{
    let LiftedExp { right, tree } = Box::into_inner(lifted_exp(alloc, pointer)?);
    let guard = Mon::Guard(Exp::Tagged(copy_of(alloc, ty)?, right));
    Ok(Front {
        program: Program::Bind(boxed(alloc, guard)?, Vec::new(alloc)),
        rule: Rule::Pointer,
        trees: alone(alloc, tree)?,
        is_plain: false,
    })
}
