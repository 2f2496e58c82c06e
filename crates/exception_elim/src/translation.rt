//! Exceptions taken out of a command.

ghost use Rattle.std.specs.Prelude.{◌≡◌, ℕ, suc, true, List, map, Some, IfOk};
ghost use Rattle.expression_lang.specs.CodeExpression.{exp_of};
ghost use Rattle.expression_lang.specs.Signature.{Signature};
ghost use Rattle.expression_lang.specs.Sort.{Scope, TruthSort};
ghost use Rattle.simpl_lang.specs.CodeCommand.{condition_of, simpl_of};
ghost use Rattle.simpl_lang.specs.Flag.{thrown_local};
ghost use Rattle.simpl_lang.specs.Form.{is_flat};
ghost use Rattle.simpl_lang.specs.Sorted.{is_sorted};
ghost use Rattle.simpl_lang.specs.declared.command.Simpl.{size-Simpl};
ghost use Rattle.simpl_lang.specs.Command.{Seq, Throw, Catch, Simpl as Command};
ghost use Rattle.rule_exn.specs.Rule.{CatchPlain, CatchSkip};
ghost use Rattle.rule_exn.specs.Table as table;
ghost use Rattle.rule_exn.specs.Table.{Takes};
ghost use Rattle.rule_exn.specs.Eliminated as spec;
ghost use Rattle.rule_exn.specs.CodeRule.{rule_of, tree_of};
ghost use Rattle.exception_elim.specs.CodeDone.{Done, done, done_of, guarded, looped, Stays};
ghost use Rattle.exception_elim.specs.CodeFront.{LastIsSmaller, peeled_in, with_front, with_fronts};

use crate::eliminated::{Eliminated, leaf, over_one};
use crate::flags::{cleared, raised};
use crate::fronts::{Front, with_front};
use expression_lang::Exp;
use rule_exn::Rule;
use rule_trees::Tree;
use simpl_lang::{Condition, Simpl, boxed, copy_of_condition, copy_of_conditions};
use std::alloc::{AllocError, Global};

/// A command that does the same with a flag, `$thrown`, in place of exceptions, and the tree of
/// rules that shows it. Of the rules for a sequence, a loop and a catch the plain one is taken
/// where the first part or the body is quiet, else, for a catch whose handler is a skip, the one
/// for that, else the one with a test. There is no answer only where memory is wanting.
#[tactic(auto, using(crate::proofs::Translated::right, crate::proofs::Translated::tree, crate::proofs::Translated::taken, crate::proofs::Translated::flat, crate::proofs::Translated::sorted))]
pub fn translate(alloc: Global, left: &Simpl) -> Result<(Box<Simpl>, Tree<Rule>), AllocError>
    ensures right { IfOk result (λ (right, tree).
        simpl_of right.value ≡ (spec.exceptions_eliminated (simpl_of left.now)).right) }
    ensures tree { IfOk result (λ (right, tree).
        tree_of tree ≡ (spec.exceptions_eliminated (simpl_of left.now)).tree) }
    ensures taken { IfOk result (λ (right, tree).
        Takes (tree_of tree) (simpl_of left.now) (simpl_of right.value)) }
    ensures flat { IfOk result (λ (right, tree). is_flat (simpl_of right.value) ≡ true) }
    ensures sorted { IfOk result (λ (right, tree). (g : Scope) (signatures : List Signature) →
        g.names thrown_local ≡ Some TruthSort →
        is_sorted g signatures (simpl_of left.now) ≡ true →
        is_sorted g signatures (simpl_of right.value) ≡ true) }
{
    let Eliminated { right, tree, .. } = Box::into_inner(eliminated(alloc, left)?);
    Ok((right, tree))
}

// It goes along the last parts by a loop, since a text may have long sequences. What a nested
// command is taken to comes boxed, so that each level takes little of the stack.
#[cycle(eliminated)]
#[tactic(auto, using(crate::proofs::WithFronts::with_fronts_push))]
fn eliminated(alloc: Global, c: &Simpl) -> Result<Box<Eliminated>, AllocError>
    ensures { IfOk result (λ e. done_of e.value ≡ done (simpl_of c.now)) }
{
    let mut fronts = Vec::new(alloc);
    let mut rest = c;
    'along: loop {
        match peeled(alloc, rest)? {
            Peel::Ended(last) => return closed(alloc, fronts, last),
            Peel::Last(front, last) => {
                fronts.push(front)?;
                rest = last;
            }
        }
    }
}

// A command with all but its last part taken to what stands for it.
#[derive(Drop)]
enum Peel<'a> {
    Ended(Box<Eliminated>),
    Last(Front, &'a Simpl),
}

#[cycle(eliminated)]
fn peeled(alloc: Global, c: &Simpl) -> Result<Peel<'_>, AllocError>
    ensures same { IfOk result (λ peel. peeled_in peel ≡ done (simpl_of c.now)) }
    ensures smaller { IfOk result (λ peel. LastIsSmaller peel (size-Simpl c.now)) }
{
    match c {
        Simpl::Skip => step(alloc, Rule::Skip, c),
        Simpl::Set(_, _) | Simpl::SetGlobal(_, _, _) | Simpl::Store(_, _, _, _) => {
            step(alloc, Rule::Set, c)
        }
        Simpl::Pick(_) => step(alloc, Rule::Pick, c),
        Simpl::Call(_, _, _) => step(alloc, Rule::Call, c),
        Simpl::Throw => thrown(alloc),
        Simpl::Seq(first, last) => Ok(Peel::Last(Front::Seq(eliminated(alloc, first)?), &**last)),
        Simpl::Cond(test, first, last) => {
            let test = test.boxed_copy(alloc)?;
            Ok(Peel::Last(Front::Cond(test, eliminated(alloc, first)?), &**last))
        }
        Simpl::Guard(condition, last) => Ok(Peel::Last(guard(alloc, condition)?, &**last)),
        Simpl::Catch(body, handler) => caught(alloc, eliminated(alloc, body)?, &**handler),
        Simpl::While(conditions, test, last) => {
            Ok(Peel::Last(turn(alloc, conditions, test)?, &**last))
        }
    }
}

fn guard(alloc: Global, condition: &Condition) -> Result<Front, AllocError>
    ensures { IfOk result (λ front. (d : Done) →
        with_front front d ≡ guarded (condition_of condition.now) d) }
{
    let condition = copy_of_condition(alloc, condition)?;
    Ok(Front::Guard(Box::new(alloc, condition)?))
}

fn turn(alloc: Global, conditions: &[Condition], test: &Exp) -> Result<Front, AllocError>
    ensures { IfOk result (λ front. (d : Done) →
        with_front front d ≡ looped (map condition_of conditions.now) (exp_of test.now) d) }
{
    let conditions = copy_of_conditions(alloc, conditions)?;
    let test = test.boxed_copy(alloc)?;
    Ok(Front::While(conditions, test))
}

// What stays as it is.
fn step<'a>(alloc: Global, rule: Rule, c: &Simpl) -> Result<Peel<'a>, AllocError>
    requires { Stays (rule_of rule) (simpl_of c.now) }
    ensures same { IfOk result (λ peel. peeled_in peel ≡ done (simpl_of c.now)) }
    ensures smaller { IfOk result (λ peel. (n : ℕ) → LastIsSmaller peel n) }
{
    ended(
        alloc,
        Eliminated {
            right: c.copy(alloc)?,
            tree: leaf(alloc, rule),
            is_quiet: true,
        },
    )
}

fn ended<'a>(alloc: Global, e: Eliminated) -> Result<Peel<'a>, AllocError>
    ensures same { IfOk result (λ peel. peeled_in peel ≡ done_of e) }
    ensures smaller { IfOk result (λ peel. (n : ℕ) → LastIsSmaller peel n) }
{
    Ok(Peel::Ended(Box::new(alloc, e)?))
}

fn thrown<'a>(alloc: Global) -> Result<Peel<'a>, AllocError>
    ensures same { IfOk result (λ peel. peeled_in peel ≡ done Throw) }
    ensures smaller { IfOk result (λ peel. (n : ℕ) → LastIsSmaller peel n) }
{
    ended(
        alloc,
        Eliminated {
            right: raised(alloc)?,
            tree: leaf(alloc, Rule::Throw),
            is_quiet: false,
        },
    )
}

// A catch whose body is taken to this.
fn caught<'a>(
    alloc: Global,
    body: Box<Eliminated>,
    handler: &'a Simpl,
) -> Result<Peel<'a>, AllocError>
    ensures same { IfOk result (λ peel. (a : Command) → done_of body.value ≡ done a →
        peeled_in peel ≡ done (Catch a (simpl_of handler.now))) }
    ensures smaller { IfOk result (λ peel. LastIsSmaller peel (suc (size-Simpl handler.now))) }
{
    if body.is_quiet {
        return plain_catch(alloc, body);
    }
    if matches!(handler, Simpl::Skip) {
        return skipped_catch(alloc, body);
    }
    Ok(Peel::Last(Front::Catch(body), handler))
}

fn plain_catch<'a>(alloc: Global, body: Box<Eliminated>) -> Result<Peel<'a>, AllocError>
    requires { body.value.is_quiet ≡ true }
    ensures same { IfOk result (λ peel. peeled_in peel
        ≡ record {
          made = spec.over_one CatchPlain (done_of body.value).made.right (done_of body.value).made;
          quiet = true;
        }) }
    ensures smaller { IfOk result (λ peel. (n : ℕ) → LastIsSmaller peel n) }
{
    let Eliminated { right, tree, .. } = Box::into_inner(body);
    let tree = over_one(alloc, Rule::CatchPlain, tree)?;
    ended(
        alloc,
        Eliminated {
            right,
            tree,
            is_quiet: true,
        },
    )
}

fn skipped_catch<'a>(alloc: Global, body: Box<Eliminated>) -> Result<Peel<'a>, AllocError>
    ensures same { IfOk result (λ peel. peeled_in peel
        ≡ record {
          made = spec.over_one CatchSkip (Seq (done_of body.value).made.right table.cleared)
              (done_of body.value).made;
          quiet = true;
        }) }
    ensures smaller { IfOk result (λ peel. (n : ℕ) → LastIsSmaller peel n) }
{
    let Eliminated { right, tree, .. } = Box::into_inner(body);
    let tree = over_one(alloc, Rule::CatchSkip, tree)?;
    let cleared = cleared(alloc)?;
    let right = boxed(alloc, Simpl::Seq(right, cleared))?;
    ended(
        alloc,
        Eliminated {
            right,
            tree,
            is_quiet: true,
        },
    )
}

// What the whole is taken to, where its last part is taken to this; the first front is outermost.
#[tactic(auto, using(crate::proofs::WithFronts::with_fronts_push))]
fn closed(
    alloc: Global,
    mut fronts: Vec<Front>,
    last: Box<Eliminated>,
) -> Result<Box<Eliminated>, AllocError>
    ensures { IfOk result (λ e. done_of e.value ≡ with_fronts fronts.items (done_of last.value)) }
{
    let mut whole = last;
    'back: while let Some(front) = fronts.pop() {
        whole = Box::new(alloc, with_front(alloc, front, Box::into_inner(whole))?)?;
    }
    Ok(whole)
}
