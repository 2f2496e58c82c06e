//! Programs on bytes lifted to typed heaps.

ghost use Rattle.std.specs.Prelude.{◌≡◌, true, List, IfOk};
ghost use Rattle.c_values.specs.Layout.{Layout};
ghost use Rattle.ac_expr.specs.Fact.{Fact};
ghost use Rattle.monad_lang.specs.declared.program.Mon.{size-Mon};
ghost use Rattle.monad_lang.specs.CodeProgram.{mon_of};
ghost use Rattle.monad_lang.specs.Form.{is_heaps};
ghost use Rattle.monad_lang.specs.Sorted.{Setting, scalars_given};
ghost use Rattle.rule_heap.specs.Table.{Takes};
ghost use Rattle.rule_heap.specs.HeapLifted.{on_heaps, heap_tree, IsHeapReady};
ghost use Rattle.rule_heap.specs.CodeRule.{tree_of};
ghost use Rattle.heap_lift.specs.Lifted.{lifted};
ghost use Rattle.heap_lift.specs.CodeLifted.{lifted_in, peeled_in, with_fronts, LastIsSmaller};

use crate::fronts::{Front, bound, looped, pointed, tested, with_front};
use crate::pairs::pair_of;
use crate::programs::{Lifted, step};
use monad_lang::Mon;
use rule_heap::Rule;
use rule_trees::Tree;
use std::alloc::{AllocError, Global};

/// A program that does the same on typed heaps, and the tree of rules that shows it: each load
/// becomes a read, each store a write, and of a test that a pointer may point, directly before that
/// of its tag, the tag's stays. The rules take the program to it under every facts under which it
/// is ready. There is no answer only where memory is wanting.
#[tactic(auto, using(crate::proofs::Translated::taken, crate::proofs::Translated::form, crate::proofs::Translated::sorts))]
pub fn translate(alloc: Global, left: &Mon) -> Result<(Box<Mon>, Tree<Rule>), AllocError>
    ensures right { IfOk result (λ (right, tree).
        mon_of right.value ≡ on_heaps (mon_of left.now)) }
    ensures tree { IfOk result (λ (right, tree). tree_of tree ≡ heap_tree (mon_of left.now)) }
    ensures taken { IfOk result (λ (right, tree). (l : Layout) (facts : List Fact) →
        IsHeapReady l facts (mon_of left.now) →
        Takes l facts (tree_of tree) (mon_of left.now) (mon_of right.value)) }
    ensures form { IfOk result (λ (right, tree). is_heaps (mon_of right.value) ≡ true) }
    ensures sorts { IfOk result (λ (right, tree). (t : Setting) →
        scalars_given t (mon_of right.value) ≡ scalars_given t (mon_of left.now)) }
{
    let Lifted { right, tree, .. } = Box::into_inner(lifted(alloc, left)?);
    Ok((right, tree))
}

// It goes along the last programs by a loop, since a text may have long sequences. What a nested
// program is lifted to comes boxed, so that each level takes little of the stack.
#[cycle(lifted)]
#[tactic(auto, using(crate::proofs::ProgramLaws::with_fronts_push))]
fn lifted(alloc: Global, m: &Mon) -> Result<Box<Lifted>, AllocError>
    ensures { IfOk result (λ l. lifted_in l.value ≡ lifted (mon_of m.now)) }
{
    let mut fronts = Vec::new(alloc);
    let mut rest = m;
    'along: loop {
        match peeled(alloc, rest)? {
            Peel::Ended(last) => return closed(alloc, fronts, last),
            Peel::Last(front, last) => {
                fronts.push(front)?;
                rest = last;
            }
        }
    }
}

// A program with all but its last program lifted.
#[derive(Drop)]
enum Peel<'a> {
    Ended(Box<Lifted>),
    Last(Front, &'a Mon),
}

#[cycle(lifted)]
#[tactic(auto, using(crate::proofs::ProgramLaws::lifted_bind, crate::proofs::ProgramLaws::lifted_pair, crate::proofs::ProgramLaws::lifted_if, crate::proofs::ProgramLaws::lifted_loop))]
fn peeled(alloc: Global, m: &Mon) -> Result<Peel<'_>, AllocError>
    ensures same { IfOk result (λ peel. peeled_in peel ≡ lifted (mon_of m.now)) }
    ensures smaller { IfOk result (λ peel. LastIsSmaller peel (size-Mon m.now)) }
{
    match m {
        Mon::Ret(_) | Mon::Guard(_) | Mon::Write(_, _) | Mon::Call(_, _) | Mon::Pick(_) => {
            Ok(Peel::Ended(step(alloc, m)?))
        }
        Mon::Bind(first, names, last) => match pair_of(first, names, last) {
            Some(pair) => {
                let front = pointed(alloc, pair.ty, pair.pointer)?;
                Ok(Peel::Last(front, pair.rest))
            }
            None => {
                let first = lifted(alloc, first)?;
                Ok(Peel::Last(bound(alloc, first, names)?, &**last))
            }
        },
        Mon::If(test, first, last) => {
            let first = lifted(alloc, first)?;
            Ok(Peel::Last(tested(alloc, test, first)?, &**last))
        }
        Mon::Loop(starts, guard, test, last) => {
            Ok(Peel::Last(looped(alloc, starts, guard, test)?, &**last))
        }
    }
}

// What the whole is lifted to, where its last program is lifted to this; the first front is
// outermost.
#[tactic(auto, using(crate::proofs::ProgramLaws::with_fronts_push))]
fn closed(
    alloc: Global,
    mut fronts: Vec<Front>,
    last: Box<Lifted>,
) -> Result<Box<Lifted>, AllocError>
    ensures { IfOk result (λ l. lifted_in l.value
        ≡ with_fronts fronts.items (lifted_in last.value)) }
{
    let mut whole = last;
    'back: while let Some(front) = fronts.pop() {
        whole = with_front(alloc, front, Box::into_inner(whole))?;
    }
    Ok(whole)
}
