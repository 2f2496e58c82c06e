//! Trees read as commands.
ghost use Rattle.std.specs.Prelude.{◌≡◌, ◌+◌, ◌<◌, ◌≤◌, length, IfOk, IfSome, option_map};
ghost use Rattle.ac_sx.specs.Tree.{nodes, all_nodes};
ghost use Rattle.ac_sx.specs.CodeSx.{tree_of, trees_in, two_of, three_of};
ghost use Rattle.expression_text.specs.CodeFault.{Gives};
ghost use Rattle.simpl_lang.specs.CodeCommand.{simpl_of};
ghost use Rattle.simpl_lang.specs.CodeFront.{with_fronts};
ghost use Rattle.command_text.specs.CommandReading.{begins_seq, command_at, sequence_at};
ghost use Rattle.command_text.specs.CodeCommandRows as rows;
ghost use Rattle.command_text.specs.CodeCommandRows.{front_of};

use crate::conditions::{boxed_guarded_at, conditions_at};
use crate::heads::{CommandHead, command_head};
use crate::steps::{
    Read, call_row, gset_row, guard_of, leaf_at, pick_row, read_whole, set_row, store_row,
};
use ac_sx::{Sx, headed, one, three, two};
use expression_text::{TextFault, next};
use program_text::boxed_exp_at;
use simpl_lang::{Front, Simpl, boxed, whole};
use std::alloc::{AllocError, Global};

/// The command that a tree is.
#[cycle(commands)]
pub fn command_at(alloc: Global, tree: &Sx, at: u32) -> Read
    ensures { Gives (λ c. simpl_of c.value) result (command_at at (tree_of tree.now)) }
{
    if let Some(word) = tree.word() {
        return leaf_at(alloc, word, at);
    }
    let Some((word, parts)) = headed(tree) else {
        return Err(TextFault::Shape(at));
    };
    match command_head(word) {
        Some(head) => row_at(alloc, at, next(next(at)), head, parts),
        None => Err(TextFault::Shape(at)),
    }
}

// The command of a list at a number, whose parts begin at the inner one. Each row is a function of its own, since commands
// nest deeply: only the row in use takes room on the stack.
#[cycle(commands)]
fn row_at(alloc: Global, at: u32, inner: u32, head: CommandHead, parts: &[Sx]) -> Read
    ensures { Gives (λ c. simpl_of c.value) result
        (rows.row_at at inner head (trees_in parts.now)) }
{
    match head {
        CommandHead::Set => set_row(alloc, at, inner, parts),
        CommandHead::Gset => gset_row(alloc, at, inner, parts),
        CommandHead::Store => store_row(alloc, at, inner, parts),
        CommandHead::Pick => pick_row(alloc, at, inner, parts),
        CommandHead::Seq => seq_row(alloc, at, inner, parts),
        CommandHead::Cond => cond_row(alloc, at, inner, parts),
        CommandHead::Guard => guard_row(alloc, at, inner, parts),
        CommandHead::Catch => catch_row(alloc, at, inner, parts),
        CommandHead::While => while_row(alloc, at, inner, parts),
        CommandHead::Call => call_row(alloc, at, inner, parts),
    }
}

#[cycle(commands)]
#[inline(never)]
fn cond_row(alloc: Global, at: u32, inner: u32, parts: &[Sx]) -> Read
    ensures { Gives (λ c. simpl_of c.value) result
        (rows.cond_row at inner (three_of (trees_in parts.now))) }
{
    let Some((test, first, last)) = three(parts) else {
        return Err(TextFault::Shape(at));
    };
    let (test, at) = boxed_exp_at(alloc, test, inner)?;
    let (first, at) = command_at(alloc, first, at)?;
    let (last, at) = command_at(alloc, last, at)?;
    read_whole(alloc, Front::Cond(test, first), last, at)
}

#[cycle(commands)]
#[inline(never)]
fn guard_row(alloc: Global, at: u32, inner: u32, parts: &[Sx]) -> Read
    ensures { Gives (λ c. simpl_of c.value) result
        (rows.guard_row at inner (three_of (trees_in parts.now))) }
{
    let Some((kind, exp, last)) = three(parts) else {
        return Err(TextFault::Shape(at));
    };
    let (condition, at) = boxed_guarded_at(alloc, kind, exp, inner)?;
    let (last, at) = command_at(alloc, last, at)?;
    guard_of(alloc, condition, last, at)
}

#[cycle(commands)]
#[inline(never)]
fn catch_row(alloc: Global, at: u32, inner: u32, parts: &[Sx]) -> Read
    ensures { Gives (λ c. simpl_of c.value) result
        (rows.catch_row at inner (two_of (trees_in parts.now))) }
{
    let Some((first, last)) = two(parts) else {
        return Err(TextFault::Shape(at));
    };
    let (first, at) = command_at(alloc, first, inner)?;
    let (last, at) = command_at(alloc, last, at)?;
    read_whole(alloc, Front::Catch(first), last, at)
}

#[cycle(commands)]
#[inline(never)]
fn while_row(alloc: Global, at: u32, inner: u32, parts: &[Sx]) -> Read
    ensures { Gives (λ c. simpl_of c.value) result
        (rows.while_row at inner (three_of (trees_in parts.now))) }
{
    let Some((conditions, test, body)) = three(parts) else {
        return Err(TextFault::Shape(at));
    };
    let (conditions, at) = conditions_at(alloc, conditions, inner)?;
    let (test, at) = boxed_exp_at(alloc, test, at)?;
    let (body, at) = command_at(alloc, body, at)?;
    read_whole(alloc, Front::While(conditions, test), body, at)
}

#[cycle(commands)]
#[inline(never)]
fn seq_row(alloc: Global, at: u32, inner: u32, parts: &[Sx]) -> Read
    ensures { Gives (λ c. simpl_of c.value) result (rows.seq_row at inner (trees_in parts.now)) }
{
    if front_of(parts).is_none() {
        return Err(TextFault::Shape(at));
    }
    sequence_at(alloc, parts, inner)
}

// The first command and the others, where there are two at least.
fn front_of(parts: &[Sx]) -> Option<(&Sx, &[Sx])>
    ensures parts { option_map (λ x. (tree_of x.0.now, trees_in x.1.now)) result
        ≡ front_of (trees_in parts.now) }
    ensures smaller { IfSome result (λ x. nodes (tree_of x.0.now) + all_nodes (trees_in x.1.now)
        ≤ all_nodes (trees_in parts.now)) }
    ensures shorter { IfSome result (λ x. length x.1.now < length parts.now) }
{
    let (first, others) = parts.split_first()?;
    let (_second, _behind) = others.split_first()?;
    Some((first, others))
}

// The commands in sequence that these are. A text may have long sequences, so this takes no stack for each of its commands.
#[cycle(commands)]
#[inline(never)]
fn sequence_at(alloc: Global, parts: &[Sx], at: u32) -> Read
    ensures { Gives (λ c. simpl_of c.value) result (sequence_at at (trees_in parts.now)) }
{
    let mut fronts = Vec::new(alloc);
    let mut at = at;
    let mut rest = parts;
    'fronts: while let Some((first, others)) = front_of(rest) {
        let (first, behind) = command_at(alloc, first, at)?;
        fronts.push(Front::Seq(first))?;
        at = behind;
        rest = others;
    }
    let Some(last) = one(rest) else {
        return Err(TextFault::Shape(at));
    };
    if begins_seq(last) {
        return Err(TextFault::Shape(at));
    }
    let (last, at) = command_at(alloc, last, at)?;
    Ok((with_all(alloc, fronts, last)?, at))
}

fn begins_seq(tree: &Sx) -> bool
    ensures { result ≡ begins_seq (tree_of tree.now) }
{
    match headed(tree) {
        Some((word, _)) => word == CommandHead::Seq.word(),
        None => false,
    }
}

// A command with fronts before it, the first one first.
#[tactic(auto, using(simpl_lang::proofs::WithFronts::with_fronts_push))]
fn with_all(
    alloc: Global,
    mut fronts: Vec<Front>,
    last: Box<Simpl>,
) -> Result<Box<Simpl>, AllocError>
    ensures { IfOk result (λ c.
        simpl_of c.value ≡ with_fronts fronts.items (simpl_of last.value)) }
{
    let mut all = last;
    'back: while let Some(front) = fronts.pop() {
        all = boxed(alloc, whole(front, all))?;
    }
    Ok(all)
}
