//! Trees read as programs.
ghost use Rattle.std.specs.Prelude.{◌≡◌, ◌+◌, ◌<◌, ◌≤◌, length, IfOk, IfSome, option_map};
ghost use Rattle.ac_sx.specs.Tree.{nodes, all_nodes};
ghost use Rattle.ac_sx.specs.CodeSx.{tree_of, trees_in, three_of};
ghost use Rattle.expression_text.specs.CodeFault.{Gives};
ghost use Rattle.monad_lang.specs.CodeProgram.{mon_of};
ghost use Rattle.monad_lang.specs.CodeFront.{with_fronts};
ghost use Rattle.program_text.specs.MonReading.{four_of, is_odd, is_sequence, begins_do, mon_at, sequence_at};
ghost use Rattle.program_text.specs.CodeMonRows as rows;
ghost use Rattle.program_text.specs.CodeMonRows.{bind_of};

use crate::fields::{boxed_exp_at, four, starts_at};
use crate::heads::{MonHead, mon_head};
use crate::steps::{
    Read, call_row, gset_row, guard_row, pick_row, read_whole, ret_row, store_row, write_row,
};
use ac_sx::{Sx, headed, one, three};
use expression_text::{TextFault, names_at, next};
use monad_lang::{Front, Mon, boxed, whole};
use std::alloc::{AllocError, Global};

/// The program that a tree is.
#[cycle(mons)]
pub fn mon_at(alloc: Global, tree: &Sx, at: u32) -> Read
    ensures { Gives (λ m. mon_of m.value) result (mon_at at (tree_of tree.now)) }
{
    let Some((word, parts)) = headed(tree) else {
        return Err(TextFault::Shape(at));
    };
    match mon_head(word) {
        Some(head) => row_at(alloc, at, next(next(at)), head, parts),
        None => Err(TextFault::Shape(at)),
    }
}

// The program of a list at a number, whose parts begin at the inner one. Each row is a function of its own, since programs
// nest deeply: only the row in use takes room on the stack.
#[cycle(mons)]
fn row_at(alloc: Global, at: u32, inner: u32, head: MonHead, parts: &[Sx]) -> Read
    ensures { Gives (λ m. mon_of m.value) result (rows.row_at at inner head (trees_in parts.now)) }
{
    match head {
        MonHead::Ret => ret_row(alloc, inner, parts),
        MonHead::Do => do_row(alloc, at, inner, parts),
        MonHead::Guard => guard_row(alloc, at, inner, parts),
        MonHead::If => if_row(alloc, at, inner, parts),
        MonHead::Store => store_row(alloc, at, inner, parts),
        MonHead::Write => write_row(alloc, at, inner, parts),
        MonHead::Gset => gset_row(alloc, at, inner, parts),
        MonHead::Loop => loop_row(alloc, at, inner, parts),
        MonHead::Call => call_row(alloc, at, inner, parts),
        MonHead::Pick => pick_row(alloc, at, inner, parts),
    }
}

#[cycle(mons)]
#[inline(never)]
fn if_row(alloc: Global, at: u32, inner: u32, parts: &[Sx]) -> Read
    ensures { Gives (λ m. mon_of m.value) result
        (rows.if_row at inner (three_of (trees_in parts.now))) }
{
    let Some((test, first, last)) = three(parts) else {
        return Err(TextFault::Shape(at));
    };
    let (test, at) = boxed_exp_at(alloc, test, inner)?;
    let (first, at) = mon_at(alloc, first, at)?;
    let (last, at) = mon_at(alloc, last, at)?;
    read_whole(alloc, Front::If(test, first), last, at)
}

#[cycle(mons)]
#[inline(never)]
fn loop_row(alloc: Global, at: u32, inner: u32, parts: &[Sx]) -> Read
    ensures { Gives (λ m. mon_of m.value) result
        (rows.loop_row at inner (four_of (trees_in parts.now))) }
{
    let Some((starts, guard, test, body)) = four(parts) else {
        return Err(TextFault::Shape(at));
    };
    let (starts, at) = starts_at(alloc, starts, inner)?;
    let (guard, at) = boxed_exp_at(alloc, guard, at)?;
    let (test, at) = boxed_exp_at(alloc, test, at)?;
    let (body, at) = mon_at(alloc, body, at)?;
    read_whole(alloc, Front::Loop(starts, guard, test), body, at)
}

#[cycle(mons)]
#[inline(never)]
fn do_row(alloc: Global, at: u32, inner: u32, parts: &[Sx]) -> Read
    ensures { Gives (λ m. mon_of m.value) result (rows.do_row at inner (trees_in parts.now)) }
{
    if is_sequence(parts) {
        sequence_at(alloc, parts, inner)
    } else {
        Err(TextFault::Shape(at))
    }
}

// Whether there are names and a program in turn, at least once, and then a last program.
fn is_sequence(parts: &[Sx]) -> bool
    ensures { result ≡ is_sequence (trees_in parts.now) }
{
    match bind_of(parts) {
        Some((_, _, others)) => is_odd(others),
        None => false,
    }
}

fn is_odd(parts: &[Sx]) -> bool
    ensures { result ≡ is_odd (trees_in parts.now) }
{
    let mut rest = parts;
    'pairs: while let Some((_, _, others)) = bind_of(rest) {
        rest = others;
    }
    !rest.is_empty()
}

// Names, a program and the others, where there are two parts at least.
fn bind_of(parts: &[Sx]) -> Option<(&Sx, &Sx, &[Sx])>
    ensures parts { option_map (λ x. (tree_of x.0.now, tree_of x.1.now, trees_in x.2.now)) result
        ≡ bind_of (trees_in parts.now) }
    ensures smaller { IfSome result (λ x. nodes (tree_of x.0.now) + nodes (tree_of x.1.now)
        + all_nodes (trees_in x.2.now) ≤ all_nodes (trees_in parts.now)) }
    ensures shorter { IfSome result (λ x. length x.2.now < length parts.now) }
{
    let (names, others) = parts.split_first()?;
    let (program, others) = others.split_first()?;
    Some((names, program, others))
}

// The programs in sequence that these are. A text may have long sequences, so this takes no stack for each of its programs.
#[cycle(mons)]
#[inline(never)]
fn sequence_at(alloc: Global, parts: &[Sx], at: u32) -> Read
    ensures { Gives (λ m. mon_of m.value) result (sequence_at at (trees_in parts.now)) }
{
    let mut fronts = Vec::new(alloc);
    let mut at = at;
    let mut rest = parts;
    'binds: while let Some((names, first, others)) = bind_of(rest) {
        let (names, behind) = names_at(alloc, names, at)?;
        let (first, behind) = mon_at(alloc, first, behind)?;
        fronts.push(Front::Bind(first, names))?;
        at = behind;
        rest = others;
    }
    let Some(last) = one(rest) else {
        return Err(TextFault::Shape(at));
    };
    if begins_do(last) {
        return Err(TextFault::Shape(at));
    }
    let (last, at) = mon_at(alloc, last, at)?;
    Ok((with_all(alloc, fronts, last)?, at))
}

fn begins_do(tree: &Sx) -> bool
    ensures { result ≡ begins_do (tree_of tree.now) }
{
    match headed(tree) {
        Some((word, _)) => word == MonHead::Do.word(),
        None => false,
    }
}

// A program with fronts before it, the first one first.
#[tactic(auto, using(monad_lang::proofs::WithFronts::with_fronts_push))]
fn with_all(alloc: Global, mut fronts: Vec<Front>, last: Box<Mon>) -> Result<Box<Mon>, AllocError>
    ensures { IfOk result (λ m. mon_of m.value ≡ with_fronts fronts.items (mon_of last.value)) }
{
    let mut all = last;
    'back: while let Some(front) = fronts.pop() {
        all = boxed(alloc, whole(front, all))?;
    }
    Ok(all)
}
