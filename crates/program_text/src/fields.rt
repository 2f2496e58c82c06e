//! The parts of lists that are programs.
ghost use Rattle.std.specs.Prelude.{◌≡◌, ◌+◌, ◌≤◌, [], IfSome, option_map, map};
ghost use Rattle.ac_sx.specs.Tree.{nodes, all_nodes};
ghost use Rattle.ac_sx.specs.CodeSx.{tree_of, trees_in, two_of};
ghost use Rattle.expression_lang.specs.CodeExpression.{exp_of};
ghost use Rattle.expression_text.specs.CodeFault.{Gives};
ghost use Rattle.expression_text.specs.ExpReading as exps;
ghost use Rattle.expression_text.specs.Lists.{named_at};
ghost use Rattle.monad_lang.specs.Program as plain;
ghost use Rattle.monad_lang.specs.CodeProgram.{start_of};
ghost use Rattle.program_text.specs.MonReading as rows;
ghost use Rattle.program_text.specs.MonReading.{four_of, start_at, starts_at};

use ac_sx::{Sx, first, three, two};
use expression_lang::Exp;
use expression_text::{TextFault, exp_at, new_name_at, next};
use monad_lang::Start;
use std::alloc::Global;

/// The four of four.
pub fn four(parts: &[Sx]) -> Option<(&Sx, &Sx, &Sx, &Sx)>
    ensures parts { option_map
        (λ x. (tree_of x.0.now, tree_of x.1.now, tree_of x.2.now, tree_of x.3.now)) result
        ≡ four_of (trees_in parts.now) }
    ensures smaller { IfSome result (λ x. nodes (tree_of x.0.now) + nodes (tree_of x.1.now)
        + nodes (tree_of x.2.now) + nodes (tree_of x.3.now) ≤ all_nodes (trees_in parts.now)) }
{
    let (part, others) = first(parts)?;
    let (second, third, fourth) = three(others)?;
    Some((part, second, third, fourth))
}

/// The expression that a tree is, on the heap: what is read inside one another is to take little of the stack.
#[inline(never)]
pub fn boxed_exp_at(alloc: Global, tree: &Sx, at: u32) -> Result<(Box<Exp>, u32), TextFault>
    ensures { Gives (λ e. exp_of e.value) result (exps.exp_at at (tree_of tree.now)) }
{
    let (exp, at) = exp_at(alloc, tree, at)?;
    Ok((Box::new(alloc, exp)?, at))
}

/// The names with their start expressions that a list is, no two names the same.
pub(crate) fn starts_at(alloc: Global, tree: &Sx, at: u32) -> Result<(Vec<Start>, u32), TextFault>
    ensures { Gives (λ starts. map start_of starts.items) result
        (starts_at at (tree_of tree.now)) }
{
    match tree.parts() {
        Some(parts) => new_starts_at(alloc, parts, next(at)),
        None => Err(TextFault::Shape(at)),
    }
}

fn new_starts_at(alloc: Global, parts: &[Sx], at: u32) -> Result<(Vec<Start>, u32), TextFault>
    ensures { Gives (λ starts. map start_of starts.items) result
        (named_at (λ (x : plain.Start). x.name) start_at [] at (trees_in parts.now)) }
{
    let mut starts = Vec::new(alloc);
    let mut at = at;
    'parts: for part in parts {
        let (start, behind) = start_at(alloc, &starts, part, at)?;
        starts.push(start)?;
        at = behind;
    }
    Ok((starts, at))
}

// A name that none of those before it has, with an expression.
fn start_at(alloc: Global, before: &[Start], tree: &Sx, at: u32) -> Result<(Start, u32), TextFault>
    ensures { Gives start_of result
        (start_at (map (λ s. (start_of s).name) before.now) at (tree_of tree.now)) }
{
    match tree.parts() {
        Some(parts) => start_row(alloc, at, before, parts),
        None => Err(TextFault::Shape(at)),
    }
}

fn start_row(
    alloc: Global,
    at: u32,
    before: &[Start],
    parts: &[Sx],
) -> Result<(Start, u32), TextFault>
    ensures { Gives start_of result
        (rows.start_row at (map (λ s. (start_of s).name) before.now)
        (two_of (trees_in parts.now))) }
{
    let Some((name, exp)) = two(parts) else {
        return Err(TextFault::Shape(at));
    };
    let (name, at) = new_name_at(alloc, before, name, next(at))?;
    let (exp, at) = exp_at(alloc, exp, at)?;
    Ok((Start { name, exp }, at))
}
