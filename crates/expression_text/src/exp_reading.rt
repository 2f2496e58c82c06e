//! Trees read as expressions.
ghost use Rattle.std.specs.Prelude.{◌≡◌, ◌+◌, ◌≤◌, Some, IfSome, option_map};
ghost use Rattle.ac_sx.specs.Tree.{nodes, all_nodes};
ghost use Rattle.ac_sx.specs.CodeSx.{tree_of, trees_in, one_of, two_of, three_of, first_of};
ghost use Rattle.expression_lang.specs.CodeExpression.{exp_of};
ghost use Rattle.expression_lang.specs.CodeShapeView.{one_in, two_in, root_in, place_in};
ghost use Rattle.expression_text.specs.ExpReading.{leaf_at, exp_at};
ghost use Rattle.expression_text.specs.ExpRows as rows;
ghost use Rattle.expression_text.specs.CodeRow.{row_in, sized_in};
ghost use Rattle.expression_text.specs.CodeFault.{Gives};

use crate::fault::TextFault;
use crate::heads::head_of;
use crate::names::{is_name, name_at};
use crate::numbering::next;
use crate::numbers::{bits_at, number, number_at, width_at};
use crate::path_reading::{path_at, step_at, steps_at, whole_path};
use crate::rows::{Row, Sized};
use crate::type_reading::type_at;
use ac_sx::{Sx, first, headed, one, three, two};
use c_values::Word;
use expression_lang::{
    Exp, One, Path, PlaceHead, RootTest, Two, whole_one, whole_place, whole_root, whole_two,
};
use std::alloc::Global;

type Read = Result<(Exp, u32), TextFault>;

/// The expression that a tree is.
#[cycle(exps)]
pub fn exp_at(alloc: Global, tree: &Sx, at: u32) -> Read
    ensures { Gives exp_of result (exp_at at (tree_of tree.now)) }
{
    if let Some(word) = tree.word() {
        return leaf_at(alloc, word, at);
    }
    let Some((word, parts)) = headed(tree) else {
        return Err(TextFault::Shape(at));
    };
    match head_of(word) {
        Some(head) => row_at(alloc, at, next(next(at)), head.row(), parts),
        None => Err(TextFault::Shape(at)),
    }
}

/// The same, on the heap.
#[cycle(exps)]
pub fn boxed_exp_at(alloc: Global, tree: &Sx, at: u32) -> Result<(Box<Exp>, u32), TextFault>
    ensures { Gives (λ e. exp_of e.value) result (exp_at at (tree_of tree.now)) }
{
    let (exp, at) = exp_at(alloc, tree, at)?;
    Ok((Box::new(alloc, exp)?, at))
}

// A truth value, a name or a number.
fn leaf_at(alloc: Global, word: &str, at: u32) -> Read
    ensures { Gives exp_of result (leaf_at at word.now) }
{
    if word == "#t" {
        return Ok((Exp::Truth(true), next(at)));
    }
    if word == "#f" {
        return Ok((Exp::Truth(false), next(at)));
    }
    if is_name(word) {
        return Ok((Exp::Var(String::from_str(alloc, word)?), next(at)));
    }
    match number(word) {
        Some(number) => Ok((Exp::Number(number), next(at))),
        None => Err(TextFault::Shape(at)),
    }
}

// The expression of a list at a number, whose parts begin at the inner one.
#[cycle(exps)]
fn row_at(alloc: Global, at: u32, inner: u32, row: Row, parts: &[Sx]) -> Read
    ensures { Gives exp_of result (rows.row_at at inner (row_in row) (trees_in parts.now)) }
{
    match row {
        Row::Word => word_row(at, inner, parts),
        Row::Unary(head) => unary_row(alloc, at, inner, head, parts),
        Row::Sized(head) => sized_row(alloc, at, inner, head, parts),
        Row::Two(head) => two_row(alloc, at, inner, head, parts),
        Row::Between => between_row(alloc, at, inner, parts),
        Row::If => if_row(alloc, at, inner, parts),
        Row::Padd => padd_row(alloc, at, inner, parts),
        Row::Root(head) => root_row(alloc, at, inner, head, parts),
        Row::Place(head) => place_row(alloc, at, inner, head, parts),
        Row::Global => global_row(alloc, at, inner, parts),
        Row::Sel => sel_row(alloc, at, inner, parts),
        Row::Upd => upd_row(alloc, at, inner, parts),
    }
}

fn word_row(at: u32, inner: u32, parts: &[Sx]) -> Read
    ensures { Gives exp_of result (rows.word_row at inner (two_of (trees_in parts.now))) }
{
    let Some((width, bits)) = two(parts) else {
        return Err(TextFault::Shape(at));
    };
    let (width, at) = width_at(width, inner)?;
    let (bits, at) = bits_at(width, bits, at)?;
    Ok((Exp::Word(Word::new(width, bits)), at))
}

#[cycle(exps)]
fn unary_row(alloc: Global, at: u32, inner: u32, head: One, parts: &[Sx]) -> Read
    ensures { Gives exp_of result
        (rows.unary_row at inner (one_in head) (one_of (trees_in parts.now))) }
{
    let Some(a) = one(parts) else {
        return Err(TextFault::Shape(at));
    };
    let (a, at) = boxed_exp_at(alloc, a, inner)?;
    Ok((whole_one(head, a), at))
}

#[cycle(exps)]
fn sized_row(alloc: Global, at: u32, inner: u32, head: Sized, parts: &[Sx]) -> Read
    ensures { Gives exp_of result
        (rows.sized_row at inner (sized_in head) (two_of (trees_in parts.now))) }
{
    let Some((width, a)) = two(parts) else {
        return Err(TextFault::Shape(at));
    };
    let (width, at) = width_at(width, inner)?;
    let (a, at) = boxed_exp_at(alloc, a, at)?;
    Ok((whole_one(head.one(width), a), at))
}

#[cycle(exps)]
fn two_row(alloc: Global, at: u32, inner: u32, head: Two, parts: &[Sx]) -> Read
    ensures { Gives exp_of result
        (rows.two_row at inner (two_in head) (two_of (trees_in parts.now))) }
{
    let Some((a, b)) = two(parts) else {
        return Err(TextFault::Shape(at));
    };
    let (a, at) = boxed_exp_at(alloc, a, inner)?;
    let (b, at) = boxed_exp_at(alloc, b, at)?;
    Ok((whole_two(head, a, b), at))
}

#[cycle(exps)]
fn between_row(alloc: Global, at: u32, inner: u32, parts: &[Sx]) -> Read
    ensures { Gives exp_of result (rows.between_row at inner (three_of (trees_in parts.now))) }
{
    let Some((low, a, high)) = three(parts) else {
        return Err(TextFault::Shape(at));
    };
    let (low, at) = number_at(low, inner)?;
    let (a, at) = boxed_exp_at(alloc, a, at)?;
    let (high, at) = number_at(high, at)?;
    Ok((Exp::Between(low, a, high), at))
}

#[cycle(exps)]
fn if_row(alloc: Global, at: u32, inner: u32, parts: &[Sx]) -> Read
    ensures { Gives exp_of result (rows.if_row at inner (three_of (trees_in parts.now))) }
{
    let Some((c, a, b)) = three(parts) else {
        return Err(TextFault::Shape(at));
    };
    let (c, at) = boxed_exp_at(alloc, c, inner)?;
    let (a, at) = boxed_exp_at(alloc, a, at)?;
    let (b, at) = boxed_exp_at(alloc, b, at)?;
    Ok((Exp::If(c, a, b), at))
}

#[cycle(exps)]
fn padd_row(alloc: Global, at: u32, inner: u32, parts: &[Sx]) -> Read
    ensures { Gives exp_of result (rows.padd_row at inner (three_of (trees_in parts.now))) }
{
    let Some((ty, p, n)) = three(parts) else {
        return Err(TextFault::Shape(at));
    };
    let (ty, at) = type_at(alloc, ty, inner)?;
    let (p, at) = boxed_exp_at(alloc, p, at)?;
    let (n, at) = boxed_exp_at(alloc, n, at)?;
    Ok((Exp::Padd(ty, p, n), at))
}

#[cycle(exps)]
fn root_row(alloc: Global, at: u32, inner: u32, head: RootTest, parts: &[Sx]) -> Read
    ensures { Gives exp_of result
        (rows.root_row at inner (root_in head) (two_of (trees_in parts.now))) }
{
    let Some((ty, p)) = two(parts) else {
        return Err(TextFault::Shape(at));
    };
    let (ty, at) = type_at(alloc, ty, inner)?;
    let (p, at) = boxed_exp_at(alloc, p, at)?;
    Ok((whole_root(head, ty, p), at))
}

/// The first two, and the others.
fn first_two(parts: &[Sx]) -> Option<(&Sx, &Sx, &[Sx])>
    ensures parts { option_map (λ x. (tree_of x.0.now, tree_of x.1.now, trees_in x.2.now)) result
        ≡ rows.with_second (first_of (trees_in parts.now)) }
    ensures smaller { IfSome result (λ x. nodes (tree_of x.0.now) + nodes (tree_of x.1.now)
        + all_nodes (trees_in x.2.now) ≤ all_nodes (trees_in parts.now)) }
{
    let (part, others) = first(parts)?;
    let (second, others) = first(others)?;
    Some((part, second, others))
}

#[cycle(exps)]
fn place_row(alloc: Global, at: u32, inner: u32, head: PlaceHead, parts: &[Sx]) -> Read
    ensures { Gives exp_of result
        (rows.place_row at inner (place_in head)
        (rows.with_second (first_of (trees_in parts.now)))) }
{
    let Some((ty, p, steps)) = first_two(parts) else {
        return Err(TextFault::Shape(at));
    };
    let (ty, at) = type_at(alloc, ty, inner)?;
    let (p, at) = boxed_exp_at(alloc, p, at)?;
    let (path, at) = steps_at(alloc, steps, at)?;
    Ok((whole_place(head, ty, p, path), at))
}

#[cycle(exps)]
fn global_row(alloc: Global, at: u32, inner: u32, parts: &[Sx]) -> Read
    ensures { Gives exp_of result (rows.global_row at inner (first_of (trees_in parts.now))) }
{
    let Some((name, steps)) = first(parts) else {
        return Err(TextFault::Shape(at));
    };
    let (name, at) = name_at(alloc, name, inner)?;
    let (path, at) = steps_at(alloc, steps, at)?;
    Ok((Exp::Global(name, path), at))
}

#[cycle(exps)]
fn sel_row(alloc: Global, at: u32, inner: u32, parts: &[Sx]) -> Read
    ensures { Gives exp_of result (rows.sel_row at inner (two_of (trees_in parts.now))) }
{
    let Some((whole, step)) = two(parts) else {
        return Err(TextFault::Shape(at));
    };
    let (whole, at) = boxed_exp_at(alloc, whole, inner)?;
    let (step, at) = step_at(alloc, step, at)?;
    Ok((Exp::Sel(whole, whole_path(alloc, step, Path::Here)?), at))
}

#[cycle(exps)]
fn upd_row(alloc: Global, at: u32, inner: u32, parts: &[Sx]) -> Read
    ensures { Gives exp_of result (rows.upd_row at inner (three_of (trees_in parts.now))) }
{
    let Some((whole, path, part)) = three(parts) else {
        return Err(TextFault::Shape(at));
    };
    let (whole, at) = boxed_exp_at(alloc, whole, inner)?;
    let (path, at) = path_at(alloc, path, at)?;
    let (part, at) = boxed_exp_at(alloc, part, at)?;
    Ok((Exp::Upd(whole, path, part), at))
}
