//! Expressions and paths, written.
ghost use Rattle.std.specs.Prelude.{◌≡◌, IfOk, OnOk};
ghost use Rattle.std.specs.Fmt.{decimal};
ghost use Rattle.c_values.specs.CodeTypes.{type_of};
ghost use Rattle.ac_sx.specs.Tree.{Atom, Node, no_trees, more};
ghost use Rattle.ac_sx.specs.Writing.{written, all_written};
ghost use Rattle.expression_lang.specs.declared.expression.Exp.{size-Exp};
ghost use Rattle.expression_lang.specs.declared.paths.Path.{size-Path};
ghost use Rattle.expression_lang.specs.CodeExpression.{exp_of, path_of};
ghost use Rattle.expression_lang.specs.CodeShape.{whole_leaf};
ghost use Rattle.expression_lang.specs.CodeShapeView.{leaf_in, one_in};
ghost use Rattle.expression_lang.specs.Expression as plain;
ghost use Rattle.expression_text.specs.declared.heads.Head.TheVariants as H;
ghost use Rattle.expression_text.specs.Head.{head_word};
ghost use Rattle.expression_text.specs.Numbers.{number_text};
ghost use Rattle.expression_text.specs.Row as rows;
ghost use Rattle.expression_text.specs.TypeText.{type_tree};
ghost use Rattle.expression_text.specs.ExpText.{field_word, exp_tree, step_trees};
ghost use Rattle.expression_text.specs.CodeWriting.{widths, exp_end, exp_goes_on, LastIsSmaller, path_goes_on, RestIsSmaller};

use crate::heads::Head;
use crate::parts::{begin_list, natural_into, number_into};
use crate::shape_heads::{one_head, place_head, root_head, two_head};
use crate::type_writing::type_into;
use ac_sx::TreeWriter;
use c_values::{CType, Number, Word};
use expression_lang::{Exp, Leaf, One, Path, PlaceHead, Shape, shape_of};
use std::alloc::{AllocError, Global};

/// Writes an expression. It goes along the last parts by a loop, since there may be long chains.
#[cycle(written)]
pub fn exp_into<W: TreeWriter>(alloc: Global, out: &mut W, e: &Exp) -> Result<(), AllocError>
    ensures { OnOk result (W.state out.new
        ≡ written W.writing (W.state out.old) (exp_tree (exp_of e.now))) }
{
    let mut lists = Vec::new(alloc);
    let mut rest = e;
    'along: while let Some(last) = front_into(alloc, out, rest)? {
        lists.push(rest)?;
        rest = last;
    }
    'back: while let Some(list) = lists.pop() {
        end_into(alloc, out, list)?;
    }
    Ok(())
}

// Writes an expression as far as its last part, where it has one.
#[cycle(written)]
#[tactic(auto, using(crate::proofs::Writing::text_shape))]
fn front_into<'a, W: TreeWriter>(
    alloc: Global,
    out: &mut W,
    e: &'a Exp,
) -> Result<Option<&'a Exp>, AllocError>
    ensures same { IfOk result (λ last. exp_goes_on W.writing (exp_of e.now) last (W.state out.new)
        ≡ written W.writing (W.state out.old) (exp_tree (exp_of e.now))) }
    ensures smaller { IfOk result (λ last. LastIsSmaller last (size-Exp e.now)) }
{
    match shape_of(e) {
        Shape::Leaf(leaf) => {
            leaf_into(alloc, out, leaf)?;
            Ok(None)
        }
        Shape::One(head, last) => {
            one_front(out, head)?;
            Ok(Some(last))
        }
        Shape::Two(head, a, last) => {
            begin_list(out, two_head(head).word())?;
            exp_into(alloc, out, a)?;
            Ok(Some(last))
        }
        Shape::Between(low, last, _high) => {
            between_front(alloc, out, low)?;
            Ok(Some(last))
        }
        Shape::If(c, a, last) => {
            begin_list(out, Head::If.word())?;
            exp_into(alloc, out, c)?;
            exp_into(alloc, out, a)?;
            Ok(Some(last))
        }
        Shape::Padd(ty, p, last) => {
            typed_front(alloc, out, Head::Padd, ty)?;
            exp_into(alloc, out, p)?;
            Ok(Some(last))
        }
        Shape::Root(head, ty, last) => {
            typed_front(alloc, out, root_head(head), ty)?;
            Ok(Some(last))
        }
        Shape::Place(head, ty, last, _path) => {
            typed_front(alloc, out, place_head(head), ty)?;
            Ok(Some(last))
        }
        Shape::Global(name, path) => {
            begin_list(out, Head::Global.word())?;
            out.atom(name)?;
            steps_into(alloc, out, path)?;
            out.leave()?;
            Ok(None)
        }
        Shape::Sel(last, _path) => {
            begin_list(out, Head::Sel.word())?;
            Ok(Some(last))
        }
        Shape::Upd(whole, path, last) => {
            begin_list(out, Head::Upd.word())?;
            exp_into(alloc, out, whole)?;
            path_into(alloc, out, path)?;
            Ok(Some(last))
        }
    }
}

// Writes what stands behind the last part of an expression's list, and its end.
#[cycle(written)]
fn end_into<W: TreeWriter>(alloc: Global, out: &mut W, e: &Exp) -> Result<(), AllocError>
    ensures { OnOk result (W.state out.new ≡ exp_end W.writing (exp_of e.now) (W.state out.old)) }
{
    match shape_of(e) {
        Shape::Between(_, _, high) => number_into(alloc, out, high)?,
        Shape::Place(_, _, _, path) => steps_into(alloc, out, path)?,
        Shape::Sel(_, path) => steps_into(alloc, out, path)?,
        Shape::Leaf(_)
        | Shape::One(_, _)
        | Shape::Two(_, _, _)
        | Shape::If(_, _, _)
        | Shape::Padd(_, _, _)
        | Shape::Root(_, _, _)
        | Shape::Global(_, _)
        | Shape::Upd(_, _, _) => {}
    }
    out.leave()
}

fn one_front<W: TreeWriter>(out: &mut W, one: One) -> Result<(), AllocError>
    ensures { OnOk result (W.state out.new ≡ all_written W.writing
        (W.writing.put (W.writing.entered (W.state out.old))
        (head_word (rows.one_head (one_in one))))
        (widths (one_in one) no_trees)) }
{
    begin_list(out, one_head(one).word())?;
    match one {
        One::Cast(_, width) | One::ToWord(width) => natural_into(out, u64::from(width)),
        One::WordUnary(_) | One::ToNat | One::ToInt | One::Negate | One::Not => Ok(()),
    }
}

fn between_front<W: TreeWriter>(alloc: Global, out: &mut W, low: Number) -> Result<(), AllocError>
    ensures { OnOk result (W.state out.new ≡ W.writing.put
        (W.writing.put (W.writing.entered (W.state out.old)) (head_word H.Between))
        (number_text low)) }
{
    begin_list(out, Head::Between.word())?;
    number_into(alloc, out, low)
}

// The beginning of a list with a type behind its head.
fn typed_front<W: TreeWriter>(
    alloc: Global,
    out: &mut W,
    head: Head,
    ty: &CType,
) -> Result<(), AllocError>
    ensures { OnOk result (W.state out.new ≡ written W.writing
        (W.writing.put (W.writing.entered (W.state out.old)) (head_word head))
        (type_tree (type_of ty.now))) }
{
    begin_list(out, head.word())?;
    type_into(alloc, out, ty)
}

fn leaf_into<W: TreeWriter>(alloc: Global, out: &mut W, leaf: Leaf<'_>) -> Result<(), AllocError>
    ensures { OnOk result (W.state out.new
        ≡ written W.writing (W.state out.old) (exp_tree (whole_leaf (leaf_in leaf.entry)))) }
{
    match leaf {
        Leaf::Var(name) => out.atom(name),
        Leaf::Word(word) => word_into(out, word),
        Leaf::Number(number) => number_into(alloc, out, number),
        Leaf::Truth(true) => out.atom("#t"),
        Leaf::Truth(false) => out.atom("#f"),
    }
}

fn word_into<W: TreeWriter>(out: &mut W, word: Word) -> Result<(), AllocError>
    ensures { OnOk result (W.state out.new
        ≡ written W.writing (W.state out.old) (exp_tree (plain.WordLit word))) }
{
    begin_list(out, Head::Word.word())?;
    natural_into(out, u64::from(word.width()))?;
    natural_into(out, word.bits())?;
    out.leave()
}

/// Writes the list of a path's steps.
#[cycle(written)]
pub fn path_into<W: TreeWriter>(alloc: Global, out: &mut W, path: &Path) -> Result<(), AllocError>
    ensures { OnOk result (W.state out.new
        ≡ written W.writing (W.state out.old) (Node (step_trees (path_of path.now)))) }
{
    out.enter()?;
    steps_into(alloc, out, path)?;
    out.leave()
}

#[cycle(written)]
fn steps_into<W: TreeWriter>(alloc: Global, out: &mut W, path: &Path) -> Result<(), AllocError>
    ensures { OnOk result (W.state out.new
        ≡ all_written W.writing (W.state out.old) (step_trees (path_of path.now))) }
{
    let mut rest = path;
    'along: while let Some(next) = step_into(alloc, out, rest)? {
        rest = next;
    }
    Ok(())
}

// Writes a path's first step, and gives the path behind it.
#[cycle(written)]
fn step_into<'a, W: TreeWriter>(
    alloc: Global,
    out: &mut W,
    path: &'a Path,
) -> Result<Option<&'a Path>, AllocError>
    ensures same { IfOk result (λ rest. path_goes_on W.writing rest (W.state out.new)
        ≡ all_written W.writing (W.state out.old) (step_trees (path_of path.now))) }
    ensures smaller { IfOk result (λ rest. RestIsSmaller rest (size-Path path.now)) }
{
    match path {
        Path::Here => Ok(None),
        Path::Field(member, rest) => {
            field_into(out, *member)?;
            Ok(Some(&**rest))
        }
        Path::Index(index, rest) => {
            begin_list(out, "i")?;
            exp_into(alloc, out, index)?;
            out.leave()?;
            Ok(Some(&**rest))
        }
    }
}

fn field_into<W: TreeWriter>(out: &mut W, member: u32) -> Result<(), AllocError>
    ensures { OnOk result (W.state out.new ≡ written W.writing (W.state out.old)
        (Node (more (Atom field_word) (more (Atom (decimal member)) no_trees)))) }
{
    begin_list(out, "f")?;
    natural_into(out, u64::from(member))?;
    out.leave()
}
