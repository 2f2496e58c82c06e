//! Derivations of programs, written.
ghost use Rattle.std.specs.Prelude.{◌≡◌, OnOk, map};
ghost use Rattle.std.specs.Fmt.{decimal};
ghost use Rattle.ac_sx.specs.Tree.{Atom, Node, no_trees, more};
ghost use Rattle.ac_sx.specs.Writing.{written, all_written};
ghost use Rattle.expression_lang.specs.CodeExpression.{exp_of};
ghost use Rattle.expression_text.specs.ExpText.{exp_tree};
ghost use Rattle.expression_text.specs.Lists.{exp_trees};
ghost use Rattle.triple_lang.specs.CodeDeriv as derivs;
ghost use Rattle.triple_lang.specs.CodeDeriv.{shows};
ghost use Rattle.triple_text.specs.declared.deriv_heads.DerivHead.TheVariants as H;
ghost use Rattle.triple_text.specs.Words.{deriv_head_word};
ghost use Rattle.triple_text.specs.DerivText.{deriv_tree};

use crate::deriv_heads::DerivHead;
use crate::entail_writing::entail_into;
use crate::positions::position_into;
use ac_sx::TreeWriter;
use expression_lang::Exp;
use expression_text::{begin_list, exp_into, exps_into};
use std::alloc::{AllocError, Global};
use triple_lang::{Deriv, Entail};

/// Writes a derivation of a program.
///
/// This takes stack for each level of rules.
pub(crate) fn deriv_into<W: TreeWriter>(
    alloc: Global,
    out: &mut W,
    deriv: &Deriv,
) -> Result<(), AllocError>
    ensures { OnOk result (W.state out.new ≡ written W.writing (W.state out.old)
        (deriv_tree (derivs.tree_of deriv.now))) }
{
    match deriv {
        Deriv::Ret(exp, shown) => given_into(alloc, out, DerivHead::Ret, exp, shown),
        Deriv::Bind(between, first, last) => {
            begin_list(out, DerivHead::Bind.word())?;
            exp_into(alloc, out, between)?;
            deriv_into(alloc, out, first)?;
            deriv_into(alloc, out, last)?;
            out.leave()
        }
        Deriv::Guard(first, last) => {
            begin_list(out, DerivHead::Guard.word())?;
            shown_into(alloc, out, first)?;
            shown_into(alloc, out, last)?;
            out.leave()
        }
        Deriv::If(first, last) => {
            begin_list(out, DerivHead::If.word())?;
            deriv_into(alloc, out, first)?;
            deriv_into(alloc, out, last)?;
            out.leave()
        }
        Deriv::Loop {
            invariant,
            first,
            begins,
            guarded,
            kept,
            last,
            ends,
        } => {
            loop_front(alloc, out, invariant, first, begins, guarded)?;
            deriv_into(alloc, out, kept)?;
            exp_into(alloc, out, last)?;
            shown_into(alloc, out, ends)?;
            out.leave()
        }
        Deriv::Call {
            triple,
            logicals,
            before,
            asked,
            after,
            given,
        } => {
            call_front(alloc, out, *triple, logicals, before, asked)?;
            exp_into(alloc, out, after)?;
            shown_into(alloc, out, given)?;
            out.leave()
        }
        Deriv::Pick(shown) => {
            begin_list(out, DerivHead::Pick.word())?;
            shown_into(alloc, out, shown)?;
            out.leave()
        }
        Deriv::Write(exp, shown) => given_into(alloc, out, DerivHead::Write, exp, shown),
        Deriv::Gset(exp, shown) => given_into(alloc, out, DerivHead::Gset, exp, shown),
    }
}

// A derivation of an assertion among those of programs.
fn shown_into<W: TreeWriter>(alloc: Global, out: &mut W, entail: &Entail) -> Result<(), AllocError>
    ensures { OnOk result (W.state out.new ≡ written W.writing (W.state out.old)
        (deriv_tree (shows entail.now))) }
{
    entail_into(alloc, out, entail)
}

// A list of an assertion and a derivation of it.
fn given_into<W: TreeWriter>(
    alloc: Global,
    out: &mut W,
    head: DerivHead,
    exp: &Exp,
    shown: &Entail,
) -> Result<(), AllocError>
    ensures { OnOk result (W.state out.new ≡ written W.writing (W.state out.old)
        (Node (more (Atom (deriv_head_word head)) (more (exp_tree (exp_of exp.now))
        (more (deriv_tree (shows shown.now)) no_trees))))) }
{
    begin_list(out, head.word())?;
    exp_into(alloc, out, exp)?;
    shown_into(alloc, out, shown)?;
    out.leave()
}

// A loop as far as the derivation of its program.
fn loop_front<W: TreeWriter>(
    alloc: Global,
    out: &mut W,
    invariant: &Exp,
    first: &Exp,
    begins: &Entail,
    guarded: &Entail,
) -> Result<(), AllocError>
    ensures { OnOk result (W.state out.new ≡ all_written W.writing
        (W.writing.entered (W.state out.old))
        (more (Atom (deriv_head_word H.Loop)) (more (exp_tree (exp_of invariant.now))
        (more (exp_tree (exp_of first.now)) (more (deriv_tree (shows begins.now))
        (more (deriv_tree (shows guarded.now)) no_trees)))))) }
{
    begin_list(out, DerivHead::Loop.word())?;
    exp_into(alloc, out, invariant)?;
    exp_into(alloc, out, first)?;
    shown_into(alloc, out, begins)?;
    shown_into(alloc, out, guarded)
}

// A call as far as what the other triple's postcondition says.
fn call_front<W: TreeWriter>(
    alloc: Global,
    out: &mut W,
    triple: u128,
    logicals: &[Exp],
    before: &Exp,
    asked: &Entail,
) -> Result<(), AllocError>
    ensures { OnOk result (W.state out.new ≡ all_written W.writing
        (W.writing.entered (W.state out.old))
        (more (Atom (deriv_head_word H.Call)) (more (Atom (decimal triple))
        (more (Node (exp_trees (map exp_of logicals.now)))
        (more (exp_tree (exp_of before.now))
        (more (deriv_tree (shows asked.now)) no_trees)))))) }
{
    begin_list(out, DerivHead::Call.word())?;
    position_into(out, triple)?;
    values_into(alloc, out, logicals)?;
    exp_into(alloc, out, before)?;
    shown_into(alloc, out, asked)
}

// The list of these expressions.
fn values_into<W: TreeWriter>(alloc: Global, out: &mut W, exps: &[Exp]) -> Result<(), AllocError>
    ensures { OnOk result (W.state out.new ≡ written W.writing (W.state out.old)
        (Node (exp_trees (map exp_of exps.now)))) }
{
    out.enter()?;
    exps_into(alloc, out, exps)?;
    out.leave()
}
