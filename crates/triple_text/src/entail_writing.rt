//! Derivations of assertions, written.
ghost use Rattle.std.specs.Prelude.{◌≡◌, OnOk, map};
ghost use Rattle.ac_sx.specs.Tree.{Atom, Node, no_trees, more};
ghost use Rattle.ac_sx.specs.Writing.{written, all_written};
ghost use Rattle.expression_lang.specs.CodeExpression.{exp_of};
ghost use Rattle.expression_text.specs.ExpText.{exp_tree};
ghost use Rattle.expression_text.specs.Lists.{trees_for};
ghost use Rattle.triple_lang.specs.Entail as rules;
ghost use Rattle.triple_lang.specs.CodeEntail as entails;
ghost use Rattle.triple_lang.specs.CodeEntail.{leaf, weighed_of};
ghost use Rattle.triple_text.specs.declared.entail_heads.EntailHead.TheVariants as H;
ghost use Rattle.triple_text.specs.Words.{entail_head_word};
ghost use Rattle.triple_text.specs.EntailText.{entail_tree, weighed_tree};

use crate::entail_heads::{EntailHead, EntailLeaf};
use ac_sx::TreeWriter;
use c_values::Number;
use expression_lang::Exp;
use expression_text::{begin_list, exp_into, number_into};
use std::alloc::{AllocError, Global};
use triple_lang::{Entail, Weighed};

/// Writes a derivation of an assertion.
///
/// This takes stack for each level of rules.
#[cycle(written)]
pub(crate) fn entail_into<W: TreeWriter>(
    alloc: Global,
    out: &mut W,
    entail: &Entail,
) -> Result<(), AllocError>
    ensures { OnOk result (W.state out.new ≡ written W.writing (W.state out.old)
        (entail_tree (entails.tree_of entail.now))) }
{
    match entail {
        Entail::Hyp => out.atom(EntailLeaf::Hyp.word()),
        Entail::Same => out.atom(EntailLeaf::Same.word()),
        Entail::Compute => out.atom(EntailLeaf::Compute.word()),
        Entail::And(first, last) => two_into(alloc, out, EntailHead::And, first, last),
        Entail::Imp(part) => one_into(alloc, out, EntailHead::Imp, part),
        Entail::Or(part) => one_into(alloc, out, EntailHead::Or, part),
        Entail::Not(part) => one_into(alloc, out, EntailHead::Not, part),
        Entail::Between(first, last) => two_into(alloc, out, EntailHead::Between, first, last),
        Entail::Case(exp, first, last) => {
            split_into(alloc, out, EntailHead::Case, exp, first, last)
        }
        Entail::Cut(exp, first, last) => split_into(alloc, out, EntailHead::Cut, exp, first, last),
        Entail::Absurd(part) => one_into(alloc, out, EntailHead::Absurd, part),
        Entail::Rewrite(left, right, rest, first, last) => {
            rewrite_front(alloc, out, left, right, rest)?;
            entail_into(alloc, out, first)?;
            entail_into(alloc, out, last)?;
            out.leave()
        }
        Entail::Step(rest, part) => {
            begin_list(out, EntailHead::Step.word())?;
            exp_into(alloc, out, rest)?;
            entail_into(alloc, out, part)?;
            out.leave()
        }
        Entail::Range => out.atom(EntailLeaf::Range.word()),
        Entail::Linear(weight, facts) => linear_into(alloc, out, *weight, facts),
    }
}

#[cycle(written)]
fn one_into<W: TreeWriter>(
    alloc: Global,
    out: &mut W,
    head: EntailHead,
    part: &Entail,
) -> Result<(), AllocError>
    ensures { OnOk result (W.state out.new ≡ written W.writing (W.state out.old)
        (Node (more (Atom (entail_head_word head))
        (more (entail_tree (entails.tree_of part.now)) no_trees)))) }
{
    begin_list(out, head.word())?;
    entail_into(alloc, out, part)?;
    out.leave()
}

#[cycle(written)]
fn two_into<W: TreeWriter>(
    alloc: Global,
    out: &mut W,
    head: EntailHead,
    first: &Entail,
    last: &Entail,
) -> Result<(), AllocError>
    ensures { OnOk result (W.state out.new ≡ written W.writing (W.state out.old)
        (Node (more (Atom (entail_head_word head))
        (more (entail_tree (entails.tree_of first.now))
        (more (entail_tree (entails.tree_of last.now)) no_trees))))) }
{
    begin_list(out, head.word())?;
    entail_into(alloc, out, first)?;
    entail_into(alloc, out, last)?;
    out.leave()
}

#[cycle(written)]
fn split_into<W: TreeWriter>(
    alloc: Global,
    out: &mut W,
    head: EntailHead,
    exp: &Exp,
    first: &Entail,
    last: &Entail,
) -> Result<(), AllocError>
    ensures { OnOk result (W.state out.new ≡ written W.writing (W.state out.old)
        (Node (more (Atom (entail_head_word head))
        (more (exp_tree (exp_of exp.now))
        (more (entail_tree (entails.tree_of first.now))
        (more (entail_tree (entails.tree_of last.now)) no_trees)))))) }
{
    begin_list(out, head.word())?;
    exp_into(alloc, out, exp)?;
    entail_into(alloc, out, first)?;
    entail_into(alloc, out, last)?;
    out.leave()
}

// A rewriting as far as its derivations.
fn rewrite_front<W: TreeWriter>(
    alloc: Global,
    out: &mut W,
    left: &Exp,
    right: &Exp,
    rest: &Exp,
) -> Result<(), AllocError>
    ensures { OnOk result (W.state out.new ≡ all_written W.writing
        (W.writing.entered (W.state out.old))
        (more (Atom (entail_head_word H.Rewrite)) (more (exp_tree (exp_of left.now))
        (more (exp_tree (exp_of right.now)) (more (exp_tree (exp_of rest.now)) no_trees))))) }
{
    begin_list(out, EntailHead::Rewrite.word())?;
    exp_into(alloc, out, left)?;
    exp_into(alloc, out, right)?;
    exp_into(alloc, out, rest)
}

fn linear_into<W: TreeWriter>(
    alloc: Global,
    out: &mut W,
    weight: Number,
    facts: &[Weighed],
) -> Result<(), AllocError>
    ensures { OnOk result (W.state out.new ≡ written W.writing (W.state out.old)
        (entail_tree (leaf (rules.Linear weight (map weighed_of facts.now))))) }
{
    begin_list(out, EntailHead::Linear.word())?;
    number_into(alloc, out, weight)?;
    each_weighed_into(alloc, out, facts)?;
    out.leave()
}

fn each_weighed_into<W: TreeWriter>(
    alloc: Global,
    out: &mut W,
    facts: &[Weighed],
) -> Result<(), AllocError>
    ensures { OnOk result (W.state out.new ≡ all_written W.writing (W.state out.old)
        (trees_for weighed_tree (map weighed_of facts.now))) }
{
    let mut rest = facts;
    'facts: while let Some((fact, others)) = rest.split_first() {
        weighed_into(alloc, out, fact)?;
        rest = others;
    }
    Ok(())
}

fn weighed_into<W: TreeWriter>(alloc: Global, out: &mut W, fact: &Weighed) -> Result<(), AllocError>
    ensures { OnOk result (W.state out.new
        ≡ written W.writing (W.state out.old) (weighed_tree (weighed_of fact.now))) }
{
    out.enter()?;
    number_into(alloc, out, fact.weight)?;
    exp_into(alloc, out, &fact.fact)?;
    out.leave()
}
