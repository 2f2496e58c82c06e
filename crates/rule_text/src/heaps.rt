//! Trees of the rules of typed heaps.

ghost use Rattle.std.specs.Prelude.{◌≡◌, ◌≢◌, true, OnOk, IfSome, IfNone};
ghost use Rattle.ac_sx.specs.CodeSx.{tree_of};
ghost use Rattle.ac_sx.specs.Writing.{written};
ghost use Rattle.expression_text.specs.CodeFault.{Gives};
ghost use Rattle.rule_heap.specs.Rule as R;
ghost use Rattle.rule_heap.specs.CodeRule as code;
ghost use Rattle.rule_text.specs.HeapText as texts;
ghost use Rattle.rule_text.specs.HeapText.{word, data_of, text_of, is_plain};

use crate::arity::Arity;
use crate::reading::{RuleReading, tree_at};
use crate::writing::{RuleText, rule_into};
use ac_sx::{Sx, TreeWriter};
use expression_text::{TextFault, exp_into};
use program_text::boxed_exp_at;
use rule_heap::Rule;
use rule_trees::Tree;
use std::alloc::{AllocError, Global};

impl RuleText for Rule {
    ghost its_word = { λ r. word (code.rule_of r) };

    ghost its_data = { λ r. data_of (code.rule_of r) };

    fn word(&self) -> &'static str {
        match self {
            Rule::Ret => "ret",
            Rule::Bind => "bind",
            Rule::Guard => "guard",
            Rule::If => "if",
            Rule::Global => "global",
            Rule::Loop => "loop",
            Rule::Call => "call",
            Rule::Pick => "pick",
            Rule::Write => "write",
            Rule::Pointer => "pointer",
            Rule::Drop(_) => "drop",
            Rule::Same => "same",
            Rule::Leaf => "leaf",
            Rule::Load => "load",
            Rule::Tagged => "tagged",
            Rule::PtrOk => "ptrok",
            Rule::Op => "op",
            Rule::And => "and",
            Rule::Or => "or",
            Rule::Imp => "imp",
            Rule::Cond => "cond",
            Rule::Known(_) => "known",
        }
    }

    fn has_data(&self) -> bool {
        matches!(self, Rule::Drop(_) | Rule::Known(_))
    }

    fn data_into<W: TreeWriter>(&self, alloc: Global, out: &mut W) -> Result<(), AllocError> {
        match self {
            Rule::Drop(address) | Rule::Known(address) => exp_into(alloc, out, address),
            _ => Ok(()),
        }
    }
}

impl RuleReading for Rule {
    ghost Plain = { R.Rule };

    ghost plain_of = { code.rule_of };

    ghost words = { texts.words };

    fn plain(word: &str) -> Option<Rule> {
        plain_rule(word)
    }

    fn arity(&self) -> Arity {
        match self {
            Rule::Ret | Rule::Call => Arity::at_least(0),
            Rule::Bind | Rule::Pointer | Rule::Drop(_) | Rule::And | Rule::Or | Rule::Imp =>
                Arity::exactly(2),
            Rule::Guard | Rule::Tagged | Rule::PtrOk | Rule::Known(_) => Arity::exactly(1),
            Rule::If | Rule::Cond => Arity::exactly(3),
            Rule::Global | Rule::Load | Rule::Op => Arity::at_least(1),
            Rule::Loop => Arity::at_least(3),
            Rule::Pick | Rule::Same | Rule::Leaf => Arity::exactly(0),
            Rule::Write => Arity::at_least(2),
        }
    }

    fn given(word: &str) -> Option<Arity> {
        if word == "drop" {
            Some(Arity::exactly(2))
        } else if word == "known" {
            Some(Arity::exactly(1))
        } else {
            None
        }
    }

    fn read_given(alloc: Global, word: &str, part: &Sx, at: u32) -> Result<(Rule, u32), TextFault> {
        let (address, behind) = boxed_exp_at(alloc, part, at)?;
        if word == "drop" {
            Ok((Rule::Drop(address), behind))
        } else {
            Ok((Rule::Known(address), behind))
        }
    }
}

// The rule without data that a word is.
fn plain_rule(word: &str) -> Option<Rule>
    ensures some { IfSome result (λ r. (word.now ≡ texts.word (code.rule_of r))
        × (is_plain (code.rule_of r) ≡ true)) }
    ensures none { IfNone result ((r : R.Rule) → is_plain r ≡ true → word.now ≢ texts.word r) }
{
    match word {
        "ret" => Some(Rule::Ret),
        "bind" => Some(Rule::Bind),
        "guard" => Some(Rule::Guard),
        "if" => Some(Rule::If),
        "global" => Some(Rule::Global),
        "loop" => Some(Rule::Loop),
        "call" => Some(Rule::Call),
        "pick" => Some(Rule::Pick),
        "write" => Some(Rule::Write),
        "pointer" => Some(Rule::Pointer),
        "same" => Some(Rule::Same),
        "leaf" => Some(Rule::Leaf),
        "load" => Some(Rule::Load),
        "tagged" => Some(Rule::Tagged),
        "ptrok" => Some(Rule::PtrOk),
        "op" => Some(Rule::Op),
        "and" => Some(Rule::And),
        "or" => Some(Rule::Or),
        "imp" => Some(Rule::Imp),
        "cond" => Some(Rule::Cond),
        _ => None,
    }
}

/// Writes a tree of the rules of typed heaps.
#[tactic(auto, using(crate::proofs::Mapped::mapped))]
pub fn heap_into<W: TreeWriter>(
    alloc: Global,
    out: &mut W,
    tree: &Tree<Rule>,
) -> Result<(), AllocError>
    ensures { OnOk result (W.state out.new
        ≡ written W.writing (W.state out.old) (text_of (code.tree_of tree.now))) }
{
    rule_into(alloc, out, tree)
}

/// The tree of the rules of typed heaps that a tree is.
pub fn heap_tree_at(alloc: Global, tree: &Sx, at: u32) -> Result<(Tree<Rule>, u32), TextFault>
    ensures { Gives code.tree_of result (texts.tree_at at (tree_of tree.now)) }
{
    tree_at(alloc, tree, at)
}
