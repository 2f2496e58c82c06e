//! Trees of the rules that lift locals.

ghost use Rattle.std.specs.Prelude.{◌≡◌, ◌≢◌, OnOk, IfSome, IfNone};
ghost use Rattle.ac_sx.specs.CodeSx.{tree_of};
ghost use Rattle.ac_sx.specs.Writing.{written};
ghost use Rattle.expression_text.specs.CodeFault.{Gives};
ghost use Rattle.rule_local.specs.Rule as R;
ghost use Rattle.rule_local.specs.CodeRule as code;
ghost use Rattle.rule_text.specs.LocalText as texts;
ghost use Rattle.rule_text.specs.LocalText.{word, data_of, text_of};

use crate::arity::Arity;
use crate::reading::{RuleReading, tree_at};
use crate::writing::{RuleText, rule_into};
use ac_sx::{Sx, TreeWriter};
use expression_text::TextFault;
use rule_local::Rule;
use rule_trees::Tree;
use std::alloc::{AllocError, Global};

impl RuleText for Rule {
    ghost its_word = { λ r. word (code.rule_of r) };

    ghost its_data = { λ r. data_of (code.rule_of r) };

    fn word(&self) -> &'static str {
        match self {
            Rule::Skip => "skip",
            Rule::Set => "set",
            Rule::Dead => "dead",
            Rule::Global => "global",
            Rule::Memory => "memory",
            Rule::Pick => "pick",
            Rule::Seq => "seq",
            Rule::Cond => "cond",
            Rule::Guard => "guard",
            Rule::While => "while",
            Rule::Call => "call",
            Rule::Void => "void",
            Rule::Start => "start",
        }
    }

    fn has_data(&self) -> bool {
        false
    }

    fn data_into<W: TreeWriter>(&self, _alloc: Global, _out: &mut W) -> Result<(), AllocError> {
        Ok(())
    }
}

impl RuleReading for Rule {
    ghost Plain = { R.Rule };

    ghost plain_of = { code.rule_of };

    ghost words = { texts.words };

    fn plain(word: &str) -> Option<Rule> {
        plain_rule(word)
    }

    fn arity(&self) -> Arity {
        match self {
            Rule::Skip
            | Rule::Set
            | Rule::Dead
            | Rule::Global
            | Rule::Memory
            | Rule::Pick
            | Rule::Call
            | Rule::Void => Arity::exactly(0),
            Rule::Seq | Rule::Cond => Arity::exactly(2),
            Rule::Guard | Rule::While | Rule::Start => Arity::exactly(1),
        }
    }

    fn given(_word: &str) -> Option<Arity> {
        None
    }

    fn read_given(
        _alloc: Global,
        _word: &str,
        _part: &Sx,
        at: u32,
    ) -> Result<(Rule, u32), TextFault> {
        Err(TextFault::Shape(at))
    }
}

// The rule that a word is.
fn plain_rule(word: &str) -> Option<Rule>
    ensures some { IfSome result (λ r. word.now ≡ texts.word (code.rule_of r)) }
    ensures none { IfNone result ((r : R.Rule) → word.now ≢ texts.word r) }
{
    match word {
        "skip" => Some(Rule::Skip),
        "set" => Some(Rule::Set),
        "dead" => Some(Rule::Dead),
        "global" => Some(Rule::Global),
        "memory" => Some(Rule::Memory),
        "pick" => Some(Rule::Pick),
        "seq" => Some(Rule::Seq),
        "cond" => Some(Rule::Cond),
        "guard" => Some(Rule::Guard),
        "while" => Some(Rule::While),
        "call" => Some(Rule::Call),
        "void" => Some(Rule::Void),
        "start" => Some(Rule::Start),
        _ => None,
    }
}

/// Writes a tree of the rules that lift locals.
#[tactic(auto, using(crate::proofs::Mapped::mapped))]
pub fn local_into<W: TreeWriter>(
    alloc: Global,
    out: &mut W,
    tree: &Tree<Rule>,
) -> Result<(), AllocError>
    ensures { OnOk result (W.state out.new
        ≡ written W.writing (W.state out.old) (text_of (code.tree_of tree.now))) }
{
    rule_into(alloc, out, tree)
}

/// The tree of the rules that lift locals that a tree is.
pub fn local_tree_at(alloc: Global, tree: &Sx, at: u32) -> Result<(Tree<Rule>, u32), TextFault>
    ensures { Gives code.tree_of result (texts.tree_at at (tree_of tree.now)) }
{
    tree_at(alloc, tree, at)
}
