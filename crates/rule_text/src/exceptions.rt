//! Trees of the rules that take exceptions out.

ghost use Rattle.std.specs.Prelude.{◌≡◌, ◌≢◌, OnOk, IfSome, IfNone};
ghost use Rattle.ac_sx.specs.CodeSx.{tree_of};
ghost use Rattle.ac_sx.specs.Writing.{written};
ghost use Rattle.expression_text.specs.CodeFault.{Gives};
ghost use Rattle.rule_exn.specs.Rule as R;
ghost use Rattle.rule_exn.specs.CodeRule as code;
ghost use Rattle.rule_text.specs.ExceptionText as texts;
ghost use Rattle.rule_text.specs.ExceptionText.{word, data_of, text_of};

use crate::arity::Arity;
use crate::reading::{RuleReading, tree_at};
use crate::writing::{RuleText, rule_into};
use ac_sx::{Sx, TreeWriter};
use expression_text::TextFault;
use rule_exn::Rule;
use rule_trees::Tree;
use std::alloc::{AllocError, Global};

impl RuleText for Rule {
    ghost its_word = { λ r. word (code.rule_of r) };

    ghost its_data = { λ r. data_of (code.rule_of r) };

    fn word(&self) -> &'static str {
        match self {
            Rule::Skip => "skip",
            Rule::Set => "set",
            Rule::Pick => "pick",
            Rule::Call => "call",
            Rule::Throw => "throw",
            Rule::SeqPlain => "seq_plain",
            Rule::SeqTest => "seq_test",
            Rule::Cond => "cond",
            Rule::Guard => "guard",
            Rule::WhilePlain => "while_plain",
            Rule::WhileTest => "while_test",
            Rule::CatchPlain => "catch_plain",
            Rule::CatchTest => "catch_test",
            Rule::CatchSkip => "catch_skip",
        }
    }

    fn has_data(&self) -> bool {
        false
    }

    fn data_into<W: TreeWriter>(&self, _alloc: Global, _out: &mut W) -> Result<(), AllocError> {
        Ok(())
    }
}

impl RuleReading for Rule {
    ghost Plain = { R.Rule };

    ghost plain_of = { code.rule_of };

    ghost words = { texts.words };

    fn plain(word: &str) -> Option<Rule> {
        plain_rule(word)
    }

    fn arity(&self) -> Arity {
        match self {
            Rule::Skip | Rule::Set | Rule::Pick | Rule::Call | Rule::Throw => Arity::exactly(0),
            Rule::SeqPlain | Rule::SeqTest | Rule::Cond | Rule::CatchTest => Arity::exactly(2),
            Rule::Guard | Rule::WhilePlain | Rule::WhileTest | Rule::CatchPlain | Rule::CatchSkip =>
                Arity::exactly(1),
        }
    }

    fn given(_word: &str) -> Option<Arity> {
        None
    }

    fn read_given(
        _alloc: Global,
        _word: &str,
        _part: &Sx,
        at: u32,
    ) -> Result<(Rule, u32), TextFault> {
        Err(TextFault::Shape(at))
    }
}

// The rule that a word is.
fn plain_rule(word: &str) -> Option<Rule>
    ensures some { IfSome result (λ r. word.now ≡ texts.word (code.rule_of r)) }
    ensures none { IfNone result ((r : R.Rule) → word.now ≢ texts.word r) }
{
    match word {
        "skip" => Some(Rule::Skip),
        "set" => Some(Rule::Set),
        "pick" => Some(Rule::Pick),
        "call" => Some(Rule::Call),
        "throw" => Some(Rule::Throw),
        "seq_plain" => Some(Rule::SeqPlain),
        "seq_test" => Some(Rule::SeqTest),
        "cond" => Some(Rule::Cond),
        "guard" => Some(Rule::Guard),
        "while_plain" => Some(Rule::WhilePlain),
        "while_test" => Some(Rule::WhileTest),
        "catch_plain" => Some(Rule::CatchPlain),
        "catch_test" => Some(Rule::CatchTest),
        "catch_skip" => Some(Rule::CatchSkip),
        _ => None,
    }
}

/// Writes a tree of the rules that take exceptions out.
#[tactic(auto, using(crate::proofs::Mapped::mapped))]
pub fn exception_into<W: TreeWriter>(
    alloc: Global,
    out: &mut W,
    tree: &Tree<Rule>,
) -> Result<(), AllocError>
    ensures { OnOk result (W.state out.new
        ≡ written W.writing (W.state out.old) (text_of (code.tree_of tree.now))) }
{
    rule_into(alloc, out, tree)
}

/// The tree of the rules that take exceptions out that a tree is.
pub fn exception_tree_at(alloc: Global, tree: &Sx, at: u32) -> Result<(Tree<Rule>, u32), TextFault>
    ensures { Gives code.tree_of result (texts.tree_at at (tree_of tree.now)) }
{
    tree_at(alloc, tree, at)
}
