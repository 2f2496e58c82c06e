//! Trees of the rules of equality.

ghost use Rattle.std.specs.Prelude.{◌≡◌, ◌≢◌, ◌^◌, true, Ok, Err, OnOk, IfSome, IfNone};
ghost use Rattle.ac_sx.specs.CodeSx.{tree_of};
ghost use Rattle.ac_sx.specs.Writing.{written};
ghost use Rattle.expression_text.specs.Numbers.{natural_at};
ghost use Rattle.expression_text.specs.CodeFault.{Gives};
ghost use Rattle.rule_eq.specs.Rule as R;
ghost use Rattle.rule_eq.specs.CodeRule as code;
ghost use Rattle.rule_text.specs.EqualityText as texts;
ghost use Rattle.rule_text.specs.EqualityText.{word, data_of, text_of, is_plain};

use crate::arity::Arity;
use crate::reading::{RuleReading, tree_at};
use crate::writing::{RuleText, rule_into};
use ac_sx::{Sx, TreeWriter};
use expression_text::{TextFault, natural_into, number_at};
use program_text::{mon_at, mon_into};
use rule_eq::Rule;
use rule_trees::Tree;
use std::alloc::{AllocError, Global};

impl RuleText for Rule {
    ghost its_word = { λ r. word (code.rule_of r) };

    ghost its_data = { λ r. data_of (code.rule_of r) };

    fn word(&self) -> &'static str {
        match self {
            Rule::Refl => "refl",
            Rule::Trans(_) => "trans",
            Rule::Bind => "bind",
            Rule::If => "if",
            Rule::Loop => "loop",
            Rule::RetOne(_) => "ret_one",
            Rule::BindRet => "bind_ret",
            Rule::Assoc => "assoc",
            Rule::IfConst => "if_const",
            Rule::GuardKnown => "guard_known",
            Rule::Exp => "exp",
        }
    }

    fn has_data(&self) -> bool {
        matches!(self, Rule::Trans(_) | Rule::RetOne(_))
    }

    fn data_into<W: TreeWriter>(&self, alloc: Global, out: &mut W) -> Result<(), AllocError> {
        match self {
            Rule::Trans(middle) => mon_into(alloc, out, middle),
            Rule::RetOne(position) => natural_into(out, u64::from(*position)),
            _ => Ok(()),
        }
    }
}

impl RuleReading for Rule {
    ghost Plain = { R.Rule };

    ghost plain_of = { code.rule_of };

    ghost words = { texts.words };

    fn plain(word: &str) -> Option<Rule> {
        plain_rule(word)
    }

    fn arity(&self) -> Arity {
        match self {
            Rule::Refl
            | Rule::RetOne(_)
            | Rule::BindRet
            | Rule::Assoc
            | Rule::IfConst
            | Rule::GuardKnown
            | Rule::Exp => Arity::exactly(0),
            Rule::Trans(_) | Rule::Bind | Rule::If => Arity::exactly(2),
            Rule::Loop => Arity::exactly(1),
        }
    }

    fn given(word: &str) -> Option<Arity> {
        if word == "trans" {
            Some(Arity::exactly(2))
        } else if word == "ret_one" {
            Some(Arity::exactly(0))
        } else {
            None
        }
    }

    fn read_given(alloc: Global, word: &str, part: &Sx, at: u32) -> Result<(Rule, u32), TextFault> {
        if word == "trans" {
            let (middle, behind) = mon_at(alloc, part, at)?;
            Ok((Rule::Trans(middle), behind))
        } else {
            let (position, behind) = position_at(part, at)?;
            Ok((Rule::RetOne(position), behind))
        }
    }
}

// The rule without data that a word is.
fn plain_rule(word: &str) -> Option<Rule>
    ensures some { IfSome result (λ r. (word.now ≡ texts.word (code.rule_of r))
        × (is_plain (code.rule_of r) ≡ true)) }
    ensures none { IfNone result ((r : R.Rule) → is_plain r ≡ true → word.now ≢ texts.word r) }
{
    match word {
        "refl" => Some(Rule::Refl),
        "bind" => Some(Rule::Bind),
        "if" => Some(Rule::If),
        "loop" => Some(Rule::Loop),
        "bind_ret" => Some(Rule::BindRet),
        "assoc" => Some(Rule::Assoc),
        "if_const" => Some(Rule::IfConst),
        "guard_known" => Some(Rule::GuardKnown),
        "exp" => Some(Rule::Exp),
        _ => None,
    }
}

/// Writes a tree of the rules of equality.
#[tactic(auto, using(crate::proofs::Mapped::mapped))]
pub fn equality_into<W: TreeWriter>(
    alloc: Global,
    out: &mut W,
    tree: &Tree<Rule>,
) -> Result<(), AllocError>
    ensures { OnOk result (W.state out.new
        ≡ written W.writing (W.state out.old) (text_of (code.tree_of tree.now))) }
{
    rule_into(alloc, out, tree)
}

/// The tree of the rules of equality that a tree is.
pub fn equality_tree_at(alloc: Global, tree: &Sx, at: u32) -> Result<(Tree<Rule>, u32), TextFault>
    ensures { Gives code.tree_of result (texts.tree_at at (tree_of tree.now)) }
{
    tree_at(alloc, tree, at)
}

// The number of 32 bits that a tree is.
fn position_at(tree: &Sx, at: u32) -> Result<(u32, u32), TextFault>
    ensures { Gives (λ n. n) result (natural_at (2 ^ 32) at (tree_of tree.now)) }
{
    let (number, behind) = number_at(tree, at)?;
    if number.negative() {
        return Err(TextFault::Shape(at));
    }
    match u32::try_from(number.magnitude()) {
        Ok(position) => Ok((position, behind)),
        Err(_) => Err(TextFault::Shape(at)),
    }
}
