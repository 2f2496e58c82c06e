//! Trees of the rules of numbers.

ghost use Rattle.std.specs.Prelude.{◌≡◌, ◌≢◌, true, OnOk, IfSome, IfNone, map};
ghost use Rattle.ac_sx.specs.CodeSx.{tree_of, trees_in};
ghost use Rattle.ac_sx.specs.Writing.{written};
ghost use Rattle.expression_lang.specs.CodeExpression.{kind_of};
ghost use Rattle.expression_text.specs.CodeFault.{Gives};
ghost use Rattle.expression_text.specs.Lists.{list_at};
ghost use Rattle.program_text.specs.Kinds as kinds;
ghost use Rattle.rule_word.specs.Rule as R;
ghost use Rattle.rule_word.specs.CodeRule as code;
ghost use Rattle.rule_text.specs.WordText as texts;
ghost use Rattle.rule_text.specs.WordText.{kinds_tree, word, data_of, text_of, is_plain};

use crate::arity::Arity;
use crate::reading::{RuleReading, tree_at};
use crate::writing::{RuleText, rule_into};
use ac_sx::{Sx, TreeWriter};
use expression_lang::Kind;
use expression_text::{TextFault, next};
use program_text::{kind_at, kind_into};
use rule_trees::Tree;
use rule_word::Rule;
use std::alloc::{AllocError, Global};

impl RuleText for Rule {
    ghost its_word = { λ r. word (code.rule_of r) };

    ghost its_data = { λ r. data_of (code.rule_of r) };

    fn word(&self) -> &'static str {
        match self {
            Rule::Ret => "ret",
            Rule::Guard => "guard",
            Rule::If => "if",
            Rule::Global => "global",
            Rule::Pick => "pick",
            Rule::Write => "write",
            Rule::Bind(_) => "bind",
            Rule::Loop(_) => "loop",
            Rule::Call => "call",
            Rule::PickNat => "pick_nat",
            Rule::PickInt => "pick_int",
            Rule::Recast(_) => "recast",
            Rule::Var => "var",
            Rule::Const => "const",
            Rule::Nat => "nat",
            Rule::Int => "int",
            Rule::Word(_) => "word",
            Rule::Unat => "unat",
            Rule::Sint => "sint",
            Rule::Add => "add",
            Rule::Sub => "sub",
            Rule::Mul => "mul",
            Rule::Neg => "neg",
            Rule::Udiv => "udiv",
            Rule::Umod => "umod",
            Rule::Sdiv => "sdiv",
            Rule::Smod => "smod",
            Rule::Order => "order",
            Rule::Eq(_) => "eq",
            Rule::Zext => "zext",
            Rule::Sext => "sext",
            Rule::Logic => "logic",
            Rule::Cond => "cond",
            Rule::Op => "op",
        }
    }

    fn has_data(&self) -> bool {
        matches!(
            self,
            Rule::Bind(_) | Rule::Loop(_) | Rule::Recast(_) | Rule::Word(_) | Rule::Eq(_)
        )
    }

    fn data_into<W: TreeWriter>(&self, _alloc: Global, out: &mut W) -> Result<(), AllocError> {
        match self {
            Rule::Bind(kinds) | Rule::Loop(kinds) | Rule::Recast(kinds) => kinds_into(out, kinds),
            Rule::Word(kind) | Rule::Eq(kind) => kind_into(out, *kind),
            _ => Ok(()),
        }
    }
}

impl RuleReading for Rule {
    ghost Plain = { R.Rule };

    ghost plain_of = { code.rule_of };

    ghost words = { texts.words };

    fn plain(word: &str) -> Option<Rule> {
        plain_rule(word)
    }

    fn arity(&self) -> Arity {
        match self {
            Rule::Ret | Rule::Call | Rule::Op => Arity::at_least(0),
            Rule::Guard
            | Rule::Recast(_)
            | Rule::Nat
            | Rule::Int
            | Rule::Word(_)
            | Rule::Unat
            | Rule::Sint
            | Rule::Neg
            | Rule::Zext
            | Rule::Sext => Arity::exactly(1),
            Rule::If | Rule::Cond => Arity::exactly(3),
            Rule::Global => Arity::at_least(1),
            Rule::Pick | Rule::PickNat | Rule::PickInt | Rule::Var | Rule::Const => Arity::exactly(
                0,
            ),
            Rule::Write => Arity::at_least(2),
            Rule::Bind(_)
            | Rule::Add
            | Rule::Sub
            | Rule::Mul
            | Rule::Udiv
            | Rule::Umod
            | Rule::Sdiv
            | Rule::Smod
            | Rule::Order
            | Rule::Eq(_) => Arity::exactly(2),
            Rule::Loop(_) => Arity::at_least(3),
            Rule::Logic => Arity::between(1, 2),
        }
    }

    fn given(word: &str) -> Option<Arity> {
        if word == "bind" {
            Some(Arity::exactly(2))
        } else if word == "loop" {
            Some(Arity::at_least(3))
        } else if word == "recast" {
            Some(Arity::exactly(1))
        } else if word == "word" {
            Some(Arity::exactly(1))
        } else if word == "eq" {
            Some(Arity::exactly(2))
        } else {
            None
        }
    }

    fn read_given(alloc: Global, word: &str, part: &Sx, at: u32) -> Result<(Rule, u32), TextFault> {
        if word == "bind" {
            let (kinds, behind) = kinds_at(alloc, part, at)?;
            Ok((Rule::Bind(kinds), behind))
        } else if word == "loop" {
            let (kinds, behind) = kinds_at(alloc, part, at)?;
            Ok((Rule::Loop(kinds), behind))
        } else if word == "recast" {
            let (kinds, behind) = kinds_at(alloc, part, at)?;
            Ok((Rule::Recast(kinds), behind))
        } else if word == "word" {
            let (kind, behind) = kind_at(part, at)?;
            Ok((Rule::Word(kind), behind))
        } else {
            let (kind, behind) = kind_at(part, at)?;
            Ok((Rule::Eq(kind), behind))
        }
    }
}

// The rule without data that a word is.
fn plain_rule(word: &str) -> Option<Rule>
    ensures some { IfSome result (λ r. (word.now ≡ texts.word (code.rule_of r))
        × (is_plain (code.rule_of r) ≡ true)) }
    ensures none { IfNone result ((r : R.Rule) → is_plain r ≡ true → word.now ≢ texts.word r) }
{
    match word {
        "ret" => Some(Rule::Ret),
        "guard" => Some(Rule::Guard),
        "if" => Some(Rule::If),
        "global" => Some(Rule::Global),
        "pick" => Some(Rule::Pick),
        "write" => Some(Rule::Write),
        "call" => Some(Rule::Call),
        "pick_nat" => Some(Rule::PickNat),
        "pick_int" => Some(Rule::PickInt),
        "var" => Some(Rule::Var),
        "const" => Some(Rule::Const),
        "nat" => Some(Rule::Nat),
        "int" => Some(Rule::Int),
        "unat" => Some(Rule::Unat),
        "sint" => Some(Rule::Sint),
        "add" => Some(Rule::Add),
        "sub" => Some(Rule::Sub),
        "mul" => Some(Rule::Mul),
        "neg" => Some(Rule::Neg),
        "udiv" => Some(Rule::Udiv),
        "umod" => Some(Rule::Umod),
        "sdiv" => Some(Rule::Sdiv),
        "smod" => Some(Rule::Smod),
        "order" => Some(Rule::Order),
        "zext" => Some(Rule::Zext),
        "sext" => Some(Rule::Sext),
        "logic" => Some(Rule::Logic),
        "cond" => Some(Rule::Cond),
        "op" => Some(Rule::Op),
        _ => None,
    }
}

/// Writes a tree of the rules of numbers.
#[tactic(auto, using(crate::proofs::Mapped::mapped))]
pub fn word_into<W: TreeWriter>(
    alloc: Global,
    out: &mut W,
    tree: &Tree<Rule>,
) -> Result<(), AllocError>
    ensures { OnOk result (W.state out.new
        ≡ written W.writing (W.state out.old) (text_of (code.tree_of tree.now))) }
{
    rule_into(alloc, out, tree)
}

/// The tree of the rules of numbers that a tree is.
pub fn word_tree_at(alloc: Global, tree: &Sx, at: u32) -> Result<(Tree<Rule>, u32), TextFault>
    ensures { Gives code.tree_of result (texts.tree_at at (tree_of tree.now)) }
{
    tree_at(alloc, tree, at)
}

// Writes the list of these kinds.
fn kinds_into<W: TreeWriter>(out: &mut W, kinds: &[Kind]) -> Result<(), AllocError>
    ensures { OnOk result (W.state out.new
        ≡ written W.writing (W.state out.old) (kinds_tree (map kind_of kinds.now))) }
{
    out.enter()?;
    let mut rest = kinds;
    'kinds: while let Some((kind, others)) = rest.split_first() {
        kind_into(out, *kind)?;
        rest = others;
    }
    out.leave()
}

// The kinds that a list is.
fn kinds_at(alloc: Global, tree: &Sx, at: u32) -> Result<(Vec<Kind>, u32), TextFault>
    ensures { Gives (λ kinds. map kind_of kinds.items) result
        (texts.kinds_at at (tree_of tree.now)) }
{
    match tree.parts() {
        Some(parts) => each_kind_at(alloc, parts, next(at)),
        None => Err(TextFault::Shape(at)),
    }
}

fn each_kind_at(alloc: Global, parts: &[Sx], at: u32) -> Result<(Vec<Kind>, u32), TextFault>
    ensures { Gives (λ kinds. map kind_of kinds.items) result
        (list_at kinds.kind_at at (trees_in parts.now)) }
{
    let mut kinds = Vec::new(alloc);
    let mut here = at;
    'parts: for part in parts {
        let (kind, behind) = kind_at(part, here)?;
        kinds.push(kind)?;
        here = behind;
    }
    Ok((kinds, here))
}
