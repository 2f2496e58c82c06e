//! Expressions on what stands for words, with the trees of rules that lead there, and how a word's
//! number is seen another way.

ghost use Rattle.std.specs.Prelude.{◌≡◌, IfOk};
ghost use Rattle.expression_lang.specs.Expression as plain;
ghost use Rattle.expression_lang.specs.CodeExpression.{exp_of, kind_of};
ghost use Rattle.rule_trees.specs.RuleTree as trees;
ghost use Rattle.rule_trees.specs.RuleTree.{no_trees};
ghost use Rattle.rule_word.specs.Rule as rules;
ghost use Rattle.rule_word.specs.WordsAbstracted.{made, one};
ghost use Rattle.rule_word.specs.CodeRule.{rule_of, tree_of};
ghost use Rattle.word_abstract.specs.CodeMeaning.{to_natural, to_integer, seen_at, constant_seen, zero_extended, extended_seen, chosen};
ghost use Rattle.word_abstract.specs.CodeTrees.{with_trees};
ghost use Rattle.word_abstract.specs.CodeViews.{seen_of, base_of};
ghost use Rattle.word_abstract.specs.CodeAbstracted.{abstracted_in};

use crate::trees::{alone, and_then, over};
use crate::views::{Base, Seen};
use c_values::{Number, Word, int, nat};
use expression_lang::{Exp, Kind, boxed};
use rule_trees::Tree;
use rule_word::Rule;
use std::alloc::{AllocError, Global};

/// An expression on the right, and the tree of rules that takes another to it.
#[derive(Drop)]
pub(crate) struct Abstracted {
    pub(crate) right: Box<Exp>,
    pub(crate) tree: Tree<Rule>,
}

/// An expression by a rule over these trees.
pub(crate) fn made(
    alloc: Global,
    rule: Rule,
    right: Exp,
    parts: Vec<Tree<Rule>>,
) -> Result<Abstracted, AllocError>
    ensures { IfOk result (λ x. abstracted_in x
        ≡ made (rule_of rule) (exp_of right) (with_trees parts.items no_trees)) }
{
    let right = boxed(alloc, right)?;
    Ok(Abstracted {
        right,
        tree: over(rule, parts),
    })
}

/// Without parts.
pub(crate) fn leaf(alloc: Global, rule: Rule, right: Exp) -> Result<Abstracted, AllocError>
    ensures { IfOk result (λ x. abstracted_in x ≡ made (rule_of rule) (exp_of right) no_trees) }
{
    made(alloc, rule, right, Vec::new(alloc))
}

/// By a rule over one tree.
pub(crate) fn over_one(
    alloc: Global,
    rule: Rule,
    right: Exp,
    part: Tree<Rule>,
) -> Result<Abstracted, AllocError>
    ensures { IfOk result (λ x. abstracted_in x
        ≡ made (rule_of rule) (exp_of right) (trees.tree (tree_of part) no_trees)) }
{
    let parts = alone(alloc, part)?;
    made(alloc, rule, right, parts)
}

/// By a rule over two trees.
pub(crate) fn over_two(
    alloc: Global,
    rule: Rule,
    right: Exp,
    first: Tree<Rule>,
    last: Tree<Rule>,
) -> Result<Abstracted, AllocError>
    ensures { IfOk result (λ x. abstracted_in x
        ≡ made (rule_of rule) (exp_of right)
        (trees.tree (tree_of first) (trees.tree (tree_of last) no_trees))) }
{
    let parts = and_then(alone(alloc, first)?, last)?;
    made(alloc, rule, right, parts)
}

// The number as the word that it stands for.
fn as_word(alloc: Global, kind: Kind, width: u8, x: Abstracted) -> Result<Abstracted, AllocError>
    ensures { IfOk result (λ word. abstracted_in word
        ≡ made (rules.Word (kind_of kind)) (plain.ToWord width (abstracted_in x).right)
        (one (abstracted_in x))) }
{
    let Abstracted { right, tree } = x;
    over_one(alloc, Rule::Word(kind), Exp::ToWord(width, right), tree)
}

// The unsigned value of a word.
fn to_natural(alloc: Global, x: Abstracted) -> Result<Abstracted, AllocError>
    ensures { IfOk result (λ new. abstracted_in new ≡ to_natural (abstracted_in x)) }
{
    let Abstracted { right, tree } = x;
    over_one(alloc, Rule::Unat, Exp::ToNat(right), tree)
}

// The signed value of a word.
fn to_integer(alloc: Global, x: Abstracted) -> Result<Abstracted, AllocError>
    ensures { IfOk result (λ new. abstracted_in new ≡ to_integer (abstracted_in x)) }
{
    let Abstracted { right, tree } = x;
    over_one(alloc, Rule::Sint, Exp::ToInt(right), tree)
}

/// What stands for a word of the width at a base, seen so.
pub(crate) fn seen_at(
    alloc: Global,
    base: Base,
    width: u8,
    view: Seen,
    x: Abstracted,
) -> Result<Abstracted, AllocError>
    ensures { IfOk result (λ new.
        abstracted_in new ≡ seen_at (base_of base) width (seen_of view) (abstracted_in x)) }
{
    match base {
        Base::Words => match view {
            Seen::AsWord => Ok(x),
            Seen::AsNatural => to_natural(alloc, x),
            Seen::AsInteger => to_integer(alloc, x),
        },
        Base::Naturals => match view {
            Seen::AsWord => as_word(alloc, Kind::Nat(width), width, x),
            Seen::AsNatural => Ok(x),
            Seen::AsInteger => { to_integer(alloc, as_word(alloc, Kind::Nat(width), width, x)?) }
        },
        Base::Integers => match view {
            Seen::AsWord => as_word(alloc, Kind::Int(width), width, x),
            Seen::AsNatural => { to_natural(alloc, as_word(alloc, Kind::Int(width), width, x)?) }
            Seen::AsInteger => Ok(x),
        },
    }
}

/// A word's constant, seen so.
pub(crate) fn constant_seen(alloc: Global, view: Seen, word: Word) -> Result<Abstracted, AllocError>
    ensures { IfOk result (λ new. abstracted_in new ≡ constant_seen (seen_of view) word) }
{
    match view {
        Seen::AsWord => leaf(alloc, Rule::Const, Exp::Word(word)),
        Seen::AsNatural => leaf(alloc, Rule::Const, Exp::Number(nat(word))),
        Seen::AsInteger => leaf(alloc, Rule::Const, Exp::Number(int(word))),
    }
}

// A word that is extended by its unsigned value.
fn zero_extended(alloc: Global, x: Abstracted) -> Result<Abstracted, AllocError>
    ensures { IfOk result (λ new. abstracted_in new ≡ zero_extended (abstracted_in x)) }
{
    let Abstracted { right, tree } = x;
    Ok(Abstracted {
        right,
        tree: over(Rule::Zext, alone(alloc, tree)?),
    })
}

/// A word that is extended to the width, of the number that its operand stands for, seen so.
pub(crate) fn extended_seen(
    alloc: Global,
    view: Seen,
    width: u8,
    x: Abstracted,
) -> Result<Abstracted, AllocError>
    ensures { IfOk result (λ new.
        abstracted_in new ≡ extended_seen (seen_of view) width (abstracted_in x)) }
{
    let extended = zero_extended(alloc, x)?;
    match view {
        Seen::AsWord => as_word(alloc, Kind::Nat(width), width, extended),
        Seen::AsNatural | Seen::AsInteger => Ok(extended),
    }
}

/// The second where the first holds, else the third.
pub(crate) fn chosen(
    alloc: Global,
    test: Abstracted,
    first: Abstracted,
    last: Abstracted,
) -> Result<Abstracted, AllocError>
    ensures { IfOk result (λ new. abstracted_in new
        ≡ chosen (abstracted_in test) (abstracted_in first) (abstracted_in last)) }
{
    let Abstracted { right: c, tree: r } = test;
    let Abstracted { right: a, tree: s } = first;
    let Abstracted { right: b, tree: t } = last;
    let parts = and_then(and_then(alone(alloc, r)?, s)?, t)?;
    made(alloc, Rule::Cond, Exp::If(c, a, b), parts)
}
