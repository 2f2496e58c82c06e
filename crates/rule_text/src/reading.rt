//! Trees read as trees of rules.

ghost use Rattle.std.specs.Prelude.{◌≡◌, ◌≤◌, IfOk, IfSome, option_map};
ghost use Rattle.ac_sx.specs.Tree.{all_nodes};
ghost use Rattle.ac_sx.specs.CodeSx.{tree_of, trees_in};
ghost use Rattle.expression_text.specs.CodeFault.{Gives};
ghost use Rattle.rule_trees.specs.CodeTree as code;
ghost use Rattle.rule_text.specs.RuleReading.{Words, leaf_at, tree_at};
ghost use Rattle.rule_text.specs.CodeReading.{front_at};

use crate::arity::Arity;
use ac_sx::{Sx, first, headed};
use expression_text::{TextFault, next};
use rule_trees::Tree;
use std::alloc::Global;

/// Rules that are read by their words.
pub(crate) trait RuleReading: Drop {
    ghost Plain: { Type 0 };

    ghost plain_of: { Self → Plain };

    ghost words: { Words Plain };

    /// The rule without data that a word is.
    fn plain(word: &str) -> Option<Self>
        ensures { option_map plain_of result ≡ words.plain word.now };

    /// How many parts it may have.
    fn arity(&self) -> Arity
        ensures { result ≡ words.arity (plain_of self.now) };

    /// How many parts the rule may have that begins with a word and data behind it.
    fn given(word: &str) -> Option<Arity>
        ensures { result ≡ option_map (λ g. g.arity) (words.given word.now) };

    /// This rule.
    fn read_given(alloc: Global, word: &str, part: &Sx, at: u32) -> Result<(Self, u32), TextFault>
        ensures { IfSome (words.given word.now) (λ g.
            Gives plain_of result (g.read at (tree_of part.now))) };
}

/// The tree of rules that a tree is.
pub(crate) fn tree_at<R: RuleReading>(
    alloc: Global,
    tree: &Sx,
    at: u32,
) -> Result<(Tree<R>, u32), TextFault>
    ensures { Gives (code.tree_of (R.plain_of)) result
        (tree_at (R.words) at (tree_of tree.now)) }
{
    if let Some(word) = tree.word() {
        return leaf_at(alloc, word, at);
    }
    let Some((word, parts)) = headed(tree) else {
        return Err(TextFault::Shape(at));
    };
    let ((rule, others), inner) = front_at(alloc, word, parts, at)?;
    let mut parts = Vec::new(alloc);
    let mut here = inner;
    let mut rest = others;
    'parts: while let Some((part, others)) = first(rest) {
        let (part, behind) = tree_at(alloc, part, here)?;
        parts.push(part)?;
        here = behind;
        rest = others;
    }
    Ok((Tree { rule, parts }, here))
}

// The rule without data and parts that a word is.
fn leaf_at<R: RuleReading>(alloc: Global, word: &str, at: u32) -> Result<(Tree<R>, u32), TextFault>
    ensures { Gives (code.tree_of (R.plain_of)) result
        (leaf_at (R.words) at (R.words.plain word.now)) }
{
    let Some(rule) = R::plain(word) else {
        return Err(TextFault::Shape(at));
    };
    if !rule.arity().fits(0) {
        return Err(TextFault::Shape(at));
    }
    let parts = Vec::new(alloc);
    Ok((Tree { rule, parts }, next(at)))
}

// The rule that a list of a word and these parts begins with, and the trees of the rule's parts.
fn front_at<'a, R: RuleReading>(
    alloc: Global,
    word: &str,
    parts: &'a [Sx],
    at: u32,
) -> Result<((R, &'a [Sx]), u32), TextFault>
    ensures read { Gives (λ x. (R.plain_of x.0, trees_in x.1.now)) result
        (front_at (R.words) at word.now (trees_in parts.now)) }
    ensures smaller { IfOk result (λ x.
        all_nodes (trees_in x.0.1.now) ≤ all_nodes (trees_in parts.now)) }
{
    let Some((data, others)) = first(parts) else {
        return Err(TextFault::Shape(at));
    };
    let inner = next(next(at));
    if let Some(rule) = R::plain(word) {
        if rule.arity().fits(parts.len()) {
            return Ok(((rule, parts), inner));
        }
        return Err(TextFault::Shape(at));
    }
    let Some(arity) = R::given(word) else {
        return Err(TextFault::Shape(at));
    };
    if !arity.fits(others.len()) {
        return Err(TextFault::Shape(at));
    }
    let (rule, behind) = R::read_given(alloc, word, data, inner)?;
    Ok(((rule, others), behind))
}
