//! Texts of trees of the rules of typed heaps.
ghost use Rattle.std.specs.Prelude.{◌≡◌, ℕ, Err, IfOk, IfErr};
ghost use Rattle.ac_sx.specs.CodeSx.{tree_of};
ghost use Rattle.expression_text.specs.CodeFault.{Fails};
ghost use Rattle.expression_text.specs.Answer.{IsRead, IsRefused};
ghost use Rattle.rule_trees.specs.RuleTree as rules;
ghost use Rattle.rule_heap.specs.Rule as R;
ghost use Rattle.rule_heap.specs.CodeRule as code;
ghost use Rattle.rule_text.specs.HeapText as texts;
ghost use Rattle.rule_text.specs.Answer.{IsHeapText};

use crate::heaps::{heap_into, heap_tree_at};
use ac_sx::{Sx, SxBuilder};
use expression_text::TextFault;
use rule_heap::Rule;
use rule_trees::Tree;
use std::alloc::{AllocError, Global};

/// The tree of rules whose text a tree is.
///
/// This takes stack for each level of lists in the tree.
pub fn read_heap_tree(alloc: Global, tree: &Sx) -> Result<Tree<Rule>, TextFault>
    // Ok is the tree of rules whose text the tree is, and where the tree is the text of one, it is this one, unless memory runs out.
    ensures found { IfOk result (λ x. IsHeapText (tree_of tree.now) (code.tree_of x)) }
    ensures only { (x : rules.Tree R.Rule) → IsHeapText (tree_of tree.now) x →
        IsRead code.tree_of result x }

    // An error tells the first bad node, and where there is one, it is told, unless memory runs out.
    ensures fault { IfErr result (λ fault. Fails fault (texts.tree_at 0 (tree_of tree.now))) }
    ensures shape { (at : ℕ) → texts.tree_at 0 (tree_of tree.now) ≡ Err at →
        IsRefused result at }
{
    match heap_tree_at(alloc, tree, 0) {
        Ok((rules, _behind)) => Ok(rules),
        Err(fault) => Err(fault),
    }
}

/// The text of a tree of rules, as far as it has one.
pub fn write_heap_tree(alloc: Global, rules: &Tree<Rule>) -> Result<Sx, AllocError>
    ensures { IfOk result (λ tree. tree_of tree ≡ texts.text_of (code.tree_of rules.now)) }
{
    let mut tree = SxBuilder::new(alloc);
    heap_into(alloc, &mut tree, rules)?;
    Ok(tree.finish())
}
