//! Texts of a triple and of derivations, as trees.
ghost use Rattle.std.specs.Prelude.{◌≡◌, ℕ, Err, IfOk, IfErr};
ghost use Rattle.ac_sx.specs.CodeSx.{tree_of};
ghost use Rattle.expression_text.specs.CodeFault.{Fails};
ghost use Rattle.expression_text.specs.Answer.{IsRead, IsRefused};
ghost use Rattle.rule_trees.specs.RuleTree as rules;
ghost use Rattle.triple_lang.specs.Entail as E;
ghost use Rattle.triple_lang.specs.Deriv as D;
ghost use Rattle.triple_lang.specs.Triple as plain;
ghost use Rattle.triple_lang.specs.CodeEntail as entails;
ghost use Rattle.triple_lang.specs.CodeDeriv as derivs;
ghost use Rattle.triple_lang.specs.CodeDeriv.{triple_of};
ghost use Rattle.triple_text.specs.EntailText.{entail_tree};
ghost use Rattle.triple_text.specs.DerivText.{deriv_tree};
ghost use Rattle.triple_text.specs.TripleText.{triple_tree};
ghost use Rattle.triple_text.specs.EntailReading as entail_reading;
ghost use Rattle.triple_text.specs.DerivReading as deriv_reading;
ghost use Rattle.triple_text.specs.TripleReading as triple_reading;
ghost use Rattle.triple_text.specs.Answer.{IsEntailTree, IsDerivTree, IsTripleTree};

use crate::deriv_reading::deriv_at;
use crate::deriv_writing::deriv_into;
use crate::entail_reading::entail_at;
use crate::entail_writing::entail_into;
use crate::triple_reading::triple_at;
use crate::triple_writing::triple_into;
use ac_sx::{Sx, SxBuilder};
use expression_text::TextFault;
use std::alloc::{AllocError, Global};
use triple_lang::{Deriv, Entail, Triple};

/// The triple whose text a tree is.
///
/// This takes stack for each level of lists in the tree.
pub fn read_triple(alloc: Global, tree: &Sx) -> Result<Triple, TextFault>
    // Ok is the triple whose text the tree is, and where the tree is the text of one, it is this one, unless memory runs out.
    ensures found { IfOk result (λ t. IsTripleTree (tree_of tree.now) (triple_of t)) }
    ensures only { (t : plain.Triple) → IsTripleTree (tree_of tree.now) t →
        IsRead triple_of result t }

    // An error tells the first bad node, and where there is one, it is told, unless memory runs out.
    ensures fault { IfErr result (λ fault.
        Fails fault (triple_reading.triple_at 0 (tree_of tree.now))) }
    ensures shape { (at : ℕ) → triple_reading.triple_at 0 (tree_of tree.now) ≡ Err at →
        IsRefused result at }
{
    match triple_at(alloc, tree, 0) {
        Ok((triple, _behind)) => Ok(triple),
        Err(fault) => Err(fault),
    }
}

/// The tree of a triple, which is its text where it has one.
///
/// This takes stack for each level of rules.
pub fn write_triple(alloc: Global, triple: &Triple) -> Result<Sx, AllocError>
    ensures { IfOk result (λ tree. tree_of tree ≡ triple_tree (triple_of triple.now)) }
{
    let mut tree = SxBuilder::new(alloc);
    triple_into(alloc, &mut tree, triple)?;
    Ok(tree.finish())
}

/// The derivation of a program whose text a tree is.
///
/// This takes stack for each level of lists in the tree.
pub fn read_deriv(alloc: Global, tree: &Sx) -> Result<Deriv, TextFault>
    // Ok is the derivation whose text the tree is, and where the tree is the text of one, it is this one, unless memory runs out.
    ensures found { IfOk result (λ d. IsDerivTree (tree_of tree.now) (derivs.tree_of d)) }
    ensures only { (d : rules.Tree D.Rule) → IsDerivTree (tree_of tree.now) d →
        IsRead derivs.tree_of result d }

    // An error tells the first bad node, and where there is one, it is told, unless memory runs out.
    ensures fault { IfErr result (λ fault.
        Fails fault (deriv_reading.deriv_at 0 (tree_of tree.now))) }
    ensures shape { (at : ℕ) → deriv_reading.deriv_at 0 (tree_of tree.now) ≡ Err at →
        IsRefused result at }
{
    match deriv_at(alloc, tree, 0) {
        Ok((deriv, _behind)) => Ok(Box::into_inner(deriv)),
        Err(fault) => Err(fault),
    }
}

/// The tree of a derivation of a program, which is its text where it has one.
///
/// This takes stack for each level of rules.
pub fn write_deriv(alloc: Global, deriv: &Deriv) -> Result<Sx, AllocError>
    ensures { IfOk result (λ tree. tree_of tree ≡ deriv_tree (derivs.tree_of deriv.now)) }
{
    let mut tree = SxBuilder::new(alloc);
    deriv_into(alloc, &mut tree, deriv)?;
    Ok(tree.finish())
}

/// The derivation of an assertion whose text a tree is.
///
/// This takes stack for each level of lists in the tree.
pub fn read_entail(alloc: Global, tree: &Sx) -> Result<Entail, TextFault>
    // Ok is the derivation whose text the tree is, and where the tree is the text of one, it is this one, unless memory runs out.
    ensures found { IfOk result (λ e. IsEntailTree (tree_of tree.now) (entails.tree_of e)) }
    ensures only { (e : rules.Tree E.Rule) → IsEntailTree (tree_of tree.now) e →
        IsRead entails.tree_of result e }

    // An error tells the first bad node, and where there is one, it is told, unless memory runs out.
    ensures fault { IfErr result (λ fault.
        Fails fault (entail_reading.entail_at 0 (tree_of tree.now))) }
    ensures shape { (at : ℕ) → entail_reading.entail_at 0 (tree_of tree.now) ≡ Err at →
        IsRefused result at }
{
    match entail_at(alloc, tree, 0) {
        Ok((entail, _behind)) => Ok(Box::into_inner(entail)),
        Err(fault) => Err(fault),
    }
}

/// The tree of a derivation of an assertion, which is its text where it has one.
///
/// This takes stack for each level of rules.
pub fn write_entail(alloc: Global, entail: &Entail) -> Result<Sx, AllocError>
    ensures { IfOk result (λ tree. tree_of tree ≡ entail_tree (entails.tree_of entail.now)) }
{
    let mut tree = SxBuilder::new(alloc);
    entail_into(alloc, &mut tree, entail)?;
    Ok(tree.finish())
}
