//! Texts of triples.
ghost use Rattle.std.specs.Prelude.{◌≡◌, ℕ, List, Err, IfOk, IfErr, map};
ghost use Rattle.ac_sx.specs.Tree.{Tree};
ghost use Rattle.ac_sx.specs.Front.{OpensTooDeep};
ghost use Rattle.ac_sx.specs.CodeSx.{tree_of};
ghost use Rattle.ac_sx.specs.Answer.{IsNoText};
ghost use Rattle.expression_text.specs.CodeFault.{Fails};
ghost use Rattle.expression_text.specs.Answer.{IsRead, IsRefused};
ghost use Rattle.triple_lang.specs.Triple as plain;
ghost use Rattle.triple_lang.specs.CodeDeriv.{triple_of};
ghost use Rattle.triple_text.specs.TripleText.{triples_text};
ghost use Rattle.triple_text.specs.TripleReading as reading;
ghost use Rattle.triple_text.specs.Answer.{AreTriplesTree, IsTextOf, AreTriplesText, IsFaultOf, IsRefusedAs};

use crate::triple_reading::triples_at;
use crate::triple_writing::triples_into;
use ac_sx::{Speller, Sx, SxFault};
use expression_text::TextFault;
use std::alloc::{AllocError, Global};
use triple_lang::Triple;

/// The triples whose text this is.
///
/// This takes stack for each level of lists in the text, of which there are 4,096 at most.
pub fn read_triples(alloc: Global, bytes: &[u8]) -> Result<Vec<Triple>, TextFault>
    // Ok are the triples whose text this is, and where this is the text of some, it is these, unless memory runs out.
    ensures found { IfOk result (λ triples.
        AreTriplesText bytes.now (map triple_of triples.items)) }
    ensures only { (ts : List plain.Triple) → AreTriplesText bytes.now ts →
        IsRead (λ triples. map triple_of triples.items) result ts }

    // An error has its cause ..
    ensures fault { IfErr result (IsFaultOf bytes.now) }

    // .. and where there is a cause, there is its error, unless memory runs out.
    ensures no_text { (at : ℕ) → IsNoText bytes.now at → IsRefusedAs result TextFault.NotText }
    ensures deep { (at : ℕ) → OpensTooDeep bytes.now at → IsRefusedAs result TextFault.Deep }
    ensures shape { (t : Tree) (at : ℕ) → IsTextOf bytes.now t → reading.triples_at 0 t
        ≡ Err at →
        IsRefused result at }
{
    match ac_sx::read(alloc, bytes) {
        Ok(tree) => read_tree(alloc, &tree),
        Err(SxFault::NotText(_)) => Err(TextFault::NotText),
        Err(SxFault::Deep(_)) => Err(TextFault::Deep),
        Err(SxFault::Memory) => Err(TextFault::Memory),
    }
}

// The triples whose tree this is.
fn read_tree(alloc: Global, tree: &Sx) -> Result<Vec<Triple>, TextFault>
    ensures found { IfOk result (λ triples.
        AreTriplesTree (tree_of tree.now) (map triple_of triples.items)) }
    ensures only { (ts : List plain.Triple) → AreTriplesTree (tree_of tree.now) ts →
        IsRead (λ triples. map triple_of triples.items) result ts }
    ensures fault { IfErr result (λ fault.
        Fails fault (reading.triples_at 0 (tree_of tree.now))) }
    ensures shape { (at : ℕ) → reading.triples_at 0 (tree_of tree.now) ≡ Err at →
        IsRefused result at }
{
    match triples_at(alloc, tree, 0) {
        Ok((triples, _behind)) => Ok(triples),
        Err(fault) => Err(fault),
    }
}

/// The text of triples, with the line's end behind it.
///
/// This takes stack for each level of rules.
pub fn write_triples(alloc: Global, triples: &[Triple]) -> Result<Vec<u8>, AllocError>
    ensures { IfOk result (λ text. text.items ≡ triples_text (map triple_of triples.now)) }
{
    let mut text = Speller::new(alloc);
    triples_into(alloc, &mut text, triples)?;
    text.finish()
}
