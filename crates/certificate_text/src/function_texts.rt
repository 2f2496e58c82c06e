//! Single functions of a certificate, read from its text.
ghost use Rattle.std.specs.Prelude.{◌≡◌, ◌+◌, ◌<◌, ◌≤◌, ◌^◌, true, Some, IfOk, length, slice_get};
ghost use Rattle.ac_sx.specs.Table.{Keeps};
ghost use Rattle.ac_sx.specs.CodeSx.{tree_of};
ghost use Rattle.acceptance.specs.Certificate as functions;
ghost use Rattle.acceptance.specs.CodeCertificate.{steps_of};
ghost use Rattle.certificate_text.specs.CertificateText as texts;
ghost use Rattle.certificate_text.specs.CodeIndex.{index_in};
ghost use Rattle.certificate_text.specs.Answer.{IsCertificateText};
ghost use Rattle.certificate_text.specs.IndexAnswer.{IsIndexOf};

use crate::function_reading::function_at;
use crate::index::CertIndex;
use crate::text_parts::spelt_tree;
use ac_sx::{Sx, Terms};
use expression_text::TextFault;
use std::alloc::{AllocError, Global};

/// The name, the level, the programs and the trees of one function.
pub use acceptance::Steps as FunCert;

/// The function of this position in the certificate whose text this is, by the index that `scan` found in the text. What its
/// tree shares with trees of the table isn't put there again.
///
/// This takes memory in proportion to the function's text, and stack as `read` does.
pub fn read_function(
    alloc: Global,
    bytes: &[u8],
    index: &CertIndex,
    k: u32,
    terms: &mut Terms,
) -> Result<FunCert, AllocError>
    requires scanned { IsIndexOf bytes.now (index_in index.now) }
    requires within { k < length index.now.functions.items }
    requires room { length terms.old + length bytes.now < 2 ^ 32 }
    ensures found { (c : texts.Certificate) → IsCertificateText bytes.now c →
        IfOk result (λ function. slice_get c.functions k ≡ Some (steps_of function)) }

    // What was in the table keeps its number, in every case, and no more is put than there are bytes.
    ensures kept { Keeps terms.old terms.new }
    ensures len { length terms.new ≤ length terms.old + length bytes.now }
{
    let entry = &index.functions[k as usize];
    let tree = spelt_tree(
        alloc,
        &bytes[entry.start as usize..entry.end as usize],
        terms,
    )?;
    function_in(alloc, &tree)
}

// The function whose tree this is.
#[tactic(auto, using(crate::proofs::Located::function_told))]
fn function_in(alloc: Global, tree: &Sx) -> Result<FunCert, AllocError>
    requires { (c : functions.Steps) × (texts.is_function c ≡ true)
        × (tree_of tree.now ≡ texts.function_tree c) }
    ensures { (c : functions.Steps) → texts.is_function c ≡ true →
        tree_of tree.now ≡ texts.function_tree c → IfOk result (λ function. steps_of function ≡ c) }
{
    match function_at(alloc, tree, 0) {
        Ok((function, _behind)) => Ok(function),
        Err(TextFault::Memory) => Err(AllocError),
        Err(_) => unreachable!(),
    }
}
