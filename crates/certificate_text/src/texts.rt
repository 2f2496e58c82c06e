//! Texts of certificates.
ghost use Rattle.std.specs.Prelude.{◌≡◌, ℕ, Err, IfOk, IfErr};
ghost use Rattle.ac_sx.specs.Tree.{Tree};
ghost use Rattle.ac_sx.specs.Front.{OpensTooDeep};
ghost use Rattle.ac_sx.specs.CodeSx.{tree_of};
ghost use Rattle.ac_sx.specs.Answer.{IsNoText};
ghost use Rattle.expression_text.specs.CodeFault.{Fails};
ghost use Rattle.expression_text.specs.Answer.{IsRead, IsRefused};
ghost use Rattle.certificate_text.specs.CertificateText as texts;
ghost use Rattle.certificate_text.specs.CertificateReading as reading;
ghost use Rattle.certificate_text.specs.CodeCertificate.{certificate_of};
ghost use Rattle.certificate_text.specs.Answer.{IsCertificateTree, IsTextOf, IsCertificateText, IsFaultOf, IsRefusedAs};

use crate::certificate::Certificate;
use crate::certificate_reading::certificate_at;
use ac_sx::{Sx, SxFault};
use expression_text::TextFault;
use std::alloc::Global;

/// The certificate whose text this is.
///
/// This takes stack for each level of lists in the text, of which there are 4,096 at most, and none
/// for the programs of a sequence.
pub fn read(alloc: Global, text: &[u8]) -> Result<Certificate, TextFault>
    // Ok is the certificate whose text this is, and where this is the text of one, it is this one, unless memory runs out.
    ensures found { IfOk result (λ c. IsCertificateText text.now (certificate_of c)) }
    ensures only { (c : texts.Certificate) → IsCertificateText text.now c →
        IsRead certificate_of result c }

    // An error has its cause ..
    ensures fault { IfErr result (IsFaultOf text.now) }

    // .. and where there is a cause, there is its error, unless memory runs out.
    ensures no_text { (at : ℕ) → IsNoText text.now at → IsRefusedAs result TextFault.NotText }
    ensures deep { (at : ℕ) → OpensTooDeep text.now at → IsRefusedAs result TextFault.Deep }
    ensures shape { (t : Tree) (at : ℕ) → IsTextOf text.now t → reading.certificate_at 0 t
        ≡ Err at →
        IsRefused result at }
{
    match ac_sx::read(alloc, text) {
        Ok(tree) => read_tree(alloc, &tree),
        Err(SxFault::NotText(_)) => Err(TextFault::NotText),
        Err(SxFault::Deep(_)) => Err(TextFault::Deep),
        Err(SxFault::Memory) => Err(TextFault::Memory),
    }
}

/// The certificate whose tree this is.
pub fn read_tree(alloc: Global, tree: &Sx) -> Result<Certificate, TextFault>
    // Ok is the certificate whose tree this is, and where it is the tree of one, it is this one, unless memory runs out.
    ensures found { IfOk result (λ c. IsCertificateTree (tree_of tree.now) (certificate_of c)) }
    ensures only { (c : texts.Certificate) → IsCertificateTree (tree_of tree.now) c →
        IsRead certificate_of result c }

    // An error tells the first bad node, and where there is one, it is told, unless memory runs out.
    ensures fault { IfErr result (λ fault.
        Fails fault (reading.certificate_at 0 (tree_of tree.now))) }
    ensures shape { (at : ℕ) → reading.certificate_at 0 (tree_of tree.now) ≡ Err at →
        IsRefused result at }
{
    match certificate_at(alloc, tree, 0) {
        Ok((certificate, _behind)) => Ok(certificate),
        Err(fault) => Err(fault),
    }
}
