//! Texts of certificates, checked function by function, of which no more than an index is kept.
ghost use Rattle.std.specs.Prelude.{◌≡◌, ◌<◌, ◌^◌, ℕ, Err, IfOk, IfErr, length, map};
ghost use Rattle.ac_sx.specs.Tree.{Tree, Trees};
ghost use Rattle.ac_sx.specs.CodeSx.{first_of};
ghost use Rattle.ac_sx.specs.Front.{OpensTooDeep};
ghost use Rattle.ac_sx.specs.Spans.{parts_of};
ghost use Rattle.ac_sx.specs.Answer.{IsNoText};
ghost use Rattle.expression_text.specs.CodeFault.{Gives};
ghost use Rattle.expression_text.specs.Lists.{list_at};
ghost use Rattle.expression_text.specs.Reading.{made};
ghost use Rattle.expression_text.specs.Answer.{IsRead, IsRefused};
ghost use Rattle.certificate_text.specs.CertificateText as texts;
ghost use Rattle.certificate_text.specs.CertificateReading as reading;
ghost use Rattle.certificate_text.specs.CertificateIndex.{entry_at, entries_from, front, index_of};
ghost use Rattle.certificate_text.specs.CodeCertificate.{version_of};
ghost use Rattle.certificate_text.specs.CodeIndex.{entry_of, index_in};
ghost use Rattle.certificate_text.specs.Answer.{IsTextOf, IsCertificateText, IsFaultOf, IsRefusedAs};
ghost use Rattle.certificate_text.specs.IndexAnswer.{IsIndexOf};
ghost use Rattle.certificate_text.specs.TextParts.{IsAt, AreAt};

use crate::certificate::Version;
use crate::function_reading::function_at;
use crate::index::{CertIndex, FunEntry};
use crate::text_parts::{is_word, tree_at};
use ac_sx::{SxFault, SxPart, parts};
use c_values::Target;
use expression_text::TextFault;
use std::alloc::Global;

/// The index of the certificate whose text this is. It is refused as `read` refuses it.
///
/// This takes memory for the index and for one function at a time, and stack as `read` does.
pub fn scan(alloc: Global, bytes: &[u8]) -> Result<CertIndex, TextFault>
    requires { length bytes.now < 2 ^ 32 }

    // Ok is the index of the certificate whose text this is, and where this is the text of one, it is of this one, unless
    // memory runs out.
    ensures found { IfOk result (λ index. IsIndexOf bytes.now (index_in index)) }
    ensures only { (c : texts.Certificate) → IsCertificateText bytes.now c →
        IsRead index_in result (index_of c) }

    // An error has its cause ..
    ensures fault { IfErr result (IsFaultOf bytes.now) }

    // .. and where there is a cause, there is its error, unless memory runs out.
    ensures no_text { (at : ℕ) → IsNoText bytes.now at → IsRefusedAs result TextFault.NotText }
    ensures deep { (at : ℕ) → OpensTooDeep bytes.now at → IsRefusedAs result TextFault.Deep }
    ensures shape { (t : Tree) (at : ℕ) → IsTextOf bytes.now t → reading.certificate_at 0 t
        ≡ Err at →
        IsRefused result at }
{
    match parts(alloc, bytes) {
        Ok(parts) => {
            let (index, _behind) = index_at(alloc, bytes, &parts)?;
            Ok(index)
        }
        Err(SxFault::NotText(_)) => Err(TextFault::NotText),
        Err(SxFault::Deep(_)) => Err(TextFault::Deep),
        Err(SxFault::Memory) => Err(TextFault::Memory),
    }
}

// The index of a certificate, by the parts of its list.
fn index_at(alloc: Global, text: &[u8], parts: &[SxPart]) -> Result<(CertIndex, u32), TextFault>
    requires there { (t : Tree) × IsTextOf text.now t × (parts.now ≡ parts_of t) }
    requires room { length text.now < 2 ^ 32 }
    ensures { (t : Tree) → IsTextOf text.now t → parts.now ≡ parts_of t →
        Gives index_in result (made index_of (reading.certificate_at 0 t)) }
{
    let Some((head, others)) = parts.split_first() else {
        return Err(TextFault::Shape(0));
    };
    if is_word(text, *head, "cert") {
        index_row(alloc, text, others)
    } else {
        Err(TextFault::Shape(0))
    }
}

// The index of a certificate, by the parts behind its head.
fn index_row(alloc: Global, text: &[u8], parts: &[SxPart]) -> Result<(CertIndex, u32), TextFault>
    requires there { (ts : Trees) × AreAt text.now 6 parts.now ts }
    requires room { length text.now < 2 ^ 32 }
    ensures { (ts : Trees) → AreAt text.now 6 parts.now ts →
        Gives index_in result (made index_of (reading.certificate_row 0 (first_of ts))) }
{
    let Some((version, others)) = parts.split_first() else {
        return Err(TextFault::Shape(0));
    };
    if is_word(text, *version, "1") {
        index_from(alloc, text, Version::One, others, 3)
    } else if is_word(text, *version, "2") {
        second_index(alloc, text, others)
    } else {
        Err(TextFault::Shape(2))
    }
}

// The index of a certificate of the second version, by the parts behind that.
fn second_index(alloc: Global, text: &[u8], parts: &[SxPart]) -> Result<(CertIndex, u32), TextFault>
    requires there { (ts : Trees) × AreAt text.now 8 parts.now ts }
    requires room { length text.now < 2 ^ 32 }
    ensures { (ts : Trees) → AreAt text.now 8 parts.now ts →
        Gives index_in result (made index_of (reading.second_row 0 3 (first_of ts))) }
{
    let Some((target, others)) = parts.split_first() else {
        return Err(TextFault::Shape(0));
    };
    if is_word(text, *target, "ilp32") {
        index_from(alloc, text, Version::Two(Target::Ilp32), others, 4)
    } else if is_word(text, *target, "lp64") {
        index_from(alloc, text, Version::Two(Target::Lp64), others, 4)
    } else {
        Err(TextFault::Shape(3))
    }
}

// The index of a certificate of this version, by the parts that are its functions.
fn index_from(
    alloc: Global,
    text: &[u8],
    version: Version,
    parts: &[SxPart],
    at: u32,
) -> Result<(CertIndex, u32), TextFault>
    requires there { (ts : Trees) × AreAt text.now
        (length (front (version_of version))) parts.now ts }
    requires room { length text.now < 2 ^ 32 }
    ensures { (ts : Trees) → AreAt text.now (length (front (version_of version))) parts.now ts →
        Gives index_in result (made index_of (reading.functions_at (version_of version) at ts)) }
{
    let (functions, behind) = each_entry(alloc, text, parts, at)?;
    Ok((CertIndex { version, functions }, behind))
}

// The entries of the functions that these parts are, the first of whose nodes has this number.
fn each_entry(
    alloc: Global,
    text: &[u8],
    parts: &[SxPart],
    at: u32,
) -> Result<(Vec<FunEntry>, u32), TextFault>
    requires there { (start : ℕ) × (ts : Trees) × AreAt text.now start parts.now ts }
    requires room { length text.now < 2 ^ 32 }
    ensures { (start : ℕ) (ts : Trees) → AreAt text.now start parts.now ts →
        Gives (λ entries. map entry_of entries.items) result
        (made (entries_from start) (list_at reading.function_at at ts)) }
{
    let mut entries = Vec::new(alloc);
    let mut here = at;
    let mut rest = parts;
    'parts: while let Some((part, others)) = rest.split_first() {
        let (entry, behind) = function_entry(alloc, text, *part, here)?;
        entries.push(entry)?;
        here = behind;
        rest = others;
    }
    Ok((entries, here))
}

// The entry of the function that this part is.
fn function_entry(
    alloc: Global,
    text: &[u8],
    part: SxPart,
    at: u32,
) -> Result<(FunEntry, u32), TextFault>
    requires there { (start : ℕ) × (t : Tree) × IsAt text.now start part t }
    requires room { length text.now < 2 ^ 32 }
    ensures { (start : ℕ) (t : Tree) → IsAt text.now start part t →
        Gives entry_of result (made (entry_at start) (reading.function_at at t)) }
{
    let tree = tree_at(alloc, text, part)?;
    let (steps, behind) = function_at(alloc, &tree, at)?;
    let entry = FunEntry {
        name: steps.name.clone()?,
        level: steps.level,
        start: part.start,
        end: part.end,
    };
    Ok((entry, behind))
}
