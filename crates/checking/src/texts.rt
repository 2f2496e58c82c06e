//! Certificates by their texts, of which one function is read at a time: whether they are accepted,
//! and their last programs.

ghost use Rattle.std.specs.Prelude.{◌≡◌, ◌<◌, ◌^◌, true, None, Some, IfOk, length, map, slice_get};
ghost use Rattle.c_values.specs.Name.{Name};
ghost use Rattle.expression_lang.specs.Sort as sorts;
ghost use Rattle.expression_lang.specs.Sort.{are_kinds};
ghost use Rattle.expression_lang.specs.Signature.{kinds_of};
ghost use Rattle.expression_lang.specs.CodeSignature.{signature_of};
ghost use Rattle.simpl_lang.specs.CodeCommand.{simpl_fn_of, simpl_unit_of};
ghost use Rattle.simpl_lang.specs.Sorted.{IsWellFormed};
ghost use Rattle.monad_lang.specs.CodeProgram.{final_fn_of, final_unit_of};
ghost use Rattle.rule_word.specs.CodeNames.{are_results};
ghost use Rattle.c_lang.specs.Typed as typed;
ghost use Rattle.c_lang.specs.WellTyped.{IsWellTyped};
ghost use Rattle.generation.specs.Generate.{generated};
ghost use Rattle.acceptance.specs.Certificate as functions;
ghost use Rattle.acceptance.specs.Accepted.{IsAccepted};
ghost use Rattle.acceptance.specs.Verdict.{IsFunctionVerdict};
ghost use Rattle.acceptance.specs.CodeOutputs.{has_result};
ghost use Rattle.acceptance.specs.CodePlace.{verdict_of};
ghost use Rattle.pipeline.specs.Units.{functions_with, last_unit, on_numbers};
ghost use Rattle.certificate_text.specs.CertificateText as texts;
ghost use Rattle.certificate_text.specs.Answer.{IsCertificateText};
ghost use Rattle.certificate_text.specs.CodeIndex.{index_in};
ghost use Rattle.certificate_text.specs.IndexAnswer.{IsIndexOf};
ghost use Rattle.checking.specs.Refused.{names_apart, AreAtLevels, IsJudged, IsAnswer, Decides};
ghost use Rattle.checking.specs.CodeRefused.{answer_of};
ghost use Rattle.checking.specs.Programs.{AreExactPrograms};

use crate::last_programs::with_functions;
use crate::names::apart;
use crate::refused::Refused;
use ac_base::{Nobody, Progress, Work};
use ac_sx::Terms;
use acceptance::{Place, check_function};
use certificate_text::{CertIndex, read_function};
use expression_lang::Signature;
use monad_lang::{FinalFn, FinalUnit};
use simpl_lang::{SimplFn, SimplUnit};
use std::alloc::{AllocError, Global};
use unit_translation::last_function;

/// Whether the certificate whose text this is, is accepted for a unit that was generated at its
/// levels, and else the first place where it isn't: the answer of `check_certificate`. The index is
/// what `scan` found in the text.
///
/// This takes memory for one function at a time, in proportion to its text.
pub fn check_text(
    alloc: Global,
    u: &SimplUnit,
    bytes: &[u8],
    index: &CertIndex,
) -> Result<Result<(), Refused>, AllocError>
    requires formed { IsWellFormed (simpl_unit_of u.now) }
    requires scanned { IsIndexOf bytes.now (index_in index.now) }
    requires short { length bytes.now < 2 ^ 32 }
    requires at_levels { (c : texts.Certificate) → IsCertificateText bytes.now c →
        AreAtLevels (simpl_unit_of u.now) c.functions }
    ensures answer { (c : texts.Certificate) → IsCertificateText bytes.now c →
        IfOk result (λ r. IsAnswer (simpl_unit_of u.now) c.functions (answer_of r)) }
    ensures decided { (c : texts.Certificate) → IsCertificateText bytes.now c →
        IfOk result (λ r. Decides (simpl_unit_of u.now) c.functions (answer_of r)) }
{
    check_telling(alloc, u, bytes, index, &Nobody)
}

/// The same, and it is told how far the check is.
pub(crate) fn check_telling<P: Progress>(
    alloc: Global,
    u: &SimplUnit,
    bytes: &[u8],
    index: &CertIndex,
    progress: &P,
) -> Result<Result<(), Refused>, AllocError>
    requires formed { IsWellFormed (simpl_unit_of u.now) }
    requires scanned { IsIndexOf bytes.now (index_in index.now) }
    requires short { length bytes.now < 2 ^ 32 }
    requires at_levels { (c : texts.Certificate) → IsCertificateText bytes.now c →
        AreAtLevels (simpl_unit_of u.now) c.functions }
    ensures answer { (c : texts.Certificate) → IsCertificateText bytes.now c →
        IfOk result (λ r. IsAnswer (simpl_unit_of u.now) c.functions (answer_of r)) }
    ensures decided { (c : texts.Certificate) → IsCertificateText bytes.now c →
        IfOk result (λ r. Decides (simpl_unit_of u.now) c.functions (answer_of r)) }
{
    match apart(&u.functions, &index.functions) {
        Some((at, _name)) => Ok(Err(Refused::at_names(at))),
        None => check_each(alloc, u, bytes, index, progress),
    }
}

// The same where the functions are the unit's, one after the other.
fn check_each<P: Progress>(
    alloc: Global,
    u: &SimplUnit,
    bytes: &[u8],
    index: &CertIndex,
    progress: &P,
) -> Result<Result<(), Refused>, AllocError>
    requires formed { IsWellFormed (simpl_unit_of u.now) }
    requires scanned { IsIndexOf bytes.now (index_in index.now) }
    requires short { length bytes.now < 2 ^ 32 }
    requires listed { (c : texts.Certificate) → IsCertificateText bytes.now c →
        names_apart (simpl_unit_of u.now) c.functions ≡ None }
    requires at_levels { (c : texts.Certificate) → IsCertificateText bytes.now c →
        AreAtLevels (simpl_unit_of u.now) c.functions }
    ensures { (c : texts.Certificate) → IsCertificateText bytes.now c →
        IfOk result (λ r. IsJudged (simpl_unit_of u.now) c.functions (answer_of r)) }
{
    let mut at = 0;
    let mut left = u.functions.as_slice();
    let mut signed = u.signatures.as_slice();
    'functions: while let Some((function, functions)) = left.split_first() {
        let Some((signature, signatures)) = signed.split_first() else {
            unreachable!()
        };
        let verdict = check_at(alloc, u, function, signature, bytes, index, at)?;
        if let Err(place) = verdict {
            return Ok(Err(Refused::at_place(at as usize, place)));
        }
        at += 1;
        progress.done(Work::Check, at as usize, u.functions.len());
        left = functions;
        signed = signatures;
    }
    Ok(Ok(()))
}

// Whether the steps of the function at a position are accepted.
fn check_at(
    alloc: Global,
    u: &SimplUnit,
    f: &SimplFn,
    s: &Signature,
    bytes: &[u8],
    index: &CertIndex,
    k: u32,
) -> Result<Result<(), Place>, AllocError>
    requires result { has_result (simpl_fn_of f.now).locals (signature_of s.now).result ≡ true }
    requires kinds { are_kinds (kinds_of (signature_of s.now).params) ≡ true }
    requires results { are_results (simpl_unit_of u.now).signatures ≡ true }
    requires scanned { IsIndexOf bytes.now (index_in index.now) }
    requires short { length bytes.now < 2 ^ 32 }
    requires within { k < length index.now.functions.items }
    ensures { (c : texts.Certificate) (steps : functions.Steps) → IsCertificateText bytes.now c →
        slice_get c.functions k ≡ Some steps →
        IfOk result (λ verdict. IsFunctionVerdict (simpl_unit_of u.now) (simpl_fn_of f.now)
        (signature_of s.now) steps (verdict_of verdict)) }
{
    let mut terms = Terms::new(alloc);
    let steps = read_function(alloc, bytes, index, k, &mut terms)?;
    Ok(check_function(u, f, s, &steps))
}

/// The unit of the last programs of the certificate whose text this is: the answer of `final_unit`.
/// The index is what `scan` found in the text.
///
/// This takes memory for one function at a time beside the programs.
pub fn final_text(
    alloc: Global,
    u: &SimplUnit,
    bytes: &[u8],
    index: &CertIndex,
) -> Result<FinalUnit, AllocError>
    requires scanned { IsIndexOf bytes.now (index_in index.now) }
    requires short { length bytes.now < 2 ^ 32 }
    ensures last { (c : texts.Certificate) → IsCertificateText bytes.now c →
        IfOk result (λ v. final_unit_of v ≡ last_unit (simpl_unit_of u.now) c.functions) }
    ensures exact { (c : texts.Certificate) → IsCertificateText bytes.now c →
        (unit : typed.TypedUnit) (levels : Name → sorts.Level) → IsWellTyped unit →
        simpl_unit_of u.now ≡ generated unit levels →
        IsAccepted (simpl_unit_of u.now) c.functions →
        IfOk result (λ v. AreExactPrograms unit levels (final_unit_of v)) }
{
    let functions = each_last(alloc, &u.signatures, bytes, index)?;
    with_functions(alloc, u, functions)
}

// Each function with its last program.
fn each_last(
    alloc: Global,
    signatures: &[Signature],
    bytes: &[u8],
    index: &CertIndex,
) -> Result<Vec<FinalFn>, AllocError>
    requires scanned { IsIndexOf bytes.now (index_in index.now) }
    requires short { length bytes.now < 2 ^ 32 }
    ensures { (c : texts.Certificate) → IsCertificateText bytes.now c →
        IfOk result (λ made. map final_fn_of made.items
        ≡ functions_with on_numbers (λ steps. steps.equal.program)
        (map signature_of signatures.now) c.functions) }
{
    let mut made = Vec::new(alloc);
    let mut at = 0;
    let mut signed = signatures;
    let mut listed = index.functions.as_slice();
    'functions: while let Some((signature, signatures)) = signed.split_first() {
        let Some((_entry, entries)) = listed.split_first() else {
            break;
        };
        made.push(last_at(alloc, signature, bytes, index, at)?)?;
        at += 1;
        signed = signatures;
        listed = entries;
    }
    Ok(made)
}

// The function at a position with its last program.
fn last_at(
    alloc: Global,
    s: &Signature,
    bytes: &[u8],
    index: &CertIndex,
    k: u32,
) -> Result<FinalFn, AllocError>
    requires scanned { IsIndexOf bytes.now (index_in index.now) }
    requires short { length bytes.now < 2 ^ 32 }
    requires within { k < length index.now.functions.items }
    ensures { (c : texts.Certificate) (steps : functions.Steps) → IsCertificateText bytes.now c →
        slice_get c.functions k ≡ Some steps → IfOk result (λ f. final_fn_of f
        ≡ on_numbers (signature_of s.now) steps.equal.program) }
{
    let mut terms = Terms::new(alloc);
    let steps = read_function(alloc, bytes, index, k, &mut terms)?;
    last_function(alloc, s, &steps.equal.program)
}
