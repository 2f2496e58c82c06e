//! A function's steps, one after the other.

ghost use Rattle.std.specs.Prelude.{◌≡◌, true};
ghost use Rattle.expression_lang.specs.Sort.{are_kinds, is_lifted};
ghost use Rattle.expression_lang.specs.Signature.{kinds_of};
ghost use Rattle.expression_lang.specs.CodeSignature.{signature_of};
ghost use Rattle.simpl_lang.specs.CodeCommand.{simpl_fn_of, simpl_unit_of};
ghost use Rattle.rule_heap.specs.CodeVerdict as heaps_verdict;
ghost use Rattle.rule_word.specs.CodeNames.{are_results};
ghost use Rattle.acceptance.specs.Certificate.{before_words};
ghost use Rattle.acceptance.specs.Accepted.{is_on_words, is_on_numbers};
ghost use Rattle.acceptance.specs.CodeOutputs.{has_result};
ghost use Rattle.acceptance.specs.CodeCertificate.{steps_of};
ghost use Rattle.acceptance.specs.CodePlace.{verdict_of};
ghost use Rattle.acceptance.specs.Decided.{Decides};
ghost use Rattle.acceptance.specs.Verdict as verdict;
ghost use Rattle.acceptance.specs.Verdict.{Before, IsDone, IsFunctionVerdict, IsExceptionVerdict, IsLocalVerdict, IsHeapVerdict, IsWordVerdict, IsEqualVerdict};

use crate::calls::calls_lifted;
use crate::certificate::{Step, Steps};
use crate::places::{Phase, Place};
use crate::steps::{check_equal, check_exceptions, check_heaps, check_locals, check_words};
use expression_lang::{Level, Signature};
use rule_trees::At;
use simpl_lang::{SimplFn, SimplUnit};

/// Whether a function's steps are accepted, and else the first place where one isn't. No memory is
/// taken. The function is one of a well-formed unit, whose body was generated at the level of its
/// steps.
pub fn check_function(u: &SimplUnit, f: &SimplFn, s: &Signature, steps: &Steps) -> Result<(), Place>
    requires result { has_result (simpl_fn_of f.now).locals (signature_of s.now).result ≡ true }
    requires kinds { are_kinds (kinds_of (signature_of s.now).params) ≡ true }
    requires results { are_results (simpl_unit_of u.now).signatures ≡ true }
    ensures verdict { IsFunctionVerdict (simpl_unit_of u.now) (simpl_fn_of f.now)
        (signature_of s.now) (steps_of steps.now) (verdict_of result) }
    ensures decided { Decides (simpl_unit_of u.now) (simpl_fn_of f.now)
        (signature_of s.now) (steps_of steps.now) (verdict_of result) }
{
    from_calls(u, f, s, steps)
}

// From the calls on, which come before the steps.
fn from_calls(u: &SimplUnit, f: &SimplFn, s: &Signature, steps: &Steps) -> Result<(), Place>
    requires result { has_result (simpl_fn_of f.now).locals (signature_of s.now).result ≡ true }
    requires kinds { are_kinds (kinds_of (signature_of s.now).params) ≡ true }
    requires results { are_results (simpl_unit_of u.now).signatures ≡ true }
    ensures { IsFunctionVerdict (simpl_unit_of u.now) (simpl_fn_of f.now) (signature_of s.now)
        (steps_of steps.now) (verdict_of result) }
{
    if calls_lifted(u, steps.level, &f.body) {
        from_exceptions(u, f, s, steps)
    } else {
        Err(Place {
            phase: Phase::Level,
            node: 0,
        })
    }
}

// From the step that takes exceptions out on.
fn from_exceptions(u: &SimplUnit, f: &SimplFn, s: &Signature, steps: &Steps) -> Result<(), Place>
    requires result { has_result (simpl_fn_of f.now).locals (signature_of s.now).result ≡ true }
    requires kinds { are_kinds (kinds_of (signature_of s.now).params) ≡ true }
    requires results { are_results (simpl_unit_of u.now).signatures ≡ true }
    ensures { let unit = simpl_unit_of u.now in let fn = simpl_fn_of f.now in
        let g = signature_of s.now in let c = steps_of steps.now in
        Before verdict.Exception (IsExceptionVerdict unit fn c)
        (Before verdict.Local (IsLocalVerdict unit fn g c)
        (Before verdict.Heap (IsHeapVerdict unit g c.local.program (is_lifted c.level) c.heap)
        (Before verdict.Word (IsWordVerdict unit g c)
        (Before verdict.Equal (IsEqualVerdict unit g c) IsDone)))) (verdict_of result) }
{
    match check_exceptions(u, f, &steps.exception.program, &steps.exception.tree) {
        Ok(()) => from_locals(u, f, s, steps),
        Err(At(node)) => Err(Place {
            phase: Phase::Exception,
            node,
        }),
    }
}

// From the step that lifts locals on.
#[tactic(auto, using(crate::proofs::Formed::is_formed))]
fn from_locals(u: &SimplUnit, f: &SimplFn, s: &Signature, steps: &Steps) -> Result<(), Place>
    requires result { has_result (simpl_fn_of f.now).locals (signature_of s.now).result ≡ true }
    requires kinds { are_kinds (kinds_of (signature_of s.now).params) ≡ true }
    requires results { are_results (simpl_unit_of u.now).signatures ≡ true }
    ensures { let unit = simpl_unit_of u.now in let fn = simpl_fn_of f.now in
        let g = signature_of s.now in let c = steps_of steps.now in
        Before verdict.Local (IsLocalVerdict unit fn g c)
        (Before verdict.Heap (IsHeapVerdict unit g c.local.program (is_lifted c.level) c.heap)
        (Before verdict.Word (IsWordVerdict unit g c)
        (Before verdict.Equal (IsEqualVerdict unit g c) IsDone))) (verdict_of result) }
{
    let left = &steps.exception.program;
    let Step { program, tree } = &steps.local;
    match check_locals(u, f, s, left, program, tree) {
        Ok(()) => from_heaps(u, s, steps),
        Err(At(node)) => Err(Place {
            phase: Phase::Local,
            node,
        }),
    }
}

// From the step to typed heaps on, which is there exactly where the function is on them.
#[tactic(auto, using(crate::proofs::Formed::is_formed))]
fn from_heaps(u: &SimplUnit, s: &Signature, steps: &Steps) -> Result<(), Place>
    requires sorted { is_on_words (simpl_unit_of u.now) (signature_of s.now)
        (steps_of steps.now).local.program ≡ true }
    requires kinds { are_kinds (kinds_of (signature_of s.now).params) ≡ true }
    requires results { are_results (simpl_unit_of u.now).signatures ≡ true }
    ensures { let unit = simpl_unit_of u.now in
        let g = signature_of s.now in let c = steps_of steps.now in
        Before verdict.Heap (IsHeapVerdict unit g c.local.program (is_lifted c.level) c.heap)
        (Before verdict.Word (IsWordVerdict unit g c)
        (Before verdict.Equal (IsEqualVerdict unit g c) IsDone)) (verdict_of result) }
{
    match check_heap(u, s, steps) {
        Ok(()) => from_words(u, s, steps),
        Err(At(node)) => Err(Place {
            phase: Phase::Heap,
            node,
        }),
    }
}

// The step to typed heaps.
fn check_heap(u: &SimplUnit, s: &Signature, steps: &Steps) -> Result<(), At>
    ensures { let c = steps_of steps.now in
        IsHeapVerdict (simpl_unit_of u.now) (signature_of s.now) c.local.program
        (is_lifted c.level) c.heap (heaps_verdict.verdict_of result) }
{
    let is_lifted = matches!(steps.level, Level::Words | Level::Numbers);
    match &steps.heap {
        Some(step) if is_lifted => {
            check_heaps(u, s, &steps.local.program, &step.program, &step.tree)
        }
        None if !is_lifted => Ok(()),
        _ => Err(At(0)),
    }
}

// From the step to numbers on.
#[tactic(auto, using(crate::proofs::Formed::is_formed))]
fn from_words(u: &SimplUnit, s: &Signature, steps: &Steps) -> Result<(), Place>
    requires sorted { is_on_words (simpl_unit_of u.now) (signature_of s.now)
        (before_words (steps_of steps.now)) ≡ true }
    requires kinds { are_kinds (kinds_of (signature_of s.now).params) ≡ true }
    requires results { are_results (simpl_unit_of u.now).signatures ≡ true }
    ensures { let unit = simpl_unit_of u.now in
        let g = signature_of s.now in let c = steps_of steps.now in
        Before verdict.Word (IsWordVerdict unit g c)
        (Before verdict.Equal (IsEqualVerdict unit g c) IsDone) (verdict_of result) }
{
    let left = steps.before_words();
    let Step { program, tree } = &steps.word;
    match check_words(u, s, steps.level, left, program, tree) {
        Ok(()) => from_equality(u, s, steps),
        Err(At(node)) => Err(Place {
            phase: Phase::Word,
            node,
        }),
    }
}

// The last step.
fn from_equality(u: &SimplUnit, s: &Signature, steps: &Steps) -> Result<(), Place>
    requires sorted { is_on_numbers (simpl_unit_of u.now) (signature_of s.now)
        (steps_of steps.now).word.program ≡ true }
    ensures { let unit = simpl_unit_of u.now in
        let g = signature_of s.now in let c = steps_of steps.now in
        Before verdict.Equal (IsEqualVerdict unit g c) IsDone (verdict_of result) }
{
    let left = &steps.word.program;
    let Step { program, tree } = &steps.equal;
    match check_equal(u, s, steps.level, left, program, tree) {
        Ok(()) => Ok(()),
        Err(At(node)) => Err(Place {
            phase: Phase::Equal,
            node,
        }),
    }
}
