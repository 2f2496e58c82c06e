//! A unit's certificate, one function after the other.

ghost use Rattle.std.specs.Prelude.{◌≡◌, true, map, Ok};
ghost use Rattle.expression_lang.specs.CodeExpression.{level_of};
ghost use Rattle.expression_lang.specs.CodeSignature.{signature_of};
ghost use Rattle.simpl_lang.specs.CodeCommand.{simpl_fn_of, simpl_unit_of};
ghost use Rattle.simpl_lang.specs.Sorted.{IsWellFormed, same_level};
ghost use Rattle.rule_word.specs.CodeNames.{are_results};
ghost use Rattle.acceptance.specs.CodeCertificate.{steps_of};
ghost use Rattle.acceptance.specs.CodePlace.{unit_verdict_of};
ghost use Rattle.acceptance.specs.CodeReady.{are_ready};
ghost use Rattle.acceptance.specs.UnitVerdict.{is_listed, listed, AreFunctionsVerdict, IsUnitVerdict, DecidesUnit};

use crate::certificate::Steps;
use crate::functions::check_function;
use crate::places::Refusal;
use expression_lang::{Level, Signature};
use simpl_lang::{SimplFn, SimplUnit};

/// Whether a unit's certificate is accepted, and else the first place where it isn't. No memory is
/// taken. The unit was generated at the levels of its functions.
#[tactic(auto, using(crate::proofs::UnitVerdicts::unit_verdicts_decide))]
pub fn check_functions(u: &SimplUnit, certificate: &[Steps]) -> Result<(), Refusal>
    requires { IsWellFormed (simpl_unit_of u.now) }
    ensures verdict { IsUnitVerdict (simpl_unit_of u.now) (map steps_of certificate.now)
        (unit_verdict_of result) }
    ensures decided { DecidesUnit (simpl_unit_of u.now) (map steps_of certificate.now)
        (unit_verdict_of result) }
{
    verdict_on(u, certificate)
}

// The same, by what is a verdict alone.
fn verdict_on(u: &SimplUnit, certificate: &[Steps]) -> Result<(), Refusal>
    requires { IsWellFormed (simpl_unit_of u.now) }
    ensures { IsUnitVerdict (simpl_unit_of u.now) (map steps_of certificate.now)
        (unit_verdict_of result) }
{
    match check_list(&u.functions, certificate) {
        Ok(()) => check_each(u, &u.functions, &u.signatures, certificate),
        Err(at) => Err(Refusal::List(at)),
    }
}

// Whether there are steps for each function, in the unit's order, under its name and at its level,
// and else the first position where there aren't.
fn check_list(functions: &[SimplFn], certificate: &[Steps]) -> Result<(), usize>
    ensures { result ≡ listed 0 (map simpl_fn_of functions.now) (map steps_of certificate.now) }
{
    let mut at = 0;
    let mut left = functions;
    let mut right = certificate;
    'functions: while let Some((function, functions)) = left.split_first() {
        let Some((steps, certificate)) = right.split_first() else {
            return Err(at);
        };
        if !is_listed(function, steps) {
            return Err(at);
        }
        at += 1;
        left = functions;
        right = certificate;
    }
    if right.is_empty() { Ok(()) } else { Err(at) }
}

fn is_listed(function: &SimplFn, steps: &Steps) -> bool
    ensures { result ≡ is_listed (simpl_fn_of function.now) (steps_of steps.now) }
{
    function.name.as_str() == steps.name.as_str() && same_level(function.level, steps.level)
}

fn same_level(level: Level, other: Level) -> bool
    ensures { result ≡ same_level (level_of level) (level_of other) }
{
    level == other
}

// The functions of a list that is the unit's, one after the other.
fn check_each(
    u: &SimplUnit,
    functions: &[SimplFn],
    signatures: &[Signature],
    certificate: &[Steps],
) -> Result<(), Refusal>
    requires results { are_results (simpl_unit_of u.now).signatures ≡ true }
    requires ready { are_ready (map simpl_fn_of functions.now) (map signature_of signatures.now)
        ≡ true }
    requires listed { listed 0 (map simpl_fn_of functions.now) (map steps_of certificate.now)
        ≡ Ok tt }
    ensures { AreFunctionsVerdict (simpl_unit_of u.now) 0 (map simpl_fn_of functions.now)
        (map signature_of signatures.now) (map steps_of certificate.now) (unit_verdict_of result) }
{
    let mut at = 0;
    let mut left = functions;
    let mut signed = signatures;
    let mut right = certificate;
    'functions: while let Some((function, functions)) = left.split_first() {
        let Some((signature, signatures)) = signed.split_first() else {
            unreachable!()
        };
        let Some((steps, certificate)) = right.split_first() else {
            unreachable!()
        };
        if let Err(place) = check_function(u, function, signature, steps) {
            return Err(Refusal::Function(at, place));
        }
        at += 1;
        left = functions;
        signed = signatures;
        right = certificate;
    }
    Ok(())
}
