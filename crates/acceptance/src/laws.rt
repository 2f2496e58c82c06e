//! What a verdict decides.

ghost use Rattle.std.specs.Prelude.{◌≡◌, List, Result};
ghost use Rattle.expression_lang.specs.Signature.{Signature};
ghost use Rattle.simpl_lang.specs.Command.{SimplFn, SimplUnit};
ghost use Rattle.acceptance.specs.Certificate.{Steps};
ghost use Rattle.acceptance.specs.Accepted.{IsFunctionAccepted};
ghost use Rattle.acceptance.specs.Verdict.{Place, IsFunctionVerdict};
ghost use Rattle.acceptance.specs.Decided.{AreStepsAccepted, Decides};
ghost use Rattle.acceptance.specs.UnitVerdict.{UnitAnswer, IsUnitVerdict, DecidesUnit};

/// A verdict on a function decides whether its steps are accepted, and there is no other verdict. A
/// function is accepted where its steps are, and its name and its level are the certificate's.
pub fn verdicts_decide()
    ensures decided { (u : SimplUnit) (f : SimplFn) (s : Signature) (steps : Steps)
        (verdict : Result (Unit {0}) Place) → IsFunctionVerdict u f s steps verdict →
        Decides u f s steps verdict }
    ensures one { (u : SimplUnit) (f : SimplFn) (s : Signature) (steps : Steps)
        (first second : Result (Unit {0}) Place) → IsFunctionVerdict u f s steps first →
        IsFunctionVerdict u f s steps second → first ≡ second }
    ensures accepted { (u : SimplUnit) (f : SimplFn) (s : Signature) (steps : Steps) →
        steps.name ≡ f.name → steps.level ≡ f.level → AreStepsAccepted u f s steps →
        IsFunctionAccepted u f s steps }
    ensures back { (u : SimplUnit) (f : SimplFn) (s : Signature) (steps : Steps) →
        IsFunctionAccepted u f s steps → AreStepsAccepted u f s steps }
{}

/// A verdict on a unit's certificate decides whether it is accepted, and there is no other verdict.
pub fn unit_verdicts_decide()
    ensures decided { (u : SimplUnit) (certificate : List Steps) (verdict : UnitAnswer) →
        IsUnitVerdict u certificate verdict → DecidesUnit u certificate verdict }
    ensures one { (u : SimplUnit) (certificate : List Steps) (first second : UnitAnswer) →
        IsUnitVerdict u certificate first → IsUnitVerdict u certificate second → first ≡ second }
{}
