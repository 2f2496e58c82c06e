//! That what the translations make has a text, as the contract of a function that does nothing.
ghost use Rattle.std.specs.Prelude.{◌≡◌, true, Bool};
ghost use Rattle.c_values.specs.Name.{Name};
ghost use Rattle.expression_lang.specs.Expression.{Exp};
ghost use Rattle.expression_lang.specs.Sort.{Level};
ghost use Rattle.simpl_lang.specs.Command.{SimplUnit};
ghost use Rattle.simpl_lang.specs.Sorted.{IsWellFormed};
ghost use Rattle.c_lang.specs.Typed.{TypedUnit};
ghost use Rattle.c_lang.specs.WellTyped.{IsWellTyped};
ghost use Rattle.generation.specs.Generate.{generated};
ghost use Rattle.pipeline.specs.Ready.{CallsLifted};
ghost use Rattle.acceptance.specs.Accepted.{IsAccepted};
ghost use Rattle.pipeline.specs.Made.{tidy_certificate};
ghost use Rattle.certificate_text.specs.CertificateText.{Version, is_certificate};
ghost use Rattle.made_texts.specs.HasTexts.{UnitHasTexts};

/// A certificate whose programs the translations made, and made tidy, has a text, where it is accepted
/// for a well-formed unit whose commands and names have texts. So has the one that is made of what
/// generation makes of a well-typed unit, whatever its levels, where a function on typed heaps calls
/// such functions alone, and what is generated has texts. Expressions are compared by any test that
/// holds of equal ones and of no others.
pub fn certificates_made_have_texts()
    ensures accepted { (same : Exp → Exp → Bool) (u : SimplUnit) (v : Version) →
        IsWellFormed u → UnitHasTexts u → IsAccepted u (tidy_certificate same u) →
        is_certificate (record { version = v; functions = tidy_certificate same u }) ≡ true }
    ensures made { (same : Exp → Exp → Bool) → ((a b : Exp) → same a b ≡ true → a ≡ b) →
        ((e : Exp) → same e e ≡ true) → (u : TypedUnit) → IsWellTyped u → (levels : Name → Level) →
        CallsLifted levels u.functions → UnitHasTexts (generated u levels) → (v : Version) →
        is_certificate (record {
          version = v;
          functions = tidy_certificate same (generated u levels);
        }) ≡ true }
{}
