//! Laws of what is live, as contracts of functions that do nothing.

ghost use Rattle.std.specs.Prelude.{◌≡◌, true, List};
ghost use Rattle.c_values.specs.Name.{Name, is_among};
ghost use Rattle.expression_lang.specs.Signature.{Binder, names_of};
ghost use Rattle.simpl_lang.specs.Command.{Simpl};
ghost use Rattle.monad_lang.specs.Names.{is_free};
ghost use Rattle.rule_local.specs.Assigned.{assigns};
ghost use Rattle.rule_local.specs.Rule.{Context};
ghost use Rattle.rule_local.specs.Lifted.{lifted, locals_lifted};
ghost use Rattle.local_lift.specs.Live.{live};
ghost use Rattle.local_lift.specs.LiftedByLive.{among, whole_by_live};

/// What is live before a command is what the lifted command looks at, and so what is lifted by what
/// is live is what is lifted by what programs look at: where the command assigns locals alone.
pub fn lifted_by_live()
    ensures free { (locals : List Binder) (a : Simpl) (outputs : List Name) →
        ((y : Name) → assigns y a ≡ true → is_among y (names_of locals) ≡ true) →
        (y : Name) →
        is_free y (lifted locals a outputs).right ≡ live (names_of locals) a (among outputs) y }
    ensures whole { (ctx : Context) (a : Simpl) (outputs : List Name) →
        ((y : Name) → assigns y a ≡ true → is_among y (names_of ctx.locals) ≡ true) →
        whole_by_live ctx a outputs ≡ locals_lifted ctx a outputs }
{}
