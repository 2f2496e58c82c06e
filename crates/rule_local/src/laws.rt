//! Laws of the rules, as contracts of functions that do nothing.

ghost use Rattle.std.specs.Prelude.{◌≡◌, true, List};
ghost use Rattle.c_values.specs.Name.{Name, is_among};
ghost use Rattle.expression_lang.specs.Expression.{Exp};
ghost use Rattle.expression_lang.specs.Signature.{Binder, names_of};
ghost use Rattle.simpl_lang.specs.Command.{Condition, Simpl, SimplUnit};
ghost use Rattle.simpl_lang.specs.Form.{is_flat};
ghost use Rattle.simpl_lang.specs.Names.{command_names};
ghost use Rattle.simpl_lang.specs.Sorted.{IsWellFormed};
ghost use Rattle.monad_lang.specs.Form.{is_bytes};
ghost use Rattle.monad_lang.specs.Sorted as Mon;
ghost use Rattle.monad_lang.specs.Program.{Mon, FinalUnit};
ghost use Rattle.rule_trees.specs.RuleTree.{Tree};
ghost use Rattle.rule_local.specs.Rule.{Rule, Context};
ghost use Rattle.rule_local.specs.Table.{Takes, TakesWhole, conj, is_needed};
ghost use Rattle.rule_local.specs.Assigned.{Carries};
ghost use Rattle.rule_local.specs.CommandForm.{is_bytes_command};
ghost use Rattle.rule_local.specs.Lifted.{AllFlat, handed_on, lifted, locals_lifted, unit_lifted};
ghost use Rattle.rule_local.specs.Exact.{StandsFor, StandsForWhole};
ghost use Rattle.rule_local.specs.Units.{IsUnitLiftedTo, UnitsKeepLocals};

/// What the rules take a command to stands for the command: a part from wherever both sides agree
/// on what the right side looks at, and the body of a function from its start.
pub fn taken_is_exact()
    ensures part { (ctx : Context) (t : Tree Rule) (left : Simpl) (right : Mon)
        (outputs : List Name) →
        Takes ctx t left right outputs → StandsFor ctx left right outputs }
    ensures body { (ctx : Context) (t : Tree Rule) (left : Simpl) (right : Mon)
        (outputs : List Name) →
        TakesWhole ctx t left right outputs → StandsForWhole ctx left right outputs }
{}

/// The functions of a well-formed unit of commands and of a unit of programs have the same results
/// and states, fail alike and stop alike, where the rules take each body of the one to that of the
/// other.
pub fn lifted_units_keep_locals()
    ensures { (u : SimplUnit) (v : FinalUnit) → IsWellFormed u → IsUnitLiftedTo u v →
        UnitsKeepLocals u v }
{}

/// Locals can be lifted out of every flat command: the rules take the body of a function to what it
/// is lifted to, where its names and its outputs are locals, as in a well-formed unit; and that is
/// in bytes form where the command is. What a well-formed flat unit is lifted to is well-formed,
/// and does the same.
pub fn locals_are_lifted()
    ensures taken { (ctx : Context) (a : Simpl) (outputs : List Name) → is_flat a ≡ true →
        ((x : Name) → command_names x a ≡ true → is_among x (names_of ctx.locals) ≡ true) →
        ((x : Name) → is_among x outputs ≡ true → is_among x (names_of ctx.locals) ≡ true) →
        TakesWhole ctx (locals_lifted ctx a outputs).tree a
        (locals_lifted ctx a outputs).right outputs }
    ensures bytes { (ctx : Context) (a : Simpl) (outputs : List Name) → is_bytes_command a ≡ true →
        is_bytes (locals_lifted ctx a outputs).right ≡ true }
    ensures unit { (u : SimplUnit) → IsWellFormed u → AllFlat u.functions →
        IsUnitLiftedTo u (unit_lifted u) }
    ensures formed { (u : SimplUnit) → IsWellFormed u → Mon.IsWellFormed (unit_lifted u) }
    ensures kept { (u : SimplUnit) → IsWellFormed u → AllFlat u.functions →
        UnitsKeepLocals u (unit_lifted u) }
{}

/// A loop hands on the least names that meet its condition: whatever meets it has them all.
pub fn loops_hand_on_the_least()
    ensures { (locals : List Binder) (guards : List Condition) (test : Exp) (body : Simpl)
        (outputs names : List Name) →
        Carries names body (is_needed (conj guards) test (lifted locals body names).right outputs) →
        (x : Name) →
        is_among x
        (handed_on (names_of locals) guards test body
        (λ given. (lifted locals body given).right) outputs)
        ≡ true →
        is_among x names ≡ true }
{}
