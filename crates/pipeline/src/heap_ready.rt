//! That generated programs are ready, as contracts of functions that do nothing: three steps, and
//! units.

ghost use Rattle.std.specs.Prelude.{◌≡◌, true, List, [], Option};
ghost use Rattle.c_values.specs.Name.{Name};
ghost use Rattle.c_values.specs.Types.{CType};
ghost use Rattle.c_values.specs.Layout.{Layout};
ghost use Rattle.expression_lang.specs.Sort.{Level, is_lifted};
ghost use Rattle.expression_lang.specs.Signature.{Binder};
ghost use Rattle.simpl_lang.specs.Command.{Condition, Simpl};
ghost use Rattle.ac_expr.specs.Fact.{Fact};
ghost use Rattle.monad_lang.specs.Program.{Mon};
ghost use Rattle.monad_lang.specs.Form.{is_bytes};
ghost use Rattle.rule_exn.specs.Eliminated.{exceptions_eliminated};
ghost use Rattle.rule_local.specs.Rule.{Context};
ghost use Rattle.rule_local.specs.Lifted.{lifted, locals_lifted};
ghost use Rattle.rule_heap.specs.HeapLifted.{IsHeapReady};
ghost use Rattle.c_lang.specs.Typed.{Statements, TypedUnit};
ghost use Rattle.c_lang.specs.WellTyped.{Scope, Around, are_statements, IsWellTyped};
ghost use Rattle.c_meaning.specs.Levels.{AreDefaultLevels};
ghost use Rattle.generation.specs.Generate.{commands, whole_body};
ghost use Rattle.pipeline.specs.CommandReady.{AllGiven, IsCommandReady};
ghost use Rattle.pipeline.specs.Ready.{CallsLifted, GeneratesReady};

/// On typed heaps, what well-typed statements are generated to is ready: the conditions of each
/// statement give what its loads and its store need.
pub fn generated_commands_are_ready()
    ensures { (g : Scope) (level : Level) → is_lifted level ≡ true →
        (around : Around) (ss : Statements) (result : Option CType) →
        are_statements g around ss ≡ true →
        IsCommandReady g.layout [] (whole_body result (commands g.layout level ss)) }
{}

/// A ready command stays ready without exceptions.
pub fn exceptions_leave_commands_ready()
    ensures { (l : Layout) (around : List Condition) (a : Simpl) →
        IsCommandReady l around a → IsCommandReady l around (exceptions_eliminated a).right }
{}

/// A ready command is lifted to a ready program: a part of a body under any facts that give the
/// conditions around it, and a body from none.
pub fn ready_commands_are_lifted_ready()
    ensures part { (l : Layout) (locals : List Binder) (around : List Condition) (a : Simpl)
        (outputs : List Name) → IsCommandReady l around a →
        (facts : List Fact) → AllGiven facts around →
        IsHeapReady l facts (lifted locals a outputs).right }
    ensures body { (l : Layout) (ctx : Context) (a : Simpl) (outputs : List Name) →
        IsCommandReady l [] a → IsHeapReady l [] (locals_lifted ctx a outputs).right }
{}

/// A ready program has no read and no write of typed heaps.
pub fn ready_programs_are_on_bytes()
    ensures { (l : Layout) (m : Mon) (facts : List Fact) → IsHeapReady l facts m →
        is_bytes m ≡ true }
{}

/// What a well-typed unit is generated to, with its exceptions eliminated and its locals lifted, is
/// ready for typed heaps at whatever levels, where a function on typed heaps calls such functions
/// alone: each of these is a program on bytes, in which each load and each store stands where it is
/// known that its root is covered and its indices are in range.
pub fn generated_units_are_ready_for_heaps()
    ensures { (u : TypedUnit) → IsWellTyped u → GeneratesReady u }
{}

/// At the levels that functions have by default, a function on typed heaps calls such functions
/// alone.
pub fn default_levels_call_lifted()
    ensures { (u : TypedUnit) (bytes words : List Name) (levels : Name → Level) → IsWellTyped u →
        AreDefaultLevels u bytes words levels → CallsLifted levels u.functions }
{}
