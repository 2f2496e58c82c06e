//! What generated Simpl has of the C that it is generated for, as contracts of functions that do
//! nothing.

ghost use Rattle.std.specs.Prelude.{◌≡◌, ℕ, Option, Some, true};
ghost use Rattle.std.specs.List.{list_all};
ghost use Rattle.correspondence.specs.Outcome.{Done};
ghost use Rattle.correspondence.specs.Corresponds.{Corresponds};
ghost use Rattle.c_values.specs.Name.{Name, are_distinct};
ghost use Rattle.c_values.specs.Choice.{Choice};
ghost use Rattle.expression_lang.specs.Sort.{Level};
ghost use Rattle.expression_lang.specs.Signature.{Invocation, names_of};
ghost use Rattle.expression_lang.specs.Machine.{Returned};
ghost use Rattle.simpl_lang.specs.Exec.{simpl_runs};
ghost use Rattle.simpl_lang.specs.Flag.{HasUnusedFlag};
ghost use Rattle.c_lang.specs.Typed.{TypedFn, TypedUnit, typed_fn};
ghost use Rattle.c_lang.specs.WellTyped.{IsWellTyped};
ghost use Rattle.c_meaning.specs.CRun.{c_runs};
ghost use Rattle.generation.specs.Generate.{generated};
ghost use Rattle.generation.specs.WellFormed.{GeneratesWellFormed};
ghost use Rattle.c_meaning.specs.Fitting.{AreOfTypes, IsReturned};
ghost use Rattle.expression_lang.specs.States.{IsState};

/// The Simpl program of a well-typed unit has exactly the ends of the C functions, whatever the
/// levels watch: at every bound and every limit of nested calls, from every state that can be and
/// arguments of the parameters' types, it gives what the C function gives, fails by the kind of the
/// C function's first undefined step, and stops where that one stops. What a function gives is of
/// its result's type, in a state that can be.
pub fn generated_has_the_same_ends()
    ensures ends { (u : TypedUnit) → IsWellTyped u →
        (levels : Name → Level) (p : Choice) (n : ℕ) (depth : Option ℕ) (c : Invocation)
        (f : TypedFn) →
        typed_fn u.functions c.name ≡ Some f → AreOfTypes u.layout f.params c.arguments →
        IsState u.layout u.globals c.state →
        Corresponds (λ a b. b ≡ a) (λ k j. j ≡ k) (c_runs u levels p n depth c)
        (simpl_runs (generated u levels) p n depth c) }
    ensures results { (u : TypedUnit) → IsWellTyped u →
        (levels : Name → Level) (p : Choice) (n : ℕ) (depth : Option ℕ) (c : Invocation)
        (f : TypedFn) →
        typed_fn u.functions c.name ≡ Some f → AreOfTypes u.layout f.params c.arguments →
        IsState u.layout u.globals c.state →
        (r : Returned) → c_runs u levels p n depth c (Done r) →
        IsReturned u.layout u.globals f.result r }
{}

/// Every function of the Simpl program of a well-typed unit has the flag as a local, and no command
/// or parameter has its name: so it is free to stand for an exception.
pub fn generated_units_leave_the_flag()
    ensures { (u : TypedUnit) → IsWellTyped u → (levels : Name → Level) →
        HasUnusedFlag (generated u levels) }
{}

/// The locals of each function of a generated unit have different names. Those of the text have
/// names of their own, and those that are added for calls, switches and do-whiles are told apart by
/// their numbers.
pub fn generated_locals_are_different()
    ensures { (u : TypedUnit) → IsWellTyped u → (levels : Name → Level) →
        list_all (λ f. are_distinct (names_of f.locals)) (generated u levels).functions ≡ true }
{}

/// The Simpl program of a well-typed unit is well-formed: names are different, each expression and
/// each place of each body has the sort that is asked there, the signatures are those of the
/// functions, and each call is of one of these, with arguments that fit and a local for the result.
pub fn generated_units_are_well_formed()
    ensures { (u : TypedUnit) → IsWellTyped u → GeneratesWellFormed u }
{}
