//! Laws of the rules, as contracts of functions that do nothing.

ghost use Rattle.std.specs.Prelude.{◌≡◌, true, List, Option, Some};
ghost use Rattle.c_values.specs.Name.{Name};
ghost use Rattle.c_values.specs.Layout.{Layout};
ghost use Rattle.expression_lang.specs.Sort.{Level, Scalar, is_lifted, sort_of_kind};
ghost use Rattle.ac_expr.specs.Fact.{Fact};
ghost use Rattle.monad_lang.specs.Program.{Mon, FinalUnit};
ghost use Rattle.monad_lang.specs.Form.{is_bytes, is_heaps};
ghost use Rattle.monad_lang.specs.Sorted.{Setting, scalars_given, IsWellFormed};
ghost use Rattle.program_facts.specs.Lasting.{setting_in};
ghost use Rattle.rule_trees.specs.RuleTree.{Tree};
ghost use Rattle.rule_heap.specs.Rule.{Rule};
ghost use Rattle.rule_heap.specs.Table.{Takes};
ghost use Rattle.monad_lang.specs.Calls.{calls_only};
ghost use Rattle.rule_heap.specs.Exact.{StandsFor};
ghost use Rattle.rule_heap.specs.HeapLifted.{on_heaps, heap_tree, IsHeapReady, unit_on_heaps, AreFunctionsReady};
ghost use Rattle.rule_heap.specs.Units.{IsUnitTakenTo, UnitsKeepHeaps};

/// What the rules take a well-sorted program on bytes of a well-formed unit to stands for it, where
/// it calls lifted functions alone: from the view of the bytes and from one heap, where the facts
/// hold; and it is steady.
pub fn taken_stands_for()
    ensures { (u : FinalUnit) (levels : Name → Level) → IsWellFormed u →
        (facts : List Fact) (names : Name → Option Scalar) (given : List Scalar) (t : Tree Rule)
        (left right : Mon) → Takes u.layout facts t left right → is_bytes left ≡ true →
        scalars_given (setting_in sort_of_kind u names) left ≡ Some given →
        calls_only (λ f. is_lifted (levels f)) left ≡ true →
        StandsFor u levels facts names left right }
{}

/// The functions of a well-formed unit of programs on bytes and of a unit of programs on typed
/// heaps have the same results on the heaps of their levels, fail alike and stop alike, where the
/// rules take each lifted body of the one to that of the other.
pub fn units_taken_keep_heaps()
    ensures { (levels : Name → Level) (u v : FinalUnit) → IsWellFormed u →
        IsUnitTakenTo levels u v → UnitsKeepHeaps levels u v }
{}

/// Loads become reads and stores writes in every ready program: the rules take it to what it is
/// lifted to, under its facts. Every lifted program is in heaps form and gives the scalars that it
/// gave. What a well-formed ready unit is lifted to is well-formed, and does the same.
pub fn programs_are_lifted_to_heaps()
    ensures taken { (l : Layout) (m : Mon) (facts : List Fact) → IsHeapReady l facts m →
        Takes l facts (heap_tree m) m (on_heaps m) }
    ensures form { (m : Mon) → is_heaps (on_heaps m) ≡ true }
    ensures sorts { (t : Setting) (m : Mon) → scalars_given t (on_heaps m) ≡ scalars_given t m }
    ensures formed { (u : FinalUnit) → IsWellFormed u → IsWellFormed (unit_on_heaps u) }
    ensures unit { (levels : Name → Level) (u : FinalUnit) →
        AreFunctionsReady u.layout levels u.functions → IsUnitTakenTo levels u (unit_on_heaps u) }
    ensures kept { (levels : Name → Level) (u : FinalUnit) → IsWellFormed u →
        AreFunctionsReady u.layout levels u.functions → UnitsKeepHeaps levels u (unit_on_heaps u) }
{}
