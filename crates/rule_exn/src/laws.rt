//! Laws of the rules, as contracts of functions that do nothing.

ghost use Rattle.std.specs.Prelude.{◌≡◌, true, false, List, Some};
ghost use Rattle.expression_lang.specs.Signature.{Signature};
ghost use Rattle.expression_lang.specs.Sort.{Scope, TruthSort};
ghost use Rattle.simpl_lang.specs.Command.{Simpl, SimplUnit};
ghost use Rattle.simpl_lang.specs.Flag.{thrown_local, HasUnusedFlag};
ghost use Rattle.simpl_lang.specs.Form.{is_flat};
ghost use Rattle.simpl_lang.specs.Names.{command_names};
ghost use Rattle.simpl_lang.specs.Sorted.{is_sorted};
ghost use Rattle.rule_trees.specs.RuleTree.{Tree};
ghost use Rattle.rule_exn.specs.Rule.{Rule};
ghost use Rattle.rule_exn.specs.Table.{Takes};
ghost use Rattle.rule_exn.specs.Exact.{StandsFor};
ghost use Rattle.rule_exn.specs.Units.{IsUnitTakenTo, UnitsRunAlike};
ghost use Rattle.rule_exn.specs.Eliminated.{exceptions_eliminated};

/// What the rules take a command to stands for the command, where the command doesn't name the
/// flag.
pub fn taken_is_exact()
    ensures { (t : Tree Rule) (left right : Simpl) → Takes t left right →
        command_names thrown_local left ≡ false → StandsFor left right }
{}

/// Two units that differ in their bodies alone run alike, function by function, where the rules
/// take each body of the one to that of the other, and the flag is a local that the first unit
/// doesn't use.
pub fn taken_units_run_alike()
    ensures { (u v : SimplUnit) → HasUnusedFlag u → IsUnitTakenTo u v → UnitsRunAlike u v }
{}

/// Exceptions can be taken out of every command: the rules take it to one without throws and
/// catches, which is well-sorted where the command is and the flag is a truth value.
pub fn eliminated_is_taken()
    ensures taken { (a : Simpl) →
        Takes (exceptions_eliminated a).tree a (exceptions_eliminated a).right }
    ensures flat { (a : Simpl) → is_flat (exceptions_eliminated a).right ≡ true }
    ensures sorted { (g : Scope) (signatures : List Signature) → g.names thrown_local
        ≡ Some TruthSort →
        (a : Simpl) → is_sorted g signatures a ≡ true →
        is_sorted g signatures (exceptions_eliminated a).right ≡ true }
{}
