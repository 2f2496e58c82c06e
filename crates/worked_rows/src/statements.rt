//! Statements that leave loops, switches and functions.

ghost use Rattle.std.specs.Prelude.{Some, None, pos};
ghost use Rattle.correspondence.specs.Outcome.{Turns};
ghost use Rattle.expression_lang.specs.GuardKind.{Unreached};
ghost use Rattle.c_meaning.specs.CRun.{plain};
ghost use Rattle.worked_rows.specs.Trees.{value};
ghost use Rattle.worked_rows.specs.Claims.{Returns, Undefined, Stops};
ghost use Rattle.worked_rows.specs.Statements;

/// A switch runs the group of the label, else the default group, else nothing; break ends it.
pub fn switches()
    ensures first_label { Returns plain (Statements.run Statements.without_default 1 0)
        (Some (value (pos 10))) }
    ensures broken { Returns plain (Statements.run Statements.without_default 2 0)
        (Some (value (pos 1))) }
    ensures second_label_of_a_group { Returns plain (Statements.run Statements.without_default 4 0)
        (Some (value (pos 1))) }
    ensures no_label { Returns plain (Statements.run Statements.without_default 3 0)
        (Some (value (pos 0))) }
    ensures label_before_default { Returns plain (Statements.run Statements.default_between 1 0)
        (Some (value (pos 10))) }
    ensures label_after_default { Returns plain (Statements.run Statements.default_between 3 0)
        (Some (value (pos 30))) }
    ensures default { Returns plain (Statements.run Statements.default_between 9 0)
        (Some (value (pos 20))) }
{}

/// Continue ends the body, and the step or the test comes next; break ends the innermost loop or
/// switch; a test that is false asks no turn.
pub fn loops()
    ensures for_with_continue { Returns plain (Statements.run Statements.for_with_continue 0 4)
        (Some (value (pos 3))) }
    ensures for_out_of_turns { Stops plain (Statements.run Statements.for_with_continue 0 3) Turns }
    ensures for_without_turns { Returns plain (Statements.run Statements.for_with_continue 4 0)
        (Some (value (pos 0))) }
    ensures for_with_break { Returns plain (Statements.run Statements.for_with_break 0 4)
        (Some (value (pos 3))) }
    ensures for_with_break_out_of_turns { Stops plain
        (Statements.run Statements.for_with_break 0 3) Turns }
    ensures do_with_continue { Returns plain (Statements.run Statements.do_with_continue 0 1)
        (Some (value (pos 1))) }
    ensures do_without_turns { Stops plain (Statements.run Statements.do_with_continue 0 0) Turns }
    ensures do_with_break { Returns plain (Statements.run Statements.do_with_break 0 1)
        (Some (value (pos 1))) }
    ensures inner_break { Returns plain (Statements.run Statements.inner_break 0 3)
        (Some (value (pos 2))) }
    ensures inner_break_out_of_turns { Stops plain
        (Statements.run Statements.inner_break 0 1) Turns }
    ensures break_of_a_switch { Returns plain (Statements.run Statements.switch_in_loop 1 1)
        (Some (value (pos 7))) }
    ensures continue_in_a_switch { Stops plain
        (Statements.run Statements.switch_in_loop 2 5) Turns }
    ensures no_turn { Returns plain (Statements.run Statements.no_turn 0 0) (Some (value (pos 0))) }
{}

/// The end of a function with a result isn't to be reached; that of a void function returns.
pub fn ends_of_functions()
    ensures returned { Returns plain (Statements.run Statements.without_return 1 0)
        (Some (value (pos 5))) }
    ensures reached { Undefined plain (Statements.run Statements.without_return 2 0) Unreached }
    ensures void_returned { Returns plain (Statements.run Statements.of_void 1 0) None }
    ensures void_reached { Returns plain (Statements.run Statements.of_void 2 0) None }
{}
