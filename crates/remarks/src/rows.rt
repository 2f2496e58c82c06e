//! Worked rows of the definitions.

ghost use Rattle.remarks.specs.Rows as rows;

/// What is said of a fault, of a file, of words of no form, and of a call that did what was asked for.
pub fn worked_remarks()
    ensures call { rows.Call }
    ensures word { rows.Word }
    ensures unread { rows.Unread }
    ensures no_form { rows.NoForm }
    ensures nothing { rows.Nothing }
{}
