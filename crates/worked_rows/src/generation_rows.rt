//! The table of generation, row by row.

ghost use Rattle.worked_rows.specs.ExpressionRows as rows;
ghost use Rattle.worked_rows.specs.StatementRows as commands;
ghost use Rattle.worked_rows.specs.GeneratedFind as find;

/// What stands for an expression, and what has to hold before it has a value.
pub fn expressions()
    ensures constants { rows.Constants }
    ensures conversions { rows.Conversions }
    ensures unsigned_arithmetic { rows.UnsignedArithmetic }
    ensures signed_arithmetic { rows.SignedArithmetic }
    ensures quotients { rows.Quotients }
    ensures shifts { rows.Shifts }
    ensures bits { rows.Bits }
    ensures moves { rows.Moves }
    ensures places { rows.Places }
    ensures globals { rows.Globals }
    ensures addresses { rows.Addresses }
    ensures comparisons { rows.Comparisons }
    ensures truths { rows.Truths }
    ensures conditional { rows.Conditional }
{}

/// The command of a statement.
pub fn statements()
    ensures lists { commands.Lists }
    ensures assignments { commands.Assignments }
    ensures calls { commands.Calls }
    ensures jumps { commands.Jumps }
    ensures choices { commands.Choices }
    ensures loops { commands.Loops }
    ensures switches { commands.Switches }
{}

/// The bodies and the locals of functions, and how many commands there are.
pub fn functions()
    ensures bodies { commands.Bodies }
    ensures locals { commands.Locals }
    ensures names { commands.Names }
    ensures counts { commands.Counts }
{}

/// A function that looks for a number in an array: a loop with a return in it.
pub fn find()
    ensures { find.Shown }
{}
