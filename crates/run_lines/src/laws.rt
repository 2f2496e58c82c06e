//! Laws of lines: two examples.

ghost use Rattle.std.specs.Prelude.{◌≡◌, ◌++◌, codes};
ghost use Rattle.run_lines.specs.Examples.{swap_unit, swap, swap_memory, swap_end, swap_program_end, h_unit, h, h_memory, h_end, h_program_end};
ghost use Rattle.run_lines.specs.RunLines.{run_lines};

/// Two numbers in memory change places.
pub fn swapped_numbers()
    ensures { run_lines swap_unit swap swap_memory swap_end swap_program_end ≡
        codes "c value\nc at 4096 2\nc at 4100 1\nc bytes 4096 0200000001000000\n"
        ++ codes "abstract value\nabstract at 4096 2\nabstract at 4100 1\nagree\n" }
{}

/// A struct in memory has a new member, and there is a result.
pub fn changed_struct()
    ensures { run_lines h_unit h h_memory h_end h_program_end ≡
        codes "c value 1\nc at 4096 (5)\nc bytes 4096 05000000\n"
        ++ codes "abstract value 1\nabstract at 4096 (5)\nagree\n" }
{}
