//! The groups of lines: of a C function, of its program, and the verdict on both.

ghost use Rattle.std.specs.Prelude.{◌≡◌, ◌++◌, true, OnOk};
ghost use Rattle.std.specs.Option.{option_map};
ghost use Rattle.correspondence.specs.Outcome.{Done};
ghost use Rattle.c_values.specs.CodeValue.{value_of};
ghost use Rattle.c_memory.specs.CodeHeap.{byte_content};
ghost use Rattle.c_memory.specs.Heap.{IsHeap};
ghost use Rattle.expression_lang.specs.CodeState.{AreOfTypes, state_of};
ghost use Rattle.expression_text.specs.Row.{number_op_head};
ghost use Rattle.simpl_lang.specs.CodeCommand.{guard_kind_of};
ghost use Rattle.command_text.specs.CommandText.{guard_word};
ghost use Rattle.c_values.specs.CodeNumber.{number_op_of};
ghost use Rattle.c_lang.specs.Typed as C;
ghost use Rattle.c_lang.specs.CodeTyped.{function_of, unit_of};
ghost use Rattle.c_lang.specs.WellTyped.{IsWellTyped};
ghost use Rattle.memory_text.specs.CodeMemory.{memory_of};
ghost use Rattle.memory_text.specs.MemoryText.{Memory, is_memory};
ghost use Rattle.run_lines.specs.CodeEnds.{c_stop_of, program_stop_of, verdict_of, given};
ghost use Rattle.run_lines.specs.RunLines as texts;

use crate::ends::{CStop, ProgramStop, Verdict};
use crate::lines::result_line;
use crate::states::{RunHeap, global_lines, range_lines, tag_lines};
use crate::text::{push, push_number};
use c_lang::tree::{TypedFn, TypedUnit};
use c_memory::ByteHeap;
use c_values::{Number, NumberOp, Value};
use expression_text::Head;
use memory_text::MemoryText;
use simpl_lang::GuardKind;
use std::alloc::{AllocError, Global};

const C_WORD: &str = "c";

const PROGRAM_WORD: &str = "abstract";

const OUT_OF_TURNS: &str = " out of turns";

const DEEP: &str = " deep";

/// A C function gives a value, where it has a result, and a state.
pub fn write_c_value(
    alloc: Global,
    unit: &TypedUnit,
    function: &TypedFn,
    memory: &MemoryText,
    value: &Option<Value>,
    heap: &ByteHeap,
    globals: &[Value],
    lines: &mut Vec<u8>,
) -> Result<(), AllocError>
    requires unit { IsWellTyped (unit_of unit.now) }
    requires memory { is_memory (unit_of unit.now) (memory_of memory.now) ≡ true }
    requires heap { IsHeap unit.now.layout (byte_content heap.now) }
    requires globals { AreOfTypes unit.now.layout unit.now.globals.items globals.now }
    ensures { OnOk result (lines.new.items ≡ lines.old.items
        ++ texts.c_lines (unit_of unit.now) (function_of function.now) (memory_of memory.now)
        (Done (record {
          result = option_map value_of value.now;
          state = state_of (byte_content heap.now) unit.now.globals.items globals.now;
        }))) }
{
    result_line(alloc, C_WORD, &unit.layout, &function.result, value, lines)?;
    tag_lines(alloc, C_WORD, &unit.layout, heap, &memory.tags, lines)?;
    global_lines(alloc, C_WORD, &unit.layout, &unit.globals, globals, lines)?;
    range_lines(alloc, C_WORD, heap, &memory.bytes, lines)
}

/// A C function gives nothing.
pub fn write_c_stop(stop: CStop, lines: &mut Vec<u8>) -> Result<(), AllocError>
    ensures { (u : C.TypedUnit) (f : C.TypedFn) (m : Memory) → OnOk result (lines.new.items
        ≡ lines.old.items ++ texts.c_lines u f m (c_stop_of stop)) }
{
    push(lines, C_WORD)?;
    match stop {
        CStop::Guard(kind) => {
            push(lines, " guard ")?;
            push(lines, guard_word(kind))?;
        }
        CStop::OutOfTurns => push(lines, OUT_OF_TURNS)?,
        CStop::Deep => push(lines, DEEP)?,
    }
    push(lines, "\n")
}

fn guard_word(kind: GuardKind) -> &'static str
    ensures { result.now ≡ guard_word (guard_kind_of kind) }
{
    match kind {
        GuardKind::Div => "div",
        GuardKind::Signed => "signed",
        GuardKind::Shift => "shift",
        GuardKind::Pointer => "pointer",
        GuardKind::Bounds => "bounds",
        GuardKind::Unreached => "unreached",
        GuardKind::Tag => "tag",
        GuardKind::Wrap => "wrap",
    }
}

/// A program gives a value, where its function has a result, and a state.
pub fn write_program_value<H: RunHeap>(
    alloc: Global,
    unit: &TypedUnit,
    function: &TypedFn,
    memory: &MemoryText,
    value: &Option<Value>,
    heap: &H,
    globals: &[Value],
    lines: &mut Vec<u8>,
) -> Result<(), AllocError>
    requires unit { IsWellTyped (unit_of unit.now) }
    requires memory { is_memory (unit_of unit.now) (memory_of memory.now) ≡ true }
    requires heap { IsHeap unit.now.layout (H.content heap.now) }
    requires globals { AreOfTypes unit.now.layout unit.now.globals.items globals.now }
    ensures { OnOk result (lines.new.items ≡ lines.old.items
        ++ texts.program_lines (unit_of unit.now) (function_of function.now)
        (memory_of memory.now) (Done (record {
          values = given value.now;
          state = state_of (H.content heap.now) unit.now.globals.items globals.now;
        }))) }
{
    result_line(
        alloc,
        PROGRAM_WORD,
        &unit.layout,
        &function.result,
        value,
        lines,
    )?;
    tag_lines(alloc, PROGRAM_WORD, &unit.layout, heap, &memory.tags, lines)?;
    global_lines(
        alloc,
        PROGRAM_WORD,
        &unit.layout,
        &unit.globals,
        globals,
        lines,
    )?;
    heap.bytes_lines(alloc, PROGRAM_WORD, &memory.bytes, lines)
}

/// A program gives nothing.
pub fn write_program_stop(stop: ProgramStop, lines: &mut Vec<u8>) -> Result<(), AllocError>
    ensures { (u : C.TypedUnit) (f : C.TypedFn) (m : Memory) → OnOk result (lines.new.items
        ≡ lines.old.items ++ texts.program_lines u f m (program_stop_of stop)) }
{
    push(lines, PROGRAM_WORD)?;
    match stop {
        ProgramStop::Fails => push(lines, " fails")?,
        ProgramStop::Wide(op, first, second) => push_wide(lines, op, first, second)?,
        ProgramStop::OutOfTurns => push(lines, OUT_OF_TURNS)?,
        ProgramStop::Deep => push(lines, DEEP)?,
    }
    push(lines, "\n")
}

fn push_wide(
    lines: &mut Vec<u8>,
    op: NumberOp,
    first: Number,
    second: Number,
) -> Result<(), AllocError>
    ensures { OnOk result (lines.new.items ≡ lines.old.items ++ texts.wide_text (record {
      op = number_op_of op;
      first = first;
      second = second;
    })) }
{
    push(lines, " wide ")?;
    push(lines, operation_head(op).word())?;
    push(lines, " ")?;
    push_number(lines, first)?;
    push(lines, " ")?;
    push_number(lines, second)
}

fn operation_head(op: NumberOp) -> Head
    ensures { result ≡ number_op_head (number_op_of op) }
{
    match op {
        NumberOp::Add => Head::Add,
        NumberOp::Sub => Head::Sub,
        NumberOp::Mul => Head::Mul,
        NumberOp::Div => Head::Div,
        NumberOp::Mod => Head::Mod,
        NumberOp::Neg => Head::Neg,
    }
}

/// What is said of both.
pub fn write_verdict(verdict: Verdict, lines: &mut Vec<u8>) -> Result<(), AllocError>
    ensures { OnOk result (lines.new.items ≡ lines.old.items
        ++ (texts.verdict_text (verdict_of verdict) ++ texts.line_end)) }
{
    push(
        lines,
        match verdict {
            Verdict::Agree => "agree\n",
            Verdict::Failed => "failed\n",
            Verdict::Open => "open\n",
        },
    )
}
