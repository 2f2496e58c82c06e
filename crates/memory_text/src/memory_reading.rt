//! Trees read as memories.
ghost use Rattle.std.specs.Prelude.{◌≡◌, ◌-◌, ◌^◌, Some, min, option_map};
ghost use Rattle.ac_sx.specs.CodeSx.{tree_of, trees_in, word_in};
ghost use Rattle.c_lang.specs.CodeTyped.{unit_of};
ghost use Rattle.expression_text.specs.Reading.{made};
ghost use Rattle.expression_text.specs.CodeFault.{Gives};
ghost use Rattle.memory_text.specs.MemoryReading as reading;
ghost use Rattle.memory_text.specs.CodeMemory.{memory_of, clamped, parts_of};

use crate::call_reading::call_at;
use crate::memory::MemoryText;
use crate::numbers::count_at;
use crate::parts::parts_behind;
use crate::range_reading::ranges_at;
use crate::setting_reading::settings_at;
use crate::tag_reading::tags_at;
use ac_sx::Sx;
use c_lang::tree::TypedUnit;
use expression_text::{TextFault, next};
use std::alloc::Global;

/// The memory that a tree is. More turns than have 32 bits are as many as have.
pub(crate) fn memory_at(
    alloc: Global,
    unit: &TypedUnit,
    tree: &Sx,
    at: u32,
) -> Result<(MemoryText, u32), TextFault>
    ensures { Gives memory_of result
        (made clamped (reading.memory_at (unit_of unit.now) at (tree_of tree.now))) }
{
    let Some(parts) = parts_behind("memory", tree) else {
        return Err(TextFault::Shape(at));
    };
    match Parts::new(parts) {
        Some(parts) => memory_of_parts(alloc, unit, &parts, at),
        None => Err(TextFault::Shape(at)),
    }
}

// The parts of a memory behind its first word.
#[derive(Clone, Copy)]
struct Parts<'a> {
    version: &'a Sx,
    call: &'a Sx,
    turns: &'a Sx,
    fill: &'a Sx,
    bytes: &'a Sx,
    tags: &'a Sx,
    globals: &'a Sx,
}

impl<'a> Parts<'a> {
    fn new(parts: &'a [Sx]) -> Option<Parts<'a>>
        ensures { option_map parts_of result ≡ reading.seven_of (trees_in parts.now) }
    {
        if parts.len() != 7 {
            return None;
        }
        Some(Parts {
            version: &parts[0],
            call: &parts[1],
            turns: &parts[2],
            fill: &parts[3],
            bytes: &parts[4],
            tags: &parts[5],
            globals: &parts[6],
        })
    }
}

// The memory of these parts, in a list at a number.
fn memory_of_parts(
    alloc: Global,
    unit: &TypedUnit,
    parts: &Parts<'_>,
    at: u32,
) -> Result<(MemoryText, u32), TextFault>
    ensures { Gives memory_of result (made clamped
        (reading.memory_row (unit_of unit.now) at (Some (parts_of parts.now)))) }
{
    let ((), here) = version_at(parts.version, next(next(at)))?;
    let ((function, arguments), here) = call_at(alloc, unit, parts.call, here)?;
    let (turns, here) = count_at("turns", u128::MAX, parts.turns, here)?;
    let (fill, here) = count_at("fill", u128::from(u64::MAX), parts.fill, here)?;
    let (bytes, here) = ranges_at(alloc, &unit.layout, parts.bytes, here)?;
    let (tags, here) = tags_at(alloc, &unit.layout, parts.tags, here)?;
    let (globals, here) = settings_at(alloc, &unit.layout, &unit.globals, parts.globals, here)?;
    let memory = MemoryText {
        function,
        arguments,
        turns: turns_of(turns),
        fill: fill as u64,
        bytes,
        tags,
        globals,
    };
    Ok((memory, here))
}

// The first version of the text is the only one.
fn version_at(tree: &Sx, at: u32) -> Result<((), u32), TextFault>
    ensures { Gives (λ v. v) result (reading.version_from at (word_in (tree_of tree.now))) }
{
    match tree.word() {
        Some("1") => Ok(((), next(at))),
        _ => Err(TextFault::Shape(at)),
    }
}

// So many turns, in 32 bits.
fn turns_of(turns: u128) -> u32
    ensures { result ≡ min turns (2 ^ 32 - 1) }
{
    u32::try_from(turns).unwrap_or(u32::MAX)
}
