//! Lines of states: tags, globals and ranges.

ghost use Rattle.std.specs.Prelude.{◌≡◌, ◌++◌, true, OnOk, map};
ghost use Rattle.c_values.specs.CodeValue.{global_of};
ghost use Rattle.c_values.specs.Name.{are_distinct};
ghost use Rattle.c_memory.specs.CodeHeap.{memory_of};
ghost use Rattle.c_memory.specs.CodeTag.{tag_of};
ghost use Rattle.c_memory.specs.Heap.{IsHeap};
ghost use Rattle.c_memory.specs.Ranges.{run_of};
ghost use Rattle.expression_lang.specs.CodeState.{AreOfTypes, globals_of};
ghost use Rattle.expression_text.specs.Lists.{each};
ghost use Rattle.memory_text.specs.MemoryText.{is_tag};
ghost use Rattle.run_lines.specs.CodeEnds.{each_global_line, EndInSpace};
ghost use Rattle.run_lines.specs.RunLines as texts;

use crate::lines::{global_line, range_line, tag_line};
use c_memory::{ByteHeap, Heap};
use c_values::{CType, GlobalVar, Layout, Value};
use std::alloc::{AllocError, Global};
use typed_heap::TypedHeap;

/// A line for each tag.
pub(crate) fn tag_lines<H: Heap>(
    alloc: Global,
    who: &str,
    layout: &Layout,
    heap: &H,
    tags: &[(u64, CType)],
    lines: &mut Vec<u8>,
) -> Result<(), AllocError>
    requires heap { IsHeap layout.now (H.content heap.now) }
    requires tags { each (is_tag layout.now) (map tag_of tags.now) ≡ true }
    ensures { OnOk result (lines.new.items ≡ lines.old.items
        ++ texts.tag_lines who.now layout.now (H.content heap.now) (map tag_of tags.now)) }
{
    let mut rest = tags;
    'tags: while let Some(((address, ty), others)) = rest.split_first() {
        tag_line(alloc, who, layout, heap, *address, ty, lines)?;
        rest = others;
    }
    Ok(())
}

/// A line for each global, whose names are distinct.
pub(crate) fn global_lines(
    alloc: Global,
    who: &str,
    layout: &Layout,
    globals: &[GlobalVar],
    values: &[Value],
    lines: &mut Vec<u8>,
) -> Result<(), AllocError>
    requires names { are_distinct (map (λ g. g.name) (map global_of globals.now)) ≡ true }
    requires values { AreOfTypes layout.now globals.now values.now }
    ensures { OnOk result (lines.new.items ≡ lines.old.items
        ++ texts.global_lines who.now layout.now (map global_of globals.now)
        (globals_of globals.now values.now)) }
{
    each_global_line(alloc, who, layout, globals, values, lines)
}

fn each_global_line(
    alloc: Global,
    who: &str,
    layout: &Layout,
    globals: &[GlobalVar],
    values: &[Value],
    lines: &mut Vec<u8>,
) -> Result<(), AllocError>
    ensures { OnOk result (lines.new.items ≡ lines.old.items
        ++ each_global_line who.now layout.now globals.now values.now) }
{
    let mut left = values;
    let mut rest = globals;
    'globals: while let Some((global, others)) = rest.split_first() {
        let Some((value, behind)) = left.split_first() else {
            return Ok(());
        };
        global_line(alloc, who, layout, global, value, lines)?;
        left = behind;
        rest = others;
    }
    Ok(())
}

/// A line for each range.
pub(crate) fn range_lines(
    alloc: Global,
    who: &str,
    heap: &ByteHeap,
    ranges: &[(u64, Vec<u8>)],
    lines: &mut Vec<u8>,
) -> Result<(), AllocError>
    requires { EndInSpace (map run_of ranges.now) }
    ensures { OnOk result (lines.new.items ≡ lines.old.items
        ++ texts.range_lines who.now (memory_of heap.now).bytes (map run_of ranges.now)) }
{
    let mut rest = ranges;
    'left: while let Some((range, others)) = rest.split_first() {
        range_line(alloc, who, heap, range, lines)?;
        rest = others;
    }
    Ok(())
}

/// A heap that programs run on.
pub trait RunHeap: Heap {
    /// A line for each range, where the heap has bytes.
    fn bytes_lines(
        &self,
        alloc: Global,
        who: &str,
        ranges: &[(u64, Vec<u8>)],
        lines: &mut Vec<u8>,
    ) -> Result<(), AllocError>
        requires { EndInSpace (map run_of ranges.now) }
        ensures { OnOk result (lines.new.items ≡ lines.old.items
            ++ texts.bytes_lines who.now (Self.content self.now) (map run_of ranges.now)) };
}

impl RunHeap for ByteHeap {
    fn bytes_lines(
        &self,
        alloc: Global,
        who: &str,
        ranges: &[(u64, Vec<u8>)],
        lines: &mut Vec<u8>,
    ) -> Result<(), AllocError> {
        range_lines(alloc, who, self, ranges, lines)
    }
}

impl RunHeap for TypedHeap {
    fn bytes_lines(
        &self,
        _alloc: Global,
        _who: &str,
        _ranges: &[(u64, Vec<u8>)],
        _lines: &mut Vec<u8>,
    ) -> Result<(), AllocError> {
        Ok(())
    }
}
