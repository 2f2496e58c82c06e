//! Lines of one value, and of the bytes of one range.

ghost use Rattle.std.specs.Prelude.{◌≡◌, ◌+◌, ◌^◌, ◌<◌, ◌≤◌, ◌++◌, [], true, OnOk, IfOk, length, codes};
ghost use Rattle.std.specs.Option.{option_map};
ghost use Rattle.c_values.specs.CodeTypes.{type_of};
ghost use Rattle.c_values.specs.CodeValue.{value_of, global_of};
ghost use Rattle.c_values.specs.Layout.{is_object, space};
ghost use Rattle.c_memory.specs.CodeHeap.{memory_of};
ghost use Rattle.c_memory.specs.Heap.{IsHeap};
ghost use Rattle.c_memory.specs.Ranges.{run_of};
ghost use Rattle.run_lines.specs.RunLines as texts;
ghost use Rattle.run_lines.specs.Shown.{value_text};

use crate::text::{push, push_natural};
use crate::values::push_value;
use c_memory::{ByteHeap, Heap};
use c_values::{CType, GlobalVar, Layout, Value};
use std::alloc::{AllocError, Global};

/// What a function gives.
pub(crate) fn result_line(
    alloc: Global,
    who: &str,
    layout: &Layout,
    ty: &Option<CType>,
    value: &Option<Value>,
    lines: &mut Vec<u8>,
) -> Result<(), AllocError>
    ensures { OnOk result (lines.new.items ≡ lines.old.items
        ++ texts.result_line who.now layout.now (option_map type_of ty.now)
        (option_map value_of value.now)) }
{
    push(lines, who)?;
    push(lines, " value")?;
    push_result(alloc, layout, ty, value, lines)?;
    push(lines, "\n")
}

fn push_result(
    alloc: Global,
    layout: &Layout,
    ty: &Option<CType>,
    value: &Option<Value>,
    lines: &mut Vec<u8>,
) -> Result<(), AllocError>
    ensures { OnOk result (lines.new.items ≡ lines.old.items
        ++ texts.result_text layout.now (option_map type_of ty.now)
        (option_map value_of value.now)) }
{
    let Some(ty) = ty else {
        return Ok(());
    };
    let Some(value) = value else {
        return Ok(());
    };
    push(lines, " ")?;
    push_value(alloc, layout, ty, value, lines)
}

/// What a heap has at a tag.
pub(crate) fn tag_line<H: Heap>(
    alloc: Global,
    who: &str,
    layout: &Layout,
    heap: &H,
    address: u64,
    ty: &CType,
    lines: &mut Vec<u8>,
) -> Result<(), AllocError>
    requires heap { IsHeap layout.now (H.content heap.now) }
    requires object { is_object layout.now (type_of ty.now) ≡ true }
    requires address { address < space layout.now }
    ensures { OnOk result (lines.new.items ≡ lines.old.items
        ++ texts.tag_line who.now layout.now (H.content heap.now)
        (record { address = address; type = type_of ty.now })) }
{
    push(lines, who)?;
    push(lines, " at ")?;
    push_natural(lines, address)?;
    let value = heap.read_value(alloc, layout, ty, address, &[])?;
    push_value_end(alloc, layout, ty, &value, lines)
}

/// What a global has.
pub(crate) fn global_line(
    alloc: Global,
    who: &str,
    layout: &Layout,
    global: &GlobalVar,
    value: &Value,
    lines: &mut Vec<u8>,
) -> Result<(), AllocError>
    ensures { OnOk result (lines.new.items ≡ lines.old.items
        ++ texts.global_line who.now layout.now (global_of global.now) (value_of value.now)) }
{
    push(lines, who)?;
    push(lines, " global ")?;
    push(lines, global.name.as_str())?;
    push_value_end(alloc, layout, &global.ty, value, lines)
}

// A line's last word, a value.
fn push_value_end(
    alloc: Global,
    layout: &Layout,
    ty: &CType,
    value: &Value,
    lines: &mut Vec<u8>,
) -> Result<(), AllocError>
    ensures { OnOk result (lines.new.items ≡ lines.old.items ++ (codes " "
        ++ (value_text layout.now (type_of ty.now) (value_of value.now) ++ texts.line_end))) }
{
    push(lines, " ")?;
    push_value(alloc, layout, ty, value, lines)?;
    push(lines, "\n")
}

/// The bytes that a heap has in a range.
pub(crate) fn range_line(
    alloc: Global,
    who: &str,
    heap: &ByteHeap,
    range: &(u64, Vec<u8>),
    lines: &mut Vec<u8>,
) -> Result<(), AllocError>
    requires { range.now.0 + length range.now.1.items ≤ 2 ^ 64 }
    ensures { OnOk result (lines.new.items ≡ lines.old.items
        ++ texts.range_line who.now (memory_of heap.now).bytes (run_of range.now)) }
{
    let (address, bytes) = range;
    let now = bytes_from(alloc, heap, *address, bytes.len())?;
    push(lines, who)?;
    push(lines, " bytes ")?;
    push_natural(lines, *address)?;
    push(lines, " ")?;
    push(lines, hex::encode(alloc, now.as_slice())?.as_str())?;
    push(lines, "\n")
}

// So many bytes from an address on.
fn bytes_from(
    alloc: Global,
    heap: &ByteHeap,
    address: u64,
    count: usize,
) -> Result<Vec<u8>, AllocError>
    requires { address + count ≤ 2 ^ 64 }
    ensures { IfOk result (λ bytes. bytes.items
        ≡ texts.bytes_from (memory_of heap.now).bytes address count) }
{
    let mut bytes = Vec::new(alloc);
    'bytes: for k in 0..count {
        bytes.push(heap.byte(address + k as u64))?;
    }
    Ok(bytes)
}
