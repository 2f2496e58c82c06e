//! Memories, written.
ghost use Rattle.std.specs.Prelude.{◌≡◌, IfOk, OnOk, codes, map};
ghost use Rattle.std.specs.Fmt.{decimal};
ghost use Rattle.hex.specs.Hex.{encode_lower};
ghost use Rattle.ac_sx.specs.Tree.{Atom, Node, no_trees, more};
ghost use Rattle.ac_sx.specs.Writing.{written, all_written};
ghost use Rattle.c_values.specs.CodeParts.{values_in};
ghost use Rattle.c_values.specs.CodeTypes.{type_of};
ghost use Rattle.c_values.specs.CodeValue.{value_of};
ghost use Rattle.c_memory.specs.CodeTag.{tag_of};
ghost use Rattle.c_memory.specs.Ranges.{run_of};
ghost use Rattle.memory_text.specs.ValueText as value_texts;
ghost use Rattle.memory_text.specs.MemoryText as texts;
ghost use Rattle.memory_text.specs.CodeMemory.{setting_of, memory_of};

use crate::memory::MemoryText;
use ac_sx::{Speller, TreeWriter};
use c_values::{CType, Value};
use expression_text::{begin_list, natural_into, number_into, type_into};
use std::alloc::{AllocError, Global};

/// The text of a memory, with the line's end behind it.
pub(crate) fn memory_text(alloc: Global, memory: &MemoryText) -> Result<Vec<u8>, AllocError>
    ensures { IfOk result (λ text. text.items ≡ texts.memory_text (memory_of memory.now)) }
{
    let mut text = Speller::new(alloc);
    memory_into(alloc, &mut text, memory)?;
    text.finish()
}

fn memory_into<W: TreeWriter>(
    alloc: Global,
    out: &mut W,
    memory: &MemoryText,
) -> Result<(), AllocError>
    ensures { OnOk result (W.state out.new
        ≡ written W.writing (W.state out.old) (texts.memory_tree (memory_of memory.now))) }
{
    begin_list(out, "memory")?;
    out.atom("1")?;
    call_into(alloc, out, memory.function.as_str(), &memory.arguments)?;
    count_into(out, "turns", u64::from(memory.turns))?;
    count_into(out, "fill", memory.fill)?;
    runs_into(alloc, out, &memory.bytes)?;
    tags_into(alloc, out, &memory.tags)?;
    settings_into(alloc, out, &memory.globals)?;
    out.leave()
}

// A list of a word and a number.
fn count_into<W: TreeWriter>(out: &mut W, word: &str, number: u64) -> Result<(), AllocError>
    ensures { OnOk result (W.state out.new
        ≡ written W.writing (W.state out.old) (texts.number_tree word.now number)) }
{
    begin_list(out, word)?;
    natural_into(out, number)?;
    out.leave()
}

fn call_into<W: TreeWriter>(
    alloc: Global,
    out: &mut W,
    function: &str,
    arguments: &[Value],
) -> Result<(), AllocError>
    ensures { OnOk result (W.state out.new ≡ written W.writing (W.state out.old)
        (texts.call_tree function.now (values_in arguments.now))) }
{
    begin_list(out, "call")?;
    out.atom(function)?;
    values_into(alloc, out, arguments)?;
    out.leave()
}

#[cycle(values)]
fn value_into<W: TreeWriter>(alloc: Global, out: &mut W, value: &Value) -> Result<(), AllocError>
    ensures { OnOk result (W.state out.new
        ≡ written W.writing (W.state out.old) (value_texts.value_tree (value_of value.now))) }
{
    match value {
        Value::Word(word) => natural_into(out, word.bits()),
        Value::Number(number) => number_into(alloc, out, *number),
        Value::Truth(truth) => out.atom(if *truth { "#t" } else { "#f" }),
        Value::Parts(parts) => parts_into(alloc, out, parts),
    }
}

#[cycle(values)]
fn parts_into<W: TreeWriter>(alloc: Global, out: &mut W, parts: &[Value]) -> Result<(), AllocError>
    ensures { OnOk result (W.state out.new ≡ written W.writing (W.state out.old)
        (Node (value_texts.value_trees (values_in parts.now)))) }
{
    out.enter()?;
    values_into(alloc, out, parts)?;
    out.leave()
}

// These values, one after the other.
#[cycle(values)]
fn values_into<W: TreeWriter>(
    alloc: Global,
    out: &mut W,
    values: &[Value],
) -> Result<(), AllocError>
    ensures { OnOk result (W.state out.new ≡ all_written W.writing (W.state out.old)
        (value_texts.value_trees (values_in values.now))) }
{
    let mut rest = values;
    'values: while let Some((value, others)) = rest.split_first() {
        value_into(alloc, out, value)?;
        rest = others;
    }
    Ok(())
}

fn runs_into<W: TreeWriter>(
    alloc: Global,
    out: &mut W,
    runs: &[(u64, Vec<u8>)],
) -> Result<(), AllocError>
    ensures { OnOk result (W.state out.new ≡ written W.writing (W.state out.old)
        (texts.list_tree (codes "bytes") texts.run_tree (map run_of runs.now))) }
{
    begin_list(out, "bytes")?;
    let mut rest = runs;
    'runs: while let Some(((address, bytes), others)) = rest.split_first() {
        run_into(alloc, out, *address, bytes)?;
        rest = others;
    }
    out.leave()
}

fn run_into<W: TreeWriter>(
    alloc: Global,
    out: &mut W,
    address: u64,
    bytes: &[u8],
) -> Result<(), AllocError>
    ensures { OnOk result (W.state out.new ≡ written W.writing (W.state out.old)
        (Node (more (Atom (decimal address)) (more (Atom (encode_lower bytes.now)) no_trees)))) }
{
    let digits = hex::encode(alloc, bytes)?;
    out.enter()?;
    natural_into(out, address)?;
    out.atom(digits.as_str())?;
    out.leave()
}

fn tags_into<W: TreeWriter>(
    alloc: Global,
    out: &mut W,
    tags: &[(u64, CType)],
) -> Result<(), AllocError>
    ensures { OnOk result (W.state out.new ≡ written W.writing (W.state out.old)
        (texts.list_tree (codes "tags") texts.tag_tree (map tag_of tags.now))) }
{
    begin_list(out, "tags")?;
    let mut rest = tags;
    'tags: while let Some(((address, ty), others)) = rest.split_first() {
        tag_into(alloc, out, *address, ty)?;
        rest = others;
    }
    out.leave()
}

fn tag_into<W: TreeWriter>(
    alloc: Global,
    out: &mut W,
    address: u64,
    ty: &CType,
) -> Result<(), AllocError>
    ensures { OnOk result (W.state out.new ≡ written W.writing (W.state out.old)
        (texts.tag_tree (record { address = address; type = type_of ty.now }))) }
{
    out.enter()?;
    natural_into(out, address)?;
    type_into(alloc, out, ty)?;
    out.leave()
}

fn settings_into<W: TreeWriter>(
    alloc: Global,
    out: &mut W,
    settings: &[(String, Value)],
) -> Result<(), AllocError>
    ensures { OnOk result (W.state out.new ≡ written W.writing (W.state out.old)
        (texts.list_tree (codes "globals") texts.setting_tree (map setting_of settings.now))) }
{
    begin_list(out, "globals")?;
    let mut rest = settings;
    'settings: while let Some(((name, value), others)) = rest.split_first() {
        setting_into(alloc, out, name.as_str(), value)?;
        rest = others;
    }
    out.leave()
}

fn setting_into<W: TreeWriter>(
    alloc: Global,
    out: &mut W,
    name: &str,
    value: &Value,
) -> Result<(), AllocError>
    ensures { OnOk result (W.state out.new ≡ written W.writing (W.state out.old)
        (texts.setting_tree (record { name = name.now; value = value_of value.now }))) }
{
    out.enter()?;
    out.atom(name)?;
    value_into(alloc, out, value)?;
    out.leave()
}
