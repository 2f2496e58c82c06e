//! Tags that can stand in a memory.

ghost use Rattle.std.specs.Prelude.{◌≡◌, ◌^◌, ℕ, [], ◌∷◌, ◌++◌, ◌⊎◌, true, None, Some, map, slice_get, IfOk, IfErr};
ghost use Rattle.c_values.specs.Layout.{IsLayout, is_object};
ghost use Rattle.c_values.specs.Types.{address_width};
ghost use Rattle.c_values.specs.CodeTypes.{target_of, type_of};
ghost use Rattle.c_memory.specs.Memory.{Tag};
ghost use Rattle.c_memory.specs.Tags.{AreTags};
ghost use Rattle.c_memory.specs.CodeTag.{tag_of};
ghost use Rattle.c_memory.specs.TagFault.{IsRoot, tag_fault, first_fault};
ghost use Rattle.c_memory.specs.declared.faults.HeapFault.TheVariants.{Memory};

use crate::faults::HeapFault;
use crate::tag_table::TagTable;
use c_values::{CType, Layout, Target, align_of, copy_of, size_of};
use std::alloc::Global;

/// The table of tags, unless one of them is at fault: the first, and what is wrong with it.
pub(crate) fn table_of(
    alloc: Global,
    l: &Layout,
    tags: &[(u64, CType)],
) -> Result<TagTable, HeapFault>
    requires { (k : ℕ) (t : Tag) → slice_get (map tag_of tags.now) k ≡ Some t → IsRoot l.now t }
    ensures tags { IfOk result (λ table. table ≡ map tag_of tags.now) }
    ensures well_tagged { IfOk result (λ table. AreTags l.now table) }
    ensures sound { IfOk result (λ _. first_fault l.now [] 0 (map tag_of tags.now) ≡ None) }
    ensures cause { IfErr result
        (λ e. (e ≡ Memory) ⊎ (first_fault l.now [] 0 (map tag_of tags.now) ≡ Some e)) }
{
    let mut table = TagTable::new(alloc);
    for (k, (address, ty)) in tags.iter().enumerate() {
        table = with_tag(alloc, l, table, k, *address, ty)?;
    }
    Ok(table)
}

// The table with one tag more, unless that is at fault.
fn with_tag(
    alloc: Global,
    l: &Layout,
    table: TagTable,
    k: usize,
    address: u64,
    ty: &CType,
) -> Result<TagTable, HeapFault>
    requires tags { AreTags l.now table }
    requires root { IsRoot l.now (record { address = address; type = type_of ty.now }) }
    ensures tags { IfOk result
        (λ t. t ≡ table ++ record { address = address; type = type_of ty.now } ∷ []) }
    ensures well_tagged { IfOk result (λ t. AreTags l.now t) }
    ensures sound { IfOk result
        (λ _. tag_fault l.now table k (record { address = address; type = type_of ty.now })
        ≡ None) }
    ensures cause { IfErr result
        (λ e. (e ≡ Memory)
        ⊎ (tag_fault l.now table k (record { address = address; type = type_of ty.now })
        ≡ Some e)) }
{
    match tag_fault(&table, l, k, address, ty) {
        Some(fault) => Err(fault),
        None => Ok(table.with(address, copy_of(alloc, ty)?)?),
    }
}

// What is wrong with a tag after the earlier ones.
fn tag_fault(table: &TagTable, l: &Layout, k: usize, address: u64, ty: &CType) -> Option<HeapFault>
    requires tags { AreTags l.now table.now }
    requires object { is_object l.now (type_of ty.now) ≡ true }
    ensures fault { result ≡ tag_fault l.now table.now k
        (record { address = address; type = type_of ty.now }) }
    ensures layout { IsLayout l.now }
{
    let size = size_of(l, ty);
    if address % u64::from(align_of(l, ty)) > 0 {
        return Some(HeapFault::Misaligned(k));
    }
    if address == 0 {
        return Some(HeapFault::Null(k));
    }
    if space(l.target()) < u128::from(address) + u128::from(size) {
        return Some(HeapFault::Past(k));
    }
    if table.is_apart(l, ty, address) {
        None
    } else {
        Some(HeapFault::Overlap(k))
    }
}

// How many addresses there are.
fn space(target: Target) -> u128
    ensures { result ≡ 2 ^ address_width (target_of target) }
{
    match target {
        Target::Ilp32 => 1 << 32,
        Target::Lp64 => 1 << 64,
    }
}
