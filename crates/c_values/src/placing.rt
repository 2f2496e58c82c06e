//! Where the members of a struct lie.

ghost use Rattle.std.specs.Prelude.{◌≡◌, ◌+◌, ◌<◌, ◌≤◌, true, IfOk};
ghost use Rattle.c_values.specs.Name.{Name};
ghost use Rattle.c_values.specs.Layout.{Shape, shape_from, struct_shape, aligned, all_members_complete};
ghost use Rattle.c_values.specs.CodeTypes.{target_of};
ghost use Rattle.c_values.specs.CodeLayout.{struct_def_of};
ghost use Rattle.c_values.specs.CodeStructTable.{Describes, IsPlacement};

use crate::extents::extent;
use crate::layouts::StructDef;
use crate::places::{LARGEST, Places, Table};
use crate::types::Target;
use std::alloc::{AllocError, Global};

/// Where a struct's members lie, by the places of the structs before it; none where it is larger than an object may be.
pub(crate) fn places(
    alloc: Global,
    target: Target,
    table: &Table,
    definition: &StructDef,
    position: usize,
) -> Result<Option<Places>, AllocError>
    ensures { IfOk result (λ found. (structs : Name → Shape) → Describes table.now structs →
        all_members_complete (shape_from (target_of target) structs)
        (struct_def_of definition.now).members ≡ true →
        IsPlacement found
        (struct_shape (shape_from (target_of target) structs)
        (struct_def_of definition.now)) position) }
{
    let mut end: u32 = 0;
    let mut alignment: u32 = 1;
    let mut offsets = Vec::new(alloc);
    for (_, ty) in &definition.members {
        let member = extent(target, table, ty);
        let offset = aligned(end, member.alignment);
        if offset + member.size > LARGEST {
            return Ok(None);
        }
        offsets.push(offset)?;
        end = offset + member.size;
        alignment = alignment.max(member.alignment);
    }
    let size = aligned(end, alignment);
    if size > LARGEST {
        return Ok(None);
    }
    Ok(Some(Places {
        position,
        size,
        alignment,
        offsets,
    }))
}

// The least multiple of the alignment that is the offset or more.
fn aligned(offset: u32, alignment: u32) -> u32
    requires within { offset ≤ 65536 }
    requires some { 1 ≤ alignment }
    requires few { alignment ≤ 8 }
    ensures value { result ≡ aligned offset alignment }
    ensures near { result < offset + 8 }
{
    (offset + (alignment - 1)) / alignment * alignment
}
