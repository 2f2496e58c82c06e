//! Copies of layouts and globals.

ghost use Rattle.std.specs.Prelude.{◌≡◌, map, IfOk};
ghost use Rattle.c_values.specs.CodeLayout.{member_of, struct_def_of};
ghost use Rattle.c_values.specs.CodeValue.{global_of};

use c_values::{CType, GlobalVar, Layout, LayoutFault, StructDef, copy_of, copy_value};
use std::alloc::{AllocError, Global};

/// A copy of a layout.
pub fn copy_of_layout(alloc: Global, l: &Layout) -> Result<Layout, AllocError>
    ensures { IfOk result (λ copy. copy ≡ l.now) }
{
    let target = l.target();
    match Layout::build(target, copy_of_structs(alloc, l.structs())?) {
        Ok(copy) => Ok(copy),
        Err(LayoutFault::Memory) => Err(AllocError),
        Err(LayoutFault::Large(_)) => unreachable!(),
    }
}

fn copy_of_structs(alloc: Global, structs: &[StructDef]) -> Result<Vec<StructDef>, AllocError>
    ensures { IfOk result (λ copy. map struct_def_of copy.items ≡ map struct_def_of structs.now) }
{
    let mut copy = Vec::new(alloc);
    for definition in structs {
        copy.push(copy_of_struct(alloc, definition)?)?;
    }
    Ok(copy)
}

fn copy_of_struct(alloc: Global, definition: &StructDef) -> Result<StructDef, AllocError>
    ensures { IfOk result (λ copy. struct_def_of copy ≡ struct_def_of definition.now) }
{
    Ok(StructDef {
        name: definition.name.clone()?,
        members: copy_of_members(alloc, &definition.members)?,
    })
}

fn copy_of_members(
    alloc: Global,
    members: &[(String, CType)],
) -> Result<Vec<(String, CType)>, AllocError>
    ensures { IfOk result (λ copy. map member_of copy.items ≡ map member_of members.now) }
{
    let mut copy = Vec::new(alloc);
    for (name, ty) in members {
        copy.push((name.clone()?, copy_of(alloc, ty)?))?;
    }
    Ok(copy)
}

/// A copy of globals.
pub fn copy_of_globals(alloc: Global, globals: &[GlobalVar]) -> Result<Vec<GlobalVar>, AllocError>
    ensures { IfOk result (λ copy. map global_of copy.items ≡ map global_of globals.now) }
{
    let mut copy = Vec::new(alloc);
    for global in globals {
        copy.push(copy_of_global(alloc, global)?)?;
    }
    Ok(copy)
}

fn copy_of_global(alloc: Global, global: &GlobalVar) -> Result<GlobalVar, AllocError>
    ensures { IfOk result (λ copy. global_of copy ≡ global_of global.now) }
{
    let name = global.name.clone()?;
    let ty = copy_of(alloc, &global.ty)?;
    Ok(GlobalVar {
        name,
        ty,
        initial: copy_value(alloc, &global.initial)?,
    })
}
