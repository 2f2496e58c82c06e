//! The table of where the members of each struct lie.

ghost use Rattle.std.specs.Prelude.{◌≡◌, ℕ, true, [], map, IfOk, Err};
ghost use Rattle.c_values.specs.Layout.{Incomplete, are_built};
ghost use Rattle.c_values.specs.CodeTypes.{target_of};
ghost use Rattle.c_values.specs.CodeLayout.{struct_def_of, IsFirstLarge};
ghost use Rattle.c_values.specs.CodeStructTable.{IsTabled};
ghost use Rattle.c_values.specs.declared.layouts.LayoutFault.TheVariants.{Large};

use crate::layouts::{LayoutFault, StructDef};
use crate::places::Table;
use crate::placing::places;
use crate::types::Target;
use std::alloc::Global;
use std::collections::HashMap;

/// The table of structs, each made of those before it.
pub(crate) fn tabulate(
    alloc: Global,
    target: Target,
    structs: &[StructDef],
) -> Result<Table, LayoutFault>
    requires { are_built (target_of target) (λ x. Incomplete) [] (map struct_def_of structs.now)
        ≡ true }
    ensures tabled { IfOk result (IsTabled (target_of target) structs.now) }
    ensures large { (k : ℕ) → result ≡ Err (Large k) →
        IsFirstLarge (target_of target) (map struct_def_of structs.now) k }
{
    let mut table = HashMap::new(alloc);
    for (position, definition) in structs.iter().enumerate() {
        match places(alloc, target, &table, definition, position)? {
            Some(found) => {
                let name = definition.name.clone()?;
                table.insert(name, found)?;
            }
            None => return Err(LayoutFault::Large(position)),
        }
    }
    Ok(table)
}
