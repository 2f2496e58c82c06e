//! Layouts: structs in the order of their definition, and where their members lie.

ghost use Rattle.std.specs.Prelude.{◌≡◌, ℕ, true, [], length, map, IfOk, OnOk, OnErr, Err};
ghost use Rattle.c_values.specs.Layout.{IsLayout, is_object, size_of, align_of};
ghost use Rattle.c_values.specs.CodeTypes.{type_of};
ghost use Rattle.c_values.specs.declared.layouts.LayoutFault.TheVariants.{Memory};

use crate::extents::extent;
use crate::places::{Extent, LARGEST, Table};
use crate::placing::places;
use crate::tabulation::tabulate;
use crate::types::{CType, Target};
use std::alloc::{AllocError, AllocFailed, Global};
use std::marker::Model;
use thiserror::Error;

/// A struct with a body: its name, and its members with their types in order.
#[derive(Debug, Drop)]
pub struct StructDef {
    pub name: String,
    pub members: Vec<(String, CType)>,
}

/// Why there is no layout.
#[derive(Debug, Clone, Copy, PartialEq, Eq, Error)]
pub enum LayoutFault {
    /// The struct at this place is the first of more than 65,536 bytes.
    #[error("struct {0} has more than 65,536 bytes")]
    Large(usize),
    /// There is no memory for the layout.
    #[error("out of memory")]
    Memory,
}

impl From<AllocError> for LayoutFault {
    ghost from_gives = { λ _ fault. fault ≡ Memory };

    fn from(_: AllocError) -> Self {
        LayoutFault::Memory
    }
}

impl<T: Drop> From<AllocFailed<T>> for LayoutFault {
    ghost from_gives = { λ _ fault. fault ≡ Memory };

    fn from(_: AllocFailed<T>) -> Self {
        LayoutFault::Memory
    }
}

/// The target and the structs that have a body, in the order of their definition. Contracts see these two; beside them it
/// keeps a table of where the members of each struct lie.
#[derive(Debug, Drop)]
pub struct Layout {
    target: Target,
    structs: Vec<StructDef>,
    table: Table,
}

impl Model for Layout {
    ghost use Rattle.std.specs.Prelude.{map};
    ghost use Rattle.c_values.specs.Layout.{Layout};
    ghost use Rattle.c_values.specs.CodeStored.{layout_code};

    ghost Value = { Layout };

    ghost coded = { layout_code };

    ghost use Rattle.c_values.specs.CodeTypes.{target_of};
    ghost use Rattle.c_values.specs.CodeLayout.{struct_def_of};
    ghost use Rattle.c_values.specs.CodeStructTable.{IsTabled};

    ghost view = { λ l.
        record { target = target_of l.target; structs = map struct_def_of l.structs.items } };

    ghost invariant = { λ l. IsTabled (target_of l.target) l.structs.items l.table };
}

impl Layout {
    ghost use Rattle.std.specs.Prelude.{false, None, Some, pos, IfNone, IfSome, string_bytes};
    ghost use Rattle.std.specs.Option.{option_map, option_copied};
    ghost use Rattle.c_values.specs.Growth.{with_struct, can_follow, struct_named};
    ghost use Rattle.c_values.specs.Types.{Struct};
    ghost use Rattle.c_values.specs.Layout.{Incomplete, are_built, are_small, shape_of, all_members_complete};
    ghost use Rattle.c_values.specs.Path.{step_spot, Field};
    ghost use Rattle.c_values.specs.CodeTypes.{target_of, type_of};
    ghost use Rattle.c_values.specs.CodeLayout.{struct_def_of, member_of, IsFirstLarge};
    ghost use Rattle.c_values.specs.CodeStructTable.{Measures};
    ghost use Rattle.c_values.specs.declared.layouts.LayoutFault.TheVariants.{Large};

    /// The layout of structs. Their names are distinct, each has a member, and each member is of a complete object type,
    /// that of a struct standing before it unless it is behind a pointer.
    ///
    /// - `Large` where a struct has more than 65,536 bytes: the place of the first such.
    /// - `Memory` where there is no room for the table. Its size is linear in the members.
    pub fn build(target: Target, structs: Vec<StructDef>) -> Result<Layout, LayoutFault>
        requires { are_built (target_of target)
            (λ x. Incomplete) [] (map struct_def_of structs.items) ≡ true }
        ensures built { IfOk result
            (λ l. l ≡ record {
              target = target_of target;
              structs = map struct_def_of structs.items;
            }) }
        ensures small { OnOk result
            (are_small (target_of target) (λ x. Incomplete) (map struct_def_of structs.items)
            ≡ true) }
        ensures large { (k : ℕ) → result ≡ Err (Large k) →
            IsFirstLarge (target_of target) (map struct_def_of structs.items) k }
    {
        let table = tabulate(*structs.allocator(), target, &structs)?;
        Ok(Layout {
            target,
            structs,
            table,
        })
    }

    /// The target.
    pub fn target(&self) -> Target
        ensures value { target_of result ≡ self.now.target }
        ensures layout { IsLayout self.now }
    {
        self.target
    }

    /// The structs that the layout was built from.
    pub fn structs(&self) -> &[StructDef]
        ensures { map struct_def_of result.now ≡ self.now.structs }
    {
        &self.structs
    }

    /// The struct of a name, where it has a body.
    pub fn definition(&self, name: &str) -> Option<&StructDef>
        ensures { option_map struct_def_of (option_copied result)
            ≡ struct_named self.now.structs name.now }
    {
        match self.table.get(name) {
            None => None,
            Some(places) => Some(&self.structs[places.position]),
        }
    }

    /// Whether a struct may stand behind the others: its name is new, and it has members, each of a complete type.
    pub fn can_follow(&self, definition: &StructDef) -> bool
        ensures { result ≡ can_follow self.now (struct_def_of definition.now) }
    {
        match self.definition(definition.name.as_str()) {
            Some(_) => false,
            None => {
                if definition.members.is_empty() {
                    return false;
                }
                self.are_complete(&definition.members)
            }
        }
    }

    // Whether each member is of a complete type.
    fn are_complete(&self, members: &[(String, CType)]) -> bool
        ensures { result ≡ all_members_complete (shape_of self.now) (map member_of members.now) }
    {
        for (_, ty) in members {
            if !self.extent(ty).complete {
                return false;
            }
        }
        true
    }

    /// One struct more, behind the others. Its name is new, and it has members, each of a complete object type.
    ///
    /// - `Large` where it has more than 65,536 bytes: its place.
    /// - `Memory` where there is no room for it.
    ///
    /// The layout is then as it was.
    pub fn define(&mut self, alloc: Global, definition: StructDef) -> Result<(), LayoutFault>
        requires { can_follow self.old (struct_def_of definition) ≡ true }
        ensures grown { OnOk result (self.new ≡ with_struct self.old (struct_def_of definition)) }
        ensures small { OnOk result
            (is_object (with_struct self.old (struct_def_of definition))
            (Struct (string_bytes definition.name)) ≡ true) }
        ensures large { (k : ℕ) → result ≡ Err (Large k) →
            is_object (with_struct self.old (struct_def_of definition))
            (Struct (string_bytes definition.name)) ≡ false }
        ensures place { (k : ℕ) → result ≡ Err (Large k) → k ≡ length self.old.structs }
        ensures unchanged { OnErr result (self.new ≡ self.old) }
    {
        let position = self.structs.len();
        match places(alloc, self.target, &self.table, &definition, position)? {
            Some(found) => {
                let name = definition.name.clone()?;
                self.structs.push(definition)?;
                if let Err(fault) = self.table.insert(name, found) {
                    let _ = self.structs.pop();
                    return Err(LayoutFault::from(fault));
                }
                Ok(())
            }
            None => Err(LayoutFault::Large(position)),
        }
    }

    /// The offset and the type of a struct's member, from 0. There is none where the struct has no body, or no such member.
    pub fn member(&self, name: &str, k: u32) -> Option<(u32, &CType)>
        ensures none { IfNone result (step_spot (shape_of self.now (Struct name.now)) (Field k)
            ≡ None) }
        ensures some { IfSome result (λ m. step_spot (shape_of self.now (Struct name.now)) (Field k)
            ≡ Some (record { offset = pos m.0; shape = shape_of self.now (type_of m.1.now) })) }
        ensures layout { IsLayout self.now }
    {
        let places = self.table.get(name)?;
        let k = k as usize;
        if k >= places.offsets.len() {
            return None;
        }
        let (_, ty) = &self.structs[places.position].members[k];
        Some((places.offsets[k], ty))
    }

    // What memory an object of a type takes.
    fn extent(&self, t: &CType) -> Extent
        ensures measures { Measures result (shape_of self.now (type_of t.now)) }
        ensures layout { IsLayout self.now }
    {
        extent(self.target, &self.table, t)
    }
}

/// Whether a type is a complete object type of the layout, of at most 65,536 bytes. It may be any type.
pub fn is_object(l: &Layout, t: &CType) -> bool
    ensures { result ≡ is_object l.now (type_of t.now) }
{
    let extent = l.extent(t);
    extent.complete && extent.size <= LARGEST
}

/// The bytes of an object of a type.
pub fn size_of(l: &Layout, t: &CType) -> u32
    requires { is_object l.now (type_of t.now) ≡ true }
    ensures value { result ≡ size_of l.now (type_of t.now) }
    ensures layout { IsLayout l.now }
{
    l.extent(t).size
}

/// The alignment of a type, in bytes.
pub fn align_of(l: &Layout, t: &CType) -> u32
    requires { is_object l.now (type_of t.now) ≡ true }
    ensures { result ≡ align_of l.now (type_of t.now) }
{
    l.extent(t).alignment
}
