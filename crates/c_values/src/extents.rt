//! How much memory types take, by the places of structs. Sizes grow no more past that of the largest object, so arrays of
//! any lengths can be nested.

ghost use Rattle.std.specs.Prelude.{◌≡◌, ◌*◌, ◌/◌, ◌≤◌, true, false, min};
ghost use Rattle.std.specs.Option.{option_copied};
ghost use Rattle.c_values.specs.Name.{Name};
ghost use Rattle.c_values.specs.Layout.{Shape, shape_from};
ghost use Rattle.c_values.specs.CodeTypes.{target_of, type_of};
ghost use Rattle.c_values.specs.CodeStructTable.{Describes, Measures, DescribesShape, is_array};
ghost use Rattle.c_values.specs.Width.{IsWidth};

use crate::places::{Extent, LARGEST, Places, Table};
use crate::types::{CType, Target, address_width, width_of};

/// What memory an object of a type takes, by the places of the structs.
pub(crate) fn extent(target: Target, table: &Table, t: &CType) -> Extent
    ensures { (structs : Name → Shape) → Describes table.now structs →
        Measures result (shape_from (target_of target) structs (type_of t.now)) }
{
    let mut some = true;
    let mut count = 1;
    let mut element = t;
    while let CType::Array(inner, length) = element {
        some = some && *length > 0;
        count = product(count, *length);
        element = &**inner;
    }
    let one = element_extent(target, table, element);
    Extent {
        complete: some && one.complete,
        size: product(count, one.size),
        alignment: one.alignment,
    }
}

// What memory an object takes that is no array.
fn element_extent(target: Target, table: &Table, t: &CType) -> Extent
    ensures { (structs : Name → Shape) → Describes table.now structs → is_array (type_of t.now)
        ≡ false →
        Measures result (shape_from (target_of target) structs (type_of t.now)) }
{
    match t {
        CType::Int(integer) => scalar_extent(width_of(target, *integer)),
        CType::Ptr(_) => scalar_extent(address_width(target)),
        CType::Struct(name) => struct_extent(table.get(name.as_str())),
        CType::Void | CType::Array(_, _) => struct_extent(None),
    }
}

fn scalar_extent(width: u8) -> Extent
    requires { IsWidth width }
    ensures complete { result.complete ≡ true }
    ensures size { result.size ≡ width / 8 }
    ensures alignment { result.alignment ≡ width / 8 }
{
    Extent {
        complete: true,
        size: u32::from(width / 8),
        alignment: u32::from(width / 8),
    }
}

// The extent of a struct, or of what has no body.
fn struct_extent(places: Option<&Places>) -> Extent
    ensures { (s : Shape) → DescribesShape (option_copied places.entry) s → Measures result s }
{
    match places {
        Some(places) => Extent {
            complete: true,
            size: places.size,
            alignment: places.alignment,
        },
        None => Extent {
            complete: false,
            size: 0,
            alignment: 1,
        },
    }
}

// A product that grows no more past the largest object.
fn product(a: u32, b: u32) -> u32
    requires { a ≤ 65537 }
    ensures { result ≡ min (a * b) 65537 }
{
    (u64::from(a) * u64::from(b)).min(u64::from(LARGEST) + 1) as u32
}
