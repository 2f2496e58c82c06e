//! Values that are put into memory. What doesn't fit the type isn't stored, and padding stays.

ghost use Rattle.std.specs.Prelude.{◌≡◌, ◌<◌, true, false, string_bytes};
ghost use Rattle.c_values.specs.Types.{Array, Struct};
ghost use Rattle.c_values.specs.Value.{Parts};
ghost use Rattle.c_values.specs.Layout.{IsLayout, shape_of, size_of, space, is_object, is_scalar};
ghost use Rattle.c_values.specs.CodeTypes.{type_of};
ghost use Rattle.c_values.specs.CodeValue.{value_of};
ghost use Rattle.c_memory.specs.Memory.{store};
ghost use Rattle.c_memory.specs.CodePages.{byte_at, HasPages, KeepsPages};
ghost use Rattle.c_values.specs.CodeParts.{values_in};

use crate::addresses::moved;
use crate::pages::{Pages, put_bits};
use crate::parts_of_values::{part, parts_of};
use c_values::{CType, Layout, Value, lone_element, size_of};

/// Puts a value of a type at an address. Its pages are there. A text may nest arrays of one element deeply, so a loop goes
/// through those: the recursion is as deep as structs, and arrays of other lengths, nest.
#[cycle(store)]
pub(crate) fn store(pages: &mut Pages, l: &Layout, t: &CType, address: u64, value: &Value)
    requires layout { IsLayout l.now }
    requires object { is_object l.now (type_of t.now) ≡ true }
    requires address { address < space l.now }
    requires pages { HasPages (space l.now) pages.old address (size_of l.now (type_of t.now)) }
    ensures bytes { byte_at pages.new
        ≡ store (space l.now) (shape_of l.now (type_of t.now)) address (value_of value.now)
        (byte_at pages.old) }
    ensures pages { KeepsPages pages.old pages.new }
{
    let mut whole = t;
    let mut inner = value;
    'inwards: while let Some(element) = lone_element(whole) {
        let Some(parts) = parts_of(inner) else {
            return;
        };
        let Some(first) = part(parts, 0) else {
            return;
        };
        whole = element;
        inner = first;
    }
    store_by_kind(pages, l, whole, address, inner);
}

#[cycle(store)]
fn store_by_kind(pages: &mut Pages, l: &Layout, t: &CType, address: u64, value: &Value)
    requires layout { IsLayout l.now }
    requires object { is_object l.now (type_of t.now) ≡ true }
    requires address { address < space l.now }
    requires pages { HasPages (space l.now) pages.old address (size_of l.now (type_of t.now)) }
    ensures bytes { byte_at pages.new
        ≡ store (space l.now) (shape_of l.now (type_of t.now)) address (value_of value.now)
        (byte_at pages.old) }
    ensures pages { KeepsPages pages.old pages.new }
{
    match t {
        CType::Int(_) | CType::Ptr(_) => store_word(pages, l, t, address, value),
        CType::Struct(_) | CType::Array(_, _) => store_whole(pages, l, t, address, value),
        CType::Void => {}
    }
}

// Puts the parts of a struct or an array.
#[cycle(store)]
fn store_whole(pages: &mut Pages, l: &Layout, t: &CType, address: u64, value: &Value)
    requires layout { IsLayout l.now }
    requires object { is_object l.now (type_of t.now) ≡ true }
    requires whole { is_scalar (type_of t.now) ≡ false }
    requires pages { HasPages (space l.now) pages.old address (size_of l.now (type_of t.now)) }
    ensures bytes { byte_at pages.new
        ≡ store (space l.now) (shape_of l.now (type_of t.now)) address (value_of value.now)
        (byte_at pages.old) }
    ensures pages { KeepsPages pages.old pages.new }
{
    let Some(parts) = parts_of(value) else {
        return;
    };
    match t {
        CType::Struct(name) => store_struct(pages, l, name, address, parts),
        CType::Array(element, length) => {
            store_array(pages, l, &**element, *length, address, parts);
        }
        CType::Int(_) | CType::Ptr(_) | CType::Void => {}
    }
}

#[cycle(store)]
fn store_struct(pages: &mut Pages, l: &Layout, name: &String, address: u64, parts: &[Value])
    requires object { is_object l.now (Struct (string_bytes name.now)) ≡ true }
    requires pages { HasPages (space l.now) pages.old address
        (size_of l.now (Struct (string_bytes name.now))) }
    ensures bytes { byte_at pages.new
        ≡ store (space l.now) (shape_of l.now (Struct (string_bytes name.now))) address
        (Parts (values_in parts.now)) (byte_at pages.old) }
    ensures pages { KeepsPages pages.old pages.new }
{
    let mut k = 0;
    'members: while let Some((at, ty)) = l.member(name.as_str(), k) {
        let Some(value) = part(parts, k) else {
            break;
        };
        let address = moved(l.target(), address, u64::from(at));
        store(pages, l, ty, address, value);
        k += 1;
    }
}

#[cycle(store)]
fn store_array(
    pages: &mut Pages,
    l: &Layout,
    element: &CType,
    length: u32,
    address: u64,
    parts: &[Value],
)
    requires object { is_object l.now (Array (type_of element.now) length) ≡ true }
    requires pages { HasPages (space l.now) pages.old address
        (size_of l.now (Array (type_of element.now) length)) }
    ensures bytes { byte_at pages.new
        ≡ store (space l.now) (shape_of l.now (Array (type_of element.now) length)) address
        (Parts (values_in parts.now)) (byte_at pages.old) }
    ensures pages { KeepsPages pages.old pages.new }
{
    let size = u64::from(size_of(l, element));
    'elements: for i in 0..length {
        let Some(value) = part(parts, i) else {
            break;
        };
        let address = moved(l.target(), address, u64::from(i) * size);
        store(pages, l, element, address, value);
    }
}

// Puts a word.
fn store_word(pages: &mut Pages, l: &Layout, t: &CType, address: u64, value: &Value)
    requires object { is_object l.now (type_of t.now) ≡ true }
    requires scalar { is_scalar (type_of t.now) ≡ true }
    requires address { address < space l.now }
    requires pages { HasPages (space l.now) pages.old address (size_of l.now (type_of t.now)) }
    ensures bytes { byte_at pages.new
        ≡ store (space l.now) (shape_of l.now (type_of t.now)) address (value_of value.now)
        (byte_at pages.old) }
    ensures pages { KeepsPages pages.old pages.new }
{
    let size = u64::from(size_of(l, t));
    if let Value::Word(word) = value {
        put_bits(pages, l.target(), address, size, word.bits());
    }
}
