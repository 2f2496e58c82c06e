//! Parts of objects, by offsets.

ghost use Rattle.std.specs.Prelude.{◌≡◌, true, is_some, IfNone, IfSome};
ghost use Rattle.c_values.specs.Types.{Struct};
ghost use Rattle.c_values.specs.Layout.{IsLayout, shape_of, size_of, is_object};
ghost use Rattle.c_values.specs.CodeTypes.{type_of};
ghost use Rattle.c_memory.specs.Tags.{root_path};
ghost use Rattle.c_memory.specs.CodeInner.{is_root_here, LiesIn, LiesInNone};

use c_values::{CType, Layout, size_of};

/// A member or an element, by its number, its size in bytes, and how far from its beginning an offset lies.
#[derive(Clone, Copy)]
pub struct Part<'a> {
    pub index: u32,
    pub ty: &'a CType,
    pub size: u32,
    pub offset: u64,
}

/// Whether an object has a part of a type at an offset, that is an integer, a pointer or a struct: the object itself, or a
/// part of a member or of an element.
pub(crate) fn has_part(l: &Layout, whole: &CType, t: &CType, offset: u64) -> bool
    requires { is_object l.now (type_of whole.now) ≡ true }
    ensures found { result ≡ is_some
        (root_path (shape_of l.now (type_of whole.now)) (type_of t.now) offset) }
    ensures layout { IsLayout l.now }
{
    let mut whole = whole;
    let mut size = size_of(l, whole);
    if offset >= u64::from(size) {
        return false;
    }
    let mut offset = offset;
    while !is_root_here(whole, t, offset) {
        match part_at(l, whole, size, offset) {
            Some(part) => {
                whole = part.ty;
                size = part.size;
                offset = part.offset;
            }
            None => return false,
        }
    }
    true
}

/// Whether an object at an offset is of a type, and is an integer, a pointer or a struct.
pub fn is_root_here(whole: &CType, t: &CType, offset: u64) -> bool
    ensures { result ≡ is_root_here (type_of whole.now) (type_of t.now) offset }
{
    let is_root = match whole {
        CType::Int(_) | CType::Ptr(_) | CType::Struct(_) => true,
        CType::Void | CType::Array(_, _) => false,
    };
    is_root && whole == t && offset == 0
}

/// The member or the element in which an offset into an object of a size lies. To find the size of an element a type would
/// be gone through to its end, so it is handed down.
pub fn part_at<'a>(l: &'a Layout, whole: &'a CType, size: u32, offset: u64) -> Option<Part<'a>>
    requires layout { IsLayout l.now }
    requires object { is_object l.now (type_of whole.now) ≡ true }
    requires size { size ≡ size_of l.now (type_of whole.now) }
    ensures none { IfNone result (LiesInNone l.now (type_of whole.now) offset) }
    ensures some { IfSome result
        (λ p. LiesIn l.now (type_of whole.now) offset p.index (type_of p.ty.now) p.offset) }
    ensures size { IfSome result (λ p. p.size ≡ size_of l.now (type_of p.ty.now)) }
{
    match whole {
        CType::Struct(name) => member_at(l, name.as_str(), offset),
        CType::Array(element, length) => {
            let size = size / *length;
            let bytes = u64::from(size);
            let index = offset / bytes;
            if index >= u64::from(*length) {
                return None;
            }
            Some(Part {
                index: index as u32,
                ty: &**element,
                size,
                offset: offset % bytes,
            })
        }
        CType::Int(_) | CType::Void | CType::Ptr(_) => None,
    }
}

fn member_at<'a>(l: &'a Layout, name: &str, offset: u64) -> Option<Part<'a>>
    requires { is_object l.now (Struct name.now) ≡ true }
    ensures none { IfNone result (LiesInNone l.now (Struct name.now) offset) }
    ensures some { IfSome result
        (λ p. LiesIn l.now (Struct name.now) offset p.index (type_of p.ty.now) p.offset) }
    ensures size { IfSome result (λ p. p.size ≡ size_of l.now (type_of p.ty.now)) }
{
    let mut k = 0;
    'members: while let Some((at, ty)) = l.member(name, k) {
        let at = u64::from(at);
        let size = size_of(l, ty);
        if at <= offset && offset - at < u64::from(size) {
            return Some(Part {
                index: k,
                ty,
                size,
                offset: offset - at,
            });
        }
        k += 1;
    }
    None
}
