//! Arrays of one element. A text may nest those deeply, so walks over types and values go through them by loops.

ghost use Rattle.std.specs.Prelude.{◌≡◌, ◌≢◌, IfOk, IfNone, IfSome};
ghost use Rattle.c_values.specs.CodeLone.{lone, inside, around};
ghost use Rattle.c_values.specs.CodeTypes.{type_of};
ghost use Rattle.c_values.specs.CodeValue.{value_of};
ghost use Rattle.c_values.specs.Types.{Array};
ghost use Rattle.c_values.specs.Types as types;

use crate::types::CType;
use crate::values::Value;
use std::alloc::{AllocError, Global};

/// What the outermost arrays of one element are around.
pub fn inside(ty: &CType) -> &CType
    ensures { type_of result.now ≡ inside (type_of ty.now) }
{
    let mut inner = ty;
    'inwards: while let Some(element) = lone_element(inner) {
        inner = element;
    }
    inner
}

/// A value in as many arrays of one element as the outermost ones of a type.
pub fn around(alloc: Global, ty: &CType, value: Value) -> Result<Value, AllocError>
    ensures { IfOk result (λ v. value_of v ≡ around (type_of ty.now) (value_of value)) }
{
    let mut whole = value;
    let mut outer = ty;
    'outwards: while let Some(element) = lone_element(outer) {
        whole = lone_part(alloc, whole)?;
        outer = element;
    }
    Ok(whole)
}

/// The element of an array of one.
pub fn lone_element(ty: &CType) -> Option<&CType>
    ensures some { IfSome result (λ element. type_of ty.now ≡ Array (type_of element.now) 1) }
    ensures none { IfNone result ((element : types.CType) → type_of ty.now ≢ Array element 1) }
{
    match ty {
        CType::Array(element, 1) => Some(&**element),
        _ => None,
    }
}

// The value of one part.
fn lone_part(alloc: Global, part: Value) -> Result<Value, AllocError>
    ensures { IfOk result (λ v. value_of v ≡ lone (value_of part)) }
{
    let mut parts = Vec::new(alloc);
    parts.push(part)?;
    Ok(Value::Parts(parts))
}
