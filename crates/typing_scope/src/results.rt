//! The results of functions, where `void` is none.

ghost use Rattle.std.specs.Prelude.{◌≡◌, IfOk};
ghost use Rattle.std.specs.Option.{option_map};
ghost use Rattle.c_values.specs.CodeTypes.{type_of};

use c_values::{CType, copy_of};
use std::alloc::{AllocError, Global};

/// A copy of the type of a result.
pub fn copy_of_result(alloc: Global, ty: &Option<CType>) -> Result<Option<CType>, AllocError>
    ensures { IfOk result (λ copy. option_map type_of copy ≡ option_map type_of ty.now) }
{
    match ty {
        None => Ok(None),
        Some(ty) => Ok(Some(copy_of(alloc, ty)?)),
    }
}
