//! Types that are copied. A text may nest types deeply, so this goes down a type by a loop.

ghost use Rattle.std.specs.Prelude.{◌≡◌, IfOk};
ghost use Rattle.c_values.specs.CodeTypes.{type_of};
ghost use Rattle.c_values.specs.CodeLayers.{IsLast, with_layer};

use crate::types::CType;
use std::alloc::{AllocError, Global};

// What stands around a type.
#[derive(Clone, Copy)]
enum Layer {
    Pointer,
    Array(u32),
}

/// A copy of a type.
#[tactic(auto, using(crate::proofs::Layered::with_layers_push))]
pub fn copy_of(alloc: Global, t: &CType) -> Result<CType, AllocError>
    ensures { IfOk result (λ copy. type_of copy ≡ type_of t.now) }
{
    let mut layers = Vec::new(alloc);
    let mut inner = t;
    'down: loop {
        match inner {
            CType::Ptr(next) => {
                layers.push(Layer::Pointer)?;
                inner = &**next;
            }
            CType::Array(next, length) => {
                layers.push(Layer::Array(*length))?;
                inner = &**next;
            }
            CType::Int(_) | CType::Void | CType::Struct(_) => break,
        }
    }
    let mut copy = copy_of_last(alloc, inner)?;
    'up: while let Some(layer) = layers.pop() {
        copy = with_layer(alloc, copy, layer)?;
    }
    Ok(copy)
}

fn with_layer(alloc: Global, t: CType, layer: Layer) -> Result<CType, AllocError>
    ensures { IfOk result (λ u. type_of u ≡ with_layer (type_of t) layer) }
{
    let inner = Box::new(alloc, t)?;
    match layer {
        Layer::Pointer => Ok(CType::Ptr(inner)),
        Layer::Array(length) => Ok(CType::Array(inner, length)),
    }
}

// A copy of a type that is no pointer and no array.
fn copy_of_last(alloc: Global, t: &CType) -> Result<CType, AllocError>
    requires { IsLast (type_of t.now) }
    ensures { IfOk result (λ copy. type_of copy ≡ type_of t.now) }
{
    match t {
        CType::Int(integer) => Ok(CType::Int(*integer)),
        CType::Struct(name) => Ok(CType::Struct(name.clone()?)),
        CType::Void | CType::Ptr(_) | CType::Array(_, _) => Ok(CType::Void),
    }
}
