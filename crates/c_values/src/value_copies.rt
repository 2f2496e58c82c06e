//! Values that are copied. A value may be as deep as a type, so this goes down along the last parts by a loop.

ghost use Rattle.std.specs.Prelude.{◌≡◌, [], ◌∷◌, ◌++◌, false, IfOk, IsOk, IfNone, IfSome};
ghost use Rattle.c_values.specs.Value.{Parts};
ghost use Rattle.c_values.specs.CodeValue.{value_of};
ghost use Rattle.c_values.specs.CodeParts.{values_in, has_parts, IsLeaf, with_front};

use crate::values::Value;
use std::alloc::{AllocError, Global};

/// A copy of a value. Without parts it takes no memory.
pub fn copy_value(alloc: Global, value: &Value) -> Result<Value, AllocError>
    ensures copy { IfOk result (λ copy. value_of copy ≡ value_of value.now) }
    ensures scalar { has_parts (value_of value.now) ≡ false → IsOk result }
{
    match value {
        Value::Parts(_) => copy_of(alloc, value),
        Value::Word(_) | Value::Number(_) | Value::Truth(_) => Ok(copy_of_leaf(alloc, value)),
    }
}

#[cycle(copy)]
#[tactic(auto, using(crate::proofs::Joined::with_fronts_push))]
fn copy_of(alloc: Global, value: &Value) -> Result<Value, AllocError>
    ensures { IfOk result (λ copy. value_of copy ≡ value_of value.now) }
{
    let mut fronts = Vec::new(alloc);
    let mut inner = value;
    'down: while let Some((last, front)) = last_part(inner) {
        fronts.push(copies_of(alloc, front)?)?;
        inner = last;
    }
    let mut copy = copy_of_leaf(alloc, inner);
    'up: while let Some(front) = fronts.pop() {
        copy = with_last(front, copy)?;
    }
    Ok(copy)
}

#[cycle(copy)]
fn copies_of(alloc: Global, values: &[Value]) -> Result<Vec<Value>, AllocError>
    ensures { IfOk result (λ copies. values_in copies.items ≡ values_in values.now) }
{
    let mut copies = Vec::new(alloc);
    for value in values {
        copies.push(copy_of(alloc, value)?)?;
    }
    Ok(copies)
}

// A copy of a value without parts.
fn copy_of_leaf(alloc: Global, value: &Value) -> Value
    requires { IsLeaf (value_of value.now) }
    ensures { value_of result ≡ value_of value.now }
{
    match value {
        Value::Word(word) => Value::Word(*word),
        Value::Number(number) => Value::Number(*number),
        Value::Truth(truth) => Value::Truth(*truth),
        Value::Parts(_) => Value::Parts(Vec::new(alloc)),
    }
}

// The value of these parts and one more.
fn with_last(front: Vec<Value>, last: Value) -> Result<Value, AllocError>
    ensures { IfOk result (λ whole. value_of whole ≡ with_front front (value_of last)) }
{
    let mut parts = front;
    parts.push(last)?;
    Ok(Value::Parts(parts))
}

// The last part of a value, and those before it.
fn last_part(value: &Value) -> Option<(&Value, &[Value])>
    ensures some { IfSome result
        (λ (last, front). value_of value.now ≡ Parts (values_in (front.now ++ last.now ∷ []))) }
    ensures none { IfNone result (IsLeaf (value_of value.now)) }
{
    match value {
        Value::Parts(parts) => parts.split_last(),
        Value::Word(_) | Value::Number(_) | Value::Truth(_) => None,
    }
}
